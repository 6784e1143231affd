//! Badges.
ghost use Rattle.std.specs.Prelude.{◌≡◌, IfOk};

use crate::name::Name;
use std::alloc::{AllocError, Global};

/// Who sends: a name, and its group's index in the list of groups, 0 the highest.
#[derive(Debug)]
pub struct Badge {
    pub name: Name,
    pub rank: u8,
}

// By hand, so that who drops one has one call to prove.
impl Drop for Badge {
    fn drop(self) {
        let Badge { name: _, rank: _ } = self;
    }
}

impl Badge {
    /// The same badge.
    pub fn copy(&self, alloc: Global) -> Result<Badge, AllocError>
        ensures { IfOk result (λ b. b ≡ self.now) }
    {
        Ok(Badge {
            name: self.name.copy(alloc)?,
            rank: self.rank,
        })
    }
}
