//! Open challenges.
ghost use Rattle.std.specs.Prelude.{◌≡◌, IfOk};
ghost use Rattle.ps_pms.specs.Lookups.{is_by, is_to, is_of, is_with, partner};
ghost use Rattle.std.specs.Option.{option_copied};

use ps_base::id::Id;
use std::alloc::{AllocError, Global};

/// An open challenge: who made it, who got it, and the id of the format.
#[derive(Debug)]
pub struct Asked {
    pub by: Id,
    pub to: Id,
    pub format: Id,
}

// By hand, so that who drops one has one call to prove.
impl Drop for Asked {
    fn drop(self) {
        let Asked {
            by: _,
            to: _,
            format: _,
        } = self;
    }
}

impl Asked {
    /// The same challenge.
    pub fn copy(&self, alloc: Global) -> Result<Asked, AllocError>
        ensures { IfOk result (λ a. a ≡ self.now) }
    {
        Ok(Asked {
            by: self.by.copy(alloc)?,
            to: self.to.copy(alloc)?,
            format: self.format.copy(alloc)?,
        })
    }

    /// Whether this user made it.
    pub fn is_by(&self, user: &Id) -> bool
        ensures { result ≡ is_by user.now self.now }
    {
        self.by.as_str() == user.as_str()
    }

    /// Whether this user got it.
    pub fn is_to(&self, user: &Id) -> bool
        ensures { result ≡ is_to user.now self.now }
    {
        self.to.as_str() == user.as_str()
    }

    /// Whether the one user made it and the other got it.
    pub fn is_of(&self, by: &Id, to: &Id) -> bool
        ensures { result ≡ is_of by.now to.now self.now }
    {
        if !self.is_by(by) {
            return false;
        }
        self.is_to(to)
    }

    /// Whether this user made it or got it.
    pub fn is_with(&self, user: &Id) -> bool
        ensures { result ≡ is_with user.now self.now }
    {
        if self.is_by(user) {
            return true;
        }
        self.is_to(user)
    }

    /// With whom this user has it; `None` where the user neither made nor got it.
    pub fn partner(&self, user: &Id) -> Option<&Id>
        ensures { option_copied result ≡ partner user.now self.now }
    {
        if self.is_by(user) {
            return Some(&self.to);
        }
        if self.is_to(user) {
            return Some(&self.by);
        }
        None
    }
}
