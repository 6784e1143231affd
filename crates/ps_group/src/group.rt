//! What a group list says.
ghost use Rattle.std.specs.Prelude.{◌≡◌, IfOk};

use ps_base::id::Id;
use ps_base::text::Text;
use ps_data::ids::HasId;
use std::alloc::{AllocError, Global};

/// What a group may be allowed to do.
#[derive(Clone, Copy, Debug, PartialEq, Eq)]
pub enum Perm {
    /// To announce something to a room.
    Announce,
    /// To leave a note for a room's staff.
    Modnote,
    /// To warn a member.
    Warn,
    /// To mute a member, and to end that.
    Mute,
    /// To ban a user from a room, and to end that.
    Ban,
    /// To set the lowest rank that may talk in a room.
    Modchat,
    /// To give a member a rank in a room.
    Promote,
}

/// Over whom a permission reaches: the letters of its text.
#[derive(Clone, Copy, Debug, PartialEq, Eq)]
pub struct Jurisdiction {
    /// `u`: those of a lower rank.
    pub under: bool,
    /// `s`: oneself.
    pub oneself: bool,
    /// `a`: everybody.
    pub all: bool,
}

/// The permissions that a group has of its own. Each that is `None` is the inherited group's.
#[derive(Clone, Copy, Debug, PartialEq, Eq)]
pub struct Permissions {
    pub announce: Option<Jurisdiction>,
    pub modnote: Option<Jurisdiction>,
    pub warn: Option<Jurisdiction>,
    pub mute: Option<Jurisdiction>,
    pub ban: Option<Jurisdiction>,
    pub modchat: Option<Jurisdiction>,
    pub promote: Option<Jurisdiction>,
}

/// A group.
#[derive(Debug)]
pub struct Group {
    /// What stands before the names of its users.
    pub symbol: char,
    /// The name in a configuration.
    pub id: Id,
    /// The name for people. It may be empty.
    pub name: Text,
    /// The symbol of the lower group whose permissions it has where it has none of its own.
    pub inherit: Option<char>,
    /// The permissions of its own.
    pub permissions: Permissions,
}

// By hand, so that who drops one has one call to prove.
impl Drop for Group {
    fn drop(self) {
        let Group {
            symbol: _,
            id: _,
            name: _,
            inherit: _,
            permissions: _,
        } = self;
    }
}

impl Group {
    /// The same group.
    pub fn copy(&self, alloc: Global) -> Result<Group, AllocError>
        ensures { IfOk result (λ g. g ≡ self.now) }
    {
        Ok(Group {
            symbol: self.symbol,
            id: self.id.copy(alloc)?,
            name: self.name.copy(alloc)?,
            inherit: self.inherit,
            permissions: self.permissions,
        })
    }
}

impl HasId for Group {
    ghost id_of = { λ g. g.id };

    fn id(&self) -> &str {
        self.id.as_str()
    }
}
