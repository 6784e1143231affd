//! What a configuration says.
ghost use Rattle.std.specs.Prelude.{◌≡◌};

use ps_base::id::Id;
use ps_base::list::List;
use ps_base::text::Text;
use ps_data::ids::HasId;
use ps_data::table::Table;
use ps_group::groups::Groups;
use ps_rules::formats::Formats;

/// A chat room that is open from the start.
#[derive(Debug)]
pub struct ChatRoom {
    /// The id, which no other room has and which isn't empty.
    pub id: Id,
    /// The title for people, without control characters. It may be empty.
    pub title: Text,
}

// By hand, so that who drops one has one call to prove.
impl Drop for ChatRoom {
    fn drop(self) {
        let ChatRoom { id: _, title: _ } = self;
    }
}

impl HasId for ChatRoom {
    ghost id_of = { λ r. r.id };

    fn id(&self) -> &str {
        self.id.as_str()
    }
}

/// A registered name.
#[derive(Debug)]
pub struct Registered {
    /// The id of the name, which no other one has and which isn't empty.
    pub id: Id,
    /// The text that its user has to know. It may be empty.
    pub secret: Text,
    /// The index of its group in the list of groups.
    pub rank: u8,
}

// By hand, so that who drops one has one call to prove.
impl Drop for Registered {
    fn drop(self) {
        let Registered {
            id: _,
            secret: _,
            rank: _,
        } = self;
    }
}

impl HasId for Registered {
    ghost id_of = { λ u. u.id };

    fn id(&self) -> &str {
        self.id.as_str()
    }
}

/// What a configuration says, key by key.
#[derive(Debug, Drop)]
pub struct Settings {
    /// The groups, highest first: 1 to 16.
    pub groups: Groups,
    /// The lowest rank that counts as staff: an index in the list of groups.
    pub staff: u8,
    /// The chat rooms in order: 1 to 16.
    pub rooms: Table<ChatRoom>,
    /// The registered names in order.
    pub users: Table<Registered>,
    /// The rulesets and the formats.
    pub formats: Formats,
    /// A text of 1 to 32 letters and digits, which the texts begin with that log-ins sign.
    pub nonce: Text,
    /// What the seeds of battles are drawn from.
    pub seed: u64,
    /// The seeds of the first battles, in order.
    pub seeds: List<u64>,
    /// Whether the file has the key `nonce`.
    pub gives_nonce: bool,
    /// Whether the file has the key `seed`.
    pub gives_seed: bool,
}
