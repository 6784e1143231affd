//! What an allowed command comes to, worked out before anything changes.
use crate::game::Game;
use crate::kept::KeptTeam;
use crate::notice::Notice;
use ps_base::badge::Badge;
use ps_base::id::Id;
use ps_base::list::List;
use ps_ladder::searches::Search;
use ps_packed::team::Team;
use rules_start::start::Start;

/// What is still to be done, with all that was found for it.
#[derive(Drop)]
pub(crate) enum Change {
    /// Nothing.
    Nothing,
    /// An Open or a Name, at the users.
    Users,
    /// A Quit: who had this id leaves.
    Quit {
        me: Option<Id>,
    },
    /// A user's team is kept, or forgotten.
    Team {
        me: Id,
        team: Option<Team>,
    },
    /// A user waits, with the team of this moment.
    Wait {
        kept: KeptTeam,
        search: Search,
    },
    /// A user's search at its rating is matched with the user's, and their battle starts.
    Match {
        me: Id,
        format: Id,
        rating: i32,
        user: Id,
        game: Option<Game>,
    },
    /// A user's searches end.
    CancelSearch {
        me: Id,
    },
    /// A user challenges somebody, with the team of this moment.
    Challenge {
        kept: KeptTeam,
    },
    /// A user's challenge ends.
    CancelChallenge {
        me: Id,
    },
    /// The user's challenge to who rejects it ends.
    Reject {
        me: Id,
        user: Id,
    },
    /// The user's challenge to who accepts it ends, and their battle starts.
    Accept {
        me: Id,
        user: Id,
        game: Option<Game>,
    },
    /// A Block or an Unblock of a user.
    Blocks {
        me: Id,
    },
    /// A battle ended.
    Report {
        number: u32,
        winner: Option<u8>,
    },
}

/// What an allowed command tells, gives and changes.
#[derive(Drop)]
pub(crate) struct Allowed {
    pub(crate) notices: List<Notice>,
    /// The badge that a Name gives.
    pub(crate) badge: Option<Badge>,
    /// What the battle starts with that the command starts.
    pub(crate) start: Option<Start>,
    pub(crate) change: Change,
}
