//! What the hall answers to an entry.
use crate::notice::Notice;
use ps_base::badge::Badge;
use ps_base::hall_why::HallWhy;
use ps_base::list::List;
use rules_start::start::Start;

/// Whether an entry was applied.
#[derive(Debug, Drop)]
pub enum HallVerdict {
    /// It was.
    Applied,
    /// It was refused, for this reason, and changed nothing.
    Refused(HallWhy),
}

/// What an entry gives besides its lines.
#[derive(Debug, Drop)]
pub struct HallOut {
    pub verdict: HallVerdict,
    /// The badge that its sender has from this entry on, where it took a name.
    pub badge: Option<Badge>,
    /// What the battle starts with that this entry starts.
    pub start: Option<Start>,
}

/// What comes of an entry: what it gives, and whom it tells what.
#[derive(Debug, Drop)]
pub struct Told {
    pub out: HallOut,
    pub notices: List<Notice>,
}
