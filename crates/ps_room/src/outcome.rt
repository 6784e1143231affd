//! What comes of an entry.
use ps_base::why::Why;

/// Whether an entry was applied.
#[derive(Clone, Copy, Debug, PartialEq, Eq)]
pub enum Verdict {
    /// It was applied.
    Applied,
    /// It was refused, and changed nothing.
    Refused(Why),
}

/// The end of a battle.
#[derive(Clone, Copy, Debug, PartialEq, Eq)]
pub struct Ending {
    /// The battle's number, from 1.
    pub number: u32,
    /// The side that won, 0 or 1, or `None` for a tie.
    pub winner: Option<u8>,
}

/// What comes of an entry.
#[derive(Clone, Copy, Debug, PartialEq, Eq)]
pub struct RoomOut {
    pub verdict: Verdict,
    /// There where the entry ended the room's battle: never in a chat room.
    pub ended: Option<Ending>,
}
