//! What the calls of a hub answer.
use crate::pass::HallPass;
use ps_base::badge::Badge;
use ps_base::text::Text;
use ps_lines::order::Order;
use ps_room::outcome::{Ending, Verdict};
use rules_start::start::Start;

/// What an entry gave.
#[derive(Debug, Drop)]
pub struct HubOut {
    /// The badge that the connection has from now on, where it took a name.
    pub badge: Option<Badge>,
    /// What the battle starts with that an entry of the hall starts.
    pub start: Option<Start>,
    /// The end of a battle, where an entry of its room ended it.
    pub ended: Option<Ending>,
    /// What came of an entry of a room, where its place has one.
    pub verdict: Option<Verdict>,
}

/// Why a room isn't held.
#[derive(Clone, Copy, Debug, PartialEq, Eq)]
pub enum EnterFault {
    /// No room has the id, as far as the place tells that it names.
    NoSuchRoom,
    /// Somebody else has the turn at that place, or took one in between. `word` is the last word that was met.
    Busy { word: u64 },
    /// Out of memory.
    NoMemory,
}

/// Why a connection has no Open.
#[derive(Drop)]
pub enum AdmitFault {
    /// In the hall stands an entry under its number. The pass that met it comes back.
    Taken { opener: HallPass },
    /// Out of memory.
    NoMemory,
}

/// Why the Quits of a connection weren't all made.
#[derive(Clone, Copy, Debug, PartialEq, Eq)]
pub enum QuitFault {
    /// In a room stands an entry under its number that its pass there hasn't made.
    Taken,
    /// Out of memory, or a pass has made as many entries as it may.
    NoMemory,
}

/// Why there is no entry.
#[derive(Debug, Drop)]
pub enum HubFault {
    /// The connection has made as many entries at that place as a pass may.
    OwnLimit { room: Option<Text> },
    /// At that place stands an entry under the number of the connection that its pass hasn't made.
    Taken,
    /// No room has the id, as far as the place tells that it names.
    NoSuchRoom,
    /// Somebody else has the turn at that place, or took one in between. `word` is the last word that was met, and the order
    /// is the one that was handed in.
    Busy { word: u64, order: Order },
    /// Out of memory.
    NoMemory,
}
