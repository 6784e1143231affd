//! What a side can choose.

/// A choice. Slots and positions count from 1.
#[derive(Clone, Copy, Debug, PartialEq, Eq)]
pub enum Choice {
    /// Uses the move in a slot.
    Move(u8),
    /// Uses Struggle.
    Struggle,
    /// Goes on with a long move, or recharges.
    Continue,
    /// Sends in the member at a position.
    Switch(u8),
    /// Puts the team into an order before it is sent out: the positions of all its members, and 0 behind the last.
    Team([u8; 6]),
    /// Nothing: of a side that isn't asked.
    Pass,
}

/// Why a choice can't be.
#[derive(Clone, Copy, Debug, PartialEq, Eq)]
pub enum ChoiceFault {
    /// The side isn't asked.
    NotYourTurn,
    /// A side that is asked passes, a move is chosen where a member must come in, or something else than an order where one
    /// is asked for, or an order where none is.
    WrongPhase,
    /// The member must go on with what holds it; or it goes on and nothing holds it.
    Locked,
    /// There is no such slot; or Struggle is chosen while a slot is usable.
    NoSuchMove,
    /// The slot has no PP left.
    NoPp,
    /// The slot is disabled.
    Disabled,
    /// There is no such position; or what should be an order isn't one.
    NoSuchMember,
    /// The member at that position is active.
    AlreadyOut,
    /// The member at that position has fainted.
    Fainted,
}
