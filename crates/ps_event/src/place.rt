//! What of a team can be hidden from the other side.
use crate::side::Side;

/// A place of a team.
#[derive(Clone, Copy, Debug, PartialEq, Eq)]
pub enum Place {
    /// A member, by its place in the team, from 0.
    Member(Side, u8),
    /// A move of a member: the member's place, and the slot, from 0.
    Slot(Side, u8, u8),
}
