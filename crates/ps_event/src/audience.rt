//! Who sees what a room tells.
use crate::side::Side;

/// Who sees a line of a room or an event of a battle.
#[derive(Clone, Copy, Debug, PartialEq, Eq)]
pub enum Audience {
    /// Every member.
    All,
    /// Every member, in its secret form the player of this side and in its public form the others.
    Split(Side),
    /// The player of this side.
    Side(Side),
    /// Members of this rank or a higher one. A rank is a place in the list of groups, 0 the highest.
    Rank(u8),
    /// The connection with this number, member or not.
    One(u32),
}
