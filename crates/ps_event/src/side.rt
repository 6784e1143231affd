//! The sides of a battle.

/// A side of a battle.
#[derive(Clone, Copy, Debug, PartialEq, Eq)]
pub enum Side {
    /// That of player 1.
    P1,
    /// That of player 2.
    P2,
}
