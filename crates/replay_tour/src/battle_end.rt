//! How a battle of a match ended.

/// How a battle ended, by the two who meet in it. The first of them, as the bracket has them, is side 0.
#[derive(Clone, Copy)]
pub enum BattleEnd {
    /// The first won.
    FirstWon,
    /// The second won.
    SecondWon,
    /// Nobody won.
    Tied,
}
