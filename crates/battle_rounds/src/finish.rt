//! How a battle ended.

/// How a battle ended.
#[derive(Clone, Copy)]
pub enum Finish {
    /// This side won, 0 or 1.
    Won(u8),
    /// Nobody won.
    Tied,
}
