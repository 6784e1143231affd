//! What came of a match.

/// Who beat whom in a match, by the numbers of their connections.
#[derive(Clone, Copy, Debug, PartialEq, Eq)]
pub struct Win {
    /// Who won.
    pub winner: u8,
    /// Who was beaten.
    pub loser: u8,
}
