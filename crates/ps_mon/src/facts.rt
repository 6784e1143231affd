//! What is known of moves and types, in numbers.
ghost use Rattle.std.specs.Prelude.{◌≡◌};
ghost use Rattle.ps_mon.specs.Facts.{struggle};

use crate::effect::Effect;

/// The number of Struggle, past the index of every move of a dex.
pub const STRUGGLE: u16 = 1_024;

/// The numbers of a move.
#[derive(Clone, Copy, Debug, PartialEq, Eq)]
pub struct MoveData {
    /// The number of its type, below 32.
    pub kind: u8,
    /// Whether its type uses Special.
    pub special: bool,
    /// Whether its type's id is `normal` or `fighting`.
    pub contact: bool,
    /// 0 to 255.
    pub power: u8,
    /// In percent, 0 to 100; 0 never misses.
    pub accuracy: u8,
    /// How often a team member can use it, 1 to 64.
    pub pp: u8,
    /// -1 to 1; a higher one acts first.
    pub priority: i8,
    /// Whether its hits are critical more often.
    pub high: bool,
    /// What it does.
    pub effect: Effect,
}

/// The factor of an attacking type (first index) on a defending one, in tenths: 0, 5, 10 or 20.
pub type Factors = [[u8; 32]; 32];

/// What is known of moves and types.
#[derive(Clone, Copy, Debug)]
pub struct Facts<'a> {
    /// The moves of the dex, by their indices: at most 1,024.
    pub moves: &'a [MoveData],
    /// The factors of all types.
    pub factors: &'a Factors,
    /// Struggle, whose number is `STRUGGLE`. Its factors are 10 whatever `factors` has.
    pub struggle: &'a MoveData,
}

/// Struggle, which is built in: a strike of type 0, whose special flag and contact flag are given,
/// with power 50, accuracy 100, and half of what it dealt as recoil. Its PP, 1, never counts.
pub const fn struggle(special: bool, contact: bool) -> MoveData
    ensures { result ≡ struggle special contact }
{
    MoveData {
        kind: 0,
        special,
        contact,
        power: 50,
        accuracy: 100,
        pp: 1,
        priority: 0,
        high: false,
        effect: Effect::Recoil { by: 2 },
    }
}
