//! The numbers of a move, and the factors of its type.
ghost use Rattle.std.specs.Prelude.{◌≡◌, ◌<◌, ◌≤◌, slice_index};
ghost use Rattle.ps_mon.specs.Facts.{AreFair, IsFairMove, figures};
ghost use Rattle.ps_mon.specs.Moves.{move_of, factors_on, move_factors};

use crate::facts::{Facts, MoveData, STRUGGLE};

/// The numbers of a move; Struggle's past the indices of the dex.
#[tactic(auto, unfolding(crate::specs::Facts::figures))]
pub fn move_data(facts: Facts<'_>, mv: u16) -> MoveData
    requires { AreFair (figures facts) }
    ensures value { result ≡ move_of (figures facts.entry) mv }
    ensures fair { IsFairMove result }
{
    match facts.moves.get(mv as usize) {
        Some(data) => *data,
        None => *facts.struggle,
    }
}

#[tactic(auto, unfolding(crate::specs::Facts::figures))]
fn type_factors(facts: Facts<'_>, kind: u8, types: [u8; 2]) -> [u8; 2]
    requires fair { AreFair (figures facts) }
    requires kind { kind < 32 }
    requires first { slice_index types 0 < 32 }
    requires second { slice_index types 1 < 32 }
    ensures value { result ≡ factors_on (figures facts.entry) kind types }
    ensures first { slice_index result 0 ≤ 20 }
    ensures second { slice_index result 1 ≤ 20 }
{
    let tenths = facts.factors[kind as usize];
    let one = tenths[types[0] as usize];
    let two = if types[0] == types[1] {
        10
    } else {
        tenths[types[1] as usize]
    };
    [one, two]
}

/// What a move's type does to each of two types, in tenths: 0, 5, 10 or 20. Who has one type has it twice, and the
/// second factor is then 10. Struggle does 10 to every type.
#[tactic(auto, unfolding(crate::specs::Moves::move_factors))]
pub fn factors(facts: Facts<'_>, mv: u16, types: [u8; 2]) -> [u8; 2]
    requires fair { AreFair (figures facts) }
    requires first { slice_index types 0 < 32 }
    requires second { slice_index types 1 < 32 }
    ensures value { result ≡ move_factors (figures facts.entry) mv types }
    ensures first { slice_index result 0 ≤ 20 }
    ensures second { slice_index result 1 ≤ 20 }
{
    if mv == STRUGGLE {
        return [10, 10];
    }
    type_factors(facts, move_data(facts, mv).kind, types)
}
