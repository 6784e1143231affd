//! Numbers, in a list or in a set.
ghost use Rattle.std.specs.Prelude.{◌≡◌};
ghost use Rattle.ps_dex.specs.Species.{has_number};

use indexmap::IndexSet;

/// Whether a list has a number.
#[tactic(auto, unfolding(crate::specs::Species::has_number))]
pub fn has_number(numbers: &[u16], number: u16) -> bool
    ensures { result ≡ has_number number numbers.now }
{
    numbers.iter().any(|other| *other == number)
}

/// Whether a set has a number.
pub(crate) fn is_among(numbers: &IndexSet<u16>, number: u16) -> bool
    ensures { result ≡ has_number number numbers.now.keys }
{
    numbers.contains(&number)
}
