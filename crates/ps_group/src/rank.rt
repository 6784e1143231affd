//! Ranks: indices in the list of groups, 0 the highest.
ghost use Rattle.std.specs.Prelude.{◌≡◌};
ghost use Rattle.ps_group.specs.Ranks.{higher, is_below};

/// The higher of two ranks, which is the lower number.
pub fn higher(a: u8, b: u8) -> u8
    ensures { result ≡ higher a b }
{
    if is_below(b, a) { a } else { b }
}

/// Whether a rank is lower than another one, which is where its number is greater.
pub fn is_below(rank: u8, other: u8) -> bool
    ensures { result ≡ is_below rank other }
{
    rank > other
}
