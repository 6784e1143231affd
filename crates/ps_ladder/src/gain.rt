//! How many points a won battle moves.
ghost use Rattle.std.specs.Prelude.{◌≡◌, ◌≤◌, pos};
ghost use Rattle.ps_ladder.specs.Gains.{distance, expected, winner_expected, gain_of};

/// How far two ratings are apart.
pub fn distance(a: i32, b: i32) -> u32
    ensures { result ≡ distance a b }
{
    a.abs_diff(b)
}

/// How many of 1000 battles the player with the higher rating is expected to win, so many points above the
/// other: 500 to 909.
#[tactic(auto, unfolding(crate::specs::Gains::expected))]
pub fn expected(apart: u32) -> u32
    ensures value { result ≡ expected apart }
    ensures high { result ≤ 909 }
{
    if apart >= 400 {
        909
    } else if apart >= 375 {
        896
    } else if apart >= 350 {
        882
    } else if apart >= 325 {
        867
    } else if apart >= 300 {
        849
    } else if apart >= 275 {
        830
    } else if apart >= 250 {
        808
    } else if apart >= 225 {
        785
    } else if apart >= 200 {
        760
    } else if apart >= 175 {
        733
    } else if apart >= 150 {
        703
    } else if apart >= 125 {
        673
    } else if apart >= 100 {
        640
    } else if apart >= 75 {
        606
    } else if apart >= 50 {
        571
    } else if apart >= 25 {
        536
    } else {
        500
    }
}

/// How many of 1000 battles a winner at one rating was expected to win against a loser at another.
fn winner_expected(winner: i32, loser: i32) -> u32
    ensures value { result ≡ winner_expected winner loser }
    ensures high { result ≤ 1000 }
{
    let expected = expected(distance(winner, loser));
    if winner < loser {
        1000 - expected
    } else {
        expected
    }
}

#[tactic(auto, unfolding(crate::specs::Gains::gain_of))]
fn gain(winner: i32, loser: i32) -> u32
    ensures value { result ≡ gain_of winner loser }
    ensures high { result ≤ 32 }
{
    32 * (1000 - winner_expected(winner, loser)) / 1000
}

/// How many points a winner at one rating takes from a loser at another: 2 to 29.
pub fn gain_of(winner: i32, loser: i32) -> i32
    ensures value { result ≡ pos (gain_of winner loser) }
    ensures high { gain_of winner loser ≤ 32 }
{
    gain(winner, loser) as i32
}
