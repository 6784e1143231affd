//! The bracket of a single elimination.
ghost use Rattle.std.specs.Prelude.{◌≡◌, ◌≤◌, ◌-◌, ◌++◌, ◌∷◌, [], ◌↔◌, None, IsSome, take, drop, length};
ghost use Rattle.std.specs.Option.{option_map};
ghost use Rattle.ps_tour.specs.Brackets.{Round, size, order, first_with, first_round, next_round, going_on, after_win, open_match};
ghost use Rattle.ps_tour.specs.Brackets.{first_pair, champion, champion_with, IsOneOf, IsRound};

use crate::order::order;
use arrayvec::ArrayVec;
use std::marker::Model;

/// Who has come through to the next round, and who still meets in this one, in pairs.
#[derive(Debug, Drop)]
pub struct Bracket {
    through: ArrayVec<u8, 16>,
    playing: ArrayVec<u8, 16>,
}

impl Model for Bracket {
    ghost use Rattle.ps_tour.specs.Brackets.{Round, IsRound};

    ghost Value = { Round };

    ghost view = { λ b. record { through = b.through.items; playing = b.playing.items } };

    ghost invariant = { λ b. IsRound (record { through = b.through.items; playing = b.playing.items }) };
}

#[tactic(auto, unfolding(crate::specs::Brackets::size))]
fn size(n: u8) -> u8
    ensures { result ≡ size n }
{
    if n <= 2 {
        return 2;
    }
    if n <= 4 {
        return 4;
    }
    if n <= 8 {
        return 8;
    }
    16
}

/// The elements from a place on.
fn behind(entered: &[u8], place: usize) -> ArrayVec<u8, 16>
    requires few { length entered.now ≤ 16 }
    requires within { place ≤ length entered.now }
    ensures { result.items ≡ drop place entered.now }
{
    let mut rest = ArrayVec::new();
    for entrant in &entered[place..] {
        rest.push(*entrant);
    }
    rest
}

fn first_pair(playing: &[u8]) -> Option<(u8, u8)>
    ensures { result ≡ first_pair playing.now }
{
    match playing {
        [] => None,
        [_] => None,
        [first, second, ..] => Some((*first, *second)),
    }
}

fn champion_with(through: &[u8], playing: &[u8]) -> Option<u8>
    ensures { result ≡ champion_with through.now playing.now }
{
    match (through, playing) {
        ([], []) => None,
        ([first, ..], []) => Some(*first),
        (_, [_, ..]) => None,
    }
}

/// The next round begins where nobody is to meet in this one any more, unless one alone came through.
#[tactic(auto, using(crate::proofs::RoundLemmas::still_playing, crate::proofs::RoundLemmas::alone, crate::proofs::RoundLemmas::turned))]
fn going_on(through: ArrayVec<u8, 16>, playing: ArrayVec<u8, 16>) -> Bracket
    requires { IsRound (going_on through.items playing.items) }
    ensures { result ≡ going_on through.items playing.items }
{
    if !playing.is_empty() {
        return Bracket { through, playing };
    }
    if through.len() <= 1 {
        return Bracket { through, playing };
    }
    Bracket {
        through: playing,
        playing: through,
    }
}

/// The round after the open match.
#[tactic(auto, using(crate::proofs::RoundLemmas::few_through, crate::proofs::RoundLemmas::few_playing, crate::proofs::RoundLemmas::two_there))]
fn after_win(through: &[u8], playing: &[u8], winner: u8) -> Bracket
    requires stands { IsRound (record { through = through.now; playing = playing.now }) }
    requires open_match { IsOneOf winner (first_pair playing.now) }
    ensures { result ≡ after_win winner (record { through = through.now; playing = playing.now }) }
{
    let mut through = behind(through, 0);
    through.push(winner);
    going_on(through, behind(playing, 2))
}

impl Bracket {
    /// The bracket of the entrants 1 to `n`, 2 to 16 of them, in the order that the seed draws. As many as lack to a power of
    /// two have a bye in the first round, the first of the order; the others meet in consecutive pairs.
    #[tactic(auto, using(crate::proofs::RoundLemmas::first_is_round, crate::proofs::RoundLemmas::size_enough, crate::proofs::RoundLemmas::few_byes))]
    pub fn new(n: u8, seed: u64) -> Bracket
        requires some { 2 ≤ n }
        requires few { n ≤ 16 }
        ensures { result ≡ first_round n seed }
    {
        let mut through = order(n, seed);
        let byes = usize::from(size(n) - n);
        let playing = behind(through.as_slice(), byes);
        through.truncate(byes);
        Bracket { through, playing }
    }

    /// The two who meet next; `None` exactly where there is a champion.
    #[tactic(auto, using(crate::proofs::RoundLemmas::none_open))]
    pub fn next(&self) -> Option<(u8, u8)>
        ensures value { result ≡ open_match self.now }
        ensures none { result ≡ None ↔ IsSome (champion self.now) }
    {
        first_pair(self.playing.as_slice())
    }

    /// Tells who won the open match.
    pub fn report(&mut self, winner: u8)
        requires { IsOneOf winner (open_match self.old) }
        ensures { self.new ≡ after_win winner self.old }
    {
        *self = after_win(self.through.as_slice(), self.playing.as_slice(), winner);
    }

    /// Who won all; `None` exactly where a match is open.
    #[tactic(auto, using(crate::proofs::RoundLemmas::no_champion))]
    pub fn champion(&self) -> Option<u8>
        ensures value { result ≡ champion self.now }
        ensures none { result ≡ None ↔ IsSome (open_match self.now) }
    {
        champion_with(self.through.as_slice(), self.playing.as_slice())
    }
}
