//! The order of the entrants.
ghost use Rattle.std.specs.Prelude.{◌≡◌, ◌≤◌, ◌<◌, ◌-◌, length};
ghost use Rattle.ps_tour.specs.Brackets.{entrants, shuffled, order};

use arrayvec::ArrayVec;
use ps_calc::draws::Rng5;

/// The entrants 1 to `n`.
fn entrants(n: u8) -> ArrayVec<u8, 16>
    requires { n ≤ 16 }
    ensures value { result.items ≡ entrants n }
    ensures len { length result.items ≡ n }
{
    let mut all = ArrayVec::new();
    for i in 0..n {
        all.push(i + 1);
    }
    all
}

/// Each entrant from the last place down to place 1 changes places with one that is drawn.
#[tactic(auto, using(crate::proofs::OrderLemmas::none_left, crate::proofs::OrderLemmas::one_more))]
fn shuffle(order: &mut [u8], x: u64, last: u8)
    requires { last < length order.old }
    ensures after { order.new ≡ shuffled x last order.old }
    ensures len { length order.new ≡ length order.old }
{
    if last == 0 {
        return;
    }
    let mut rng = Rng5 { x };
    let other = rng.draw(u32::from(last) + 1);
    order.swap(usize::from(last), other as usize);
    shuffle(order, rng.x, last - 1)
}

/// The order that a seed draws.
pub(crate) fn order(n: u8, seed: u64) -> ArrayVec<u8, 16>
    requires some { 2 ≤ n }
    requires few { n ≤ 16 }
    ensures value { result.items ≡ order n seed }
    ensures len { length result.items ≡ n }
{
    let mut drawn = entrants(n);
    shuffle(drawn.as_mut_slice(), seed, n - 1);
    drawn
}
