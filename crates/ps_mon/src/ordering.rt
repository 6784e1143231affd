//! A team in another order.
ghost use Rattle.std.specs.Prelude.{◌≡◌, ◌<◌, ◌-◌, ℕ, true};
ghost use Rattle.ps_mon.specs.Valid.{AllStand, IsSound, has_standing};
ghost use Rattle.ps_mon.specs.Known.{AreKnown};
ghost use Rattle.ps_mon.specs.Reading.{side_of};
ghost use Rattle.ps_mon.specs.Orders.{is_order, index_at, reordered, with_order};

use crate::record::{Battle, SideState};

/// The index of the member at a position, which counts from 1.
fn index_at(order: &[u8; 6], position: u8) -> u8
    ensures { result ≡ index_at order.now position }
{
    match order.get(position.saturating_sub(1) as usize) {
        None => 0,
        Some(index) => *index,
    }
}

#[tactic(auto, unfolding(crate::specs::Orders::reordered))]
fn reorder(side: &mut SideState, numbers: [u8; 6])
    ensures { side.new ≡ reordered side.old numbers }
{
    let [one, two, three, four, five, six] = numbers;
    let old = side.order;
    let order = [
        index_at(&old, one),
        index_at(&old, two),
        index_at(&old, three),
        index_at(&old, four),
        index_at(&old, five),
        index_at(&old, six),
    ];
    side.order = order;
}

impl Battle {
    /// Puts the team of a side, 0 or 1, into an order: the positions of all members, from 1, each once, and 0 behind the last.
    #[tactic(auto, unfolding(crate::specs::Orders::with_order))]
    pub fn set_order(&mut self, side: u8, numbers: [u8; 6])
        requires sound { IsSound self.old }
        requires side { side < 2 }
        requires order { is_order (side_of self.old side).count numbers ≡ true }
        ensures value { self.new ≡ with_order self.old side numbers }
        ensures sound { IsSound self.new }
        ensures known { (moves : ℕ) → AreKnown moves self.old → AreKnown moves self.new }
        ensures some { (s : ℕ) → s < 2 → has_standing (side_of self.old s) ≡ true → has_standing (side_of self.new s) ≡ true }
        ensures stand { (s : ℕ) → s < 2 → AllStand (side_of self.old s) → AllStand (side_of self.new s) }
        ensures foe { side_of self.new (1 - side) ≡ side_of self.old (1 - side) }
    {
        let mut mine = self.sides[side as usize];
        reorder(&mut mine, numbers);
        self.sides[side as usize] = mine;
    }
}
