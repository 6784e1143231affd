//! A use of a slot.
ghost use Rattle.std.specs.Prelude.{◌≡◌, ◌<◌, ℕ};
ghost use Rattle.ps_mon.specs.Valid.{IsSound, IsSide};
ghost use Rattle.ps_mon.specs.Known.{AreKnown};
ghost use Rattle.ps_mon.specs.Reading.{side_of};
ghost use Rattle.ps_mon.specs.Slots.{slot_count_now};
ghost use Rattle.ps_mon.specs.Keeping.{Keeps};
ghost use Rattle.ps_mon.specs.Spending.{spent, copied_after_use, side_after_use, after_use};

use crate::record::{Battle, CopiedSlots, SideState};
use crate::team::MoveSlot;

fn spend_slot(slot: &mut MoveSlot)
    ensures { slot.new ≡ spent slot.old }
{
    slot.pp = slot.pp.saturating_sub(1);
}

fn spend_copied(copied: &CopiedSlots, slot: u8) -> CopiedSlots
    requires { slot < 4 }
    ensures { result ≡ copied_after_use copied.now slot }
{
    let mut after = *copied;
    spend_slot(&mut after.slots[slot as usize]);
    after
}

#[tactic(auto, unfolding(crate::specs::Spending::side_after_use))]
fn use_slot(side: &mut SideState, slot: u8)
    requires side { IsSide side.old }
    requires slot { slot < 4 }
    ensures { side.new ≡ side_after_use side.old slot }
{
    match side.vol.slots.copied {
        Some(copied) => side.vol.slots.copied = Some(spend_copied(&copied, slot)),
        None => {
            let m = &mut side.members[side.order[0] as usize];
            spend_slot(&mut m.slots[slot as usize]);
        }
    }
}

impl Battle {
    /// The active member of a side, 0 or 1, uses a slot, from 0: its PP falls by 1, if there is any.
    #[tactic(auto, unfolding(crate::specs::Spending::after_use))]
    pub fn spend(&mut self, user: u8, slot: u8)
        requires sound { IsSound self.old }
        requires user { user < 2 }
        requires slot { slot < 4 }
        ensures value { self.new ≡ after_use self.old user slot }
        ensures sound { IsSound self.new }
        ensures known { (moves : ℕ) → AreKnown moves self.old → AreKnown moves self.new }
        ensures kept { (s : ℕ) → s < 2 → Keeps s self.old self.new }
    {
        let mut side = self.sides[user as usize];
        use_slot(&mut side, slot);
        self.sides[user as usize] = side;
    }
}
