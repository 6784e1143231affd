//! The slots in force: a member's own, those with a move of Mimic, or those that Transform copied.
ghost use Rattle.std.specs.Prelude.{◌≡◌, ◌<◌, ◌≤◌, ℕ};
ghost use Rattle.ps_mon.specs.Valid.{IsSide};
ghost use Rattle.ps_mon.specs.Reading.{slot_of};
ghost use Rattle.ps_mon.specs.Slots.{slot_count_now, slot_now, is_ready, mimicked};
ghost use Rattle.ps_mon.specs.Duels.{ready_of};

use crate::record::SideState;
use crate::team::MoveSlot;

fn with_mimic(mimic: Option<u16>, slot: MoveSlot) -> MoveSlot
    ensures { result ≡ mimicked mimic slot }
{
    match mimic {
        None => slot,
        Some(mv) => MoveSlot { mv, ..slot },
    }
}

impl SideState {
    /// How many slots the active member has, 1 to 4.
    #[tactic(auto, unfolding(crate::specs::Slots::slot_count_now))]
    pub fn slot_count(&self) -> u8
        requires { IsSide self.now }
        ensures value { result ≡ slot_count_now self.now }
        ensures low { 1 ≤ result }
        ensures high { result ≤ 4 }
    {
        match &self.vol.slots.copied {
            Some(copied) => copied.count,
            None => self.members[self.order[0] as usize].slot_count,
        }
    }

    /// A slot of the active member, from 0; one that it hasn't means nothing.
    #[tactic(auto, unfolding(crate::specs::Slots::slot_now))]
    pub fn slot(&self, slot: u8) -> MoveSlot
        requires side { IsSide self.now }
        requires slot { slot < 4 }
        ensures value { result ≡ slot_now self.now slot }
    {
        match &self.vol.slots.copied {
            Some(copied) => copied.slots[slot as usize],
            None => {
                let own = self.members[self.order[0] as usize].slots[slot as usize];
                with_mimic(self.vol.slots.mimic[slot as usize], own)
            }
        }
    }

    /// Whether a slot of the active member, from 0, is there and has PP left.
    #[tactic(auto, unfolding(crate::specs::Slots::is_ready))]
    pub fn is_ready(&self, slot: u8) -> bool
        requires side { IsSide self.now }
        requires slot { slot < 4 }
        ensures { result ≡ is_ready self.now slot }
    {
        slot < self.slot_count() && self.slot(slot).pp > 0
    }

    /// Which slots of the active member are there and have PP left.
    pub(crate) fn ready(&self) -> [bool; 4]
        requires { IsSide self.now }
        ensures { result ≡ ready_of self.now }
    {
        [
            self.is_ready(0),
            self.is_ready(1),
            self.is_ready(2),
            self.is_ready(3),
        ]
    }
}
