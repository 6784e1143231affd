//! Writing what changed the slots of an active member.
ghost use Rattle.std.specs.Prelude.{◌≡◌, ◌≤◌, ◌<◌, ◌-◌, ℕ};
ghost use Rattle.ps_mon.specs.Known.{AreKnown, IsSideKnown, AreChangedKnown};
ghost use Rattle.ps_mon.specs.Keeping.{Keeps, StillStands};
ghost use Rattle.ps_mon.specs.Valid.{IsSound, IsValid, IsSide, AreChanged};
ghost use Rattle.ps_mon.specs.Slots.{slot_count_now};
ghost use Rattle.ps_copy.specs.Changing.{with_slots, copied_with, with_mimic, copied_at, copied_from};

use ps_mon::record::{Battle, ChangedSlots, CopiedSlots, SideState};
use ps_mon::team::MoveSlot;

/// Changes the slots of the active member of side `user`, 0 or 1, and nothing else.
#[tactic(auto, unfolding(crate::specs::Changing::with_slots))]
pub(crate) fn put_slots(battle: &mut Battle, user: u8, slots: &ChangedSlots)
    requires sound { IsSound battle.old }
    requires user { user < 2 }
    requires slots { AreChanged slots.now }
    ensures value { battle.new ≡ with_slots battle.old user slots.now }
    ensures sound { IsSound battle.new }
    ensures whole { IsValid battle.old → IsValid battle.new }
    ensures still { (before : Battle) → StillStands before battle.new → StillStands before battle.old }
    ensures known { (moves : ℕ) → AreChangedKnown moves slots.now → AreKnown moves battle.old → AreKnown moves battle.new }
    ensures kept { (before : Battle) → Keeps user before battle.old → Keeps user before battle.new }
{
    let mut side = battle.sides[user as usize];
    side.vol.slots = *slots;
    battle.sides[user as usize] = side;
}

fn copied_with_move(copied: &CopiedSlots, slot: u8, mv: u16) -> CopiedSlots
    requires { slot < 4 }
    ensures { result ≡ copied_with copied.now slot mv }
{
    let mut after = *copied;
    after.slots[slot as usize].mv = mv;
    after
}

/// A move in the place of that of a slot, from 0: in the slots that Transform copied, where there are such. PP and the greatest PP stay
/// the slot's own.
#[tactic(auto, unfolding(crate::specs::Changing::with_mimic))]
pub(crate) fn mimicked(slots: &ChangedSlots, slot: u8, mv: u16) -> ChangedSlots
    requires fit { AreChanged slots.now }
    requires slot { slot < 4 }
    ensures value { result ≡ with_mimic slots.now slot mv }
    ensures fit { AreChanged result }
    ensures known { (moves : ℕ) → mv < moves → AreChangedKnown moves slots.now → AreChangedKnown moves result }
{
    let mut after = *slots;
    match slots.copied {
        Some(copied) => after.copied = Some(copied_with_move(&copied, slot, mv)),
        None => after.mimic[slot as usize] = Some(mv),
    }
    after
}

#[tactic(auto, unfolding(crate::specs::Changing::copied_at))]
fn copied_slot(side: &SideState, slot: u8) -> MoveSlot
    requires side { IsSide side.now }
    requires slot { slot < 4 }
    ensures value { result ≡ copied_at side.now slot }
{
    if slot < side.slot_count() {
        MoveSlot {
            mv: side.slot(slot).mv,
            pp: 5,
            max_pp: 5,
        }
    } else {
        MoveSlot {
            mv: 0,
            pp: 0,
            max_pp: 0,
        }
    }
}

/// The slots in force of a side, as Transform copies them: with 5 PP of 5.
#[tactic(auto, unfolding(crate::specs::Changing::copied_from))]
pub(crate) fn copied_slots(side: &SideState) -> ChangedSlots
    requires { IsSide side.now }
    ensures value { result ≡ copied_from side.now }
    ensures fit { AreChanged result }
    ensures known { (moves : ℕ) → IsSideKnown moves side.now → AreChangedKnown moves result }
{
    let slots = [
        copied_slot(side, 0),
        copied_slot(side, 1),
        copied_slot(side, 2),
        copied_slot(side, 3),
    ];
    let count = side.slot_count();
    ChangedSlots {
        mimic: [None; 4],
        copied: Some(CopiedSlots { slots, count }),
    }
}
