//! Disable: a slot of the foe can't be chosen for some acts.
ghost use Rattle.std.specs.Prelude.{◌≡◌, ◌≤◌, ◌<◌, ◌+◌, ◌-◌, ℕ, All, Some, IfSome};
ghost use Rattle.arrayvec.specs.ArrayVec.{array_vec_len};
ghost use Rattle.ps_mon.specs.Facts.{AreFair, figures};
ghost use Rattle.ps_mon.specs.Known.{AreKnown};
ghost use Rattle.ps_mon.specs.Keeping.{Keeps, StillStands};
ghost use Rattle.ps_mon.specs.Valid.{IsSound, IsValid};
ghost use Rattle.ps_mon.specs.Duels.{IsFit, IsDuelKnown};
ghost use Rattle.ps_hits.specs.Scenes.{scene};
ghost use Rattle.ps_hits.specs.Courses.{course};
ghost use Rattle.ps_copy.specs.Disabling.{ready_slots, disable_one, disable_row, told_disabled, disable_effect};

use arrayvec::ArrayVec;
use ps_event::event::{Event, Events};
use ps_event::numbers::EFFECT_DISABLE;
use ps_hits::scene::{draw, who};
use ps_hits::strike::lands;
use ps_mon::duel::Duel;
use ps_mon::facts::Facts;
use ps_mon::moves::move_data;
use ps_mon::record::{Battle, Disabled};

#[tactic(auto, unfolding(crate::specs::Disabling::ready_slots))]
fn slots_with_pp(ready: &[bool; 4]) -> ArrayVec<u8, 4>
    ensures value { result.items ≡ ready_slots ready.now }
    ensures inside { All (λ slot. slot < 4) result.items }
{
    let mut slots = ArrayVec::new();
    for slot in 0..4 {
        if !ready[slot as usize] {
            continue;
        }
        slots.push(slot);
    }
    slots
}

#[tactic(auto, unfolding(crate::specs::Disabling::disable_one))]
fn disable_drawn(duel: &mut Duel, slots: &ArrayVec<u8, 4>, out: &Events) -> u8
    requires fit { IsFit duel.old }
    requires some { 1 ≤ array_vec_len slots.now }
    requires slots { All (λ slot. slot < 4) slots.now.items }
    ensures value { Some result ≡ (disable_one slots.now.items (scene duel.old out.now)).0 }
    ensures after { scene duel.new out.now ≡ (disable_one slots.now.items (scene duel.old out.now)).1 }
    ensures fit { IsFit duel.new }
    ensures known { (moves : ℕ) → IsDuelKnown moves duel.old → IsDuelKnown moves duel.new }
    ensures inside { result < 4 }
{
    let k = draw(duel, slots.len() as u32);
    let turns = 1 + draw(duel, 8) as u8;
    let slot = slots[k as usize];
    duel.foe.vol.disabled = Some(Disabled { slot, turns });
    slot
}

#[tactic(auto, unfolding(crate::specs::Disabling::disable_row))]
fn disable_duel(duel: &mut Duel, facts: Facts<'_>, mv: u16, out: &mut Events) -> Option<u8>
    requires fit { IsFit duel.old }
    requires fair { AreFair (figures facts) }
    requires room { array_vec_len out.old + 2 ≤ 160 }
    ensures value { result ≡ (disable_row (figures facts.entry) mv (scene duel.old out.old)).0 }
    ensures after { scene duel.new out.new ≡ (disable_row (figures facts.entry) mv (scene duel.old out.old)).1 }
    ensures fit { IsFit duel.new }
    ensures known { (moves : ℕ) → IsDuelKnown moves duel.old → IsDuelKnown moves duel.new }
    ensures inside { IfSome result (λ slot. slot < 4) }
    ensures room { array_vec_len out.new ≤ array_vec_len out.old + 2 }
{
    if !lands(duel, move_data(facts, mv).accuracy, out) {
        return None;
    }
    let slots = slots_with_pp(&duel.ready);
    if duel.foe.vol.disabled.is_some() || slots.is_empty() {
        out.push(Event::Fail {
            who: who(&duel.user),
        });
        return None;
    }
    Some(disable_drawn(duel, &slots, out))
}

fn tell_disabled(battle: &Battle, user: u8, slot: u8, out: &mut Events)
    requires sound { IsSound battle.now }
    requires user { user < 2 }
    requires slot { slot < 4 }
    requires room { array_vec_len out.old + 1 ≤ 160 }
    ensures effect { course battle.now out.new ≡ told_disabled user (Some slot) (course battle.now out.old) }
    ensures room { array_vec_len out.new ≤ array_vec_len out.old + 1 }
{
    let theirs = &battle.sides[1 - user as usize];
    out.push(Event::VolStart {
        who: who(&theirs.fighter(1 - user)),
        effect: EFFECT_DISABLE,
        mv: Some(theirs.slot(slot).mv),
    });
}

/// Disable: after an accuracy test, one of the foe's slots with PP can't be chosen for 1 to 8 acts. It fails where the foe has a disabled
/// slot, or none with PP.
#[tactic(auto, unfolding(crate::specs::Disabling::disable_effect))]
pub(crate) fn disable(battle: &mut Battle, facts: Facts<'_>, user: u8, mv: u16, out: &mut Events)
    requires sound { IsSound battle.old }
    requires fair { AreFair (figures facts) }
    requires user { user < 2 }
    requires room { array_vec_len out.old + 20 ≤ 160 }
    ensures effect { course battle.new out.new ≡ disable_effect (figures facts.entry) mv user (course battle.old out.old) }
    ensures sound { IsSound battle.new }
    ensures whole { IsValid battle.old → StillStands battle.old battle.new → IsValid battle.new }
    ensures known { (moves : ℕ) → AreKnown moves battle.old → AreKnown moves battle.new }
    ensures kept { Keeps user battle.old battle.new }
    ensures room { array_vec_len out.new ≤ array_vec_len out.old + 20 }
{
    let mut duel = battle.duel(user);
    let slot = disable_duel(&mut duel, facts, mv, out);
    battle.put(user, &duel);
    if let Some(slot) = slot {
        tell_disabled(battle, user, slot, out);
    }
}
