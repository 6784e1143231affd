//! What the user takes from the foe: a move, its whole form, or its types.
ghost use Rattle.std.specs.Prelude.{◌≡◌, ◌≤◌, ◌<◌, ◌+◌, ◌-◌, ℕ, IfSome};
ghost use Rattle.arrayvec.specs.ArrayVec.{array_vec_len};
ghost use Rattle.ps_mon.specs.Facts.{AreFair, figures};
ghost use Rattle.ps_mon.specs.Known.{AreKnown, AreNamed};
ghost use Rattle.ps_mon.specs.Keeping.{Keeps, StillStands};
ghost use Rattle.ps_mon.specs.Reading.{side_of};
ghost use Rattle.ps_mon.specs.Slots.{slot_count_now};
ghost use Rattle.ps_mon.specs.Valid.{IsSound, IsValid};
ghost use Rattle.ps_mon.specs.Duels.{IsFit, IsFighter, IsDuelKnown};
ghost use Rattle.ps_hits.specs.Scenes.{scene};
ghost use Rattle.ps_hits.specs.Courses.{played, course};
ghost use Rattle.ps_copy.specs.Learning.{mimic_row, learned, mimic_effect, in_form_of, form_row, transform_effect, conversion_row};

use crate::changing::{copied_slots, mimicked, put_slots};
use ps_event::event::{Event, Events};
use ps_event::numbers::{EFFECT_MIMIC, EFFECT_TYPECHANGE};
use ps_hits::fighters::{stats, types};
use ps_hits::scene::{draw, who};
use ps_hits::strike::lands;
use ps_mon::duel::{Duel, Fighter};
use ps_mon::facts::Facts;
use ps_mon::moves::move_data;
use ps_mon::record::Battle;

#[tactic(auto, unfolding(crate::specs::Learning::mimic_row))]
fn mimic_duel(duel: &mut Duel, facts: Facts<'_>, mv: u16, out: &mut Events) -> Option<u8>
    requires fit { IsFit duel.old }
    requires fair { AreFair (figures facts) }
    requires count { 1 ≤ duel.old.slot_count }
    requires room { array_vec_len out.old + 1 ≤ 160 }
    ensures value { result ≡ (mimic_row (figures facts.entry) mv (scene duel.old out.old)).0 }
    ensures after { scene duel.new out.new ≡ (mimic_row (figures facts.entry) mv (scene duel.old out.old)).1 }
    ensures fit { IsFit duel.new }
    ensures known { (moves : ℕ) → IsDuelKnown moves duel.old → IsDuelKnown moves duel.new }
    ensures inside { IfSome result (λ from. from < duel.old.slot_count) }
    ensures room { array_vec_len out.new ≤ array_vec_len out.old + 1 }
{
    let count = duel.slot_count;
    if !lands(duel, move_data(facts, mv).accuracy, out) {
        return None;
    }
    Some(draw(duel, u32::from(count)) as u8)
}

#[tactic(auto, unfolding(crate::specs::Learning::learned))]
fn learn(battle: &mut Battle, slot: u8, user: u8, from: u8, out: &mut Events)
    requires sound { IsSound battle.old }
    requires user { user < 2 }
    requires slot { slot < 4 }
    requires from { from < slot_count_now (side_of battle.old (1 - user)) }
    requires room { array_vec_len out.old + 1 ≤ 160 }
    ensures effect { course battle.new out.new ≡ learned slot user from (course battle.old out.old) }
    ensures sound { IsSound battle.new }
    ensures whole { IsValid battle.old → IsValid battle.new }
    ensures still { (before : Battle) → StillStands before battle.new → StillStands before battle.old }
    ensures known { (moves : ℕ) → AreKnown moves battle.old → AreKnown moves battle.new }
    ensures kept { (before : Battle) → Keeps user before battle.old → Keeps user before battle.new }
    ensures room { array_vec_len out.new ≤ array_vec_len out.old + 1 }
{
    let mv = battle.sides[1 - user as usize].slot(from).mv;
    let mine = &battle.sides[user as usize];
    let who = who(&mine.fighter(user));
    let slots = mimicked(&mine.vol.slots, slot, mv);
    put_slots(battle, user, &slots);
    out.push(Event::VolStart {
        who,
        effect: EFFECT_MIMIC,
        mv: Some(mv),
    });
}

/// Mimic, used by a slot, from 0: after an accuracy test, that slot takes a move of the foe, and keeps its PP.
#[tactic(auto, unfolding(crate::specs::Learning::mimic_effect))]
pub(crate) fn mimic(
    battle: &mut Battle,
    facts: Facts<'_>,
    user: u8,
    mv: u16,
    slot: u8,
    out: &mut Events,
)
    requires sound { IsSound battle.old }
    requires fair { AreFair (figures facts) }
    requires user { user < 2 }
    requires slot { slot < 4 }
    requires room { array_vec_len out.old + 20 ≤ 160 }
    ensures effect { course battle.new out.new ≡ mimic_effect (figures facts.entry) mv slot user (course battle.old out.old) }
    ensures sound { IsSound battle.new }
    ensures whole { IsValid battle.old → StillStands battle.old battle.new → IsValid battle.new }
    ensures known { (moves : ℕ) → AreKnown moves battle.old → AreKnown moves battle.new }
    ensures kept { Keeps user battle.old battle.new }
    ensures room { array_vec_len out.new ≤ array_vec_len out.old + 20 }
{
    let mut duel = battle.duel(user);
    let from = mimic_duel(&mut duel, facts, mv, out);
    battle.put(user, &duel);
    if let Some(from) = from {
        learn(battle, slot, user, from, out);
    }
}

#[tactic(auto, unfolding(crate::specs::Learning::in_form_of))]
fn formed(foe: &Fighter, f: &Fighter) -> Fighter
    requires foe { IsFighter foe.now }
    requires fit { IsFighter f.now }
    ensures value { result ≡ in_form_of foe.now f.now }
    ensures fit { IsFighter result }
    ensures known { (moves : ℕ) → AreNamed moves f.now.vol → AreNamed moves result.vol }
{
    let mut after = *f;
    after.vol.types = Some(types(foe));
    after.vol.stats = Some(stats(foe));
    after.vol.stages = foe.vol.stages;
    after
}

#[tactic(auto, unfolding(crate::specs::Learning::form_row))]
fn form_duel(duel: &mut Duel, out: &mut Events)
    requires fit { IsFit duel.old }
    requires room { array_vec_len out.old + 1 ≤ 160 }
    ensures after { scene duel.new out.new ≡ (form_row (scene duel.old out.old)).1 }
    ensures fit { IsFit duel.new }
    ensures known { (moves : ℕ) → IsDuelKnown moves duel.old → IsDuelKnown moves duel.new }
    ensures room { array_vec_len out.new ≤ array_vec_len out.old + 1 }
{
    let who_copies = who(&duel.user);
    let target = who(&duel.foe);
    let user = formed(&duel.foe, &duel.user);
    duel.user = user;
    out.push(Event::Transform {
        who: who_copies,
        target,
    });
}

/// Transform: the user takes the foe's types, stats but health, stages and slots, each slot with 5 PP. Its base Speed, level and species
/// stay.
#[tactic(auto, unfolding(crate::specs::Learning::transform_effect))]
pub(crate) fn transform(battle: &mut Battle, user: u8, out: &mut Events)
    requires sound { IsSound battle.old }
    requires user { user < 2 }
    requires room { array_vec_len out.old + 20 ≤ 160 }
    ensures effect { course battle.new out.new ≡ transform_effect user (course battle.old out.old) }
    ensures sound { IsSound battle.new }
    ensures whole { IsValid battle.old → StillStands battle.old battle.new → IsValid battle.new }
    ensures known { (moves : ℕ) → AreKnown moves battle.old → AreKnown moves battle.new }
    ensures kept { Keeps user battle.old battle.new }
    ensures room { array_vec_len out.new ≤ array_vec_len out.old + 20 }
{
    let mut duel = battle.duel(user);
    form_duel(&mut duel, out);
    battle.put(user, &duel);
    let slots = copied_slots(&battle.sides[1 - user as usize]);
    put_slots(battle, user, &slots);
}

#[tactic(auto, unfolding(crate::specs::Learning::conversion_row))]
fn conversion_duel(duel: &mut Duel, out: &mut Events)
    requires fit { IsFit duel.old }
    requires room { array_vec_len out.old + 1 ≤ 160 }
    ensures after { scene duel.new out.new ≡ (conversion_row (scene duel.old out.old)).1 }
    ensures fit { IsFit duel.new }
    ensures known { (moves : ℕ) → IsDuelKnown moves duel.old → IsDuelKnown moves duel.new }
    ensures room { array_vec_len out.new ≤ array_vec_len out.old + 1 }
{
    let types = types(&duel.foe);
    duel.user.vol.types = Some(types);
    out.push(Event::VolStart {
        who: who(&duel.user),
        effect: EFFECT_TYPECHANGE,
        mv: None,
    });
}

/// Conversion: the user takes the foe's types.
pub(crate) fn conversion(battle: &mut Battle, user: u8, out: &mut Events)
    requires sound { IsSound battle.old }
    requires user { user < 2 }
    requires room { array_vec_len out.old + 20 ≤ 160 }
    ensures effect { course battle.new out.new ≡ played conversion_row user (course battle.old out.old) }
    ensures sound { IsSound battle.new }
    ensures whole { IsValid battle.old → StillStands battle.old battle.new → IsValid battle.new }
    ensures known { (moves : ℕ) → AreKnown moves battle.old → AreKnown moves battle.new }
    ensures kept { Keeps user battle.old battle.new }
    ensures room { array_vec_len out.new ≤ array_vec_len out.old + 20 }
{
    let mut duel = battle.duel(user);
    conversion_duel(&mut duel, out);
    battle.put(user, &duel);
}
