//! Confusion, by a strike or without one, and a strike that makes the foe flinch.
ghost use Rattle.std.specs.Prelude.{◌≡◌, ◌≤◌, ◌<◌, ◌+◌, ℕ};
ghost use Rattle.arrayvec.specs.ArrayVec.{array_vec_len};
ghost use Rattle.ps_mon.specs.Facts.{AreFair, figures};
ghost use Rattle.ps_mon.specs.Known.{AreKnown};
ghost use Rattle.ps_mon.specs.Moves.{IsNamed, move_of};
ghost use Rattle.ps_mon.specs.Keeping.{Keeps, StillStands};
ghost use Rattle.ps_mon.specs.Valid.{IsSound, IsValid};
ghost use Rattle.ps_mon.specs.Duels.{IsFit, IsDuelKnown};
ghost use Rattle.ps_hits.specs.Scenes.{scene};
ghost use Rattle.ps_hits.specs.Courses.{played, course};
ghost use Rattle.ps_status.specs.Confusing.{stays_sane, daze, confuse_second, confuse_by_strike, confuse_alone, confuse_row};
ghost use Rattle.ps_status.specs.Confusing.{flinch_row, confuse_effect, flinch_effect};

use crate::seconds::comes;
use ps_event::event::{Event, Events};
use ps_event::numbers::EFFECT_CONFUSION;
use ps_hits::scene::{draw, who};
use ps_hits::strike::{lands, strike_foe_with};
use ps_mon::duel::{Duel, Fighter};
use ps_mon::effect::Effect;
use ps_mon::facts::Facts;
use ps_mon::moves::move_data;
use ps_mon::record::Battle;

/// Whether a member can't be confused: it is confused, or has a substitute.
pub fn keeps_its_head(f: &Fighter) -> bool
    ensures { result ≡ stays_sane f.now }
{
    f.vol.confusion > 0 || f.vol.substitute > 0
}

#[tactic(auto, unfolding(crate::specs::Confusing::daze))]
fn confuse_foe(duel: &mut Duel, out: &mut Events)
    requires fit { IsFit duel.old }
    requires room { array_vec_len out.old + 1 ≤ 160 }
    ensures after { scene duel.new out.new ≡ (daze (scene duel.old out.old)).1 }
    ensures fit { IsFit duel.new }
    ensures known { (moves : ℕ) → IsDuelKnown moves duel.old → IsDuelKnown moves duel.new }
    ensures room { array_vec_len out.new ≤ array_vec_len out.old + 1 }
{
    let turns = 2 + draw(duel, 4) as u8;
    duel.foe.vol.confusion = turns;
    out.push(Event::VolStart {
        who: who(&duel.foe),
        effect: EFFECT_CONFUSION,
        mv: None,
    });
}

#[tactic(auto, unfolding(crate::specs::Confusing::confuse_second))]
fn try_second(duel: &mut Duel, out: &mut Events)
    requires fit { IsFit duel.old }
    requires room { array_vec_len out.old + 1 ≤ 160 }
    ensures after { scene duel.new out.new ≡ (confuse_second (scene duel.old out.old)).1 }
    ensures fit { IsFit duel.new }
    ensures known { (moves : ℕ) → IsDuelKnown moves duel.old → IsDuelKnown moves duel.new }
    ensures room { array_vec_len out.new ≤ array_vec_len out.old + 1 }
{
    if keeps_its_head(&duel.foe) {
        return;
    }
    confuse_foe(duel, out);
}

#[tactic(auto, unfolding(crate::specs::Confusing::confuse_by_strike))]
fn strike_and_confuse(duel: &mut Duel, chance: u16, facts: Facts<'_>, mv: u16, out: &mut Events)
    requires fit { IsFit duel.old }
    requires fair { AreFair (figures facts) }
    requires room { array_vec_len out.old + 7 ≤ 160 }
    ensures after { scene duel.new out.new ≡ (confuse_by_strike chance (figures facts.entry) mv (scene duel.old out.old)).1 }
    ensures fit { IsFit duel.new }
    ensures known { (moves : ℕ) → IsNamed moves mv → IsDuelKnown moves duel.old → IsDuelKnown moves duel.new }
    ensures room { array_vec_len out.new ≤ array_vec_len out.old + 7 }
{
    let struck = strike_foe_with(duel, facts, mv, false, out);
    if !comes(duel, struck, chance) {
        return;
    }
    try_second(duel, out);
}

#[tactic(auto, unfolding(crate::specs::Confusing::confuse_alone))]
fn confuse_alone(duel: &mut Duel, facts: Facts<'_>, mv: u16, out: &mut Events)
    requires fit { IsFit duel.old }
    requires fair { AreFair (figures facts) }
    requires room { array_vec_len out.old + 2 ≤ 160 }
    ensures after { scene duel.new out.new ≡ (confuse_alone (figures facts.entry) mv (scene duel.old out.old)).1 }
    ensures fit { IsFit duel.new }
    ensures known { (moves : ℕ) → IsDuelKnown moves duel.old → IsDuelKnown moves duel.new }
    ensures room { array_vec_len out.new ≤ array_vec_len out.old + 2 }
{
    if !lands(duel, move_data(facts, mv).accuracy, out) {
        return;
    }
    if keeps_its_head(&duel.foe) {
        out.push(Event::Fail {
            who: who(&duel.user),
        });
        return;
    }
    confuse_foe(duel, out);
}

#[tactic(auto, unfolding(crate::specs::Confusing::confuse_row))]
fn confuse_duel(duel: &mut Duel, chance: u16, facts: Facts<'_>, mv: u16, out: &mut Events)
    requires fit { IsFit duel.old }
    requires fair { AreFair (figures facts) }
    requires room { array_vec_len out.old + 7 ≤ 160 }
    ensures after { scene duel.new out.new ≡ (confuse_row chance (figures facts.entry) mv (scene duel.old out.old)).1 }
    ensures fit { IsFit duel.new }
    ensures known { (moves : ℕ) → IsNamed moves mv → IsDuelKnown moves duel.old → IsDuelKnown moves duel.new }
    ensures room { array_vec_len out.new ≤ array_vec_len out.old + 7 }
{
    if move_data(facts, mv).power == 0 {
        confuse_alone(duel, facts, mv, out);
    } else {
        strike_and_confuse(duel, chance, facts, mv, out);
    }
}

/// Confuses the foe for 2 to 5 acts: as the secondary of a strike or, with power 0, after an accuracy test. A move of another kind
/// does nothing.
pub fn confuse(battle: &mut Battle, facts: Facts<'_>, user: u8, mv: u16, out: &mut Events)
    requires sound { IsSound battle.old }
    requires fair { AreFair (figures facts) }
    requires user { user < 2 }
    requires room { array_vec_len out.old + 20 ≤ 160 }
    ensures effect { course battle.new out.new
        ≡ played (confuse_effect (move_of (figures facts.entry) mv).effect (figures facts.entry) mv) user (course battle.old out.old) }
    ensures sound { IsSound battle.new }
    ensures whole { IsValid battle.old → StillStands battle.old battle.new → IsValid battle.new }
    ensures known { (moves : ℕ) → IsNamed moves mv → AreKnown moves battle.old → AreKnown moves battle.new }
    ensures kept { Keeps user battle.old battle.new }
    ensures room { array_vec_len out.new ≤ array_vec_len out.old + 20 }
{
    let mut duel = battle.duel(user);
    if let Effect::Confuse { chance } = move_data(facts, mv).effect {
        confuse_duel(&mut duel, chance, facts, mv, out);
    }
    battle.put(user, &duel);
}

#[tactic(auto, unfolding(crate::specs::Confusing::flinch_row))]
fn flinch_duel(duel: &mut Duel, chance: u16, facts: Facts<'_>, mv: u16, out: &mut Events)
    requires fit { IsFit duel.old }
    requires fair { AreFair (figures facts) }
    requires room { array_vec_len out.old + 6 ≤ 160 }
    ensures after { scene duel.new out.new ≡ (flinch_row chance (figures facts.entry) mv (scene duel.old out.old)).1 }
    ensures fit { IsFit duel.new }
    ensures known { (moves : ℕ) → IsNamed moves mv → IsDuelKnown moves duel.old → IsDuelKnown moves duel.new }
    ensures room { array_vec_len out.new ≤ array_vec_len out.old + 6 }
{
    let struck = strike_foe_with(duel, facts, mv, false, out);
    if !comes(duel, struck, chance) {
        return;
    }
    duel.foe.vol.flinch = true;
}

/// A strike; as its secondary the foe flinches. A move of another kind does nothing.
pub fn flinch(battle: &mut Battle, facts: Facts<'_>, user: u8, mv: u16, out: &mut Events)
    requires sound { IsSound battle.old }
    requires fair { AreFair (figures facts) }
    requires user { user < 2 }
    requires room { array_vec_len out.old + 20 ≤ 160 }
    ensures effect { course battle.new out.new
        ≡ played (flinch_effect (move_of (figures facts.entry) mv).effect (figures facts.entry) mv) user (course battle.old out.old) }
    ensures sound { IsSound battle.new }
    ensures whole { IsValid battle.old → StillStands battle.old battle.new → IsValid battle.new }
    ensures known { (moves : ℕ) → IsNamed moves mv → AreKnown moves battle.old → AreKnown moves battle.new }
    ensures kept { Keeps user battle.old battle.new }
    ensures room { array_vec_len out.new ≤ array_vec_len out.old + 20 }
{
    let mut duel = battle.duel(user);
    if let Effect::Flinch { chance } = move_data(facts, mv).effect {
        flinch_duel(&mut duel, chance, facts, mv, out);
    }
    battle.put(user, &duel);
}
