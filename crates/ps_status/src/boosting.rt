//! Stages, with a strike or without one.
ghost use Rattle.std.specs.Prelude.{◌≡◌, ◌≤◌, ◌<◌, ◌+◌, ℕ, pos, negsuc, ◌≤ℤ◌, ◌-ℤ◌, unsigned_abs};
ghost use Rattle.arrayvec.specs.ArrayVec.{array_vec_len};
ghost use Rattle.ps_mon.specs.Facts.{AreFair, figures};
ghost use Rattle.ps_mon.specs.Known.{AreKnown};
ghost use Rattle.ps_mon.specs.Moves.{IsNamed, move_of};
ghost use Rattle.ps_mon.specs.Keeping.{Keeps, StillStands};
ghost use Rattle.ps_mon.specs.Valid.{IsSound, IsValid};
ghost use Rattle.ps_mon.specs.Duels.{IsFit, IsDuelKnown};
ghost use Rattle.ps_hits.specs.Scenes.{scene};
ghost use Rattle.ps_hits.specs.Courses.{played, course};
ghost use Rattle.ps_mon.specs.Duels.{IsFighter};
ghost use Rattle.ps_mon.specs.Known.{AreNamed};
ghost use Rattle.ps_mon.specs.Valid.{AreStages};
ghost use Rattle.ps_status.specs.Boosting.{stat_number, IsShift, stage_of, with_stage, moved, is_at_end, boosted, steps_of};
ghost use Rattle.ps_status.specs.Boosting.{boost_event, boost_user, boost_foe, boost_at, is_boost_barred, boost_second};
ghost use Rattle.ps_status.specs.Boosting.{boost_by_strike, boost_or_fail, boost_alone, boost_row, boost_effect};

use crate::seconds::comes;
use ps_event::event::{Event, Events};
use ps_event::numbers::{STAT_ACC, STAT_ATK, STAT_DEF, STAT_EVA, STAT_SPC, STAT_SPE};
use ps_hits::scene::who;
use ps_hits::strike::{lands, strike_foe_with};
use ps_mon::duel::{Duel, Fighter};
use ps_mon::effect::{Aim, Effect, Stat};
use ps_mon::facts::Facts;
use ps_mon::moves::move_data;
use ps_mon::record::{Battle, Stages};

/// A change of a stage.
#[derive(Clone, Copy, Debug, PartialEq, Eq)]
pub struct Shift {
    /// Whose stage it is.
    pub who: Aim,
    /// Which stage it is.
    pub stat: Stat,
    /// By how much, -6 to 6 and not 0.
    pub by: i8,
}

fn number_of(stat: Stat) -> u8
    ensures { result ≡ stat_number stat }
{
    match stat {
        Stat::Atk => STAT_ATK,
        Stat::Def => STAT_DEF,
        Stat::Spc => STAT_SPC,
        Stat::Spe => STAT_SPE,
        Stat::Acc => STAT_ACC,
        Stat::Eva => STAT_EVA,
    }
}

fn stage(stages: &Stages, stat: Stat) -> i8
    requires { AreStages stages.now }
    ensures value { result ≡ stage_of stat stages.now }
    ensures low { negsuc 5 ≤ℤ result }
    ensures high { result ≤ℤ pos 6 }
{
    match stat {
        Stat::Atk => stages.atk,
        Stat::Def => stages.def,
        Stat::Spc => stages.spc,
        Stat::Spe => stages.spe,
        Stat::Acc => stages.acc,
        Stat::Eva => stages.eva,
    }
}

fn put_stage(stages: &Stages, stat: Stat, stage: i8) -> Stages
    requires fit { AreStages stages.now }
    requires low { negsuc 5 ≤ℤ stage }
    requires high { stage ≤ℤ pos 6 }
    ensures value { result ≡ with_stage stat stage stages.now }
    ensures fit { AreStages result }
{
    let mut after = *stages;
    match stat {
        Stat::Atk => after.atk = stage,
        Stat::Def => after.def = stage,
        Stat::Spc => after.spc = stage,
        Stat::Spe => after.spe = stage,
        Stat::Acc => after.acc = stage,
        Stat::Eva => after.eva = stage,
    }
    after
}

#[tactic(auto, unfolding(crate::specs::Boosting::moved))]
fn change(stage: i8, by: i8) -> i8
    requires low { negsuc 5 ≤ℤ stage }
    requires high { stage ≤ℤ pos 6 }
    requires by_low { negsuc 5 ≤ℤ by }
    requires by_high { by ≤ℤ pos 6 }
    ensures value { result ≡ moved stage by }
    ensures low { negsuc 5 ≤ℤ result }
    ensures high { result ≤ℤ pos 6 }
{
    let sum = stage + by;
    if sum > 6 {
        6
    } else if sum < -6 {
        -6
    } else {
        sum
    }
}

#[tactic(auto, unfolding(crate::specs::Boosting::is_at_end))]
fn ends(stage: i8, by: i8) -> bool
    ensures { result ≡ is_at_end stage by }
{
    if by > 0 { stage >= 6 } else { stage <= -6 }
}

fn with_boost(f: &Fighter, shift: Shift) -> Fighter
    requires fit { IsFighter f.now }
    requires by { IsShift shift }
    ensures value { result ≡ boosted shift f.now }
    ensures fit { IsFighter result }
    ensures known { (moves : ℕ) → AreNamed moves f.now.vol → AreNamed moves result.vol }
{
    let mut after = *f;
    let moved = change(stage(&f.vol.stages, shift.stat), shift.by);
    after.vol.stages = put_stage(&f.vol.stages, shift.stat, moved);
    after
}

#[tactic(auto, unfolding(crate::specs::Boosting::steps_of))]
fn steps(f: &Fighter, shift: Shift) -> u8
    requires fit { IsFighter f.now }
    requires by { IsShift shift }
    ensures { result ≡ steps_of shift f.now }
{
    let before = stage(&f.vol.stages, shift.stat);
    (change(before, shift.by) - before).unsigned_abs()
}

#[tactic(auto, unfolding(crate::specs::Boosting::boost_event))]
fn boost_told(f: &Fighter, shift: Shift) -> Event
    requires fit { IsFighter f.now }
    requires by { IsShift shift }
    ensures { result ≡ boost_event shift f.now }
{
    let who = who(f);
    let stat = number_of(shift.stat);
    let by = steps(f, shift);
    if shift.by > 0 {
        Event::Boost { who, stat, by }
    } else {
        Event::Unboost { who, stat, by }
    }
}

#[tactic(auto, unfolding(crate::specs::Boosting::boost_user, crate::specs::Boosting::boost_foe))]
fn do_boost(duel: &mut Duel, shift: Shift, out: &mut Events)
    requires fit { IsFit duel.old }
    requires by { IsShift shift }
    requires room { array_vec_len out.old + 1 ≤ 160 }
    ensures after { scene duel.new out.new ≡ (boost_at shift.who shift (scene duel.old out.old)).1 }
    ensures fit { IsFit duel.new }
    ensures known { (moves : ℕ) → IsDuelKnown moves duel.old → IsDuelKnown moves duel.new }
    ensures room { array_vec_len out.new ≤ array_vec_len out.old + 1 }
{
    match shift.who {
        Aim::User => {
            let user = duel.user;
            duel.user = with_boost(&user, shift);
            out.push(boost_told(&user, shift));
        }
        Aim::Foe => {
            let foe = duel.foe;
            duel.foe = with_boost(&foe, shift);
            out.push(boost_told(&foe, shift));
        }
    }
}

#[tactic(auto, unfolding(crate::specs::Boosting::is_boost_barred))]
fn bars(duel: &Duel, shift: Shift) -> bool
    requires { IsFit duel.now }
    ensures { result ≡ is_boost_barred shift duel.now }
{
    match shift.who {
        Aim::User => ends(stage(&duel.user.vol.stages, shift.stat), shift.by),
        Aim::Foe => {
            ends(stage(&duel.foe.vol.stages, shift.stat), shift.by)
                || duel.foe.vol.mist
                || duel.foe.vol.substitute > 0
        }
    }
}

#[tactic(auto, unfolding(crate::specs::Boosting::boost_second))]
fn try_second(duel: &mut Duel, shift: Shift, out: &mut Events)
    requires fit { IsFit duel.old }
    requires by { IsShift shift }
    requires room { array_vec_len out.old + 1 ≤ 160 }
    ensures after { scene duel.new out.new ≡ (boost_second shift (scene duel.old out.old)).1 }
    ensures fit { IsFit duel.new }
    ensures known { (moves : ℕ) → IsDuelKnown moves duel.old → IsDuelKnown moves duel.new }
    ensures room { array_vec_len out.new ≤ array_vec_len out.old + 1 }
{
    if bars(duel, shift) {
        return;
    }
    do_boost(duel, shift, out);
}

#[tactic(auto, unfolding(crate::specs::Boosting::boost_by_strike))]
fn strike_and_boost(
    duel: &mut Duel,
    shift: Shift,
    chance: u16,
    facts: Facts<'_>,
    mv: u16,
    out: &mut Events,
)
    requires fit { IsFit duel.old }
    requires fair { AreFair (figures facts) }
    requires by { IsShift shift }
    requires room { array_vec_len out.old + 7 ≤ 160 }
    ensures after { scene duel.new out.new ≡ (boost_by_strike shift chance (figures facts.entry) mv (scene duel.old out.old)).1 }
    ensures fit { IsFit duel.new }
    ensures known { (moves : ℕ) → IsNamed moves mv → IsDuelKnown moves duel.old → IsDuelKnown moves duel.new }
    ensures room { array_vec_len out.new ≤ array_vec_len out.old + 7 }
{
    let struck = strike_foe_with(duel, facts, mv, false, out);
    if !comes(duel, struck, chance) {
        return;
    }
    try_second(duel, shift, out);
}

#[tactic(auto, unfolding(crate::specs::Boosting::boost_or_fail))]
fn try_alone(duel: &mut Duel, shift: Shift, out: &mut Events)
    requires fit { IsFit duel.old }
    requires by { IsShift shift }
    requires room { array_vec_len out.old + 1 ≤ 160 }
    ensures after { scene duel.new out.new ≡ (boost_or_fail shift (scene duel.old out.old)).1 }
    ensures fit { IsFit duel.new }
    ensures known { (moves : ℕ) → IsDuelKnown moves duel.old → IsDuelKnown moves duel.new }
    ensures room { array_vec_len out.new ≤ array_vec_len out.old + 1 }
{
    if bars(duel, shift) {
        out.push(Event::Fail {
            who: who(&duel.user),
        });
        return;
    }
    do_boost(duel, shift, out);
}

#[tactic(auto, unfolding(crate::specs::Boosting::boost_alone))]
fn boost_alone(duel: &mut Duel, shift: Shift, facts: Facts<'_>, mv: u16, out: &mut Events)
    requires fit { IsFit duel.old }
    requires fair { AreFair (figures facts) }
    requires by { IsShift shift }
    requires room { array_vec_len out.old + 2 ≤ 160 }
    ensures after { scene duel.new out.new ≡ (boost_alone shift (figures facts.entry) mv (scene duel.old out.old)).1 }
    ensures fit { IsFit duel.new }
    ensures known { (moves : ℕ) → IsDuelKnown moves duel.old → IsDuelKnown moves duel.new }
    ensures room { array_vec_len out.new ≤ array_vec_len out.old + 2 }
{
    match shift.who {
        Aim::User => try_alone(duel, shift, out),
        Aim::Foe => {
            if !lands(duel, move_data(facts, mv).accuracy, out) {
                return;
            }
            try_alone(duel, shift, out);
        }
    }
}

#[tactic(auto, unfolding(crate::specs::Boosting::boost_row))]
fn boost_duel(
    duel: &mut Duel,
    shift: Shift,
    chance: u16,
    facts: Facts<'_>,
    mv: u16,
    out: &mut Events,
)
    requires fit { IsFit duel.old }
    requires fair { AreFair (figures facts) }
    requires by { IsShift shift }
    requires room { array_vec_len out.old + 7 ≤ 160 }
    ensures after { scene duel.new out.new ≡ (boost_row shift chance (figures facts.entry) mv (scene duel.old out.old)).1 }
    ensures fit { IsFit duel.new }
    ensures known { (moves : ℕ) → IsNamed moves mv → IsDuelKnown moves duel.old → IsDuelKnown moves duel.new }
    ensures room { array_vec_len out.new ≤ array_vec_len out.old + 7 }
{
    if move_data(facts, mv).power == 0 {
        boost_alone(duel, shift, facts, mv, out);
    } else {
        strike_and_boost(duel, shift, chance, facts, mv, out);
    }
}

/// Changes stages of the user or of the foe: as the secondary of a strike or, with power 0, without one; then there is an accuracy
/// test for the foe's alone. A move of another kind does nothing.
pub fn boost(battle: &mut Battle, facts: Facts<'_>, user: u8, mv: u16, out: &mut Events)
    requires sound { IsSound battle.old }
    requires fair { AreFair (figures facts) }
    requires user { user < 2 }
    requires room { array_vec_len out.old + 20 ≤ 160 }
    ensures effect { course battle.new out.new
        ≡ played (boost_effect (move_of (figures facts.entry) mv).effect (figures facts.entry) mv) user (course battle.old out.old) }
    ensures sound { IsSound battle.new }
    ensures whole { IsValid battle.old → StillStands battle.old battle.new → IsValid battle.new }
    ensures known { (moves : ℕ) → IsNamed moves mv → AreKnown moves battle.old → AreKnown moves battle.new }
    ensures kept { Keeps user battle.old battle.new }
    ensures room { array_vec_len out.new ≤ array_vec_len out.old + 20 }
{
    let mut duel = battle.duel(user);
    if let Effect::Boost {
        who,
        stat,
        by,
        chance,
    } = move_data(facts, mv).effect
    {
        boost_duel(&mut duel, Shift { who, stat, by }, chance, facts, mv, out);
    }
    battle.put(user, &duel);
}
