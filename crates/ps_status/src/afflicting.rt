//! A status, by a strike or without one.
ghost use Rattle.std.specs.Prelude.{◌≡◌, ◌≤◌, ◌<◌, ◌+◌, ℕ};
ghost use Rattle.arrayvec.specs.ArrayVec.{array_vec_len};
ghost use Rattle.ps_mon.specs.Facts.{AreFair, figures};
ghost use Rattle.ps_mon.specs.Known.{AreKnown};
ghost use Rattle.ps_mon.specs.Moves.{IsNamed, move_of};
ghost use Rattle.ps_mon.specs.Keeping.{Keeps, StillStands};
ghost use Rattle.ps_mon.specs.Valid.{IsSound, IsValid};
ghost use Rattle.ps_mon.specs.Duels.{IsFit, IsDuelKnown};
ghost use Rattle.ps_hits.specs.Scenes.{scene};
ghost use Rattle.ps_hits.specs.Courses.{played, course};
ghost use Rattle.ps_hits.specs.Scenes.{Scene};
ghost use Rattle.ps_mon.specs.Duels.{IsFighter};
ghost use Rattle.ps_mon.specs.Known.{AreNamed};
ghost use Rattle.ps_status.specs.Afflicting.{is_barred_by_clause, is_shielded, is_barred_second, is_by_touch, has_no_effect};
ghost use Rattle.ps_status.specs.Afflicting.{is_barred_alone, counter_of, toxic_after, afflicted, afflict, status_second};
ghost use Rattle.ps_status.specs.Afflicting.{status_by_strike, status_alone, status_row, status_effect};
ghost use Rattle.ps_mon.specs.Clauses.{has_clause};

use crate::seconds::comes;
use ps_event::event::{Event, Events};
use ps_hits::fighters::{has_type, types};
use ps_hits::scene::{draw, number_of, who};
use ps_hits::strike::{lands, strike_foe_with};
use ps_mon::duel::{Duel, Fighter};
use ps_mon::effect::Effect;
use ps_mon::facts::{Facts, MoveData};
use ps_mon::moves::{factors, move_data};
use ps_mon::record::Battle;
use ps_mon::status::Status;

fn is_on(clauses: u8, bit: u8) -> bool
    ensures { result ≡ has_clause clauses bit }
{
    clauses & bit != 0
}

fn bars_by_clause(status: Status, duel: &Duel) -> bool
    ensures { result ≡ is_barred_by_clause status duel.now }
{
    match status {
        Status::Slp => is_on(duel.clauses, 2) && duel.asleep,
        Status::Frz => is_on(duel.clauses, 4) && duel.frozen,
        _ => false,
    }
}

fn shields(used: &MoveData, duel: &Duel) -> bool
    ensures { result ≡ is_shielded used.now duel.now }
{
    duel.foe.vol.substitute > 0 || has_type(&duel.foe, used.kind)
}

#[tactic(auto, unfolding(crate::specs::Afflicting::is_barred_second))]
fn bars_second(status: Status, used: &MoveData, duel: &Duel) -> bool
    ensures { result ≡ is_barred_second status used.now duel.now }
{
    duel.foe.status != Status::Healthy || bars_by_clause(status, duel) || shields(used, duel)
}

fn needs_touch(status: Status) -> bool
    ensures { result ≡ is_by_touch status }
{
    matches!(
        status,
        Status::Psn | Status::Tox | Status::Brn | Status::Frz
    )
}

fn misses_type(factors: [u8; 2]) -> bool
    ensures { result ≡ has_no_effect factors }
{
    factors[0] == 0 || factors[1] == 0
}

#[tactic(auto, unfolding(crate::specs::Afflicting::is_barred_alone))]
fn bars_alone(status: Status, used: &MoveData, factors: [u8; 2], duel: &Duel) -> bool
    ensures { result ≡ is_barred_alone status used.now factors duel.now }
{
    duel.foe.status != Status::Healthy
        || bars_by_clause(status, duel)
        || status == Status::Par && used.special && misses_type(factors)
        || needs_touch(status) && shields(used, duel)
}

#[tactic(auto, unfolding(crate::specs::Afflicting::counter_of))]
fn first_counter(duel: &mut Duel, status: Status) -> u8
    requires { IsFit duel.old }
    ensures value { (s : Scene) → s.duel ≡ duel.old → result ≡ (counter_of status s).0 }
    ensures after { (s : Scene) → s.duel ≡ duel.old → (counter_of status s).1 ≡ record s { duel = duel.new } }
    ensures fit { IsFit duel.new }
    ensures known { (moves : ℕ) → IsDuelKnown moves duel.old → IsDuelKnown moves duel.new }
    ensures high { result ≤ 7 }
{
    if status == Status::Slp {
        1 + draw(duel, 7) as u8
    } else {
        0
    }
}

fn toxic_count(status: Status, toxic: u8) -> u8
    requires { toxic ≤ 15 }
    ensures value { result ≡ toxic_after status toxic }
    ensures high { result ≤ 15 }
{
    match status {
        Status::Tox => 0,
        _ => toxic,
    }
}

#[tactic(auto, unfolding(crate::specs::Afflicting::afflicted))]
fn with_status(f: &Fighter, status: Status, counter: u8) -> Fighter
    requires fit { IsFighter f.now }
    requires counter { counter ≤ 7 }
    ensures value { result ≡ afflicted status counter f.now }
    ensures fit { IsFighter result }
    ensures known { (moves : ℕ) → AreNamed moves f.now.vol → AreNamed moves result.vol }
{
    let mut after = *f;
    after.status = status;
    after.counter = counter;
    after.rested = false;
    after.vol.toxic = toxic_count(status, f.vol.toxic);
    after
}

#[tactic(auto, unfolding(crate::specs::Afflicting::afflict))]
fn give_status(duel: &mut Duel, status: Status, out: &mut Events)
    requires fit { IsFit duel.old }
    requires room { array_vec_len out.old + 1 ≤ 160 }
    ensures after { scene duel.new out.new ≡ (afflict status (scene duel.old out.old)).1 }
    ensures fit { IsFit duel.new }
    ensures known { (moves : ℕ) → IsDuelKnown moves duel.old → IsDuelKnown moves duel.new }
    ensures room { array_vec_len out.new ≤ array_vec_len out.old + 1 }
{
    let counter = first_counter(duel, status);
    let foe = with_status(&duel.foe, status, counter);
    duel.foe = foe;
    out.push(Event::Status {
        who: who(&foe),
        status: number_of(status),
    });
}

/// Gives the foe a status as the secondary of a strike with that move, where it can be.
#[tactic(auto, unfolding(crate::specs::Afflicting::status_second))]
pub fn try_second(duel: &mut Duel, status: Status, used: &MoveData, out: &mut Events)
    requires fit { IsFit duel.old }
    requires room { array_vec_len out.old + 1 ≤ 160 }
    ensures after { scene duel.new out.new ≡ (status_second status used.now (scene duel.old out.old)).1 }
    ensures fit { IsFit duel.new }
    ensures known { (moves : ℕ) → IsDuelKnown moves duel.old → IsDuelKnown moves duel.new }
    ensures room { array_vec_len out.new ≤ array_vec_len out.old + 1 }
{
    if bars_second(status, used, duel) {
        return;
    }
    give_status(duel, status, out);
}

#[tactic(auto, unfolding(crate::specs::Afflicting::status_by_strike))]
fn strike_and_afflict(
    duel: &mut Duel,
    status: Status,
    chance: u16,
    facts: Facts<'_>,
    mv: u16,
    out: &mut Events,
)
    requires fit { IsFit duel.old }
    requires fair { AreFair (figures facts) }
    requires room { array_vec_len out.old + 7 ≤ 160 }
    ensures after { scene duel.new out.new ≡ (status_by_strike status chance (figures facts.entry) mv (scene duel.old out.old)).1 }
    ensures fit { IsFit duel.new }
    ensures known { (moves : ℕ) → IsNamed moves mv → IsDuelKnown moves duel.old → IsDuelKnown moves duel.new }
    ensures room { array_vec_len out.new ≤ array_vec_len out.old + 7 }
{
    let struck = strike_foe_with(duel, facts, mv, false, out);
    if !comes(duel, struck, chance) {
        return;
    }
    try_second(duel, status, &move_data(facts, mv), out);
}

#[tactic(auto, unfolding(crate::specs::Afflicting::status_alone))]
fn afflict_alone(duel: &mut Duel, status: Status, facts: Facts<'_>, mv: u16, out: &mut Events)
    requires fit { IsFit duel.old }
    requires fair { AreFair (figures facts) }
    requires room { array_vec_len out.old + 2 ≤ 160 }
    ensures after { scene duel.new out.new ≡ (status_alone status (figures facts.entry) mv (scene duel.old out.old)).1 }
    ensures fit { IsFit duel.new }
    ensures known { (moves : ℕ) → IsDuelKnown moves duel.old → IsDuelKnown moves duel.new }
    ensures room { array_vec_len out.new ≤ array_vec_len out.old + 2 }
{
    let used = move_data(facts, mv);
    if !lands(duel, used.accuracy, out) {
        return;
    }
    let factors = factors(facts, mv, types(&duel.foe));
    if bars_alone(status, &used, factors, duel) {
        out.push(Event::Fail {
            who: who(&duel.user),
        });
        return;
    }
    give_status(duel, status, out);
}

#[tactic(auto, unfolding(crate::specs::Afflicting::status_row))]
fn status_duel(
    duel: &mut Duel,
    status: Status,
    chance: u16,
    facts: Facts<'_>,
    mv: u16,
    out: &mut Events,
)
    requires fit { IsFit duel.old }
    requires fair { AreFair (figures facts) }
    requires room { array_vec_len out.old + 7 ≤ 160 }
    ensures after { scene duel.new out.new ≡ (status_row status chance (figures facts.entry) mv (scene duel.old out.old)).1 }
    ensures fit { IsFit duel.new }
    ensures known { (moves : ℕ) → IsNamed moves mv → IsDuelKnown moves duel.old → IsDuelKnown moves duel.new }
    ensures room { array_vec_len out.new ≤ array_vec_len out.old + 7 }
{
    if move_data(facts, mv).power == 0 {
        afflict_alone(duel, status, facts, mv, out);
    } else {
        strike_and_afflict(duel, status, chance, facts, mv, out);
    }
}

/// Gives the foe a status: as the secondary of a strike or, with power 0, after an accuracy test. A move of another kind does nothing.
pub fn status(battle: &mut Battle, facts: Facts<'_>, user: u8, mv: u16, out: &mut Events)
    requires sound { IsSound battle.old }
    requires fair { AreFair (figures facts) }
    requires user { user < 2 }
    requires room { array_vec_len out.old + 20 ≤ 160 }
    ensures effect { course battle.new out.new
        ≡ played (status_effect (move_of (figures facts.entry) mv).effect (figures facts.entry) mv) user (course battle.old out.old) }
    ensures sound { IsSound battle.new }
    ensures whole { IsValid battle.old → StillStands battle.old battle.new → IsValid battle.new }
    ensures known { (moves : ℕ) → IsNamed moves mv → AreKnown moves battle.old → AreKnown moves battle.new }
    ensures kept { Keeps user battle.old battle.new }
    ensures room { array_vec_len out.new ≤ array_vec_len out.old + 20 }
{
    let mut duel = battle.duel(user);
    if let Effect::Status { status, chance } = move_data(facts, mv).effect {
        status_duel(&mut duel, status, chance, facts, mv, out);
    }
    battle.put(user, &duel);
}
