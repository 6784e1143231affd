//! Moves that take the act before their strike, or the one after it.
ghost use Rattle.std.specs.Prelude.{◌≡◌, ◌≤◌, ◌<◌, ◌+◌, ℕ};
ghost use Rattle.arrayvec.specs.ArrayVec.{array_vec_len};
ghost use Rattle.ps_mon.specs.Facts.{AreFair, figures};
ghost use Rattle.ps_mon.specs.Known.{AreKnown};
ghost use Rattle.ps_mon.specs.Moves.{IsNamed, move_of};
ghost use Rattle.ps_mon.specs.Keeping.{Keeps, StillStands};
ghost use Rattle.ps_mon.specs.Valid.{IsSound, IsValid, IsLock};
ghost use Rattle.ps_mon.specs.Duels.{IsFit, IsDuelKnown};
ghost use Rattle.ps_hits.specs.Scenes.{scene};
ghost use Rattle.ps_hits.specs.Courses.{played, course};
ghost use Rattle.ps_multi.specs.Charging.{new_lock, is_charge, has_prepared, prepare, charged_strike, charge_row, charge_effect};
ghost use Rattle.ps_multi.specs.Charging.{wears_out, tire, recharge_row};

use ps_event::event::{Event, Events};
use ps_hits::scene::who;
use ps_hits::strike::{Struck, strike_foe_with};
use ps_mon::duel::Duel;
use ps_mon::effect::Effect;
use ps_mon::facts::Facts;
use ps_mon::moves::move_data;
use ps_mon::record::{Battle, Lock, LockKind};

pub(crate) fn first_lock(kind: LockKind, mv: u16, turns: u8, damage: u16) -> Lock
    requires turns { turns ≤ 4 }
    requires damage { damage ≤ 5992 }
    ensures value { result ≡ new_lock kind mv turns damage }
    ensures fit { IsLock result }
    ensures mv { result.mv ≡ mv }
{
    Lock {
        kind,
        mv,
        turns,
        damage,
        stored: 0,
    }
}

fn is_prepared(lock: Option<Lock>) -> bool
    ensures { result ≡ has_prepared lock }
{
    match lock {
        None => false,
        Some(lock) => matches!(lock.kind, LockKind::Charge { .. }),
    }
}

#[tactic(auto, unfolding(crate::specs::Charging::prepare))]
fn make_ready(duel: &mut Duel, away: bool, mv: u16, out: &mut Events)
    requires fit { IsFit duel.old }
    requires room { array_vec_len out.old + 1 ≤ 160 }
    ensures after { scene duel.new out.new ≡ (prepare away mv (scene duel.old out.old)).1 }
    ensures fit { IsFit duel.new }
    ensures known { (moves : ℕ) → mv < moves → IsDuelKnown moves duel.old → IsDuelKnown moves duel.new }
    ensures room { array_vec_len out.new ≤ array_vec_len out.old + 1 }
{
    out.push(Event::Prepare {
        who: who(&duel.user),
        mv,
    });
    duel.user.vol.lock = Some(first_lock(LockKind::Charge { away }, mv, 1, 0));
}

#[tactic(auto, unfolding(crate::specs::Charging::charged_strike))]
fn strike_charged(duel: &mut Duel, facts: Facts<'_>, mv: u16, out: &mut Events)
    requires fit { IsFit duel.old }
    requires fair { AreFair (figures facts) }
    requires room { array_vec_len out.old + 6 ≤ 160 }
    ensures after { scene duel.new out.new ≡ (charged_strike (figures facts.entry) mv (scene duel.old out.old)).1 }
    ensures fit { IsFit duel.new }
    ensures known { (moves : ℕ) → IsNamed moves mv → IsDuelKnown moves duel.old → IsDuelKnown moves duel.new }
    ensures room { array_vec_len out.new ≤ array_vec_len out.old + 6 }
{
    let _ = strike_foe_with(duel, facts, mv, false, out);
    duel.user.vol.lock = None;
}

#[tactic(auto, unfolding(crate::specs::Charging::charge_row))]
fn charge_duel(duel: &mut Duel, away: bool, facts: Facts<'_>, mv: u16, out: &mut Events)
    requires fit { IsFit duel.old }
    requires fair { AreFair (figures facts) }
    requires room { array_vec_len out.old + 6 ≤ 160 }
    ensures after { scene duel.new out.new ≡ (charge_row away (figures facts.entry) mv (scene duel.old out.old)).1 }
    ensures fit { IsFit duel.new }
    ensures known { (moves : ℕ) → mv < moves → IsDuelKnown moves duel.old → IsDuelKnown moves duel.new }
    ensures room { array_vec_len out.new ≤ array_vec_len out.old + 6 }
{
    if is_prepared(duel.user.vol.lock) {
        strike_charged(duel, facts, mv, out);
    } else {
        make_ready(duel, away, mv, out);
    }
}

/// First the user prepares, out of reach if the move says so; in its next act it strikes. A move of another kind does nothing.
pub fn charge(battle: &mut Battle, facts: Facts<'_>, user: u8, mv: u16, out: &mut Events)
    requires sound { IsSound battle.old }
    requires fair { AreFair (figures facts) }
    requires user { user < 2 }
    requires room { array_vec_len out.old + 20 ≤ 160 }
    ensures effect { course battle.new out.new
        ≡ played (charge_effect (move_of (figures facts.entry) mv).effect (figures facts.entry) mv) user (course battle.old out.old) }
    ensures sound { IsSound battle.new }
    ensures whole { IsValid battle.old → StillStands battle.old battle.new → IsValid battle.new }
    ensures known { (moves : ℕ) → mv < moves → AreKnown moves battle.old → AreKnown moves battle.new }
    ensures kept { Keeps user battle.old battle.new }
    ensures room { array_vec_len out.new ≤ array_vec_len out.old + 20 }
{
    let mut duel = battle.duel(user);
    if let Effect::Charge { away } = move_data(facts, mv).effect {
        charge_duel(&mut duel, away, facts, mv, out);
    }
    battle.put(user, &duel);
}

fn tires(struck: Struck, duel: &Duel) -> bool
    ensures { result ≡ wears_out struck duel.now }
{
    match struck {
        Struck::NoEffect | Struck::Missed => false,
        Struck::Hit(dealt) => duel.foe.hp > 0 && !dealt.ended,
    }
}

#[tactic(auto, unfolding(crate::specs::Charging::tire))]
fn tire_user(duel: &mut Duel, out: &mut Events)
    requires fit { IsFit duel.old }
    requires room { array_vec_len out.old + 1 ≤ 160 }
    ensures after { scene duel.new out.new ≡ (tire (scene duel.old out.old)).1 }
    ensures fit { IsFit duel.new }
    ensures known { (moves : ℕ) → IsDuelKnown moves duel.old → IsDuelKnown moves duel.new }
    ensures room { array_vec_len out.new ≤ array_vec_len out.old + 1 }
{
    duel.user.vol.recharge = true;
    out.push(Event::MustRecharge {
        who: who(&duel.user),
    });
}

#[tactic(auto, unfolding(crate::specs::Charging::recharge_row))]
fn recharge_duel(duel: &mut Duel, facts: Facts<'_>, mv: u16, out: &mut Events)
    requires fit { IsFit duel.old }
    requires fair { AreFair (figures facts) }
    requires room { array_vec_len out.old + 7 ≤ 160 }
    ensures after { scene duel.new out.new ≡ (recharge_row (figures facts.entry) mv (scene duel.old out.old)).1 }
    ensures fit { IsFit duel.new }
    ensures known { (moves : ℕ) → IsNamed moves mv → IsDuelKnown moves duel.old → IsDuelKnown moves duel.new }
    ensures room { array_vec_len out.new ≤ array_vec_len out.old + 7 }
{
    let struck = strike_foe_with(duel, facts, mv, false, out);
    if tires(struck, duel) {
        tire_user(duel, out);
    }
}

/// A strike; where it hits, the foe stands and no substitute ended, the user must recharge in its next act.
pub fn recharge(battle: &mut Battle, facts: Facts<'_>, user: u8, mv: u16, out: &mut Events)
    requires sound { IsSound battle.old }
    requires fair { AreFair (figures facts) }
    requires user { user < 2 }
    requires room { array_vec_len out.old + 20 ≤ 160 }
    ensures effect { course battle.new out.new ≡ played (recharge_row (figures facts.entry) mv) user (course battle.old out.old) }
    ensures sound { IsSound battle.new }
    ensures whole { IsValid battle.old → StillStands battle.old battle.new → IsValid battle.new }
    ensures known { (moves : ℕ) → IsNamed moves mv → AreKnown moves battle.old → AreKnown moves battle.new }
    ensures kept { Keeps user battle.old battle.new }
    ensures room { array_vec_len out.new ≤ array_vec_len out.old + 20 }
{
    let mut duel = battle.duel(user);
    recharge_duel(&mut duel, facts, mv, out);
    battle.put(user, &duel);
}
