//! Moves that hold their user for several acts.
ghost use Rattle.std.specs.Prelude.{◌≡◌, ◌≤◌, ◌<◌, ◌+◌, ◌*◌, ℕ, IfSome};
ghost use Rattle.arrayvec.specs.ArrayVec.{array_vec_len};
ghost use Rattle.ps_mon.specs.Facts.{AreFair, figures};
ghost use Rattle.ps_mon.specs.Known.{AreKnown};
ghost use Rattle.ps_mon.specs.Moves.{IsNamed};
ghost use Rattle.ps_mon.specs.Keeping.{Keeps, StillStands};
ghost use Rattle.ps_mon.specs.Valid.{IsSound, IsValid, IsLock};
ghost use Rattle.ps_mon.specs.Duels.{IsFit, IsDuelKnown};
ghost use Rattle.ps_hits.specs.Scenes.{Scene, scene};
ghost use Rattle.ps_hits.specs.Courses.{played, course};
ghost use Rattle.ps_hits.specs.Strikes.{IsStruck};
ghost use Rattle.ps_multi.specs.Locking.{is_trap, is_thrash, is_bide, own_lock, one_act_less, lock_or_new, trap_foe, trap_after};
ghost use Rattle.ps_multi.specs.Locking.{trap_begins, trap_wears_off, trap_goes_on, trap_by, trap_row, grow_dizzy, thrash_wears_off};
ghost use Rattle.ps_multi.specs.Locking.{thrash_row, bide_on, bide_ends, bide_row, rage_row};

use crate::charging::first_lock;
use crate::several::hit_number;
use ps_event::event::{Event, Events};
use ps_event::numbers::{EFFECT_BIDE, EFFECT_CONFUSION};
use ps_hits::scene::{draw, who};
use ps_hits::strike::{Struck, deal_out, strike_foe_with};
use ps_mon::duel::Duel;
use ps_mon::facts::Facts;
use ps_mon::record::{Battle, Lock, LockKind};
use ps_status::confusing::keeps_its_head;

fn trap_lock(duel: &Duel) -> Option<Lock>
    requires { IsFit duel.now }
    ensures value { result ≡ own_lock is_trap duel.now.user.vol.lock }
    ensures fit { IfSome result IsLock }
    ensures known { (moves : ℕ) → IsDuelKnown moves duel.now → IfSome result (λ l. l.mv < moves) }
{
    let lock = duel.user.vol.lock?;
    match lock.kind {
        LockKind::Trap => Some(lock),
        _ => None,
    }
}

fn thrash_lock(duel: &Duel) -> Option<Lock>
    requires { IsFit duel.now }
    ensures value { result ≡ own_lock is_thrash duel.now.user.vol.lock }
    ensures fit { IfSome result IsLock }
    ensures known { (moves : ℕ) → IsDuelKnown moves duel.now → IfSome result (λ l. l.mv < moves) }
{
    let lock = duel.user.vol.lock?;
    match lock.kind {
        LockKind::Thrash => Some(lock),
        _ => None,
    }
}

fn bide_lock(duel: &Duel) -> Option<Lock>
    requires { IsFit duel.now }
    ensures value { result ≡ own_lock is_bide duel.now.user.vol.lock }
    ensures fit { IfSome result IsLock }
    ensures known { (moves : ℕ) → IsDuelKnown moves duel.now → IfSome result (λ l. l.mv < moves) }
{
    let lock = duel.user.vol.lock?;
    match lock.kind {
        LockKind::Bide => Some(lock),
        _ => None,
    }
}

fn shorter(lock: Lock) -> Lock
    requires { IsLock lock }
    ensures value { result ≡ one_act_less lock }
    ensures fit { IsLock result }
    ensures known { (moves : ℕ) → lock.mv < moves → result.mv < moves }
{
    Lock {
        turns: lock.turns.saturating_sub(1),
        ..lock
    }
}

fn lock_to_go_on(duel: &mut Duel, kind: LockKind, fewest: u8, mv: u16, own: Option<Lock>) -> Lock
    requires fit { IsFit duel.old }
    requires fewest { fewest ≤ 3 }
    requires own { IfSome own IsLock }
    ensures value { (s : Scene) → s.duel ≡ duel.old → result ≡ (lock_or_new kind fewest mv own s).0 }
    ensures after { (s : Scene) → s.duel ≡ duel.old → (lock_or_new kind fewest mv own s).1 ≡ record s { duel = duel.new } }
    ensures fit { IsFit duel.new }
    ensures lock { IsLock result }
    ensures known { (moves : ℕ) → IsDuelKnown moves duel.old → IsDuelKnown moves duel.new }
    ensures mv { (moves : ℕ) → mv < moves → IfSome own (λ l. l.mv < moves) → result.mv < moves }
{
    match own {
        Some(lock) => lock,
        None => {
            let more = draw(duel, 2) as u8;
            first_lock(kind, mv, fewest + more, 0)
        }
    }
}

#[tactic(auto, unfolding(crate::specs::Locking::trap_after, crate::specs::Locking::trap_foe))]
fn catch_after(duel: &mut Duel, mv: u16, struck: Struck)
    requires fit { IsFit duel.old }
    requires struck { IsStruck struck }
    ensures after { (s : Scene) → s.duel ≡ duel.old → (trap_after mv struck s).1 ≡ record s { duel = duel.new } }
    ensures fit { IsFit duel.new }
    ensures known { (moves : ℕ) → mv < moves → IsDuelKnown moves duel.old → IsDuelKnown moves duel.new }
{
    if let Struck::Hit(dealt) = struck {
        if duel.foe.hp == 0 {
            return;
        }
        let turns = hit_number(draw(duel, 8)) - 1;
        duel.user.vol.lock = Some(first_lock(LockKind::Trap, mv, turns, dealt.damage));
    }
}

#[tactic(auto, unfolding(crate::specs::Locking::trap_begins))]
fn begin_trap(duel: &mut Duel, facts: Facts<'_>, mv: u16, out: &mut Events)
    requires fit { IsFit duel.old }
    requires fair { AreFair (figures facts) }
    requires room { array_vec_len out.old + 6 ≤ 160 }
    ensures after { scene duel.new out.new ≡ (trap_begins (figures facts.entry) mv (scene duel.old out.old)).1 }
    ensures fit { IsFit duel.new }
    ensures known { (moves : ℕ) → mv < moves → IsDuelKnown moves duel.old → IsDuelKnown moves duel.new }
    ensures room { array_vec_len out.new ≤ array_vec_len out.old + 6 }
{
    let struck = strike_foe_with(duel, facts, mv, false, out);
    catch_after(duel, mv, struck);
}

#[tactic(auto, unfolding(crate::specs::Locking::trap_wears_off))]
fn count_trap(duel: &mut Duel, lock: Lock)
    requires fit { IsFit duel.old }
    requires lock { IsLock lock }
    ensures after { (s : Scene) → s.duel ≡ duel.old → (trap_wears_off lock s).1 ≡ record s { duel = duel.new } }
    ensures fit { IsFit duel.new }
    ensures known { (moves : ℕ) → lock.mv < moves → IsDuelKnown moves duel.old → IsDuelKnown moves duel.new }
{
    if lock.turns == 0 || duel.foe.hp == 0 {
        duel.user.vol.lock = None;
    } else {
        duel.user.vol.lock = Some(lock);
    }
}

#[tactic(auto, unfolding(crate::specs::Locking::trap_goes_on))]
fn go_on_trapping(duel: &mut Duel, mv: u16, lock: Lock, out: &mut Events)
    requires fit { IsFit duel.old }
    requires lock { IsLock lock }
    requires room { array_vec_len out.old + 3 ≤ 160 }
    ensures after { scene duel.new out.new ≡ (trap_goes_on mv lock (scene duel.old out.old)).1 }
    ensures fit { IsFit duel.new }
    ensures known { (moves : ℕ) → mv < moves → lock.mv < moves → IsDuelKnown moves duel.old → IsDuelKnown moves duel.new }
    ensures room { array_vec_len out.new ≤ array_vec_len out.old + 3 }
{
    let _ = deal_out(duel, mv, lock.damage, out);
    count_trap(duel, shorter(lock));
}

#[tactic(auto, unfolding(crate::specs::Locking::trap_row))]
fn trap_duel(duel: &mut Duel, facts: Facts<'_>, mv: u16, out: &mut Events)
    requires fit { IsFit duel.old }
    requires fair { AreFair (figures facts) }
    requires room { array_vec_len out.old + 6 ≤ 160 }
    ensures after { scene duel.new out.new ≡ (trap_row (figures facts.entry) mv (scene duel.old out.old)).1 }
    ensures fit { IsFit duel.new }
    ensures known { (moves : ℕ) → mv < moves → IsDuelKnown moves duel.old → IsDuelKnown moves duel.new }
    ensures room { array_vec_len out.new ≤ array_vec_len out.old + 6 }
{
    match trap_lock(duel) {
        None => begin_trap(duel, facts, mv, out),
        Some(lock) => go_on_trapping(duel, mv, lock, out),
    }
}

/// A strike that traps the foe for 1 to 4 acts, in each of which its damage is dealt again.
pub fn trap(battle: &mut Battle, facts: Facts<'_>, user: u8, mv: u16, out: &mut Events)
    requires sound { IsSound battle.old }
    requires fair { AreFair (figures facts) }
    requires user { user < 2 }
    requires room { array_vec_len out.old + 20 ≤ 160 }
    ensures effect { course battle.new out.new ≡ played (trap_row (figures facts.entry) mv) user (course battle.old out.old) }
    ensures sound { IsSound battle.new }
    ensures whole { IsValid battle.old → StillStands battle.old battle.new → IsValid battle.new }
    ensures known { (moves : ℕ) → mv < moves → AreKnown moves battle.old → AreKnown moves battle.new }
    ensures kept { Keeps user battle.old battle.new }
    ensures room { array_vec_len out.new ≤ array_vec_len out.old + 20 }
{
    let mut duel = battle.duel(user);
    trap_duel(&mut duel, facts, mv, out);
    battle.put(user, &duel);
}

#[tactic(auto, unfolding(crate::specs::Locking::grow_dizzy))]
fn confuse_user(duel: &mut Duel, out: &mut Events)
    requires fit { IsFit duel.old }
    requires room { array_vec_len out.old + 1 ≤ 160 }
    ensures after { scene duel.new out.new ≡ (grow_dizzy (scene duel.old out.old)).1 }
    ensures fit { IsFit duel.new }
    ensures known { (moves : ℕ) → IsDuelKnown moves duel.old → IsDuelKnown moves duel.new }
    ensures room { array_vec_len out.new ≤ array_vec_len out.old + 1 }
{
    if keeps_its_head(&duel.user) {
        return;
    }
    let turns = 2 + draw(duel, 4) as u8;
    duel.user.vol.confusion = turns;
    out.push(Event::VolStart {
        who: who(&duel.user),
        effect: EFFECT_CONFUSION,
        mv: None,
    });
}

#[tactic(auto, unfolding(crate::specs::Locking::thrash_wears_off))]
fn count_thrash(duel: &mut Duel, lock: Lock, out: &mut Events)
    requires fit { IsFit duel.old }
    requires lock { IsLock lock }
    requires room { array_vec_len out.old + 1 ≤ 160 }
    ensures after { scene duel.new out.new ≡ (thrash_wears_off lock (scene duel.old out.old)).1 }
    ensures fit { IsFit duel.new }
    ensures known { (moves : ℕ) → lock.mv < moves → IsDuelKnown moves duel.old → IsDuelKnown moves duel.new }
    ensures room { array_vec_len out.new ≤ array_vec_len out.old + 1 }
{
    if lock.turns == 0 {
        duel.user.vol.lock = None;
        confuse_user(duel, out);
    } else {
        duel.user.vol.lock = Some(lock);
    }
}

#[tactic(auto, unfolding(crate::specs::Locking::thrash_row))]
fn thrash_duel(duel: &mut Duel, facts: Facts<'_>, mv: u16, out: &mut Events)
    requires fit { IsFit duel.old }
    requires fair { AreFair (figures facts) }
    requires room { array_vec_len out.old + 7 ≤ 160 }
    ensures after { scene duel.new out.new ≡ (thrash_row (figures facts.entry) mv (scene duel.old out.old)).1 }
    ensures fit { IsFit duel.new }
    ensures known { (moves : ℕ) → mv < moves → IsDuelKnown moves duel.old → IsDuelKnown moves duel.new }
    ensures room { array_vec_len out.new ≤ array_vec_len out.old + 7 }
{
    let own = thrash_lock(duel);
    let lock = lock_to_go_on(duel, LockKind::Thrash, 3, mv, own);
    let _ = strike_foe_with(duel, facts, mv, false, out);
    count_thrash(duel, shorter(lock), out);
}

/// A strike in each of 3 or 4 acts, after which the user is confused.
pub fn thrash(battle: &mut Battle, facts: Facts<'_>, user: u8, mv: u16, out: &mut Events)
    requires sound { IsSound battle.old }
    requires fair { AreFair (figures facts) }
    requires user { user < 2 }
    requires room { array_vec_len out.old + 20 ≤ 160 }
    ensures effect { course battle.new out.new ≡ played (thrash_row (figures facts.entry) mv) user (course battle.old out.old) }
    ensures sound { IsSound battle.new }
    ensures whole { IsValid battle.old → StillStands battle.old battle.new → IsValid battle.new }
    ensures known { (moves : ℕ) → mv < moves → AreKnown moves battle.old → AreKnown moves battle.new }
    ensures kept { Keeps user battle.old battle.new }
    ensures room { array_vec_len out.new ≤ array_vec_len out.old + 20 }
{
    let mut duel = battle.duel(user);
    thrash_duel(&mut duel, facts, mv, out);
    battle.put(user, &duel);
}

#[tactic(auto, unfolding(crate::specs::Locking::bide_on))]
fn go_on_biding(duel: &mut Duel, lock: Lock, out: &mut Events)
    requires fit { IsFit duel.old }
    requires lock { IsLock lock }
    requires room { array_vec_len out.old + 1 ≤ 160 }
    ensures after { scene duel.new out.new ≡ (bide_on lock (scene duel.old out.old)).1 }
    ensures fit { IsFit duel.new }
    ensures known { (moves : ℕ) → lock.mv < moves → IsDuelKnown moves duel.old → IsDuelKnown moves duel.new }
    ensures room { array_vec_len out.new ≤ array_vec_len out.old + 1 }
{
    duel.user.vol.lock = Some(shorter(lock));
    out.push(Event::Activate {
        who: who(&duel.user),
        effect: EFFECT_BIDE,
        mv: None,
    });
}

#[tactic(auto, unfolding(crate::specs::Locking::bide_ends))]
fn end_bide(duel: &mut Duel, mv: u16, lock: Lock, out: &mut Events)
    requires fit { IsFit duel.old }
    requires lock { IsLock lock }
    requires room { array_vec_len out.old + 4 ≤ 160 }
    ensures after { scene duel.new out.new ≡ (bide_ends mv lock (scene duel.old out.old)).1 }
    ensures fit { IsFit duel.new }
    ensures known { (moves : ℕ) → IsNamed moves mv → IsDuelKnown moves duel.old → IsDuelKnown moves duel.new }
    ensures room { array_vec_len out.new ≤ array_vec_len out.old + 4 }
{
    duel.user.vol.lock = None;
    out.push(Event::VolEnd {
        who: who(&duel.user),
        effect: EFFECT_BIDE,
    });
    if lock.stored == 0 {
        out.push(Event::Fail {
            who: who(&duel.user),
        });
    } else {
        let _ = deal_out(duel, mv, 2 * lock.stored, out);
    }
}

#[tactic(auto, unfolding(crate::specs::Locking::bide_row))]
fn bide_duel(duel: &mut Duel, mv: u16, out: &mut Events)
    requires fit { IsFit duel.old }
    requires room { array_vec_len out.old + 4 ≤ 160 }
    ensures after { scene duel.new out.new ≡ (bide_row mv (scene duel.old out.old)).1 }
    ensures fit { IsFit duel.new }
    ensures known { (moves : ℕ) → mv < moves → IsDuelKnown moves duel.old → IsDuelKnown moves duel.new }
    ensures room { array_vec_len out.new ≤ array_vec_len out.old + 4 }
{
    let own = bide_lock(duel);
    let lock = lock_to_go_on(duel, LockKind::Bide, 2, mv, own);
    if lock.turns == 0 {
        end_bide(duel, mv, lock, out);
    } else {
        go_on_biding(duel, lock, out);
    }
}

/// In 2 or 3 acts the user stores what it loses; in the act after them it deals twice of that, or fails where it is nothing.
pub fn bide(battle: &mut Battle, _facts: Facts<'_>, user: u8, mv: u16, out: &mut Events)
    requires sound { IsSound battle.old }
    requires fair { AreFair (figures _facts) }
    requires user { user < 2 }
    requires room { array_vec_len out.old + 20 ≤ 160 }
    ensures effect { course battle.new out.new ≡ played (bide_row mv) user (course battle.old out.old) }
    ensures sound { IsSound battle.new }
    ensures whole { IsValid battle.old → StillStands battle.old battle.new → IsValid battle.new }
    ensures known { (moves : ℕ) → mv < moves → AreKnown moves battle.old → AreKnown moves battle.new }
    ensures kept { Keeps user battle.old battle.new }
    ensures room { array_vec_len out.new ≤ array_vec_len out.old + 20 }
{
    let mut duel = battle.duel(user);
    bide_duel(&mut duel, mv, out);
    battle.put(user, &duel);
}

#[tactic(auto, unfolding(crate::specs::Locking::rage_row))]
fn rage_duel(duel: &mut Duel, facts: Facts<'_>, mv: u16, out: &mut Events)
    requires fit { IsFit duel.old }
    requires fair { AreFair (figures facts) }
    requires room { array_vec_len out.old + 6 ≤ 160 }
    ensures after { scene duel.new out.new ≡ (rage_row (figures facts.entry) mv (scene duel.old out.old)).1 }
    ensures fit { IsFit duel.new }
    ensures known { (moves : ℕ) → mv < moves → IsDuelKnown moves duel.old → IsDuelKnown moves duel.new }
    ensures room { array_vec_len out.new ≤ array_vec_len out.old + 6 }
{
    let _ = strike_foe_with(duel, facts, mv, false, out);
    duel.user.vol.lock = Some(first_lock(LockKind::Rage, mv, 0, 0));
}

/// A strike in each act from now on; the user rages.
pub fn rage(battle: &mut Battle, facts: Facts<'_>, user: u8, mv: u16, out: &mut Events)
    requires sound { IsSound battle.old }
    requires fair { AreFair (figures facts) }
    requires user { user < 2 }
    requires room { array_vec_len out.old + 20 ≤ 160 }
    ensures effect { course battle.new out.new ≡ played (rage_row (figures facts.entry) mv) user (course battle.old out.old) }
    ensures sound { IsSound battle.new }
    ensures whole { IsValid battle.old → StillStands battle.old battle.new → IsValid battle.new }
    ensures known { (moves : ℕ) → mv < moves → AreKnown moves battle.old → AreKnown moves battle.new }
    ensures kept { Keeps user battle.old battle.new }
    ensures room { array_vec_len out.new ≤ array_vec_len out.old + 20 }
{
    let mut duel = battle.duel(user);
    rage_duel(&mut duel, facts, mv, out);
    battle.put(user, &duel);
}
