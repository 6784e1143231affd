//! Whether a member acts.
ghost use Rattle.std.specs.Prelude.{◌≡◌, ◌≤◌, ◌<◌, ◌+◌, ℕ, IfSome};
ghost use Rattle.arrayvec.specs.ArrayVec.{array_vec_len};
ghost use Rattle.ps_mon.specs.Duels.{IsFit, IsFighter, IsDuelKnown};
ghost use Rattle.ps_hits.specs.Scenes.{scene};
ghost use Rattle.ps_mon.specs.Valid.{IsDisabled};
ghost use Rattle.ps_calc.specs.Damage.{damage_of};
ghost use Rattle.ps_battle.specs.Acting.{cannot, sleep_on, stays_awake, stays_thawed, traps, stays_free, stays_steady, stays_fresh};
ghost use Rattle.ps_battle.specs.Acting.{one_act_later, disabled_wears_off, is_slot_disabled, stays_enabled, own_hit, hurt_itself};
ghost use Rattle.ps_battle.specs.Acting.{act_confused, stays_clear, stays_mobile, may_act};

use ps_calc::{Hit, damage, staged};
use ps_event::event::{Event, Events};
use ps_event::numbers::{
    EFFECT_CONFUSION, EFFECT_DISABLE, FROM_CONFUSION, REASON_DISABLE, REASON_FLINCH, REASON_FRZ,
    REASON_PAR, REASON_PARTIALLY_TRAPPED, REASON_RECHARGE, REASON_SLP,
};
use ps_hits::fighters::stats;
use ps_hits::scene::{draw, health, number_of, who};
use ps_mon::duel::{Duel, Fighter};
use ps_mon::record::{Disabled, Lock, LockKind};
use ps_mon::status::Status;
use ps_status::clearing::without_status;

#[tactic(auto, unfolding(crate::specs::Acting::cannot))]
fn refuse(duel: &Duel, reason: u8, out: &mut Events) -> bool
    requires { array_vec_len out.old + 1 ≤ 160 }
    ensures value { result ≡ (cannot reason (scene duel.now out.old)).0 }
    ensures after { scene duel.now out.new ≡ (cannot reason (scene duel.now out.old)).1 }
    ensures room { array_vec_len out.new ≤ array_vec_len out.old + 1 }
{
    out.push(Event::Cant {
        who: who(&duel.user),
        reason,
    });
    false
}

#[tactic(auto, unfolding(crate::specs::Acting::sleep_on))]
fn sleep(duel: &mut Duel, out: &mut Events) -> bool
    requires fit { IsFit duel.old }
    requires room { array_vec_len out.old + 1 ≤ 160 }
    ensures value { result ≡ (sleep_on (scene duel.old out.old)).0 }
    ensures after { scene duel.new out.new ≡ (sleep_on (scene duel.old out.old)).1 }
    ensures fit { IsFit duel.new }
    ensures known { (moves : ℕ) → IsDuelKnown moves duel.old → IsDuelKnown moves duel.new }
    ensures room { array_vec_len out.new ≤ array_vec_len out.old + 1 }
{
    let before = duel.user;
    duel.user.counter = before.counter.saturating_sub(1);
    if duel.user.counter == 0 {
        duel.user = without_status(&duel.user);
        out.push(Event::CureStatus {
            who: who(&before),
            status: number_of(Status::Slp),
        });
        return false;
    }
    refuse(duel, REASON_SLP, out)
}

#[tactic(auto, unfolding(crate::specs::Acting::stays_awake))]
fn is_awake(duel: &mut Duel, out: &mut Events) -> bool
    requires fit { IsFit duel.old }
    requires room { array_vec_len out.old + 1 ≤ 160 }
    ensures value { result ≡ (stays_awake (scene duel.old out.old)).0 }
    ensures after { scene duel.new out.new ≡ (stays_awake (scene duel.old out.old)).1 }
    ensures fit { IsFit duel.new }
    ensures known { (moves : ℕ) → IsDuelKnown moves duel.old → IsDuelKnown moves duel.new }
    ensures room { array_vec_len out.new ≤ array_vec_len out.old + 1 }
{
    if duel.user.status == Status::Slp {
        return sleep(duel, out);
    }
    true
}

#[tactic(auto, unfolding(crate::specs::Acting::stays_thawed))]
fn is_thawed(duel: &mut Duel, out: &mut Events) -> bool
    requires fit { IsFit duel.old }
    requires room { array_vec_len out.old + 1 ≤ 160 }
    ensures value { result ≡ (stays_thawed (scene duel.old out.old)).0 }
    ensures after { scene duel.new out.new ≡ (stays_thawed (scene duel.old out.old)).1 }
    ensures fit { IsFit duel.new }
    ensures known { (moves : ℕ) → IsDuelKnown moves duel.old → IsDuelKnown moves duel.new }
    ensures room { array_vec_len out.new ≤ array_vec_len out.old + 1 }
{
    if duel.user.status == Status::Frz {
        return refuse(duel, REASON_FRZ, out);
    }
    true
}

/// Whether a lock is that of a trap.
pub(crate) fn holds(lock: Option<Lock>) -> bool
    ensures { result ≡ traps lock }
{
    match lock {
        None => false,
        Some(lock) => lock.kind == LockKind::Trap,
    }
}

#[tactic(auto, unfolding(crate::specs::Acting::stays_free))]
fn is_free(duel: &mut Duel, out: &mut Events) -> bool
    requires fit { IsFit duel.old }
    requires room { array_vec_len out.old + 1 ≤ 160 }
    ensures value { result ≡ (stays_free (scene duel.old out.old)).0 }
    ensures after { scene duel.new out.new ≡ (stays_free (scene duel.old out.old)).1 }
    ensures fit { IsFit duel.new }
    ensures known { (moves : ℕ) → IsDuelKnown moves duel.old → IsDuelKnown moves duel.new }
    ensures room { array_vec_len out.new ≤ array_vec_len out.old + 1 }
{
    if holds(duel.foe.vol.lock) {
        return refuse(duel, REASON_PARTIALLY_TRAPPED, out);
    }
    true
}

#[tactic(auto, unfolding(crate::specs::Acting::stays_steady))]
fn is_steady(duel: &mut Duel, out: &mut Events) -> bool
    requires fit { IsFit duel.old }
    requires room { array_vec_len out.old + 1 ≤ 160 }
    ensures value { result ≡ (stays_steady (scene duel.old out.old)).0 }
    ensures after { scene duel.new out.new ≡ (stays_steady (scene duel.old out.old)).1 }
    ensures fit { IsFit duel.new }
    ensures known { (moves : ℕ) → IsDuelKnown moves duel.old → IsDuelKnown moves duel.new }
    ensures room { array_vec_len out.new ≤ array_vec_len out.old + 1 }
{
    if duel.user.vol.flinch {
        return refuse(duel, REASON_FLINCH, out);
    }
    true
}

#[tactic(auto, unfolding(crate::specs::Acting::stays_fresh))]
fn is_fresh(duel: &mut Duel, out: &mut Events) -> bool
    requires fit { IsFit duel.old }
    requires room { array_vec_len out.old + 1 ≤ 160 }
    ensures value { result ≡ (stays_fresh (scene duel.old out.old)).0 }
    ensures after { scene duel.new out.new ≡ (stays_fresh (scene duel.old out.old)).1 }
    ensures fit { IsFit duel.new }
    ensures known { (moves : ℕ) → IsDuelKnown moves duel.old → IsDuelKnown moves duel.new }
    ensures room { array_vec_len out.new ≤ array_vec_len out.old + 1 }
{
    if duel.user.vol.recharge {
        duel.user.vol.recharge = false;
        return refuse(duel, REASON_RECHARGE, out);
    }
    true
}

fn later(disabled: Disabled) -> Option<Disabled>
    requires { IsDisabled disabled }
    ensures value { result ≡ one_act_later disabled }
    ensures fit { IfSome result IsDisabled }
{
    let turns = disabled.turns.saturating_sub(1);
    if turns == 0 {
        None
    } else {
        Some(Disabled { turns, ..disabled })
    }
}

#[tactic(auto, unfolding(crate::specs::Acting::disabled_wears_off))]
fn wear_off(duel: &mut Duel, out: &mut Events)
    requires fit { IsFit duel.old }
    requires room { array_vec_len out.old + 1 ≤ 160 }
    ensures after { scene duel.new out.new ≡ (disabled_wears_off (scene duel.old out.old)).1 }
    ensures fit { IsFit duel.new }
    ensures known { (moves : ℕ) → IsDuelKnown moves duel.old → IsDuelKnown moves duel.new }
    ensures room { array_vec_len out.new ≤ array_vec_len out.old + 1 }
{
    let Some(disabled) = duel.user.vol.disabled else {
        return;
    };
    duel.user.vol.disabled = later(disabled);
    if disabled.turns.saturating_sub(1) == 0 {
        out.push(Event::VolEnd {
            who: who(&duel.user),
            effect: EFFECT_DISABLE,
        });
    }
}

fn bars_slot(disabled: Option<Disabled>, slot: Option<u8>) -> bool
    ensures { result ≡ is_slot_disabled disabled slot }
{
    match slot {
        None => false,
        Some(slot) => match disabled {
            None => false,
            Some(disabled) => disabled.slot == slot,
        },
    }
}

#[tactic(auto, unfolding(crate::specs::Acting::stays_enabled))]
fn is_enabled(duel: &mut Duel, slot: Option<u8>, out: &mut Events) -> bool
    requires fit { IsFit duel.old }
    requires room { array_vec_len out.old + 2 ≤ 160 }
    ensures value { result ≡ (stays_enabled slot (scene duel.old out.old)).0 }
    ensures after { scene duel.new out.new ≡ (stays_enabled slot (scene duel.old out.old)).1 }
    ensures fit { IsFit duel.new }
    ensures known { (moves : ℕ) → IsDuelKnown moves duel.old → IsDuelKnown moves duel.new }
    ensures room { array_vec_len out.new ≤ array_vec_len out.old + 2 }
{
    wear_off(duel, out);
    if bars_slot(duel.user.vol.disabled, slot) {
        return refuse(duel, REASON_DISABLE, out);
    }
    true
}

#[tactic(auto, unfolding(crate::specs::Acting::own_hit))]
fn own_damage(f: &Fighter) -> u16
    requires { IsFighter f.now }
    ensures { result ≡ damage_of (own_hit f.now) }
{
    damage(&Hit {
        level: f.level,
        power: 40,
        attack: staged(stats(f)[0], f.vol.stages.atk),
        defence: staged(stats(f)[1], f.vol.stages.def),
        crit: false,
        stab: false,
        factors: [10, 10],
        roll: 255,
    })
}

#[tactic(auto, unfolding(crate::specs::Acting::hurt_itself))]
fn hit_itself(duel: &mut Duel, n: u16, out: &mut Events) -> bool
    requires fit { IsFit duel.old }
    requires room { array_vec_len out.old + 2 ≤ 160 }
    ensures value { result ≡ (hurt_itself n (scene duel.old out.old)).0 }
    ensures after { scene duel.new out.new ≡ (hurt_itself n (scene duel.old out.old)).1 }
    ensures fit { IsFit duel.new }
    ensures known { (moves : ℕ) → IsDuelKnown moves duel.old → IsDuelKnown moves duel.new }
    ensures room { array_vec_len out.new ≤ array_vec_len out.old + 2 }
{
    duel.user.hp = duel.user.hp.saturating_sub(n);
    duel.user.vol.lock = None;
    let user = duel.user;
    out.push(Event::Damage {
        who: who(&user),
        health: health(&user),
        from: FROM_CONFUSION,
    });
    if user.hp == 0 {
        out.push(Event::Faint { who: who(&user) });
    }
    false
}

#[tactic(auto, unfolding(crate::specs::Acting::act_confused))]
fn try_confused(duel: &mut Duel, out: &mut Events) -> bool
    requires fit { IsFit duel.old }
    requires room { array_vec_len out.old + 3 ≤ 160 }
    ensures value { result ≡ (act_confused (scene duel.old out.old)).0 }
    ensures after { scene duel.new out.new ≡ (act_confused (scene duel.old out.old)).1 }
    ensures fit { IsFit duel.new }
    ensures known { (moves : ℕ) → IsDuelKnown moves duel.old → IsDuelKnown moves duel.new }
    ensures room { array_vec_len out.new ≤ array_vec_len out.old + 3 }
{
    let before = duel.user;
    out.push(Event::Activate {
        who: who(&before),
        effect: EFFECT_CONFUSION,
        mv: None,
    });
    if draw(duel, 256) < 128 {
        return hit_itself(duel, own_damage(&before), out);
    }
    true
}

#[tactic(auto, unfolding(crate::specs::Acting::stays_clear))]
fn is_clear(duel: &mut Duel, out: &mut Events) -> bool
    requires fit { IsFit duel.old }
    requires room { array_vec_len out.old + 3 ≤ 160 }
    ensures value { result ≡ (stays_clear (scene duel.old out.old)).0 }
    ensures after { scene duel.new out.new ≡ (stays_clear (scene duel.old out.old)).1 }
    ensures fit { IsFit duel.new }
    ensures known { (moves : ℕ) → IsDuelKnown moves duel.old → IsDuelKnown moves duel.new }
    ensures room { array_vec_len out.new ≤ array_vec_len out.old + 3 }
{
    if duel.user.vol.confusion == 0 {
        return true;
    }
    duel.user.vol.confusion -= 1;
    if duel.user.vol.confusion == 0 {
        out.push(Event::VolEnd {
            who: who(&duel.user),
            effect: EFFECT_CONFUSION,
        });
        return true;
    }
    try_confused(duel, out)
}

#[tactic(auto, unfolding(crate::specs::Acting::stays_mobile))]
fn is_mobile(duel: &mut Duel, out: &mut Events) -> bool
    requires fit { IsFit duel.old }
    requires room { array_vec_len out.old + 1 ≤ 160 }
    ensures value { result ≡ (stays_mobile (scene duel.old out.old)).0 }
    ensures after { scene duel.new out.new ≡ (stays_mobile (scene duel.old out.old)).1 }
    ensures fit { IsFit duel.new }
    ensures known { (moves : ℕ) → IsDuelKnown moves duel.old → IsDuelKnown moves duel.new }
    ensures room { array_vec_len out.new ≤ array_vec_len out.old + 1 }
{
    if duel.user.status != Status::Par {
        return true;
    }
    if draw(duel, 256) >= 63 {
        return true;
    }
    duel.user.vol.lock = None;
    refuse(duel, REASON_PAR, out)
}

/// Whether the user acts, with the slot of its move, from 0; Struggle and long moves have none.
#[tactic(auto, unfolding(crate::specs::Acting::may_act))]
pub(crate) fn can_act(duel: &mut Duel, slot: Option<u8>, out: &mut Events) -> bool
    requires fit { IsFit duel.old }
    requires room { array_vec_len out.old + 11 ≤ 160 }
    ensures value { result ≡ (may_act slot (scene duel.old out.old)).0 }
    ensures after { scene duel.new out.new ≡ (may_act slot (scene duel.old out.old)).1 }
    ensures fit { IsFit duel.new }
    ensures known { (moves : ℕ) → IsDuelKnown moves duel.old → IsDuelKnown moves duel.new }
    ensures room { array_vec_len out.new ≤ array_vec_len out.old + 11 }
{
    if !is_awake(duel, out) {
        return false;
    }
    if !is_thawed(duel, out) {
        return false;
    }
    if !is_free(duel, out) {
        return false;
    }
    if !is_steady(duel, out) {
        return false;
    }
    if !is_fresh(duel, out) {
        return false;
    }
    if !is_enabled(duel, slot, out) {
        return false;
    }
    if !is_clear(duel, out) {
        return false;
    }
    is_mobile(duel, out)
}
