//! The residual: what a member takes after its act.
ghost use Rattle.std.specs.Prelude.{◌≡◌, ◌≤◌, ◌<◌, ◌+◌, ℕ};
ghost use Rattle.arrayvec.specs.ArrayVec.{array_vec_len};
ghost use Rattle.ps_mon.specs.Duels.{IsFit, IsFighter, IsDuelKnown};
ghost use Rattle.ps_hits.specs.Scenes.{scene};
ghost use Rattle.ps_battle.specs.Residual.{base_loss, residual_of_bad_poison, residual_of_status, foe_gains, feed_foe, lets_go_down};
ghost use Rattle.ps_battle.specs.Residual.{residual};

use crate::acting::holds;
use ps_event::event::{Event, Events};
use ps_event::numbers::{FROM_BRN, FROM_LEECH_SEED, FROM_PSN};
use ps_hits::scene::{health, who};
use ps_hits::shares::lose_health;
use ps_mon::duel::{Duel, Fighter};
use ps_mon::status::Status;

#[tactic(auto, unfolding(crate::specs::Residual::base_loss))]
fn base(f: &Fighter) -> u16
    requires { IsFighter f.now }
    ensures value { result ≡ base_loss f.now }
    ensures high { result ≤ 44 }
{
    (f.max / 16).max(1)
}

#[tactic(auto, unfolding(crate::specs::Residual::residual_of_bad_poison))]
fn take_bad_poison(duel: &mut Duel, out: &mut Events)
    requires fit { IsFit duel.old }
    requires room { array_vec_len out.old + 2 ≤ 160 }
    ensures after { scene duel.new out.new ≡ (residual_of_bad_poison (scene duel.old out.old)).1 }
    ensures fit { IsFit duel.new }
    ensures known { (moves : ℕ) → IsDuelKnown moves duel.old → IsDuelKnown moves duel.new }
    ensures room { array_vec_len out.new ≤ array_vec_len out.old + 2 }
{
    let base = base(&duel.user);
    let count = (duel.user.vol.toxic + 1).min(15);
    duel.user.vol.toxic = count;
    lose_health(duel, FROM_PSN, base * u16::from(count), out);
}

#[tactic(auto, unfolding(crate::specs::Residual::residual_of_status))]
fn take_status_residual(duel: &mut Duel, out: &mut Events)
    requires fit { IsFit duel.old }
    requires room { array_vec_len out.old + 2 ≤ 160 }
    ensures after { scene duel.new out.new ≡ (residual_of_status (scene duel.old out.old)).1 }
    ensures fit { IsFit duel.new }
    ensures known { (moves : ℕ) → IsDuelKnown moves duel.old → IsDuelKnown moves duel.new }
    ensures room { array_vec_len out.new ≤ array_vec_len out.old + 2 }
{
    let base = base(&duel.user);
    match duel.user.status {
        Status::Brn => lose_health(duel, FROM_BRN, base, out),
        Status::Psn => lose_health(duel, FROM_PSN, base, out),
        Status::Tox => take_bad_poison(duel, out),
        _ => (),
    }
}

#[tactic(auto, unfolding(crate::specs::Residual::foe_gains))]
fn feed(duel: &mut Duel, n: u16, out: &mut Events)
    requires fit { IsFit duel.old }
    requires n { n ≤ 44 }
    requires room { array_vec_len out.old + 1 ≤ 160 }
    ensures after { scene duel.new out.new ≡ (foe_gains n (scene duel.old out.old)).1 }
    ensures fit { IsFit duel.new }
    ensures known { (moves : ℕ) → IsDuelKnown moves duel.old → IsDuelKnown moves duel.new }
    ensures room { array_vec_len out.new ≤ array_vec_len out.old + 1 }
{
    duel.foe.hp = (duel.foe.hp + n).min(duel.foe.max);
    let foe = duel.foe;
    out.push(Event::Heal {
        who: who(&foe),
        health: health(&foe),
    });
}

#[tactic(auto, unfolding(crate::specs::Residual::feed_foe))]
fn take_seed_residual(duel: &mut Duel, out: &mut Events)
    requires fit { IsFit duel.old }
    requires room { array_vec_len out.old + 3 ≤ 160 }
    ensures after { scene duel.new out.new ≡ (feed_foe (scene duel.old out.old)).1 }
    ensures fit { IsFit duel.new }
    ensures known { (moves : ℕ) → IsDuelKnown moves duel.old → IsDuelKnown moves duel.new }
    ensures room { array_vec_len out.new ≤ array_vec_len out.old + 3 }
{
    if !duel.user.vol.seeded {
        return;
    }
    if duel.user.hp == 0 {
        return;
    }
    let base = base(&duel.user);
    lose_health(duel, FROM_LEECH_SEED, base, out);
    feed(duel, base, out);
}

#[tactic(auto, unfolding(crate::specs::Residual::lets_go_down))]
fn let_go(duel: &mut Duel, out: &mut Events)
    requires fit { IsFit duel.old }
    ensures after { scene duel.new out.new ≡ (lets_go_down (scene duel.old out.old)).1 }
    ensures fit { IsFit duel.new }
    ensures known { (moves : ℕ) → IsDuelKnown moves duel.old → IsDuelKnown moves duel.new }
    ensures room { array_vec_len out.new ≤ array_vec_len out.old }
{
    if duel.user.hp == 0 && holds(duel.user.vol.lock) {
        duel.user.vol.lock = None;
    }
}

/// The residual that the user takes after its act, where both active members stand.
#[tactic(auto, unfolding(crate::specs::Residual::residual))]
pub(crate) fn residual_of(duel: &mut Duel, out: &mut Events)
    requires fit { IsFit duel.old }
    requires room { array_vec_len out.old + 5 ≤ 160 }
    ensures after { scene duel.new out.new ≡ (residual (scene duel.old out.old)).1 }
    ensures fit { IsFit duel.new }
    ensures known { (moves : ℕ) → IsDuelKnown moves duel.old → IsDuelKnown moves duel.new }
    ensures room { array_vec_len out.new ≤ array_vec_len out.old + 5 }
{
    if duel.user.hp == 0 {
        return;
    }
    if duel.foe.hp == 0 {
        return;
    }
    take_status_residual(duel, out);
    take_seed_residual(duel, out);
    let_go(duel, out);
}
