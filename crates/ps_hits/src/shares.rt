//! Effects by which the user gains or loses a part of what it dealt.
ghost use Rattle.std.specs.Prelude.{◌≡◌, ◌≤◌, ◌<◌, ◌+◌, ℕ};
ghost use Rattle.arrayvec.specs.ArrayVec.{array_vec_len};
ghost use Rattle.ps_mon.specs.Facts.{AreFair, figures};
ghost use Rattle.ps_mon.specs.Known.{AreKnown};
ghost use Rattle.ps_mon.specs.Moves.{IsNamed, move_of};
ghost use Rattle.ps_mon.specs.Keeping.{Keeps, StillStands};
ghost use Rattle.ps_mon.specs.Valid.{IsSound, IsValid};
ghost use Rattle.ps_mon.specs.Duels.{IsFit, IsDuelKnown};
ghost use Rattle.ps_hits.specs.Scenes.{scene};
ghost use Rattle.ps_hits.specs.Courses.{played, course};
ghost use Rattle.ps_hits.specs.Shares.{gain, lose, drained, drain_row, dreameater_row, recoiled, recoil_row, crashed, crash_row};
ghost use Rattle.ps_hits.specs.Shares.{divisor_of};

use crate::scene::{health, who};
use crate::strike::{Struck, strike_foe_with};
use ps_event::event::{Event, Events};
use ps_event::numbers::{FROM_CRASH, FROM_RECOIL};
use ps_mon::duel::Duel;
use ps_mon::effect::Effect;
use ps_mon::facts::Facts;
use ps_mon::moves::move_data;
use ps_mon::record::Battle;
use ps_mon::status::Status;

/// The user gains up to `n`, 32,767 or less, at most to its greatest health; Heal is told at full health too.
#[tactic(auto, unfolding(crate::specs::Shares::gain))]
pub fn gain_health(duel: &mut Duel, n: u16, out: &mut Events)
    requires fit { IsFit duel.old }
    requires n { n ≤ 32767 }
    requires room { array_vec_len out.old + 1 ≤ 160 }
    ensures after { scene duel.new out.new ≡ (gain n (scene duel.old out.old)).1 }
    ensures fit { IsFit duel.new }
    ensures known { (moves : ℕ) → IsDuelKnown moves duel.old → IsDuelKnown moves duel.new }
    ensures room { array_vec_len out.new ≤ array_vec_len out.old + 1 }
{
    let user = &mut duel.user;
    user.hp = (user.hp + n).min(user.max);
    out.push(Event::Heal {
        who: who(&duel.user),
        health: health(&duel.user),
    });
}

/// The user loses up to `n`, and faints at 0; `from` is the number of the loss's cause in events.
#[tactic(auto, unfolding(crate::specs::Shares::lose))]
pub fn lose_health(duel: &mut Duel, from: u8, n: u16, out: &mut Events)
    requires fit { IsFit duel.old }
    requires room { array_vec_len out.old + 2 ≤ 160 }
    ensures after { scene duel.new out.new ≡ (lose from n (scene duel.old out.old)).1 }
    ensures fit { IsFit duel.new }
    ensures known { (moves : ℕ) → IsDuelKnown moves duel.old → IsDuelKnown moves duel.new }
    ensures room { array_vec_len out.new ≤ array_vec_len out.old + 2 }
{
    duel.user.hp = duel.user.hp.saturating_sub(n);
    let user = duel.user;
    out.push(Event::Damage {
        who: who(&user),
        health: health(&user),
        from,
    });
    if user.hp == 0 {
        out.push(Event::Faint { who: who(&user) });
    }
}

#[tactic(auto, unfolding(crate::specs::Shares::drained))]
fn drink(duel: &mut Duel, struck: Struck, out: &mut Events)
    requires fit { IsFit duel.old }
    requires room { array_vec_len out.old + 1 ≤ 160 }
    ensures after { scene duel.new out.new ≡ (drained struck (scene duel.old out.old)).1 }
    ensures fit { IsFit duel.new }
    ensures known { (moves : ℕ) → IsDuelKnown moves duel.old → IsDuelKnown moves duel.new }
    ensures room { array_vec_len out.new ≤ array_vec_len out.old + 1 }
{
    if let Struck::Hit(dealt) = struck {
        gain_health(duel, (dealt.amount / 2).max(1), out);
    }
}

#[tactic(auto, unfolding(crate::specs::Shares::drain_row))]
fn drain_duel(duel: &mut Duel, facts: Facts<'_>, mv: u16, out: &mut Events)
    requires fit { IsFit duel.old }
    requires fair { AreFair (figures facts) }
    requires room { array_vec_len out.old + 7 ≤ 160 }
    ensures after { scene duel.new out.new ≡ (drain_row (figures facts.entry) mv (scene duel.old out.old)).1 }
    ensures fit { IsFit duel.new }
    ensures known { (moves : ℕ) → IsNamed moves mv → IsDuelKnown moves duel.old → IsDuelKnown moves duel.new }
    ensures room { array_vec_len out.new ≤ array_vec_len out.old + 7 }
{
    let struck = strike_foe_with(duel, facts, mv, false, out);
    drink(duel, struck, out);
}

/// A strike; the user gains half of what it dealt, at least 1.
pub fn drain(battle: &mut Battle, facts: Facts<'_>, user: u8, mv: u16, out: &mut Events)
    requires sound { IsSound battle.old }
    requires fair { AreFair (figures facts) }
    requires user { user < 2 }
    requires room { array_vec_len out.old + 20 ≤ 160 }
    ensures effect { course battle.new out.new ≡ played (drain_row (figures facts.entry) mv) user (course battle.old out.old) }
    ensures sound { IsSound battle.new }
    ensures whole { IsValid battle.old → StillStands battle.old battle.new → IsValid battle.new }
    ensures known { (moves : ℕ) → IsNamed moves mv → AreKnown moves battle.old → AreKnown moves battle.new }
    ensures kept { Keeps user battle.old battle.new }
    ensures room { array_vec_len out.new ≤ array_vec_len out.old + 20 }
{
    let mut duel = battle.duel(user);
    drain_duel(&mut duel, facts, mv, out);
    battle.put(user, &duel);
}

#[tactic(auto, unfolding(crate::specs::Shares::dreameater_row))]
fn dreameater_duel(duel: &mut Duel, facts: Facts<'_>, mv: u16, out: &mut Events)
    requires fit { IsFit duel.old }
    requires fair { AreFair (figures facts) }
    requires room { array_vec_len out.old + 7 ≤ 160 }
    ensures after { scene duel.new out.new ≡ (dreameater_row (figures facts.entry) mv (scene duel.old out.old)).1 }
    ensures fit { IsFit duel.new }
    ensures known { (moves : ℕ) → IsNamed moves mv → IsDuelKnown moves duel.old → IsDuelKnown moves duel.new }
    ensures room { array_vec_len out.new ≤ array_vec_len out.old + 7 }
{
    if duel.foe.status == Status::Slp {
        drain_duel(duel, facts, mv, out);
    } else {
        out.push(Event::Fail {
            who: who(&duel.user),
        });
    }
}

/// The same against a foe that sleeps; against another it fails.
pub fn dreameater(battle: &mut Battle, facts: Facts<'_>, user: u8, mv: u16, out: &mut Events)
    requires sound { IsSound battle.old }
    requires fair { AreFair (figures facts) }
    requires user { user < 2 }
    requires room { array_vec_len out.old + 20 ≤ 160 }
    ensures effect { course battle.new out.new ≡ played (dreameater_row (figures facts.entry) mv) user (course battle.old out.old) }
    ensures sound { IsSound battle.new }
    ensures whole { IsValid battle.old → StillStands battle.old battle.new → IsValid battle.new }
    ensures known { (moves : ℕ) → IsNamed moves mv → AreKnown moves battle.old → AreKnown moves battle.new }
    ensures kept { Keeps user battle.old battle.new }
    ensures room { array_vec_len out.new ≤ array_vec_len out.old + 20 }
{
    let mut duel = battle.duel(user);
    dreameater_duel(&mut duel, facts, mv, out);
    battle.put(user, &duel);
}

fn divisor(effect: Effect) -> u8
    ensures { result ≡ divisor_of effect }
{
    match effect {
        Effect::Recoil { by } => by,
        _ => 1,
    }
}

#[tactic(auto, unfolding(crate::specs::Shares::recoiled))]
fn recoil_from(duel: &mut Duel, by: u8, struck: Struck, out: &mut Events)
    requires fit { IsFit duel.old }
    requires by { 1 ≤ by }
    requires room { array_vec_len out.old + 2 ≤ 160 }
    ensures after { scene duel.new out.new ≡ (recoiled by struck (scene duel.old out.old)).1 }
    ensures fit { IsFit duel.new }
    ensures known { (moves : ℕ) → IsDuelKnown moves duel.old → IsDuelKnown moves duel.new }
    ensures room { array_vec_len out.new ≤ array_vec_len out.old + 2 }
{
    if let Struck::Hit(dealt) = struck {
        lose_health(
            duel,
            FROM_RECOIL,
            (dealt.amount / u16::from(by)).max(1),
            out,
        );
    }
}

#[tactic(auto, unfolding(crate::specs::Shares::recoil_row))]
fn recoil_duel(duel: &mut Duel, by: u8, facts: Facts<'_>, mv: u16, out: &mut Events)
    requires fit { IsFit duel.old }
    requires fair { AreFair (figures facts) }
    requires by { 1 ≤ by }
    requires room { array_vec_len out.old + 8 ≤ 160 }
    ensures after { scene duel.new out.new ≡ (recoil_row by (figures facts.entry) mv (scene duel.old out.old)).1 }
    ensures fit { IsFit duel.new }
    ensures known { (moves : ℕ) → IsNamed moves mv → IsDuelKnown moves duel.old → IsDuelKnown moves duel.new }
    ensures room { array_vec_len out.new ≤ array_vec_len out.old + 8 }
{
    let struck = strike_foe_with(duel, facts, mv, false, out);
    recoil_from(duel, by, struck, out);
}

/// A strike; the user loses what it dealt, divided by the move's number, at least 1. A move of another kind counts as if its number were 1.
pub fn recoil(battle: &mut Battle, facts: Facts<'_>, user: u8, mv: u16, out: &mut Events)
    requires sound { IsSound battle.old }
    requires fair { AreFair (figures facts) }
    requires user { user < 2 }
    requires room { array_vec_len out.old + 20 ≤ 160 }
    ensures effect { course battle.new out.new
        ≡ played (recoil_row (divisor_of (move_of (figures facts.entry) mv).effect) (figures facts.entry) mv) user
        (course battle.old out.old) }
    ensures sound { IsSound battle.new }
    ensures whole { IsValid battle.old → StillStands battle.old battle.new → IsValid battle.new }
    ensures known { (moves : ℕ) → IsNamed moves mv → AreKnown moves battle.old → AreKnown moves battle.new }
    ensures kept { Keeps user battle.old battle.new }
    ensures room { array_vec_len out.new ≤ array_vec_len out.old + 20 }
{
    let mut duel = battle.duel(user);
    let by = divisor(move_data(facts, mv).effect);
    recoil_duel(&mut duel, by, facts, mv, out);
    battle.put(user, &duel);
}

#[tactic(auto, unfolding(crate::specs::Shares::crashed))]
fn crash_after(duel: &mut Duel, struck: Struck, out: &mut Events)
    requires fit { IsFit duel.old }
    requires room { array_vec_len out.old + 2 ≤ 160 }
    ensures after { scene duel.new out.new ≡ (crashed struck (scene duel.old out.old)).1 }
    ensures fit { IsFit duel.new }
    ensures known { (moves : ℕ) → IsDuelKnown moves duel.old → IsDuelKnown moves duel.new }
    ensures room { array_vec_len out.new ≤ array_vec_len out.old + 2 }
{
    match struck {
        Struck::Missed => lose_health(duel, FROM_CRASH, 1, out),
        _ => (),
    }
}

#[tactic(auto, unfolding(crate::specs::Shares::crash_row))]
fn crash_duel(duel: &mut Duel, facts: Facts<'_>, mv: u16, out: &mut Events)
    requires fit { IsFit duel.old }
    requires fair { AreFair (figures facts) }
    requires room { array_vec_len out.old + 8 ≤ 160 }
    ensures after { scene duel.new out.new ≡ (crash_row (figures facts.entry) mv (scene duel.old out.old)).1 }
    ensures fit { IsFit duel.new }
    ensures known { (moves : ℕ) → IsNamed moves mv → IsDuelKnown moves duel.old → IsDuelKnown moves duel.new }
    ensures room { array_vec_len out.new ≤ array_vec_len out.old + 8 }
{
    let struck = strike_foe_with(duel, facts, mv, false, out);
    crash_after(duel, struck, out);
}

/// A strike; where it misses the user loses 1.
pub fn crash(battle: &mut Battle, facts: Facts<'_>, user: u8, mv: u16, out: &mut Events)
    requires sound { IsSound battle.old }
    requires fair { AreFair (figures facts) }
    requires user { user < 2 }
    requires room { array_vec_len out.old + 20 ≤ 160 }
    ensures effect { course battle.new out.new ≡ played (crash_row (figures facts.entry) mv) user (course battle.old out.old) }
    ensures sound { IsSound battle.new }
    ensures whole { IsValid battle.old → StillStands battle.old battle.new → IsValid battle.new }
    ensures known { (moves : ℕ) → IsNamed moves mv → AreKnown moves battle.old → AreKnown moves battle.new }
    ensures kept { Keeps user battle.old battle.new }
    ensures room { array_vec_len out.new ≤ array_vec_len out.old + 20 }
{
    let mut duel = battle.duel(user);
    crash_duel(&mut duel, facts, mv, out);
    battle.put(user, &duel);
}
