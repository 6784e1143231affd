//! Effects that deal a stated amount.
ghost use Rattle.std.specs.Prelude.{◌≡◌, ◌≤◌, ◌<◌, ◌+◌, ℕ, slice_index};
ghost use Rattle.arrayvec.specs.ArrayVec.{array_vec_len};
ghost use Rattle.ps_mon.specs.Facts.{AreFair, figures};
ghost use Rattle.ps_mon.specs.Known.{AreKnown};
ghost use Rattle.ps_mon.specs.Moves.{IsNamed, move_of};
ghost use Rattle.ps_mon.specs.Keeping.{Keeps, StillStands};
ghost use Rattle.ps_mon.specs.Valid.{IsSound, IsValid};
ghost use Rattle.ps_mon.specs.Duels.{IsFit, IsDuelKnown};
ghost use Rattle.ps_hits.specs.Scenes.{scene};
ghost use Rattle.ps_hits.specs.Courses.{played, course};
ghost use Rattle.ps_hits.specs.Amounts.{fixed_row, level_row, half_row, psywave_row, ohko_row, amount_of};

use crate::fighters::{speed, types};
use crate::scene::{draw, who};
use crate::strike::{deal_out, lands};
use ps_event::event::{Event, Events};
use ps_mon::duel::Duel;
use ps_mon::effect::Effect;
use ps_mon::facts::Facts;
use ps_mon::moves::{factors, move_data};
use ps_mon::record::Battle;

fn amount(effect: Effect) -> u16
    ensures { result ≡ amount_of effect }
{
    match effect {
        Effect::Fixed { amount } => amount,
        _ => 0,
    }
}

#[tactic(auto, unfolding(crate::specs::Amounts::fixed_row))]
fn fixed_duel(duel: &mut Duel, amount: u16, facts: Facts<'_>, mv: u16, out: &mut Events)
    requires fit { IsFit duel.old }
    requires fair { AreFair (figures facts) }
    requires room { array_vec_len out.old + 4 ≤ 160 }
    ensures after { scene duel.new out.new ≡ (fixed_row amount (figures facts.entry) mv (scene duel.old out.old)).1 }
    ensures fit { IsFit duel.new }
    ensures known { (moves : ℕ) → IsNamed moves mv → IsDuelKnown moves duel.old → IsDuelKnown moves duel.new }
    ensures room { array_vec_len out.new ≤ array_vec_len out.old + 4 }
{
    if !lands(duel, move_data(facts, mv).accuracy, out) {
        return;
    }
    let _ = deal_out(duel, mv, amount, out);
}

/// Takes the amount of the move, whatever the types; 0 for a move of another kind.
pub fn fixed(battle: &mut Battle, facts: Facts<'_>, user: u8, mv: u16, out: &mut Events)
    requires sound { IsSound battle.old }
    requires fair { AreFair (figures facts) }
    requires user { user < 2 }
    requires room { array_vec_len out.old + 20 ≤ 160 }
    ensures effect { course battle.new out.new
        ≡ played (fixed_row (amount_of (move_of (figures facts.entry) mv).effect) (figures facts.entry) mv) user
        (course battle.old out.old) }
    ensures sound { IsSound battle.new }
    ensures whole { IsValid battle.old → StillStands battle.old battle.new → IsValid battle.new }
    ensures known { (moves : ℕ) → IsNamed moves mv → AreKnown moves battle.old → AreKnown moves battle.new }
    ensures kept { Keeps user battle.old battle.new }
    ensures room { array_vec_len out.new ≤ array_vec_len out.old + 20 }
{
    let mut duel = battle.duel(user);
    let amount = amount(move_data(facts, mv).effect);
    fixed_duel(&mut duel, amount, facts, mv, out);
    battle.put(user, &duel);
}

#[tactic(auto, unfolding(crate::specs::Amounts::level_row))]
fn level_duel(duel: &mut Duel, facts: Facts<'_>, mv: u16, out: &mut Events)
    requires fit { IsFit duel.old }
    requires fair { AreFair (figures facts) }
    requires room { array_vec_len out.old + 4 ≤ 160 }
    ensures after { scene duel.new out.new ≡ (level_row (figures facts.entry) mv (scene duel.old out.old)).1 }
    ensures fit { IsFit duel.new }
    ensures known { (moves : ℕ) → IsNamed moves mv → IsDuelKnown moves duel.old → IsDuelKnown moves duel.new }
    ensures room { array_vec_len out.new ≤ array_vec_len out.old + 4 }
{
    if !lands(duel, move_data(facts, mv).accuracy, out) {
        return;
    }
    let n = u16::from(duel.user.level);
    let _ = deal_out(duel, mv, n, out);
}

/// Takes as much health as the user's level.
pub fn level(battle: &mut Battle, facts: Facts<'_>, user: u8, mv: u16, out: &mut Events)
    requires sound { IsSound battle.old }
    requires fair { AreFair (figures facts) }
    requires user { user < 2 }
    requires room { array_vec_len out.old + 20 ≤ 160 }
    ensures effect { course battle.new out.new ≡ played (level_row (figures facts.entry) mv) user (course battle.old out.old) }
    ensures sound { IsSound battle.new }
    ensures whole { IsValid battle.old → StillStands battle.old battle.new → IsValid battle.new }
    ensures known { (moves : ℕ) → IsNamed moves mv → AreKnown moves battle.old → AreKnown moves battle.new }
    ensures kept { Keeps user battle.old battle.new }
    ensures room { array_vec_len out.new ≤ array_vec_len out.old + 20 }
{
    let mut duel = battle.duel(user);
    level_duel(&mut duel, facts, mv, out);
    battle.put(user, &duel);
}

#[tactic(auto, unfolding(crate::specs::Amounts::half_row))]
fn half_duel(duel: &mut Duel, facts: Facts<'_>, mv: u16, out: &mut Events)
    requires fit { IsFit duel.old }
    requires fair { AreFair (figures facts) }
    requires room { array_vec_len out.old + 4 ≤ 160 }
    ensures after { scene duel.new out.new ≡ (half_row (figures facts.entry) mv (scene duel.old out.old)).1 }
    ensures fit { IsFit duel.new }
    ensures known { (moves : ℕ) → IsNamed moves mv → IsDuelKnown moves duel.old → IsDuelKnown moves duel.new }
    ensures room { array_vec_len out.new ≤ array_vec_len out.old + 4 }
{
    if !lands(duel, move_data(facts, mv).accuracy, out) {
        return;
    }
    let n = (duel.foe.hp / 2).max(1);
    let _ = deal_out(duel, mv, n, out);
}

/// Takes half of the foe's health, at least 1.
pub fn half(battle: &mut Battle, facts: Facts<'_>, user: u8, mv: u16, out: &mut Events)
    requires sound { IsSound battle.old }
    requires fair { AreFair (figures facts) }
    requires user { user < 2 }
    requires room { array_vec_len out.old + 20 ≤ 160 }
    ensures effect { course battle.new out.new ≡ played (half_row (figures facts.entry) mv) user (course battle.old out.old) }
    ensures sound { IsSound battle.new }
    ensures whole { IsValid battle.old → StillStands battle.old battle.new → IsValid battle.new }
    ensures known { (moves : ℕ) → IsNamed moves mv → AreKnown moves battle.old → AreKnown moves battle.new }
    ensures kept { Keeps user battle.old battle.new }
    ensures room { array_vec_len out.new ≤ array_vec_len out.old + 20 }
{
    let mut duel = battle.duel(user);
    half_duel(&mut duel, facts, mv, out);
    battle.put(user, &duel);
}

#[tactic(auto, unfolding(crate::specs::Amounts::psywave_row))]
fn psywave_duel(duel: &mut Duel, facts: Facts<'_>, mv: u16, out: &mut Events)
    requires fit { IsFit duel.old }
    requires fair { AreFair (figures facts) }
    requires room { array_vec_len out.old + 4 ≤ 160 }
    ensures after { scene duel.new out.new ≡ (psywave_row (figures facts.entry) mv (scene duel.old out.old)).1 }
    ensures fit { IsFit duel.new }
    ensures known { (moves : ℕ) → IsNamed moves mv → IsDuelKnown moves duel.old → IsDuelKnown moves duel.new }
    ensures room { array_vec_len out.new ≤ array_vec_len out.old + 4 }
{
    if !lands(duel, move_data(facts, mv).accuracy, out) {
        return;
    }
    let most = 3 * u32::from(duel.user.level) / 2;
    let n = 1 + draw(duel, most) as u16;
    let _ = deal_out(duel, mv, n, out);
}

/// Takes 1 to one and a half times the user's level.
pub fn psywave(battle: &mut Battle, facts: Facts<'_>, user: u8, mv: u16, out: &mut Events)
    requires sound { IsSound battle.old }
    requires fair { AreFair (figures facts) }
    requires user { user < 2 }
    requires room { array_vec_len out.old + 20 ≤ 160 }
    ensures effect { course battle.new out.new ≡ played (psywave_row (figures facts.entry) mv) user (course battle.old out.old) }
    ensures sound { IsSound battle.new }
    ensures whole { IsValid battle.old → StillStands battle.old battle.new → IsValid battle.new }
    ensures known { (moves : ℕ) → IsNamed moves mv → AreKnown moves battle.old → AreKnown moves battle.new }
    ensures kept { Keeps user battle.old battle.new }
    ensures room { array_vec_len out.new ≤ array_vec_len out.old + 20 }
{
    let mut duel = battle.duel(user);
    psywave_duel(&mut duel, facts, mv, out);
    battle.put(user, &duel);
}

#[tactic(auto, unfolding(crate::specs::Amounts::ohko_row))]
fn ohko_duel(duel: &mut Duel, facts: Facts<'_>, mv: u16, out: &mut Events)
    requires fit { IsFit duel.old }
    requires fair { AreFair (figures facts) }
    requires room { array_vec_len out.old + 4 ≤ 160 }
    ensures after { scene duel.new out.new ≡ (ohko_row (figures facts.entry) mv (scene duel.old out.old)).1 }
    ensures fit { IsFit duel.new }
    ensures known { (moves : ℕ) → IsNamed moves mv → IsDuelKnown moves duel.old → IsDuelKnown moves duel.new }
    ensures room { array_vec_len out.new ≤ array_vec_len out.old + 4 }
{
    let factors = factors(facts, mv, types(&duel.foe));
    if factors[0] == 0 || factors[1] == 0 {
        out.push(Event::Immune {
            who: who(&duel.foe),
        });
        return;
    }
    if speed(&duel.user) < speed(&duel.foe) {
        out.push(Event::Fail {
            who: who(&duel.user),
        });
        return;
    }
    let all = duel.foe.hp;
    if !lands(duel, move_data(facts, mv).accuracy, out) {
        return;
    }
    let _ = deal_out(duel, mv, all, out);
}

/// Takes all of the foe's health, unless a type of it is immune or the user is slower.
pub fn ohko(battle: &mut Battle, facts: Facts<'_>, user: u8, mv: u16, out: &mut Events)
    requires sound { IsSound battle.old }
    requires fair { AreFair (figures facts) }
    requires user { user < 2 }
    requires room { array_vec_len out.old + 20 ≤ 160 }
    ensures effect { course battle.new out.new ≡ played (ohko_row (figures facts.entry) mv) user (course battle.old out.old) }
    ensures sound { IsSound battle.new }
    ensures whole { IsValid battle.old → StillStands battle.old battle.new → IsValid battle.new }
    ensures known { (moves : ℕ) → IsNamed moves mv → AreKnown moves battle.old → AreKnown moves battle.new }
    ensures kept { Keeps user battle.old battle.new }
    ensures room { array_vec_len out.new ≤ array_vec_len out.old + 20 }
{
    let mut duel = battle.duel(user);
    ohko_duel(&mut duel, facts, mv, out);
    battle.put(user, &duel);
}
