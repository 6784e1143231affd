//! A commit of both sides' choices.
ghost use Rattle.std.specs.Prelude.{◌≡◌, ◌≤◌, ◌<◌, ◌+◌, ◌-◌, ℕ, [], false, true};
ghost use Rattle.arrayvec.specs.ArrayVec.{array_vec_len};
ghost use Rattle.ps_mon.specs.Facts.{AreFair, figures};
ghost use Rattle.ps_mon.specs.Known.{AreKnown, AreFairFor};
ghost use Rattle.ps_mon.specs.Moves.{move_count};
ghost use Rattle.ps_mon.specs.Reading.{side_of, active_of};
ghost use Rattle.ps_mon.specs.Valid.{AllStand, IsSound, IsValid, has_standing, is_over};
ghost use Rattle.ps_mon.specs.Choices.{IsThere, IsChoiceOf, incoming};
ghost use Rattle.ps_mon.specs.Duels.{IsFit};
ghost use Rattle.ps_hits.specs.Courses.{course};
ghost use Rattle.ps_battle.specs.Turns.{faster, first_of, acted, both_switched, placed, sent_out, turn};
ghost use Rattle.ps_battle.specs.Switches.{begun};
ghost use Rattle.ps_battle.specs.Closings.{closed, next_turn};

use crate::acts::do_two_acts;
use crate::chosen::{acts, priority};
use crate::closings::{close, go_on};
use crate::openings::start;
use crate::switches::{begin, do_switch};
use ps_calc::Rng5;
use ps_event::event::Events;
use ps_hits::fighters::speed;
use ps_mon::choice::Choice;
use ps_mon::duel::Duel;
use ps_mon::facts::Facts;
use ps_mon::record::{Battle, Phase};

#[tactic(auto, unfolding(crate::specs::Turns::faster))]
fn is_faster(duel: &Duel, source: &mut Rng5) -> bool
    requires { IsFit duel.now }
    ensures value { result ≡ (faster duel.now source.old.x).0 }
    ensures after { source.new.x ≡ (faster duel.now source.old.x).1 }
{
    let own = speed(&duel.user);
    let other = speed(&duel.foe);
    if own > other {
        return true;
    }
    if other > own {
        return false;
    }
    source.draw(2) == 0
}

#[tactic(auto, unfolding(crate::specs::Turns::first_of, crate::specs::Turns::ordered))]
fn is_p1_first(battle: &mut Battle, facts: Facts<'_>, c1: Choice, c2: Choice) -> bool
    requires sound { IsSound battle.old }
    requires fair { AreFair (figures facts) }
    requires first { IsThere (side_of battle.old 0) c1 }
    requires second { IsThere (side_of battle.old 1) c2 }
    ensures first { result ≡ (first_of (figures facts.entry) c1 c2 battle.old).0 }
    ensures after { battle.new ≡ record battle.old { rng = (first_of (figures facts.entry) c1 c2 battle.old).1 } }
{
    if !acts(c1) {
        return true;
    }
    if !acts(c2) {
        return true;
    }
    let p = priority(&battle.sides[0], facts, c1);
    let q = priority(&battle.sides[1], facts, c2);
    if p > q {
        return true;
    }
    if q > p {
        return false;
    }
    let duel = battle.duel(0);
    let mut source = Rng5 { x: battle.rng };
    let first = is_faster(&duel, &mut source);
    battle.rng = source.x;
    first
}

#[tactic(auto, unfolding(crate::specs::Turns::acted))]
fn act_both(battle: &mut Battle, facts: Facts<'_>, c1: Choice, c2: Choice, out: &mut Events)
    requires sound { IsSound battle.old }
    requires fair { AreFair (figures facts) }
    requires known { AreKnown (move_count (figures facts)) battle.old }
    requires first { IsThere (side_of battle.old 0) c1 }
    requires second { IsThere (side_of battle.old 1) c2 }
    requires room { array_vec_len out.old + 78 ≤ 160 }
    ensures after { course battle.new out.new ≡ acted (figures facts.entry) c1 c2 (course battle.old out.old) }
    ensures sound { IsSound battle.new }
    ensures known { AreKnown (move_count (figures facts.entry)) battle.new }
    ensures turn { battle.new.turn ≡ battle.old.turn }
    ensures room { array_vec_len out.new ≤ array_vec_len out.old + 78 }
{
    if is_p1_first(battle, facts, c1, c2) {
        do_two_acts(battle, facts, 0, c1, c2, out);
    } else {
        do_two_acts(battle, facts, 1, c2, c1, out);
    }
}

#[tactic(auto, unfolding(crate::specs::Turns::both_switched))]
fn switch_both(battle: &mut Battle, c1: Choice, c2: Choice, out: &mut Events)
    requires sound { IsSound battle.old }
    requires first { IsThere (side_of battle.old 0) c1 }
    requires second { IsThere (side_of battle.old 1) c2 }
    requires room { array_vec_len out.old + 2 ≤ 160 }
    ensures after { course battle.new out.new ≡ both_switched c1 c2 (course battle.old out.old) }
    ensures sound { IsSound battle.new }
    ensures known { (moves : ℕ) → AreKnown moves battle.old → AreKnown moves battle.new }
    ensures turn { battle.new.turn ≡ battle.old.turn }
    ensures there_first { IsThere (side_of battle.new 0) c1 }
    ensures there_second { IsThere (side_of battle.new 1) c2 }
    ensures some { (s : ℕ) → s < 2 → has_standing (side_of battle.old s) ≡ true → has_standing (side_of battle.new s) ≡ true }
    ensures active_first { (active_of (side_of battle.new 0)).hp ≡ (incoming (side_of battle.old 0) c1).hp }
    ensures active_second { (active_of (side_of battle.new 1)).hp ≡ (incoming (side_of battle.old 1) c2).hp }
    ensures room { array_vec_len out.new ≤ array_vec_len out.old + 2 }
{
    do_switch(battle, 0, c1, out);
    do_switch(battle, 1, c2, out);
}

fn take_turn(battle: &mut Battle, facts: Facts<'_>, c1: Choice, c2: Choice, out: &mut Events)
    requires sound { IsSound battle.old }
    requires turn { battle.old.turn < 1000 }
    requires fair { AreFair (figures facts) }
    requires known { AreKnown (move_count (figures facts)) battle.old }
    requires first { IsThere (side_of battle.old 0) c1 }
    requires second { IsThere (side_of battle.old 1) c2 }
    requires empty { out.old.items ≡ [] }
    ensures after { course battle.new out.new
        ≡ closed (acted (figures facts.entry) c1 c2 (both_switched c1 c2 (course (begun battle.old) out.old))) }
    ensures valid { IsValid battle.new }
    ensures known { AreKnown (move_count (figures facts.entry)) battle.new }
    ensures room { array_vec_len out.new ≤ 84 }
{
    begin(battle);
    switch_both(battle, c1, c2, out);
    act_both(battle, facts, c1, c2, out);
    close(battle, out);
}

fn replace(battle: &mut Battle, c1: Choice, c2: Choice, out: &mut Events)
    requires sound { IsSound battle.old }
    requires turn { battle.old.turn < 1000 }
    requires first { IsThere (side_of battle.old 0) c1 }
    requires second { IsThere (side_of battle.old 1) c2 }
    requires some { (s : ℕ) → s < 2 → has_standing (side_of battle.old s) ≡ true }
    requires active_first { 1 ≤ (incoming (side_of battle.old 0) c1).hp }
    requires active_second { 1 ≤ (incoming (side_of battle.old 1) c2).hp }
    requires empty { out.old.items ≡ [] }
    ensures after { course battle.new out.new ≡ next_turn (both_switched c1 c2 (course battle.old out.old)) }
    ensures valid { IsValid battle.new }
    ensures known { (moves : ℕ) → AreKnown moves battle.old → AreKnown moves battle.new }
    ensures room { array_vec_len out.new ≤ 6 }
{
    switch_both(battle, c1, c2, out);
    go_on(battle, out);
}

/// Puts a team into the order that its side chose.
#[tactic(auto, unfolding(crate::specs::Turns::placed))]
fn place(battle: &mut Battle, side: u8, choice: Choice)
    requires sound { IsSound battle.old }
    requires side { side < 2 }
    requires there { IsThere (side_of battle.old side) choice }
    ensures value { battle.new ≡ placed side choice battle.old }
    ensures sound { IsSound battle.new }
    ensures known { (moves : ℕ) → AreKnown moves battle.old → AreKnown moves battle.new }
    ensures turn { battle.new.turn ≡ battle.old.turn }
    ensures some { (s : ℕ) → s < 2 → has_standing (side_of battle.old s) ≡ true → has_standing (side_of battle.new s) ≡ true }
    ensures stand { (s : ℕ) → s < 2 → AllStand (side_of battle.old s) → AllStand (side_of battle.new s) }
    ensures foe { side_of battle.new (1 - side) ≡ side_of battle.old (1 - side) }
{
    match choice {
        Choice::Team(numbers) => battle.set_order(side, numbers),
        _ => (),
    }
}

#[tactic(auto, unfolding(crate::specs::Turns::sent_out))]
fn send_out(battle: &mut Battle, c1: Choice, c2: Choice, out: &mut Events)
    requires sound { IsSound battle.old }
    requires turn { battle.old.turn < 1000 }
    requires first { IsThere (side_of battle.old 0) c1 }
    requires second { IsThere (side_of battle.old 1) c2 }
    requires some { (s : ℕ) → s < 2 → has_standing (side_of battle.old s) ≡ true }
    requires stand { (s : ℕ) → s < 2 → AllStand (side_of battle.old s) }
    requires empty { out.old.items ≡ [] }
    ensures after { course battle.new out.new ≡ sent_out c1 c2 (course battle.old out.old) }
    ensures valid { IsValid battle.new }
    ensures known { (moves : ℕ) → AreKnown moves battle.old → AreKnown moves battle.new }
    ensures room { array_vec_len out.new ≤ 6 }
{
    place(battle, 0, c1);
    place(battle, 1, c2);
    start(battle, out);
    battle.phase = Phase::Turn;
}

/// Commits the choices of both sides, P1's and P2's: the orders of both teams, a turn, or replacements. It adds at most 84
/// events.
///
/// The battle is valid and isn't over, the facts are fair for it, the choice of a side that is asked is legal, and the other
/// side's is Pass.
#[tactic(auto, unfolding(crate::specs::Turns::turn_in))]
pub fn commit(battle: &mut Battle, facts: Facts<'_>, c1: Choice, c2: Choice, out: &mut Events)
    requires valid { IsValid battle.old }
    requires going { is_over battle.old.phase ≡ false }
    requires fair { AreFairFor (figures facts) battle.old }
    requires first { IsChoiceOf battle.old 0 c1 }
    requires second { IsChoiceOf battle.old 1 c2 }
    requires empty { out.old.items ≡ [] }
    ensures turn { course battle.new out.new ≡ turn (figures facts.entry) c1 c2 (course battle.old out.old) }
    ensures valid { IsValid battle.new }
    ensures fair { AreFairFor (figures facts.entry) battle.new }
    ensures room { array_vec_len out.new ≤ 84 }
{
    match battle.phase {
        Phase::Preview => send_out(battle, c1, c2, out),
        Phase::Turn => take_turn(battle, facts, c1, c2, out),
        Phase::Replace { .. } => replace(battle, c1, c2, out),
        _ => unreachable!(),
    }
}
