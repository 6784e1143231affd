//! Switches, and the begin of a turn.
ghost use Rattle.std.specs.Prelude.{◌≡◌, ◌≤◌, ◌<◌, ◌+◌, ◌-◌, ℕ, true};
ghost use Rattle.arrayvec.specs.ArrayVec.{array_vec_len};
ghost use Rattle.ps_mon.specs.declared.choice.Choice.{Choice};
ghost use Rattle.ps_mon.specs.Keeping.{Keeps};
ghost use Rattle.ps_mon.specs.Known.{AreKnown};
ghost use Rattle.ps_mon.specs.Reading.{side_of, active_of};
ghost use Rattle.ps_mon.specs.Valid.{IsSound, has_standing};
ghost use Rattle.ps_mon.specs.Choices.{IsThere, incoming};
ghost use Rattle.ps_mon.specs.Duels.{IsFit, IsDuelKnown};
ghost use Rattle.ps_hits.specs.Courses.{course};
ghost use Rattle.ps_battle.specs.Switches.{switch_event, sent_in, switched, refreshed, refreshed_duel, begun};

use ps_event::event::{Event, Events};
use ps_hits::scene::{health, who};
use ps_mon::choice::Choice;
use ps_mon::duel::Duel;
use ps_mon::record::Battle;

/// The active member of a side has come in.
#[tactic(auto, unfolding(crate::specs::Switches::switch_event))]
pub(crate) fn coming(battle: &Battle, side: u8) -> Event
    requires sound { IsSound battle.now }
    requires side { side < 2 }
    ensures { result ≡ switch_event side (side_of battle.now side) }
{
    let state = &battle.sides[side as usize];
    let f = state.fighter(side);
    Event::Switch {
        who: who(&f),
        species: state.members[state.order[0] as usize].species,
        level: f.level,
        health: health(&f),
    }
}

/// What a choice changes before the acts: a switch.
#[tactic(auto, unfolding(crate::specs::Switches::switched, crate::specs::Switches::sent_in))]
pub(crate) fn do_switch(battle: &mut Battle, side: u8, choice: Choice, out: &mut Events)
    requires sound { IsSound battle.old }
    requires side { side < 2 }
    requires there { IsThere (side_of battle.old side) choice }
    requires room { array_vec_len out.old + 1 ≤ 160 }
    ensures after { course battle.new out.new ≡ switched side choice (course battle.old out.old) }
    ensures sound { IsSound battle.new }
    ensures known { (moves : ℕ) → AreKnown moves battle.old → AreKnown moves battle.new }
    ensures kept { Keeps side battle.old battle.new }
    ensures there { IsThere (side_of battle.new side) choice }
    ensures some { (s : ℕ) → s < 2 → has_standing (side_of battle.old s) ≡ true → has_standing (side_of battle.new s) ≡ true }
    ensures own { (active_of (side_of battle.new side)).hp ≡ (incoming (side_of battle.old side) choice).hp }
    ensures foe { (c : Choice) → (incoming (side_of battle.new (1 - side)) c).hp ≡ (incoming (side_of battle.old (1 - side)) c).hp }
    ensures room { array_vec_len out.new ≤ array_vec_len out.old + 1 }
{
    match choice {
        Choice::Switch(position) => {
            battle.switch(side, position);
            out.push(coming(battle, side));
        }
        _ => (),
    }
}

/// The begin of a turn: flinching and the damage taken are of one turn.
#[tactic(auto, unfolding(crate::specs::Switches::begun))]
pub(crate) fn begin(battle: &mut Battle)
    requires { IsSound battle.old }
    ensures value { battle.new ≡ begun battle.old }
    ensures sound { IsSound battle.new }
    ensures known { (moves : ℕ) → AreKnown moves battle.old → AreKnown moves battle.new }
    ensures kept { (s : ℕ) → s < 2 → Keeps s battle.old battle.new }
{
    let mut duel = battle.duel(0);
    refresh(&mut duel);
    battle.put(0, &duel);
}

fn refresh(duel: &mut Duel)
    requires { IsFit duel.old }
    ensures value { duel.new ≡ refreshed_duel duel.old }
    ensures fit { IsFit duel.new }
    ensures known { (moves : ℕ) → IsDuelKnown moves duel.old → IsDuelKnown moves duel.new }
{
    duel.user.vol.flinch = false;
    duel.user.vol.taken = None;
    duel.foe.vol.flinch = false;
    duel.foe.vol.taken = None;
}
