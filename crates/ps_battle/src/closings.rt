//! What follows the acts.
ghost use Rattle.std.specs.Prelude.{◌≡◌, ◌≤◌, ◌<◌, ◌+◌, ◌++◌, ℕ, true};
ghost use Rattle.arrayvec.specs.ArrayVec.{array_vec_len};
ghost use Rattle.ps_mon.specs.Known.{AreKnown};
ghost use Rattle.ps_mon.specs.Reading.{side_of, active_of};
ghost use Rattle.ps_mon.specs.Valid.{IsSide, IsSound, IsValid, has_standing};
ghost use Rattle.ps_hits.specs.Courses.{course};
ghost use Rattle.ps_battle.specs.Closings.{closed, next_turn, asks, enter};

use crate::acts::has_fallen;
use ps_event::event::{Event, Events};
use ps_event::side::Side;
use ps_mon::record::{Battle, Phase, SideState};

#[tactic(auto, unfolding(ps_mon::specs::Valid::has_standing))]
fn stands(side: &SideState) -> bool
    requires { IsSide side.now }
    ensures { result ≡ has_standing side.now }
{
    side.members[..side.count as usize].iter().any(|m| m.hp > 0)
}

/// A request for each side.
pub(crate) fn ask(out: &mut Events)
    requires { array_vec_len out.old + 2 ≤ 160 }
    ensures told { out.new.items ≡ out.old.items ++ asks }
    ensures room { array_vec_len out.new ≡ array_vec_len out.old + 2 }
{
    out.push(Event::Request { side: Side::P1 });
    out.push(Event::Request { side: Side::P2 });
}

/// The next turn; at 1,000 the battle is tied.
#[tactic(auto, unfolding(crate::specs::Closings::next_turn, crate::specs::Closings::enter))]
pub(crate) fn go_on(battle: &mut Battle, out: &mut Events)
    requires sound { IsSound battle.old }
    requires turn { battle.old.turn < 1000 }
    requires some { (s : ℕ) → s < 2 → has_standing (side_of battle.old s) ≡ true }
    requires active { (s : ℕ) → s < 2 → 1 ≤ (active_of (side_of battle.old s)).hp }
    requires room { array_vec_len out.old + 4 ≤ 160 }
    ensures after { course battle.new out.new ≡ next_turn (course battle.old out.old) }
    ensures valid { IsValid battle.new }
    ensures known { (moves : ℕ) → AreKnown moves battle.old → AreKnown moves battle.new }
    ensures room { array_vec_len out.new ≤ array_vec_len out.old + 4 }
{
    battle.turn += 1;
    out.push(Event::Upkeep);
    if battle.turn == 1000 {
        battle.phase = Phase::Tied;
        out.push(Event::Tie);
        return;
    }
    battle.phase = Phase::Turn;
    out.push(Event::Turn { turn: battle.turn });
    ask(out);
}

/// What follows the acts: an end, replacements, or the next turn.
#[tactic(auto, unfolding(crate::specs::Closings::closed, crate::specs::Closings::enter))]
pub(crate) fn close(battle: &mut Battle, out: &mut Events)
    requires sound { IsSound battle.old }
    requires turn { battle.old.turn < 1000 }
    requires room { array_vec_len out.old + 4 ≤ 160 }
    ensures after { course battle.new out.new ≡ closed (course battle.old out.old) }
    ensures valid { IsValid battle.new }
    ensures known { (moves : ℕ) → AreKnown moves battle.old → AreKnown moves battle.new }
    ensures room { array_vec_len out.new ≤ array_vec_len out.old + 4 }
{
    let one = stands(&battle.sides[0]);
    let two = stands(&battle.sides[1]);
    if !one {
        if two {
            battle.phase = Phase::Won(1);
            out.push(Event::Win { side: Side::P2 });
            return;
        }
        battle.phase = Phase::Tied;
        out.push(Event::Tie);
        return;
    }
    if !two {
        battle.phase = Phase::Won(0);
        out.push(Event::Win { side: Side::P1 });
        return;
    }
    let p1 = has_fallen(battle, 0);
    let p2 = has_fallen(battle, 1);
    if p1 || p2 {
        battle.phase = Phase::Replace { p1, p2 };
        ask(out);
        return;
    }
    go_on(battle, out);
}
