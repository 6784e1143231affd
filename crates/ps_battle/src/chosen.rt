//! Which move a choice uses.
ghost use Rattle.std.specs.Prelude.{◌≡◌, ◌≤◌, ◌<◌, ◌-◌, ℕ};
ghost use Rattle.ps_mon.specs.Facts.{AreFair, figures};
ghost use Rattle.ps_mon.specs.Known.{IsSideKnown};
ghost use Rattle.ps_mon.specs.Valid.{IsSide};
ghost use Rattle.ps_mon.specs.Choices.{IsThere};
ghost use Rattle.ps_mon.specs.Slots.{slot_count_now};
ghost use Rattle.ps_battle.specs.Chosen.{is_act, chosen_slot, chosen_move, locked_move, priority_by, priority_of};

use ps_mon::choice::Choice;
use ps_mon::facts::{Facts, STRUGGLE};
use ps_mon::moves::move_data;
use ps_mon::record::{Lock, SideState};

/// Whether a choice is an act.
pub(crate) fn acts(choice: Choice) -> bool
    ensures { result ≡ is_act choice }
{
    matches!(
        choice,
        Choice::Move(_) | Choice::Struggle | Choice::Continue
    )
}

/// The move in a slot, which counts from 1.
#[tactic(auto, unfolding(crate::specs::Chosen::chosen_slot))]
pub(crate) fn slot_move(side: &SideState, n: u8) -> u16
    requires side { IsSide side.now }
    requires low { 1 ≤ n }
    requires high { n ≤ slot_count_now side.now }
    ensures value { result ≡ chosen_slot side.now n }
    ensures within { n ≤ 4 }
    ensures known { (moves : ℕ) → IsSideKnown moves side.now → result < moves }
{
    let count = side.slot_count();
    prove!(n <= count && count <= 4);
    side.slot(n - 1).mv
}

fn lock_move(lock: Option<Lock>) -> Option<u16>
    ensures { result ≡ locked_move lock }
{
    match lock {
        None => None,
        Some(lock) => Some(lock.mv),
    }
}

#[tactic(auto, unfolding(crate::specs::Chosen::chosen_move))]
fn choice_move(side: &SideState, choice: Choice) -> Option<u16>
    requires side { IsSide side.now }
    requires there { IsThere side.now choice }
    ensures { result ≡ chosen_move side.now choice }
{
    match choice {
        Choice::Move(n) => Some(slot_move(side, n)),
        Choice::Struggle => Some(STRUGGLE),
        Choice::Continue => lock_move(side.vol.lock),
        _ => None,
    }
}

fn move_priority(facts: Facts<'_>, mv: Option<u16>) -> i8
    requires { AreFair (figures facts) }
    ensures { result ≡ priority_by (figures facts.entry) mv }
{
    match mv {
        None => 0,
        Some(mv) => move_data(facts, mv).priority,
    }
}

/// The priority of a choice.
#[tactic(auto, unfolding(crate::specs::Chosen::priority_of))]
pub(crate) fn priority(side: &SideState, facts: Facts<'_>, choice: Choice) -> i8
    requires side { IsSide side.now }
    requires fair { AreFair (figures facts) }
    requires there { IsThere side.now choice }
    ensures { result ≡ priority_of (figures facts.entry) side.now choice }
{
    move_priority(facts, choice_move(side, choice))
}
