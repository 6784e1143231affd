//! Which choices are legal.
ghost use Rattle.std.specs.Prelude.{◌≡◌, ◌<◌, Some, None, false, OnOk, IfErr};
ghost use Rattle.ps_mon.specs.Valid.{IsSound, IsSide, replaces};
ghost use Rattle.ps_mon.specs.Slots.{is_ready, is_usable, has_usable, is_disabled};
ghost use Rattle.ps_mon.specs.Choices.{is_asked, is_locked, wrong_for_order, wrong_for_switch, wrong_for_act, wrong_phase, locked};
ghost use Rattle.ps_mon.specs.Choices.{no_such_move, no_pp, disabled, no_such_member, already_out, fainted, fault_of};
ghost use Rattle.ps_mon.specs.Choices.{legal as fault_in};

use crate::ordering::is_order;
use ps_mon::choice::{Choice, ChoiceFault};
use ps_mon::record::{Battle, Disabled, Phase, SideState};

/// Whether a side, 0 or 1, must send in another member.
pub(crate) fn replaces(phase: Phase, side: u8) -> bool
    requires { side < 2 }
    ensures { result ≡ replaces phase side }
{
    match phase {
        Phase::Replace { p1, p2 } => { if side == 0 { p1 } else { p2 } }
        _ => false,
    }
}

/// Whether a side, 0 or 1, is asked. Takes no memory.
pub fn is_asked(phase: Phase, side: u8) -> bool
    requires { side < 2 }
    ensures { result ≡ is_asked phase side }
{
    match phase {
        Phase::Preview | Phase::Turn => true,
        _ => replaces(phase, side),
    }
}

fn wrong_for_order(phase: Phase) -> bool
    ensures { result ≡ wrong_for_order phase }
{
    !matches!(phase, Phase::Preview)
}

fn wrong_for_switch(phase: Phase) -> bool
    ensures { result ≡ wrong_for_switch phase }
{
    matches!(phase, Phase::Preview)
}

/// Whether neither a move nor Struggle can be chosen, nor to go on.
pub(crate) fn wrong_for_act(phase: Phase) -> bool
    ensures { result ≡ wrong_for_act phase }
{
    matches!(phase, Phase::Preview | Phase::Replace { .. })
}

fn wrong_phase(phase: Phase, choice: Choice) -> bool
    ensures { result ≡ wrong_phase phase choice }
{
    match choice {
        Choice::Pass => true,
        Choice::Team(_) => wrong_for_order(phase),
        Choice::Switch(_) => wrong_for_switch(phase),
        _ => wrong_for_act(phase),
    }
}

/// Whether a member must go on with a long move, or recharge.
pub(crate) fn is_locked(side: &SideState) -> bool
    ensures { result ≡ is_locked side.now }
{
    side.vol.lock.is_some() || side.vol.recharge
}

fn locked(phase: Phase, side: &SideState, choice: Choice) -> bool
    ensures { result ≡ locked phase side.now choice }
{
    match phase {
        Phase::Preview | Phase::Replace { .. } => false,
        _ => match choice {
            Choice::Continue => !is_locked(side),
            _ => is_locked(side),
        },
    }
}

fn disables(disabled: Option<Disabled>, slot: u8) -> bool
    ensures { result ≡ is_disabled disabled slot }
{
    match disabled {
        None => false,
        Some(disabled) => disabled.slot == slot,
    }
}

/// Whether a slot of the active member, from 0, can't be chosen though it may have PP.
pub(crate) fn is_disabled(side: &SideState, slot: u8) -> bool
    ensures { result ≡ is_disabled side.now.vol.disabled slot }
{
    disables(side.vol.disabled, slot)
}

/// Whether a slot of the active member, from 0, can be chosen.
#[tactic(auto, unfolding(ps_mon::specs::Slots::is_usable))]
pub(crate) fn is_usable(side: &SideState, slot: u8) -> bool
    requires side { IsSide side.now }
    requires slot { slot < 4 }
    ensures { result ≡ is_usable side.now slot }
{
    side.is_ready(slot) && !is_disabled(side, slot)
}

/// Whether some slot can be chosen.
#[tactic(auto, unfolding(ps_mon::specs::Slots::has_usable))]
pub(crate) fn has_usable(side: &SideState) -> bool
    requires { IsSide side.now }
    ensures { result ≡ has_usable side.now }
{
    is_usable(side, 0) || is_usable(side, 1) || is_usable(side, 2) || is_usable(side, 3)
}

fn no_such_move(side: &SideState, choice: Choice) -> bool
    requires { IsSide side.now }
    ensures { result ≡ no_such_move side.now choice }
{
    match choice {
        Choice::Move(n) => n == 0 || n > side.slot_count(),
        Choice::Struggle => has_usable(side),
        _ => false,
    }
}

fn no_pp(side: &SideState, choice: Choice) -> bool
    requires side { IsSide side.now }
    requires there { no_such_move side.now choice ≡ false }
    ensures { result ≡ no_pp side.now choice }
{
    match choice {
        Choice::Move(n) => {
            let count = side.slot_count();
            prove!(n > 0 && n <= count && count <= 4);
            side.slot(n - 1).pp == 0
        }
        _ => false,
    }
}

fn disabled(side: &SideState, choice: Choice) -> bool
    requires there { no_such_move side.now choice ≡ false }
    ensures { result ≡ disabled side.now choice }
{
    match choice {
        Choice::Move(n) => is_disabled(side, n - 1),
        _ => false,
    }
}

fn no_such_member(side: &SideState, choice: Choice) -> bool
    ensures { result ≡ no_such_member side.now choice }
{
    match choice {
        Choice::Switch(position) => position == 0 || position > side.count,
        Choice::Team(numbers) => !is_order(side.count, numbers),
        _ => false,
    }
}

fn already_out(choice: Choice) -> bool
    ensures { result ≡ already_out choice }
{
    matches!(choice, Choice::Switch(1))
}

fn fainted(side: &SideState, choice: Choice) -> bool
    requires side { IsSide side.now }
    requires there { no_such_member side.now choice ≡ false }
    ensures { result ≡ fainted side.now choice }
{
    match choice {
        Choice::Switch(position) => {
            let index = side.order[position as usize - 1];
            side.members[index as usize].hp == 0
        }
        _ => false,
    }
}

/// The first fault of a choice.
#[tactic(auto, unfolding(ps_mon::specs::Choices::fault_of))]
fn fault(phase: Phase, number: u8, side: &SideState, choice: Choice) -> Option<ChoiceFault>
    requires number { number < 2 }
    requires side { IsSide side.now }
    ensures { result ≡ fault_of phase number side.now choice }
{
    if !is_asked(phase, number) {
        return Some(ChoiceFault::NotYourTurn);
    }
    if wrong_phase(phase, choice) {
        return Some(ChoiceFault::WrongPhase);
    }
    if locked(phase, side, choice) {
        return Some(ChoiceFault::Locked);
    }
    if no_such_move(side, choice) {
        return Some(ChoiceFault::NoSuchMove);
    }
    if no_pp(side, choice) {
        return Some(ChoiceFault::NoPp);
    }
    if disabled(side, choice) {
        return Some(ChoiceFault::Disabled);
    }
    if no_such_member(side, choice) {
        return Some(ChoiceFault::NoSuchMember);
    }
    if already_out(choice) {
        return Some(ChoiceFault::AlreadyOut);
    }
    if fainted(side, choice) {
        return Some(ChoiceFault::Fainted);
    }
    None
}

/// Whether a side, 0 or 1, may choose so, or the first fault in the order of `ChoiceFault`: `NotYourTurn` where the side
/// isn't asked; `WrongPhase` for Pass, for what isn't a switch where a member must come in, and for an order elsewhere than
/// in Team Preview or anything else there; `Locked` in a turn where the member must go on and doesn't, or goes on and nothing
/// holds it; `NoSuchMove` for a slot that isn't there, and for Struggle while a slot is usable; `NoPp`; `Disabled`;
/// `NoSuchMember` for a position that is 0 or above the count, and for what is no order of all members; `AlreadyOut` for
/// position 1; `Fainted`. Takes no memory.
pub fn legal(battle: &Battle, side: u8, choice: Choice) -> Result<(), ChoiceFault>
    requires sound { IsSound battle.now }
    requires side { side < 2 }
    ensures legal { OnOk result (fault_in battle.now side choice ≡ None) }
    ensures fault { IfErr result (λ fault. fault_in battle.now side choice ≡ Some fault) }
{
    match fault(battle.phase, side, &battle.sides[side as usize], choice) {
        None => Ok(()),
        Some(fault) => Err(fault),
    }
}
