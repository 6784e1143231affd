//! The choice that a player's wish stands for.
ghost use Rattle.std.specs.Prelude.{◌≡◌, ◌<◌, ◌≤◌, nat_lt, option_map, IfSome, IfOk};
ghost use Rattle.ps_mon.specs.Reading.{side_of, member_of};
ghost use Rattle.ps_mon.specs.Valid.{IsSound, IsSide, IsShaped};
ghost use Rattle.ps_mon.specs.Choices.{IsChoiceOf, legal as fault_in};
ghost use Rattle.ps_mon.specs.declared.choice.Choice.TheVariants as choices;
ghost use Rattle.ps_choice.specs.Wants.{want_of};
ghost use Rattle.ps_choice.specs.Resolved.{first_of, lowest_usable, has_move_at, slot_with, act_at, first_act, bench, first_standing};
ghost use Rattle.ps_choice.specs.Resolved.{replacement, by_default, numbered, is_number, is_lock_name, is_locked_name, going_on};
ghost use Rattle.ps_choice.specs.Resolved.{slot_of_move, is_struggle, named, meant, no_move, fault_of_absent, judged, resolved};

use crate::legality::{has_usable, is_asked, is_locked, is_usable, legal, wrong_for_act};
use crate::ordering::{NOBODY, order_of, whole};
use crate::wanted::Wanted;
use ps_dex::dex::Dex;
use ps_dex::spelled::is_id_of;
use ps_mon::choice::{Choice, ChoiceFault};
use ps_mon::record::{Battle, Lock, Phase, SideState};

/// What a player wishes for that isn't there.
#[derive(Clone, Copy)]
enum Absent {
    /// A slot with the move of that name.
    Move,
    /// A member that could come in.
    Member,
}

fn first_of(a: bool, b: bool, c: bool, d: bool) -> Option<u8>
    ensures value { result ≡ first_of a b c d }
    ensures high { IfSome result (λ slot. slot ≤ 4) }
{
    if a {
        return Some(1);
    }
    if b {
        return Some(2);
    }
    if c {
        return Some(3);
    }
    if d {
        return Some(4);
    }
    None
}

#[tactic(auto, unfolding(crate::specs::Resolved::lowest_usable))]
fn lowest_usable(side: &SideState) -> Option<u8>
    requires { IsSide side.now }
    ensures { result ≡ lowest_usable side.now }
{
    first_of(
        is_usable(side, 0),
        is_usable(side, 1),
        is_usable(side, 2),
        is_usable(side, 3),
    )
}

#[tactic(auto, unfolding(crate::specs::Resolved::has_move_at))]
fn has_move_at(side: &SideState, mv: u16, slot: u8) -> bool
    requires side { IsSide side.now }
    requires slot { slot < 4 }
    ensures { result ≡ has_move_at side.now mv slot }
{
    slot < side.slot_count() && side.slot(slot).mv == mv
}

#[tactic(auto, unfolding(crate::specs::Resolved::slot_with))]
fn slot_with(side: &SideState, mv: u16) -> Option<u8>
    requires { IsSide side.now }
    ensures { result ≡ slot_with side.now mv }
{
    first_of(
        has_move_at(side, mv, 0),
        has_move_at(side, mv, 1),
        has_move_at(side, mv, 2),
        has_move_at(side, mv, 3),
    )
}

fn act_at(slot: Option<u8>) -> Choice
    ensures { result ≡ act_at slot }
{
    match slot {
        None => Choice::Struggle,
        Some(slot) => Choice::Move(slot),
    }
}

#[tactic(auto, unfolding(crate::specs::Resolved::first_act))]
fn first_act(side: &SideState) -> Choice
    requires { IsSide side.now }
    ensures { result ≡ first_act side.now }
{
    if is_locked(side) {
        return Choice::Continue;
    }
    act_at(lowest_usable(side))
}

fn stands_at(side: &SideState, index: u8) -> bool
    ensures { result ≡ nat_lt 0 (member_of side.now index).hp }
{
    match side.members.get(index as usize) {
        None => false,
        Some(m) => m.hp > 0,
    }
}

#[tactic(auto, unfolding(crate::specs::Resolved::first_standing))]
fn first_standing(side: &SideState) -> Option<usize>
    requires { IsShaped side.now }
    ensures index { result ≡ first_standing side.now }
    ensures within { IfSome result (λ k. k < 6) }
{
    let bench = &side.order[1..side.count as usize];
    bench.iter().position(|index| stands_at(side, *index))
}

fn replacement(side: &SideState) -> Option<Choice>
    requires { IsShaped side.now }
    ensures { result ≡ replacement (first_standing side.now) }
{
    match first_standing(side) {
        None => None,
        Some(k) => Some(Choice::Switch(k as u8 + 2)),
    }
}

fn by_default(phase: Phase, side: &SideState) -> Option<Choice>
    requires { IsSide side.now }
    ensures { result ≡ by_default phase side.now }
{
    match phase {
        Phase::Preview => Some(Choice::Team(whole(side.count, NOBODY))),
        Phase::Replace { .. } => replacement(side),
        _ => Some(first_act(side)),
    }
}

#[tactic(auto, unfolding(crate::specs::Resolved::numbered))]
fn numbered(side: &SideState, n: u8) -> Choice
    requires { IsSide side.now }
    ensures { result ≡ numbered side.now n }
{
    if n == 1 && is_locked(side) {
        return Choice::Continue;
    }
    if n == 1 && !has_usable(side) {
        return Choice::Struggle;
    }
    Choice::Move(n)
}

fn is_number(mv: Option<u16>, number: u16) -> bool
    ensures { result ≡ is_number mv number }
{
    match mv {
        None => false,
        Some(mv) => mv == number,
    }
}

fn is_lock_name(dex: &Dex, lock: Option<Lock>, name: &str) -> bool
    ensures { result ≡ is_lock_name dex.now lock name.now }
{
    match lock {
        None => false,
        Some(lock) => is_number(dex.move_named(name), lock.mv),
    }
}

#[tactic(auto, unfolding(crate::specs::Resolved::is_locked_name))]
fn is_locked_name(dex: &Dex, side: &SideState, name: &str) -> bool
    ensures { result ≡ is_locked_name dex.now side.now name.now }
{
    if side.vol.recharge {
        return is_id_of("recharge", name);
    }
    is_lock_name(dex, side.vol.lock, name)
}

fn going_on(named: bool) -> Option<Choice>
    ensures { result ≡ going_on named }
{
    if named { Some(Choice::Continue) } else { None }
}

fn move_in(slot: Option<u8>) -> Option<Choice>
    ensures { result ≡ option_map choices.Move slot }
{
    match slot {
        None => None,
        Some(slot) => Some(Choice::Move(slot)),
    }
}

fn slot_of_move(side: &SideState, mv: Option<u16>) -> Option<Choice>
    requires { IsSide side.now }
    ensures { result ≡ slot_of_move side.now mv }
{
    match mv {
        None => None,
        Some(mv) => move_in(slot_with(side, mv)),
    }
}

#[tactic(auto, unfolding(crate::specs::Resolved::is_struggle))]
fn is_struggle(side: &SideState, name: &str) -> bool
    requires { IsSide side.now }
    ensures { result ≡ is_struggle side.now name.now }
{
    is_id_of("struggle", name) && !has_usable(side)
}

#[tactic(auto, unfolding(crate::specs::Resolved::named))]
fn named(dex: &Dex, side: &SideState, name: &str) -> Option<Choice>
    requires { IsSide side.now }
    ensures { result ≡ named dex.now side.now name.now }
{
    if is_locked(side) {
        return going_on(is_locked_name(dex, side, name));
    }
    if is_struggle(side, name) {
        return Some(Choice::Struggle);
    }
    slot_of_move(side, dex.move_named(name))
}

fn meant(phase: Phase, side: &SideState, dex: &Dex, wanted: Wanted<'_>) -> Result<Choice, Absent>
    requires { IsSide side.now }
    ensures { result ≡ meant phase side.now dex.now (want_of wanted.entry) }
{
    match wanted {
        Wanted::Move(n) => Ok(numbered(side, n)),
        Wanted::Named(name) => named(dex, side, name).ok_or(Absent::Move),
        Wanted::Switch(n) => Ok(Choice::Switch(n)),
        Wanted::Team(digits) => Ok(Choice::Team(order_of(side.count, digits.as_bytes()))),
        Wanted::Default => by_default(phase, side).ok_or(Absent::Member),
    }
}

fn no_move(phase: Phase, side: &SideState) -> ChoiceFault
    ensures { result ≡ no_move phase side.now }
{
    if wrong_for_act(phase) {
        return ChoiceFault::WrongPhase;
    }
    if is_locked(side) {
        return ChoiceFault::Locked;
    }
    ChoiceFault::NoSuchMove
}

/// The fault of a wish of a side, 0 or 1, for what isn't there. Those of the phase and of a lock come first.
fn fault_of_absent(phase: Phase, number: u8, side: &SideState, absent: Absent) -> ChoiceFault
    requires { number < 2 }
    ensures { result ≡ fault_of_absent phase number side.now absent }
{
    if !is_asked(phase, number) {
        return ChoiceFault::NotYourTurn;
    }
    match absent {
        Absent::Move => no_move(phase, side),
        Absent::Member => ChoiceFault::NoSuchMember,
    }
}

#[tactic(auto, using(crate::proofs::ChoiceLemmas::legal_choices))]
fn judged(battle: &Battle, side: u8, choice: Choice) -> Result<Choice, ChoiceFault>
    requires sound { IsSound battle.now }
    requires side { side < 2 }
    ensures value { result ≡ judged choice (fault_in battle.now side choice) }
    ensures choice { IfOk result (λ choice. IsChoiceOf battle.now side choice) }
{
    match legal(battle, side, choice) {
        Ok(()) => Ok(choice),
        Err(fault) => Err(fault),
    }
}

/// The choice that a wish of a side, 0 or 1, stands for, or the first fault of `legal` that it has.
///
/// A slot is named by its number, from 1, or by its move's id or an alias, which stands for the lowest slot with that move.
/// Under a lock `move 1` and the lock's name go on; with no usable slot `move 1` and `move struggle` are Struggle. The
/// default is in a turn the first that is legal of going on, Struggle and the lowest usable slot, in Team Preview the order
/// as it stands, and else the lowest position from 2 whose member stands. Digits name the members that are to stand first,
/// and the others follow in their order; `NoSuchMember` where a digit names none, or one that an earlier digit names. A
/// name is looked up only where the side is asked, the phase fits and the member isn't locked; then `NoSuchMove` where no
/// slot has it. Takes no memory.
pub fn resolve(
    battle: &Battle,
    dex: &Dex,
    side: u8,
    wanted: Wanted<'_>,
) -> Result<Choice, ChoiceFault>
    requires sound { IsSound battle.now }
    requires side { side < 2 }
    ensures value { result ≡ resolved battle.now.phase side (side_of battle.now side) dex.now (want_of wanted.entry) }
    ensures choice { IfOk result (λ choice. IsChoiceOf battle.now side choice) }
{
    let own = &battle.sides[side as usize];
    match meant(battle.phase, own, dex, wanted) {
        Ok(choice) => judged(battle, side, choice),
        Err(absent) => Err(fault_of_absent(battle.phase, side, own, absent)),
    }
}
