//! Acts.
ghost use Rattle.std.specs.Prelude.{◌≡◌, ◌≤◌, ◌<◌, ◌+◌, ◌-◌, ℕ, IfSome};
ghost use Rattle.arrayvec.specs.ArrayVec.{array_vec_len};
ghost use Rattle.ps_mon.specs.Facts.{AreFair, figures};
ghost use Rattle.ps_mon.specs.Keeping.{Keeps};
ghost use Rattle.ps_mon.specs.Known.{AreKnown};
ghost use Rattle.ps_mon.specs.Moves.{IsNamed, move_of, move_count};
ghost use Rattle.ps_mon.specs.Reading.{side_of};
ghost use Rattle.ps_mon.specs.Valid.{IsSound};
ghost use Rattle.ps_mon.specs.Duels.{IsFit, IsDuelKnown};
ghost use Rattle.ps_hits.specs.Scenes.{scene};
ghost use Rattle.ps_hits.specs.Courses.{course, played};
ghost use Rattle.ps_battle.specs.Acting.{may_act};
ghost use Rattle.ps_battle.specs.Residual.{residual};
ghost use Rattle.ps_mon.specs.Choices.{IsThere};
ghost use Rattle.ps_battle.specs.Acts.{is_user, is_conversion, is_for_user, target_of, prepares, named_row, named, used_alone};
ghost use Rattle.ps_battle.specs.Acts.{call_of, calling, used, with_use_of, fresh_use, continued_use, fail_row, went_on, goes_on};
ghost use Rattle.ps_battle.specs.Acts.{tried, tried_again, act, is_down, has_faint, two_acts};

use crate::acting::can_act;
use crate::chosen::slot_move;
use crate::effects::take_effect;
use crate::residual::residual_of;
use ps_event::event::{Event, Events, Who};
use ps_hits::scene::who;
use ps_mon::choice::Choice;
use ps_mon::duel::Duel;
use ps_mon::effect::{Aim, CopyKind, Effect};
use ps_mon::facts::{Facts, STRUGGLE};
use ps_mon::moves::move_data;
use ps_mon::record::{Battle, Lock};

fn aims_at_user(aim: Aim) -> bool
    ensures { result ≡ is_user aim }
{
    match aim {
        Aim::User => true,
        Aim::Foe => false,
    }
}

fn converts(sub: CopyKind) -> bool
    ensures { result ≡ is_conversion sub }
{
    match sub {
        CopyKind::Conversion => true,
        _ => false,
    }
}

fn is_for_itself(kind: Effect) -> bool
    ensures { result ≡ is_for_user kind }
{
    match kind {
        Effect::Boost { who, .. } => aims_at_user(who),
        Effect::Copy { sub } => converts(sub),
        Effect::Haze
        | Effect::Heal
        | Effect::Rest
        | Effect::Screen { .. }
        | Effect::Mist
        | Effect::Focus
        | Effect::Substitute
        | Effect::Nothing => true,
        _ => false,
    }
}

fn target(kind: Effect, duel: &Duel) -> Who
    ensures { result ≡ target_of kind duel.now }
{
    if is_for_itself(kind) {
        who(&duel.user)
    } else {
        who(&duel.foe)
    }
}

/// How a move is used.
#[derive(Clone, Copy, Debug, PartialEq, Eq)]
pub(crate) struct Usage {
    /// The move: an index in the dex, or Struggle's number.
    pub(crate) mv: u16,
    /// The slot that was chosen, from 0, which Mimic changes; 0 for a move that has none.
    pub(crate) slot: u8,
    /// The move that called it, or itself where a long move goes on.
    pub(crate) from: Option<u16>,
    /// Whether a long move goes on.
    pub(crate) goes_on: bool,
}

fn is_preparing(kind: Effect, goes_on: bool) -> bool
    ensures { result ≡ prepares kind goes_on }
{
    match kind {
        Effect::Charge { .. } => !goes_on,
        _ => false,
    }
}

#[tactic(auto, unfolding(crate::specs::Acts::named_row))]
fn name_in_duel(duel: &mut Duel, facts: Facts<'_>, usage: Usage, out: &mut Events)
    requires fit { IsFit duel.old }
    requires fair { AreFair (figures facts) }
    requires room { array_vec_len out.old + 1 ≤ 160 }
    ensures after { scene duel.new out.new ≡ (named_row (figures facts.entry) usage (scene duel.old out.old)).1 }
    ensures fit { IsFit duel.new }
    ensures known { (moves : ℕ) → IsNamed moves usage.mv → IsDuelKnown moves duel.old → IsDuelKnown moves duel.new }
    ensures room { array_vec_len out.new ≤ array_vec_len out.old + 1 }
{
    duel.user.vol.last = Some(usage.mv);
    let kind = move_data(facts, usage.mv).effect;
    let target = target(kind, duel);
    out.push(Event::Move {
        who: who(&duel.user),
        mv: usage.mv,
        target,
        still: is_preparing(kind, usage.goes_on),
        from: usage.from,
    });
}

#[tactic(auto, unfolding(crate::specs::Acts::named))]
fn name_move(battle: &mut Battle, facts: Facts<'_>, user: u8, usage: Usage, out: &mut Events)
    requires sound { IsSound battle.old }
    requires fair { AreFair (figures facts) }
    requires user { user < 2 }
    requires room { array_vec_len out.old + 1 ≤ 160 }
    ensures after { course battle.new out.new ≡ named (figures facts.entry) user usage (course battle.old out.old) }
    ensures sound { IsSound battle.new }
    ensures known { (moves : ℕ) → IsNamed moves usage.mv → AreKnown moves battle.old → AreKnown moves battle.new }
    ensures kept { Keeps user battle.old battle.new }
    ensures room { array_vec_len out.new ≤ array_vec_len out.old + 1 }
{
    let mut duel = battle.duel(user);
    name_in_duel(&mut duel, facts, usage, out);
    battle.put(user, &duel);
}

#[tactic(auto, using(ps_mon::proofs::KeepLemmas::keeps_trans), unfolding(crate::specs::Acts::used_alone, crate::specs::Acts::call_of))]
fn use_alone(
    battle: &mut Battle,
    facts: Facts<'_>,
    user: u8,
    usage: Usage,
    out: &mut Events,
) -> Option<u16>
    requires sound { IsSound battle.old }
    requires fair { AreFair (figures facts) }
    requires known { AreKnown (move_count (figures facts)) battle.old }
    requires named { IsNamed (move_count (figures facts)) usage.mv }
    requires user { user < 2 }
    requires slot { usage.slot < 4 }
    requires room { array_vec_len out.old + 21 ≤ 160 }
    ensures value { result ≡ call_of (figures facts.entry) user usage (course battle.old out.old) }
    ensures after { course battle.new out.new ≡ used_alone (figures facts.entry) user usage (course battle.old out.old) }
    ensures sound { IsSound battle.new }
    ensures known { AreKnown (move_count (figures facts.entry)) battle.new }
    ensures kept { Keeps user battle.old battle.new }
    ensures named { IfSome result (IsNamed (move_count (figures facts.entry))) }
    ensures room { array_vec_len out.new ≤ array_vec_len out.old + 21 }
    ensures few { IfSome result (λ called. array_vec_len out.new ≤ array_vec_len out.old + 1) }
{
    name_move(battle, facts, user, usage, out);
    take_effect(battle, facts, user, usage.mv, usage.slot, out)
}

fn called(usage: Usage, mv: u16) -> Usage
    ensures value { result ≡ calling usage mv }
    ensures mv { result.mv ≡ mv }
    ensures slot { result.slot ≡ usage.slot }
{
    Usage {
        mv,
        slot: usage.slot,
        from: Some(usage.mv),
        goes_on: false,
    }
}

#[tactic(auto, using(ps_mon::proofs::KeepLemmas::keeps_trans), unfolding(crate::specs::Acts::used, crate::specs::Acts::used_called))]
fn use_move(battle: &mut Battle, facts: Facts<'_>, user: u8, usage: Usage, out: &mut Events)
    requires sound { IsSound battle.old }
    requires fair { AreFair (figures facts) }
    requires known { AreKnown (move_count (figures facts)) battle.old }
    requires named { IsNamed (move_count (figures facts)) usage.mv }
    requires user { user < 2 }
    requires slot { usage.slot < 4 }
    requires room { array_vec_len out.old + 23 ≤ 160 }
    ensures after { course battle.new out.new ≡ used (figures facts.entry) user usage (course battle.old out.old) }
    ensures sound { IsSound battle.new }
    ensures known { AreKnown (move_count (figures facts.entry)) battle.new }
    ensures kept { Keeps user battle.old battle.new }
    ensures room { array_vec_len out.new ≤ array_vec_len out.old + 23 }
{
    let Some(mv) = use_alone(battle, facts, user, usage, out) else {
        return;
    };
    let usage = called(usage, mv);
    let Some(mv) = use_alone(battle, facts, user, usage, out) else {
        return;
    };
    let _ = use_alone(battle, facts, user, called(usage, mv), out);
}

#[tactic(auto, unfolding(crate::specs::Acts::with_use_of))]
fn spend(battle: &mut Battle, user: u8, slot: Option<u8>)
    requires sound { IsSound battle.old }
    requires user { user < 2 }
    requires slot { IfSome slot (λ j. j < 4) }
    ensures value { battle.new ≡ with_use_of user slot battle.old }
    ensures sound { IsSound battle.new }
    ensures known { (moves : ℕ) → AreKnown moves battle.old → AreKnown moves battle.new }
    ensures kept { Keeps user battle.old battle.new }
{
    if let Some(slot) = slot {
        battle.spend(user, slot);
    }
}

#[tactic(auto, unfolding(crate::specs::Acts::goes_on))]
fn is_able(battle: &mut Battle, user: u8, slot: Option<u8>, out: &mut Events) -> bool
    requires sound { IsSound battle.old }
    requires user { user < 2 }
    requires room { array_vec_len out.old + 11 ≤ 160 }
    ensures value { result ≡ goes_on slot user (course battle.old out.old) }
    ensures after { course battle.new out.new ≡ played (may_act slot) user (course battle.old out.old) }
    ensures sound { IsSound battle.new }
    ensures known { (moves : ℕ) → AreKnown moves battle.old → AreKnown moves battle.new }
    ensures kept { Keeps user battle.old battle.new }
    ensures room { array_vec_len out.new ≤ array_vec_len out.old + 11 }
{
    let mut duel = battle.duel(user);
    let able = can_act(&mut duel, slot, out);
    battle.put(user, &duel);
    able
}

fn take_residual(battle: &mut Battle, user: u8, out: &mut Events)
    requires sound { IsSound battle.old }
    requires user { user < 2 }
    requires room { array_vec_len out.old + 5 ≤ 160 }
    ensures after { course battle.new out.new ≡ played residual user (course battle.old out.old) }
    ensures sound { IsSound battle.new }
    ensures known { (moves : ℕ) → AreKnown moves battle.old → AreKnown moves battle.new }
    ensures kept { Keeps user battle.old battle.new }
    ensures room { array_vec_len out.new ≤ array_vec_len out.old + 5 }
{
    let mut duel = battle.duel(user);
    residual_of(&mut duel, out);
    battle.put(user, &duel);
}

fn fresh(slot: Option<u8>, mv: u16) -> Usage
    requires { IfSome slot (λ j. j < 4) }
    ensures value { result ≡ fresh_use slot mv }
    ensures mv { result.mv ≡ mv }
    ensures slot { result.slot < 4 }
{
    Usage {
        mv,
        slot: slot.unwrap_or(0),
        from: None,
        goes_on: false,
    }
}

#[tactic(auto, using(ps_mon::proofs::KeepLemmas::keeps_trans), unfolding(crate::specs::Acts::tried, crate::specs::Acts::moved))]
fn try_move(
    battle: &mut Battle,
    facts: Facts<'_>,
    user: u8,
    slot: Option<u8>,
    mv: u16,
    out: &mut Events,
)
    requires sound { IsSound battle.old }
    requires fair { AreFair (figures facts) }
    requires known { AreKnown (move_count (figures facts)) battle.old }
    requires named { IsNamed (move_count (figures facts)) mv }
    requires user { user < 2 }
    requires slot { IfSome slot (λ j. j < 4) }
    requires room { array_vec_len out.old + 39 ≤ 160 }
    ensures after { course battle.new out.new ≡ tried (figures facts.entry) user slot mv (course battle.old out.old) }
    ensures sound { IsSound battle.new }
    ensures known { AreKnown (move_count (figures facts.entry)) battle.new }
    ensures kept { Keeps user battle.old battle.new }
    ensures room { array_vec_len out.new ≤ array_vec_len out.old + 39 }
{
    if !is_able(battle, user, slot, out) {
        return;
    }
    spend(battle, user, slot);
    use_move(battle, facts, user, fresh(slot, mv), out);
    take_residual(battle, user, out);
}

#[tactic(auto, unfolding(crate::specs::Acts::fail_row))]
fn fail_in_duel(duel: &Duel, out: &mut Events)
    requires room { array_vec_len out.old + 1 ≤ 160 }
    ensures after { scene duel.now out.new ≡ (fail_row (scene duel.now out.old)).1 }
    ensures room { array_vec_len out.new ≤ array_vec_len out.old + 1 }
{
    out.push(Event::Fail {
        who: who(&duel.user),
    });
}

fn fail(battle: &mut Battle, user: u8, out: &mut Events)
    requires sound { IsSound battle.old }
    requires user { user < 2 }
    requires room { array_vec_len out.old + 1 ≤ 160 }
    ensures after { course battle.new out.new ≡ played fail_row user (course battle.old out.old) }
    ensures sound { IsSound battle.new }
    ensures known { (moves : ℕ) → AreKnown moves battle.old → AreKnown moves battle.new }
    ensures kept { Keeps user battle.old battle.new }
    ensures room { array_vec_len out.new ≤ array_vec_len out.old + 1 }
{
    let duel = battle.duel(user);
    fail_in_duel(&duel, out);
    battle.put(user, &duel);
}

fn continued(lock: Lock) -> Usage
    ensures value { result ≡ continued_use lock }
    ensures mv { result.mv ≡ lock.mv }
    ensures slot { result.slot < 4 }
{
    Usage {
        mv: lock.mv,
        slot: 0,
        from: Some(lock.mv),
        goes_on: true,
    }
}

fn go_on(battle: &mut Battle, facts: Facts<'_>, user: u8, lock: Option<Lock>, out: &mut Events)
    requires sound { IsSound battle.old }
    requires fair { AreFair (figures facts) }
    requires known { AreKnown (move_count (figures facts)) battle.old }
    requires lock { IfSome lock (λ l. l.mv < move_count (figures facts)) }
    requires user { user < 2 }
    requires room { array_vec_len out.old + 23 ≤ 160 }
    ensures after { course battle.new out.new ≡ went_on lock (figures facts.entry) user (course battle.old out.old) }
    ensures sound { IsSound battle.new }
    ensures known { AreKnown (move_count (figures facts.entry)) battle.new }
    ensures kept { Keeps user battle.old battle.new }
    ensures room { array_vec_len out.new ≤ array_vec_len out.old + 23 }
{
    match lock {
        None => fail(battle, user, out),
        Some(lock) => use_move(battle, facts, user, continued(lock), out),
    }
}

#[tactic(auto, using(ps_mon::proofs::KeepLemmas::keeps_trans), unfolding(crate::specs::Acts::tried_again, crate::specs::Acts::continued))]
fn try_again(battle: &mut Battle, facts: Facts<'_>, user: u8, out: &mut Events)
    requires sound { IsSound battle.old }
    requires fair { AreFair (figures facts) }
    requires known { AreKnown (move_count (figures facts)) battle.old }
    requires user { user < 2 }
    requires room { array_vec_len out.old + 39 ≤ 160 }
    ensures after { course battle.new out.new ≡ tried_again (figures facts.entry) user (course battle.old out.old) }
    ensures sound { IsSound battle.new }
    ensures known { AreKnown (move_count (figures facts.entry)) battle.new }
    ensures kept { Keeps user battle.old battle.new }
    ensures room { array_vec_len out.new ≤ array_vec_len out.old + 39 }
{
    if !is_able(battle, user, None, out) {
        return;
    }
    let lock = battle.sides[user as usize].vol.lock;
    go_on(battle, facts, user, lock, out);
    take_residual(battle, user, out);
}

#[tactic(auto, unfolding(crate::specs::Acts::act))]
fn do_act(battle: &mut Battle, facts: Facts<'_>, user: u8, choice: Choice, out: &mut Events)
    requires sound { IsSound battle.old }
    requires fair { AreFair (figures facts) }
    requires known { AreKnown (move_count (figures facts)) battle.old }
    requires user { user < 2 }
    requires there { IsThere (side_of battle.old user) choice }
    requires room { array_vec_len out.old + 39 ≤ 160 }
    ensures after { course battle.new out.new ≡ act (figures facts.entry) user choice (course battle.old out.old) }
    ensures sound { IsSound battle.new }
    ensures known { AreKnown (move_count (figures facts.entry)) battle.new }
    ensures kept { Keeps user battle.old battle.new }
    ensures room { array_vec_len out.new ≤ array_vec_len out.old + 39 }
{
    match choice {
        Choice::Move(n) => {
            let mv = slot_move(&battle.sides[user as usize], n);
            try_move(battle, facts, user, Some(n - 1), mv, out);
        }
        Choice::Struggle => try_move(battle, facts, user, None, STRUGGLE, out),
        Choice::Continue => try_again(battle, facts, user, out),
        _ => (),
    }
}

/// Whether the active member of a side has fainted.
#[tactic(auto, unfolding(crate::specs::Acts::is_down))]
pub(crate) fn has_fallen(battle: &Battle, side: u8) -> bool
    requires sound { IsSound battle.now }
    requires side { side < 2 }
    ensures { result ≡ is_down battle.now side }
{
    let side = &battle.sides[side as usize];
    side.members[side.order[0] as usize].hp == 0
}

#[tactic(auto, unfolding(crate::specs::Acts::has_faint))]
fn has_fainted(battle: &Battle) -> bool
    requires { IsSound battle.now }
    ensures { result ≡ has_faint battle.now }
{
    has_fallen(battle, 0) || has_fallen(battle, 1)
}

/// Two acts, the second only where nobody fainted in the first.
#[tactic(auto, unfolding(crate::specs::Acts::two_acts))]
pub(crate) fn do_two_acts(
    battle: &mut Battle,
    facts: Facts<'_>,
    user: u8,
    first: Choice,
    second: Choice,
    out: &mut Events,
)
    requires sound { IsSound battle.old }
    requires fair { AreFair (figures facts) }
    requires known { AreKnown (move_count (figures facts)) battle.old }
    requires user { user < 2 }
    requires first { IsThere (side_of battle.old user) first }
    requires second { IsThere (side_of battle.old (1 - user)) second }
    requires room { array_vec_len out.old + 78 ≤ 160 }
    ensures after { course battle.new out.new ≡ two_acts (figures facts.entry) user first (1 - user) second (course battle.old out.old) }
    ensures sound { IsSound battle.new }
    ensures known { AreKnown (move_count (figures facts.entry)) battle.new }
    ensures turn { battle.new.turn ≡ battle.old.turn }
    ensures room { array_vec_len out.new ≤ array_vec_len out.old + 78 }
{
    do_act(battle, facts, user, first, out);
    if has_fainted(battle) {
        return;
    }
    do_act(battle, facts, 1 - user, second, out);
}
