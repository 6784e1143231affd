//! What each kind of effect does.
ghost use Rattle.std.specs.Prelude.{◌≡◌, ◌≤◌, ◌<◌, ◌+◌, ℕ, IfSome, None};
ghost use Rattle.arrayvec.specs.ArrayVec.{array_vec_len};
ghost use Rattle.ps_mon.specs.Facts.{AreFair, figures};
ghost use Rattle.ps_mon.specs.Keeping.{Keeps};
ghost use Rattle.ps_mon.specs.Known.{AreKnown};
ghost use Rattle.ps_mon.specs.Moves.{IsNamed, move_of, move_count};
ghost use Rattle.ps_mon.specs.Valid.{IsSound};
ghost use Rattle.ps_hits.specs.Courses.{course};
ghost use Rattle.ps_battle.specs.Effects.{IsOtherKind, effect, call};

use ps_copy::copies::copy;
use ps_event::event::Events;
use ps_hits::amounts::{fixed, half, level, ohko, psywave};
use ps_hits::hits::{explode, plain};
use ps_hits::shares::{crash, drain, dreameater, recoil};
use ps_mon::effect::Effect;
use ps_mon::facts::Facts;
use ps_mon::moves::move_data;
use ps_mon::record::Battle;
use ps_multi::charging::{charge, recharge};
use ps_multi::locking::{bide, rage, thrash, trap};
use ps_multi::several::{double, multi};
use ps_status::afflicting::status;
use ps_status::boosting::boost;
use ps_status::clearing::haze;
use ps_status::confusing::{confuse, flinch};
use ps_status::healing::{heal, rest};
use ps_volat::answering::{counter, leechseed, nothing};
use ps_volat::covering::{focus, mist, screen, substitute};

#[tactic(auto, unfolding(crate::specs::Effects::effect, crate::specs::Effects::call))]
fn take_other(battle: &mut Battle, facts: Facts<'_>, user: u8, mv: u16, slot: u8, out: &mut Events)
    requires sound { IsSound battle.old }
    requires fair { AreFair (figures facts) }
    requires user { user < 2 }
    requires other { IsOtherKind (move_of (figures facts) mv).effect }
    requires room { array_vec_len out.old + 20 ≤ 160 }
    ensures effect { course battle.new out.new
        ≡ effect (move_of (figures facts.entry) mv).effect (figures facts.entry) mv slot user (course battle.old out.old) }
    ensures value { call (move_of (figures facts.entry) mv).effect (figures facts.entry) mv user (course battle.old out.old) ≡ None }
    ensures sound { IsSound battle.new }
    ensures known { (moves : ℕ) → IsNamed moves mv → AreKnown moves battle.old → AreKnown moves battle.new }
    ensures kept { Keeps user battle.old battle.new }
    ensures room { array_vec_len out.new ≤ array_vec_len out.old + 20 }
{
    match move_data(facts, mv).effect {
        Effect::Plain => plain(battle, facts, user, mv, out),
        Effect::Fixed { .. } => fixed(battle, facts, user, mv, out),
        Effect::Level => level(battle, facts, user, mv, out),
        Effect::Half => half(battle, facts, user, mv, out),
        Effect::Psywave => psywave(battle, facts, user, mv, out),
        Effect::Ohko => ohko(battle, facts, user, mv, out),
        Effect::Status { .. } => status(battle, facts, user, mv, out),
        Effect::Confuse { .. } => confuse(battle, facts, user, mv, out),
        Effect::Flinch { .. } => flinch(battle, facts, user, mv, out),
        Effect::Boost { .. } => boost(battle, facts, user, mv, out),
        Effect::Drain => drain(battle, facts, user, mv, out),
        Effect::DreamEater => dreameater(battle, facts, user, mv, out),
        Effect::Recoil { .. } => recoil(battle, facts, user, mv, out),
        Effect::Crash => crash(battle, facts, user, mv, out),
        Effect::Explode => explode(battle, facts, user, mv, out),
        Effect::Counter => counter(battle, facts, user, mv, out),
        Effect::Substitute => substitute(battle, facts, user, mv, out),
        Effect::LeechSeed => leechseed(battle, facts, user, mv, out),
        Effect::Screen { .. } => screen(battle, facts, user, mv, out),
        Effect::Mist => mist(battle, facts, user, mv, out),
        Effect::Focus => focus(battle, facts, user, mv, out),
        Effect::Haze => haze(battle, facts, user, mv, out),
        Effect::Heal => heal(battle, facts, user, mv, out),
        Effect::Rest => rest(battle, facts, user, mv, out),
        Effect::Nothing => nothing(battle, facts, user, mv, out),
        Effect::Multi => multi(battle, facts, user, mv, out),
        Effect::Double { .. } => double(battle, facts, user, mv, out),
        Effect::Charge { .. } => charge(battle, facts, user, mv, out),
        Effect::Recharge => recharge(battle, facts, user, mv, out),
        Effect::Trap => trap(battle, facts, user, mv, out),
        Effect::Thrash => thrash(battle, facts, user, mv, out),
        Effect::Bide => bide(battle, facts, user, mv, out),
        Effect::Rage => rage(battle, facts, user, mv, out),
        Effect::Copy { .. } => unreachable!(),
    }
}

/// The effect of a move that a side uses with a slot, and the move that it calls to be used in its place. A call tells nothing itself.
#[tactic(auto, unfolding(crate::specs::Effects::effect, crate::specs::Effects::call))]
pub(crate) fn take_effect(
    battle: &mut Battle,
    facts: Facts<'_>,
    user: u8,
    mv: u16,
    slot: u8,
    out: &mut Events,
) -> Option<u16>
    requires sound { IsSound battle.old }
    requires fair { AreFair (figures facts) }
    requires user { user < 2 }
    requires slot { slot < 4 }
    requires room { array_vec_len out.old + 20 ≤ 160 }
    ensures value { result ≡ call (move_of (figures facts.entry) mv).effect (figures facts.entry) mv user (course battle.old out.old) }
    ensures effect { course battle.new out.new
        ≡ effect (move_of (figures facts.entry) mv).effect (figures facts.entry) mv slot user (course battle.old out.old) }
    ensures sound { IsSound battle.new }
    ensures known { (moves : ℕ) → IsNamed moves mv → AreKnown moves battle.old → AreKnown moves battle.new }
    ensures kept { Keeps user battle.old battle.new }
    ensures named { AreKnown (move_count (figures facts.entry)) battle.old → IfSome result (IsNamed (move_count (figures facts.entry))) }
    ensures room { array_vec_len out.new ≤ array_vec_len out.old + 20 }
    ensures few { IfSome result (λ called. array_vec_len out.new ≤ array_vec_len out.old) }
{
    match move_data(facts, mv).effect {
        Effect::Copy { sub } => copy(battle, facts, user, mv, sub, slot, out),
        _ => {
            take_other(battle, facts, user, mv, slot, out);
            None
        }
    }
}
