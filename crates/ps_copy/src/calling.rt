//! Moves in whose place another move is used.
ghost use Rattle.std.specs.Prelude.{◌≡◌, ◌≤◌, ◌<◌, ◌+◌, ℕ, All, IfSome, false};
ghost use Rattle.arrayvec.specs.ArrayVec.{array_vec_len};
ghost use Rattle.ps_mon.specs.Facts.{AreFair, figures};
ghost use Rattle.ps_mon.specs.Known.{AreKnown};
ghost use Rattle.ps_mon.specs.Moves.{IsNamed, move_count, move_of};
ghost use Rattle.ps_mon.specs.Keeping.{Keeps, StillStands};
ghost use Rattle.ps_mon.specs.Valid.{IsSound, IsValid};
ghost use Rattle.ps_mon.specs.Duels.{IsFit, IsDuelKnown};
ghost use Rattle.ps_hits.specs.Scenes.{scene};
ghost use Rattle.ps_hits.specs.Courses.{played, course};
ghost use Rattle.ps_copy.specs.Answers.{answer_of};
ghost use Rattle.ps_copy.specs.Calling.{calls_left, is_metronome, is_calling, callable, metronome_row, mirrored, mirrormove_row};

use arrayvec::ArrayVec;
use ps_event::event::{Event, Events};
use ps_hits::scene::{draw, who};
use ps_mon::duel::Duel;
use ps_mon::effect::{CopyKind, Effect};
use ps_mon::facts::Facts;
use ps_mon::moves::move_data;
use ps_mon::record::Battle;

fn is_metronome(effect: Effect) -> bool
    ensures value { result ≡ is_metronome effect }
    ensures ends { result ≡ false → calls_left effect < 2 }
{
    match effect {
        Effect::Copy { sub } => match sub {
            CopyKind::Metronome => true,
            _ => false,
        },
        _ => false,
    }
}

fn is_calling(effect: Effect) -> bool
    ensures value { result ≡ is_calling effect }
    ensures ends { result ≡ false → calls_left effect < 1 }
{
    match effect {
        Effect::Copy { sub } => match sub {
            CopyKind::Metronome | CopyKind::MirrorMove => true,
            _ => false,
        },
        _ => false,
    }
}

// The moves that Metronome can take, by their indices in the dex.
#[tactic(auto, unfolding(crate::specs::Calling::callable, ps_mon::specs::Facts::figures))]
fn callable_indices(facts: Facts<'_>) -> ArrayVec<u16, 1024>
    requires { AreFair (figures facts) }
    ensures value { result.items ≡ callable (figures facts.entry) }
    ensures inside { All (λ index. index < move_count (figures facts.entry)) result.items }
    ensures ends { All (λ index. calls_left (move_of (figures facts.entry) index).effect < 2) result.items }
{
    let mut indices = ArrayVec::new();
    for at in 0..facts.moves.len() as u16 {
        if is_metronome(move_data(facts, at).effect) {
            continue;
        }
        indices.push(at);
    }
    indices
}

#[tactic(auto, unfolding(crate::specs::Calling::metronome_row))]
fn metronome_duel(duel: &mut Duel, facts: Facts<'_>, out: &mut Events) -> Option<u16>
    requires fit { IsFit duel.old }
    requires fair { AreFair (figures facts) }
    requires room { array_vec_len out.old + 1 ≤ 160 }
    ensures value { result ≡ (metronome_row (figures facts.entry) (scene duel.old out.old)).0 }
    ensures after { scene duel.new out.new ≡ (metronome_row (figures facts.entry) (scene duel.old out.old)).1 }
    ensures fit { IsFit duel.new }
    ensures known { (moves : ℕ) → IsDuelKnown moves duel.old → IsDuelKnown moves duel.new }
    ensures named { IfSome result (IsNamed (move_count (figures facts.entry))) }
    ensures ends { IfSome result (λ m. calls_left (move_of (figures facts.entry) m).effect < 2) }
    ensures few { IfSome result (λ m. array_vec_len out.new ≤ array_vec_len out.old) }
    ensures room { array_vec_len out.new ≤ array_vec_len out.old + 1 }
{
    let indices = callable_indices(facts);
    if indices.is_empty() {
        out.push(Event::Fail {
            who: who(&duel.user),
        });
        return None;
    }
    let k = draw(duel, indices.len() as u32);
    Some(indices[k as usize])
}

/// Metronome: the move of the dex that is used in its place. It fails where the dex has none but moves of its own kind.
pub(crate) fn metronome(
    battle: &mut Battle,
    facts: Facts<'_>,
    user: u8,
    out: &mut Events,
) -> Option<u16>
    requires sound { IsSound battle.old }
    requires fair { AreFair (figures facts) }
    requires user { user < 2 }
    requires room { array_vec_len out.old + 20 ≤ 160 }
    ensures value { result ≡ answer_of (metronome_row (figures facts.entry)) user (course battle.old out.old) }
    ensures effect { course battle.new out.new ≡ played (metronome_row (figures facts.entry)) user (course battle.old out.old) }
    ensures sound { IsSound battle.new }
    ensures whole { IsValid battle.old → StillStands battle.old battle.new → IsValid battle.new }
    ensures known { (moves : ℕ) → AreKnown moves battle.old → AreKnown moves battle.new }
    ensures kept { Keeps user battle.old battle.new }
    ensures named { IfSome result (IsNamed (move_count (figures facts.entry))) }
    ensures ends { IfSome result (λ m. calls_left (move_of (figures facts.entry) m).effect < 2) }
    ensures few { IfSome result (λ m. array_vec_len out.new ≤ array_vec_len out.old) }
    ensures room { array_vec_len out.new ≤ array_vec_len out.old + 20 }
{
    let mut duel = battle.duel(user);
    let answer = metronome_duel(&mut duel, facts, out);
    battle.put(user, &duel);
    answer
}

fn mirror(facts: Facts<'_>, last: Option<u16>) -> Option<u16>
    requires { AreFair (figures facts) }
    ensures value { result ≡ mirrored (figures facts.entry) last }
    ensures named { (moves : ℕ) → IfSome last (IsNamed moves) → IfSome result (IsNamed moves) }
    ensures ends { IfSome result (λ m. calls_left (move_of (figures facts.entry) m).effect < 1) }
{
    let mv = last?;
    if is_calling(move_data(facts, mv).effect) {
        return None;
    }
    Some(mv)
}

#[tactic(auto, unfolding(crate::specs::Calling::mirrormove_row))]
fn mirrormove_duel(duel: &mut Duel, facts: Facts<'_>, out: &mut Events) -> Option<u16>
    requires fit { IsFit duel.old }
    requires fair { AreFair (figures facts) }
    requires room { array_vec_len out.old + 1 ≤ 160 }
    ensures value { result ≡ (mirrormove_row (figures facts.entry) (scene duel.old out.old)).0 }
    ensures after { scene duel.new out.new ≡ (mirrormove_row (figures facts.entry) (scene duel.old out.old)).1 }
    ensures fit { IsFit duel.new }
    ensures known { (moves : ℕ) → IsDuelKnown moves duel.old → IsDuelKnown moves duel.new }
    ensures named { (moves : ℕ) → IsDuelKnown moves duel.old → IfSome result (IsNamed moves) }
    ensures ends { IfSome result (λ m. calls_left (move_of (figures facts.entry) m).effect < 1) }
    ensures few { IfSome result (λ m. array_vec_len out.new ≤ array_vec_len out.old) }
    ensures room { array_vec_len out.new ≤ array_vec_len out.old + 1 }
{
    let answer = mirror(facts, duel.foe.vol.last);
    if answer.is_none() {
        out.push(Event::Fail {
            who: who(&duel.user),
        });
    }
    answer
}

/// Mirror Move: the foe's last move, which is used in its place; it may be Struggle. It fails where there is none, or where that is
/// Metronome or Mirror Move.
pub(crate) fn mirrormove(
    battle: &mut Battle,
    facts: Facts<'_>,
    user: u8,
    out: &mut Events,
) -> Option<u16>
    requires sound { IsSound battle.old }
    requires fair { AreFair (figures facts) }
    requires user { user < 2 }
    requires room { array_vec_len out.old + 20 ≤ 160 }
    ensures value { result ≡ answer_of (mirrormove_row (figures facts.entry)) user (course battle.old out.old) }
    ensures effect { course battle.new out.new ≡ played (mirrormove_row (figures facts.entry)) user (course battle.old out.old) }
    ensures sound { IsSound battle.new }
    ensures whole { IsValid battle.old → StillStands battle.old battle.new → IsValid battle.new }
    ensures known { (moves : ℕ) → AreKnown moves battle.old → AreKnown moves battle.new }
    ensures kept { Keeps user battle.old battle.new }
    ensures named { (moves : ℕ) → AreKnown moves battle.old → IfSome result (IsNamed moves) }
    ensures ends { IfSome result (λ m. calls_left (move_of (figures facts.entry) m).effect < 1) }
    ensures few { IfSome result (λ m. array_vec_len out.new ≤ array_vec_len out.old) }
    ensures room { array_vec_len out.new ≤ array_vec_len out.old + 20 }
{
    let mut duel = battle.duel(user);
    let answer = mirrormove_duel(&mut duel, facts, out);
    battle.put(user, &duel);
    answer
}
