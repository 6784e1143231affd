//! Effects that copy something of the foe, or that use another move.
ghost use Rattle.std.specs.Prelude.{◌≡◌, ◌≤◌, ◌<◌, ◌+◌, ℕ, IfSome};
ghost use Rattle.arrayvec.specs.ArrayVec.{array_vec_len};
ghost use Rattle.ps_mon.specs.Facts.{AreFair, figures};
ghost use Rattle.ps_mon.specs.Known.{AreKnown};
ghost use Rattle.ps_mon.specs.Moves.{IsNamed, move_count, move_of};
ghost use Rattle.ps_mon.specs.Keeping.{Keeps, StillStands};
ghost use Rattle.ps_mon.specs.Valid.{IsSound, IsValid};
ghost use Rattle.ps_hits.specs.Courses.{course};
ghost use Rattle.ps_copy.specs.Calling.{calls_of, calls_left};
ghost use Rattle.ps_copy.specs.Copies.{called, copied};

use crate::calling::{metronome, mirrormove};
use crate::disabling::disable;
use crate::learning::{conversion, mimic, transform};
use ps_event::event::Events;
use ps_mon::effect::CopyKind;
use ps_mon::facts::Facts;
use ps_mon::record::Battle;

/// A side, 0 or 1, uses the move `mv`, which copies in the way of `sub`, by a slot, from 0 to 3. The answer is the move that is to be used
/// in its place. Metronome and Mirror Move alone have one: they tell nothing then, and Fail where there is none. One call leads to at most
/// two more, since an answer of Metronome isn't Metronome, and one of Mirror Move is neither of the two.
#[tactic(auto, unfolding(crate::specs::Copies::called, crate::specs::Copies::copied))]
pub fn copy(
    battle: &mut Battle,
    facts: Facts<'_>,
    user: u8,
    mv: u16,
    sub: CopyKind,
    slot: u8,
    out: &mut Events,
) -> Option<u16>
    requires sound { IsSound battle.old }
    requires fair { AreFair (figures facts) }
    requires user { user < 2 }
    requires slot { slot < 4 }
    requires room { array_vec_len out.old + 20 ≤ 160 }
    ensures value { result ≡ called sub (figures facts.entry) mv user (course battle.old out.old) }
    ensures effect { course battle.new out.new ≡ copied sub (figures facts.entry) mv slot user (course battle.old out.old) }
    ensures sound { IsSound battle.new }
    ensures whole { IsValid battle.old → StillStands battle.old battle.new → IsValid battle.new }
    ensures known { (moves : ℕ) → AreKnown moves battle.old → AreKnown moves battle.new }
    ensures kept { Keeps user battle.old battle.new }
    ensures named { AreKnown (move_count (figures facts.entry)) battle.old → IfSome result (IsNamed (move_count (figures facts.entry))) }
    ensures ends { IfSome result (λ m. calls_left (move_of (figures facts.entry) m).effect < calls_of sub) }
    ensures few { IfSome result (λ m. array_vec_len out.new ≤ array_vec_len out.old) }
    ensures room { array_vec_len out.new ≤ array_vec_len out.old + 20 }
{
    match sub {
        CopyKind::Mimic => mimic(battle, facts, user, mv, slot, out),
        CopyKind::Transform => transform(battle, user, out),
        CopyKind::Metronome => return metronome(battle, facts, user, out),
        CopyKind::MirrorMove => return mirrormove(battle, facts, user, out),
        CopyKind::Conversion => conversion(battle, user, out),
        CopyKind::Disable => disable(battle, facts, user, mv, out),
    }
    None
}
