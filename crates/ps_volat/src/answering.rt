//! What the foe gets: a seed, or its blow back; and a move that does nothing.
ghost use Rattle.std.specs.Prelude.{◌≡◌, ◌≤◌, ◌<◌, ◌+◌, ◌*◌, ℕ, IfSome};
ghost use Rattle.arrayvec.specs.ArrayVec.{array_vec_len};
ghost use Rattle.ps_mon.specs.Facts.{AreFair, figures};
ghost use Rattle.ps_mon.specs.Known.{AreKnown};
ghost use Rattle.ps_mon.specs.Moves.{IsNamed, move_of};
ghost use Rattle.ps_mon.specs.Keeping.{Keeps, StillStands};
ghost use Rattle.ps_mon.specs.Valid.{IsSound, IsValid};
ghost use Rattle.ps_mon.specs.Duels.{IsFit, IsDuelKnown};
ghost use Rattle.ps_hits.specs.Scenes.{scene};
ghost use Rattle.ps_hits.specs.Courses.{played, course};
ghost use Rattle.ps_volat.specs.Answering.{leechseed_row, answer_to, answered, deal_answer, counter_row, nothing_row};

use ps_event::event::{Event, Events};
use ps_event::numbers::{EFFECT_LEECH_SEED, EFFECT_MOVE};
use ps_hits::fighters::has_type;
use ps_hits::scene::who;
use ps_hits::strike::{deal_out, lands};
use ps_mon::duel::Duel;
use ps_mon::facts::Facts;
use ps_mon::moves::move_data;
use ps_mon::record::{Battle, Taken};

#[tactic(auto, unfolding(crate::specs::Answering::leechseed_row))]
fn leechseed_duel(duel: &mut Duel, facts: Facts<'_>, mv: u16, out: &mut Events)
    requires fit { IsFit duel.old }
    requires fair { AreFair (figures facts) }
    requires room { array_vec_len out.old + 2 ≤ 160 }
    ensures after { scene duel.new out.new ≡ (leechseed_row (figures facts.entry) mv (scene duel.old out.old)).1 }
    ensures fit { IsFit duel.new }
    ensures known { (moves : ℕ) → IsDuelKnown moves duel.old → IsDuelKnown moves duel.new }
    ensures room { array_vec_len out.new ≤ array_vec_len out.old + 2 }
{
    let used = move_data(facts, mv);
    if !lands(duel, used.accuracy, out) {
        return;
    }
    if duel.foe.vol.seeded || has_type(&duel.foe, used.kind) {
        out.push(Event::Fail {
            who: who(&duel.user),
        });
        return;
    }
    duel.foe.vol.seeded = true;
    out.push(Event::VolStart {
        who: who(&duel.foe),
        effect: EFFECT_LEECH_SEED,
        mv: None,
    });
}

/// Seeds the foe, after an accuracy test; fails where it is seeded or has the move's type.
pub fn leechseed(battle: &mut Battle, facts: Facts<'_>, user: u8, mv: u16, out: &mut Events)
    requires sound { IsSound battle.old }
    requires fair { AreFair (figures facts) }
    requires user { user < 2 }
    requires room { array_vec_len out.old + 20 ≤ 160 }
    ensures effect { course battle.new out.new ≡ played (leechseed_row (figures facts.entry) mv) user (course battle.old out.old) }
    ensures sound { IsSound battle.new }
    ensures whole { IsValid battle.old → StillStands battle.old battle.new → IsValid battle.new }
    ensures known { (moves : ℕ) → IsNamed moves mv → AreKnown moves battle.old → AreKnown moves battle.new }
    ensures kept { Keeps user battle.old battle.new }
    ensures room { array_vec_len out.new ≤ array_vec_len out.old + 20 }
{
    let mut duel = battle.duel(user);
    leechseed_duel(&mut duel, facts, mv, out);
    battle.put(user, &duel);
}

fn answer(facts: Facts<'_>, taken: Option<Taken>) -> Option<u16>
    requires fair { AreFair (figures facts) }
    requires taken { IfSome taken (λ t. t.damage ≤ 713) }
    ensures { result ≡ answered (figures facts.entry) taken }
{
    let taken = taken?;
    if move_data(facts, taken.mv).contact {
        Some(2 * taken.damage)
    } else {
        None
    }
}

#[tactic(auto, unfolding(crate::specs::Answering::counter_row))]
fn counter_duel(duel: &mut Duel, facts: Facts<'_>, mv: u16, out: &mut Events)
    requires fit { IsFit duel.old }
    requires fair { AreFair (figures facts) }
    requires room { array_vec_len out.old + 3 ≤ 160 }
    ensures after { scene duel.new out.new ≡ (counter_row (figures facts.entry) mv (scene duel.old out.old)).1 }
    ensures fit { IsFit duel.new }
    ensures known { (moves : ℕ) → IsNamed moves mv → IsDuelKnown moves duel.old → IsDuelKnown moves duel.new }
    ensures room { array_vec_len out.new ≤ array_vec_len out.old + 3 }
{
    match answer(facts, duel.user.vol.taken) {
        None => out.push(Event::Fail {
            who: who(&duel.user),
        }),
        Some(amount) => {
            let _ = deal_out(duel, mv, amount, out);
        }
    }
}

/// Takes twice the damage that the user took last in this turn, where a move of type `normal` or `fighting` did it; else it fails.
pub fn counter(battle: &mut Battle, facts: Facts<'_>, user: u8, mv: u16, out: &mut Events)
    requires sound { IsSound battle.old }
    requires fair { AreFair (figures facts) }
    requires user { user < 2 }
    requires room { array_vec_len out.old + 20 ≤ 160 }
    ensures effect { course battle.new out.new ≡ played (counter_row (figures facts.entry) mv) user (course battle.old out.old) }
    ensures sound { IsSound battle.new }
    ensures whole { IsValid battle.old → StillStands battle.old battle.new → IsValid battle.new }
    ensures known { (moves : ℕ) → IsNamed moves mv → AreKnown moves battle.old → AreKnown moves battle.new }
    ensures kept { Keeps user battle.old battle.new }
    ensures room { array_vec_len out.new ≤ array_vec_len out.old + 20 }
{
    let mut duel = battle.duel(user);
    counter_duel(&mut duel, facts, mv, out);
    battle.put(user, &duel);
}

#[tactic(auto, unfolding(crate::specs::Answering::nothing_row))]
fn nothing_duel(duel: &mut Duel, mv: u16, out: &mut Events)
    requires fit { IsFit duel.old }
    requires room { array_vec_len out.old + 1 ≤ 160 }
    ensures after { scene duel.new out.new ≡ (nothing_row mv (scene duel.old out.old)).1 }
    ensures fit { IsFit duel.new }
    ensures known { (moves : ℕ) → IsDuelKnown moves duel.old → IsDuelKnown moves duel.new }
    ensures room { array_vec_len out.new ≤ array_vec_len out.old + 1 }
{
    out.push(Event::Activate {
        who: who(&duel.user),
        effect: EFFECT_MOVE,
        mv: Some(mv),
    });
}

/// Does nothing, and tells the name of the move.
pub fn nothing(battle: &mut Battle, _facts: Facts<'_>, user: u8, mv: u16, out: &mut Events)
    requires sound { IsSound battle.old }
    requires fair { AreFair (figures _facts) }
    requires user { user < 2 }
    requires room { array_vec_len out.old + 20 ≤ 160 }
    ensures effect { course battle.new out.new ≡ played (nothing_row mv) user (course battle.old out.old) }
    ensures sound { IsSound battle.new }
    ensures whole { IsValid battle.old → StillStands battle.old battle.new → IsValid battle.new }
    ensures known { (moves : ℕ) → IsNamed moves mv → AreKnown moves battle.old → AreKnown moves battle.new }
    ensures kept { Keeps user battle.old battle.new }
    ensures room { array_vec_len out.new ≤ array_vec_len out.old + 20 }
{
    let mut duel = battle.duel(user);
    nothing_duel(&mut duel, mv, out);
    battle.put(user, &duel);
}
