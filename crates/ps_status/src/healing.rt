//! Health for the user, and sleep.
ghost use Rattle.std.specs.Prelude.{◌≡◌, ◌≤◌, ◌<◌, ◌+◌, ℕ};
ghost use Rattle.arrayvec.specs.ArrayVec.{array_vec_len};
ghost use Rattle.ps_mon.specs.Facts.{AreFair, figures};
ghost use Rattle.ps_mon.specs.Known.{AreKnown};
ghost use Rattle.ps_mon.specs.Moves.{IsNamed, move_of};
ghost use Rattle.ps_mon.specs.Keeping.{Keeps, StillStands};
ghost use Rattle.ps_mon.specs.Valid.{IsSound, IsValid};
ghost use Rattle.ps_mon.specs.Duels.{IsFit, IsDuelKnown};
ghost use Rattle.ps_hits.specs.Scenes.{scene};
ghost use Rattle.ps_hits.specs.Courses.{played, course};
ghost use Rattle.ps_status.specs.Healing.{heal_row, rest_row};

use ps_event::event::{Event, Events};
use ps_hits::scene::{number_of, who};
use ps_hits::shares::gain_health;
use ps_mon::duel::Duel;
use ps_mon::facts::Facts;
use ps_mon::record::Battle;
use ps_mon::status::Status;

#[tactic(auto, unfolding(crate::specs::Healing::heal_row))]
fn heal_duel(duel: &mut Duel, out: &mut Events)
    requires fit { IsFit duel.old }
    requires room { array_vec_len out.old + 1 ≤ 160 }
    ensures after { scene duel.new out.new ≡ (heal_row (scene duel.old out.old)).1 }
    ensures fit { IsFit duel.new }
    ensures known { (moves : ℕ) → IsDuelKnown moves duel.old → IsDuelKnown moves duel.new }
    ensures room { array_vec_len out.new ≤ array_vec_len out.old + 1 }
{
    if duel.user.hp == duel.user.max {
        out.push(Event::Fail {
            who: who(&duel.user),
        });
        return;
    }
    let n = duel.user.max / 2;
    gain_health(duel, n, out);
}

/// The user gains half of its greatest health; at full health it fails.
pub fn heal(battle: &mut Battle, _facts: Facts<'_>, user: u8, mv: u16, out: &mut Events)
    requires sound { IsSound battle.old }
    requires fair { AreFair (figures _facts) }
    requires user { user < 2 }
    requires room { array_vec_len out.old + 20 ≤ 160 }
    ensures effect { course battle.new out.new ≡ played heal_row user (course battle.old out.old) }
    ensures sound { IsSound battle.new }
    ensures whole { IsValid battle.old → StillStands battle.old battle.new → IsValid battle.new }
    ensures known { (moves : ℕ) → IsNamed moves mv → AreKnown moves battle.old → AreKnown moves battle.new }
    ensures kept { Keeps user battle.old battle.new }
    ensures room { array_vec_len out.new ≤ array_vec_len out.old + 20 }
{
    let mut duel = battle.duel(user);
    heal_duel(&mut duel, out);
    battle.put(user, &duel);
}

#[tactic(auto, unfolding(crate::specs::Healing::rest_row))]
fn rest_duel(duel: &mut Duel, out: &mut Events)
    requires fit { IsFit duel.old }
    requires room { array_vec_len out.old + 2 ≤ 160 }
    ensures after { scene duel.new out.new ≡ (rest_row (scene duel.old out.old)).1 }
    ensures fit { IsFit duel.new }
    ensures known { (moves : ℕ) → IsDuelKnown moves duel.old → IsDuelKnown moves duel.new }
    ensures room { array_vec_len out.new ≤ array_vec_len out.old + 2 }
{
    if duel.user.hp == duel.user.max {
        out.push(Event::Fail {
            who: who(&duel.user),
        });
        return;
    }
    duel.user.status = Status::Slp;
    duel.user.counter = 2;
    duel.user.rested = true;
    out.push(Event::Status {
        who: who(&duel.user),
        status: number_of(Status::Slp),
    });
    let all = duel.user.max;
    gain_health(duel, all, out);
}

/// The user sleeps for 2 acts, whatever status it had, and gains all of its health; at full health it fails.
pub fn rest(battle: &mut Battle, _facts: Facts<'_>, user: u8, mv: u16, out: &mut Events)
    requires sound { IsSound battle.old }
    requires fair { AreFair (figures _facts) }
    requires user { user < 2 }
    requires room { array_vec_len out.old + 20 ≤ 160 }
    ensures effect { course battle.new out.new ≡ played rest_row user (course battle.old out.old) }
    ensures sound { IsSound battle.new }
    ensures whole { IsValid battle.old → StillStands battle.old battle.new → IsValid battle.new }
    ensures known { (moves : ℕ) → IsNamed moves mv → AreKnown moves battle.old → AreKnown moves battle.new }
    ensures kept { Keeps user battle.old battle.new }
    ensures room { array_vec_len out.new ≤ array_vec_len out.old + 20 }
{
    let mut duel = battle.duel(user);
    rest_duel(&mut duel, out);
    battle.put(user, &duel);
}
