//! Haze, and the end of a status.
ghost use Rattle.std.specs.Prelude.{◌≡◌, ◌≤◌, ◌<◌, ◌+◌, ℕ};
ghost use Rattle.arrayvec.specs.ArrayVec.{array_vec_len};
ghost use Rattle.ps_mon.specs.Facts.{AreFair, figures};
ghost use Rattle.ps_mon.specs.Known.{AreKnown};
ghost use Rattle.ps_mon.specs.Moves.{IsNamed, move_of};
ghost use Rattle.ps_mon.specs.Keeping.{Keeps, StillStands};
ghost use Rattle.ps_mon.specs.Valid.{IsSound, IsValid};
ghost use Rattle.ps_mon.specs.Duels.{IsFit, IsDuelKnown};
ghost use Rattle.ps_hits.specs.Scenes.{scene};
ghost use Rattle.ps_hits.specs.Courses.{played, course};
ghost use Rattle.ps_mon.specs.Duels.{IsFighter};
ghost use Rattle.ps_mon.specs.Known.{AreNamed};
ghost use Rattle.ps_status.specs.Clearing.{cured, cleared, cure_foe, haze_row};
ghost use Rattle.ps_mon.specs.Switching.{milder};

use ps_event::event::{Event, Events};
use ps_hits::scene::{number_of, who};
use ps_mon::duel::{Duel, Fighter};
use ps_mon::facts::Facts;
use ps_mon::opening::CALM;
use ps_mon::record::Battle;
use ps_mon::status::Status;

/// A fighter without its status, and without what counted it.
#[tactic(auto, unfolding(crate::specs::Clearing::cured))]
pub fn without_status(f: &Fighter) -> Fighter
    requires { IsFighter f.now }
    ensures value { result ≡ cured f.now }
    ensures fit { IsFighter result }
    ensures known { (moves : ℕ) → AreNamed moves f.now.vol → AreNamed moves result.vol }
{
    let mut after = *f;
    after.status = Status::Healthy;
    after.counter = 0;
    after.rested = false;
    after
}

#[tactic(auto, unfolding(crate::specs::Clearing::cleared))]
fn clear(f: &Fighter) -> Fighter
    requires { IsFighter f.now }
    ensures value { result ≡ cleared f.now }
    ensures fit { IsFighter result }
    ensures known { (moves : ℕ) → AreNamed moves f.now.vol → AreNamed moves result.vol }
{
    let mut after = *f;
    after.vol.stages = CALM.stages;
    after.vol.confusion = 0;
    after.vol.seeded = false;
    after.vol.reflect = false;
    after.vol.light = false;
    after.vol.mist = false;
    after.vol.focus = false;
    after.vol.disabled = None;
    after
}

#[tactic(auto, unfolding(crate::specs::Clearing::cure_foe))]
fn cure(duel: &mut Duel, out: &mut Events)
    requires fit { IsFit duel.old }
    requires room { array_vec_len out.old + 1 ≤ 160 }
    ensures after { scene duel.new out.new ≡ (cure_foe (scene duel.old out.old)).1 }
    ensures fit { IsFit duel.new }
    ensures known { (moves : ℕ) → IsDuelKnown moves duel.old → IsDuelKnown moves duel.new }
    ensures room { array_vec_len out.new ≤ array_vec_len out.old + 1 }
{
    let foe = duel.foe;
    if foe.status == Status::Healthy {
        return;
    }
    duel.foe = without_status(&foe);
    out.push(Event::CureStatus {
        who: who(&foe),
        status: number_of(foe.status),
    });
}

fn milder_status(status: Status) -> Status
    ensures { result ≡ milder status }
{
    match status {
        Status::Tox => Status::Psn,
        other => other,
    }
}

#[tactic(auto, unfolding(crate::specs::Clearing::haze_row))]
fn haze_duel(duel: &mut Duel, out: &mut Events)
    requires fit { IsFit duel.old }
    requires room { array_vec_len out.old + 2 ≤ 160 }
    ensures after { scene duel.new out.new ≡ (haze_row (scene duel.old out.old)).1 }
    ensures fit { IsFit duel.new }
    ensures known { (moves : ℕ) → IsDuelKnown moves duel.old → IsDuelKnown moves duel.new }
    ensures room { array_vec_len out.new ≤ array_vec_len out.old + 2 }
{
    out.push(Event::ClearAll);
    duel.user = clear(&duel.user);
    duel.foe = clear(&duel.foe);
    cure(duel, out);
    duel.user.status = milder_status(duel.user.status);
}

/// Both members lose their stages, confusion, seed, screens, Mist, Focus Energy and disabled slot; the foe's status ends, and the
/// user's bad poison becomes a plain one.
pub fn haze(battle: &mut Battle, _facts: Facts<'_>, user: u8, mv: u16, out: &mut Events)
    requires sound { IsSound battle.old }
    requires fair { AreFair (figures _facts) }
    requires user { user < 2 }
    requires room { array_vec_len out.old + 20 ≤ 160 }
    ensures effect { course battle.new out.new ≡ played haze_row user (course battle.old out.old) }
    ensures sound { IsSound battle.new }
    ensures whole { IsValid battle.old → StillStands battle.old battle.new → IsValid battle.new }
    ensures known { (moves : ℕ) → IsNamed moves mv → AreKnown moves battle.old → AreKnown moves battle.new }
    ensures kept { Keeps user battle.old battle.new }
    ensures room { array_vec_len out.new ≤ array_vec_len out.old + 20 }
{
    let mut duel = battle.duel(user);
    haze_duel(&mut duel, out);
    battle.put(user, &duel);
}
