//! What the user puts before itself: a substitute, screens, Mist and Focus Energy.
ghost use Rattle.std.specs.Prelude.{◌≡◌, ◌≤◌, ◌<◌, ◌+◌, ℕ, false};
ghost use Rattle.arrayvec.specs.ArrayVec.{array_vec_len};
ghost use Rattle.ps_mon.specs.Facts.{AreFair, figures};
ghost use Rattle.ps_mon.specs.Known.{AreKnown};
ghost use Rattle.ps_mon.specs.Moves.{IsNamed, move_of};
ghost use Rattle.ps_mon.specs.Keeping.{Keeps, StillStands};
ghost use Rattle.ps_mon.specs.Valid.{IsSound, IsValid};
ghost use Rattle.ps_mon.specs.Duels.{IsFit, IsDuelKnown};
ghost use Rattle.ps_hits.specs.Scenes.{scene};
ghost use Rattle.ps_hits.specs.Courses.{played, course};
ghost use Rattle.ps_mon.specs.Duels.{IsFighter};
ghost use Rattle.ps_mon.specs.Known.{AreNamed};
ghost use Rattle.ps_volat.specs.Covering.{screen_number, cost_of, cannot_make_one, with_substitute, substitute_row, has_screen};
ghost use Rattle.ps_volat.specs.Covering.{with_screen, screen_row, mist_row, focus_row, screen_effect};

use ps_event::event::{Event, Events};
use ps_event::numbers::{
    EFFECT_FOCUS_ENERGY, EFFECT_LIGHT_SCREEN, EFFECT_MIST, EFFECT_REFLECT, EFFECT_SUBSTITUTE,
};
use ps_hits::scene::who;
use ps_mon::duel::{Duel, Fighter};
use ps_mon::effect::{Effect, ScreenKind};
use ps_mon::facts::Facts;
use ps_mon::moves::move_data;
use ps_mon::record::Battle;

#[tactic(auto, unfolding(crate::specs::Covering::with_substitute))]
fn behind_substitute(f: &Fighter) -> Fighter
    requires fit { IsFighter f.now }
    requires hp { cost_of f.now ≤ f.now.hp }
    ensures value { result ≡ with_substitute f.now }
    ensures fit { IsFighter result }
    ensures known { (moves : ℕ) → AreNamed moves f.now.vol → AreNamed moves result.vol }
{
    let cost = f.max / 4;
    let mut after = *f;
    after.hp -= cost;
    after.vol.substitute = cost + 1;
    after
}

#[tactic(auto, unfolding(crate::specs::Covering::cannot_make_one))]
fn lacks_means(f: &Fighter) -> bool
    ensures value { result ≡ cannot_make_one f.now }
    ensures rest { result ≡ false → cost_of f.now ≤ f.now.hp }
{
    f.vol.substitute > 0 || f.hp <= f.max / 4
}

#[tactic(auto, unfolding(crate::specs::Covering::substitute_row))]
fn substitute_duel(duel: &mut Duel, out: &mut Events)
    requires fit { IsFit duel.old }
    requires room { array_vec_len out.old + 1 ≤ 160 }
    ensures after { scene duel.new out.new ≡ (substitute_row (scene duel.old out.old)).1 }
    ensures fit { IsFit duel.new }
    ensures known { (moves : ℕ) → IsDuelKnown moves duel.old → IsDuelKnown moves duel.new }
    ensures room { array_vec_len out.new ≤ array_vec_len out.old + 1 }
{
    if lacks_means(&duel.user) {
        out.push(Event::Fail {
            who: who(&duel.user),
        });
        return;
    }
    let user = duel.user;
    duel.user = behind_substitute(&user);
    out.push(Event::VolStart {
        who: who(&user),
        effect: EFFECT_SUBSTITUTE,
        mv: None,
    });
}

/// A quarter of the user's greatest health, rounded down, becomes a substitute that has 1 more. It fails where the user has one, or
/// has no more health than that.
pub fn substitute(battle: &mut Battle, _facts: Facts<'_>, user: u8, mv: u16, out: &mut Events)
    requires sound { IsSound battle.old }
    requires fair { AreFair (figures _facts) }
    requires user { user < 2 }
    requires room { array_vec_len out.old + 20 ≤ 160 }
    ensures effect { course battle.new out.new ≡ played substitute_row user (course battle.old out.old) }
    ensures sound { IsSound battle.new }
    ensures whole { IsValid battle.old → StillStands battle.old battle.new → IsValid battle.new }
    ensures known { (moves : ℕ) → IsNamed moves mv → AreKnown moves battle.old → AreKnown moves battle.new }
    ensures kept { Keeps user battle.old battle.new }
    ensures room { array_vec_len out.new ≤ array_vec_len out.old + 20 }
{
    let mut duel = battle.duel(user);
    substitute_duel(&mut duel, out);
    battle.put(user, &duel);
}

fn number_of(which: ScreenKind) -> u8
    ensures { result ≡ screen_number which }
{
    match which {
        ScreenKind::Reflect => EFFECT_REFLECT,
        ScreenKind::Light => EFFECT_LIGHT_SCREEN,
    }
}

fn has(f: &Fighter, which: ScreenKind) -> bool
    ensures { result ≡ has_screen which f.now }
{
    match which {
        ScreenKind::Reflect => f.vol.reflect,
        ScreenKind::Light => f.vol.light,
    }
}

fn put_up(f: &Fighter, which: ScreenKind) -> Fighter
    requires { IsFighter f.now }
    ensures value { result ≡ with_screen which f.now }
    ensures fit { IsFighter result }
    ensures known { (moves : ℕ) → AreNamed moves f.now.vol → AreNamed moves result.vol }
{
    let mut after = *f;
    match which {
        ScreenKind::Reflect => after.vol.reflect = true,
        ScreenKind::Light => after.vol.light = true,
    }
    after
}

#[tactic(auto, unfolding(crate::specs::Covering::screen_row))]
fn screen_duel(duel: &mut Duel, which: ScreenKind, out: &mut Events)
    requires fit { IsFit duel.old }
    requires room { array_vec_len out.old + 1 ≤ 160 }
    ensures after { scene duel.new out.new ≡ (screen_row which (scene duel.old out.old)).1 }
    ensures fit { IsFit duel.new }
    ensures known { (moves : ℕ) → IsDuelKnown moves duel.old → IsDuelKnown moves duel.new }
    ensures room { array_vec_len out.new ≤ array_vec_len out.old + 1 }
{
    if has(&duel.user, which) {
        out.push(Event::Fail {
            who: who(&duel.user),
        });
        return;
    }
    duel.user = put_up(&duel.user, which);
    out.push(Event::VolStart {
        who: who(&duel.user),
        effect: number_of(which),
        mv: None,
    });
}

/// Puts up Reflect or Light Screen; fails where it is on. A move of another kind does nothing.
pub fn screen(battle: &mut Battle, facts: Facts<'_>, user: u8, mv: u16, out: &mut Events)
    requires sound { IsSound battle.old }
    requires fair { AreFair (figures facts) }
    requires user { user < 2 }
    requires room { array_vec_len out.old + 20 ≤ 160 }
    ensures effect { course battle.new out.new
        ≡ played (screen_effect (move_of (figures facts.entry) mv).effect) user (course battle.old out.old) }
    ensures sound { IsSound battle.new }
    ensures whole { IsValid battle.old → StillStands battle.old battle.new → IsValid battle.new }
    ensures known { (moves : ℕ) → IsNamed moves mv → AreKnown moves battle.old → AreKnown moves battle.new }
    ensures kept { Keeps user battle.old battle.new }
    ensures room { array_vec_len out.new ≤ array_vec_len out.old + 20 }
{
    let mut duel = battle.duel(user);
    if let Effect::Screen { which } = move_data(facts, mv).effect {
        screen_duel(&mut duel, which, out);
    }
    battle.put(user, &duel);
}

#[tactic(auto, unfolding(crate::specs::Covering::mist_row))]
fn mist_duel(duel: &mut Duel, out: &mut Events)
    requires fit { IsFit duel.old }
    requires room { array_vec_len out.old + 1 ≤ 160 }
    ensures after { scene duel.new out.new ≡ (mist_row (scene duel.old out.old)).1 }
    ensures fit { IsFit duel.new }
    ensures known { (moves : ℕ) → IsDuelKnown moves duel.old → IsDuelKnown moves duel.new }
    ensures room { array_vec_len out.new ≤ array_vec_len out.old + 1 }
{
    if duel.user.vol.mist {
        out.push(Event::Fail {
            who: who(&duel.user),
        });
        return;
    }
    duel.user.vol.mist = true;
    out.push(Event::VolStart {
        who: who(&duel.user),
        effect: EFFECT_MIST,
        mv: None,
    });
}

/// Puts up Mist; fails where it is on.
pub fn mist(battle: &mut Battle, _facts: Facts<'_>, user: u8, mv: u16, out: &mut Events)
    requires sound { IsSound battle.old }
    requires fair { AreFair (figures _facts) }
    requires user { user < 2 }
    requires room { array_vec_len out.old + 20 ≤ 160 }
    ensures effect { course battle.new out.new ≡ played mist_row user (course battle.old out.old) }
    ensures sound { IsSound battle.new }
    ensures whole { IsValid battle.old → StillStands battle.old battle.new → IsValid battle.new }
    ensures known { (moves : ℕ) → IsNamed moves mv → AreKnown moves battle.old → AreKnown moves battle.new }
    ensures kept { Keeps user battle.old battle.new }
    ensures room { array_vec_len out.new ≤ array_vec_len out.old + 20 }
{
    let mut duel = battle.duel(user);
    mist_duel(&mut duel, out);
    battle.put(user, &duel);
}

#[tactic(auto, unfolding(crate::specs::Covering::focus_row))]
fn focus_duel(duel: &mut Duel, out: &mut Events)
    requires fit { IsFit duel.old }
    requires room { array_vec_len out.old + 1 ≤ 160 }
    ensures after { scene duel.new out.new ≡ (focus_row (scene duel.old out.old)).1 }
    ensures fit { IsFit duel.new }
    ensures known { (moves : ℕ) → IsDuelKnown moves duel.old → IsDuelKnown moves duel.new }
    ensures room { array_vec_len out.new ≤ array_vec_len out.old + 1 }
{
    if duel.user.vol.focus {
        out.push(Event::Fail {
            who: who(&duel.user),
        });
        return;
    }
    duel.user.vol.focus = true;
    out.push(Event::VolStart {
        who: who(&duel.user),
        effect: EFFECT_FOCUS_ENERGY,
        mv: None,
    });
}

/// Begins Focus Energy; fails where it is on.
pub fn focus(battle: &mut Battle, _facts: Facts<'_>, user: u8, mv: u16, out: &mut Events)
    requires sound { IsSound battle.old }
    requires fair { AreFair (figures _facts) }
    requires user { user < 2 }
    requires room { array_vec_len out.old + 20 ≤ 160 }
    ensures effect { course battle.new out.new ≡ played focus_row user (course battle.old out.old) }
    ensures sound { IsSound battle.new }
    ensures whole { IsValid battle.old → StillStands battle.old battle.new → IsValid battle.new }
    ensures known { (moves : ℕ) → IsNamed moves mv → AreKnown moves battle.old → AreKnown moves battle.new }
    ensures kept { Keeps user battle.old battle.new }
    ensures room { array_vec_len out.new ≤ array_vec_len out.old + 20 }
{
    let mut duel = battle.duel(user);
    focus_duel(&mut duel, out);
    battle.put(user, &duel);
}
