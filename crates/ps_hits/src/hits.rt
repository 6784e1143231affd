//! Effects that are a strike, and one after which the user faints.
ghost use Rattle.std.specs.Prelude.{◌≡◌, ◌≤◌, ◌<◌, ◌+◌, ℕ};
ghost use Rattle.arrayvec.specs.ArrayVec.{array_vec_len};
ghost use Rattle.ps_mon.specs.Facts.{AreFair, figures};
ghost use Rattle.ps_mon.specs.Known.{AreKnown};
ghost use Rattle.ps_mon.specs.Moves.{IsNamed, move_of};
ghost use Rattle.ps_mon.specs.Keeping.{Keeps, StillStands};
ghost use Rattle.ps_mon.specs.Valid.{IsSound, IsValid};
ghost use Rattle.ps_mon.specs.Duels.{IsFit, IsDuelKnown};
ghost use Rattle.ps_hits.specs.Scenes.{scene};
ghost use Rattle.ps_hits.specs.Courses.{played, course};
ghost use Rattle.ps_hits.specs.Hits.{plain_row, explode_row};

use crate::scene::who;
use crate::strike::strike_foe_with;
use ps_event::event::{Event, Events};
use ps_mon::duel::Duel;
use ps_mon::facts::Facts;
use ps_mon::record::Battle;

#[tactic(auto, unfolding(crate::specs::Hits::plain_row))]
fn plain_duel(duel: &mut Duel, facts: Facts<'_>, mv: u16, out: &mut Events)
    requires fit { IsFit duel.old }
    requires fair { AreFair (figures facts) }
    requires room { array_vec_len out.old + 6 ≤ 160 }
    ensures after { scene duel.new out.new ≡ (plain_row (figures facts.entry) mv (scene duel.old out.old)).1 }
    ensures fit { IsFit duel.new }
    ensures known { (moves : ℕ) → IsNamed moves mv → IsDuelKnown moves duel.old → IsDuelKnown moves duel.new }
    ensures room { array_vec_len out.new ≤ array_vec_len out.old + 6 }
{
    let _ = strike_foe_with(duel, facts, mv, false, out);
}

/// A strike.
pub fn plain(battle: &mut Battle, facts: Facts<'_>, user: u8, mv: u16, out: &mut Events)
    requires sound { IsSound battle.old }
    requires fair { AreFair (figures facts) }
    requires user { user < 2 }
    requires room { array_vec_len out.old + 20 ≤ 160 }
    ensures effect { course battle.new out.new ≡ played (plain_row (figures facts.entry) mv) user (course battle.old out.old) }
    ensures sound { IsSound battle.new }
    ensures whole { IsValid battle.old → StillStands battle.old battle.new → IsValid battle.new }
    ensures known { (moves : ℕ) → IsNamed moves mv → AreKnown moves battle.old → AreKnown moves battle.new }
    ensures kept { Keeps user battle.old battle.new }
    ensures room { array_vec_len out.new ≤ array_vec_len out.old + 20 }
{
    let mut duel = battle.duel(user);
    plain_duel(&mut duel, facts, mv, out);
    battle.put(user, &duel);
}

#[tactic(auto, unfolding(crate::specs::Hits::explode_row))]
fn explode_duel(duel: &mut Duel, facts: Facts<'_>, mv: u16, out: &mut Events)
    requires fit { IsFit duel.old }
    requires fair { AreFair (figures facts) }
    requires room { array_vec_len out.old + 7 ≤ 160 }
    ensures after { scene duel.new out.new ≡ (explode_row (figures facts.entry) mv (scene duel.old out.old)).1 }
    ensures fit { IsFit duel.new }
    ensures known { (moves : ℕ) → IsNamed moves mv → IsDuelKnown moves duel.old → IsDuelKnown moves duel.new }
    ensures room { array_vec_len out.new ≤ array_vec_len out.old + 7 }
{
    let _ = strike_foe_with(duel, facts, mv, true, out);
    duel.user.hp = 0;
    out.push(Event::Faint {
        who: who(&duel.user),
    });
}

/// A strike against half the defence, after which the user faints, whatever came of it.
pub fn explode(battle: &mut Battle, facts: Facts<'_>, user: u8, mv: u16, out: &mut Events)
    requires sound { IsSound battle.old }
    requires fair { AreFair (figures facts) }
    requires user { user < 2 }
    requires room { array_vec_len out.old + 20 ≤ 160 }
    ensures effect { course battle.new out.new ≡ played (explode_row (figures facts.entry) mv) user (course battle.old out.old) }
    ensures sound { IsSound battle.new }
    ensures whole { IsValid battle.old → StillStands battle.old battle.new → IsValid battle.new }
    ensures known { (moves : ℕ) → IsNamed moves mv → AreKnown moves battle.old → AreKnown moves battle.new }
    ensures kept { Keeps user battle.old battle.new }
    ensures room { array_vec_len out.new ≤ array_vec_len out.old + 20 }
{
    let mut duel = battle.duel(user);
    explode_duel(&mut duel, facts, mv, out);
    battle.put(user, &duel);
}
