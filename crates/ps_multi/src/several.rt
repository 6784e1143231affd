//! Moves that hit several times.
ghost use Rattle.std.specs.Prelude.{◌≡◌, ◌≤◌, ◌<◌, ◌+◌, ◌*◌, ℕ};
ghost use Rattle.arrayvec.specs.ArrayVec.{array_vec_len};
ghost use Rattle.ps_mon.specs.Facts.{AreFair, figures};
ghost use Rattle.ps_mon.specs.Known.{AreKnown};
ghost use Rattle.ps_mon.specs.Moves.{IsNamed, move_of};
ghost use Rattle.ps_mon.specs.Keeping.{Keeps, StillStands};
ghost use Rattle.ps_mon.specs.Valid.{IsSound, IsValid};
ghost use Rattle.ps_mon.specs.Duels.{IsFit, IsDuelKnown};
ghost use Rattle.ps_hits.specs.Scenes.{scene};
ghost use Rattle.ps_hits.specs.Courses.{played, course};
ghost use Rattle.ps_multi.specs.Several.{hits_by, is_last, further_hits, hits_in_all, multi_after, multi_row, double_after};
ghost use Rattle.ps_multi.specs.Several.{double_row, double_effect};

use ps_event::event::{Event, Events};
use ps_hits::scene::{draw, who};
use ps_hits::strike::{Dealt, Struck, deal_out, strike_foe_with};
use ps_mon::duel::Duel;
use ps_mon::effect::Effect;
use ps_mon::facts::Facts;
use ps_mon::moves::move_data;
use ps_mon::record::Battle;
use ps_mon::status::Status;
use ps_status::afflicting::try_second;
use ps_status::seconds::comes;

pub(crate) fn hit_number(drawn: u32) -> u8
    requires { drawn < 8 }
    ensures value { result ≡ hits_by drawn }
    ensures low { 2 ≤ result }
    ensures high { result ≤ 5 }
{
    match drawn {
        0 | 1 | 2 => 2,
        3 | 4 | 5 => 3,
        6 => 4,
        _ => 5,
    }
}

fn ends(dealt: Dealt, duel: &Duel) -> bool
    ensures { result ≡ is_last dealt duel.now }
{
    dealt.ended || duel.foe.hp == 0
}

#[tactic(auto, using(crate::proofs::HitLemmas::none, crate::proofs::HitLemmas::stop, crate::proofs::HitLemmas::goes_on))]
fn hit_again(duel: &mut Duel, left: u8, mv: u16, dealt: Dealt, out: &mut Events) -> u8
    requires fit { IsFit duel.old }
    requires left { left ≤ 4 }
    requires room { array_vec_len out.old + 3 * left ≤ 160 }
    ensures value { result ≡ (further_hits left mv dealt (scene duel.old out.old)).0 }
    ensures after { scene duel.new out.new ≡ (further_hits left mv dealt (scene duel.old out.old)).1 }
    ensures fit { IsFit duel.new }
    ensures known { (moves : ℕ) → IsNamed moves mv → IsDuelKnown moves duel.old → IsDuelKnown moves duel.new }
    ensures few { result ≤ left }
    ensures room { array_vec_len out.new ≤ array_vec_len out.old + 3 * left }
{
    if left == 0 {
        return 0;
    }
    if ends(dealt, duel) {
        return 0;
    }
    let again = deal_out(duel, mv, dealt.damage, out);
    1 + hit_again(duel, left - 1, mv, again, out)
}

#[tactic(auto, unfolding(crate::specs::Several::hits_in_all))]
fn hit_in_all(duel: &mut Duel, hits: u8, mv: u16, first: Dealt, out: &mut Events)
    requires fit { IsFit duel.old }
    requires low { 1 ≤ hits }
    requires high { hits ≤ 5 }
    requires room { array_vec_len out.old + 13 ≤ 160 }
    ensures after { scene duel.new out.new ≡ (hits_in_all hits mv first (scene duel.old out.old)).1 }
    ensures fit { IsFit duel.new }
    ensures known { (moves : ℕ) → IsNamed moves mv → IsDuelKnown moves duel.old → IsDuelKnown moves duel.new }
    ensures room { array_vec_len out.new ≤ array_vec_len out.old + 13 }
{
    let more = hit_again(duel, hits - 1, mv, first, out);
    out.push(Event::HitCount {
        who: who(&duel.foe),
        hits: 1 + more,
    });
}

#[tactic(auto, unfolding(crate::specs::Several::multi_after))]
fn hit_by_draw(duel: &mut Duel, mv: u16, struck: Struck, out: &mut Events)
    requires fit { IsFit duel.old }
    requires room { array_vec_len out.old + 13 ≤ 160 }
    ensures after { scene duel.new out.new ≡ (multi_after mv struck (scene duel.old out.old)).1 }
    ensures fit { IsFit duel.new }
    ensures known { (moves : ℕ) → IsNamed moves mv → IsDuelKnown moves duel.old → IsDuelKnown moves duel.new }
    ensures room { array_vec_len out.new ≤ array_vec_len out.old + 13 }
{
    if let Struck::Hit(dealt) = struck {
        let hits = hit_number(draw(duel, 8));
        hit_in_all(duel, hits, mv, dealt, out);
    }
}

#[tactic(auto, unfolding(crate::specs::Several::multi_row))]
fn multi_duel(duel: &mut Duel, facts: Facts<'_>, mv: u16, out: &mut Events)
    requires fit { IsFit duel.old }
    requires fair { AreFair (figures facts) }
    requires room { array_vec_len out.old + 19 ≤ 160 }
    ensures after { scene duel.new out.new ≡ (multi_row (figures facts.entry) mv (scene duel.old out.old)).1 }
    ensures fit { IsFit duel.new }
    ensures known { (moves : ℕ) → IsNamed moves mv → IsDuelKnown moves duel.old → IsDuelKnown moves duel.new }
    ensures room { array_vec_len out.new ≤ array_vec_len out.old + 19 }
{
    let struck = strike_foe_with(duel, facts, mv, false, out);
    hit_by_draw(duel, mv, struck, out);
}

/// A strike; where it hits, its damage is dealt again until there were two to five hits, the foe faints or its substitute ends.
pub fn multi(battle: &mut Battle, facts: Facts<'_>, user: u8, mv: u16, out: &mut Events)
    requires sound { IsSound battle.old }
    requires fair { AreFair (figures facts) }
    requires user { user < 2 }
    requires room { array_vec_len out.old + 20 ≤ 160 }
    ensures effect { course battle.new out.new ≡ played (multi_row (figures facts.entry) mv) user (course battle.old out.old) }
    ensures sound { IsSound battle.new }
    ensures whole { IsValid battle.old → StillStands battle.old battle.new → IsValid battle.new }
    ensures known { (moves : ℕ) → IsNamed moves mv → AreKnown moves battle.old → AreKnown moves battle.new }
    ensures kept { Keeps user battle.old battle.new }
    ensures room { array_vec_len out.new ≤ array_vec_len out.old + 20 }
{
    let mut duel = battle.duel(user);
    multi_duel(&mut duel, facts, mv, out);
    battle.put(user, &duel);
}

#[tactic(auto, unfolding(crate::specs::Several::double_after))]
fn hit_twice(duel: &mut Duel, mv: u16, struck: Struck, out: &mut Events)
    requires fit { IsFit duel.old }
    requires room { array_vec_len out.old + 13 ≤ 160 }
    ensures after { scene duel.new out.new ≡ (double_after mv struck (scene duel.old out.old)).1 }
    ensures fit { IsFit duel.new }
    ensures known { (moves : ℕ) → IsNamed moves mv → IsDuelKnown moves duel.old → IsDuelKnown moves duel.new }
    ensures room { array_vec_len out.new ≤ array_vec_len out.old + 13 }
{
    if let Struck::Hit(dealt) = struck {
        hit_in_all(duel, 2, mv, dealt, out);
    }
}

#[tactic(auto, unfolding(crate::specs::Several::double_row))]
fn double_duel(
    duel: &mut Duel,
    status: Status,
    chance: u16,
    facts: Facts<'_>,
    mv: u16,
    out: &mut Events,
)
    requires fit { IsFit duel.old }
    requires fair { AreFair (figures facts) }
    requires room { array_vec_len out.old + 20 ≤ 160 }
    ensures after { scene duel.new out.new ≡ (double_row status chance (figures facts.entry) mv (scene duel.old out.old)).1 }
    ensures fit { IsFit duel.new }
    ensures known { (moves : ℕ) → IsNamed moves mv → IsDuelKnown moves duel.old → IsDuelKnown moves duel.new }
    ensures room { array_vec_len out.new ≤ array_vec_len out.old + 20 }
{
    let struck = strike_foe_with(duel, facts, mv, false, out);
    hit_twice(duel, mv, struck, out);
    if !comes(duel, struck, chance) {
        return;
    }
    try_second(duel, status, &move_data(facts, mv), out);
}

/// The same with two hits, and then a status as its secondary. A move of another kind does nothing.
pub fn double(battle: &mut Battle, facts: Facts<'_>, user: u8, mv: u16, out: &mut Events)
    requires sound { IsSound battle.old }
    requires fair { AreFair (figures facts) }
    requires user { user < 2 }
    requires room { array_vec_len out.old + 20 ≤ 160 }
    ensures effect { course battle.new out.new
        ≡ played (double_effect (move_of (figures facts.entry) mv).effect (figures facts.entry) mv) user (course battle.old out.old) }
    ensures sound { IsSound battle.new }
    ensures whole { IsValid battle.old → StillStands battle.old battle.new → IsValid battle.new }
    ensures known { (moves : ℕ) → IsNamed moves mv → AreKnown moves battle.old → AreKnown moves battle.new }
    ensures kept { Keeps user battle.old battle.new }
    ensures room { array_vec_len out.new ≤ array_vec_len out.old + 20 }
{
    let mut duel = battle.duel(user);
    if let Effect::Double { status, chance } = move_data(facts, mv).effect {
        double_duel(&mut duel, status, chance, facts, mv, out);
    }
    battle.put(user, &duel);
}
