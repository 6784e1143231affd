//! A strike, step by step.
ghost use Rattle.std.specs.Prelude.{◌≡◌, ◌≤◌, ◌<◌, ◌+◌, ℕ, pos, int_lt, slice_index};
ghost use Rattle.arrayvec.specs.ArrayVec.{array_vec_len};
ghost use Rattle.ps_mon.specs.Facts.{AreFair, figures};
ghost use Rattle.ps_mon.specs.Known.{AreNamed};
ghost use Rattle.ps_mon.specs.Moves.{IsNamed};
ghost use Rattle.ps_mon.specs.Duels.{IsFit, IsFighter, IsDuelKnown};
ghost use Rattle.ps_hits.specs.Scenes.{scene};
ghost use Rattle.ps_hits.specs.Strikes.{deal_to_substitute, taken_after, stored_by, stored_after, hurt_by, enrage, rage_on};
ghost use Rattle.ps_hits.specs.Strikes.{deal_to_foe, deal, accuracy_test, halved, numbers_of, tell_factors, hit, IsStruck, strike};
ghost use Rattle.ps_hits.specs.Strikes.{blow_of, strike_with};

use crate::fighters::{
    attack, away, defence, has_type, plain_attack, plain_defence, raging, types,
};
use crate::scene::{draw, health, who};
use ps_calc::{Hit as Numbers, accuracy_byte, crit_byte, damage};
use ps_event::event::{Event, Events};
use ps_event::numbers::{EFFECT_SUBSTITUTE, FROM_NOTHING, STAT_ATK};
use ps_mon::duel::{Duel, Fighter};
use ps_mon::facts::{Facts, MoveData};
use ps_mon::moves::{factors, move_data};
use ps_mon::record::{Lock, LockKind, Taken};

/// What Deal did.
#[derive(Clone, Copy, Debug, PartialEq, Eq)]
pub struct Dealt {
    /// The damage that was to be dealt, whatever was lost.
    pub damage: u16,
    /// What the foe, or its substitute, lost.
    pub amount: u16,
    /// Whether the foe itself lost health.
    pub own: bool,
    /// Whether its substitute ended.
    pub ended: bool,
}

/// A move as a strike takes it.
#[derive(Clone, Copy, Debug, PartialEq, Eq)]
pub struct Blow {
    /// The move's number.
    pub mv: u16,
    /// The move's numbers.
    pub move_data: MoveData,
    /// What its type does to each of the foe's two types, in tenths.
    pub factors: [u8; 2],
    /// Whether the foe's defence counts by half.
    pub half: bool,
}

/// How a strike went.
#[derive(Clone, Copy, Debug, PartialEq, Eq)]
pub enum Struck {
    /// A type of the foe is immune to it.
    NoEffect,
    /// It missed.
    Missed,
    /// It hit.
    Hit(Dealt),
}

#[tactic(auto, unfolding(crate::specs::Strikes::deal_to_substitute))]
fn strike_substitute(duel: &mut Duel, n: u16, out: &mut Events) -> Dealt
    requires fit { IsFit duel.old }
    requires room { array_vec_len out.old + 1 ≤ 160 }
    ensures value { result ≡ (deal_to_substitute n (scene duel.old out.old)).0 }
    ensures damage { result.damage ≡ n }
    ensures after { scene duel.new out.new ≡ (deal_to_substitute n (scene duel.old out.old)).1 }
    ensures fit { IsFit duel.new }
    ensures known { (moves : ℕ) → IsDuelKnown moves duel.old → IsDuelKnown moves duel.new }
    ensures room { array_vec_len out.new ≤ array_vec_len out.old + 1 }
{
    let amount = n.min(duel.foe.vol.substitute);
    duel.foe.vol.substitute -= amount;
    let who = who(&duel.foe);
    let ended = duel.foe.vol.substitute == 0;
    if ended {
        out.push(Event::VolEnd {
            who,
            effect: EFFECT_SUBSTITUTE,
        });
    } else {
        out.push(Event::Activate {
            who,
            effect: EFFECT_SUBSTITUTE,
            mv: None,
        });
    }
    Dealt {
        damage: n,
        amount,
        own: false,
        ended,
    }
}

#[tactic(auto, unfolding(crate::specs::Strikes::taken_after))]
fn taken(mv: u16, lost: u16, before: Option<Taken>) -> Option<Taken>
    ensures { result ≡ taken_after mv lost before }
{
    if lost == 0 {
        before
    } else {
        Some(Taken { damage: lost, mv })
    }
}

fn stored_in(lock: Lock, lost: u16) -> Lock
    requires lost { lost ≤ 713 }
    requires stored { lock.stored ≤ 713 }
    ensures { result ≡ stored_by lock.kind lost lock }
{
    match lock.kind {
        LockKind::Bide => Lock {
            stored: (lock.stored + lost).min(713),
            ..lock
        },
        _ => lock,
    }
}

#[tactic(auto, unfolding(crate::specs::Strikes::hurt_by, crate::specs::Strikes::taken_after))]
fn hurt(f: &Fighter, mv: u16, lost: u16) -> Fighter
    requires fit { IsFighter f.now }
    requires lost { lost ≤ f.now.hp }
    ensures value { result ≡ hurt_by mv lost f.now }
    ensures fit { IsFighter result }
    ensures known { (moves : ℕ) → IsNamed moves mv → AreNamed moves f.now.vol → AreNamed moves result.vol }
{
    let mut after = *f;
    after.hp -= lost;
    after.vol.taken = taken(mv, lost, f.vol.taken);
    after.vol.lock = match f.vol.lock {
        None => None,
        Some(lock) => Some(stored_in(lock, lost)),
    };
    after
}

#[tactic(auto, unfolding(crate::specs::Strikes::enrage))]
fn raise_attack(duel: &mut Duel, out: &mut Events)
    requires fit { IsFit duel.old }
    requires room { array_vec_len out.old + 1 ≤ 160 }
    ensures after { scene duel.new out.new ≡ (enrage (scene duel.old out.old)).1 }
    ensures fit { IsFit duel.new }
    ensures known { (moves : ℕ) → IsDuelKnown moves duel.old → IsDuelKnown moves duel.new }
    ensures room { array_vec_len out.new ≤ array_vec_len out.old + 1 }
{
    if duel.foe.vol.stages.atk < 6 {
        duel.foe.vol.stages.atk += 1;
        out.push(Event::Boost {
            who: who(&duel.foe),
            stat: STAT_ATK,
            by: 1,
        });
    }
}

#[tactic(auto, unfolding(crate::specs::Strikes::rage_on))]
fn rage_after(duel: &mut Duel, lost: u16, out: &mut Events)
    requires fit { IsFit duel.old }
    requires room { array_vec_len out.old + 1 ≤ 160 }
    ensures after { scene duel.new out.new ≡ (rage_on lost (scene duel.old out.old)).1 }
    ensures fit { IsFit duel.new }
    ensures known { (moves : ℕ) → IsDuelKnown moves duel.old → IsDuelKnown moves duel.new }
    ensures room { array_vec_len out.new ≤ array_vec_len out.old + 1 }
{
    if lost > 0 && raging(duel.foe.vol.lock) {
        raise_attack(duel, out);
    }
}

#[tactic(auto, unfolding(crate::specs::Strikes::deal_to_foe))]
fn strike_foe(duel: &mut Duel, mv: u16, n: u16, out: &mut Events) -> Dealt
    requires fit { IsFit duel.old }
    requires room { array_vec_len out.old + 3 ≤ 160 }
    ensures value { result ≡ (deal_to_foe mv n (scene duel.old out.old)).0 }
    ensures damage { result.damage ≡ n }
    ensures after { scene duel.new out.new ≡ (deal_to_foe mv n (scene duel.old out.old)).1 }
    ensures fit { IsFit duel.new }
    ensures known { (moves : ℕ) → IsNamed moves mv → IsDuelKnown moves duel.old → IsDuelKnown moves duel.new }
    ensures room { array_vec_len out.new ≤ array_vec_len out.old + 3 }
{
    let lost = n.min(duel.foe.hp);
    let foe = hurt(&duel.foe, mv, lost);
    duel.foe = foe;
    out.push(Event::Damage {
        who: who(&foe),
        health: health(&foe),
        from: FROM_NOTHING,
    });
    if foe.hp == 0 {
        out.push(Event::Faint { who: who(&foe) });
    }
    rage_after(duel, lost, out);
    Dealt {
        damage: n,
        amount: lost,
        own: lost > 0,
        ended: false,
    }
}

/// Deals damage to the foe, or to its substitute.
#[tactic(auto, unfolding(crate::specs::Strikes::deal))]
pub fn deal_out(duel: &mut Duel, mv: u16, n: u16, out: &mut Events) -> Dealt
    requires fit { IsFit duel.old }
    requires room { array_vec_len out.old + 3 ≤ 160 }
    ensures value { result ≡ (deal mv n (scene duel.old out.old)).0 }
    ensures damage { result.damage ≡ n }
    ensures after { scene duel.new out.new ≡ (deal mv n (scene duel.old out.old)).1 }
    ensures fit { IsFit duel.new }
    ensures known { (moves : ℕ) → IsNamed moves mv → IsDuelKnown moves duel.old → IsDuelKnown moves duel.new }
    ensures room { array_vec_len out.new ≤ array_vec_len out.old + 3 }
{
    if duel.foe.vol.substitute > 0 {
        strike_substitute(duel, n, out)
    } else {
        strike_foe(duel, mv, n, out)
    }
}

/// The accuracy test of a move that lands in so many percent of the cases, 0 to 100; 0 always lands.
#[tactic(auto, unfolding(crate::specs::Strikes::accuracy_test))]
pub fn lands(duel: &mut Duel, percent: u8, out: &mut Events) -> bool
    requires fit { IsFit duel.old }
    requires room { array_vec_len out.old + 1 ≤ 160 }
    ensures value { result ≡ (accuracy_test percent (scene duel.old out.old)).0 }
    ensures after { scene duel.new out.new ≡ (accuracy_test percent (scene duel.old out.old)).1 }
    ensures fit { IsFit duel.new }
    ensures known { (moves : ℕ) → IsDuelKnown moves duel.old → IsDuelKnown moves duel.new }
    ensures room { array_vec_len out.new ≤ array_vec_len out.old + 1 }
{
    if percent == 0 {
        return true;
    }
    if away(duel.foe.vol.lock) {
        out.push(Event::Miss {
            who: who(&duel.user),
        });
        return false;
    }
    let byte = accuracy_byte(percent, duel.user.vol.stages.acc, duel.foe.vol.stages.eva);
    if draw(duel, 256) < u32::from(byte) {
        return true;
    }
    out.push(Event::Miss {
        who: who(&duel.user),
    });
    false
}

fn halve(half: bool, stat: u16) -> u16
    requires { 1 ≤ stat }
    ensures value { result ≡ halved half stat }
    ensures low { 1 ≤ result }
    ensures high { result ≤ stat }
{
    if half { (stat / 2).max(1) } else { stat }
}

#[tactic(auto, unfolding(crate::specs::Strikes::numbers_of))]
fn numbers(duel: &Duel, blow: &Blow, crit: bool, roll: u8) -> Numbers
    requires { IsFit duel.now }
    ensures value { result ≡ numbers_of duel.now blow.now crit roll }
    ensures level { result.level ≤ 100 }
    ensures attack { 1 ≤ result.attack }
    ensures attack_high { result.attack ≤ 1998 }
    ensures defence { 1 ≤ result.defence }
    ensures factors { result.factors ≡ blow.now.factors }
    ensures roll { result.roll ≡ roll }
{
    let special = blow.move_data.special;
    let attack = if crit {
        plain_attack(&duel.user, special)
    } else {
        attack(&duel.user, special)
    };
    let whole = if crit {
        plain_defence(&duel.foe, special)
    } else {
        defence(&duel.foe, special)
    };
    let factors = blow.factors;
    Numbers {
        level: duel.user.level,
        power: blow.move_data.power,
        attack,
        defence: halve(blow.half, whole),
        crit,
        stab: has_type(&duel.user, blow.move_data.kind),
        factors,
        roll,
    }
}

#[tactic(auto, unfolding(crate::specs::Strikes::tell_factors))]
fn show_factors(duel: &Duel, factors: [u8; 2], out: &mut Events)
    requires { array_vec_len out.old + 1 ≤ 160 }
    ensures after { scene duel.now out.new ≡ (tell_factors factors (scene duel.now out.old)).1 }
    ensures room { array_vec_len out.new ≤ array_vec_len out.old + 1 }
{
    let product = u16::from(factors[0]) * u16::from(factors[1]);
    if product > 100 {
        out.push(Event::Super {
            who: who(&duel.foe),
        });
    } else if product < 100 {
        out.push(Event::Resisted {
            who: who(&duel.foe),
        });
    }
}

#[tactic(auto, unfolding(crate::specs::Strikes::hit))]
fn land(duel: &mut Duel, blow: &Blow, out: &mut Events) -> Dealt
    requires fit { IsFit duel.old }
    requires first { slice_index blow.now.factors 0 ≤ 20 }
    requires second { slice_index blow.now.factors 1 ≤ 20 }
    requires room { array_vec_len out.old + 5 ≤ 160 }
    ensures value { result ≡ (hit blow.now (scene duel.old out.old)).0 }
    ensures high { result.damage ≤ 5992 }
    ensures after { scene duel.new out.new ≡ (hit blow.now (scene duel.old out.old)).1 }
    ensures fit { IsFit duel.new }
    ensures known { (moves : ℕ) → IsNamed moves blow.now.mv → IsDuelKnown moves duel.old → IsDuelKnown moves duel.new }
    ensures room { array_vec_len out.new ≤ array_vec_len out.old + 5 }
{
    let before = *duel;
    let byte = crit_byte(
        before.user.base_speed,
        blow.move_data.high,
        before.user.vol.focus,
    );
    let crit = draw(duel, 256) < u32::from(byte);
    let roll = draw(duel, 39);
    if crit {
        out.push(Event::Crit {
            who: who(&before.foe),
        });
    }
    show_factors(duel, blow.factors, out);
    let hurt = damage(&numbers(&before, blow, crit, 217 + roll as u8));
    deal_out(duel, blow.mv, hurt, out)
}

#[tactic(auto, unfolding(crate::specs::Strikes::strike))]
fn strike_at(duel: &mut Duel, blow: &Blow, out: &mut Events) -> Struck
    requires fit { IsFit duel.old }
    requires first { slice_index blow.now.factors 0 ≤ 20 }
    requires second { slice_index blow.now.factors 1 ≤ 20 }
    requires room { array_vec_len out.old + 6 ≤ 160 }
    ensures value { result ≡ (strike blow.now (scene duel.old out.old)).0 }
    ensures high { IsStruck result }
    ensures after { scene duel.new out.new ≡ (strike blow.now (scene duel.old out.old)).1 }
    ensures fit { IsFit duel.new }
    ensures known { (moves : ℕ) → IsNamed moves blow.now.mv → IsDuelKnown moves duel.old → IsDuelKnown moves duel.new }
    ensures room { array_vec_len out.new ≤ array_vec_len out.old + 6 }
{
    if blow.factors[0] == 0 || blow.factors[1] == 0 {
        out.push(Event::Immune {
            who: who(&duel.foe),
        });
        return Struck::NoEffect;
    }
    if !lands(duel, blow.move_data.accuracy, out) {
        return Struck::Missed;
    }
    Struck::Hit(land(duel, blow, out))
}

#[tactic(auto, unfolding(crate::specs::Strikes::blow_of))]
fn blow_on(facts: Facts<'_>, mv: u16, half: bool, foe: &Fighter) -> Blow
    requires fair { AreFair (figures facts) }
    requires fit { IsFighter foe.now }
    ensures value { result ≡ blow_of (figures facts.entry) mv half foe.now }
    ensures mv { result.mv ≡ mv }
    ensures first { slice_index result.factors 0 ≤ 20 }
    ensures second { slice_index result.factors 1 ≤ 20 }
{
    let factors = factors(facts, mv, types(foe));
    Blow {
        mv,
        move_data: move_data(facts, mv),
        factors,
        half,
    }
}

/// Strikes the foe with a move; `half` where its defence counts by half.
#[tactic(auto, unfolding(crate::specs::Strikes::strike_with))]
pub fn strike_foe_with(
    duel: &mut Duel,
    facts: Facts<'_>,
    mv: u16,
    half: bool,
    out: &mut Events,
) -> Struck
    requires fit { IsFit duel.old }
    requires fair { AreFair (figures facts) }
    requires room { array_vec_len out.old + 6 ≤ 160 }
    ensures value { result ≡ (strike_with (figures facts.entry) mv half (scene duel.old out.old)).0 }
    ensures high { IsStruck result }
    ensures after { scene duel.new out.new ≡ (strike_with (figures facts.entry) mv half (scene duel.old out.old)).1 }
    ensures fit { IsFit duel.new }
    ensures known { (moves : ℕ) → IsNamed moves mv → IsDuelKnown moves duel.old → IsDuelKnown moves duel.new }
    ensures room { array_vec_len out.new ≤ array_vec_len out.old + 6 }
{
    let blow = blow_on(facts, mv, half, &duel.foe);
    strike_at(duel, &blow, out)
}
