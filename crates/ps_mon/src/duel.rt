//! The duel of the two active members, which effects play.
ghost use Rattle.std.specs.Prelude.{◌≡◌, ◌<◌, ◌≤◌, ℕ, slice_index};
ghost use Rattle.ps_mon.specs.Valid.{IsSound, IsSide, IsShaped, IsValid};
ghost use Rattle.ps_mon.specs.Known.{AreKnown, IsSideKnown, AreNamed};
ghost use Rattle.ps_mon.specs.Reading.{side_of, member_of};
ghost use Rattle.ps_mon.specs.Slots.{slot_count_now, is_ready};
ghost use Rattle.ps_mon.specs.Keeping.{StillStands, Keeps};
ghost use Rattle.ps_mon.specs.Duels.{IsFit, IsFighter, IsDuelKnown, sleeps, freezes, bench_has, ready_of, fighter_of, with_fighter};
ghost use Rattle.ps_mon.specs.Duels.{duel_of, with_duel};

use crate::record::{Battle, SideState, Volatiles};
use crate::status::Status;

/// An active member, without its slots.
#[derive(Clone, Copy, Debug, PartialEq, Eq)]
pub struct Fighter {
    /// Its side: 0 is P1's, 1 is P2's.
    pub side: u8,
    /// Its index in the team, from 0.
    pub member: u8,
    /// 1 to 100.
    pub level: u8,
    /// Its own types.
    pub types: [u8; 2],
    /// Its own stats: Attack, Defense, Special and Speed.
    pub stats: [u16; 4],
    /// The species' base Speed.
    pub base_speed: u8,
    /// Its health, at most `max`.
    pub hp: u16,
    /// The greatest `hp`, 1 to 713.
    pub max: u16,
    /// Its condition.
    pub status: Status,
    /// How many more acts it sleeps.
    pub counter: u8,
    /// Whether it sleeps by Rest.
    pub rested: bool,
    /// What a switch ends. What changed its slots is not written back.
    pub vol: Volatiles,
}

/// The two active members, and what an effect may know beside them. Nothing of it is hidden from either side.
#[derive(Clone, Copy, Debug, PartialEq, Eq)]
pub struct Duel {
    /// Who uses a move.
    pub user: Fighter,
    /// The active member of the other side.
    pub foe: Fighter,
    /// The clauses, as in `Battle`.
    pub clauses: u8,
    /// Whether another standing member of the foe's side sleeps, and not by Rest.
    pub asleep: bool,
    /// Whether another standing member of the foe's side is frozen.
    pub frozen: bool,
    /// Which slots of the foe have PP left.
    pub ready: [bool; 4],
    /// How many slots the foe has.
    pub slot_count: u8,
    /// The state of the random source.
    pub rng: u64,
}

impl SideState {
    /// The active member of the side with that number, 0 or 1.
    #[tactic(auto, unfolding(crate::specs::Duels::fighter_of))]
    pub fn fighter(&self, number: u8) -> Fighter
        requires { IsSide self.now }
        ensures value { result ≡ fighter_of number self.now }
        ensures fit { IsFighter result }
        ensures known { (moves : ℕ) → IsSideKnown moves self.now → AreNamed moves result.vol }
    {
        let m = &self.members[self.order[0] as usize];
        let types = m.types;
        let stats = m.stats;
        Fighter {
            side: number,
            member: self.order[0],
            level: m.level,
            types,
            stats,
            base_speed: m.base_speed,
            hp: m.hp,
            max: m.max,
            status: m.status,
            counter: m.counter,
            rested: m.rested,
            vol: self.vol,
        }
    }
}

#[tactic(auto, unfolding(crate::specs::Duels::with_fighter))]
fn put_fighter(side: &mut SideState, f: &Fighter)
    requires side { IsSide side.old }
    ensures value { side.new ≡ with_fighter side.old f.now }
{
    let index = side.order[0] as usize;
    let m = &mut side.members[index];
    m.level = f.level;
    let types = f.types;
    m.types = types;
    let stats = f.stats;
    m.stats = stats;
    m.base_speed = f.base_speed;
    m.hp = f.hp;
    m.max = f.max;
    m.status = f.status;
    m.counter = f.counter;
    m.rested = f.rested;
    let slots = side.vol.slots;
    side.vol = f.vol;
    side.vol.slots = slots;
}

fn sleeps_at(side: &SideState, index: u8) -> bool
    ensures { result ≡ sleeps (member_of side.now index) }
{
    match side.members.get(index as usize) {
        None => false,
        Some(m) => m.status == Status::Slp && m.hp > 0 && !m.rested,
    }
}

fn freezes_at(side: &SideState, index: u8) -> bool
    ensures { result ≡ freezes (member_of side.now index) }
{
    match side.members.get(index as usize) {
        None => false,
        Some(m) => m.status == Status::Frz && m.hp > 0,
    }
}

fn bench_sleeps(side: &SideState) -> bool
    requires { IsShaped side.now }
    ensures { result ≡ bench_has sleeps side.now }
{
    let bench = &side.order[1..side.count as usize];
    bench.iter().any(|index| sleeps_at(side, *index))
}

fn bench_freezes(side: &SideState) -> bool
    requires { IsShaped side.now }
    ensures { result ≡ bench_has freezes side.now }
{
    let bench = &side.order[1..side.count as usize];
    bench.iter().any(|index| freezes_at(side, *index))
}

impl Battle {
    /// The duel of a side, 0 or 1, against the other.
    #[tactic(auto, unfolding(crate::specs::Duels::duel_of))]
    pub fn duel(&self, user: u8) -> Duel
        requires sound { IsSound self.now }
        requires user { user < 2 }
        ensures value { result ≡ duel_of self.now user }
        ensures fit { IsFit result }
        ensures known { (moves : ℕ) → AreKnown moves self.now → IsDuelKnown moves result }
    {
        let theirs = &self.sides[1 - user as usize];
        Duel {
            user: self.sides[user as usize].fighter(user),
            foe: theirs.fighter(1 - user),
            clauses: self.clauses,
            asleep: bench_sleeps(theirs),
            frozen: bench_freezes(theirs),
            ready: theirs.ready(),
            slot_count: theirs.slot_count(),
            rng: self.rng,
        }
    }

    /// Puts the duel of a side, 0 or 1, back into the battle it was taken from.
    #[tactic(auto, unfolding(crate::specs::Duels::with_duel))]
    pub fn put(&mut self, user: u8, duel: &Duel)
        requires sound { IsSound self.old }
        requires user { user < 2 }
        requires fit { IsFit duel.now }
        ensures value { self.new ≡ with_duel self.old user duel.now }
        ensures sound { IsSound self.new }
        ensures known { (moves : ℕ) → IsDuelKnown moves duel.now → AreKnown moves self.old → AreKnown moves self.new }
        ensures whole { IsValid self.old → StillStands self.old self.new → IsValid self.new }
        ensures kept { (s : ℕ) → s < 2 → Keeps s self.old self.new }
    {
        let mut mine = self.sides[user as usize];
        put_fighter(&mut mine, &duel.user);
        let mut theirs = self.sides[1 - user as usize];
        put_fighter(&mut theirs, &duel.foe);
        self.sides[user as usize] = mine;
        self.sides[1 - user as usize] = theirs;
        self.rng = duel.rng;
    }
}
