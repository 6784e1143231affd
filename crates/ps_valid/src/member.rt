//! The member that a set makes.
ghost use Rattle.std.specs.Prelude.{◌≡◌, ◌<◌, ◌≤◌, All, length, slice_get, IfOk};
ghost use Rattle.ps_mon.specs.Valid.{AreStats};
ghost use Rattle.ps_packed.specs.Ranges.{HasRanges};
ghost use Rattle.ps_valid.specs.Members.{stats_of, types_of, pp_of, slot_of, slot_at, slots_of, numbers_of, member_of, blank_member};
ghost use Rattle.ps_valid.specs.Members.{member_at, team_of};
ghost use Rattle.ps_mon.specs.Reading.{no_slot};
ghost use Rattle.ps_valid.specs.Ready.{IsReadyMember};

use ps_calc::stats::{dv, hp_dv, hp_stat, stat};
use ps_dex::dex::Dex;
use ps_dex::item::{MoveItem, SpeciesItem};
use ps_mon::status::Status;
use ps_mon::team::{BattleTeam, Member, MoveSlot};
use ps_packed::set::Set;

/// The numbers of a member that its level, EVs and IVs change.
#[derive(Clone, Copy, Debug, PartialEq, Eq)]
struct Numbers {
    /// The greatest health.
    max: u16,
    /// Attack, Defense, Special and Speed.
    stats: [u16; 4],
}

/// A slot without a move.
const BLANK_SLOT: MoveSlot = MoveSlot {
    mv: 0,
    pp: 0,
    max_pp: 0,
};

/// No member.
const BLANK_MEMBER: Member = Member {
    species: 0,
    level: 0,
    types: [0, 0],
    stats: [0, 0, 0, 0],
    base_speed: 0,
    hp: 0,
    max: 0,
    status: Status::Healthy,
    counter: 0,
    rested: false,
    slots: [BLANK_SLOT, BLANK_SLOT, BLANK_SLOT, BLANK_SLOT],
    slot_count: 0,
};

fn stats_of(species: &[SpeciesItem], number: u16) -> [u8; 5]
    ensures { result ≡ stats_of (slice_get species.now number) }
{
    match species.get(usize::from(number)) {
        None => [0, 0, 0, 0, 0],
        Some(item) => item.stats,
    }
}

fn types_of(species: &[SpeciesItem], number: u16) -> [u8; 2]
    ensures { result ≡ types_of (slice_get species.now number) }
{
    match species.get(usize::from(number)) {
        None => [0, 0],
        Some(item) => item.types,
    }
}

fn pp_of(moves: &[MoveItem], mv: u16) -> u8
    ensures { result ≡ pp_of (slice_get moves.now mv) }
{
    match moves.get(usize::from(mv)) {
        None => 0,
        Some(item) => item.numbers.pp,
    }
}

/// A move with all of its PP.
fn slot_of(moves: &[MoveItem], mv: u16) -> MoveSlot
    ensures { result ≡ slot_of moves.now mv }
{
    let pp = pp_of(moves, mv);
    MoveSlot { mv, pp, max_pp: pp }
}

fn slot_at(moves: &[MoveItem], known: &[u16], index: usize) -> MoveSlot
    ensures { result ≡ slot_at moves.now (slice_get known.now index) }
{
    match known.get(index) {
        None => BLANK_SLOT,
        Some(mv) => slot_of(moves, *mv),
    }
}

fn slots_of(moves: &[MoveItem], known: &[u16]) -> [MoveSlot; 4]
    ensures { result ≡ slots_of moves.now known.now }
{
    [
        slot_at(moves, known, 0),
        slot_at(moves, known, 1),
        slot_at(moves, known, 2),
        slot_at(moves, known, 3),
    ]
}

/// The numbers of a set of a species with these base stats.
#[tactic(auto, unfolding(crate::specs::Members::numbers_of))]
fn numbers_of(base: [u8; 5], set: &Set) -> Numbers
    requires { HasRanges set.now }
    ensures value { result ≡ numbers_of base set.now }
    ensures stats { AreStats result.stats }
    ensures low { 1 ≤ result.max }
    ensures high { result.max ≤ 713 }
{
    let level = set.level;
    let attack = dv(set.ivs[1]);
    let defense = dv(set.ivs[2]);
    let special = dv(set.ivs[3]);
    let speed = dv(set.ivs[5]);
    let hp = hp_dv([attack, defense, speed, special]);
    Numbers {
        max: hp_stat(base[0], hp, set.evs[0], level),
        stats: [
            stat(base[1], attack, set.evs[1], level),
            stat(base[2], defense, set.evs[2], level),
            stat(base[3], special, set.evs[3], level),
            stat(base[4], speed, set.evs[5], level),
        ],
    }
}

/// The member that a set makes, with its species and moves by their numbers: full health and PP.
#[tactic(auto, unfolding(crate::specs::Members::member_of))]
pub(crate) fn member_of(dex: &Dex, species: u16, set: &Set, moves: &[u16]) -> Member
    requires ranges { HasRanges set.now }
    requires within { species < length dex.now.species }
    requires some { 0 < length moves.now }
    requires few { length moves.now ≤ 4 }
    requires known { All (λ mv. mv < length dex.now.moves) moves.now }
    ensures value { result ≡ member_of dex.now species set.now moves.now }
    ensures ready { IsReadyMember dex.now result }
{
    let base = stats_of(dex.all_species(), species);
    let types = types_of(dex.all_species(), species);
    let slots = slots_of(dex.moves(), moves);
    let Numbers { max, stats } = numbers_of(base, set);
    Member {
        species,
        level: set.level,
        types,
        stats,
        base_speed: base[4],
        hp: max,
        max,
        status: Status::Healthy,
        counter: 0,
        rested: false,
        slots,
        slot_count: moves.len() as u8,
    }
}

fn member_at(members: &[Member], index: usize) -> Member
    ensures { result ≡ member_at (slice_get members.now index) }
{
    match members.get(index) {
        None => BLANK_MEMBER,
        Some(member) => *member,
    }
}

/// A team of these members.
pub(crate) fn team_of(members: &[Member]) -> BattleTeam
    requires { length members.now ≤ 6 }
    ensures { result ≡ team_of members.now }
{
    BattleTeam {
        members: [
            member_at(members, 0),
            member_at(members, 1),
            member_at(members, 2),
            member_at(members, 3),
            member_at(members, 4),
            member_at(members, 5),
        ],
        count: members.len() as u8,
    }
}
