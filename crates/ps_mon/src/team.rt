//! Teams of a battle.
use crate::status::Status;

/// A move that a member knows.
#[derive(Clone, Copy, Debug, PartialEq, Eq)]
pub struct MoveSlot {
    /// The move's number: its index in the dex.
    pub mv: u16,
    /// How often it can still be used.
    pub pp: u8,
    /// The greatest `pp`.
    pub max_pp: u8,
}

/// A member of a team.
#[derive(Clone, Copy, Debug, PartialEq, Eq)]
pub struct Member {
    /// The species' number: its index in the dex.
    pub species: u16,
    /// 1 to 100.
    pub level: u8,
    /// Its types' numbers, below 32. A member of one type has it twice.
    pub types: [u8; 2],
    /// Attack, Defense, Special and Speed, each 1 to 999.
    pub stats: [u16; 4],
    /// The species' base Speed, which chances of critical hits come from.
    pub base_speed: u8,
    /// Its health, at most `max`; 0 where it has fainted.
    pub hp: u16,
    /// The greatest `hp`, 1 to 713.
    pub max: u16,
    /// Its condition.
    pub status: Status,
    /// How many more acts it sleeps.
    pub counter: u8,
    /// Whether it sleeps by Rest.
    pub rested: bool,
    /// Its moves; those from `slot_count` on mean nothing.
    pub slots: [MoveSlot; 4],
    /// How many moves it knows, 1 to 4.
    pub slot_count: u8,
}

/// A team before its battle.
#[derive(Clone, Copy, Debug, PartialEq, Eq)]
pub struct BattleTeam {
    /// The members in the order of the team; those from `count` on mean nothing.
    pub members: [Member; 6],
    /// How many members there are, 1 to 6.
    pub count: u8,
}
