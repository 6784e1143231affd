//! The record of a battle.
use crate::status::Status;
use crate::team::{Member, MoveSlot};

/// The stages of an active member, each from -6 to 6.
#[derive(Clone, Copy, Debug, PartialEq, Eq)]
pub struct Stages {
    /// Attack.
    pub atk: i8,
    /// Defense.
    pub def: i8,
    /// Special.
    pub spc: i8,
    /// Speed.
    pub spe: i8,
    /// Accuracy.
    pub acc: i8,
    /// Evasion.
    pub eva: i8,
}

/// Which long move holds a member.
#[derive(Clone, Copy, Debug, PartialEq, Eq)]
pub enum LockKind {
    /// A strike comes next; the member may be out of reach until then.
    Charge { away: bool },
    /// The foe is trapped, exactly as long as this lock stands.
    Trap,
    /// A strike in each act.
    Thrash,
    /// Damage is stored.
    Bide,
    /// The member rages, exactly as long as this lock stands.
    Rage,
}

/// A long move that a member goes on with, whatever its player wants.
#[derive(Clone, Copy, Debug, PartialEq, Eq)]
pub struct Lock {
    /// Which kind of move it is.
    pub kind: LockKind,
    /// The move: an index in the dex.
    pub mv: u16,
    /// How many acts are left, at most 4; 0 for one without end.
    pub turns: u8,
    /// What a trap deals each time, at most 5,992.
    pub damage: u16,
    /// What Bide has stored, at most 713.
    pub stored: u16,
}

/// A slot that can't be chosen.
#[derive(Clone, Copy, Debug, PartialEq, Eq)]
pub struct Disabled {
    /// The slot, from 0.
    pub slot: u8,
    /// For how many acts it is, at most 8.
    pub turns: u8,
}

/// The last damage that a member took in this turn.
#[derive(Clone, Copy, Debug, PartialEq, Eq)]
pub struct Taken {
    /// The health that it lost, at most 713.
    pub damage: u16,
    /// The move that did it: an index in the dex, or Struggle's number.
    pub mv: u16,
}

/// The moves that Transform copied. They stand in the place of all own slots.
#[derive(Clone, Copy, Debug, PartialEq, Eq)]
pub struct CopiedSlots {
    /// The slots; those from `count` on mean nothing.
    pub slots: [MoveSlot; 4],
    /// How many there are, 1 to 4.
    pub count: u8,
}

/// What changed a member's slots.
#[derive(Clone, Copy, Debug, PartialEq, Eq)]
pub struct ChangedSlots {
    /// For each own slot the move that Mimic put there. Its PP stays the slot's own.
    pub mimic: [Option<u16>; 4],
    /// What Transform put in the place of all own slots.
    pub copied: Option<CopiedSlots>,
}

/// What a switch ends. Whether the member rages, and whether its foe is trapped, its lock tells.
#[derive(Clone, Copy, Debug, PartialEq, Eq)]
pub struct Volatiles {
    /// The six stages.
    pub stages: Stages,
    /// How many more acts it is confused, at most 5; 0 where it isn't.
    pub confusion: u8,
    /// Whether it flinches.
    pub flinch: bool,
    /// The health of its substitute, at most 179; 0 where it has none.
    pub substitute: u16,
    /// Whether it is seeded.
    pub seeded: bool,
    /// Whether Reflect is on.
    pub reflect: bool,
    /// Whether Light Screen is on.
    pub light: bool,
    /// Whether Mist is on.
    pub mist: bool,
    /// Whether Focus Energy is on.
    pub focus: bool,
    /// Whether it must recharge.
    pub recharge: bool,
    /// The long move that holds it.
    pub lock: Option<Lock>,
    /// Its disabled slot.
    pub disabled: Option<Disabled>,
    /// The types that it has in place of its own.
    pub types: Option<[u8; 2]>,
    /// The stats that it has in place of its own: Attack, Defense, Special and Speed.
    pub stats: Option<[u16; 4]>,
    /// What stands in the place of its slots.
    pub slots: ChangedSlots,
    /// How often bad poison has hurt it, at most 15.
    pub toxic: u8,
    /// The move that it used last: an index in the dex, or Struggle's number.
    pub last: Option<u16>,
    /// The last damage that it took in this turn.
    pub taken: Option<Taken>,
}

/// One side.
#[derive(Clone, Copy, Debug, PartialEq, Eq)]
pub struct SideState {
    /// The members in the order of the team; those from `count` on mean nothing.
    pub members: [Member; 6],
    /// How many members there are, 1 to 6.
    pub count: u8,
    /// The indices of the members in their order now. The first, position 1, is active once members are sent out; those
    /// from `count` on mean nothing.
    pub order: [u8; 6],
    /// What a switch of the active member ends.
    pub vol: Volatiles,
}

/// What the battle waits for.
#[derive(Clone, Copy, Debug, PartialEq, Eq)]
pub enum Phase {
    /// An order of each team: nobody is sent out yet.
    Preview,
    /// A choice of each side.
    Turn,
    /// A new member of each side whose flag is set.
    Replace { p1: bool, p2: bool },
    /// Nothing: this side, 0 or 1, won.
    Won(u8),
    /// Nothing: nobody won.
    Tied,
}

/// A battle.
#[derive(Clone, Copy, Debug, PartialEq, Eq)]
pub struct Battle {
    /// P1's side and P2's.
    pub sides: [SideState; 2],
    /// The number of the turn, from 1; at 1,000 the battle is tied.
    pub turn: u16,
    /// What it waits for.
    pub phase: Phase,
    /// A bit for each clause, the lowest for the first: Species Clause, Sleep Clause Mod, Freeze Clause Mod, OHKO Clause,
    /// Evasion Moves Clause, Nickname Clause, Team Preview, HP Percentage Mod.
    pub clauses: u8,
    /// The state of the random source.
    pub rng: u64,
}
