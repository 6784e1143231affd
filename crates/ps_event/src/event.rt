//! What a battle tells: its events, in plain numbers and without texts.
use crate::side::Side;
use arrayvec::ArrayVec;

/// A member of a battle.
#[derive(Clone, Copy, Debug, PartialEq, Eq)]
pub struct Who {
    /// Its side.
    pub side: Side,
    /// Its place in the team, from 0.
    pub member: u8,
}

/// What a line shows of a member's health.
#[derive(Clone, Copy, Debug, PartialEq, Eq)]
pub struct Health {
    /// What it has, at most `max`.
    pub hp: u16,
    /// The most that it can have, 1 to 713.
    pub max: u16,
    /// The number of its status: Healthy, Slp, Par, Brn, Psn, Tox, Frz, from 0.
    pub status: u8,
}

/// One event. `mv` is a move's place in the dex, or 1,024 for Struggle; `species` is a species' place there.
#[derive(Clone, Copy, Debug, PartialEq, Eq, Default)]
pub enum Event {
    /// A side and its player.
    Player {
        side: Side,
    },
    /// How many members a side has.
    TeamSize {
        side: Side,
        count: u8,
    },
    /// One member of each side is active at a time.
    GameType,
    /// The generation.
    Gen,
    /// The format.
    Tier,
    /// A clause is on: Species Clause, Sleep Clause Mod, Freeze Clause Mod, OHKO Clause, Evasion Moves Clause, Nickname
    /// Clause, Team Preview, HP Percentage Mod, from 0.
    Rule {
        clause: u8,
    },
    /// Both teams are shown next.
    ClearPoke,
    /// A member of a side is shown: its species and its level.
    Poke {
        side: Side,
        species: u16,
        level: u8,
    },
    /// Both teams were shown, and their players order them.
    TeamPreview,
    /// The battle begins.
    Start,
    /// A member comes in.
    Switch {
        who: Who,
        species: u16,
        level: u8,
        health: Health,
    },
    /// A member uses a move: `still` where it only prepares, `from` the move that called it or goes on.
    Move {
        who: Who,
        mv: u16,
        target: Who,
        still: bool,
        from: Option<u16>,
    },
    /// A member can't act: slp, frz, partiallytrapped, flinch, recharge, Disable, par, from 0.
    Cant {
        who: Who,
        reason: u8,
    },
    /// A member lost health: by nothing named, psn, brn, Leech Seed, Recoil, confusion, crash, from 0.
    Damage {
        who: Who,
        health: Health,
        from: u8,
    },
    /// A member gained health.
    Heal {
        who: Who,
        health: Health,
    },
    /// A member has a status now, by the numbers of `Health`.
    Status {
        who: Who,
        status: u8,
    },
    /// A member's status ended.
    CureStatus {
        who: Who,
        status: u8,
    },
    /// A stage rose by so many: atk, def, spc, spe, acc, eva, from 0.
    Boost {
        who: Who,
        stat: u8,
        by: u8,
    },
    /// A stage fell by so many.
    Unboost {
        who: Who,
        stat: u8,
        by: u8,
    },
    /// A hit on a member is critical.
    Crit {
        who: Who,
    },
    /// A hit on a member is super effective.
    Super {
        who: Who,
    },
    /// A hit on a member is resisted.
    Resisted {
        who: Who,
    },
    /// A move does nothing to a member.
    Immune {
        who: Who,
    },
    /// A member's move missed.
    Miss {
        who: Who,
    },
    /// A member's move failed.
    Fail {
        who: Who,
    },
    /// Something began: confusion, Substitute, Leech Seed, Reflect, Light Screen, Mist, Focus Energy, Mimic, Disable,
    /// typechange, Bide, from 0, and last the name of `mv`.
    VolStart {
        who: Who,
        effect: u8,
        mv: Option<u16>,
    },
    /// Such a thing ended.
    VolEnd {
        who: Who,
        effect: u8,
    },
    /// Such a thing did something.
    Activate {
        who: Who,
        effect: u8,
        mv: Option<u16>,
    },
    /// A member must recharge.
    MustRecharge {
        who: Who,
    },
    /// A member prepares a move.
    Prepare {
        who: Who,
        mv: u16,
    },
    /// A member takes the form of another.
    Transform {
        who: Who,
        target: Who,
    },
    /// A member was hit so often.
    HitCount {
        who: Who,
        hits: u8,
    },
    /// All stages are gone.
    ClearAll,
    /// A member fainted.
    Faint {
        who: Who,
    },
    /// The acts are over.
    #[default]
    Upkeep,
    /// A turn begins, from 1.
    Turn {
        turn: u16,
    },
    /// A side gives up.
    Forfeit {
        side: Side,
    },
    /// A side wins.
    Win {
        side: Side,
    },
    /// Nobody wins.
    Tie,
    /// A side is asked for its choice, or told to wait.
    Request {
        side: Side,
    },
}

/// The events of one entry.
pub type Events = ArrayVec<Event, 160>;
