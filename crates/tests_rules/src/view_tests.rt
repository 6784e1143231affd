//! Lines of events of a battle, for each role: those that no stored run has.
use crate::arena::{ANN, ANN_2, BOB, nicks, text_of};
use crate::made;
use crate::texts::SMALL_DEX;
use ps_base::name::Name;
use ps_base::text::Text;
use ps_dex::dex::Dex;
use ps_event::event::{Event, Health};
use ps_event::side::Side;
use ps_view::line::line_for;
use ps_view::names::Names;
use ps_view::role::Role;
use std::alloc::{AllocError, Global};
use std::process::Abort;

const BODY_SLAM: u16 = 0;

const HYPER_BEAM: u16 = 1;

const TACKLE: u16 = 5;

const REST: u16 = 6;

/// Struggle's number, past every dex.
const STRUGGLE: u16 = 1024;

/// What lines are made over.
#[derive(Drop)]
struct Stage {
    names: Names,
    dex: Dex,
}

/// An event, and its line.
type Case = (Event, &'static str);

/// An event that tells health, its line for who owns it, and that for all others: in hundredths under HP Percentage Mod, and in
/// 48ths without it.
type HealthCase = (Event, &'static str, &'static str, &'static str);

fn player(rt: &impl Abort, alloc: Global, name: &str) -> Name {
    Name::new(alloc, name).expect(rt, "memory")
}

/// Ann with two members against Bob with one.
fn names(rt: &impl Abort, alloc: Global, percent: bool) -> Names {
    let players = [player(rt, alloc, "Ann"), player(rt, alloc, "Bob")];
    let nicks = [
        nicks(rt, alloc, &["Tauros", "Bull"]),
        nicks(rt, alloc, &["Snorlax"]),
    ];
    Names {
        players,
        nicks,
        format: text_of(rt, alloc, "[Gen 1] OU"),
        percent,
    }
}

/// What an event shows a role: its line, or `nothing`.
fn shown(alloc: Global, stage: &Stage, role: Role, event: &Event) -> Result<Text, AllocError> {
    match line_for(alloc, event, role, &stage.names, &stage.dex)? {
        None => Text::copy_of(alloc, "nothing"),
        Some(line) => Ok(line),
    }
}

/// An event shows a role that line.
fn shows(rt: &impl Abort, alloc: Global, stage: &Stage, role: Role, case: &Case) {
    let (event, wanted) = case;
    let line = shown(alloc, stage, role, event).expect(rt, "memory");
    assert_eq!(rt; line.as_str(), *wanted);
}

const SPECTATOR: Role = Role::Spectator { rank: 5 };

/// The highest rank.
const STAFF: Role = Role::Spectator { rank: 0 };

const PLAYER_1: Role = Role::Player {
    side: Side::P1,
    rank: 5,
};

const PLAYER_2: Role = Role::Player {
    side: Side::P2,
    rank: 5,
};

/// The second player, of the highest rank.
const PLAYER_2_AND_STAFF: Role = Role::Player {
    side: Side::P2,
    rank: 0,
};

const MEMBERS: &[Role] = &[SPECTATOR, STAFF, PLAYER_1, PLAYER_2, PLAYER_2_AND_STAFF];

/// An event shows each role that line.
fn shows_each(rt: &impl Abort, alloc: Global, stage: &Stage, roles: &[Role], case: &Case) {
    for role in roles {
        shows(rt, alloc, stage, *role, case);
    }
}

/// All members are shown that line, and who is outside nothing.
fn shows_all(rt: &impl Abort, alloc: Global, stage: &Stage, case: &Case) {
    shows(rt, alloc, stage, Role::Outside, &(case.0, "nothing"));
    shows_each(rt, alloc, stage, MEMBERS, case);
}

fn cases_hold(rt: &impl Abort, alloc: Global, stage: &Stage, cases: &[Case]) {
    for case in cases {
        shows_all(rt, alloc, stage, case);
    }
}

/// Lines that no stored run has, but for moves and for what numbers say.
const PLAIN: &[Case] = &[
    (
        Event::Poke {
            side: Side::P1,
            species: 0,
            level: 50,
        },
        "|poke|p1|Tauros, L50|",
    ),
    (Event::ClearAll, "|-clearallboost"),
    (Event::Turn { turn: 999 }, "|turn|999"),
    (Event::Request { side: Side::P1 }, "nothing"),
    (Event::Request { side: Side::P2 }, "nothing"),
    (Event::Super { who: BOB }, "|-supereffective|p2a: Snorlax"),
    (Event::Resisted { who: BOB }, "|-resisted|p2a: Snorlax"),
    (Event::Immune { who: BOB }, "|-immune|p2a: Snorlax"),
    (Event::Miss { who: ANN }, "|-miss|p1a: Tauros"),
    (
        Event::HitCount { who: BOB, hits: 5 },
        "|-hitcount|p2a: Snorlax|5",
    ),
];

/// Moves that are only prepared, called or going on, both, and Struggle.
const MOVES: &[Case] = &[
    (
        Event::Move {
            who: ANN,
            mv: HYPER_BEAM,
            target: BOB,
            still: true,
            from: None,
        },
        "|move|p1a: Tauros|Hyper Beam|p2a: Snorlax|[still]",
    ),
    (
        Event::Move {
            who: ANN_2,
            mv: BODY_SLAM,
            target: BOB,
            still: false,
            from: Some(TACKLE),
        },
        "|move|p1a: Bull|Body Slam|p2a: Snorlax|[from]Tackle",
    ),
    (
        Event::Move {
            who: ANN,
            mv: HYPER_BEAM,
            target: BOB,
            still: true,
            from: Some(TACKLE),
        },
        "|move|p1a: Tauros|Hyper Beam|p2a: Snorlax|[still]|[from]Tackle",
    ),
    (
        Event::Move {
            who: BOB,
            mv: STRUGGLE,
            target: ANN,
            still: false,
            from: None,
        },
        "|move|p2a: Snorlax|Struggle|p1a: Tauros",
    ),
];

/// What names a move beside.
const NAMED: &[Case] = &[
    (
        Event::Prepare {
            who: ANN,
            mv: HYPER_BEAM,
        },
        "|-prepare|p1a: Tauros|Hyper Beam",
    ),
    (
        Event::VolStart {
            who: ANN,
            effect: 7,
            mv: Some(REST),
        },
        "|-start|p1a: Tauros|Mimic|Rest",
    ),
    (
        Event::VolStart {
            who: BOB,
            effect: 8,
            mv: Some(BODY_SLAM),
        },
        "|-start|p2a: Snorlax|Disable|Body Slam",
    ),
    (
        Event::Activate {
            who: ANN,
            effect: 11,
            mv: Some(TACKLE),
        },
        "|-activate|p1a: Tauros|Tackle",
    ),
];

/// Numbers by their words, those that no stored run has.
const NUMBERED: &[Case] = &[
    (Event::Rule { clause: 3 }, "|rule|OHKO Clause"),
    (Event::Rule { clause: 4 }, "|rule|Evasion Moves Clause"),
    (Event::Rule { clause: 5 }, "|rule|Nickname Clause"),
    (
        Event::Status {
            who: ANN,
            status: 3,
        },
        "|-status|p1a: Tauros|brn",
    ),
    (
        Event::CureStatus {
            who: ANN,
            status: 5,
        },
        "|-curestatus|p1a: Tauros|tox",
    ),
    (
        Event::Boost {
            who: ANN,
            stat: 0,
            by: 2,
        },
        "|-boost|p1a: Tauros|atk|2",
    ),
    (
        Event::Boost {
            who: ANN,
            stat: 1,
            by: 2,
        },
        "|-boost|p1a: Tauros|def|2",
    ),
    (
        Event::Boost {
            who: ANN,
            stat: 2,
            by: 2,
        },
        "|-boost|p1a: Tauros|spc|2",
    ),
    (
        Event::Boost {
            who: ANN,
            stat: 3,
            by: 2,
        },
        "|-boost|p1a: Tauros|spe|2",
    ),
    (
        Event::Boost {
            who: ANN,
            stat: 4,
            by: 2,
        },
        "|-boost|p1a: Tauros|acc|2",
    ),
    (
        Event::Boost {
            who: ANN,
            stat: 5,
            by: 2,
        },
        "|-boost|p1a: Tauros|eva|2",
    ),
    (
        Event::Unboost {
            who: ANN,
            stat: 0,
            by: 12,
        },
        "|-unboost|p1a: Tauros|atk|12",
    ),
    (
        Event::Unboost {
            who: ANN,
            stat: 5,
            by: 12,
        },
        "|-unboost|p1a: Tauros|eva|12",
    ),
    (
        Event::VolStart {
            who: ANN,
            effect: 4,
            mv: None,
        },
        "|-start|p1a: Tauros|Light Screen",
    ),
];

const TABLES: [&[Case]; 4] = [PLAIN, MOVES, NAMED, NUMBERED];

fn make_stage(rt: &impl Abort, alloc: Global, percent: bool) -> Stage {
    let dex = made::dex(rt, alloc, SMALL_DEX);
    Stage {
        names: names(rt, alloc, percent),
        dex,
    }
}

/// 331 of 353 are 94 hundredths, rounded up, and 45 48ths, rounded down.
const HURT: Health = Health {
    hp: 331,
    max: 353,
    status: 0,
};

const ALMOST_GONE: Health = Health {
    hp: 1,
    max: 703,
    status: 6,
};

/// Losses of Ann's member name what they are from.
const LOSSES: &[HealthCase] = &[
    (
        Event::Damage {
            who: ANN,
            health: HURT,
            from: 0,
        },
        "|-damage|p1a: Tauros|331/353",
        "|-damage|p1a: Tauros|94/100",
        "|-damage|p1a: Tauros|45/48",
    ),
    (
        Event::Damage {
            who: ANN,
            health: HURT,
            from: 1,
        },
        "|-damage|p1a: Tauros|331/353|[from] psn",
        "|-damage|p1a: Tauros|94/100|[from] psn",
        "|-damage|p1a: Tauros|45/48|[from] psn",
    ),
    (
        Event::Damage {
            who: ANN,
            health: HURT,
            from: 2,
        },
        "|-damage|p1a: Tauros|331/353|[from] brn",
        "|-damage|p1a: Tauros|94/100|[from] brn",
        "|-damage|p1a: Tauros|45/48|[from] brn",
    ),
    (
        Event::Damage {
            who: ANN,
            health: HURT,
            from: 3,
        },
        "|-damage|p1a: Tauros|331/353|[from] Leech Seed",
        "|-damage|p1a: Tauros|94/100|[from] Leech Seed",
        "|-damage|p1a: Tauros|45/48|[from] Leech Seed",
    ),
    (
        Event::Damage {
            who: ANN,
            health: HURT,
            from: 4,
        },
        "|-damage|p1a: Tauros|331/353|[from] Recoil",
        "|-damage|p1a: Tauros|94/100|[from] Recoil",
        "|-damage|p1a: Tauros|45/48|[from] Recoil",
    ),
    (
        Event::Damage {
            who: ANN,
            health: HURT,
            from: 5,
        },
        "|-damage|p1a: Tauros|331/353|[from] confusion",
        "|-damage|p1a: Tauros|94/100|[from] confusion",
        "|-damage|p1a: Tauros|45/48|[from] confusion",
    ),
    (
        Event::Damage {
            who: ANN,
            health: HURT,
            from: 6,
        },
        "|-damage|p1a: Tauros|331/353|[from] crash",
        "|-damage|p1a: Tauros|94/100|[from] crash",
        "|-damage|p1a: Tauros|45/48|[from] crash",
    ),
];

/// Ann's second member comes in. The level is told where it isn't 100.
const SWITCHES: &[HealthCase] = &[
    (
        Event::Switch {
            who: ANN_2,
            species: 0,
            level: 100,
            health: ALMOST_GONE,
        },
        "|switch|p1a: Bull|Tauros|1/703 frz",
        "|switch|p1a: Bull|Tauros|1/100 frz",
        "|switch|p1a: Bull|Tauros|1/48 frz",
    ),
    (
        Event::Switch {
            who: ANN_2,
            species: 0,
            level: 50,
            health: ALMOST_GONE,
        },
        "|switch|p1a: Bull|Tauros, L50|1/703 frz",
        "|switch|p1a: Bull|Tauros, L50|1/100 frz",
        "|switch|p1a: Bull|Tauros, L50|1/48 frz",
    ),
    (
        Event::Switch {
            who: ANN_2,
            species: 0,
            level: 1,
            health: ALMOST_GONE,
        },
        "|switch|p1a: Bull|Tauros, L1|1/703 frz",
        "|switch|p1a: Bull|Tauros, L1|1/100 frz",
        "|switch|p1a: Bull|Tauros, L1|1/48 frz",
    ),
];

/// Bob's member gains health.
const GAINS: &[HealthCase] = &[
    (
        Event::Heal {
            who: BOB,
            health: Health {
                hp: 523,
                max: 523,
                status: 0,
            },
        },
        "|-heal|p2a: Snorlax|523/523",
        "|-heal|p2a: Snorlax|100/100",
        "|-heal|p2a: Snorlax|48/48",
    ),
    (
        Event::Heal {
            who: BOB,
            health: Health {
                hp: 382,
                max: 523,
                status: 0,
            },
        },
        "|-heal|p2a: Snorlax|382/523",
        "|-heal|p2a: Snorlax|74/100",
        "|-heal|p2a: Snorlax|35/48",
    ),
    (
        Event::Heal {
            who: BOB,
            health: Health {
                hp: 403,
                max: 523,
                status: 5,
            },
        },
        "|-heal|p2a: Snorlax|403/523 tox",
        "|-heal|p2a: Snorlax|78/100 tox",
        "|-heal|p2a: Snorlax|36/48 tox",
    ),
    (
        Event::Heal {
            who: BOB,
            health: Health {
                hp: 352,
                max: 353,
                status: 4,
            },
        },
        "|-heal|p2a: Snorlax|352/353 psn",
        "|-heal|p2a: Snorlax|99/100 psn",
        "|-heal|p2a: Snorlax|47/48 psn",
    ),
    (
        Event::Heal {
            who: BOB,
            health: Health {
                hp: 1,
                max: 703,
                status: 2,
            },
        },
        "|-heal|p2a: Snorlax|1/703 par",
        "|-heal|p2a: Snorlax|1/100 par",
        "|-heal|p2a: Snorlax|1/48 par",
    ),
    (
        Event::Heal {
            who: BOB,
            health: Health {
                hp: 0,
                max: 353,
                status: 0,
            },
        },
        "|-heal|p2a: Snorlax|0 fnt",
        "|-heal|p2a: Snorlax|0 fnt",
        "|-heal|p2a: Snorlax|0 fnt",
    ),
    (
        Event::Heal {
            who: BOB,
            health: Health {
                hp: 0,
                max: 353,
                status: 3,
            },
        },
        "|-heal|p2a: Snorlax|0 fnt",
        "|-heal|p2a: Snorlax|0 fnt",
        "|-heal|p2a: Snorlax|0 fnt",
    ),
];

/// Who owns members, all others in the room, and events of these members.
type HealthTable = (&'static [Role], &'static [Role], &'static [HealthCase]);

const OWN_1: &[Role] = &[PLAYER_1];

const OTHERS_1: &[Role] = &[SPECTATOR, STAFF, PLAYER_2, PLAYER_2_AND_STAFF];

const OWN_2: &[Role] = &[PLAYER_2, PLAYER_2_AND_STAFF];

const OTHERS_2: &[Role] = &[SPECTATOR, STAFF, PLAYER_1];

const HEALTHS: &[HealthTable] = &[
    (OWN_1, OTHERS_1, LOSSES),
    (OWN_1, OTHERS_1, SWITCHES),
    (OWN_2, OTHERS_2, GAINS),
];

/// What is split is read exactly by the player of its side, of whatever rank, and by nobody else; who is outside is shown nothing.
fn splits(
    rt: &impl Abort,
    alloc: Global,
    stage: &Stage,
    own: &[Role],
    others: &[Role],
    case: &HealthCase,
) {
    let (event, exact, percent, pixels) = case;
    let public = if stage.names.percent { percent } else { pixels };
    shows(rt, alloc, stage, Role::Outside, &(*event, "nothing"));
    shows_each(rt, alloc, stage, own, &(*event, *exact));
    shows_each(rt, alloc, stage, others, &(*event, *public));
}

fn table_splits(rt: &impl Abort, alloc: Global, stage: &Stage, table: &HealthTable) {
    let (own, others, cases) = table;
    for case in *cases {
        splits(rt, alloc, stage, own, others, case);
    }
}

fn health_is_read_exactly_by_its_side(rt: &impl Abort, alloc: Global, stage: &Stage) {
    for table in HEALTHS {
        table_splits(rt, alloc, stage, table);
    }
}

/// All members read the same line of what tells no health, and who is outside nothing.
fn all_read_the_same(rt: &impl Abort, alloc: Global, stage: &Stage) {
    for cases in TABLES {
        cases_hold(rt, alloc, stage, cases);
    }
}

/// Under HP Percentage Mod.
#[test]
fn lines_in_hundredths(rt: HostRuntime) {
    let stage = make_stage(&rt, rt.alloc(), true);
    all_read_the_same(&rt, rt.alloc(), &stage);
    health_is_read_exactly_by_its_side(&rt, rt.alloc(), &stage);
}

/// Without the clause.
#[test]
fn lines_in_48ths(rt: HostRuntime) {
    let stage = make_stage(&rt, rt.alloc(), false);
    health_is_read_exactly_by_its_side(&rt, rt.alloc(), &stage);
}
