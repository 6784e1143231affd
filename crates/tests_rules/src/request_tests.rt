//! The requests that players are sent.
ghost use Rattle.std.specs.Prelude.{◌<◌};

use crate::arena::nicks;
use crate::made;
use crate::steps::{
    FALLEN, FALLEN_ON_THE_BENCH, FRESH, HELD, MIMICKED, Step, Steps, TIRED, TRANSFORMED, USELESS,
    WAITING, battle_after,
};
use crate::texts::SMALL_DEX;
use ps_choice::request::{SideNames, request_text};
use ps_dex::dex::Dex;
use std::alloc::{AllocError, Global};
use std::process::Abort;

/// A side's request after some steps, as its text says it.
fn request_of(
    rt: &impl Abort,
    alloc: Global,
    dex: &Dex,
    steps: Steps,
    names: SideNames<'_>,
    side: u8,
    round: u32,
) -> String
    requires { side < 2 }
{
    let battle = battle_after(dex.facts(), 2, steps);
    request_text(alloc, &battle, dex, names, side, round).expect(rt, "memory")
}

/// Ann's request in round 7, with two members.
fn request_of_ann(rt: &impl Abort, alloc: Global, dex: &Dex, steps: Steps) -> String {
    let nicks = nicks(rt, alloc, &["Tauros", "Bull"]);
    let names = SideNames {
        player: "Ann",
        nicks: nicks.as_slice(),
    };
    request_of(rt, alloc, dex, steps, names, 0, 7)
}

/// A request in parts.
type Parts = &'static [&'static str];

const SIDE: &str = r#","rqid":7,"side":{"id":"p1","name":"Ann","pokemon":["#;

const FIRST: &str =
    r#"{"active":true,"condition":"353/353","details":"Tauros","ident":"p1: Tauros","#;

const OWN: &str =
    r#""moves":["bodyslam","blizzard","earthquake"],"stats":{"atk":298,"def":288,"spa":238,"spd":238,"spe":318}}"#;

const SECOND: &str =
    r#",{"active":false,"condition":"353/353","details":"Tauros","ident":"p1: Bull","#;

const END: &str = "]}}";

const SLOTS: &str =
    r#"{"active":[{"moves":[{"disabled":false,"id":"bodyslam","maxpp":24,"move":"Body Slam","pp":1},{"disabled":false,"id":"blizzard","maxpp":8,"move":"Blizzard","pp":1},{"disabled":false,"id":"earthquake","maxpp":16,"move":"Earthquake","pp":1}]}]"#;

const ANN_FRESH: Parts = &[SLOTS, SIDE, FIRST, OWN, SECOND, OWN, END];

/// The first slot is without PP, and the second disabled.
const ANN_HINDERED: Parts = &[
    r#"{"active":[{"moves":[{"disabled":false,"id":"bodyslam","maxpp":24,"move":"Body Slam","pp":0},{"disabled":true,"id":"blizzard","maxpp":8,"move":"Blizzard","pp":1},{"disabled":false,"id":"earthquake","maxpp":16,"move":"Earthquake","pp":1}]}]"#,
    SIDE,
    FIRST,
    OWN,
    SECOND,
    OWN,
    END,
];

const ANN_HELD: Parts = &[
    r#"{"active":[{"moves":[{"id":"earthquake","move":"Earthquake"}]}]"#,
    SIDE,
    FIRST,
    OWN,
    SECOND,
    OWN,
    END,
];

const ANN_TIRED: Parts = &[
    r#"{"active":[{"moves":[{"id":"recharge","move":"Recharge"}]}]"#,
    SIDE,
    FIRST,
    OWN,
    SECOND,
    OWN,
    END,
];

const ANN_USELESS: Parts = &[
    r#"{"active":[{"moves":[{"id":"struggle","move":"Struggle"}]}]"#,
    SIDE,
    FIRST,
    OWN,
    SECOND,
    OWN,
    END,
];

/// The first member has fainted on the bench, so the second stands before it.
const ANN_SECOND: Parts = &[
    SLOTS,
    SIDE,
    r#"{"active":true,"condition":"353/353","details":"Tauros","ident":"p1: Bull","#,
    OWN,
    r#",{"active":false,"condition":"0 fnt","details":"Tauros","ident":"p1: Tauros","#,
    OWN,
    END,
];

/// Who has fainted is active until another comes in.
const ANN_FALLEN: Parts = &[
    r#"{"forceSwitch":[true]"#,
    SIDE,
    r#"{"active":true,"condition":"0 fnt","details":"Tauros","ident":"p1: Tauros","#,
    OWN,
    SECOND,
    OWN,
    END,
];

const ANN_WAITING: Parts = &[
    r#"{"rqid":7,"side":{"id":"p1","name":"Ann","pokemon":["#,
    FIRST,
    OWN,
    SECOND,
    OWN,
    r#"]},"wait":true}"#,
];

const ANN_WEAKENED: Parts = &[
    SLOTS,
    SIDE,
    r#"{"active":true,"condition":"331/353 tox","details":"Tauros, L50","ident":"p1: Tauros","#,
    OWN,
    SECOND,
    OWN,
    END,
];

/// The second slot has Body Slam, and its own PP.
const ANN_AS_MIMIC: Parts = &[
    r#"{"active":[{"moves":[{"disabled":false,"id":"bodyslam","maxpp":24,"move":"Body Slam","pp":1},{"disabled":false,"id":"bodyslam","maxpp":8,"move":"Body Slam","pp":1},{"disabled":false,"id":"earthquake","maxpp":16,"move":"Earthquake","pp":1}]}]"#,
    SIDE,
    FIRST,
    OWN,
    SECOND,
    OWN,
    END,
];

/// The slots of Snorlax, with 5 PP of 5.
const ANN_TRANSFORMED: Parts = &[
    r#"{"active":[{"moves":[{"disabled":false,"id":"bodyslam","maxpp":5,"move":"Body Slam","pp":5},{"disabled":false,"id":"rest","maxpp":5,"move":"Rest","pp":5}]}]"#,
    SIDE,
    FIRST,
    OWN,
    SECOND,
    OWN,
    END,
];

const HINDERED: Steps = [Step::Spend(0), Step::Disable(1), Step::Stay, Step::Stay];

const WEAKENED: Steps = [Step::Weaken, Step::Stay, Step::Stay, Step::Stay];

const REQUESTS: &[(Steps, Parts)] = &[
    (FRESH, ANN_FRESH),
    (HINDERED, ANN_HINDERED),
    (HELD, ANN_HELD),
    (TIRED, ANN_TIRED),
    (USELESS, ANN_USELESS),
    (FALLEN_ON_THE_BENCH, ANN_SECOND),
    (FALLEN, ANN_FALLEN),
    (WAITING, ANN_WAITING),
    (WEAKENED, ANN_WEAKENED),
    (MIMICKED, ANN_AS_MIMIC),
    (TRANSFORMED, ANN_TRANSFORMED),
];

fn whole(alloc: Global, parts: Parts) -> Result<String, AllocError> {
    let mut text = String::new(alloc);
    for part in parts {
        text.push_str(part)?;
    }
    Ok(text)
}

fn request_holds(rt: &impl Abort, alloc: Global, dex: &Dex, case: &(Steps, Parts)) {
    let (steps, parts) = case;
    let text = request_of_ann(rt, alloc, dex, *steps);
    let wanted = whole(alloc, *parts).expect(rt, "memory");
    assert_eq!(rt; text.as_str(), wanted.as_str());
}

fn requests_hold(rt: &impl Abort, alloc: Global, dex: &Dex, cases: &[(Steps, Parts)]) {
    for case in cases {
        request_holds(rt, alloc, dex, case);
    }
}

#[test]
fn requests_tell_what_can_be_chosen(rt: HostRuntime) {
    let dex = made::dex(&rt, rt.alloc(), SMALL_DEX);
    requests_hold(&rt, rt.alloc(), &dex, REQUESTS);
}
