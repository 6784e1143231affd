//! What players ask for, and which choices are legal.
use crate::made;
use crate::steps::{
    DISABLED, FALLEN, FALLEN_ON_THE_BENCH, FRESH, HELD, HELD_AND_FALLEN, MIMICKED,
    MIMICKED_AND_SPENT, PREVIEWED, SPENT, SPENT_AND_DISABLED, Steps, TIED, TIRED, TRANSFORMED,
    TWICE_FALLEN, USELESS, USELESS_AND_HELD, WAITING, WON, battle_after,
};
use crate::texts::SMALL_DEX;
use ps_choice::legality::legal;
use ps_choice::resolution::resolve;
use ps_choice::wanted::{Wanted, read_choice};
use ps_dex::dex::Dex;
use ps_mon::choice::{Choice, ChoiceFault};
use std::process::Abort;

// ---- what a text asks for

type WantCase = (&'static str, Option<Wanted<'static>>);

/// One digit is a number, and every other text behind `move ` a name.
const WANTS: &[WantCase] = &[
    ("move 1", Some(Wanted::Move(1))),
    ("move 0", Some(Wanted::Move(0))),
    ("move 9", Some(Wanted::Move(9))),
    ("move rest", Some(Wanted::Named("rest"))),
    ("move Body-Slam!", Some(Wanted::Named("Body-Slam!"))),
    ("move 12", Some(Wanted::Named("12"))),
    ("move 1 ", Some(Wanted::Named("1 "))),
    ("move  1", Some(Wanted::Named(" 1"))),
    ("move -1", Some(Wanted::Named("-1"))),
    ("move \u{661}", Some(Wanted::Named("\u{661}"))),
    ("switch 0", Some(Wanted::Switch(0))),
    ("switch 2", Some(Wanted::Switch(2))),
    ("switch 9", Some(Wanted::Switch(9))),
    ("team 1", Some(Wanted::Team("1"))),
    ("team 0", Some(Wanted::Team("0"))),
    ("team 654321", Some(Wanted::Team("654321"))),
    ("default", Some(Wanted::Default)),
];

/// Texts that say nothing.
const NEAR_MISSES: &[&str] = &[
    "",
    "move",
    "move ",
    "move1",
    "Move 1",
    " move 1",
    "switch",
    "switch ",
    "switch 12",
    "switch x",
    "switch 2 ",
    "Switch 2",
    "team",
    "team ",
    "team x",
    "team 1x",
    "team 12 ",
    "team 1234567",
    "Team 1",
    " default",
    "default ",
    "Default",
    "jump",
];

fn wanted_in(text: &str) -> Option<Wanted<'_>> {
    read_choice(text)
}

fn asks_for(rt: &impl Abort, text: &str, wanted: Option<Wanted<'_>>) {
    assert_eq!(rt; (text, wanted_in(text)), (text, wanted));
}

fn wants_hold(rt: &impl Abort) {
    for (text, wanted) in WANTS {
        asks_for(rt, text, *wanted);
    }
}

fn near_misses_ask_for_nothing(rt: &impl Abort) {
    for text in NEAR_MISSES {
        asks_for(rt, text, None);
    }
}

#[test]
fn texts_of_choices(rt: HostRuntime) {
    wants_hold(&rt);
    near_misses_ask_for_nothing(&rt);
}

// ---- which choice a text is

const NOT_YOUR_TURN: ChoiceFault = ChoiceFault::NotYourTurn;

const WRONG_PHASE: ChoiceFault = ChoiceFault::WrongPhase;

const LOCKED: ChoiceFault = ChoiceFault::Locked;

const NO_SUCH_MOVE: ChoiceFault = ChoiceFault::NoSuchMove;

const NO_PP: ChoiceFault = ChoiceFault::NoPp;

const NO_SUCH_MEMBER: ChoiceFault = ChoiceFault::NoSuchMember;

const ALREADY_OUT: ChoiceFault = ChoiceFault::AlreadyOut;

const FAINTED: ChoiceFault = ChoiceFault::Fainted;

/// What a text comes to.
#[derive(Clone, Copy, Debug, PartialEq, Eq)]
enum Answer {
    /// A text that is no choice.
    Nothing,
    Is(Choice),
    Not(ChoiceFault),
}

type Cases = &'static [(&'static str, Answer)];

const GOES_ON: Answer = Answer::Is(Choice::Continue);

const STRUGGLES: Answer = Answer::Is(Choice::Struggle);

const SLOT_1: Answer = Answer::Is(Choice::Move(1));

const SLOT_2: Answer = Answer::Is(Choice::Move(2));

const SLOT_3: Answer = Answer::Is(Choice::Move(3));

const POSITION_2: Answer = Answer::Is(Choice::Switch(2));

const POSITION_3: Answer = Answer::Is(Choice::Switch(3));

const AS_IT_STANDS: Answer = Answer::Is(Choice::Team([1, 2, 3, 0, 0, 0]));

/// What a text of Ann, who has three members, comes to.
fn told_of(dex: &Dex, steps: Steps, text: &str) -> Answer {
    let Some(wanted) = wanted_in(text) else {
        return Answer::Nothing;
    };
    let battle = battle_after(dex.facts(), 3, steps);
    match resolve(&battle, dex, 0, wanted) {
        Ok(choice) => Answer::Is(choice),
        Err(fault) => Answer::Not(fault),
    }
}

fn answer_holds(rt: &impl Abort, dex: &Dex, steps: Steps, case: &(&'static str, Answer)) {
    let (text, wanted) = case;
    assert_eq!(rt; (text, told_of(dex, steps, text)), (text, *wanted));
}

/// What happens before, and what texts come to then.
type Table = (Steps, Cases);

fn table_holds(rt: &impl Abort, dex: &Dex, table: &Table) {
    let (steps, cases) = table;
    for case in *cases {
        answer_holds(rt, dex, *steps, case);
    }
}

fn answers_hold(rt: &impl Abort, dex: &Dex, tables: &[Table]) {
    for table in tables {
        table_holds(rt, dex, table);
    }
}

/// Slots by number and by name. Tackle is a move of the dex that Tauros hasn't.
const OF_FRESH: Cases = &[
    ("move 1", SLOT_1),
    ("move 3", SLOT_3),
    ("move 0", Answer::Not(NO_SUCH_MOVE)),
    ("move 4", Answer::Not(NO_SUCH_MOVE)),
    ("move bodyslam", SLOT_1),
    ("move Body-Slam!", SLOT_1),
    ("move EARTH quake", SLOT_3),
    ("move tackle", Answer::Not(NO_SUCH_MOVE)),
    ("move 12", Answer::Not(NO_SUCH_MOVE)),
    ("move 1 ", Answer::Not(NO_SUCH_MOVE)),
    ("move !", Answer::Not(NO_SUCH_MOVE)),
    ("move struggle", Answer::Not(NO_SUCH_MOVE)),
    ("move recharge", Answer::Not(NO_SUCH_MOVE)),
    ("default", SLOT_1),
    ("jump", Answer::Nothing),
];

const SWITCHES_OF_FRESH: Cases = &[
    ("switch 2", POSITION_2),
    ("switch 3", POSITION_3),
    ("switch 0", Answer::Not(NO_SUCH_MEMBER)),
    ("switch 4", Answer::Not(NO_SUCH_MEMBER)),
    ("switch 1", Answer::Not(ALREADY_OUT)),
    ("switch 12", Answer::Nothing),
    ("team 1", Answer::Not(WRONG_PHASE)),
    ("team 0", Answer::Not(WRONG_PHASE)),
];

/// Under a lock. What has another fault too is Locked first.
const OF_HELD: Cases = &[
    ("move 1", GOES_ON),
    ("move earthquake", GOES_ON),
    ("move Earth-Quake", GOES_ON),
    ("default", GOES_ON),
    ("move 3", Answer::Not(LOCKED)),
    ("move bodyslam", Answer::Not(LOCKED)),
    ("move recharge", Answer::Not(LOCKED)),
    ("move struggle", Answer::Not(LOCKED)),
    ("move xyz", Answer::Not(LOCKED)),
    ("move 0", Answer::Not(LOCKED)),
    ("switch 2", Answer::Not(LOCKED)),
    ("switch 1", Answer::Not(LOCKED)),
    ("switch 0", Answer::Not(LOCKED)),
];

const OF_TIRED: Cases = &[
    ("move 1", GOES_ON),
    ("move recharge", GOES_ON),
    ("move Re-Charge", GOES_ON),
    ("default", GOES_ON),
    ("move 2", Answer::Not(LOCKED)),
    ("move bodyslam", Answer::Not(LOCKED)),
    ("switch 2", Answer::Not(LOCKED)),
];

const OF_SPENT: Cases = &[
    ("move 1", Answer::Not(NO_PP)),
    ("move bodyslam", Answer::Not(NO_PP)),
    ("move 2", SLOT_2),
    ("default", SLOT_2),
];

const OF_DISABLED: Cases = &[
    ("move 1", Answer::Not(ChoiceFault::Disabled)),
    ("move bodyslam", Answer::Not(ChoiceFault::Disabled)),
    ("move 2", SLOT_2),
    ("default", SLOT_2),
];

/// NoPp is told before Disabled.
const OF_SPENT_AND_DISABLED: Cases = &[("move 1", Answer::Not(NO_PP)), ("default", SLOT_2)];

const OF_USELESS: Cases = &[
    ("move 1", STRUGGLES),
    ("move struggle", STRUGGLES),
    ("move Struggle!", STRUGGLES),
    ("default", STRUGGLES),
    ("move bodyslam", Answer::Not(NO_PP)),
    ("move 2", Answer::Not(NO_PP)),
    ("move 3", Answer::Not(ChoiceFault::Disabled)),
    ("move 4", Answer::Not(NO_SUCH_MOVE)),
    ("switch 2", POSITION_2),
];

/// To go on comes before Struggle.
const OF_USELESS_AND_HELD: Cases = &[
    ("default", GOES_ON),
    ("move 1", GOES_ON),
    ("move struggle", Answer::Not(LOCKED)),
];

const OF_FALLEN_ON_THE_BENCH: Cases = &[
    ("switch 2", Answer::Not(FAINTED)),
    ("switch 3", POSITION_3),
    ("default", SLOT_1),
];

/// Slots in force. A name is the lowest slot with its move, also where that one is without PP.
const OF_MIMICKED_AND_SPENT: Cases = &[
    ("move bodyslam", Answer::Not(NO_PP)),
    ("move 2", SLOT_2),
    ("move blizzard", Answer::Not(NO_SUCH_MOVE)),
    ("default", SLOT_2),
];

const OF_MIMICKED: Cases = &[("move bodyslam", SLOT_1)];

const OF_TRANSFORMED: Cases = &[
    ("move rest", SLOT_2),
    ("move 2", SLOT_2),
    ("move 3", Answer::Not(NO_SUCH_MOVE)),
    ("move earthquake", Answer::Not(NO_SUCH_MOVE)),
];

const OF_A_TURN: &[Table] = &[
    (FRESH, OF_FRESH),
    (FRESH, SWITCHES_OF_FRESH),
    (HELD, OF_HELD),
    (TIRED, OF_TIRED),
    (SPENT, OF_SPENT),
    (DISABLED, OF_DISABLED),
    (SPENT_AND_DISABLED, OF_SPENT_AND_DISABLED),
    (USELESS, OF_USELESS),
    (USELESS_AND_HELD, OF_USELESS_AND_HELD),
    (FALLEN_ON_THE_BENCH, OF_FALLEN_ON_THE_BENCH),
    (MIMICKED, OF_MIMICKED),
    (MIMICKED_AND_SPENT, OF_MIMICKED_AND_SPENT),
    (TRANSFORMED, OF_TRANSFORMED),
];

/// The active member has fainted, so that position 1 has two faults. A move is told to be wrong before its name is looked up.
const OF_FALLEN: Cases = &[
    ("switch 2", POSITION_2),
    ("switch 3", POSITION_3),
    ("default", POSITION_2),
    ("switch 1", Answer::Not(ALREADY_OUT)),
    ("switch 0", Answer::Not(NO_SUCH_MEMBER)),
    ("switch 4", Answer::Not(NO_SUCH_MEMBER)),
    ("move 1", Answer::Not(WRONG_PHASE)),
    ("move 0", Answer::Not(WRONG_PHASE)),
    ("move xyz", Answer::Not(WRONG_PHASE)),
    ("move struggle", Answer::Not(WRONG_PHASE)),
    ("team 2", Answer::Not(WRONG_PHASE)),
];

/// Digits name those that are to stand first, and the others follow in their order.
const OF_PREVIEWED: Cases = &[
    ("team 1", AS_IT_STANDS),
    ("default", AS_IT_STANDS),
    ("team 3", Answer::Is(Choice::Team([3, 1, 2, 0, 0, 0]))),
    ("team 32", Answer::Is(Choice::Team([3, 2, 1, 0, 0, 0]))),
    ("team 213", Answer::Is(Choice::Team([2, 1, 3, 0, 0, 0]))),
    ("team 0", Answer::Not(NO_SUCH_MEMBER)),
    ("team 4", Answer::Not(NO_SUCH_MEMBER)),
    ("team 11", Answer::Not(NO_SUCH_MEMBER)),
    ("team 120", Answer::Not(NO_SUCH_MEMBER)),
    ("team 1231", Answer::Not(NO_SUCH_MEMBER)),
    ("team 123456", Answer::Not(NO_SUCH_MEMBER)),
    ("move 1", Answer::Not(WRONG_PHASE)),
    ("move xyz", Answer::Not(WRONG_PHASE)),
    ("move struggle", Answer::Not(WRONG_PHASE)),
    ("switch 2", Answer::Not(WRONG_PHASE)),
    ("switch 1", Answer::Not(WRONG_PHASE)),
    ("jump", Answer::Nothing),
];

/// A lock holds nobody there.
const OF_HELD_AND_FALLEN: Cases = &[
    ("switch 2", POSITION_2),
    ("default", POSITION_2),
    ("move 1", Answer::Not(WRONG_PHASE)),
    ("move earthquake", Answer::Not(WRONG_PHASE)),
];

const OF_TWICE_FALLEN: Cases = &[
    ("default", POSITION_3),
    ("switch 3", POSITION_3),
    ("switch 2", Answer::Not(FAINTED)),
    ("switch 1", Answer::Not(ALREADY_OUT)),
];

/// Whatever else is wrong.
const OF_WAITING: Cases = &[
    ("move 1", Answer::Not(NOT_YOUR_TURN)),
    ("move xyz", Answer::Not(NOT_YOUR_TURN)),
    ("switch 2", Answer::Not(NOT_YOUR_TURN)),
    ("switch 0", Answer::Not(NOT_YOUR_TURN)),
    ("default", Answer::Not(NOT_YOUR_TURN)),
    ("team 1", Answer::Not(NOT_YOUR_TURN)),
    ("team 0", Answer::Not(NOT_YOUR_TURN)),
    ("jump", Answer::Nothing),
];

const OF_NO_TURN: &[Table] = &[
    (FALLEN, OF_FALLEN),
    (HELD_AND_FALLEN, OF_HELD_AND_FALLEN),
    (TWICE_FALLEN, OF_TWICE_FALLEN),
    (PREVIEWED, OF_PREVIEWED),
    (WAITING, OF_WAITING),
    (WON, OF_WAITING),
    (TIED, OF_WAITING),
];

#[test]
fn choices_of_each_phase(rt: HostRuntime) {
    let dex = made::dex(&rt, rt.alloc(), SMALL_DEX);
    answers_hold(&rt, &dex, OF_A_TURN);
    answers_hold(&rt, &dex, OF_NO_TURN);
}

/// Aliases of three moves, two of them with the names of what isn't a move.
const ALIAS_DEX: &str = r#"{"types":[{"name":"Normal","special":false}],"moves":[
{"name":"Body Slam","type":"Normal","power":85,"accuracy":100,"pp":24,"priority":0},
{"name":"Hyper Beam","type":"Normal","power":150,"accuracy":90,"pp":8,"priority":0},
{"name":"Blizzard","type":"Normal","power":120,"accuracy":90,"pp":8,"priority":0},
{"name":"Earthquake","type":"Normal","power":100,"accuracy":100,"pp":16,"priority":0}],
"aliases":{"slam":"Body Slam","quake":"Earthquake","struggle":"Blizzard","recharge":"Earthquake","beam":"Hyper Beam"}}"#;

const ALIASES: Cases = &[
    ("move slam", SLOT_1),
    ("move SLAM", SLOT_1),
    ("move quake", SLOT_3),
    ("move struggle", SLOT_2),
    ("move recharge", SLOT_3),
    ("move beam", Answer::Not(NO_SUCH_MOVE)),
];

/// An alias of the lock's move goes on, whatever its name.
const ALIASES_OF_HELD: Cases = &[
    ("move quake", GOES_ON),
    ("move recharge", GOES_ON),
    ("move slam", Answer::Not(LOCKED)),
    ("move struggle", Answer::Not(LOCKED)),
];

const ALIASES_OF_TIRED: Cases = &[
    ("move recharge", GOES_ON),
    ("move quake", Answer::Not(LOCKED)),
];

const ALIASES_OF_USELESS: Cases = &[
    ("move struggle", STRUGGLES),
    ("move recharge", Answer::Not(ChoiceFault::Disabled)),
    ("move slam", Answer::Not(NO_PP)),
];

const BY_ALIAS: &[Table] = &[
    (FRESH, ALIASES),
    (HELD, ALIASES_OF_HELD),
    (TIRED, ALIASES_OF_TIRED),
    (USELESS, ALIASES_OF_USELESS),
];

#[test]
fn choices_by_alias(rt: HostRuntime) {
    let dex = made::dex(&rt, rt.alloc(), ALIAS_DEX);
    answers_hold(&rt, &dex, BY_ALIAS);
}

// ---- which choice is legal

/// What happens before, a choice, and its fault.
type LegalCase = (Steps, Choice, Option<ChoiceFault>);

/// Choices without a fault, and each fault where no other holds.
const SINGLE_FAULTS: [LegalCase; 22] = [
    (PREVIEWED, Choice::Team([3, 1, 2, 0, 0, 0]), None),
    (
        PREVIEWED,
        Choice::Team([3, 1, 0, 0, 0, 0]),
        Some(NO_SUCH_MEMBER),
    ),
    (
        PREVIEWED,
        Choice::Team([3, 1, 2, 4, 0, 0]),
        Some(NO_SUCH_MEMBER),
    ),
    (
        PREVIEWED,
        Choice::Team([3, 1, 2, 0, 0, 1]),
        Some(NO_SUCH_MEMBER),
    ),
    (PREVIEWED, Choice::Switch(2), Some(WRONG_PHASE)),
    (FRESH, Choice::Team([3, 1, 2, 0, 0, 0]), Some(WRONG_PHASE)),
    (FRESH, Choice::Move(3), None),
    (FRESH, Choice::Switch(3), None),
    (HELD, Choice::Continue, None),
    (TIRED, Choice::Continue, None),
    (USELESS, Choice::Struggle, None),
    (FALLEN, Choice::Switch(2), None),
    (WAITING, Choice::Switch(2), Some(NOT_YOUR_TURN)),
    (FRESH, Choice::Pass, Some(WRONG_PHASE)),
    (FRESH, Choice::Continue, Some(LOCKED)),
    (FRESH, Choice::Struggle, Some(NO_SUCH_MOVE)),
    (FRESH, Choice::Move(255), Some(NO_SUCH_MOVE)),
    (SPENT, Choice::Move(1), Some(NO_PP)),
    (DISABLED, Choice::Move(1), Some(ChoiceFault::Disabled)),
    (FRESH, Choice::Switch(255), Some(NO_SUCH_MEMBER)),
    (FRESH, Choice::Switch(1), Some(ALREADY_OUT)),
    (TWICE_FALLEN, Choice::Switch(2), Some(FAINTED)),
];

/// Two faults hold, or more.
const SEVERAL_FAULTS: [LegalCase; 14] = [
    (WAITING, Choice::Pass, Some(NOT_YOUR_TURN)),
    (WAITING, Choice::Move(0), Some(NOT_YOUR_TURN)),
    (WON, Choice::Pass, Some(NOT_YOUR_TURN)),
    (HELD, Choice::Pass, Some(WRONG_PHASE)),
    (FALLEN, Choice::Move(0), Some(WRONG_PHASE)),
    (FALLEN, Choice::Struggle, Some(WRONG_PHASE)),
    (FALLEN, Choice::Continue, Some(WRONG_PHASE)),
    (FALLEN, Choice::Pass, Some(WRONG_PHASE)),
    (HELD, Choice::Move(0), Some(LOCKED)),
    (HELD, Choice::Struggle, Some(LOCKED)),
    (USELESS_AND_HELD, Choice::Move(1), Some(LOCKED)),
    (TIRED, Choice::Switch(1), Some(LOCKED)),
    (SPENT_AND_DISABLED, Choice::Move(1), Some(NO_PP)),
    (FALLEN, Choice::Switch(1), Some(ALREADY_OUT)),
];

fn fault(dex: &Dex, case: &LegalCase) -> Option<ChoiceFault> {
    let (steps, choice, _) = case;
    let battle = battle_after(dex.facts(), 3, *steps);
    match legal(&battle, 0, *choice) {
        Ok(()) => None,
        Err(fault) => Some(fault),
    }
}

fn fault_holds(rt: &impl Abort, dex: &Dex, index: usize, case: &LegalCase) {
    assert_eq!(rt; (index, fault(dex, case)), (index, case.2));
}

fn faults_hold(rt: &impl Abort, dex: &Dex, cases: &[LegalCase]) {
    for (index, case) in cases.iter().enumerate() {
        fault_holds(rt, dex, index, case);
    }
}

fn each_fault_is_told(rt: &impl Abort, dex: &Dex) {
    let cases = SINGLE_FAULTS;
    faults_hold(rt, dex, &cases);
}

fn faults_are_told_in_their_order(rt: &impl Abort, dex: &Dex) {
    let cases = SEVERAL_FAULTS;
    faults_hold(rt, dex, &cases);
}

#[test]
fn faults_of_choices(rt: HostRuntime) {
    let dex = made::dex(&rt, rt.alloc(), SMALL_DEX);
    each_fault_is_told(&rt, &dex);
    faults_are_told_in_their_order(&rt, &dex);
}
