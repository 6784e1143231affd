//! What a battle can start with, and what it can't.
use crate::made;
use crate::made::Setup;
use crate::members::{BODY_SLAM, TAUROS};
use crate::texts::{ONE_MOVE_DEX, SMALL_CONFIG};
use ps_base::list::List;
use ps_base::name::Name;
use ps_base::text::Text;
use ps_mon::status::Status;
use ps_mon::team::{BattleTeam, Member, MoveSlot};
use ps_valid::legal::Legal;
use rules_start::fit::is_fit;
use rules_start::start::Start;
use std::alloc::{AllocError, Global};
use std::process::Abort;

const FAINTED: Member = Member { hp: 0, ..TAUROS };

const BURNT: Member = Member {
    status: Status::Brn,
    ..TAUROS
};

/// Its one move can't be used any more.
const SPENT: Member = Member {
    slots: [MoveSlot { pp: 0, ..BODY_SLAM }; 4],
    ..TAUROS
};

/// It knows a move that the dex hasn't.
const UNKNOWN_MOVE: Member = Member {
    slots: [MoveSlot { mv: 1, ..BODY_SLAM }; 4],
    ..TAUROS
};

/// It is of a species that the dex hasn't.
const UNKNOWN_SPECIES: Member = Member {
    species: 1,
    ..TAUROS
};

fn nicks(alloc: Global, count: u8) -> Result<List<Text>, AllocError> {
    let mut nicks = Vec::new(alloc);
    for _ in 0..count {
        nicks.push(Text::copy_of(alloc, "Bull")?)?;
    }
    Ok(List::from_vec(nicks))
}

/// A team of so many members that are alike, and its nicknames.
fn legal(rt: &impl Abort, alloc: Global, member: Member, counts: (u8, u8)) -> Legal {
    let (count, nicked) = counts;
    let nicks = nicks(alloc, nicked).expect(rt, "memory");
    let team = BattleTeam {
        members: [member; 6],
        count,
    };
    Legal { team, nicks }
}

fn name(rt: &impl Abort, alloc: Global, text: &str) -> Name {
    Name::new(alloc, text).expect(rt, "memory")
}

/// A start of Ann with a good team, in this format, against this name and team.
fn start_of(rt: &impl Abort, alloc: Global, names: (&str, &str), team: Legal) -> Start {
    let (format, foe) = names;
    let players = [name(rt, alloc, "Ann"), name(rt, alloc, foe)];
    let teams = [legal(rt, alloc, TAUROS, (1, 1)), team];
    Start {
        number: 1,
        format: made::id(rt, alloc, format),
        players,
        teams,
        seed: 0,
    }
}

/// Whether a battle with this start can begin over the dex and the configuration.
fn fits(setup: &Setup, start: &Start) -> bool {
    is_fit(start, &setup.config, &setup.dex)
}

/// Whether a start of so many members and nicknames fits.
fn fits_with(
    rt: &impl Abort,
    alloc: Global,
    setup: &Setup,
    names: (&str, &str),
    member: Member,
    counts: (u8, u8),
) -> bool {
    let team = legal(rt, alloc, member, counts);
    let start = start_of(rt, alloc, names, team);
    fits(setup, &start)
}

/// A format, the foe's name, its numbers of members and of nicknames, and whether a battle can start.
const STARTS: &[(&str, &str, u8, u8, bool)] = &[
    ("[Gen 1] OU", "Bob", 2, 2, true),
    ("[Gen 2] OU", "Bob", 2, 2, false),
    ("[Gen 1] OU", "a.n.n", 2, 2, false),
    ("[Gen 1] OU", "Bob", 2, 1, false),
    ("[Gen 1] OU", "Bob", 0, 0, false),
];

fn tell_starts(rt: &impl Abort, alloc: Global, setup: &Setup) {
    for (format, foe, count, nicked, wanted) in STARTS {
        let fits = fits_with(rt, alloc, setup, (format, foe), TAUROS, (*count, *nicked));
        assert_eq!(rt; fits, *wanted);
    }
}

fn report_unfit(rt: &impl Abort, alloc: Global, setup: &Setup) {
    let unfit = [FAINTED, BURNT, SPENT, UNKNOWN_MOVE, UNKNOWN_SPECIES];
    for (index, member) in unfit.iter().enumerate() {
        let fits = fits_with(rt, alloc, setup, ("gen1ou", "Bob"), *member, (1, 1));
        assert!(rt; !fits, "member {index}");
    }
}

#[test]
fn starts(rt: HostRuntime) {
    let setup = made::set_up(&rt, rt.alloc(), ONE_MOVE_DEX, SMALL_CONFIG);
    tell_starts(&rt, rt.alloc(), &setup);
    report_unfit(&rt, rt.alloc(), &setup);
}
