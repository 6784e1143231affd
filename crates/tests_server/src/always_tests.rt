//! A server that stays up: its words, and one whose door is stopped behind its links.
ghost use Rattle.std.specs.Prelude.{◌≡◌};

use crate::flags::Flags;
use crate::gate::{GateLink, Wait};
use program_commands::status::Status;
use program_commands::words::read_serve_words;
use ps_base::number::Moment;
use ps_outside::Failed;
use ps_outside::clock::MemClock;
use ps_outside::door::{Door, DoorEnd, SureDoor};
use ps_outside::files::MemFiles;
use ps_outside::spawner::SureSpawner;
use rules_config::fresh::Fresh;
use server_accept::always::{AlwaysDoor, serve_always};
use server_accept::always_words::read_always_words;
use std::alloc::Global;
use std::process::Abort;
use std::sync::Arc;
use std::test::Fail;

/// Words, and the index of the first that can't stand, or 0 where all can.
type Row = (&'static str, u32);

const PLACES: &[Row] = &[
    ("serve a always", 0),
    ("serve -a always", 1),
    ("serve a", 2),
    ("serve a 5", 2),
    ("serve a always 5", 3),
    ("serve a always --keep x", 3),
    (
        "serve a always --rate 0 --config c --stop-at-end --at-once 2 --dex d --ping 9",
        0,
    ),
    (
        "serve a always --rate 0 --config c --stop-at-end --at-once 2 --dex d --ping 9 --ping",
        14,
    ),
];

const RANGES: &[Row] = &[
    ("serve a always --at-once 1", 0),
    ("serve a always --at-once 16384", 0),
    ("serve a always --at-once 0", 4),
    ("serve a always --at-once 16385", 4),
    ("serve a always --ping 1", 0),
    ("serve a always --ping 3600", 0),
    ("serve a always --ping 0", 4),
    ("serve a always --ping 3601", 4),
    ("serve a always --rate 0", 0),
    ("serve a always --rate 10000", 0),
    ("serve a always --rate 10001", 4),
    ("serve a always --rate 05", 4),
];

const TWICE: &[Row] = &[
    ("serve a always --at-once 1 --at-once 1", 5),
    ("serve a always --ping 1 --ping 1", 5),
    ("serve a always --rate 1 --rate 1", 5),
    ("serve a always --stop-at-end --stop-at-end", 4),
    ("serve a always --dex d --dex d", 5),
    ("serve a always --config c --config c", 5),
    ("serve a always --at-once", 4),
    ("serve a always --ping", 4),
    ("serve a always --rate", 4),
    ("serve a always --dex", 4),
    ("serve a always --config --dex", 4),
];

const COUNTED: &[Row] = &[
    ("serve a 5 --at-once 1", 3),
    ("serve a 5 --ping 1", 3),
    ("serve a 5 --rate 1", 3),
    ("serve a 5 --stop-at-end", 3),
    ("serve a always", 2),
];

/// The words of a line.
fn words_of(rt: &impl Abort, alloc: Global, line: &str) -> Vec<String> {
    let mut words = Vec::new(alloc);
    for word in line.split(' ') {
        let word = String::from_str(alloc, word).expect(rt, "memory");
        words.push(word).expect(rt, "memory");
    }
    words
}

fn always_index(words: &[String]) -> u32 {
    match read_always_words(words) {
        Ok(_) => 0,
        Err(index) => index,
    }
}

fn count_index(words: &[String]) -> u32 {
    match read_serve_words(words) {
        Ok(_) => 0,
        Err(index) => index,
    }
}

fn are_read(rt: &impl Abort, alloc: Global, rows: &[Row]) {
    for (line, index) in rows {
        let words = words_of(rt, alloc, line);
        assert_eq!(rt; always_index(words.as_slice()), *index);
    }
}

#[test]
fn words_have_their_places_and_ranges(rt: HostRuntime) -> Result<(), Fail> {
    let alloc = rt.alloc();
    are_read(&rt, alloc, PLACES);
    are_read(&rt, alloc, RANGES);
    are_read(&rt, alloc, TWICE);
    Ok(())
}

#[test]
fn a_server_of_a_count_has_none_of_them(rt: HostRuntime) -> Result<(), Fail> {
    let alloc = rt.alloc();
    for (line, index) in COUNTED {
        let words = words_of(&rt, alloc, line);
        assert_eq!(rt; count_index(words.as_slice()), *index);
    }
    Ok(())
}

const FRESH: Fresh = Fresh {
    nonce: [7; 16],
    seed: 7,
};

/// The begin of what each link is sent first with that nonce.
const FRESH_CHALLENGES: &[&str] = &[
    "|challstr|07070707070707070707070707070707-1",
    "|challstr|07070707070707070707070707070707-2",
];

/// A door in memory that is stopped behind so many links.
#[derive(Drop)]
struct StoppedDoor {
    door: SureDoor<GateLink>,
    left: u32,
}

impl Door for StoppedDoor {
    type Link = GateLink;

    ghost faults = { λ _. 0 };

    ghost given = { λ d. d.door.given };

    ghost is_shut = { λ d. d.door.is_shut };

    fn open(&mut self, address: &str) -> Result<(), Failed> {
        self.door.open(address)
    }

    fn accept(&mut self) -> Result<GateLink, DoorEnd> {
        self.door.accept()
    }

    fn close(&mut self) {
        self.door.close();
    }
}

impl AlwaysDoor for StoppedDoor {
    fn accept_or_stop(&mut self) -> Result<Option<GateLink>, DoorEnd> {
        let Some(left) = self.left.checked_sub(1) else {
            return Ok(None);
        };
        self.left = left;
        match self.door.accept() {
            Ok(link) => Ok(Some(link)),
            Err(end) => Err(end),
        }
    }

    fn stop(&mut self) {}
}

/// Two links of clients that are quiet once.
fn quiet_door(rt: &impl Abort, alloc: Global, flags: &Arc<Flags>) -> StoppedDoor {
    let mut links = Vec::new(alloc);
    for index in 0..2 {
        let flags = flags.clone().expect(rt, "memory");
        let mut link = GateLink::new(alloc, flags, index, &[], Wait::Once);
        link.challenges = FRESH_CHALLENGES;
        links.push(link).expect(rt, "memory");
    }
    StoppedDoor {
        door: SureDoor::new(links),
        left: 2,
    }
}

/// One at once: the second is let in when the first has ended.
#[test]
fn each_link_is_served_before_it_ends(rt: HostRuntime) -> Result<(), Fail> {
    let alloc = rt.alloc();
    let flags = Arc::new(alloc, Flags::new())?;
    let mut door = quiet_door(&rt, alloc, &flags);
    let words = words_of(&rt, alloc, "serve 127.0.0.1:0 always --at-once 1");
    let mut files = MemFiles::new(Vec::new(alloc), Vec::new(alloc));
    let mut clock = MemClock::new(alloc, Moment(0), Vec::new(alloc));
    let mut spawner = SureSpawner;
    let status = serve_always(
        rt,
        alloc,
        words.as_slice(),
        &FRESH,
        &mut files,
        &mut door,
        &mut clock,
        &mut spawner,
    );
    assert!(rt; matches!(status, Status::Done));
    assert!(rt; flags.is_served(0) && flags.is_served(1));
    Ok(())
}
