//! Doors that fail, a spawner that gives no leave, and words that are no server's.
use crate::flags::Flags;
use crate::gate::{GateLink, Wait};
use crate::served::{are_closed, finished_of, words};
use ps_outside::door::MemDoor;
use ps_outside::spawner::MemSpawner;
use std::alloc::Global;
use std::process::Abort;
use std::sync::Arc;
use std::test::Fail;
use std::thread::Threads;

/// A list of calls with this number, which is 0 if none is to fail.
fn calls(rt: &impl Abort, alloc: Global, number: u64) -> Vec<u64> {
    let mut calls = Vec::new(alloc);
    calls.push(number).expect(rt, "memory");
    calls
}

/// Two links of clients that are quiet once.
fn quiet_links(rt: &impl Abort, alloc: Global, flags: &Arc<Flags>) -> Vec<GateLink> {
    let mut links = Vec::new(alloc);
    for index in 0..2 {
        let flags = flags.clone().expect(rt, "memory");
        let link = GateLink::new(alloc, flags, index, &[], Wait::Once);
        links.push(link).expect(rt, "memory");
    }
    links
}

/// The word of the count; the numbers of the calls that fail of `open`, of `accept`, and of the leaves for a thread; the number of
/// the status; and how many links are served.
type Fault = (&'static str, u64, u64, u64, u8, usize);

/// Each call fails once, and then the one beyond. A door that fails lets the sessions before end first; a session that gets no
/// thread runs where the server is, which goes on behind it; and words that are no server's ask nobody.
const FAULTS: &[Fault] = &[
    ("2", 1, 0, 0, 14, 0),
    ("2", 2, 0, 0, 0, 2),
    ("2", 0, 1, 0, 14, 0),
    ("2", 0, 2, 0, 14, 1),
    ("2", 0, 3, 0, 0, 2),
    ("2", 0, 0, 1, 0, 2),
    ("2", 0, 0, 2, 0, 2),
    ("2", 0, 0, 3, 0, 2),
    ("0", 0, 0, 0, 2, 0),
];

/// The number of the status that a server ends with, and whether it tells of the sessions that it served, and of no others.
fn end_of<R>(rt: R, alloc: Global, flags: &Arc<Flags>, fault: Fault) -> (u8, bool)
where
    R: Threads + std::sync::Wait + Abort + Copy + Send + Drop + 'static,
{
    let (count, open, accept, leave, _, served) = fault;
    let links = quiet_links(&rt, alloc, flags);
    let mut door = MemDoor::new(links, calls(&rt, alloc, open), calls(&rt, alloc, accept));
    let words = words(&rt, alloc, count);
    let mut spawner = MemSpawner::new(calls(&rt, alloc, leave));
    let finished = finished_of(rt, alloc, words.as_slice(), &mut door, &mut spawner);
    let is_told = are_closed(finished.sessions.as_slice(), served);
    (finished.into_status().number(), is_told)
}

/// Asserts that as many links were served, those that the door hands out first.
fn are_served(rt: &impl Abort, flags: &Flags, served: usize) {
    for index in 0..2 {
        assert_eq!(rt; flags.is_served(index), index < served);
    }
}

#[test]
fn each_call_fails_once(rt: HostRuntime) -> Result<(), Fail> {
    let alloc = rt.alloc();
    for fault in FAULTS {
        let flags = Arc::new(alloc, Flags::new())?;
        let (number, is_told) = end_of(rt, alloc, &flags, *fault);
        assert_eq!(rt; number, fault.4);
        assert!(rt; is_told);
        are_served(&rt, &flags, fault.5);
    }
    Ok(())
}
