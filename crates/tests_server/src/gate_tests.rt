//! Two links that wait for each other, beside six that don't: a server that runs its sessions one after another, or drops
//! links, doesn't pass.
use crate::flags::{Flags, LINKS};
use crate::gate::{GateLink, Wait};
use crate::served::{are_closed, finished_of, words};
use program_commands::status::Status;
use ps_outside::door::MemDoor;
use ps_outside::spawner::ThreadSpawner;
use std::alloc::Global;
use std::process::Abort;
use std::sync::Arc;
use std::test::Fail;

const FIRST: &[&str] = &["|/trn Ann,0,", "|/join lobby"];

const SECOND: &[&str] = &["|/trn Bob,0,", "|/join lobby", "lobby|hi"];

fn link(rt: &impl Abort, alloc: Global, flags: &Arc<Flags>, index: usize) -> GateLink {
    let flags = flags.clone().expect(rt, "memory");
    match index {
        0 => GateLink::new(alloc, flags, index, FIRST, Wait::ForBoth),
        1 => GateLink::new(alloc, flags, index, SECOND, Wait::ForTheFirst),
        _ => GateLink::new(alloc, flags, index, &[], Wait::Once),
    }
}

fn links(rt: &impl Abort, alloc: Global, flags: &Arc<Flags>) -> Vec<GateLink> {
    let mut links = Vec::new(alloc);
    for index in 0..LINKS {
        links
            .push(link(rt, alloc, flags, index))
            .expect(rt, "memory");
    }
    links
}

/// Every link is sent its challenge, and has answered End when the server answers, which tells how each session ended.
#[test]
fn two_links_wait_for_each_other(rt: HostRuntime) -> Result<(), Fail> {
    let alloc = rt.alloc();
    let flags = Arc::new(alloc, Flags::new())?;
    let links = links(&rt, alloc, &flags);
    let mut door = MemDoor::new(links, Vec::new(alloc), Vec::new(alloc));
    let words = words(&rt, alloc, "8");
    let mut spawner = ThreadSpawner::new();
    let finished = finished_of(rt, alloc, words.as_slice(), &mut door, &mut spawner);
    assert!(rt; are_closed(finished.sessions.as_slice(), LINKS));
    assert!(rt; matches!(finished.into_status(), Status::Done));
    assert!(rt; flags.are_all_set());
    Ok(())
}
