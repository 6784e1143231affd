//! The server that the tests run on, its sessions, and what a test is told of them.
ghost use Rattle.ps_serve.specs.Ends.{ComeFrom};

use crate::hub_files::{Files, read_files};
use ps_base::list::List;
use ps_base::number::{ConnNo, Moment};
use ps_hub::hub::Hub;
use ps_outside::clock::MemClock;
use ps_outside::link::{Arrival, Link, SentText};
use ps_serve::closed::{Closed, End};
use ps_serve::session::serve_session;
use std::alloc::Global;
use std::process::Abort;
use std::sync::Wait;

/// No move and no species: no session of a test begins a battle.
const DEX: &str = "{}";

/// Ann is staff, and logs in by her secret.
const CONFIG: &str = r#"{"users":[{"id":"ann","secret":"s","group":"%"}],
"formats":[{"name":"[Gen 1] OU","rules":["speciesclause"]}],"seeds":[0]}"#;

/// The log-in of Ann as connection 1: her assertion is SHA-256 over `0-1:s`.
pub(crate) const ANN: &str =
    "|/trn Ann,0,6e1697b79d75fc01236f1fefe1f355eb89073516c94b152141a32add67c29a89";

/// The log-in of Bob, whose name nobody has registered.
pub(crate) const BOB: &str = "|/trn Bob,0,";

// Memory that is refused ends a test at once: what may return in between would be slow to prove. So would a value of many parts
// be that ends beside others: each kind of them has one function in which it ends alone.

fn hub_of(rt: &impl Abort, alloc: Global, files: Files) -> Hub {
    Hub::new(alloc, files.config, files.dex)
        .expect(rt, "memory")
        .open()
}

/// A hub.
pub(crate) fn make_hub(rt: &impl Abort, alloc: Global) -> Hub {
    let files = read_files(alloc, CONFIG, DEX).expect(rt, "files");
    hub_of(rt, alloc, files)
}

/// Ends a hub.
pub(crate) fn close(_hub: Hub) {}

// ---- sessions

/// A clock at which it is always 0.
fn clock(alloc: Global) -> MemClock {
    MemClock::new(alloc, Moment(0), Vec::new(alloc))
}

// A session of which no more is promised than that its passes come from the hub.
fn session<R: Wait, L: Link>(
    rt: &R,
    alloc: Global,
    hub: &Hub,
    conn: u32,
    link: &mut L,
    clock: &mut MemClock,
) -> Closed
    ensures { ComeFrom hub.now result.passes }
{
    serve_session(alloc, rt, hub, ConnNo(conn), link, clock)
}

/// What the session of a connection ended with.
pub(crate) fn closed_of<R: Wait, L: Link>(
    rt: &R,
    alloc: Global,
    hub: &Hub,
    conn: u32,
    link: &mut L,
) -> Closed
    ensures { ComeFrom hub.now result.passes }
{
    let mut clock = clock(alloc);
    session(rt, alloc, hub, conn, link, &mut clock)
}

fn word_of(end: &End) -> &'static str {
    match end {
        End::Closed => "Closed",
        End::LinkFault => "LinkFault",
        End::OwnLimit { .. } => "OwnLimit",
        End::BadText { .. } => "BadText",
        End::Taken => "Taken",
        End::NoMemory => "NoMemory",
    }
}

/// Asserts how a session ended.
pub(crate) fn assert_ended(rt: &impl Abort, closed: Closed, wanted: &str) {
    assert_eq!(rt; word_of(&closed.end), wanted);
}

// ---- texts

pub(crate) fn push(rt: &impl Abort, inbox: &mut Vec<Arrival>, arrival: Arrival) {
    inbox.push(arrival).expect(rt, "memory");
}

pub(crate) fn push_text(rt: &impl Abort, alloc: Global, inbox: &mut Vec<Arrival>, bytes: &[u8]) {
    let copy = bytes.to_vec(alloc).expect(rt, "memory");
    push(rt, inbox, Arrival::Text(List::from_vec(copy)));
}

/// What comes from a client that sends these texts.
pub(crate) fn inbox_of(rt: &impl Abort, alloc: Global, texts: &[&str]) -> Vec<Arrival> {
    let mut inbox = Vec::new(alloc);
    for text in texts {
        push_text(rt, alloc, &mut inbox, text.as_bytes());
    }
    inbox
}

/// Whether a text that begins so was sent.
pub(crate) fn was_sent(sent: &[SentText], begin: &str) -> bool {
    for text in sent {
        if text.text.as_str().starts_with(begin) {
            return true;
        }
    }
    false
}
