//! What no clause says: two sessions in two threads.
ghost use Rattle.std.specs.Prelude.{◌≡◌};
ghost use Rattle.ps_serve.specs.Ends.{ComeFrom};

use crate::files::{ANN, BOB, assert_ended, close, closed_of, inbox_of, make_hub, was_sent};
use crate::watching::count_at;
use ps_hub::hub::Hub;
use ps_outside::link::{Link, MemLink, SentText};
use ps_serve::closed::Closed;
use std::alloc::Global;
use std::process::Abort;
use std::sync::Wait;
use std::thread;
use std::thread::Threads;

/// What a session ended with, and its link.
fn serve<R: Wait, L: Link>(rt: &R, alloc: Global, hub: &Hub, conn: u32, mut link: L) -> (Closed, L)
    ensures { ComeFrom hub.now result.0.passes }
{
    let closed = closed_of(rt, alloc, hub, conn, &mut link);
    (closed, link)
}

/// The sessions of connections 1 and 2 beside each other.
fn serve_both<R: Threads + Wait + Sync, L: Link + Send + Drop>(
    rt: &R,
    alloc: Global,
    hub: &Hub,
    one: L,
    other: L,
) -> ((Closed, L), (Closed, L))
    ensures one { ComeFrom hub.now result.0.0.passes }
    ensures other { ComeFrom hub.now result.1.0.passes }
{
    thread::join(
        rt,
        move || -> (Closed, L)
            ensures { ComeFrom hub.entry.now result.0.passes }
        { serve(rt, alloc, hub, 1, one) },
        move || -> (Closed, L)
            ensures { ComeFrom hub.entry.now result.0.passes }
        { serve(rt, alloc, hub, 2, other) },
    )
}

/// Two sessions that have ended meet in the hall and in the lobby: then it is proved that they agree on both.
fn agree(rt: &impl Abort, hub: &Hub, one: &mut Closed, other: &mut Closed)
    requires { ComeFrom hub.now one.old.passes × ComeFrom hub.now other.old.passes }
{
    assert!(rt; one.meet_in_hall(hub, other));
    assert!(rt; one.meet_in_room(hub, other, LOBBY));
}

/// The number of the lobby's place.
const LOBBY: u32 = 0;

fn link(rt: &impl Abort, alloc: Global, texts: &[&str]) -> MemLink {
    let inbox = inbox_of(rt, alloc, texts);
    MemLink::new(alloc, inbox, Vec::new(alloc), Vec::new(alloc))
}

/// Begins of texts of which Ann is sent each, in whatever order the threads went.
const TO_ANN: &[&str] = &[
    "|challstr|0-1\n",
    "|updateuser|%Ann|1|0|{}",
    ">lobby\n|init|chat\n|title|Lobby\n|users|",
    ">lobby\nModnote by %Ann: watch",
];

/// The same for Bob, who is no staff.
const TO_BOB: &[&str] = &[
    "|challstr|0-2\n",
    "|updateuser| Bob|1|0|{}",
    ">lobby\n|init|chat\n|title|Lobby\n|users|",
    ">lobby\n|c:|0| Bob|hi",
];

fn were_sent(rt: &impl Abort, sent: &[SentText], begins: &[&str]) {
    for begin in begins {
        assert!(rt; was_sent(sent, begin));
    }
}

/// What Ann was sent.
fn ann_holds(rt: &impl Abort, ended: (Closed, MemLink)) {
    let (closed, link) = ended;
    assert_ended(rt, closed, "Closed");
    were_sent(rt, link.sent(), TO_ANN);
}

/// What Bob was sent, and that he wasn't sent the note.
fn bob_holds(rt: &impl Abort, ended: (Closed, MemLink)) {
    let (closed, link) = ended;
    assert_ended(rt, closed, "Closed");
    were_sent(rt, link.sent(), TO_BOB);
    assert!(rt; !was_sent(link.sent(), ">lobby\nModnote by"));
}

fn meet_in_the_lobby<R: Threads + Wait + Sync + Abort>(rt: &R, alloc: Global, hub: &Hub) {
    let ann = link(rt, alloc, &[ANN, "|/join lobby", "lobby|/modnote watch"]);
    let bob = link(rt, alloc, &[BOB, "|/join lobby", "lobby|hi"]);
    let (mut ann, mut bob) = serve_both(rt, alloc, hub, ann, bob);
    agree(rt, hub, &mut ann.0, &mut bob.0);
    ann_holds(rt, ann);
    bob_holds(rt, bob);
}

/// The lobby has two joins, the modnote, the text and two Quits.
#[test]
fn two_users_in_the_lobby(rt: HostRuntime) {
    let hub = make_hub(&rt, rt.alloc());
    meet_in_the_lobby(&rt, rt.alloc(), &hub);
    assert_eq!(rt; count_at(&rt, &hub, "lobby"), 6);
    close(hub);
}
