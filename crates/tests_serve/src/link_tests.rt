//! What no clause says: sessions over one link.
use crate::files::{ANN, BOB, assert_ended, close, closed_of, inbox_of, make_hub, push, push_text};
use crate::watching::{count_at, count_in_hall};
use ps_base::list::List;
use ps_base::msg::{Msg, push_message};
use ps_base::number::ConnNo;
use ps_base::text::Text;
use ps_histlock::OWN_LIMIT;
use ps_hub::hub::Hub;
use ps_outside::link::{Arrival, MemLink, SentText, SureLink};
use ps_serve::closed::{Closed, End};
use ps_session::session::{MOST_TEXTS, Session};
use std::alloc::Global;
use std::process::Abort;
use std::sync::Wait;

// A test owns the hub, and a function below it the link, so that few values end in one place.

fn sent_at<'a>(rt: &impl Abort, sent: &'a [SentText], index: usize) -> &'a str {
    match sent.get(index) {
        Some(text) => text.text.as_str(),
        None => rt.abort(),
    }
}

fn after_of(rt: &impl Abort, sent: &[SentText], index: usize) -> u64 {
    match sent.get(index) {
        Some(text) => text.after,
        None => rt.abort(),
    }
}

/// Ends a link.
fn hang_up(_link: SureLink) {}

fn two_quiets(rt: &impl Abort, alloc: Global) -> SureLink {
    let mut inbox = Vec::new(alloc);
    push(rt, &mut inbox, Arrival::Quiet);
    push(rt, &mut inbox, Arrival::Quiet);
    SureLink::new(alloc, inbox)
}

/// The message of the Open of connection 1.
const OPENED: &str = "|challstr|0-1\n|updateuser| Guest 1|0|0|{}\n|formats|[Gen 1] OU";

/// The Open's message was sent at the first Quiet, and nothing else.
fn was_opened_alone(rt: &impl Abort, sent: &[SentText]) {
    assert_eq!(rt; sent.len(), 1);
    assert_eq!(rt; after_of(rt, sent, 0), 1);
    assert_eq!(rt; sent_at(rt, sent, 0), OPENED);
}

/// At the first Quiet the Open's message is sent, and nothing at the second.
fn is_quiet_twice<R: Abort + Wait>(rt: &R, alloc: Global, hub: &Hub) {
    let mut link = two_quiets(rt, alloc);
    let closed = closed_of(rt, alloc, hub, 1, &mut link);
    assert_ended(rt, closed, "Closed");
    was_opened_alone(rt, link.sent());
    hang_up(link);
}

fn is_refused<R: Abort + Wait>(rt: &R, alloc: Global, hub: &Hub) {
    let mut link = two_quiets(rt, alloc);
    let closed = closed_of(rt, alloc, hub, 1, &mut link);
    assert_ended(rt, closed, "Taken");
    assert_eq!(rt; link.sent().len(), 0);
    hang_up(link);
}

/// A second session under the number of another is refused at its Open: nothing is sent, and in the hall are the Open and the Quit
/// of the first, and the Open of who looks.
#[test]
fn a_number_twice(rt: HostRuntime) {
    let hub = make_hub(&rt, rt.alloc());
    is_quiet_twice(&rt, rt.alloc(), &hub);
    is_refused(&rt, rt.alloc(), &hub);
    assert_eq!(rt; count_in_hall(&rt, &hub), 3);
    close(hub);
}

/// A link over which Bob joins the lobby and says hi, and of whose answers and sends the ones of these numbers fail.
fn failing(rt: &impl Abort, alloc: Global, next: u64, send: u64) -> MemLink {
    let inbox = inbox_of(rt, alloc, &[BOB, "|/join lobby", "lobby|hi"]);
    MemLink::new(alloc, inbox, calls(rt, alloc, next), calls(rt, alloc, send))
}

fn calls(rt: &impl Abort, alloc: Global, number: u64) -> Vec<u64> {
    let mut calls = Vec::new(alloc);
    calls.push(number).expect(rt, "memory");
    calls
}

/// Begins of all that Bob is sent, one for each message.
const TO_BOB: &[&str] = &[
    "|challstr|0-",
    "|updateuser| Bob|1|0|{}",
    ">lobby\n|init|chat\n",
    ">lobby\n|c:|0| Bob|hi",
];

/// So many of Bob's messages were sent, in order.
fn were_first(rt: &impl Abort, sent: &[SentText], count: usize) {
    assert_eq!(rt; sent.len(), count);
    for (text, begin) in sent.iter().zip(TO_BOB) {
        assert!(rt; text.text.as_str().starts_with(begin));
    }
}

/// The number of the answer, or of the send, that fails (0 for none), how the session ends, and how many messages were sent. All
/// come to fail, and the one beyond.
const FAULTS: &[(u64, u64, &str, usize)] = &[
    (1, 0, "LinkFault", 0),
    (2, 0, "LinkFault", 2),
    (3, 0, "LinkFault", 3),
    (4, 0, "LinkFault", 4),
    (5, 0, "Closed", 4),
    (0, 1, "LinkFault", 0),
    (0, 2, "LinkFault", 1),
    (0, 3, "LinkFault", 2),
    (0, 4, "LinkFault", 3),
    (0, 5, "Closed", 4),
];

fn fails_once<R: Abort + Wait>(
    rt: &R,
    alloc: Global,
    hub: &Hub,
    conn: u32,
    fault: (u64, u64, &str, usize),
) {
    let (next, send, end, count) = fault;
    let mut link = failing(rt, alloc, next, send);
    let closed = closed_of(rt, alloc, hub, conn, &mut link);
    assert_ended(rt, closed, end);
    were_first(rt, link.sent(), count);
}

fn each_fails_once<R: Abort + Wait>(rt: &R, alloc: Global, hub: &Hub) {
    let mut conn = 0u32;
    for fault in FAULTS {
        conn = conn.saturating_add(1);
        fails_once(rt, alloc, hub, conn, *fault);
    }
}

/// Each call of a link fails once: a prefix was sent, and the entries before it stand. In the lobby these are six Joins, four times
/// hi, and a Quit to each Join: who breaks off leaves its name and the room to the next.
#[test]
fn each_call_fails_once(rt: HostRuntime) {
    let hub = make_hub(&rt, rt.alloc());
    each_fails_once(&rt, rt.alloc(), &hub);
    assert_eq!(rt; count_at(&rt, &hub, "lobby"), 16);
    close(hub);
}

/// A link over which Ann joins the lobby and says this many texts there.
fn talkative(rt: &impl Abort, alloc: Global, texts: usize) -> SureLink {
    let mut inbox = inbox_of(rt, alloc, &[ANN, "|/join lobby"]);
    for _ in 0..texts {
        push_text(rt, alloc, &mut inbox, b"lobby|hi");
    }
    SureLink::new(alloc, inbox)
}

fn limit_of(end: &End) -> &str {
    match end {
        End::OwnLimit { room: Some(room) } => room.as_str(),
        _ => "",
    }
}

fn assert_limit(rt: &impl Abort, closed: Closed, wanted: &str) {
    assert_eq!(rt; limit_of(&closed.end), wanted);
}

fn talks_too_often<R: Abort + Wait>(rt: &R, alloc: Global, hub: &Hub) {
    let mut link = talkative(rt, alloc, MOST_TEXTS as usize);
    let closed = closed_of(rt, alloc, hub, 1, &mut link);
    assert_limit(rt, closed, "lobby");
    hang_up(link);
}

/// Ann's Join is her first text to the lobby. One text more than the lobby takes is no entry, and her Quit follows those that
/// are. A pass makes so many entries that these fit, with 256 Reports and a Quit.
#[test]
fn a_text_too_many(rt: HostRuntime) {
    assert_eq!(rt; MOST_TEXTS, 1 << 14);
    assert_eq!(rt; OWN_LIMIT, u64::from(MOST_TEXTS) + 256 + 1);
    let hub = make_hub(&rt, rt.alloc());
    talks_too_often(&rt, rt.alloc(), &hub);
    assert_eq!(rt; count_at(&rt, &hub, "lobby"), u64::from(MOST_TEXTS) + 1);
    close(hub);
}

fn msgs_of(rt: &impl Abort, alloc: Global, lines: &[&str]) -> Vec<Msg> {
    let mut texts = Vec::new(alloc);
    for line in lines {
        let text = Text::copy_of(alloc, line).expect(rt, "memory");
        texts.push(text).expect(rt, "memory");
    }
    let mut msgs = Vec::new(alloc);
    push_message(&mut msgs, List::from_vec(texts)).expect(rt, "memory");
    msgs
}

fn is_text(rt: &impl Abort, alloc: Global, room: Option<&str>, wanted: &str) {
    let msgs = msgs_of(rt, alloc, &["one", "two"]);
    let session = Session::new(alloc, ConnNo(1));
    let texts = session
        .give(alloc, room, msgs.as_slice())
        .expect(rt, "memory");
    assert_eq!(rt; texts.len(), 1);
    for text in texts.as_slice() {
        assert_eq!(rt; text.as_str(), wanted);
    }
}

/// A session gives the texts of messages, as links in memory keep them.
#[test]
fn the_text_of_a_message(rt: HostRuntime) {
    is_text(&rt, rt.alloc(), None, "one\ntwo");
    is_text(&rt, rt.alloc(), Some("lobby"), ">lobby\none\ntwo");
}
