//! Connections: what comes from a client, and the texts that are sent to it.
ghost use Rattle.std.specs.Prelude.{◌≡◌, ℕ, List, Option, Some};
ghost use Rattle.std.specs.Option.{option_copied};
ghost use Rattle.ps_base.specs.Messages.{text_of};
ghost use Rattle.ps_outside.specs.Counts.{is_listed, one_more};
ghost use Rattle.ps_outside.specs.Links.{Talk, LinkCounts, IsNext, after_next, after_send, HasNextCause, HasSendCause, has_failed};
ghost use Rattle.ps_outside.specs.Links.{has_send_failed, new_talk, no_link_counts, sure_counts};
ghost use Rattle.ps_outside.specs.Inboxes.{IsTaken};

use ps_base::list::List;
use ps_base::msg::Msg;
use ps_base::text::Text;
use std::alloc::Global;
use std::collections::VecDeque;
use std::marker::Model;

/// What a link answers when it is asked for what comes next.
#[derive(Debug, Drop)]
pub enum Next {
    /// The bytes of a text. They need not be UTF-8.
    Text(Vec<u8>),
    /// Nothing has come yet.
    Quiet,
    /// The client has closed, and nothing comes any more.
    End,
    /// The outside refused the call.
    Failed,
    /// Memory was refused; what comes next is still there.
    NoMemory,
}

/// Why a text was not sent.
#[derive(Clone, Copy, Debug, PartialEq, Eq)]
pub enum SendEnd {
    /// The outside refused the call.
    Failed,
    /// Memory was refused.
    NoMemory,
}

/// Why a connection is ended by this side.
#[derive(Clone, Copy, Debug, PartialEq, Eq)]
pub enum CloseCause {
    /// A text of the client has more bytes than a text may have.
    TooLong,
    /// A text of the client isn't UTF-8.
    NotUtf8,
    /// A text of the client is one more than its place takes.
    Limit,
    /// Memory was refused.
    NoMemory,
}

/// What waits in the inbox of a link in memory.
#[derive(Debug, Drop)]
pub enum Arrival {
    /// The bytes of a text.
    Text(List<u8>),
    /// A mark at which the link answers Quiet once.
    Quiet,
}

/// A text that was sent, and how many Texts and Quiets the link had answered before it.
#[derive(Debug, Drop)]
pub struct SentText {
    pub text: Text,
    pub after: u64,
}

/// What an operator may want to know of a connection, beside that it began and ended. It has nothing that isn't everybody's to know.
#[derive(Clone, Copy, Debug)]
pub enum News<'a> {
    /// It has this name now.
    Named {
        name: &'a str,
    },
    /// What it said began the battle with this number, from 1.
    Began {
        number: u32,
    },
    /// What it said ended the battle with this number, which the player 0 or 1 won, or nobody.
    Ended {
        number: u32,
        winner: Option<u8>,
    },
    /// It did this in a room, as staff, to this user, if to one: `act` is the word of the command.
    Moderated {
        room: &'a str,
        act: &'static str,
        user: Option<&'a str>,
    },
}

/// One connection.
///
/// `attend`, `ring` and `report` are hints. Nothing is promised of them, and a link may leave them be. The first two are for the links
/// of one door: who attends a place is told soon that something happened there. A place is a room by its number, or the hall, which
/// is `None`. The third is for the operator of the server.
pub trait Link {
    /// The inbox that is left, how many Texts and Quiets were answered, and the texts that were
    /// sent, each with that number before it, where the link makes them known.
    ghost talk: { Self → Option Talk };

    /// How often it has failed, was quiet, and was at its end. Each count stands still at the last
    /// value of a `u64`.
    ghost counts: { Self → LinkCounts };

    /// What comes next. Where the talk is known, Text and Quiet are the first item of the inbox,
    /// which leaves it, and End is answered only at an empty one. Quiet, End and Failed come only
    /// where the count of each rose.
    fn next(&mut self) -> Next
        ensures known { talk self.new ≡ after_next result (talk self.old) }
        ensures front { IsNext (talk self.old) result }
        ensures cause { HasNextCause (counts self.old) (counts self.new) result };

    /// Sends a text. After an error it counts as not sent, and Failed comes only where the count of
    /// faults rose.
    fn send(&mut self, text: &str) -> Result<(), SendEnd>
        ensures known { talk self.new ≡ after_send result text.now (talk self.old) }
        ensures cause { HasSendCause (counts self.old) (counts self.new) result };

    /// Sends a message of a room, or of the hall, as its text ([`Msg::text`]): as `send` does, but a link that sends it piece by piece
    /// needs no memory for the whole.
    fn send_message(&mut self, room: Option<&str>, msg: &Msg) -> Result<(), SendEnd>
        ensures known { talk self.new ≡ after_send result (text_of (option_copied room.entry) msg.now) (talk self.old) }
        ensures cause { HasSendCause (counts self.old) (counts self.new) result };

    /// Says whether the connection attends a room from now on. All connections attend the hall.
    fn attend(&mut self, room: u32, attends: bool)
        ensures known { talk self.new ≡ talk self.old }
        ensures counts { counts self.new ≡ counts self.old };

    /// Says that something happened in a place. Before this link waits for its client, or soon, the links that attend the place answer
    /// Quiet, if they were waiting.
    fn ring(&mut self, place: Option<u32>)
        ensures known { talk self.new ≡ talk self.old }
        ensures counts { counts self.new ≡ counts self.old };

    /// Tells the operator what came of what the client said.
    fn report(&mut self, news: News<'_>)
        ensures known { talk self.new ≡ talk self.old }
        ensures counts { counts self.new ≡ counts self.old };

    /// Ends the connection, for this cause if there is one to tell, after it has rung where it was to. It is the last call of a link.
    fn close(&mut self, cause: Option<CloseCause>)
        ensures known { talk self.new ≡ talk self.old }
        ensures counts { counts self.new ≡ counts self.old };
}

// Takes the first item of an inbox, if memory lasts for its bytes.
fn take_first(alloc: Global, inbox: &mut VecDeque<Arrival>) -> Next
    ensures { IsTaken inbox.old.items result inbox.new.items }
{
    match inbox.front() {
        None => Next::End,
        Some(Arrival::Quiet) => {
            let _ = inbox.pop_front();
            Next::Quiet
        }
        Some(Arrival::Text(bytes)) => match bytes.as_slice().to_vec(alloc) {
            Err(_) => Next::NoMemory,
            Ok(copy) => {
                let _ = inbox.pop_front();
                Next::Text(copy)
            }
        },
    }
}

/// A link in memory that never fails.
#[derive(Drop)]
pub struct SureLink {
    alloc: Global,
    inbox: VecDeque<Arrival>,
    answers: u64,
    sent: Vec<SentText>,
    quiets: u64,
    ends: u64,
}

impl Model for SureLink {
    ghost use Rattle.std.specs.Prelude.{◌+◌, ◌<◌, ◌^◌, length};
    ghost use Rattle.ps_outside.specs.Links.{SureTalk};

    ghost Value = { SureTalk };

    ghost view = { λ l. record {
      talk = record { inbox = l.inbox.items; answers = l.answers; sent = l.sent.items };
      quiets = l.quiets;
      ends = l.ends;
    } };

    ghost invariant = { λ l. l.answers + length l.inbox.items < 2 ^ 64 };
}

impl SureLink {
    /// A link to which this will come, and then its end. Takes no memory.
    pub fn new(alloc: Global, inbox: Vec<Arrival>) -> SureLink
        ensures { result ≡ record { talk = new_talk inbox.items; quiets = 0; ends = 0 } }
    {
        SureLink {
            alloc,
            inbox: VecDeque::from_vec(inbox),
            answers: 0,
            sent: Vec::new(alloc),
            quiets: 0,
            ends: 0,
        }
    }

    /// The texts that were sent, in order.
    pub fn sent(&self) -> &[SentText]
        ensures { result.now ≡ self.now.talk.sent }
    {
        self.sent.as_slice()
    }

    // Puts a text behind those that were sent.
    fn put(&mut self, text: Text) -> Result<(), SendEnd>
        ensures known { Some self.new.talk ≡ after_send result text (Some self.old.talk) }
        ensures cause { HasSendCause (sure_counts self.old) (sure_counts self.new) result }
    {
        let after = self.answers;
        match self.sent.push(SentText { text, after }) {
            Ok(()) => Ok(()),
            Err(_) => Err(SendEnd::NoMemory),
        }
    }
}

impl Link for SureLink {
    ghost talk = { λ l. Some l.talk };

    ghost counts = { sure_counts };

    fn next(&mut self) -> Next {
        match take_first(self.alloc, &mut self.inbox) {
            Next::Text(bytes) => {
                self.answers += 1;
                Next::Text(bytes)
            }
            Next::Quiet => {
                self.answers += 1;
                self.quiets = self.quiets.saturating_add(1);
                Next::Quiet
            }
            Next::End => {
                self.ends = self.ends.saturating_add(1);
                Next::End
            }
            Next::Failed => unreachable!(),
            Next::NoMemory => Next::NoMemory,
        }
    }

    fn send(&mut self, text: &str) -> Result<(), SendEnd> {
        match Text::copy_of(self.alloc, text) {
            Ok(text) => self.put(text),
            Err(_) => Err(SendEnd::NoMemory),
        }
    }

    fn send_message(&mut self, room: Option<&str>, msg: &Msg) -> Result<(), SendEnd> {
        match msg.text(self.alloc, room) {
            Ok(text) => self.put(text),
            Err(_) => Err(SendEnd::NoMemory),
        }
    }

    fn attend(&mut self, _room: u32, _attends: bool) {}

    fn ring(&mut self, _place: Option<u32>) {}

    fn report(&mut self, _news: News<'_>) {}

    fn close(&mut self, _cause: Option<CloseCause>) {}
}

/// A link in memory, whose calls fail at the numbers of two lists, counted from 1: one for `next`
/// and one for `send`.
#[derive(Drop)]
pub struct MemLink {
    inner: SureLink,
    faults: u64,
    next_calls: u64,
    send_calls: u64,
    failing_next: Vec<u64>,
    failing_send: Vec<u64>,
}

impl Model for MemLink {
    ghost use Rattle.ps_outside.specs.Links.{MemTalk};

    ghost Value = { MemTalk };

    ghost view = { λ l. record {
      talk = l.inner.talk;
      counts = record { faults = l.faults; quiets = l.inner.quiets; ends = l.inner.ends };
      next_calls = l.next_calls;
      send_calls = l.send_calls;
      failing_next = l.failing_next.items;
      failing_send = l.failing_send.items;
    } };
}

impl MemLink {
    /// A link to which this will come, and then its end. Takes no memory.
    pub fn new(
        alloc: Global,
        inbox: Vec<Arrival>,
        failing_next: Vec<u64>,
        failing_send: Vec<u64>,
    ) -> MemLink
        ensures { result ≡ record {
          talk = new_talk inbox.items;
          counts = no_link_counts;
          next_calls = 0;
          send_calls = 0;
          failing_next = failing_next.items;
          failing_send = failing_send.items;
        } }
    {
        MemLink {
            inner: SureLink::new(alloc, inbox),
            faults: 0,
            next_calls: 0,
            send_calls: 0,
            failing_next,
            failing_send,
        }
    }

    /// The texts that were sent, in order.
    pub fn sent(&self) -> &[SentText]
        ensures { result.now ≡ self.now.talk.sent }
    {
        self.inner.sent()
    }
}

impl Link for MemLink {
    ghost talk = { λ l. Some l.talk };

    ghost counts = { λ l. l.counts };

    /// Fails exactly at the calls that are listed.
    fn next(&mut self) -> Next
        ensures known { Some self.new.talk ≡ after_next result (Some self.old.talk) }
        ensures front { IsNext (Some self.old.talk) result }
        ensures cause { HasNextCause self.old.counts self.new.counts result }
        ensures listed { has_failed result ≡ is_listed self.old.next_calls self.old.failing_next }
        ensures calls { self.new.next_calls ≡ one_more self.old.next_calls }
    {
        self.next_calls = self.next_calls.saturating_add(1);
        if self.failing_next.contains(&self.next_calls) {
            self.faults = self.faults.saturating_add(1);
            return Next::Failed;
        }
        match self.inner.next() {
            Next::Text(bytes) => Next::Text(bytes),
            Next::Quiet => Next::Quiet,
            Next::End => Next::End,
            Next::Failed => unreachable!(),
            Next::NoMemory => Next::NoMemory,
        }
    }

    /// Fails exactly at the calls that are listed.
    fn send(&mut self, text: &str) -> Result<(), SendEnd>
        ensures known { Some self.new.talk ≡ after_send result text.now (Some self.old.talk) }
        ensures cause { HasSendCause self.old.counts self.new.counts result }
        ensures listed { has_send_failed result ≡ is_listed self.old.send_calls self.old.failing_send }
        ensures calls { self.new.send_calls ≡ one_more self.old.send_calls }
    {
        self.send_calls = self.send_calls.saturating_add(1);
        if self.failing_send.contains(&self.send_calls) {
            self.faults = self.faults.saturating_add(1);
            return Err(SendEnd::Failed);
        }
        match self.inner.send(text) {
            Ok(()) => Ok(()),
            Err(SendEnd::Failed) => unreachable!(),
            Err(SendEnd::NoMemory) => Err(SendEnd::NoMemory),
        }
    }

    /// Is counted with the calls of `send`, and fails exactly at those that are listed.
    fn send_message(&mut self, room: Option<&str>, msg: &Msg) -> Result<(), SendEnd>
        ensures known { Some self.new.talk ≡ after_send result (text_of (option_copied room.entry) msg.now) (Some self.old.talk) }
        ensures cause { HasSendCause self.old.counts self.new.counts result }
        ensures listed { has_send_failed result ≡ is_listed self.old.send_calls self.old.failing_send }
        ensures calls { self.new.send_calls ≡ one_more self.old.send_calls }
    {
        self.send_calls = self.send_calls.saturating_add(1);
        if self.failing_send.contains(&self.send_calls) {
            self.faults = self.faults.saturating_add(1);
            return Err(SendEnd::Failed);
        }
        match self.inner.send_message(room, msg) {
            Ok(()) => Ok(()),
            Err(SendEnd::Failed) => unreachable!(),
            Err(SendEnd::NoMemory) => Err(SendEnd::NoMemory),
        }
    }

    fn attend(&mut self, _room: u32, _attends: bool) {}

    fn ring(&mut self, _place: Option<u32>) {}

    fn report(&mut self, _news: News<'_>) {}

    fn close(&mut self, _cause: Option<CloseCause>) {}
}
