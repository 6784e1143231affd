//! A link that says what it has to, and then waits for another.
ghost use Rattle.std.specs.Prelude.{◌≡◌, None};

use crate::flags::Flags;
use ps_base::msg::Msg;
use ps_outside::link::{CloseCause, Link, News, Next, SendEnd};
use std::alloc::Global;
use std::sync::Arc;
use std::thread;

/// How often a link is quiet before it gives up.
const MOST_QUIETS: u64 = 1_000_000;

/// The begin of what each link is sent first with the nonce that is the default, by its index.
const CHALLENGES: &[&str] = &[
    "|challstr|0-1",
    "|challstr|0-2",
    "|challstr|0-3",
    "|challstr|0-4",
    "|challstr|0-5",
    "|challstr|0-6",
    "|challstr|0-7",
    "|challstr|0-8",
];

/// What a client waits for, behind its texts, before it closes.
#[derive(Clone, Copy, Debug, PartialEq, Eq)]
pub(crate) enum Wait {
    /// That link 2 was sent a text of the lobby, and link 1 one that link 2 said.
    ForBoth,
    /// That link 1 was sent a text of the lobby that link 2 said.
    ForTheFirst,
    /// To be quiet once.
    Once,
}

/// The link of a client that says its texts, waits, and closes.
#[derive(Drop)]
pub(crate) struct GateLink {
    alloc: Global,
    flags: Arc<Flags>,
    index: usize,
    texts: &'static [&'static str],
    said: usize,
    wait: Wait,
    quiets: u64,
    ends: u64,
    /// The begin of what each link is sent first, by its index.
    pub(crate) challenges: &'static [&'static str],
}

impl GateLink {
    pub(crate) fn new(
        alloc: Global,
        flags: Arc<Flags>,
        index: usize,
        texts: &'static [&'static str],
        wait: Wait,
    ) -> GateLink {
        GateLink {
            alloc,
            flags,
            index,
            texts,
            said: 0,
            wait,
            quiets: 0,
            ends: 0,
            challenges: CHALLENGES,
        }
    }

    // Whether what it waits for has come about.
    fn is_met(&self) -> bool {
        let first = self.flags.first_heard.get().is_some();
        match self.wait {
            Wait::ForBoth => first && self.flags.second_joined.get().is_some(),
            Wait::ForTheFirst => first,
            Wait::Once => self.quiets > 0,
        }
    }

    // Takes note of a text that was sent.
    fn hear(&self, text: &str) {
        if is_challenge(self.challenges, self.index, text) {
            self.flags.greet(self.index);
        }
        if self.index == 0 && text.starts_with(">lobby\n") && text.contains("| Bob|hi") {
            let _ = self.flags.first_heard.set(true);
        }
        if self.index == 1 && text.starts_with(">lobby\n") {
            let _ = self.flags.second_joined.set(true);
        }
    }

    // The text that comes next, if there is one more.
    fn text(&self) -> Option<&'static str> {
        match self.texts.get(self.said) {
            None => None,
            Some(text) => Some(*text),
        }
    }
}

fn is_challenge(challenges: &[&str], index: usize, text: &str) -> bool {
    match challenges.get(index) {
        None => false,
        Some(begin) => text.starts_with(begin),
    }
}

impl Link for GateLink {
    ghost talk = { λ _. None };

    ghost counts = { λ l. record { faults = 0; quiets = l.quiets; ends = l.ends } };

    fn next(&mut self) -> Next {
        if let Some(text) = self.text() {
            self.said = self.said.saturating_add(1);
            return match text.as_bytes().to_vec(self.alloc) {
                Ok(bytes) => Next::Text(bytes),
                Err(_) => Next::NoMemory,
            };
        }
        if self.is_met() || self.quiets >= MOST_QUIETS {
            self.flags.end(self.index);
            self.ends = self.ends.saturating_add(1);
            return Next::End;
        }
        thread::yield_now();
        self.quiets = self.quiets.saturating_add(1);
        Next::Quiet
    }

    fn send(&mut self, text: &str) -> Result<(), SendEnd> {
        self.hear(text);
        Ok(())
    }

    fn send_message(&mut self, room: Option<&str>, msg: &Msg) -> Result<(), SendEnd> {
        match msg.text(self.alloc, room) {
            Ok(text) => self.send(text.as_str()),
            Err(_) => Err(SendEnd::NoMemory),
        }
    }

    fn attend(&mut self, _room: u32, _attends: bool) {}

    fn ring(&mut self, _place: Option<u32>) {}

    fn report(&mut self, _news: News<'_>) {}

    fn close(&mut self, _cause: Option<CloseCause>) {}
}
