//! How many messages a transcript has that comes in pieces.
ghost use Rattle.std.specs.Prelude.{◌≡◌, ◌+◌, ◌++◌, ℕ, [], List};
ghost use Rattle.replay_drill.specs.Messages.{begins, next_mark, mark_after, messages_from, messages_in, counted};

use crate::mark::Mark;

/// The messages so far, and how far the last line has come.
#[derive(Clone, Copy, Debug, PartialEq, Eq)]
pub struct Counter {
    mark: Mark,
    messages: u64,
}

fn next(counter: Counter, b: u8) -> Counter
    ensures mark { result.mark ≡ next_mark counter.mark b }
    ensures messages { result.messages ≡ counted (counter.messages + begins counter.mark b) }
{
    Counter {
        mark: counter.mark.next(b),
        messages: counter.messages.saturating_add(counter.mark.begins(b)),
    }
}

fn count(mark: Mark, messages: u64, bytes: &[u8]) -> Counter
    ensures mark { result.mark ≡ mark_after mark bytes.now }
    ensures messages { result.messages ≡ counted (messages + messages_from mark bytes.now) }
{
    let mut now = Counter { mark, messages };
    for b in bytes {
        now = next(now, *b);
    }
    now
}

impl Counter {
    ghost use Rattle.replay_drill.specs.Tallies.{Counts};

    /// Before the first piece.
    pub fn new() -> Counter
        ensures { Counts result [] }
    {
        Counter {
            mark: Mark::Start,
            messages: 0,
        }
    }

    /// Takes one piece more.
    pub fn take(&mut self, piece: &[u8])
        ensures { (text : List ℕ) → Counts self.old text → Counts self.new (text ++ piece.now) }
    {
        *self = count(self.mark, self.messages, piece);
    }

    /// How many messages came: lines that begin with digits, `<` and a space. The count stands still at the last value of
    /// a `u64`.
    pub fn messages(&self) -> u64
        ensures { (text : List ℕ) → Counts self.now text → result ≡ counted (messages_in text) }
    {
        self.messages
    }
}
