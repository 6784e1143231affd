//! How turns of a pass with a command ended, but for their messages, which are kept.
use std::convert::Infallible;

/// How a turn ended: what its entry gave (`U`), what comes back if somebody else has it (`B`), and what a turn that may be at
/// its limit says of it (`L`). What can't be the end of a kind of turn has no value: its type is `Infallible`.
#[derive(Drop)]
pub enum TurnEnd<U, B, L> {
    /// The turn was taken: the entry stands. If memory ran out for its messages, they are still to come.
    Done { out: U },
    /// Somebody else has the turn.
    Busy { back: B },
    /// The pass has made as many entries as it may.
    OwnLimit { reason: L },
    /// An entry of somebody else is signed as the command is.
    NameTaken,
    /// Out of memory: there is no entry. Of a turn that was waited for also if the pass has made as many entries as it may.
    NoMemory,
}

/// What comes back of a turn that somebody else has: the last word that was met, and the command.
#[derive(Drop)]
pub struct Back<C> {
    /// The word.
    pub word: u64,
    /// The command.
    pub cmd: C,
}

/// How a turn ended that waits for nobody.
pub type Tried<U, C> = TurnEnd<U, Back<C>, ()>;

/// How a turn ended that was waited for. Nothing comes back, so who asks has nothing to let go.
pub type Waited = TurnEnd<(), Infallible, Infallible>;
