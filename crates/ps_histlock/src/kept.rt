//! What may stand behind a lock.
ghost use Rattle.std.specs.Prelude.{ℕ, Option, ◌≡◌, ◌<◌, ◌^◌, List, [], ◌∷◌, ◌++◌, length, IfOk, OnErr};

use std::alloc::AllocError;

/// A value that stands for a list of commands, those that were applied to it, after an origin that never changes.
///
/// It needn't keep them: one value may stand for several lists, as where a refused command leaves it as it was, whatever
/// the command. What a call promises it promises of every list that the value may stand for. No list grows to 2^62
/// commands, since a value keeps at least two bytes for each.
pub trait Kept: Drop {
    /// Plain data that no call changes, such as what the value began as. Contracts alone speak of it.
    type Origin;

    /// One entry of the history.
    type Cmd: Drop;

    /// What `apply` answers.
    type Out;

    /// How much of what the history says a reader has been told.
    type Cursor;

    /// One message to a reader.
    type Msg;

    /// The origin of this value.
    ghost origin: { Self → Self.Origin };

    /// Some origin, whichever. No clause asks for it.
    ghost nowhere: { Self.Origin };

    /// By what name a command is signed, if by any.
    ghost signer: { Self.Cmd → Option ℕ };

    /// The value may stand for this list of commands, the oldest first.
    ghost stands: { List Self.Cmd → Self → Type 0 };

    /// What `apply` may answer to a command, after an origin and a list of commands.
    ghost answers: { Self.Origin → List Self.Cmd → Self.Cmd → Self.Out → Type 0 };

    /// Which messages `pull` may give for an origin, a list of commands and a cursor, and the cursor after it.
    ghost pulls: { Self.Origin → List Self.Cmd → Self.Cursor → List Self.Msg → Self.Cursor → Type 0 };

    /// By what name a command is signed, if by any.
    fn signed_by(cmd: &Self::Cmd) -> Option<u64>
        ensures { result ≡ signer cmd.now };

    /// Appends one entry. `AllocError` if out of memory: then there is no entry.
    fn apply(&mut self, cmd: Self::Cmd) -> Result<Self::Out, AllocError>
        ensures origin { origin self.new ≡ origin self.old }
        ensures entry { IfOk result (λ out. (log : List Self.Cmd) → stands log self.old → stands (log ++ cmd ∷ []) self.new) }
        ensures answer { IfOk result (λ out. (log : List Self.Cmd) → stands log self.old → answers (origin self.old) log cmd out) }
        ensures short { IfOk result (λ out. (log : List Self.Cmd) → stands log self.old → length (log ++ cmd ∷ []) < 2 ^ 62) }
        ensures err { OnErr result ((log : List Self.Cmd) → stands log self.old → stands log self.new) };

    /// The messages past the cursor, which it moves. `AllocError` if out of memory: then the cursor stays.
    fn pull(&self, cursor: &mut Self::Cursor) -> Result<Vec<Self::Msg>, AllocError>
        ensures ok { IfOk result (λ msgs. (log : List Self.Cmd) → stands log self.now
            → pulls (origin self.now) log cursor.old msgs.items cursor.new) }
        ensures err { OnErr result (cursor.new ≡ cursor.old) };
}
