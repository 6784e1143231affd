//! Where notes are kept.
ghost use Rattle.std.specs.Prelude.{◌≡◌, ◌≤◌, List, Option, length, IfOk, IfSome, OnOk, OnErr};
ghost use Rattle.ps_keep.specs.declared.note.Note.{Note};
ghost use Rattle.ps_keep.specs.Keepers.{KeepCounts, IsLoadEnd, HasLoadCause, HasNoteCause, after_note, after_notes, AppendsSome};

use crate::note::Note;
use std::alloc::Global;

/// Why notes weren't loaded or noted.
#[derive(Clone, Copy)]
pub enum KeepEnd {
    /// What keeps the notes refused the call.
    Failed,
    /// More notes are kept than were asked for: how many, or `u32::MAX` where there are more than that.
    TooMany { count: u32 },
    /// Out of memory.
    NoMemory,
}

/// A list of notes that is kept.
pub trait Keeper {
    /// The notes, the oldest first, where they are known.
    ghost notes: { Self → Option (List Note) };

    /// How often a call failed, and how often there were too many notes. Neither count falls, and each stands still at the
    /// last value of a `u64`.
    ghost counts: { Self → KeepCounts };

    /// All notes, the oldest first, if there are at most so many.
    fn load(&mut self, alloc: Global, most: u32) -> Result<Vec<Note>, KeepEnd>
        ensures same { notes self.new ≡ notes self.old }
        ensures loaded { IfOk result (λ v. IfSome (notes self.old) (λ kept. v.items ≡ kept)) }
        ensures few { IfOk result (λ v. length v.items ≤ most) }
        ensures end { IsLoadEnd (notes self.old) most result }
        ensures cause { HasLoadCause (counts self.old) (counts self.new) result };

    /// Notes one more, behind all others. After an error nothing was noted.
    fn note(&mut self, alloc: Global, note: &Note) -> Result<(), KeepEnd>
        ensures after { notes self.new ≡ after_note result note.now (notes self.old) }
        ensures cause { HasNoteCause (counts self.old) (counts self.new) result };

    /// Notes these in their order, behind all others. After an error some first ones of them were noted, or none.
    fn note_all(&mut self, alloc: Global, more: &[Note]) -> Result<(), KeepEnd>
        ensures ok { OnOk result (notes self.new ≡ after_notes more.now (notes self.old)) }
        ensures err { OnErr result (AppendsSome (notes self.old) (notes self.new) more.now) }
        ensures cause { HasNoteCause (counts self.old) (counts self.new) result };
}
