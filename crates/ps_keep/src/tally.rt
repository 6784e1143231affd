//! The counts of a keeper.
ghost use Rattle.std.specs.Prelude.{◌≡◌};
ghost use Rattle.ps_keep.specs.Keepers.{no_counts, HasLoadCause, RoseAlone};

use crate::keeper::KeepEnd;
use crate::note::Note;
use std::marker::Model;

/// How often a call failed, and how often there were too many notes.
#[derive(Drop)]
pub(crate) struct Tally {
    faults: u64,
    full: u64,
}

impl Model for Tally {
    ghost use Rattle.ps_keep.specs.Keepers.{KeepCounts};

    ghost Value = { KeepCounts };

    ghost view = { λ t. record { faults = t.faults; full = t.full } };
}

impl Tally {
    /// No answer so far.
    pub(crate) fn new() -> Tally
        ensures { result ≡ no_counts }
    {
        Tally { faults: 0, full: 0 }
    }

    /// Counts the answer of a load.
    pub(crate) fn count_load(&mut self, answer: &Result<Vec<Note>, KeepEnd>)
        ensures { HasLoadCause self.old self.new answer.now }
    {
        match answer {
            Ok(_) => {}
            Err(KeepEnd::Failed) => self.faults = self.faults.saturating_add(1),
            Err(KeepEnd::TooMany { .. }) => self.full = self.full.saturating_add(1),
            Err(KeepEnd::NoMemory) => {}
        }
    }

    /// Counts a call that failed.
    pub(crate) fn count_fault(&mut self)
        ensures { RoseAlone self.old.faults self.new.faults self.old.full self.new.full }
    {
        self.faults = self.faults.saturating_add(1);
    }
}
