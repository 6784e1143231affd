//! Keepers in memory.
ghost use Rattle.std.specs.Prelude.{◌≡◌, ◌≤◌, ◌++◌, ◌∷◌, [], false, length, Some, Ok, IfOk, IfSome, OnOk, OnErr};
ghost use Rattle.ps_outside.specs.Counts.{is_listed, one_more};
ghost use Rattle.ps_keep.specs.Keepers.{no_counts, IsLoadEnd, HasLoadCause, HasNoteCause, after_note, after_notes, AppendsSome};
ghost use Rattle.ps_keep.specs.Keepers.{has_failed, IsNoMemory};

use crate::keeper::{KeepEnd, Keeper};
use crate::note::Note;
use crate::tally::Tally;
use ps_base::number::counted;
use std::alloc::{AllocError, Global};
use std::marker::Model;

// Copies of notes.
fn copies(alloc: Global, notes: &[Note]) -> Result<Vec<Note>, AllocError>
    ensures { IfOk result (λ v. v.items ≡ notes.now) }
{
    let mut all = Vec::with_capacity(alloc, notes.len())?;
    for note in notes {
        all.push(note.copy(alloc)?)?;
    }
    Ok(all)
}

// Copies of notes, if there are at most so many.
fn load_from(alloc: Global, notes: &[Note], most: u32) -> Result<Vec<Note>, KeepEnd>
    ensures loaded { IfOk result (λ v. v.items ≡ notes.now) }
    ensures few { IfOk result (λ v. length v.items ≤ most) }
    ensures end { IsLoadEnd (Some notes.now) most result }
    ensures works { has_failed result ≡ false }
{
    let count = counted(notes.len());
    if count > most {
        return Err(KeepEnd::TooMany { count });
    }
    // More than any count tells, so `most` is the greatest.
    if notes.len() > most as usize {
        return Err(KeepEnd::NoMemory);
    }
    match copies(alloc, notes) {
        Ok(all) => Ok(all),
        Err(_) => Err(KeepEnd::NoMemory),
    }
}

// Puts a copy of a note behind all others. Where memory fails nothing changes.
fn push_copy(alloc: Global, notes: &mut Vec<Note>, note: &Note) -> Result<(), KeepEnd>
    ensures ok { OnOk result (notes.new.items ≡ notes.old.items ++ note.now ∷ []) }
    ensures err { OnErr result (notes.new.items ≡ notes.old.items) }
    ensures only { IsNoMemory result }
{
    let copy = match note.copy(alloc) {
        Ok(copy) => copy,
        Err(_) => return Err(KeepEnd::NoMemory),
    };
    match notes.push(copy) {
        Ok(()) => Ok(()),
        Err(_) => Err(KeepEnd::NoMemory),
    }
}

/// A keeper in memory, whose calls fail at the numbers of a list, counted from 1. Each note that is noted is a call, so of
/// several some first ones may stay.
#[derive(Drop)]
pub struct MemKeeper {
    notes: Vec<Note>,
    calls: u64,
    tally: Tally,
    failing: Vec<u64>,
}

impl Model for MemKeeper {
    ghost use Rattle.ps_keep.specs.Keepers.{Desk};

    ghost Value = { Desk };

    ghost view = { λ k. record { notes = k.notes.items; calls = k.calls; counts = k.tally; failing = k.failing.items } };
}

impl MemKeeper {
    /// A keeper of these notes. Takes no memory.
    pub fn new(notes: Vec<Note>, failing: Vec<u64>) -> MemKeeper
        ensures { result ≡ record { notes = notes.items; calls = 0; counts = no_counts; failing = failing.items } }
    {
        MemKeeper {
            notes,
            calls: 0,
            tally: Tally::new(),
            failing,
        }
    }

    /// The notes, the oldest first.
    pub fn notes(&self) -> &[Note]
        ensures { result.now ≡ self.now.notes }
    {
        self.notes.as_slice()
    }
}

impl Keeper for MemKeeper {
    ghost notes = { λ k. Some k.notes };

    ghost counts = { λ k. k.counts };

    /// Fails exactly at the calls that are listed.
    fn load(&mut self, alloc: Global, most: u32) -> Result<Vec<Note>, KeepEnd>
        ensures same { Some self.new.notes ≡ Some self.old.notes }
        ensures loaded { IfOk result (λ v. IfSome (Some self.old.notes) (λ kept. v.items ≡ kept)) }
        ensures few { IfOk result (λ v. length v.items ≤ most) }
        ensures end { IsLoadEnd (Some self.old.notes) most result }
        ensures cause { HasLoadCause self.old.counts self.new.counts result }
        ensures listed { has_failed result ≡ is_listed self.old.calls self.old.failing }
        ensures calls { self.new.calls ≡ one_more self.old.calls }
    {
        self.calls = self.calls.saturating_add(1);
        if self.failing.contains(&self.calls) {
            self.tally.count_fault();
            return Err(KeepEnd::Failed);
        }
        let answer = load_from(alloc, &self.notes, most);
        self.tally.count_load(&answer);
        answer
    }

    /// Fails exactly at the calls that are listed.
    fn note(&mut self, alloc: Global, note: &Note) -> Result<(), KeepEnd>
        ensures after { Some self.new.notes ≡ after_note result note.now (Some self.old.notes) }
        ensures cause { HasNoteCause self.old.counts self.new.counts result }
        ensures listed { has_failed result ≡ is_listed self.old.calls self.old.failing }
        ensures calls { self.new.calls ≡ one_more self.old.calls }
    {
        self.calls = self.calls.saturating_add(1);
        if self.failing.contains(&self.calls) {
            self.tally.count_fault();
            return Err(KeepEnd::Failed);
        }
        push_copy(alloc, &mut self.notes, note)
    }

    fn note_all(&mut self, alloc: Global, more: &[Note]) -> Result<(), KeepEnd> {
        for note in more {
            match self.note(alloc, note) {
                Err(end) => return Err(end),
                Ok(()) => {}
            }
        }
        Ok(())
    }
}

/// A keeper in memory that never fails.
#[derive(Drop)]
pub struct SureKeeper {
    notes: Vec<Note>,
    tally: Tally,
}

impl Model for SureKeeper {
    ghost use Rattle.ps_keep.specs.Keepers.{SureDesk};

    ghost Value = { SureDesk };

    ghost view = { λ k. record { notes = k.notes.items; counts = record { faults = 0; full = k.tally.full } } };
}

impl SureKeeper {
    /// A keeper of these notes. Takes no memory.
    pub fn new(notes: Vec<Note>) -> SureKeeper
        ensures { result ≡ record { notes = notes.items; counts = no_counts } }
    {
        SureKeeper {
            notes,
            tally: Tally::new(),
        }
    }

    /// The notes, the oldest first.
    pub fn notes(&self) -> &[Note]
        ensures { result.now ≡ self.now.notes }
    {
        self.notes.as_slice()
    }
}

impl Keeper for SureKeeper {
    ghost notes = { λ k. Some k.notes };

    ghost counts = { λ k. k.counts };

    fn load(&mut self, alloc: Global, most: u32) -> Result<Vec<Note>, KeepEnd> {
        let answer = load_from(alloc, &self.notes, most);
        self.tally.count_load(&answer);
        answer
    }

    fn note(&mut self, alloc: Global, note: &Note) -> Result<(), KeepEnd> {
        push_copy(alloc, &mut self.notes, note)
    }

    fn note_all(&mut self, alloc: Global, more: &[Note]) -> Result<(), KeepEnd> {
        for note in more {
            match self.note(alloc, note) {
                Err(end) => return Err(end),
                Ok(()) => {}
            }
        }
        Ok(())
    }
}
