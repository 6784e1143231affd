//! What a replay prints, and what it counts and notes of entries.
ghost use Rattle.std.specs.Prelude.{◌≡◌, [], IfOk, OnOk, option_map, option_to_list, is_some, string_bytes};
ghost use Rattle.ps_keep.specs.Keepers.{after_notes};
ghost use Rattle.replay_state.specs.Counts.{hall_refuses, room_refuses, out_refuses, one_if};
ghost use Rattle.replay_state.specs.Notes.{unless};
ghost use Rattle.replay_state.specs.Ledgers.{blank, blank_noting, one_more, entered};

use ps_hall::outcome::HallVerdict;
use ps_keep::note::Note;
use ps_room::outcome::{RoomOut, Verdict};
use std::alloc::{AllocError, Global};
use std::marker::Model;

/// How many entries took their places, and how many of them were refused.
#[derive(Clone, Copy)]
pub struct Counts {
    /// All entries.
    pub entries: u64,
    /// Those that were refused.
    pub refused: u64,
}

/// What is kept of the entries so far beside what they print: their counts, and their notes, if somebody asked for these. A
/// replay whose notes nobody keeps makes none.
#[derive(Drop)]
pub struct Ledger {
    counts: Counts,
    notes: Option<Vec<Note>>,
}

impl Model for Ledger {
    ghost use Rattle.std.specs.Prelude.{option_map};
    ghost use Rattle.replay_state.specs.Ledgers.{Sheet};

    ghost Value = { Sheet };

    ghost view = { λ l. record { counts = l.counts; notes = option_map (λ v. v.items) l.notes } };
}

impl Ledger {
    /// Before the first entry. Takes no memory.
    pub fn new() -> Ledger
        ensures { result ≡ blank }
    {
        Ledger {
            counts: Counts {
                entries: 0,
                refused: 0,
            },
            notes: None,
        }
    }

    /// Before the first entry, for who asks for notes. Takes no memory.
    pub fn noting(alloc: Global) -> Ledger
        ensures { result ≡ blank_noting }
    {
        Ledger {
            counts: Counts {
                entries: 0,
                refused: 0,
            },
            notes: Some(Vec::new(alloc)),
        }
    }

    /// The counts of the entries so far.
    pub fn counts(&self) -> Counts
        ensures { result ≡ self.now.counts }
    {
        self.counts
    }

    /// Whether somebody asked for notes.
    pub(crate) fn is_noting(&self) -> bool
        ensures { result ≡ is_some self.now.notes }
    {
        match &self.notes {
            None => false,
            Some(_) => true,
        }
    }

    /// The notes, if somebody asked for them.
    pub fn into_notes(self) -> Option<Vec<Note>>
        ensures { option_map (λ v. v.items) result ≡ self.notes }
    {
        self.notes
    }
}

/// What was printed and waits to be taken, and what is kept of all entries so far.
#[derive(Drop)]
pub struct Transcript {
    /// What waits.
    pub text: String,
    /// The counts and notes.
    pub ledger: Ledger,
}

impl Transcript {
    /// Before the first entry.
    pub fn new(alloc: Global) -> Transcript
        ensures text { string_bytes result.text ≡ [] }
        ensures ledger { result.ledger ≡ blank }
    {
        Transcript {
            text: String::new(alloc),
            ledger: Ledger::new(),
        }
    }

    /// The same, for who asks for the notes of the entries.
    pub fn noting(alloc: Global) -> Transcript
        ensures text { string_bytes result.text ≡ [] }
        ensures ledger { result.ledger ≡ blank_noting }
    {
        Transcript {
            text: String::new(alloc),
            ledger: Ledger::noting(alloc),
        }
    }
}

// ---- verdicts

pub(crate) fn hall_refuses(verdict: HallVerdict) -> bool
    ensures { result ≡ hall_refuses verdict }
{
    match verdict {
        HallVerdict::Applied => false,
        HallVerdict::Refused(_) => true,
    }
}

fn room_refuses(verdict: Verdict) -> bool
    ensures { result ≡ room_refuses verdict }
{
    match verdict {
        Verdict::Applied => false,
        Verdict::Refused(_) => true,
    }
}

pub(crate) fn out_refuses(out: Option<RoomOut>) -> bool
    ensures { result ≡ out_refuses out }
{
    match out {
        None => false,
        Some(out) => room_refuses(out.verdict),
    }
}

// ---- entries

fn one_if(refused: bool) -> u64
    ensures { result ≡ one_if refused }
{
    if refused {
        return 1;
    }
    0
}

// More entries than a `u64` counts are said to want memory.
fn one_more(refused: bool, counts: Counts) -> Result<Counts, AllocError>
    ensures { IfOk result (λ c. c ≡ one_more refused counts) }
{
    let entries = match counts.entries.checked_add(1) {
        None => return Err(AllocError),
        Some(entries) => entries,
    };
    match counts.refused.checked_add(one_if(refused)) {
        None => Err(AllocError),
        Some(refused) => Ok(Counts { entries, refused }),
    }
}

fn unless(refused: bool, note: Option<Note>) -> Option<Note>
    ensures { result ≡ unless refused note }
{
    if refused { None } else { note }
}

// Puts a note behind the others, where there is one and somebody asked for them.
fn push_note(notes: &mut Option<Vec<Note>>, note: Option<Note>) -> Result<(), AllocError>
    ensures { OnOk result (option_map (λ v. v.items) notes.new ≡ after_notes (option_to_list note) (option_map (λ v. v.items) notes.old)) }
{
    let Some(notes) = notes else {
        return Ok(());
    };
    match note {
        None => Ok(()),
        Some(note) => {
            notes.push(note)?;
            Ok(())
        }
    }
}

impl Ledger {
    /// Counts an entry, and notes what it does, unless it is refused.
    pub(crate) fn enter(&mut self, refused: bool, does: Option<Note>) -> Result<(), AllocError>
        ensures { OnOk result (self.new ≡ entered refused does self.old) }
    {
        self.counts = one_more(refused, self.counts)?;
        push_note(&mut self.notes, unless(refused, does))?;
        Ok(())
    }
}
