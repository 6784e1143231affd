//! Archives: replays a script, and keeps its notes.
ghost use Rattle.std.specs.Prelude.{◌≡◌, ◌+◌, ◌≤◌, Some, None, length, option_map, IfOk, OnOk};
ghost use Rattle.std.specs.Arc.{arc_value};
ghost use Rattle.std.specs.Io.KnownBytes.{IsAtEnd};
ghost use Rattle.ps_outside.specs.Causes.{Rose};
ghost use Rattle.replay_script.specs.Scripts.{IsScript};
ghost use Rattle.replay_script.specs.Limits.{long_of, ReadsFew};
ghost use Rattle.replay_state.specs.Setup.{setup_of};
ghost use Rattle.replay_state.specs.Notes.{notes};
ghost use Rattle.replay_state.specs.Ledgers.{blank_noting};
ghost use Rattle.replay_state.specs.Tables.{item_after, item_ledger, ledger_from};
ghost use Rattle.program_commands.specs.Words.{options_of};
ghost use Rattle.program_commands.specs.Steps.{dex_in};
ghost use Rattle.program_commands.specs.Setups.{Stands, IsSetUp};
ghost use Rattle.ps_replay.specs.Outcomes.{symbols_of, IsReadConfig};
ghost use Rattle.ps_replay.specs.Dealings.{keeper_status, most_notes};
ghost use Rattle.ps_replay.specs.Archives.{InputEnds};
ghost use Rattle.ps_replay.specs.KeptRuns.{IsArchive};

use crate::replay::{ReplayEnd, replay, table_of};
use crate::setup::{shared_config, shared_dex};
use crate::symbols::symbols_of;
use program_commands::status::Status;
use program_commands::words::OptionWords;
use ps_base::number::counted;
use ps_dex::dex::Dex;
use ps_keep::keeper::{KeepEnd, Keeper};
use ps_keep::note::Note;
use ps_outside::files::Files;
use ps_outside::sink::Sink;
use ps_outside::source::Source;
use replay_script::input::{InputEnd, read_input};
use replay_script::line::Line;
use replay_script::script::{ScriptEnd, read_script};
use replay_state::table::Table;
use replay_state::transcript::Transcript;
use rules_config::config::Config;
use std::alloc::{AllocError, Global};
use std::sync::Arc;

/// The most notes that are kept.
pub(crate) const MOST_NOTES: u32 = 65_536;

// ---- the notes of a script

// Plays a line. What it prints is let go.
fn note_item(
    alloc: Global,
    table: &mut Table,
    item: &Line<'_>,
    pending: &mut Transcript,
) -> Result<(), AllocError>
    ensures state { OnOk result (table.new ≡ item_after table.old item.now) }
    ensures ledger { OnOk result (pending.new.ledger ≡ item_ledger table.old item.now pending.old.ledger) }
{
    table.play(alloc, item, pending)?;
    pending.text.clear();
    Ok(())
}

// Plays the lines from a state on, and gives their notes.
fn notes_from(
    alloc: Global,
    table: &mut Table,
    items: &[Line<'_>],
) -> Result<Option<Vec<Note>>, AllocError>
    ensures { IfOk result (λ v. option_map (λ n. n.items) v ≡ (ledger_from table.old items.now blank_noting).notes) }
{
    let mut pending = Transcript::noting(alloc);
    for item in items {
        note_item(alloc, table, item, &mut pending)?;
    }
    Ok(pending.ledger.into_notes())
}

// The same of a state that ends with it. It is dropped here alone: who has it by value takes it apart at each exit.
fn notes_once(
    alloc: Global,
    table: Table,
    items: &[Line<'_>],
) -> Result<Option<Vec<Note>>, AllocError>
    ensures { IfOk result (λ v. option_map (λ n. n.items) v ≡ (ledger_from table items.now blank_noting).notes) }
{
    let mut table = table;
    notes_from(alloc, &mut table, items)
}

/// The notes of the lines of a script under a configuration and a dex. They are played, and what they print is let go: so no
/// transcript has to be held until its notes are kept.
fn notes_of(
    alloc: Global,
    config: &Arc<Config>,
    dex: &Arc<Dex>,
    items: &[Line<'_>],
) -> Result<Vec<Note>, AllocError>
    ensures { IfOk result (λ v. v.items ≡ notes (setup_of (arc_value config.now) (arc_value dex.now) items.now) items.now) }
{
    let table = table_of(alloc, config, dex, items)?;
    match notes_once(alloc, table, items)? {
        Some(notes) => Ok(notes),
        None => unreachable!(),
    }
}

// ---- once the notes were loaded

// How a command ends whose keeper ended a call so.
pub(crate) fn keeper_status(end: KeepEnd) -> Status
    ensures { result ≡ keeper_status end }
{
    match end {
        KeepEnd::Failed => Status::KeepFault,
        KeepEnd::TooMany { count } => Status::KeepFull { count },
        KeepEnd::NoMemory => Status::NoMemory,
    }
}

// Keeps these notes, which are the script's, and then writes its transcript.
fn archive_notes<K: Sink, R: Keeper>(
    alloc: Global,
    config: &Arc<Config>,
    dex: &Arc<Dex>,
    bytes: &[u8],
    items: &[Line<'_>],
    loaded: &[Note],
    more: &[Note],
    out: &mut K,
    keeper: &mut R,
) -> Status
    requires known { IsReadConfig (arc_value config.now) }
    requires within { long_of bytes.now ≡ None }
    requires script { IsScript (symbols_of (arc_value config.now).groups) bytes.now items.now }
    requires notes { more.now ≡ notes (setup_of (arc_value config.now) (arc_value dex.now) items.now) items.now }
    requires room { length loaded.now + length more.now ≤ most_notes }
    ensures { InputEnds (arc_value config.now) (arc_value dex.now) loaded.now (Some bytes.now) ⊥ (record {
      written = K.written out.old;
      written_after = K.written out.new;
      writes = K.faults out.old;
      writes_after = K.faults out.new;
      kept = R.notes keeper.old;
      kept_after = R.notes keeper.new;
      keeps = R.counts keeper.old;
      keeps_after = R.counts keeper.new;
    }) result }
{
    match keeper.note_all(alloc, more) {
        Err(KeepEnd::Failed) => Status::KeepFault,
        Err(KeepEnd::TooMany { .. }) => unreachable!(),
        Err(KeepEnd::NoMemory) => Status::NoMemory,
        Ok(()) => match replay(alloc, config, dex, items, out) {
            Err(ReplayEnd::WriteFault) => Status::WriteFault,
            Err(ReplayEnd::NoMemory) => Status::NoMemory,
            Ok(()) => Status::Done,
        },
    }
}

// Makes the notes of a script, and keeps them if they aren't too many.
fn archive_items<K: Sink, R: Keeper>(
    alloc: Global,
    config: &Arc<Config>,
    dex: &Arc<Dex>,
    bytes: &[u8],
    items: &[Line<'_>],
    loaded: &[Note],
    out: &mut K,
    keeper: &mut R,
) -> Status
    requires known { IsReadConfig (arc_value config.now) }
    requires within { long_of bytes.now ≡ None }
    requires script { IsScript (symbols_of (arc_value config.now).groups) bytes.now items.now }
    requires few { length loaded.now ≤ most_notes }
    ensures { InputEnds (arc_value config.now) (arc_value dex.now) loaded.now (Some bytes.now) ⊥ (record {
      written = K.written out.old;
      written_after = K.written out.new;
      writes = K.faults out.old;
      writes_after = K.faults out.new;
      kept = R.notes keeper.old;
      kept_after = R.notes keeper.new;
      keeps = R.counts keeper.old;
      keeps_after = R.counts keeper.new;
    }) result }
{
    match notes_of(alloc, config, dex, items) {
        Err(_) => Status::NoMemory,
        Ok(more) => {
            let all = loaded.len() + more.len();
            if all > MOST_NOTES as usize {
                return Status::KeepFull {
                    count: counted(all),
                };
            }
            archive_notes(alloc, config, dex, bytes, items, loaded, &more, out, keeper)
        }
    }
}

fn archive_bytes<K: Sink, R: Keeper>(
    alloc: Global,
    config: &Arc<Config>,
    dex: &Arc<Dex>,
    bytes: &[u8],
    loaded: &[Note],
    out: &mut K,
    keeper: &mut R,
) -> Status
    requires known { IsReadConfig (arc_value config.now) }
    requires within { long_of bytes.now ≡ None }
    requires small { length bytes.now ≤ 16777216 }
    requires few { length loaded.now ≤ most_notes }
    ensures { InputEnds (arc_value config.now) (arc_value dex.now) loaded.now (Some bytes.now) ⊥ (record {
      written = K.written out.old;
      written_after = K.written out.new;
      writes = K.faults out.old;
      writes_after = K.faults out.new;
      kept = R.notes keeper.old;
      kept_after = R.notes keeper.new;
      keeps = R.counts keeper.old;
      keeps_after = R.counts keeper.new;
    }) result }
{
    let symbols = match symbols_of(alloc, config.groups()) {
        Err(_) => return Status::NoMemory,
        Ok(symbols) => symbols,
    };
    match read_script(alloc, bytes, &symbols) {
        Err(ScriptEnd::Bad(line, kind)) => Status::BadScript { line, kind },
        Err(ScriptEnd::NoMemory) => Status::NoMemory,
        Ok(items) => archive_items(alloc, config, dex, bytes, &items, loaded, out, keeper),
    }
}

// Archives the script that the input has.
fn archive_input<S: Source, K: Sink, R: Keeper>(
    alloc: Global,
    config: &Arc<Config>,
    dex: &Arc<Dex>,
    loaded: &[Note],
    input: &mut S,
    out: &mut K,
    keeper: &mut R,
) -> Status
    requires known { IsReadConfig (arc_value config.now) }
    requires few { length loaded.now ≤ most_notes }
    ensures ends { InputEnds (arc_value config.now) (arc_value dex.now) loaded.now (S.left input.old)
        (Rose (S.faults input.old) (S.faults input.new)) (record {
          written = K.written out.old;
          written_after = K.written out.new;
          writes = K.faults out.old;
          writes_after = K.faults out.new;
          kept = R.notes keeper.old;
          kept_after = R.notes keeper.new;
          keeps = R.counts keeper.old;
          keeps_after = R.counts keeper.new;
        }) result }
    ensures whole { result ≡ Status.Done → IsAtEnd (S.left input.new) }
    ensures bounded { ReadsFew (S.left input.old) (S.left input.new) }
{
    match read_input(alloc, input) {
        Err(InputEnd::ReadFault) => Status::ReadFault,
        Err(InputEnd::Long(count)) => Status::ScriptLong { count },
        Err(InputEnd::NoMemory) => Status::NoMemory,
        Ok(bytes) => archive_bytes(alloc, config, dex, &bytes, loaded, out, keeper),
    }
}

// ---- the command

// Loads the notes that are kept, and archives the script of the input.
fn archive_kept<F: Files, S: Source, K: Sink, R: Keeper>(
    alloc: Global,
    config: &Arc<Config>,
    dex: &Arc<Dex>,
    options: OptionWords<'_>,
    files: &mut F,
    input: &mut S,
    out: &mut K,
    keeper: &mut R,
) -> Status
    requires known { IsReadConfig (arc_value config.now) }
    requires set_up { IsSetUp (F.contents files.old) (options_of options) (arc_value config.now) (arc_value dex.now) }
    ensures { IsArchive (options_of options.entry) (record {
      contents = F.contents files.old;
      counts = F.counts files.old;
      counts_after = F.counts files.new;
      left = S.left input.old;
      left_after = S.left input.new;
      reads = S.faults input.old;
      reads_after = S.faults input.new;
      dealings = record {
        written = K.written out.old;
        written_after = K.written out.new;
        writes = K.faults out.old;
        writes_after = K.faults out.new;
        kept = R.notes keeper.old;
        kept_after = R.notes keeper.new;
        keeps = R.counts keeper.old;
        keeps_after = R.counts keeper.new;
      };
    }) result }
{
    match keeper.load(alloc, MOST_NOTES) {
        Err(end) => keeper_status(end),
        Ok(loaded) => archive_input(alloc, config, dex, &loaded, input, out, keeper),
    }
}

fn archive_config<F: Files, S: Source, K: Sink, R: Keeper>(
    alloc: Global,
    dex: &Arc<Dex>,
    options: OptionWords<'_>,
    files: &mut F,
    input: &mut S,
    out: &mut K,
    keeper: &mut R,
) -> Status
    requires { Stands (F.contents files.old) (options_of options).dex
        (λ lookup. dex_in lookup (options_of options).dex) (arc_value dex.now) }
    ensures { IsArchive (options_of options.entry) (record {
      contents = F.contents files.old;
      counts = F.counts files.old;
      counts_after = F.counts files.new;
      left = S.left input.old;
      left_after = S.left input.new;
      reads = S.faults input.old;
      reads_after = S.faults input.new;
      dealings = record {
        written = K.written out.old;
        written_after = K.written out.new;
        writes = K.faults out.old;
        writes_after = K.faults out.new;
        kept = R.notes keeper.old;
        kept_after = R.notes keeper.new;
        keeps = R.counts keeper.old;
        keeps_after = R.counts keeper.new;
      };
    }) result }
{
    match shared_config(alloc, files, dex, options.config) {
        Err(status) => status,
        Ok(config) => archive_kept(alloc, &config, dex, options, files, input, out, keeper),
    }
}

/// Replays the script of the input with the files that the words name, as `run` does, and keeps its notes before anything is
/// written. The notes that are kept are loaded before the input is read.
pub(crate) fn archive<F: Files, S: Source, K: Sink, R: Keeper>(
    alloc: Global,
    options: OptionWords<'_>,
    files: &mut F,
    input: &mut S,
    out: &mut K,
    keeper: &mut R,
) -> Status
    ensures { IsArchive (options_of options.entry) (record {
      contents = F.contents files.old;
      counts = F.counts files.old;
      counts_after = F.counts files.new;
      left = S.left input.old;
      left_after = S.left input.new;
      reads = S.faults input.old;
      reads_after = S.faults input.new;
      dealings = record {
        written = K.written out.old;
        written_after = K.written out.new;
        writes = K.faults out.old;
        writes_after = K.faults out.new;
        kept = R.notes keeper.old;
        kept_after = R.notes keeper.new;
        keeps = R.counts keeper.old;
        keeps_after = R.counts keeper.new;
      };
    }) result }
{
    match shared_dex(alloc, files, options.dex) {
        Err(status) => status,
        Ok(dex) => archive_config(alloc, &dex, options, files, input, out, keeper),
    }
}
