//! Prints the standings of a format.
ghost use Rattle.std.specs.Prelude.{◌≡◌, ◌++◌, ◌≤◌, length, IfOk, OnOk, string_bytes};
ghost use Rattle.std.specs.List.{flat_map};
ghost use Rattle.ps_replay.specs.Dealings.{most_notes};
ghost use Rattle.ps_replay.specs.StandingsEnds.{place_line, AreLines, PrintsLines, StandingsEnd};

use crate::archive::{MOST_NOTES, keeper_status};
use program_commands::status::Status;
use ps_base::id::to_id;
use ps_keep::keeper::Keeper;
use ps_keep::note::Note;
use ps_keep::standings::{Place, standings};
use ps_outside::files::Files;
use ps_outside::sink::{self, Sink};
use ps_outside::source::Source;
use std::alloc::{AllocError, Global};
use std::fmt::Write;

fn push_lines(out: &mut String, places: &[Place]) -> Result<(), AllocError>
    ensures { OnOk result (string_bytes out.new ≡ string_bytes out.old ++ flat_map place_line places.now) }
{
    for place in places {
        writeln!(out, "{place}")?;
    }
    Ok(())
}

fn lines_of(alloc: Global, notes: &[Note], format: &str) -> Result<String, AllocError>
    requires { length notes.now ≤ most_notes }
    ensures { IfOk result (λ t. AreLines format.now notes.now (string_bytes t)) }
{
    let format = to_id(alloc, format)?;
    let places = standings(alloc, notes, &format)?;
    let mut text = String::new(alloc);
    push_lines(&mut text, &places)?;
    Ok(text)
}

// Prints the standings of a format after these notes.
fn print_lines<K: Sink>(alloc: Global, notes: &[Note], format: &str, out: &mut K) -> Status
    requires { length notes.now ≤ most_notes }
    ensures { PrintsLines format.now notes.now (K.written out.old) (K.written out.new) (K.faults out.old) (K.faults out.new) result }
{
    match lines_of(alloc, notes, format) {
        Err(_) => Status::NoMemory,
        Ok(text) => match sink::write_all(out, text.as_bytes()) {
            Err(_) => Status::WriteFault,
            Ok(()) => Status::Done,
        },
    }
}

/// Prints a line for each user that won or lost a rated battle of the format by the notes that are kept: its id and its rating, by
/// falling rating and then by id. The format is read by `to_id`, and no configuration has to know it. Files and input are left
/// alone.
pub(crate) fn print_standings<F: Files, S: Source, K: Sink, R: Keeper>(
    alloc: Global,
    format: &str,
    files: &mut F,
    input: &mut S,
    out: &mut K,
    keeper: &mut R,
) -> Status
    ensures ends { StandingsEnd format.now (record {
      contents = F.contents files.old;
      counts = F.counts files.old;
      counts_after = F.counts files.new;
      left = S.left input.old;
      left_after = S.left input.new;
      reads = S.faults input.old;
      reads_after = S.faults input.new;
      dealings = record {
        written = K.written out.old;
        written_after = K.written out.new;
        writes = K.faults out.old;
        writes_after = K.faults out.new;
        kept = R.notes keeper.old;
        kept_after = R.notes keeper.new;
        keeps = R.counts keeper.old;
        keeps_after = R.counts keeper.new;
      };
    }) result }
    ensures untouched { S.left input.new ≡ S.left input.old }
{
    match keeper.load(alloc, MOST_NOTES) {
        Err(end) => keeper_status(end),
        Ok(notes) => print_lines(alloc, &notes, format, out),
    }
}
