//! What the program does with notes that are kept from one run to the next.
ghost use Rattle.std.specs.Prelude.{◌≡◌, map, string_bytes};
ghost use Rattle.std.specs.Io.KnownBytes.{IsAtEnd};
ghost use Rattle.replay_script.specs.Limits.{ReadsFew};
ghost use Rattle.program_commands.specs.KeptWords.{kept_words_in, IfArchive, IfStandings};
ghost use Rattle.program_commands.specs.Setups.{usage_in, usage_reported};
ghost use Rattle.ps_replay.specs.Dealings.{IsUntouched};
ghost use Rattle.ps_replay.specs.Archives.{ArchiveEnds, SettlesArchive};
ghost use Rattle.ps_replay.specs.StandingsEnds.{StandingsEnd, SettlesStandings};
ghost use Rattle.ps_replay.specs.KeptRuns.{IfNothing, IsRunKept};

use crate::archive::archive;
use crate::standings::print_standings;
use program_commands::kept_words::{KeptCommand, read_kept_words};
use program_commands::status::Status;
use ps_keep::keeper::Keeper;
use ps_outside::files::Files;
use ps_outside::sink::Sink;
use ps_outside::source::Source;
use std::alloc::Global;

// Does what the words ask for: all that is said of it is one fact.
fn run_words<F: Files, S: Source, K: Sink, R: Keeper>(
    alloc: Global,
    words: &[String],
    files: &mut F,
    input: &mut S,
    out: &mut K,
    keeper: &mut R,
) -> Status
    ensures { IsRunKept (kept_words_in (map string_bytes words.now)) (record {
      contents = F.contents files.old;
      counts = F.counts files.old;
      counts_after = F.counts files.new;
      left = S.left input.old;
      left_after = S.left input.new;
      reads = S.faults input.old;
      reads_after = S.faults input.new;
      dealings = record {
        written = K.written out.old;
        written_after = K.written out.new;
        writes = K.faults out.old;
        writes_after = K.faults out.new;
        kept = R.notes keeper.old;
        kept_after = R.notes keeper.new;
        keeps = R.counts keeper.old;
        keeps_after = R.counts keeper.new;
      };
    }) result }
{
    match read_kept_words(words) {
        Err(word) => Status::Usage { word },
        Ok(KeptCommand::Archive(words)) => archive(alloc, words.options, files, input, out, keeper),
        Ok(KeptCommand::Standings(words)) => {
            print_standings(alloc, words.format, files, input, out, keeper)
        }
    }
}

/// Does what the words ask for, with a keeper of notes. `archive` reads the dex file and the configuration, if the words name them,
/// loads the notes, reads a script from the input whole, notes in the keeper each act of staff and each rated battle that was won,
/// and then writes what `replay` writes. `standings` loads the notes and writes a line `ID RATING` for each user that won or lost a
/// rated battle of the format; it leaves the input alone. Both name a keeper, by `--keep`: which one it is, the caller says.
pub fn run_kept<F: Files, S: Source, K: Sink, R: Keeper>(
    alloc: Global,
    words: &[String],
    files: &mut F,
    input: &mut S,
    out: &mut K,
    keeper: &mut R,
) -> Status
    // The words are at fault exactly where this is reported, and then nothing was done.
    ensures usage { usage_reported result ≡ usage_in (kept_words_in (map string_bytes words.now)) }
    ensures untouched { IfNothing (kept_words_in (map string_bytes words.now)) (IsUntouched (record {
      contents = F.contents files.old;
      counts = F.counts files.old;
      counts_after = F.counts files.new;
      left = S.left input.old;
      left_after = S.left input.new;
      reads = S.faults input.old;
      reads_after = S.faults input.new;
      dealings = record {
        written = K.written out.old;
        written_after = K.written out.new;
        writes = K.faults out.old;
        writes_after = K.faults out.new;
        kept = R.notes keeper.old;
        kept_after = R.notes keeper.new;
        keeps = R.counts keeper.old;
        keeps_after = R.counts keeper.new;
      };
    })) }

    // An archive ends with a status that has its cause. At Done all notes of the script are kept behind the old ones, and its
    // transcript was written; at each other status it is said which notes are kept, and what was written.
    ensures archived { IfArchive (kept_words_in (map string_bytes words.now)) (λ asked. ArchiveEnds asked.options (record {
      contents = F.contents files.old;
      counts = F.counts files.old;
      counts_after = F.counts files.new;
      left = S.left input.old;
      left_after = S.left input.new;
      reads = S.faults input.old;
      reads_after = S.faults input.new;
      dealings = record {
        written = K.written out.old;
        written_after = K.written out.new;
        writes = K.faults out.old;
        writes_after = K.faults out.new;
        kept = R.notes keeper.old;
        kept_after = R.notes keeper.new;
        keeps = R.counts keeper.old;
        keeps_after = R.counts keeper.new;
      };
    }) result) }
    ensures whole { IfArchive (kept_words_in (map string_bytes words.now)) (λ _. result ≡ Status.Done → IsAtEnd (S.left input.new)) }

    // Standings end with a status that has its cause; at Done they are those of the notes that are kept.
    ensures stand { IfStandings (kept_words_in (map string_bytes words.now)) (λ asked. StandingsEnd asked.format (record {
      contents = F.contents files.old;
      counts = F.counts files.old;
      counts_after = F.counts files.new;
      left = S.left input.old;
      left_after = S.left input.new;
      reads = S.faults input.old;
      reads_after = S.faults input.new;
      dealings = record {
        written = K.written out.old;
        written_after = K.written out.new;
        writes = K.faults out.old;
        writes_after = K.faults out.new;
        kept = R.notes keeper.old;
        kept_after = R.notes keeper.new;
        keeps = R.counts keeper.old;
        keeps_after = R.counts keeper.new;
      };
    }) result) }
    ensures bounded { ReadsFew (S.left input.old) (S.left input.new) }

    // Without a cause of another status a run settles.
    ensures complete_archive { IfArchive (kept_words_in (map string_bytes words.now)) (λ asked. SettlesArchive asked.options (record {
      contents = F.contents files.old;
      counts = F.counts files.old;
      counts_after = F.counts files.new;
      left = S.left input.old;
      left_after = S.left input.new;
      reads = S.faults input.old;
      reads_after = S.faults input.new;
      dealings = record {
        written = K.written out.old;
        written_after = K.written out.new;
        writes = K.faults out.old;
        writes_after = K.faults out.new;
        kept = R.notes keeper.old;
        kept_after = R.notes keeper.new;
        keeps = R.counts keeper.old;
        keeps_after = R.counts keeper.new;
      };
    }) result) }
    ensures complete_standings { IfStandings (kept_words_in (map string_bytes words.now)) (λ _. SettlesStandings (record {
      written = K.written out.old;
      written_after = K.written out.new;
      writes = K.faults out.old;
      writes_after = K.faults out.new;
      kept = R.notes keeper.old;
      kept_after = R.notes keeper.new;
      keeps = R.counts keeper.old;
      keeps_after = R.counts keeper.new;
    }) result) }
{
    run_words(alloc, words, files, input, out, keeper)
}
