//! All that the program does.
ghost use Rattle.std.specs.Prelude.{◌≡◌, ◌≤◌, ◌<◌, ◌^◌, ℕ, List, Some, Ok, IfSome, map, length, string_bytes};
ghost use Rattle.std.specs.Arc.{arc_value};
ghost use Rattle.std.specs.Io.KnownBytes.{Appends, IsAtEnd};
ghost use Rattle.ps_outside.specs.Causes.{Rose};
ghost use Rattle.replay_script.specs.Scripts.{IsScript};
ghost use Rattle.replay_script.specs.Limits.{long_of, ReadsFew};
ghost use Rattle.replay_script.specs.declared.item.Item.{Item};
ghost use Rattle.program_commands.specs.Words.{words_in, options_of, IfReplay, IfDrill, IfCheck, IfExport, IfImport, IfTour};
ghost use Rattle.program_commands.specs.Steps.{dex_in};
ghost use Rattle.program_commands.specs.Setups.{usage_of, usage_reported, HasSetup, Stands, EndsIfKnown};
ghost use Rattle.program_commands.specs.Checks.{legal_line, CheckEnds, IsNamed, CheckCause, SettlesCheck};
ghost use Rattle.program_commands.specs.Conversions.{HasExport, MakesPacked, ExportCause, ImportCause, WritesExport, WritesPacked};
ghost use Rattle.program_commands.specs.Conversions.{SettlesConversion};
ghost use Rattle.ps_replay.specs.Outcomes.{symbols_of, IsOfInput, KeepsInput, IsTranscript, HasOneEntryEachText, HasHistories};
ghost use Rattle.ps_replay.specs.Outcomes.{HallLosesNothing, HasEqualWorlds, IsReplayed, WritesOfInput, ReplayCause, InputCause, Settles};
ghost use Rattle.ps_replay.specs.Outcomes.{SettlesInput, AtDoneOfReplay, IsReadConfig};
ghost use Rattle.ps_replay.specs.Drills.{DrillEnds, DrillCause, WritesSummary, SettlesDrill};
ghost use Rattle.ps_replay.specs.Tours.{IsTour, TourEnds, TourCause, SettlesTour};
ghost use Rattle.ps_replay.specs.Writes.{Writes};
ghost use Rattle.ps_replay.specs.Commands.{IsReplay, IsRun};

use crate::drill::drill;
use crate::replay::{ReplayEnd, replay};
use crate::setup::{shared_config, shared_dex};
use crate::symbols::symbols_of;
use crate::tour::tour;
use program_commands::check::check;
use program_commands::convert::{export, import};
use program_commands::status::Status;
use program_commands::words::{Command, OptionWords, read_words};
use ps_dex::dex::Dex;
use ps_outside::files::Files;
use ps_outside::sink::Sink;
use ps_outside::source::Source;
use replay_script::input::{InputEnd, read_input};
use replay_script::line::Line;
use replay_script::script::{ScriptEnd, read_script};
use rules_config::config::Config;
use std::alloc::Global;
use std::sync::Arc;

fn run_items<K: Sink>(
    alloc: Global,
    config: &Arc<Config>,
    dex: &Arc<Dex>,
    bytes: &[u8],
    items: &[Line<'_>],
    out: &mut K,
) -> Status
    requires known { IsReadConfig (arc_value config.now) }
    requires within { long_of bytes.now ≡ None }
    requires script { IsScript (symbols_of (arc_value config.now).groups) bytes.now items.now }
    requires one { (others : List Item) → IsScript (symbols_of (arc_value config.now).groups) bytes.now others → others ≡ items.now }
    ensures of { IsOfInput result }
    ensures replayed { result ≡ Status.Done → IsReplayed (arc_value config.now) (arc_value dex.now) (K.written out.old) (K.written out.new)
        bytes.now }
    ensures prefix { WritesOfInput (arc_value config.now) (arc_value dex.now) (Some bytes.now) (K.written out.old) (K.written out.new)
        result }
    ensures cause { InputCause (arc_value config.now).groups (Some bytes.now) result }
    ensures read_fault { result ≡ Status.ReadFault → ⊥ }
    ensures write_fault { result ≡ Status.WriteFault → Rose (K.faults out.old) (K.faults out.new) }
{
    match replay(alloc, config, dex, items, out) {
        Err(ReplayEnd::WriteFault) => Status::WriteFault,
        Err(ReplayEnd::NoMemory) => Status::NoMemory,
        Ok(()) => Status::Done,
    }
}

fn run_bytes<K: Sink>(
    alloc: Global,
    config: &Arc<Config>,
    dex: &Arc<Dex>,
    bytes: &[u8],
    out: &mut K,
) -> Status
    requires known { IsReadConfig (arc_value config.now) }
    requires within { long_of bytes.now ≡ None }
    requires small { length bytes.now ≤ 16777216 }
    ensures of { IsOfInput result }
    ensures replayed { result ≡ Status.Done → IsReplayed (arc_value config.now) (arc_value dex.now) (K.written out.old) (K.written out.new)
        bytes.now }
    ensures prefix { WritesOfInput (arc_value config.now) (arc_value dex.now) (Some bytes.now) (K.written out.old) (K.written out.new)
        result }
    ensures cause { InputCause (arc_value config.now).groups (Some bytes.now) result }
    ensures read_fault { result ≡ Status.ReadFault → ⊥ }
    ensures write_fault { result ≡ Status.WriteFault → Rose (K.faults out.old) (K.faults out.new) }
{
    let symbols = match symbols_of(alloc, config.groups()) {
        Err(_) => return Status::NoMemory,
        Ok(symbols) => symbols,
    };
    match read_script(alloc, bytes, &symbols) {
        Err(ScriptEnd::Bad(line, kind)) => Status::BadScript { line, kind },
        Err(ScriptEnd::NoMemory) => Status::NoMemory,
        Ok(items) => run_items(alloc, config, dex, bytes, &items, out),
    }
}

// Replays the script that the input has, under a configuration and a dex.
fn run_input<S: Source, K: Sink>(
    alloc: Global,
    config: &Arc<Config>,
    dex: &Arc<Dex>,
    input: &mut S,
    out: &mut K,
) -> Status
    requires { IsReadConfig (arc_value config.now) }
    ensures of { IsOfInput result }
    ensures whole { result ≡ Status.Done → IsAtEnd (S.left input.new) }
    ensures replayed { result ≡ Status.Done → IfSome (S.left input.old)
        (IsReplayed (arc_value config.now) (arc_value dex.now) (K.written out.old) (K.written out.new)) }
    ensures prefix { WritesOfInput (arc_value config.now) (arc_value dex.now) (S.left input.old) (K.written out.old)
        (K.written out.new) result }
    ensures bounded { ReadsFew (S.left input.old) (S.left input.new) }
    ensures cause { InputCause (arc_value config.now).groups (S.left input.old) result }
    ensures read_fault { result ≡ Status.ReadFault → Rose (S.faults input.old) (S.faults input.new) }
    ensures write_fault { result ≡ Status.WriteFault → Rose (K.faults out.old) (K.faults out.new) }
    ensures settles { SettlesInput (arc_value config.now).groups (S.left input.old) (Rose (S.faults input.old) (S.faults input.new))
        (Rose (K.faults out.old) (K.faults out.new)) result }
{
    match read_input(alloc, input) {
        Err(InputEnd::ReadFault) => Status::ReadFault,
        Err(InputEnd::Long(count)) => Status::ScriptLong { count },
        Err(InputEnd::NoMemory) => Status::NoMemory,
        Ok(bytes) => run_bytes(alloc, config, dex, &bytes, out),
    }
}

// Replays the script of the input, over a dex.
fn run_config<F: Files, S: Source, K: Sink>(
    alloc: Global,
    dex: &Arc<Dex>,
    options: OptionWords<'_>,
    files: &mut F,
    input: &mut S,
    out: &mut K,
) -> Status
    requires { Stands (F.contents files.old) (options_of options).dex (λ lookup. dex_in lookup (options_of options).dex)
        (arc_value dex.now) }
    ensures { IsReplay (options_of options.entry) (record {
      contents = F.contents files.old;
      counts = F.counts files.old;
      counts_after = F.counts files.new;
      left = S.left input.old;
      left_after = S.left input.new;
      reads = S.faults input.old;
      reads_after = S.faults input.new;
      written = K.written out.old;
      written_after = K.written out.new;
      writes = K.faults out.old;
      writes_after = K.faults out.new;
    }) result }
{
    match shared_config(alloc, files, dex, options.config) {
        Err(status) => status,
        Ok(config) => run_input(alloc, &config, dex, input, out),
    }
}

// Replays the script of the input, with the files that the words name.
fn run_replay<F: Files, S: Source, K: Sink>(
    alloc: Global,
    options: OptionWords<'_>,
    files: &mut F,
    input: &mut S,
    out: &mut K,
) -> Status
    ensures { IsReplay (options_of options.entry) (record {
      contents = F.contents files.old;
      counts = F.counts files.old;
      counts_after = F.counts files.new;
      left = S.left input.old;
      left_after = S.left input.new;
      reads = S.faults input.old;
      reads_after = S.faults input.new;
      written = K.written out.old;
      written_after = K.written out.new;
      writes = K.faults out.old;
      writes_after = K.faults out.new;
    }) result }
{
    match shared_dex(alloc, files, options.dex) {
        Err(status) => status,
        Ok(dex) => run_config(alloc, &dex, options, files, input, out),
    }
}

// Does what the words ask for: all that is said of it is one fact.
fn run_words<F: Files, S: Source, K: Sink>(
    alloc: Global,
    words: &[String],
    files: &mut F,
    input: &mut S,
    out: &mut K,
) -> Status
    ensures { IsRun (words_in (map string_bytes words.now)) (record {
      contents = F.contents files.old;
      counts = F.counts files.old;
      counts_after = F.counts files.new;
      left = S.left input.old;
      left_after = S.left input.new;
      reads = S.faults input.old;
      reads_after = S.faults input.new;
      written = K.written out.old;
      written_after = K.written out.new;
      writes = K.faults out.old;
      writes_after = K.faults out.new;
    }) result }
{
    match read_words(words) {
        Err(word) => Status::Usage { word },
        Ok(Command::Replay(options)) => run_replay(alloc, options, files, input, out),
        Ok(Command::Drill(words)) => drill(alloc, words, files, out),
        Ok(Command::Check(words)) => check(alloc, words, files, out),
        Ok(Command::Export(name)) => export(alloc, name, files, out),
        Ok(Command::Import(name)) => import(alloc, name, files, out),
        Ok(Command::Tour(words)) => tour(alloc, words, files, out),
    }
}

/// Does what the words ask for. `replay` reads the dex file and the configuration, if the words name them, and a script
/// from the input whole, and then writes the transcript of the script's entries. `check` reads the dex file and the
/// configuration, if the words name them, and the file of a packed team, and writes `legal` where the team keeps the
/// rules of the format. `drill` reads the dex file and the configuration, if the words name them, makes a script, runs it,
/// and writes six lines that tell what came of it. `export` reads the file of a packed team, and writes its export text; `import`
/// reads the file of an export text, and writes the packed text and a newline. `tour` reads the dex file and the configuration,
/// if the words name them, plays a tournament, and writes its transcript and who beat whom. All but `replay` leave the input
/// alone.
pub fn run<F: Files, S: Source, K: Sink>(
    alloc: Global,
    words: &[String],
    files: &mut F,
    input: &mut S,
    out: &mut K,
) -> Status
    // The words are at fault exactly where this is reported.
    ensures usage { usage_reported result ≡ usage_of (map string_bytes words.now) }

    // A replay ends with a status that has its cause: the dex file and the configuration are read and found good before the
    // input is read.
    ensures cause { IfReplay (words_in (map string_bytes words.now))
        (λ o. ReplayCause (F.contents files.old) o (S.left input.old) (F.counts files.old) (F.counts files.new) result) }
    ensures input { KeepsInput (S.left input.old) (S.left input.new) result }

    // At Done of a replay the input was read to its end. One dex and one configuration, those of the files that are named or the standard
    // ones, and one script, that of the input, are those of which all of this holds.
    ensures whole { IfReplay (words_in (map string_bytes words.now)) (λ _. result ≡ Status.Done → IsAtEnd (S.left input.new)) }
    ensures replayed { AtDoneOfReplay (map string_bytes words.now) (F.contents files.old) (S.left input.old) result
        (λ config dex. IsReplayed config dex (K.written out.old) (K.written out.new)) }

    // The whole transcript of the script was written.
    ensures transcript { AtDoneOfReplay (map string_bytes words.now) (F.contents files.old) (S.left input.old) result
        (λ config dex. IsTranscript config dex (K.written out.old) (K.written out.new)) }

    // Each of the script's texts is one entry, and the entries are the histories of their places.
    ensures one_entry { AtDoneOfReplay (map string_bytes words.now) (F.contents files.old) (S.left input.old) result
        (λ config dex. HasOneEntryEachText config dex) }
    ensures histories { AtDoneOfReplay (map string_bytes words.now) (F.contents files.old) (S.left input.old) result
        (λ config dex. HasHistories config dex) }

    // In its hall each match started its battle, and the ladder of each format is made of all won reports of rated battles.
    ensures hall { AtDoneOfReplay (map string_bytes words.now) (F.contents files.old) (S.left input.old) result
        (λ config dex. HallLosesNothing config dex) }

    // A connection's block from the hall or a room is the same for every script whose world there is the same to it.
    ensures two_worlds { AtDoneOfReplay (map string_bytes words.now) (F.contents files.old) (S.left input.old) result
        (λ config dex. HasEqualWorlds config dex) }

    // A check ends as the first of its steps that ends in a status, and at Done the team of the known files is legal. The input
    // isn't touched.
    ensures check_ends { IfCheck (words_in (map string_bytes words.now))
        (λ asked. EndsIfKnown (F.contents files.old) (λ lookup. CheckEnds lookup asked) result) }
    ensures check_cause { IfCheck (words_in (map string_bytes words.now))
        (λ asked. CheckCause (IsNamed asked) (F.counts files.old) (F.counts files.new) result) }
    ensures check_untouched { IfCheck (words_in (map string_bytes words.now)) (λ _. S.left input.new ≡ S.left input.old) }

    // At Done of a check `legal` and a newline were written.
    ensures check_summary { IfCheck (words_in (map string_bytes words.now))
        (λ _. result ≡ Status.Done → Appends (K.written out.old) (K.written out.new) legal_line) }

    // An export ends with a status that has its cause, and at Done the export text of the file's packed team was written.
    ensures export_cause { IfExport (words_in (map string_bytes words.now)) (λ name.
        ExportCause (F.contents files.old) name (F.counts files.old) (F.counts files.new) result) }
    ensures export_untouched { IfExport (words_in (map string_bytes words.now)) (λ _. S.left input.new ≡ S.left input.old) }
    ensures export_written { IfExport (words_in (map string_bytes words.now)) (λ name.
        result ≡ Status.Done → WritesExport (F.contents files.old) name (K.written out.old) (K.written out.new)) }

    // So does an import, and at Done the packed text of the team that the file's export text has, and a newline, were written.
    ensures import_cause { IfImport (words_in (map string_bytes words.now)) (λ name.
        ImportCause (F.contents files.old) name (F.counts files.old) (F.counts files.new) result) }
    ensures import_untouched { IfImport (words_in (map string_bytes words.now)) (λ _. S.left input.new ≡ S.left input.old) }
    ensures import_written { IfImport (words_in (map string_bytes words.now)) (λ name.
        result ≡ Status.Done → WritesPacked (F.contents files.old) name (K.written out.old) (K.written out.new)) }

    // A drill ends as the first of the dex and the configuration that ends in a status, and else in Done, unless the sink or
    // memory fails: its text is a script whatever they say. The input isn't touched.
    ensures drill_ends { IfDrill (words_in (map string_bytes words.now))
        (λ asked. EndsIfKnown (F.contents files.old) (λ lookup. DrillEnds lookup asked.options) result) }
    ensures drill_cause { IfDrill (words_in (map string_bytes words.now))
        (λ asked. DrillCause asked.options (F.counts files.old) (F.counts files.new) result) }
    ensures drill_untouched { IfDrill (words_in (map string_bytes words.now)) (λ _. S.left input.new ≡ S.left input.old) }

    // At Done of a drill its summary was written: the numbers and the digest of its script and of the transcript of that script.
    ensures drill_summary { IfDrill (words_in (map string_bytes words.now))
        (λ asked. result ≡ Status.Done → HasSetup (F.contents files.old) asked.options
        (λ config dex. WritesSummary config dex asked.steps (K.written out.old) (K.written out.new))) }

    // A tournament ends as the first of the dex and the configuration that ends in a status, or in NoTour exactly where there is no
    // species, no format, or no team that is legal in the first one, and else in Done, unless the sink or memory fails. The input
    // isn't touched.
    ensures tour_ends { IfTour (words_in (map string_bytes words.now)) (λ asked.
        EndsIfKnown (F.contents files.old) (λ lookup. TourEnds lookup asked.options) result) }
    ensures tour_cause { IfTour (words_in (map string_bytes words.now)) (λ asked.
        TourCause asked.options (F.counts files.old) (F.counts files.new) result) }
    ensures tour_untouched { IfTour (words_in (map string_bytes words.now)) (λ _. S.left input.new ≡ S.left input.old) }

    // At Done of a tournament the transcript of its script was written, and who beat whom; each user but the champion was beaten
    // exactly once; and a connection's block is the same for every script whose world there is the same to it.
    ensures tour_played { IfTour (words_in (map string_bytes words.now)) (λ asked.
        result ≡ Status.Done → HasSetup (F.contents files.old) asked.options (IsTour asked (K.written out.old) (K.written out.new))) }

    // At every other status nothing was written, but for a front of the output at WriteFault, and at NoMemory of a replay and of a
    // tournament.
    ensures prefix { Writes (words_in (map string_bytes words.now)) (F.contents files.old) (S.left input.old) (K.written out.old)
        (K.written out.new) result }
    ensures bounded { ReadsFew (S.left input.old) (S.left input.new) }

    // Without a cause of another status a run settles.
    ensures read_fault { result ≡ Status.ReadFault → Rose (S.faults input.old) (S.faults input.new) }
    ensures write_fault { result ≡ Status.WriteFault → Rose (K.faults out.old) (K.faults out.new) }
    ensures complete { IfReplay (words_in (map string_bytes words.now))
        (λ o. Settles (F.contents files.old) o (S.left input.old) (Rose (F.counts files.old).faults (F.counts files.new).faults)
        (Rose (S.faults input.old) (S.faults input.new)) (Rose (K.faults out.old) (K.faults out.new)) result) }
    ensures complete_check { IfCheck (words_in (map string_bytes words.now))
        (λ asked. SettlesCheck (F.contents files.old) (Rose (F.counts files.old).faults (F.counts files.new).faults)
        (Rose (K.faults out.old) (K.faults out.new)) asked result) }
    ensures complete_export { IfExport (words_in (map string_bytes words.now)) (λ name.
        SettlesConversion (F.contents files.old) HasExport (Rose (F.counts files.old).faults (F.counts files.new).faults)
        (Rose (K.faults out.old) (K.faults out.new)) name result) }
    ensures complete_import { IfImport (words_in (map string_bytes words.now)) (λ name.
        SettlesConversion (F.contents files.old) MakesPacked (Rose (F.counts files.old).faults (F.counts files.new).faults)
        (Rose (K.faults out.old) (K.faults out.new)) name result) }
    ensures complete_drill { IfDrill (words_in (map string_bytes words.now))
        (λ asked. SettlesDrill (F.contents files.old) (Rose (F.counts files.old).faults (F.counts files.new).faults)
        (Rose (K.faults out.old) (K.faults out.new)) asked.options result) }
    ensures complete_tour { IfTour (words_in (map string_bytes words.now)) (λ asked.
        SettlesTour (F.contents files.old) (Rose (F.counts files.old).faults (F.counts files.new).faults)
        (Rose (K.faults out.old) (K.faults out.new)) asked.options result) }
{
    run_words(alloc, words, files, input, out)
}
