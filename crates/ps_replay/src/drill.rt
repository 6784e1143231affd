//! Drills: makes a script, runs it, and tells what came of it.
ghost use Rattle.std.specs.Prelude.{◌≡◌, ◌≢◌, ◌++◌, ◌≤◌, ◌-◌, ◌^◌, ℕ, List, [], length, IfOk, OnOk, string_bytes};
ghost use Rattle.std.specs.Arc.{arc_value};
ghost use Rattle.ps_outside.specs.Causes.{Rose};
ghost use Rattle.replay_script.specs.Scripts.{IsScript};
ghost use Rattle.replay_state.specs.Setup.{setup_of};
ghost use Rattle.replay_state.specs.Tables.{item_after, item_text, item_ledger, text_from};
ghost use Rattle.replay_drill.specs.Messages.{counted};
ghost use Rattle.replay_drill.specs.Plain.{HasPlainNames, HasPlainFormats};
ghost use Rattle.replay_drill.specs.Drills.{drill_text};
ghost use Rattle.replay_drill.specs.Tallies as tallies;
ghost use Rattle.program_commands.specs.Words.{options_of, drilled_of};
ghost use Rattle.program_commands.specs.Steps.{dex_in};
ghost use Rattle.program_commands.specs.Setups.{HasSetup, Stands, EndsIfKnown};
ghost use Rattle.ps_replay.specs.Outcomes.{symbols_of};
ghost use Rattle.ps_replay.specs.Drills.{summary_of, IsSummary, WritesSummary, WritesDrill, DrillEnds, ConfigEnds, DrillCause};
ghost use Rattle.ps_replay.specs.Drills.{SettlesDrill, IsOfRun, WritesRun};
ghost use Rattle.ps_replay.specs.Runs.{SummarizesRun, HasRun};

use crate::replay::table_of;
use crate::setup::{shared_config, shared_dex};
use crate::summary::{Figures, summary_text};
use crate::symbols::symbols_of;
use program_commands::status::Status;
use program_commands::words::DrillWords;
use ps_dex::dex::Dex;
use ps_outside::files::Files;
use ps_outside::sink::{self, Sink};
use replay_drill::counter::Counter;
use replay_drill::script::drill_script;
use replay_drill::tally::Tally;
use replay_script::line::Line;
use replay_script::script::{ScriptEnd, read_script};
use replay_state::table::Table;
use replay_state::transcript::{Counts, Transcript};
use rules_config::config::Config;
use std::alloc::{AllocError, Global};
use std::sync::Arc;

/// The most bytes of a script, which is far more than a drill has. Past them the answer is out of memory.
const MOST_SCRIPT: usize = 16_777_216;

/// What came of the lines of a script.
#[derive(Drop)]
pub(crate) struct Run {
    /// The length and the digest of the script with the transcript behind it.
    pub(crate) tally: Tally,
    /// The messages of the transcript.
    pub(crate) counter: Counter,
    /// The entries, and those of them that were refused.
    pub(crate) counts: Counts,
}

// ---- the run

// Runs a line, and takes what it prints.
fn run_item(
    alloc: Global,
    table: &mut Table,
    item: &Line<'_>,
    pending: &mut Transcript,
    tally: &mut Tally,
    counter: &mut Counter,
) -> Result<(), AllocError>
    requires { string_bytes pending.old.text ≡ [] }
    ensures state { OnOk result (table.new ≡ item_after table.old item.now) }
    ensures ledger { OnOk result (pending.new.ledger ≡ item_ledger table.old item.now pending.old.ledger) }
    ensures empty { OnOk result (string_bytes pending.new.text ≡ []) }
    ensures tally { OnOk result ((text : List ℕ) → tallies.Tallies tally.old text
        → tallies.Tallies tally.new (text ++ item_text table.old item.now)) }
    ensures counter { OnOk result ((text : List ℕ) → tallies.Counts counter.old text
        → tallies.Counts counter.new (text ++ item_text table.old item.now)) }
{
    table.play(alloc, item, pending)?;
    tally.take(pending.text.as_bytes());
    counter.take(pending.text.as_bytes());
    pending.text.clear();
    Ok(())
}

// Runs the lines from a state on, behind a text that was tallied.
fn run_from(
    alloc: Global,
    table: &mut Table,
    items: &[Line<'_>],
    tally: Tally,
) -> Result<Run, AllocError>
    ensures { IfOk result (SummarizesRun tally table.old items.now) }
{
    let mut tally = tally;
    let mut counter = Counter::new();
    let mut pending = Transcript::new(alloc);
    for item in items {
        run_item(alloc, table, item, &mut pending, &mut tally, &mut counter)?;
    }
    Ok(Run {
        tally,
        counter,
        counts: pending.ledger.counts(),
    })
}

// The same of a state that ends with the run. It is dropped here alone: who has it by value takes it apart at each exit.
fn run_once(
    alloc: Global,
    table: Table,
    items: &[Line<'_>],
    tally: Tally,
) -> Result<Run, AllocError>
    ensures { IfOk result (SummarizesRun tally table items.now) }
{
    let mut table = table;
    run_from(alloc, &mut table, items, tally)
}

// A count that doesn't stand still. Past the others the answer is out of memory.
fn exact(count: u64) -> Result<u64, AllocError>
    ensures { IfOk result (λ n. (m : ℕ) → count ≡ counted m → n ≡ m) }
{
    if count == u64::MAX {
        return Err(AllocError);
    }
    Ok(count)
}

// ---- the summary

// The summary of a run of a script of so many lines.
fn run_summary(alloc: Global, lines: usize, run: Run) -> Result<String, AllocError>
    ensures { IfOk result (λ t. HasRun run lines (string_bytes t)) }
{
    let figures = Figures {
        lines,
        counts: run.counts,
        messages: exact(run.counter.messages())?,
        bytes: exact(run.tally.bytes())?,
    };
    summary_text(alloc, figures, &run.tally.digest())
}

// Runs the lines of a script, and tells what came of it.
fn run_items(
    alloc: Global,
    config: &Arc<Config>,
    dex: &Arc<Dex>,
    script: &[u8],
    items: &[Line<'_>],
) -> Result<String, AllocError>
    requires { IsScript (symbols_of (arc_value config.now).groups) script.now items.now }
    ensures { IfOk result (λ t. string_bytes t
        ≡ summary_of script.now (setup_of (arc_value config.now) (arc_value dex.now) items.now) items.now) }
{
    let table = table_of(alloc, config, dex, items)?;
    let mut tally = Tally::new();
    tally.take(script);
    let run = run_once(alloc, table, items, tally)?;
    run_summary(alloc, items.len(), run)
}

// Makes the script of a drill, runs it, and tells what came of it.
fn summarize(
    alloc: Global,
    config: &Arc<Config>,
    dex: &Arc<Dex>,
    steps: u32,
) -> Result<String, AllocError>
    requires formats { HasPlainFormats (arc_value config.now) }
    requires names { HasPlainNames (arc_value dex.now) }
    requires few { steps ≤ 4000 }
    ensures { IfOk result (λ t. IsSummary (arc_value config.now) (arc_value dex.now) steps (string_bytes t)) }
{
    let script = drill_script(alloc, steps, config, dex)?;
    if script.len() > MOST_SCRIPT {
        return Err(AllocError);
    }
    let symbols = symbols_of(alloc, config.groups())?;
    match read_script(alloc, script.as_bytes(), symbols.as_slice()) {
        Err(ScriptEnd::NoMemory) => Err(AllocError),
        Err(ScriptEnd::Bad(_, _)) => unreachable!(),
        Ok(items) => run_items(alloc, config, dex, script.as_bytes(), &items),
    }
}

// ---- the command

fn drill_run<K: Sink>(
    alloc: Global,
    config: &Arc<Config>,
    dex: &Arc<Dex>,
    steps: u32,
    out: &mut K,
) -> Status
    requires formats { HasPlainFormats (arc_value config.now) }
    requires names { HasPlainNames (arc_value dex.now) }
    requires few { steps ≤ 4000 }
    ensures of { IsOfRun result }
    ensures wrote { WritesRun (arc_value config.now) (arc_value dex.now) steps (K.written out.old) (K.written out.new) result }
    ensures write_fault { result ≡ Status.WriteFault → Rose (K.faults out.old) (K.faults out.new) }
{
    match summarize(alloc, config, dex, steps) {
        Err(_) => Status::NoMemory,
        Ok(text) => match sink::write_all(out, text.as_bytes()) {
            Err(_) => Status::WriteFault,
            Ok(()) => Status::Done,
        },
    }
}

fn drill_config<F: Files, K: Sink>(
    alloc: Global,
    dex: &Arc<Dex>,
    words: DrillWords<'_>,
    files: &mut F,
    out: &mut K,
) -> Status
    requires stands { Stands (F.contents files.old) (options_of words.options).dex
        (λ lookup. dex_in lookup (options_of words.options).dex) (arc_value dex.now) }
    requires names { HasPlainNames (arc_value dex.now) }
    requires few { words.steps ≤ 4000 }
    ensures ends { EndsIfKnown (F.contents files.old)
        (λ lookup. ConfigEnds lookup (drilled_of words.entry).options (arc_value dex.now)) result }
    ensures cause { DrillCause (drilled_of words.entry).options (F.counts files.old) (F.counts files.new) result }
    ensures summary { result ≡ Status.Done → HasSetup (F.contents files.old) (drilled_of words.entry).options
        (λ config dex. WritesSummary config dex (drilled_of words.entry).steps (K.written out.old) (K.written out.new)) }
    ensures wrote { WritesDrill (F.contents files.old) (drilled_of words.entry) (K.written out.old) (K.written out.new) result }
    ensures write_fault { result ≡ Status.WriteFault → Rose (K.faults out.old) (K.faults out.new) }
    ensures settles { SettlesDrill (F.contents files.old) (Rose (F.counts files.old).faults (F.counts files.new).faults)
        (Rose (K.faults out.old) (K.faults out.new)) (drilled_of words.entry).options result }
{
    match shared_config(alloc, files, dex, words.options.config) {
        Err(status) => status,
        Ok(config) => drill_run(alloc, &config, dex, words.steps, out),
    }
}

/// Makes a script of so many steps under the dex and the configuration that the words name, runs it, and writes six lines:
/// how many lines the script has, how many entries these make, how many of them are refused, how many messages the transcript
/// has, how many bytes script and transcript have together, and the SHA-256 (FIPS 180-4) of the one behind the other. The
/// transcript isn't kept.
pub fn drill<F: Files, K: Sink>(
    alloc: Global,
    words: DrillWords<'_>,
    files: &mut F,
    out: &mut K,
) -> Status
    requires { words.steps ≤ 4000 }
    ensures ends { EndsIfKnown (F.contents files.old) (λ lookup. DrillEnds lookup (drilled_of words.entry).options) result }
    ensures cause { DrillCause (drilled_of words.entry).options (F.counts files.old) (F.counts files.new) result }
    ensures summary { result ≡ Status.Done → HasSetup (F.contents files.old) (drilled_of words.entry).options
        (λ config dex. WritesSummary config dex (drilled_of words.entry).steps (K.written out.old) (K.written out.new)) }
    ensures wrote { WritesDrill (F.contents files.old) (drilled_of words.entry) (K.written out.old) (K.written out.new) result }
    ensures write_fault { result ≡ Status.WriteFault → Rose (K.faults out.old) (K.faults out.new) }
    ensures settles { SettlesDrill (F.contents files.old) (Rose (F.counts files.old).faults (F.counts files.new).faults)
        (Rose (K.faults out.old) (K.faults out.new)) (drilled_of words.entry).options result }
{
    match shared_dex(alloc, files, words.options.dex) {
        Err(status) => status,
        Ok(dex) => drill_config(alloc, &dex, words, files, out),
    }
}
