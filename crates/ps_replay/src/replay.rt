//! Replays the lines of a script.
ghost use Rattle.std.specs.Prelude.{◌≡◌, ◌++◌, ◌≤◌, [], IfOk, OnOk, OnErr, Err, string_bytes};
ghost use Rattle.std.specs.Io.KnownBytes.{Appends};
ghost use Rattle.ps_outside.specs.Causes.{Rose, HasCause};
ghost use Rattle.ps_outside.specs.Sinks.{AppendsFront};
ghost use Rattle.std.specs.Arc.{arc_value};
ghost use Rattle.replay_state.specs.Setup.{setup_of};
ghost use Rattle.replay_state.specs.Transcript.{output};
ghost use Rattle.replay_state.specs.Entries.{end_at};
ghost use Rattle.replay_state.specs.Tables.{state_in, fresh, item_text, item_after, desk_after, text_from};
ghost use Rattle.ps_replay.specs.Flow.{MovesFront};

use ps_dex::dex::Dex;
use ps_outside::Failed;
use ps_outside::sink::{self, Sink};
use ps_room::outcome::Ending;
use replay_script::line::Line;
use replay_state::ranks::ranks_of;
use replay_state::table::Table;
use replay_state::transcript::Transcript;
use rules_config::config::Config;
use std::alloc::{AllocError, Global};
use std::sync::Arc;

/// Where this many bytes wait to be written, they are.
const FULL: usize = 65_536;

/// Why a replay stopped.
#[derive(Clone, Copy, Debug, PartialEq, Eq)]
pub enum ReplayEnd {
    /// The sink failed.
    WriteFault,
    /// Memory was refused.
    NoMemory,
}

/// Writes what waits. Where the sink fails a front of it was written.
pub(crate) fn flush<K: Sink>(pending: &mut String, out: &mut K) -> Result<(), Failed>
    ensures ok { OnOk result (MovesFront (K.written out.old) (K.written out.new) (string_bytes pending.old) (string_bytes pending.new)) }
    ensures empty { OnOk result (string_bytes pending.new ≡ []) }
    ensures err { OnErr result (AppendsFront (K.written out.old) (K.written out.new) (string_bytes pending.old)) }
    ensures cause { HasCause (K.faults out.old) (K.faults out.new) result }
{
    match sink::write_all(out, pending.as_bytes()) {
        Err(failed) => Err(failed),
        Ok(()) => {
            pending.clear();
            Ok(())
        }
    }
}

// Writes what waits, where it is much.
fn flush_full<K: Sink>(pending: &mut String, out: &mut K) -> Result<(), Failed>
    ensures ok { OnOk result (MovesFront (K.written out.old) (K.written out.new) (string_bytes pending.old) (string_bytes pending.new)) }
    ensures err { OnErr result (AppendsFront (K.written out.old) (K.written out.new) (string_bytes pending.old)) }
    ensures cause { HasCause (K.faults out.old) (K.faults out.new) result }
{
    if pending.len() < FULL {
        return Ok(());
    }
    flush(pending, out)
}

/// Replays a line: what it prints waits, and is written where it is much. Gives the end of the battle that it ended.
pub(crate) fn replay_item<K: Sink>(
    alloc: Global,
    table: &mut Table,
    item: &Line<'_>,
    pending: &mut Transcript,
    out: &mut K,
) -> Result<Option<Ending>, ReplayEnd>
    ensures state { OnOk result (table.new ≡ item_after table.old item.now) }
    ensures wrote { OnOk result (MovesFront (K.written out.old) (K.written out.new)
        (string_bytes pending.old.text ++ item_text table.old item.now) (string_bytes pending.new.text)) }
    ensures err { OnErr result (AppendsFront (K.written out.old) (K.written out.new)
        (string_bytes pending.old.text ++ item_text table.old item.now)) }
    ensures later { K.faults out.old ≤ K.faults out.new }
    ensures fault { result ≡ Err ReplayEnd.WriteFault → Rose (K.faults out.old) (K.faults out.new) }
    ensures ended { IfOk result (λ end. end ≡ end_at (state_in table.old) item.now) }
{
    match table.play(alloc, item, pending) {
        Err(_) => Err(ReplayEnd::NoMemory),
        Ok(end) => match flush_full(&mut pending.text, out) {
            Err(_) => Err(ReplayEnd::WriteFault),
            Ok(()) => Ok(end),
        },
    }
}

/// Replays the lines from a state on.
pub(crate) fn replay_from<K: Sink>(
    alloc: Global,
    table: &mut Table,
    items: &[Line<'_>],
    out: &mut K,
) -> Result<(), ReplayEnd>
    ensures state { OnOk result (table.new ≡ desk_after table.old items.now) }
    ensures wrote { OnOk result (Appends (K.written out.old) (K.written out.new) (text_from table.old items.now)) }
    ensures err { OnErr result (AppendsFront (K.written out.old) (K.written out.new) (text_from table.old items.now)) }
    ensures later { K.faults out.old ≤ K.faults out.new }
    ensures fault { result ≡ Err ReplayEnd.WriteFault → Rose (K.faults out.old) (K.faults out.new) }
{
    let mut pending = Transcript::new(alloc);
    for item in items {
        match replay_item(alloc, table, item, &mut pending, out) {
            Err(end) => return Err(end),
            Ok(_) => {}
        }
    }
    match flush(&mut pending.text, out) {
        Err(_) => Err(ReplayEnd::WriteFault),
        Ok(()) => Ok(()),
    }
}

// The same of a state that ends with the replay. It is dropped here alone: who has it by value takes it apart at each exit.
fn replay_once<K: Sink>(
    alloc: Global,
    table: Table,
    items: &[Line<'_>],
    out: &mut K,
) -> Result<(), ReplayEnd>
    ensures wrote { OnOk result (Appends (K.written out.old) (K.written out.new) (text_from table items.now)) }
    ensures err { OnErr result (AppendsFront (K.written out.old) (K.written out.new) (text_from table items.now)) }
    ensures later { K.faults out.old ≤ K.faults out.new }
    ensures fault { result ≡ Err ReplayEnd.WriteFault → Rose (K.faults out.old) (K.faults out.new) }
{
    let mut table = table;
    replay_from(alloc, &mut table, items, out)
}

/// Before the first of the lines of a script, under a configuration and a dex.
pub(crate) fn table_of(
    alloc: Global,
    config: &Arc<Config>,
    dex: &Arc<Dex>,
    items: &[Line<'_>],
) -> Result<Table, AllocError>
    ensures { IfOk result (λ t. t ≡ fresh (setup_of (arc_value config.now) (arc_value dex.now) items.now)) }
{
    let ranks = ranks_of(alloc, config.groups(), items)?;
    Table::new(alloc, config.clone()?, dex.clone()?, ranks)
}

/// Writes the transcript of the lines of a script under a configuration and a dex. Where memory or the sink fails a
/// front of it was written.
pub fn replay<K: Sink>(
    alloc: Global,
    config: &Arc<Config>,
    dex: &Arc<Dex>,
    items: &[Line<'_>],
    out: &mut K,
) -> Result<(), ReplayEnd>
    ensures wrote { OnOk result (Appends (K.written out.old) (K.written out.new)
        (output (setup_of (arc_value config.now) (arc_value dex.now) items.now) items.now)) }
    ensures err { OnErr result (AppendsFront (K.written out.old) (K.written out.new)
        (output (setup_of (arc_value config.now) (arc_value dex.now) items.now) items.now)) }
    ensures later { K.faults out.old ≤ K.faults out.new }
    ensures fault { result ≡ Err ReplayEnd.WriteFault → Rose (K.faults out.old) (K.faults out.new) }
{
    match table_of(alloc, config, dex, items) {
        Err(_) => Err(ReplayEnd::NoMemory),
        Ok(table) => replay_once(alloc, table, items, out),
    }
}
