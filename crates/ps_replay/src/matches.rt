//! Plays the lines of a tournament.
ghost use Rattle.std.specs.Prelude.{◌≡◌, ◌++◌, ◌≤◌, [], IfOk, OnOk, OnErr, Err, string_bytes};
ghost use Rattle.std.specs.Option.{option_map};
ghost use Rattle.std.specs.Arc.{arc_value};
ghost use Rattle.std.specs.Io.KnownBytes.{Appends};
ghost use Rattle.ps_outside.specs.Causes.{Rose};
ghost use Rattle.ps_outside.specs.Sinks.{AppendsFront};
ghost use Rattle.replay_state.specs.Setup.{setup_of};
ghost use Rattle.replay_state.specs.Entries.{end_at};
ghost use Rattle.replay_state.specs.Tables.{state_in, fresh, item_text, item_after};
ghost use Rattle.replay_tour.specs.Entrants.{entering};
ghost use Rattle.replay_tour.specs.Tours.{past};
ghost use Rattle.replay_tour.specs.Results.{result_text};
ghost use Rattle.ps_replay.specs.Flow.{MovesFront};
ghost use Rattle.ps_replay.specs.Tours.{most_lines, battle_end, PlaysLines, PlaysFront};

use crate::replay::{ReplayEnd, flush, replay_from, replay_item, table_of};
use ps_base::id::Id;
use ps_dex::dex::Dex;
use ps_outside::sink::{self, Sink};
use ps_room::outcome::Ending;
use replay_drill::fight::Fight;
use replay_script::item::Item;
use replay_script::line::{Line, line_of, lines_of};
use replay_state::table::Table;
use replay_state::transcript::Transcript;
use replay_tour::battle_end::BattleEnd;
use replay_tour::entering::entering;
use replay_tour::results::result_text;
use replay_tour::tour::Tour;
use rules_config::config::Config;
use std::alloc::{AllocError, Global};
use std::sync::Arc;

// More lines than the matches of a tournament have: a match has at most three battles of a thousand turns. Past them the answer
// is out of memory.
#[tactic(auto, unfolding(crate::specs::Tours::most_lines))]
fn most_lines() -> u32
    ensures { result ≡ most_lines }
{
    100_000
}

// How a battle ended, by the two who meet in it.
fn battle_end(ending: Ending) -> BattleEnd
    ensures { result ≡ battle_end ending }
{
    match ending.winner {
        None => BattleEnd::Tied,
        Some(0) => BattleEnd::FirstWon,
        Some(_) => BattleEnd::SecondWon,
    }
}

// The same where one ended at a line.
fn battle_end_of(ending: Option<Ending>) -> Option<BattleEnd>
    ensures { result ≡ option_map battle_end ending }
{
    match ending {
        None => None,
        Some(ending) => Some(battle_end(ending)),
    }
}

// Plays the tournament's next line, and goes on behind it.
fn play_line<K: Sink>(
    alloc: Global,
    table: &mut Table,
    tour: &mut Tour,
    line: &Item,
    pending: &mut Transcript,
    out: &mut K,
) -> Result<(), ReplayEnd>
    ensures state { OnOk result (table.new ≡ item_after table.old line.now) }
    ensures tour { OnOk result (tour.new ≡ past (option_map battle_end (end_at (state_in table.old) line.now)) tour.old) }
    ensures wrote { OnOk result (MovesFront (K.written out.old) (K.written out.new)
        (string_bytes pending.old.text ++ item_text table.old line.now) (string_bytes pending.new.text)) }
    ensures err { OnErr result (AppendsFront
        (K.written out.old) (K.written out.new) (string_bytes pending.old.text ++ item_text table.old line.now)) }
    ensures later { K.faults out.old ≤ K.faults out.new }
    ensures fault { result ≡ Err ReplayEnd.WriteFault → Rose (K.faults out.old) (K.faults out.new) }
{
    match replay_item(alloc, table, &line_of(line), pending, out) {
        Err(end) => Err(end),
        Ok(end) => match tour.go_on(battle_end_of(end)) {
            Err(_) => Err(ReplayEnd::NoMemory),
            Ok(()) => Ok(()),
        },
    }
}

// Plays the matches from a state on, up to the last one's last line, which is at most so many lines away.
fn play_matches<K: Sink>(
    alloc: Global,
    most: u32,
    format: &Id,
    table: &mut Table,
    tour: &mut Tour,
    out: &mut K,
) -> Result<(), ReplayEnd>
    ensures ok { OnOk result (PlaysLines [] most format.now tour.old tour.new table.old (K.written out.old) (K.written out.new)) }
    ensures err { OnErr result (PlaysFront [] most format.now tour.old table.old (K.written out.old) (K.written out.new)) }
    ensures later { K.faults out.old ≤ K.faults out.new }
    ensures fault { result ≡ Err ReplayEnd.WriteFault → Rose (K.faults out.old) (K.faults out.new) }
{
    let mut pending = Transcript::new(alloc);
    for _line in 0..most {
        match tour.next_line(alloc, format) {
            Err(_) => return Err(ReplayEnd::NoMemory),
            Ok(None) => match flush(&mut pending.text, out) {
                Err(_) => return Err(ReplayEnd::WriteFault),
                Ok(()) => return Ok(()),
            },
            Ok(Some(line)) => match play_line(alloc, table, tour, &line, &mut pending, out) {
                Err(end) => return Err(end),
                Ok(()) => {}
            },
        }
    }
    Err(ReplayEnd::NoMemory)
}

// Plays these lines, and then the matches.
fn play_from<K: Sink>(
    alloc: Global,
    most: u32,
    items: &[Line<'_>],
    format: &Id,
    table: &mut Table,
    tour: &mut Tour,
    out: &mut K,
) -> Result<(), ReplayEnd>
    ensures ok { OnOk result (PlaysLines items.now most format.now tour.old tour.new table.old (K.written out.old) (K.written out.new)) }
    ensures err { OnErr result (PlaysFront items.now most format.now tour.old table.old (K.written out.old) (K.written out.new)) }
    ensures later { K.faults out.old ≤ K.faults out.new }
    ensures fault { result ≡ Err ReplayEnd.WriteFault → Rose (K.faults out.old) (K.faults out.new) }
{
    match replay_from(alloc, table, items, out) {
        Err(end) => Err(end),
        Ok(()) => match play_matches(alloc, most, format, table, tour, out) {
            Err(end) => Err(end),
            Ok(()) => Ok(()),
        },
    }
}

// The same of a state that ends with the tournament. It is dropped here alone.
fn play_once<K: Sink>(
    alloc: Global,
    items: &[Line<'_>],
    format: &Id,
    table: Table,
    tour: &mut Tour,
    out: &mut K,
) -> Result<(), ReplayEnd>
    ensures ok { OnOk result (PlaysLines items.now most_lines format.now tour.old tour.new table (K.written out.old) (K.written out.new)) }
    ensures err { OnErr result (PlaysFront items.now most_lines format.now tour.old table (K.written out.old) (K.written out.new)) }
    ensures later { K.faults out.old ≤ K.faults out.new }
    ensures fault { result ≡ Err ReplayEnd.WriteFault → Rose (K.faults out.old) (K.faults out.new) }
{
    let mut table = table;
    play_from(alloc, most_lines(), items, format, &mut table, tour, out)
}

fn play_with<K: Sink>(
    alloc: Global,
    config: &Arc<Config>,
    dex: &Arc<Dex>,
    items: &[Line<'_>],
    format: &Id,
    tour: &mut Tour,
    out: &mut K,
) -> Result<(), ReplayEnd>
    ensures ok { OnOk result (PlaysLines items.now most_lines format.now tour.old tour.new
        (fresh (setup_of (arc_value config.now) (arc_value dex.now) [])) (K.written out.old) (K.written out.new)) }
    ensures err { OnErr result (PlaysFront items.now most_lines format.now tour.old
        (fresh (setup_of (arc_value config.now) (arc_value dex.now) [])) (K.written out.old) (K.written out.new)) }
    ensures later { K.faults out.old ≤ K.faults out.new }
    ensures fault { result ≡ Err ReplayEnd.WriteFault → Rose (K.faults out.old) (K.faults out.new) }
{
    match table_of(alloc, config, dex, &[]) {
        Err(_) => Err(ReplayEnd::NoMemory),
        Ok(table) => play_once(alloc, items, format, table, tour, out),
    }
}

// The same of items that have their texts themselves.
fn play_items<K: Sink>(
    alloc: Global,
    config: &Arc<Config>,
    dex: &Arc<Dex>,
    items: &[Item],
    format: &Id,
    tour: &mut Tour,
    out: &mut K,
) -> Result<(), ReplayEnd>
    ensures ok { OnOk result (PlaysLines items.now most_lines format.now tour.old tour.new
        (fresh (setup_of (arc_value config.now) (arc_value dex.now) [])) (K.written out.old) (K.written out.new)) }
    ensures err { OnErr result (PlaysFront items.now most_lines format.now tour.old
        (fresh (setup_of (arc_value config.now) (arc_value dex.now) [])) (K.written out.old) (K.written out.new)) }
    ensures later { K.faults out.old ≤ K.faults out.new }
    ensures fault { result ≡ Err ReplayEnd.WriteFault → Rose (K.faults out.old) (K.faults out.new) }
{
    match lines_of(alloc, items) {
        Err(_) => Err(ReplayEnd::NoMemory),
        Ok(lines) => play_with(alloc, config, dex, &lines, format, tour, out),
    }
}

/// Plays a tournament of so many users, from its first line on, and writes the transcript. Where memory or the sink fails a front
/// of it was written.
pub(crate) fn play_all<K: Sink>(
    alloc: Global,
    config: &Arc<Config>,
    dex: &Arc<Dex>,
    fight: &Fight,
    users: u8,
    tour: &mut Tour,
    out: &mut K,
) -> Result<(), ReplayEnd>
    ensures ok { OnOk result (PlaysLines (entering (arc_value config.now) fight.now.team users) most_lines fight.now.format tour.old
        tour.new
        (fresh (setup_of (arc_value config.now) (arc_value dex.now) [])) (K.written out.old) (K.written out.new)) }
    ensures err { OnErr result (PlaysFront (entering (arc_value config.now) fight.now.team users) most_lines fight.now.format tour.old
        (fresh (setup_of (arc_value config.now) (arc_value dex.now) [])) (K.written out.old) (K.written out.new)) }
    ensures later { K.faults out.old ≤ K.faults out.new }
    ensures fault { result ≡ Err ReplayEnd.WriteFault → Rose (K.faults out.old) (K.faults out.new) }
{
    match entering(alloc, config, &fight.team, users) {
        Err(_) => Err(ReplayEnd::NoMemory),
        Ok(items) => play_items(alloc, config, dex, &items, &fight.format, tour, out),
    }
}

/// Writes who beat whom, and the champion.
pub(crate) fn write_results<K: Sink>(
    alloc: Global,
    tour: &Tour,
    out: &mut K,
) -> Result<(), ReplayEnd>
    ensures wrote { OnOk result (Appends (K.written out.old) (K.written out.new) (result_text tour.now)) }
    ensures err { OnErr result (AppendsFront (K.written out.old) (K.written out.new) (result_text tour.now)) }
    ensures later { K.faults out.old ≤ K.faults out.new }
    ensures fault { result ≡ Err ReplayEnd.WriteFault → Rose (K.faults out.old) (K.faults out.new) }
{
    match result_text(alloc, tour) {
        Err(_) => Err(ReplayEnd::NoMemory),
        Ok(text) => match sink::write_all(out, text.as_bytes()) {
            Err(_) => Err(ReplayEnd::WriteFault),
            Ok(()) => Ok(()),
        },
    }
}
