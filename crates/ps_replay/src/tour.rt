//! Tournaments: plays one, and tells what came of it.
ghost use Rattle.std.specs.Prelude.{◌≡◌};
ghost use Rattle.std.specs.Arc.{arc_value};
ghost use Rattle.ps_outside.specs.Causes.{Rose};
ghost use Rattle.replay_tour.specs.Tours.{begun};
ghost use Rattle.program_commands.specs.Words.{AreUsers, options_of, toured_of};
ghost use Rattle.program_commands.specs.Steps.{dex_in};
ghost use Rattle.program_commands.specs.Setups.{HasSetup, Stands, EndsIfKnown};
ghost use Rattle.program_commands.specs.Fields.{HasField};
ghost use Rattle.ps_replay.specs.Tours.{IsTour, WritesTour, SettingsEnd, TourEnds, TourCause, SettlesTour, PlaysTour};

use crate::matches::{play_all, write_results};
use crate::replay::ReplayEnd;
use crate::setup::{shared_config, shared_dex};
use program_commands::field::tour_fight;
use program_commands::status::Status;
use program_commands::words::TourWords;
use ps_dex::dex::Dex;
use ps_outside::files::Files;
use ps_outside::sink::Sink;
use replay_drill::fight::Fight;
use replay_tour::tour::Tour;
use rules_config::config::Config;
use std::alloc::Global;
use std::sync::Arc;

// Plays a tournament that has just begun.
fn play_begun<K: Sink>(
    alloc: Global,
    config: &Arc<Config>,
    dex: &Arc<Dex>,
    fight: &Fight,
    words: TourWords<'_>,
    tour: &mut Tour,
    out: &mut K,
) -> Status
    requires begun { tour.old ≡ begun words.users words.seed }
    requires users { AreUsers words.users }
    requires field { HasField (arc_value config.now) (arc_value dex.now) fight.now }
    ensures plays { PlaysTour (toured_of words.entry)
        (K.written out.old) (K.written out.new) (arc_value config.now) (arc_value dex.now) result }
    ensures write_fault { result ≡ Status.WriteFault → Rose (K.faults out.old) (K.faults out.new) }
{
    match play_all(alloc, config, dex, fight, words.users, tour, out) {
        Err(ReplayEnd::WriteFault) => Status::WriteFault,
        Err(ReplayEnd::NoMemory) => Status::NoMemory,
        Ok(()) => match write_results(alloc, tour, out) {
            Err(ReplayEnd::WriteFault) => Status::WriteFault,
            Err(ReplayEnd::NoMemory) => Status::NoMemory,
            Ok(()) => Status::Done,
        },
    }
}

fn play_tour<K: Sink>(
    alloc: Global,
    config: &Arc<Config>,
    dex: &Arc<Dex>,
    fight: &Fight,
    words: TourWords<'_>,
    out: &mut K,
) -> Status
    requires users { AreUsers words.users }
    requires field { HasField (arc_value config.now) (arc_value dex.now) fight.now }
    ensures plays { PlaysTour (toured_of words.entry)
        (K.written out.old) (K.written out.new) (arc_value config.now) (arc_value dex.now) result }
    ensures write_fault { result ≡ Status.WriteFault → Rose (K.faults out.old) (K.faults out.new) }
{
    let mut tour = Tour::new(alloc, words.users, words.seed);
    play_begun(alloc, config, dex, fight, words, &mut tour, out)
}

fn tour_run<K: Sink>(
    alloc: Global,
    config: &Arc<Config>,
    dex: &Arc<Dex>,
    words: TourWords<'_>,
    out: &mut K,
) -> Status
    requires users { AreUsers words.users }
    ensures plays { PlaysTour (toured_of words.entry)
        (K.written out.old) (K.written out.new) (arc_value config.now) (arc_value dex.now) result }
    ensures write_fault { result ≡ Status.WriteFault → Rose (K.faults out.old) (K.faults out.new) }
{
    match tour_fight(alloc, config, dex) {
        Err(status) => status,
        Ok(fight) => play_tour(alloc, config, dex, &fight, words, out),
    }
}

fn tour_config<F: Files, K: Sink>(
    alloc: Global,
    dex: &Arc<Dex>,
    words: TourWords<'_>,
    files: &mut F,
    out: &mut K,
) -> Status
    requires stands { Stands (F.contents files.old) (options_of words.options).dex
        (λ lookup. dex_in lookup (options_of words.options).dex) (arc_value dex.now) }
    requires users { AreUsers words.users }
    ensures ends { EndsIfKnown (F.contents files.old)
        (λ lookup. SettingsEnd lookup (toured_of words.entry).options (arc_value dex.now)) result }
    ensures cause { TourCause (toured_of words.entry).options (F.counts files.old) (F.counts files.new) result }
    ensures played { result ≡ Status.Done → HasSetup (F.contents files.old) (toured_of words.entry).options
        (IsTour (toured_of words.entry) (K.written out.old) (K.written out.new)) }
    ensures wrote { WritesTour (F.contents files.old) (toured_of words.entry) (K.written out.old) (K.written out.new) result }
    ensures write_fault { result ≡ Status.WriteFault → Rose (K.faults out.old) (K.faults out.new) }
    ensures settles { SettlesTour (F.contents files.old) (Rose (F.counts files.old).faults (F.counts files.new).faults)
        (Rose (K.faults out.old) (K.faults out.new)) (toured_of words.entry).options result }
{
    match shared_config(alloc, files, dex, words.options.config) {
        Err(status) => status,
        Ok(config) => tour_run(alloc, &config, dex, words, out),
    }
}

/// Plays a tournament of so many users under the dex and the configuration that the words name, in the bracket that the seed
/// draws: they enter, and each match is a battle in the first format, in which both play the drill's team and let it choose for
/// them. Writes the transcript of all that, and then a line for each match that says who beat whom, and who the champion is.
pub fn tour<F: Files, K: Sink>(
    alloc: Global,
    words: TourWords<'_>,
    files: &mut F,
    out: &mut K,
) -> Status
    requires { AreUsers words.users }
    ensures ends { EndsIfKnown (F.contents files.old) (λ lookup. TourEnds lookup (toured_of words.entry).options) result }
    ensures cause { TourCause (toured_of words.entry).options (F.counts files.old) (F.counts files.new) result }
    ensures played { result ≡ Status.Done → HasSetup (F.contents files.old) (toured_of words.entry).options
        (IsTour (toured_of words.entry) (K.written out.old) (K.written out.new)) }
    ensures wrote { WritesTour (F.contents files.old) (toured_of words.entry) (K.written out.old) (K.written out.new) result }
    ensures write_fault { result ≡ Status.WriteFault → Rose (K.faults out.old) (K.faults out.new) }
    ensures settles { SettlesTour (F.contents files.old) (Rose (F.counts files.old).faults (F.counts files.new).faults)
        (Rose (K.faults out.old) (K.faults out.new)) (toured_of words.entry).options result }
{
    match shared_dex(alloc, files, words.options.dex) {
        Err(status) => status,
        Ok(dex) => tour_config(alloc, &dex, words, files, out),
    }
}
