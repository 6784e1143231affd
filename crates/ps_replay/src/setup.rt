//! The dex and the configuration of a command, shared: who has one of them by value takes it apart wherever it ends.
ghost use Rattle.std.specs.Prelude.{◌≡◌, ◌≤◌, length, None, IfOk, IfErr};
ghost use Rattle.std.specs.Option.{option_copied};
ghost use Rattle.std.specs.Arc.{arc_value};
ghost use Rattle.replay_drill.specs.Plain.{HasPlainNames, HasPlainFormats};
ghost use Rattle.program_commands.specs.Steps.{dex_in, config_in};
ghost use Rattle.program_commands.specs.Setups.{Stands, Gave, Ended, StepCause};
ghost use Rattle.ps_replay.specs.Outcomes.{IsReadConfig};

use program_commands::config::config_or_standard;
use program_commands::dex::dex_or_none;
use program_commands::status::Status;
use ps_dex::dex::Dex;
use ps_outside::files::Files;
use rules_config::config::Config;
use std::alloc::Global;
use std::sync::Arc;

/// The dex of the file of this name, or one of which nothing is said where no file is named, or the status that says why
/// there is none.
pub(crate) fn shared_dex<F: Files>(
    alloc: Global,
    files: &mut F,
    named: Option<&str>,
) -> Result<Arc<Dex>, Status>
    ensures same { F.contents files.new ≡ F.contents files.old }
    ensures value { IfOk result (λ d. Gave (F.contents files.old) (λ lookup. dex_in lookup (option_copied named.entry)) (arc_value d)) }
    ensures stands { IfOk result (λ d.
        Stands (F.contents files.old) (option_copied named.entry) (λ lookup. dex_in lookup (option_copied named.entry)) (arc_value d)) }
    ensures plain { IfOk result (λ d. HasPlainNames (arc_value d)) }
    ensures counts { IfOk result (λ _. F.counts files.new ≡ F.counts files.old) }
    ensures ended { IfErr result (Ended (F.contents files.old) (option_copied named.entry) (λ lookup.
        dex_in lookup (option_copied named.entry))) }
    ensures alone { IfErr result (λ s. option_copied named.entry ≡ None → s ≡ Status.NoMemory) }
    ensures cause { IfErr result (StepCause (option_copied named.entry) (F.counts files.old) (F.counts files.new)) }
{
    match dex_or_none(alloc, files, named) {
        Err(status) => Err(status),
        Ok(dex) => match Arc::new(alloc, dex) {
            Err(_) => Err(Status::NoMemory),
            Ok(dex) => Ok(dex),
        },
    }
}

/// The configuration of the file of this name over a dex, the standard one where no file is named, or the status that says
/// why there is none.
pub(crate) fn shared_config<F: Files>(
    alloc: Global,
    files: &mut F,
    dex: &Dex,
    named: Option<&str>,
) -> Result<Arc<Config>, Status>
    ensures same { F.contents files.new ≡ F.contents files.old }
    ensures value { IfOk result (λ c.
        Gave (F.contents files.old) (λ lookup. config_in lookup dex.now (option_copied named.entry)) (arc_value c)) }
    ensures stands { IfOk result (λ c.
        Stands (F.contents files.old) (option_copied named.entry) (λ lookup. config_in lookup dex.now (option_copied named.entry))
        (arc_value c)) }
    ensures few { IfOk result (λ c. length (arc_value c).rooms ≤ 16) }
    ensures known { IfOk result (λ c. IsReadConfig (arc_value c)) }
    ensures plain { IfOk result (λ c. HasPlainFormats (arc_value c)) }
    ensures counts { IfOk result (λ _. F.counts files.new ≡ F.counts files.old) }
    ensures ended { IfErr result (Ended (F.contents files.old) (option_copied named.entry) (λ lookup.
        config_in lookup dex.now (option_copied named.entry))) }
    ensures alone { IfErr result (λ s. option_copied named.entry ≡ None → s ≡ Status.NoMemory) }
    ensures cause { IfErr result (StepCause (option_copied named.entry) (F.counts files.old) (F.counts files.new)) }
{
    match config_or_standard(alloc, files, dex, named) {
        Err(status) => Err(status),
        Ok(config) => match Arc::new(alloc, config) {
            Err(_) => Err(Status::NoMemory),
            Ok(config) => Ok(config),
        },
    }
}
