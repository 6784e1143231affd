//! Reads the configuration that the words name.
ghost use Rattle.std.specs.Prelude.{◌≡◌, ◌≤◌, length, Some, None, IfOk, IfErr};
ghost use Rattle.std.specs.Option.{option_copied};
ghost use Rattle.replay_drill.specs.Plain.{HasPlainFormats};
ghost use Rattle.program_commands.specs.Rooms.{HasOwnRooms};
ghost use Rattle.program_commands.specs.Steps.{config_in};
ghost use Rattle.program_commands.specs.Setups.{Stands, Gave, Ended, StepCause};

use crate::file::read_file;
use crate::status::Status;
use ps_dex::dex::Dex;
use ps_outside::files::Files;
use rules_config::config::Config;
use rules_config::fault::ConfigFault;
use std::alloc::Global;

/// The most bytes of a configuration.
pub const MOST_CONFIG: u32 = 1_048_576;

fn read_config<F: Files>(
    alloc: Global,
    files: &mut F,
    dex: &Dex,
    name: &str,
) -> Result<Config, Status>
    ensures same { F.contents files.new ≡ F.contents files.old }
    ensures value { IfOk result (Gave (F.contents files.old) (λ lookup. config_in lookup dex.now (Some name.now))) }
    ensures few { IfOk result (λ c. length c.rooms ≤ 16) }
    ensures plain { IfOk result HasPlainFormats }
    ensures rooms { IfOk result HasOwnRooms }
    ensures counts { IfOk result (λ _. F.counts files.new ≡ F.counts files.old) }
    ensures ended { IfErr result (Ended (F.contents files.old) (Some name.now) (λ lookup. config_in lookup dex.now (Some name.now))) }
    ensures cause { IfErr result (StepCause (Some name.now) (F.counts files.old) (F.counts files.new)) }
{
    let bytes = match read_file(alloc, files, name, MOST_CONFIG) {
        Err(status) => return Err(status),
        Ok(bytes) => bytes,
    };
    match Config::read(alloc, &bytes, dex) {
        Ok(config) => Ok(config),
        Err(ConfigFault::NoMemory) => Err(Status::NoMemory),
        Err(ConfigFault::Fault { path, kind }) => Err(Status::BadConfig { path, kind }),
    }
}

/// The configuration of the file of this name over a dex, the standard one where no file is named, or the
/// status that says why there is none.
pub fn config_or_standard<F: Files>(
    alloc: Global,
    files: &mut F,
    dex: &Dex,
    named: Option<&str>,
) -> Result<Config, Status>
    ensures same { F.contents files.new ≡ F.contents files.old }
    ensures value { IfOk result (Gave (F.contents files.old) (λ lookup. config_in lookup dex.now (option_copied named.entry))) }
    ensures stands { IfOk result (Stands (F.contents files.old) (option_copied named.entry)
        (λ lookup. config_in lookup dex.now (option_copied named.entry))) }
    ensures few { IfOk result (λ c. length c.rooms ≤ 16) }
    ensures plain { IfOk result HasPlainFormats }
    ensures rooms { IfOk result HasOwnRooms }
    ensures counts { IfOk result (λ _. F.counts files.new ≡ F.counts files.old) }
    ensures ended { IfErr result (Ended (F.contents files.old) (option_copied named.entry)
        (λ lookup. config_in lookup dex.now (option_copied named.entry))) }
    ensures alone { IfErr result (λ s. option_copied named.entry ≡ None → s ≡ Status.NoMemory) }
    ensures cause { IfErr result (StepCause (option_copied named.entry) (F.counts files.old) (F.counts files.new)) }
{
    match named {
        None => match Config::standard(alloc) {
            Err(_) => Err(Status::NoMemory),
            Ok(config) => Ok(config),
        },
        Some(name) => read_config(alloc, files, dex, name),
    }
}
