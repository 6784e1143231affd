//! Reads the dex file that the words name.
ghost use Rattle.std.specs.Prelude.{◌≡◌, Some, None, IfOk, IfErr};
ghost use Rattle.std.specs.Option.{option_copied};
ghost use Rattle.replay_drill.specs.Plain.{HasPlainNames};
ghost use Rattle.program_commands.specs.Steps.{dex_in};
ghost use Rattle.program_commands.specs.Setups.{Stands, Gave, Ended, StepCause};

use crate::file::read_file;
use crate::status::Status;
use ps_dex::dex::Dex;
use ps_dex::fault::DexFault;
use ps_outside::files::Files;
use std::alloc::Global;

/// The most bytes of a dex file.
pub const MOST_DEX: u32 = 16_777_216;

/// The dex of the file of this name, or the status that says why there is none.
fn read_dex<F: Files>(alloc: Global, files: &mut F, name: &str) -> Result<Dex, Status>
    ensures same { F.contents files.new ≡ F.contents files.old }
    ensures value { IfOk result (Gave (F.contents files.old) (λ lookup. dex_in lookup (Some name.now))) }
    ensures plain { IfOk result HasPlainNames }
    ensures counts { IfOk result (λ _. F.counts files.new ≡ F.counts files.old) }
    ensures ended { IfErr result (Ended (F.contents files.old) (Some name.now) (λ lookup. dex_in lookup (Some name.now))) }
    ensures cause { IfErr result (StepCause (Some name.now) (F.counts files.old) (F.counts files.new)) }
{
    let bytes = match read_file(alloc, files, name, MOST_DEX) {
        Err(status) => return Err(status),
        Ok(bytes) => bytes,
    };
    match Dex::read(alloc, &bytes) {
        Ok(dex) => Ok(dex),
        Err(DexFault::NoMemory) => Err(Status::NoMemory),
        Err(DexFault::Fault { path, kind }) => Err(Status::BadDex { path, kind }),
    }
}

/// The dex of the file of this name, or one of which nothing is said where no file is named.
pub fn dex_or_none<F: Files>(
    alloc: Global,
    files: &mut F,
    named: Option<&str>,
) -> Result<Dex, Status>
    ensures same { F.contents files.new ≡ F.contents files.old }
    ensures value { IfOk result (Gave (F.contents files.old) (λ lookup. dex_in lookup (option_copied named.entry))) }
    ensures stands { IfOk result (Stands (F.contents files.old) (option_copied named.entry)
        (λ lookup. dex_in lookup (option_copied named.entry))) }
    ensures plain { IfOk result HasPlainNames }
    ensures counts { IfOk result (λ _. F.counts files.new ≡ F.counts files.old) }
    ensures ended { IfErr result (Ended (F.contents files.old) (option_copied named.entry)
        (λ lookup. dex_in lookup (option_copied named.entry))) }
    ensures alone { IfErr result (λ s. option_copied named.entry ≡ None → s ≡ Status.NoMemory) }
    ensures cause { IfErr result (StepCause (option_copied named.entry) (F.counts files.old) (F.counts files.new)) }
{
    match named {
        None => Ok(Dex::empty(alloc)),
        Some(name) => read_dex(alloc, files, name),
    }
}
