//! Reads the files that the words name.
ghost use Rattle.std.specs.Prelude.{◌≡◌, Some, IfOk, IfErr, IfSome};
ghost use Rattle.ps_outside.specs.Files.{IsFile};
ghost use Rattle.program_commands.specs.Setups.{IsFileStatus, NoFile};

use crate::status::Status;
use ps_base::text::Text;
use ps_outside::files::{FileEnd, Files};
use std::alloc::Global;

/// The bytes of the file of this name, at most `limit`, or the status that says why there are none.
pub fn read_file<F: Files>(
    alloc: Global,
    files: &mut F,
    name: &str,
    limit: u32,
) -> Result<Vec<u8>, Status>
    ensures same { F.contents files.new ≡ F.contents files.old }
    ensures found { IfOk result (λ v. IfSome (F.contents files.old) (IsFile name.now limit v.items)) }
    ensures counts { IfOk result (λ _. F.counts files.new ≡ F.counts files.old) }
    ensures none { IfErr result (NoFile name.now limit (F.contents files.old) (F.counts files.old) (F.counts files.new)) }
{
    match files.read(alloc, name, limit) {
        Ok(bytes) => Ok(bytes),
        Err(end) => Err(no_file(alloc, name, end)),
    }
}

// The status of a file that was not read.
fn no_file(alloc: Global, name: &str, end: FileEnd) -> Status
    ensures { IsFileStatus name.now end result }
{
    let name = match Text::copy_of(alloc, name) {
        Err(_) => return Status::NoMemory,
        Ok(name) => name,
    };
    match end {
        FileEnd::Missing => Status::FileMissing { name },
        FileEnd::TooLong => Status::FileLong { name },
        FileEnd::Failed => Status::FileFault { name },
        FileEnd::NoMemory => Status::NoMemory,
    }
}
