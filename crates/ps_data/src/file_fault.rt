//! Why a file isn't in its form, as it is reported to whom has written the file.
ghost use Rattle.std.specs.Prelude.{◌≡◌};
ghost use Rattle.ps_data.specs.declared.file_fault.FileFault.TheVariants.{NoMemory};
ghost use Rattle.ps_data.specs.FileFaults.{IsReported};

use crate::fault::{DataKind, Refusal};
use ps_base::text::Text;
use std::alloc::{AllocError, AllocFailed, Global};

/// Why a file isn't in its form.
#[derive(Debug, Drop)]
pub enum FileFault {
    /// The first value that isn't in its form, in the written order of the keys and then by indices
    /// of arrays: its path, like `moves[3].effect.kind`, and why it isn't. For what is no JSON text
    /// the path is empty and the kind `Json`, for another value than an object `Shape`.
    Fault { path: Text, kind: DataKind },
    /// Memory ran out.
    NoMemory,
}

impl From<AllocError> for FileFault {
    ghost from_gives = { λ _ e. e ≡ NoMemory };

    fn from(_error: AllocError) -> FileFault {
        FileFault::NoMemory
    }
}

impl<T: Drop> From<AllocFailed<T>> for FileFault {
    ghost from_gives = { λ _ e. e ≡ NoMemory };

    fn from(_error: AllocFailed<T>) -> FileFault {
        FileFault::NoMemory
    }
}

/// A refusal with its path as a text.
pub fn reported(alloc: Global, refusal: Refusal) -> FileFault
    ensures { IsReported refusal result }
{
    match refusal {
        Refusal::NoMemory => FileFault::NoMemory,
        Refusal::Fault(fault) => match fault.path.text(alloc) {
            Err(_) => FileFault::NoMemory,
            Ok(path) => FileFault::Fault {
                path: Text::from_string(path),
                kind: fault.kind,
            },
        },
    }
}
