//! Why a text is no export text, and why a team has none.
ghost use Rattle.std.specs.Prelude.{◌≡◌};
ghost use Rattle.ps_export.specs.declared.fault.ExportFault.TheVariants as export_faults;
ghost use Rattle.ps_export.specs.declared.fault.WriteExportFault.TheVariants as write_faults;

use std::alloc::{AllocError, AllocFailed};

/// Why `read_export` gives no team.
#[derive(Clone, Copy, Debug, PartialEq, Eq)]
pub enum ExportFault {
    /// The text is no export text. `line` is its first line, from 1, that can't stand, and one more than it has lines where all of
    /// them can.
    Fault { line: u32 },
    /// An allocation failed.
    NoMemory,
}

impl From<AllocError> for ExportFault {
    ghost from_gives = { λ _ e. e ≡ export_faults.NoMemory };

    fn from(_e: AllocError) -> ExportFault {
        ExportFault::NoMemory
    }
}

/// Why `write_export` gives no text.
#[derive(Clone, Copy, Debug, PartialEq, Eq)]
pub enum WriteExportFault {
    /// The first set, from 1, that no export text has as it is.
    Unwritable { set: u8 },
    /// Every set can be written, but the text would have so many bytes, more than 8,192.
    Long { bytes: u32 },
    /// An allocation failed.
    NoMemory,
}

impl From<AllocError> for WriteExportFault {
    ghost from_gives = { λ _ e. e ≡ write_faults.NoMemory };

    fn from(_e: AllocError) -> WriteExportFault {
        WriteExportFault::NoMemory
    }
}
