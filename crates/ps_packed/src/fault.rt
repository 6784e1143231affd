//! Why a text is no packed team.
ghost use Rattle.std.specs.Prelude.{◌≡◌};
ghost use Rattle.ps_packed.specs.declared.fault.PackFault.TheVariants.{NoMemory};

use ps_base::pack_kind::PackKind;
use std::alloc::{AllocError, AllocFailed};

/// Why `read_team` gives no team.
#[derive(Clone, Copy, Debug, PartialEq, Eq)]
pub enum PackFault {
    /// The text is no packed team. `at` is the byte, from 0 to 4,096, where the longest part ends that
    /// some packed text begins with; a character begins there, or the text ends.
    Fault { at: u32, kind: PackKind },
    /// An allocation failed.
    NoMemory,
}

impl From<AllocError> for PackFault {
    ghost from_gives = { λ _ e. e ≡ NoMemory };

    fn from(_e: AllocError) -> PackFault {
        PackFault::NoMemory
    }
}
