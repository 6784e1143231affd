//! What the calls of this crate may refuse.
ghost use Rattle.std.specs.Prelude.{◌≡◌};
ghost use Rattle.ps_rules.specs.declared.fault.RuleFault.TheVariants.{NoMemory};

use ps_base::id::Id;
use ps_data::file_fault::FileFault;
use std::alloc::{AllocError, AllocFailed};

/// Why a configuration has no formats. A rule list that can't be resolved is a fault at the format's `rules`, by
/// the first fault of its walk: `Unknown` for an unknown rule, `Repeat` for a cycle and `Range` for a contradiction.
pub type FormatFault = FileFault;

/// The first fault in the walk of a rule list.
#[derive(Debug, Drop)]
pub enum RuleFault {
    /// A text that names neither a clause nor a ruleset, or that repeals what isn't a clause.
    UnknownRule { id: Id },
    /// A ruleset that is met inside itself.
    Cycle { id: Id },
    /// A clause that one list both names and repeals, met at the later of the two.
    Contradiction { id: Id },
    /// Memory ran out.
    NoMemory,
}

impl From<AllocError> for RuleFault {
    ghost from_gives = { λ _ e. e ≡ NoMemory };

    fn from(_error: AllocError) -> RuleFault {
        RuleFault::NoMemory
    }
}

impl<T: Drop> From<AllocFailed<T>> for RuleFault {
    ghost from_gives = { λ _ e. e ≡ NoMemory };

    fn from(_error: AllocFailed<T>) -> RuleFault {
        RuleFault::NoMemory
    }
}
