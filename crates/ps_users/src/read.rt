//! Reading names.
ghost use Rattle.std.specs.Prelude.{◌≡◌, IfOk};
ghost use Rattle.ps_users.specs.Refusals.{read_of};

use ps_base::name::{Name, NameFault, read_name};
use std::alloc::{AllocError, Global};

/// The name that a text is, if it is one.
#[tactic(auto, unfolding(crate::specs::Refusals::read_of))]
pub fn read_of(alloc: Global, text: &str) -> Result<Option<Name>, AllocError>
    ensures { IfOk result (λ o. o ≡ read_of text.now) }
{
    match read_name(alloc, text) {
        Ok(name) => Ok(Some(name)),
        Err(NameFault::NoMemory) => Err(AllocError),
        Err(NameFault::BadChar { .. }) => Ok(None),
        Err(NameFault::Long { .. }) => Ok(None),
        Err(NameFault::Empty) => Ok(None),
    }
}
