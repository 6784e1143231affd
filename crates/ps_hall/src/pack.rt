//! Packed teams that a command brings.
ghost use Rattle.std.specs.Prelude.{IfOk};
ghost use Rattle.std.specs.Str.{chars};
ghost use Rattle.ps_hall.specs.Packs.{PacksLaw};
ghost use Rattle.ps_hall.specs.Refusals.{Reads};

use ps_base::hall_why::HallWhy;
use ps_packed::fault::PackFault;
use ps_packed::team::{Team, read_team};
use std::alloc::{AllocError, Global};

/// The team of a text, or why it has none.
pub(crate) fn read_pack(alloc: Global, text: &str) -> Result<Result<Team, HallWhy>, AllocError>
    ensures { IfOk result (Reads (chars text.now)) }
{
    match read_team(alloc, text) {
        Ok(team) => Ok(Ok(team)),
        Err(PackFault::Fault { at, kind }) => Ok(Err(HallWhy::BadPack { at, kind })),
        Err(PackFault::NoMemory) => Err(AllocError),
    }
}

/// The function that tells what is wrong with a text is right: where it tells nothing the text has its team, and else the
/// text has none, for the reason that it tells.
pub fn law_of_packs()
    ensures { PacksLaw }
{}
