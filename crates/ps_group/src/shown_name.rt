//! How people are shown to each other.
ghost use Rattle.std.specs.Prelude.{◌≡◌, IfOk};
ghost use Rattle.ps_group.specs.ShownNames.{shown_name};

use crate::groups::Groups;
use ps_base::name::Name;
use ps_base::text::Text;
use std::alloc::{AllocError, Global};

/// The symbol of a rank, and the name: the username of PROTOCOL.md.
pub fn shown_name(alloc: Global, groups: &Groups, rank: u8, name: &Name) -> Result<Text, AllocError>
    ensures { IfOk result (λ t. t ≡ shown_name groups.now rank name.now) }
{
    let symbol = groups.symbol(rank);
    Ok(Text::from_string(format!(in alloc; "{symbol}{name}")?))
}
