//! The symbols that the lines of a script may have.
ghost use Rattle.std.specs.Prelude.{◌≡◌, IfOk};
ghost use Rattle.ps_replay.specs.Outcomes.{symbols_of};

use ps_group::groups::Groups;
use std::alloc::{AllocError, Global};

/// The symbols of groups, in order.
pub fn symbols_of(alloc: Global, groups: &Groups) -> Result<Vec<char>, AllocError>
    ensures { IfOk result (λ v. v.items ≡ symbols_of groups.now) }
{
    let mut symbols = Vec::new(alloc);
    for rank in 0..groups.count() {
        symbols.push(groups.symbol(rank))?;
    }
    Ok(symbols)
}
