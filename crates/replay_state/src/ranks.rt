//! The ranks that the lines of a script give.
ghost use Rattle.std.specs.Prelude.{◌≡◌, IfOk, OnOk};
ghost use Rattle.replay_state.specs.Setup.{with_ranking, ranks_of};

use ps_base::id_map::IdMap;
use ps_group::groups::Groups;
use replay_script::line::{Line, Said};
use std::alloc::{AllocError, Global};

fn add_ranking(
    alloc: Global,
    groups: &Groups,
    ranks: &mut IdMap<u8>,
    item: &Line<'_>,
) -> Result<(), AllocError>
    ensures { OnOk result (ranks.new ≡ with_ranking groups.now ranks.old item.now) }
{
    match item.said() {
        Said::Group(symbol, id) => {
            let rank = groups.rank_of(symbol).unwrap_or(groups.count() - 1);
            ranks.insert(alloc, id, rank)
        }
        _ => Ok(()),
    }
}

/// The ranks that the lines of a script give, of two for one id the later.
pub fn ranks_of(alloc: Global, groups: &Groups, items: &[Line<'_>]) -> Result<IdMap<u8>, AllocError>
    ensures { IfOk result (λ m. m ≡ ranks_of groups.now items.now) }
{
    let mut ranks = IdMap::new(alloc);
    for item in items {
        add_ranking(alloc, groups, &mut ranks, item)?;
    }
    Ok(ranks)
}
