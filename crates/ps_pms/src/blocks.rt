//! Who blocks whom.
ghost use Rattle.std.specs.Prelude.{◌≡◌, true, is_some, OnOk, OnErr};
ghost use Rattle.std.specs.FinMap.{get, insert, empty};
ghost use Rattle.ps_pms.specs.Lookups.{has_target};
ghost use Rattle.ps_pms.specs.Changes.{with_block, without_block};

use ps_base::id_map::IdMap;
use std::alloc::{AllocError, Global};

/// By who blocks, the ids that it blocks.
pub(crate) type Blocks = IdMap<IdMap<()>>;

/// Whether the owner blocks the target.
pub(crate) fn has_block(blocks: &Blocks, owner: &str, target: &str) -> bool
    ensures { result ≡ has_target (get blocks.now owner.now) target.now }
{
    match blocks.find(owner) {
        None => false,
        Some(targets) => targets.get(target).is_some(),
    }
}

// The first block of an owner.
fn add_first(
    alloc: Global,
    blocks: &mut Blocks,
    owner: &str,
    target: &str,
) -> Result<(), AllocError>
    ensures ok { OnOk result (blocks.new ≡ insert blocks.old owner.now (insert empty target.now tt)) }
    ensures err { OnErr result (blocks.new ≡ blocks.old) }
{
    let mut targets = IdMap::new(alloc);
    targets.insert(alloc, target, ())?;
    blocks.insert(alloc, owner, targets)
}

// Gives an owner that has targets these ones. Takes no memory.
fn put_back(blocks: &mut Blocks, owner: &str, targets: IdMap<()>)
    requires { is_some (get blocks.old owner.now) ≡ true }
    ensures { blocks.new ≡ insert blocks.old owner.now targets }
{
    let _ = blocks.replace(owner, targets);
}

/// The owner blocks the target. Where memory fails nothing changes.
pub(crate) fn add_block(
    alloc: Global,
    blocks: &mut Blocks,
    owner: &str,
    target: &str,
) -> Result<(), AllocError>
    ensures ok { OnOk result (blocks.new ≡ with_block blocks.old owner.now target.now) }
    ensures err { OnErr result (blocks.new ≡ blocks.old) }
{
    let Some(mut targets) = blocks.replace(owner, IdMap::new(alloc)) else {
        return add_first(alloc, blocks, owner, target);
    };
    match targets.insert(alloc, target, ()) {
        Err(end) => {
            put_back(blocks, owner, targets);
            Err(end)
        }
        Ok(()) => {
            put_back(blocks, owner, targets);
            Ok(())
        }
    }
}

/// The owner blocks the target no more. Takes no memory.
pub(crate) fn end_block(alloc: Global, blocks: &mut Blocks, owner: &str, target: &str)
    ensures { blocks.new ≡ without_block blocks.old owner.now target.now }
{
    let Some(mut targets) = blocks.replace(owner, IdMap::new(alloc)) else {
        return;
    };
    targets.remove(target);
    put_back(blocks, owner, targets);
}
