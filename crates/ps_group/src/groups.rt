//! The list of groups.
ghost use Rattle.std.specs.Prelude.{◌≡◌, ◌<◌, ◌≤◌, length, IfSome, IfOk};
ghost use Rattle.ps_group.specs.Ranks.{in_force, rank_of, symbol_of};
ghost use Rattle.ps_group.specs.Can.{can, reaches_all};

use crate::can::{granted, is_allowed, is_over_all};
use crate::group::{Group, Perm};
use ps_base::list::List;
use std::alloc::{AllocError, Global};
use std::marker::Model;

/// The groups, highest first: 1 to 16. A rank is an index in this list, 0 the highest; one past the
/// list counts as the last group's. Contracts see the list.
#[derive(Debug)]
pub struct Groups {
    list: List<Group>,
}

// By hand, so that who drops one has one call to prove.
impl Drop for Groups {
    fn drop(self) {
        let Groups { list: _ } = self;
    }
}

impl Model for Groups {
    ghost use Rattle.std.specs.Prelude as prelude;
    ghost use Rattle.std.specs.Prelude.{◌<◌, ◌≤◌, length};
    ghost use Rattle.ps_group.specs.declared.group.Group.{Group};

    ghost Value = { prelude.List Group };

    ghost view = { λ g. g.list };

    ghost invariant = { λ g. (0 < length g.list) × (length g.list ≤ 16) };
}

fn index_of(groups: &[Group], symbol: char) -> Option<usize>
    ensures index { result ≡ rank_of symbol groups.now }
    ensures within { IfSome result (λ i. i < length groups.now) }
{
    groups.iter().position(|group| group.symbol == symbol)
}

fn symbol_at(groups: &[Group], rank: u8) -> char
    requires { 0 < length groups.now }
    ensures { result ≡ symbol_of rank groups.now }
{
    match groups.get(usize::from(rank)) {
        Some(group) => group.symbol,
        None => groups[groups.len() - 1].symbol,
    }
}

fn copies(alloc: Global, groups: &[Group]) -> Result<Vec<Group>, AllocError>
    ensures { IfOk result (λ v. v.items ≡ groups.now) }
{
    let mut copies = Vec::new(alloc);
    for group in groups {
        copies.push(group.copy(alloc)?)?;
    }
    Ok(copies)
}

impl Groups {
    /// The groups of a list. Takes no memory.
    pub(crate) fn from_list(list: Vec<Group>) -> Groups
        requires some { 0 < length list.items }
        requires few { length list.items ≤ 16 }
        ensures { result ≡ list.items }
    {
        Groups {
            list: List::from_vec(list),
        }
    }

    /// The same groups.
    pub fn copy(&self, alloc: Global) -> Result<Groups, AllocError>
        ensures { IfOk result (λ g. g ≡ self.now) }
    {
        Ok(Groups {
            list: List::from_vec(copies(alloc, self.list.as_slice())?),
        })
    }

    /// The groups, highest first.
    pub fn list(&self) -> &[Group]
        ensures { result.now ≡ self.now }
    {
        self.list.as_slice()
    }

    /// The number of groups, 1 to 16.
    pub fn count(&self) -> u8
        ensures count { result ≡ length self.now }
        ensures some { 0 < result }
        ensures few { result ≤ 16 }
    {
        self.list.as_slice().len() as u8
    }

    /// The index of the group with a symbol. `None` exactly where no group has it.
    pub fn rank_of(&self, symbol: char) -> Option<u8>
        ensures index { result ≡ rank_of symbol self.now }
        ensures within { IfSome result (λ rank. rank < length self.now) }
    {
        match index_of(self.list.as_slice(), symbol) {
            None => None,
            Some(index) => Some(index as u8),
        }
    }

    /// The rank itself, and the last group's for a rank past the list.
    pub fn in_force(&self, rank: u8) -> u8
        ensures rank { result ≡ in_force rank self.now }
        ensures within { result < length self.now }
    {
        let count = self.list.as_slice().len() as u8;
        if rank < count { rank } else { count - 1 }
    }

    /// The symbol of a rank's group.
    pub fn symbol(&self, rank: u8) -> char
        ensures { result ≡ symbol_of rank self.now }
    {
        symbol_at(self.list.as_slice(), rank)
    }

    /// Whether the actor's rank may do this. Without a target: where the permission's text isn't
    /// empty. With a target's rank: where the text has `a`, or has `s` and the target is the actor
    /// (`is_self`), or has `u` and the target's rank is lower. A permission that the group has none
    /// of is the inherited group's.
    pub fn can(&self, actor: u8, target: Option<u8>, is_self: bool, perm: Perm) -> bool
        ensures { result ≡ can self.now actor target is_self perm }
    {
        let actor = self.in_force(actor);
        let target = match target {
            None => None,
            Some(rank) => Some(self.in_force(rank)),
        };
        is_allowed(
            granted(perm, actor, self.list.as_slice()),
            actor,
            target,
            is_self,
        )
    }

    /// Whether the actor's permission has `a`, so that it reaches everybody.
    pub fn reaches_all(&self, actor: u8, perm: Perm) -> bool
        ensures { result ≡ reaches_all self.now actor perm }
    {
        let actor = self.in_force(actor);
        is_over_all(granted(perm, actor, self.list.as_slice()))
    }
}
