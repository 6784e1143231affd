//! Teams that are kept with a challenge or a search.
ghost use Rattle.std.specs.Prelude.{◌≡◌, IfOk, IfNone, IfSome, None};
ghost use Rattle.std.specs.Option.{option_copied};
ghost use Rattle.ps_hall.specs.Lookups.{is_kept, is_kept_of, is_kept_with, kept_team, without_kept, without_user, without_either};
ghost use Rattle.ps_hall.specs.KeptIndices.{IsKeptIndex};

use ps_base::id::Id;
use ps_base::name::Name;
use ps_base::text::copies;
use ps_valid::legal::Legal;
use std::alloc::{AllocError, Global};

/// A team as it was when its user challenged somebody or began to search.
#[derive(Debug)]
pub struct KeptTeam {
    /// The user's name.
    pub name: Name,
    /// The id of who is challenged, or of the format that is searched.
    pub with_id: Id,
    /// The team.
    pub team: Legal,
}

// By hand, so that who drops one has one call to prove.
impl Drop for KeptTeam {
    fn drop(self) {
        let KeptTeam {
            name: _,
            with_id: _,
            team: _,
        } = self;
    }
}

/// The same team.
pub(crate) fn legal_copy(alloc: Global, legal: &Legal) -> Result<Legal, AllocError>
    ensures { IfOk result (λ l. l ≡ legal.now) }
{
    Ok(Legal {
        team: legal.team,
        nicks: copies(alloc, legal.nicks.as_slice())?,
    })
}

/// A team to keep.
pub(crate) fn new_kept(
    alloc: Global,
    name: &Name,
    with_id: &Id,
    team: Legal,
) -> Result<KeptTeam, AllocError>
    ensures { IfOk result (λ k. k ≡ record { name = name.now; with_id = with_id.now; team = team }) }
{
    Ok(KeptTeam {
        name: name.copy(alloc)?,
        with_id: with_id.copy(alloc)?,
        team,
    })
}

/// Whether a team is of a user and was kept with an id.
pub(crate) fn is_kept(kept: &KeptTeam, user: &Id, with_id: &Id) -> bool
    ensures { result ≡ is_kept user.now with_id.now kept.now }
{
    kept.name.id().as_str() == user.as_str() && kept.with_id.as_str() == with_id.as_str()
}

fn is_kept_of(kept: &KeptTeam, user: &Id) -> bool
    ensures { result ≡ is_kept_of user.now kept.now }
{
    kept.name.id().as_str() == user.as_str()
}

fn is_kept_with(kept: &KeptTeam, user: &Id) -> bool
    ensures { result ≡ is_kept_with user.now kept.now }
{
    is_kept_of(kept, user) || kept.with_id.as_str() == user.as_str()
}

/// The first team of a user that was kept with an id.
pub(crate) fn find_kept<'a>(list: &'a [KeptTeam], user: &Id, with_id: &Id) -> Option<&'a KeptTeam>
    ensures { option_copied result ≡ kept_team user.now with_id.now list.now }
{
    for kept in list {
        if is_kept(kept, user, with_id) {
            return Some(kept);
        }
    }
    None
}

// The index of the first team of a user that was kept with an id.
fn index_of(list: &[KeptTeam], user: &Id, with_id: &Id) -> Option<usize>
    ensures none { IfNone result (without_kept user.now with_id.now list.now ≡ list.now) }
    ensures some { IfSome result (IsKeptIndex list.now user.now with_id.now) }
{
    for i in 0..list.len() {
        if is_kept(&list[i], user, with_id) {
            return Some(i);
        }
    }
    None
}

/// Drops the first team of a user that was kept with an id.
pub(crate) fn drop_kept(list: &mut Vec<KeptTeam>, user: &Id, with_id: &Id)
    ensures { list.new.items ≡ without_kept user.now with_id.now list.old.items }
{
    match index_of(list.as_slice(), user, with_id) {
        None => {}
        Some(index) => {
            let _ = list.remove(index);
        }
    }
}

/// Drops the teams of a user.
pub(crate) fn drop_user(list: &mut Vec<KeptTeam>, user: &Id)
    ensures { list.new.items ≡ without_user user.now list.old.items }
{
    list.retain(|kept| !is_kept_of(kept, user));
}

/// Drops the teams of a user, and those that were kept with its id.
pub(crate) fn drop_either(list: &mut Vec<KeptTeam>, user: &Id)
    ensures { list.new.items ≡ without_either user.now list.old.items }
{
    list.retain(|kept| !is_kept_with(kept, user));
}
