//! The list of open challenges.
ghost use Rattle.std.specs.Prelude.{◌≡◌, ◌++◌, ◌∷◌, [], not, find, IfOk, OnOk, OnErr};
ghost use Rattle.std.specs.List.{filter};
ghost use Rattle.std.specs.Option.{option_copied};
ghost use Rattle.ps_pms.specs.Lookups.{is_by, is_to, is_of, is_with, has_id, with_new, partners_of};

use crate::asked::Asked;
use ps_base::id::Id;
use std::alloc::{AllocError, Global};

/// The first challenge that a user made.
pub(crate) fn made_by<'a>(list: &'a [Asked], by: &Id) -> Option<&'a Asked>
    ensures { option_copied result ≡ find (is_by by.now) list.now }
{
    for asked in list {
        if asked.is_by(by) {
            return Some(asked);
        }
    }
    None
}

/// The first challenge that the one user made to the other.
pub(crate) fn made_to<'a>(list: &'a [Asked], by: &Id, to: &Id) -> Option<&'a Asked>
    ensures { option_copied result ≡ find (is_of by.now to.now) list.now }
{
    for asked in list {
        if asked.is_of(by, to) {
            return Some(asked);
        }
    }
    None
}

/// All challenges that a user got, in order.
pub(crate) fn got(alloc: Global, list: &[Asked], to: &Id) -> Result<Vec<Asked>, AllocError>
    ensures { IfOk result (λ v. v.items ≡ filter (is_to to.now) list.now) }
{
    let mut found = Vec::new(alloc);
    for asked in list {
        if asked.is_to(to) {
            found.push(asked.copy(alloc)?)?;
        }
    }
    Ok(found)
}

fn has_id(ids: &[Id], id: &Id) -> bool
    ensures { result ≡ has_id ids.now id.now }
{
    for other in ids {
        if other.as_str() == id.as_str() {
            return true;
        }
    }
    false
}

// Puts an id that isn't in the list behind it.
fn push_new(alloc: Global, ids: &mut Vec<Id>, id: Option<&Id>) -> Result<(), AllocError>
    ensures { OnOk result (ids.new.items ≡ with_new ids.old.items (option_copied id.entry)) }
{
    match id {
        None => Ok(()),
        Some(id) => {
            if has_id(ids.as_slice(), id) {
                return Ok(());
            }
            ids.push(id.copy(alloc)?)?;
            Ok(())
        }
    }
}

/// With whom a user has a challenge, each once, in the order of the challenges.
pub(crate) fn partners(alloc: Global, list: &[Asked], user: &Id) -> Result<Vec<Id>, AllocError>
    ensures { IfOk result (λ v. v.items ≡ partners_of user.now [] list.now) }
{
    let mut found = Vec::new(alloc);
    for asked in list {
        push_new(alloc, &mut found, asked.partner(user))?;
    }
    Ok(found)
}

/// Puts a challenge behind the others. Where memory fails nothing changes.
pub(crate) fn add(
    alloc: Global,
    list: &mut Vec<Asked>,
    by: &Id,
    to: &Id,
    format: &Id,
) -> Result<(), AllocError>
    ensures ok { OnOk result (list.new.items ≡ list.old.items ++ record { by = by.now; to = to.now; format = format.now } ∷ []) }
    ensures err { OnErr result (list.new.items ≡ list.old.items) }
{
    let asked = Asked {
        by: by.copy(alloc)?,
        to: to.copy(alloc)?,
        format: format.copy(alloc)?,
    };
    list.push(asked)?;
    Ok(())
}

/// Takes away what a user made.
pub(crate) fn end_made(list: &mut Vec<Asked>, by: &Id)
    ensures { list.new.items ≡ filter (λ a. not (is_by by.now a)) list.old.items }
{
    list.retain(|asked| !asked.is_by(by));
}

/// Takes away what the one user made to the other.
pub(crate) fn end_of(list: &mut Vec<Asked>, by: &Id, to: &Id)
    ensures { list.new.items ≡ filter (λ a. not (is_of by.now to.now a)) list.old.items }
{
    list.retain(|asked| !asked.is_of(by, to));
}

/// Takes away what a user made or got.
pub(crate) fn end_all(list: &mut Vec<Asked>, user: &Id)
    ensures { list.new.items ≡ filter (λ a. not (is_with user.now a)) list.old.items }
{
    list.retain(|asked| !asked.is_with(user));
}
