//! What a rank may do, and over whom.
ghost use Rattle.std.specs.Prelude.{◌≡◌, ◌<◌, length};
ghost use Rattle.ps_group.specs.Can.{own, granted_by, granted, allows, reaches, has_all};

use crate::group::{Group, Jurisdiction, Perm, Permissions};
use crate::rank::is_below;

/// A group's own permission.
fn own(perm: Perm, permissions: &Permissions) -> Option<Jurisdiction>
    ensures { result ≡ own perm permissions.now }
{
    match perm {
        Perm::Announce => permissions.announce,
        Perm::Modnote => permissions.modnote,
        Perm::Warn => permissions.warn,
        Perm::Mute => permissions.mute,
        Perm::Ban => permissions.ban,
        Perm::Modchat => permissions.modchat,
        Perm::Promote => permissions.promote,
    }
}

/// The permission of the group with a symbol: its own, or that of the group further down that it inherits.
fn granted_by(perm: Perm, symbol: char, groups: &[Group]) -> Option<Jurisdiction>
    ensures { result ≡ granted_by perm symbol groups.now }
{
    let mut symbol = symbol;
    for group in groups {
        if group.symbol == symbol {
            if let Some(jurisdiction) = own(perm, &group.permissions) {
                return Some(jurisdiction);
            }
            match group.inherit {
                None => return None,
                Some(lower) => symbol = lower,
            }
        }
    }
    None
}

/// The permission of a rank.
#[tactic(auto, unfolding(crate::specs::Can::granted))]
pub(crate) fn granted(perm: Perm, rank: u8, groups: &[Group]) -> Option<Jurisdiction>
    requires { rank < length groups.now }
    ensures { result ≡ granted perm rank groups.now }
{
    let index = usize::from(rank);
    let group = &groups[index];
    match own(perm, &group.permissions) {
        Some(jurisdiction) => Some(jurisdiction),
        None => match group.inherit {
            None => None,
            Some(symbol) => granted_by(perm, symbol, &groups[index + 1..]),
        },
    }
}

fn reaches(jurisdiction: Jurisdiction, actor: u8, target: Option<u8>, is_self: bool) -> bool
    ensures { result ≡ reaches jurisdiction actor target is_self }
{
    match target {
        None => jurisdiction.under || jurisdiction.oneself || jurisdiction.all,
        Some(target) => jurisdiction.all
            || (jurisdiction.oneself && is_self)
            || (jurisdiction.under && is_below(target, actor)),
    }
}

/// Whether a permission lets an actor act, on the target if there is one.
pub(crate) fn is_allowed(
    permission: Option<Jurisdiction>,
    actor: u8,
    target: Option<u8>,
    is_self: bool,
) -> bool
    ensures { result ≡ allows permission actor target is_self }
{
    match permission {
        None => false,
        Some(jurisdiction) => reaches(jurisdiction, actor, target, is_self),
    }
}

/// Whether a permission reaches everybody.
pub(crate) fn is_over_all(permission: Option<Jurisdiction>) -> bool
    ensures { result ≡ has_all permission }
{
    match permission {
        None => false,
        Some(jurisdiction) => jurisdiction.all,
    }
}
