//! Reads who is staff, and the registered names of a configuration.
ghost use Rattle.std.specs.Prelude.{◌≡◌, ◌<◌, ◌≤◌, [], codes, length, map, IfOk};
ghost use Rattle.std.specs.Str.{chars};
ghost use Rattle.serde_json.specs.View.{view};
ghost use Rattle.ps_data.specs.OwnIds.{IsNew};
ghost use Rattle.ps_data.specs.Reading.{Gives, optional};
ghost use Rattle.rules_config.specs.Users.{rank_named, named_rank_in, default_staff_in, staff_at, user_in, users_in};

use crate::settings::Registered;
use ps_base::characters::characters;
use ps_data::fault::{DataKind, Refusal};
use ps_data::forms::{array, found, object, text};
use ps_data::keys::{at_key, required, text_at};
use ps_data::new_ids::new_id_at;
use ps_data::rows::{RowForm, rows_of};
use ps_data::table::Table;
use ps_group::defaults::DEFAULT_STAFF;
use ps_group::groups::Groups;
use serde_json::Value;
use std::alloc::{AllocError, Global};

/// The rank of the group whose symbol a text of one character is.
fn rank_named(alloc: Global, groups: &Groups, text: &str) -> Result<Option<u8>, AllocError>
    ensures { IfOk result (λ o. o ≡ rank_named groups.now (chars text.now)) }
{
    let chars = characters(alloc, text)?;
    match chars.as_slice() {
        [c] => Ok(groups.rank_of(*c)),
        _ => Ok(None),
    }
}

#[tactic(auto, unfolding(crate::specs::Users::named_rank_in))]
fn named_rank(alloc: Global, groups: &Groups, value: &Value) -> Result<u8, Refusal>
    ensures { Gives result (named_rank_in groups.now (view value.now)) }
{
    let text = text(alloc, value)?;
    found(alloc, rank_named(alloc, groups, text)?, DataKind::Unknown)
}

/// The rank of staff where a configuration names none.
#[tactic(auto, unfolding(crate::specs::Users::default_staff_in))]
fn default_staff(alloc: Global, groups: &Groups) -> Result<u8, Refusal>
    ensures { Gives result (default_staff_in groups.now) }
{
    found(alloc, groups.rank_of(DEFAULT_STAFF), DataKind::Unknown)
}

/// The lowest rank that counts as staff.
#[tactic(auto, unfolding(crate::specs::Users::staff_at))]
pub(crate) fn staff_at(alloc: Global, groups: &Groups, value: &Value) -> Result<u8, Refusal>
    ensures { Gives result (staff_at groups.now (view value.now)) }
{
    match value.get("staff") {
        None => at_key(alloc, "staff", default_staff(alloc, groups)),
        Some(inside) => at_key(alloc, "staff", named_rank(alloc, groups, inside)),
    }
}

#[tactic(auto, unfolding(crate::specs::Users::user_in))]
fn user(
    alloc: Global,
    groups: &Groups,
    before: &Table<Registered>,
    value: &Value,
) -> Result<Registered, Refusal>
    ensures gives { Gives result (user_in groups.now before.now (view value.now)) }
    ensures new { IfOk result (λ user. IsNew (λ u. u.id) user.id before.now) }
{
    object(alloc, value)?;
    let id = new_id_at(alloc, before, value, "id")?;
    let secret = text_at(alloc, value, "secret")?;
    let rank = at_key(
        alloc,
        "group",
        named_rank(alloc, groups, required(alloc, value, "group")?),
    )?;
    Ok(Registered { id, secret, rank })
}

/// The form of a registered name, over the groups.
#[derive(Drop)]
struct UserForm<'a> {
    groups: &'a Groups,
}

impl RowForm<Registered> for UserForm<'_> {
    ghost reading = { λ form before after. user_in form.groups.now before };

    fn read(
        &self,
        alloc: Global,
        before: &Table<Registered>,
        _after: &[Value],
        value: &Value,
    ) -> Result<Registered, Refusal> {
        user(alloc, self.groups, before, value)
    }
}

#[tactic(auto, unfolding(crate::specs::Users::users_in))]
fn users(alloc: Global, groups: &Groups, value: &Value) -> Result<Table<Registered>, Refusal>
    ensures { Gives result (users_in groups.now (view value.now)) }
{
    let values = array(alloc, value)?;
    rows_of(alloc, &UserForm { groups }, values)
}

/// The registered names of a configuration.
pub(crate) fn users_at(
    alloc: Global,
    groups: &Groups,
    value: &Value,
) -> Result<Table<Registered>, Refusal>
    ensures { Gives result (optional (codes "users") [] (users_in groups.now) (view value.now)) }
{
    match value.get("users") {
        None => Ok(Table::new(alloc)),
        Some(inside) => at_key(alloc, "users", users(alloc, groups, inside)),
    }
}
