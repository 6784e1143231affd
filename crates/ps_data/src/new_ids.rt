//! The reading of ids that no row of a table has yet.
ghost use Rattle.std.specs.Prelude.{IfOk};
ghost use Rattle.serde_json.specs.View.{view};
ghost use Rattle.ps_data.specs.Reading.{Gives, required};
ghost use Rattle.ps_data.specs.OwnIds.{own_id_in, key_id_in, IsNew};

use crate::fault::{DataKind, Refusal};
use crate::forms::{ensure, found, text};
use crate::ids::HasId;
use crate::keys::{at_key, required};
use crate::table::Table;
use ps_base::id::{Id, read_id, to_id};
use serde_json::Value;
use std::alloc::Global;

#[tactic(auto, unfolding(crate::specs::OwnIds::own_id_in))]
fn new_id<T: HasId>(alloc: Global, before: &Table<T>, value: &Value) -> Result<Id, Refusal>
    ensures gives { Gives result (own_id_in T.id_of before.now (view value.now)) }
    ensures new { IfOk result (λ id. IsNew T.id_of id before.now) }
{
    let text = text(alloc, value)?;
    let id = found(alloc, read_id(alloc, text)?, DataKind::Range)?;
    ensure(alloc, !before.has_id(id.as_str()), DataKind::Repeat)?;
    Ok(id)
}

/// The id at a key that must be there, which is the new row's own. `Range` for a text that is no id, `Repeat` for the
/// id of a row before.
pub fn new_id_at<T: HasId>(
    alloc: Global,
    before: &Table<T>,
    value: &Value,
    key: &str,
) -> Result<Id, Refusal>
    ensures gives { Gives result (required key.now (own_id_in T.id_of before.now) (view value.now)) }
    ensures new { IfOk result (λ id. IsNew T.id_of id before.now) }
{
    at_key(
        alloc,
        key,
        new_id(alloc, before, required(alloc, value, key)?),
    )
}

/// The id of a key, which is the new row's own. `Range` where nothing of the key is left in it, `Repeat` for the id
/// of a row before.
#[tactic(auto, unfolding(crate::specs::OwnIds::key_id_in))]
pub fn new_key_id<T: HasId>(alloc: Global, before: &Table<T>, key: &str) -> Result<Id, Refusal>
    ensures gives { Gives result (key_id_in T.id_of before.now key.now) }
    ensures new { IfOk result (λ id. IsNew T.id_of id before.now) }
{
    let id = to_id(alloc, key)?;
    ensure(alloc, !id.as_str().is_empty(), DataKind::Range)?;
    ensure(alloc, !before.has_id(id.as_str()), DataKind::Repeat)?;
    Ok(id)
}
