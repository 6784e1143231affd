//! Items that have an id, and the reading of ids that no two items of a list have.
ghost use Rattle.std.specs.Prelude.{◌≡◌, ◌<◌, ℕ, List, length, position, bytes_eq, IfSome};
ghost use Rattle.serde_json.specs.View.{view};
ghost use Rattle.ps_data.specs.Reading.{Gives, required};
ghost use Rattle.ps_data.specs.OwnIds.{has_id, own_id_in, key_id_in};

use crate::fault::{DataKind, Refusal};
use crate::forms::{ensure, found, text};
use crate::keys::{at_key, required};
use ps_base::id::{Id, read_id, to_id};
use serde_json::Value;
use std::alloc::Global;

/// An item with an id, by which the others of its list name it.
pub trait HasId {
    ghost id_of: { Self → List ℕ };

    /// The id.
    fn id(&self) -> &str
        ensures { result.now ≡ id_of self.now };
}

/// The index of the first item with an id, from 0.
pub fn index_of<T: HasId>(items: &[T], id: &str) -> Option<usize>
    ensures index { result ≡ position (λ t. bytes_eq (T.id_of t) id.now) items.now }
    ensures within { IfSome result (λ i. i < length items.now) }
{
    items.iter().position(|item| item.id() == id)
}

/// Whether an item has an id.
#[tactic(auto, unfolding(crate::specs::OwnIds::has_id))]
pub fn has_id<T: HasId>(items: &[T], id: &str) -> bool
    ensures { result ≡ has_id T.id_of id.now items.now }
{
    index_of(items, id).is_some()
}

#[tactic(auto, unfolding(crate::specs::OwnIds::own_id_in))]
fn own_id<T: HasId>(alloc: Global, before: &[T], value: &Value) -> Result<Id, Refusal>
    ensures { Gives result (own_id_in T.id_of before.now (view value.now)) }
{
    let text = text(alloc, value)?;
    let id = found(alloc, read_id(alloc, text)?, DataKind::Range)?;
    ensure(alloc, !has_id(before, id.as_str()), DataKind::Repeat)?;
    Ok(id)
}

/// The id at a key that must be there, which is the new item's own. `Range` for a text that is no id,
/// `Repeat` for the id of an item before.
pub fn own_id_at<T: HasId>(
    alloc: Global,
    before: &[T],
    value: &Value,
    key: &str,
) -> Result<Id, Refusal>
    ensures { Gives result (required key.now (own_id_in T.id_of before.now) (view value.now)) }
{
    at_key(
        alloc,
        key,
        own_id(alloc, before, required(alloc, value, key)?),
    )
}

/// The id of a key, which is the new item's own. `Range` where nothing of the key is left in it,
/// `Repeat` for the id of an item before.
#[tactic(auto, unfolding(crate::specs::OwnIds::key_id_in))]
pub fn key_id<T: HasId>(alloc: Global, before: &[T], key: &str) -> Result<Id, Refusal>
    ensures { Gives result (key_id_in T.id_of before.now key.now) }
{
    let id = to_id(alloc, key)?;
    ensure(alloc, !id.as_str().is_empty(), DataKind::Range)?;
    ensure(alloc, !has_id(before, id.as_str()), DataKind::Repeat)?;
    Ok(id)
}
