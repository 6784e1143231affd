//! Reads types, and the names of types.
ghost use Rattle.std.specs.Prelude.{◌≡◌, ◌<◌, ◌≤◌, codes, length, IfOk, IfSome};
ghost use Rattle.serde_json.specs.View.{view};
ghost use Rattle.ps_data.specs.Reading.{Gives};
ghost use Rattle.ps_data.specs.OwnIds.{IsNew};
ghost use Rattle.ps_data.specs.Lists.{list_at};
ghost use Rattle.ps_dex.specs.Types.{type_index, type_item_in, type_in, is_special, is_contact};

use crate::item::TypeItem;
use crate::name::{Named, own_name_at};
use ps_base::id::to_id;
use ps_data::fault::{DataKind, Refusal};
use ps_data::forms::{found, object, text};
use ps_data::keys::boolean_at;
use ps_data::rows::{RowForm, rows_at};
use ps_data::table::Table;
use serde_json::Value;
use std::alloc::Global;

#[tactic(auto, unfolding(crate::specs::Types::type_index))]
fn type_index(types: &Table<TypeItem>, id: &str) -> Option<usize>
    ensures index { result ≡ type_index id.now types.now }
    ensures within { IfSome result (λ i. i < length types.now) }
{
    types.index_of(id)
}

#[tactic(auto, unfolding(crate::specs::Types::type_item_in))]
fn type_item(alloc: Global, before: &Table<TypeItem>, value: &Value) -> Result<TypeItem, Refusal>
    ensures gives { Gives result (type_item_in before.now (view value.now)) }
    ensures new { IfOk result (λ item. IsNew (λ t. t.id) item.id before.now) }
{
    object(alloc, value)?;
    let named = own_name_at(alloc, before, value)?;
    let special = boolean_at(alloc, value, "special")?;
    let Named { name, id } = named;
    Ok(TypeItem { name, id, special })
}

/// The form of a type.
#[derive(Drop)]
struct TypeForm;

impl RowForm<TypeItem> for TypeForm {
    ghost reading = { λ _ before after. type_item_in before };

    fn read(
        &self,
        alloc: Global,
        before: &Table<TypeItem>,
        _after: &[Value],
        value: &Value,
    ) -> Result<TypeItem, Refusal> {
        type_item(alloc, before, value)
    }
}

/// The types of a dex: at most 32.
pub(crate) fn types_at(alloc: Global, value: &Value) -> Result<Table<TypeItem>, Refusal>
    ensures gives { Gives result (list_at (codes "types") 0 32 (λ before after. type_item_in before) (view value.now)) }
    ensures few { IfOk result (λ types. length types ≤ 32) }
{
    rows_at(alloc, &TypeForm, 0, 32, value, "types")
}

/// The number of the type that a value names.
#[tactic(auto, unfolding(crate::specs::Types::type_in))]
pub(crate) fn named_type(
    alloc: Global,
    types: &Table<TypeItem>,
    value: &Value,
) -> Result<u8, Refusal>
    requires { length types.now ≤ 32 }
    ensures { Gives result (type_in types.now (view value.now)) }
{
    let text = text(alloc, value)?;
    let id = to_id(alloc, text)?;
    let index = found(alloc, type_index(types, id.as_str()), DataKind::Unknown)?;
    Ok(index as u8)
}

/// Whether the type of this number uses Special; where there is none it doesn't.
pub(crate) fn is_special(types: &[TypeItem], number: u8) -> bool
    ensures { result ≡ is_special types.now number }
{
    match types.get(usize::from(number)) {
        None => false,
        Some(item) => item.special,
    }
}

/// Whether the type of this number is one whose damage Counter gives back.
pub(crate) fn is_contact(types: &[TypeItem], number: u8) -> bool
    ensures { result ≡ is_contact types.now number }
{
    match types.get(usize::from(number)) {
        None => false,
        Some(item) => item.id.as_str() == "normal" || item.id.as_str() == "fighting",
    }
}
