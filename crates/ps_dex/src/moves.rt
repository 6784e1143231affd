//! Reads moves.
ghost use Rattle.std.specs.Prelude.{◌≡◌, ◌≤◌, ◌<◌, codes, length, IfOk, IfSome};
ghost use Rattle.serde_json.specs.View.{view};
ghost use Rattle.ps_data.specs.OwnIds.{IsNew};
ghost use Rattle.ps_data.specs.Reading.{Gives};
ghost use Rattle.ps_data.specs.Lists.{list_at};
ghost use Rattle.ps_dex.specs.Moves.{move_index, has_move, is_move_taken, move_name_in, numbers_in, move_item_in};

use crate::effect::effect_or_plain;
use crate::item::{MoveItem, TypeItem};
use crate::name::{Named, read_name};
use crate::types::{is_contact, is_special, named_type};
use ps_data::fault::{DataKind, Refusal};
use ps_data::forms::{ensure, object};
use ps_data::keys::{at_key, boolean_or, integer_at, number_at, required};
use ps_data::rows::{RowForm, rows_at};
use ps_data::table::Table;
use ps_mon::facts::MoveData;
use serde_json::Value;
use std::alloc::Global;

#[tactic(auto, unfolding(crate::specs::Moves::move_index))]
pub(crate) fn move_index(moves: &Table<MoveItem>, id: &str) -> Option<usize>
    ensures index { result ≡ move_index id.now moves.now }
    ensures within { IfSome result (λ i. i < length moves.now) }
{
    moves.index_of(id)
}

#[tactic(auto, unfolding(crate::specs::Moves::has_move))]
pub(crate) fn has_move(moves: &Table<MoveItem>, id: &str) -> bool
    ensures { result ≡ has_move id.now moves.now }
{
    moves.has_id(id)
}

/// Whether no move may have the id any more.
#[tactic(auto, unfolding(crate::specs::Moves::is_move_taken))]
fn is_move_taken(moves: &Table<MoveItem>, id: &str) -> bool
    ensures { result ≡ is_move_taken id.now moves.now }
{
    has_move(moves, id) || id == "struggle" || id == "recharge"
}

#[tactic(auto, unfolding(crate::specs::Moves::move_name_in), using(crate::proofs::NewLemmas::new_move))]
fn move_name(alloc: Global, before: &Table<MoveItem>, value: &Value) -> Result<Named, Refusal>
    ensures gives { Gives result (move_name_in before.now (view value.now)) }
    ensures new { IfOk result (λ named. IsNew (λ m. m.id) named.id before.now) }
{
    let named = read_name(alloc, value)?;
    ensure(
        alloc,
        !is_move_taken(before, named.id.as_str()),
        DataKind::Repeat,
    )?;
    Ok(named)
}

#[tactic(auto, unfolding(crate::specs::Moves::numbers_in))]
fn numbers(alloc: Global, types: &Table<TypeItem>, value: &Value) -> Result<MoveData, Refusal>
    requires { length types.now ≤ 32 }
    ensures { Gives result (numbers_in types.now (view value.now)) }
{
    let kind = at_key(
        alloc,
        "type",
        named_type(alloc, types, required(alloc, value, "type")?),
    )?;
    let power = number_at(alloc, value, "power", 0, 255)?;
    let accuracy = number_at(alloc, value, "accuracy", 0, 100)?;
    let pp = number_at(alloc, value, "pp", 1, 64)?;
    let priority = integer_at(alloc, value, "priority", -1, 1)?;
    let high = boolean_or(alloc, value, "high", false)?;
    let effect = effect_or_plain(alloc, value)?;
    Ok(MoveData {
        kind,
        special: is_special(types.as_slice(), kind),
        contact: is_contact(types.as_slice(), kind),
        power: power as u8,
        accuracy: accuracy as u8,
        pp: pp as u8,
        priority: priority as i8,
        high,
        effect,
    })
}

#[tactic(auto, unfolding(crate::specs::Moves::move_item_in))]
fn move_item(
    alloc: Global,
    types: &Table<TypeItem>,
    before: &Table<MoveItem>,
    value: &Value,
) -> Result<MoveItem, Refusal>
    requires { length types.now ≤ 32 }
    ensures gives { Gives result (move_item_in types.now before.now (view value.now)) }
    ensures new { IfOk result (λ item. IsNew (λ m. m.id) item.id before.now) }
{
    object(alloc, value)?;
    let named = at_key(
        alloc,
        "name",
        move_name(alloc, before, required(alloc, value, "name")?),
    )?;
    let numbers = numbers(alloc, types, value)?;
    let Named { name, id } = named;
    Ok(MoveItem { name, id, numbers })
}

/// The form of a move, over the types.
#[derive(Drop)]
struct MoveForm<'a> {
    types: &'a Table<TypeItem>,
    ghost few: { length types.now ≤ 32 },
}

impl RowForm<MoveItem> for MoveForm<'_> {
    ghost reading = { λ form before after. move_item_in form.types.now before };

    fn read(
        &self,
        alloc: Global,
        before: &Table<MoveItem>,
        _after: &[Value],
        value: &Value,
    ) -> Result<MoveItem, Refusal> {
        move_item(alloc, self.types, before, value)
    }
}

/// The moves of a dex: at most 1,024.
pub(crate) fn moves_at(
    alloc: Global,
    types: &Table<TypeItem>,
    value: &Value,
) -> Result<Table<MoveItem>, Refusal>
    requires { length types.now ≤ 32 }
    ensures gives { Gives result (list_at (codes "moves") 0 1024 (λ before after. move_item_in types.now before) (view value.now)) }
    ensures few { IfOk result (λ moves. length moves ≤ 1024) }
{
    rows_at(alloc, &MoveForm { types }, 0, 1024, value, "moves")
}
