//! Reads factors.
ghost use Rattle.std.specs.Prelude.{◌≡◌, ◌≤◌, [], codes, length, map};
ghost use Rattle.serde_json.specs.View.{view};
ghost use Rattle.ps_data.specs.Reading.{Gives, GivesBy, optional};
ghost use Rattle.ps_dex.specs.Factors.{tenths_in, has_pair, parts_in, three_parts_in, factor_item_in, factors_in};

use crate::item::{FactorItem, TypeItem};
use crate::types::named_type;
use ps_base::list::List;
use ps_data::fault::{DataKind, Refusal, refused};
use ps_data::forms::{array, ensure, number};
use ps_data::keys::{at_index, items_at_key};
use ps_data::lists::{ItemForm, items_of};
use ps_data::table::Table;
use serde_json::Value;
use std::alloc::Global;

#[tactic(auto, unfolding(crate::specs::Factors::tenths_in))]
fn tenths(alloc: Global, value: &Value) -> Result<u8, Refusal>
    ensures { Gives result (tenths_in (view value.now)) }
{
    let n = number(alloc, value, 0, 20)?;
    ensure(
        alloc,
        n == 0 || n == 5 || n == 10 || n == 20,
        DataKind::Range,
    )?;
    Ok(n as u8)
}

#[tactic(auto, unfolding(crate::specs::Factors::has_pair))]
fn has_pair(items: &[FactorItem], attack: u8, defend: u8) -> bool
    ensures { result ≡ has_pair attack defend items.now }
{
    items
        .iter()
        .any(|item| item.attack == attack && item.defend == defend)
}

#[tactic(auto, unfolding(crate::specs::Factors::parts_in))]
fn parts(
    alloc: Global,
    types: &Table<TypeItem>,
    attack: &Value,
    defend: &Value,
    factor: &Value,
) -> Result<FactorItem, Refusal>
    requires { length types.now ≤ 32 }
    ensures { Gives result (parts_in types.now (view attack.now) (view defend.now) (view factor.now)) }
{
    let attack = at_index(0, named_type(alloc, types, attack))?;
    let defend = at_index(1, named_type(alloc, types, defend))?;
    let tenths = at_index(2, tenths(alloc, factor))?;
    Ok(FactorItem {
        attack,
        defend,
        tenths,
    })
}

fn three_parts(
    alloc: Global,
    types: &Table<TypeItem>,
    values: &[Value],
) -> Result<FactorItem, Refusal>
    requires { length types.now ≤ 32 }
    ensures { Gives result (three_parts_in types.now (map view values.now)) }
{
    match values {
        [attack, defend, factor] => parts(alloc, types, attack, defend, factor),
        _ => Err(refused(alloc, DataKind::Range)),
    }
}

#[tactic(auto, unfolding(crate::specs::Factors::factor_item_in))]
fn factors_of_attack(
    alloc: Global,
    types: &Table<TypeItem>,
    before: &[FactorItem],
    value: &Value,
) -> Result<FactorItem, Refusal>
    requires { length types.now ≤ 32 }
    ensures { Gives result (factor_item_in types.now before.now (view value.now)) }
{
    let values = array(alloc, value)?;
    let item = three_parts(alloc, types, values)?;
    ensure(
        alloc,
        !has_pair(before, item.attack, item.defend),
        DataKind::Repeat,
    )?;
    Ok(item)
}

/// The form of a factor, over the types.
#[derive(Drop)]
struct FactorForm<'a> {
    types: &'a Table<TypeItem>,
    ghost few: { length types.now ≤ 32 },
}

impl ItemForm<FactorItem> for FactorForm<'_> {
    ghost reading = { λ form before after. factor_item_in form.types.now before };

    fn read(
        &self,
        alloc: Global,
        before: &[FactorItem],
        _after: &[Value],
        value: &Value,
    ) -> Result<FactorItem, Refusal> {
        factors_of_attack(alloc, self.types, before, value)
    }
}

#[tactic(auto, unfolding(crate::specs::Factors::factors_in))]
fn factors(
    alloc: Global,
    types: &Table<TypeItem>,
    value: &Value,
) -> Result<Vec<FactorItem>, Refusal>
    requires { length types.now ≤ 32 }
    ensures { GivesBy (λ v. v.items) result (factors_in types.now (view value.now)) }
{
    let values = array(alloc, value)?;
    items_of(alloc, &FactorForm { types }, values)
}

fn factor_items_at(
    alloc: Global,
    types: &Table<TypeItem>,
    value: &Value,
) -> Result<Vec<FactorItem>, Refusal>
    requires { length types.now ≤ 32 }
    ensures { GivesBy (λ v. v.items) result (optional (codes "factors") [] (factors_in types.now) (view value.now)) }
{
    match value.get("factors") {
        None => Ok(Vec::new(alloc)),
        Some(inside) => items_at_key(alloc, "factors", factors(alloc, types, inside)),
    }
}

/// The factors of a dex.
pub(crate) fn factors_at(
    alloc: Global,
    types: &Table<TypeItem>,
    value: &Value,
) -> Result<List<FactorItem>, Refusal>
    requires { length types.now ≤ 32 }
    ensures { Gives result (optional (codes "factors") [] (factors_in types.now) (view value.now)) }
{
    let items = factor_items_at(alloc, types, value)?;
    Ok(List::from_vec(items))
}
