//! Lists of items of one form.
ghost use Rattle.std.specs.Prelude as prelude;
ghost use Rattle.std.specs.Prelude.{◌≡◌, ◌≤◌, [], Result, map, length, IfOk, vec_len};
ghost use Rattle.serde_json.specs.Data.{Data};
ghost use Rattle.serde_json.specs.View.{view};
ghost use Rattle.ps_data.specs.declared.fault.Fault.{Fault};
ghost use Rattle.ps_data.specs.Reading.{Gives, GivesBy};
ghost use Rattle.ps_data.specs.Forms.{number_in};
ghost use Rattle.ps_data.specs.Lists.{each, list_in, list_at};

use crate::fault::Refusal;
use crate::forms::{number, sized};
use crate::keys::{at_index, items_at_key};
use serde_json::Value;
use std::alloc::Global;

/// How an item of a list is read, beside what the items before it gave and the items after it.
pub trait ItemForm<T> {
    ghost reading: { Self → prelude.List T → prelude.List Data → Data → Result T Fault };

    /// The item, or its first fault.
    fn read(
        &self,
        alloc: Global,
        before: &[T],
        after: &[Value],
        value: &Value,
    ) -> Result<T, Refusal>
        ensures { Gives result (reading self.now before.now (map view after.now) (view value.now)) };
}

/// The items of a list in order.
pub fn items_of<T: Drop, F: ItemForm<T>>(
    alloc: Global,
    form: &F,
    values: &[Value],
) -> Result<Vec<T>, Refusal>
    ensures gives { GivesBy (λ v. v.items) result (each (F.reading form.now) [] (map view values.now)) }
    ensures count { IfOk result (λ v. length v.items ≡ length values.now) }
{
    let mut items = Vec::new(alloc);
    for i in 0..values.len() {
        let item = at_index(i, form.read(alloc, &items, &values[i + 1..], &values[i]))?;
        items.push(item)?;
    }
    Ok(items)
}

/// A list of `least` to `most` items. `Shape` for what is no array, `Range` for one of another
/// length, and then the first fault of an item.
pub fn list<T: Drop, F: ItemForm<T>>(
    alloc: Global,
    form: &F,
    least: usize,
    most: usize,
    value: &Value,
) -> Result<Vec<T>, Refusal>
    ensures gives { GivesBy (λ v. v.items) result (list_in least most (F.reading form.now) (view value.now)) }
    ensures count { IfOk result (λ v. (least ≤ length v.items) × (length v.items ≤ most)) }
{
    items_of(alloc, form, sized(alloc, value, least, most)?)
}

/// Such a list at a key, and no item where the key is missing.
pub fn list_at<T: Drop, F: ItemForm<T>>(
    alloc: Global,
    form: &F,
    least: usize,
    most: usize,
    value: &Value,
    key: &str,
) -> Result<Vec<T>, Refusal>
    ensures gives { GivesBy (λ v. v.items) result (list_at key.now least most (F.reading form.now) (view value.now)) }
    ensures count { IfOk result (λ v. length v.items ≤ most) }
{
    match value.get(key) {
        None => Ok(Vec::new(alloc)),
        Some(inside) => items_at_key(alloc, key, list(alloc, form, least, most, inside)),
    }
}

/// The form of a whole number from `low` to `high`.
#[derive(Clone, Copy, Debug, PartialEq, Eq)]
pub struct NumberForm {
    /// The least number.
    pub low: u64,
    /// The greatest number.
    pub high: u64,
}

impl ItemForm<u64> for NumberForm {
    ghost reading = { λ form before after. number_in form.low form.high };

    fn read(
        &self,
        alloc: Global,
        _before: &[u64],
        _after: &[Value],
        value: &Value,
    ) -> Result<u64, Refusal> {
        number(alloc, value, self.low, self.high)
    }
}
