//! Tables, read from lists and from objects whose keys are free.
ghost use Rattle.std.specs.Prelude as prelude;
ghost use Rattle.std.specs.Prelude.{◌≡◌, ◌≤◌, ℕ, [], Result, map, length, IfOk, string_bytes};
ghost use Rattle.serde_json.specs.Data.{Data};
ghost use Rattle.serde_json.specs.View.{view, members_view};
ghost use Rattle.ps_data.specs.declared.fault.Fault.{Fault};
ghost use Rattle.ps_data.specs.OwnIds.{IsNew};
ghost use Rattle.ps_data.specs.Reading.{Gives};
ghost use Rattle.ps_data.specs.Lists.{each, list_in, list_at, each_entry, entries_of, entries_in, entries_at};

use crate::entries::pairs;
use crate::fault::{DataKind, Refusal, refused};
use crate::forms::sized;
use crate::ids::HasId;
use crate::keys::{at_index, at_key};
use crate::table::Table;
use serde_json::{Map, Value};
use std::alloc::Global;

/// How a row of a table is read from an item of a list, beside the rows before it and the items after it.
pub trait RowForm<T: HasId> {
    ghost reading: { Self → prelude.List T → prelude.List Data → Data → Result T Fault };

    /// The row, whose id no row before has, or its first fault.
    fn read(
        &self,
        alloc: Global,
        before: &Table<T>,
        after: &[Value],
        value: &Value,
    ) -> Result<T, Refusal>
        ensures gives { Gives result (reading self.now before.now (map view after.now) (view value.now)) }
        ensures new { IfOk result (λ row. IsNew T.id_of (T.id_of row) before.now) };
}

/// The rows of a list in order.
pub fn rows_of<T: HasId + Drop, F: RowForm<T>>(
    alloc: Global,
    form: &F,
    values: &[Value],
) -> Result<Table<T>, Refusal>
    ensures gives { Gives result (each (F.reading form.now) [] (map view values.now)) }
    ensures count { IfOk result (λ rows. length rows ≡ length values.now) }
{
    let mut rows = Table::new(alloc);
    for i in 0..values.len() {
        let row = at_index(i, form.read(alloc, &rows, &values[i + 1..], &values[i]))?;
        rows.push(alloc, row)?;
    }
    Ok(rows)
}

/// The rows of a list of `least` to `most` items. `Shape` for what is no array, `Range` for one of another length,
/// and then the first fault of an item.
pub fn rows<T: HasId + Drop, F: RowForm<T>>(
    alloc: Global,
    form: &F,
    least: usize,
    most: usize,
    value: &Value,
) -> Result<Table<T>, Refusal>
    ensures gives { Gives result (list_in least most (F.reading form.now) (view value.now)) }
    ensures count { IfOk result (λ rows. (least ≤ length rows) × (length rows ≤ most)) }
{
    rows_of(alloc, form, sized(alloc, value, least, most)?)
}

/// Such rows at a key, and none where the key is missing.
pub fn rows_at<T: HasId + Drop, F: RowForm<T>>(
    alloc: Global,
    form: &F,
    least: usize,
    most: usize,
    value: &Value,
    key: &str,
) -> Result<Table<T>, Refusal>
    ensures gives { Gives result (list_at key.now least most (F.reading form.now) (view value.now)) }
    ensures count { IfOk result (λ rows. length rows ≤ most) }
{
    match value.get(key) {
        None => Ok(Table::new(alloc)),
        Some(inside) => at_key(alloc, key, rows(alloc, form, least, most, inside)),
    }
}

/// How a row of a table is read from an entry of an object with free keys, beside the rows before it.
pub trait EntryRowForm<T: HasId> {
    ghost reading: { Self → prelude.List T → prelude.List ℕ → Data → Result T Fault };

    /// The row, whose id no row before has, or its first fault, as seen from the entry's value.
    fn read(&self, alloc: Global, before: &Table<T>, key: &str, value: &Value) -> Result<T, Refusal>
        ensures gives { Gives result (reading self.now before.now key.now (view value.now)) }
        ensures new { IfOk result (λ row. IsNew T.id_of (T.id_of row) before.now) };
}

fn each_row<T: HasId + Drop, F: EntryRowForm<T>>(
    alloc: Global,
    form: &F,
    pairs: &[(&String, &Value)],
) -> Result<Table<T>, Refusal>
    ensures { Gives result (each_entry (F.reading form.now) [] (map (λ e. (string_bytes e.0.now, view e.1.now)) pairs.now)) }
{
    let mut rows = Table::new(alloc);
    for (key, value) in pairs {
        let key = key.as_str();
        let row = at_key(alloc, key, form.read(alloc, &rows, key, value))?;
        rows.push(alloc, row)?;
    }
    Ok(rows)
}

fn member_rows<T: HasId + Drop, F: EntryRowForm<T>>(
    alloc: Global,
    form: &F,
    object: &Map<String, Value>,
) -> Result<Table<T>, Refusal>
    ensures { Gives result (each_entry (F.reading form.now) [] (entries_of (members_view object.now.entries))) }
{
    let pairs = pairs(alloc, object)?;
    each_row(alloc, form, &pairs)
}

/// The rows of an object with free keys, in byte order of the keys. `Shape` for every other value, and then the
/// first fault of an entry.
pub fn entry_rows<T: HasId + Drop, F: EntryRowForm<T>>(
    alloc: Global,
    form: &F,
    value: &Value,
) -> Result<Table<T>, Refusal>
    ensures { Gives result (entries_in (F.reading form.now) (view value.now)) }
{
    match value.as_object() {
        Some(object) => member_rows(alloc, form, object),
        None => Err(refused(alloc, DataKind::Shape)),
    }
}

/// Such rows at a key, and none where the key is missing.
pub fn entry_rows_at<T: HasId + Drop, F: EntryRowForm<T>>(
    alloc: Global,
    form: &F,
    value: &Value,
    key: &str,
) -> Result<Table<T>, Refusal>
    ensures { Gives result (entries_at key.now (F.reading form.now) (view value.now)) }
{
    match value.get(key) {
        None => Ok(Table::new(alloc)),
        Some(inside) => at_key(alloc, key, entry_rows(alloc, form, inside)),
    }
}
