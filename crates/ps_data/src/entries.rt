//! Objects whose keys are free.
ghost use Rattle.std.specs.Prelude as prelude;
ghost use Rattle.std.specs.Prelude.{◌≡◌, ℕ, [], Result, map, IfOk, string_bytes};
ghost use Rattle.serde_json.specs.Data.{Data};
ghost use Rattle.serde_json.specs.View.{view, members_view};
ghost use Rattle.ps_data.specs.declared.fault.Fault.{Fault};
ghost use Rattle.ps_data.specs.Reading.{Gives, GivesBy};
ghost use Rattle.ps_data.specs.Lists.{each_entry, entries_of, entries_in, entries_at};

use crate::fault::{DataKind, Refusal, refused};
use crate::keys::{at_key, items_at_key};
use serde_json::{Map, Value};
use std::alloc::{AllocError, Global};

/// How an entry of an object with free keys is read, beside what the entries before it gave.
pub trait EntryForm<T> {
    ghost reading: { Self → prelude.List T → prelude.List ℕ → Data → Result T Fault };

    /// The entry, or its first fault, as seen from its value.
    fn read(&self, alloc: Global, before: &[T], key: &str, value: &Value) -> Result<T, Refusal>
        ensures { Gives result (reading self.now before.now key.now (view value.now)) };
}

pub(crate) fn pairs(
    alloc: Global,
    object: &Map<String, Value>,
) -> Result<Vec<(&String, &Value)>, AllocError>
    ensures { IfOk result (λ v. map (λ e. (e.0.now, e.1.now)) v.items ≡ object.now.entries) }
{
    object.iter().collect(alloc)
}

fn each_entry<T: Drop, F: EntryForm<T>>(
    alloc: Global,
    form: &F,
    pairs: &[(&String, &Value)],
) -> Result<Vec<T>, Refusal>
    ensures { GivesBy (λ v. v.items) result (each_entry (F.reading form.now) []
        (map (λ e. (string_bytes e.0.now, view e.1.now)) pairs.now)) }
{
    let mut entries = Vec::new(alloc);
    for (key, value) in pairs {
        let key = key.as_str();
        let entry = at_key(alloc, key, form.read(alloc, &entries, key, value))?;
        entries.push(entry)?;
    }
    Ok(entries)
}

fn members<T: Drop, F: EntryForm<T>>(
    alloc: Global,
    form: &F,
    object: &Map<String, Value>,
) -> Result<Vec<T>, Refusal>
    ensures { GivesBy (λ v. v.items) result (each_entry (F.reading form.now) [] (entries_of (members_view object.now.entries))) }
{
    let pairs = pairs(alloc, object)?;
    each_entry(alloc, form, &pairs)
}

/// An object with free keys: its entries in byte order of the keys. `Shape` for every other value,
/// and then the first fault of an entry.
pub fn entries<T: Drop, F: EntryForm<T>>(
    alloc: Global,
    form: &F,
    value: &Value,
) -> Result<Vec<T>, Refusal>
    ensures { GivesBy (λ v. v.items) result (entries_in (F.reading form.now) (view value.now)) }
{
    match value.as_object() {
        Some(object) => members(alloc, form, object),
        None => Err(refused(alloc, DataKind::Shape)),
    }
}

/// Such an object at a key, and no entry where the key is missing.
pub fn entries_at<T: Drop, F: EntryForm<T>>(
    alloc: Global,
    form: &F,
    value: &Value,
    key: &str,
) -> Result<Vec<T>, Refusal>
    ensures { GivesBy (λ v. v.items) result (entries_at key.now (F.reading form.now) (view value.now)) }
{
    match value.get(key) {
        None => Ok(Vec::new(alloc)),
        Some(inside) => items_at_key(alloc, key, entries(alloc, form, inside)),
    }
}
