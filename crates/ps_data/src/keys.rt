//! The keys of an object, and what a reader of a value inside returned, seen from outside.
ghost use Rattle.std.specs.Prelude.{◌≡◌, ◌≤◌, ◌≤ℤ◌, List, Result, IfOk};
ghost use Rattle.serde_json.specs.View.{view};
ghost use Rattle.ps_data.specs.Paths.{Key, Index};
ghost use Rattle.ps_data.specs.declared.fault.Fault.{Fault};
ghost use Rattle.ps_data.specs.Reading.{Gives, GivesBy, under, there, required, optional};
ghost use Rattle.ps_data.specs.Forms.{text_in, boolean_in, number_in, integer_in};

use crate::fault::{DataKind, Refusal, deeper_by_index, deeper_by_key, refused};
use crate::forms::{boolean, integer, number, text};
use ps_base::text::Text;
use serde_json::Value;
use std::alloc::Global;

/// What was read at a key.
#[tactic(auto, using(crate::proofs::Deeper::fails_deeper))]
pub fn at_key<T>(alloc: Global, key: &str, read: Result<T, Refusal>) -> Result<T, Refusal>
    ensures same { IfOk result (λ x. read ≡ Ok x) }
    ensures deeper { (form : Result T Fault) → Gives read form → Gives result (under (Key key.now) form) }
{
    match read {
        Ok(x) => Ok(x),
        Err(refusal) => Err(deeper_by_key(alloc, key, refusal)),
    }
}

/// The same of a list.
#[tactic(auto, using(crate::proofs::Deeper::fails_deeper))]
pub fn items_at_key<T>(
    alloc: Global,
    key: &str,
    read: Result<Vec<T>, Refusal>,
) -> Result<Vec<T>, Refusal>
    ensures same { IfOk result (λ x. read ≡ Ok x) }
    ensures deeper { (form : Result (List T) Fault) → GivesBy (λ v. v.items) read form
        → GivesBy (λ v. v.items) result (under (Key key.now) form) }
{
    match read {
        Ok(items) => Ok(items),
        Err(refusal) => Err(deeper_by_key(alloc, key, refusal)),
    }
}

/// What was read at an index of an array.
#[tactic(auto, using(crate::proofs::Deeper::fails_deeper))]
pub fn at_index<T>(index: usize, read: Result<T, Refusal>) -> Result<T, Refusal>
    ensures same { IfOk result (λ x. read ≡ Ok x) }
    ensures deeper { (form : Result T Fault) → Gives read form → Gives result (under (Index index) form) }
{
    match read {
        Ok(x) => Ok(x),
        Err(refusal) => Err(deeper_by_index(index, refusal)),
    }
}

/// What an object has at a key that must be there. `Shape` at that key where it is missing.
#[tactic(auto, using(crate::proofs::Deeper::fails_deeper))]
pub fn required<'a>(alloc: Global, value: &'a Value, key: &str) -> Result<&'a Value, Refusal>
    ensures { GivesBy (λ v. view v.now) result (there key.now (view value.now)) }
{
    match value.get(key) {
        Some(inside) => Ok(inside),
        None => Err(deeper_by_key(alloc, key, refused(alloc, DataKind::Shape))),
    }
}

fn owned_text(alloc: Global, value: &Value) -> Result<Text, Refusal>
    ensures { Gives result (text_in (view value.now)) }
{
    Ok(Text::copy_of(alloc, text(alloc, value)?)?)
}

/// A text, whatever it says, at a key that must be there.
pub fn text_at(alloc: Global, value: &Value, key: &str) -> Result<Text, Refusal>
    ensures { Gives result (required key.now text_in (view value.now)) }
{
    at_key(alloc, key, owned_text(alloc, required(alloc, value, key)?))
}

/// True or false at a key that must be there.
pub fn boolean_at(alloc: Global, value: &Value, key: &str) -> Result<bool, Refusal>
    ensures { Gives result (required key.now boolean_in (view value.now)) }
{
    at_key(alloc, key, boolean(alloc, required(alloc, value, key)?))
}

/// True or false at a key, and `missing` where the key is missing.
pub fn boolean_or(alloc: Global, value: &Value, key: &str, missing: bool) -> Result<bool, Refusal>
    ensures { Gives result (optional key.now missing boolean_in (view value.now)) }
{
    match value.get(key) {
        None => Ok(missing),
        Some(inside) => at_key(alloc, key, boolean(alloc, inside)),
    }
}

/// A whole number from `low` to `high` at a key that must be there.
pub fn number_at(
    alloc: Global,
    value: &Value,
    key: &str,
    low: u64,
    high: u64,
) -> Result<u64, Refusal>
    ensures gives { Gives result (required key.now (number_in low high) (view value.now)) }
    ensures range { IfOk result (λ n. (low ≤ n) × (n ≤ high)) }
{
    at_key(
        alloc,
        key,
        number(alloc, required(alloc, value, key)?, low, high),
    )
}

/// A whole number from `low` to `high` at a key, and `missing` where the key is missing.
pub fn number_or(
    alloc: Global,
    value: &Value,
    key: &str,
    low: u64,
    high: u64,
    missing: u64,
) -> Result<u64, Refusal>
    requires low { low ≤ missing }
    requires high { missing ≤ high }
    ensures gives { Gives result (optional key.now missing (number_in low high) (view value.now)) }
    ensures range { IfOk result (λ n. (low ≤ n) × (n ≤ high)) }
{
    match value.get(key) {
        None => Ok(missing),
        Some(inside) => at_key(alloc, key, number(alloc, inside, low, high)),
    }
}

/// A whole number with a sign from `low` to `high` at a key that must be there.
pub fn integer_at(
    alloc: Global,
    value: &Value,
    key: &str,
    low: i64,
    high: i64,
) -> Result<i64, Refusal>
    ensures gives { Gives result (required key.now (integer_in low high) (view value.now)) }
    ensures range { IfOk result (λ n. (low ≤ℤ n) × (n ≤ℤ high)) }
{
    at_key(
        alloc,
        key,
        integer(alloc, required(alloc, value, key)?, low, high),
    )
}
