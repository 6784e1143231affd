//! The plain forms of a value.
ghost use Rattle.std.specs.Prelude.{◌≡◌, ◌≤◌, ◌≤ℤ◌, length, map, true, false, Some, IfOk, OnOk, IfSome, IfNone};
ghost use Rattle.std.specs.Str.{is_utf8};
ghost use Rattle.serde_json.specs.Read.{read as read_text};
ghost use Rattle.serde_json.specs.View.{view};
ghost use Rattle.ps_data.specs.declared.fault.DataKind.TheVariants.{Json};
ghost use Rattle.ps_data.specs.Reading.{Gives, GivesBy, ensure, some_or};
ghost use Rattle.ps_data.specs.Forms.{json_in, object_in, text_in, boolean_in, number_in, integer_in, array_in, sized_in};

use crate::fault::{DataKind, Refusal, refused};
use serde_json::Value;
use std::alloc::Global;

fn text_of(bytes: &[u8]) -> Option<&str>
    ensures some { IfSome result (λ s. (s.now ≡ bytes.now) × (is_utf8 bytes.now ≡ true)) }
    ensures none { IfNone result (is_utf8 bytes.now ≡ false) }
{
    match str::from_utf8(bytes) {
        Ok(text) => Some(text),
        Err(_) => None,
    }
}

fn value_of(alloc: Global, text: &str) -> Result<Value, Refusal>
    ensures { GivesBy view result (some_or Json (read_text text.now)) }
{
    match Value::from_str(alloc, text) {
        Ok(value) => Ok(value),
        Err(e) if e.is_memory() => Err(Refusal::NoMemory),
        Err(_) => Err(refused(alloc, DataKind::Json)),
    }
}

/// The value of a JSON text. `Json` where the bytes aren't UTF-8, or no JSON.
pub fn json(alloc: Global, bytes: &[u8]) -> Result<Value, Refusal>
    ensures { GivesBy view result (json_in bytes.now) }
{
    match text_of(bytes) {
        None => Err(refused(alloc, DataKind::Json)),
        Some(text) => value_of(alloc, text),
    }
}

/// A test that has to hold; a fault of this kind where it doesn't.
pub fn ensure(alloc: Global, holds: bool, kind: DataKind) -> Result<(), Refusal>
    ensures gives { Gives result (ensure kind holds) }
    ensures holds { OnOk result (holds ≡ true) }
{
    if holds {
        Ok(())
    } else {
        Err(refused(alloc, kind))
    }
}

/// What was found; a fault of this kind where nothing was.
pub fn found<T>(alloc: Global, found: Option<T>, kind: DataKind) -> Result<T, Refusal>
    ensures gives { Gives result (some_or kind found) }
    ensures same { IfOk result (λ x. found ≡ Some x) }
{
    match found {
        Some(x) => Ok(x),
        None => Err(refused(alloc, kind)),
    }
}

/// An object, whatever it has. `Shape` for every other value.
pub fn object(alloc: Global, value: &Value) -> Result<(), Refusal>
    ensures { Gives result (object_in (view value.now)) }
{
    ensure(alloc, value.is_object(), DataKind::Shape)
}

/// A text, whatever it says. `Shape` for every other value.
pub fn text<'a>(alloc: Global, value: &'a Value) -> Result<&'a str, Refusal>
    ensures { GivesBy (λ s. s.now) result (text_in (view value.now)) }
{
    match value.as_str() {
        Some(text) => Ok(text),
        None => Err(refused(alloc, DataKind::Shape)),
    }
}

/// True or false. `Shape` for every other value.
pub fn boolean(alloc: Global, value: &Value) -> Result<bool, Refusal>
    ensures { Gives result (boolean_in (view value.now)) }
{
    found(alloc, value.as_bool(), DataKind::Shape)
}

/// A whole number from `low` to `high`. `Shape` for what is no whole number of 64 bits, `Range` for
/// another number.
pub fn number(alloc: Global, value: &Value, low: u64, high: u64) -> Result<u64, Refusal>
    ensures gives { Gives result (number_in low high (view value.now)) }
    ensures range { IfOk result (λ n. (low ≤ n) × (n ≤ high)) }
{
    match value.as_u64() {
        Some(n) if low <= n && n <= high => Ok(n),
        Some(_) => Err(refused(alloc, DataKind::Range)),
        None => match value.as_i64() {
            Some(_) => Err(refused(alloc, DataKind::Range)),
            None => Err(refused(alloc, DataKind::Shape)),
        },
    }
}

/// A whole number with a sign from `low` to `high`. `Shape` for what is no whole number of 64 bits,
/// `Range` for another number.
pub fn integer(alloc: Global, value: &Value, low: i64, high: i64) -> Result<i64, Refusal>
    ensures gives { Gives result (integer_in low high (view value.now)) }
    ensures range { IfOk result (λ n. (low ≤ℤ n) × (n ≤ℤ high)) }
{
    match value.as_i64() {
        Some(n) if low <= n && n <= high => Ok(n),
        Some(_) => Err(refused(alloc, DataKind::Range)),
        None => match value.as_u64() {
            Some(_) => Err(refused(alloc, DataKind::Range)),
            None => Err(refused(alloc, DataKind::Shape)),
        },
    }
}

/// The items of an array. `Shape` for every other value.
#[tactic(auto, using(crate::proofs::Items::list_of_items))]
pub fn array<'a>(alloc: Global, value: &'a Value) -> Result<&'a [Value], Refusal>
    ensures { GivesBy (λ s. map view s.now) result (array_in (view value.now)) }
{
    match value.as_array() {
        Some(items) => Ok(items.as_slice()),
        None => Err(refused(alloc, DataKind::Shape)),
    }
}

/// The items of an array of `least` to `most` items. `Shape` for what is no array, `Range` for one of
/// another length.
pub fn sized<'a>(
    alloc: Global,
    value: &'a Value,
    least: usize,
    most: usize,
) -> Result<&'a [Value], Refusal>
    ensures gives { GivesBy (λ s. map view s.now) result (sized_in least most (view value.now)) }
    ensures count { IfOk result (λ s. (least ≤ length s.now) × (length s.now ≤ most)) }
{
    match array(alloc, value) {
        Err(refusal) => Err(refusal),
        Ok(items) => {
            if least <= items.len() && items.len() <= most {
                Ok(items)
            } else {
                Err(refused(alloc, DataKind::Range))
            }
        }
    }
}
