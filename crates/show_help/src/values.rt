//! What stands in values of JSON.
use serde_json::{Map, Value};

/// The items of a list.
pub(crate) fn list_of(value: Option<&Value>) -> Option<&[Value]> {
    Some(value?.as_array()?.as_slice())
}

/// The items of the list under a key.
pub(crate) fn list_under<'a>(value: Option<&'a Value>, key: &str) -> Option<&'a [Value]> {
    list_of(value?.get(key))
}

/// The members of the object under a key.
pub(crate) fn object_under<'a>(
    value: Option<&'a Value>,
    key: &str,
) -> Option<&'a Map<String, Value>> {
    value?.get(key)?.as_object()
}

/// The text under a key.
pub(crate) fn text_under<'a>(value: &'a Value, key: &str) -> Option<&'a str> {
    value.get(key)?.as_str()
}
