//! Files, as far as they may be told of.
use json_place::blank::blanked;
use ps_outside::files::Files;
use serde_json::Value;
use std::alloc::{AllocError, Global};

/// The most bytes of a dex file.
pub(crate) const MOST_DEX: u32 = 16_777_216;

/// The most bytes of a configuration.
pub(crate) const MOST_CONFIG: u32 = 1_048_576;

/// The keys whose values nobody is told, besides secrets.
const SETUP: &[&str] = &["nonce", "seed", "seeds"];

/// A file that may be read once more.
#[derive(Clone, Copy)]
pub(crate) struct DataFile<'a> {
    /// Its name, if one is named.
    pub(crate) name: Option<&'a str>,
    /// Whether it is the dex file, and not the configuration.
    pub(crate) is_dex: bool,
}

fn bytes_of<F: Files>(
    alloc: Global,
    files: &mut F,
    file: DataFile<'_>,
    keys: &[&str],
    bare: u8,
) -> Result<Option<Vec<u8>>, AllocError> {
    let Some(name) = file.name else {
        return Ok(None);
    };
    let limit = if file.is_dex { MOST_DEX } else { MOST_CONFIG };
    match files.read(alloc, name, limit) {
        Err(_) => Ok(None),
        Ok(bytes) => Ok(Some(blanked(alloc, &bytes, keys, bare)?)),
    }
}

// An alias of a dex may well be `seed`.
fn keys_in(file: DataFile<'_>) -> &'static [&'static str] {
    if file.is_dex { &[] } else { SETUP }
}

/// The bytes of a file that is no JSON without what is hidden in any file, if there is one and it is read: as they may be
/// told, and as they may be parsed. What is hidden has one byte in both.
pub(crate) fn open_text<F: Files>(
    alloc: Global,
    files: &mut F,
    file: DataFile<'_>,
) -> Result<Option<(Vec<u8>, Vec<u8>)>, AllocError> {
    let Some(shown) = bytes_of(alloc, files, file, SETUP, b'*')? else {
        return Ok(None);
    };
    let Some(parsed) = bytes_of(alloc, files, file, SETUP, b'0')? else {
        return Ok(None);
    };
    Ok(Some((shown, parsed)))
}

/// The bytes of a file that is JSON without what is hidden, if there is one and it is read.
pub(crate) fn open_bytes<F: Files>(
    alloc: Global,
    files: &mut F,
    file: DataFile<'_>,
) -> Result<Option<Vec<u8>>, AllocError> {
    bytes_of(alloc, files, file, keys_in(file), b'*')
}

/// The value of a file without what is hidden, if it has one. A hidden number is 0 there.
pub(crate) fn open_value<F: Files>(
    alloc: Global,
    files: &mut F,
    file: DataFile<'_>,
) -> Result<Option<Value>, AllocError> {
    match bytes_of(alloc, files, file, keys_in(file), b'0')? {
        None => Ok(None),
        Some(bytes) => Ok(Value::from_slice(alloc, &bytes).ok()),
    }
}
