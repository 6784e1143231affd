//! Keys that a file has and nothing knows.
use crate::nearest::nearest;
use ps_base::text::Text;
use serde_json::Value;
use std::alloc::{AllocError, Global};

/// A note on a place of a file.
#[derive(Debug, Drop)]
pub struct Note {
    /// The path of the place.
    pub place: Text,
    /// What is to be said of it.
    pub told: Text,
}

const DEX_KEYS: &[&str] = &["types", "factors", "moves", "species", "aliases"];

const TYPE_KEYS: &[&str] = &["name", "special"];

const MOVE_KEYS: &[&str] = &[
    "name", "type", "power", "accuracy", "pp", "priority", "high", "effect",
];

const EFFECT_KEYS: &[&str] = &[
    "kind", "amount", "status", "chance", "who", "stat", "by", "away", "which", "sub",
];

const SPECIES_KEYS: &[&str] = &["name", "types", "stats", "learns"];

const CONFIG_KEYS: &[&str] = &[
    "version", "groups", "staff", "rooms", "users", "rulesets", "formats", "nonce", "seed", "seeds",
];

const GROUP_KEYS: &[&str] = &["symbol", "id", "name", "inherit", "permissions"];

const PERMISSION_KEYS: &[&str] = &[
    "announce", "modnote", "warn", "mute", "ban", "modchat", "promote",
];

const ROOM_KEYS: &[&str] = &["id", "title"];

const USER_KEYS: &[&str] = &["id", "secret", "group"];

const FORMAT_KEYS: &[&str] = &["name", "rules", "bans", "min", "max", "levels", "rated"];

/// A note of these texts.
pub fn note_of(alloc: Global, place: &str, told: &str) -> Result<Note, AllocError> {
    Ok(Note {
        place: Text::copy_of(alloc, place)?,
        told: Text::copy_of(alloc, told)?,
    })
}

// The names with a comma and a space between them.
fn joined(alloc: Global, names: &[&str]) -> Result<String, AllocError> {
    let mut text = String::new(alloc);
    for name in names {
        if !text.is_empty() {
            text.push_str(", ")?;
        }
        text.push_str(name)?;
    }
    Ok(text)
}

fn unknown_note(alloc: Global, path: &str, key: &str, known: &[&str]) -> Result<Note, AllocError> {
    let place = if path.is_empty() {
        format!(in alloc; "{key}")?
    } else {
        format!(in alloc; "{path}.{key}")?
    };
    let told = match nearest(key, known) {
        None => {
            let names = joined(alloc, known)?;
            format!(in alloc; "no such key, so it has no effect; there are {names}")?
        }
        Some(name) => {
            format!(in alloc; "no such key, so it has no effect; did you mean `{name}`?")?
        }
    };
    note_of(alloc, place.as_str(), told.as_str())
}

fn is_known(key: &str, known: &[&str]) -> bool {
    for name in known {
        if key == *name {
            return true;
        }
    }
    false
}

fn of_object(
    alloc: Global,
    notes: &mut Vec<Note>,
    path: &str,
    value: &Value,
    known: &[&str],
) -> Result<(), AllocError> {
    if let Some(members) = value.as_object() {
        for key in members.keys() {
            if !is_known(key.as_str(), known) {
                notes.push(unknown_note(alloc, path, key.as_str(), known)?)?;
            }
        }
    }
    Ok(())
}

// Of the objects of a list, and of the objects that each of them has at a key.
fn of_list(
    alloc: Global,
    notes: &mut Vec<Note>,
    list: &str,
    value: &Value,
    known: &[&str],
    inner: &str,
    inner_known: &[&str],
) -> Result<(), AllocError> {
    if let Some(items) = value.get(list).and_then(Value::as_array) {
        for i in 0..items.len() {
            let path = format!(in alloc; "{list}[{i}]")?;
            of_object(alloc, notes, path.as_str(), &items[i], known)?;
            if let Some(within) = items[i].get(inner) {
                let path = format!(in alloc; "{list}[{i}].{inner}")?;
                of_object(alloc, notes, path.as_str(), within, inner_known)?;
            }
        }
    }
    Ok(())
}

/// A note on each key of a dex file that nothing knows, with the nearest one that is known there.
pub fn of_dex(alloc: Global, value: &Value) -> Result<Vec<Note>, AllocError> {
    let mut notes = Vec::new(alloc);
    of_object(alloc, &mut notes, "", value, DEX_KEYS)?;
    of_list(alloc, &mut notes, "types", value, TYPE_KEYS, "", &[])?;
    of_list(
        alloc,
        &mut notes,
        "moves",
        value,
        MOVE_KEYS,
        "effect",
        EFFECT_KEYS,
    )?;
    of_list(alloc, &mut notes, "species", value, SPECIES_KEYS, "", &[])?;
    Ok(notes)
}

/// The same of a configuration.
pub fn of_config(alloc: Global, value: &Value) -> Result<Vec<Note>, AllocError> {
    let mut notes = Vec::new(alloc);
    of_object(alloc, &mut notes, "", value, CONFIG_KEYS)?;
    of_list(
        alloc,
        &mut notes,
        "groups",
        value,
        GROUP_KEYS,
        "permissions",
        PERMISSION_KEYS,
    )?;
    of_list(alloc, &mut notes, "rooms", value, ROOM_KEYS, "", &[])?;
    of_list(alloc, &mut notes, "users", value, USER_KEYS, "", &[])?;
    of_list(alloc, &mut notes, "formats", value, FORMAT_KEYS, "", &[])?;
    Ok(notes)
}

fn has_one(value: &Value, keys: &[&str]) -> bool {
    for key in keys {
        if value.get(*key).is_some() {
            return true;
        }
    }
    false
}

/// Whether an object has keys of a configuration and none of a dex file.
pub fn looks_like_config(value: &Value) -> bool {
    has_one(value, CONFIG_KEYS) && !has_one(value, DEX_KEYS)
}

/// Whether an object has keys of a dex file and none of a configuration.
pub fn looks_like_dex(value: &Value) -> bool {
    has_one(value, DEX_KEYS) && !has_one(value, CONFIG_KEYS)
}
