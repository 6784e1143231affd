//! Texts of a fixed set, each of which stands for something.
ghost use Rattle.std.specs.Prelude.{◌≡◌, map};
ghost use Rattle.serde_json.specs.View.{view};
ghost use Rattle.ps_data.specs.Reading.{Gives, required};
ghost use Rattle.ps_data.specs.Words.{meaning, word_in};

use crate::fault::{DataKind, Refusal};
use crate::forms::{found, text};
use crate::keys::{at_key, required};
use serde_json::Value;
use std::alloc::Global;

fn meaning<T: Copy>(table: &[(&str, T)], word: &str) -> Option<T>
    ensures { result ≡ meaning (map (λ entry. (entry.0.now, entry.1)) table.now) word.now }
{
    for (other, meaning) in table {
        if word == *other {
            return Some(*meaning);
        }
    }
    None
}

fn word<T: Copy>(alloc: Global, value: &Value, table: &[(&str, T)]) -> Result<T, Refusal>
    ensures { Gives result (word_in (map (λ entry. (entry.0.now, entry.1)) table.now) (view value.now)) }
{
    let text = text(alloc, value)?;
    found(alloc, meaning(table, text), DataKind::Unknown)
}

/// What the word at a key that must be there stands for by a table of words. `Unknown` for a text that the table
/// doesn't have.
pub fn word_at<T: Copy>(
    alloc: Global,
    value: &Value,
    key: &str,
    table: &[(&str, T)],
) -> Result<T, Refusal>
    ensures { Gives result (required key.now (word_in (map (λ entry. (entry.0.now, entry.1)) table.now)) (view value.now)) }
{
    at_key(alloc, key, word(alloc, required(alloc, value, key)?, table))
}
