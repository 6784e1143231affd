//! Reads the names of formats.
ghost use Rattle.std.specs.Prelude.{◌≡◌, IfOk};
ghost use Rattle.serde_json.specs.View.{view};
ghost use Rattle.ps_data.specs.OwnIds.{IsNew};
ghost use Rattle.ps_data.specs.Reading.{Gives};
ghost use Rattle.ps_rules.specs.Reading.{are_name_chars, is_name, has_format, name_in};

use crate::table::Format;
use ps_base::characters::characters;
use ps_base::id::{Id, to_id};
use ps_base::text::Text;
use ps_data::fault::{DataKind, Refusal};
use ps_data::forms::{ensure, text};
use ps_data::table::Table;
use serde_json::Value;
use std::alloc::Global;

/// A name beside its id.
#[derive(Debug, Drop)]
pub(crate) struct Named {
    pub(crate) name: Text,
    pub(crate) id: Id,
}

#[tactic(auto, unfolding(crate::specs::Reading::are_name_chars))]
fn are_name_chars(chars: &[char]) -> bool
    ensures { result ≡ are_name_chars chars.now }
{
    chars.iter().all(|c| *c >= ' ' && *c != '|')
}

#[tactic(auto, unfolding(crate::specs::Reading::is_name))]
fn is_name(chars: &[char], id: &str) -> bool
    ensures { result ≡ is_name chars.now id.now }
{
    let fits = are_name_chars(chars);
    fits && chars.len() <= 32 && !id.is_empty()
}

#[tactic(auto, unfolding(crate::specs::Reading::has_format))]
fn has_format(formats: &Table<Format>, id: &str) -> bool
    ensures { result ≡ has_format id.now formats.now }
{
    formats.has_id(id)
}

/// A name: 1 to 32 characters without `|` and control characters, with a letter or digit, and with
/// an id that no format before has.
#[tactic(auto, unfolding(crate::specs::Reading::name_in, crate::specs::Reading::has_format))]
pub(crate) fn read_name(
    alloc: Global,
    before: &Table<Format>,
    value: &Value,
) -> Result<Named, Refusal>
    ensures gives { Gives result (name_in before.now (view value.now)) }
    ensures new { IfOk result (λ named. IsNew (λ f. f.id) named.id before.now) }
{
    let text = text(alloc, value)?;
    let id = to_id(alloc, text)?;
    let chars = characters(alloc, text)?;
    ensure(alloc, is_name(&chars, id.as_str()), DataKind::Range)?;
    ensure(alloc, !has_format(before, id.as_str()), DataKind::Repeat)?;
    let name = Text::copy_of(alloc, text)?;
    Ok(Named { name, id })
}
