//! Reads names.
ghost use Rattle.std.specs.Prelude.{◌≡◌, codes, IfOk};
ghost use Rattle.serde_json.specs.View.{view};
ghost use Rattle.ps_data.specs.OwnIds.{IsNew};
ghost use Rattle.ps_data.specs.Reading.{Gives, required};
ghost use Rattle.ps_dex.specs.Names.{are_name_bytes, is_name, name_in, own_name_in};

use ps_base::id::{Id, to_id};
use ps_base::text::Text;
use ps_data::fault::{DataKind, Refusal};
use ps_data::forms::{ensure, text};
use ps_data::ids::HasId;
use ps_data::keys::{at_key, required};
use ps_data::table::Table;
use serde_json::Value;
use std::alloc::Global;

/// A name beside its id.
#[derive(Debug, Drop)]
pub(crate) struct Named {
    pub(crate) name: Text,
    pub(crate) id: Id,
}

#[tactic(auto, unfolding(crate::specs::Names::are_name_bytes))]
fn are_name_bytes(text: &str) -> bool
    ensures { result ≡ are_name_bytes text.now }
{
    text.bytes().all(|b| b >= b' ' && b <= b'~' && b != b'|' && b != b',' && b != b']')
}

#[tactic(auto, unfolding(crate::specs::Names::is_name))]
fn is_name(text: &str, id: &str) -> bool
    ensures { result ≡ is_name text.now id.now }
{
    let fits = are_name_bytes(text);
    fits && text.len() <= 32 && !id.is_empty()
}

/// A name: 1 to 32 characters from U+0020 to U+007E without `|`, `,` and `]`, with a letter or digit.
#[tactic(auto, unfolding(crate::specs::Names::name_in))]
pub(crate) fn read_name(alloc: Global, value: &Value) -> Result<Named, Refusal>
    ensures { Gives result (name_in (view value.now)) }
{
    let text = text(alloc, value)?;
    let id = to_id(alloc, text)?;
    ensure(alloc, is_name(text, id.as_str()), DataKind::Range)?;
    let name = Text::copy_of(alloc, text)?;
    Ok(Named { name, id })
}

#[tactic(auto, unfolding(crate::specs::Names::own_name_in))]
fn own_name<T: HasId>(alloc: Global, before: &Table<T>, value: &Value) -> Result<Named, Refusal>
    ensures gives { Gives result (own_name_in T.id_of before.now (view value.now)) }
    ensures new { IfOk result (λ named. IsNew T.id_of named.id before.now) }
{
    let named = read_name(alloc, value)?;
    ensure(alloc, !before.has_id(named.id.as_str()), DataKind::Repeat)?;
    Ok(named)
}

/// The name of a new item, at `name` of its object. `Repeat` where an item before has its id.
pub(crate) fn own_name_at<T: HasId>(
    alloc: Global,
    before: &Table<T>,
    value: &Value,
) -> Result<Named, Refusal>
    ensures gives { Gives result (required (codes "name") (own_name_in T.id_of before.now) (view value.now)) }
    ensures new { IfOk result (λ named. IsNew T.id_of named.id before.now) }
{
    at_key(
        alloc,
        "name",
        own_name(alloc, before, required(alloc, value, "name")?),
    )
}
