//! Reads what a dex file says.
ghost use Rattle.std.specs.Prelude.{◌≡◌, ◌≤◌, length, IfOk};
ghost use Rattle.serde_json.specs.View.{view};
ghost use Rattle.ps_data.specs.Reading.{Gives};
ghost use Rattle.ps_dex.specs.Tables.{tables_in, tables_of};

use crate::aliases::aliases_at;
use crate::factors::factors_at;
use crate::item::Tables;
use crate::moves::moves_at;
use crate::species::species_at;
use crate::types::types_at;
use ps_data::fault::Refusal;
use ps_data::forms::{json, object};
use serde_json::Value;
use std::alloc::Global;

#[tactic(auto, unfolding(crate::specs::Tables::tables_in))]
fn tables(alloc: Global, value: &Value) -> Result<Tables, Refusal>
    ensures { Gives result (tables_in (view value.now)) }
{
    object(alloc, value)?;
    let types = types_at(alloc, value)?;
    let factors = factors_at(alloc, &types, value)?;
    let moves = moves_at(alloc, &types, value)?;
    let species = species_at(alloc, &types, &moves, value)?;
    let aliases = aliases_at(alloc, &species, &moves, value)?;
    Ok(Tables {
        types,
        factors,
        moves,
        species,
        aliases,
    })
}

/// What the bytes of a dex file say, or their first fault.
#[tactic(auto, unfolding(crate::specs::Tables::tables_of))]
pub(crate) fn read_tables(alloc: Global, bytes: &[u8]) -> Result<Tables, Refusal>
    ensures { Gives result (tables_of bytes.now) }
{
    let value = json(alloc, bytes)?;
    tables(alloc, &value)
}
