//! Reads aliases.
ghost use Rattle.std.specs.Prelude.{◌≡◌, ◌≤◌, ◌<◌, codes, length, IfOk, IfSome};
ghost use Rattle.serde_json.specs.View.{view};
ghost use Rattle.ps_data.specs.OwnIds.{IsNew};
ghost use Rattle.ps_data.specs.Reading.{Gives};
ghost use Rattle.ps_data.specs.Lists.{entries_at};
ghost use Rattle.ps_dex.specs.Species.{species_index};
ghost use Rattle.ps_dex.specs.Moves.{move_index};
ghost use Rattle.ps_dex.specs.Aliases.{alias_index, alias_item_in};

use crate::item::{AliasItem, MoveItem, SpeciesItem};
use crate::moves::move_index;
use crate::species::species_index;
use ps_base::id::to_id;
use ps_data::fault::{DataKind, Refusal};
use ps_data::forms::{ensure, text};
use ps_data::new_ids::new_key_id;
use ps_data::rows::{EntryRowForm, entry_rows_at};
use ps_data::table::Table;
use serde_json::Value;
use std::alloc::Global;

#[tactic(auto, unfolding(crate::specs::Aliases::alias_index))]
pub(crate) fn alias_index(aliases: &Table<AliasItem>, id: &str) -> Option<usize>
    ensures index { result ≡ alias_index id.now aliases.now }
    ensures within { IfSome result (λ i. i < length aliases.now) }
{
    aliases.index_of(id)
}

#[tactic(auto, unfolding(crate::specs::Aliases::alias_item_in))]
fn alias_item(
    alloc: Global,
    species: &Table<SpeciesItem>,
    moves: &Table<MoveItem>,
    before: &Table<AliasItem>,
    key: &str,
    value: &Value,
) -> Result<AliasItem, Refusal>
    requires few_species { length species.now ≤ 1024 }
    requires few_moves { length moves.now ≤ 1024 }
    ensures gives { Gives result (alias_item_in species.now moves.now before.now key.now (view value.now)) }
    ensures new { IfOk result (λ item. IsNew (λ a. a.id) item.id before.now) }
{
    let id = new_key_id(alloc, before, key)?;
    let text = text(alloc, value)?;
    let target = to_id(alloc, text)?;
    let species = species_number(species, target.as_str());
    let mv = move_number(moves, target.as_str());
    ensure(alloc, species.is_some() || mv.is_some(), DataKind::Unknown)?;
    Ok(AliasItem { id, species, mv })
}

/// The number of the species with an id.
pub(crate) fn species_number(species: &Table<SpeciesItem>, id: &str) -> Option<u16>
    requires { length species.now ≤ 1024 }
    ensures index { result ≡ species_index id.now species.now }
    ensures within { IfSome result (λ number. number < length species.now) }
{
    match species_index(species, id) {
        None => None,
        Some(index) => Some(index as u16),
    }
}

/// The number of the move with an id.
pub(crate) fn move_number(moves: &Table<MoveItem>, id: &str) -> Option<u16>
    requires { length moves.now ≤ 1024 }
    ensures index { result ≡ move_index id.now moves.now }
    ensures within { IfSome result (λ number. number < length moves.now) }
{
    match move_index(moves, id) {
        None => None,
        Some(index) => Some(index as u16),
    }
}

/// The form of an alias, over the species and the moves.
#[derive(Drop)]
struct AliasForm<'a> {
    species: &'a Table<SpeciesItem>,
    moves: &'a Table<MoveItem>,
    ghost few_species: { length species.now ≤ 1024 },
    ghost few_moves: { length moves.now ≤ 1024 },
}

impl EntryRowForm<AliasItem> for AliasForm<'_> {
    ghost reading = { λ form before key. alias_item_in form.species.now form.moves.now before key };

    fn read(
        &self,
        alloc: Global,
        before: &Table<AliasItem>,
        key: &str,
        value: &Value,
    ) -> Result<AliasItem, Refusal> {
        alias_item(alloc, self.species, self.moves, before, key, value)
    }
}

/// The aliases of a dex.
pub(crate) fn aliases_at(
    alloc: Global,
    species: &Table<SpeciesItem>,
    moves: &Table<MoveItem>,
    value: &Value,
) -> Result<Table<AliasItem>, Refusal>
    requires few_species { length species.now ≤ 1024 }
    requires few_moves { length moves.now ≤ 1024 }
    ensures { Gives result (entries_at (codes "aliases") (λ before key. alias_item_in species.now moves.now before key) (view value.now)) }
{
    let form = AliasForm { species, moves };
    entry_rows_at(alloc, &form, value, "aliases")
}
