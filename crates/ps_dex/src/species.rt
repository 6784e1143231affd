//! Reads species.
ghost use Rattle.std.specs.Prelude.{◌≡◌, ◌≤◌, ◌<◌, true, not, [], codes, length, map, IfOk, IfSome};
ghost use Rattle.serde_json.specs.View.{view};
ghost use Rattle.ps_data.specs.OwnIds.{IsNew};
ghost use Rattle.ps_data.specs.Reading.{Gives, GivesBy, required};
ghost use Rattle.ps_data.specs.Lists.{each, list_at};
ghost use Rattle.ps_dex.specs.Species.{species_index, has_species, other_type_in, one_type_in, two_types_in, types_of, types_in};
ghost use Rattle.ps_dex.specs.Species.{base_stat_in, five_stats_in, stats_of, stats_in, has_number, learned_in, learns_in};
ghost use Rattle.ps_dex.specs.Species.{species_item_in};

use crate::item::{MoveItem, SpeciesItem, TypeItem};
use crate::moves::move_index;
use crate::name::{Named, own_name_at};
use crate::number::is_among;
use crate::types::named_type;
use indexmap::IndexSet;
use ps_base::id::to_id;
use ps_base::list::List;
use ps_data::fault::{DataKind, Refusal, refused};
use ps_data::forms::{array, ensure, found, number, object, text};
use ps_data::keys::{at_index, at_key, items_at_key, required};
use ps_data::rows::{RowForm, rows_at};
use ps_data::table::Table;
use serde_json::Value;
use std::alloc::Global;

#[tactic(auto, unfolding(crate::specs::Species::species_index))]
pub(crate) fn species_index(species: &Table<SpeciesItem>, id: &str) -> Option<usize>
    ensures index { result ≡ species_index id.now species.now }
    ensures within { IfSome result (λ i. i < length species.now) }
{
    species.index_of(id)
}

#[tactic(auto, unfolding(crate::specs::Species::has_species))]
pub(crate) fn has_species(species: &Table<SpeciesItem>, id: &str) -> bool
    ensures { result ≡ has_species id.now species.now }
{
    species.has_id(id)
}

#[tactic(auto, unfolding(crate::specs::Species::other_type_in))]
fn other_type(
    alloc: Global,
    types: &Table<TypeItem>,
    first: u8,
    value: &Value,
) -> Result<u8, Refusal>
    requires { length types.now ≤ 32 }
    ensures { Gives result (other_type_in types.now first (view value.now)) }
{
    let second = named_type(alloc, types, value)?;
    ensure(alloc, second != first, DataKind::Repeat)?;
    Ok(second)
}

#[tactic(auto, unfolding(crate::specs::Species::one_type_in))]
fn one_type(alloc: Global, types: &Table<TypeItem>, only: &Value) -> Result<[u8; 2], Refusal>
    requires { length types.now ≤ 32 }
    ensures { Gives result (one_type_in types.now (view only.now)) }
{
    let only = at_index(0, named_type(alloc, types, only))?;
    Ok([only, only])
}

#[tactic(auto, unfolding(crate::specs::Species::two_types_in))]
fn two_types(
    alloc: Global,
    types: &Table<TypeItem>,
    first: &Value,
    second: &Value,
) -> Result<[u8; 2], Refusal>
    requires { length types.now ≤ 32 }
    ensures { Gives result (two_types_in types.now (view first.now) (view second.now)) }
{
    let first = at_index(0, named_type(alloc, types, first))?;
    let second = at_index(1, other_type(alloc, types, first, second))?;
    Ok([first, second])
}

fn types_of(alloc: Global, types: &Table<TypeItem>, values: &[Value]) -> Result<[u8; 2], Refusal>
    requires { length types.now ≤ 32 }
    ensures { Gives result (types_of types.now (map view values.now)) }
{
    match values {
        [only] => one_type(alloc, types, only),
        [first, second] => two_types(alloc, types, first, second),
        _ => Err(refused(alloc, DataKind::Range)),
    }
}

#[tactic(auto, unfolding(crate::specs::Species::types_in))]
fn own_types(alloc: Global, types: &Table<TypeItem>, value: &Value) -> Result<[u8; 2], Refusal>
    requires { length types.now ≤ 32 }
    ensures { Gives result (types_in types.now (view value.now)) }
{
    let values = array(alloc, value)?;
    types_of(alloc, types, values)
}

fn base_stat(alloc: Global, index: usize, value: &Value) -> Result<u8, Refusal>
    ensures { Gives result (base_stat_in index (view value.now)) }
{
    let n = at_index(index, number(alloc, value, 1, 255))?;
    Ok(n as u8)
}

#[tactic(auto, unfolding(crate::specs::Species::five_stats_in))]
fn five_stats(
    alloc: Global,
    hp: &Value,
    attack: &Value,
    defense: &Value,
    special: &Value,
    speed: &Value,
) -> Result<[u8; 5], Refusal>
    ensures { Gives result (five_stats_in (view hp.now) (view attack.now) (view defense.now) (view special.now) (view speed.now)) }
{
    let hp = base_stat(alloc, 0, hp)?;
    let attack = base_stat(alloc, 1, attack)?;
    let defense = base_stat(alloc, 2, defense)?;
    let special = base_stat(alloc, 3, special)?;
    let speed = base_stat(alloc, 4, speed)?;
    Ok([hp, attack, defense, special, speed])
}

fn stats_of(alloc: Global, values: &[Value]) -> Result<[u8; 5], Refusal>
    ensures { Gives result (stats_of (map view values.now)) }
{
    match values {
        [hp, attack, defense, special, speed] => {
            five_stats(alloc, hp, attack, defense, special, speed)
        }
        _ => Err(refused(alloc, DataKind::Range)),
    }
}

#[tactic(auto, unfolding(crate::specs::Species::stats_in))]
fn stats(alloc: Global, value: &Value) -> Result<[u8; 5], Refusal>
    ensures { Gives result (stats_in (view value.now)) }
{
    let values = array(alloc, value)?;
    stats_of(alloc, values)
}

#[tactic(auto, unfolding(crate::specs::Species::learned_in))]
fn learned(
    alloc: Global,
    moves: &Table<MoveItem>,
    before: &IndexSet<u16>,
    value: &Value,
) -> Result<u16, Refusal>
    requires { length moves.now ≤ 1024 }
    ensures gives { Gives result (learned_in moves.now before.now.keys (view value.now)) }
    ensures new { IfOk result (λ mv. not (has_number mv before.now.keys) ≡ true) }
{
    let text = text(alloc, value)?;
    let id = to_id(alloc, text)?;
    let index = found(alloc, move_index(moves, id.as_str()), DataKind::Unknown)?;
    let mv = index as u16;
    ensure(alloc, !is_among(before, mv), DataKind::Repeat)?;
    Ok(mv)
}

/// The numbers of the moves that the items of a list name, in order. A set finds the ones that come twice.
fn each_learned(
    alloc: Global,
    moves: &Table<MoveItem>,
    values: &[Value],
) -> Result<IndexSet<u16>, Refusal>
    requires { length moves.now ≤ 1024 }
    ensures { GivesBy (λ set. set.keys) result (each (λ before after. learned_in moves.now before) [] (map view values.now)) }
{
    let mut learns = IndexSet::with_capacity(alloc, values.len())?;
    for i in 0..values.len() {
        let mv = at_index(i, learned(alloc, moves, &learns, &values[i]))?;
        learns.insert(mv)?;
    }
    Ok(learns)
}

#[tactic(auto, unfolding(crate::specs::Species::learns_in))]
fn learns(alloc: Global, moves: &Table<MoveItem>, value: &Value) -> Result<Vec<u16>, Refusal>
    requires { length moves.now ≤ 1024 }
    ensures { GivesBy (λ v. v.items) result (learns_in moves.now (view value.now)) }
{
    let values = array(alloc, value)?;
    let learns = each_learned(alloc, moves, values)?;
    Ok(learns.as_slice().to_vec(alloc)?)
}

fn learns_at(alloc: Global, moves: &Table<MoveItem>, value: &Value) -> Result<List<u16>, Refusal>
    requires { length moves.now ≤ 1024 }
    ensures { Gives result (required (codes "learns") (learns_in moves.now) (view value.now)) }
{
    let inside = required(alloc, value, "learns")?;
    let learns = items_at_key(alloc, "learns", learns(alloc, moves, inside))?;
    Ok(List::from_vec(learns))
}

#[tactic(auto, unfolding(crate::specs::Species::species_item_in))]
fn species_item(
    alloc: Global,
    types: &Table<TypeItem>,
    moves: &Table<MoveItem>,
    before: &Table<SpeciesItem>,
    value: &Value,
) -> Result<SpeciesItem, Refusal>
    requires few_types { length types.now ≤ 32 }
    requires few_moves { length moves.now ≤ 1024 }
    ensures gives { Gives result (species_item_in types.now moves.now before.now (view value.now)) }
    ensures new { IfOk result (λ item. IsNew (λ s. s.id) item.id before.now) }
{
    object(alloc, value)?;
    let named = own_name_at(alloc, before, value)?;
    let types = at_key(
        alloc,
        "types",
        own_types(alloc, types, required(alloc, value, "types")?),
    )?;
    let stats = at_key(
        alloc,
        "stats",
        stats(alloc, required(alloc, value, "stats")?),
    )?;
    let learns = learns_at(alloc, moves, value)?;
    let Named { name, id } = named;
    Ok(SpeciesItem {
        name,
        id,
        types,
        stats,
        learns,
    })
}

/// The form of a species, over the types and the moves.
#[derive(Drop)]
struct SpeciesForm<'a> {
    types: &'a Table<TypeItem>,
    moves: &'a Table<MoveItem>,
    ghost few_types: { length types.now ≤ 32 },
    ghost few_moves: { length moves.now ≤ 1024 },
}

impl RowForm<SpeciesItem> for SpeciesForm<'_> {
    ghost reading = { λ form before after. species_item_in form.types.now form.moves.now before };

    fn read(
        &self,
        alloc: Global,
        before: &Table<SpeciesItem>,
        _after: &[Value],
        value: &Value,
    ) -> Result<SpeciesItem, Refusal> {
        species_item(alloc, self.types, self.moves, before, value)
    }
}

/// The species of a dex: at most 1,024.
pub(crate) fn species_at(
    alloc: Global,
    types: &Table<TypeItem>,
    moves: &Table<MoveItem>,
    value: &Value,
) -> Result<Table<SpeciesItem>, Refusal>
    requires few_types { length types.now ≤ 32 }
    requires few_moves { length moves.now ≤ 1024 }
    ensures gives { Gives result (list_at (codes "species") 0 1024 (λ before after. species_item_in types.now moves.now before)
        (view value.now)) }
    ensures few { IfOk result (λ species. length species ≤ 1024) }
{
    let form = SpeciesForm { types, moves };
    rows_at(alloc, &form, 0, 1024, value, "species")
}
