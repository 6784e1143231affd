//! The dex and its lookups.
ghost use Rattle.std.specs.Prelude.{◌≡◌, ◌<◌, length, map, slice_get, IfOk, IfSome};
ghost use Rattle.ps_mon.specs.Facts.{AreFair, figures};
ghost use Rattle.ps_base.specs.Ids.{id_of};
ghost use Rattle.ps_dex.specs.Tables.{tables_of};
ghost use Rattle.ps_dex.specs.Lookups.{no_tables, species_of, move_of, is_taken, factor_of, learned_by, learns, name_of_move, built_in};
ghost use Rattle.ps_dex.specs.Figures.{factors_of_attack, factor_table, figures_of};
ghost use Rattle.ps_dex.specs.Fit.{AreFit};

use crate::aliases::{alias_index, move_number, species_number};
use crate::fault::DexFault;
use crate::item::{AliasItem, FactorItem, MoveItem, SpeciesItem, Tables, TypeItem};
use crate::moves::has_move;
use crate::number::has_number;
use crate::species::has_species;
use crate::spelled::{self, short_id};
use crate::tables::read_tables;
use crate::types::{is_contact, is_special};
use ps_base::id::Id;
use ps_base::list::List;
use ps_data::file_fault::reported;
use ps_data::table::Table;
use ps_mon::facts::{Factors, Facts, MoveData, struggle};
use std::alloc::{AllocError, Global};
use std::marker::Model;

/// What a dex file says, with what battles need of it ready to use. Contracts see what the file says.
#[derive(Debug)]
pub struct Dex {
    tables: Tables,
    numbers: Vec<MoveData>,
    factors: Factors,
    struggle: MoveData,
}

impl Model for Dex {
    ghost use Rattle.std.specs.Prelude.{◌≡◌, map};
    ghost use Rattle.ps_dex.specs.declared.item.Tables.{Tables as Said};
    ghost use Rattle.ps_dex.specs.Lookups.{built_in};
    ghost use Rattle.ps_dex.specs.Figures.{factor_table};
    ghost use Rattle.ps_dex.specs.Fit.{AreFit};

    ghost Value = { Said };

    ghost view = { λ d. d.tables };

    ghost invariant = { λ d. AreFit d.tables × (d.numbers.items ≡ map (λ m. m.numbers) d.tables.moves)
        × (d.factors ≡ factor_table d.tables.factors) × (d.struggle ≡ built_in d.tables.types) };
}

// By hand, so that whoever drops a dex has one step of its proof for that.
impl Drop for Dex {
    fn drop(self) {
        let Dex {
            tables: _,
            numbers: _,
            factors: _,
            struggle: _,
        } = self;
    }
}

fn numbers_of(alloc: Global, moves: &[MoveItem]) -> Result<Vec<MoveData>, AllocError>
    ensures { IfOk result (λ v. v.items ≡ map (λ m. m.numbers) moves.now) }
{
    let mut numbers = Vec::new(alloc);
    for item in moves {
        numbers.push(item.numbers)?;
    }
    Ok(numbers)
}

fn factor_of(items: &[FactorItem], attack: u8, defend: u8) -> u8
    ensures { result ≡ factor_of items.now attack defend }
{
    for item in items {
        if item.attack == attack && item.defend == defend {
            return item.tenths;
        }
    }
    10
}

/// The factors of one attacking type.
#[tactic(auto, unfolding(crate::specs::Figures::factors_of_attack), using(crate::proofs::FigureLemmas::listed_all))]
fn factors_of_attack(items: &[FactorItem], attack: u8) -> [u8; 32]
    ensures { result ≡ factors_of_attack items.now attack }
{
    let mut factors = [10; 32];
    for defend in 0..32 {
        factors[defend] = factor_of(items, attack, defend as u8);
    }
    factors
}

#[tactic(auto, unfolding(crate::specs::Figures::factor_table), using(crate::proofs::FigureLemmas::listed_all))]
fn factor_table(items: &[FactorItem]) -> Factors
    ensures { result ≡ factor_table items.now }
{
    let mut factors = [[10; 32]; 32];
    for attack in 0..32 {
        factors[attack] = factors_of_attack(items, attack as u8);
    }
    factors
}

fn built_in(types: &[TypeItem]) -> MoveData
    ensures { result ≡ built_in types.now }
{
    struggle(is_special(types, 0), is_contact(types, 0))
}

fn from_tables(alloc: Global, tables: Tables) -> Result<Dex, AllocError>
    requires { AreFit tables }
    ensures { IfOk result (λ d. d ≡ tables) }
{
    let numbers = numbers_of(alloc, tables.moves.as_slice())?;
    let factors = factor_table(tables.factors.as_slice());
    let struggle = built_in(tables.types.as_slice());
    Ok(Dex {
        tables,
        numbers,
        factors,
        struggle,
    })
}

// The maps find by a hash, so what has an id is looked up once: a number tells that the id is had.
#[tactic(auto, unfolding(crate::specs::Species::species_index, crate::specs::Species::has_species, crate::specs::Moves::move_index, crate::specs::Moves::has_move, ps_data::specs::OwnIds::has_id))]
fn species_of(tables: &Tables, id: &str) -> Option<u16>
    requires { AreFit tables.now }
    ensures index { result ≡ species_of id.now tables.now }
    ensures within { IfSome result (λ s. s < length tables.now.species) }
{
    if let Some(number) = species_number(&tables.species, id) {
        return Some(number);
    }
    if has_move(&tables.moves, id) {
        return None;
    }
    let aliases = tables.aliases.as_slice();
    match alias_index(&tables.aliases, id) {
        None => None,
        Some(index) => aliases[index].species,
    }
}

#[tactic(auto, unfolding(crate::specs::Species::species_index, crate::specs::Species::has_species, crate::specs::Moves::move_index, crate::specs::Moves::has_move, ps_data::specs::OwnIds::has_id))]
fn move_of(tables: &Tables, id: &str) -> Option<u16>
    requires { AreFit tables.now }
    ensures index { result ≡ move_of id.now tables.now }
    ensures within { IfSome result (λ mv. mv < length tables.now.moves) }
{
    if let Some(number) = move_number(&tables.moves, id) {
        return Some(number);
    }
    if has_species(&tables.species, id) {
        return None;
    }
    let aliases = tables.aliases.as_slice();
    match alias_index(&tables.aliases, id) {
        None => None,
        Some(index) => aliases[index].mv,
    }
}

/// As `move_of`, for the id of a text, by a walk of the tables.
fn move_walked_to(tables: &Tables, text: &str) -> Option<u16>
    requires { AreFit tables.now }
    ensures index { result ≡ move_of (id_of text.now) tables.now }
    ensures within { IfSome result (λ mv. mv < length tables.now.moves) }
{
    let moves = tables.moves.as_slice();
    if spelled::is_taken(tables.species.as_slice(), moves, text) {
        return spelled::move_number(moves, text);
    }
    let aliases = tables.aliases.as_slice();
    match spelled::alias_index(aliases, text) {
        None => None,
        Some(index) => aliases[index].mv,
    }
}

/// As `move_of`, for the id of a text. No move has an id of more than 32 bytes, and few aliases do.
fn move_named(tables: &Tables, text: &str) -> Option<u16>
    requires { AreFit tables.now }
    ensures index { result ≡ move_of (id_of text.now) tables.now }
    ensures within { IfSome result (λ mv. mv < length tables.now.moves) }
{
    match short_id(text) {
        Some(id) => move_of(tables, id.as_str()),
        None => move_walked_to(tables, text),
    }
}

/// The numbers of the moves that a species learns.
fn learned_by(species: &[SpeciesItem], number: u16) -> &[u16]
    ensures { result.now ≡ learned_by (slice_get species.now number) }
{
    match species.get(usize::from(number)) {
        None => &[],
        Some(item) => item.learns.as_slice(),
    }
}

fn name_of_move(moves: &[MoveItem], mv: u16) -> &str
    ensures { result.now ≡ name_of_move mv moves.now }
{
    match moves.get(usize::from(mv)) {
        None => "Struggle",
        Some(item) => item.name.as_str(),
    }
}

impl Dex {
    ghost use Rattle.ps_data.specs.FileFaults.{GivesFile};

    /// The dex of which nothing is said: no type, move or species. Takes no memory.
    pub fn empty(alloc: Global) -> Dex
        ensures { result ≡ no_tables }
    {
        Dex {
            tables: Tables {
                types: Table::new(alloc),
                factors: List::from_vec(Vec::new(alloc)),
                moves: Table::new(alloc),
                species: Table::new(alloc),
                aliases: Table::new(alloc),
            },
            numbers: Vec::new(alloc),
            factors: factor_table(&[]),
            struggle: built_in(&[]),
        }
    }

    /// The dex that the bytes of a dex file stand for: a JSON object with the keys `types`,
    /// `factors`, `moves`, `species` and `aliases`, each of which may be missing.
    pub fn read(alloc: Global, bytes: &[u8]) -> Result<Dex, DexFault>
        ensures { GivesFile result (tables_of bytes.now) }
    {
        match read_tables(alloc, bytes) {
            Err(refusal) => Err(reported(alloc, refusal)),
            Ok(tables) => Ok(from_tables(alloc, tables)?),
        }
    }

    /// The types, by their numbers.
    pub fn types(&self) -> &[TypeItem]
        ensures { result.now ≡ self.now.types }
    {
        self.tables.types.as_slice()
    }

    /// The moves, by their numbers.
    pub fn moves(&self) -> &[MoveItem]
        ensures { result.now ≡ self.now.moves }
    {
        self.tables.moves.as_slice()
    }

    /// All species, by their numbers.
    pub fn all_species(&self) -> &[SpeciesItem]
        ensures value { result.now ≡ self.now.species }
        // All that a dex says is in its ranges.
        ensures fit { AreFit self.now }
    {
        self.tables.species.as_slice()
    }

    /// The aliases, in byte order of their keys.
    pub fn aliases(&self) -> &[AliasItem]
        ensures { result.now ≡ self.now.aliases }
    {
        self.tables.aliases.as_slice()
    }

    /// The number of the species with an id, or of the one that an alias with it stands for. An alias
    /// with the id of a species or a move is never used.
    pub fn species(&self, id: &Id) -> Option<u16>
        ensures index { result ≡ species_of id.now self.now }
        ensures within { IfSome result (λ s. s < length self.now.species) }
    {
        species_of(&self.tables, id.as_str())
    }

    /// The number of the move with an id, or of the one that an alias with it stands for. An alias with
    /// the id of a species or a move is never used.
    pub fn move_of(&self, id: &Id) -> Option<u16>
        ensures index { result ≡ move_of id.now self.now }
        ensures within { IfSome result (λ mv. mv < length self.now.moves) }
    {
        move_of(&self.tables, id.as_str())
    }

    /// The number of the move that a text names: the one that `move_of` gives for the text's id. Takes no memory.
    pub fn move_named(&self, text: &str) -> Option<u16>
        ensures index { result ≡ move_of (id_of text.now) self.now }
        ensures within { IfSome result (λ mv. mv < length self.now.moves) }
    {
        move_named(&self.tables, text)
    }

    /// The factor of a type on a type, in tenths: 0, 5, 10 or 20. Both numbers are below 32.
    pub fn factor(&self, attack: u8, defend: u8) -> u8
        requires attack { attack < 32 }
        requires defend { defend < 32 }
        ensures { result ≡ factor_of self.now.factors attack defend }
    {
        self.factors[usize::from(attack)][usize::from(defend)]
    }

    /// Whether a species learns a move. Nothing learns what isn't a number of the dex.
    pub fn learns(&self, species: u16, mv: u16) -> bool
        ensures { result ≡ learns species mv self.now }
    {
        has_number(learned_by(self.tables.species.as_slice(), species), mv)
    }

    /// The name of a move, and `Struggle` for each number past the moves.
    pub fn move_name(&self, mv: u16) -> &str
        ensures { result.now ≡ name_of_move mv self.now.moves }
    {
        name_of_move(self.tables.moves.as_slice(), mv)
    }

    /// The numbers of the moves, the factors and Struggle.
    #[tactic(auto, unfolding(ps_mon::specs::Facts::figures, crate::specs::Figures::figures_of))]
    pub fn facts(&self) -> Facts<'_>
        ensures figures { figures result ≡ figures_of self.now }
        ensures fair { AreFair (figures result) }
    {
        Facts {
            moves: self.numbers.as_slice(),
            factors: &self.factors,
            struggle: &self.struggle,
        }
    }
}
