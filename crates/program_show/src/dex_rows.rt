//! What is told of a dex.
ghost use Rattle.std.specs.Prelude.{◌≡◌, ◌++◌, ◌<◌, IfOk, OnOk, decimal, map, option_copied, slice_get};
ghost use Rattle.file_help.specs.Pages.{listed};
ghost use Rattle.ps_dex.specs.Lookups.{name_of_move};
ghost use Rattle.program_show.specs.DexRows.{category, type_row, type_name, factor_text, factor_on, factors_to, factor_row};
ghost use Rattle.program_show.specs.DexRows.{all_factors, kind_word, kind_words, moves_of_kind, kind_row, accuracy_text};
ghost use Rattle.program_show.specs.DexRows.{typed_text, strength_text, manner_text, priority_word, high_word, numbers_text};
ghost use Rattle.program_show.specs.DexRows.{move_row, own_types, species_text, species_row, name_of_species, species_part};
ghost use Rattle.program_show.specs.DexRows.{move_part, parts_text, has_species_id, has_move_id, is_own, alias_text, alias_row};

use file_help::page::{Row, listed, row_of};
use ps_base::id::Id;
use ps_base::text::Text;
use ps_dex::dex::Dex;
use ps_dex::item::{AliasItem, MoveItem, SpeciesItem, TypeItem};
use ps_mon::effect::Effect;
use ps_mon::facts::MoveData;
use std::alloc::{AllocError, Global};

// ---- types

fn category(special: bool) -> &'static str
    ensures { result.now ≡ category special }
{
    if special { "special" } else { "physical" }
}

fn type_row(alloc: Global, item: &TypeItem) -> Result<Row, AllocError>
    ensures { IfOk result (λ r. r ≡ type_row item.now) }
{
    let value = Text::copy_of(alloc, category(item.special))?;
    row_of(alloc, item.name.as_str(), value)
}

fn rows_of_types(alloc: Global, types: &[TypeItem]) -> Result<Vec<Row>, AllocError>
    ensures { IfOk result (λ v. v.items ≡ map type_row types.now) }
{
    let mut rows = Vec::new(alloc);
    for item in types {
        rows.push(type_row(alloc, item)?)?;
    }
    Ok(rows)
}

/// A row for each type, which says whether it is special.
pub(crate) fn type_rows(alloc: Global, dex: &Dex) -> Result<Vec<Row>, AllocError>
    ensures { IfOk result (λ v. v.items ≡ map type_row dex.now.types) }
{
    rows_of_types(alloc, dex.types())
}

#[tactic(auto, unfolding(crate::specs::DexRows::type_name))]
fn type_name(types: &[TypeItem], number: u8) -> &str
    ensures { result.now ≡ type_name types.now number }
{
    match types.get(usize::from(number)) {
        None => "",
        Some(item) => item.name.as_str(),
    }
}

fn type_at(types: &[TypeItem], number: u8) -> Option<&TypeItem>
    ensures { option_copied result ≡ slice_get types.now number }
{
    let at = usize::from(number);
    if at < types.len() {
        Some(&types[at])
    } else {
        None
    }
}

// ---- factors

#[tactic(auto, unfolding(crate::specs::DexRows::factor_text))]
fn push_factor(
    alloc: Global,
    texts: &mut Vec<Text>,
    tenths: u8,
    item: &TypeItem,
) -> Result<(), AllocError>
    ensures { OnOk result (texts.new.items ≡ texts.old.items ++ factor_text tenths item.now) }
{
    if tenths != 10 {
        let name = item.name.as_str();
        texts.push(Text::from_string(format!(in alloc; "{name} {tenths}")?))?;
    }
    Ok(())
}

fn push_factor_on(
    alloc: Global,
    texts: &mut Vec<Text>,
    types: &[TypeItem],
    defend: u8,
    tenths: u8,
) -> Result<(), AllocError>
    ensures { OnOk result (texts.new.items ≡ texts.old.items ++ factor_on tenths (slice_get types.now defend)) }
{
    match type_at(types, defend) {
        None => Ok(()),
        Some(item) => push_factor(alloc, texts, tenths, item),
    }
}

fn factors_of(alloc: Global, dex: &Dex, attack: u8) -> Result<Text, AllocError>
    requires { attack < 32 }
    ensures { IfOk result (λ t. t ≡ listed (factors_to dex.now.types dex.now.factors attack 32)) }
{
    let mut texts = Vec::new(alloc);
    for defend in 0..32 {
        push_factor_on(
            alloc,
            &mut texts,
            dex.types(),
            defend,
            dex.factor(attack, defend),
        )?;
    }
    listed(alloc, &texts)
}

fn push_factor_row(
    alloc: Global,
    rows: &mut Vec<Row>,
    dex: &Dex,
    types: &[TypeItem],
    attack: u8,
) -> Result<(), AllocError>
    requires { attack < 32 }
    ensures { OnOk result (rows.new.items ≡ rows.old.items
        ++ factor_row dex.now.types dex.now.factors attack (slice_get types.now attack)) }
{
    match type_at(types, attack) {
        None => Ok(()),
        Some(item) => {
            let value = factors_of(alloc, dex, attack)?;
            rows.push(row_of(alloc, item.name.as_str(), value)?)?;
            Ok(())
        }
    }
}

/// A row for each type, with the types that it does another factor than 10 tenths to.
#[tactic(auto, unfolding(crate::specs::DexRows::all_factors))]
pub(crate) fn factor_rows(alloc: Global, dex: &Dex) -> Result<Vec<Row>, AllocError>
    ensures { IfOk result (λ v. v.items ≡ all_factors dex.now.types dex.now.factors) }
{
    let mut rows = Vec::new(alloc);
    for attack in 0..32 {
        push_factor_row(alloc, &mut rows, dex, dex.types(), attack)?;
    }
    Ok(rows)
}

// ---- moves

/// The names of all kinds of effect.
const KINDS: &[&str] = &[
    "plain",
    "fixed",
    "level",
    "half",
    "psywave",
    "ohko",
    "status",
    "confuse",
    "flinch",
    "boost",
    "drain",
    "dreameater",
    "recoil",
    "crash",
    "multi",
    "double",
    "explode",
    "charge",
    "recharge",
    "trap",
    "thrash",
    "bide",
    "rage",
    "counter",
    "substitute",
    "leechseed",
    "screen",
    "mist",
    "focus",
    "haze",
    "heal",
    "rest",
    "copy",
    "nothing",
];

fn kind_word(effect: Effect) -> &'static str
    ensures { result.now ≡ kind_word effect }
{
    match effect {
        Effect::Plain => "plain",
        Effect::Fixed { .. } => "fixed",
        Effect::Level => "level",
        Effect::Half => "half",
        Effect::Psywave => "psywave",
        Effect::Ohko => "ohko",
        Effect::Status { .. } => "status",
        Effect::Confuse { .. } => "confuse",
        Effect::Flinch { .. } => "flinch",
        Effect::Boost { .. } => "boost",
        Effect::Drain => "drain",
        Effect::DreamEater => "dreameater",
        Effect::Recoil { .. } => "recoil",
        Effect::Crash => "crash",
        Effect::Multi => "multi",
        Effect::Double { .. } => "double",
        Effect::Explode => "explode",
        Effect::Charge { .. } => "charge",
        Effect::Recharge => "recharge",
        Effect::Trap => "trap",
        Effect::Thrash => "thrash",
        Effect::Bide => "bide",
        Effect::Rage => "rage",
        Effect::Counter => "counter",
        Effect::Substitute => "substitute",
        Effect::LeechSeed => "leechseed",
        Effect::Screen { .. } => "screen",
        Effect::Mist => "mist",
        Effect::Focus => "focus",
        Effect::Haze => "haze",
        Effect::Heal => "heal",
        Effect::Rest => "rest",
        Effect::Copy { .. } => "copy",
        Effect::Nothing => "nothing",
    }
}

#[tactic(auto, unfolding(crate::specs::DexRows::accuracy_text))]
fn accuracy_text(alloc: Global, accuracy: u8) -> Result<Text, AllocError>
    ensures { IfOk result (λ t. t ≡ accuracy_text accuracy) }
{
    if accuracy == 0 {
        return Text::copy_of(alloc, "never misses");
    }
    Ok(Text::from_string(format!(in alloc; "accuracy {accuracy}")?))
}

#[tactic(auto, unfolding(crate::specs::DexRows::priority_word))]
fn priority_word(priority: i8) -> &'static str
    ensures { result.now ≡ priority_word priority }
{
    if priority > 0 {
        return ", acts first";
    }
    if priority < 0 {
        return ", acts last";
    }
    ""
}

fn high_word(high: bool) -> &'static str
    ensures { result.now ≡ high_word high }
{
    if high { ", often critical" } else { "" }
}

#[tactic(auto, unfolding(crate::specs::DexRows::typed_text))]
fn typed_text(
    alloc: Global,
    types: &[TypeItem],
    kind: u8,
    special: bool,
) -> Result<Text, AllocError>
    ensures { IfOk result (λ t. t ≡ typed_text types.now kind special) }
{
    let name = type_name(types, kind);
    let category = category(special);
    Ok(Text::from_string(format!(in alloc; "{name}, {category}")?))
}

#[tactic(auto, unfolding(crate::specs::DexRows::strength_text))]
fn strength_text(alloc: Global, power: u8, accuracy: u8, pp: u8) -> Result<Text, AllocError>
    ensures { IfOk result (λ t. t ≡ strength_text power accuracy pp) }
{
    let accuracy = accuracy_text(alloc, accuracy)?;
    let accuracy = accuracy.as_str();
    Ok(Text::from_string(format!(in alloc; "power {power}, {accuracy}, PP {pp}")?))
}

#[tactic(auto, unfolding(crate::specs::DexRows::manner_text))]
fn manner_text(alloc: Global, priority: i8, high: bool, effect: Effect) -> Result<Text, AllocError>
    ensures { IfOk result (λ t. t ≡ manner_text priority high effect) }
{
    let mut text = Text::copy_of(alloc, priority_word(priority))?;
    text.push_str(high_word(high))?;
    text.push_str("; ")?;
    text.push_str(kind_word(effect))?;
    Ok(text)
}

#[tactic(auto, unfolding(crate::specs::DexRows::numbers_text))]
fn numbers_text(alloc: Global, types: &[TypeItem], numbers: MoveData) -> Result<Text, AllocError>
    ensures { IfOk result (λ t. t ≡ numbers_text types.now numbers) }
{
    let strength = strength_text(alloc, numbers.power, numbers.accuracy, numbers.pp)?;
    let manner = manner_text(alloc, numbers.priority, numbers.high, numbers.effect)?;
    let mut text = typed_text(alloc, types, numbers.kind, numbers.special)?;
    text.push_str("; ")?;
    text.push_str(strength.as_str())?;
    text.push_str(manner.as_str())?;
    Ok(text)
}

fn move_row(alloc: Global, types: &[TypeItem], item: &MoveItem) -> Result<Row, AllocError>
    ensures { IfOk result (λ r. r ≡ move_row types.now item.now) }
{
    let value = numbers_text(alloc, types, item.numbers)?;
    row_of(alloc, item.name.as_str(), value)
}

fn rows_of_moves(
    alloc: Global,
    types: &[TypeItem],
    moves: &[MoveItem],
) -> Result<Vec<Row>, AllocError>
    ensures { IfOk result (λ v. v.items ≡ map (move_row types.now) moves.now) }
{
    let mut rows = Vec::new(alloc);
    for item in moves {
        rows.push(move_row(alloc, types, item)?)?;
    }
    Ok(rows)
}

/// A row for each move, with its type, its numbers and the kind of its effect.
pub(crate) fn move_rows(alloc: Global, dex: &Dex) -> Result<Vec<Row>, AllocError>
    ensures { IfOk result (λ v. v.items ≡ map (move_row dex.now.types) dex.now.moves) }
{
    rows_of_moves(alloc, dex.types(), dex.moves())
}

fn moves_of_kind(alloc: Global, moves: &[MoveItem], word: &str) -> Result<Vec<Text>, AllocError>
    ensures { IfOk result (λ v. v.items ≡ moves_of_kind moves.now word.now) }
{
    let mut names = Vec::new(alloc);
    for item in moves {
        if kind_word(item.numbers.effect) == word {
            names.push(item.name.copy(alloc)?)?;
        }
    }
    Ok(names)
}

fn kind_row(alloc: Global, moves: &[MoveItem], word: &str) -> Result<Row, AllocError>
    ensures { IfOk result (λ r. r ≡ kind_row moves.now word.now) }
{
    let names = moves_of_kind(alloc, moves, word)?;
    row_of(alloc, word, listed(alloc, &names)?)
}

fn rows_of_kinds(alloc: Global, moves: &[MoveItem], words: &[&str]) -> Result<Vec<Row>, AllocError>
    ensures { IfOk result (λ v. v.items ≡ map (λ w. kind_row moves.now w.now) words.now) }
{
    let mut rows = Vec::new(alloc);
    for word in words {
        rows.push(kind_row(alloc, moves, word)?)?;
    }
    Ok(rows)
}

#[tactic(auto, unfolding(crate::specs::DexRows::kind_words))]
fn rows_of_all_kinds(alloc: Global, moves: &[MoveItem]) -> Result<Vec<Row>, AllocError>
    ensures { IfOk result (λ v. v.items ≡ map (kind_row moves.now) kind_words) }
{
    rows_of_kinds(alloc, moves, KINDS)
}

/// A row for each kind of effect, with the moves of it.
pub(crate) fn kind_rows(alloc: Global, dex: &Dex) -> Result<Vec<Row>, AllocError>
    ensures { IfOk result (λ v. v.items ≡ map (kind_row dex.now.moves) kind_words) }
{
    rows_of_all_kinds(alloc, dex.moves())
}

// ---- species

fn own_types(types: &[u8; 2]) -> &[u8]
    ensures { result.now ≡ own_types types.now }
{
    if types[0] == types[1] {
        &types[..1]
    } else {
        types
    }
}

fn type_names(alloc: Global, types: &[TypeItem], numbers: &[u8]) -> Result<Vec<Text>, AllocError>
    ensures { IfOk result (λ v. v.items ≡ map (type_name types.now) numbers.now) }
{
    let mut names = Vec::new(alloc);
    for number in numbers {
        names.push(Text::copy_of(alloc, type_name(types, *number))?)?;
    }
    Ok(names)
}

/// A number in decimal.
pub(crate) fn decimal_text(alloc: Global, number: u8) -> Result<Text, AllocError>
    ensures { IfOk result (λ t. t ≡ decimal number) }
{
    Ok(Text::from_string(format!(in alloc; "{number}")?))
}

fn decimals(alloc: Global, numbers: &[u8]) -> Result<Vec<Text>, AllocError>
    ensures { IfOk result (λ v. v.items ≡ map decimal numbers.now) }
{
    let mut texts = Vec::new(alloc);
    for number in numbers {
        texts.push(decimal_text(alloc, *number)?)?;
    }
    Ok(texts)
}

/// The names of the moves with these numbers.
pub(crate) fn move_names(alloc: Global, dex: &Dex, numbers: &[u16]) -> Result<Vec<Text>, AllocError>
    ensures { IfOk result (λ v. v.items ≡ map (λ n. name_of_move n dex.now.moves) numbers.now) }
{
    let mut names = Vec::new(alloc);
    for number in numbers {
        names.push(Text::copy_of(alloc, dex.move_name(*number))?)?;
    }
    Ok(names)
}

fn listed_types(alloc: Global, types: &[TypeItem], numbers: &[u8]) -> Result<Text, AllocError>
    ensures { IfOk result (λ t. t ≡ listed (map (type_name types.now) numbers.now)) }
{
    let names = type_names(alloc, types, numbers)?;
    listed(alloc, &names)
}

fn listed_numbers(alloc: Global, numbers: &[u8]) -> Result<Text, AllocError>
    ensures { IfOk result (λ t. t ≡ listed (map decimal numbers.now)) }
{
    let texts = decimals(alloc, numbers)?;
    listed(alloc, &texts)
}

fn listed_moves(alloc: Global, dex: &Dex, numbers: &[u16]) -> Result<Text, AllocError>
    ensures { IfOk result (λ t. t ≡ listed (map (λ n. name_of_move n dex.now.moves) numbers.now)) }
{
    let names = move_names(alloc, dex, numbers)?;
    listed(alloc, &names)
}

#[tactic(auto, unfolding(crate::specs::DexRows::species_text))]
fn species_text(alloc: Global, dex: &Dex, species: &SpeciesItem) -> Result<Text, AllocError>
    ensures { IfOk result (λ t. t ≡ species_text dex.now.types dex.now.moves species.now) }
{
    let stats = listed_numbers(alloc, &species.stats)?;
    let moves = listed_moves(alloc, dex, species.learns.as_slice())?;
    let mut text = listed_types(alloc, dex.types(), own_types(&species.types))?;
    text.push_str("; ")?;
    text.push_str(stats.as_str())?;
    text.push_str("; learns ")?;
    text.push_str(moves.as_str())?;
    Ok(text)
}

fn species_row(alloc: Global, dex: &Dex, species: &SpeciesItem) -> Result<Row, AllocError>
    ensures { IfOk result (λ r. r ≡ species_row dex.now.types dex.now.moves species.now) }
{
    let value = species_text(alloc, dex, species)?;
    row_of(alloc, species.name.as_str(), value)
}

fn rows_of_species(
    alloc: Global,
    dex: &Dex,
    species: &[SpeciesItem],
) -> Result<Vec<Row>, AllocError>
    ensures { IfOk result (λ v. v.items ≡ map (species_row dex.now.types dex.now.moves) species.now) }
{
    let mut rows = Vec::new(alloc);
    for item in species {
        rows.push(species_row(alloc, dex, item)?)?;
    }
    Ok(rows)
}

/// A row for each species: its types, its stats and the moves that it learns.
pub(crate) fn species_rows(alloc: Global, dex: &Dex) -> Result<Vec<Row>, AllocError>
    ensures { IfOk result (λ v. v.items ≡ map (species_row dex.now.types dex.now.moves) dex.now.species) }
{
    rows_of_species(alloc, dex, dex.all_species())
}

// ---- what an id stands for

fn species_name(species: &[SpeciesItem], number: u16) -> &str
    ensures { result.now ≡ name_of_species (slice_get species.now number) }
{
    match species.get(usize::from(number)) {
        None => "",
        Some(item) => item.name.as_str(),
    }
}

fn push_species(
    alloc: Global,
    texts: &mut Vec<Text>,
    dex: &Dex,
    number: Option<u16>,
) -> Result<(), AllocError>
    ensures { OnOk result (texts.new.items ≡ texts.old.items ++ species_part dex.now.species number) }
{
    match number {
        None => Ok(()),
        Some(number) => {
            let mut text = Text::copy_of(alloc, "species ")?;
            text.push_str(species_name(dex.all_species(), number))?;
            texts.push(text)?;
            Ok(())
        }
    }
}

fn push_move(
    alloc: Global,
    texts: &mut Vec<Text>,
    dex: &Dex,
    number: Option<u16>,
) -> Result<(), AllocError>
    ensures { OnOk result (texts.new.items ≡ texts.old.items ++ move_part dex.now.moves number) }
{
    match number {
        None => Ok(()),
        Some(number) => {
            let mut text = Text::copy_of(alloc, "move ")?;
            text.push_str(dex.move_name(number))?;
            texts.push(text)?;
            Ok(())
        }
    }
}

/// The names of a species and a move, each if there is one.
pub(crate) fn parts_text(
    alloc: Global,
    dex: &Dex,
    species: Option<u16>,
    mv: Option<u16>,
) -> Result<Text, AllocError>
    ensures { IfOk result (λ t. t ≡ parts_text dex.now species mv) }
{
    let mut texts = Vec::new(alloc);
    push_species(alloc, &mut texts, dex, species)?;
    push_move(alloc, &mut texts, dex, mv)?;
    listed(alloc, &texts)
}

// ---- aliases

fn has_species_id(species: &[SpeciesItem], number: Option<u16>, id: &Id) -> bool
    ensures { result ≡ has_species_id id.now species.now number }
{
    match number {
        None => false,
        Some(number) => match species.get(usize::from(number)) {
            None => false,
            Some(item) => item.id.as_str() == id.as_str(),
        },
    }
}

fn has_move_id(moves: &[MoveItem], number: Option<u16>, id: &Id) -> bool
    ensures { result ≡ has_move_id id.now moves.now number }
{
    match number {
        None => false,
        Some(number) => match moves.get(usize::from(number)) {
            None => false,
            Some(item) => item.id.as_str() == id.as_str(),
        },
    }
}

fn is_own(dex: &Dex, id: &Id) -> bool
    ensures { result ≡ is_own id.now dex.now }
{
    if has_species_id(dex.all_species(), dex.species(id), id) {
        return true;
    }
    has_move_id(dex.moves(), dex.move_of(id), id)
}

fn alias_text(alloc: Global, dex: &Dex, alias: &AliasItem) -> Result<Text, AllocError>
    ensures { IfOk result (λ t. t ≡ alias_text dex.now alias.now) }
{
    if is_own(dex, &alias.id) {
        return Text::copy_of(alloc, "never used: a species or a move has this id");
    }
    parts_text(alloc, dex, alias.species, alias.mv)
}

fn alias_row(alloc: Global, dex: &Dex, alias: &AliasItem) -> Result<Row, AllocError>
    ensures { IfOk result (λ r. r ≡ alias_row dex.now alias.now) }
{
    let value = alias_text(alloc, dex, alias)?;
    row_of(alloc, alias.id.as_str(), value)
}

fn rows_of_aliases(alloc: Global, dex: &Dex, aliases: &[AliasItem]) -> Result<Vec<Row>, AllocError>
    ensures { IfOk result (λ v. v.items ≡ map (alias_row dex.now) aliases.now) }
{
    let mut rows = Vec::new(alloc);
    for alias in aliases {
        rows.push(alias_row(alloc, dex, alias)?)?;
    }
    Ok(rows)
}

/// A row for each alias, with the species and the move that it stands for; one that is never used says so.
pub(crate) fn alias_rows(alloc: Global, dex: &Dex) -> Result<Vec<Row>, AllocError>
    ensures { IfOk result (λ v. v.items ≡ map (alias_row dex.now) dex.now.aliases) }
{
    rows_of_aliases(alloc, dex, dex.aliases())
}
