//! Notes on a dex and a configuration that are in their forms.
use crate::data_file::{DataFile, open_value};
use crate::marks::{no_marks, set_mark};
use crate::rows::{Rows, Texts};
use crate::rules::{is_told, push_rulesets, source_rows, without_formats};
use crate::values::{list_under, text_under};
use file_help::page::{Row, Section, section_of};
use json_place::keys::{Note, looks_like_config, looks_like_dex, of_config, of_dex};
use ps_base::id::to_id;
use ps_base::text::Text;
use ps_dex::dex::Dex;
use ps_dex::item::{MoveItem, SpeciesItem};
use ps_outside::files::Files;
use ps_rules::clause::Clause;
use ps_rules::formats::Formats;
use ps_rules::table::{Format, RuleTable};
use serde_json::Value;
use std::alloc::{AllocError, Global};

/// What the words ask for, and what is known of the configuration besides its file.
#[derive(Clone, Copy)]
pub struct NoteWords<'a> {
    /// The format, by its name or id, if one alone is asked for.
    pub format: Option<&'a str>,
    /// The name of the dex file, if one is named.
    pub dex: Option<&'a str>,
    /// The name of the configuration's file, if one is named.
    pub config: Option<&'a str>,
    /// Whether the nonce is the default.
    pub is_default_nonce: bool,
    /// Whether the seed is the default.
    pub is_default_seed: bool,
}

/// What the files have, without what is hidden.
#[derive(Clone, Copy)]
struct Values<'a> {
    dex: Option<&'a Value>,
    config: Option<&'a Value>,
}

// ---- warnings

fn push_notes(alloc: Global, rows: &mut Rows, file: &str, notes: &[Note]) {
    for note in notes {
        let place = note.place.as_str();
        rows.keyed(format!(in alloc; "{file} {place}"), note.told.as_str());
    }
}

fn push_dex_notes(alloc: Global, rows: &mut Rows, dex: &Value) -> Result<(), AllocError> {
    if looks_like_config(dex) {
        rows.text(
            "dex file",
            "it looks like a configuration: are the files swapped?",
        );
        return Ok(());
    }
    let notes = of_dex(alloc, dex)?;
    push_notes(alloc, rows, "dex file", &notes);
    Ok(())
}

fn push_config_notes(alloc: Global, rows: &mut Rows, config: &Value) -> Result<(), AllocError> {
    if looks_like_dex(config) {
        rows.text(
            "configuration",
            "it looks like a dex file: are the files swapped?",
        );
        return Ok(());
    }
    let notes = of_config(alloc, config)?;
    push_notes(alloc, rows, "configuration", &notes);
    Ok(())
}

fn push_file_notes(
    alloc: Global,
    rows: &mut Rows,
    dex: Option<&Value>,
    config: Option<&Value>,
) -> Result<(), AllocError> {
    if let Some(value) = dex {
        push_dex_notes(alloc, rows, value)?;
    }
    if let Some(value) = config {
        push_config_notes(alloc, rows, value)?;
    }
    Ok(())
}

// A user whose secret is empty.
fn push_empty_secrets(alloc: Global, rows: &mut Rows, config: &Value) {
    if let Some(users) = list_under(Some(config), "users") {
        for i in 0..users.len() {
            if text_under(&users[i], "secret") == Some("") {
                rows.keyed(
                    format!(in alloc; "configuration users[{i}].secret"),
                    "it is empty: anybody can take the name",
                );
            }
        }
    }
}

fn push_defaults(rows: &mut Rows, words: NoteWords<'_>) {
    if words.is_default_nonce {
        rows.text(
            "configuration nonce",
            "the default: a proof of who a user is may serve at another server, too",
        );
    }
    if words.is_default_seed {
        rows.text(
            "configuration seed",
            "the default: whoever knows it foretells the draws of battles",
        );
    }
}

// ---- formats that nobody can play

// Whether some of these moves isn't marked.
fn has_unmarked(numbers: &[u16], marks: &[bool]) -> bool {
    for number in numbers {
        if marks.get(usize::from(*number)) == Some(&false) {
            return true;
        }
    }
    false
}

fn set_bans(dex: &Dex, table: &RuleTable, species: &mut [bool], moves: &mut [bool]) {
    for id in table.bans.as_slice() {
        set_mark(species, dex.species(id));
        set_mark(moves, dex.move_of(id));
    }
}

fn count_unbanned(items: &[SpeciesItem], species: &[bool], moves: &[bool]) -> usize {
    let mut count = 0usize;
    for (item, is_banned) in items.iter().zip(species) {
        if !*is_banned && has_unmarked(item.learns.as_slice(), moves) {
            count = count.saturating_add(1);
        }
    }
    count
}

// How many species are left that learn a move that is left.
fn count_left(alloc: Global, dex: &Dex, table: &RuleTable) -> Result<usize, AllocError> {
    let mut species = no_marks(alloc, dex.all_species().len())?;
    let mut moves = no_marks(alloc, dex.moves().len())?;
    set_bans(dex, table, &mut species, &mut moves);
    Ok(count_unbanned(dex.all_species(), &species, &moves))
}

// Ranges that nothing is in.
fn push_turned(rows: &mut Rows, key: &str, table: &RuleTable) {
    if table.min > table.max {
        rows.text(key, "nobody can play it: `min` is above `max`");
    }
    if table.levels[0] > table.levels[1] {
        rows.text(key, "nobody can play it: `levels` is turned round");
    }
}

// Of how many species are left.
fn push_left(rows: &mut Rows, key: &str, table: &RuleTable, left: usize) {
    if left == 0 {
        rows.text(
            key,
            "nobody can play it: no species is left that learns a move that is left",
        );
    } else if Clause::Species.is_in(table.clauses) && left < usize::from(table.min) {
        rows.text(
            key,
            "nobody can play it: fewer species are left than `min`, and none may stand twice",
        );
    }
}

fn push_unplayable(
    alloc: Global,
    rows: &mut Rows,
    dex: &Dex,
    format: &Format,
) -> Result<(), AllocError> {
    let left = count_left(alloc, dex, &format.table)?;
    let id = format.id.as_str();
    let key = format!(in alloc; "format {id}")?;
    push_turned(rows, key.as_str(), &format.table);
    push_left(rows, key.as_str(), &format.table, left);
    Ok(())
}

// ---- moves and species that nobody can use

fn mark_learned(marks: &mut [bool], numbers: &[u16]) {
    for number in numbers {
        set_mark(marks, Some(*number));
    }
}

fn unmarked_names(
    alloc: Global,
    moves: &[MoveItem],
    marks: &[bool],
) -> Result<Vec<Text>, AllocError> {
    let mut names = Texts::new(alloc);
    for (item, is_learned) in moves.iter().zip(marks) {
        if !*is_learned {
            names.add(item.name.as_str());
        }
    }
    names.into_vec()
}

fn unlearned(alloc: Global, dex: &Dex) -> Result<Vec<Text>, AllocError> {
    let mut marks = no_marks(alloc, dex.moves().len())?;
    for species in dex.all_species() {
        mark_learned(&mut marks, species.learns.as_slice());
    }
    unmarked_names(alloc, dex.moves(), &marks)
}

fn without_moves(alloc: Global, species: &[SpeciesItem]) -> Result<Vec<Text>, AllocError> {
    let mut names = Texts::new(alloc);
    for item in species {
        if item.learns.as_slice().is_empty() {
            names.add(item.name.as_str());
        }
    }
    names.into_vec()
}

fn push_named(rows: &mut Rows, key: &str, names: &[Text]) {
    if !names.is_empty() {
        rows.listed(key, names);
    }
}

// ---- all of them

fn push_unlearned(alloc: Global, rows: &mut Rows, dex: &Dex) -> Result<(), AllocError> {
    let unlearned = unlearned(alloc, dex)?;
    push_named(rows, "moves that nobody learns", &unlearned);
    Ok(())
}

fn push_without_moves(alloc: Global, rows: &mut Rows, dex: &Dex) -> Result<(), AllocError> {
    let without = without_moves(alloc, dex.all_species())?;
    push_named(rows, "species without moves", &without);
    Ok(())
}

// What is wrong with no single format.
fn push_general(
    alloc: Global,
    rows: &mut Rows,
    dex: &Dex,
    formats: &Formats,
    sets: &Formats,
    words: NoteWords<'_>,
    config: Option<&Value>,
) -> Result<(), AllocError> {
    if let Some(value) = config {
        push_empty_secrets(alloc, rows, value);
        push_defaults(rows, words);
        push_rulesets(alloc, rows, formats, sets, value)?;
    }
    push_unlearned(alloc, rows, dex)?;
    push_without_moves(alloc, rows, dex)
}

fn push_warnings(
    alloc: Global,
    rows: &mut Rows,
    dex: &Dex,
    formats: &Formats,
    sets: &Formats,
    words: NoteWords<'_>,
    only: Option<&Format>,
    values: Values<'_>,
) -> Result<(), AllocError> {
    push_file_notes(alloc, rows, values.dex, values.config)?;
    if only.is_none() {
        push_general(alloc, rows, dex, formats, sets, words, values.config)?;
    }
    for format in formats.list() {
        if is_told(format, only) {
            push_unplayable(alloc, rows, dex, format)?;
        }
    }
    Ok(())
}

fn warning_rows(
    alloc: Global,
    dex: &Dex,
    formats: &Formats,
    sets: &Formats,
    words: NoteWords<'_>,
    only: Option<&Format>,
    values: Values<'_>,
) -> Result<Vec<Row>, AllocError> {
    let mut rows = Rows::new(alloc);
    push_warnings(alloc, &mut rows, dex, formats, sets, words, only, values)?;
    rows.into_vec()
}

// The format of this name or id, if the words name one.
fn format_of<'a>(
    alloc: Global,
    formats: &'a Formats,
    name: Option<&str>,
) -> Result<Option<&'a Format>, AllocError> {
    let Some(name) = name else {
        return Ok(None);
    };
    let id = to_id(alloc, name)?;
    Ok(formats.format(&id))
}

fn push_section(
    alloc: Global,
    sections: &mut Vec<Section>,
    title: &str,
    rows: Vec<Row>,
) -> Result<(), AllocError> {
    sections.push(section_of(alloc, title, rows)?)?;
    Ok(())
}

fn push_sections(
    alloc: Global,
    sections: &mut Vec<Section>,
    dex: &Dex,
    formats: &Formats,
    sets: &Formats,
    words: NoteWords<'_>,
    values: Values<'_>,
) -> Result<(), AllocError> {
    let only = format_of(alloc, formats, words.format)?;
    if let Some(value) = values.config {
        let rows = source_rows(alloc, formats, sets, only, value)?;
        push_section(
            alloc,
            sections,
            "Clauses and the rules that put them on",
            rows,
        )?;
    }
    let rows = warning_rows(alloc, dex, formats, sets, words, only, values)?;
    push_section(alloc, sections, "Warnings", rows)
}

// Over the rulesets without formats, or over all if they aren't in their form.
fn sections_over(
    alloc: Global,
    dex: &Dex,
    formats: &Formats,
    sets: &Formats,
    words: NoteWords<'_>,
    values: Values<'_>,
) -> Result<Vec<Section>, AllocError> {
    let mut sections = Vec::new(alloc);
    push_sections(alloc, &mut sections, dex, formats, sets, words, values)?;
    Ok(sections)
}

fn alone_of(
    alloc: Global,
    dex: &Dex,
    config: Option<&Value>,
) -> Result<Option<Formats>, AllocError> {
    match config {
        None => Ok(None),
        Some(value) => without_formats(alloc, dex, value),
    }
}

fn sections_of(
    alloc: Global,
    dex: &Dex,
    formats: &Formats,
    words: NoteWords<'_>,
    values: Values<'_>,
) -> Result<Vec<Section>, AllocError> {
    match alone_of(alloc, dex, values.config)? {
        None => sections_over(alloc, dex, formats, formats, words, values),
        Some(sets) => sections_over(alloc, dex, formats, &sets, words, values),
    }
}

/// Further sections on files that are in their forms: by which rule each clause of a format is on, and warnings. With a format
/// they speak of that one and of keys alone. Each file is read once more.
pub fn notes<F: Files>(
    alloc: Global,
    dex: &Dex,
    formats: &Formats,
    words: NoteWords<'_>,
    files: &mut F,
) -> Result<Vec<Section>, AllocError> {
    let dex_file = DataFile {
        name: words.dex,
        is_dex: true,
    };
    let config_file = DataFile {
        name: words.config,
        is_dex: false,
    };
    let dex_value = open_value(alloc, files, dex_file)?;
    let config_value = open_value(alloc, files, config_file)?;
    let values = Values {
        dex: dex_value.as_ref(),
        config: config_value.as_ref(),
    };
    sections_of(alloc, dex, formats, words, values)
}
