//! What is told of a format.
ghost use Rattle.std.specs.Prelude.{◌≡◌, ◌++◌, ◌∷◌, [], ◌≤◌, IfOk, OnOk, codes, length, map};
ghost use Rattle.file_help.specs.Pages.{listed};
ghost use Rattle.program_show.specs.FormatRows.{clause_part, clause_names, ban_text, range_text, yes_or_no, table_rows};
ghost use Rattle.program_show.specs.FormatRows.{format_rows, format_section, banned_species, banned_moves, left_moves};
ghost use Rattle.program_show.specs.FormatRows.{left_row, left_part, left_rows, left_section};

use crate::dex_rows::parts_text;
use crate::rows::{push_row, push_text};
use file_help::page::{Row, Section, listed, row_of, section_of};
use ps_base::id::Id;
use ps_base::text::Text;
use ps_dex::dex::Dex;
use ps_dex::item::SpeciesItem;
use ps_dex::number::has_number;
use ps_rules::clause::Clause;
use ps_rules::table::{Format, RuleTable};
use std::alloc::{AllocError, Global};

// ---- clauses

fn push_clause(
    alloc: Global,
    names: &mut Vec<Text>,
    on: u8,
    clause: Clause,
) -> Result<(), AllocError>
    ensures { OnOk result (names.new.items ≡ names.old.items ++ clause_part on clause) }
{
    if clause.is_in(on) {
        names.push(Text::copy_of(alloc, clause.name())?)?;
    }
    Ok(())
}

/// The names of the clauses that are on.
#[tactic(auto, unfolding(crate::specs::FormatRows::clause_names))]
pub(crate) fn clause_names(alloc: Global, on: u8) -> Result<Vec<Text>, AllocError>
    ensures { IfOk result (λ v. v.items ≡ clause_names on) }
{
    let mut names = Vec::new(alloc);
    push_clause(alloc, &mut names, on, Clause::Species)?;
    push_clause(alloc, &mut names, on, Clause::Sleep)?;
    push_clause(alloc, &mut names, on, Clause::Freeze)?;
    push_clause(alloc, &mut names, on, Clause::Ohko)?;
    push_clause(alloc, &mut names, on, Clause::Evasion)?;
    push_clause(alloc, &mut names, on, Clause::Nickname)?;
    push_clause(alloc, &mut names, on, Clause::Preview)?;
    push_clause(alloc, &mut names, on, Clause::Percentage)?;
    Ok(names)
}

// ---- bans

fn ban_text(alloc: Global, dex: &Dex, id: &Id) -> Result<Text, AllocError>
    ensures { IfOk result (λ t. t ≡ ban_text dex.now id.now) }
{
    parts_text(alloc, dex, dex.species(id), dex.move_of(id))
}

fn ban_texts(alloc: Global, dex: &Dex, bans: &[Id]) -> Result<Vec<Text>, AllocError>
    ensures { IfOk result (λ v. v.items ≡ map (ban_text dex.now) bans.now) }
{
    let mut texts = Vec::new(alloc);
    for id in bans {
        texts.push(ban_text(alloc, dex, id)?)?;
    }
    Ok(texts)
}

// ---- the rows

fn range_text(alloc: Global, least: u8, greatest: u8) -> Result<Text, AllocError>
    ensures { IfOk result (λ t. t ≡ range_text least greatest) }
{
    Ok(Text::from_string(format!(in alloc; "{least} to {greatest}")?))
}

fn yes_or_no(b: bool) -> &'static str
    ensures { result.now ≡ yes_or_no b }
{
    if b { "yes" } else { "no" }
}

fn push_clauses(alloc: Global, rows: &mut Vec<Row>, on: u8) -> Result<(), AllocError>
    ensures { OnOk result (rows.new.items ≡ rows.old.items
        ++ record { key = codes "clauses"; value = listed (clause_names on) } ∷ []) }
{
    let names = clause_names(alloc, on)?;
    push_row(alloc, rows, "clauses", listed(alloc, &names)?)
}

fn push_bans(alloc: Global, rows: &mut Vec<Row>, dex: &Dex, bans: &[Id]) -> Result<(), AllocError>
    ensures { OnOk result (rows.new.items ≡ rows.old.items
        ++ record { key = codes "bans"; value = listed (map (ban_text dex.now) bans.now) } ∷ []) }
{
    let texts = ban_texts(alloc, dex, bans)?;
    push_row(alloc, rows, "bans", listed(alloc, &texts)?)
}

fn push_range(
    alloc: Global,
    rows: &mut Vec<Row>,
    key: &str,
    least: u8,
    greatest: u8,
) -> Result<(), AllocError>
    ensures { OnOk result (rows.new.items ≡ rows.old.items ++ record { key = key.now; value = range_text least greatest } ∷ []) }
{
    push_row(alloc, rows, key, range_text(alloc, least, greatest)?)
}

#[tactic(auto, unfolding(crate::specs::FormatRows::table_rows))]
fn table_rows(
    alloc: Global,
    dex: &Dex,
    name: Row,
    table: &RuleTable,
) -> Result<Vec<Row>, AllocError>
    ensures { IfOk result (λ v. v.items ≡ name ∷ table_rows dex.now table.now) }
{
    let mut rows = Vec::new(alloc);
    rows.push(name)?;
    push_clauses(alloc, &mut rows, table.clauses)?;
    push_bans(alloc, &mut rows, dex, table.bans.as_slice())?;
    push_range(alloc, &mut rows, "members", table.min, table.max)?;
    push_range(alloc, &mut rows, "levels", table.levels[0], table.levels[1])?;
    push_text(alloc, &mut rows, "rated", yes_or_no(table.rated))?;
    Ok(rows)
}

fn format_rows(alloc: Global, dex: &Dex, format: &Format) -> Result<Vec<Row>, AllocError>
    ensures { IfOk result (λ v. v.items ≡ format_rows dex.now format.now) }
{
    let name = row_of(alloc, "name", format.name.copy(alloc)?)?;
    table_rows(alloc, dex, name, &format.table)
}

fn title_of(alloc: Global, front: &str, id: &Id) -> Result<Text, AllocError>
    ensures { IfOk result (λ t. t ≡ front.now ++ id.now) }
{
    let mut title = Text::copy_of(alloc, front)?;
    title.push_str(id.as_str())?;
    Ok(title)
}

/// A format: its clauses, bans, sizes and levels.
pub(crate) fn format_section(
    alloc: Global,
    dex: &Dex,
    format: &Format,
) -> Result<Section, AllocError>
    ensures { IfOk result (λ s. s ≡ format_section dex.now format.now) }
{
    let title = title_of(alloc, "Format ", &format.id)?;
    section_of(alloc, title.as_str(), format_rows(alloc, dex, format)?)
}

// ---- what may stand in a format

fn banned_species(alloc: Global, dex: &Dex, bans: &[Id]) -> Result<Vec<u16>, AllocError>
    ensures { IfOk result (λ v. v.items ≡ banned_species dex.now bans.now) }
{
    let mut numbers = Vec::new(alloc);
    for id in bans {
        if let Some(number) = dex.species(id) {
            numbers.push(number)?;
        }
    }
    Ok(numbers)
}

fn banned_moves(alloc: Global, dex: &Dex, bans: &[Id]) -> Result<Vec<u16>, AllocError>
    ensures { IfOk result (λ v. v.items ≡ banned_moves dex.now bans.now) }
{
    let mut numbers = Vec::new(alloc);
    for id in bans {
        if let Some(number) = dex.move_of(id) {
            numbers.push(number)?;
        }
    }
    Ok(numbers)
}

fn left_moves(
    alloc: Global,
    dex: &Dex,
    banned: &[u16],
    numbers: &[u16],
) -> Result<Vec<Text>, AllocError>
    ensures { IfOk result (λ v. v.items ≡ left_moves dex.now.moves banned.now numbers.now) }
{
    let mut names = Vec::new(alloc);
    for number in numbers {
        if !has_number(banned, *number) {
            names.push(Text::copy_of(alloc, dex.move_name(*number))?)?;
        }
    }
    Ok(names)
}

fn left_row(
    alloc: Global,
    dex: &Dex,
    banned: &[u16],
    species: &SpeciesItem,
) -> Result<Row, AllocError>
    ensures { IfOk result (λ r. r ≡ left_row dex.now.moves banned.now species.now) }
{
    let names = left_moves(alloc, dex, banned, species.learns.as_slice())?;
    row_of(alloc, species.name.as_str(), listed(alloc, &names)?)
}

fn push_left(
    alloc: Global,
    rows: &mut Vec<Row>,
    dex: &Dex,
    banned_s: &[u16],
    banned_m: &[u16],
    index: u16,
    species: &SpeciesItem,
) -> Result<(), AllocError>
    ensures { OnOk result (rows.new.items ≡ rows.old.items ++ left_part dex.now.moves banned_s.now banned_m.now index species.now) }
{
    if !has_number(banned_s, index) {
        rows.push(left_row(alloc, dex, banned_m, species)?)?;
    }
    Ok(())
}

fn left_rows(
    alloc: Global,
    dex: &Dex,
    banned_s: &[u16],
    banned_m: &[u16],
    species: &[SpeciesItem],
) -> Result<Vec<Row>, AllocError>
    requires { length species.now ≤ 1024 }
    ensures { IfOk result (λ v. v.items ≡ left_rows dex.now.moves banned_s.now banned_m.now 0 species.now) }
{
    let mut rows = Vec::new(alloc);
    for index in 0..species.len() {
        push_left(
            alloc,
            &mut rows,
            dex,
            banned_s,
            banned_m,
            index as u16,
            &species[index],
        )?;
    }
    Ok(rows)
}

/// The species and the moves that may stand in a format.
pub(crate) fn left_section(alloc: Global, dex: &Dex, format: &Format) -> Result<Section, AllocError>
    ensures { IfOk result (λ s. s ≡ left_section dex.now format.now) }
{
    let bans = format.table.bans.as_slice();
    let banned_s = banned_species(alloc, dex, bans)?;
    let banned_m = banned_moves(alloc, dex, bans)?;
    let rows = left_rows(alloc, dex, &banned_s, &banned_m, dex.all_species())?;
    let title = title_of(alloc, "May stand in ", &format.id)?;
    section_of(alloc, title.as_str(), rows)
}
