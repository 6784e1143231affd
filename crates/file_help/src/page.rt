//! Pages: sections of rows, written as text or as JSON.
ghost use Rattle.std.specs.Prelude.{◌≡◌, ◌++◌, ◌∷◌, [], IfOk, OnOk, codes, string_bytes};
ghost use Rattle.std.specs.List.{flat_map};
ghost use Rattle.json_text.specs.Lines.{with_tokens};
ghost use Rattle.file_help.specs.Pages.{listed, row_text, rows_text, section_text, text_page};
ghost use Rattle.file_help.specs.Pages.{row_tokens, section_tokens, page_tokens, json_page, page_of};
ghost use Rattle.json.specs.Token.{end_array, end_object};
ghost use Rattle.json.specs.Print.{print};

use json_text::json_line::JsonLine;
use ps_base::list::List;
use ps_base::text::Text;
use std::alloc::{AllocError, Global};
use std::fmt::Write;

/// What is told of one thing.
#[derive(Debug, Drop)]
pub struct Row {
    /// The thing.
    pub key: Text,
    /// What is told of it.
    pub value: Text,
}

/// Rows under a heading.
#[derive(Debug, Drop)]
pub struct Section {
    /// The heading.
    pub title: Text,
    /// The rows, in order.
    pub rows: List<Row>,
}

/// A row of these texts.
pub fn row_of(alloc: Global, key: &str, value: Text) -> Result<Row, AllocError>
    ensures { IfOk result (λ r. r ≡ record { key = key.now; value = value }) }
{
    Ok(Row {
        key: Text::copy_of(alloc, key)?,
        value,
    })
}

/// A section of this title and these rows.
pub fn section_of(alloc: Global, title: &str, rows: Vec<Row>) -> Result<Section, AllocError>
    ensures { IfOk result (λ s. s ≡ record { title = title.now; rows = rows.items }) }
{
    Ok(Section {
        title: Text::copy_of(alloc, title)?,
        rows: List::from_vec(rows),
    })
}

fn push_others(out: &mut Text, texts: &[Text]) -> Result<(), AllocError>
    ensures { OnOk result (out.new ≡ out.old ++ flat_map (λ t. codes ", " ++ t) texts.now) }
{
    for text in texts {
        out.push_str(", ")?;
        out.push_str(text.as_str())?;
    }
    Ok(())
}

/// The texts, with a comma and a space between them; `none` where there is none.
pub fn listed(alloc: Global, texts: &[Text]) -> Result<Text, AllocError>
    ensures { IfOk result (λ t. t ≡ listed texts.now) }
{
    match texts.split_first() {
        None => Text::copy_of(alloc, "none"),
        Some((first, others)) => {
            let mut out = first.copy(alloc)?;
            push_others(&mut out, others)?;
            Ok(out)
        }
    }
}

// ---- as text

fn push_row(out: &mut String, row: &Row) -> Result<(), AllocError>
    ensures { OnOk result (string_bytes out.new ≡ string_bytes out.old ++ row_text row.now) }
{
    let key = row.key.as_str();
    let value = row.value.as_str();
    writeln!(out, "  {key}: {value}")
}

fn push_each(out: &mut String, rows: &[Row]) -> Result<(), AllocError>
    ensures { OnOk result (string_bytes out.new ≡ string_bytes out.old ++ flat_map row_text rows.now) }
{
    for row in rows {
        push_row(out, row)?;
    }
    Ok(())
}

fn push_rows(out: &mut String, rows: &[Row]) -> Result<(), AllocError>
    ensures { OnOk result (string_bytes out.new ≡ string_bytes out.old ++ rows_text rows.now) }
{
    match rows {
        [] => writeln!(out, "  none"),
        _ => push_each(out, rows),
    }
}

fn push_section(out: &mut String, section: &Section) -> Result<(), AllocError>
    ensures { OnOk result (string_bytes out.new ≡ string_bytes out.old ++ section_text section.now) }
{
    let title = section.title.as_str();
    writeln!(out, "{title}")?;
    push_rows(out, section.rows.as_slice())?;
    writeln!(out)?;
    Ok(())
}

fn text_page(alloc: Global, sections: &[Section]) -> Result<String, AllocError>
    ensures { IfOk result (λ s. string_bytes s ≡ text_page sections.now) }
{
    let mut out = String::new(alloc);
    for section in sections {
        push_section(&mut out, section)?;
    }
    Ok(out)
}

// ---- as JSON

#[tactic(auto, using(json_text::proofs::LineLemmas::joined))]
fn write_row(line: &mut JsonLine, row: &Row) -> Result<(), AllocError>
    ensures { OnOk result (line.new ≡ with_tokens (row_tokens row.now) line.old) }
{
    line.open_array()?;
    line.text(row.key.as_str())?;
    line.text(row.value.as_str())?;
    line.close_array()?;
    Ok(())
}

/// The tokens of the rows, and the bracket that closes their array.
fn write_rows(line: &mut JsonLine, rows: &[Row]) -> Result<(), AllocError>
    ensures { OnOk result (line.new ≡ with_tokens (flat_map row_tokens rows.now ++ end_array ∷ []) line.old) }
{
    for row in rows {
        write_row(line, row)?;
    }
    line.close_array()?;
    Ok(())
}

#[tactic(auto, using(json_text::proofs::LineLemmas::joined))]
fn write_section(line: &mut JsonLine, section: &Section) -> Result<(), AllocError>
    ensures { OnOk result (line.new ≡ with_tokens (section_tokens section.now) line.old) }
{
    line.key(section.title.as_str())?;
    line.open_array()?;
    write_rows(line, section.rows.as_slice())?;
    Ok(())
}

/// The tokens of the sections, and the brace that closes their object.
fn write_sections(line: &mut JsonLine, sections: &[Section]) -> Result<(), AllocError>
    ensures { OnOk result (line.new ≡ with_tokens (flat_map section_tokens sections.now ++ end_object ∷ []) line.old) }
{
    for section in sections {
        write_section(line, section)?;
    }
    line.close_object()?;
    Ok(())
}

fn object_of(alloc: Global, sections: &[Section]) -> Result<String, AllocError>
    ensures { IfOk result (λ s. string_bytes s ≡ print (page_tokens sections.now)) }
{
    let mut line = JsonLine::new(alloc, "", 0)?;
    line.open_object()?;
    write_sections(&mut line, sections)?;
    Ok(line.into_string())
}

fn json_page(alloc: Global, sections: &[Section]) -> Result<String, AllocError>
    ensures { IfOk result (λ s. string_bytes s ≡ json_page sections.now) }
{
    let mut text = object_of(alloc, sections)?;
    text.push_str("\n")?;
    Ok(text)
}

/// The page as JSON or as text.
pub fn page_of(alloc: Global, as_json: bool, sections: &[Section]) -> Result<String, AllocError>
    ensures { IfOk result (λ s. string_bytes s ≡ page_of as_json sections.now) }
{
    if as_json {
        json_page(alloc, sections)
    } else {
        text_page(alloc, sections)
    }
}
