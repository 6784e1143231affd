//! What a line below the first of a set says.
ghost use Rattle.std.specs.Prelude.{◌≡◌, ◌==◌, IfOk};
ghost use Rattle.std.specs.Option.{option_copied};
ghost use Rattle.std.specs.List.{list_any, list_all};
ghost use Rattle.ps_packed.specs.Canon.{level_text};
ghost use Rattle.ps_packed.specs.Forms.{is_field_char};
ghost use Rattle.ps_export.specs.Details.{said, words_text, level_after, shiny_after, evs_after, ivs_after, nature_in, is_move_name};
ghost use Rattle.ps_export.specs.Details.{move_named, unkeyed, numbered, keyed, begins_with_dash, detail_of};

use crate::part::{after_space, bare, char_count, is_nil};
use crate::spread::{evs_after, ivs_after, level_text, number_in};
use ps_base::cut;
use ps_base::id::to_id;
use ps_base::text::Text;
use std::alloc::{AllocError, Global};

/// A field of a packed set that such a line says.
#[derive(Clone, Copy)]
pub enum Key {
    Ability,
    Nature,
    Evs,
    Ivs,
    Shiny,
    Level,
    Misc,
}

/// What a line says.
#[derive(Drop)]
pub enum Detail {
    /// The text of a field, as the canonical packed text has it.
    Said(Key, Text),
    /// The id of a move.
    Move(Text),
    /// Nothing that is kept.
    Ignored,
}

fn said(key: Key, text: Option<Text>) -> Option<Detail>
    ensures { result ≡ said key text }
{
    match text {
        None => None,
        Some(text) => Some(Detail::Said(key, text)),
    }
}

fn copied(alloc: Global, text: Option<&str>) -> Result<Option<Text>, AllocError>
    ensures { IfOk result (λ t. t ≡ option_copied text.entry) }
{
    match text {
        None => Ok(None),
        Some(text) => Ok(Some(Text::copy_of(alloc, text)?)),
    }
}

fn words_text(rest: &str) -> Option<&str>
    ensures { option_copied result ≡ words_text rest.now }
{
    bare(after_space(rest))
}

fn level_after(alloc: Global, rest: &str) -> Result<Option<Text>, AllocError>
    ensures { IfOk result (λ t. t ≡ level_after rest.now) }
{
    match after_space(rest) {
        None => Ok(None),
        Some(digits) => match number_in(digits) {
            None => Ok(None),
            Some(number) => Ok(Some(level_text(alloc, number)?)),
        },
    }
}

fn shiny_after(alloc: Global, rest: &str) -> Result<Option<Text>, AllocError>
    ensures { IfOk result (λ t. t ≡ shiny_after rest.now) }
{
    if rest == " Yes" {
        return Ok(Some(Text::copy_of(alloc, "S")?));
    }
    Ok(None)
}

fn nature_in(line: &str) -> Option<&str>
    ensures { option_copied result ≡ nature_in line.now }
{
    bare(cut::before(line, " Nature"))
}

fn are_field_chars(name: &str) -> bool
    ensures { result ≡ list_all is_field_char name.now }
{
    name.as_bytes()
        .iter()
        .all(|b| *b >= b' ' && *b != b'|' && *b != b']')
}

fn move_named(alloc: Global, name: Option<&str>) -> Result<Option<Detail>, AllocError>
    ensures { IfOk result (λ d. d ≡ move_named (option_copied name.entry)) }
{
    match name {
        None => Ok(None),
        Some(name) => move_of(alloc, name),
    }
}

#[tactic(auto, unfolding(crate::specs::Details::is_move_name))]
fn move_of(alloc: Global, name: &str) -> Result<Option<Detail>, AllocError>
    ensures { IfOk result (λ d. d ≡ move_named (Some name.now)) }
{
    let id = to_id(alloc, name)?;
    if are_field_chars(name) && char_count(name) <= 32 && !is_nil(id.as_str()) {
        return Ok(Some(Detail::Move(Text::copy_of(alloc, id.as_str())?)));
    }
    Ok(None)
}

pub fn has_colon(line: &str) -> bool
    ensures { result ≡ list_any (λ b. b == 58) line.now }
{
    line.as_bytes().iter().any(|b| *b == b':')
}

#[tactic(auto, unfolding(crate::specs::Details::unkeyed))]
fn unkeyed(alloc: Global, line: &str) -> Result<Option<Detail>, AllocError>
    ensures { IfOk result (λ d. d ≡ unkeyed line.now) }
{
    if has_colon(line) {
        return Ok(Some(Detail::Ignored));
    }
    let nature = copied(alloc, nature_in(line))?;
    Ok(said(Key::Nature, nature))
}

#[tactic(auto, unfolding(crate::specs::Details::numbered))]
fn numbered(alloc: Global, line: &str) -> Result<Option<Detail>, AllocError>
    ensures { IfOk result (λ d. d ≡ numbered line.now) }
{
    if let Some(rest) = cut::after(line, "EVs:") {
        return Ok(said(Key::Evs, evs_after(alloc, rest)?));
    }
    if let Some(rest) = cut::after(line, "IVs:") {
        return Ok(said(Key::Ivs, ivs_after(alloc, rest)?));
    }
    if let Some(rest) = cut::after(line, "Level:") {
        return Ok(said(Key::Level, level_after(alloc, rest)?));
    }
    unkeyed(alloc, line)
}

#[tactic(auto, unfolding(crate::specs::Details::keyed))]
fn keyed(alloc: Global, line: &str) -> Result<Option<Detail>, AllocError>
    ensures { IfOk result (λ d. d ≡ keyed line.now) }
{
    if let Some(rest) = cut::after(line, "Ability:") {
        return Ok(said(Key::Ability, copied(alloc, words_text(rest))?));
    }
    if let Some(rest) = cut::after(line, "Shiny:") {
        return Ok(said(Key::Shiny, shiny_after(alloc, rest)?));
    }
    if let Some(rest) = cut::after(line, "Misc:") {
        return Ok(said(Key::Misc, copied(alloc, words_text(rest))?));
    }
    numbered(alloc, line)
}

pub fn begins_with_dash(line: &str) -> bool
    ensures { result ≡ begins_with_dash line.now }
{
    match line.as_bytes() {
        [] => false,
        [first, ..] => *first == b'-',
    }
}

/// What the line says, if it may stand below a first line.
#[tactic(auto, unfolding(crate::specs::Details::detail_of))]
pub fn detail_of(alloc: Global, line: &str) -> Result<Option<Detail>, AllocError>
    ensures { IfOk result (λ d. d ≡ detail_of line.now) }
{
    if begins_with_dash(line) {
        return move_named(alloc, cut::after(line, "- "));
    }
    keyed(alloc, line)
}
