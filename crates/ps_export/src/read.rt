//! Reads export texts.
ghost use Rattle.std.specs.Prelude.{◌≡◌, ◌==◌, ◌<◌, ◌≤◌, false, filter, take, codes, is_some, IsTrue, IfOk, IfErr, IfSome, IfNone};
ghost use Rattle.std.specs.Prelude.{List, length, map};
ghost use Rattle.ps_base.specs.Cuts.{before_end};
ghost use Rattle.ps_packed.specs.declared.set.Set.{Set};
ghost use Rattle.ps_export.specs.Lines.{lines};
ghost use Rattle.ps_export.specs.Sheets.{start, with_line, with_lines};
ghost use Rattle.ps_export.specs.Export.{IsTeamOf, IsExport, SheetStands, SomeStands, limit_of, past_end, IsFirstFault, Refuses};

use crate::fault::ExportFault;
use crate::part::{is_nil, parts};
use crate::sheet::{Sheet, packed_of, start, with_line};
use ps_base::cut;
use ps_base::number::counted;
use ps_packed::fault::PackFault;
use ps_packed::team::{Team, read_team};
use std::alloc::{AllocError, Global};

/// The most bytes of an export text.
pub const MOST_EXPORT: usize = 8_192;

/// The team of a sheet's packed text, if that has one, with as many sets as were begun.
#[tactic(auto, using(crate::proofs::ReadLemmas::reading))]
fn team_of(alloc: Global, sheet: &Sheet) -> Result<Option<Team>, AllocError>
    ensures found { IfOk result (λ o. IfSome o (IsTeamOf sheet.now)) }
    ensures none { IfOk result (λ o. IfNone o ((team : List Set) → ¬ (IsTeamOf sheet.now team))) }
{
    let packed = packed_of(alloc, sheet)?;
    match read_team(alloc, packed.as_str()) {
        Err(PackFault::NoMemory) => Err(AllocError),
        Err(PackFault::Fault { .. }) => Ok(None),
        Ok(team) => {
            if team.sets().len() == sheet.sets {
                return Ok(Some(team));
            }
            Ok(None)
        }
    }
}

fn read_lines(alloc: Global, pieces: &[&str]) -> Result<Option<Sheet>, AllocError>
    ensures { IfOk result (λ s. s ≡ with_lines start (map (λ x. x.now) pieces.now)) }
{
    let mut sheet = start(alloc);
    for line in pieces {
        match with_line(alloc, sheet, line)? {
            None => return Ok(None),
            Some(next) => sheet = next,
        }
    }
    Ok(Some(sheet))
}

#[tactic(auto, using(crate::proofs::ReadLemmas::reading))]
fn stands(alloc: Global, sheet: &Sheet) -> Result<bool, AllocError>
    ensures yes { IfOk result (λ b. IsTrue b → SheetStands sheet.now) }
    ensures no { IfOk result (λ b. b ≡ false → ¬ (SheetStands sheet.now)) }
{
    if sheet.sets == 0 {
        return Ok(true);
    }
    match team_of(alloc, sheet)? {
        None => Ok(false),
        Some(_) => Ok(true),
    }
}

fn newlines(text: &[u8]) -> usize
    ensures { result ≡ length (filter (λ b. b == 10) text.now) }
{
    text.iter().filter(|b| **b == b'\n').count()
}

fn line_total(text: &[u8]) -> usize
    requires { length text.now ≤ 8192 }
    ensures lines { result ≡ length (lines text.now) }
    ensures few { result ≤ 8193 }
{
    newlines(text) + 1
}

fn front(text: &[u8], most: usize) -> &[u8]
    requires { most ≤ length text.now }
    ensures value { result.now ≡ take most text.now }
    ensures count { length result.now ≡ most }
{
    &text[..most]
}

#[tactic(auto, unfolding(crate::specs::Export::limit_of))]
fn limit_of(text: &[u8]) -> usize
    ensures { result ≡ limit_of text.now }
{
    if text.len() > 8_192 {
        return line_total(front(text, 8_192));
    }
    line_total(text) + 1
}

/// The sheet with one more line, if it can stand then.
#[tactic(auto, using(crate::proofs::ReadLemmas::reading))]
fn stood(alloc: Global, sheet: Sheet, line: &str) -> Result<Option<Sheet>, AllocError>
    ensures some { IfOk result (λ o. IfSome o (λ next. (with_line sheet line.now ≡ Some next) × SheetStands next)) }
    ensures none { IfOk result (λ o. IfNone o (¬ (SomeStands (with_line sheet line.now)))) }
{
    match with_line(alloc, sheet, line)? {
        None => Ok(None),
        Some(next) => {
            if stands(alloc, &next)? {
                return Ok(Some(next));
            }
            Ok(None)
        }
    }
}

fn ends_line(text: &str) -> bool
    ensures { result ≡ is_some (before_end (codes "\n") text.now) }
{
    match cut::before(text, "\n") {
        None => false,
        Some(_) => true,
    }
}

/// The number behind that of the last line.
#[tactic(auto, unfolding(crate::specs::Export::past_end), using(crate::proofs::ReadLemmas::count_of))]
fn past_end(text: &str, pieces: &[&str]) -> usize
    requires { map (λ x. x.now) pieces.now ≡ lines text.now }
    ensures { result ≡ past_end text.now }
{
    if is_nil(text) || ends_line(text) {
        return pieces.len();
    }
    pieces.len() + 1
}

fn first_fault(alloc: Global, text: &str, pieces: &[&str]) -> Result<usize, AllocError>
    requires { map (λ x. x.now) pieces.now ≡ lines text.now }
    ensures { IfOk result (λ number. IsFirstFault text.now number) }
{
    let mut sheet = start(alloc);
    let limit = limit_of(text.as_bytes());
    let mut number = 0;
    for line in pieces {
        number += 1;
        if number >= limit {
            return Ok(number);
        }
        match stood(alloc, sheet, line)? {
            None => return Ok(number),
            Some(next) => sheet = next,
        }
    }
    Ok(past_end(text, pieces))
}

#[tactic(auto, using(crate::proofs::ReadLemmas::reading))]
fn read_within(alloc: Global, text: &str, pieces: &[&str]) -> Result<Option<Team>, AllocError>
    requires { map (λ x. x.now) pieces.now ≡ lines text.now }
    ensures found { IfOk result (λ o. IfSome o (IsExport text.now)) }
    ensures none { IfOk result (λ o. IfNone o ((team : List Set) → ¬ (IsExport text.now team))) }
{
    if text.len() > MOST_EXPORT {
        return Ok(None);
    }
    match read_lines(alloc, pieces)? {
        None => Ok(None),
        Some(sheet) => team_of(alloc, &sheet),
    }
}

/// Reads a team's export text, the form in which Pokémon Showdown's teambuilder shows a team.
#[tactic(auto, using(crate::proofs::ReadLemmas::reading))]
pub fn read_export(alloc: Global, text: &str) -> Result<Team, ExportFault>
    // The team is the text's.
    ensures found { IfOk result (λ t. IsExport text.now t) }
    // The text has no other.
    ensures alone { IfOk result (λ t. (other : List Set) → IsExport text.now other → other ≡ t) }
    // A fault is the text's, which then has no team.
    ensures fault { IfErr result (Refuses text.now) }
{
    let pieces = parts(alloc, text, '\n')?;
    match read_within(alloc, text, &pieces)? {
        Some(team) => Ok(team),
        None => {
            let line = first_fault(alloc, text, &pieces)?;
            Err(ExportFault::Fault {
                line: counted(line),
            })
        }
    }
}
