//! The sets so far, line by line.
ghost use Rattle.std.specs.Prelude.{◌≡◌, ◌+◌, ◌<◌, ◌≤◌, ◌⊎◌, IfOk, Some, None, length, map};
ghost use Rattle.std.specs.Option.{option_copied};
ghost use Rattle.ps_export.specs.Export.{IsTeamOf, SheetStands};
ghost use Rattle.ps_export.specs.Sheets.{joined_sets, start, packed_with, packed_of, opened, gone_on, detailed, with_clean, with_line};

use crate::detail::{Detail, detail_of};
use crate::draft::{Draft, set_text, with_detail};
use crate::first::draft_of;
use crate::part::{clean, is_nil};
use ps_base::text::Text;
use std::alloc::{AllocError, Global};

/// The packed text that lines spell, as far as they go.
#[derive(Drop)]
pub struct Sheet {
    /// That of the sets that are done.
    pub before: Text,
    /// How many sets were begun.
    pub sets: usize,
    /// The set that isn't done.
    pub draft: Option<Draft>,
}

/// No line.
pub fn start(alloc: Global) -> Sheet
    ensures { result ≡ start }
{
    Sheet {
        before: Text::new(alloc),
        sets: 0,
        draft: None,
    }
}

#[tactic(auto, unfolding(crate::specs::Sheets::joined_sets))]
fn joined_sets(alloc: Global, before: &Text, set: Text) -> Result<Text, AllocError>
    ensures { IfOk result (λ t. t ≡ joined_sets before.now set) }
{
    if is_nil(before.as_str()) {
        return Ok(set);
    }
    let mut whole = before.copy(alloc)?;
    whole.push_str("]")?;
    whole.push_str(set.as_str())?;
    Ok(whole)
}

fn packed_with(alloc: Global, before: &Text, draft: &Option<Draft>) -> Result<Text, AllocError>
    ensures { IfOk result (λ t. t ≡ packed_with before.now draft.now) }
{
    match draft {
        None => before.copy(alloc),
        Some(draft) => {
            let set = set_text(alloc, draft)?;
            joined_sets(alloc, before, set)
        }
    }
}

/// The packed text of the sets so far.
pub fn packed_of(alloc: Global, sheet: &Sheet) -> Result<Text, AllocError>
    ensures { IfOk result (λ t. t ≡ packed_of sheet.now) }
{
    packed_with(alloc, &sheet.before, &sheet.draft)
}

fn opened(before: Text, sets: usize, draft: Option<Draft>) -> Option<Sheet>
    ensures { result ≡ opened before sets draft }
{
    match draft {
        None => None,
        Some(draft) => {
            if sets < 6 {
                return Some(Sheet {
                    before,
                    sets: sets + 1,
                    draft: Some(draft),
                });
            }
            None
        }
    }
}

fn gone_on(before: Text, sets: usize, draft: Option<Draft>) -> Option<Sheet>
    ensures { result ≡ gone_on before sets draft }
{
    match draft {
        None => None,
        Some(draft) => Some(Sheet {
            before,
            sets,
            draft: Some(draft),
        }),
    }
}

fn detailed(
    alloc: Global,
    draft: Draft,
    detail: Option<Detail>,
) -> Result<Option<Draft>, AllocError>
    ensures { IfOk result (λ d. d ≡ detailed draft detail) }
{
    match detail {
        None => Ok(None),
        Some(detail) => with_detail(alloc, draft, detail),
    }
}

fn closed(
    alloc: Global,
    before: Text,
    sets: usize,
    draft: Option<Draft>,
) -> Result<Sheet, AllocError>
    ensures { IfOk result (λ s. s ≡ record { before = packed_with before draft; sets = sets; draft = None }) }
{
    let before = packed_with(alloc, &before, &draft)?;
    Ok(Sheet {
        before,
        sets,
        draft: None,
    })
}

fn with_clean(
    alloc: Global,
    before: Text,
    sets: usize,
    draft: Option<Draft>,
    line: &str,
) -> Result<Option<Sheet>, AllocError>
    ensures { IfOk result (λ s. s ≡ with_clean before sets draft line.now) }
{
    if let [] = line.as_bytes() {
        return Ok(Some(closed(alloc, before, sets, draft)?));
    }
    match draft {
        None => {
            let first = draft_of(alloc, line)?;
            Ok(opened(before, sets, first))
        }
        Some(draft) => {
            let detail = detail_of(alloc, line)?;
            let more = detailed(alloc, draft, detail)?;
            Ok(gone_on(before, sets, more))
        }
    }
}

/// The sheet with one more line, if that can stand there.
#[tactic(auto, unfolding(crate::specs::Sheets::with_line))]
pub fn with_line(alloc: Global, sheet: Sheet, line: &str) -> Result<Option<Sheet>, AllocError>
    ensures { IfOk result (λ s. s ≡ with_line sheet line.now) }
{
    let line = clean(alloc, line)?;
    with_clean(alloc, sheet.before, sheet.sets, sheet.draft, line.as_str())
}
