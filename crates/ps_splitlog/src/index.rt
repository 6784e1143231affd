//! Where the logged lines of a log stand.
ghost use Rattle.std.specs.Prelude.{◌≡◌, ◌-◌, ◌++◌, ◌∷◌, [], length, take, get_or, OnOk, OnErr};
ghost use Rattle.std.specs.Option.{option_copied};
ghost use Rattle.ps_splitlog.specs.Indices.{line_indices_in, line_at};

use crate::entry::LogEntry;
use crate::stored::{Stored, is_logged_line};
use std::alloc::{AllocError, Global};

/// Where a logged line stands: in which entry, and which of its lines it is.
#[derive(Clone, Copy, Debug, PartialEq, Eq)]
pub(crate) struct LineIndex {
    pub(crate) entry: usize,
    pub(crate) line: usize,
}

/// What is looked up in a log without a walk of it.
#[derive(Debug, Drop)]
pub(crate) struct Index {
    /// How many lines were logged before each entry.
    pub(crate) starts: Vec<usize>,
    /// The indices of all logged lines, in order.
    pub(crate) line_indices: Vec<LineIndex>,
}

// Puts the line's index behind the others, where it is logged. Where memory fails nothing changes.
fn push_line_index(
    line_indices: &mut Vec<LineIndex>,
    entry: usize,
    line: usize,
    stored: &Stored,
) -> Result<(), AllocError>
    ensures ok { OnOk result (line_indices.new.items ≡ line_indices.old.items ++ line_indices_in entry line (stored.now ∷ [])) }
    ensures err { OnErr result (line_indices.new.items ≡ line_indices.old.items) }
{
    if is_logged_line(stored) {
        line_indices.push(LineIndex { entry, line })?;
    }
    Ok(())
}

// Puts the indices of an entry's logged lines behind the others. Where memory fails nothing changes.
fn push_line_indices(
    line_indices: &mut Vec<LineIndex>,
    entry: usize,
    lines: &[Stored],
) -> Result<(), AllocError>
    ensures ok { OnOk result (line_indices.new.items ≡ line_indices.old.items ++ line_indices_in entry 0 lines.now) }
    ensures err { OnErr result (line_indices.new.items ≡ line_indices.old.items) }
{
    let before = line_indices.len();
    for line in 0..lines.len() {
        if let Err(e) = push_line_index(line_indices, entry, line, &lines[line]) {
            line_indices.truncate(before);
            return Err(e);
        }
    }
    Ok(())
}

/// Nothing. Takes no memory.
pub(crate) fn none(alloc: Global) -> Index
    ensures starts { result.starts.items ≡ [] }
    ensures line_indices { result.line_indices.items ≡ [] }
{
    Index {
        starts: Vec::new(alloc),
        line_indices: Vec::new(alloc),
    }
}

// How many items more a list takes that can't double.
const CHUNK: usize = 1024;

/// Makes room for so many items more: for as many as a list takes at once when it grows, or, if there is no memory for that, for a few
/// more than these, or for these alone.
pub(crate) fn reserve_more<T>(list: &mut Vec<T>, count: usize) -> Result<(), AllocError>
    ensures { list.new.items ≡ list.old.items }
{
    if list.reserve(count).is_ok() || list.reserve_exact(count.saturating_add(CHUNK)).is_ok() {
        return Ok(());
    }
    list.reserve_exact(count)
}

/// Makes room for so many entries more, of one logged line each.
pub(crate) fn reserve(index: &mut Index, count: usize) -> Result<(), AllocError>
    ensures starts { index.new.starts.items ≡ index.old.starts.items }
    ensures line_indices { index.new.line_indices.items ≡ index.old.line_indices.items }
{
    reserve_more(&mut index.starts, count)?;
    reserve_more(&mut index.line_indices, count)?;
    Ok(())
}

/// Notes a further entry. Where memory fails nothing changes.
pub(crate) fn note(index: &mut Index, entry: usize, lines: &[Stored]) -> Result<(), AllocError>
    ensures starts { OnOk result (index.new.starts.items ≡ index.old.starts.items ++ length index.old.line_indices.items ∷ []) }
    ensures line_indices { OnOk result (index.new.line_indices.items ≡ index.old.line_indices.items ++ line_indices_in entry 0 lines.now) }
    ensures err_starts { OnErr result (index.new.starts.items ≡ index.old.starts.items) }
    ensures err_line_indices { OnErr result (index.new.line_indices.items ≡ index.old.line_indices.items) }
{
    let before = index.line_indices.len();
    index.starts.reserve(1)?;
    push_line_indices(&mut index.line_indices, entry, lines)?;
    index.starts.push(before).unwrap();
    Ok(())
}

/// Forgets the last entry. Takes no memory.
pub(crate) fn forget(index: &mut Index)
    ensures starts { index.new.starts.items ≡ take (length index.old.starts.items - 1) index.old.starts.items }
    ensures line_indices { index.new.line_indices.items
        ≡ take (get_or index.old.starts.items (length index.old.starts.items - 1) 0) index.old.line_indices.items }
{
    let rest = index.starts.len().saturating_sub(1);
    let before = match index.starts.get(rest) {
        None => 0,
        Some(start) => *start,
    };
    index.line_indices.truncate(before);
    index.starts.truncate(rest);
}

fn before(line_indices: &[LineIndex], start: usize) -> &[LineIndex]
    ensures { result.now ≡ take start line_indices.now }
{
    if start < line_indices.len() {
        &line_indices[..start]
    } else {
        line_indices
    }
}

/// The indices of the lines that were logged before an entry.
pub(crate) fn line_indices_before(index: &Index, entry: usize) -> &[LineIndex]
    ensures { result.now ≡ take (get_or index.now.starts.items entry 0) index.now.line_indices.items }
{
    match index.starts.get(entry) {
        None => &[],
        Some(start) => before(index.line_indices.as_slice(), *start),
    }
}

/// The line at an index.
pub(crate) fn line_at(entries: &[LogEntry], line_index: LineIndex) -> Option<&Stored>
    ensures { option_copied result ≡ line_at entries.now line_index }
{
    match entries.get(line_index.entry) {
        None => None,
        Some(log_entry) => log_entry.lines.as_slice().get(line_index.line),
    }
}
