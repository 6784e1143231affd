//! What a connection is sent of the entries of a log.
ghost use Rattle.std.specs.Prelude.{◌≡◌, ◌++◌, ◌∷◌, [], take, drop, map, get_or, IfOk, OnOk};
ghost use Rattle.std.specs.Option.{option_copied, option_to_list};
ghost use Rattle.ps_splitlog.specs.Lines.{shown_lines};
ghost use Rattle.ps_splitlog.specs.Entries.{changed, logged_lines, size_of_keep, last_of, join_for, message_of, message_at};
ghost use Rattle.ps_splitlog.specs.Reads.{messages_of, role_past};
ghost use Rattle.ps_base.specs.Messages.{sent, msg_lines};
ghost use Rattle.ps_splitlog.specs.Indices.{shown_at, IsIndex};

use crate::backlog::BacklogSize;
use crate::entry::{Joined, LogEntry};
use crate::index::{Index, LineIndex, line_at, line_indices_before};
use crate::stored::{Stored, shown};
use ps_base::list::List;
use ps_base::msg::{Msg, push_message};
use ps_base::number::ConnNo;
use ps_base::text::{Text, push_copies, push_copy};
use ps_view::role::Role;
use std::alloc::{AllocError, Global};

pub(crate) fn push_tail(
    alloc: Global,
    texts: &mut Vec<Text>,
    tail: &Option<Text>,
) -> Result<(), AllocError>
    ensures { OnOk result (texts.new.items ≡ texts.old.items ++ option_to_list tail.now) }
{
    match tail {
        None => Ok(()),
        Some(text) => {
            push_copy(alloc, texts, text)?;
            Ok(())
        }
    }
}

// Puts the line's text behind the others, where a connection in this role is shown it.
pub(crate) fn push_shown(
    alloc: Global,
    texts: &mut Vec<Text>,
    conn: ConnNo,
    role: Role,
    line: &Stored,
) -> Result<(), AllocError>
    ensures { OnOk result (texts.new.items ≡ texts.old.items ++ shown_lines conn role (line.now ∷ [])) }
{
    match shown(conn, role, line) {
        None => Ok(()),
        Some(text) => {
            push_copy(alloc, texts, text)?;
            Ok(())
        }
    }
}

fn push_shown_lines(
    alloc: Global,
    texts: &mut Vec<Text>,
    conn: ConnNo,
    role: Role,
    lines: &[Stored],
) -> Result<(), AllocError>
    ensures { OnOk result (texts.new.items ≡ texts.old.items ++ shown_lines conn role lines.now) }
{
    for line in lines {
        push_shown(alloc, texts, conn, role, line)?;
    }
    Ok(())
}

// The same for the line at an index.
fn push_shown_at(
    alloc: Global,
    texts: &mut Vec<Text>,
    conn: ConnNo,
    role: Role,
    entries: &[LogEntry],
    line_index: LineIndex,
) -> Result<(), AllocError>
    ensures { OnOk result (texts.new.items ≡ texts.old.items ++ shown_at conn role entries.now (line_index ∷ [])) }
{
    match line_at(entries, line_index) {
        None => Ok(()),
        Some(line) => {
            push_shown(alloc, texts, conn, role, line)?;
            Ok(())
        }
    }
}

fn push_all_shown_at(
    alloc: Global,
    texts: &mut Vec<Text>,
    conn: ConnNo,
    role: Role,
    entries: &[LogEntry],
    line_indices: &[LineIndex],
) -> Result<(), AllocError>
    ensures { OnOk result (texts.new.items ≡ texts.old.items ++ shown_at conn role entries.now line_indices.now) }
{
    for i in 0..line_indices.len() {
        push_shown_at(alloc, texts, conn, role, entries, line_indices[i])?;
    }
    Ok(())
}

// The last of these indices, as many as a size says.
fn last_of(size: BacklogSize, line_indices: &[LineIndex]) -> &[LineIndex]
    ensures { result.now ≡ last_of size line_indices.now }
{
    match size {
        BacklogSize::All => line_indices,
        BacklogSize::Last(count) => {
            let first = line_indices.len().saturating_sub(count as usize);
            &line_indices[first..]
        }
    }
}

// What who joins by an entry is sent, where these lines were logged before.
fn init(
    alloc: Global,
    conn: ConnNo,
    joined: &Joined,
    entries: &[LogEntry],
    before: &[LineIndex],
) -> Result<List<Text>, AllocError>
    ensures { IfOk result (λ v. v ≡ joined.now.head
        ++ shown_at conn joined.now.role entries.now (last_of (size_of_keep joined.now.keep) before.now)
        ++ option_to_list joined.now.tail) }
{
    let mut texts = Vec::new(alloc);
    push_copies(alloc, &mut texts, joined.head.as_slice())?;
    let backlog = last_of(BacklogSize::of_keep(joined.keep), before);
    push_all_shown_at(alloc, &mut texts, conn, joined.role, entries, backlog)?;
    push_tail(alloc, &mut texts, &joined.tail)?;
    Ok(List::from_vec(texts))
}

// What a connection in this role is shown of these lines.
pub(crate) fn shown_of(
    alloc: Global,
    conn: ConnNo,
    role: Role,
    lines: &[Stored],
) -> Result<List<Text>, AllocError>
    ensures { IfOk result (λ v. v ≡ shown_lines conn role lines.now) }
{
    let mut texts = Vec::with_capacity(alloc, lines.len())?;
    push_shown_lines(alloc, &mut texts, conn, role, lines)?;
    Ok(List::from_vec(texts))
}

/// What who joins is sent in the place of the entry's lines, where this connection is the one. Takes no memory.
pub fn join_for(conn: ConnNo, log_entry: &LogEntry) -> Option<&Joined>
    ensures { option_copied result ≡ join_for conn log_entry.now }
{
    if conn == log_entry.conn {
        log_entry.join.get()
    } else {
        None
    }
}

// What a connection in this role is sent at the entry at an index.
pub(crate) fn message(
    alloc: Global,
    entries: &[LogEntry],
    index: &Index,
    entry_index: usize,
    conn: ConnNo,
    role: Role,
) -> Result<List<Text>, AllocError>
    requires { IsIndex entries.now index.now.starts.items index.now.line_indices.items }
    ensures { IfOk result (λ v. v ≡ message_at conn role entries.now entry_index) }
{
    match entries.get(entry_index) {
        None => Ok(List::from_vec(Vec::new(alloc))),
        Some(log_entry) => match join_for(conn, log_entry) {
            None => shown_of(alloc, conn, role, log_entry.lines.as_slice()),
            Some(joined) => init(
                alloc,
                conn,
                joined,
                entries,
                line_indices_before(index, entry_index),
            ),
        },
    }
}

/// What a connection in this role is sent at an entry that comes next.
#[tactic(auto, using(crate::proofs::IndexLemmas::whole_backlog_is))]
pub(crate) fn message_next(
    alloc: Global,
    entries: &[LogEntry],
    index: &Index,
    conn: ConnNo,
    role: Role,
    log_entry: &LogEntry,
) -> Result<List<Text>, AllocError>
    requires { IsIndex entries.now index.now.starts.items index.now.line_indices.items }
    ensures { IfOk result (λ v. v ≡ message_of conn role (logged_lines entries.now) log_entry.now) }
{
    match join_for(conn, log_entry) {
        None => shown_of(alloc, conn, role, log_entry.lines.as_slice()),
        Some(joined) => init(alloc, conn, joined, entries, index.line_indices.as_slice()),
    }
}

// The role after these changes: the first that names the connection counts.
pub(crate) fn changed(conn: ConnNo, changes: &[(ConnNo, Role)], role: Role) -> Role
    ensures { result ≡ changed conn changes.now role }
{
    for change in changes {
        if change.0 == conn {
            return change.1;
        }
    }
    role
}

/// Puts the messages of the entries from an index on behind the others, for a connection in this role before. The answer is
/// its role after.
#[tactic(auto, using(crate::proofs::MessageLemmas::next_message))]
pub(crate) fn push_messages(
    alloc: Global,
    messages: &mut Vec<Msg>,
    entries: &[LogEntry],
    index: &Index,
    conn: ConnNo,
    first: Role,
    from: usize,
) -> Result<Role, AllocError>
    requires { IsIndex entries.now index.now.starts.items index.now.line_indices.items }
    ensures messages { OnOk result (map msg_lines messages.new.items ≡ map msg_lines messages.old.items
        ++ messages_of conn first (take from entries.now) (drop from entries.now)) }
    ensures role { IfOk result (λ role. role ≡ role_past conn first (drop from entries.now)) }
{
    let mut role = first;
    for entry_index in from..entries.len() {
        let lines = message(alloc, entries, index, entry_index, conn, role)?;
        push_message(messages, lines)?;
        role = changed(conn, entries[entry_index].roles.as_slice(), role);
    }
    Ok(role)
}
