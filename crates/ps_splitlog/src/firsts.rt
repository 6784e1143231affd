//! Where each connection is named first: before that, who is outside is shown nothing.
ghost use Rattle.std.specs.Prelude.{◌≡◌, ◌⊎◌, ◌==◌, nat_lt, length, drop, OnOk, if◌then◌else◌};
ghost use Rattle.std.specs.List.{list_any};
ghost use Rattle.ps_splitlog.specs.Firsts.{owner_in, owner_of, joiner_of, is_that, is_owner, is_given, is_named};
ghost use Rattle.ps_splitlog.specs.Firsts.{first_for, AreFirsts, HasFirsts, IsSameBefore, AreNoted, messages_from, IsUnnamed};
ghost use Rattle.ps_splitlog.specs.Reads.{role_past};
ghost use Rattle.ps_splitlog.specs.Pieces.{ReadsOn};

use crate::cursor::Cursor;
use crate::entry::LogEntry;
use crate::stored::Stored;
use ps_base::number::ConnNo;
use ps_event::audience::Audience;
use ps_view::role::Role;
use std::alloc::AllocError;
use std::collections::BTreeMap;

// ---- who is named

fn owner_in(audience: Audience) -> Option<u32>
    ensures { result ≡ owner_in audience }
{
    match audience {
        Audience::One(conn) => Some(conn),
        Audience::All => None,
        Audience::Split(_) => None,
        Audience::Side(_) => None,
        Audience::Rank(_) => None,
    }
}

// The connection that alone sees a line, if it is for one alone.
fn owner_of(line: &Stored) -> Option<u32>
    ensures { result ≡ owner_of line.now }
{
    match line {
        Stored::Same { audience, .. } => owner_in(*audience),
        Stored::Split { .. } => None,
    }
}

// The connection that joins by an entry, if one does.
fn joiner_of(log_entry: &LogEntry) -> Option<u32>
    ensures { result ≡ joiner_of log_entry.now }
{
    match log_entry.join.get() {
        None => None,
        Some(_) => Some(log_entry.conn.0),
    }
}

// ---- where

fn earlier(first: usize, count: usize) -> usize
    ensures { result ≡ (if nat_lt first count then first else count) }
{
    if first < count { first } else { count }
}

// How many of so many entries come before the one at which it was noted.
fn first_for(firsts: &BTreeMap<u32, usize>, count: usize, conn: u32) -> usize
    ensures { result ≡ first_for firsts.now count conn }
{
    match firsts.get(&conn) {
        None => count,
        Some(first) => earlier(*first, count),
    }
}

// ---- what is noted at the entry behind so many

// Notes a connection, where it isn't noted at an earlier one.
fn note(firsts: &mut BTreeMap<u32, usize>, conn: u32, entry: usize) -> Result<(), AllocError>
    ensures same { IsSameBefore entry firsts.old firsts.new }
    ensures ok { OnOk result (AreNoted (λ reader. conn == reader) entry firsts.old firsts.new) }
{
    let first = first_for(firsts, entry, conn);
    firsts.insert(conn, first)?;
    Ok(())
}

fn note_if(
    firsts: &mut BTreeMap<u32, usize>,
    conn: Option<u32>,
    entry: usize,
) -> Result<(), AllocError>
    ensures same { IsSameBefore entry firsts.old firsts.new }
    ensures ok { OnOk result (AreNoted (λ reader. is_that reader conn) entry firsts.old firsts.new) }
{
    match conn {
        None => Ok(()),
        Some(conn) => note(firsts, conn, entry),
    }
}

fn note_lines(
    firsts: &mut BTreeMap<u32, usize>,
    lines: &[Stored],
    entry: usize,
) -> Result<(), AllocError>
    ensures same { IsSameBefore entry firsts.old firsts.new }
    ensures ok { OnOk result (AreNoted (λ reader. list_any (is_owner reader) lines.now) entry firsts.old firsts.new) }
{
    for line in lines {
        note_if(firsts, owner_of(line), entry)?;
    }
    Ok(())
}

fn note_roles(
    firsts: &mut BTreeMap<u32, usize>,
    roles: &[(ConnNo, Role)],
    entry: usize,
) -> Result<(), AllocError>
    ensures same { IsSameBefore entry firsts.old firsts.new }
    ensures ok { OnOk result (AreNoted (λ reader. list_any (is_given reader) roles.now) entry firsts.old firsts.new) }
{
    for change in roles {
        note(firsts, change.0.0, entry)?;
    }
    Ok(())
}

// Notes whom an entry names.
fn note_named(
    firsts: &mut BTreeMap<u32, usize>,
    log_entry: &LogEntry,
    entry: usize,
) -> Result<(), AllocError>
    ensures same { IsSameBefore entry firsts.old firsts.new }
    ensures ok { OnOk result (AreNoted (λ reader. is_named reader log_entry.now) entry firsts.old firsts.new) }
{
    note_if(firsts, joiner_of(log_entry), entry)?;
    note_lines(firsts, log_entry.lines.as_slice(), entry)?;
    note_roles(firsts, log_entry.roles.as_slice(), entry)?;
    Ok(())
}

/// Notes whom the last entry names, if there is one: nobody is to change it from then on. Where memory fails, what was noted of
/// the entries before it stays right.
pub(crate) fn note_last(
    firsts: &mut BTreeMap<u32, usize>,
    entries: &[LogEntry],
) -> Result<(), AllocError>
    requires { HasFirsts entries.now firsts.old }
    ensures same { HasFirsts entries.now firsts.new }
    ensures ok { OnOk result (AreFirsts (length entries.now) entries.now firsts.new) }
{
    let count = entries.len();
    if count == 0 {
        return Ok(());
    }
    let last = count - 1;
    note_named(firsts, &entries[last], last)?;
    Ok(())
}

// ---- where a cursor begins to read

/// The first entry that may show something to a connection in this role that has passed so many entries; the last one isn't
/// noted yet. Takes no memory.
pub(crate) fn begin(
    entries: &[LogEntry],
    firsts: &BTreeMap<u32, usize>,
    conn: ConnNo,
    role: Role,
    at: usize,
) -> usize
    requires { HasFirsts entries.now firsts.now }
    ensures messages { messages_from conn role result entries.now ≡ messages_from conn role at entries.now }
    ensures role { role_past conn role (drop result entries.now) ≡ role_past conn role (drop at entries.now) }
    ensures unnamed { (result ≡ at) ⊎ IsUnnamed conn role at result entries.now }
{
    if at > 0 {
        return at;
    }
    match role {
        Role::Outside => first_for(firsts, entries.len().saturating_sub(1), conn.0),
        Role::Spectator { .. } => at,
        Role::Player { .. } => at,
    }
}

/// A cursor that reads the same, past entries that show it nothing, but leaves so many unread. Takes no memory.
pub(crate) fn start_of(
    entries: &[LogEntry],
    firsts: &BTreeMap<u32, usize>,
    cursor: Cursor,
    least: usize,
) -> Cursor
    requires { HasFirsts entries.now firsts.now }
    ensures { (result ≡ cursor) ⊎ ReadsOn cursor result least entries.now }
{
    let first = begin(entries, firsts, cursor.conn, cursor.role, cursor.at);
    let at = first.min(entries.len().saturating_sub(least));
    if at <= cursor.at {
        return cursor;
    }
    Cursor {
        conn: cursor.conn,
        at,
        role: cursor.role,
    }
}
