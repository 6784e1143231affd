//! Who may hear what an entry gives, in ascending number. All others are sent nothing at it.
ghost use Rattle.std.specs.Prelude.{◌≡◌, ◌++◌, OnOk, IfOk, map};
ghost use Rattle.std.specs.List.{filter_map};
ghost use Rattle.std.specs.List.Sorted.{IsPermutation, IsSorted};
ghost use Rattle.std.specs.Ordering.{nat_cmp};
ghost use Rattle.std.specs.Option.{option_copied};
ghost use Rattle.ps_room.specs.Logs.{conn_of, record_in};
ghost use Rattle.ps_room.specs.Records.{presents_of};
ghost use Rattle.replay_state.specs.Houses.{one_of, own_conn, room_hearers, text_for_all, common_of, common_text, told_conn};
ghost use Rattle.replay_state.specs.Houses.{notice_hearers};

use crate::short_room::ShortRoom;
use ps_base::text::Text;
use ps_chat::present::Present;
use ps_event::audience::Audience;
use ps_hall::notice::Notice;
use ps_splitlog::entry::LogEntry;
use ps_splitlog::stored::Stored;
use std::alloc::{AllocError, Global};

fn one_of(audience: Audience) -> Option<u32>
    ensures { result ≡ one_of audience }
{
    match audience {
        Audience::One(conn) => Some(conn),
        _ => None,
    }
}

// The connection that a line is for, where it is for one.
fn own_conn(line: &Stored) -> Option<u32>
    ensures { result ≡ own_conn line.now }
{
    match line {
        Stored::Same { audience, .. } => one_of(*audience),
        Stored::Split { .. } => None,
    }
}

fn push_members(conns: &mut Vec<u32>, members: &[Present]) -> Result<(), AllocError>
    ensures { OnOk result (conns.new.items ≡ conns.old.items ++ map conn_of members.now) }
{
    for member in members {
        conns.push(member.conn.0)?;
    }
    Ok(())
}

fn push_own(conns: &mut Vec<u32>, lines: &[Stored]) -> Result<(), AllocError>
    ensures { OnOk result (conns.new.items ≡ conns.old.items ++ filter_map own_conn lines.now) }
{
    for line in lines {
        if let Some(conn) = own_conn(line) {
            conns.push(conn)?;
        }
    }
    Ok(())
}

/// Who may be sent something at an entry of a room that comes next: who made it, the members, and who has a line of its own.
/// Some may stand there more than once.
pub fn of_room(
    alloc: Global,
    room: &ShortRoom,
    log_entry: &LogEntry,
) -> Result<Vec<u32>, AllocError>
    ensures all { IfOk result (λ v. IsPermutation (room_hearers room.now log_entry.now) v.items) }
    ensures sorted { IfOk result (λ v. IsSorted nat_cmp v.items) }
{
    let members = room.members();
    let mut conns = Vec::with_capacity(alloc, members.len() + 1)?;
    conns.push(log_entry.conn.0)?;
    push_members(&mut conns, members)?;
    push_own(&mut conns, log_entry.lines.as_slice())?;
    conns.sort_unstable();
    Ok(conns)
}

fn text_for_all(audience: Audience, text: &Text) -> Option<&Text>
    ensures { option_copied result ≡ text_for_all audience text.now }
{
    match audience {
        Audience::All => Some(text),
        _ => None,
    }
}

fn common_of(line: &Stored) -> Option<&Text>
    ensures { option_copied result ≡ common_of line.now }
{
    match line {
        Stored::Same { audience, text, .. } => text_for_all(*audience, text),
        Stored::Split { .. } => None,
    }
}

/// The text of an entry that is one line, the same for each member, and nothing for who is none.
pub fn common_text(log_entry: &LogEntry) -> Option<&Text>
    ensures { option_copied result ≡ common_text log_entry.now }
{
    match log_entry.join.get() {
        Some(_) => None,
        None => match log_entry.lines.as_slice() {
            [] => None,
            [line] => common_of(line),
            [_, _, ..] => None,
        },
    }
}

/// The members of a room.
pub fn of_members(alloc: Global, room: &ShortRoom) -> Result<Vec<u32>, AllocError>
    ensures all { IfOk result (λ v. IsPermutation (map conn_of (presents_of (record_in room.now.room))) v.items) }
    ensures sorted { IfOk result (λ v. IsSorted nat_cmp v.items) }
{
    let members = room.members();
    let mut conns = Vec::with_capacity(alloc, members.len())?;
    push_members(&mut conns, members)?;
    conns.sort_unstable();
    Ok(conns)
}

fn push_told(conns: &mut Vec<u32>, notices: &[Notice]) -> Result<(), AllocError>
    ensures { OnOk result (conns.new.items ≡ conns.old.items ++ map told_conn notices.now) }
{
    for notice in notices {
        conns.push(notice.conn.0)?;
    }
    Ok(())
}

/// Whom notices of the hall tell something. Some may stand there more than once.
pub fn of_notices(alloc: Global, notices: &[Notice]) -> Result<Vec<u32>, AllocError>
    ensures all { IfOk result (λ v. IsPermutation (notice_hearers notices.now) v.items) }
    ensures sorted { IfOk result (λ v. IsSorted nat_cmp v.items) }
{
    let mut conns = Vec::with_capacity(alloc, notices.len())?;
    push_told(&mut conns, notices)?;
    conns.sort_unstable();
    Ok(conns)
}
