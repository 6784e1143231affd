//! What an entry prints, to each connection in ascending number.
ghost use Rattle.std.specs.Prelude.{◌≡◌, ◌++◌, OnOk, string_bytes, None, Some};
ghost use Rattle.ps_hall.specs.Halls as halls;
ghost use Rattle.replay_state.specs.Houses.{next_message};
ghost use Rattle.replay_state.specs.Transcript.{printed, with_id};
ghost use Rattle.replay_state.specs.Tables.{is_next, each_of};
ghost use Rattle.ps_base.specs.Lists.{each_to};

use crate::short_room::ShortRoom;
use crate::{hearers, print};
use ps_base::number::ConnNo;
use ps_hall::notice::Notice;
use ps_splitlog::entry::LogEntry;
use ps_splitlog::read::join_for;
use std::alloc::{AllocError, Global};

/// Whether a connection comes behind the last one, and up to `count`.
pub(crate) fn is_next(last: u32, count: u32, conn: u32) -> bool
    ensures { result ≡ is_next last count conn }
{
    last < conn && conn <= count
}

// Prints what notices of the hall tell to these connections, in ascending number up to `count`, to each once.
fn push_each_told(
    out: &mut String,
    count: u32,
    notices: &[Notice],
    conns: &[u32],
) -> Result<(), AllocError>
    ensures { OnOk result (string_bytes out.new ≡ string_bytes out.old
        ++ each_of (λ conn. printed conn (with_id None (halls.message_of conn notices.now))) count 0 conns.now) }
{
    let mut last = 0;
    for conn in conns {
        if is_next(last, count, *conn) {
            print::push_notices(out, ConnNo(*conn), notices)?;
            last = *conn;
        }
    }
    Ok(())
}

/// Prints what notices of the hall tell to the connections from 1 to `count`.
pub fn push_hall_told(
    alloc: Global,
    out: &mut String,
    count: u32,
    notices: &[Notice],
) -> Result<(), AllocError>
    ensures { OnOk result (string_bytes out.new ≡ string_bytes out.old
        ++ each_to (λ conn. printed conn (with_id None (halls.message_of conn notices.now))) count) }
{
    let conns = hearers::of_notices(alloc, notices)?;
    push_each_told(out, count, notices, conns.as_slice())?;
    Ok(())
}

// Prints what an entry of a room gives to one connection, of which a message is made.
fn push_made(
    alloc: Global,
    out: &mut String,
    conn: ConnNo,
    room: &ShortRoom,
    log_entry: &LogEntry,
) -> Result<(), AllocError>
    ensures { OnOk result (string_bytes out.new ≡ string_bytes out.old
        ++ printed conn (with_id (Some room.now.room.id) (next_message conn room.now log_entry.now))) }
{
    let lines = room.message(alloc, conn, log_entry)?;
    print::push_room_message(out, conn, room.id(), lines.as_slice())?;
    Ok(())
}

// Prints what an entry of a room gives to one connection. To all but who joins no line is copied.
#[tactic(auto, using(ps_splitlog::proofs::MessageLemmas::plain_message), unfolding(crate::specs::Houses::next_message))]
fn push_log_entry(
    alloc: Global,
    out: &mut String,
    conn: ConnNo,
    room: &ShortRoom,
    log_entry: &LogEntry,
) -> Result<(), AllocError>
    ensures { OnOk result (string_bytes out.new ≡ string_bytes out.old
        ++ printed conn (with_id (Some room.now.room.id) (next_message conn room.now log_entry.now))) }
{
    match join_for(conn, log_entry) {
        Some(_) => push_made(alloc, out, conn, room, log_entry),
        None => print::push_shown(
            out,
            conn,
            room.id(),
            room.role(conn),
            log_entry.lines.as_slice(),
        ),
    }
}

// Prints what an entry of a room gives to these connections, in ascending number up to `count`, to each once.
fn push_each_log_entry(
    alloc: Global,
    out: &mut String,
    count: u32,
    room: &ShortRoom,
    log_entry: &LogEntry,
    conns: &[u32],
) -> Result<(), AllocError>
    ensures { OnOk result (string_bytes out.new ≡ string_bytes out.old
        ++ each_of (λ conn. printed conn (with_id (Some room.now.room.id) (next_message conn room.now log_entry.now))) count 0 conns.now) }
{
    let mut last = 0;
    for conn in conns {
        if is_next(last, count, *conn) {
            push_log_entry(alloc, out, ConnNo(*conn), room, log_entry)?;
            last = *conn;
        }
    }
    Ok(())
}

/// Prints what an entry of a room gives, to the connections from 1 to `count`, by what each of them is to the room.
pub(crate) fn push_by_role(
    alloc: Global,
    out: &mut String,
    count: u32,
    room: &ShortRoom,
    log_entry: &LogEntry,
) -> Result<(), AllocError>
    ensures { OnOk result (string_bytes out.new ≡ string_bytes out.old
        ++ each_to (λ conn. printed conn (with_id (Some room.now.room.id) (next_message conn room.now log_entry.now))) count) }
{
    let conns = hearers::of_room(alloc, room, log_entry)?;
    push_each_log_entry(alloc, out, count, room, log_entry, conns.as_slice())?;
    Ok(())
}
