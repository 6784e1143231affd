//! A piece of a log: as many messages as a reader takes at once.
ghost use Rattle.std.specs.Prelude.{◌≡◌, ◌≤◌, ◌<◌, ◌-◌, ◌++◌, ◌⊎◌, true, false, length, map, IfOk, OnOk};
ghost use Rattle.ps_base.specs.Messages.{sent, msg_lines};
ghost use Rattle.ps_splitlog.specs.Entries.{message_at};
ghost use Rattle.ps_splitlog.specs.Indices.{IsIndex};
ghost use Rattle.ps_splitlog.specs.Pieces.{most_bytes, bytes_in, bytes_of, IsFull, IsOpen, IsWalked};

use crate::cursor::Cursor;
use crate::entry::LogEntry;
use crate::index::Index;
use crate::read::{changed, message};
use ps_base::msg::{Msg, push_message};
use ps_base::number::ConnNo;
use ps_base::text::Text;
use ps_view::role::Role;
use std::alloc::{AllocError, Global};

/// With so many messages a piece is full.
pub const PIECE_MESSAGES: usize = 64;

/// With so many bytes in the lines of its messages a piece is full. Newlines don't count.
pub const PIECE_BYTES: usize = 65_536;

/// What a piece of a log has.
#[derive(Debug, Drop)]
pub struct Piece {
    /// The messages, each with one line at least.
    pub messages: Vec<Msg>,
    /// How many entries of the log come behind it.
    pub left: usize,
}

/// A piece, and where its reader stands behind it.
#[derive(Drop)]
pub(crate) struct Walked {
    pub(crate) piece: Piece,
    pub(crate) cursor: Cursor,
}

// What is left of a room for so many bytes behind these lines.
fn room_past(lines: &[Text], room: usize) -> usize
    ensures { result ≡ room - bytes_in lines.now }
{
    let mut left = room;
    for line in lines {
        left = left.saturating_sub(line.len());
    }
    left
}

// Puts the message of the entry at an index behind the others. The answer is what is left of the room for so many bytes.
fn push_entry(
    alloc: Global,
    messages: &mut Vec<Msg>,
    entries: &[LogEntry],
    index: &Index,
    entry_index: usize,
    conn: ConnNo,
    role: Role,
    room: usize,
) -> Result<usize, AllocError>
    requires { IsIndex entries.now index.now.starts.items index.now.line_indices.items }
    ensures messages { OnOk result (map msg_lines messages.new.items ≡ map msg_lines messages.old.items
        ++ sent (message_at conn role entries.now entry_index)) }
    ensures room { IfOk result (λ left. left ≡ room - bytes_in (message_at conn role entries.now entry_index)) }
{
    let lines = message(alloc, entries, index, entry_index, conn, role)?;
    let left = room_past(lines.as_slice(), room);
    push_message(messages, lines)?;
    Ok(left)
}

// Whether a piece with these messages ends where so many entries are left: it is full, and no more are left than may be.
fn ends(left: usize, most: usize, messages: &[Msg], room: usize) -> bool
    requires { room ≡ most_bytes - bytes_of (map msg_lines messages.now) }
    ensures yes { result ≡ true → (left ≤ most) × IsFull (map msg_lines messages.now) }
    ensures not { result ≡ false → (most < left) ⊎ IsOpen (map msg_lines messages.now) }
{
    left <= most && (messages.len() >= PIECE_MESSAGES || room == 0)
}

/// Reads a piece from where a reader starts.
pub(crate) fn walk(
    alloc: Global,
    entries: &[LogEntry],
    index: &Index,
    start: Cursor,
    least: usize,
    most: usize,
) -> Result<Walked, AllocError>
    requires index { IsIndex entries.now index.now.starts.items index.now.line_indices.items }
    requires bounds { least ≤ most }
    ensures { IfOk result (λ w. IsWalked start entries.now least most (map msg_lines w.piece.messages.items) w.piece.left w.cursor) }
{
    let count = entries.len();
    let stop = count.saturating_sub(least).max(start.at);
    let mut messages = Vec::new(alloc);
    let mut role = start.role;
    let mut room = PIECE_BYTES;
    for entry_index in start.at..stop {
        let left = count - entry_index;
        if ends(left, most, messages.as_slice(), room) {
            return Ok(Walked {
                piece: Piece { messages, left },
                cursor: Cursor {
                    conn: start.conn,
                    at: entry_index,
                    role,
                },
            });
        }
        room = push_entry(
            alloc,
            &mut messages,
            entries,
            index,
            entry_index,
            start.conn,
            role,
            room,
        )?;
        role = changed(start.conn, entries[entry_index].roles.as_slice(), role);
    }
    let left = count.saturating_sub(stop);
    Ok(Walked {
        piece: Piece { messages, left },
        cursor: Cursor {
            conn: start.conn,
            at: count - left,
            role,
        },
    })
}
