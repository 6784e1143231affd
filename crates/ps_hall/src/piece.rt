//! Pieces of what the hall told.
ghost use Rattle.std.specs.Prelude.{◌≡◌, ◌+◌, ◌-◌, ◌<◌, ◌≤◌, ◌⊎◌, MatchBool, IfOk, length, map, take, drop};
ghost use Rattle.ps_base.specs.Messages.{msg_lines};
ghost use Rattle.ps_hall.specs.Halls.{pulled};
ghost use Rattle.ps_hall.specs.Pieces.{message_bytes, piece_bytes, IsEnough, HadRoomBeforeLast};

use crate::log::{message_of, past};
use crate::notice::Notice;
use ps_base::list::List;
use ps_base::msg::{Msg, push_message};
use ps_base::number::ConnNo;
use ps_base::text::Text;
use std::alloc::{AllocError, Global};

/// A piece with so many messages has enough.
pub const PIECE_MESSAGES: usize = 64;

/// A piece whose lines have so many bytes has enough.
pub const PIECE_BYTES: usize = 65_536;

/// A piece of what the hall told a connection.
#[derive(Drop)]
pub struct HallPiece {
    /// The messages, in order.
    pub messages: Vec<Msg>,
    /// How many entries are left behind it.
    pub left: usize,
}

// How many bytes are left for a piece behind these lines.
fn room_after(before: usize, lines: &[Text]) -> usize
    ensures { result ≡ before - message_bytes lines.now }
{
    let mut room = before;
    for line in lines {
        room = room.saturating_sub(line.len());
    }
    room
}

// Whether a piece of `taken` entries, with so many messages, ends there.
fn ends(taken: usize, must: usize, messages: usize, room: usize) -> bool
    ensures { MatchBool result
        (must ≤ taken × ((PIECE_MESSAGES ≤ messages) ⊎ (room ≡ 0)))
        ((taken < must) ⊎ (messages < PIECE_MESSAGES × 0 < room)) }
{
    taken >= must && (messages >= PIECE_MESSAGES || room == 0)
}

// Takes the first `must` entries, and further ones until there is enough.
fn first_piece(
    alloc: Global,
    conn: ConnNo,
    log: &[List<Notice>],
    must: usize,
) -> Result<HallPiece, AllocError>
    ensures messages { IfOk result (λ p. map msg_lines p.messages.items ≡ pulled conn (take (length log.now - p.left) log.now)) }
    ensures left { IfOk result (λ p. p.left ≤ length log.now - must) }
    ensures short { IfOk result (λ p. HadRoomBeforeLast (map msg_lines p.messages.items) ⊎ (length log.now - must ≤ p.left)) }
    ensures enough { IfOk result (λ p. 0 < p.left → IsEnough (map msg_lines p.messages.items)) }
{
    let mut messages = Vec::new(alloc);
    let mut room = PIECE_BYTES;
    for (i, notices) in log.iter().enumerate() {
        if ends(i, must, messages.len(), room) {
            let left = log.len() - i;
            return Ok(HallPiece { messages, left });
        }
        let lines = message_of(alloc, conn, notices.as_slice())?;
        room = room_after(room, lines.as_slice());
        push_message(&mut messages, lines)?;
    }
    Ok(HallPiece { messages, left: 0 })
}

/// The piece past an index that has enough, or behind which `least` entries are left, with all entries but the last
/// `most`.
pub(crate) fn piece_past(
    alloc: Global,
    conn: ConnNo,
    log: &[List<Notice>],
    at: usize,
    least: usize,
    most: usize,
) -> Result<HallPiece, AllocError>
    ensures messages { IfOk result (λ p. map msg_lines p.messages.items ≡ pulled conn (drop at (take (length log.now - p.left) log.now))) }
    ensures left { IfOk result (λ p. p.left ≤ length log.now - at) }
    ensures least { IfOk result (λ p. at + least ≤ length log.now → least ≤ p.left) }
    ensures most { IfOk result (λ p. least ≤ most → p.left ≤ most) }
    ensures short { IfOk result (λ p. HadRoomBeforeLast (map msg_lines p.messages.items) ⊎ (most ≤ p.left)) }
    ensures enough { IfOk result (λ p. least < p.left → IsEnough (map msg_lines p.messages.items)) }
{
    let later = past(log, at);
    let end = later.len().saturating_sub(least);
    let must = later.len().saturating_sub(most);
    let piece = first_piece(alloc, conn, &later[..end], must)?;
    Ok(HallPiece {
        messages: piece.messages,
        left: piece.left + (later.len() - end),
    })
}
