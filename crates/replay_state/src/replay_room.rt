//! A room of a replay.
ghost use Rattle.std.specs.Prelude.{◌≡◌, ◌++◌, OnOk, IfOk, map, string_bytes, slice_get, Some};
ghost use Rattle.std.specs.Option.{option_map};
ghost use Rattle.ps_room.specs.Logs.{record_in, given, out_of};
ghost use Rattle.replay_state.specs.Kepts.{kept_after};
ghost use Rattle.ps_room.specs.Rooms.{role};
ghost use Rattle.replay_state.specs.Heads.{AreReady};
ghost use Rattle.replay_state.specs.Houses.{standing, id_of, next_message, seen_message, seen_rooms_after};
ghost use Rattle.replay_state.specs.Entries.{out_at};
ghost use Rattle.replay_state.specs.Transcript.{printed, with_id};
ghost use Rattle.ps_base.specs.Lists.{each_to};

use crate::heads::{Heads, push_common, still_ready};
use crate::short_room::ShortRoom;
use crate::{hearers, play};
use ps_base::number::ConnNo;
use ps_room::entry::Entry;
use ps_room::opening::Opening;
use ps_room::outcome::RoomOut;
use ps_splitlog::entry::LogEntry;
use ps_view::role::Role;
use std::alloc::{AllocError, Global};
use std::marker::Model;

/// A room of a replay. Contracts see what is kept of the room: what begins the messages to its members is kept ready beside it.
pub struct ReplayRoom {
    inner: ShortRoom,
    heads: Heads,
}

// By hand, so that whoever drops a room has one step of its proof for that.
impl Drop for ReplayRoom {
    fn drop(self) {
        let ReplayRoom { inner: _, heads: _ } = self;
    }
}

impl Model for ReplayRoom {
    ghost use Rattle.replay_state.specs.Kepts.{Kept};
    ghost use Rattle.std.specs.Coded.{codes, coded_ℕ};
    ghost use base.Stored.{coded_unit};
    ghost use Rattle.ps_base.specs.ById.{by_id_code};
    ghost use Rattle.replay_state.specs.Heads.{AreReady};

    ghost Value = { Kept };

    ghost coded = { Prim.hlevel (codes, by_id_code coded_ℕ, by_id_code coded_unit) };

    ghost view = { λ r. r.inner };

    ghost invariant = { λ r. AreReady r.inner r.heads.ready r.heads.list.items };
}

impl ReplayRoom {
    ghost use Rattle.ps_room.specs.Openings.{IsFitOpening};
    ghost use Rattle.replay_state.specs.Kepts.{kept_opened};

    /// A room with nobody in it; where the opening has a battle, that is open.
    pub fn new(alloc: Global, opening: Opening) -> Result<ReplayRoom, AllocError>
        requires { IsFitOpening opening }
        ensures { IfOk result (λ r. r ≡ kept_opened opening) }
    {
        Ok(ReplayRoom {
            inner: ShortRoom::new(alloc, opening)?,
            heads: Heads::new(alloc),
        })
    }

    /// The room's id.
    pub fn id(&self) -> &str
        ensures { result.now ≡ self.now.room.id }
    {
        self.inner.id()
    }

    /// What a connection is to the room. Takes no memory.
    pub fn role(&self, conn: ConnNo) -> Role
        ensures { result ≡ role conn (record_in self.now.room) }
    {
        self.inner.role(conn)
    }
}

// Prints what an entry of a room gives, to the connections from 1 to `count`.
fn push_entry(
    alloc: Global,
    out: &mut String,
    count: u32,
    room: &ShortRoom,
    heads: &mut Heads,
    log_entry: &LogEntry,
) -> Result<(), AllocError>
    requires ready { AreReady room.now heads.old.ready heads.old.list.items }
    ensures kept { AreReady room.now heads.new.ready heads.new.list.items }
    ensures text { OnOk result (string_bytes out.new ≡ string_bytes out.old
        ++ each_to (λ conn. printed conn (with_id (Some room.now.room.id) (next_message conn room.now log_entry.now))) count) }
{
    match hearers::common_text(log_entry) {
        Some(line) => push_common(alloc, out, count, room, heads, log_entry, line),
        None => play::push_by_role(alloc, out, count, room, log_entry),
    }
}

// Prints an entry of a room to the connections from 1 to `count`, and applies it. Gives what comes of it.
fn play_entry(
    alloc: Global,
    out: &mut String,
    count: u32,
    room: &mut ReplayRoom,
    entry: &Entry,
) -> Result<RoomOut, AllocError>
    ensures state { OnOk result (room.new ≡ kept_after room.old entry.now) }
    ensures text { OnOk result (string_bytes out.new ≡ string_bytes out.old
        ++ each_to (λ conn. printed conn (with_id (Some room.old.room.id) (next_message conn room.old (given (record_in room.old.room) entry.now)))) count) }
    ensures out { IfOk result (λ o. o ≡ out_of (record_in room.old.room) entry.now) }
{
    let prepared = room.inner.prepare(alloc, entry)?;
    push_entry(
        alloc,
        out,
        count,
        &room.inner,
        &mut room.heads,
        &prepared.log_entry,
    )?;
    let made = prepared.out;
    room.inner.keep(alloc, entry, prepared)?;
    room.heads.ready = still_ready(room.heads.ready, &entry.cmd);
    Ok(made)
}

/// Prints an entry of the room at a place to the connections from 1 to `count`, and applies it. Where no room is
/// there, nothing is printed and nothing changes. Gives what comes of the entry, where the room is there.
pub fn play_rooms(
    alloc: Global,
    out: &mut String,
    count: u32,
    rooms: &mut [ReplayRoom],
    place: usize,
    entry: &Entry,
) -> Result<Option<RoomOut>, AllocError>
    ensures state { OnOk result (rooms.new ≡ seen_rooms_after rooms.old place entry.now) }
    ensures text { OnOk result (string_bytes out.new ≡ string_bytes out.old
        ++ each_to (λ conn. printed conn (with_id (Some (id_of (slice_get rooms.old place))) (seen_message conn entry.now (slice_get rooms.old place)))) count) }
    ensures out { IfOk result (λ o. o ≡ out_at (option_map (λ s. s.state) (slice_get (map standing rooms.old) place)) entry.now) }
{
    if place >= rooms.len() {
        return Ok(None);
    }
    let made = play_entry(alloc, out, count, &mut rooms[place], entry)?;
    Ok(Some(made))
}
