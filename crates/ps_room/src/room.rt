//! The room.
ghost use Rattle.std.specs.Prelude.{◌≡◌, ◌≤◌, ◌-◌, ◌⊎◌, ◌↔◌, true, length, IfOk, OnOk, OnErr, map};
ghost use Rattle.std.specs.Option.{option_to_list};
ghost use Rattle.ps_splitlog.specs.Entries.{logged_lines, message_of};
ghost use Rattle.ps_room.specs.Records.{presents_of};
ghost use Rattle.ps_room.specs.Logs.{entry_of};

use crate::entry::Entry;
use crate::opening::Opening;
use crate::outcome::RoomOut;
use crate::state::{OpenedRoom, Prepared, RoomState};
use ps_base::badge::Badge;
use ps_base::list::List;
use ps_base::msg::Msg;
use ps_base::number::{ConnNo, Moment};
use ps_base::text::Text;
use ps_base::why::Why;
use ps_chat::present::Present;
use ps_lines::command::Command;
use ps_splitlog::cursor::Cursor;
use ps_splitlog::entry::LogEntry;
use ps_splitlog::log::SplitLog;
use ps_splitlog::piece::Piece;
use ps_view::role::Role;
use std::alloc::{AllocError, Global};
use std::marker::Model;

/// A room. Contracts see its number and id, what its chat was opened with, its chat, its battle, and its log. It keeps no
/// event: each line of one stands in the log.
pub struct Room {
    state: RoomState,
    log: SplitLog,
}

// By hand, so that who drops one has one call to prove.
impl Drop for Room {
    fn drop(self) {
        let Room { state: _, log: _ } = self;
    }
}

impl Model for Room {
    ghost use Rattle.ps_room.specs.Logs.{Seen, with_log};
    ghost use Rattle.std.specs.Coded.{codes, coded_ℕ};
    ghost use base.Stored.{coded_unit};
    ghost use Rattle.ps_base.specs.ById.{by_id_code};

    ghost Value = { Seen };

    ghost coded = { Prim.hlevel (codes, by_id_code coded_ℕ, by_id_code coded_unit) };

    ghost view = { λ r. with_log r.log r.state };
}

// A log that begins with this entry, if there is one.
fn log_of(alloc: Global, first: Option<LogEntry>) -> Result<SplitLog, AllocError>
    ensures { IfOk result (λ l. l ≡ option_to_list first) }
{
    let mut log = SplitLog::new(alloc);
    match first {
        None => Ok(log),
        Some(log_entry) => {
            log.push(log_entry)?;
            Ok(log)
        }
    }
}

// Makes room in the log for an entry, and for the end of each member behind it: so that who comes to an end isn't in want of what
// others took. The end of a member takes of what was kept for it.
fn keep_room(state: &RoomState, log: &mut SplitLog, entry: &Entry) -> Result<(), AllocError>
    ensures { log.new ≡ log.old }
{
    match &entry.cmd {
        Command::Quit => match state.role(entry.conn) {
            Role::Outside => {}
            _ => return Ok(()),
        },
        _ => {}
    }
    log.reserve(state.members().len() + 2)
}

impl Room {
    ghost use Rattle.ps_room.specs.Openings.{IsFitOpening};
    ghost use Rattle.ps_room.specs.Rooms.{verdict, role};
    ghost use Rattle.ps_room.specs.Logs.{record_in, given, seen_opened, seen_after, out_of, Goes, MakesNone};
    ghost use Rattle.ps_splitlog.specs.Reads.{cursor_past, read_past};
    ghost use Rattle.ps_splitlog.specs.Pieces.{without_last, fewest_left, HadRoomBeforeLast, IsFull};
    ghost use Rattle.ps_base.specs.Messages.{msg_lines};

    /// Whether a room can have this opening: where it has a battle, that can start under the configuration and the dex. Takes
    /// no memory.
    pub fn fit(opening: &Opening) -> bool
        ensures { result ≡ true ↔ IsFitOpening opening.now }
    {
        opening.is_fit()
    }

    /// A room with nobody in it; where the opening has a battle, that is open.
    pub fn new(alloc: Global, opening: Opening) -> Result<Room, AllocError>
        requires { IsFitOpening opening }
        ensures { IfOk result (λ r. r ≡ seen_opened opening) }
    {
        let opened = RoomState::open(alloc, opening)?;
        let OpenedRoom { state, first } = opened;
        let log = log_of(alloc, first)?;
        Ok(Room { state, log })
    }

    /// Why the entry is refused; `None` where it is allowed. Takes no memory.
    pub fn verdict(&self, entry: &Entry) -> Option<Why>
        ensures { result ≡ verdict (record_in self.now) entry.now }
    {
        self.state.verdict(entry)
    }

    /// The room's id, which stands behind `>` in its messages.
    pub fn id(&self) -> &str
        ensures { result.now ≡ self.now.id }
    {
        self.state.id()
    }

    /// The members in join order, each with its rank in the room. Takes no memory.
    pub fn members(&self) -> &[Present]
        ensures { result.now ≡ presents_of (record_in self.now) }
    {
        self.state.members()
    }

    /// What a connection is to the room. Takes no memory.
    pub fn role(&self, conn: ConnNo) -> Role
        ensures { result ≡ role conn (record_in self.now) }
    {
        self.state.role(conn)
    }

    /// Works out what comes of an entry that comes next, for `keep`. Fails only if out of memory.
    pub fn prepare(&self, alloc: Global, entry: &Entry) -> Result<Prepared, AllocError>
        ensures out { IfOk result (λ p. p.out ≡ out_of (record_in self.now) entry.now) }
        ensures log_entry { IfOk result (λ p. p.log_entry ≡ given (record_in self.now) entry.now) }
        ensures goes { IfOk result (λ p. Goes self.now entry.now p.bout) }
        // A refused entry, and one of a room without a battle, makes no rounds.
        ensures none { IfOk result (λ p. MakesNone self.now entry.now p.bout) }
    {
        let prepared = self.state.prepare(alloc, entry)?;
        Ok(prepared)
    }

    /// Applies an entry, of which `prepare` worked out what comes of it. Where memory fails nothing changes.
    pub fn keep(
        &mut self,
        alloc: Global,
        entry: &Entry,
        prepared: Prepared,
    ) -> Result<(), AllocError>
        requires out { prepared.out ≡ out_of (record_in self.old) entry.now }
        requires given { prepared.log_entry ≡ given (record_in self.old) entry.now }
        requires goes { Goes self.old entry.now prepared.bout }
        ensures ok { OnOk result (self.new ≡ seen_after self.old entry.now) }
        ensures err { OnErr result (self.new ≡ self.old) }
    {
        let Prepared {
            out,
            mut log_entry,
            bout,
        } = prepared;
        log_entry.lines.share(alloc);
        keep_room(&self.state, &mut self.log, entry)?;
        self.log.push(log_entry)?;
        match self.state.keep(alloc, entry, out, bout) {
            Ok(roles) => {
                self.log.give_roles(roles);
                Ok(())
            }
            Err(e) => {
                self.log.take_back();
                Err(e)
            }
        }
    }

    /// Applies an entry, or refuses it by name. A refused one changes nothing and gives its sender one line. The log's memory is
    /// taken before the record changes; where memory fails nothing has changed.
    pub fn apply(
        &mut self,
        alloc: Global,
        conn: ConnNo,
        badge: Badge,
        moment: Moment,
        cmd: Command,
    ) -> Result<RoomOut, AllocError>
        ensures ok { OnOk result (self.new ≡ seen_after self.old (entry_of conn badge moment cmd)) }
        ensures err { OnErr result (self.new ≡ self.old) }
        ensures out { IfOk result (λ out. out ≡ out_of (record_in self.old) (entry_of conn badge moment cmd)) }
    {
        let entry = Entry {
            conn,
            badge,
            moment,
            cmd,
        };
        let prepared = self.prepare(alloc, &entry)?;
        let out = prepared.out;
        self.keep(alloc, &entry, prepared)?;
        Ok(out)
    }

    /// What a connection is sent at an entry that comes next, of which all that it gives is handed in.
    pub fn message(
        &self,
        alloc: Global,
        conn: ConnNo,
        log_entry: &LogEntry,
    ) -> Result<List<Text>, AllocError>
        ensures { IfOk result (λ v. v ≡ message_of conn (role conn (record_in self.now)) (logged_lines self.now.log) log_entry.now) }
    {
        self.log
            .message_next(alloc, conn, self.role(conn), log_entry)
    }

    /// The messages past a cursor, which moves to the end. Where memory fails the cursor stays. The cursor
    /// is one of this room.
    pub fn pull(&self, alloc: Global, cursor: &mut Cursor) -> Result<Vec<Msg>, AllocError>
        ensures messages { IfOk result (λ v. map msg_lines v.items ≡ read_past cursor.old self.now.log) }
        ensures end { OnOk result (cursor.new ≡ cursor_past cursor.old self.now.log) }
        ensures err { OnErr result (cursor.new ≡ cursor.old) }
    {
        self.log.read_from(alloc, cursor)
    }

    /// The messages past a cursor as far as a piece of the log goes, to whose end the cursor moves: see `SplitLog::read_piece`.
    /// Where memory fails the cursor stays. The cursor is one of this room.
    pub fn pull_piece(
        &self,
        alloc: Global,
        cursor: &mut Cursor,
        least: usize,
        most: usize,
    ) -> Result<Piece, AllocError>
        requires { least ≤ most }
        ensures messages { IfOk result (λ p. map msg_lines p.messages.items ≡ read_past cursor.old (without_last p.left self.now.log)) }
        ensures end { IfOk result (λ p. cursor.new ≡ cursor_past cursor.old (without_last p.left self.now.log)) }
        ensures high { IfOk result (λ p. p.left ≤ most) }
        ensures low { IfOk result (λ p. fewest_left least cursor.old self.now.log ≤ p.left) }
        ensures onward { IfOk result (λ p. p.left ≤ length self.now.log - cursor.old.at) }
        ensures short { IfOk result (λ p. HadRoomBeforeLast (map msg_lines p.messages.items) ⊎ (p.left ≡ most)) }
        ensures whole { IfOk result (λ p. (p.left ≡ fewest_left least cursor.old self.now.log) ⊎ IsFull (map msg_lines p.messages.items)) }
        ensures err { OnErr result (cursor.new ≡ cursor.old) }
    {
        self.log.read_piece(alloc, cursor, least, most)
    }
}
