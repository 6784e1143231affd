//! The log.
ghost use Rattle.std.specs.Prelude.{◌≡◌, ◌≤◌, ◌⊎◌, ◌-◌, ◌++◌, ◌∷◌, [], length, map, None, IfOk, OnOk, OnErr};
ghost use Rattle.std.specs.Prelude as prelude;
ghost use Rattle.ps_splitlog.specs.declared.entry.LogEntry.{LogEntry};
ghost use Rattle.ps_splitlog.specs.Entries.{log_entry_of, logged_lines, message_of};
ghost use Rattle.ps_splitlog.specs.Reads.{cursor_past, read_past};
ghost use Rattle.ps_splitlog.specs.Pieces.{without_last, fewest_left, HadRoomBeforeLast, IsFull};
ghost use Rattle.ps_base.specs.Messages.{msg_lines};

use crate::cursor::Cursor;
use crate::entry::{Entry, LogEntry, log_entry_of};
use crate::firsts::{begin, note_last, start_of};
use crate::index::{Index, forget, none, note, reserve, reserve_more};
use crate::piece::{Piece, walk};
use crate::read::{message_next, push_messages};
use ps_base::list::List;
use ps_base::msg::Msg;
use ps_base::number::ConnNo;
use ps_base::text::Text;
use ps_dex::dex::Dex;
use ps_event::event::Event;
use ps_view::names::Names;
use ps_view::role::Role;
use std::alloc::{AllocError, Global};
use std::collections::BTreeMap;
use std::marker::Model;

/// A log of what a room told, each text once. Contracts see the list of its entries. Where each logged line stands is noted
/// beside it, so that the last lines cost who joins as much as they are, however long the log is; and where each connection is
/// named first, so that a cursor before the first entry doesn't walk those that show it nothing.
pub struct SplitLog {
    entries: Vec<LogEntry>,
    index: Index,
    /// Of all entries but the last, which may be taken back or be given roles: so neither takes memory.
    firsts: BTreeMap<u32, usize>,
}

// By hand, so that who drops a log has one call to prove, and no map.
impl Drop for SplitLog {
    fn drop(self) {
        let SplitLog {
            entries: _,
            index: _,
            firsts: _,
        } = self;
    }
}

impl Model for SplitLog {
    ghost use Rattle.std.specs.Prelude as prelude;
    ghost use Rattle.ps_splitlog.specs.declared.entry.LogEntry.{LogEntry};
    ghost use Rattle.ps_splitlog.specs.Indices.{IsIndex};
    ghost use Rattle.ps_splitlog.specs.Firsts.{HasFirsts};

    ghost Value = { prelude.List LogEntry };

    ghost view = { λ l. l.entries.items };

    ghost invariant = { λ l. IsIndex l.entries.items l.index.starts.items l.index.line_indices.items × HasFirsts l.entries.items l.firsts };
}

// Gives the last entry these roles in place of its own.
fn set_roles(entries: &mut Vec<LogEntry>, roles: List<(ConnNo, Role)>)
    ensures last { (log : prelude.List LogEntry) (h : LogEntry) → entries.old.items ≡ log ++ h ∷ []
        → entries.new.items ≡ log ++ record h { roles = roles } ∷ [] }
    ensures none { entries.old.items ≡ [] → entries.new.items ≡ [] }
{
    let count = entries.len();
    if count > 0 {
        entries[count - 1].roles = roles;
    }
}

impl SplitLog {
    /// A log with no entry. Takes no memory.
    pub fn new(alloc: Global) -> SplitLog
        ensures { result ≡ [] }
    {
        SplitLog {
            entries: Vec::new(alloc),
            index: none(alloc),
            firsts: BTreeMap::new(alloc),
        }
    }

    /// Makes room for so many entries more, of one logged line each, so that it isn't wanting later. Where memory fails nothing
    /// changes.
    pub fn reserve(&mut self, count: usize) -> Result<(), AllocError>
        ensures { self.new ≡ self.old }
    {
        reserve_more(&mut self.entries, count)?;
        reserve(&mut self.index, count)?;
        Ok(())
    }

    /// Puts at the end what is logged of an entry and is made already: for who shows it to others first. Where memory fails
    /// nothing changes.
    pub fn push(&mut self, log_entry: LogEntry) -> Result<(), AllocError>
        ensures ok { OnOk result (self.new ≡ self.old ++ log_entry ∷ []) }
        ensures err { OnErr result (self.new ≡ self.old) }
    {
        let entry = self.entries.len();
        note_last(&mut self.firsts, self.entries.as_slice())?;
        self.entries.reserve(1)?;
        note(&mut self.index, entry, log_entry.lines.as_slice())?;
        self.entries.push(log_entry).unwrap();
        Ok(())
    }

    /// Puts an entry at the end: of its events the lines that `line_for` gives, then its lines. The events' numbers are in the
    /// range of names and dex; another has the line that `line_for` says. Where memory fails nothing changes.
    pub fn append_whole(
        &mut self,
        alloc: Global,
        entry: Entry<'_>,
        names: &Names,
        dex: &Dex,
    ) -> Result<(), AllocError>
        ensures ok { OnOk result (self.new ≡ self.old
            ++ log_entry_of names.now dex.now entry.entry.conn entry.entry.events.now entry.entry.lines.items entry.entry.join
            entry.entry.roles.now ∷ []) }
        ensures err { OnErr result (self.new ≡ self.old) }
    {
        let log_entry = log_entry_of(alloc, names, dex, entry)?;
        self.push(log_entry)
    }

    /// Puts an entry of events alone at the end. Where memory fails nothing changes.
    pub fn append(
        &mut self,
        alloc: Global,
        conn: ConnNo,
        events: &[Event],
        names: &Names,
        dex: &Dex,
    ) -> Result<(), AllocError>
        ensures ok { OnOk result (self.new ≡ self.old ++ log_entry_of names.now dex.now conn events.now [] None [] ∷ []) }
        ensures err { OnErr result (self.new ≡ self.old) }
    {
        let entry = Entry {
            conn,
            events,
            lines: Vec::new(alloc),
            join: None,
            roles: &[],
        };
        self.append_whole(alloc, entry, names, dex)
    }

    /// Takes the last entry back, if there is one: for who changes something of its own with the log, where that fails. Takes no
    /// memory.
    #[tactic(auto, using(crate::proofs::IndexLemmas::front))]
    pub fn take_back(&mut self)
        ensures last { (log : prelude.List LogEntry) (h : LogEntry) → self.old ≡ log ++ h ∷ [] → self.new ≡ log }
        ensures none { self.old ≡ [] → self.new ≡ [] }
    {
        let rest = self.entries.len().saturating_sub(1);
        forget(&mut self.index);
        self.entries.truncate(rest);
    }

    /// Gives the last entry, if there is one, these roles in place of its own: for who learns them by a change that comes after
    /// all memory was taken. Takes no memory.
    pub fn give_roles(&mut self, roles: List<(ConnNo, Role)>)
        ensures last { (log : prelude.List LogEntry) (h : LogEntry) → self.old ≡ log ++ h ∷ []
            → self.new ≡ log ++ record h { roles = roles } ∷ [] }
        ensures none { self.old ≡ [] → self.new ≡ [] }
    {
        set_roles(&mut self.entries, roles);
    }

    /// What a connection in this role is sent at an entry that comes next, of which this will be logged.
    pub fn message_next(
        &self,
        alloc: Global,
        conn: ConnNo,
        role: Role,
        log_entry: &LogEntry,
    ) -> Result<List<Text>, AllocError>
        ensures { IfOk result (λ v. v ≡ message_of conn role (logged_lines self.now) log_entry.now) }
    {
        message_next(
            alloc,
            self.entries.as_slice(),
            &self.index,
            conn,
            role,
            log_entry,
        )
    }

    /// The messages past a cursor, which moves to the end. Each has one line at least. Where memory fails the cursor stays. The
    /// cursor is one of this log.
    pub fn read_from(&self, alloc: Global, cursor: &mut Cursor) -> Result<Vec<Msg>, AllocError>
        ensures messages { IfOk result (λ v. map msg_lines v.items ≡ read_past cursor.old self.now) }
        ensures end { OnOk result (cursor.new ≡ cursor_past cursor.old self.now) }
        ensures err { OnErr result (cursor.new ≡ cursor.old) }
    {
        let from = begin(
            self.entries.as_slice(),
            &self.firsts,
            cursor.conn,
            cursor.role,
            cursor.at,
        );
        let mut messages = Vec::new(alloc);
        let role = push_messages(
            alloc,
            &mut messages,
            self.entries.as_slice(),
            &self.index,
            cursor.conn,
            cursor.role,
            from,
        )?;
        cursor.role = role;
        cursor.at = self.entries.len();
        Ok(messages)
    }

    /// The messages past a cursor as far as a piece goes, to whose end the cursor moves. A piece ends at the first entry behind
    /// which it is full, by `PIECE_MESSAGES` or `PIECE_BYTES`, or `least` entries are left, but not while more than `most` are
    /// left. Where memory fails the cursor stays. The cursor is one of this log; with fewer than `least` entries behind it, it
    /// reads nothing.
    pub fn read_piece(
        &self,
        alloc: Global,
        cursor: &mut Cursor,
        least: usize,
        most: usize,
    ) -> Result<Piece, AllocError>
        requires { least ≤ most }
        ensures messages { IfOk result (λ p. map msg_lines p.messages.items ≡ read_past cursor.old (without_last p.left self.now)) }
        ensures end { IfOk result (λ p. cursor.new ≡ cursor_past cursor.old (without_last p.left self.now)) }
        ensures high { IfOk result (λ p. p.left ≤ most) }
        ensures low { IfOk result (λ p. fewest_left least cursor.old self.now ≤ p.left) }
        ensures onward { IfOk result (λ p. p.left ≤ length self.now - cursor.old.at) }
        ensures short { IfOk result (λ p. HadRoomBeforeLast (map msg_lines p.messages.items) ⊎ (p.left ≡ most)) }
        ensures whole { IfOk result (λ p. (p.left ≡ fewest_left least cursor.old self.now) ⊎ IsFull (map msg_lines p.messages.items)) }
        ensures err { OnErr result (cursor.new ≡ cursor.old) }
    {
        let entries = self.entries.as_slice();
        let start = start_of(entries, &self.firsts, *cursor, least);
        let walked = walk(alloc, entries, &self.index, start, least, most)?;
        *cursor = walked.cursor;
        Ok(walked.piece)
    }
}
