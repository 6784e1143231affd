//! A room with what may still be shown of its log.
ghost use Rattle.std.specs.Prelude.{◌≡◌, IfOk, OnOk, OnErr};
ghost use Rattle.std.specs.Option.{option_to_list};
ghost use Rattle.ps_splitlog.specs.Entries.{last_of, logged_lines};
ghost use Rattle.ps_splitlog.specs.Shorts.{lines_of};
ghost use Rattle.ps_room.specs.Records.{presents_of};
ghost use Rattle.ps_room.specs.Rooms.{role};
ghost use Rattle.ps_room.specs.Logs.{record_in, given, out_of, Goes};

use crate::place::let_go;
use ps_base::list::List;
use ps_base::number::ConnNo;
use ps_base::text::Text;
use ps_chat::present::Present;
use ps_room::entry::Entry;
use ps_room::opening::Opening;
use ps_room::state::{OpenedRoom, Prepared, RoomState};
use ps_splitlog::backlog::BacklogSize;
use ps_splitlog::entry::LogEntry;
use ps_splitlog::short_log::ShortLog;
use ps_view::role::Role;
use std::alloc::{AllocError, Global};
use std::marker::Model;

/// A room with the part of its log that who joins may still be shown: of what it logged the last hundred lines, or in a battle all.
/// What else an entry gives is printed at once, and no reader comes later. Contracts see the room apart from its log, and these
/// lines.
pub struct ShortRoom {
    state: RoomState,
    log: ShortLog,
}

// By hand, so that whoever drops a room has one step of its proof for that.
impl Drop for ShortRoom {
    fn drop(self) {
        let ShortRoom { state: _, log: _ } = self;
    }
}

impl Model for ShortRoom {
    ghost use Rattle.std.specs.Coded.{codes, coded_ℕ};
    ghost use base.Stored.{coded_unit};
    ghost use Rattle.ps_base.specs.ById.{by_id_code};
    ghost use Rattle.ps_splitlog.specs.Shorts.{lines_of};
    ghost use Rattle.replay_state.specs.Kepts.{Kept};

    ghost Value = { Kept };

    ghost coded = { Prim.hlevel (codes, by_id_code coded_ℕ, by_id_code coded_unit) };

    ghost view = { λ r. record { room = r.state; most = r.log.most; backlog = lines_of r.log } };
}

// A log that begins with this entry, if there is one.
fn log_of(alloc: Global, most: BacklogSize, first: Option<LogEntry>) -> Result<ShortLog, AllocError>
    ensures most { IfOk result (λ l. l.most ≡ most) }
    ensures lines { IfOk result (λ l. lines_of l ≡ last_of most (logged_lines (option_to_list first))) }
{
    let mut log = ShortLog::new(alloc, most);
    match first {
        None => Ok(log),
        Some(log_entry) => {
            log.push(log_entry)?;
            Ok(log)
        }
    }
}

impl ShortRoom {
    ghost use Rattle.ps_room.specs.Openings.{IsFitOpening};
    ghost use Rattle.replay_state.specs.Kepts.{kept_opened, kept_after};
    ghost use Rattle.replay_state.specs.Houses.{next_message};

    /// A room with nobody in it; where the opening has a battle, that is open.
    pub(crate) fn new(alloc: Global, opening: Opening) -> Result<ShortRoom, AllocError>
        requires { IsFitOpening opening }
        ensures { IfOk result (λ r. r ≡ kept_opened opening) }
    {
        let opened = RoomState::open(alloc, opening)?;
        let OpenedRoom { state, first } = opened;
        let log = log_of(alloc, state.backlog_size(), first)?;
        Ok(ShortRoom { state, log })
    }

    /// The room's id.
    pub(crate) fn id(&self) -> &str
        ensures { result.now ≡ self.now.room.id }
    {
        self.state.id()
    }

    /// The members in join order, each with its rank in the room. Takes no memory.
    pub(crate) fn members(&self) -> &[Present]
        ensures { result.now ≡ presents_of (record_in self.now.room) }
    {
        self.state.members()
    }

    /// What a connection is to the room. Takes no memory.
    pub(crate) fn role(&self, conn: ConnNo) -> Role
        ensures { result ≡ role conn (record_in self.now.room) }
    {
        self.state.role(conn)
    }

    /// Works out what comes of an entry that comes next, for `keep`. Fails only if out of memory.
    pub(crate) fn prepare(&self, alloc: Global, entry: &Entry) -> Result<Prepared, AllocError>
        ensures out { IfOk result (λ p. p.out ≡ out_of (record_in self.now.room) entry.now) }
        ensures log_entry { IfOk result (λ p. p.log_entry ≡ given (record_in self.now.room) entry.now) }
        ensures goes { IfOk result (λ p. Goes self.now.room entry.now p.bout) }
    {
        self.state.prepare(alloc, entry)
    }

    /// Applies an entry, of which `prepare` worked out what comes of it: it has been printed, so that the log is to have what who
    /// joins may be shown of it. Where memory fails nothing changes.
    pub(crate) fn keep(
        &mut self,
        alloc: Global,
        entry: &Entry,
        prepared: Prepared,
    ) -> Result<(), AllocError>
        requires out { prepared.out ≡ out_of (record_in self.old.room) entry.now }
        requires given { prepared.log_entry ≡ given (record_in self.old.room) entry.now }
        requires goes { Goes self.old.room entry.now prepared.bout }
        ensures ok { OnOk result (self.new ≡ kept_after self.old entry.now) }
        ensures err { OnErr result (self.new ≡ self.old) }
    {
        let Prepared {
            out,
            log_entry,
            bout,
        } = prepared;
        // The entry before this one: what may fail comes before the room changes, and no entry is taken back that is forgotten.
        self.log.forget_first()?;
        self.log.push(log_entry)?;
        match self.state.keep(alloc, entry, out, bout) {
            Ok(roles) => {
                let_go(roles);
                Ok(())
            }
            Err(e) => {
                self.log.take_back();
                Err(e)
            }
        }
    }

    /// What a connection is sent at an entry that comes next, of which all that it gives is handed in.
    #[tactic(auto, unfolding(crate::specs::Houses::next_message))]
    pub(crate) fn message(
        &self,
        alloc: Global,
        conn: ConnNo,
        log_entry: &LogEntry,
    ) -> Result<List<Text>, AllocError>
        ensures { IfOk result (λ v. v ≡ next_message conn self.now log_entry.now) }
    {
        self.log
            .message_next(alloc, conn, self.state.role(conn), log_entry)
    }
}
