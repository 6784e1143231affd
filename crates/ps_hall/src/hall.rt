//! The hall.
ghost use Rattle.std.specs.Prelude.{◌≡◌, ◌+◌, ◌<◌, ◌≤◌, ◌⊎◌, ◌++◌, ◌∷◌, [], IfOk, IfSome, OnOk, OnErr, length, map};
ghost use Rattle.std.specs.Option.{option_copied};
ghost use Rattle.std.specs.Arc.{arc_value};
ghost use Rattle.rules_start.specs.Fits.{IsFit};
ghost use Rattle.ps_users.specs.Seats.{is_seat};
ghost use Rattle.ps_hall.specs.Records.{opened};
ghost use Rattle.ps_hall.specs.Lookups.{badge_of, game_in};
ghost use Rattle.ps_hall.specs.Refusals.{refusal};
ghost use Rattle.ps_hall.specs.Halls.{seen_opened, seen_after, after, notices, out_of, pulled_past, cursor_past, before_last, last_told};
ghost use Rattle.ps_hall.specs.Pieces.{IsEnough, HadRoomBeforeLast};
ghost use Rattle.ps_base.specs.Messages.{msg_lines};

use crate::cursor::Cursor;
use crate::entry::HallEntry;
use crate::game::Game;
use crate::hall_state::HallState;
use crate::log::{past, push_pulled};
use crate::notice::Notice;
use crate::outcome::{HallOut, Told};
use crate::piece::{HallPiece, piece_past};
use ps_base::badge::Badge;
use ps_base::hall_why::HallWhy;
use ps_base::id_map::IdMap;
use ps_base::list::List;
use ps_base::msg::Msg;
use ps_base::number::ConnNo;
use ps_dex::dex::Dex;
use ps_lines::command::HallCmd;
use rules_config::config::Config;
use std::alloc::{AllocError, Global};
use std::marker::Model;
use std::sync::Arc;

/// The hall: users, whispers, challenges, searches, ratings, and the battles that start. Contracts see its record,
/// and what it keeps of its entries.
pub struct Hall {
    state: HallState,
    log: Vec<List<Notice>>,
}

// By hand, so that who drops one has one call to prove.
impl Drop for Hall {
    fn drop(self) {
        let Hall { state: _, log: _ } = self;
    }
}

impl Model for Hall {
    ghost use Rattle.std.specs.Coded.{codes, coded_ℕ, coded_ℤ};
    ghost use base.Stored.{coded_unit};
    ghost use Rattle.ps_base.specs.ById.{by_id_code};
    ghost use Rattle.ps_users.specs.ByConn.{by_conn_code};
    ghost use Rattle.ps_hall.specs.Halls.{Seen};

    ghost Value = { Seen };

    ghost coded = { Prim.hlevel (codes, by_id_code, by_conn_code, coded_ℕ, coded_ℤ, coded_unit) };

    ghost view = { λ h. record { state = h.state; log = h.log.items } };
}

// How many connections end behind an entry at the most: as many as a server has at once.
const MOST_ENDS: usize = 16_384;

// How many entries more the log takes if it can't double.
const CHUNK: usize = 1024;

// Makes room in the log for the ends of all connections, so that who comes to an end isn't in want of what others took. The end itself
// takes of what was kept for it.
fn keep_room(log: &mut Vec<List<Notice>>, cmd: &HallCmd) -> Result<(), AllocError>
    ensures { log.new.items ≡ log.old.items }
{
    let count = match cmd {
        HallCmd::Quit => 1,
        _ => MOST_ENDS + 1,
    };
    if log.reserve(count).is_ok() || log.reserve_exact(count + CHUNK).is_ok() {
        return Ok(());
    }
    log.reserve_exact(count)
}

// Applies an entry, or refuses it by name, and keeps what it told.
fn apply(
    alloc: Global,
    state: &mut HallState,
    log: &mut Vec<List<Notice>>,
    entry: &HallEntry,
) -> Result<HallOut, AllocError>
    ensures out { IfOk result (λ out. out ≡ out_of state.old entry.now) }
    ensures state { OnOk result (state.new ≡ after state.old entry.now) }
    ensures log { OnOk result (log.new.items ≡ log.old.items ++ notices state.old entry.now ∷ []) }
    ensures same_state { OnErr result (state.new ≡ state.old) }
    ensures same_log { OnErr result (log.new.items ≡ log.old.items) }
    ensures fit { IfOk result (λ out. IfSome out.start (λ s. IsFit s state.old.config state.old.dex)) }
{
    keep_room(log, &entry.cmd)?;
    log.reserve(1)?;
    let Told { out, notices } = state.apply(alloc, entry)?;
    log.push(notices).unwrap();
    Ok(out)
}

impl Hall {
    /// Nobody is connected. The ranks go before those of the registered names.
    pub fn new(
        alloc: Global,
        config: Arc<Config>,
        dex: Arc<Dex>,
        ranks: IdMap<u8>,
    ) -> Result<Hall, AllocError>
        ensures { IfOk result (λ h. h ≡ seen_opened (opened (arc_value config) (arc_value dex) ranks)) }
    {
        let state = HallState::new(alloc, config, dex, ranks)?;
        Ok(Hall {
            state,
            log: Vec::new(alloc),
        })
    }

    /// The configuration.
    pub fn config(&self) -> &Arc<Config>
        ensures { arc_value result.now ≡ self.now.state.config }
    {
        self.state.config()
    }

    /// The dex.
    pub fn dex(&self) -> &Arc<Dex>
        ensures { arc_value result.now ≡ self.now.state.dex }
    {
        self.state.dex()
    }

    /// Whether a connection is open. Takes no memory.
    pub fn is_open(&self, conn: ConnNo) -> bool
        ensures { result ≡ is_seat self.now.state.users.seats conn }
    {
        self.state.is_open(conn)
    }

    /// The badge of a connection, once it has a name. Takes no memory.
    pub fn badge(&self, conn: ConnNo) -> Option<&Badge>
        ensures { option_copied result ≡ badge_of self.now.state conn }
    {
        self.state.badge(conn)
    }

    /// The battle with a number, if it started and wasn't reported. Takes no memory.
    pub fn game(&self, number: u32) -> Option<&Game>
        ensures { option_copied result ≡ game_in self.now.state number }
    {
        self.state.game(number)
    }

    /// Why a command is refused; `None` where it is allowed.
    pub fn verdict(
        &self,
        alloc: Global,
        conn: ConnNo,
        cmd: &HallCmd,
    ) -> Result<Option<HallWhy>, AllocError>
        ensures { IfOk result (λ o. o ≡ refusal self.now.state conn cmd.now) }
    {
        self.state.verdict(alloc, conn, cmd)
    }

    /// Applies an entry, or refuses it by name. A refused one changes nothing and gives its sender one line. Where memory
    /// fails nothing changes.
    pub fn apply(&mut self, alloc: Global, entry: &HallEntry) -> Result<HallOut, AllocError>
        ensures out { IfOk result (λ out. out ≡ out_of self.old.state entry.now) }
        ensures ok { OnOk result (self.new ≡ seen_after self.old entry.now) }
        ensures err { OnErr result (self.new ≡ self.old) }
        ensures fit { IfOk result (λ out. IfSome out.start (λ s. IsFit s self.old.state.config self.old.state.dex)) }
    {
        apply(alloc, &mut self.state, &mut self.log, entry)
    }

    /// What the last entry told, and nothing before the first. Takes no memory.
    pub fn told(&self) -> &[Notice]
        ensures { result.now ≡ last_told self.now.log }
    {
        match self.log.get(self.log.len().saturating_sub(1)) {
            None => &[],
            Some(notices) => notices.as_slice(),
        }
    }

    /// The messages past a cursor, which moves to the end. Where memory fails the cursor stays. The cursor is one of this
    /// hall.
    pub fn pull(&self, alloc: Global, cursor: &mut Cursor) -> Result<Vec<Msg>, AllocError>
        ensures messages { IfOk result (λ v. map msg_lines v.items ≡ pulled_past cursor.old self.now) }
        ensures end { OnOk result (cursor.new ≡ cursor_past cursor.old self.now) }
        ensures err { OnErr result (cursor.new ≡ cursor.old) }
    {
        let mut messages = Vec::new(alloc);
        let log = past(self.log.as_slice(), cursor.at);
        push_pulled(alloc, &mut messages, cursor.conn, log)?;
        cursor.at = self.log.len();
        Ok(messages)
    }

    /// The messages past a cursor in one piece, behind which the cursor is then. The piece ends as soon as it has
    /// `PIECE_MESSAGES` messages, or lines of `PIECE_BYTES` bytes in all, or `least` entries are left behind it; but it goes
    /// on while more than `most` are left. So a message is never cut. Where memory fails the cursor stays. The cursor is one
    /// of this hall; past where `least` are left, nothing is read.
    pub fn pull_piece(
        &self,
        alloc: Global,
        cursor: &mut Cursor,
        least: usize,
        most: usize,
    ) -> Result<HallPiece, AllocError>
        ensures messages { IfOk result (λ p. map msg_lines p.messages.items ≡ pulled_past cursor.old (before_last p.left self.now)) }
        ensures end { IfOk result (λ p. cursor.new ≡ cursor_past cursor.old (before_last p.left self.now)) }
        ensures least { IfOk result (λ p. cursor.old.at + least ≤ length self.now.log → least ≤ p.left) }
        ensures most { IfOk result (λ p. least ≤ most → p.left ≤ most) }
        ensures short { IfOk result (λ p. HadRoomBeforeLast (map msg_lines p.messages.items) ⊎ (most ≤ p.left)) }
        ensures enough { IfOk result (λ p. least < p.left → IsEnough (map msg_lines p.messages.items)) }
        ensures err { OnErr result (cursor.new ≡ cursor.old) }
    {
        let log = self.log.as_slice();
        let piece = piece_past(alloc, cursor.conn, log, cursor.at, least, most)?;
        cursor.at = log.len() - piece.left;
        Ok(piece)
    }
}
