//! The hall and the rooms.
ghost use Rattle.std.specs.Prelude.{◌≡◌, ◌++◌, ◌∷◌, [], ◌+◌, ◌≤◌, ◌<◌, IfOk, IfSome, OnOk, map, string_bytes, length, Some, None};
ghost use Rattle.std.specs.FinMap as maps;
ghost use Rattle.std.specs.Option.{option_copied, option_map};
ghost use Rattle.std.specs.Arc.{arc_value};
ghost use Rattle.ps_base.specs.Limits.{most_battles};
ghost use Rattle.rules_start.specs.Fits.{IsFit};
ghost use Rattle.ps_hall.specs.Halls as halls;
ghost use Rattle.ps_hall.specs.Lookups.{badge_of};
ghost use Rattle.replay_state.specs.declared.place.Placed.TheVariants as placed;
ghost use Rattle.ps_room.specs.Openings.{chat_opening, chats_from, battle_opening};
ghost use Rattle.replay_state.specs.Worlds.{with_number, numbers_from, started_by};
ghost use Rattle.ps_room.specs.Logs.{record_in, ended_in};
ghost use Rattle.replay_state.specs.Kepts.{kept_opened};
ghost use Rattle.replay_state.specs.Nows.{room_at, record_at};
ghost use Rattle.replay_state.specs.Houses.{House, standing, now_in, begin, house_opening, house_after};
ghost use Rattle.replay_state.specs.Entries.{is_member, quit_of, quit_in, room_quits, named_quits, quits, is_open, out_at, ending_at};
ghost use Rattle.replay_state.specs.Notes.{act_in, won_by};
ghost use Rattle.replay_state.specs.Counts.{hall_refuses};
ghost use Rattle.replay_state.specs.Ledgers.{asked, entered};
ghost use Rattle.replay_state.specs.Transcript.{printed, with_id};
ghost use Rattle.ps_base.specs.Lists.{each_to};
ghost use Rattle.replay_state.specs.Tables.{entry_text, entry_ledger};

use crate::place::{Placed, hall_entry};
use crate::replay_room::{ReplayRoom, play_rooms};
use crate::transcript::{Ledger, Transcript, hall_refuses, out_refuses};
use crate::{notes, play};
use ps_base::badge::Badge;
use ps_base::id_map::IdMap;
use ps_base::limit::MOST_BATTLES;
use ps_base::number::{ConnNo, Moment, RoomNo};
use ps_dex::dex::Dex;
use ps_hall::entry::HallEntry;
use ps_hall::hall_state::HallState;
use ps_hall::notice::Notice;
use ps_hall::outcome::{HallOut, HallVerdict, Told};
use ps_keep::note::Note;
use ps_lines::command::{Command, HallCmd};
use ps_room::entry::Entry;
use ps_room::opening::{FIRST_BATTLE, battle_opening, chat_opening, room_of_battle};
use ps_room::outcome::{Ending, RoomOut};
use ps_view::role::Role;
use rules_config::config::Config;
use rules_config::settings::ChatRoom;
use rules_start::start::Start;
use std::alloc::{AllocError, Global};
use std::marker::Model;
use std::sync::Arc;

/// The hall, the chat rooms by their numbers, the rooms of battles in the order in which these started, and the number of
/// each room by its id.
pub struct Places {
    hall: HallState,
    chats: Vec<ReplayRoom>,
    battles: Vec<ReplayRoom>,
    numbers: IdMap<u32>,
}

// By hand, so that whoever drops the places has one step of its proof for that.
impl Drop for Places {
    fn drop(self) {
        let Places {
            hall: _,
            chats: _,
            battles: _,
            numbers: _,
        } = self;
    }
}

impl Model for Places {
    ghost use Rattle.std.specs.Prelude.{◌≤◌, map, length};
    ghost use Rattle.std.specs.Coded.{codes, coded_ℕ, coded_ℤ};
    ghost use base.Stored.{coded_unit};
    ghost use Rattle.ps_base.specs.ById.{by_id_code};
    ghost use Rattle.ps_base.specs.Limits.{most_battles};
    ghost use Rattle.ps_users.specs.ByConn.{by_conn_code};
    ghost use Rattle.replay_state.specs.Houses.{House};

    ghost Value = { House };

    ghost coded = { Prim.hlevel (codes, by_id_code, by_conn_code, coded_ℕ, coded_ℤ, coded_unit) };

    ghost view = { λ p. record { hall = p.hall; chats = p.chats.items; battles = p.battles.items; numbers = p.numbers } };

    ghost invariant = { λ p. (length p.chats.items ≤ 16) × (length p.battles.items ≤ most_battles) };
}

// ---- opening rooms

fn open_chat(
    alloc: Global,
    config: &Arc<Config>,
    dex: &Arc<Dex>,
    no: u32,
    room: &ChatRoom,
) -> Result<ReplayRoom, AllocError>
    ensures { IfOk result (λ r. r ≡ kept_opened (chat_opening (arc_value config.now) (arc_value dex.now) no room.now)) }
{
    let opening = chat_opening(alloc, config, dex, no, room)?;
    ReplayRoom::new(alloc, opening)
}

// Opens a chat room behind the others, and notes its number.
fn push_chat(
    alloc: Global,
    chats: &mut Vec<ReplayRoom>,
    numbers: &mut IdMap<u32>,
    config: &Arc<Config>,
    dex: &Arc<Dex>,
    no: u32,
    room: &ChatRoom,
) -> Result<(), AllocError>
    ensures chats { OnOk result (chats.new.items ≡ chats.old.items
        ++ kept_opened (chat_opening (arc_value config.now) (arc_value dex.now) no room.now) ∷ []) }
    ensures count { OnOk result (length chats.new.items ≡ length chats.old.items + 1) }
    ensures numbers { OnOk result (numbers.new
        ≡ with_number numbers.old (chat_opening (arc_value config.now) (arc_value dex.now) no room.now)) }
{
    chats.push(open_chat(alloc, config, dex, no, room)?)?;
    numbers.insert(alloc, room.id.as_str(), no)?;
    Ok(())
}

// Opens the chat rooms, of which the first has the number `no`, and notes their numbers.
fn open_chats(
    alloc: Global,
    chats: &mut Vec<ReplayRoom>,
    numbers: &mut IdMap<u32>,
    config: &Arc<Config>,
    dex: &Arc<Dex>,
    no: u32,
    rooms: &[ChatRoom],
) -> Result<(), AllocError>
    requires { no + length rooms.now ≤ 16 }
    ensures chats { OnOk result (chats.new.items ≡ chats.old.items
        ++ map kept_opened (chats_from (arc_value config.now) (arc_value dex.now) no rooms.now)) }
    ensures count { OnOk result (length chats.new.items ≡ length chats.old.items + length rooms.now) }
    ensures numbers { OnOk result (numbers.new
        ≡ numbers_from numbers.old (chats_from (arc_value config.now) (arc_value dex.now) no rooms.now)) }
{
    match rooms {
        [] => Ok(()),
        [room, rest @ ..] => {
            push_chat(alloc, chats, numbers, config, dex, no, room)?;
            open_chats(alloc, chats, numbers, config, dex, no + 1, rest)
        }
    }
}

// Opens the room of a battle that starts.
fn begin(
    alloc: Global,
    battles: &mut Vec<ReplayRoom>,
    numbers: &mut IdMap<u32>,
    config: Arc<Config>,
    dex: Arc<Dex>,
    start: Start,
) -> Result<(), AllocError>
    requires few { length battles.old.items ≤ most_battles }
    requires fit { IsFit start (arc_value config) (arc_value dex) }
    ensures battles { OnOk result (battles.new.items ≡ battles.old.items
        ++ kept_opened (battle_opening (arc_value config) (arc_value dex) start) ∷ []) }
    ensures count { length battles.new.items ≤ most_battles }
    ensures numbers { OnOk result (numbers.new ≡ with_number numbers.old (battle_opening (arc_value config) (arc_value dex) start)) }
{
    // The hall starts no more; past them the answer is out of memory.
    if battles.len() >= MOST_BATTLES as usize || start.number > MOST_BATTLES {
        return Err(AllocError);
    }
    let no = room_of_battle(start.number);
    let opening = battle_opening(alloc, config, dex, start)?;
    let room = ReplayRoom::new(alloc, opening)?;
    numbers.insert(alloc, room.id(), no)?;
    battles.push(room)?;
    Ok(())
}

// ---- the end of a session

// The Quit of a connection in one room.
fn quit_of(
    alloc: Global,
    moment: Moment,
    conn: ConnNo,
    badge: &Badge,
    no: u32,
) -> Result<Placed, AllocError>
    ensures { IfOk result (λ p. p ≡ quit_of moment conn badge.now no) }
{
    Ok(Placed::Room(
        RoomNo(no),
        Entry {
            conn,
            badge: badge.copy(alloc)?,
            moment,
            cmd: Command::Quit,
        },
    ))
}

fn is_member(room: &ReplayRoom, conn: ConnNo) -> bool
    ensures { result ≡ is_member conn (record_in room.now.room) }
{
    match room.role(conn) {
        Role::Outside => false,
        Role::Spectator { .. } => true,
        Role::Player { .. } => true,
    }
}

fn push_quit(
    alloc: Global,
    quits: &mut Vec<Placed>,
    moment: Moment,
    conn: ConnNo,
    badge: &Badge,
    no: u32,
    room: &ReplayRoom,
) -> Result<(), AllocError>
    ensures { OnOk result (quits.new.items ≡ quits.old.items ++ quit_in moment conn badge.now no (standing room.now)) }
{
    if is_member(room, conn) {
        quits.push(quit_of(alloc, moment, conn, badge, no)?)?;
    }
    Ok(())
}

// The Quits of a connection in these rooms, whose first has the number `no`.
fn push_quits(
    alloc: Global,
    quits: &mut Vec<Placed>,
    moment: Moment,
    conn: ConnNo,
    badge: &Badge,
    no: u32,
    rooms: &[ReplayRoom],
) -> Result<(), AllocError>
    requires { no + length rooms.now ≤ 65552 }
    ensures { OnOk result (quits.new.items ≡ quits.old.items ++ room_quits moment conn badge.now no (map standing rooms.now)) }
{
    match rooms {
        [] => Ok(()),
        [room, rest @ ..] => {
            push_quit(alloc, quits, moment, conn, badge, no, room)?;
            push_quits(alloc, quits, moment, conn, badge, no + 1, rest)
        }
    }
}

fn ending_in(out: Option<RoomOut>) -> Option<Ending>
    ensures { result ≡ ended_in out }
{
    match out {
        None => None,
        Some(out) => out.ended,
    }
}

// Prints what an entry of the hall told, counts it, and notes what it does.
fn push_applied(
    alloc: Global,
    conns: u32,
    told: &[Notice],
    verdict: HallVerdict,
    does: Option<Note>,
    out: &mut Transcript,
) -> Result<(), AllocError>
    ensures text { OnOk result (string_bytes out.new.text ≡ string_bytes out.old.text
        ++ each_to (λ conn. printed conn (with_id None (halls.message_of conn told.now))) conns) }
    ensures ledger { OnOk result (out.new.ledger ≡ entered (hall_refuses verdict) does out.old.ledger) }
{
    let refused = hall_refuses(verdict);
    play::push_hall_told(alloc, &mut out.text, conns, told)?;
    out.ledger.enter(refused, does)
}

impl Places {
    /// Before the first entry, with the ranks that the script gives.
    pub fn new(
        alloc: Global,
        config: Arc<Config>,
        dex: Arc<Dex>,
        ranks: IdMap<u8>,
    ) -> Result<Places, AllocError>
        ensures { IfOk result (λ p. p ≡ house_opening (record { config = arc_value config; dex = arc_value dex; ranks = ranks })) }
    {
        let mut chats = Vec::new(alloc);
        let mut numbers = IdMap::new(alloc);
        open_chats(
            alloc,
            &mut chats,
            &mut numbers,
            &config,
            &dex,
            0,
            config.rooms(),
        )?;
        let hall = HallState::new(alloc, config, dex, ranks)?;
        Ok(Places {
            hall,
            chats,
            battles: Vec::new(alloc),
            numbers,
        })
    }

    /// Whether a connection is open.
    pub fn is_open(&self, conn: ConnNo) -> bool
        ensures { result ≡ is_open conn (now_in self.now) }
    {
        self.hall.is_open(conn)
    }

    /// The number of the room with an id, compared as the whole text.
    pub fn number(&self, id: &str) -> Option<u32>
        ensures { result ≡ maps.get self.now.numbers id.now }
    {
        self.numbers.get(id)
    }

    /// A Quit in each room of which the connection is a member, in ascending number, and then in the hall.
    pub fn quits(
        &self,
        alloc: Global,
        moment: Moment,
        conn: ConnNo,
    ) -> Result<Vec<Placed>, AllocError>
        ensures { IfOk result (λ v. v.items ≡ quits moment (now_in self.now) conn) }
    {
        let mut quits = Vec::new(alloc);
        match self.hall.badge(conn) {
            None => {}
            Some(badge) => {
                push_quits(alloc, &mut quits, moment, conn, badge, 0, &self.chats)?;
                push_quits(
                    alloc,
                    &mut quits,
                    moment,
                    conn,
                    badge,
                    FIRST_BATTLE,
                    &self.battles,
                )?;
            }
        }
        quits.push(hall_entry(moment, conn, HallCmd::Quit))?;
        Ok(quits)
    }

    // The battle whose end an entry of the hall reports, for who asks for notes.
    fn asked_won(
        &self,
        alloc: Global,
        ledger: &Ledger,
        entry: &HallEntry,
    ) -> Result<Option<Note>, AllocError>
        ensures { IfOk result (λ n. n ≡ asked ledger.now.notes (won_by self.now.hall entry.now.cmd)) }
    {
        if !ledger.is_noting() {
            return Ok(None);
        }
        notes::won_by(alloc, &self.hall, entry)
    }

    // The act of an entry of a room, for who asks for notes.
    fn asked_act(
        &self,
        alloc: Global,
        ledger: &Ledger,
        no: RoomNo,
        entry: &Entry,
    ) -> Result<Option<Note>, AllocError>
        ensures { IfOk result (λ n. n ≡ asked ledger.now.notes (act_in (room_at no (now_in self.now)) entry.now)) }
    {
        if !ledger.is_noting() {
            return Ok(None);
        }
        if no.0 < FIRST_BATTLE {
            notes::act_in(alloc, &self.chats, no.0 as usize, entry)
        } else {
            notes::act_in(alloc, &self.battles, (no.0 - FIRST_BATTLE) as usize, entry)
        }
    }

    /// Prints, counts and notes an entry of the hall, to the connections from 1 to `conns`, and applies it. Gives the badge that
    /// its sender has from it on.
    #[tactic(auto, using(crate::proofs::LedgerLemmas::as_asked))]
    pub fn push_hall(
        &mut self,
        alloc: Global,
        conns: u32,
        entry: &HallEntry,
        out: &mut Transcript,
    ) -> Result<Option<Badge>, AllocError>
        ensures state { OnOk result (self.new ≡ house_after self.old (placed.Hall entry.now)) }
        ensures text { OnOk result (string_bytes out.new.text ≡ string_bytes out.old.text
            ++ entry_text conns self.old (placed.Hall entry.now)) }
        ensures ledger { OnOk result (out.new.ledger ≡ entry_ledger self.old (placed.Hall entry.now) out.old.ledger) }
        ensures badge { IfOk result (λ b. b ≡ (halls.out_of self.old.hall entry.now).badge) }
    {
        let config = self.hall.config().clone()?;
        let dex = self.hall.dex().clone()?;
        let won = self.asked_won(alloc, &out.ledger, entry)?;
        let Told { out: made, notices } = self.hall.apply(alloc, entry)?;
        let HallOut {
            verdict,
            badge,
            start,
        } = made;
        push_applied(alloc, conns, notices.as_slice(), verdict, won, out)?;
        match start {
            None => Ok(badge),
            Some(start) => {
                begin(
                    alloc,
                    &mut self.battles,
                    &mut self.numbers,
                    config,
                    dex,
                    start,
                )?;
                Ok(badge)
            }
        }
    }

    /// Prints an entry of a room, to the connections from 1 to `conns`, and applies it. Gives what comes of it, where the
    /// room is there.
    fn play_room(
        &mut self,
        alloc: Global,
        conns: u32,
        no: RoomNo,
        entry: &Entry,
        out: &mut String,
    ) -> Result<Option<RoomOut>, AllocError>
        ensures state { OnOk result (self.new ≡ house_after self.old (placed.Room no entry.now)) }
        ensures text { OnOk result (string_bytes out.new ≡ string_bytes out.old ++ entry_text conns self.old (placed.Room no entry.now)) }
        ensures out { IfOk result (λ o. o ≡ out_at (record_at no (now_in self.old)) entry.now) }
    {
        if no.0 < FIRST_BATTLE {
            play_rooms(alloc, out, conns, &mut self.chats, no.0 as usize, entry)
        } else {
            let place = (no.0 - FIRST_BATTLE) as usize;
            play_rooms(alloc, out, conns, &mut self.battles, place, entry)
        }
    }

    /// Prints, counts and notes an entry of a room, to the connections from 1 to `conns`, and applies it. Gives the end of its
    /// battle, where the entry ended it.
    #[tactic(auto, using(crate::proofs::LedgerLemmas::as_asked))]
    pub fn push_room(
        &mut self,
        alloc: Global,
        conns: u32,
        no: RoomNo,
        entry: &Entry,
        out: &mut Transcript,
    ) -> Result<Option<Ending>, AllocError>
        ensures state { OnOk result (self.new ≡ house_after self.old (placed.Room no entry.now)) }
        ensures text { OnOk result (string_bytes out.new.text ≡ string_bytes out.old.text
            ++ entry_text conns self.old (placed.Room no entry.now)) }
        ensures ledger { OnOk result (out.new.ledger ≡ entry_ledger self.old (placed.Room no entry.now) out.old.ledger) }
        ensures ended { IfOk result (λ o. o ≡ ending_at (record_at no (now_in self.old)) entry.now) }
    {
        let act = self.asked_act(alloc, &out.ledger, no, entry)?;
        let made = self.play_room(alloc, conns, no, entry, &mut out.text)?;
        out.ledger.enter(out_refuses(made), act)?;
        Ok(ending_in(made))
    }
}
