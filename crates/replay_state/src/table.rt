//! A replay's state.
ghost use Rattle.std.specs.Prelude.{◌≡◌, ◌++◌, ◌∷◌, [], ◌-◌, ◌≤◌, IfOk, IfErr, OnOk, OnErr, map, string_bytes, length, is_some, true};
ghost use Rattle.std.specs.Prelude.{Some, Ok};
ghost use Rattle.std.specs.Arc.{arc_value};
ghost use Rattle.ps_hall.specs.Halls as halls;
ghost use Rattle.std.specs.FinMap as maps;
ghost use Rattle.ps_session.specs.Routes.{no_room, after_no_room, taken, place_of, IsTakeFault};
ghost use Rattle.replay_script.specs.Cleans.{IsClean};
ghost use Rattle.replay_state.specs.declared.place.Happening.TheVariants as happening;
ghost use Rattle.replay_state.specs.Houses.{now_in};
ghost use Rattle.ps_session.specs.Sessions.{begun, counted, without_badge};
ghost use Rattle.replay_state.specs.Entries.{quits, ended, badged, report_of, entry_happenings, entry_in_room, entry_in_hall};
ghost use Rattle.replay_state.specs.Entries.{numbered_entry, text_entry, text_session, order_entry, entry_out, badge_past};
ghost use Rattle.replay_state.specs.Entries.{session_lent, session_past, lent_to_room, sent_by, session_of, opening, end_by};
ghost use Rattle.replay_state.specs.Entries.{end_sent, IsCounted};
ghost use Rattle.replay_state.specs.Tables.{happenings_text, happenings_after, happenings_ledger};

use crate::place::{EntryOut, Placed, badge_past, hall_entry, let_go};
use crate::places::Places;
use crate::print;
use crate::transcript::Transcript;
use ps_base::badge::Badge;
use ps_base::id_map::IdMap;
use ps_base::number::{ConnNo, Moment, RoomNo};
use ps_base::text::Text;
use ps_dex::dex::Dex;
use ps_lines::command::{Command, HallCmd};
use ps_lines::order::Order;
use ps_room::entry::Entry;
use ps_room::outcome::Ending;
use ps_session::session::{Session, TakeFault};
use replay_script::line::{Line, Said};
use rules_config::config::Config;
use std::alloc::{AllocError, Global};
use std::marker::Model;
use std::sync::Arc;

/// A replay's state: the moment, the hall and the rooms, and what is known of each connection, in order from 1.
pub struct Table {
    moment: Moment,
    places: Places,
    sessions: Vec<Session>,
}

// By hand, so that whoever drops a table has one step of its proof for that.
impl Drop for Table {
    fn drop(self) {
        let Table {
            moment: _,
            places: _,
            sessions: _,
        } = self;
    }
}

impl Model for Table {
    ghost use Rattle.std.specs.Prelude.{◌≤◌, length};
    ghost use Rattle.std.specs.Coded.{codes, coded_ℕ, coded_ℤ};
    ghost use base.Stored.{coded_unit};
    ghost use Rattle.ps_base.specs.ById.{by_id_code};
    ghost use Rattle.ps_users.specs.ByConn.{by_conn_code};
    ghost use Rattle.replay_state.specs.Tables.{Desk};

    ghost Value = { Desk };

    ghost coded = { Prim.hlevel (codes, by_id_code, by_conn_code, coded_ℕ, coded_ℤ, coded_unit) };

    ghost view = { λ t. record { moment = t.moment; house = t.places; sessions = t.sessions.items } };

    ghost invariant = { λ t. length t.sessions.items ≤ 65536 };
}

/// As many connections as a replay has room for, far more than a script may open. Past them the answer is out of memory.
const MOST_SESSIONS: usize = 65_536;

// ---- entries

fn push_placed(
    alloc: Global,
    places: &mut Places,
    count: u32,
    entry: &Placed,
    out: &mut Transcript,
) -> Result<(), AllocError>
    ensures state { OnOk result (places.new ≡ happenings_after places.old (happening.Entry entry.now ∷ [])) }
    ensures text { OnOk result (string_bytes out.new.text ≡ string_bytes out.old.text
        ++ happenings_text count places.old (happening.Entry entry.now ∷ [])) }
    ensures ledger { OnOk result (out.new.ledger ≡ happenings_ledger places.old (happening.Entry entry.now ∷ []) out.old.ledger) }
{
    match entry {
        Placed::Hall(entry) => {
            places.push_hall(alloc, count, entry, out)?;
            Ok(())
        }
        Placed::Room(no, entry) => {
            places.push_room(alloc, count, *no, entry, out)?;
            Ok(())
        }
    }
}

fn push_all(
    alloc: Global,
    places: &mut Places,
    count: u32,
    entries: &[Placed],
    out: &mut Transcript,
) -> Result<(), AllocError>
    ensures state { OnOk result (places.new ≡ happenings_after places.old (map happening.Entry entries.now)) }
    ensures text { OnOk result (string_bytes out.new.text ≡ string_bytes out.old.text
        ++ happenings_text count places.old (map happening.Entry entries.now)) }
    ensures ledger { OnOk result (out.new.ledger ≡ happenings_ledger places.old (map happening.Entry entries.now) out.old.ledger) }
{
    match entries {
        [] => Ok(()),
        [first, rest @ ..] => {
            push_placed(alloc, places, count, first, out)?;
            push_all(alloc, places, count, rest, out)
        }
    }
}

// The Quits of a connection.
fn push_quits(
    alloc: Global,
    places: &mut Places,
    moment: Moment,
    count: u32,
    conn: ConnNo,
    out: &mut Transcript,
) -> Result<(), AllocError>
    ensures state { OnOk result (places.new ≡ happenings_after places.old (map happening.Entry (quits moment (now_in places.old) conn))) }
    ensures text { OnOk result (string_bytes out.new.text ≡ string_bytes out.old.text
        ++ happenings_text count places.old (map happening.Entry (quits moment (now_in places.old) conn))) }
    ensures ledger { OnOk result (out.new.ledger
        ≡ happenings_ledger places.old (map happening.Entry (quits moment (now_in places.old) conn)) out.old.ledger) }
{
    let quits = places.quits(alloc, moment, conn)?;
    push_all(alloc, places, count, &quits, out)
}

// The end of a session.
#[tactic(auto, using(crate::proofs::EndLemmas::ended_after, crate::proofs::EndLemmas::ended_text, crate::proofs::EndLemmas::ended_ledger))]
fn push_ended(
    alloc: Global,
    places: &mut Places,
    moment: Moment,
    count: u32,
    conn: ConnNo,
    out: &mut Transcript,
) -> Result<(), AllocError>
    ensures state { OnOk result (places.new ≡ happenings_after places.old (ended moment (now_in places.old) conn)) }
    ensures text { OnOk result (string_bytes out.new.text ≡ string_bytes out.old.text
        ++ happenings_text count places.old (ended moment (now_in places.old) conn)) }
    ensures ledger { OnOk result (out.new.ledger ≡ happenings_ledger places.old (ended moment (now_in places.old) conn) out.old.ledger) }
{
    push_quits(alloc, places, moment, count, conn, out)?;
    print::push_over(&mut out.text, conn)?;
    Ok(())
}

// ---- texts

// Keeps the badge that a connection has from an entry of the hall on.
fn set_badge(session: &mut Session, badge: Option<Badge>)
    ensures { session.new ≡ badged badge session.old }
{
    match badge {
        None => {}
        Some(badge) => session.named(badge),
    }
}

// The end of a battle is reported to the hall.
fn push_report(
    alloc: Global,
    places: &mut Places,
    moment: Moment,
    count: u32,
    conn: ConnNo,
    end: Option<Ending>,
    out: &mut Transcript,
) -> Result<(), AllocError>
    ensures state { OnOk result (places.new ≡ happenings_after places.old (report_of moment conn end)) }
    ensures text { OnOk result (string_bytes out.new.text ≡ string_bytes out.old.text
        ++ happenings_text count places.old (report_of moment conn end)) }
    ensures ledger { OnOk result (out.new.ledger ≡ happenings_ledger places.old (report_of moment conn end) out.old.ledger) }
{
    match end {
        None => Ok(()),
        Some(end) => {
            let cmd = HallCmd::Report {
                number: end.number,
                winner: end.winner,
            };
            let report = hall_entry(moment, conn, cmd);
            let done = push_placed(alloc, places, count, &report, out);
            let_go(report);
            done
        }
    }
}

// An entry of a connection, and the report of the battle that it ended. Gives what comes of it.
fn push_entry(
    alloc: Global,
    places: &mut Places,
    moment: Moment,
    count: u32,
    conn: ConnNo,
    placed: &Placed,
    out: &mut Transcript,
) -> Result<EntryOut, AllocError>
    ensures state { OnOk result (places.new ≡ happenings_after places.old
        (entry_happenings moment (now_in places.old) conn (Some placed.now))) }
    ensures text { OnOk result (string_bytes out.new.text ≡ string_bytes out.old.text
        ++ happenings_text count places.old (entry_happenings moment (now_in places.old) conn (Some placed.now))) }
    ensures ledger { OnOk result (out.new.ledger
        ≡ happenings_ledger places.old (entry_happenings moment (now_in places.old) conn (Some placed.now)) out.old.ledger) }
    ensures out { IfOk result (λ made. made ≡ entry_out (now_in places.old) placed.now) }
{
    match placed {
        Placed::Hall(entry) => {
            let badge = places.push_hall(alloc, count, entry, out)?;
            Ok(EntryOut { ended: None, badge })
        }
        Placed::Room(no, entry) => {
            let ended = places.push_room(alloc, count, *no, entry, out)?;
            push_report(alloc, places, moment, count, conn, ended, out)?;
            Ok(EntryOut { ended, badge: None })
        }
    }
}

// The entry that an order made, to which the session lent its badge; where it made none, the session is over.
#[tactic(auto, using(crate::proofs::OrderLemmas::end_is))]
fn push_lent(
    alloc: Global,
    places: &mut Places,
    session: &mut Session,
    moment: Moment,
    count: u32,
    conn: ConnNo,
    placed: Option<Placed>,
    out: &mut Transcript,
) -> Result<Option<Ending>, AllocError>
    ensures state { OnOk result (places.new ≡ happenings_after places.old (entry_happenings moment (now_in places.old) conn placed)) }
    ensures session { OnOk result (session.new ≡ session_past (now_in places.old) placed session.old) }
    ensures text { OnOk result (string_bytes out.new.text ≡ string_bytes out.old.text
        ++ happenings_text count places.old (entry_happenings moment (now_in places.old) conn placed)) }
    ensures ledger { OnOk result (out.new.ledger
        ≡ happenings_ledger places.old (entry_happenings moment (now_in places.old) conn placed) out.old.ledger) }
    ensures ended { IfOk result (λ end. end ≡ end_by (now_in places.old) placed) }
{
    match placed {
        None => {
            push_ended(alloc, places, moment, count, conn, out)?;
            Ok(None)
        }
        Some(placed) => {
            match push_entry(alloc, places, moment, count, conn, &placed, out) {
                Err(error) => {
                    let_go(placed);
                    Err(error)
                }
                Ok(made) => {
                    set_badge(session, badge_past(placed, made.badge));
                    Ok(made.ended)
                }
            }
        }
    }
}

// ---- orders

// The entry of the room with a number, to which the session lends its badge.
fn entry_in_room(
    session: &mut Session,
    moment: Moment,
    conn: ConnNo,
    no: u32,
    cmd: Command,
) -> Option<Placed>
    ensures entry { result ≡ entry_in_room moment conn no cmd session.old.badge }
    ensures session { session.new ≡ without_badge session.old }
{
    match session.take_badge() {
        None => {
            let_go(cmd);
            None
        }
        Some(badge) => Some(Placed::Room(
            RoomNo(no),
            Entry {
                conn,
                badge,
                moment,
                cmd,
            },
        )),
    }
}

// The entry of the hall in the place of one for a room that isn't there.
fn entry_for_none(session: &mut Session, moment: Moment, conn: ConnNo) -> Option<Placed>
    requires { is_some session.old.last ≡ true }
    ensures entry { result ≡ entry_in_hall moment conn (no_room session.old) }
    ensures session { session.new ≡ after_no_room session.old }
{
    match session.no_room() {
        None => None,
        Some(Order::Hall(cmd)) => Some(hall_entry(moment, conn, cmd)),
        Some(Order::Room { id: _, cmd }) => {
            let_go(cmd);
            None
        }
    }
}

// The same of an order for the room with a number, if it is there.
fn numbered_entry(
    session: &mut Session,
    moment: Moment,
    conn: ConnNo,
    no: Option<u32>,
    cmd: Command,
) -> Option<Placed>
    requires { is_some session.old.last ≡ true }
    ensures entry { result ≡ numbered_entry moment conn no cmd session.old }
    ensures session { session.new ≡ lent_to_room no session.old }
{
    match no {
        None => {
            let_go(cmd);
            entry_for_none(session, moment, conn)
        }
        Some(no) => entry_in_room(session, moment, conn, no, cmd),
    }
}

fn number_of(places: &Places, id: Text) -> Option<u32>
    ensures { result ≡ maps.get places.now.numbers id }
{
    places.number(id.as_str())
}

// The entry that an order makes which a text was taken for.
fn order_entry(
    places: &Places,
    session: &mut Session,
    moment: Moment,
    conn: ConnNo,
    order: Order,
) -> Option<Placed>
    requires { IsCounted order session.old }
    ensures entry { result ≡ order_entry moment (now_in places.now) conn (Ok order) session.old }
    ensures session { session.new ≡ session_lent (now_in places.now) order session.old }
{
    match order {
        Order::Hall(cmd) => Some(hall_entry(moment, conn, cmd)),
        Order::Room { id, cmd } => {
            let no = number_of(places, id);
            numbered_entry(session, moment, conn, no, cmd)
        }
    }
}

// What a text is taken for, which isn't looked at again if it is known to be clean.
#[tactic(auto, using(crate::proofs::CleanLemmas::clean_text))]
fn take_sent(
    alloc: Global,
    session: &mut Session,
    text: &str,
    is_clean: bool,
) -> Result<Order, TakeFault>
    requires { is_clean ≡ true → IsClean text.now }
    ensures order { IfOk result (λ o. taken session.old text.now ≡ Ok o) }
    ensures fault { IfErr result (λ f. IsTakeFault f (taken session.old text.now)) }
    ensures after { IfOk result (λ o. session.new ≡ counted (place_of o) session.old) }
    ensures kept { OnErr result (session.new ≡ session.old) }
{
    if is_clean {
        session.take_clean(alloc, text)
    } else {
        session.take_text(alloc, text)
    }
}

// A text of a connection.
#[tactic(auto, using(crate::proofs::OrderLemmas::counted_is, crate::proofs::OrderLemmas::session_whole))]
fn push_text(
    alloc: Global,
    places: &mut Places,
    session: &mut Session,
    moment: Moment,
    count: u32,
    conn: ConnNo,
    text: &str,
    is_clean: bool,
    out: &mut Transcript,
) -> Result<Option<Ending>, AllocError>
    requires { is_clean ≡ true → IsClean text.now }
    ensures state { OnOk result (places.new ≡ happenings_after places.old
        (entry_happenings moment (now_in places.old) conn (text_entry moment (now_in places.old) conn text.now session.old))) }
    ensures session { OnOk result (session.new ≡ text_session moment (now_in places.old) conn text.now session.old) }
    ensures text { OnOk result (string_bytes out.new.text ≡ string_bytes out.old.text
        ++ happenings_text count places.old (entry_happenings moment (now_in places.old) conn
        (text_entry moment (now_in places.old) conn text.now session.old))) }
    ensures ledger { OnOk result (out.new.ledger
        ≡ happenings_ledger places.old (entry_happenings moment (now_in places.old) conn
        (text_entry moment (now_in places.old) conn text.now session.old)) out.old.ledger) }
    ensures ended { IfOk result (λ end. end ≡ end_by (now_in places.old)
        (text_entry moment (now_in places.old) conn text.now session.old)) }
{
    match take_sent(alloc, session, text, is_clean) {
        Err(TakeFault::NoMemory) => Err(AllocError),
        Err(TakeFault::BadText) => push_lent(
            alloc, places, session, moment, count, conn, None, out,
        ),
        Err(TakeFault::Limit { .. }) => {
            push_lent(alloc, places, session, moment, count, conn, None, out)
        }
        Ok(order) => {
            let placed = order_entry(places, session, moment, conn, order);
            push_lent(alloc, places, session, moment, count, conn, placed, out)
        }
    }
}

fn index_of_conn(conn: ConnNo) -> usize
    ensures { result ≡ conn - 1 }
{
    conn.0.saturating_sub(1) as usize
}

// A text of a connection that is open.
fn push_sent(
    alloc: Global,
    places: &mut Places,
    sessions: &mut [Session],
    moment: Moment,
    count: u32,
    conn: ConnNo,
    text: &str,
    is_clean: bool,
    out: &mut Transcript,
) -> Result<Option<Ending>, AllocError>
    requires count { count ≡ length sessions.old }
    requires clean { is_clean ≡ true → IsClean text.now }
    ensures state { OnOk result (places.new ≡ happenings_after places.old
        (sent_by (record { moment = moment; now = now_in places.old; sessions = sessions.old }) conn text.now
        (session_of conn sessions.old)).happenings) }
    ensures sessions { OnOk result (sessions.new
        ≡ (sent_by (record { moment = moment; now = now_in places.old; sessions = sessions.old }) conn text.now
        (session_of conn sessions.old)).sessions) }
    ensures text { OnOk result (string_bytes out.new.text ≡ string_bytes out.old.text
        ++ happenings_text count places.old (sent_by (record { moment = moment; now = now_in places.old; sessions = sessions.old })
        conn text.now (session_of conn sessions.old)).happenings) }
    ensures ledger { OnOk result (out.new.ledger
        ≡ happenings_ledger places.old (sent_by (record { moment = moment; now = now_in places.old; sessions = sessions.old }) conn
        text.now (session_of conn sessions.old)).happenings out.old.ledger) }
    ensures ended { IfOk result (λ end. end ≡ end_sent (record { moment = moment; now = now_in places.old; sessions = sessions.old })
        conn text.now (session_of conn sessions.old)) }
{
    let place = index_of_conn(conn);
    if place >= sessions.len() {
        return Ok(None);
    }
    push_text(
        alloc,
        places,
        &mut sessions[place],
        moment,
        count,
        conn,
        text,
        is_clean,
        out,
    )
}

// A connection opens.
fn push_opened(
    alloc: Global,
    places: &mut Places,
    sessions: &mut Vec<Session>,
    moment: Moment,
    conn: ConnNo,
    out: &mut Transcript,
) -> Result<(), AllocError>
    requires { length sessions.old.items ≤ 65536 }
    ensures state { OnOk result (places.new ≡ happenings_after places.old (opening moment conn ∷ [])) }
    ensures sessions { OnOk result (sessions.new.items ≡ sessions.old.items ++ begun conn ∷ []) }
    ensures few { length sessions.new.items ≤ 65536 }
    ensures text { OnOk result (string_bytes out.new.text ≡ string_bytes out.old.text
        ++ happenings_text (length sessions.new.items) places.old (opening moment conn ∷ [])) }
    ensures ledger { OnOk result (out.new.ledger ≡ happenings_ledger places.old (opening moment conn ∷ []) out.old.ledger) }
{
    if sessions.len() >= MOST_SESSIONS {
        return Err(AllocError);
    }
    sessions.push(Session::new(alloc, conn))?;
    let opening = hall_entry(moment, conn, HallCmd::Open);
    let done = push_placed(alloc, places, sessions.len() as u32, &opening, out);
    let_go(opening);
    done
}

impl Table {
    ghost use Rattle.replay_state.specs.Entries.{moment_after, end_at};
    ghost use Rattle.replay_script.specs.declared.item.Item.TheVariants as items;
    ghost use Rattle.replay_state.specs.Tables.{state_in, fresh, item_text, item_after, item_ledger};

    /// Before the first line, with the ranks that the script gives.
    pub fn new(
        alloc: Global,
        config: Arc<Config>,
        dex: Arc<Dex>,
        ranks: IdMap<u8>,
    ) -> Result<Table, AllocError>
        ensures { IfOk result (λ t. t ≡ fresh (record { config = arc_value config; dex = arc_value dex; ranks = ranks })) }
    {
        Ok(Table {
            moment: Moment(0),
            places: Places::new(alloc, config, dex, ranks)?,
            sessions: Vec::new(alloc),
        })
    }

    /// Prints what a line prints, counts and notes its entries, and goes on to the state after it. Gives the end of the battle that its
    /// entry ended.
    pub fn play(
        &mut self,
        alloc: Global,
        item: &Line<'_>,
        out: &mut Transcript,
    ) -> Result<Option<Ending>, AllocError>
        ensures state { OnOk result (self.new ≡ item_after self.old item.now) }
        ensures text { OnOk result (string_bytes out.new.text ≡ string_bytes out.old.text ++ item_text self.old item.now) }
        ensures ledger { OnOk result (out.new.ledger ≡ item_ledger self.old item.now out.old.ledger) }
        ensures ended { IfOk result (λ end. end ≡ end_at (state_in self.old) item.now) }
    {
        match item.said() {
            Said::Nothing => Ok(None),
            Said::Group(_, _) => Ok(None),
            Said::Moment(moment) => {
                self.moment = Moment(u64::from(moment));
                Ok(None)
            }
            Said::Open(conn) => self.play_open(alloc, conn, out),
            Said::Send(conn, text) => { self.play_send(alloc, conn, text, item.is_clean(), out) }
            Said::Close(conn) => self.play_close(alloc, conn, out),
        }
    }

    // A connection opens.
    fn play_open(
        &mut self,
        alloc: Global,
        conn: ConnNo,
        out: &mut Transcript,
    ) -> Result<Option<Ending>, AllocError>
        ensures state { OnOk result (self.new ≡ item_after self.old (items.Open conn)) }
        ensures text { OnOk result (string_bytes out.new.text ≡ string_bytes out.old.text ++ item_text self.old (items.Open conn)) }
        ensures ledger { OnOk result (out.new.ledger ≡ item_ledger self.old (items.Open conn) out.old.ledger) }
        ensures ended { IfOk result (λ end. end ≡ end_at (state_in self.old) (items.Open conn)) }
    {
        push_opened(
            alloc,
            &mut self.places,
            &mut self.sessions,
            self.moment,
            conn,
            out,
        )?;
        Ok(None)
    }

    // A connection sends a text.
    fn play_send(
        &mut self,
        alloc: Global,
        conn: ConnNo,
        text: &str,
        is_clean: bool,
        out: &mut Transcript,
    ) -> Result<Option<Ending>, AllocError>
        requires { is_clean ≡ true → IsClean text.now }
        ensures state { OnOk result (self.new ≡ item_after self.old (items.Send conn text.now)) }
        ensures text { OnOk result (string_bytes out.new.text ≡ string_bytes out.old.text
            ++ item_text self.old (items.Send conn text.now)) }
        ensures ledger { OnOk result (out.new.ledger ≡ item_ledger self.old (items.Send conn text.now) out.old.ledger) }
        ensures ended { IfOk result (λ end. end ≡ end_at (state_in self.old) (items.Send conn text.now)) }
    {
        if !self.places.is_open(conn) {
            return Ok(None);
        }
        let count = self.sessions.len() as u32;
        push_sent(
            alloc,
            &mut self.places,
            &mut self.sessions,
            self.moment,
            count,
            conn,
            text,
            is_clean,
            out,
        )
    }

    // A connection closes.
    fn play_close(
        &mut self,
        alloc: Global,
        conn: ConnNo,
        out: &mut Transcript,
    ) -> Result<Option<Ending>, AllocError>
        ensures state { OnOk result (self.new ≡ item_after self.old (items.Close conn)) }
        ensures text { OnOk result (string_bytes out.new.text ≡ string_bytes out.old.text ++ item_text self.old (items.Close conn)) }
        ensures ledger { OnOk result (out.new.ledger ≡ item_ledger self.old (items.Close conn) out.old.ledger) }
        ensures ended { IfOk result (λ end. end ≡ end_at (state_in self.old) (items.Close conn)) }
    {
        if !self.places.is_open(conn) {
            return Ok(None);
        }
        let count = self.sessions.len() as u32;
        push_quits(alloc, &mut self.places, self.moment, count, conn, out)?;
        Ok(None)
    }
}
