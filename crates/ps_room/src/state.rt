//! A room apart from its log.
ghost use Rattle.std.specs.Prelude.{◌≡◌, ◌++◌, ◌∷◌, [], ◌<◌, IfOk, OnOk, OnErr, IfErr, IfSome, map, Some, None};
ghost use Rattle.std.specs.Option.{option_copied, option_to_list};
ghost use Rattle.ps_mon.specs.Valid.{IsSound};
ghost use Rattle.battle_rounds.specs.Rounds.{outcome, ended as bout_ended};
ghost use Rattle.ps_splitlog.specs.Lines.{stored_of_line};
ghost use Rattle.ps_room.specs.Records.{presents_of, cast_in};
ghost use Rattle.ps_room.specs.Roles.{role_of_member, side_of_member};
ghost use Rattle.ps_room.specs.Rooms.{is_join, role_in, sender_of, refused_line, refusal_by_battle, with_bout, CanGoOn, IsIdle};
ghost use Rattle.ps_room.specs.Rooms.{IsDecided, CanDecideIn, events_from, lines_from, battle_from, request_for};
ghost use Rattle.battle_rounds.specs.Fights.{outcome_of, CanDecide, bout_or, requests as requested};
ghost use Rattle.ps_room.specs.Logs.{conns_with, touched_by, change_in, changed_conn, backlog_size, stored_in, join_if, ending_of};
ghost use Rattle.ps_room.specs.Logs.{ending_from};
ghost use Rattle.ps_room.specs.declared.outcome.Verdict.TheVariants.{Applied};

use crate::entry::Entry;
use crate::line;
use crate::opening::{Opening, Parts};
use crate::outcome::{Ending, RoomOut, Verdict};
use crate::start::{Opened, open_battle};
use battle_rounds::bout::{Bout, BoutBox};
use battle_rounds::cast::{Cast, role_with, side_with_id};
use battle_rounds::decision::Decision;
use battle_rounds::finish::Finish;
use battle_rounds::room_battle::{RoomBattle, requests};
use battle_rounds::rounds::ended;
use ps_base::list::List;
use ps_base::number::{ConnNo, RoomNo};
use ps_base::text::Text;
use ps_base::why::{Why, error_line};
use ps_chat::chat::Chat;
use ps_chat::line::ChatLine;
use ps_chat::lookup::has_id;
use ps_chat::present::Present;
use ps_event::audience::Audience;
use ps_event::event::{Event, Events};
use ps_lines::command::Command;
use ps_splitlog::backlog::BacklogSize;
use ps_splitlog::entry::{Entry as Heard, Joined, LogEntry, log_entry_of, log_entry_of_lines};
use ps_view::role::Role;
use std::alloc::{AllocError, Global};
use std::marker::Model;

/// Of what a chat logged who joins is sent the last so many lines.
const BACKLOG: u32 = 100;

/// What comes of an entry that comes next at a room, worked out once, before anything changes.
#[derive(Drop)]
pub struct Prepared {
    /// Whether the entry is applied, and the end of the battle where it ends it.
    pub out: RoomOut,
    /// All that the entry gives, as the log will have it, but for the roles that hold after it; of a refused one its one line to
    /// its sender.
    pub log_entry: LogEntry,
    /// The rounds of the battle after it; `None` where there is no battle, where the entry is refused, and where its command isn't
    /// the battle's, so that they stay.
    pub bout: Option<BoutBox>,
}

/// A room apart from its log: who keeps one beside it chooses how long. Contracts see a room with an empty log.
#[derive(Drop)]
pub struct RoomState {
    no: RoomNo,
    id: Text,
    chat: Chat,
    battle: Option<RoomBattle>,
}

impl Model for RoomState {
    ghost use Rattle.std.specs.Prelude.{[]};
    ghost use Rattle.ps_room.specs.Logs.{Seen};
    ghost use Rattle.std.specs.Coded.{codes, coded_ℕ};
    ghost use base.Stored.{coded_unit};
    ghost use Rattle.ps_base.specs.ById.{by_id_code};

    ghost Value = { Seen };

    ghost coded = { Prim.hlevel (codes, by_id_code coded_ℕ, by_id_code coded_unit) };

    ghost view = { λ r. record { no = r.no; id = r.id; opening = r.chat.opening; chat = r.chat.state; battle = r.battle; log = [] } };
}

/// A room at its opening, and the entry that its log begins with: that of its battle, if it has one.
#[derive(Drop)]
pub struct OpenedRoom {
    pub state: RoomState,
    pub first: Option<LogEntry>,
}

// ---- whose role may change

// The connections of the members with an id, each with a role that is still to be set.
fn conns_with(
    alloc: Global,
    id: &str,
    members: &[Present],
) -> Result<Vec<(ConnNo, Role)>, AllocError>
    ensures { IfOk result (λ v. map changed_conn v.items ≡ conns_with id.now members.now) }
{
    let mut changes = Vec::new(alloc);
    for member in members {
        if has_id(member, id) {
            changes.push(unset(member.conn))?;
        }
    }
    Ok(changes)
}

fn unset(conn: ConnNo) -> (ConnNo, Role)
    ensures { changed_conn result ≡ conn }
{
    (conn, Role::Outside)
}

fn one_unset(alloc: Global, conn: ConnNo) -> Result<Vec<(ConnNo, Role)>, AllocError>
    ensures { IfOk result (λ v. map changed_conn v.items ≡ conn ∷ []) }
{
    let mut changes = Vec::with_capacity(alloc, 1)?;
    changes.push(unset(conn))?;
    Ok(changes)
}

// The connections whose role an applied command may change.
fn touched_by(
    alloc: Global,
    members: &[Present],
    conn: ConnNo,
    cmd: &Command,
) -> Result<Vec<(ConnNo, Role)>, AllocError>
    ensures { IfOk result (λ v. map changed_conn v.items ≡ touched_by cmd.now members.now conn) }
{
    match cmd {
        Command::Join { .. } => one_unset(alloc, conn),
        Command::Leave => one_unset(alloc, conn),
        Command::Quit => one_unset(alloc, conn),
        Command::Ban { user, .. } => conns_with(alloc, user.as_str(), members),
        Command::Promote { user, .. } => conns_with(alloc, user.as_str(), members),
        _ => Ok(Vec::new(alloc)),
    }
}

fn role_of_member(cast: Option<&Cast>, member: &Present) -> Role
    ensures { result ≡ role_of_member (option_copied cast.entry) member.now }
{
    match cast {
        None => Role::Spectator { rank: member.rank },
        Some(cast) => role_with(cast.names(), member.badge.name.id().as_str(), member.rank),
    }
}

#[tactic(auto, unfolding(crate::specs::Rooms::role_in))]
fn role_in(chat: &Chat, cast: Option<&Cast>, conn: ConnNo) -> Role
    ensures { result ≡ role_in conn (option_copied cast.entry) chat.now.opening chat.now.state }
{
    match chat.member(conn) {
        None => Role::Outside,
        Some(member) => role_of_member(cast, member),
    }
}

// Sets each of these roles to the one that the connection has.
fn set_roles(chat: &Chat, cast: Option<&Cast>, changes: &mut [(ConnNo, Role)])
    ensures { changes.new ≡ map (λ c. change_in (option_copied cast.entry) chat.now.opening chat.now.state (changed_conn c)) changes.old }
{
    for change in changes.iter_mut() {
        change.1 = role_in(chat, cast, change.0);
    }
}

// The same of a vector.
fn set_all_roles(chat: &Chat, cast: Option<&Cast>, changes: &mut Vec<(ConnNo, Role)>)
    ensures { changes.new.items ≡ map (λ c. change_in (option_copied cast.entry) chat.now.opening chat.now.state (changed_conn c))
        changes.old.items }
{
    set_roles(chat, cast, changes.as_mut_slice());
}

// ---- the battle

fn cast_in(battle: Option<&RoomBattle>) -> Option<&Cast>
    ensures { option_copied result ≡ cast_in (option_copied battle.entry) }
{
    match battle {
        None => None,
        Some(battle) => Some(battle.cast()),
    }
}

// The side that a connection's member plays.
fn side_of_member(cast: &Cast, member: Option<&Present>) -> Option<u8>
    ensures side { result ≡ side_of_member cast.now (option_copied member.entry) }
    ensures within { IfSome result (λ s. s < 2) }
{
    match member {
        None => None,
        Some(member) => side_with_id(cast.names(), member.badge.name.id().as_str()),
    }
}

// What a command of a member comes to at the battle, after the chat has allowed it, or why the battle refuses it.
fn decide(
    battle: Option<&RoomBattle>,
    member: Option<&Present>,
    cmd: &Command,
) -> Result<Decision, Why>
    ensures refused { IfErr result (λ why. refusal_by_battle (option_copied battle.entry) (option_copied member.entry) cmd.now ≡ Some why) }
    ensures allowed { IfOk result (λ d. refusal_by_battle (option_copied battle.entry) (option_copied member.entry) cmd.now ≡ None) }
    ensures decided { IfOk result (IsDecided (option_copied battle.entry) (option_copied member.entry) cmd.now) }
{
    match battle {
        None => Ok(Decision::Nothing),
        Some(battle) => match battle.decide(side_of_member(battle.cast(), member), cmd) {
            Ok(decision) => Ok(decision),
            Err(why) => Err(why),
        },
    }
}

// The rounds that a decision makes, and the events of it; `None` where it makes none.
fn rounds_by(
    alloc: Global,
    battle: &RoomBattle,
    decision: Decision,
    out: &mut Events,
) -> Result<Option<BoutBox>, AllocError>
    requires can { CanDecide battle.now.bout decision }
    requires empty { out.old.items ≡ [] }
    ensures after { IfOk result (λ next. outcome (bout_or battle.now.bout next) out.new
        ≡ outcome_of battle.now.cast.dex battle.now.bout decision) }
    ensures bout { IfOk result (λ next. CanGoOn (Some battle.now) next) }
{
    let next = battle.after(alloc, decision, out)?;
    Ok(next)
}

// The rounds after a decision: those that it made, or else those before it.
fn rounds_after<'a>(battle: &'a RoomBattle, next: Option<&'a BoutBox>) -> &'a Bout
    requires { CanGoOn (Some battle.now) (option_copied next) }
    ensures value { result.now ≡ bout_or battle.now.bout (option_copied next.entry) }
    ensures sound { IsSound result.now.battle }
{
    match next {
        None => battle.bout(),
        Some(next) => next.bout(),
    }
}

// The request of the open round for a member who joins.
fn request_for(
    alloc: Global,
    battle: Option<&RoomBattle>,
    member: &Present,
) -> Result<Option<Text>, AllocError>
    ensures { IfOk result (λ text. text ≡ request_for (option_copied battle.entry) member.now) }
{
    match battle {
        None => Ok(None),
        Some(battle) => {
            let side = side_of_member(battle.cast(), Some(member));
            battle.open_request(alloc, side)
        }
    }
}

// ---- what an entry gives

// What a refused entry gives: its line, which goes to its sender alone.
fn refused_log_entry(alloc: Global, conn: ConnNo, why: Why) -> Result<LogEntry, AllocError>
    ensures { IfOk result (λ h. h ≡ record {
      conn = conn;
      lines = map stored_of_line (refused_line conn why ∷ []);
      join = None;
      roles = [];
    }) }
{
    let line = ChatLine {
        audience: Audience::One(conn.0),
        logged: false,
        text: error_line(alloc, why)?,
    };
    let mut lines = Vec::with_capacity(alloc, 1)?;
    lines.push(line)?;
    log_entry_of_lines(alloc, conn, lines, None)
}

fn backlog_size(cast: Option<&Cast>) -> BacklogSize
    ensures { result ≡ backlog_size (option_copied cast.entry) }
{
    match cast {
        None => BacklogSize::Last(BACKLOG),
        Some(_) => BacklogSize::All,
    }
}

// The lines of an allowed command: those of the chat, and the requests that follow the battle's events.
fn with_requests(
    alloc: Global,
    cast: &Cast,
    after: &Bout,
    events: &[Event],
    lines: Vec<ChatLine>,
) -> Result<Vec<ChatLine>, AllocError>
    requires { IsSound after.now.battle }
    ensures { IfOk result (λ v. v.items ≡ lines.items ++ requested cast.now after.now events.now) }
{
    let mut lines = lines;
    let mut asked = requests(alloc, cast, after, events)?;
    lines.append(&mut asked)?;
    Ok(lines)
}

fn ending_of(number: u32, finish: Option<Finish>) -> Option<Ending>
    ensures { result ≡ ending_of number finish }
{
    match finish {
        None => None,
        Some(Finish::Won(side)) => Some(Ending {
            number,
            winner: Some(side),
        }),
        Some(Finish::Tied) => Some(Ending {
            number,
            winner: None,
        }),
    }
}

// How a battle ended that goes on to these rounds.
fn ending_with(battle: &RoomBattle, after: &Bout) -> Option<Ending>
    ensures { result ≡ ending_of battle.now.number (bout_ended battle.now.bout.battle.phase after.now.battle.phase) }
{
    ending_of(
        battle.number(),
        ended(battle.bout().battle.phase, after.battle.phase),
    )
}

// What comes of an entry that is applied.
fn applied(log_entry: LogEntry, ended: Option<Ending>, bout: Option<BoutBox>) -> Prepared
    ensures { result ≡ record { out = record { verdict = Applied; ended = ended }; log_entry = log_entry; bout = bout } }
{
    Prepared {
        out: RoomOut {
            verdict: Verdict::Applied,
            ended,
        },
        log_entry,
        bout,
    }
}

// What comes of an allowed entry in a room with a battle: its events, the lines of the chat, and the requests that follow the
// events.
fn prepared_with(
    alloc: Global,
    conn: ConnNo,
    battle: &RoomBattle,
    decision: Decision,
    lines: Vec<ChatLine>,
    join: Option<Joined>,
) -> Result<Prepared, AllocError>
    requires { CanDecide battle.now.bout decision }
    ensures out { IfOk result (λ p. p.out ≡ record { verdict = Applied; ended = ending_from (Some battle.now) decision }) }
    ensures log_entry { IfOk result (λ p. p.log_entry
        ≡ record {
          conn = conn;
          lines = stored_in (Some battle.now.cast) (events_from (Some battle.now) decision)
              (lines_from (Some battle.now) decision lines.items);
          join = join;
          roles = [];
        }) }
    ensures after { IfOk result (λ p. with_bout (Some battle.now) p.bout ≡ battle_from (Some battle.now) decision) }
    ensures bout { IfOk result (λ p. CanGoOn (Some battle.now) p.bout) }
{
    let mut out = Events::new();
    let next = rounds_by(alloc, battle, decision, &mut out)?;
    let after = rounds_after(battle, next.as_ref());
    let lines = with_requests(alloc, battle.cast(), after, out.as_slice(), lines)?;
    let heard = Heard {
        conn,
        events: out.as_slice(),
        lines,
        join,
        roles: &[],
    };
    let log_entry = log_entry_of(alloc, battle.cast().names(), battle.cast().dex(), heard)?;
    let ended = ending_with(battle, after);
    Ok(applied(log_entry, ended, next))
}

// What comes of an allowed entry, by what its command comes to at the battle.
fn prepared_by(
    alloc: Global,
    conn: ConnNo,
    battle: Option<&RoomBattle>,
    decision: Decision,
    lines: Vec<ChatLine>,
    join: Option<Joined>,
) -> Result<Prepared, AllocError>
    requires { CanDecideIn (option_copied battle) decision }
    ensures out { IfOk result (λ p. p.out ≡ record { verdict = Applied; ended = ending_from (option_copied battle.entry) decision }) }
    ensures log_entry { IfOk result (λ p. p.log_entry
        ≡ record {
          conn = conn;
          lines = stored_in (cast_in (option_copied battle.entry))
              (events_from (option_copied battle.entry) decision) (lines_from (option_copied battle.entry) decision lines.items);
          join = join;
          roles = [];
        }) }
    ensures after { IfOk result (λ p. with_bout (option_copied battle.entry) p.bout ≡ battle_from (option_copied battle.entry) decision) }
    ensures bout { IfOk result (λ p. CanGoOn (option_copied battle.entry) p.bout) }
    ensures idle { IfOk result (λ p. IsIdle (option_copied battle.entry) p.bout) }
{
    match battle {
        None => {
            let log_entry = log_entry_of_lines(alloc, conn, lines, join)?;
            Ok(applied(log_entry, None, None))
        }
        Some(battle) => prepared_with(alloc, conn, battle, decision, lines, join),
    }
}

// The battle goes on from there.
fn set_bout(battle: &mut Option<RoomBattle>, bout: Option<BoutBox>)
    requires { CanGoOn battle.old bout }
    ensures { battle.new ≡ with_bout battle.old bout }
{
    if let Some(battle) = battle {
        if let Some(bout) = bout {
            battle.go_on(bout);
        }
    }
}

impl RoomState {
    ghost use Rattle.ps_room.specs.Openings.{IsFitOpening};
    ghost use Rattle.ps_room.specs.Rooms.{verdict, role, head};
    ghost use Rattle.ps_room.specs.Logs.{record_in, given, kept_of, opened_log, unlogged, seen_opened, state_after, out_of, Goes};
    ghost use Rattle.ps_room.specs.Logs.{MakesNone};

    /// A room with nobody in it; where the opening has a battle, that is open.
    pub fn open(alloc: Global, opening: Opening) -> Result<OpenedRoom, AllocError>
        requires { IsFitOpening opening }
        ensures state { IfOk result (λ o. o.state ≡ unlogged (seen_opened opening)) }
        ensures first { IfOk result (λ o. option_to_list o.first ≡ opened_log opening.config opening.dex opening.battle) }
    {
        let Parts {
            no,
            id,
            title,
            config,
            dex,
            battle,
        } = opening.into_parts();
        let chat = Chat::new(
            alloc,
            title.as_str(),
            battle.is_some(),
            config.groups(),
            config.staff(),
        )?;
        let Opened { battle, first } = open_battle(alloc, &config, dex, battle)?;
        Ok(OpenedRoom {
            state: RoomState {
                no,
                id,
                chat,
                battle,
            },
            first,
        })
    }

    /// How many of the lines that were logged who joins is sent: of a chat a hundred, of a battle all.
    pub fn backlog_size(&self) -> BacklogSize
        ensures { result ≡ backlog_size (cast_in self.now.battle) }
    {
        backlog_size(cast_in(self.battle.as_ref()))
    }

    // What the entry's command comes to at the battle, or why the entry is refused. It looks its sender up.
    #[tactic(auto, unfolding(crate::specs::Rooms::verdict))]
    fn judge(&self, entry: &Entry) -> Result<Decision, Why>
        ensures refused { IfErr result (λ why. verdict (record_in self.now) entry.now ≡ Some why) }
        ensures allowed { IfOk result (λ d. verdict (record_in self.now) entry.now ≡ None) }
        ensures decided { IfOk result (IsDecided self.now.battle (sender_of (record_in self.now) entry.now) entry.now.cmd) }
    {
        match self
            .chat
            .verdict(entry.conn, &entry.badge, entry.moment, &entry.cmd)
        {
            Some(why) => Err(why),
            None => match decide(
                self.battle.as_ref(),
                self.chat.member(entry.conn),
                &entry.cmd,
            ) {
                Ok(decision) => Ok(decision),
                Err(why) => Err(why),
            },
        }
    }

    /// Why the entry is refused; `None` where it is allowed. Takes no memory.
    pub fn verdict(&self, entry: &Entry) -> Option<Why>
        ensures { result ≡ verdict (record_in self.now) entry.now }
    {
        match self.judge(entry) {
            Ok(_) => None,
            Err(why) => Some(why),
        }
    }

    /// The room's id, which stands behind `>` in its messages.
    pub fn id(&self) -> &str
        ensures { result.now ≡ self.now.id }
    {
        self.id.as_str()
    }

    /// The members in join order, each with its rank in the room. Takes no memory.
    pub fn members(&self) -> &[Present]
        ensures { result.now ≡ presents_of (record_in self.now) }
    {
        self.chat.members()
    }

    /// What a connection is to the room. Takes no memory.
    pub fn role(&self, conn: ConnNo) -> Role
        ensures { result ≡ role conn (record_in self.now) }
    {
        role_in(&self.chat, cast_in(self.battle.as_ref()), conn)
    }

    // What who joins is sent before the logged lines.
    fn head(&self, alloc: Global, joiner: &Present) -> Result<List<Text>, AllocError>
        ensures { IfOk result (λ v. v ≡ head (record_in self.now) (presents_of (record_in self.now) ++ joiner.now ∷ [])) }
    {
        let mut lines = Vec::with_capacity(alloc, 3)?;
        lines.push(line::kind_line(alloc, self.chat.is_battle())?)?;
        lines.push(line::title_line(alloc, self.chat.title())?)?;
        lines.push(line::users_line(alloc, self.chat.groups(), self.chat.members(), joiner)?)?;
        Ok(List::from_vec(lines))
    }

    fn joined(&self, alloc: Global, entry: &Entry) -> Result<Option<Joined>, AllocError>
        ensures { IfOk result (λ o. o ≡ join_if (is_join entry.now.cmd) (record_in self.now) entry.now) }
    {
        if matches!(&entry.cmd, Command::Join { .. }) {
            let joiner = self.chat.joiner(alloc, entry.conn, &entry.badge)?;
            Ok(Some(Joined {
                role: role_of_member(cast_in(self.battle.as_ref()), &joiner),
                head: self.head(alloc, &joiner)?,
                keep: backlog_size(cast_in(self.battle.as_ref())).keep(),
                tail: request_for(alloc, self.battle.as_ref(), &joiner)?,
            }))
        } else {
            Ok(None)
        }
    }

    // What comes of a refused entry, which is its one line to its sender.
    #[tactic(auto, using(crate::proofs::ChangeLemmas::still_none))]
    fn prepare_refused(
        &self,
        alloc: Global,
        entry: &Entry,
        why: Why,
    ) -> Result<Prepared, AllocError>
        requires { verdict (record_in self.now) entry.now ≡ Some why }
        ensures out { IfOk result (λ p. p.out ≡ out_of (record_in self.now) entry.now) }
        ensures log_entry { IfOk result (λ p. p.log_entry ≡ given (record_in self.now) entry.now) }
        ensures goes { IfOk result (λ p. Goes self.now entry.now p.bout) }
        ensures none { IfOk result (λ p. MakesNone self.now entry.now p.bout) }
    {
        Ok(Prepared {
            out: RoomOut {
                verdict: Verdict::Refused(why),
                ended: None,
            },
            log_entry: refused_log_entry(alloc, entry.conn, why)?,
            bout: None,
        })
    }

    // What comes of an allowed one, by what its command comes to at the battle.
    fn prepare_allowed(
        &self,
        alloc: Global,
        entry: &Entry,
        decision: Decision,
    ) -> Result<Prepared, AllocError>
        requires allowed { verdict (record_in self.now) entry.now ≡ None }
        requires decided { IsDecided self.now.battle (sender_of (record_in self.now) entry.now) entry.now.cmd decision }
        ensures out { IfOk result (λ p. p.out ≡ out_of (record_in self.now) entry.now) }
        ensures log_entry { IfOk result (λ p. p.log_entry ≡ given (record_in self.now) entry.now) }
        ensures goes { IfOk result (λ p. Goes self.now entry.now p.bout) }
        ensures none { IfOk result (λ p. MakesNone self.now entry.now p.bout) }
    {
        let lines = self
            .chat
            .told(alloc, entry.conn, &entry.badge, entry.moment, &entry.cmd)?;
        let join = self.joined(alloc, entry)?;
        let prepared = prepared_by(
            alloc,
            entry.conn,
            self.battle.as_ref(),
            decision,
            lines,
            join,
        )?;
        Ok(prepared)
    }

    /// Works out what comes of an entry that comes next, for `keep`. Fails only if out of memory.
    pub fn prepare(&self, alloc: Global, entry: &Entry) -> Result<Prepared, AllocError>
        ensures out { IfOk result (λ p. p.out ≡ out_of (record_in self.now) entry.now) }
        ensures log_entry { IfOk result (λ p. p.log_entry ≡ given (record_in self.now) entry.now) }
        ensures goes { IfOk result (λ p. Goes self.now entry.now p.bout) }
        // A refused entry, and one of a room without a battle, makes no rounds.
        ensures none { IfOk result (λ p. MakesNone self.now entry.now p.bout) }
    {
        match self.judge(entry) {
            Err(why) => self.prepare_refused(alloc, entry, why),
            Ok(decision) => self.prepare_allowed(alloc, entry, decision),
        }
    }

    // Applies an entry that is allowed. Gives the roles that it gives. Where memory fails nothing changes.
    fn keep_applied(
        &mut self,
        alloc: Global,
        entry: &Entry,
        bout: Option<BoutBox>,
    ) -> Result<List<(ConnNo, Role)>, AllocError>
        requires allowed { verdict (record_in self.old) entry.now ≡ None }
        requires goes { Goes self.old entry.now bout }
        ensures ok { OnOk result (self.new ≡ state_after self.old entry.now) }
        ensures roles { IfOk result (λ roles. roles ≡ (kept_of (record_in self.old) entry.now).roles) }
        ensures err { OnErr result (self.new ≡ self.old) }
    {
        let mut changes = touched_by(alloc, self.chat.members(), entry.conn, &entry.cmd)?;
        self.chat
            .change(alloc, entry.conn, &entry.badge, entry.moment, &entry.cmd)?;
        set_bout(&mut self.battle, bout);
        set_all_roles(&self.chat, cast_in(self.battle.as_ref()), &mut changes);
        Ok(List::from_vec(changes))
    }

    /// Applies an entry, of which `prepare` worked out what comes of it. Gives the roles that the log is to have of it. Where
    /// memory fails nothing changes.
    pub fn keep(
        &mut self,
        alloc: Global,
        entry: &Entry,
        out: RoomOut,
        bout: Option<BoutBox>,
    ) -> Result<List<(ConnNo, Role)>, AllocError>
        requires out { out ≡ out_of (record_in self.old) entry.now }
        requires goes { Goes self.old entry.now bout }
        ensures ok { OnOk result (self.new ≡ state_after self.old entry.now) }
        ensures roles { IfOk result (λ roles. roles ≡ (kept_of (record_in self.old) entry.now).roles) }
        ensures err { OnErr result (self.new ≡ self.old) }
    {
        match out.verdict {
            Verdict::Refused(_) => Ok(List::from_vec(Vec::new(alloc))),
            Verdict::Applied => self.keep_applied(alloc, entry, bout),
        }
    }
}
