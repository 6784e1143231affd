//! The rows of the hall table: why each command is refused, in the row's order, or else the legal team that it takes.
ghost use Rattle.std.specs.Prelude.{◌≡◌, IfOk, Some};
ghost use Rattle.std.specs.Option.{option_copied};
ghost use Rattle.ps_hall.specs.States.{record_of};
ghost use Rattle.ps_hall.specs.Refusals.{bad_why, of_found, of_team, of_text, of_battles, of_waiting, of_search, of_challenge};
ghost use Rattle.ps_hall.specs.Refusals.{of_accepted, of_accept, is_winner};
ghost use Rattle.ps_hall.specs.Changes.{IsJudged};
ghost use Rattle.ps_hall.specs.Lookups.{legal_or, legal_under, legal_team};
ghost use Rattle.ps_hall.specs.Refusals.{refusal_of_search, refusal_of_cancel_search, refusal_of_challenge};
ghost use Rattle.ps_hall.specs.Refusals.{refusal_of_cancel_challenge, refusal_of_reject, refusal_of_pm, refusal_of_rank};
ghost use Rattle.ps_valid.specs.TeamRows.{legal_in};

use crate::lookup;
use crate::state::State;
use ps_base::hall_why::HallWhy;
use ps_base::id::Id;
use ps_dex::dex::Dex;
use ps_lines::command::BadWhy;
use ps_lines::sent_text::{is_blank, is_long};
use ps_packed::team::Team;
use ps_pms::asked::Asked;
use ps_rules::table::{Format, RuleTable};
use ps_valid::check::check_team;
use ps_valid::legal::Legal;
use ps_valid::verdict::TeamFault;
use std::alloc::{AllocError, Global};

// ---- what several rows ask

/// Why a text is no command of its connection.
pub(crate) fn bad_why(why: BadWhy) -> HallWhy
    ensures { result ≡ bad_why why }
{
    match why {
        BadWhy::NoBar => HallWhy::NoBar,
        BadWhy::UnknownCommand => HallWhy::UnknownCommand,
        BadWhy::BadArgs => HallWhy::BadArgs,
        BadWhy::NotNamed => HallWhy::NotNamed,
        BadWhy::RoomLimit => HallWhy::RoomLimit,
        BadWhy::NoSuchRoom => HallWhy::NoSuchRoom,
    }
}

/// A team, or BadTeam where the rules find a fault.
fn judge_rules(
    alloc: Global,
    dex: &Dex,
    rules: &RuleTable,
    team: &Team,
) -> Result<Result<Legal, HallWhy>, AllocError>
    ensures { IfOk result (IsJudged dex.now (of_found (legal_in dex.now rules.now team.now))
        (legal_or (Some (legal_in dex.now rules.now team.now)))) }
{
    match check_team(alloc, dex, rules, team) {
        Ok(legal) => Ok(Ok(legal)),
        Err(TeamFault::Verdict(verdict)) => Ok(Err(HallWhy::BadTeam {
            set: verdict.set,
            rule: verdict.rule,
            subject: verdict.subject,
        })),
        Err(TeamFault::NoMemory) => Err(AllocError),
    }
}

/// A user's team, or NoTeam, then BadTeam.
fn judge_team(
    alloc: Global,
    state: &State,
    me: &Id,
    format: &Format,
) -> Result<Result<Legal, HallWhy>, AllocError>
    ensures { IfOk result (IsJudged (record_of state.now).dex (of_team (record_of state.now) me.now format.now)
        (legal_under (record_of state.now) me.now (Some format.now))) }
{
    match state.teams.find(me.as_str()) {
        None => Ok(Err(HallWhy::NoTeam)),
        Some(team) => judge_rules(alloc, &state.dex, &format.table, team),
    }
}

/// EmptyText, then TooLong.
fn of_text(text: &str) -> Option<HallWhy>
    ensures { result ≡ of_text text.now }
{
    if is_blank(text) {
        return Some(HallWhy::EmptyText);
    }
    if is_long(text) {
        return Some(HallWhy::TooLong);
    }
    None
}

/// BattlesFull.
fn of_battles(state: &State) -> Option<HallWhy>
    ensures { result ≡ of_battles (record_of state.now) }
{
    if lookup::is_full(state.games.started()) {
        return Some(HallWhy::BattlesFull);
    }
    None
}

// ---- the rows

/// AlreadySearching, then BattlesFull.
fn of_waiting(state: &State, me: &Id, format: &Id) -> Option<HallWhy>
    ensures { result ≡ of_waiting (record_of state.now) me.now format.now }
{
    if state.searches.is_waiting(me, format) {
        return Some(HallWhy::AlreadySearching);
    }
    of_battles(state)
}

// The team of who may search this format.
fn judge_searched(
    alloc: Global,
    state: &State,
    me: &Id,
    id: &Id,
    format: &Format,
) -> Result<Result<Legal, HallWhy>, AllocError>
    ensures { IfOk result (IsJudged (record_of state.now).dex (of_search (record_of state.now) me.now id.now (Some format.now))
        (legal_under (record_of state.now) me.now (Some format.now))) }
{
    if !format.table.rated {
        return Ok(Err(HallWhy::NotRated));
    }
    match judge_team(alloc, state, me, format)? {
        Err(why) => Ok(Err(why)),
        Ok(legal) => match of_waiting(state, me, id) {
            Some(why) => Ok(Err(why)),
            None => Ok(Ok(legal)),
        },
    }
}

fn judge_search_in(
    alloc: Global,
    state: &State,
    me: &Id,
    id: &Id,
    format: Option<&Format>,
) -> Result<Result<Legal, HallWhy>, AllocError>
    ensures { IfOk result (IsJudged (record_of state.now).dex
        (of_search (record_of state.now) me.now id.now (option_copied format.entry))
        (legal_under (record_of state.now) me.now (option_copied format.entry))) }
{
    match format {
        None => Ok(Err(HallWhy::UnknownFormat)),
        Some(format) => judge_searched(alloc, state, me, id, format),
    }
}

/// The team of who searches, or why it can't.
#[tactic(auto, unfolding(crate::specs::Refusals::refusal_of_search))]
pub(crate) fn judge_search(
    alloc: Global,
    state: &State,
    me: &Id,
    format: &Id,
) -> Result<Result<Legal, HallWhy>, AllocError>
    ensures { IfOk result (IsJudged (record_of state.now).dex (refusal_of_search (record_of state.now) me.now format.now)
        (legal_team (record_of state.now) me.now format.now)) }
{
    judge_search_in(
        alloc,
        state,
        me,
        format,
        lookup::format_in(&state.config, format),
    )
}

#[tactic(auto, unfolding(crate::specs::Refusals::refusal_of_cancel_search))]
pub(crate) fn refusal_of_cancel_search(state: &State, me: &Id) -> Option<HallWhy>
    ensures { result ≡ refusal_of_cancel_search (record_of state.now) me.now }
{
    if !state.searches.has(me) {
        return Some(HallWhy::NotSearching);
    }
    None
}

// The team of who challenges this other user in this format.
fn judge_challenged(
    alloc: Global,
    state: &State,
    me: &Id,
    user: &Id,
    format: &Format,
) -> Result<Result<Legal, HallWhy>, AllocError>
    ensures { IfOk result (IsJudged (record_of state.now).dex (of_challenge (record_of state.now) me.now user.now (Some format.now))
        (legal_under (record_of state.now) me.now (Some format.now))) }
{
    match judge_team(alloc, state, me, format)? {
        Err(why) => Ok(Err(why)),
        Ok(legal) => match state.pms.refusal_of_asking(me, user) {
            Some(why) => Ok(Err(why)),
            None => Ok(Ok(legal)),
        },
    }
}

fn judge_challenge_in(
    alloc: Global,
    state: &State,
    me: &Id,
    user: &Id,
    format: Option<&Format>,
) -> Result<Result<Legal, HallWhy>, AllocError>
    ensures { IfOk result (IsJudged (record_of state.now).dex
        (of_challenge (record_of state.now) me.now user.now (option_copied format.entry))
        (legal_under (record_of state.now) me.now (option_copied format.entry))) }
{
    match format {
        None => Ok(Err(HallWhy::UnknownFormat)),
        Some(format) => judge_challenged(alloc, state, me, user, format),
    }
}

/// The team of who challenges a user, or why it can't.
#[tactic(auto, unfolding(crate::specs::Refusals::refusal_of_challenge))]
pub(crate) fn judge_challenge(
    alloc: Global,
    state: &State,
    me: &Id,
    user: &Id,
    format: &Id,
) -> Result<Result<Legal, HallWhy>, AllocError>
    ensures { IfOk result (IsJudged (record_of state.now).dex
        (refusal_of_challenge (record_of state.now) me.now user.now format.now)
        (legal_team (record_of state.now) me.now format.now)) }
{
    if !lookup::is_online(&state.users, user) {
        return Ok(Err(HallWhy::NoSuchUser));
    }
    if user.as_str() == me.as_str() {
        return Ok(Err(HallWhy::SelfTarget));
    }
    judge_challenge_in(
        alloc,
        state,
        me,
        user,
        lookup::format_in(&state.config, format),
    )
}

#[tactic(auto, unfolding(crate::specs::Refusals::refusal_of_cancel_challenge))]
pub(crate) fn refusal_of_cancel_challenge(state: &State, me: &Id) -> Option<HallWhy>
    ensures { result ≡ refusal_of_cancel_challenge (record_of state.now) me.now }
{
    state.pms.refusal_of_cancel(me)
}

#[tactic(auto, unfolding(crate::specs::Refusals::refusal_of_reject))]
pub(crate) fn refusal_of_reject(state: &State, me: &Id, user: &Id) -> Option<HallWhy>
    ensures { result ≡ refusal_of_reject (record_of state.now) me.now user.now }
{
    if lookup::challenge_from(state, me, user).is_none() {
        return Some(HallWhy::NoChallenge);
    }
    None
}

// The team of who accepts a challenge in this format.
fn judge_accepted_in(
    alloc: Global,
    state: &State,
    me: &Id,
    format: &Format,
) -> Result<Result<Legal, HallWhy>, AllocError>
    ensures { IfOk result (IsJudged (record_of state.now).dex (of_accepted (record_of state.now) me.now (Some format.now))
        (legal_under (record_of state.now) me.now (Some format.now))) }
{
    match judge_team(alloc, state, me, format)? {
        Err(why) => Ok(Err(why)),
        Ok(legal) => match of_battles(state) {
            Some(why) => Ok(Err(why)),
            None => Ok(Ok(legal)),
        },
    }
}

/// The team of who accepts a challenge, or why it can't.
pub(crate) fn judge_accepted(
    alloc: Global,
    state: &State,
    me: &Id,
    asked: &Asked,
) -> Result<Result<Legal, HallWhy>, AllocError>
    ensures { IfOk result (IsJudged (record_of state.now).dex (of_accept (record_of state.now) me.now (Some asked.now))
        (legal_team (record_of state.now) me.now asked.now.format)) }
{
    match lookup::format_in(&state.config, &asked.format) {
        None => Ok(Err(HallWhy::UnknownFormat)),
        Some(format) => judge_accepted_in(alloc, state, me, format),
    }
}

#[tactic(auto, unfolding(crate::specs::Refusals::refusal_of_pm))]
pub(crate) fn refusal_of_pm(state: &State, me: &Id, user: &Id, text: &str) -> Option<HallWhy>
    ensures { result ≡ refusal_of_pm (record_of state.now) me.now user.now text.now }
{
    if !lookup::is_online(&state.users, user) {
        return Some(HallWhy::NoSuchUser);
    }
    match of_text(text) {
        Some(why) => Some(why),
        None => state.pms.refusal_of_whisper(me, user),
    }
}

#[tactic(auto, unfolding(crate::specs::Refusals::refusal_of_rank))]
pub(crate) fn refusal_of_rank(state: &State, format: &Id) -> Option<HallWhy>
    ensures { result ≡ refusal_of_rank (record_of state.now) format.now }
{
    if lookup::format_in(&state.config, format).is_none() {
        return Some(HallWhy::UnknownFormat);
    }
    None
}

/// Whether nobody, player 1 or player 2 won.
pub(crate) fn is_winner(winner: Option<u8>) -> bool
    ensures { result ≡ is_winner winner }
{
    match winner {
        None => true,
        Some(s) => s < 2,
    }
}
