//! What each command comes to, its row of the table: why it is refused, or whom it tells what, what it gives and what it
//! changes. All is worked out once, before anything changes.
ghost use Rattle.std.specs.Prelude.{◌≡◌, ◌<◌, ℕ, IfOk, None, Some};
ghost use Rattle.std.specs.Option.{option_copied, option_map};
ghost use Rattle.ps_base.specs.Ids.{id_of};
ghost use Rattle.ps_base.specs.Limits.{most_battles};
ghost use Rattle.ps_lines.specs.declared.command.HallCmd.TheVariants as cmds;
ghost use Rattle.ps_valid.specs.Ready.{IsReady};
ghost use Rattle.ps_hall.specs.Changes.{BlocksBy, IsAccept, IsAcceptAnswer, IsAnswerBy, IsChallenge, IsReportAnswer, IsNamedAnswer};
ghost use Rattle.ps_hall.specs.Changes.{IsPrepared, IsSearch};
ghost use Rattle.ps_hall.specs.KeptIndices.{AreReady};
ghost use Rattle.ps_base.specs.declared.badge.Badge.{Badge};
ghost use Rattle.ps_hall.specs.declared.change.Change.TheVariants.{Users};
ghost use Rattle.ps_users.specs.Refusals.{read_of};
ghost use Rattle.ps_users.specs.Steps.{badge_for};
ghost use Rattle.ps_hall.specs.Told as rows;
ghost use Rattle.ps_hall.specs.Lookups.{challenge_from, game_in, legal_team, opponent, rating_in};
ghost use Rattle.ps_hall.specs.Records.{Record};
ghost use Rattle.ps_hall.specs.Starts.{start_of_challenge};
ghost use Rattle.ps_hall.specs.States.{record_of};

use crate::answer::{
    granted, none, told_accepted, told_cancel_challenge, told_cancel_search, told_challenge,
    told_game, told_left, told_match, told_reject, told_wait,
};
use crate::change::{Allowed, Change};
use crate::game::Game;
use crate::kept::new_kept;
use crate::lookup::{self, challenge_from};
use crate::notice::Notice;
use crate::pack::read_pack;
use crate::refusal::{
    bad_why, is_winner, judge_accepted, judge_challenge, judge_search, refusal_of_cancel_challenge,
    refusal_of_cancel_search, refusal_of_pm, refusal_of_rank, refusal_of_reject,
};
use crate::start::{game_if, start_of_challenge, start_of_match};
use crate::state::State;
use crate::told::{told_of_name, told_of_open, told_of_pm, told_of_rank};
use ps_base::badge::Badge;
use ps_base::hall_why::HallWhy;
use ps_base::id::Id;
use ps_base::list::List;
use ps_base::name::Name;
use ps_base::number::ConnNo;
use ps_base::text::Text;
use ps_ladder::searches::Search;
use ps_lines::command::HallCmd;
use ps_pms::asked::Asked;
use ps_valid::legal::Legal;
use std::alloc::{AllocError, Global};

// What gives neither a badge nor a battle.
fn plain(notices: List<Notice>, change: Change) -> Allowed
    ensures { result ≡ record { notices = notices; badge = None; start = None; change = change } }
{
    Allowed {
        notices,
        badge: None,
        start: None,
        change,
    }
}

// ---- connections

// An Open.
#[tactic(auto, unfolding(crate::specs::Told::told, crate::specs::Steps::applied, crate::specs::Steps::start_of, crate::specs::Refusals::refusal))]
fn open(alloc: Global, state: &State, conn: ConnNo) -> Result<Result<Allowed, HallWhy>, AllocError>
    ensures { IfOk result (IsPrepared (record_of state.now) conn cmds.Open) }
{
    let notices = told_of_open(alloc, &state.config, conn)?;
    Ok(Ok(plain(notices, Change::Users)))
}

// A Quit.
#[tactic(auto, unfolding(crate::specs::Told::told, crate::specs::Steps::applied, crate::specs::Steps::start_of, crate::specs::Refusals::refusal))]
fn quit(alloc: Global, state: &State, conn: ConnNo) -> Result<Result<Allowed, HallWhy>, AllocError>
    ensures { IfOk result (IsPrepared (record_of state.now) conn cmds.Quit) }
{
    match state.users.badge(conn) {
        None => Ok(Ok(plain(none(alloc), Change::Quit { me: None }))),
        Some(badge) => {
            let notices = told_left(alloc, state, badge)?;
            let me = badge.name.id().copy(alloc)?;
            Ok(Ok(plain(notices, Change::Quit { me: Some(me) })))
        }
    }
}

// A Name that is allowed.
fn allow_name(alloc: Global, state: &State, conn: ConnNo, text: &str) -> Result<Allowed, AllocError>
    ensures { IfOk result (λ a. a ≡ record {
      notices = rows.told_of_name (record_of state.now).config.groups conn (option_map (badge_for (record_of state.now).users) (read_of text.now));
      badge = option_map (badge_for (record_of state.now).users) (read_of text.now);
      start = None;
      change = Users;
    }) }
{
    let badge = granted(alloc, &state.users, text)?;
    let notices = told_of_name(alloc, state.config.groups(), conn, badge.as_ref())?;
    Ok(Allowed {
        notices,
        badge,
        start: None,
        change: Change::Users,
    })
}

// A Name.
#[tactic(auto, unfolding(crate::specs::Told::told, crate::specs::Steps::applied, crate::specs::Steps::start_of, crate::specs::Refusals::refusal))]
fn name(
    alloc: Global,
    state: &State,
    conn: ConnNo,
    text: &str,
    assertion: &str,
    cmd: &HallCmd,
) -> Result<Result<Allowed, HallWhy>, AllocError>
    requires { cmd.now ≡ cmds.Name text.now assertion.now }
    ensures { IfOk result (IsPrepared (record_of state.now) conn (cmds.Name text.now assertion.now)) }
{
    match state.users.verdict(alloc, conn, cmd)? {
        Some(why) => Ok(Err(why)),
        None => {
            let allowed = allow_name(alloc, state, conn, text)?;
            Ok(Ok(allowed))
        }
    }
}

// ---- teams

// A `/utm`.
#[tactic(auto, unfolding(crate::specs::Refusals::refusal_of_team))]
fn team(
    alloc: Global,
    badge: &Badge,
    pack: Option<&Text>,
) -> Result<Result<Allowed, HallWhy>, AllocError>
    ensures { (h : Record) (conn : ℕ) → IfOk result (IsNamedAnswer h conn badge.now (cmds.Team (option_copied pack.entry))) }
{
    let me = badge.name.id().copy(alloc)?;
    match pack {
        None => Ok(Ok(plain(none(alloc), Change::Team { me, team: None }))),
        Some(text) => match read_pack(alloc, text.as_str())? {
            Err(why) => Ok(Err(why)),
            Ok(team) => {
                let team = Some(team);
                Ok(Ok(plain(none(alloc), Change::Team { me, team })))
            }
        },
    }
}

// ---- searches

// The search of who begins one.
fn new_search(alloc: Global, user: &Id, format: &Id, rating: i32) -> Result<Search, AllocError>
    ensures { IfOk result (λ s. s ≡ record { user = user.now; format = format.now; rating = rating }) }
{
    Ok(Search {
        user: user.copy(alloc)?,
        format: format.copy(alloc)?,
        rating,
    })
}

// Who is matched with nobody waits, with the team of this moment.
fn allow_wait(
    alloc: Global,
    state: &State,
    conn: ConnNo,
    name: &Name,
    format: &Id,
    rating: i32,
    legal: Legal,
) -> Result<Allowed, AllocError>
    requires rating { rating ≡ rating_in (record_of state.now) format.now (id_of name.now) }
    requires legal { legal_team (record_of state.now) (id_of name.now) format.now ≡ Some legal }
    requires legal_ready { IsReady (record_of state.now).dex legal }
    ensures { IfOk result (IsSearch (record_of state.now) conn name.now format.now None) }
{
    let search = new_search(alloc, name.id(), format, rating)?;
    let kept = new_kept(alloc, name, format, legal)?;
    let notices = told_wait(alloc, state, conn, name.id(), &search)?;
    Ok(plain(notices, Change::Wait { kept, search }))
}

// Who is matched with this search takes it, and their battle starts.
#[tactic(auto, using(crate::proofs::AnswerLemmas::starts))]
fn allow_match(
    alloc: Global,
    state: &State,
    conn: ConnNo,
    name: &Name,
    format: &Id,
    rating: i32,
    other: &Search,
    legal: Legal,
) -> Result<Allowed, AllocError>
    requires few { (record_of state.now).started < most_battles }
    requires ready { AreReady (record_of state.now) }
    requires rating { rating ≡ rating_in (record_of state.now) format.now (id_of name.now) }
    requires other { opponent (record_of state.now) (id_of name.now) format.now ≡ Some other.now }
    requires legal { legal_team (record_of state.now) (id_of name.now) format.now ≡ Some legal }
    requires legal_ready { IsReady (record_of state.now).dex legal }
    ensures { IfOk result (IsSearch (record_of state.now) conn name.now format.now (Some other.now)) }
{
    let start = start_of_match(alloc, state, name, format, other, legal)?;
    let game = game_if(alloc, state, true, start.as_ref())?;
    let notices = told_match(
        alloc,
        state,
        conn,
        name.id(),
        format,
        rating,
        other,
        game.as_ref(),
    )?;
    Ok(Allowed {
        notices,
        badge: None,
        start,
        change: Change::Match {
            me: name.id().copy(alloc)?,
            format: format.copy(alloc)?,
            rating,
            user: other.user.copy(alloc)?,
            game,
        },
    })
}

// A Search of who has this legal team.
fn allow_search(
    alloc: Global,
    state: &State,
    conn: ConnNo,
    name: &Name,
    format: &Id,
    legal: Legal,
) -> Result<Allowed, AllocError>
    requires few { (record_of state.now).started < most_battles }
    requires ready { AreReady (record_of state.now) }
    requires legal { legal_team (record_of state.now) (id_of name.now) format.now ≡ Some legal }
    requires legal_ready { IsReady (record_of state.now).dex legal }
    ensures { IfOk result (IsSearch (record_of state.now) conn name.now format.now
        (opponent (record_of state.now) (id_of name.now) format.now)) }
{
    let me = name.id();
    let rating = lookup::rating_in(&state.ladders, format, me);
    match state.searches.find(me, format, rating) {
        None => allow_wait(alloc, state, conn, name, format, rating, legal),
        Some(other) => allow_match(alloc, state, conn, name, format, rating, other, legal),
    }
}

// A Search.
fn search(
    alloc: Global,
    state: &State,
    conn: ConnNo,
    badge: &Badge,
    format: &Id,
) -> Result<Result<Allowed, HallWhy>, AllocError>
    requires { AreReady (record_of state.now) }
    ensures { IfOk result (IsNamedAnswer (record_of state.now) conn badge.now (cmds.Search format.now)) }
{
    let name = &badge.name;
    match judge_search(alloc, state, name.id(), format)? {
        Err(why) => Ok(Err(why)),
        Ok(legal) => {
            let allowed = allow_search(alloc, state, conn, name, format, legal)?;
            Ok(Ok(allowed))
        }
    }
}

// A CancelSearch.
fn cancel_search(
    alloc: Global,
    state: &State,
    conn: ConnNo,
    badge: &Badge,
) -> Result<Result<Allowed, HallWhy>, AllocError>
    ensures { IfOk result (IsNamedAnswer (record_of state.now) conn badge.now cmds.CancelSearch) }
{
    let me = badge.name.id();
    match refusal_of_cancel_search(state, me) {
        Some(why) => Ok(Err(why)),
        None => {
            let notices = told_cancel_search(alloc, state, conn, me)?;
            let me = me.copy(alloc)?;
            Ok(Ok(plain(notices, Change::CancelSearch { me })))
        }
    }
}

// ---- challenges

// A Challenge of who has this legal team.
fn allow_challenge(
    alloc: Global,
    state: &State,
    conn: ConnNo,
    name: &Name,
    user: &Id,
    format: &Id,
    legal: Legal,
) -> Result<Allowed, AllocError>
    requires legal { legal_team (record_of state.now) (id_of name.now) format.now ≡ Some legal }
    requires legal_ready { IsReady (record_of state.now).dex legal }
    ensures { IfOk result (IsChallenge (record_of state.now) conn name.now user.now format.now) }
{
    let notices = told_challenge(alloc, state, conn, name, user, format)?;
    let kept = new_kept(alloc, name, user, legal)?;
    Ok(plain(notices, Change::Challenge { kept }))
}

// A Challenge.
fn challenge(
    alloc: Global,
    state: &State,
    conn: ConnNo,
    badge: &Badge,
    user: &Id,
    format: &Id,
) -> Result<Result<Allowed, HallWhy>, AllocError>
    ensures { IfOk result (IsNamedAnswer (record_of state.now) conn badge.now (cmds.Challenge user.now format.now)) }
{
    let name = &badge.name;
    match judge_challenge(alloc, state, name.id(), user, format)? {
        Err(why) => Ok(Err(why)),
        Ok(legal) => {
            let allowed = allow_challenge(alloc, state, conn, name, user, format, legal)?;
            Ok(Ok(allowed))
        }
    }
}

// A CancelChallenge.
fn cancel_challenge(
    alloc: Global,
    state: &State,
    conn: ConnNo,
    badge: &Badge,
) -> Result<Result<Allowed, HallWhy>, AllocError>
    ensures { IfOk result (IsNamedAnswer (record_of state.now) conn badge.now cmds.CancelChallenge) }
{
    let me = badge.name.id();
    match refusal_of_cancel_challenge(state, me) {
        Some(why) => Ok(Err(why)),
        None => {
            let notices = told_cancel_challenge(alloc, state, conn, me)?;
            let me = me.copy(alloc)?;
            Ok(Ok(plain(notices, Change::CancelChallenge { me })))
        }
    }
}

// A Reject.
fn reject(
    alloc: Global,
    state: &State,
    conn: ConnNo,
    badge: &Badge,
    user: &Id,
) -> Result<Result<Allowed, HallWhy>, AllocError>
    ensures { IfOk result (IsNamedAnswer (record_of state.now) conn badge.now (cmds.Reject user.now)) }
{
    let me = badge.name.id();
    match refusal_of_reject(state, me, user) {
        Some(why) => Ok(Err(why)),
        None => {
            let notices = told_reject(alloc, state, conn, me, user)?;
            let me = me.copy(alloc)?;
            let user = user.copy(alloc)?;
            Ok(Ok(plain(notices, Change::Reject { me, user })))
        }
    }
}

// An Accept of a challenge, of who has this legal team.
#[tactic(auto, using(crate::proofs::AnswerLemmas::starts))]
fn allow_accept(
    alloc: Global,
    state: &State,
    conn: ConnNo,
    name: &Name,
    user: &Id,
    asked: &Asked,
    legal: Legal,
) -> Result<Allowed, AllocError>
    requires few { (record_of state.now).started < most_battles }
    requires ready { AreReady (record_of state.now) }
    requires asked { challenge_from (record_of state.now) (id_of name.now) user.now ≡ Some asked.now }
    requires legal { legal_team (record_of state.now) (id_of name.now) asked.now.format ≡ Some legal }
    requires legal_ready { IsReady (record_of state.now).dex legal }
    ensures { IfOk result (IsAccept (record_of state.now) conn name.now user.now
        (start_of_challenge (record_of state.now) name.now (Some asked.now))) }
{
    let start = start_of_challenge(alloc, state, name, user, asked, legal)?;
    let game = game_if(alloc, state, false, start.as_ref())?;
    let me = name.id();
    let notices = told_accepted(alloc, state, conn, me, user, game.as_ref())?;
    Ok(Allowed {
        notices,
        badge: None,
        start,
        change: Change::Accept {
            me: me.copy(alloc)?,
            user: user.copy(alloc)?,
            game,
        },
    })
}

// An Accept of this challenge.
fn accept_asked(
    alloc: Global,
    state: &State,
    conn: ConnNo,
    name: &Name,
    user: &Id,
    asked: &Asked,
) -> Result<Result<Allowed, HallWhy>, AllocError>
    requires ready { AreReady (record_of state.now) }
    requires asked { challenge_from (record_of state.now) (id_of name.now) user.now ≡ Some asked.now }
    ensures { IfOk result (IsAcceptAnswer (record_of state.now) conn name.now user.now (Some asked.now)) }
{
    match judge_accepted(alloc, state, name.id(), asked)? {
        Err(why) => Ok(Err(why)),
        Ok(legal) => {
            let allowed = allow_accept(alloc, state, conn, name, user, asked, legal)?;
            Ok(Ok(allowed))
        }
    }
}

// An Accept.
fn accept(
    alloc: Global,
    state: &State,
    conn: ConnNo,
    badge: &Badge,
    user: &Id,
) -> Result<Result<Allowed, HallWhy>, AllocError>
    requires { AreReady (record_of state.now) }
    ensures { IfOk result (IsAcceptAnswer (record_of state.now) conn badge.now.name user.now
        (challenge_from (record_of state.now) (id_of badge.now.name) user.now)) }
{
    match challenge_from(state, badge.name.id(), user) {
        None => Ok(Err(HallWhy::NoChallenge)),
        Some(asked) => accept_asked(alloc, state, conn, &badge.name, user, asked),
    }
}

// ---- whispers, blocks and ratings

// A Whisper.
fn whisper(
    alloc: Global,
    state: &State,
    conn: ConnNo,
    badge: &Badge,
    user: &Id,
    text: &str,
) -> Result<Result<Allowed, HallWhy>, AllocError>
    ensures { IfOk result (IsNamedAnswer (record_of state.now) conn badge.now (cmds.Whisper user.now text.now)) }
{
    match refusal_of_pm(state, badge.name.id(), user, text) {
        Some(why) => Ok(Err(why)),
        None => {
            let groups = state.config.groups();
            let notices = told_of_pm(alloc, groups, &state.users, conn, badge, user, text)?;
            Ok(Ok(plain(notices, Change::Nothing)))
        }
    }
}

// A Block or an Unblock, which may be refused for this reason.
fn blocks(
    alloc: Global,
    me: &Id,
    why: Option<HallWhy>,
) -> Result<Result<Allowed, HallWhy>, AllocError>
    ensures { IfOk result (BlocksBy me.now why) }
{
    match why {
        Some(why) => Ok(Err(why)),
        None => {
            let me = me.copy(alloc)?;
            Ok(Ok(plain(none(alloc), Change::Blocks { me })))
        }
    }
}

// A Rank.
fn rank(
    alloc: Global,
    state: &State,
    conn: ConnNo,
    user: &Id,
    format: &Id,
) -> Result<Result<Allowed, HallWhy>, AllocError>
    ensures { (me : Badge) → IfOk result (IsNamedAnswer (record_of state.now) conn me (cmds.Rank user.now format.now)) }
{
    match refusal_of_rank(state, format) {
        Some(why) => Ok(Err(why)),
        None => {
            let rating = lookup::rating_in(&state.ladders, format, user);
            let notices = told_of_rank(alloc, conn, user, format, rating)?;
            Ok(Ok(plain(notices, Change::Nothing)))
        }
    }
}

// ---- reports

// A Report of this battle.
fn report_game(
    alloc: Global,
    state: &State,
    number: u32,
    winner: Option<u8>,
    game: &Game,
) -> Result<Result<Allowed, HallWhy>, AllocError>
    ensures { (conn : ℕ) → IfOk result (IsReportAnswer (record_of state.now) conn number winner (Some game.now)) }
{
    if !is_winner(winner) {
        return Ok(Err(HallWhy::NoBattle));
    }
    let notices = told_game(alloc, state, number, winner, game)?;
    Ok(Ok(plain(notices, Change::Report { number, winner })))
}

// A Report.
fn report(
    alloc: Global,
    state: &State,
    number: u32,
    winner: Option<u8>,
) -> Result<Result<Allowed, HallWhy>, AllocError>
    ensures { (conn : ℕ) → IfOk result (IsReportAnswer (record_of state.now) conn number winner (game_in (record_of state.now) number)) }
{
    match state.games.find(number) {
        None => Ok(Err(HallWhy::NoBattle)),
        Some(game) => report_game(alloc, state, number, winner, game),
    }
}

// ---- all of them

// The commands that take a name.
fn prepare_named(
    alloc: Global,
    state: &State,
    conn: ConnNo,
    badge: &Badge,
    cmd: &HallCmd,
) -> Result<Result<Allowed, HallWhy>, AllocError>
    requires { AreReady (record_of state.now) }
    ensures { IfOk result (IsNamedAnswer (record_of state.now) conn badge.now cmd.now) }
{
    let me = badge.name.id();
    match cmd {
        HallCmd::Team { pack } => team(alloc, badge, pack.as_ref()),
        HallCmd::Search { format } => search(alloc, state, conn, badge, format),
        HallCmd::CancelSearch => cancel_search(alloc, state, conn, badge),
        HallCmd::Challenge { user, format } => challenge(alloc, state, conn, badge, user, format),
        HallCmd::CancelChallenge => cancel_challenge(alloc, state, conn, badge),
        HallCmd::Reject { user } => reject(alloc, state, conn, badge, user),
        HallCmd::Accept { user } => accept(alloc, state, conn, badge, user),
        HallCmd::Whisper { user, text } => whisper(alloc, state, conn, badge, user, text.as_str()),
        HallCmd::Block { user } => blocks(alloc, me, state.pms.refusal_of_block(me, user)),
        HallCmd::Unblock { user } => blocks(alloc, me, state.pms.refusal_of_unblock(me, user)),
        HallCmd::Rank { user, format } => rank(alloc, state, conn, user, format),
        _ => Ok(Ok(plain(none(alloc), Change::Nothing))),
    }
}

// NotNamed, where the connection has no name.
fn prepare_by(
    alloc: Global,
    state: &State,
    conn: ConnNo,
    badge: Option<&Badge>,
    cmd: &HallCmd,
) -> Result<Result<Allowed, HallWhy>, AllocError>
    requires { AreReady (record_of state.now) }
    ensures { IfOk result (IsAnswerBy (record_of state.now) conn (option_copied badge.entry) cmd.now) }
{
    match badge {
        None => Ok(Err(HallWhy::NotNamed)),
        Some(badge) => prepare_named(alloc, state, conn, badge, cmd),
    }
}

/// What a command of a connection comes to, or why it is refused.
#[tactic(auto, unfolding(crate::specs::Told::told, crate::specs::Steps::applied, crate::specs::Steps::start_of, crate::specs::Refusals::refusal))]
pub(crate) fn prepare(
    alloc: Global,
    state: &State,
    conn: ConnNo,
    cmd: &HallCmd,
) -> Result<Result<Allowed, HallWhy>, AllocError>
    requires { AreReady (record_of state.now) }
    ensures { IfOk result (IsPrepared (record_of state.now) conn cmd.now) }
{
    match cmd {
        HallCmd::Open => open(alloc, state, conn),
        HallCmd::Quit => quit(alloc, state, conn),
        HallCmd::Bad { why } => Ok(Err(bad_why(*why))),
        HallCmd::Name {
            name: text,
            assertion,
        } => name(alloc, state, conn, text.as_str(), assertion.as_str(), cmd),
        HallCmd::Report { number, winner } => report(alloc, state, *number, *winner),
        _ => prepare_by(alloc, state, conn, state.users.badge(conn), cmd),
    }
}
