//! What each change makes of the hall. All memory is taken before anything changes.
ghost use Rattle.std.specs.Prelude.{◌≡◌, ◌++◌, ◌∷◌, [], OnOk, OnErr, None};
ghost use Rattle.ps_lines.specs.declared.command.HallCmd.TheVariants.{Quit};
ghost use Rattle.ps_users.specs.Refusals.{refusal as refusal_of_user};
ghost use Rattle.std.specs.Option.{option_copied};
ghost use Rattle.ps_base.specs.Ids.{id_of};
ghost use Rattle.ps_hall.specs.Changes.{CanStart, matched, team_changed, waiting};
ghost use Rattle.ps_hall.specs.Lookups.{without_kept, without_user};
ghost use Rattle.ps_hall.specs.States.{record_of};
ghost use Rattle.ps_hall.specs.Starts.{with_game};
ghost use Rattle.ps_hall.specs.Steps.{with_users, with_pms, with_accept, forgotten_by, forgotten_if, after_cancel_search};

use crate::game::Game;
use crate::kept::{KeptTeam, drop_either, drop_kept, drop_user};
use crate::state::State;
use ps_base::id::Id;
use ps_base::number::ConnNo;
use ps_ladder::searches::Search;
use ps_lines::command::HallCmd;
use ps_packed::team::Team;
use std::alloc::{AllocError, Global};

/// Open and Name, as far as users go.
pub(crate) fn with_users(
    alloc: Global,
    state: &mut State,
    conn: ConnNo,
    cmd: &HallCmd,
) -> Result<(), AllocError>
    requires { refusal_of_user (record_of state.old).users conn cmd.now ≡ None }
    ensures ok { OnOk result (record_of state.new ≡ with_users (record_of state.old) conn cmd.now) }
    ensures err { OnErr result (record_of state.new ≡ record_of state.old) }
{
    let _ = state.users.apply(alloc, conn, cmd)?;
    Ok(())
}

/// Blocks and challenges after a command.
pub(crate) fn with_pms(
    alloc: Global,
    state: &mut State,
    me: &Id,
    cmd: &HallCmd,
) -> Result<(), AllocError>
    ensures ok { OnOk result (record_of state.new ≡ with_pms (record_of state.old) me.now cmd.now) }
    ensures err { OnErr result (record_of state.new ≡ record_of state.old) }
{
    state.pms.apply(alloc, me, cmd)
}

/// CancelSearch.
pub(crate) fn after_cancel_search(alloc: Global, state: &mut State, me: &Id)
    ensures { record_of state.new ≡ after_cancel_search (record_of state.old) me.now }
{
    let _ = state.searches.cancel(alloc, me);
    state.search_teams.drop_user(alloc, me);
}

/// CancelChallenge.
pub(crate) fn after_cancel_challenge(
    alloc: Global,
    state: &mut State,
    me: &Id,
    cmd: &HallCmd,
) -> Result<(), AllocError>
    ensures ok { OnOk result (record_of state.new ≡ record (with_pms (record_of state.old) me.now cmd.now) {
      challenge_teams = without_user me.now (record_of state.old).challenge_teams;
    }) }
    ensures err { OnErr result (record_of state.new ≡ record_of state.old) }
{
    with_pms(alloc, state, me, cmd)?;
    drop_user(&mut state.challenge_teams, me);
    Ok(())
}

/// Reject.
pub(crate) fn after_reject(
    alloc: Global,
    state: &mut State,
    me: &Id,
    user: &Id,
    cmd: &HallCmd,
) -> Result<(), AllocError>
    ensures ok { OnOk result (record_of state.new ≡ record (with_pms (record_of state.old) me.now cmd.now) {
      challenge_teams = without_kept user.now me.now (record_of state.old).challenge_teams;
    }) }
    ensures err { OnErr result (record_of state.new ≡ record_of state.old) }
{
    with_pms(alloc, state, me, cmd)?;
    drop_kept(&mut state.challenge_teams, user, me);
    Ok(())
}

// The team, searches and challenges of who leaves end.
fn forget(alloc: Global, state: &mut State, me: &Id, cmd: &HallCmd) -> Result<(), AllocError>
    requires { cmd.now ≡ Quit }
    ensures ok { OnOk result (record_of state.new ≡ forgotten_by (record_of state.old) me.now) }
    ensures err { OnErr result (record_of state.new ≡ record_of state.old) }
{
    with_pms(alloc, state, me, cmd)?;
    state.teams.remove(me.as_str());
    drop_either(&mut state.challenge_teams, me);
    state.search_teams.drop_user(alloc, me);
    let _ = state.searches.cancel(alloc, me);
    Ok(())
}

fn forget_of(
    alloc: Global,
    state: &mut State,
    me: Option<&Id>,
    cmd: &HallCmd,
) -> Result<(), AllocError>
    requires { cmd.now ≡ Quit }
    ensures ok { OnOk result (record_of state.new ≡ forgotten_if (record_of state.old) (option_copied me.entry)) }
    ensures err { OnErr result (record_of state.new ≡ record_of state.old) }
{
    match me {
        None => Ok(()),
        Some(me) => forget(alloc, state, me, cmd),
    }
}

/// Quit of who had this id.
pub(crate) fn after_quit(
    alloc: Global,
    state: &mut State,
    conn: ConnNo,
    me: Option<&Id>,
    cmd: &HallCmd,
) -> Result<(), AllocError>
    requires { cmd.now ≡ Quit }
    ensures ok { OnOk result (record_of state.new ≡ with_users (forgotten_if (record_of state.old) (option_copied me.entry)) conn Quit) }
    ensures err { OnErr result (record_of state.new ≡ record_of state.old) }
{
    forget_of(alloc, state, me, cmd)?;
    state.users.close(conn);
    Ok(())
}

/// Keeps a user's team, or forgets it.
pub(crate) fn after_team(
    alloc: Global,
    state: &mut State,
    me: &Id,
    team: Option<Team>,
) -> Result<(), AllocError>
    ensures ok { OnOk result (record_of state.new ≡ team_changed (record_of state.old) me.now team) }
    ensures err { OnErr result (record_of state.new ≡ record_of state.old) }
{
    match team {
        None => {
            state.teams.remove(me.as_str());
            Ok(())
        }
        Some(team) => state.teams.insert(alloc, me.as_str(), team),
    }
}

/// Challenge, with this team.
pub(crate) fn after_challenge(
    alloc: Global,
    state: &mut State,
    kept: KeptTeam,
    cmd: &HallCmd,
) -> Result<(), AllocError>
    ensures ok { OnOk result (record_of state.new ≡ record (with_pms (record_of state.old) (id_of kept.name) cmd.now) {
      challenge_teams = (record_of state.old).challenge_teams ++ kept ∷ [];
    }) }
    ensures err { OnErr result (record_of state.new ≡ record_of state.old) }
{
    state.challenge_teams.reserve(1)?;
    state.pms.apply(alloc, kept.name.id(), cmd)?;
    state.challenge_teams.push(kept).unwrap();
    Ok(())
}

/// Who is matched with nobody waits, with this team.
pub(crate) fn after_wait(
    alloc: Global,
    state: &mut State,
    kept: KeptTeam,
    search: Search,
) -> Result<(), AllocError>
    ensures ok { OnOk result (record_of state.new ≡ waiting (record_of state.old) kept search) }
    ensures err { OnErr result (record_of state.new ≡ record_of state.old) }
{
    state
        .search_teams
        .wait(alloc, &mut state.searches, kept, search)
}

// A battle starts, if one does. Where memory fails nothing changes.
fn begin(alloc: Global, state: &mut State, game: Option<Game>) -> Result<(), AllocError>
    requires { CanStart (record_of state.old) game }
    ensures ok { OnOk result (record_of state.new ≡ with_game (record_of state.old) game) }
    ensures err { OnErr result (record_of state.new ≡ record_of state.old) }
{
    match game {
        None => Ok(()),
        Some(game) => state.games.push(alloc, game),
    }
}

/// Who is matched takes the other's search, and their battle starts.
#[tactic(auto, using(crate::proofs::MatchLemmas::matched_then))]
pub(crate) fn after_match(
    alloc: Global,
    state: &mut State,
    me: &Id,
    format: &Id,
    rating: i32,
    user: &Id,
    game: Option<Game>,
) -> Result<(), AllocError>
    requires { CanStart (record_of state.old) game }
    ensures ok { OnOk result (record_of state.new
        ≡ with_game (matched (record_of state.old) me.now format.now rating user.now) game) }
    ensures err { OnErr result (record_of state.new ≡ record_of state.old) }
{
    begin(alloc, state, game)?;
    state.searches.take(alloc, me, format, rating);
    state.search_teams.drop_kept(alloc, user, format);
    Ok(())
}

/// The user's challenge to who accepts it ends, and their battle starts.
#[tactic(auto, using(crate::proofs::MatchLemmas::accepted_then))]
pub(crate) fn after_accept(
    alloc: Global,
    state: &mut State,
    me: &Id,
    user: &Id,
    game: Option<Game>,
) -> Result<(), AllocError>
    requires { CanStart (record_of state.old) game }
    ensures ok { OnOk result (record_of state.new ≡ with_game (with_accept (record_of state.old) me.now user.now) game) }
    ensures err { OnErr result (record_of state.new ≡ record_of state.old) }
{
    begin(alloc, state, game)?;
    state.pms.end(me, user);
    drop_kept(&mut state.challenge_teams, user, me);
    Ok(())
}
