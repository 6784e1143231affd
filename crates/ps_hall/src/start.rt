//! What a battle starts with.
ghost use Rattle.std.specs.Prelude.{◌≡◌, ◌<◌, ◌+◌, IfOk, IfSome, Some};
ghost use Rattle.std.specs.Option.{option_copied, option_map};
ghost use Rattle.ps_base.specs.Ids.{id_of};
ghost use Rattle.ps_base.specs.Limits.{most_battles};
ghost use Rattle.rules_start.specs.Fits.{IsFit};
ghost use Rattle.ps_valid.specs.Ready.{IsReady};
ghost use Rattle.ps_hall.specs.Lookups.{legal_team, challenge_from, opponent};
ghost use Rattle.ps_hall.specs.KeptIndices.{AreReady};
ghost use Rattle.ps_hall.specs.Changes.{CanStart};
ghost use Rattle.ps_hall.specs.Starts.{start_with, start_if, start_of_match, start_of_challenge, game_of};
ghost use Rattle.ps_hall.specs.States.{record_of};

use crate::game::Game;
use crate::kept::{KeptTeam, find_kept, legal_copy};
use crate::state::State;
use ps_base::id::Id;
use ps_base::name::Name;
use ps_ladder::searches::Search;
use ps_pms::asked::Asked;
use ps_valid::legal::Legal;
use rules_config::seed::seed_of;
use rules_start::start::Start;
use std::alloc::{AllocError, Global};

// The next battle, of a format, between who comes with a kept team and who has the name and the team.
fn start_with(
    alloc: Global,
    state: &State,
    format: &Id,
    kept: &KeptTeam,
    name: &Name,
    legal: Legal,
) -> Result<Start, AllocError>
    requires { (record_of state.now).started < most_battles }
    ensures { IfOk result (λ s. s ≡ start_with (record_of state.now) format.now kept.now name.now legal) }
{
    let number = state.games.started() + 1;
    let first = legal_copy(alloc, &kept.team)?;
    Ok(Start {
        number,
        format: format.copy(alloc)?,
        players: [kept.name.copy(alloc)?, name.copy(alloc)?],
        teams: [first, legal],
        seed: seed_of(&state.config, number),
    })
}

fn start_if(
    alloc: Global,
    state: &State,
    format: &Id,
    kept: Option<&KeptTeam>,
    name: &Name,
    legal: Legal,
) -> Result<Option<Start>, AllocError>
    requires { (record_of state.now).started < most_battles }
    ensures value { IfOk result (λ o. o ≡ start_if (record_of state.now) format.now (option_copied kept.entry) name.now (Some legal)) }
    ensures next { IfOk result (λ o. IfSome o (λ s. s.number ≡ (record_of state.now).started + 1)) }
{
    match kept {
        None => Ok(None),
        Some(kept) => {
            let start = start_with(alloc, state, format, kept, name, legal)?;
            Ok(Some(start))
        }
    }
}

/// What a match with a search starts, of who has this legal team.
pub(crate) fn start_of_match(
    alloc: Global,
    state: &State,
    name: &Name,
    format: &Id,
    other: &Search,
    legal: Legal,
) -> Result<Option<Start>, AllocError>
    requires few { (record_of state.now).started < most_battles }
    requires ready { AreReady (record_of state.now) }
    requires other { opponent (record_of state.now) (id_of name.now) format.now ≡ Some other.now }
    requires legal { legal_team (record_of state.now) (id_of name.now) format.now ≡ Some legal }
    requires legal_ready { IsReady (record_of state.now).dex legal }
    ensures value { IfOk result (λ o. o ≡ start_of_match (record_of state.now) name.now format.now (Some other.now)) }
    ensures next { IfOk result (λ o. IfSome o (λ s. s.number ≡ (record_of state.now).started + 1)) }
    ensures fit { IfOk result (λ o. IfSome o (λ s. IsFit s (record_of state.now).config (record_of state.now).dex)) }
{
    let kept = state.search_teams.find(&other.user, format);
    start_if(alloc, state, format, kept, name, legal)
}

/// What a challenge starts that is accepted by who has this legal team.
pub(crate) fn start_of_challenge(
    alloc: Global,
    state: &State,
    name: &Name,
    user: &Id,
    asked: &Asked,
    legal: Legal,
) -> Result<Option<Start>, AllocError>
    requires few { (record_of state.now).started < most_battles }
    requires ready { AreReady (record_of state.now) }
    requires asked { challenge_from (record_of state.now) (id_of name.now) user.now ≡ Some asked.now }
    requires legal { legal_team (record_of state.now) (id_of name.now) asked.now.format ≡ Some legal }
    requires legal_ready { IsReady (record_of state.now).dex legal }
    ensures value { IfOk result (λ o. o ≡ start_of_challenge (record_of state.now) name.now (Some asked.now)) }
    ensures next { IfOk result (λ o. IfSome o (λ s. s.number ≡ (record_of state.now).started + 1)) }
    ensures fit { IfOk result (λ o. IfSome o (λ s. IsFit s (record_of state.now).config (record_of state.now).dex)) }
{
    let kept = find_kept(state.challenge_teams.as_slice(), &asked.by, name.id());
    start_if(alloc, state, &asked.format, kept, name, legal)
}

// The battle of a start.
fn game_of(alloc: Global, rated: bool, start: &Start) -> Result<Game, AllocError>
    ensures { IfOk result (λ g. g ≡ game_of rated start.now) }
{
    Ok(Game {
        number: start.number,
        format: start.format.copy(alloc)?,
        players: [start.players[0].copy(alloc)?, start.players[1].copy(alloc)?],
        rated,
    })
}

/// The battle of a start, if there is one.
pub(crate) fn game_if(
    alloc: Global,
    state: &State,
    rated: bool,
    start: Option<&Start>,
) -> Result<Option<Game>, AllocError>
    requires few { (record_of state.now).started < most_battles }
    requires next { IfSome (option_copied start) (λ s. s.number ≡ (record_of state.now).started + 1) }
    ensures value { IfOk result (λ o. o ≡ option_map (game_of rated) (option_copied start.entry)) }
    ensures can { IfOk result (CanStart (record_of state.now)) }
{
    match start {
        None => Ok(None),
        Some(start) => {
            let game = game_of(alloc, rated, start)?;
            Ok(Some(game))
        }
    }
}
