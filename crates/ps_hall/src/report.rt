//! Reports of battles that ended.
ghost use Rattle.std.specs.Prelude.{◌≡◌, OnOk, OnErr, [], Some, true, is_some};
ghost use Rattle.std.specs.Option.{option_copied};
ghost use Rattle.std.specs.FinMap.{get, insert};
ghost use Rattle.ps_base.specs.Ids.{id_of};
ghost use Rattle.ps_ladder.specs.Ratings.{Standing, standing_of};
ghost use Rattle.ps_hall.specs.Refusals.{is_winner};
ghost use Rattle.ps_hall.specs.States.{record_of};
ghost use Rattle.ps_hall.specs.Steps.{winner_of, loser_of, takes, standing_with, with_settled, settled_by, after_report};

use crate::game::Game;
use crate::state::State;
use ps_base::id::Id;
use ps_base::id_map::IdMap;
use ps_base::limit::MOST_BATTLES;
use ps_ladder::ladder::Ladder;
use std::alloc::{AllocError, Global};

// Whether a ladder takes a result.
pub(crate) fn takes(ladder: &Ladder, winner: &Id, loser: &Id) -> bool
    ensures { result ≡ takes ladder.now winner.now loser.now }
{
    ladder.count() < MOST_BATTLES && !(winner.as_str() == loser.as_str())
}

// A ladder after a result.
fn settle_with(
    alloc: Global,
    ladder: &mut Ladder,
    winner: &Id,
    loser: &Id,
) -> Result<(), AllocError>
    ensures ok { OnOk result (ladder.new ≡ standing_with ladder.old winner.now loser.now) }
    ensures err { OnErr result (ladder.new ≡ ladder.old) }
{
    if !takes(ladder, winner, loser) {
        return Ok(());
    }
    match ladder.settle(alloc, winner, loser) {
        Err(end) => Err(end),
        Ok(_) => Ok(()),
    }
}

// The first result of a format.
fn settle_first(
    alloc: Global,
    ladders: &mut IdMap<Ladder>,
    format: &Id,
    winner: &Id,
    loser: &Id,
) -> Result<(), AllocError>
    ensures ok { OnOk result (ladders.new ≡ insert ladders.old format.now (standing_with (standing_of []) winner.now loser.now)) }
    ensures err { OnErr result (ladders.new ≡ ladders.old) }
{
    let mut ladder = Ladder::new(alloc);
    settle_with(alloc, &mut ladder, winner, loser)?;
    ladders.insert(alloc, format.as_str(), ladder)
}

// Gives a format that has a ladder this one. Takes no memory.
fn put_back(ladders: &mut IdMap<Ladder>, format: &Id, ladder: Ladder)
    requires { is_some (get ladders.old format.now) ≡ true }
    ensures { ladders.new ≡ insert ladders.old format.now ladder }
{
    let _ = ladders.replace(format.as_str(), ladder);
}

/// The ladders after a result of a format. Where memory fails nothing changes.
fn settle(
    alloc: Global,
    ladders: &mut IdMap<Ladder>,
    format: &Id,
    winner: &Id,
    loser: &Id,
) -> Result<(), AllocError>
    ensures ok { OnOk result (ladders.new ≡ with_settled ladders.old format.now winner.now loser.now) }
    ensures err { OnErr result (ladders.new ≡ ladders.old) }
{
    let Some(mut ladder) = ladders.replace(format.as_str(), Ladder::new(alloc)) else {
        return settle_first(alloc, ladders, format, winner, loser);
    };
    match settle_with(alloc, &mut ladder, winner, loser) {
        Err(end) => {
            put_back(ladders, format, ladder);
            Err(end)
        }
        Ok(()) => {
            put_back(ladders, format, ladder);
            Ok(())
        }
    }
}

/// The winner's id, where player 1 or player 2 won.
pub(crate) fn winner_of(game: &Game, won: u8) -> &Id
    requires { is_winner (Some won) ≡ true }
    ensures { result.now ≡ winner_of game.now won }
{
    if won == 0 {
        return game.players[0].id();
    }
    game.players[1].id()
}

/// The loser's id, where player 1 or player 2 won.
pub(crate) fn loser_of(game: &Game, won: u8) -> &Id
    ensures { result.now ≡ loser_of game.now won }
{
    if won < 1 {
        return game.players[1].id();
    }
    game.players[0].id()
}

// A rated battle that was won moves ratings.
fn settle_game(
    alloc: Global,
    ladders: &mut IdMap<Ladder>,
    game: &Game,
    winner: Option<u8>,
) -> Result<(), AllocError>
    requires { is_winner winner ≡ true }
    ensures ok { OnOk result (ladders.new ≡ settled_by ladders.old game.now game.now.rated winner) }
    ensures err { OnErr result (ladders.new ≡ ladders.old) }
{
    if !game.rated {
        return Ok(());
    }
    match winner {
        None => Ok(()),
        Some(won) => settle(
            alloc,
            ladders,
            &game.format,
            winner_of(game, won),
            loser_of(game, won),
        ),
    }
}

/// A report: a battle that started and wasn't reported is reported.
pub(crate) fn after_report(
    alloc: Global,
    state: &mut State,
    number: u32,
    winner: Option<u8>,
) -> Result<(), AllocError>
    requires { is_winner winner ≡ true }
    ensures ok { OnOk result (record_of state.new ≡ after_report (record_of state.old) number winner) }
    ensures err { OnErr result (record_of state.new ≡ record_of state.old) }
{
    match state.games.find(number) {
        None => Ok(()),
        Some(game) => {
            settle_game(alloc, &mut state.ladders, game, winner)?;
            state.games.remove(alloc, number);
            Ok(())
        }
    }
}
