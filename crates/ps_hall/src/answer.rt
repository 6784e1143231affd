//! What a command that is applied tells: its row of the table, over the lists as they will be after it.
ghost use Rattle.std.specs.Prelude.{◌≡◌, ◌++◌, ◌∷◌, [], option_to_list, IfOk, Some, None, true};
ghost use Rattle.std.specs.Option.{option_copied, option_map};
ghost use Rattle.ps_base.specs.Ids.{id_of};
ghost use Rattle.ps_ladder.specs.Ratings.{rating};
ghost use Rattle.ps_ladder.specs.Waiting.{without};
ghost use Rattle.ps_pms.specs.Lookups.{asked_by};
ghost use Rattle.ps_users.specs.Refusals.{read_of};
ghost use Rattle.ps_users.specs.Steps.{badge_for};
ghost use Rattle.ps_hall.specs.Lookups.{ladder_in, player_id};
ghost use Rattle.ps_hall.specs.Refusals.{is_winner};
ghost use Rattle.ps_hall.specs.States.{record_of};
ghost use Rattle.ps_hall.specs.Steps.{after_cancel_challenge, after_cancel_search, after_challenge, after_reject, forgotten_by};
ghost use Rattle.ps_hall.specs.Steps.{loser_of, reported, settled_by, standing_with, winner_of, with_accept, with_settled};
ghost use Rattle.ps_hall.specs.Told as rows;

use crate::coming::{
    all_games, all_searches, asked_and, asked_not_by, asked_not_of, asked_not_with, games_and,
    games_but, searches_and, searches_but, searches_not_of,
};
use crate::game::Game;
use crate::lookup;
use crate::notice::Notice;
use crate::report::{loser_of, takes, winner_of};
use crate::state::State;
use crate::told::{
    told_both, told_of_accept, told_of_cancel_challenge, told_of_cancel_search, told_of_quit,
    told_of_search, told_players,
};
use ps_base::badge::Badge;
use ps_base::id::Id;
use ps_base::id_map::IdMap;
use ps_base::list::List;
use ps_base::name::Name;
use ps_base::number::ConnNo;
use ps_ladder::ladder::Ladder;
use ps_ladder::searches::Search;
use ps_pms::asked::Asked;
use ps_users::read::read_of;
use ps_users::users::Users;
use std::alloc::{AllocError, Global};

pub(crate) fn none(alloc: Global) -> List<Notice>
    ensures { result ≡ [] }
{
    List::from_vec(Vec::new(alloc))
}

// ---- names

/// The badge that a Name gives.
pub(crate) fn granted(alloc: Global, users: &Users, text: &str) -> Result<Option<Badge>, AllocError>
    ensures { IfOk result (λ o. o ≡ option_map (badge_for users.now) (read_of text.now)) }
{
    match read_of(alloc, text)? {
        None => Ok(None),
        Some(name) => Ok(Some(Badge {
            rank: users.rank_of(name.id().as_str()),
            name,
        })),
    }
}

// ---- who leaves

pub(crate) fn told_left(
    alloc: Global,
    state: &State,
    badge: &Badge,
) -> Result<List<Notice>, AllocError>
    ensures { IfOk result (λ l. l ≡ rows.told_of_quit (record_of state.now).users.online (record_of state.now).pms
        (forgotten_by (record_of state.now) (id_of badge.now.name)).pms.asked (Some badge.now)) }
{
    let asked = asked_not_with(alloc, state.pms.challenges(), badge.name.id())?;
    told_of_quit(
        alloc,
        &state.users,
        &state.pms,
        asked.as_slice(),
        Some(badge),
    )
}

// ---- searches

/// Who is matched with nobody waits by this search.
pub(crate) fn told_wait(
    alloc: Global,
    state: &State,
    conn: ConnNo,
    me: &Id,
    new: &Search,
) -> Result<List<Notice>, AllocError>
    ensures { IfOk result (λ l. l ≡ rows.told_of_search (record_of state.now).users.online (record_of state.now).games
        ((record_of state.now).searches ++ new.now ∷ []) conn me.now None) }
{
    let games = all_games(&state.games);
    let searches = searches_and(&state.searches, new);
    told_of_search(alloc, &state.users, &games, &searches, conn, me, None)
}

/// Who is matched with this search starts this battle, if one starts.
pub(crate) fn told_match(
    alloc: Global,
    state: &State,
    conn: ConnNo,
    me: &Id,
    format: &Id,
    rating: i32,
    other: &Search,
    game: Option<&Game>,
) -> Result<List<Notice>, AllocError>
    ensures { IfOk result (λ l. l ≡ rows.told_of_search (record_of state.now).users.online
        ((record_of state.now).games ++ option_to_list (option_copied game.entry))
        (without (record_of state.now).searches me.now format.now rating) conn me.now (Some other.now)) }
{
    let games = games_and(&state.games, game);
    let searches = searches_but(&state.searches, me, format, rating);
    told_of_search(
        alloc,
        &state.users,
        &games,
        &searches,
        conn,
        me,
        Some(other),
    )
}

pub(crate) fn told_cancel_search(
    alloc: Global,
    state: &State,
    conn: ConnNo,
    me: &Id,
) -> Result<List<Notice>, AllocError>
    ensures { IfOk result (λ l. l ≡ rows.told_of_cancel_search (after_cancel_search (record_of state.now) me.now).games
        (after_cancel_search (record_of state.now) me.now).searches conn me.now) }
{
    let games = all_games(&state.games);
    let searches = searches_not_of(&state.searches, me);
    told_of_cancel_search(alloc, &games, &searches, conn, me)
}

// ---- challenges

fn new_asked(alloc: Global, by: &Id, to: &Id, format: &Id) -> Result<Asked, AllocError>
    ensures { IfOk result (λ a. a ≡ record { by = by.now; to = to.now; format = format.now }) }
{
    Ok(Asked {
        by: by.copy(alloc)?,
        to: to.copy(alloc)?,
        format: format.copy(alloc)?,
    })
}

pub(crate) fn told_challenge(
    alloc: Global,
    state: &State,
    conn: ConnNo,
    name: &Name,
    user: &Id,
    format: &Id,
) -> Result<List<Notice>, AllocError>
    ensures { IfOk result (λ l. l ≡ rows.told_both (record_of state.now).users.online
        (after_challenge (record_of state.now) name.now user.now format.now).pms.asked conn (id_of name.now) user.now) }
{
    let new = new_asked(alloc, name.id(), user, format)?;
    let asked = asked_and(alloc, state.pms.challenges(), &new)?;
    told_both(alloc, &state.users, asked.as_slice(), conn, name.id(), user)
}

pub(crate) fn told_cancel_challenge(
    alloc: Global,
    state: &State,
    conn: ConnNo,
    me: &Id,
) -> Result<List<Notice>, AllocError>
    ensures { IfOk result (λ l. l ≡ rows.told_of_cancel_challenge (record_of state.now).users.online
        (after_cancel_challenge (record_of state.now) me.now).pms.asked conn me.now (asked_by (record_of state.now).pms me.now)) }
{
    let asked = asked_not_by(alloc, state.pms.challenges(), me)?;
    told_of_cancel_challenge(
        alloc,
        &state.users,
        asked.as_slice(),
        conn,
        me,
        state.pms.asked_by(me),
    )
}

pub(crate) fn told_reject(
    alloc: Global,
    state: &State,
    conn: ConnNo,
    me: &Id,
    user: &Id,
) -> Result<List<Notice>, AllocError>
    ensures { IfOk result (λ l. l ≡ rows.told_both (record_of state.now).users.online
        (after_reject (record_of state.now) me.now user.now).pms.asked conn me.now user.now) }
{
    let asked = asked_not_of(alloc, state.pms.challenges(), user, me)?;
    told_both(alloc, &state.users, asked.as_slice(), conn, me, user)
}

/// Whom an Accept tells what, with the battle that it starts, if it starts one.
pub(crate) fn told_accepted(
    alloc: Global,
    state: &State,
    conn: ConnNo,
    me: &Id,
    user: &Id,
    game: Option<&Game>,
) -> Result<List<Notice>, AllocError>
    ensures { IfOk result (λ l. l ≡ rows.told_of_accept (record_of state.now).users.online
        ((record_of state.now).games ++ option_to_list (option_copied game.entry))
        (record_of state.now).searches (with_accept (record_of state.now) me.now user.now).pms.asked
        conn me.now user.now) }
{
    let games = games_and(&state.games, game);
    let searches = all_searches(&state.searches);
    let asked = asked_not_of(alloc, state.pms.challenges(), user, me)?;
    told_of_accept(
        alloc,
        &state.users,
        &games,
        &searches,
        asked.as_slice(),
        conn,
        me,
        user,
    )
}

// ---- reports

// The ratings of a winner and a loser after the result.
fn new_ratings(ladder: &Ladder, winner: &Id, loser: &Id) -> (i32, i32)
    ensures winner { result.0 ≡ rating (standing_with ladder.now winner.now loser.now).ratings winner.now }
    ensures loser { result.1 ≡ rating (standing_with ladder.now winner.now loser.now).ratings loser.now }
{
    if !takes(ladder, winner, loser) {
        return (ladder.rating(winner), ladder.rating(loser));
    }
    ladder.preview(winner, loser)
}

// The same, of a format that may have no ladder yet.
fn ratings_of(
    alloc: Global,
    ladders: &IdMap<Ladder>,
    format: &Id,
    winner: &Id,
    loser: &Id,
) -> (i32, i32)
    ensures winner { result.0 ≡ rating (standing_with (ladder_in ladders.now format.now) winner.now loser.now).ratings winner.now }
    ensures loser { result.1 ≡ rating (standing_with (ladder_in ladders.now format.now) winner.now loser.now).ratings loser.now }
{
    match ladders.find(format.as_str()) {
        None => {
            let ladder = Ladder::new(alloc);
            new_ratings(&ladder, winner, loser)
        }
        Some(ladder) => new_ratings(ladder, winner, loser),
    }
}

// The ratings of player 1 and player 2 after one of them won.
fn ratings_won(alloc: Global, ladders: &IdMap<Ladder>, game: &Game, won: u8) -> (i32, i32)
    requires { is_winner (Some won) ≡ true }
    ensures one { result.0 ≡ rating (ladder_in
        (with_settled ladders.now game.now.format (winner_of game.now won) (loser_of game.now won)) game.now.format).ratings
        (player_id game.now 0) }
    ensures two { result.1 ≡ rating (ladder_in
        (with_settled ladders.now game.now.format (winner_of game.now won) (loser_of game.now won)) game.now.format).ratings
        (player_id game.now 1) }
{
    let (higher, lower) = ratings_of(
        alloc,
        ladders,
        &game.format,
        winner_of(game, won),
        loser_of(game, won),
    );
    if won == 0 {
        return (higher, lower);
    }
    (lower, higher)
}

// The ratings of player 1 and player 2 where the battle moves none.
fn ratings_before(ladders: &IdMap<Ladder>, game: &Game) -> (i32, i32)
    ensures one { result.0 ≡ rating (ladder_in ladders.now game.now.format).ratings (player_id game.now 0) }
    ensures two { result.1 ≡ rating (ladder_in ladders.now game.now.format).ratings (player_id game.now 1) }
{
    (
        lookup::rating_in(ladders, &game.format, game.first_id()),
        lookup::rating_in(ladders, &game.format, game.second_id()),
    )
}

// The ratings of player 1 and player 2 after the battle.
fn ratings_after(
    alloc: Global,
    ladders: &IdMap<Ladder>,
    game: &Game,
    winner: Option<u8>,
) -> (i32, i32)
    requires { is_winner winner ≡ true }
    ensures one { result.0 ≡ rating (ladder_in (settled_by ladders.now game.now game.now.rated winner) game.now.format).ratings
        (player_id game.now 0) }
    ensures two { result.1 ≡ rating (ladder_in (settled_by ladders.now game.now game.now.rated winner) game.now.format).ratings
        (player_id game.now 1) }
{
    if !game.rated {
        return ratings_before(ladders, game);
    }
    match winner {
        None => ratings_before(ladders, game),
        Some(won) => ratings_won(alloc, ladders, game, won),
    }
}

pub(crate) fn told_game(
    alloc: Global,
    state: &State,
    number: u32,
    winner: Option<u8>,
    game: &Game,
) -> Result<List<Notice>, AllocError>
    requires { is_winner winner ≡ true }
    ensures { IfOk result (λ l. l ≡ rows.told_of_report (record_of state.now).users.online
        (reported (record_of state.now) number winner (Some game.now)) winner (Some game.now)) }
{
    let (one, two) = ratings_after(alloc, &state.ladders, game, winner);
    let games = games_but(&state.games, number);
    let searches = all_searches(&state.searches);
    told_players(
        alloc,
        &state.users,
        &games,
        &searches,
        one,
        two,
        game,
        winner,
    )
}
