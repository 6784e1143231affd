//! The rows of the hall table: whom each command tells what, where it is applied.
ghost use Rattle.std.specs.Prelude.{◌≡◌, ◌∷◌, ◌++◌, [], map, Some, IfOk, OnOk};
ghost use Rattle.std.specs.Option.{option_copied};
ghost use Rattle.ps_hall.specs.Coming.{games_after, searches_after};
ghost use Rattle.ps_hall.specs.Lines.{search_line, challenge_line};
ghost use Rattle.ps_hall.specs.Told.{notice, to_user, told_of_open, told_of_name, told_partners, told_of_quit, told_matched};
ghost use Rattle.ps_hall.specs.Told.{told_of_search, told_of_cancel_search, told_both, told_of_cancel_challenge, accept_lines};
ghost use Rattle.ps_hall.specs.Told.{told_of_accept, told_ends, told_whisper, told_of_pm, told_of_rank, rating_lines, told_player};
ghost use Rattle.ps_hall.specs.Told.{told_players};

use crate::coming::{ComingGames, ComingSearches};
use crate::game::Game;
use crate::line::{challenge_line, open_lines, rating_line, search_line, user_line, whisper_line};
use crate::notice::Notice;
use ps_base::badge::Badge;
use ps_base::id::Id;
use ps_base::list::List;
use ps_base::number::ConnNo;
use ps_base::text::Text;
use ps_group::groups::Groups;
use ps_ladder::searches::Search;
use ps_pms::asked::Asked;
use ps_pms::pms::Pms;
use ps_users::users::Users;
use rules_config::config::Config;
use std::alloc::{AllocError, Global};

// ---- who is told

fn one_line(alloc: Global, line: Text) -> Result<List<Text>, AllocError>
    ensures { IfOk result (λ l. l ≡ line ∷ []) }
{
    let mut lines = Vec::with_capacity(alloc, 1)?;
    lines.push(line)?;
    Ok(List::from_vec(lines))
}

fn push(notices: &mut Vec<Notice>, conn: ConnNo, lines: List<Text>) -> Result<(), AllocError>
    ensures { OnOk result (notices.new.items ≡ notices.old.items ++ notice conn lines ∷ []) }
{
    notices.push(Notice { conn, lines })?;
    Ok(())
}

/// A user on its connection, if it is online.
fn push_to_user(
    notices: &mut Vec<Notice>,
    users: &Users,
    id: &Id,
    lines: List<Text>,
) -> Result<(), AllocError>
    ensures { OnOk result (notices.new.items ≡ notices.old.items ++ to_user users.now.online id.now lines) }
{
    match users.conn(id.as_str()) {
        None => Ok(()),
        Some(conn) => push(notices, conn, lines),
    }
}

fn to_conn(alloc: Global, conn: ConnNo, lines: List<Text>) -> Result<Vec<Notice>, AllocError>
    ensures { IfOk result (λ v. v.items ≡ notice conn lines ∷ []) }
{
    let mut notices = Vec::new(alloc);
    push(&mut notices, conn, lines)?;
    Ok(notices)
}

/// One connection, one line.
fn told_line(alloc: Global, conn: ConnNo, line: Text) -> Result<Vec<Notice>, AllocError>
    ensures { IfOk result (λ v. v.items ≡ notice conn (line ∷ []) ∷ []) }
{
    let lines = one_line(alloc, line)?;
    to_conn(alloc, conn, lines)
}

fn none(alloc: Global) -> List<Notice>
    ensures { result ≡ [] }
{
    List::from_vec(Vec::new(alloc))
}

// ---- connections

/// Who connects.
pub(crate) fn told_of_open(
    alloc: Global,
    config: &Config,
    conn: ConnNo,
) -> Result<List<Notice>, AllocError>
    ensures { IfOk result (λ l. l ≡ told_of_open config.now conn) }
{
    let lines = open_lines(alloc, config.nonce(), config.formats().list(), conn)?;
    Ok(List::from_vec(to_conn(alloc, conn, lines)?))
}

/// Who takes a name, with the badge that it has from then on.
pub(crate) fn told_of_name(
    alloc: Global,
    groups: &Groups,
    conn: ConnNo,
    badge: Option<&Badge>,
) -> Result<List<Notice>, AllocError>
    ensures { IfOk result (λ l. l ≡ told_of_name groups.now conn (option_copied badge.entry)) }
{
    match badge {
        None => Ok(none(alloc)),
        Some(badge) => {
            let line = user_line(alloc, groups, badge)?;
            Ok(List::from_vec(told_line(alloc, conn, line)?))
        }
    }
}

/// A user of the challenges that it has.
fn push_challenges(
    alloc: Global,
    notices: &mut Vec<Notice>,
    users: &Users,
    asked: &[&Asked],
    id: &Id,
) -> Result<(), AllocError>
    ensures { OnOk result (notices.new.items ≡ notices.old.items
        ++ to_user users.now.online id.now (challenge_line (map (λ x. x.now) asked.now) id.now ∷ [])) }
{
    let line = challenge_line(alloc, asked, id)?;
    let lines = one_line(alloc, line)?;
    push_to_user(notices, users, id, lines)
}

fn told_partners(
    alloc: Global,
    users: &Users,
    asked: &[&Asked],
    ids: &[Id],
) -> Result<Vec<Notice>, AllocError>
    ensures { IfOk result (λ v. v.items ≡ told_partners users.now.online (map (λ x. x.now) asked.now) ids.now) }
{
    let mut notices = Vec::new(alloc);
    for id in ids {
        push_challenges(alloc, &mut notices, users, asked, id)?;
    }
    Ok(notices)
}

/// Whoever had a challenge with who leaves: `pms` are the challenges before, `asked` those after.
pub(crate) fn told_of_quit(
    alloc: Global,
    users: &Users,
    pms: &Pms,
    asked: &[&Asked],
    badge: Option<&Badge>,
) -> Result<List<Notice>, AllocError>
    ensures { IfOk result (λ l. l ≡ told_of_quit users.now.online pms.now (map (λ x. x.now) asked.now) (option_copied badge.entry)) }
{
    match badge {
        None => Ok(none(alloc)),
        Some(badge) => {
            let partners = pms.partners(alloc, badge.name.id())?;
            Ok(List::from_vec(told_partners(alloc, users, asked, partners.as_slice())?))
        }
    }
}

// ---- searches

/// A user of its battles and searches.
fn push_searches(
    alloc: Global,
    notices: &mut Vec<Notice>,
    users: &Users,
    games: &ComingGames,
    searches: &ComingSearches,
    id: &Id,
) -> Result<(), AllocError>
    ensures { OnOk result (notices.new.items ≡ notices.old.items
        ++ to_user users.now.online id.now (search_line (games_after games.now) (searches_after searches.now) id.now ∷ [])) }
{
    let line = search_line(alloc, games, searches, id)?;
    let lines = one_line(alloc, line)?;
    push_to_user(notices, users, id, lines)
}

/// The other one, where there is a match.
fn push_matched(
    alloc: Global,
    notices: &mut Vec<Notice>,
    users: &Users,
    games: &ComingGames,
    searches: &ComingSearches,
    other: Option<&Search>,
) -> Result<(), AllocError>
    ensures { OnOk result (notices.new.items ≡ notices.old.items
        ++ told_matched users.now.online (games_after games.now) (searches_after searches.now) (option_copied other.entry)) }
{
    match other {
        None => Ok(()),
        Some(other) => push_searches(alloc, notices, users, games, searches, &other.user),
    }
}

fn told_searcher(
    alloc: Global,
    games: &ComingGames,
    searches: &ComingSearches,
    conn: ConnNo,
    me: &Id,
) -> Result<Vec<Notice>, AllocError>
    ensures { IfOk result (λ v. v.items ≡ told_of_cancel_search (games_after games.now) (searches_after searches.now) conn me.now) }
{
    let line = search_line(alloc, games, searches, me)?;
    told_line(alloc, conn, line)
}

/// Who searches, and who it is matched with. Battles and searches are those after the command.
pub(crate) fn told_of_search(
    alloc: Global,
    users: &Users,
    games: &ComingGames,
    searches: &ComingSearches,
    conn: ConnNo,
    me: &Id,
    other: Option<&Search>,
) -> Result<List<Notice>, AllocError>
    ensures { IfOk result (λ l. l
        ≡ told_of_search users.now.online (games_after games.now) (searches_after searches.now) conn me.now (option_copied other.entry)) }
{
    let mut notices = told_searcher(alloc, games, searches, conn, me)?;
    push_matched(alloc, &mut notices, users, games, searches, other)?;
    Ok(List::from_vec(notices))
}

/// Who ends its searches. Battles and searches are those after the command.
pub(crate) fn told_of_cancel_search(
    alloc: Global,
    games: &ComingGames,
    searches: &ComingSearches,
    conn: ConnNo,
    me: &Id,
) -> Result<List<Notice>, AllocError>
    ensures { IfOk result (λ l. l ≡ told_of_cancel_search (games_after games.now) (searches_after searches.now) conn me.now) }
{
    Ok(List::from_vec(told_searcher(alloc, games, searches, conn, me)?))
}

// ---- challenges

/// Both ends of a challenge: who sends the command, and the other user. The challenges are those after it.
pub(crate) fn told_both(
    alloc: Global,
    users: &Users,
    asked: &[&Asked],
    conn: ConnNo,
    me: &Id,
    user: &Id,
) -> Result<List<Notice>, AllocError>
    ensures { IfOk result (λ l. l ≡ told_both users.now.online (map (λ x. x.now) asked.now) conn me.now user.now) }
{
    let line = challenge_line(alloc, asked, me)?;
    let mut notices = told_line(alloc, conn, line)?;
    push_challenges(alloc, &mut notices, users, asked, user)?;
    Ok(List::from_vec(notices))
}

/// Both ends of a challenge that is taken back: `made` is the one that the user had made, `asked` are those after.
pub(crate) fn told_of_cancel_challenge(
    alloc: Global,
    users: &Users,
    asked: &[&Asked],
    conn: ConnNo,
    me: &Id,
    made: Option<&Asked>,
) -> Result<List<Notice>, AllocError>
    ensures { IfOk result (λ l. l ≡ told_of_cancel_challenge users.now.online (map (λ x. x.now) asked.now) conn me.now
        (option_copied made.entry)) }
{
    match made {
        None => Ok(none(alloc)),
        Some(made) => told_both(alloc, users, asked, conn, me, &made.to),
    }
}

fn accept_lines(
    alloc: Global,
    games: &ComingGames,
    searches: &ComingSearches,
    asked: &[&Asked],
    id: &Id,
) -> Result<List<Text>, AllocError>
    ensures { IfOk result (λ l. l
        ≡ accept_lines (games_after games.now) (searches_after searches.now) (map (λ x. x.now) asked.now) id.now) }
{
    let mut lines = Vec::with_capacity(alloc, 2)?;
    lines.push(challenge_line(alloc, asked, id)?)?;
    lines.push(search_line(alloc, games, searches, id)?)?;
    Ok(List::from_vec(lines))
}

/// Both players of the battle that starts. Battles, searches and challenges are those after the command.
pub(crate) fn told_of_accept(
    alloc: Global,
    users: &Users,
    games: &ComingGames,
    searches: &ComingSearches,
    asked: &[&Asked],
    conn: ConnNo,
    me: &Id,
    user: &Id,
) -> Result<List<Notice>, AllocError>
    ensures { IfOk result (λ l. l
        ≡ told_of_accept users.now.online (games_after games.now) (searches_after searches.now) (map (λ x. x.now) asked.now)
        conn me.now user.now) }
{
    let lines = accept_lines(alloc, games, searches, asked, me)?;
    let mut notices = to_conn(alloc, conn, lines)?;
    let lines = accept_lines(alloc, games, searches, asked, user)?;
    push_to_user(&mut notices, users, user, lines)?;
    Ok(List::from_vec(notices))
}

// ---- whispers

/// Both ends of a whisper, once where they are one.
fn told_ends(
    alloc: Global,
    conn: ConnNo,
    other: ConnNo,
    line: Text,
) -> Result<List<Notice>, AllocError>
    ensures { IfOk result (λ l. l ≡ told_ends conn other (line ∷ [])) }
{
    if conn == other {
        return Ok(List::from_vec(told_line(alloc, conn, line)?));
    }
    let again = line.copy(alloc)?;
    let mut notices = told_line(alloc, conn, line)?;
    let lines = one_line(alloc, again)?;
    push(&mut notices, other, lines)?;
    Ok(List::from_vec(notices))
}

fn told_whisper(
    alloc: Global,
    groups: &Groups,
    conn: ConnNo,
    from: &Badge,
    other: ConnNo,
    to: Option<&Badge>,
    text: &str,
) -> Result<List<Notice>, AllocError>
    ensures { IfOk result (λ l. l ≡ told_whisper groups.now conn from.now (Some other) (option_copied to.entry) text.now) }
{
    match to {
        None => Ok(none(alloc)),
        Some(to) => {
            let line = whisper_line(alloc, groups, from, to, text)?;
            told_ends(alloc, conn, other, line)
        }
    }
}

/// Both ends of a whisper.
pub(crate) fn told_of_pm(
    alloc: Global,
    groups: &Groups,
    users: &Users,
    conn: ConnNo,
    from: &Badge,
    user: &Id,
    text: &str,
) -> Result<List<Notice>, AllocError>
    ensures { IfOk result (λ l. l ≡ told_of_pm groups.now users.now conn from.now user.now text.now) }
{
    match users.conn(user.as_str()) {
        None => Ok(none(alloc)),
        Some(other) => {
            let to = users.badge(other);
            told_whisper(alloc, groups, conn, from, other, to, text)
        }
    }
}

// ---- ratings and reports

/// Who asks for a rating.
pub(crate) fn told_of_rank(
    alloc: Global,
    conn: ConnNo,
    user: &Id,
    format: &Id,
    rating: i32,
) -> Result<List<Notice>, AllocError>
    ensures { IfOk result (λ l. l ≡ told_of_rank conn user.now format.now rating) }
{
    let line = rating_line(alloc, user, format, rating)?;
    Ok(List::from_vec(told_line(alloc, conn, line)?))
}

/// The new rating, after a rated battle that was won.
fn push_rating(
    alloc: Global,
    lines: &mut Vec<Text>,
    rating: i32,
    game: &Game,
    winner: Option<u8>,
    id: &Id,
) -> Result<(), AllocError>
    ensures { OnOk result (lines.new.items ≡ lines.old.items ++ rating_lines rating game.now game.now.rated winner id.now) }
{
    if !game.rated {
        return Ok(());
    }
    match winner {
        None => Ok(()),
        Some(_) => {
            lines.push(rating_line(alloc, id, &game.format, rating)?)?;
            Ok(())
        }
    }
}

fn player_lines(
    alloc: Global,
    games: &ComingGames,
    searches: &ComingSearches,
    rating: i32,
    game: &Game,
    winner: Option<u8>,
    id: &Id,
) -> Result<List<Text>, AllocError>
    ensures { IfOk result (λ l. l
        ≡ search_line (games_after games.now) (searches_after searches.now) id.now
        ∷ rating_lines rating game.now game.now.rated winner id.now) }
{
    let mut lines = Vec::with_capacity(alloc, 2)?;
    lines.push(search_line(alloc, games, searches, id)?)?;
    push_rating(alloc, &mut lines, rating, game, winner, id)?;
    Ok(List::from_vec(lines))
}

fn push_player(
    alloc: Global,
    notices: &mut Vec<Notice>,
    users: &Users,
    games: &ComingGames,
    searches: &ComingSearches,
    rating: i32,
    game: &Game,
    winner: Option<u8>,
    id: &Id,
) -> Result<(), AllocError>
    ensures { OnOk result (notices.new.items ≡ notices.old.items
        ++ told_player users.now.online (games_after games.now) (searches_after searches.now) rating game.now winner id.now) }
{
    let lines = player_lines(alloc, games, searches, rating, game, winner, id)?;
    push_to_user(notices, users, id, lines)
}

/// Both players of a battle that was reported, of which player 1 and player 2 have these ratings from then on. Battles and
/// searches are those after the report.
pub(crate) fn told_players(
    alloc: Global,
    users: &Users,
    games: &ComingGames,
    searches: &ComingSearches,
    one: i32,
    two: i32,
    game: &Game,
    winner: Option<u8>,
) -> Result<List<Notice>, AllocError>
    ensures { IfOk result (λ l. l
        ≡ told_players users.now.online (games_after games.now) (searches_after searches.now) one two game.now winner) }
{
    let first = game.first_id();
    let second = game.second_id();
    let mut notices = Vec::new(alloc);
    push_player(
        alloc,
        &mut notices,
        users,
        games,
        searches,
        one,
        game,
        winner,
        first,
    )?;
    push_player(
        alloc,
        &mut notices,
        users,
        games,
        searches,
        two,
        game,
        winner,
        second,
    )?;
    Ok(List::from_vec(notices))
}
