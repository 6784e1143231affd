//! The lines of the hall.
ghost use Rattle.std.specs.Prelude.{◌≡◌, ◌∷◌, ◌++◌, [], false, find, map, codes, string_bytes, IfOk, OnOk};
ghost use Rattle.std.specs.List.{filter, join_with_byte};
ghost use Rattle.std.specs.Option.{option_copied};
ghost use Rattle.serde_json.specs.Data.{string, array, object, member, no_members, put as with_member};
ghost use Rattle.serde_json.specs.View.{view, items_of, members_view};
ghost use Rattle.serde_json.specs.Written.{comma_if, compact_text, items_text};
ghost use Rattle.ps_pms.specs.Lookups.{is_by, is_to};
ghost use Rattle.ps_hall.specs.Coming.{formats_of, games_after, searches_after};
ghost use Rattle.ps_hall.specs.Lookups.{games_of, searched};
ghost use Rattle.ps_hall.specs.Lines.{challstr_line, guest_line, formats_line, open_lines, user_line, with_game, with_games};
ghost use Rattle.ps_hall.specs.Lines.{games_text, game_member, object_or_null, search_line, made_text, got_text, with_asked};
ghost use Rattle.ps_hall.specs.Lines.{challenge_line, whisper_line, rating_line, taken_by, taken_line, refused_line};

use crate::coming::{ComingGames, ComingSearches, own_games, own_searches};
use crate::game::Game;
use json_text::quoted::push_quoted;
use ps_base::badge::Badge;
use ps_base::hall_why::{HallWhy, nametaken_line, popup_line};
use ps_base::id::Id;
use ps_base::list::List;
use ps_base::number::ConnNo;
use ps_base::text::Text;
use ps_data::writing::written;
use ps_group::groups::Groups;
use ps_group::shown_name::shown_name;
use ps_ladder::searches::Search;
use ps_lines::command::HallCmd;
use ps_pms::asked::Asked;
use ps_rules::table::Format;
use ps_users::read::read_of;
use rules_start::start::battle_id;
use serde_json::{Map, Value};
use std::alloc::{AllocError, Global};

/// Room for a usual line of JSON: one battle, and a search or two.
const ROOM_OF_LINE: usize = 128;

// ---- connecting

fn challstr_line(alloc: Global, nonce: &str, conn: ConnNo) -> Result<Text, AllocError>
    ensures { IfOk result (λ t. t ≡ challstr_line nonce.now conn) }
{
    Ok(Text::from_string(format!(in alloc; "|challstr|{nonce}-{conn}")?))
}

fn guest_line(alloc: Global, conn: ConnNo) -> Result<Text, AllocError>
    ensures { IfOk result (λ t. t ≡ guest_line conn) }
{
    Ok(Text::from_string(format!(in alloc; "|updateuser| Guest {conn}|0|0|{{}}")?))
}

fn names_of(alloc: Global, first: &Format, rest: &[Format]) -> Result<String, AllocError>
    ensures { IfOk result (λ text. string_bytes text ≡ join_with_byte 124 (map (λ f. f.name) (first.now ∷ rest.now))) }
{
    let mut names = String::from_str(alloc, first.name.as_str())?;
    for format in rest {
        names.push('|')?;
        names.push_str(format.name.as_str())?;
    }
    Ok(names)
}

fn format_names(alloc: Global, formats: &[Format]) -> Result<String, AllocError>
    ensures { IfOk result (λ text. string_bytes text ≡ join_with_byte 124 (map (λ f. f.name) formats.now)) }
{
    match formats.split_first() {
        None => Ok(String::new(alloc)),
        Some((first, rest)) => names_of(alloc, first, rest),
    }
}

fn formats_line(alloc: Global, formats: &[Format]) -> Result<Text, AllocError>
    ensures { IfOk result (λ t. t ≡ formats_line formats.now) }
{
    let names = format_names(alloc, formats)?;
    Ok(Text::from_string(format!(in alloc; "|formats|{names}")?))
}

/// What who connects is sent: `|challstr|`, `|updateuser|` of a guest, and the names of the formats.
pub(crate) fn open_lines(
    alloc: Global,
    nonce: &str,
    formats: &[Format],
    conn: ConnNo,
) -> Result<List<Text>, AllocError>
    ensures { IfOk result (λ l. l ≡ open_lines nonce.now formats.now conn) }
{
    let mut lines = Vec::with_capacity(alloc, 3)?;
    lines.push(challstr_line(alloc, nonce, conn)?)?;
    lines.push(guest_line(alloc, conn)?)?;
    lines.push(formats_line(alloc, formats)?)?;
    Ok(List::from_vec(lines))
}

/// What who takes a name is sent: `|updateuser|`.
pub(crate) fn user_line(alloc: Global, groups: &Groups, badge: &Badge) -> Result<Text, AllocError>
    ensures { IfOk result (λ t. t ≡ user_line groups.now badge.now) }
{
    let shown = shown_name(alloc, groups, badge.rank, &badge.name)?;
    Ok(Text::from_string(format!(in alloc; "|updateuser|{shown}|1|0|{{}}")?))
}

// ---- JSON

/// Puts a text at a key.
fn put_text(
    alloc: Global,
    members: &mut Map<String, Value>,
    key: &str,
    text: &str,
) -> Result<(), AllocError>
    ensures { OnOk result (members_view members.new.entries ≡ with_member key.now (string text.now) (members_view members.old.entries)) }
{
    let text = Value::try_from_str(alloc, text)?;
    serde_json::put(members, alloc, key, text)
}

/// No members are null.
fn object_or_null(members: Map<String, Value>) -> Value
    ensures { view result ≡ object_or_null (members_view members.entries) }
{
    if members.is_empty() {
        return Value::Null;
    }
    Value::Object(members)
}

// ---- `|updatesearch|`

/// Puts a battle's title at its id.
fn put_game(alloc: Global, members: &mut Map<String, Value>, game: &Game) -> Result<(), AllocError>
    ensures { OnOk result (members_view members.new.entries ≡ with_game (members_view members.old.entries) game.now) }
{
    let id = battle_id(alloc, &game.format, game.number)?;
    let title = game.title(alloc)?;
    put_text(alloc, members, id.as_str(), title.as_str())
}

fn titles_of(alloc: Global, games: &[&Game]) -> Result<Map<String, Value>, AllocError>
    ensures { IfOk result (λ m. members_view m.entries ≡ with_games no_members (map (λ x. x.now) games.now)) }
{
    let mut members = Map::new(alloc);
    for game in games {
        put_game(alloc, &mut members, *game)?;
    }
    Ok(members)
}

// A battle's title at its id.
#[tactic(auto, unfolding(crate::specs::Lines::game_member))]
fn push_game(alloc: Global, out: &mut String, game: &Game) -> Result<(), AllocError>
    ensures { OnOk result (string_bytes out.new ≡ string_bytes out.old ++ game_member game.now) }
{
    let id = battle_id(alloc, &game.format, game.number)?;
    let title = game.title(alloc)?;
    push_quoted(out, id.as_str())?;
    out.push_str(":")?;
    push_quoted(out, title.as_str())
}

// One battle alone.
fn push_one_game(alloc: Global, out: &mut String, game: &Game) -> Result<(), AllocError>
    ensures { OnOk result (string_bytes out.new ≡ string_bytes out.old ++ games_text (game.now ∷ [])) }
{
    out.push_str("{")?;
    push_game(alloc, out, game)?;
    out.push_str("}")?;
    Ok(())
}

// Battles in the order of their ids.
#[tactic(auto, unfolding(crate::specs::Lines::games_text), using(crate::proofs::JsonLemmas::some_games_plain))]
fn push_sorted_games(alloc: Global, out: &mut String, games: &[&Game]) -> Result<(), AllocError>
    ensures { OnOk result (string_bytes out.new ≡ string_bytes out.old ++ games_text (map (λ x. x.now) games.now)) }
{
    let members = titles_of(alloc, games)?;
    let value = object_or_null(members);
    let text = written(alloc, &value)?;
    out.push_str(text.as_str())
}

// Most users play one battle, or none, which needs no sorting.
fn push_some_games(
    alloc: Global,
    out: &mut String,
    games: &[&Game],
    first: &Game,
    rest: &[&Game],
) -> Result<(), AllocError>
    requires { map (λ x. x.now) games.now ≡ first.now ∷ map (λ x. x.now) rest.now }
    ensures { OnOk result (string_bytes out.new ≡ string_bytes out.old ++ games_text (map (λ x. x.now) games.now)) }
{
    match rest {
        [] => push_one_game(alloc, out, first),
        [_, ..] => push_sorted_games(alloc, out, games),
    }
}

// Each battle's title by its id.
fn push_games(alloc: Global, out: &mut String, games: &[&Game]) -> Result<(), AllocError>
    ensures { OnOk result (string_bytes out.new ≡ string_bytes out.old ++ games_text (map (λ x. x.now) games.now)) }
{
    match games {
        [] => {
            out.push_str("null")?;
            Ok(())
        }
        [first, rest @ ..] => push_some_games(alloc, out, games, *first, rest),
    }
}

fn push_own_games(
    alloc: Global,
    out: &mut String,
    games: &ComingGames,
    id: &Id,
) -> Result<(), AllocError>
    ensures { OnOk result (string_bytes out.new ≡ string_bytes out.old ++ games_text (games_of (games_after games.now) id.now)) }
{
    let own = own_games(alloc, games, id)?;
    push_games(alloc, out, own.as_slice())
}

fn push_comma_if(out: &mut String, later: bool) -> Result<(), AllocError>
    ensures { OnOk result (string_bytes out.new ≡ string_bytes out.old ++ comma_if later) }
{
    if later { out.push_str(",") } else { Ok(()) }
}

// The formats of these searches, and the bracket that closes their array.
fn push_formats(out: &mut String, later: bool, searches: &[&Search]) -> Result<(), AllocError>
    ensures { OnOk result (string_bytes out.new ≡ string_bytes out.old
        ++ items_text later (items_of (map string (formats_of (map (λ x. x.now) searches.now))))) }
{
    match searches {
        [] => out.push_str("]"),
        [search, rest @ ..] => {
            push_comma_if(out, later)?;
            push_quoted(out, search.format.as_str())?;
            push_formats(out, true, rest)
        }
    }
}

// The formats that a user searches, and the bracket that closes their array.
fn push_own_formats(
    alloc: Global,
    out: &mut String,
    searches: &ComingSearches,
    id: &Id,
) -> Result<(), AllocError>
    ensures { OnOk result (string_bytes out.new ≡ string_bytes out.old
        ++ items_text false (items_of (map string (searched (searches_after searches.now) id.now)))) }
{
    let own = own_searches(alloc, searches, id)?;
    push_formats(out, false, own.as_slice())
}

/// The battles of a user that weren't reported, and the formats that it searches, in order of search: `|updatesearch|JSON`
/// of PROTOCOL.md.
pub(crate) fn search_line(
    alloc: Global,
    games: &ComingGames,
    searches: &ComingSearches,
    id: &Id,
) -> Result<Text, AllocError>
    ensures { IfOk result (λ t. t ≡ search_line (games_after games.now) (searches_after searches.now) id.now) }
{
    let mut line = String::with_capacity(alloc, ROOM_OF_LINE)?;
    line.push_str("|updatesearch|{\"games\":")?;
    push_own_games(alloc, &mut line, games, id)?;
    line.push_str(",\"searching\":[")?;
    push_own_formats(alloc, &mut line, searches, id)?;
    line.push_str("}")?;
    Ok(Text::from_string(line))
}

// ---- `|updatechallenges|`

/// The first challenge that a user made.
fn made_by<'a>(asked: &[&'a Asked], id: &Id) -> Option<&'a Asked>
    ensures { option_copied result ≡ find (is_by id.now) (map (λ x. x.now) asked.now) }
{
    for challenge in asked {
        if challenge.is_by(id) {
            return Some(*challenge);
        }
    }
    None
}

fn push_made_some(out: &mut String, asked: &Asked) -> Result<(), AllocError>
    ensures { OnOk result (string_bytes out.new ≡ string_bytes out.old ++ made_text (Some asked.now)) }
{
    out.push_str("{\"format\":")?;
    push_quoted(out, asked.format.as_str())?;
    out.push_str(",\"to\":")?;
    push_quoted(out, asked.to.as_str())?;
    out.push_str("}")?;
    Ok(())
}

#[tactic(auto, using(crate::proofs::JsonLemmas::made_none))]
fn push_made(out: &mut String, asked: Option<&Asked>) -> Result<(), AllocError>
    ensures { OnOk result (string_bytes out.new ≡ string_bytes out.old ++ made_text (option_copied asked.entry)) }
{
    match asked {
        None => out.push_str("null"),
        Some(asked) => push_made_some(out, asked),
    }
}

/// The challenges that a user got.
fn got_by<'a>(alloc: Global, asked: &[&'a Asked], id: &Id) -> Result<Vec<&'a Asked>, AllocError>
    ensures { IfOk result (λ v. map (λ x. x.now) v.items ≡ filter (is_to id.now) (map (λ x. x.now) asked.now)) }
{
    let mut got = Vec::new(alloc);
    for challenge in asked {
        if challenge.is_to(id) {
            got.push(*challenge)?;
        }
    }
    Ok(got)
}

/// Puts the format of a challenge at who made it.
fn put_got(alloc: Global, members: &mut Map<String, Value>, asked: &Asked) -> Result<(), AllocError>
    ensures { OnOk result (members_view members.new.entries ≡ with_asked (members_view members.old.entries) (asked.now ∷ [])) }
{
    put_text(alloc, members, asked.by.as_str(), asked.format.as_str())
}

fn formats_by_user(alloc: Global, got: &[&Asked]) -> Result<Map<String, Value>, AllocError>
    ensures { IfOk result (λ m. members_view m.entries ≡ with_asked no_members (map (λ x. x.now) got.now)) }
{
    let mut members = Map::new(alloc);
    for challenge in got {
        put_got(alloc, &mut members, *challenge)?;
    }
    Ok(members)
}

// One challenge alone.
fn push_one_got(out: &mut String, asked: &Asked) -> Result<(), AllocError>
    ensures { OnOk result (string_bytes out.new ≡ string_bytes out.old ++ got_text (asked.now ∷ [])) }
{
    out.push_str("{")?;
    push_quoted(out, asked.by.as_str())?;
    out.push_str(":")?;
    push_quoted(out, asked.format.as_str())?;
    out.push_str("}")?;
    Ok(())
}

fn object_of(members: Map<String, Value>) -> Value
    ensures { view result ≡ object (members_view members.entries) }
{
    Value::Object(members)
}

// Challenges in the order of who made them.
#[tactic(auto, unfolding(crate::specs::Lines::got_text), using(crate::proofs::JsonLemmas::some_got_plain))]
fn push_sorted_got(alloc: Global, out: &mut String, got: &[&Asked]) -> Result<(), AllocError>
    ensures { OnOk result (string_bytes out.new ≡ string_bytes out.old ++ got_text (map (λ x. x.now) got.now)) }
{
    let members = formats_by_user(alloc, got)?;
    let value = object_of(members);
    let text = written(alloc, &value)?;
    out.push_str(text.as_str())
}

// Most users have one challenge, or none, which needs no sorting.
fn push_some_got(
    alloc: Global,
    out: &mut String,
    got: &[&Asked],
    first: &Asked,
    rest: &[&Asked],
) -> Result<(), AllocError>
    requires { map (λ x. x.now) got.now ≡ first.now ∷ map (λ x. x.now) rest.now }
    ensures { OnOk result (string_bytes out.new ≡ string_bytes out.old ++ got_text (map (λ x. x.now) got.now)) }
{
    match rest {
        [] => push_one_got(out, first),
        [_, ..] => push_sorted_got(alloc, out, got),
    }
}

// The format of each challenge, by who made it.
fn push_got(alloc: Global, out: &mut String, got: &[&Asked]) -> Result<(), AllocError>
    ensures { OnOk result (string_bytes out.new ≡ string_bytes out.old ++ got_text (map (λ x. x.now) got.now)) }
{
    match got {
        [] => {
            out.push_str("{}")?;
            Ok(())
        }
        [first, rest @ ..] => push_some_got(alloc, out, got, *first, rest),
    }
}

/// Of the open challenges the one that a user made, and those that it got: `|updatechallenges|JSON` of PROTOCOL.md.
pub(crate) fn challenge_line(alloc: Global, asked: &[&Asked], id: &Id) -> Result<Text, AllocError>
    ensures { IfOk result (λ t. t ≡ challenge_line (map (λ x. x.now) asked.now) id.now) }
{
    let got = got_by(alloc, asked, id)?;
    let mut line = String::with_capacity(alloc, ROOM_OF_LINE)?;
    line.push_str("|updatechallenges|{\"challengeTo\":")?;
    push_made(&mut line, made_by(asked, id))?;
    line.push_str(",\"challengesFrom\":")?;
    push_got(alloc, &mut line, got.as_slice())?;
    line.push_str("}")?;
    Ok(Text::from_string(line))
}

// ---- whispers and ratings

/// A whisper, as both ends are told it: `|pm|SNAME|SNAME|TEXT` of PROTOCOL.md.
pub(crate) fn whisper_line(
    alloc: Global,
    groups: &Groups,
    from: &Badge,
    to: &Badge,
    text: &str,
) -> Result<Text, AllocError>
    ensures { IfOk result (λ t. t ≡ whisper_line groups.now from.now to.now text.now) }
{
    let from = shown_name(alloc, groups, from.rank, &from.name)?;
    let to = shown_name(alloc, groups, to.rank, &to.name)?;
    Ok(Text::from_string(format!(in alloc; "|pm|{from}|{to}|{text}")?))
}

/// The rating of a user: `|popup|ID FORMAT RATING`.
pub(crate) fn rating_line(
    alloc: Global,
    id: &Id,
    format: &Id,
    rating: i32,
) -> Result<Text, AllocError>
    ensures { IfOk result (λ t. t ≡ rating_line id.now format.now rating) }
{
    Ok(Text::from_string(format!(in alloc; "|popup|{id} {format} {rating}")?))
}

// ---- refusals

fn taken_line(alloc: Global, cmd: &HallCmd) -> Result<Text, AllocError>
    ensures { IfOk result (λ t. t ≡ taken_line cmd.now) }
{
    match cmd {
        HallCmd::Name { name, .. } => match read_of(alloc, name.as_str())? {
            None => popup_line(alloc, &HallWhy::NameTaken),
            Some(name) => nametaken_line(alloc, name.text().as_str()),
        },
        _ => popup_line(alloc, &HallWhy::NameTaken),
    }
}

/// What the sender of a refused command is told: `|popup|[WHY]`, and `|nametaken|` with the name as it was read where it is
/// taken.
pub(crate) fn refused_line(alloc: Global, why: &HallWhy, cmd: &HallCmd) -> Result<Text, AllocError>
    ensures { IfOk result (λ t. t ≡ refused_line why.now cmd.now) }
{
    match why {
        HallWhy::NameTaken => taken_line(alloc, cmd),
        _ => popup_line(alloc, why),
    }
}
