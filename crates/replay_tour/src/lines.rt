//! The lines of a tournament.
ghost use Rattle.std.specs.Prelude.{◌≡◌, IfOk, string_bytes};
ghost use Rattle.replay_script.specs.declared.item.Item.TheVariants as variants;
ghost use Rattle.replay_tour.specs.Entrants.{user_name};
ghost use Rattle.replay_tour.specs.Matches.{challenge_front, challenge_line, accept_line, join_line, choice_line, match_line};

use crate::stage::Stage;
use ps_base::id::Id;
use ps_base::number::ConnNo;
use ps_base::text::Text;
use replay_script::item::Item;
use rules_start::start::battle_id;
use std::alloc::{AllocError, Global};

/// A connection sends a text.
pub(crate) fn sent(conn: u8, text: String) -> Item
    ensures { result ≡ variants.Send conn (string_bytes text) }
{
    Item::Send(ConnNo(u32::from(conn)), Text::from_string(text))
}

/// The name of the user of a connection, which is its id too.
pub(crate) fn user_name(alloc: Global, conn: u8) -> Result<Text, AllocError>
    ensures { IfOk result (λ t. t ≡ user_name conn) }
{
    Ok(Text::from_string(format!(in alloc; "u{conn}")?))
}

// A challenge of a user but for its format.
fn challenge_front(alloc: Global, other: u8) -> Result<Text, AllocError>
    ensures { IfOk result (λ t. t ≡ challenge_front other) }
{
    Ok(Text::from_string(format!(in alloc; "|/challenge u{other}, ")?))
}

fn challenge_line(alloc: Global, format: &Id, conn: u8, other: u8) -> Result<Item, AllocError>
    ensures { IfOk result (λ i. i ≡ challenge_line format.now conn other) }
{
    let front = challenge_front(alloc, other)?;
    Ok(sent(conn, format!(in alloc; "{front}{format}")?))
}

fn accept_line(alloc: Global, conn: u8, other: u8) -> Result<Item, AllocError>
    ensures { IfOk result (λ i. i ≡ accept_line conn other) }
{
    let user = user_name(alloc, other)?;
    Ok(sent(conn, format!(in alloc; "|/accept {user}")?))
}

fn join_line(alloc: Global, format: &Id, battle: u32, conn: u8) -> Result<Item, AllocError>
    ensures { IfOk result (λ i. i ≡ join_line format.now battle conn) }
{
    let room = battle_id(alloc, format, battle)?;
    Ok(sent(conn, format!(in alloc; "|/join {room}")?))
}

fn choice_line(alloc: Global, format: &Id, battle: u32, conn: u8) -> Result<Item, AllocError>
    ensures { IfOk result (λ i. i ≡ choice_line format.now battle conn) }
{
    let room = battle_id(alloc, format, battle)?;
    Ok(sent(conn, format!(in alloc; "{room}|/choose default")?))
}

/// The next line of a match of these two, in the battle with this number.
pub(crate) fn match_line(
    alloc: Global,
    format: &Id,
    battle: u32,
    pair: (u8, u8),
    stage: Stage,
) -> Result<Item, AllocError>
    ensures { IfOk result (λ i. i ≡ match_line format.now battle pair stage) }
{
    let (first, second) = pair;
    match stage {
        Stage::Challenge => challenge_line(alloc, format, first, second),
        Stage::Accept => accept_line(alloc, second, first),
        Stage::FirstJoin => join_line(alloc, format, battle, first),
        Stage::SecondJoin => join_line(alloc, format, battle, second),
        Stage::FirstChoice => choice_line(alloc, format, battle, first),
        Stage::SecondChoice => choice_line(alloc, format, battle, second),
    }
}
