//! The rows of the room table: a function for each, from what follows the command's word.
ghost use Rattle.std.specs.Option.{option_copied};
ghost use Rattle.ps_lines.specs.Faults.{Gives};
ghost use Rattle.ps_lines.specs.RoomRows.{join, leave, say, announce, modnote, warn, mute, unmute, ban, unban, level, promote};
ghost use Rattle.ps_lines.specs.RoomRows.{modchat, choose, undo, forfeit};

use crate::argument::{argument, id_at, nothing, one_id, second, symbol_at, two, user_and_reason};
use crate::command::{Command, CommandFault, Parsed};
use crate::parts;
use ps_base::decimal::read_u32;
use ps_base::text::Text;
use std::alloc::Global;

/// `/join ROOM`
pub fn join(alloc: Global, rest: Option<&str>) -> Result<Parsed, CommandFault>
    ensures { Gives result (join (option_copied rest.entry)) }
{
    let room = Text::copy_of(alloc, argument(rest)?)?;
    Ok(Parsed::Room(Command::Join { room }))
}

/// `/leave`
pub fn leave(rest: Option<&str>) -> Result<Parsed, CommandFault>
    ensures { Gives result (leave (option_copied rest.entry)) }
{
    nothing(rest)?;
    Ok(Parsed::Room(Command::Leave))
}

/// Any text that doesn't begin with a slash.
pub fn say(alloc: Global, text: &str) -> Result<Parsed, CommandFault>
    ensures { Gives result (say text.now) }
{
    let text = Text::copy_of(alloc, text)?;
    Ok(Parsed::Room(Command::Say { text }))
}

/// `/announce TEXT`
pub fn announce(alloc: Global, rest: Option<&str>) -> Result<Parsed, CommandFault>
    ensures { Gives result (announce (option_copied rest.entry)) }
{
    let text = Text::copy_of(alloc, argument(rest)?)?;
    Ok(Parsed::Room(Command::Announce { text }))
}

/// `/modnote TEXT`
pub fn modnote(alloc: Global, rest: Option<&str>) -> Result<Parsed, CommandFault>
    ensures { Gives result (modnote (option_copied rest.entry)) }
{
    let text = Text::copy_of(alloc, argument(rest)?)?;
    Ok(Parsed::Room(Command::Modnote { text }))
}

/// `/warn USER, REASON`
pub fn warn(alloc: Global, rest: Option<&str>) -> Result<Parsed, CommandFault>
    ensures { Gives result (warn (option_copied rest.entry)) }
{
    let (user, reason) = user_and_reason(alloc, rest)?;
    Ok(Parsed::Room(Command::Warn { user, reason }))
}

/// `/mute USER, REASON`
pub fn mute(alloc: Global, rest: Option<&str>) -> Result<Parsed, CommandFault>
    ensures { Gives result (mute (option_copied rest.entry)) }
{
    let (user, reason) = user_and_reason(alloc, rest)?;
    Ok(Parsed::Room(Command::Mute { user, reason }))
}

/// `/unmute USER`
pub fn unmute(alloc: Global, rest: Option<&str>) -> Result<Parsed, CommandFault>
    ensures { Gives result (unmute (option_copied rest.entry)) }
{
    let user = one_id(alloc, rest)?;
    Ok(Parsed::Room(Command::Unmute { user }))
}

/// `/ban USER, REASON`
pub fn ban(alloc: Global, rest: Option<&str>) -> Result<Parsed, CommandFault>
    ensures { Gives result (ban (option_copied rest.entry)) }
{
    let (user, reason) = user_and_reason(alloc, rest)?;
    Ok(Parsed::Room(Command::Ban { user, reason }))
}

/// `/unban USER`
pub fn unban(alloc: Global, rest: Option<&str>) -> Result<Parsed, CommandFault>
    ensures { Gives result (unban (option_copied rest.entry)) }
{
    let user = one_id(alloc, rest)?;
    Ok(Parsed::Room(Command::Unban { user }))
}

/// `/roompromote USER, SYMBOL`
pub fn promote(alloc: Global, rest: Option<&str>) -> Result<Parsed, CommandFault>
    ensures { Gives result (promote (option_copied rest.entry)) }
{
    let (user, symbol) = two(argument(rest)?);
    let user = id_at(alloc, 1, user)?;
    let symbol = symbol_at(2, second(symbol)?)?;
    Ok(Parsed::Room(Command::Promote { user, symbol }))
}

/// The symbol of a group, or `off`.
fn level(text: &str) -> Result<Option<char>, CommandFault>
    ensures { Gives result (level text.now) }
{
    if text == "off" {
        return Ok(None);
    }
    let symbol = symbol_at(1, text)?;
    Ok(Some(symbol))
}

/// `/modchat SYMBOL` or `/modchat off`
pub fn modchat(rest: Option<&str>) -> Result<Parsed, CommandFault>
    ensures { Gives result (modchat (option_copied rest.entry)) }
{
    let symbol = level(argument(rest)?)?;
    Ok(Parsed::Room(Command::Modchat { symbol }))
}

/// `/choose CHOICE` or `/choose CHOICE|RQID`
pub fn choose(alloc: Global, rest: Option<&str>) -> Result<Parsed, CommandFault>
    ensures { Gives result (choose (option_copied rest.entry)) }
{
    let text = argument(rest)?;
    match parts::at_last_bar(text) {
        None => {
            let choice = Text::copy_of(alloc, text)?;
            Ok(Parsed::Room(Command::Choose { choice, rqid: None }))
        }
        Some((choice, rqid)) => match read_u32(rqid.as_bytes()) {
            None => Err(CommandFault::BadArgs { which: 2 }),
            Some(rqid) => {
                let choice = Text::copy_of(alloc, choice)?;
                Ok(Parsed::Room(Command::Choose {
                    choice,
                    rqid: Some(rqid),
                }))
            }
        },
    }
}

/// `/undo`
pub fn undo(rest: Option<&str>) -> Result<Parsed, CommandFault>
    ensures { Gives result (undo (option_copied rest.entry)) }
{
    nothing(rest)?;
    Ok(Parsed::Room(Command::Undo))
}

/// `/forfeit`
pub fn forfeit(rest: Option<&str>) -> Result<Parsed, CommandFault>
    ensures { Gives result (forfeit (option_copied rest.entry)) }
{
    nothing(rest)?;
    Ok(Parsed::Room(Command::Forfeit))
}
