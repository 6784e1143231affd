//! The arguments of commands.
ghost use Rattle.std.specs.Prelude.{◌≡◌, IfOk};
ghost use Rattle.std.specs.Option.{option_copied};
ghost use Rattle.ps_lines.specs.Faults.{Gives, GivesText};
ghost use Rattle.ps_lines.specs.Arguments.{nothing, argument, id_at, symbol_at, two, second, one_id, user_and_reason, user_and_format};

use crate::command::CommandFault;
use crate::parts;
use ps_base::id::{Id, to_id};
use ps_base::text::Text;
use std::alloc::{AllocError, Global};

/// A command without arguments: nothing follows its word.
pub fn nothing(rest: Option<&str>) -> Result<(), CommandFault>
    ensures { Gives result (nothing (option_copied rest.entry)) }
{
    match rest {
        None => Ok(()),
        Some(_) => Err(CommandFault::BadArgs { which: 1 }),
    }
}

/// A text, which may be empty.
pub fn argument(rest: Option<&str>) -> Result<&str, CommandFault>
    ensures { GivesText result (argument (option_copied rest.entry)) }
{
    match rest {
        None => Err(CommandFault::BadArgs { which: 1 }),
        Some(text) => Ok(text),
    }
}

/// USER or FORMAT: a text whose id isn't empty.
pub fn id_at(alloc: Global, which: u8, text: &str) -> Result<Id, CommandFault>
    ensures { Gives result (id_at which text.now) }
{
    let id = to_id(alloc, text)?;
    if id.as_str().is_empty() {
        return Err(CommandFault::BadArgs { which });
    }
    Ok(id)
}

/// SYMBOL: one character.
pub fn symbol_at(which: u8, text: &str) -> Result<char, CommandFault>
    ensures { Gives result (symbol_at which text.now) }
{
    let mut chars = text.chars();
    match chars.next() {
        None => Err(CommandFault::BadArgs { which }),
        Some(symbol) => match chars.next() {
            None => Ok(symbol),
            Some(_) => Err(CommandFault::BadArgs { which }),
        },
    }
}

/// The arguments before and after the first comma and the one space behind it. The second may be
/// missing with its comma.
pub fn two(text: &str) -> (&str, Option<&str>)
    ensures { two text.now ≡ (result.0.now, option_copied result.1) }
{
    match parts::at_comma(text) {
        None => (text, None),
        Some((first, second)) => (first, Some(parts::after_space(second))),
    }
}

/// A second argument that may not be missing.
pub fn second(rest: Option<&str>) -> Result<&str, CommandFault>
    ensures { GivesText result (second (option_copied rest.entry)) }
{
    match rest {
        None => Err(CommandFault::BadArgs { which: 2 }),
        Some(text) => Ok(text),
    }
}

/// USER or FORMAT as the one argument.
pub fn one_id(alloc: Global, rest: Option<&str>) -> Result<Id, CommandFault>
    ensures { Gives result (one_id (option_copied rest.entry)) }
{
    id_at(alloc, 1, argument(rest)?)
}

/// A text with a copy of these bytes, if there are some.
fn copy_of(alloc: Global, text: Option<&str>) -> Result<Option<Text>, AllocError>
    ensures { IfOk result (λ copy. copy ≡ option_copied text.entry) }
{
    match text {
        None => Ok(None),
        Some(text) => Ok(Some(Text::copy_of(alloc, text)?)),
    }
}

/// USER, REASON: the reason may be missing with its comma.
pub fn user_and_reason(
    alloc: Global,
    rest: Option<&str>,
) -> Result<(Id, Option<Text>), CommandFault>
    ensures { Gives result (user_and_reason (option_copied rest.entry)) }
{
    let (user, reason) = two(argument(rest)?);
    let user = id_at(alloc, 1, user)?;
    let reason = copy_of(alloc, reason)?;
    Ok((user, reason))
}

/// USER, FORMAT.
pub fn user_and_format(alloc: Global, rest: Option<&str>) -> Result<(Id, Id), CommandFault>
    ensures { Gives result (user_and_format (option_copied rest.entry)) }
{
    let (user, format) = two(argument(rest)?);
    let user = id_at(alloc, 1, user)?;
    let format = id_at(alloc, 2, second(format)?)?;
    Ok((user, format))
}
