//! The rows of the hall table: a function for each, from what follows the command's word.
ghost use Rattle.std.specs.Option.{option_copied};
ghost use Rattle.ps_lines.specs.Faults.{Gives};
ghost use Rattle.ps_lines.specs.HallRows.{trn, utm, search_for, cancel_search, challenge, cancel_challenge, reject, accept, whisper};
ghost use Rattle.ps_lines.specs.HallRows.{block, unblock, rank};

use crate::argument::{argument, id_at, nothing, one_id, second, two, user_and_format};
use crate::command::{CommandFault, HallCmd, Parsed};
use crate::parts;
use ps_base::text::Text;
use std::alloc::Global;

/// `/trn NAME,0,ASSERTION`: no space is dropped behind these commas.
pub fn trn(alloc: Global, rest: Option<&str>) -> Result<Parsed, CommandFault>
    ensures { Gives result (trn (option_copied rest.entry)) }
{
    match parts::at_comma(argument(rest)?) {
        None => Err(CommandFault::BadArgs { which: 1 }),
        Some((name, rest)) => match parts::at_comma(rest) {
            None => Err(CommandFault::BadArgs { which: 2 }),
            Some((zero, assertion)) => {
                if zero != "0" {
                    return Err(CommandFault::BadArgs { which: 2 });
                }
                let name = Text::copy_of(alloc, name)?;
                let assertion = Text::copy_of(alloc, assertion)?;
                Ok(Parsed::Hall(HallCmd::Name { name, assertion }))
            }
        },
    }
}

/// `/utm TEAM`, `/utm null` and `/utm`
pub fn utm(alloc: Global, rest: Option<&str>) -> Result<Parsed, CommandFault>
    ensures { Gives result (utm (option_copied rest.entry)) }
{
    match rest {
        None => Ok(Parsed::Hall(HallCmd::Team { pack: None })),
        Some(text) => {
            if text == "null" {
                return Ok(Parsed::Hall(HallCmd::Team { pack: None }));
            }
            let pack = Some(Text::copy_of(alloc, text)?);
            Ok(Parsed::Hall(HallCmd::Team { pack }))
        }
    }
}

/// `/search FORMAT`
pub fn search_for(alloc: Global, rest: Option<&str>) -> Result<Parsed, CommandFault>
    ensures { Gives result (search_for (option_copied rest.entry)) }
{
    let format = one_id(alloc, rest)?;
    Ok(Parsed::Hall(HallCmd::Search { format }))
}

/// `/cancelsearch`
pub fn cancel_search(rest: Option<&str>) -> Result<Parsed, CommandFault>
    ensures { Gives result (cancel_search (option_copied rest.entry)) }
{
    nothing(rest)?;
    Ok(Parsed::Hall(HallCmd::CancelSearch))
}

/// `/challenge USER, FORMAT`
pub fn challenge(alloc: Global, rest: Option<&str>) -> Result<Parsed, CommandFault>
    ensures { Gives result (challenge (option_copied rest.entry)) }
{
    let (user, format) = user_and_format(alloc, rest)?;
    Ok(Parsed::Hall(HallCmd::Challenge { user, format }))
}

/// `/cancelchallenge`
pub fn cancel_challenge(rest: Option<&str>) -> Result<Parsed, CommandFault>
    ensures { Gives result (cancel_challenge (option_copied rest.entry)) }
{
    nothing(rest)?;
    Ok(Parsed::Hall(HallCmd::CancelChallenge))
}

/// `/reject USER`
pub fn reject(alloc: Global, rest: Option<&str>) -> Result<Parsed, CommandFault>
    ensures { Gives result (reject (option_copied rest.entry)) }
{
    let user = one_id(alloc, rest)?;
    Ok(Parsed::Hall(HallCmd::Reject { user }))
}

/// `/accept USER`
pub fn accept(alloc: Global, rest: Option<&str>) -> Result<Parsed, CommandFault>
    ensures { Gives result (accept (option_copied rest.entry)) }
{
    let user = one_id(alloc, rest)?;
    Ok(Parsed::Hall(HallCmd::Accept { user }))
}

/// `/pm USER, TEXT`
pub fn whisper(alloc: Global, rest: Option<&str>) -> Result<Parsed, CommandFault>
    ensures { Gives result (whisper (option_copied rest.entry)) }
{
    let (user, text) = two(argument(rest)?);
    let user = id_at(alloc, 1, user)?;
    let text = Text::copy_of(alloc, second(text)?)?;
    Ok(Parsed::Hall(HallCmd::Whisper { user, text }))
}

/// `/block USER`
pub fn block(alloc: Global, rest: Option<&str>) -> Result<Parsed, CommandFault>
    ensures { Gives result (block (option_copied rest.entry)) }
{
    let user = one_id(alloc, rest)?;
    Ok(Parsed::Hall(HallCmd::Block { user }))
}

/// `/unblock USER`
pub fn unblock(alloc: Global, rest: Option<&str>) -> Result<Parsed, CommandFault>
    ensures { Gives result (unblock (option_copied rest.entry)) }
{
    let user = one_id(alloc, rest)?;
    Ok(Parsed::Hall(HallCmd::Unblock { user }))
}

/// `/rank USER, FORMAT`
pub fn rank(alloc: Global, rest: Option<&str>) -> Result<Parsed, CommandFault>
    ensures { Gives result (rank (option_copied rest.entry)) }
{
    let (user, format) = user_and_format(alloc, rest)?;
    Ok(Parsed::Hall(HallCmd::Rank { user, format }))
}
