//! The command that a text stands for.
ghost use Rattle.std.specs.Prelude.{◌≡◌, false, Ok, IfOk, IfErr};
ghost use Rattle.std.specs.Option.{option_copied};
ghost use Rattle.ps_lines.specs.Faults.{Gives, IsFault};
ghost use Rattle.ps_lines.specs.Commands.{row, has_control, worded, command};
ghost use Rattle.ps_lines.specs.Words.{word_of};

use crate::command::{CommandFault, Parsed};
use crate::hall_rows::{
    accept, block, cancel_challenge, cancel_search, challenge, rank, reject, search_for, trn,
    unblock, utm, whisper,
};
use crate::parts;
use crate::room_rows::{
    announce, ban, choose, forfeit, join, leave, modchat, modnote, mute, promote, say, unban, undo,
    unmute, warn,
};
use crate::word::{Word, word_of};
use ps_base::cut;
use std::alloc::Global;

/// The row of a word.
fn row(alloc: Global, word: Word, rest: Option<&str>) -> Result<Parsed, CommandFault>
    ensures { Gives result (row word (option_copied rest.entry)) }
{
    match word {
        Word::Join => join(alloc, rest),
        Word::Leave => leave(rest),
        Word::Announce => announce(alloc, rest),
        Word::Modnote => modnote(alloc, rest),
        Word::Warn => warn(alloc, rest),
        Word::Mute => mute(alloc, rest),
        Word::Unmute => unmute(alloc, rest),
        Word::Ban => ban(alloc, rest),
        Word::Unban => unban(alloc, rest),
        Word::Promote => promote(alloc, rest),
        Word::Modchat => modchat(rest),
        Word::Choose => choose(alloc, rest),
        Word::Undo => undo(rest),
        Word::Forfeit => forfeit(rest),
        Word::Name => trn(alloc, rest),
        Word::Team => utm(alloc, rest),
        Word::Search => search_for(alloc, rest),
        Word::CancelSearch => cancel_search(rest),
        Word::Challenge => challenge(alloc, rest),
        Word::CancelChallenge => cancel_challenge(rest),
        Word::Reject => reject(alloc, rest),
        Word::Accept => accept(alloc, rest),
        Word::Whisper => whisper(alloc, rest),
        Word::Block => block(alloc, rest),
        Word::Unblock => unblock(alloc, rest),
        Word::Rank => rank(alloc, rest),
    }
}

/// Whether a control character, below U+0020, stands in a text.
fn has_control(text: &str) -> bool
    ensures { result ≡ has_control text.now }
{
    text.bytes().any(|b| b < b' ')
}

/// A line behind its slash, whose text has a control character or not.
fn worded(
    alloc: Global,
    control: bool,
    word: &str,
    rest: Option<&str>,
) -> Result<Parsed, CommandFault>
    ensures { Gives result (worded control (word_of word.now) (option_copied rest.entry)) }
{
    match word_of(word) {
        None => Err(CommandFault::UnknownCommand),
        Some(word) => {
            if control {
                return Err(CommandFault::BadArgs { which: 0 });
            }
            row(alloc, word, rest)
        }
    }
}

/// The command of a text that has a control character or not.
#[tactic(auto, unfolding(crate::specs::Commands::command))]
fn command_in(alloc: Global, control: bool, text: &str) -> Result<Parsed, CommandFault>
    requires { control ≡ has_control text.now }
    ensures command { IfOk result (λ p. command text.now ≡ Ok p) }
    ensures fault { IfErr result (λ f. IsFault f (command text.now)) }
{
    match cut::after(text, "/") {
        None => {
            if control {
                return Err(CommandFault::BadArgs { which: 0 });
            }
            say(alloc, text)
        }
        Some(line) => match parts::at_space(line) {
            None => worded(alloc, control, line, None),
            Some((word, rest)) => worded(alloc, control, word, Some(rest)),
        },
    }
}

/// Reads a text of a client (PROTOCOL.md, the part behind the bar): a text without a slash at its
/// front is said in the room, another is the command of the word behind the slash.
///
/// Arguments follow one space and count from 1. Two arguments are parted at the first comma, and one
/// space behind it is dropped. USER and FORMAT are read by `to_id` and have an id that isn't empty.
/// SYMBOL is one character, which may be the space. RQID follows the last bar and is as `read_u32`
/// reads it. No text stands for Open, Quit, Bad and Report.
///
/// The faults, in the order in which they are reported: `UnknownCommand` where the text begins with `/`
/// and its word, up to the first space or the end, is none of the commands'; `BadArgs` with `which`
/// 0 where a character below U+0020 stands in the text; `BadArgs` with the lowest `which` whose
/// argument isn't of its form. `NoMemory` may come at any text.
pub fn read_command(alloc: Global, text: &str) -> Result<Parsed, CommandFault>
    ensures command { IfOk result (λ p. command text.now ≡ Ok p) }
    ensures fault { IfErr result (λ f. IsFault f (command text.now)) }
{
    let control = has_control(text);
    command_in(alloc, control, text)
}

/// Does as `read_command` does with a text in which no character below U+0020 stands, as is known, and doesn't look for one
/// again: no `BadArgs` with `which` 0 comes.
pub fn read_clean_command(alloc: Global, text: &str) -> Result<Parsed, CommandFault>
    requires { has_control text.now ≡ false }
    ensures command { IfOk result (λ p. command text.now ≡ Ok p) }
    ensures fault { IfErr result (λ f. IsFault f (command text.now)) }
{
    command_in(alloc, false, text)
}
