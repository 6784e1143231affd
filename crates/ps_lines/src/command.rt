//! The commands of rooms and of the hall.
ghost use Rattle.std.specs.Prelude.{◌≡◌};
ghost use Rattle.ps_lines.specs.declared.command.CommandFault.TheVariants.{NoMemory};

use ps_base::id::Id;
use ps_base::text::Text;
use std::alloc::AllocError;
use thiserror::Error;

/// A command to a room.
#[derive(Debug, Drop)]
pub enum Command {
    /// `/join ROOM`. The room's id is compared as the whole text.
    Join { room: Text },
    /// `/leave`
    Leave,
    /// The end of a connection. No text stands for it.
    Quit,
    /// Any text that doesn't begin with `/`.
    Say { text: Text },
    /// `/announce TEXT`
    Announce { text: Text },
    /// `/modnote TEXT`
    Modnote { text: Text },
    /// `/warn USER, REASON`: the reason is `None` where its comma is missing.
    Warn { user: Id, reason: Option<Text> },
    /// `/mute USER, REASON`: the reason is `None` where its comma is missing.
    Mute { user: Id, reason: Option<Text> },
    /// `/unmute USER`
    Unmute { user: Id },
    /// `/ban USER, REASON`: the reason is `None` where its comma is missing.
    Ban { user: Id, reason: Option<Text> },
    /// `/unban USER`
    Unban { user: Id },
    /// `/roompromote USER, SYMBOL`
    Promote { user: Id, symbol: char },
    /// `/modchat SYMBOL`, or `None` for `/modchat off`.
    Modchat { symbol: Option<char> },
    /// `/choose CHOICE` or `/choose CHOICE|RQID` of SIM-PROTOCOL.md.
    Choose { choice: Text, rqid: Option<u32> },
    /// `/undo`
    Undo,
    /// `/forfeit`
    Forfeit,
}

/// Why a text of a client is no command of its connection, in the order in which it is reported.
#[derive(Clone, Copy, Debug, PartialEq, Eq)]
pub enum BadWhy {
    /// No bar ends the room.
    NoBar,
    /// The word behind the slash is none of the commands'.
    UnknownCommand,
    /// An argument isn't of its form.
    BadArgs,
    /// A text to a room from a connection without a name.
    NotNamed,
    /// A text to one more room than a connection may have.
    RoomLimit,
    /// A text to a room that isn't there.
    NoSuchRoom,
}

/// A command to the hall.
#[derive(Debug, Drop)]
pub enum HallCmd {
    /// The begin of a connection. No text stands for it.
    Open,
    /// The end of a connection. No text stands for it.
    Quit,
    /// A text that is no command of its connection.
    Bad { why: BadWhy },
    /// `/trn NAME,0,ASSERTION`
    Name { name: Text, assertion: Text },
    /// `/utm TEAM`, or `None` for `/utm null` and `/utm`.
    Team { pack: Option<Text> },
    /// `/search FORMAT`
    Search { format: Id },
    /// `/cancelsearch`
    CancelSearch,
    /// `/challenge USER, FORMAT`
    Challenge { user: Id, format: Id },
    /// `/cancelchallenge`
    CancelChallenge,
    /// `/reject USER`
    Reject { user: Id },
    /// `/accept USER`
    Accept { user: Id },
    /// `/pm USER, TEXT`
    Whisper { user: Id, text: Text },
    /// `/block USER`
    Block { user: Id },
    /// `/unblock USER`
    Unblock { user: Id },
    /// `/rank USER, FORMAT`
    Rank { user: Id, format: Id },
    /// The end of the battle with this number, and its winner: 0 or 1, or `None` for a tie.
    /// No text stands for it.
    Report { number: u32, winner: Option<u8> },
}

/// The command that a text stands for.
#[derive(Debug, Drop)]
pub enum Parsed {
    /// A command to a room: the one that it names itself, for `Join`, and else that of its message.
    Room(Command),
    /// A command to the hall, whatever room its message names.
    Hall(HallCmd),
}

/// Why a text is no command.
#[derive(Clone, Copy, Debug, PartialEq, Eq, Error)]
pub enum CommandFault {
    /// The word behind the slash is none of the commands'.
    #[error("unknown command")]
    UnknownCommand,
    /// The first argument that isn't of its form, counted from 1, or 0 for a control character in the text.
    #[error("argument {which} isn't of its form")]
    BadArgs { which: u8 },
    /// Out of memory.
    #[error("no memory")]
    NoMemory,
}

impl From<AllocError> for CommandFault {
    ghost from_gives = { λ _ e. e ≡ NoMemory };

    fn from(_e: AllocError) -> CommandFault {
        CommandFault::NoMemory
    }
}
