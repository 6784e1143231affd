//! Why a room refuses an entry.
ghost use Rattle.std.specs.Prelude.{◌≡◌, IfOk};
ghost use Rattle.ps_base.specs.Whys.{why_name, is_of_choice, error_front, error_end, error_line};

use crate::text::Text;
use std::alloc::{AllocError, Global};

/// Why a room refuses an entry. The last nine say why a choice can't be taken.
#[derive(Clone, Copy, Debug, PartialEq, Eq)]
pub enum Why {
    /// A Join of who is a member.
    AlreadyMember,
    /// A Join of whose id is banned.
    Banned,
    /// A Join to a room of 256 members.
    RoomFull,
    /// Anything else of who isn't a member.
    NotMember,
    /// A text of spaces alone.
    EmptyText,
    /// A text or a reason of more than 300 characters.
    TooLong,
    /// A text of who is muted.
    Muted,
    /// A text of whose rank is below the room's level.
    Modchat,
    /// What the sender's group may not do, or not to that target.
    NotAllowed,
    /// No member has the id.
    NoSuchUser,
    /// A mute of who is muted.
    AlreadyMuted,
    /// The end of a mute where there is none.
    NotMuted,
    /// A ban of whose id is banned.
    AlreadyBanned,
    /// The end of a ban where there is none.
    NotBanned,
    /// No group has the symbol.
    NoSuchGroup,
    /// The target or the room has that rank already.
    SameRank,
    /// A battle's command in a chat room.
    NotBattle,
    /// A battle's command of who is no player.
    NotPlayer,
    /// A second choice for one round.
    AlreadyChosen,
    /// A choice for another round than the open one.
    StaleRequest,
    /// A text that is no choice.
    BadChoice,
    /// An undo where no choice is pending.
    NothingChosen,
    /// The side isn't asked, or the battle is over.
    NotYourTurn,
    /// A choice of a kind that isn't asked for.
    WrongPhase,
    /// Another choice than the one that a move holds its user to.
    Locked,
    /// A move that the member hasn't.
    NoSuchMove,
    /// A move without points left.
    NoPp,
    /// A move that is disabled.
    Disabled,
    /// A switch to a position without a member.
    NoSuchMember,
    /// A switch to who is out already.
    AlreadyOut,
    /// A switch to who has fainted.
    Fainted,
}

impl Why {
    /// The name of the reason, as a line gives it.
    pub fn name(self) -> &'static str
        ensures { result.now ≡ why_name self }
    {
        match self {
            Why::AlreadyMember => "AlreadyMember",
            Why::Banned => "Banned",
            Why::RoomFull => "RoomFull",
            Why::NotMember => "NotMember",
            Why::EmptyText => "EmptyText",
            Why::TooLong => "TooLong",
            Why::Muted => "Muted",
            Why::Modchat => "Modchat",
            Why::NotAllowed => "NotAllowed",
            Why::NoSuchUser => "NoSuchUser",
            Why::AlreadyMuted => "AlreadyMuted",
            Why::NotMuted => "NotMuted",
            Why::AlreadyBanned => "AlreadyBanned",
            Why::NotBanned => "NotBanned",
            Why::NoSuchGroup => "NoSuchGroup",
            Why::SameRank => "SameRank",
            Why::NotBattle => "NotBattle",
            Why::NotPlayer => "NotPlayer",
            Why::AlreadyChosen => "AlreadyChosen",
            Why::StaleRequest => "StaleRequest",
            Why::BadChoice => "BadChoice",
            Why::NothingChosen => "NothingChosen",
            Why::NotYourTurn => "NotYourTurn",
            Why::WrongPhase => "WrongPhase",
            Why::Locked => "Locked",
            Why::NoSuchMove => "NoSuchMove",
            Why::NoPp => "NoPp",
            Why::Disabled => "Disabled",
            Why::NoSuchMember => "NoSuchMember",
            Why::AlreadyOut => "AlreadyOut",
            Why::Fainted => "Fainted",
        }
    }

    /// Whether it is one of the last nine, which say why a choice can't be taken.
    pub fn is_of_choice(self) -> bool
        ensures { result ≡ is_of_choice self }
    {
        matches!(
            self,
            Why::NotYourTurn
                | Why::WrongPhase
                | Why::Locked
                | Why::NoSuchMove
                | Why::NoPp
                | Why::Disabled
                | Why::NoSuchMember
                | Why::AlreadyOut
                | Why::Fainted
        )
    }
}

fn error_front(is_of_choice: bool) -> &'static str
    ensures { result.now ≡ error_front is_of_choice }
{
    if is_of_choice {
        "|error|[Invalid choice] "
    } else {
        "|error|["
    }
}

fn error_end(is_of_choice: bool) -> &'static str
    ensures { result.now ≡ error_end is_of_choice }
{
    if is_of_choice { "" } else { "]" }
}

/// What the sender of a refused entry is told, after PROTOCOL.md and SIM-PROTOCOL.md:
/// `|error|[Invalid choice] WHY` for the nine reasons that speak of a choice, else `|error|[WHY]`.
pub fn error_line(alloc: Global, why: Why) -> Result<Text, AllocError>
    ensures { IfOk result (λ line. line ≡ error_line why) }
{
    let front = error_front(why.is_of_choice());
    let name = why.name();
    let end = error_end(why.is_of_choice());
    Ok(Text::from_string(format!(in alloc; "{front}{name}{end}")?))
}
