//! The lines of an entry that is applied.
ghost use Rattle.std.specs.Prelude.{◌≡◌, [], IfOk};
ghost use Rattle.ps_chat.specs.Told.{room_lines, joiner};
ghost use Rattle.ps_chat.specs.Lookups.{kept};

use crate::line;
use crate::line::ChatLine;
use crate::lookup::rank_with;
use crate::present::Present;
use crate::room::Room;
use ps_base::badge::Badge;
use ps_base::number::{ConnNo, Moment};
use ps_group::groups::Groups;
use ps_lines::command::Command;
use std::alloc::{AllocError, Global};

/// The badge of a Join, as it is kept.
fn kept(alloc: Global, groups: &Groups, badge: &Badge) -> Result<Badge, AllocError>
    ensures { IfOk result (λ b. b ≡ kept groups.now badge.now) }
{
    Ok(Badge {
        name: badge.name.copy(alloc)?,
        rank: groups.in_force(badge.rank),
    })
}

/// Who joins, as the member that it becomes.
pub(crate) fn joiner(
    alloc: Global,
    room: &Room,
    conn: ConnNo,
    badge: &Badge,
) -> Result<Present, AllocError>
    ensures { IfOk result (λ p. p ≡ joiner room.now conn badge.now) }
{
    let badge = kept(alloc, &room.groups, badge)?;
    let rank = rank_with(&room.groups, &room.ranks, &badge);
    Ok(Present { conn, badge, rank })
}

/// The lines of an entry.
pub(crate) fn room_lines(
    alloc: Global,
    room: &Room,
    conn: ConnNo,
    badge: &Badge,
    moment: Moment,
    cmd: &Command,
) -> Result<Vec<ChatLine>, AllocError>
    ensures { IfOk result (λ v. v.items ≡ room_lines room.now conn badge.now moment cmd.now) }
{
    let members = &room.members;
    let me = members.get(conn);
    match cmd {
        Command::Join { .. } => {
            let new = joiner(alloc, room, conn, badge)?;
            line::line_of_join(alloc, room, &new)
        }
        Command::Leave => line::line_of_leave(alloc, room, me),
        Command::Quit => line::line_of_quit(alloc, room, me),
        Command::Say { text } => line::line_of_say(alloc, room, moment, me, text.as_str()),
        Command::Announce { text } => line::line_of_announce(alloc, room, me, text.as_str()),
        Command::Modnote { text } => line::line_of_modnote(alloc, room, me, text.as_str()),
        Command::Warn { user, reason } => {
            line::line_of_warn(alloc, room, me, members.user(user.as_str()), reason)
        }
        Command::Mute { user, reason } => {
            line::line_of_mute(alloc, room, me, members.user(user.as_str()), reason)
        }
        Command::Unmute { user } => {
            line::line_of_unmute(alloc, room, me, members.user(user.as_str()))
        }
        Command::Ban { user, reason } => {
            line::line_of_ban(alloc, room, me, user.as_str(), reason)
        }
        Command::Unban { user } => line::line_of_unban(alloc, room, me, user.as_str()),
        Command::Promote { user, symbol } => {
            line::line_of_promote(alloc, room, me, members.user(user.as_str()), *symbol)
        }
        Command::Modchat { symbol } => line::line_of_modchat(alloc, room, me, *symbol),
        Command::Choose { .. } => Ok(Vec::new(alloc)),
        Command::Undo => Ok(Vec::new(alloc)),
        Command::Forfeit => Ok(Vec::new(alloc)),
    }
}
