//! Why an entry is refused.
ghost use Rattle.std.specs.Prelude.{◌≡◌};
ghost use Rattle.ps_chat.specs.Verdicts.{room_verdict};

use crate::refusal;
use crate::room::Room;
use ps_base::badge::Badge;
use ps_base::number::{ConnNo, Moment};
use ps_base::why::Why;
use ps_lines::command::Command;

/// The first reason of the command's row that holds, if one does.
pub(crate) fn room_verdict(
    room: &Room,
    conn: ConnNo,
    badge: &Badge,
    moment: Moment,
    cmd: &Command,
) -> Option<Why>
    ensures { result ≡ room_verdict room.now conn badge.now moment cmd.now }
{
    let members = &room.members;
    let me = members.get(conn);
    match cmd {
        Command::Join { .. } => refusal::refusal_of_join(room, me, badge.name.id().as_str()),
        Command::Leave => refusal::refusal_of_leave(me),
        Command::Quit => refusal::refusal_of_quit(),
        Command::Say { text } => refusal::refusal_of_say(room, moment, me, text.as_str()),
        Command::Announce { text } => refusal::refusal_of_announce(room, me, text.as_str()),
        Command::Modnote { text } => refusal::refusal_of_modnote(room, me, text.as_str()),
        Command::Warn { user, reason } => {
            let id = user.as_str();
            refusal::refusal_of_warn(room, me, members.user(id), id, reason)
        }
        Command::Mute { user, reason } => {
            let id = user.as_str();
            refusal::refusal_of_mute(room, moment, me, members.user(id), id, reason)
        }
        Command::Unmute { user } => {
            let id = user.as_str();
            refusal::refusal_of_unmute(room, moment, me, members.user(id), id)
        }
        Command::Ban { user, reason } => {
            let id = user.as_str();
            refusal::refusal_of_ban(room, me, members.user(id), id, reason)
        }
        Command::Unban { user } => {
            let id = user.as_str();
            refusal::refusal_of_unban(room, me, members.user(id), id)
        }
        Command::Promote { user, symbol } => {
            let id = user.as_str();
            refusal::refusal_of_promote(room, me, members.user(id), id, *symbol)
        }
        Command::Modchat { symbol } => refusal::refusal_of_modchat(room, me, *symbol),
        Command::Choose { .. } => refusal::refusal_of_battle(room, me),
        Command::Undo => refusal::refusal_of_battle(room, me),
        Command::Forfeit => refusal::refusal_of_battle(room, me),
    }
}
