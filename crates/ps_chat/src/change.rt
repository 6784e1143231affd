//! The rows of the room table: what each command that is applied changes.
ghost use Rattle.std.specs.Prelude.{◌≡◌, None, OnOk, OnErr};
ghost use Rattle.ps_chat.specs.Lookups.{member};
ghost use Rattle.ps_chat.specs.Told.{joiner};
ghost use Rattle.ps_chat.specs.Changes.{level_of};
ghost use Rattle.ps_chat.specs.RoomChanges.{room_after_join, room_after_leave, room_after_quit, room_after_mute, room_after_unmute};
ghost use Rattle.ps_chat.specs.RoomChanges.{room_after_ban, room_after_unban, room_after_promote, room_after_modchat, room_after};
ghost use Rattle.ps_chat.specs.RoomChanges.{JoinsNew};

use crate::present::Present;
use crate::room::Room;
use crate::told::joiner;
use ps_base::badge::Badge;
use ps_base::id::Id;
use ps_base::number::{ConnNo, Moment};
use ps_lines::command::Command;
use std::alloc::{AllocError, Global};

fn level_of(room: &Room, symbol: Option<char>) -> Option<u8>
    ensures { result ≡ level_of room.now.groups symbol }
{
    match symbol {
        None => None,
        Some(symbol) => room.groups.rank_of(symbol),
    }
}

pub(crate) fn after_join(alloc: Global, room: &mut Room, joiner: Present) -> Result<(), AllocError>
    requires { member joiner.conn room.old.members ≡ None }
    ensures ok { OnOk result (room.new ≡ room_after_join room.old joiner) }
    ensures err { OnErr result (room.new ≡ room.old) }
{
    room.members.push(alloc, joiner)
}

pub(crate) fn after_leave(room: &mut Room, conn: ConnNo)
    ensures { room.new ≡ room_after_leave room.old conn }
{
    room.members.leave(conn);
}

pub(crate) fn after_quit(room: &mut Room, conn: ConnNo)
    ensures { room.new ≡ room_after_quit room.old conn }
{
    after_leave(room, conn);
}

pub(crate) fn after_mute(
    alloc: Global,
    room: &mut Room,
    moment: Moment,
    id: &Id,
) -> Result<(), AllocError>
    ensures ok { OnOk result (room.new ≡ room_after_mute room.old moment id.now) }
    ensures err { OnErr result (room.new ≡ room.old) }
{
    room.mutes.insert(alloc, id.as_str(), moment)
}

pub(crate) fn after_unmute(room: &mut Room, id: &Id)
    ensures { room.new ≡ room_after_unmute room.old id.now }
{
    room.mutes.remove(id.as_str());
}

pub(crate) fn after_ban(alloc: Global, room: &mut Room, id: &Id) -> Result<(), AllocError>
    ensures ok { OnOk result (room.new ≡ room_after_ban room.old id.now) }
    ensures err { OnErr result (room.new ≡ room.old) }
{
    room.bans.insert(alloc, id.as_str(), ())?;
    room.members.take_out(id.as_str());
    Ok(())
}

pub(crate) fn after_unban(room: &mut Room, id: &Id)
    ensures { room.new ≡ room_after_unban room.old id.now }
{
    room.bans.remove(id.as_str());
}

pub(crate) fn after_promote(
    alloc: Global,
    room: &mut Room,
    id: &Id,
    symbol: char,
) -> Result<(), AllocError>
    ensures ok { OnOk result (room.new ≡ room_after_promote room.old id.now symbol) }
    ensures err { OnErr result (room.new ≡ room.old) }
{
    match room.groups.rank_of(symbol) {
        None => Ok(()),
        Some(rank) => {
            room.ranks.insert(alloc, id.as_str(), rank)?;
            room.members.set_rank(id.as_str(), rank);
            Ok(())
        }
    }
}

pub(crate) fn after_modchat(room: &mut Room, symbol: Option<char>)
    ensures { room.new ≡ room_after_modchat room.old symbol }
{
    let level = level_of(room, symbol);
    room.modchat = level;
}

/// Changes a room as the command's row says.
pub(crate) fn change(
    alloc: Global,
    room: &mut Room,
    conn: ConnNo,
    badge: &Badge,
    moment: Moment,
    cmd: &Command,
) -> Result<(), AllocError>
    requires { JoinsNew room.old conn cmd.now }
    ensures ok { OnOk result (room.new ≡ room_after room.old (joiner room.old conn badge.now) moment cmd.now) }
    ensures err { OnErr result (room.new ≡ room.old) }
{
    match cmd {
        Command::Join { .. } => {
            let new = joiner(alloc, room, conn, badge)?;
            after_join(alloc, room, new)
        }
        Command::Leave => {
            after_leave(room, conn);
            Ok(())
        }
        Command::Quit => {
            after_quit(room, conn);
            Ok(())
        }
        Command::Say { .. } => Ok(()),
        Command::Announce { .. } => Ok(()),
        Command::Modnote { .. } => Ok(()),
        Command::Warn { .. } => Ok(()),
        Command::Mute { user, .. } => after_mute(alloc, room, moment, user),
        Command::Unmute { user } => {
            after_unmute(room, user);
            Ok(())
        }
        Command::Ban { user, .. } => after_ban(alloc, room, user),
        Command::Unban { user } => {
            after_unban(room, user);
            Ok(())
        }
        Command::Promote { user, symbol } => after_promote(alloc, room, user, *symbol),
        Command::Modchat { symbol } => {
            after_modchat(room, *symbol);
            Ok(())
        }
        Command::Choose { .. } => Ok(()),
        Command::Undo => Ok(()),
        Command::Forfeit => Ok(()),
    }
}
