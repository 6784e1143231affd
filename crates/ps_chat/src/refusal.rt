//! The rows of the room table: why each command is refused, in the row's order.
ghost use Rattle.std.specs.Prelude.{◌≡◌, Some, None, not};
ghost use Rattle.std.specs.Option.{option_copied};
ghost use Rattle.ps_base.specs.Ids.{id_of};
ghost use Rattle.ps_base.specs.declared.why.Why.TheVariants as why;
ghost use Rattle.ps_group.specs.declared.group.Perm.TheVariants as perms;
ghost use Rattle.ps_chat.specs.Lookups.{is_muted, is_banned, is_long_reason};
ghost use Rattle.ps_chat.specs.Refusals.{when, of_text, may, may_to, rank_of_id, is_too_high, is_same_level};
ghost use Rattle.ps_chat.specs.Refusals.{refusal_of_staff_text, refusal_over, refusal_of_bar, refusal_to_rank, refusal_of_promoted};
ghost use Rattle.ps_chat.specs.Refusals.{refusal_to_level, refusal_of_level};
ghost use Rattle.ps_chat.specs.Refusals.{refusal_of_join, refusal_of_leave, refusal_of_quit, refusal_of_say, refusal_of_announce};
ghost use Rattle.ps_chat.specs.Refusals.{refusal_of_modnote, refusal_of_warn, refusal_of_mute, refusal_of_unmute};
ghost use Rattle.ps_chat.specs.Refusals.{refusal_of_ban, refusal_of_unban, refusal_of_promote, refusal_of_modchat, refusal_of_battle};

use crate::lookup;
use crate::present::Present;
use crate::room::Room;
use ps_base::number::Moment;
use ps_base::text::Text;
use ps_base::why::Why;
use ps_group::group::Perm;
use ps_group::rank::is_below;
use ps_lines::sent_text::{is_blank, is_long};

/// How many members a room may have.
const MOST: usize = 256;

// ---- what several rows ask

fn of_text(text: &str) -> Option<Why>
    ensures { result ≡ of_text text.now None }
{
    if is_blank(text) {
        Some(Why::EmptyText)
    } else if is_long(text) {
        Some(Why::TooLong)
    } else {
        None
    }
}

fn may(room: &Room, me: &Present, perm: Perm) -> bool
    ensures { result ≡ may room.now me.now perm }
{
    room.groups.can(me.rank, None, false, perm)
}

fn may_to(room: &Room, me: &Present, rank: u8, id: &str, perm: Perm) -> bool
    ensures { result ≡ may_to room.now me.now rank id.now perm }
{
    let is_self = lookup::has_id(me, id);
    room.groups.can(me.rank, Some(rank), is_self, perm)
}

fn rank_of_id(room: &Room, id: &str, target: Option<&Present>) -> u8
    ensures { result ≡ rank_of_id room.now id.now (option_copied target.entry) }
{
    match target {
        None => lookup::room_rank(&room.groups, &room.ranks, id),
        Some(target) => target.rank,
    }
}

fn refusal_of_staff_text(room: &Room, me: Option<&Present>, perm: Perm, text: &str) -> Option<Why>
    ensures { result ≡ refusal_of_staff_text room.now (option_copied me.entry) perm text.now }
{
    match me {
        None => Some(Why::NotMember),
        Some(me) => {
            if may(room, me, perm) {
                of_text(text)
            } else {
                Some(Why::NotAllowed)
            }
        }
    }
}

fn refusal_over(
    room: &Room,
    me: Option<&Present>,
    target: Option<&Present>,
    id: &str,
    perm: Perm,
) -> Option<Why>
    ensures { result ≡ refusal_over room.now (option_copied me.entry) (option_copied target.entry) id.now perm }
{
    match me {
        None => Some(Why::NotMember),
        Some(me) => match target {
            None => Some(Why::NoSuchUser),
            Some(target) => {
                if may_to(room, me, target.rank, id, perm) {
                    None
                } else {
                    Some(Why::NotAllowed)
                }
            }
        },
    }
}

fn refusal_of_bar(
    room: &Room,
    me: Option<&Present>,
    target: Option<&Present>,
    id: &str,
) -> Option<Why>
    ensures { result ≡ refusal_of_bar room.now (option_copied me.entry) (option_copied target.entry) id.now }
{
    match me {
        None => Some(Why::NotMember),
        Some(me) => {
            let rank = rank_of_id(room, id, target);
            if may_to(room, me, rank, id, Perm::Ban) {
                None
            } else {
                Some(Why::NotAllowed)
            }
        }
    }
}

// ---- the rows

pub(crate) fn refusal_of_join(room: &Room, me: Option<&Present>, id: &str) -> Option<Why>
    ensures { result ≡ refusal_of_join room.now (option_copied me.entry) id.now }
{
    match me {
        Some(_) => Some(Why::AlreadyMember),
        None => {
            if lookup::is_banned(&room.bans, id) {
                Some(Why::Banned)
            } else if room.members.as_slice().len() >= MOST {
                Some(Why::RoomFull)
            } else {
                None
            }
        }
    }
}

pub(crate) fn refusal_of_leave(me: Option<&Present>) -> Option<Why>
    ensures { result ≡ refusal_of_leave (option_copied me.entry) }
{
    match me {
        None => Some(Why::NotMember),
        Some(_) => None,
    }
}

pub(crate) fn refusal_of_quit() -> Option<Why>
    ensures { result ≡ refusal_of_quit }
{
    None
}

pub(crate) fn refusal_of_say(
    room: &Room,
    moment: Moment,
    me: Option<&Present>,
    text: &str,
) -> Option<Why>
    ensures { result ≡ refusal_of_say room.now moment (option_copied me.entry) text.now }
{
    match me {
        None => Some(Why::NotMember),
        Some(me) => {
            if is_blank(text) {
                Some(Why::EmptyText)
            } else if is_long(text) {
                Some(Why::TooLong)
            } else if lookup::is_muted(&room.mutes, moment, me.badge.name.id().as_str()) {
                Some(Why::Muted)
            } else if lookup::is_below_level(me.rank, room.modchat) {
                Some(Why::Modchat)
            } else {
                None
            }
        }
    }
}

pub(crate) fn refusal_of_announce(room: &Room, me: Option<&Present>, text: &str) -> Option<Why>
    ensures { result ≡ refusal_of_announce room.now (option_copied me.entry) text.now }
{
    refusal_of_staff_text(room, me, Perm::Announce, text)
}

pub(crate) fn refusal_of_modnote(room: &Room, me: Option<&Present>, text: &str) -> Option<Why>
    ensures { result ≡ refusal_of_modnote room.now (option_copied me.entry) text.now }
{
    refusal_of_staff_text(room, me, Perm::Modnote, text)
}

pub(crate) fn refusal_of_warn(
    room: &Room,
    me: Option<&Present>,
    target: Option<&Present>,
    id: &str,
    reason: &Option<Text>,
) -> Option<Why>
    ensures { result ≡ refusal_of_warn room.now (option_copied me.entry) (option_copied target.entry) id.now reason.now }
{
    match refusal_over(room, me, target, id, Perm::Warn) {
        Some(why) => Some(why),
        None => {
            if lookup::is_long_reason(reason) {
                Some(Why::TooLong)
            } else {
                None
            }
        }
    }
}

pub(crate) fn refusal_of_mute(
    room: &Room,
    moment: Moment,
    me: Option<&Present>,
    target: Option<&Present>,
    id: &str,
    reason: &Option<Text>,
) -> Option<Why>
    ensures { result ≡ refusal_of_mute room.now moment (option_copied me.entry) (option_copied target.entry) id.now reason.now }
{
    match refusal_over(room, me, target, id, Perm::Mute) {
        Some(why) => Some(why),
        None => {
            if lookup::is_long_reason(reason) {
                Some(Why::TooLong)
            } else if lookup::is_muted(&room.mutes, moment, id) {
                Some(Why::AlreadyMuted)
            } else {
                None
            }
        }
    }
}

pub(crate) fn refusal_of_unmute(
    room: &Room,
    moment: Moment,
    me: Option<&Present>,
    target: Option<&Present>,
    id: &str,
) -> Option<Why>
    ensures { result ≡ refusal_of_unmute room.now moment (option_copied me.entry) (option_copied target.entry) id.now }
{
    match refusal_over(room, me, target, id, Perm::Mute) {
        Some(why) => Some(why),
        None => {
            if lookup::is_muted(&room.mutes, moment, id) {
                None
            } else {
                Some(Why::NotMuted)
            }
        }
    }
}

pub(crate) fn refusal_of_ban(
    room: &Room,
    me: Option<&Present>,
    target: Option<&Present>,
    id: &str,
    reason: &Option<Text>,
) -> Option<Why>
    ensures { result ≡ refusal_of_ban room.now (option_copied me.entry) (option_copied target.entry) id.now reason.now }
{
    match refusal_of_bar(room, me, target, id) {
        Some(why) => Some(why),
        None => {
            if lookup::is_long_reason(reason) {
                Some(Why::TooLong)
            } else if lookup::is_banned(&room.bans, id) {
                Some(Why::AlreadyBanned)
            } else {
                None
            }
        }
    }
}

pub(crate) fn refusal_of_unban(
    room: &Room,
    me: Option<&Present>,
    target: Option<&Present>,
    id: &str,
) -> Option<Why>
    ensures { result ≡ refusal_of_unban room.now (option_copied me.entry) (option_copied target.entry) id.now }
{
    match refusal_of_bar(room, me, target, id) {
        Some(why) => Some(why),
        None => {
            if lookup::is_banned(&room.bans, id) {
                None
            } else {
                Some(Why::NotBanned)
            }
        }
    }
}

fn is_too_high(room: &Room, me: &Present, new: u8) -> bool
    ensures { result ≡ is_too_high room.now me.now new }
{
    !(is_below(new, me.rank) || room.groups.reaches_all(me.rank, Perm::Promote))
}

fn refusal_to_rank(
    room: &Room,
    me: &Present,
    target: &Present,
    id: &str,
    new: Option<u8>,
) -> Option<Why>
    ensures { result ≡ refusal_to_rank room.now me.now target.now id.now new }
{
    match new {
        None => Some(Why::NoSuchGroup),
        Some(new) => {
            if !may_to(room, me, target.rank, id, Perm::Promote) {
                Some(Why::NotAllowed)
            } else if is_too_high(room, me, new) {
                Some(Why::NotAllowed)
            } else if target.rank == new {
                Some(Why::SameRank)
            } else {
                None
            }
        }
    }
}

pub(crate) fn refusal_of_promote(
    room: &Room,
    me: Option<&Present>,
    target: Option<&Present>,
    id: &str,
    symbol: char,
) -> Option<Why>
    ensures { result ≡ refusal_of_promote room.now (option_copied me.entry) (option_copied target.entry) id.now symbol }
{
    match me {
        None => Some(Why::NotMember),
        Some(me) => match target {
            None => Some(Why::NoSuchUser),
            Some(target) => refusal_to_rank(room, me, target, id, room.groups.rank_of(symbol)),
        },
    }
}

fn is_same_level(old: Option<u8>, new: Option<u8>) -> bool
    ensures { result ≡ is_same_level old new }
{
    match old {
        None => new.is_none(),
        Some(old) => match new {
            None => false,
            Some(new) => old == new,
        },
    }
}

fn refusal_to_level(room: &Room, me: &Present, level: Option<u8>) -> Option<Why>
    ensures { result ≡ refusal_to_level room.now me.now level }
{
    if !may(room, me, Perm::Modchat) {
        Some(Why::NotAllowed)
    } else if is_same_level(room.modchat, level) {
        Some(Why::SameRank)
    } else {
        None
    }
}

fn refusal_of_level(room: &Room, me: &Present, symbol: Option<char>) -> Option<Why>
    ensures { result ≡ refusal_of_level room.now me.now symbol }
{
    match symbol {
        None => refusal_to_level(room, me, None),
        Some(symbol) => match room.groups.rank_of(symbol) {
            None => Some(Why::NoSuchGroup),
            Some(rank) => refusal_to_level(room, me, Some(rank)),
        },
    }
}

pub(crate) fn refusal_of_modchat(
    room: &Room,
    me: Option<&Present>,
    symbol: Option<char>,
) -> Option<Why>
    ensures { result ≡ refusal_of_modchat room.now (option_copied me.entry) symbol }
{
    match me {
        None => Some(Why::NotMember),
        Some(me) => refusal_of_level(room, me, symbol),
    }
}

pub(crate) fn refusal_of_battle(room: &Room, me: Option<&Present>) -> Option<Why>
    ensures { result ≡ refusal_of_battle room.now (option_copied me.entry) }
{
    match me {
        None => Some(Why::NotMember),
        Some(_) => {
            if room.battle {
                None
            } else {
                Some(Why::NotBattle)
            }
        }
    }
}
