//! The rows of the room table: the lines of each command that is applied.
ghost use Rattle.std.specs.Prelude.{◌≡◌, ◌∷◌, [], IfOk, codes, Some, None};
ghost use Rattle.std.specs.Option.{option_copied};
ghost use Rattle.ps_group.specs.ShownNames.{shown_name};
ghost use Rattle.ps_chat.specs.Texts.{moved, said, noted, done_to, done_because, promoted, level};
ghost use Rattle.ps_chat.specs.Lines.{logged, passing, to_staff, shown_name_of, line_to_member, line_to_id};
ghost use Rattle.ps_chat.specs.Lines.{line_of_join, line_of_leave, line_of_quit, line_of_say, line_of_announce, line_of_modnote};
ghost use Rattle.ps_chat.specs.Lines.{line_of_warn, line_of_mute, line_of_unmute};
ghost use Rattle.ps_chat.specs.Lines.{line_of_ban, line_of_unban, line_of_promote, line_of_modchat};

use crate::present::Present;
use crate::room::Room;
use crate::text;
use ps_base::number::Moment;
use ps_base::text::Text;
use ps_event::audience::Audience;
use ps_group::shown_name::shown_name;
use std::alloc::{AllocError, Global};

/// One line of an entry.
pub type ChatLine = ps_event::line::ChatLine<Text>;

// ---- what several rows tell

fn one(
    alloc: Global,
    audience: Audience,
    logged: bool,
    text: Text,
) -> Result<Vec<ChatLine>, AllocError>
    ensures { IfOk result (λ v. v.items ≡ record { audience = audience; logged = logged; text = text } ∷ []) }
{
    let mut lines = Vec::with_capacity(alloc, 1)?;
    lines.push(ps_event::line::ChatLine {
        audience,
        logged,
        text,
    })?;
    Ok(lines)
}

/// A line to all members that is logged.
fn logged(alloc: Global, text: Text) -> Result<Vec<ChatLine>, AllocError>
    ensures { IfOk result (λ v. v.items ≡ logged text) }
{
    one(alloc, Audience::All, true, text)
}

/// A line to all members that isn't logged.
fn passing(alloc: Global, text: Text) -> Result<Vec<ChatLine>, AllocError>
    ensures { IfOk result (λ v. v.items ≡ passing text) }
{
    one(alloc, Audience::All, false, text)
}

fn shown_name_of(alloc: Global, room: &Room, member: &Present) -> Result<Text, AllocError>
    ensures { IfOk result (λ t. t ≡ shown_name_of room.now member.now) }
{
    shown_name(alloc, &room.groups, member.rank, &member.badge.name)
}

fn line_to_member(
    alloc: Global,
    room: &Room,
    word: &str,
    me: Option<&Present>,
    target: Option<&Present>,
    reason: &Option<Text>,
) -> Result<Vec<ChatLine>, AllocError>
    ensures { IfOk result (λ v. v.items ≡ line_to_member room.now word.now (option_copied me.entry) (option_copied target.entry)
        reason.now) }
{
    match me {
        None => Ok(Vec::new(alloc)),
        Some(me) => match target {
            None => Ok(Vec::new(alloc)),
            Some(target) => {
                let by = shown_name_of(alloc, room, me)?;
                let whom = target.badge.name.text().as_str();
                let text = text::done_because(alloc, word, whom, &by, reason)?;
                logged(alloc, text)
            }
        },
    }
}

fn line_to_id(
    alloc: Global,
    room: &Room,
    word: &str,
    me: Option<&Present>,
    id: &str,
    reason: &Option<Text>,
) -> Result<Vec<ChatLine>, AllocError>
    ensures { IfOk result (λ v. v.items ≡ line_to_id room.now word.now (option_copied me.entry) id.now reason.now) }
{
    match me {
        None => Ok(Vec::new(alloc)),
        Some(me) => {
            let by = shown_name_of(alloc, room, me)?;
            let text = text::done_because(alloc, word, id, &by, reason)?;
            logged(alloc, text)
        }
    }
}

// ---- the rows

pub(crate) fn line_of_join(
    alloc: Global,
    room: &Room,
    joiner: &Present,
) -> Result<Vec<ChatLine>, AllocError>
    ensures { IfOk result (λ v. v.items ≡ line_of_join room.now joiner.now) }
{
    let by = shown_name_of(alloc, room, joiner)?;
    let text = text::moved(alloc, "|j|", &by)?;
    passing(alloc, text)
}

pub(crate) fn line_of_leave(
    alloc: Global,
    room: &Room,
    me: Option<&Present>,
) -> Result<Vec<ChatLine>, AllocError>
    ensures { IfOk result (λ v. v.items ≡ line_of_leave room.now (option_copied me.entry)) }
{
    match me {
        None => Ok(Vec::new(alloc)),
        Some(me) => {
            let by = shown_name_of(alloc, room, me)?;
            let text = text::moved(alloc, "|l|", &by)?;
            passing(alloc, text)
        }
    }
}

pub(crate) fn line_of_quit(
    alloc: Global,
    room: &Room,
    me: Option<&Present>,
) -> Result<Vec<ChatLine>, AllocError>
    ensures { IfOk result (λ v. v.items ≡ line_of_quit room.now (option_copied me.entry)) }
{
    line_of_leave(alloc, room, me)
}

pub(crate) fn line_of_say(
    alloc: Global,
    room: &Room,
    moment: Moment,
    me: Option<&Present>,
    text: &str,
) -> Result<Vec<ChatLine>, AllocError>
    ensures { IfOk result (λ v. v.items ≡ line_of_say room.now moment (option_copied me.entry) text.now) }
{
    match me {
        None => Ok(Vec::new(alloc)),
        Some(me) => {
            let by = shown_name_of(alloc, room, me)?;
            let text = text::said(alloc, moment, &by, text)?;
            logged(alloc, text)
        }
    }
}

pub(crate) fn line_of_announce(
    alloc: Global,
    room: &Room,
    me: Option<&Present>,
    text: &str,
) -> Result<Vec<ChatLine>, AllocError>
    ensures { IfOk result (λ v. v.items ≡ line_of_announce room.now (option_copied me.entry) text.now) }
{
    match me {
        None => Ok(Vec::new(alloc)),
        Some(me) => {
            let by = shown_name_of(alloc, room, me)?;
            let text = text::noted(alloc, "Announcement", &by, text)?;
            logged(alloc, text)
        }
    }
}

pub(crate) fn line_of_modnote(
    alloc: Global,
    room: &Room,
    me: Option<&Present>,
    text: &str,
) -> Result<Vec<ChatLine>, AllocError>
    ensures { IfOk result (λ v. v.items ≡ line_of_modnote room.now (option_copied me.entry) text.now) }
{
    match me {
        None => Ok(Vec::new(alloc)),
        Some(me) => {
            let by = shown_name_of(alloc, room, me)?;
            let text = text::noted(alloc, "Modnote", &by, text)?;
            one(alloc, Audience::Rank(room.staff), false, text)
        }
    }
}

pub(crate) fn line_of_warn(
    alloc: Global,
    room: &Room,
    me: Option<&Present>,
    target: Option<&Present>,
    reason: &Option<Text>,
) -> Result<Vec<ChatLine>, AllocError>
    ensures { IfOk result (λ v. v.items ≡ line_of_warn room.now (option_copied me.entry) (option_copied target.entry) reason.now) }
{
    line_to_member(alloc, room, "Warned", me, target, reason)
}

pub(crate) fn line_of_mute(
    alloc: Global,
    room: &Room,
    me: Option<&Present>,
    target: Option<&Present>,
    reason: &Option<Text>,
) -> Result<Vec<ChatLine>, AllocError>
    ensures { IfOk result (λ v. v.items ≡ line_of_mute room.now (option_copied me.entry) (option_copied target.entry) reason.now) }
{
    line_to_member(alloc, room, "Muted", me, target, reason)
}

pub(crate) fn line_of_unmute(
    alloc: Global,
    room: &Room,
    me: Option<&Present>,
    target: Option<&Present>,
) -> Result<Vec<ChatLine>, AllocError>
    ensures { IfOk result (λ v. v.items ≡ line_of_unmute room.now (option_copied me.entry) (option_copied target.entry)) }
{
    let no_reason = None;
    line_to_member(alloc, room, "Unmuted", me, target, &no_reason)
}

pub(crate) fn line_of_ban(
    alloc: Global,
    room: &Room,
    me: Option<&Present>,
    id: &str,
    reason: &Option<Text>,
) -> Result<Vec<ChatLine>, AllocError>
    ensures { IfOk result (λ v. v.items ≡ line_of_ban room.now (option_copied me.entry) id.now reason.now) }
{
    line_to_id(alloc, room, "Banned", me, id, reason)
}

pub(crate) fn line_of_unban(
    alloc: Global,
    room: &Room,
    me: Option<&Present>,
    id: &str,
) -> Result<Vec<ChatLine>, AllocError>
    ensures { IfOk result (λ v. v.items ≡ line_of_unban room.now (option_copied me.entry) id.now) }
{
    let no_reason = None;
    line_to_id(alloc, room, "Unbanned", me, id, &no_reason)
}

pub(crate) fn line_of_promote(
    alloc: Global,
    room: &Room,
    me: Option<&Present>,
    target: Option<&Present>,
    symbol: char,
) -> Result<Vec<ChatLine>, AllocError>
    ensures { IfOk result (λ v. v.items ≡ line_of_promote room.now (option_copied me.entry) (option_copied target.entry) symbol) }
{
    match me {
        None => Ok(Vec::new(alloc)),
        Some(me) => match target {
            None => Ok(Vec::new(alloc)),
            Some(target) => {
                let by = shown_name_of(alloc, room, me)?;
                let whom = text::promoted(alloc, &target.badge.name, symbol)?;
                let text = text::done_to(alloc, "Promoted", whom.as_str(), &by)?;
                logged(alloc, text)
            }
        },
    }
}

pub(crate) fn line_of_modchat(
    alloc: Global,
    room: &Room,
    me: Option<&Present>,
    symbol: Option<char>,
) -> Result<Vec<ChatLine>, AllocError>
    ensures { IfOk result (λ v. v.items ≡ line_of_modchat room.now (option_copied me.entry) symbol) }
{
    match me {
        None => Ok(Vec::new(alloc)),
        Some(me) => {
            let by = shown_name_of(alloc, room, me)?;
            let level = text::level(alloc, symbol)?;
            let text = text::done_to(alloc, "Modchat", level.as_str(), &by)?;
            logged(alloc, text)
        }
    }
}
