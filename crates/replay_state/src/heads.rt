//! What begins a message of two lines of a room, ready for each of its members: a line that all of them are sent is then two
//! appends for each.
ghost use Rattle.std.specs.Prelude.{◌≡◌, ◌++◌, ◌∷◌, [], IfOk, OnOk, Some, map, string_bytes, false};
ghost use Rattle.replay_state.specs.Heads.{head_of, each_headed, HasHeads, AreReady, changes_members, still_ready};
ghost use Rattle.replay_state.specs.Houses.{next_message, common_text};
ghost use Rattle.replay_state.specs.Transcript.{HasNoNewline, printed, with_id};
ghost use Rattle.ps_base.specs.Lists.{each_to};

use crate::play::is_next;
use crate::short_room::ShortRoom;
use crate::{hearers, play, print};
use itoa::Buffer;
use ps_base::text::Text;
use ps_lines::command::Command;
use ps_splitlog::entry::LogEntry;
use std::alloc::{AllocError, Global};

/// What begins a message to a member: the line of the room's id, and what stands before the further line.
#[derive(Drop)]
pub(crate) struct Head {
    pub(crate) conn: u32,
    pub(crate) text: Text,
}

/// The heads of a room's members in ascending number, and buffers for what is printed behind them.
#[derive(Drop)]
pub(crate) struct Heads {
    /// Whether the list is that of the members. It is made anew when it is next looked at, if it isn't.
    pub(crate) ready: bool,
    pub(crate) list: Vec<Head>,
    line: String,
}

fn head_of(alloc: Global, id: &str, conn: u32) -> Result<Head, AllocError>
    ensures { IfOk result (λ h. h ≡ head_of id.now conn) }
{
    let mut buffer = Buffer::new();
    let digits = buffer.format(conn);
    let mut text = String::new(alloc);
    print::push_place(&mut text, digits, id)?;
    text.push_str(digits)?;
    text.push_str(". ")?;
    Ok(Head {
        conn,
        text: Text::from_string(text),
    })
}

fn push_all(alloc: Global, list: &mut Vec<Head>, id: &str, conns: &[u32]) -> Result<(), AllocError>
    ensures { OnOk result (list.new.items ≡ list.old.items ++ map (head_of id.now) conns.now) }
{
    for conn in conns {
        list.push(head_of(alloc, id, *conn)?)?;
    }
    Ok(())
}

// Makes the heads of a room's members.
fn renew(alloc: Global, room: &ShortRoom, list: &mut Vec<Head>) -> Result<(), AllocError>
    ensures { OnOk result (HasHeads room.now list.new.items) }
{
    let conns = hearers::of_members(alloc, room)?;
    list.clear();
    push_all(alloc, list, room.id(), conns.as_slice())?;
    Ok(())
}

// Makes the heads of a room's members, if they aren't ready.
fn make_ready(alloc: Global, room: &ShortRoom, heads: &mut Heads) -> Result<(), AllocError>
    requires { AreReady room.now heads.old.ready heads.old.list.items }
    ensures kept { AreReady room.now heads.new.ready heads.new.list.items }
    ensures ready { OnOk result (HasHeads room.now heads.new.list.items) }
{
    if heads.ready {
        return Ok(());
    }
    renew(alloc, room, &mut heads.list)?;
    heads.ready = true;
    Ok(())
}

// Prints the further line that ends so behind these heads, up to the connection `count`, to each once.
fn push_each(out: &mut String, count: u32, list: &[Head], end: &str) -> Result<(), AllocError>
    ensures { OnOk result (string_bytes out.new ≡ string_bytes out.old ++ each_headed end.now count 0 list.now) }
{
    let mut last = 0;
    for head in list {
        if is_next(last, count, head.conn) {
            out.push_str(head.text.as_str())?;
            out.push_str(end)?;
            last = head.conn;
        }
    }
    Ok(())
}

fn push_behind(
    out: &mut String,
    count: u32,
    list: &[Head],
    buffer: &mut String,
    line: &str,
) -> Result<(), AllocError>
    ensures { OnOk result (string_bytes out.new ≡ string_bytes out.old ++ each_headed (line.now ++ 10 ∷ []) count 0 list.now) }
{
    buffer.clear();
    buffer.push_str(line)?;
    buffer.push_str("\n")?;
    push_each(out, count, list, buffer.as_str())?;
    Ok(())
}

// Prints an entry of a room that is one line without a newline, the same for each member, behind their heads.
fn push_headed(
    alloc: Global,
    out: &mut String,
    count: u32,
    room: &ShortRoom,
    heads: &mut Heads,
    log_entry: &LogEntry,
    line: &Text,
) -> Result<(), AllocError>
    requires common { common_text log_entry.now ≡ Some line.now }
    requires plain { HasNoNewline line.now }
    requires ready { AreReady room.now heads.old.ready heads.old.list.items }
    ensures kept { AreReady room.now heads.new.ready heads.new.list.items }
    ensures text { OnOk result (string_bytes out.new ≡ string_bytes out.old
        ++ each_to (λ conn. printed conn (with_id (Some room.now.room.id) (next_message conn room.now log_entry.now))) count) }
{
    make_ready(alloc, room, heads)?;
    push_behind(
        out,
        count,
        heads.list.as_slice(),
        &mut heads.line,
        line.as_str(),
    )?;
    Ok(())
}

/// Prints an entry of a room that is one line, the same for each member, to the connections from 1 to `count`.
pub(crate) fn push_common(
    alloc: Global,
    out: &mut String,
    count: u32,
    room: &ShortRoom,
    heads: &mut Heads,
    log_entry: &LogEntry,
    line: &Text,
) -> Result<(), AllocError>
    requires common { common_text log_entry.now ≡ Some line.now }
    requires ready { AreReady room.now heads.old.ready heads.old.list.items }
    ensures kept { AreReady room.now heads.new.ready heads.new.list.items }
    ensures text { OnOk result (string_bytes out.new ≡ string_bytes out.old
        ++ each_to (λ conn. printed conn (with_id (Some room.now.room.id) (next_message conn room.now log_entry.now))) count) }
{
    if print::has_newline(line.as_str()) {
        play::push_by_role(alloc, out, count, room, log_entry)
    } else {
        push_headed(alloc, out, count, room, heads, log_entry, line)
    }
}

// Whether a command may change who is a member.
fn changes_members(cmd: &Command) -> bool
    ensures { result ≡ changes_members cmd.now }
{
    match cmd {
        Command::Join { .. } => true,
        Command::Leave => true,
        Command::Quit => true,
        Command::Ban { .. } => true,
        Command::Promote { .. } => true,
        _ => false,
    }
}

/// Whether heads that are ready are so after an entry.
pub(crate) fn still_ready(ready: bool, cmd: &Command) -> bool
    ensures { result ≡ still_ready ready cmd.now }
{
    if changes_members(cmd) { false } else { ready }
}

impl Heads {
    /// None yet. Takes no memory.
    pub(crate) fn new(alloc: Global) -> Heads
        ensures { result.ready ≡ false }
    {
        Heads {
            ready: false,
            list: Vec::new(alloc),
            line: String::new(alloc),
        }
    }
}
