//! Messages.
ghost use Rattle.std.specs.Prelude.{◌≡◌, ◌<◌, ◌+◌, ◌^◌, ◌++◌, length, map, IfOk, OnOk};
ghost use Rattle.std.specs.Option.{option_copied};
ghost use Rattle.ps_base.specs.Messages.{msg_lines, sent, behind, joined, text_of};

use crate::list::List;
use crate::text::Text;
use std::alloc::{AllocError, Global};

/// What a connection is sent from one place at one entry: one or more lines, without newlines and without
/// the line that names the room.
#[derive(Debug)]
pub struct Msg {
    /// The lines, in order.
    pub lines: List<Text>,
}

// By hand, so that who drops one has one call to prove.
impl Drop for Msg {
    fn drop(self) {
        let Msg { lines: _ } = self;
    }
}

// Puts lines behind a text, each behind a newline.
fn push_behind(text: &mut Text, lines: &[Text]) -> Result<(), AllocError>
    ensures { OnOk result (text.new ≡ text.old ++ behind lines.now) }
{
    for line in lines {
        text.push_str("\n")?;
        text.push_str(line.as_str())?;
    }
    Ok(())
}

// Puts lines behind a text, parted by newlines.
fn push_joined(text: &mut Text, lines: &[Text]) -> Result<(), AllocError>
    ensures { OnOk result (text.new ≡ text.old ++ joined lines.now) }
{
    match lines {
        [] => Ok(()),
        [line, rest @ ..] => {
            text.push_str(line.as_str())?;
            push_behind(text, rest)
        }
    }
}

// How many bytes lines have, each with a newline.
fn bytes_behind(lines: &[Text]) -> usize
    ensures { length (behind lines.now) < 2 ^ 64 → result ≡ length (behind lines.now) }
{
    let mut bytes: usize = 0;
    for line in lines {
        bytes = bytes.saturating_add(line.len()).saturating_add(1);
    }
    bytes
}

impl Msg {
    /// The text by which it is sent: its lines, parted by newlines. Before those of a room stands `>ROOMID`, as in PROTOCOL.md.
    pub fn text(&self, alloc: Global, room: Option<&str>) -> Result<Text, AllocError>
        ensures { IfOk result (λ t. t ≡ text_of (option_copied room.entry) self.now) }
    {
        let lines = self.lines.as_slice();
        let mut text = Text::with_capacity(alloc, self.text_bytes(room))?;
        match room {
            None => push_joined(&mut text, lines)?,
            Some(id) => {
                text.push_str(">")?;
                text.push_str(id)?;
                push_behind(&mut text, lines)?;
            }
        }
        Ok(text)
    }

    /// How many bytes its text has, if memory could hold them.
    pub fn text_bytes(&self, room: Option<&str>) -> usize
        ensures { length (text_of (option_copied room.entry) self.now) + 1 < 2 ^ 64
            → result ≡ length (text_of (option_copied room.entry) self.now) }
    {
        let bytes = bytes_behind(self.lines.as_slice());
        match room {
            None => bytes.saturating_sub(1),
            Some(id) => bytes.saturating_add(id.len()).saturating_add(1),
        }
    }
}

/// Puts a message of these lines after the others, if there are lines.
pub fn push_message(messages: &mut Vec<Msg>, lines: List<Text>) -> Result<(), AllocError>
    ensures { OnOk result (map msg_lines messages.new.items ≡ map msg_lines messages.old.items ++ sent lines) }
{
    if !lines.as_slice().is_empty() {
        messages.push(Msg { lines })?;
    }
    Ok(())
}
