//! Messages as they are printed.
ghost use Rattle.std.specs.Prelude.{◌≡◌, ◌∷◌, ◌++◌, false, OnOk, IfSome, IfNone, codes, string_bytes, None, Some};
ghost use Rattle.std.specs.List.{flat_map};
ghost use Rattle.ps_splitlog.specs.Lines.{shown_lines};
ghost use Rattle.ps_hall.specs.Halls.{message_of};
ghost use Rattle.replay_state.specs.Transcript.{HasNoNewline, line_behind, further_line, printed, with_id, over_line};
ghost use Rattle.replay_state.specs.Tables.{first_behind, further_behind};

use itoa::Buffer;
use memchr::memchr;
use ps_base::number::ConnNo;
use ps_base::text::Text;
use ps_hall::notice::Notice;
use ps_splitlog::stored::{Stored, shown};
use ps_view::role::Role;
use std::alloc::AllocError;
use std::fmt::Write;

// ---- lines behind the digits of their connection, which are made once for a message

/// Whether a text has a newline.
pub(crate) fn has_newline(text: &str) -> bool
    ensures { result ≡ false → HasNoNewline text.now }
{
    match memchr(b'\n', text.as_bytes()) {
        None => false,
        Some(_) => true,
    }
}

// The parts before and behind the first newline.
fn at_newline(text: &str) -> Option<(&str, &str)>
    ensures found { IfSome result (λ p. text.now ≡ p.0.now ++ 10 ∷ p.1.now) }
    ensures first { IfSome result (λ p. HasNoNewline p.0.now) }
    ensures none { IfNone result (HasNoNewline text.now) }
{
    text.split_once('\n')
}

// A part of a line, and what stands before the next one.
fn push_part(out: &mut String, digits: &str, part: &str) -> Result<(), AllocError>
    ensures { OnOk result (string_bytes out.new ≡ string_bytes out.old ++ (part.now ++ (10 ∷ digits.now ++ codes ". "))) }
{
    out.push_str(part)?;
    out.push_str("\n")?;
    out.push_str(digits)?;
    out.push_str(". ")
}

// What a line with newlines is printed as behind these digits.
#[tactic(auto, using(crate::proofs::PrintLemmas::plain_line))]
fn push_parts(out: &mut String, digits: &str, line: &str) -> Result<(), AllocError>
    ensures { OnOk result (string_bytes out.new ≡ string_bytes out.old ++ line_behind digits.now line.now) }
{
    match at_newline(line) {
        None => out.push_str(line),
        Some((part, rest)) => {
            push_part(out, digits, part)?;
            push_parts(out, digits, rest)?;
            Ok(())
        }
    }
}

// A line as it is printed behind these digits, where most lines have no newline.
#[tactic(auto, using(crate::proofs::PrintLemmas::plain_line))]
fn push_line(out: &mut String, digits: &str, line: &str) -> Result<(), AllocError>
    ensures { OnOk result (string_bytes out.new ≡ string_bytes out.old ++ line_behind digits.now line.now) }
{
    if has_newline(line) {
        push_parts(out, digits, line)
    } else {
        out.push_str(line)
    }
}

fn push_first(out: &mut String, digits: &str, line: &str) -> Result<(), AllocError>
    ensures { OnOk result (string_bytes out.new ≡ string_bytes out.old ++ first_behind digits.now line.now) }
{
    out.push_str(digits)?;
    out.push_str("< ")?;
    push_line(out, digits, line)?;
    out.push_str("\n")
}

/// Prints the line of a room's id, which begins a message of it, behind these digits.
pub(crate) fn push_place(out: &mut String, digits: &str, id: &str) -> Result<(), AllocError>
    ensures { OnOk result (string_bytes out.new ≡ string_bytes out.old ++ first_behind digits.now (codes ">" ++ id.now)) }
{
    out.push_str(digits)?;
    out.push_str("< >")?;
    push_line(out, digits, id)?;
    out.push_str("\n")
}

fn push_further(out: &mut String, digits: &str, line: &str) -> Result<(), AllocError>
    ensures { OnOk result (string_bytes out.new ≡ string_bytes out.old ++ further_behind digits.now line.now) }
{
    out.push_str(digits)?;
    out.push_str(". ")?;
    push_line(out, digits, line)?;
    out.push_str("\n")
}

fn push_rest(out: &mut String, digits: &str, lines: &[Text]) -> Result<(), AllocError>
    ensures { OnOk result (string_bytes out.new ≡ string_bytes out.old ++ flat_map (further_behind digits.now) lines.now) }
{
    for line in lines {
        push_further(out, digits, line.as_str())?;
    }
    Ok(())
}

// ---- messages

fn push_lines(out: &mut String, conn: ConnNo, lines: &[Text]) -> Result<(), AllocError>
    ensures { OnOk result (string_bytes out.new ≡ string_bytes out.old ++ printed conn lines.now) }
{
    match lines {
        [] => Ok(()),
        [first, rest @ ..] => {
            let mut buffer = Buffer::new();
            let digits = buffer.format(conn.0);
            push_first(out, digits, first.as_str())?;
            push_rest(out, digits, rest)
        }
    }
}

fn push_more_lines(out: &mut String, conn: ConnNo, lines: &[Text]) -> Result<(), AllocError>
    ensures { OnOk result (string_bytes out.new ≡ string_bytes out.old ++ flat_map (further_line conn) lines.now) }
{
    let mut buffer = Buffer::new();
    push_rest(out, buffer.format(conn.0), lines)
}

// The first notice for a connection with lines begins the message, and the others follow.
fn push_more_notices(out: &mut String, conn: ConnNo, notices: &[Notice]) -> Result<(), AllocError>
    ensures { OnOk result (string_bytes out.new ≡ string_bytes out.old ++ flat_map (further_line conn) (message_of conn notices.now)) }
{
    match notices {
        [] => Ok(()),
        [notice, rest @ ..] => {
            if notice.conn == conn {
                push_more_lines(out, conn, notice.lines.as_slice())?;
                push_more_notices(out, conn, rest)
            } else {
                push_more_notices(out, conn, rest)
            }
        }
    }
}

/// Prints what notices of the hall tell a connection, if they tell it something.
pub fn push_notices(out: &mut String, conn: ConnNo, notices: &[Notice]) -> Result<(), AllocError>
    ensures { OnOk result (string_bytes out.new ≡ string_bytes out.old ++ printed conn (with_id None (message_of conn notices.now))) }
{
    match notices {
        [] => Ok(()),
        [notice, rest @ ..] => {
            if notice.conn != conn {
                return push_notices(out, conn, rest);
            }
            match notice.lines.as_slice() {
                [] => push_notices(out, conn, rest),
                [_, ..] => {
                    push_lines(out, conn, notice.lines.as_slice())?;
                    push_more_notices(out, conn, rest)
                }
            }
        }
    }
}

/// Prints a message of the room with an id to a connection, if it has lines.
pub fn push_room_message(
    out: &mut String,
    conn: ConnNo,
    id: &str,
    lines: &[Text],
) -> Result<(), AllocError>
    ensures { OnOk result (string_bytes out.new ≡ string_bytes out.old ++ printed conn (with_id (Some id.now) lines.now)) }
{
    match lines {
        [] => Ok(()),
        [_, ..] => {
            let mut buffer = Buffer::new();
            let digits = buffer.format(conn.0);
            push_place(out, digits, id)?;
            push_rest(out, digits, lines)
        }
    }
}

// Prints the lines that a connection in this role is shown.
fn push_shown_rest(
    out: &mut String,
    conn: ConnNo,
    digits: &str,
    role: Role,
    lines: &[Stored],
) -> Result<(), AllocError>
    ensures { OnOk result (string_bytes out.new ≡ string_bytes out.old
        ++ flat_map (further_behind digits.now) (shown_lines conn role lines.now)) }
{
    match lines {
        [] => Ok(()),
        [line, rest @ ..] => match shown(conn, role, line) {
            Some(text) => {
                push_further(out, digits, text.as_str())?;
                push_shown_rest(out, conn, digits, role, rest)
            }
            None => push_shown_rest(out, conn, digits, role, rest),
        },
    }
}

/// Prints to a connection in this role the lines of the room with an id that it is shown, if there are any.
pub fn push_shown(
    out: &mut String,
    conn: ConnNo,
    id: &str,
    role: Role,
    lines: &[Stored],
) -> Result<(), AllocError>
    ensures { OnOk result (string_bytes out.new ≡ string_bytes out.old
        ++ printed conn (with_id (Some id.now) (shown_lines conn role lines.now))) }
{
    match lines {
        [] => Ok(()),
        [line, rest @ ..] => match shown(conn, role, line) {
            Some(text) => {
                let mut buffer = Buffer::new();
                let digits = buffer.format(conn.0);
                push_place(out, digits, id)?;
                push_further(out, digits, text.as_str())?;
                push_shown_rest(out, conn, digits, role, rest)
            }
            None => push_shown(out, conn, id, role, rest),
        },
    }
}

/// Prints that a connection's session ended, since it gave too many texts to one place.
pub fn push_over(out: &mut String, conn: ConnNo) -> Result<(), AllocError>
    ensures { OnOk result (string_bytes out.new ≡ string_bytes out.old ++ over_line conn) }
{
    writeln!(out, "{conn}! OwnLimit")
}
