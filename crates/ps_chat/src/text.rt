//! The texts of a room's lines.
ghost use Rattle.std.specs.Prelude.{◌≡◌, IfOk};
ghost use Rattle.ps_chat.specs.Texts.{moved, said, noted, done_to, done_because, promoted, level};

use ps_base::name::Name;
use ps_base::number::Moment;
use ps_base::text::Text;
use std::alloc::{AllocError, Global};
use std::fmt::Write;

/// As many bytes as the bars and the moment of a said line have at the most.
const SAID_ROOM: usize = 26;

/// Who came or went, behind the front of its line.
pub(crate) fn moved(alloc: Global, front: &str, by: &Text) -> Result<Text, AllocError>
    ensures { IfOk result (λ t. t ≡ moved front.now by.now) }
{
    Ok(Text::from_string(format!(in alloc; "{front}{by}")?))
}

/// `|c:|MOMENT|SNAME|TEXT` of PROTOCOL.md.
pub(crate) fn said(alloc: Global, moment: Moment, by: &Text, text: &str) -> Result<Text, AllocError>
    ensures { IfOk result (λ t. t ≡ said moment by.now text.now) }
{
    let length = by.len().saturating_add(text.len());
    let mut line = String::with_capacity(alloc, length.saturating_add(SAID_ROOM))?;
    write!(line, "|c:|{moment}|{by}|{text}")?;
    Ok(Text::from_string(line))
}

/// `WORD by SNAME: TEXT`
pub(crate) fn noted(alloc: Global, word: &str, by: &Text, text: &str) -> Result<Text, AllocError>
    ensures { IfOk result (λ t. t ≡ noted word.now by.now text.now) }
{
    Ok(Text::from_string(format!(in alloc; "{word} by {by}: {text}")?))
}

/// `WORD: WHOM by SNAME`
pub(crate) fn done_to(alloc: Global, word: &str, whom: &str, by: &Text) -> Result<Text, AllocError>
    ensures { IfOk result (λ t. t ≡ done_to word.now whom.now by.now) }
{
    Ok(Text::from_string(format!(in alloc; "{word}: {whom} by {by}")?))
}

/// `WORD: WHOM by SNAME: REASON`, and without the reason and its colon where there is none.
pub(crate) fn done_because(
    alloc: Global,
    word: &str,
    whom: &str,
    by: &Text,
    reason: &Option<Text>,
) -> Result<Text, AllocError>
    ensures { IfOk result (λ t. t ≡ done_because word.now whom.now by.now reason.now) }
{
    let done = done_to(alloc, word, whom, by)?;
    match reason {
        None => Ok(done),
        Some(reason) => Ok(Text::from_string(format!(in alloc; "{done}: {reason}")?)),
    }
}

/// `NAME to SYMBOL`
pub(crate) fn promoted(alloc: Global, name: &Name, symbol: char) -> Result<Text, AllocError>
    ensures { IfOk result (λ t. t ≡ promoted name.now symbol) }
{
    Ok(Text::from_string(format!(in alloc; "{name} to {symbol}")?))
}

/// The symbol of a level, or `off`.
pub(crate) fn level(alloc: Global, symbol: Option<char>) -> Result<Text, AllocError>
    ensures { IfOk result (λ t. t ≡ level symbol) }
{
    match symbol {
        None => Text::copy_of(alloc, "off"),
        Some(symbol) => Ok(Text::from_string(format!(in alloc; "{symbol}")?)),
    }
}
