//! What a client sends.
ghost use Rattle.std.specs.Prelude.{◌≡◌, false, Ok, Err, IfOk, IfErr};
ghost use Rattle.std.specs.Option.{option_copied};
ghost use Rattle.ps_lines.specs.CleanTexts.{IsClean};
ghost use Rattle.ps_lines.specs.Clients.{text_of, client};
ghost use Rattle.ps_lines.specs.Commands.{has_control};

use crate::parts;
use ps_base::limit::MOST_TEXT;
use ps_base::number::counted;
use thiserror::Error;

/// A client's message, `ROOMID|TEXT` of PROTOCOL.md.
#[derive(Clone, Copy, Debug, PartialEq, Eq)]
pub struct ClientMsg<'a> {
    /// What stands before the first `|`: the id of a room, which may be empty.
    pub room: &'a str,
    /// What stands behind it, further bars included.
    pub text: &'a str,
}

/// Why bytes aren't a client's message, in the order in which it is reported.
#[derive(Clone, Copy, Debug, PartialEq, Eq, Error)]
pub enum ClientFault {
    /// More than 8,192 bytes: so many. (`u32::MAX` where it is more.)
    #[error("{bytes} bytes")]
    Long { bytes: u32 },
    /// The bytes aren't UTF-8.
    #[error("no UTF-8")]
    NotUtf8,
    /// No `|` ends the room.
    #[error("no bar")]
    NoBar,
}

/// The bytes as a text, if they are UTF-8.
fn text_of(bytes: &[u8]) -> Option<&str>
    ensures { option_copied result ≡ text_of bytes.now }
{
    match std::str::from_utf8(bytes) {
        Ok(text) => Some(text),
        Err(_) => None,
    }
}

/// Parts what a client sent at its first `|`: before it stands the room's id, behind it the text.
///
/// The faults, in the order in which they are reported: `Long` for more than 8,192 bytes, `NotUtf8`
/// where the bytes aren't UTF-8, `NoBar` where no `|` is there. Takes no memory.
#[tactic(auto, unfolding(crate::specs::Clients::client))]
pub fn read_client(bytes: &[u8]) -> Result<ClientMsg<'_>, ClientFault>
    ensures message { IfOk result (λ m. client bytes.now ≡ Ok (m.room.now, m.text.now)) }
    ensures fault { IfErr result (λ f. client bytes.now ≡ Err f) }
{
    if bytes.len() > MOST_TEXT {
        return Err(ClientFault::Long {
            bytes: counted(bytes.len()),
        });
    }
    match text_of(bytes) {
        None => Err(ClientFault::NotUtf8),
        Some(whole) => match parts::at_bar(whole) {
            None => Err(ClientFault::NoBar),
            Some((room, text)) => Ok(ClientMsg { room, text }),
        },
    }
}

// The bytes of a text, which are UTF-8.
fn text_in(whole: &str) -> &str
    ensures { text_of whole.now ≡ Some result.now }
{
    whole
}

/// Does as `read_client` does, with what is known to be UTF-8 already, and doesn't look at that again.
#[tactic(auto, unfolding(crate::specs::Clients::client))]
pub fn read_client_text(whole: &str) -> Result<ClientMsg<'_>, ClientFault>
    ensures message { IfOk result (λ m. client whole.now ≡ Ok (m.room.now, m.text.now)) }
    ensures fault { IfErr result (λ f. client whole.now ≡ Err f) }
{
    if whole.len() > MOST_TEXT {
        return Err(ClientFault::Long {
            bytes: counted(whole.len()),
        });
    }
    match parts::at_bar(text_in(whole)) {
        None => Err(ClientFault::NoBar),
        Some((room, text)) => Ok(ClientMsg { room, text }),
    }
}

/// Does as `read_client` does, with what is known to be a clean text already: UTF-8 of at most 8,192 bytes, with no character
/// below U+0020. It looks at none of these again, so the one fault is `NoBar`. The text behind the bar is as clean.
#[tactic(auto, unfolding(crate::specs::Clients::client))]
pub fn read_clean_client(whole: &str) -> Result<ClientMsg<'_>, ClientFault>
    requires { IsClean whole.now }
    ensures message { IfOk result (λ m. client whole.now ≡ Ok (m.room.now, m.text.now)) }
    ensures clean { IfOk result (λ m. has_control m.text.now ≡ false) }
    ensures fault { IfErr result (λ f. client whole.now ≡ Err f) }
{
    match parts::at_bar(text_in(whole)) {
        None => Err(ClientFault::NoBar),
        Some((room, text)) => Ok(ClientMsg { room, text }),
    }
}
