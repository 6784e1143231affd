//! Opening handshakes (RFC 6455 4.2): which requests are one, and what the others are answered.
ghost use Rattle.httparse.specs.Spans.{IsHeaderWithin, IsRequestWithin};
ghost use Rattle.std.specs.Prelude.{length, All};

use httparse::spans::{EMPTY_HEADER_SPAN, HeaderSpan, RequestSpans, parse_request};
use httparse::{Error, Status};
use std::alloc::{AllocError, Global};
use websocket::handshake::HandshakeError;
use websocket::handshake::server::check_request;

// The most bytes, and the most header fields, of the head of a request.
const HEAD_LIMIT: usize = 65_536;

const FIELDS_LIMIT: usize = 124;

/// Why a request is no handshake.
#[derive(Clone, Copy, PartialEq, Eq)]
pub(crate) enum Refusal {
    /// It is none of HTTP/1, or its target has no path.
    Malformed,
    /// Its head has too many bytes, or too many fields.
    TooLong,
    /// It asks for the head of an answer alone.
    Head,
    /// Its method is another one than GET.
    Method,
    /// It is one of HTTP/1.0.
    OldHttp,
    /// It has no field Host, more than one, or one that names no host.
    Host,
    /// It has no field Connection with the option Upgrade, or more than one.
    Connection,
    /// It has no field Upgrade that asks for WebSocket, or more than one.
    Upgrade,
    /// It asks for another version than 13, or for none.
    Version,
    /// It has no key, more than one, or one that isn't of 16 bytes.
    Key,
    /// It has a body.
    Body,
}

impl Refusal {
    // The status of the answer, and its reason.
    fn status(self) -> &'static str {
        match self {
            Refusal::Head | Refusal::Method => "405 Method Not Allowed",
            Refusal::Version => "426 Upgrade Required",
            Refusal::TooLong => "431 Request Header Fields Too Large",
            Refusal::Malformed
            | Refusal::OldHttp
            | Refusal::Host
            | Refusal::Connection
            | Refusal::Upgrade
            | Refusal::Key
            | Refusal::Body => "400 Bad Request",
        }
    }

    // The fields that this status wants, each with its end of line. An Upgrade wants its name among the options of Connection.
    fn fields(self) -> &'static str {
        match self {
            Refusal::Head | Refusal::Method => "Connection: close\r\nAllow: GET\r\n",
            Refusal::Version =>
                "Connection: close, Upgrade\r\nUpgrade: websocket\r\nSec-WebSocket-Version: 13\r\n",
            _ => "Connection: close\r\n",
        }
    }

    // What a reader is told.
    fn reason(self) -> &'static str {
        match self {
            Refusal::Malformed => "This is no request of HTTP/1.1 for a path.",
            Refusal::TooLong => "The head of this request is too long.",
            Refusal::Head | Refusal::Method => "This server speaks WebSocket: connect by GET.",
            Refusal::OldHttp => "A WebSocket handshake is a request of HTTP/1.1.",
            Refusal::Host => "This request wants one header Host.",
            Refusal::Connection =>
                "This server speaks WebSocket: the request wants one header 'Connection: Upgrade'.",
            Refusal::Upgrade =>
                "This server speaks WebSocket: the request wants one header 'Upgrade: websocket'.",
            Refusal::Version =>
                "This server speaks version 13 of WebSocket: the request wants 'Sec-WebSocket-Version: 13'.",
            Refusal::Key =>
                "This request wants one header Sec-WebSocket-Key, of 16 bytes in base64.",
            Refusal::Body => "A WebSocket handshake has no body.",
        }
    }

    /// The answer of HTTP/1.1, behind which the connection ends. To HEAD it has no body.
    pub(crate) fn answer(self, alloc: Global) -> Result<String, AllocError> {
        let reason = self.reason();
        let length = reason.len() + 1;
        let body = if self == Refusal::Head { "" } else { reason };
        let end = if self == Refusal::Head { "" } else { "\n" };
        format!(in alloc;
            "HTTP/1.1 {}\r\n{}Content-Type: text/plain\r\nContent-Length: {length}\r\n\r\n{body}{end}",
            self.status(),
            self.fields(),
        )
    }
}

/// What the bytes of a client are, as far as they have come.
pub(crate) enum Request {
    /// The front of a head.
    Unfinished,
    /// A handshake, whose head has this length, and the value of `Sec-WebSocket-Accept` that answers it.
    Handshake { length: usize, accept: [u8; 28] },
    /// No handshake.
    Refused(Refusal),
}

// How many of the fields have this name.
fn count(head: &[u8], fields: &[HeaderSpan], name: &[u8]) -> usize
    requires { All (IsHeaderWithin (length head.now)) fields.now }
{
    let mut count: usize = 0;
    for field in fields {
        if field.name.of(head).eq_ignore_ascii_case(name) {
            count = count.saturating_add(1);
        }
    }
    count
}

// The value of the first field of this name, or nothing.
fn value<'b>(head: &'b [u8], fields: &[HeaderSpan], name: &[u8]) -> &'b [u8]
    requires { All (IsHeaderWithin (length head.now)) fields.now }
{
    for field in fields {
        if field.name.of(head).eq_ignore_ascii_case(name) {
            return field.value.of(head);
        }
    }
    &[]
}

// Whether this has the characters of a host, maybe with a port (RFC 3986 3.2.2).
fn is_host(text: &[u8]) -> bool {
    !text.is_empty()
        && text.iter().all(|b| b.is_ascii_alphanumeric() || b"-._~!$&'()*+;=:[]%".contains(b))
}

// Whether a target has a path: it is one, or an address of HTTP.
fn has_path(target: &[u8]) -> bool {
    target.starts_with(b"/") || target.starts_with(b"http://") || target.starts_with(b"https://")
}

// Whether a request says that it has a body, or may have one.
fn has_body(head: &[u8], fields: &[HeaderSpan]) -> bool
    requires { All (IsHeaderWithin (length head.now)) fields.now }
{
    if count(head, fields, b"Transfer-Encoding") != 0 {
        return true;
    }
    match count(head, fields, b"Content-Length") {
        0 => false,
        1 => value(head, fields, b"Content-Length") != b"0".as_slice(),
        _ => true,
    }
}

// What is wrong with the fields of a request that asks for an upgrade with a valid key, if anything is: what it has to say once is
// said again, or it has a body.
fn wrong_fields(head: &[u8], fields: &[HeaderSpan]) -> Option<Refusal>
    requires { All (IsHeaderWithin (length head.now)) fields.now }
{
    if count(head, fields, b"Host") != 1 || !is_host(value(head, fields, b"Host")) {
        return Some(Refusal::Host);
    }
    if count(head, fields, b"Connection") != 1 {
        return Some(Refusal::Connection);
    }
    if count(head, fields, b"Upgrade") != 1 {
        return Some(Refusal::Upgrade);
    }
    if count(head, fields, b"Sec-WebSocket-Version") != 1 {
        return Some(Refusal::Version);
    }
    if count(head, fields, b"Sec-WebSocket-Key") != 1 {
        return Some(Refusal::Key);
    }
    if has_body(head, fields) {
        return Some(Refusal::Body);
    }
    None
}

// Why a whole head asks for no upgrade.
fn refusal_of(error: HandshakeError, is_head: bool) -> Refusal {
    match error {
        HandshakeError::WrongHttpMethod if is_head => Refusal::Head,
        HandshakeError::WrongHttpMethod => Refusal::Method,
        HandshakeError::WrongHttpVersion => Refusal::OldHttp,
        HandshakeError::MissingConnectionUpgradeHeader => Refusal::Connection,
        HandshakeError::MissingUpgradeWebSocketHeader => Refusal::Upgrade,
        HandshakeError::MissingSecWebSocketVersionHeader => Refusal::Version,
        HandshakeError::MissingSecWebSocketKey | HandshakeError::InvalidSecWebSocketKey =>
            Refusal::Key,
        _ => Refusal::Malformed,
    }
}

// What a head is that was found at the front of some bytes.
fn judge_head(bytes: &[u8], found: &RequestSpans, spans: &[HeaderSpan]) -> Request
    requires { IsRequestWithin bytes.now spans.now found.now }
{
    if found.len > HEAD_LIMIT {
        return Request::Refused(Refusal::TooLong);
    }
    let accept = match check_request(bytes, found, spans) {
        Ok(accept) => accept,
        Err(error) => {
            let is_head = found.method.of(bytes) == b"HEAD".as_slice();
            return Request::Refused(refusal_of(error, is_head));
        }
    };
    if !has_path(found.path.of(bytes)) {
        return Request::Refused(Refusal::Malformed);
    }
    match wrong_fields(bytes, &spans[..found.headers]) {
        Some(refusal) => Request::Refused(refusal),
        None => Request::Handshake {
            length: found.len,
            accept,
        },
    }
}

/// What these bytes are, the first of a client.
pub(crate) fn judge(bytes: &[u8]) -> Request {
    let mut spans = [EMPTY_HEADER_SPAN; FIELDS_LIMIT];
    match parse_request(bytes, &mut spans) {
        Ok(Status::Complete(found)) => judge_head(bytes, &found, &spans),
        Ok(Status::Partial) => {
            if bytes.len() > HEAD_LIMIT {
                Request::Refused(Refusal::TooLong)
            } else {
                Request::Unfinished
            }
        }
        Err(Error::TooManyHeaders) => Request::Refused(Refusal::TooLong),
        Err(_) => Request::Refused(Refusal::Malformed),
    }
}
