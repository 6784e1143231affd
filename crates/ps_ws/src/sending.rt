//! What a wire sends: whole frames, which leave together.
ghost use Rattle.std.specs.Prelude.{◌≤◌, length, IfOk, IfSome};

use crate::wire::{PARTING, PATIENCE, SocketEnd, Stage, Stream, Wire};
use bytes::Bytes;
use ps_base::msg::Msg;
use ps_outside::link::SendEnd;
use std::io::{ErrorKind, Write};
use std::sync::Wait;
use std::time::Instant;
use std::{mem, rt};
use tungstenite::{Error, Message};
use websocket::protocol::frame::FrameHeader;
use websocket::protocol::frame::coding::{Data, OpCode};

/// From how many bytes on what is to be sent leaves before the link is asked for what comes next.
pub(crate) const WRITE_SIZE: usize = 16_384;

/// Writes as much of these bytes as the socket has room for. `None`: it has none now.
pub(crate) fn write_some(stream: &mut Stream, bytes: &[u8]) -> Result<Option<usize>, SendEnd>
    ensures bound { IfOk result (λ written. IfSome written (λ count. count ≤ length bytes.now)) }
{
    match stream.write(bytes) {
        Ok(0) => Err(SendEnd::Failed),
        Ok(count) => Ok(Some(count)),
        Err(error) => {
            if error.kind() == ErrorKind::WouldBlock {
                Ok(None)
            } else {
                Err(SendEnd::Failed)
            }
        }
    }
}

/// Whether what the protocol was to send has left: not yet, where the socket had no room.
pub(crate) fn has_left(sent: Result<(), Error>) -> Result<bool, SendEnd> {
    let Err(error) = sent else {
        return Ok(true);
    };
    match SocketEnd::of(error) {
        SocketEnd::Blocked => Ok(false),
        SocketEnd::NoMemory => Err(SendEnd::NoMemory),
        SocketEnd::Closed | SocketEnd::Breach(_, _) | SocketEnd::Failed => Err(SendEnd::Failed),
    }
}

impl<R: rt::Clock + Wait + Copy> Wire<R> {
    /// Sends a text: it leaves as the link waits for its client, or when there is enough to send. Where the socket has no room it waits
    /// for some.
    pub(crate) fn send(&mut self, text: &str) -> Result<(), SendEnd> {
        let begun = self.begin_text(text.len())?;
        self.put_part(text, begun)
    }

    /// Sends a message of a room, or of the hall, as `send` sends its text, which is never made: its lines are put to what is to be
    /// sent, and of a long one what is to be sent leaves in between.
    pub(crate) fn send_message(&mut self, room: Option<&str>, msg: &Msg) -> Result<(), SendEnd> {
        let begun = self.begin_text(msg.text_bytes(room))?;
        let mut before = "";
        if let Some(id) = room {
            self.put_both(">", id, begun)?;
            before = "\n";
        }
        for line in msg.lines.as_slice() {
            self.put_both(before, line.as_str(), begun)?;
            before = "\n";
        }
        Ok(())
    }

    // Begins a text of so many bytes, and says since when it has its time.
    fn begin_text(&mut self, bytes: usize) -> Result<Option<Instant>, SendEnd> {
        self.shake_hands()?;
        self.begin_frame(bytes)?;
        self.begin_of(bytes)
    }

    // When the sending of so many bytes begins, of which some leave before the last is put: so long a frame has its time from then on.
    fn begin_of(&self, bytes: usize) -> Result<Option<Instant>, SendEnd> {
        if bytes <= WRITE_SIZE {
            return Ok(None);
        }
        match Instant::now(&self.host) {
            Ok(begun) => Ok(Some(begun)),
            Err(_) => Err(SendEnd::Failed),
        }
    }

    // Puts the header of a frame with a text of so many bytes to what is to be sent, which leaves before where the frame has no room
    // behind it. Then there is memory for the frame, or for its pieces: one that was begun has to be ended.
    fn begin_frame(&mut self, bytes: usize) -> Result<(), SendEnd> {
        let header = FrameHeader::new(OpCode::Data(Data::Text), None);
        let room = header.len(bytes as u64).saturating_add(bytes);
        if self.out.len().saturating_add(room) > WRITE_SIZE {
            self.write_out(None)?;
        }
        if self.out.reserve(room.min(WRITE_SIZE)).is_err() {
            return Err(SendEnd::NoMemory);
        }
        match header.format(bytes as u64, &mut self.out) {
            Ok(()) => Ok(()),
            Err(_) => Err(SendEnd::NoMemory),
        }
    }

    // Puts two parts of a frame.
    fn put_both(
        &mut self,
        first: &str,
        second: &str,
        begun: Option<Instant>,
    ) -> Result<(), SendEnd> {
        self.put_part(first, begun)?;
        self.put_part(second, begun)
    }

    // Puts a part of a frame to what is to be sent, which leaves before where the part has no room behind it. A part that is longer than
    // that may be leaves as it is.
    fn put_part(&mut self, part: &str, begun: Option<Instant>) -> Result<(), SendEnd> {
        if self.out.len().saturating_add(part.len()) > WRITE_SIZE {
            self.write_out(begun)?;
        }
        if part.len() > WRITE_SIZE {
            return self.write_bytes(part.as_bytes(), begun);
        }
        match self.out.extend_from_slice(part.as_bytes()) {
            Ok(()) => Ok(()),
            Err(_) => Err(SendEnd::Failed),
        }
    }

    /// Writes all that is to be sent, within its time: from this moment, where there is none.
    pub(crate) fn write_out(&mut self, begun: Option<Instant>) -> Result<(), SendEnd> {
        if self.out.is_empty() {
            return Ok(());
        }
        let mut out = mem::replace(&mut self.out, Vec::new(self.alloc));
        let written = self.write_bytes(out.as_slice(), begun);
        out.clear();
        self.out = out;
        written
    }

    // Writes all of these bytes, within their time. Before it waits it rings: a client that doesn't read holds up nobody else.
    fn write_bytes(&mut self, bytes: &[u8], begun: Option<Instant>) -> Result<(), SendEnd> {
        let mut rest = bytes;
        let mut begun = begun;
        for _ in 0..u64::MAX {
            if rest.is_empty() {
                return Ok(());
            }
            let Stage::Open(socket) = &mut self.stage else {
                return Err(SendEnd::Failed);
            };
            match write_some(socket.get_mut(), rest)? {
                Some(count) => rest = &rest[count..],
                None => {
                    self.ring_bells();
                    begun = Some(self.wait_to_write(begun)?);
                }
            }
        }
        Err(SendEnd::Failed)
    }

    // Waits for room in the socket, for what began at this moment, or begins now; and says when that is.
    fn wait_to_write(&mut self, begun: Option<Instant>) -> Result<Instant, SendEnd> {
        let begun = match begun {
            Some(begun) => begun,
            None => match Instant::now(&self.host) {
                Ok(begun) => begun,
                Err(_) => return Err(SendEnd::Failed),
            },
        };
        match self.wait_since(begun, self.patience()) {
            Ok(()) => Ok(begun),
            Err(_) => Err(SendEnd::Failed),
        }
    }

    /// Puts a ping to what the socket sends.
    pub(crate) fn ping(&mut self) -> Result<(), SendEnd> {
        let Stage::Open(socket) = &mut self.stage else {
            return Err(SendEnd::Failed);
        };
        let ping = Message::Ping(Bytes::from_static(b""));
        if has_left(socket.write(ping))? {
            Ok(())
        } else {
            self.flush()
        }
    }

    /// Writes all that is to be sent, and rings.
    pub(crate) fn send_all(&mut self) -> Result<(), SendEnd> {
        self.read_ahead = 0;
        let written = self.write_out(None);
        self.ring_bells();
        written?;
        let Stage::Open(socket) = &mut self.stage else {
            return Err(SendEnd::Failed);
        };
        if has_left(socket.flush())? {
            Ok(())
        } else {
            self.flush()
        }
    }

    // How long what is sent may take in all, in milliseconds. One that holds up the end of a server has less time.
    fn patience(&self) -> u64 {
        if self.bells.are_over() {
            PARTING
        } else {
            PATIENCE
        }
    }

    /// Writes what waits to be sent, within its time. A part of it may have left.
    pub(crate) fn flush(&mut self) -> Result<(), SendEnd> {
        let Ok(begun) = Instant::now(&self.host) else {
            return Err(SendEnd::Failed);
        };
        for _ in 0..u64::MAX {
            if self.wait_since(begun, self.patience()).is_err() {
                return Err(SendEnd::Failed);
            }
            let Stage::Open(socket) = &mut self.stage else {
                return Err(SendEnd::Failed);
            };
            if has_left(socket.flush())? {
                return Ok(());
            }
        }
        Err(SendEnd::Failed)
    }
}
