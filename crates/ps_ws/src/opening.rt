//! The opening handshake of a wire.

use crate::handshake::{Refusal, Request, judge};
use crate::sending::write_some;
use crate::wire::{PATIENCE, READ_SIZE, Socket, Stage, Stream, Wire, config, read_some};
use ps_outside::link::SendEnd;
use std::sync::Wait;
use std::time::Instant;
use std::{mem, rt};
use tungstenite::{NoMask, Role, WebSocket};
use websocket::handshake::HandshakeError;
use websocket::handshake::server::write_response;

// In how many reads the head of a handshake has to come. Each looks at the whole head, so without a bound one that comes byte by byte
// would cost more than a client should.
const HEAD_READS: u64 = 1024;

impl<R: rt::Clock + Wait + Copy> Wire<R> {
    /// Ends the handshake, where it isn't done, and tells whether it did.
    pub(crate) fn shake_hands(&mut self) -> Result<bool, SendEnd> {
        // A socket is too large to be moved for each message.
        if let Stage::Open(_) = &self.stage {
            return Ok(false);
        }
        let Some(stream) = mem::replace(&mut self.stage, Stage::Over).into_stream() else {
            return Err(SendEnd::Failed);
        };
        self.stage = Stage::Open(self.finish_handshake(stream)?);
        self.hang_bell();
        match self.now() {
            Ok(now) => {
                self.heard = now;
                Ok(true)
            }
            Err(_) => Err(SendEnd::Failed),
        }
    }

    // Reads a request and answers it, within its time: a handshake opens the socket, and of all else the connection ends.
    fn finish_handshake(&mut self, mut stream: Stream) -> Result<Socket, SendEnd> {
        let mut bytes = Vec::new(self.alloc);
        let frames = self.answer_request(&mut stream, &mut bytes)?;
        Ok(WebSocket::from_partially_read(
            self.alloc,
            stream,
            NoMask,
            frames,
            Role::Server,
            Some(config()),
        ))
    }

    // Reads a request into these bytes, and answers it. What came behind the head of a handshake are the first frames.
    fn answer_request(
        &mut self,
        stream: &mut Stream,
        bytes: &mut Vec<u8>,
    ) -> Result<Vec<u8>, SendEnd> {
        let Ok(begun) = Instant::now(&self.host) else {
            return Err(SendEnd::Failed);
        };
        match self.read_request(stream, bytes, begun)? {
            Request::Handshake { length, accept } => {
                let frames = bytes.get(length..).unwrap_or(&[]);
                self.welcome(stream, &accept, frames, begun)
            }
            Request::Refused(refusal) => Err(self.refuse(stream, refusal, begun)),
            Request::Unfinished => Err(SendEnd::Failed),
        }
    }

    // Answers a handshake, and keeps the frames behind it.
    fn welcome(
        &mut self,
        stream: &mut Stream,
        accept: &[u8; 28],
        frames: &[u8],
        begun: Instant,
    ) -> Result<Vec<u8>, SendEnd> {
        let mut answer = Vec::new(self.alloc);
        match write_response(accept, &[], &mut answer) {
            Ok(()) => {}
            Err(HandshakeError::OutOfMemory) => return Err(SendEnd::NoMemory),
            Err(_) => return Err(SendEnd::Failed),
        }
        let Ok(frames) = frames.to_vec(self.alloc) else {
            return Err(SendEnd::NoMemory);
        };
        self.write(stream, answer.as_slice(), begun)?;
        Ok(frames)
    }

    // Answers what is no handshake, and ends its connection.
    fn refuse(&mut self, stream: &mut Stream, refusal: Refusal, begun: Instant) -> SendEnd {
        let Ok(answer) = refusal.answer(self.alloc) else {
            return SendEnd::NoMemory;
        };
        match self.write(stream, answer.as_bytes(), begun) {
            Ok(()) => {
                self.part(stream);
                SendEnd::Failed
            }
            Err(end) => end,
        }
    }

    // Reads until it is known whether the client asks for a handshake, within its time.
    fn read_request(
        &mut self,
        stream: &mut Stream,
        bytes: &mut Vec<u8>,
        begun: Instant,
    ) -> Result<Request, SendEnd> {
        for _ in 0..HEAD_READS {
            if !self.read_more(stream, bytes, begun)? {
                // A client that sends nothing asks nothing.
                if bytes.is_empty() {
                    return Err(SendEnd::Failed);
                }
                return Ok(Request::Refused(Refusal::Malformed));
            }
            match judge(bytes.as_slice()) {
                Request::Unfinished => {}
                request => return Ok(request),
            }
        }
        Ok(Request::Refused(Refusal::TooLong))
    }

    // Reads once, after a wait where there is nothing, within its time. `false` where the client sends nothing any more.
    fn read_more(
        &mut self,
        stream: &mut Stream,
        bytes: &mut Vec<u8>,
        begun: Instant,
    ) -> Result<bool, SendEnd> {
        let mut chunk = [0; READ_SIZE];
        for _ in 0..u64::MAX {
            match read_some(stream, &mut chunk) {
                Ok(Some(count)) => {
                    return match bytes.extend_from_slice(&chunk[..count]) {
                        Ok(()) => Ok(count > 0),
                        Err(_) => Err(SendEnd::NoMemory),
                    };
                }
                Ok(None) => {}
                Err(_) => return Err(SendEnd::Failed),
            }
            if self.bells.are_over() || self.wait_since(begun, PATIENCE).is_err() {
                return Err(SendEnd::Failed);
            }
        }
        Err(SendEnd::Failed)
    }

    // Writes all of an answer of HTTP, within its time.
    fn write(&mut self, stream: &mut Stream, answer: &[u8], begun: Instant) -> Result<(), SendEnd> {
        let mut rest = answer;
        for _ in 0..u64::MAX {
            if rest.is_empty() {
                return Ok(());
            }
            match write_some(stream, rest)? {
                Some(count) => rest = &rest[count..],
                None => {
                    if self.wait_since(begun, PATIENCE).is_err() {
                        return Err(SendEnd::Failed);
                    }
                }
            }
        }
        Err(SendEnd::Failed)
    }
}
