//! A socket that speaks WebSocket, without any count.
ghost use Rattle.std.specs.Prelude.{◌≤◌, length, IfOk, IfSome};

use crate::bells::{Bell, Bells};
use crate::bucket::Bucket;
use crate::link::MESSAGE_LIMIT;
use crate::sending::{WRITE_SIZE, has_left};
use crate::settings::Settings;
use mio::{Events, Interest, Poll, Token, Waker};
use ps_outside::Failed;
use ps_outside::link::{CloseCause, Next, SendEnd};
use std::alloc::{AllocError, Global};
use std::io::{ErrorKind, Read};
use std::net::{Net, Shutdown, TcpStream};
use std::sync::{Arc, Wait};
use std::time::{Duration, Instant};
use std::{io, mem, rt};
use tungstenite::{
    CloseCode, CloseFrame, Error, Message, NoMask, Utf8Bytes, WebSocket, WebSocketConfig,
};
use websocket::error::ProtocolError;

/// How long a handshake, and the sending of a text or of a Close frame, may take in all, in milliseconds.
pub(crate) const PATIENCE: u64 = 10_000;

/// How long the end of a client is waited for that was told why its connection ends, in milliseconds.
pub(crate) const PARTING: u64 = 1_000;

// How long one wait for the socket takes at most where something is under way, or no bell rings, in milliseconds.
const POLL: u64 = 50;

// How long a link waits for its client, or its bell, at most, in milliseconds.
const IDLE: u64 = 10_000;

// How many messages of a client are taken, at most, before what is to be sent leaves.
const READ_AHEAD: u32 = 16;

/// How many bytes one read of the socket asks for. A link keeps two buffers of this size.
pub(crate) const READ_SIZE: usize = 8192;

/// The stream below a socket.
pub(crate) type Stream = mio::net::TcpStream;

/// A socket of a server, which masks nothing.
pub(crate) type Socket = WebSocket<Stream, NoMask>;

/// How far a wire is.
pub(crate) enum Stage {
    /// The handshake isn't done.
    Handshaking(Stream),
    /// Messages go to and fro.
    Open(Socket),
    /// The socket was let go.
    Over,
}

// By hand, as all here, so that whoever drops one has one step of its proof for that.
impl Drop for Stage {
    fn drop(self) {
        match self {
            Stage::Handshaking(_) => {}
            Stage::Open(_) => {}
            Stage::Over => {}
        }
    }
}

impl Stage {
    /// The stream, unless it was let go.
    pub(crate) fn into_stream(self) -> Option<Stream> {
        match self {
            Stage::Handshaking(stream) => Some(stream),
            Stage::Open(socket) => Some(socket.into_inner()),
            Stage::Over => None,
        }
    }
}

/// What a wire waits by. It takes all the descriptors of a wire but its socket.
pub(crate) struct Seat {
    poll: Poll,
    events: Events,
    bell: Arc<Bell>,
}

impl Drop for Seat {
    fn drop(self) {
        let Seat {
            poll: _,
            events: _,
            bell: _,
        } = self;
    }
}

impl Seat {
    /// Where memory is refused the error is of the kind OutOfMemory.
    pub(crate) fn new<N: Net>(net: &N, alloc: Global) -> io::Result<Seat> {
        let poll = Poll::new(net)?;
        let events = Events::with_capacity(alloc, 4)?;
        let waker = Waker::new(poll.registry(), Token(1))?;
        let bell = Arc::new(alloc, Bell::new(waker))?;
        Ok(Seat { poll, events, bell })
    }

    /// Ends its waits at this listener, too.
    pub(crate) fn watch(&self, listener: &mut mio::net::TcpListener) -> io::Result<()> {
        self.poll
            .registry()
            .register(listener, Token(0), Interest::READABLE)
    }

    // Ends its waits at what comes over this stream, and at room in it, too.
    fn watch_stream(&self, stream: &mut Stream) -> io::Result<()> {
        let both = Interest::READABLE | Interest::WRITABLE;
        self.poll.registry().register(stream, Token(0), both)
    }

    /// The bell that ends its waits.
    pub(crate) fn bell(&self) -> Result<Arc<Bell>, AllocError> {
        self.bell.clone()
    }

    /// Waits for what it waits by, for so long at most.
    pub(crate) fn wait(&mut self, most: Duration) -> io::Result<()> {
        self.poll.poll(&mut self.events, Some(most))
    }
}

/// A socket, what it waits by, and a message that is still to be answered.
pub(crate) struct Wire<R: rt::Clock + Wait + Copy> {
    pub(crate) host: R,
    pub(crate) alloc: Global,
    seat: Seat,
    pub(crate) stage: Stage,
    kept: Option<Incoming>,
    settings: Settings,
    // When it began, where its settings have to do with time.
    begun: Option<Instant>,
    /// When something last came, since it began.
    pub(crate) heard: Duration,
    // When its client was pinged since then, if it was.
    pinged: Option<Duration>,
    bucket: Bucket,
    // Whether nothing was read at the last look, since its client says too much.
    is_held: bool,
    // Whether the socket may have something to read: it told of something since it last had nothing.
    is_ready: bool,
    pub(crate) bells: Arc<Bells>,
    // Its number among the bells, while it is one of them.
    number: Option<u64>,
    // The rooms that its connection attends.
    rooms: Vec<u32>,
    /// What is to be sent: whole frames.
    pub(crate) out: Vec<u8>,
    /// How many messages were taken since all that was to be sent had left.
    pub(crate) read_ahead: u32,
    // Where it is to ring.
    rings: Vec<Option<u32>>,
    // Whether its bell is missing somewhere, since memory was refused: it then looks as often as one that has none.
    is_deaf: bool,
}

impl<R: rt::Clock + Wait + Copy> Drop for Wire<R> {
    fn drop(self) {
        let Wire {
            host: _,
            alloc: _,
            seat: _,
            stage: _,
            kept: _,
            settings: _,
            begun: _,
            heard: _,
            pinged: _,
            bucket: _,
            is_held: _,
            is_ready: _,
            bells: _,
            number: _,
            rooms: _,
            out: _,
            read_ahead: _,
            rings: _,
            is_deaf: _,
        } = self;
    }
}

/// The limits of a socket.
pub(crate) fn config() -> WebSocketConfig {
    WebSocketConfig::default()
        .read_buffer_size(READ_SIZE)
        .write_buffer_size(WRITE_SIZE)
        .max_message_size(Some(MESSAGE_LIMIT))
        .max_frame_size(Some(MESSAGE_LIMIT))
}

/// Why the socket didn't do what it was asked. Its own error has many parts to drop, so it is taken for this at once.
#[derive(Clone, Copy)]
pub(crate) enum SocketEnd {
    /// It has nothing, or no room, now.
    Blocked,
    /// Both sides have said that they close.
    Closed,
    /// Memory was refused.
    NoMemory,
    /// The client broke the protocol: what a Close frame says of that (RFC 6455 7.4.1).
    Breach(CloseCode, &'static str),
    /// All else.
    Failed,
}

impl SocketEnd {
    /// What an error means.
    pub(crate) fn of(error: Error) -> SocketEnd {
        SocketEnd::meant_by(&error)
    }

    fn meant_by(error: &Error) -> SocketEnd {
        match error {
            Error::ConnectionClosed => SocketEnd::Closed,
            Error::OutOfMemory => SocketEnd::NoMemory,
            Error::Io(cause) => {
                if cause.kind() == ErrorKind::WouldBlock {
                    SocketEnd::Blocked
                } else {
                    SocketEnd::Failed
                }
            }
            Error::Protocol(cause) => match breach_of_protocol(cause) {
                Some(reason) => SocketEnd::Breach(CloseCode::Protocol, reason),
                None => SocketEnd::Failed,
            },
            Error::Utf8 => SocketEnd::Breach(CloseCode::Invalid, "the text is not UTF-8"),
            Error::Capacity(_) => SocketEnd::Breach(
                CloseCode::Size,
                "the message has over 65536 bytes",
            ),
            _ => SocketEnd::Failed,
        }
    }
}

// What the protocol forbids, or `None` where the connection ended without a word.
fn breach_of_protocol(cause: &ProtocolError) -> Option<&'static str> {
    match cause {
        ProtocolError::UnmaskedFrameFromClient => Some("a frame of a client has to be masked"),
        ProtocolError::NonZeroReservedBits => Some("the reserved bits of a frame have to be 0"),
        ProtocolError::FragmentedControlFrame => Some("a control frame has to be whole"),
        ProtocolError::ControlFrameTooBig => Some("a control frame has at most 125 bytes"),
        ProtocolError::UnexpectedContinueFrame => Some("there is no message to continue"),
        ProtocolError::ExpectedFragment(_) => Some("the message before has to be continued"),
        ProtocolError::InvalidOpcode(_) => Some("there is no such kind of frame"),
        ProtocolError::InvalidLength => Some("the length is not in its shortest form"),
        ProtocolError::InvalidCloseSequence => Some("a Close frame has no code of two bytes"),
        ProtocolError::ResetWithoutClosingHandshake => None,
        _ => Some("the protocol was broken"),
    }
}

// What a Close frame says where this side ends the connection (RFC 6455 7.4.1).
fn told(cause: CloseCause) -> (CloseCode, &'static str) {
    match cause {
        CloseCause::TooLong => (CloseCode::Size, "a text has at most 8192 bytes"),
        CloseCause::NotUtf8 => (CloseCode::Invalid, "a text has to be UTF-8"),
        CloseCause::Limit => (
            CloseCode::Policy,
            "no more texts are taken of this connection",
        ),
        CloseCause::NoMemory => (CloseCode::Error, "the server is out of memory"),
    }
}

// What a message asks of who takes it.
#[derive(Clone, Copy)]
enum Kind {
    // An answer alone.
    Plain,
    // A reply of the protocol itself.
    Ping,
    // That, and the end.
    Close,
}

// A message of the client.
struct Incoming {
    message: Message,
}

impl Drop for Incoming {
    fn drop(self) {
        let Incoming { message: _ } = self;
    }
}

impl Incoming {
    fn kind(&self) -> Kind {
        match &self.message {
            Message::Text(_) | Message::Binary(_) | Message::Pong(_) => Kind::Plain,
            Message::Ping(_) => Kind::Ping,
            Message::Close(_) => Kind::Close,
        }
    }

    // It as an answer, unless memory is refused for its bytes.
    fn answer(&self, alloc: Global) -> Next {
        let bytes = match &self.message {
            Message::Text(text) => text.as_bytes().to_vec(alloc),
            Message::Binary(bytes) => bytes.as_slice().to_vec(alloc),
            Message::Ping(_) | Message::Pong(_) | Message::Close(_) => return Next::Quiet,
        };
        match bytes {
            Ok(bytes) => Next::Text(bytes),
            Err(_) => Next::NoMemory,
        }
    }
}

/// Reads once. `None`: there is nothing now.
pub(crate) fn read_some(stream: &mut Stream, chunk: &mut [u8]) -> Result<Option<usize>, Failed>
    ensures bound { IfOk result (λ read. IfSome read (λ count. count ≤ length chunk.new)) }
{
    match stream.read(chunk) {
        Ok(count) => Ok(Some(count)),
        Err(error) => {
            if error.kind() == ErrorKind::WouldBlock {
                Ok(None)
            } else {
                Err(Failed)
            }
        }
    }
}

impl<R: rt::Clock + Wait + Copy> Wire<R> {
    /// A wire over a stream, which waits by this seat, among those whose bells these are. Nothing is read or written yet. Where memory
    /// is refused the error is of the kind OutOfMemory.
    pub(crate) fn open(
        host: R,
        alloc: Global,
        settings: Settings,
        bells: Arc<Bells>,
        seat: Seat,
        stream: TcpStream,
    ) -> io::Result<Wire<R>> {
        stream.set_nonblocking(true)?;
        let mut stream = Stream::from_std(stream);
        seat.watch_stream(&mut stream)?;
        let begun = if settings.need_clock() {
            Some(Instant::now(&host)?)
        } else {
            None
        };
        Ok(Wire {
            host,
            alloc,
            seat,
            stage: Stage::Handshaking(stream),
            kept: None,
            settings,
            begun,
            heard: Duration::ZERO,
            pinged: None,
            bucket: Bucket::new(settings.rate),
            is_held: false,
            is_ready: true,
            bells,
            number: None,
            rooms: Vec::new(alloc),
            out: Vec::new(alloc),
            read_ahead: 0,
            rings: Vec::new(alloc),
            is_deaf: false,
        })
    }

    /// Lets the socket go.
    pub(crate) fn shut(&mut self) {
        self.stage = Stage::Over;
        self.kept = None;
        self.out = Vec::new(self.alloc);
        self.part_from_bells();
    }

    /// Rings where it was to, tells the client this cause in a Close frame, and lets the socket go.
    pub(crate) fn end(&mut self, cause: Option<CloseCause>) {
        self.ring_bells();
        if let Some(cause) = cause {
            let (code, reason) = told(cause);
            self.close(code, reason);
        }
        self.shut();
    }

    /// What comes next, after one wait where there is nothing. Quiet comes at once where this call ended the handshake.
    pub(crate) fn next(&mut self) -> Next {
        let next = self.next_answer();
        // What happens from now on is seen by the look that follows this answer, or ends the wait of the next call.
        self.seat.bell.make_ready();
        next
    }

    fn next_answer(&mut self) -> Next {
        match self.shake_hands() {
            Ok(false) => {}
            Ok(true) => return Next::Quiet,
            Err(SendEnd::Failed) => return Next::Failed,
            Err(SendEnd::NoMemory) => return Next::NoMemory,
        }
        if self.bells.are_over() {
            if self.send_all().is_err() {
                return Next::Failed;
            }
            self.close(CloseCode::Away, "the server goes down");
            return Next::End;
        }
        match self.next_of_client() {
            Ok(next) => next,
            Err(_) => Next::Failed,
        }
    }

    // What the client says, after one wait where there is nothing. What is to be sent leaves before the wait, or when some messages were
    // taken since it last did: so texts that came together are answered together.
    fn next_of_client(&mut self) -> Result<Next, Failed> {
        if self.read_ahead < READ_AHEAD {
            if let Some(next) = self.read_in_turn()? {
                self.read_ahead = self.read_ahead.saturating_add(1);
                return Ok(next);
            }
        }
        if self.send_all().is_err() {
            return Ok(Next::Failed);
        }
        if let Some(next) = self.read_in_turn()? {
            return Ok(next);
        }
        // Whoever woke this link may have others to wake. As it rests now, they run at once, where all that they need is at hand.
        self.bells.help(&self.host);
        self.rest()?;
        match self.read_in_turn()? {
            Some(next) => Ok(next),
            None => self.judge_silence(),
        }
    }

    /// How long ago it began; zero where its settings have nothing to do with time.
    pub(crate) fn now(&self) -> Result<Duration, Failed> {
        match &self.begun {
            None => Ok(Duration::ZERO),
            Some(begun) => self.passed(*begun),
        }
    }

    // How long ago this moment was.
    fn passed(&self, begun: Instant) -> Result<Duration, Failed> {
        match begun.elapsed(&self.host) {
            Ok(passed) => Ok(passed),
            Err(_) => Err(Failed),
        }
    }

    // What the socket gives now, and None where it has nothing, or where its client said so much that it is read later.
    fn read_in_turn(&mut self) -> Result<Option<Next>, Failed> {
        let now = self.now()?;
        self.is_held = !self.bucket.wait(now).is_zero();
        if self.is_held {
            return Ok(None);
        }
        let next = self.read();
        if next.is_some() {
            self.bucket.take(now);
            self.heard = now;
            self.pinged = None;
        }
        Ok(next)
    }

    // Waits for the client or for the bell. Where the client isn't read yet, it waits for the time at which it is, and not for the socket,
    // which tells of what came only once; and it looks again when it is woken by more.
    fn rest(&mut self) -> Result<(), Failed> {
        for _ in 0..u64::MAX {
            if self.seat.bell.has_rung() {
                return Ok(());
            }
            let now = self.now()?;
            let most = self.longest_wait(now);
            let held = self.bucket.wait(now);
            if !self.is_held || self.is_deaf {
                return self.wait(most);
            }
            if held.is_zero() {
                return Ok(());
            }
            self.wait(held)?;
        }
        Ok(())
    }

    // How much of its time a client still has that said nothing since it was heard, or pinged.
    fn patience_left(&self, seconds: u32, now: Duration) -> Duration {
        let since = self.pinged.unwrap_or(self.heard);
        Duration::from_secs(u64::from(seconds)).saturating_sub(now.saturating_sub(since))
    }

    // How long to wait for the client at most.
    fn longest_wait(&self, now: Duration) -> Duration {
        let most = Duration::from_millis(if self.is_deaf { POLL } else { IDLE });
        match self.settings.ping {
            None => most,
            Some(seconds) => {
                let least = Duration::from_millis(POLL);
                most.min(self.patience_left(seconds, now).max(least))
            }
        }
    }

    // Pings a client that was silent for long, and gives up one that doesn't answer. Of one that isn't read yet nothing is known.
    fn judge_silence(&mut self) -> Result<Next, Failed> {
        let Some(seconds) = self.settings.ping else {
            return Ok(Next::Quiet);
        };
        let now = self.now()?;
        if self.is_held || !self.patience_left(seconds, now).is_zero() {
            return Ok(Next::Quiet);
        }
        if self.pinged.is_some() {
            return Ok(Next::Failed);
        }
        match self.ping() {
            Ok(()) => {
                self.pinged = Some(now);
                Ok(Next::Quiet)
            }
            Err(SendEnd::NoMemory) => Ok(Next::Quiet),
            Err(SendEnd::Failed) => Ok(Next::Failed),
        }
    }

    /// Lets its bell hang with those of the others.
    pub(crate) fn hang_bell(&mut self) {
        match self.bells.add(&self.host, &self.seat.bell) {
            Ok(number) => self.number = Some(number),
            Err(_) => self.is_deaf = true,
        }
    }

    // Takes its bell from those of the others.
    fn part_from_bells(&mut self) {
        let Some(number) = self.number.take() else {
            return;
        };
        for room in self.rooms.as_slice() {
            self.bells.leave(&self.host, number, *room);
        }
        self.rooms.clear();
        self.bells.remove(&self.host, number);
    }

    /// Lets its bell hang at a room as well, or no more: then it rings there, for those who see it leave.
    pub(crate) fn attend(&mut self, room: u32, attends: bool) {
        let index = self
            .rooms
            .as_slice()
            .iter()
            .position(|attended| *attended == room);
        match (index, attends) {
            (None, true) => {
                if self.attend_room(room).is_err() {
                    self.is_deaf = true;
                }
            }
            (Some(index), false) => {
                let _ = self.rooms.swap_remove(index);
                if let Some(number) = self.number {
                    self.bells.leave(&self.host, number, room);
                }
                self.ring(Some(room));
            }
            _ => {}
        }
    }

    // Lets its bell hang at a room as well.
    fn attend_room(&mut self, room: u32) -> Result<(), AllocError> {
        let Some(number) = self.number else {
            return Ok(());
        };
        self.rooms.push(room)?;
        self.bells.attend(&self.host, number, &self.seat.bell, room)
    }

    /// Rings at a place, as what is to be sent is sent.
    pub(crate) fn ring(&mut self, place: Option<u32>) {
        if self.rings.as_slice().contains(&place) {
            return;
        }
        if self.rings.push(place).is_err() {
            self.ring_at(place);
        }
    }

    // Rings at a place for all others.
    fn ring_at(&self, place: Option<u32>) {
        self.bells.ring(&self.host, place, self.number);
    }

    /// Rings where it was to.
    pub(crate) fn ring_bells(&mut self) {
        for place in self.rings.as_slice() {
            self.ring_at(*place);
        }
        self.rings.clear();
    }

    /// Ends what is sent, and throws away what still comes, for a moment. If bytes were left unread, the host would end the connection
    /// by a reset, and the client might lose what it was told.
    pub(crate) fn part(&mut self, stream: &mut Stream) {
        let Ok(begun) = Instant::now(&self.host) else {
            return;
        };
        if stream.shutdown(Shutdown::Write).is_err() {
            return;
        }
        let mut chunk = [0; READ_SIZE];
        for _ in 0..u64::MAX {
            let is_over = match read_some(stream, &mut chunk) {
                Ok(Some(0)) | Err(_) => true,
                Ok(Some(_)) => self.left(begun, PARTING).is_err(),
                Ok(None) => self.wait_since(begun, PARTING).is_err(),
            };
            if is_over {
                return;
            }
        }
    }

    // Tells the client why its connection ends, in a Close frame, and ends it.
    fn close(&mut self, code: CloseCode, reason: &'static str) {
        if self.write_out(None).is_err() {
            return;
        }
        let Stage::Open(socket) = &mut self.stage else {
            return;
        };
        let frame = CloseFrame {
            code,
            reason: Utf8Bytes::from_static(reason),
        };
        let is_sent = match has_left(socket.close(Some(frame))) {
            Ok(true) => true,
            Ok(false) => self.flush().is_ok(),
            Err(_) => false,
        };
        if !is_sent {
            return;
        }
        if let Some(mut stream) = mem::replace(&mut self.stage, Stage::Over).into_stream() {
            self.part(&mut stream);
        }
    }

    // What the socket gives now, and None where it has nothing.
    fn read(&mut self) -> Option<Next> {
        if let Some(message) = self.kept.take() {
            return Some(self.answer(message));
        }
        if !self.is_ready {
            return None;
        }
        match self.read_message() {
            Ok(message) => self.take(message),
            Err(end) => self.judge(end),
        }
    }

    // The next message. First the reply to the last one leaves, so that a client that asks for replies and doesn't read them can't fill
    // the memory.
    fn read_message(&mut self) -> Result<Incoming, SocketEnd> {
        let Stage::Open(socket) = &mut self.stage else {
            return Err(SocketEnd::Failed);
        };
        if let Err(error) = socket.flush() {
            return Err(SocketEnd::of(error));
        }
        match socket.read() {
            Ok(message) => Ok(Incoming { message }),
            Err(error) => Err(SocketEnd::of(error)),
        }
    }

    // What comes of a message. A reply of the protocol leaves behind all that is to be sent.
    fn take(&mut self, message: Incoming) -> Option<Next> {
        match message.kind() {
            Kind::Plain => Some(self.answer(message)),
            Kind::Ping => Some(self.answer_ping()),
            Kind::Close => self.answer_close(),
        }
    }

    fn answer_ping(&mut self) -> Next {
        match self.write_out(None) {
            Ok(()) => Next::Quiet,
            Err(_) => Next::Failed,
        }
    }

    // A close is answered and completed at once, if the socket has room.
    fn answer_close(&mut self) -> Option<Next> {
        if self.write_out(None).is_err() {
            return Some(Next::Failed);
        }
        match self.read_message() {
            Ok(message) => Some(self.answer(message)),
            Err(end) => self.judge(end),
        }
    }

    // What comes of a read that gave no message: None where the socket has nothing.
    fn judge(&mut self, end: SocketEnd) -> Option<Next> {
        match end {
            SocketEnd::Blocked => {
                self.is_ready = false;
                None
            }
            SocketEnd::Closed => Some(Next::End),
            SocketEnd::NoMemory => Some(Next::NoMemory),
            SocketEnd::Breach(code, reason) => {
                self.close(code, reason);
                Some(Next::Failed)
            }
            SocketEnd::Failed => Some(Next::Failed),
        }
    }

    // A message as an answer. Where memory is refused for its bytes it is kept.
    fn answer(&mut self, message: Incoming) -> Next {
        let next = message.answer(self.alloc);
        if let Next::NoMemory = &next {
            self.kept = Some(message);
        }
        next
    }

    // Waits until the socket may be ready, or the bell rings, for so long at most. The socket tells only once of what came, so that is
    // noted until nothing was found.
    fn wait(&mut self, most: Duration) -> Result<(), Failed> {
        if self.seat.wait(most).is_err() {
            return Err(Failed);
        }
        for event in self.seat.events.iter() {
            if event.token() == Token(0) {
                self.is_ready = true;
            }
        }
        Ok(())
    }

    // How much of so many milliseconds is left since this moment. Where nothing is it fails.
    fn left(&self, begun: Instant, most: u64) -> Result<Duration, Failed> {
        let passed = self.passed(begun)?;
        let left = Duration::from_millis(most).saturating_sub(passed);
        if left.is_zero() {
            return Err(Failed);
        }
        Ok(left)
    }

    /// Waits for what began at this moment and may take so many milliseconds. Where its time is up it fails.
    pub(crate) fn wait_since(&mut self, begun: Instant, most: u64) -> Result<(), Failed> {
        let left = self.left(begun, most)?;
        self.wait(left.min(Duration::from_millis(POLL)))
    }
}
