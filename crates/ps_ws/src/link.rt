//! A connection over WebSocket.
ghost use Rattle.std.specs.Prelude.{◌≡◌, Option, Some, None};
ghost use Rattle.std.specs.Option.{option_copied};
ghost use Rattle.ps_base.specs.Messages.{text_of};
ghost use Rattle.ps_outside.specs.Links.{IsNext, after_next, after_send, HasNextCause, HasSendCause};

use crate::wire::Wire;
use ps_base::msg::Msg;
use ps_outside::link::{CloseCause, Link, News, Next, SendEnd};
use std::marker::Model;
use std::rt;
use std::sync::Wait;

/// The most bytes of a message, and of a frame, that a link takes. It is above the 8,192 bytes that
/// a client's text may have, so that a longer text comes whole to who answers that it is too long.
pub const MESSAGE_LIMIT: usize = 65_536;

/// How a link has ended. Nothing is read and nothing sent any more.
#[derive(Clone, Copy, Debug, PartialEq, Eq)]
pub enum Ending {
    /// Both sides have said that they close, or its door was stopped, and this side has said so.
    Closed,
    /// The client broke the protocol or was too slow, the connection was lost, or this side ended it.
    Broken,
}

/// The server's side of one WebSocket connection (RFC 6455), which tells nothing ahead.
///
/// - The first call does the handshake, for 10 seconds at most, and answers Quiet at once. The frames that come right behind the
///   request are taken.
/// - A request that is no handshake is answered by HTTP, and then the link has failed: 405 where its method isn't GET, 426 where its
///   version isn't 13, 431 where its head has over 65,536 bytes, over 124 fields or comes in over 1,024 reads, and 400 where it is
///   malformed or of HTTP/1.0, has a body, or where Host, Upgrade, Connection or the key are missing, wrong or there twice.
/// - A text message and a binary message are each a Text of its bytes, whole, of at most
///   [`MESSAGE_LIMIT`] bytes.
/// - Quiet comes where nothing has come within 10 seconds, soon after another link of its door rang at a place that this one attends,
///   and at each ping and pong. A ping is answered. Where memory was refused for its bell, Quiet comes after 50 milliseconds.
/// - End comes where both sides have said that they close, and from then on; and where its door was stopped: what was to be sent has
///   left, with a Close frame of the code 1001. One that is in its handshake then has failed.
/// - Failed comes at all else, and from then on: at a message over the limit, text that isn't UTF-8,
///   anything that the protocol forbids, and a connection that ends without a close. For the first three the client is sent a Close
///   frame before, with a reason and the code 1009, 1007 or 1002 (RFC 6455 7.4.1), for which its socket has 10 seconds.
/// - Where its door has settings that say so ([`crate::settings::Settings`]): a client that was silent is pinged, which comes as Quiet,
///   and after twice that silence the link has failed. Anything whole that comes ends a silence. Of a client that says more than it
///   may no more is read until it may again: what it said stays in the socket.
/// - Who was told why the connection ends has a second to end it, too, and then it is let go.
/// - A text leaves before the link waits for its client, after 16 messages of its client, or as 16,384 bytes wait to be sent, within 10
///   seconds, or that call is Failed. So does a ring. A message's text is never made: its lines are copied to what waits to be sent, and
///   of a message with over 16,384 bytes that leaves in between.
/// - A close for a cause is a Close frame: 1009 and 1007 for a text that is too long or isn't UTF-8, 1008 at a limit, and 1011 if out
///   of memory.
pub struct WsLink<R: rt::Clock + Wait + Copy> {
    wire: Wire<R>,
    ended: Option<Ending>,
    faults: u64,
    quiets: u64,
    ends: u64,
}

// By hand, so that whoever drops one has one step of its proof for that.
impl<R: rt::Clock + Wait + Copy> Drop for WsLink<R> {
    fn drop(self) {
        let WsLink {
            wire: _,
            ended: _,
            faults: _,
            quiets: _,
            ends: _,
        } = self;
    }
}

impl<R: rt::Clock + Wait + Copy> Model for WsLink<R> {
    ghost use Rattle.ps_ws.specs.Sockets.{SocketState};

    ghost Value = { SocketState };

    ghost view = { λ l. record { counts = record { faults = l.faults; quiets = l.quiets; ends = l.ends }; ended = l.ended } };
}

impl<R: rt::Clock + Wait + Copy> WsLink<R> {
    ghost use Rattle.ps_ws.specs.Sockets.{new_socket, first_ending, ended_after_send};

    // A link over a wire.
    pub(crate) fn over(wire: Wire<R>) -> WsLink<R>
        ensures { result ≡ new_socket }
    {
        WsLink {
            wire,
            ended: None,
            faults: 0,
            quiets: 0,
            ends: 0,
        }
    }

    // What came of a send: where it failed the link has ended, and that is counted.
    fn count(&mut self, sent: Result<(), SendEnd>) -> Result<(), SendEnd>
        ensures same { result ≡ sent }
        ensures cause { HasSendCause self.old.counts self.new.counts result }
        ensures ended { self.new.ended ≡ ended_after_send result self.old.ended }
    {
        match sent {
            Ok(()) => Ok(()),
            Err(SendEnd::NoMemory) => Err(SendEnd::NoMemory),
            Err(SendEnd::Failed) => {
                self.end(Ending::Broken);
                self.faults = self.faults.saturating_add(1);
                Err(SendEnd::Failed)
            }
        }
    }

    // Lets the socket go. What has ended ends no other way.
    fn end(&mut self, ending: Ending)
        ensures { self.new ≡ record self.old { ended = first_ending self.old.ended ending } }
    {
        self.wire.shut();
        if self.ended.is_none() {
            self.ended = Some(ending);
        }
    }
}

impl<R: rt::Clock + Wait + Copy> Link for WsLink<R> {
    ghost use Rattle.ps_ws.specs.Sockets.{first_ending, ended_after, ended_after_send, IsStillEnded, SendsNothing};
    ghost use Rattle.ps_ws.specs.declared.link.Ending.TheVariants.{Broken};

    ghost talk = { λ _. None };

    ghost counts = { λ l. l.counts };

    /// Where memory was refused nothing is skipped: the next call goes on, or the link has failed.
    fn next(&mut self) -> Next
        ensures known { None ≡ after_next result None }
        ensures front { IsNext None result }
        ensures cause { HasNextCause self.old.counts self.new.counts result }
        ensures ended { self.new.ended ≡ ended_after result self.old.ended }
        ensures still { IsStillEnded self.old.ended result }
    {
        let next = match self.ended {
            None => self.wire.next(),
            Some(Ending::Closed) => Next::End,
            Some(Ending::Broken) => Next::Failed,
        };
        match next {
            Next::Text(bytes) => Next::Text(bytes),
            Next::Quiet => {
                self.quiets = self.quiets.saturating_add(1);
                Next::Quiet
            }
            Next::End => {
                self.end(Ending::Closed);
                self.ends = self.ends.saturating_add(1);
                Next::End
            }
            Next::Failed => {
                self.end(Ending::Broken);
                self.faults = self.faults.saturating_add(1);
                Next::Failed
            }
            Next::NoMemory => Next::NoMemory,
        }
    }

    fn send(&mut self, text: &str) -> Result<(), SendEnd>
        ensures known { None ≡ after_send result text.now None }
        ensures cause { HasSendCause self.old.counts self.new.counts result }
        ensures ended { self.new.ended ≡ ended_after_send result self.old.ended }
        ensures still { SendsNothing self.old.ended result }
    {
        let sent = match self.ended {
            None => self.wire.send(text),
            Some(_) => Err(SendEnd::Failed),
        };
        self.count(sent)
    }

    fn send_message(&mut self, room: Option<&str>, msg: &Msg) -> Result<(), SendEnd>
        ensures known { None ≡ after_send result (text_of (option_copied room.entry) msg.now) None }
        ensures cause { HasSendCause self.old.counts self.new.counts result }
        ensures ended { self.new.ended ≡ ended_after_send result self.old.ended }
        ensures still { SendsNothing self.old.ended result }
    {
        let sent = match self.ended {
            None => self.wire.send_message(room, msg),
            Some(_) => Err(SendEnd::Failed),
        };
        self.count(sent)
    }

    fn attend(&mut self, room: u32, attends: bool)
        ensures same { self.new ≡ self.old }
    {
        self.wire.attend(room, attends);
    }

    fn ring(&mut self, place: Option<u32>)
        ensures same { self.new ≡ self.old }
    {
        self.wire.ring(place);
    }

    /// It leaves this be: a link that stands around it may tell of it.
    fn report(&mut self, _news: News<'_>)
        ensures same { self.new ≡ self.old }
    {}

    /// What has ended sends no Close frame.
    fn close(&mut self, cause: Option<CloseCause>)
        ensures counts { self.new.counts ≡ self.old.counts }
        ensures ended { self.new.ended ≡ first_ending self.old.ended Broken }
    {
        let cause = match self.ended {
            None => cause,
            Some(_) => None,
        };
        self.wire.end(cause);
        self.end(Ending::Broken);
    }
}
