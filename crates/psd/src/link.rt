//! A connection that tells the operator what happens.

use ps_base::msg::Msg;
use ps_outside::link::{CloseCause, Link, News, Next, SendEnd};
use ps_ws::link::WsLink;
use std::io::Eprint;
use std::rt;
use std::sync::Wait;

// How a link answered last, as far as that ends its session.
#[derive(Clone, Copy)]
enum Last {
    // It goes on.
    Going,
    // The client has closed, or the server goes down.
    Closed,
    // It has failed.
    Failed,
}

/// A connection over WebSocket, with the number that it has from its door. Where it logs, each thing that the operator may want to know
/// is one line on standard error, of what everybody may know: no text, whisper, team or choice.
pub(crate) struct LogLink<R: rt::Clock + Wait + Eprint + Copy> {
    host: R,
    link: WsLink<R>,
    number: u64,
    logs: bool,
    last: Last,
}

// By hand, so that who drops one has one call to prove.
impl<R: rt::Clock + Wait + Eprint + Copy> Drop for LogLink<R> {
    fn drop(self) {
        let LogLink {
            host: _,
            link: _,
            number: _,
            logs: _,
            last: _,
        } = self;
    }
}

// The name of a cause.
fn name_of(cause: CloseCause) -> &'static str {
    match cause {
        CloseCause::TooLong => "TooLong",
        CloseCause::NotUtf8 => "NotUtf8",
        CloseCause::Limit => "Limit",
        CloseCause::NoMemory => "NoMemory",
    }
}

// Why a connection ends that the server has no cause to end.
fn name_of_last(last: Last) -> &'static str {
    match last {
        Last::Going => "Taken",
        Last::Closed => "Closed",
        Last::Failed => "LinkFault",
    }
}

// Who won a battle.
fn name_of_winner(winner: Option<u8>) -> &'static str {
    match winner {
        None => "none",
        Some(0) => "p1",
        Some(_) => "p2",
    }
}

impl<R: rt::Clock + Wait + Eprint + Copy> LogLink<R> {
    /// A link with its number.
    pub(crate) fn new(host: R, link: WsLink<R>, number: u64, logs: bool) -> LogLink<R> {
        if logs {
            let _ = eprintln!(host; "psd: opened conn={number}");
        }
        LogLink {
            host,
            link,
            number,
            logs,
            last: Last::Going,
        }
    }

    // One line of what happened.
    fn log(&self, news: News<'_>) {
        let conn = self.number;
        let _ = match news {
            News::Named { name } => eprintln!(self.host; "psd: named conn={conn} name={name}"),
            News::Began { number } => {
                eprintln!(self.host; "psd: began conn={conn} battle={number}")
            }
            News::Ended { number, winner } => {
                eprintln!(self.host;
                    "psd: ended conn={conn} battle={number} winner={}",
                    name_of_winner(winner)
                )
            }
            News::Moderated {
                room,
                act,
                user: Some(user),
            } => {
                eprintln!(self.host; "psd: moderated conn={conn} room={room} act={act} user={user}")
            }
            News::Moderated {
                room,
                act,
                user: None,
            } => eprintln!(self.host; "psd: moderated conn={conn} room={room} act={act}"),
        };
    }
}

impl<R: rt::Clock + Wait + Eprint + Copy> Link for LogLink<R> {
    ghost use Rattle.std.specs.Prelude.{None};

    ghost talk = { λ _. None };

    ghost counts = { λ l. l.link.counts };

    fn next(&mut self) -> Next {
        let next = self.link.next();
        match &next {
            Next::End => self.last = Last::Closed,
            Next::Failed => self.last = Last::Failed,
            _ => {}
        }
        next
    }

    fn send(&mut self, text: &str) -> Result<(), SendEnd> {
        let sent = self.link.send(text);
        if let Err(SendEnd::Failed) = &sent {
            self.last = Last::Failed;
        }
        sent
    }

    fn send_message(&mut self, room: Option<&str>, msg: &Msg) -> Result<(), SendEnd> {
        let sent = self.link.send_message(room, msg);
        if let Err(SendEnd::Failed) = &sent {
            self.last = Last::Failed;
        }
        sent
    }

    fn attend(&mut self, room: u32, attends: bool) {
        self.link.attend(room, attends);
    }

    fn ring(&mut self, place: Option<u32>) {
        self.link.ring(place);
    }

    fn report(&mut self, news: News<'_>) {
        if self.logs {
            self.log(news);
        }
    }

    fn close(&mut self, cause: Option<CloseCause>) {
        self.link.close(cause);
        if self.logs {
            let cause = match cause {
                Some(cause) => name_of(cause),
                None => name_of_last(self.last),
            };
            let _ = eprintln!(self.host; "psd: closed conn={} cause={cause}", self.number);
        }
    }
}
