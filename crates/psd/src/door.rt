//! The door of a server, which prints where it listens.
ghost use Rattle.std.specs.Prelude.{◌≡◌};

use crate::link::LogLink;
use ps_outside::Failed;
use ps_outside::door::{Door, DoorEnd};
use ps_ws::door::{Stopper, WsDoor};
use ps_ws::link::WsLink;
use ps_ws::settings::Settings;
use server_accept::always::AlwaysDoor;
use std::alloc::{AllocError, Global};
use std::io::Eprint;
use std::net::{Net, TcpListener, TcpStream};
use std::rt;
use std::sync::Wait;

/// A door over WebSocket. Once it listens it prints one line on standard error, `listening on ADDRESS:PORT`: the address as it
/// was given, with the port that the host chose where that was 0. Its links have the numbers from 1, and log where it does.
#[derive(Drop)]
pub(crate) struct PrintingDoor<
    R: Net<Listener = TcpListener, Stream = TcpStream> + rt::Clock + Wait + Copy,
> {
    host: R,
    door: WsDoor<R>,
    logs: bool,
    // How many links it has handed out.
    handed_out: u64,
}

impl<R: Net<Listener = TcpListener, Stream = TcpStream> + rt::Clock + Wait + Copy> PrintingDoor<R> {
    /// A door that isn't open, and doesn't log. Takes no memory.
    pub(crate) fn new(host: R, alloc: Global) -> PrintingDoor<R> {
        PrintingDoor {
            host,
            door: WsDoor::new(host, alloc),
            logs: false,
            handed_out: 0,
        }
    }

    /// A door that isn't open, whose links have these settings, and which may be stopped.
    pub(crate) fn with_settings(
        host: R,
        alloc: Global,
        settings: Settings,
        logs: bool,
    ) -> Result<PrintingDoor<R>, AllocError> {
        match WsDoor::with_settings(host, alloc, settings) {
            Ok(door) => Ok(PrintingDoor {
                host,
                door,
                logs,
                handed_out: 0,
            }),
            Err(error) => Err(error),
        }
    }

    /// What stops it. `None` where it may not be stopped, or memory is refused.
    pub(crate) fn stopper(&self) -> Option<Stopper<R>> {
        self.door.stopper()
    }
}

// An address without its port.
fn without_port(address: &str) -> &str {
    match address.rsplit_once(':') {
        None => address,
        Some((host, _port)) => host,
    }
}

impl<
    R: Net<Listener = TcpListener, Stream = TcpStream> + rt::Clock + Wait + Eprint + Copy,
> PrintingDoor<R> {
    // The link that it hands out next.
    fn next_link(&mut self, link: WsLink<R>) -> LogLink<R>
        ensures { self.new.door ≡ self.old.door }
    {
        self.handed_out = self.handed_out.saturating_add(1);
        LogLink::new(self.host, link, self.handed_out, self.logs)
    }
}

impl<R: Net<Listener = TcpListener, Stream = TcpStream> + rt::Clock + Wait + Eprint + Copy> Door
    for PrintingDoor<R> {
    ghost use Rattle.std.specs.Prelude.{not};

    type Link = LogLink<R>;

    ghost faults = { λ d. d.door.faults };

    ghost given = { λ d. d.door.given };

    ghost is_shut = { λ d. not d.door.listens };

    /// Where the line can't be written the door listens all the same.
    fn open(&mut self, address: &str) -> Result<(), Failed> {
        self.door.open(address)?;
        if let Some(port) = self.door.port() {
            let _ = eprintln!(self.host; "listening on {}:{port}", without_port(address));
        }
        Ok(())
    }

    fn accept(&mut self) -> Result<LogLink<R>, DoorEnd> {
        match self.door.accept() {
            Ok(link) => Ok(self.next_link(link)),
            Err(end) => Err(end),
        }
    }

    fn close(&mut self) {
        self.door.close();
    }
}

impl<
    R: Net<Listener = TcpListener, Stream = TcpStream> + rt::Clock + Wait + Eprint + Copy,
> AlwaysDoor for PrintingDoor<R> {
    fn accept_or_stop(&mut self) -> Result<Option<LogLink<R>>, DoorEnd> {
        match self.door.accept_or_stop() {
            Ok(Some(link)) => Ok(Some(self.next_link(link))),
            Ok(None) => Ok(None),
            Err(end) => Err(end),
        }
    }

    fn stop(&mut self) {
        self.door.stop();
    }
}
