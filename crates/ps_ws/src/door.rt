//! Where connections over WebSocket come from.
ghost use Rattle.std.specs.Prelude.{◌≡◌, true, false, not, IfOk, IfSome, OnOk, OnErr, IsErr, IsNone};
ghost use Rattle.ps_outside.specs.Counts.{CountsErr, one_more};
ghost use Rattle.ps_outside.specs.Doors.{given_after, HasAcceptCause};
ghost use Rattle.ps_ws.specs.Sockets.{new_socket};

use crate::bells::Bells;
use crate::link::WsLink;
use crate::settings::Settings;
use crate::wire::{Seat, Wire};
use ps_outside::Failed;
use ps_outside::door::{Door, DoorEnd};
use std::alloc::{AllocError, Global};
use std::io::ErrorKind;
use std::marker::Model;
use std::net::{Net, TcpListener, TcpStream, ToSocketAddrs};
use std::sync::{Arc, Wait};
use std::time::Duration;
use std::{io, rt, thread};

// How long a door that may be stopped waits for a client before it looks again, in milliseconds.
const IDLE: u64 = 10_000;

// How long it waits where there is no descriptor or no memory for a client, in milliseconds.
const PAUSE: u64 = 100;

// What Linux answers where all descriptors are taken, of the process (EMFILE) and of the host (ENFILE), and where it has no buffers
// (ENOBUFS), no memory (ENOMEM), or nothing to wait by (ENOSPC of epoll).
const LACKS: [i32; 5] = [24, 23, 105, 12, 28];

// Listens at the first of these addresses that can be had. As many clients may wait for an `accept` as the host lets wait: mio asks
// for the longest queue, and std for one of 128.
fn listen<N: Net>(net: &N, address: &str) -> io::Result<TcpListener> {
    let mut last = io::Error::from(ErrorKind::InvalidInput);
    for address in address.to_socket_addrs(net)? {
        match mio::net::TcpListener::bind(net, address) {
            Ok(listener) => {
                let listener = TcpListener::from(listener);
                listener.set_nonblocking(false)?;
                return Ok(listener);
            }
            Err(error) => last = error,
        }
    }
    Err(last)
}

// Whether a connection was lost on its way, before it was taken from the queue of those that wait.
fn is_lost(error: &io::Error) -> bool {
    matches!(
        error.kind(),
        ErrorKind::ConnectionAborted | ErrorKind::ConnectionReset | ErrorKind::Interrupted
    )
}

// Waits for a connection. One that is lost on its way is passed over: it is no fault of the door's, and stops nobody.
fn next_stream(listener: &TcpListener) -> io::Result<TcpStream> {
    for _ in 0..u64::MAX {
        match listener.accept() {
            Ok((stream, _address)) => return Ok(stream),
            Err(error) => {
                if !is_lost(&error) {
                    return Err(error);
                }
            }
        }
    }
    Err(io::Error::from(ErrorKind::ConnectionAborted))
}

// Whether there is no descriptor, buffer or memory left, which others may give back.
fn is_lack(error: &io::Error) -> bool {
    match error.raw_os_error() {
        None => error.kind() == ErrorKind::OutOfMemory,
        Some(number) => LACKS.contains(&number),
    }
}

// What a door waits by that may be stopped.
struct Watch {
    own: Seat,
    // What the next link is to wait by: it is made before the host is asked for a connection, so that none is let in for which there
    // are no descriptors.
    next: Option<Seat>,
}

// By hand, so that whoever drops one has one step of its proof for that.
impl Drop for Watch {
    fn drop(self) {
        let Watch { own: _, next: _ } = self;
    }
}

impl Watch {
    // Waits by these bells, too.
    fn over<R: Net + Wait>(
        host: &R,
        alloc: Global,
        bells: &Bells,
        listener: TcpListener,
    ) -> io::Result<(Watch, TcpListener)> {
        let own = Seat::new(host, alloc)?;
        listener.set_nonblocking(true)?;
        let mut listener = mio::net::TcpListener::from_std(listener);
        own.watch(&mut listener)?;
        bells.hang_at_door(host, own.bell()?);
        let watch = Watch { own, next: None };
        Ok((watch, TcpListener::from(listener)))
    }

    // A connection that waits, and what its link is to wait by.
    fn try_next<N: Net>(
        &mut self,
        net: &N,
        alloc: Global,
        listener: &TcpListener,
    ) -> io::Result<(Seat, TcpStream)> {
        let seat = match self.next.take() {
            Some(seat) => seat,
            None => Seat::new(net, alloc)?,
        };
        match listener.accept() {
            Ok((stream, _address)) => Ok((seat, stream)),
            Err(error) => {
                self.next = Some(seat);
                Err(error)
            }
        }
    }

    // Waits for what there wasn't, or answers the error where that is of no use.
    fn bide<R: rt::Clock>(&mut self, host: &R, error: io::Error) -> io::Result<()> {
        if error.kind() == ErrorKind::WouldBlock {
            return self.own.wait(Duration::from_millis(IDLE));
        }
        if is_lack(&error) {
            thread::sleep(host, Duration::from_millis(PAUSE));
            return Ok(());
        }
        if is_lost(&error) {
            return Ok(());
        }
        Err(error)
    }
}

/// Stops a door, from any thread.
pub struct Stopper<R: Wait + Copy> {
    host: R,
    bells: Arc<Bells>,
}

// By hand, as that of a `Watch`.
impl<R: Wait + Copy> Drop for Stopper<R> {
    fn drop(self) {
        let Stopper { host: _, bells: _ } = self;
    }
}

impl<R: Wait + Copy> Stopper<R> {
    /// The door hands out no more links, and each of those that it handed out is at its end as it is next asked for what comes: it
    /// sends what it has, and a Close frame with the code 1001.
    pub fn stop(&self) {
        self.bells.end(&self.host);
    }
}

/// A listening TCP socket, whose connections are WebSocket links.
///
/// The handshake of a link is done by the link's own first call, so a client that is slow to do it
/// holds up nobody else.
///
/// One that is made with settings may be stopped. It waits out a want of descriptors and of memory: where there is none for one more
/// connection, it tries again every 100 milliseconds, and who connects waits in the host's queue.
pub struct WsDoor<R: Net<Listener = TcpListener, Stream = TcpStream> + rt::Clock + Wait + Copy> {
    host: R,
    alloc: Global,
    settings: Settings,
    listener: Option<TcpListener>,
    // By which its links ring for each other: there where it listens, and where it may be stopped.
    bells: Option<Arc<Bells>>,
    // There where it listens and may be stopped.
    watch: Option<Watch>,
    may_stop: bool,
    given: u64,
    faults: u64,
}

// By hand, as that of a `Stopper`.
impl<R: Net<Listener = TcpListener, Stream = TcpStream> + rt::Clock + Wait + Copy> Drop
    for WsDoor<R> {
    fn drop(self) {
        let WsDoor {
            host: _,
            alloc: _,
            settings: _,
            listener: _,
            bells: _,
            watch: _,
            may_stop: _,
            given: _,
            faults: _,
        } = self;
    }
}

impl<R: Net<Listener = TcpListener, Stream = TcpStream> + rt::Clock + Wait + Copy> Model
    for WsDoor<R> {
    ghost use Rattle.ps_ws.specs.Sockets.{DoorState};
    ghost use Rattle.std.specs.Option.{is_some};

    ghost Value = { DoorState };

    ghost view = { λ d. record { listens = is_some d.listener; given = d.given; faults = d.faults } };
}

impl<R: Net<Listener = TcpListener, Stream = TcpStream> + rt::Clock + Wait + Copy> WsDoor<R> {
    /// A door that isn't open. Takes no memory.
    pub fn new(host: R, alloc: Global) -> WsDoor<R>
        ensures { result ≡ record { listens = false; given = 0; faults = 0 } }
    {
        WsDoor {
            host,
            alloc,
            settings: Settings::NONE,
            listener: None,
            bells: None,
            watch: None,
            may_stop: false,
            given: 0,
            faults: 0,
        }
    }

    /// A door that isn't open, whose links have these settings, and which may be stopped.
    pub fn with_settings(
        host: R,
        alloc: Global,
        settings: Settings,
    ) -> Result<WsDoor<R>, AllocError>
        ensures { IfOk result (λ door. door ≡ record { listens = false; given = 0; faults = 0 }) }
    {
        let bells = Arc::new(alloc, Bells::new(alloc))?;
        Ok(WsDoor {
            host,
            alloc,
            settings,
            listener: None,
            bells: Some(bells),
            watch: None,
            may_stop: true,
            given: 0,
            faults: 0,
        })
    }

    /// What stops it. `None` where it may not be stopped, or memory is refused.
    pub fn stopper(&self) -> Option<Stopper<R>> {
        if !self.may_stop {
            return None;
        }
        let bells = self.bells.as_ref()?;
        match bells.clone() {
            Ok(bells) => Some(Stopper {
                host: self.host,
                bells,
            }),
            Err(_) => None,
        }
    }

    /// Tells its links to end, and hands out no more of them, as a [`Stopper`] does. A door that may not be stopped goes on.
    pub fn stop(&mut self)
        ensures { self.new ≡ self.old }
    {
        if let Some(stopper) = self.stopper() {
            stopper.stop();
        }
    }

    /// The port at which it listens, where it is open and the host tells it. An address with the
    /// port 0 lets the host choose one.
    pub fn port(&self) -> Option<u16>
        ensures shut { self.now.listens ≡ false → IsNone result }
    {
        match self.listener.as_ref()?.local_addr() {
            Ok(address) => Some(address.port()),
            Err(_) => None,
        }
    }

    // Its bells. Those of a door that may be stopped are there from the begin.
    fn bells(&self) -> Result<Arc<Bells>, AllocError> {
        match &self.bells {
            Some(bells) if self.may_stop => bells.clone(),
            _ => Ok(Arc::new(self.alloc, Bells::new(self.alloc))?),
        }
    }

    // Listens at an address.
    fn listen(&self, address: &str) -> io::Result<(TcpListener, Arc<Bells>, Option<Watch>)> {
        let bells = self.bells()?;
        let listener = listen(&self.host, address)?;
        if !self.may_stop {
            return Ok((listener, bells, None));
        }
        let (watch, listener) = Watch::over(&self.host, self.alloc, &*bells, listener)?;
        Ok((listener, bells, Some(watch)))
    }

    // A link over a connection.
    fn link_over(&self, bells: &Arc<Bells>, seat: Seat, stream: TcpStream) -> io::Result<WsLink<R>>
        ensures fresh { IfOk result (λ link. link ≡ new_socket) }
    {
        let bells = bells.clone()?;
        // Short texts leave at once. Where the host refuses this they come late, and no more.
        let _ = stream.set_nodelay(true);
        let wire = Wire::open(self.host, self.alloc, self.settings, bells, seat, stream)?;
        Ok(WsLink::over(wire))
    }

    // Waits for a connection, and makes a link of it. A door that isn't open fails.
    fn next_link(&self) -> io::Result<WsLink<R>>
        ensures fresh { IfOk result (λ link. link ≡ new_socket) }
        ensures shut { self.now.listens ≡ false → IsErr result }
    {
        let (Some(listener), Some(bells)) = (&self.listener, &self.bells) else {
            return Err(io::Error::from(ErrorKind::NotConnected));
        };
        let stream = next_stream(listener)?;
        let seat = Seat::new(&self.host, self.alloc)?;
        self.link_over(bells, seat, stream)
    }

    // Makes a link of a connection that waits.
    fn try_next(
        &self,
        watch: &mut Watch,
        listener: &TcpListener,
        bells: &Arc<Bells>,
    ) -> io::Result<WsLink<R>>
        ensures fresh { IfOk result (λ link. link ≡ new_socket) }
    {
        let (seat, stream) = watch.try_next(&self.host, self.alloc, listener)?;
        self.link_over(bells, seat, stream)
    }

    // Waits for a connection by what it waits by, and makes a link of it; or none, where it is stopped.
    fn next_with(&self, watch: &mut Watch) -> io::Result<Option<WsLink<R>>>
        ensures fresh { IfOk result (λ next. IfSome next (λ link. link ≡ new_socket)) }
        ensures shut { self.now.listens ≡ false → IsErr result }
    {
        let (Some(listener), Some(bells)) = (&self.listener, &self.bells) else {
            return Err(io::Error::from(ErrorKind::NotConnected));
        };
        for _ in 0..u64::MAX {
            if bells.are_over() {
                return Ok(None);
            }
            match self.try_next(watch, listener, bells) {
                Ok(link) => return Ok(Some(link)),
                Err(error) => watch.bide(&self.host, error)?,
            }
        }
        Ok(None)
    }

    // Waits for a connection, and makes a link of it; or none, where it is stopped.
    fn next_or_stop(&mut self) -> io::Result<Option<WsLink<R>>>
        ensures fresh { IfOk result (λ next. IfSome next (λ link. link ≡ new_socket)) }
        ensures shut { self.old.listens ≡ false → IsErr result }
        ensures same { self.new ≡ self.old }
    {
        let Some(mut watch) = self.watch.take() else {
            return Err(io::Error::from(ErrorKind::NotConnected));
        };
        let next = self.next_with(&mut watch);
        self.watch = Some(watch);
        next
    }

    /// The next link; none, where it was stopped. A door that isn't open fails, and so does one that may not be stopped.
    pub fn accept_or_stop(&mut self) -> Result<Option<WsLink<R>>, DoorEnd>
        ensures cause { HasAcceptCause self.old.faults self.new.faults result }
        ensures given { IfOk result (λ next. IfSome next (λ _. self.new.given ≡ one_more self.old.given)) }
        ensures not_given { OnErr result (self.new.given ≡ self.old.given) }
        ensures stopped { IfOk result (λ next. IsNone next → self.new.given ≡ self.old.given) }
        ensures fresh { IfOk result (λ next. IfSome next (λ link. link ≡ new_socket)) }
        ensures shut { self.old.listens ≡ false → IsErr result }
        ensures same { self.new.listens ≡ self.old.listens }
    {
        match self.next_or_stop() {
            Ok(Some(link)) => {
                self.given = self.given.saturating_add(1);
                Ok(Some(link))
            }
            Ok(None) => Ok(None),
            Err(error) => self.fail(&error),
        }
    }

    // Counts a fault, unless memory was refused.
    fn fail<T>(&mut self, error: &io::Error) -> Result<T, DoorEnd>
        ensures cause { HasAcceptCause self.old.faults self.new.faults result }
        ensures err { IsErr result }
        ensures count { self.new.given ≡ given_after result self.old.given }
        ensures given { self.new.given ≡ self.old.given }
        ensures same { self.new.listens ≡ self.old.listens }
    {
        if error.kind() == ErrorKind::OutOfMemory {
            return Err(DoorEnd::NoMemory);
        }
        self.faults = self.faults.saturating_add(1);
        Err(DoorEnd::Failed)
    }
}

impl<R: Net<Listener = TcpListener, Stream = TcpStream> + rt::Clock + Wait + Copy> Door
    for WsDoor<R> {
    type Link = WsLink<R>;

    ghost faults = { λ d. d.faults };

    ghost given = { λ d. d.given };

    ghost is_shut = { λ d. not d.listens };

    /// Binds a TCP listener: the address is an IP address or a host's name, and a port. Where that
    /// fails the door is as open as it was. As many clients may wait at the door as the host lets wait
    /// (`net.core.somaxconn` of Linux).
    fn open(&mut self, address: &str) -> Result<(), Failed>
        ensures count { self.new.given ≡ self.old.given }
        ensures cause { CountsErr self.old.faults self.new.faults result }
        ensures opens { OnOk result (self.new.listens ≡ true) }
        ensures same { OnErr result (self.new.listens ≡ self.old.listens) }
    {
        match self.listen(address) {
            Ok((listener, bells, watch)) => {
                self.listener = Some(listener);
                self.bells = Some(bells);
                self.watch = watch;
                Ok(())
            }
            Err(_) => {
                self.faults = self.faults.saturating_add(1);
                Err(Failed)
            }
        }
    }

    /// Waits for a connection. The link has counted nothing yet. A door that isn't open fails, and so does one that was stopped.
    fn accept(&mut self) -> Result<WsLink<R>, DoorEnd>
        ensures count { self.new.given ≡ given_after result self.old.given }
        ensures cause { HasAcceptCause self.old.faults self.new.faults result }
        ensures fresh { IfOk result (λ link. link ≡ new_socket) }
        ensures shut { self.old.listens ≡ false → IsErr result }
        ensures same { self.new.listens ≡ self.old.listens }
    {
        if self.may_stop {
            return match self.accept_or_stop() {
                Ok(Some(link)) => Ok(link),
                Ok(None) => self.fail(&io::Error::from(ErrorKind::ConnectionAborted)),
                Err(end) => Err(end),
            };
        }
        match self.next_link() {
            Ok(link) => {
                self.given = self.given.saturating_add(1);
                Ok(link)
            }
            Err(error) => self.fail(&error),
        }
    }

    /// Lets its socket go: the host refuses who waited for an `accept`, and who connects from now on.
    fn close(&mut self)
        ensures { self.new ≡ record self.old { listens = false } }
    {
        self.listener = None;
    }
}
