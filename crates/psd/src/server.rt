//! Servers over the sockets of the host.

use crate::door::PrintingDoor;
use crate::random::fresh;
use program_commands::status::Status;
use ps_outside::host_clock::HostClock;
use ps_outside::host_files::HostFiles;
use ps_outside::spawner::{ThreadSpawner, start};
use ps_ws::door::Stopper;
use ps_ws::settings::Settings;
use rules_config::fresh::Fresh;
use server_accept::always::serve_always;
use server_accept::always_words::read_always_words;
use server_accept::serve::serve;
use std::alloc::Global;
use std::io::{Eprint, Read};
use std::net::{Net, TcpListener, TcpStream};
use std::rt;
use std::sync::Wait;
use std::thread::Threads;

/// Serves so many connections as the words say.
pub(crate) fn serve_status<R>(host: R, alloc: Global, words: &[String]) -> Status
where
    R: Threads + Wait + rt::Files + rt::Clock + Eprint + Copy + Send + Drop + 'static,
    R: Net<Listener = TcpListener, Stream = TcpStream>,
{
    let mut files = HostFiles::new(&host);
    let mut door = PrintingDoor::new(host, alloc);
    let mut clock = HostClock::new(host);
    let mut spawner = ThreadSpawner::new();
    serve(
        host,
        alloc,
        words,
        &mut files,
        &mut door,
        &mut clock,
        &mut spawner,
    )
    .into_status()
}

// Reads the input to its end, or to where it can't be read, and then stops the door.
fn stop_at_end<I: Read + Drop, R: Wait + Copy>(input: I, stopper: Stopper<R>) {
    let mut input = input;
    let mut bytes = [0; 1024];
    for _ in 0..u64::MAX {
        if matches!(input.read(&mut bytes), Ok(0) | Err(_)) {
            stopper.stop();
            return;
        }
    }
}

// Reads the input in a thread of its own, which is left behind as the program ends, and tells whether memory and the host's threads
// lasted for that.
fn watch<R, I>(host: R, input: I, door: &PrintingDoor<R>) -> bool
where
    R: Threads + Wait + rt::Clock + Copy + Send + Drop + 'static,
    R: Net<Listener = TcpListener, Stream = TcpStream>,
    I: Read + Send + Drop + 'static,
{
    let Some(stopper) = door.stopper() else {
        return false;
    };
    let job = move || {
        let input = input;
        let stopper = stopper;
        stop_at_end(input, stopper);
    };
    let mut spawner = ThreadSpawner::new();
    start(&host, &mut spawner, job).is_ok()
}

// Serves as the words say.
fn always_through<R>(
    host: R,
    alloc: Global,
    words: &[String],
    fresh: &Fresh,
    door: &mut PrintingDoor<R>,
) -> Status
where
    R: Threads + Wait + rt::Files + rt::Clock + Eprint + Copy + Send + Drop + 'static,
    R: Net<Listener = TcpListener, Stream = TcpStream>,
{
    let mut files = HostFiles::new(&host);
    let mut clock = HostClock::new(host);
    let mut spawner = ThreadSpawner::new();
    serve_always(
        host,
        alloc,
        words,
        fresh,
        &mut files,
        door,
        &mut clock,
        &mut spawner,
    )
}

/// Serves for as long as its door lets it, and, where the words want that, until the input is at its end. A nonce and a seed that the
/// configuration doesn't say are drawn from the host's source first, which is asked in any case: without it nothing is served.
pub(crate) fn always_status<R, I>(host: R, alloc: Global, words: &[String], input: I) -> Status
where
    R: Threads + Wait + rt::Files + rt::Clock + Eprint + Copy + Send + Drop + 'static,
    R: Net<Listener = TcpListener, Stream = TcpStream>,
    I: Read + Send + Drop + 'static,
{
    let asked = match read_always_words(words) {
        Err(word) => return Status::Usage { word },
        Ok(asked) => asked,
    };
    let fresh = match fresh(&host, alloc) {
        Err(status) => return status,
        Ok(fresh) => fresh,
    };
    let settings = Settings {
        ping: Some(asked.ping),
        rate: asked.rate,
    };
    let Ok(mut door) = PrintingDoor::with_settings(host, alloc, settings, asked.logs) else {
        return Status::NoMemory;
    };
    if asked.stops_at_end && !watch(host, input, &door) {
        return Status::NoMemory;
    }
    always_through(host, alloc, words, &fresh, &mut door)
}
