//! All that a server does.
ghost use Rattle.std.specs.Prelude.{◌≡◌, ◌≤◌, ℕ, true, [], map, string_bytes, length, None, OnOk, IfOk, IsSome};
ghost use Rattle.ps_outside.specs.Causes.{Rose};
ghost use Rattle.ps_outside.specs.Counts.{one_more};
ghost use Rattle.ps_outside.specs.Doors.{HasAcceptCause};
ghost use Rattle.program_commands.specs.Words.{options_of, serve_words_in};
ghost use Rattle.program_commands.specs.Steps.{dex_in};
ghost use Rattle.program_commands.specs.Setups.{serve_usage_of, usage_reported, Stands};
ghost use Rattle.server_accept.specs.Journals.{AreSessions, AreServed};
ghost use Rattle.server_accept.specs.Servers.{IfServe, given_by, ServeCause, KeepsDoor, SettlesServe, IsOfDoor};

use crate::journal::{Journal, Serving};
use program_commands::config::config_or_standard;
use program_commands::dex::dex_or_none;
use program_commands::status::Status;
use program_commands::words::{ServeWords, read_serve_words};
use ps_base::limit::MOST_TEXT;
use ps_base::number::ConnNo;
use ps_dex::dex::Dex;
use ps_hub::hub::Hub;
use ps_outside::clock::Clock;
use ps_outside::door::{Door, DoorEnd};
use ps_outside::files::Files;
use ps_outside::link::{CloseCause, Link};
use ps_outside::spawner::{Spawner, start};
use ps_serve::closed::{Closed, End};
use ps_serve::session::serve_session;
use rules_config::config::Config;
use std::alloc::{AllocError, Global};
use std::marker::Brand;
use std::sync::{Arc, Wait};
use std::thread::Threads;

/// How a server ended.
#[derive(Drop)]
pub struct Finished {
    /// Its status.
    pub status: Status,
    /// What each session ended with, by the numbers of their connections from 1. No place is empty.
    pub sessions: Vec<Option<Closed>>,
}

impl Finished {
    /// The status alone.
    pub fn into_status(self) -> Status
        ensures { result ≡ self.status }
    {
        self.status
    }
}

/// What the sessions of a server share.
#[derive(Drop)]
pub(crate) struct Shared<S: Serving> {
    hub: Hub,
    pub(crate) journal: Journal<S>,
    ghost hub_is: { hub ≡ S.hub },
}

// The cause of an end that its client is told, where the client is still there.
fn cause_of(end: &End) -> Option<CloseCause> {
    match end {
        End::BadText { bytes } => {
            if bytes.len() > MOST_TEXT {
                Some(CloseCause::TooLong)
            } else {
                Some(CloseCause::NotUtf8)
            }
        }
        End::OwnLimit { .. } => Some(CloseCause::Limit),
        End::NoMemory => Some(CloseCause::NoMemory),
        End::Closed | End::LinkFault | End::Taken => None,
    }
}

// Rings for those who are told of the end of a session, and ends the connection of its link.
fn part<L: Link>(link: &mut L, closed: &Closed) {
    link.ring(None);
    for pass in closed.passes.rooms.as_slice() {
        link.ring(Some(pass.number));
    }
    link.close(cause_of(&closed.end));
}

// The session of a link. Its last step hands in what it ended with.
pub(crate) fn run<S, R, L, C>(
    rt: &R,
    alloc: Global,
    shared: &Shared<S>,
    conn: ConnNo,
    mut link: L,
    mut clock: C,
)
where
    S: Serving,
    R: Wait,
    L: Link + Drop,
    C: Clock + Drop,
{
    let closed = serve_session(alloc, rt, &shared.hub, conn, &mut link, &mut clock);
    part(&mut link, &closed);
    // Its client sees the end of the connection before the server counts it.
    drop(link);
    shared.journal.hand_in(rt, conn, closed);
}

// Begins the session of a link: as a job of the spawner, or here where the job comes back.
fn begin<S, R, L, C, P>(
    rt: R,
    alloc: Global,
    shared: &Arc<Shared<S>>,
    conn: ConnNo,
    link: L,
    clock: &C,
    spawner: &mut P,
) -> Result<(), AllocError>
where
    S: Serving + Send + Sync + 'static,
    R: Threads + Wait + Copy + Send + Drop + 'static,
    L: Link + Send + Drop + 'static,
    C: Clock + Send + Drop + 'static,
    P: Spawner,
{
    let shared = shared.clone()?;
    let clock = clock.another()?;
    let job = move || {
        let link = link;
        let clock = clock;
        run(&rt, alloc, &*shared, conn, link, clock);
    };
    match start(&rt, spawner, job) {
        Ok(()) => {}
        Err(job) => job(),
    }
    Ok(())
}

// Behind the last link nobody is let in, also while its session runs here.
fn close_behind<D: Door>(door: &mut D, is_last: bool)
    ensures given { D.given door.new ≡ D.given door.old }
    ensures faults { D.faults door.new ≡ D.faults door.old }
{
    if is_last {
        door.close();
    }
}

// Accepts a link, and begins its session.
fn accept<S, R, D, C, P>(
    rt: R,
    alloc: Global,
    shared: &Arc<Shared<S>>,
    conn: ConnNo,
    is_last: bool,
    door: &mut D,
    clock: &C,
    spawner: &mut P,
) -> Result<(), DoorEnd>
where
    S: Serving + Send + Sync + 'static,
    R: Threads + Wait + Copy + Send + Drop + 'static,
    D: Door,
    D::Link: Send + Drop + 'static,
    C: Clock + Send + Drop + 'static,
    P: Spawner,
    ensures given { OnOk result (D.given door.new ≡ one_more (D.given door.old)) }
    ensures cause { HasAcceptCause (D.faults door.old) (D.faults door.new) result }
{
    let link = match door.accept() {
        Err(end) => return Err(end),
        Ok(link) => link,
    };
    close_behind(door, is_last);
    match begin(rt, alloc, shared, conn, link, clock, spawner) {
        Err(_) => Err(DoorEnd::NoMemory),
        Ok(()) => Ok(()),
    }
}

// How many links have a session, and the status that their server ends with.
#[derive(Drop)]
pub(crate) struct Begun {
    pub(crate) count: u32,
    pub(crate) status: Status,
}

// Gives so many links a session each; or fewer, where there was no further link.
fn let_in<S, R, D, C, P>(
    rt: R,
    alloc: Global,
    shared: &Arc<Shared<S>>,
    count: u32,
    door: &mut D,
    clock: &C,
    spawner: &mut P,
) -> Begun
where
    S: Serving + Send + Sync + 'static,
    R: Threads + Wait + Copy + Send + Drop + 'static,
    D: Door,
    D::Link: Send + Drop + 'static,
    C: Clock + Send + Drop + 'static,
    P: Spawner,
    requires { count ≤ 1024 }
    ensures of { IsOfDoor result.status }
    ensures given { result.status ≡ Status.Done → D.given door.new ≡ given_by count (D.given door.old) }
    ensures door_fault { result.status ≡ Status.DoorFault → Rose (D.faults door.old) (D.faults door.new) }
    ensures all { result.status ≡ Status.Done → result.count ≡ count }
{
    for begun in 0..count {
        let conn = ConnNo(begun + 1);
        let is_last = begun + 1 == count;
        match accept(rt, alloc, shared, conn, is_last, door, clock, spawner) {
            Ok(()) => {}
            Err(DoorEnd::Failed) => {
                return Begun {
                    count: begun,
                    status: Status::DoorFault,
                };
            }
            Err(DoorEnd::NoMemory) => {
                return Begun {
                    count: begun,
                    status: Status::NoMemory,
                };
            }
        }
    }
    Begun {
        count,
        status: Status::Done,
    }
}

// Gives so many links a session each, or fewer, where there was no further link, closes the door, and answers after these sessions have
// ended: who comes too late is refused, and waits for none of them.
fn serve_links<S, R, D, C, P>(
    rt: R,
    alloc: Global,
    shared: &Arc<Shared<S>>,
    count: u32,
    door: &mut D,
    clock: &C,
    spawner: &mut P,
) -> Finished
where
    S: Serving + Send + Sync + 'static,
    R: Threads + Wait + Copy + Send + Drop + 'static,
    D: Door,
    D::Link: Send + Drop + 'static,
    C: Clock + Send + Drop + 'static,
    P: Spawner,
    requires { count ≤ 1024 }
    ensures of { IsOfDoor result.status }
    ensures given { result.status ≡ Status.Done → D.given door.new ≡ given_by count (D.given door.old) }
    ensures door_fault { result.status ≡ Status.DoorFault → Rose (D.faults door.old) (D.faults door.new) }
    ensures shut { D.is_shut door.new ≡ true }
    ensures sessions { AreSessions S.hub result.sessions.items }
    ensures all { result.status ≡ Status.Done → length result.sessions.items ≡ count }
{
    let begun = let_in(rt, alloc, shared, count, door, clock, spawner);
    door.close();
    let sessions = shared.journal.wait_for(&rt, alloc, begun.count);
    Finished {
        status: begun.status,
        sessions,
    }
}

// A hub in which nobody is connected.
pub(crate) fn make_hub(alloc: Global, config: Config, dex: Dex) -> Result<Hub, AllocError>
    ensures { IfOk result (λ h. (h.config ≡ config) × (h.dex ≡ dex)) }
{
    let config = Arc::new(alloc, config)?;
    let dex = Arc::new(alloc, dex)?;
    Ok(Hub::new(alloc, config, dex)?.open())
}

// What the sessions of this hub share, with room for the ends of so many.
pub(crate) fn make_shared<S: Serving>(
    alloc: Global,
    hub: Hub,
    count: u32,
) -> Result<Arc<Shared<S>>, AllocError>
    requires { hub ≡ S.hub }
{
    let journal = Journal::new(alloc, count)?;
    Ok(Arc::new(alloc, Shared { hub, journal })?)
}

// Listens, and serves so many links. There is room for all ends before it listens.
fn serve_door<S, R, D, C, P>(
    rt: R,
    alloc: Global,
    hub: Hub,
    words: ServeWords<'_>,
    door: &mut D,
    clock: &C,
    spawner: &mut P,
) -> Finished
where
    S: Serving + Send + Sync + 'static,
    R: Threads + Wait + Copy + Send + Drop + 'static,
    D: Door,
    D::Link: Send + Drop + 'static,
    C: Clock + Send + Drop + 'static,
    P: Spawner,
    requires few { words.count ≤ 1024 }
    requires hub { hub ≡ S.hub }
    ensures of { IsOfDoor result.status }
    ensures given { result.status ≡ Status.Done → D.given door.new ≡ given_by words.entry.count (D.given door.old) }
    ensures shut { result.status ≡ Status.Done → D.is_shut door.new ≡ true }
    ensures door_fault { result.status ≡ Status.DoorFault → Rose (D.faults door.old) (D.faults door.new) }
    ensures sessions { AreSessions S.hub result.sessions.items }
    ensures all { result.status ≡ Status.Done → length result.sessions.items ≡ words.entry.count }
{
    let shared = match make_shared::<S>(alloc, hub, words.count) {
        Ok(shared) => shared,
        Err(_) => {
            return Finished {
                status: Status::NoMemory,
                sessions: Vec::new(alloc),
            };
        }
    };
    match door.open(words.address) {
        Err(_) => {
            return Finished {
                status: Status::DoorFault,
                sessions: Vec::new(alloc),
            };
        }
        Ok(()) => {}
    }
    serve_links(rt, alloc, &shared, words.count, door, clock, spawner)
}

// Reads the configuration, and serves under it.
fn serve_config<R, F, D, C, P>(
    rt: R,
    alloc: Global,
    dex: Dex,
    words: ServeWords<'_>,
    files: &mut F,
    door: &mut D,
    clock: &C,
    spawner: &mut P,
) -> Finished
where
    R: Threads + Wait + Copy + Send + Drop + 'static,
    F: Files,
    D: Door,
    D::Link: Send + Drop + 'static,
    C: Clock + Send + Drop + 'static,
    P: Spawner,
    requires few { words.count ≤ 1024 }
    requires stands { Stands (F.contents files.old) (options_of words.options).dex
        (λ lookup. dex_in lookup (options_of words.options).dex) dex }
    ensures usage { usage_reported result.status ≡ None }
    ensures cause { ServeCause (F.contents files.old) (options_of words.entry.options) (F.counts files.old) (F.counts files.new)
        result.status }
    ensures door_fault { result.status ≡ Status.DoorFault → Rose (D.faults door.old) (D.faults door.new) }
    ensures untouched { KeepsDoor (D.faults door.old) (D.faults door.new) (D.given door.old) (D.given door.new) result.status }
    ensures given { result.status ≡ Status.Done → D.given door.new ≡ given_by words.entry.count (D.given door.old) }
    ensures shut { result.status ≡ Status.Done → D.is_shut door.new ≡ true }
    ensures sessions { AreServed (F.contents files.old) (options_of words.entry.options) result.sessions.items }
    ensures all { result.status ≡ Status.Done → length result.sessions.items ≡ words.entry.count }
    ensures complete { SettlesServe (F.contents files.old) (options_of words.entry.options)
        (Rose (F.counts files.old).faults (F.counts files.new).faults) (Rose (D.faults door.old) (D.faults door.new)) result.status }
{
    let config = match config_or_standard(alloc, files, &dex, words.options.config) {
        Err(status) => {
            return Finished {
                status,
                sessions: Vec::new(alloc),
            };
        }
        Ok(config) => config,
    };
    match make_hub(alloc, config, dex) {
        Err(_) => Finished {
            status: Status::NoMemory,
            sessions: Vec::new(alloc),
        },
        Ok(hub) => serve_door::<Brand, R, D, C, P>(rt, alloc, hub, words, door, clock, spawner),
    }
}

// Reads the files that the words name, and serves under them.
fn serve_files<R, F, D, C, P>(
    rt: R,
    alloc: Global,
    words: ServeWords<'_>,
    files: &mut F,
    door: &mut D,
    clock: &C,
    spawner: &mut P,
) -> Finished
where
    R: Threads + Wait + Copy + Send + Drop + 'static,
    F: Files,
    D: Door,
    D::Link: Send + Drop + 'static,
    C: Clock + Send + Drop + 'static,
    P: Spawner,
    requires { words.count ≤ 1024 }
    ensures usage { usage_reported result.status ≡ None }
    ensures cause { ServeCause (F.contents files.old) (options_of words.entry.options) (F.counts files.old) (F.counts files.new)
        result.status }
    ensures door_fault { result.status ≡ Status.DoorFault → Rose (D.faults door.old) (D.faults door.new) }
    ensures untouched { KeepsDoor (D.faults door.old) (D.faults door.new) (D.given door.old) (D.given door.new) result.status }
    ensures given { result.status ≡ Status.Done → D.given door.new ≡ given_by words.entry.count (D.given door.old) }
    ensures shut { result.status ≡ Status.Done → D.is_shut door.new ≡ true }
    ensures sessions { AreServed (F.contents files.old) (options_of words.entry.options) result.sessions.items }
    ensures all { result.status ≡ Status.Done → length result.sessions.items ≡ words.entry.count }
    ensures complete { SettlesServe (F.contents files.old) (options_of words.entry.options)
        (Rose (F.counts files.old).faults (F.counts files.new).faults) (Rose (D.faults door.old) (D.faults door.new)) result.status }
{
    match dex_or_none(alloc, files, words.options.dex) {
        Err(status) => Finished {
            status,
            sessions: Vec::new(alloc),
        },
        Ok(dex) => serve_config(rt, alloc, dex, words, files, door, clock, spawner),
    }
}

/// Serves connections: reads the dex file and the configuration, if the words name them, lets the door listen at the address of
/// the words, and gives each of the next COUNT links that it hands out a session of its own (`serve_session`), in a thread
/// where the spawner gives leave, and else here, before the next link. Connections count from 1, in the order in which the door
/// hands out their links, and each has a clock of its own, made by `another` of this one. Behind the last link the door is closed,
/// and also where it failed. It answers after every session that it began has ended, each link let go, with what each ended
/// with. There is room for that before the door is asked.
///
/// `Usage` tells the first word that can't stand in `serve ADDRESS COUNT [--dex NAME] [--config NAME]`. The statuses of files,
/// of a dex and of a configuration are those of `run`, and come before the door is asked. `DoorFault` comes only where the
/// door's count of faults rose: it couldn't listen, or hand out a link; the sessions that began before end first. `NoMemory`
/// likewise. How a session ends is no status.
pub fn serve<R, F, D, C, P>(
    rt: R,
    alloc: Global,
    words: &[String],
    files: &mut F,
    door: &mut D,
    clock: &mut C,
    spawner: &mut P,
) -> Finished
where
    R: Threads + Wait + Copy + Send + Drop + 'static,
    F: Files,
    D: Door,
    D::Link: Send + Drop + 'static,
    C: Clock + Send + Drop + 'static,
    P: Spawner,
    // The words are at fault exactly where this is reported.
    ensures usage { usage_reported result.status ≡ serve_usage_of (map string_bytes words.now) }

    // It ends with a status that has its cause: the dex file and the configuration are read and found good before the door is
    // asked.
    ensures cause { IfServe (serve_words_in (map string_bytes words.now))
        (λ asked. ServeCause (F.contents files.old) asked.options (F.counts files.old) (F.counts files.new) result.status) }
    ensures door_fault { result.status ≡ Status.DoorFault → Rose (D.faults door.old) (D.faults door.new) }
    ensures untouched { KeepsDoor (D.faults door.old) (D.faults door.new) (D.given door.old) (D.given door.new) result.status }

    // What lies at each place of the sessions is an end that a session of that connection may have had. All are of one hub, under
    // the dex and the configuration of the files.
    ensures sessions { IfServe (serve_words_in (map string_bytes words.now))
        (λ asked. AreServed (F.contents files.old) asked.options result.sessions.items) }
    ensures unserved { IsSome (usage_reported result.status) → result.sessions.items ≡ [] }

    // At Done there is one for each connection from 1 to COUNT, the door has handed out as many links, and it lets nobody in any more.
    ensures all { IfServe (serve_words_in (map string_bytes words.now))
        (λ asked. result.status ≡ Status.Done → length result.sessions.items ≡ asked.count) }
    ensures given { IfServe (serve_words_in (map string_bytes words.now))
        (λ asked. result.status ≡ Status.Done → D.given door.new ≡ given_by asked.count (D.given door.old)) }
    ensures shut { result.status ≡ Status.Done → D.is_shut door.new ≡ true }

    // Faultless words and good files, known and without faults of the outside, end in Done or NoMemory.
    ensures complete { IfServe (serve_words_in (map string_bytes words.now))
        (λ asked. SettlesServe (F.contents files.old) asked.options (Rose (F.counts files.old).faults (F.counts files.new).faults)
        (Rose (D.faults door.old) (D.faults door.new)) result.status) }
{
    match read_serve_words(words) {
        Err(word) => Finished {
            status: Status::Usage { word },
            sessions: Vec::new(alloc),
        },
        Ok(asked) => serve_files(rt, alloc, asked, files, door, clock, spawner),
    }
}
