//! A server that stays up: it lets in connections as others end.
ghost use Rattle.std.specs.Prelude.{◌≡◌, ◌+◌, ◌<◌, ◌^◌, true, None, IfOk, IfErr, IfSome, IsNone, OnErr, map, string_bytes};
ghost use Rattle.ps_outside.specs.Causes.{Rose};
ghost use Rattle.ps_outside.specs.Counts.{one_more};
ghost use Rattle.ps_outside.specs.Doors.{HasAcceptCause};
ghost use Rattle.program_commands.specs.Words.{options_of};
ghost use Rattle.program_commands.specs.Steps.{dex_in};
ghost use Rattle.program_commands.specs.Setups.{usage_in, usage_reported, Stands};
ghost use Rattle.rules_config.specs.Fresh.{with_fresh};
ghost use Rattle.server_accept.specs.AlwaysWords.{stay_words_in, IfStays};
ghost use Rattle.server_accept.specs.Servers.{ServeCause, KeepsDoor, SettlesServe, IsOfDoor, IsOfFiles, SettlesFiles, IsFreshHub};

use crate::always_words::{AlwaysWords, read_always_words};
use crate::journal::{Journal, Serving};
use crate::serve::{Begun, Shared, make_hub, make_shared, run};
use program_commands::config::config_or_standard;
use program_commands::dex::dex_or_none;
use program_commands::status::Status;
use program_commands::words::OptionWords;
use ps_base::number::ConnNo;
use ps_dex::dex::Dex;
use ps_hub::hub::Hub;
use ps_outside::clock::Clock;
use ps_outside::door::{Door, DoorEnd};
use ps_outside::files::Files;
use ps_outside::link::Link;
use ps_outside::spawner::{Spawner, start};
use rules_config::config::Config;
use rules_config::fresh::Fresh;
use std::alloc::{AllocError, Global};
use std::marker::Brand;
use std::sync::{Arc, Wait};
use std::thread::Threads;
use std::time::Duration;
use std::{rt, thread};

/// The last number that a connection of a server has: after it nobody is let in, and the server ends as where it is stopped.
pub const LAST_CONN: u32 = u32::MAX;

/// A door that somebody may stop.
pub trait AlwaysDoor: Door {
    /// The next link, or none where the door was stopped. Failed comes only where the count of faults rose.
    fn accept_or_stop(&mut self) -> Result<Option<Self::Link>, DoorEnd>
        ensures cause { HasAcceptCause (Self.faults self.old) (Self.faults self.new) result }
        ensures given { IfOk result (λ next. IfSome next (λ _. Self.given self.new ≡ one_more (Self.given self.old))) }
        ensures stopped { IfOk result (λ next. IsNone next → Self.given self.new ≡ Self.given self.old) }
        ensures not_given { OnErr result (Self.given self.new ≡ Self.given self.old) };

    /// Tells its links to end, and hands out no more of them.
    fn stop(&mut self)
        ensures faults { Self.faults self.new ≡ Self.faults self.old }
        ensures given { Self.given self.new ≡ Self.given self.old };
}

// How long a session waits for a thread before the host is asked for one again, in milliseconds.
const PAUSE: u64 = 100;

// Starts the job of a session. Where the host gives no thread, and some of so many sessions before it run, it's tried again until these
// have given theirs back; then it's called here.
fn start_in_time<S, R, P, J>(rt: &R, journal: &Journal<S>, begun: u32, spawner: &mut P, job: J)
where
    S: Serving,
    R: Threads + Wait + rt::Clock,
    P: Spawner,
    J: FnOnce() + Send + Drop + 'static,
    requires { J.pre job }
{
    let mut job = job;
    for _ in rt.forever() {
        match start(rt, spawner, job) {
            Ok(()) => return,
            Err(back) => {
                if journal.ended(rt) >= begun {
                    back();
                    return;
                }
                thread::sleep(rt, Duration::from_millis(PAUSE));
                job = back;
            }
        }
    }
    unreachable!()
}

// Begins the session of a link behind so many others.
fn begin<S, R, L, C, P>(
    rt: R,
    alloc: Global,
    shared: &Arc<Shared<S>>,
    begun: u32,
    link: L,
    clock: &C,
    spawner: &mut P,
) -> Result<(), AllocError>
where
    S: Serving + Send + Sync + 'static,
    R: Threads + Wait + rt::Clock + Copy + Send + Drop + 'static,
    L: Link + Send + Drop + 'static,
    C: Clock + Send + Drop + 'static,
    P: Spawner,
    requires { begun + 1 < 2 ^ 32 }
{
    let own = shared.clone()?;
    let clock = clock.another()?;
    let job = move || {
        let link = link;
        let clock = clock;
        run(&rt, alloc, &*own, ConnNo(begun + 1), link, clock);
    };
    start_in_time(&rt, &shared.journal, begun, spawner, job);
    Ok(())
}

// Lets in the next connection, and tells whether there was one. Where memory is refused for its session its client is cut off.
fn let_in<S, R, D, C, P>(
    rt: R,
    alloc: Global,
    shared: &Arc<Shared<S>>,
    begun: u32,
    door: &mut D,
    clock: &C,
    spawner: &mut P,
) -> Result<bool, DoorEnd>
where
    S: Serving + Send + Sync + 'static,
    R: Threads + Wait + rt::Clock + Copy + Send + Drop + 'static,
    D: AlwaysDoor,
    D::Link: Send + Drop + 'static,
    C: Clock + Send + Drop + 'static,
    P: Spawner,
    requires { begun + 1 < 2 ^ 32 }
    ensures cause { HasAcceptCause (D.faults door.old) (D.faults door.new) result }
{
    match door.accept_or_stop() {
        Err(end) => Err(end),
        Ok(None) => Ok(false),
        Ok(Some(link)) => {
            if begin(rt, alloc, shared, begun, link, clock, spawner).is_err() {
                shared.journal.pass_over(&rt);
            }
            Ok(true)
        }
    }
}

// Lets in connections as others end, so many at once, until the door is stopped or fails.
fn let_all_in<S, R, D, C, P>(
    rt: R,
    alloc: Global,
    shared: &Arc<Shared<S>>,
    at_once: u32,
    door: &mut D,
    clock: &C,
    spawner: &mut P,
) -> Begun
where
    S: Serving + Send + Sync + 'static,
    R: Threads + Wait + rt::Clock + Copy + Send + Drop + 'static,
    D: AlwaysDoor,
    D::Link: Send + Drop + 'static,
    C: Clock + Send + Drop + 'static,
    P: Spawner,
    ensures of { IsOfDoor result.status }
    ensures door_fault { result.status ≡ Status.DoorFault → Rose (D.faults door.old) (D.faults door.new) }
{
    for begun in 0..LAST_CONN {
        shared
            .journal
            .wait_until(&rt, begun.saturating_add(1).saturating_sub(at_once));
        match let_in(rt, alloc, shared, begun, door, clock, spawner) {
            Ok(true) => {}
            Ok(false) => {
                return Begun {
                    count: begun,
                    status: Status::Done,
                };
            }
            Err(DoorEnd::Failed) => {
                return Begun {
                    count: begun,
                    status: Status::DoorFault,
                };
            }
            Err(DoorEnd::NoMemory) => {
                return Begun {
                    count: begun,
                    status: Status::NoMemory,
                };
            }
        }
    }
    Begun {
        count: LAST_CONN,
        status: Status::Done,
    }
}

// Serves links until the door is stopped or fails, and then tells all links to end, lets nobody in any more, and waits until their
// sessions have ended.
fn serve_links<S, R, D, C, P>(
    rt: R,
    alloc: Global,
    shared: &Arc<Shared<S>>,
    at_once: u32,
    door: &mut D,
    clock: &C,
    spawner: &mut P,
) -> Status
where
    S: Serving + Send + Sync + 'static,
    R: Threads + Wait + rt::Clock + Copy + Send + Drop + 'static,
    D: AlwaysDoor,
    D::Link: Send + Drop + 'static,
    C: Clock + Send + Drop + 'static,
    P: Spawner,
    ensures of { IsOfDoor result }
    ensures door_fault { result ≡ Status.DoorFault → Rose (D.faults door.old) (D.faults door.new) }
    ensures shut { D.is_shut door.new ≡ true }
{
    let begun = let_all_in(rt, alloc, shared, at_once, door, clock, spawner);
    door.stop();
    door.close();
    shared.journal.wait_until(&rt, begun.count);
    begun.status
}

// Listens, and serves under this hub. Nothing is kept of a session that has ended.
fn always_door<S, R, D, C, P>(
    rt: R,
    alloc: Global,
    hub: Hub,
    words: AlwaysWords<'_>,
    door: &mut D,
    clock: &C,
    spawner: &mut P,
) -> Status
where
    S: Serving + Send + Sync + 'static,
    R: Threads + Wait + rt::Clock + Copy + Send + Drop + 'static,
    D: AlwaysDoor,
    D::Link: Send + Drop + 'static,
    C: Clock + Send + Drop + 'static,
    P: Spawner,
    requires { hub ≡ S.hub }
    ensures of { IsOfDoor result }
    ensures door_fault { result ≡ Status.DoorFault → Rose (D.faults door.old) (D.faults door.new) }
    ensures shut { result ≡ Status.Done → D.is_shut door.new ≡ true }
{
    let shared = match make_shared::<S>(alloc, hub, 0) {
        Ok(shared) => shared,
        Err(_) => return Status::NoMemory,
    };
    match door.open(words.address) {
        Err(_) => return Status::DoorFault,
        Ok(()) => {}
    }
    serve_links(rt, alloc, &shared, words.at_once, door, clock, spawner)
}

// A hub in which nobody is connected, under this configuration with a fresh nonce or seed where its file says none.
fn make_fresh_hub(alloc: Global, config: Config, dex: Dex, fresh: &Fresh) -> Result<Hub, AllocError>
    ensures { IfOk result (λ h. (h.config ≡ with_fresh fresh.now config) × (h.dex ≡ dex)) }
{
    let config = config.with_fresh(alloc, fresh)?;
    make_hub(alloc, config, dex)
}

// Reads the configuration over this dex.
fn hub_over<F: Files>(
    alloc: Global,
    dex: Dex,
    options: OptionWords<'_>,
    fresh: &Fresh,
    files: &mut F,
) -> Result<Hub, Status>
    requires { Stands (F.contents files.old) (options_of options).dex (λ lookup. dex_in lookup (options_of options).dex) dex }
    ensures hub { IfOk result (IsFreshHub (F.contents files.old) (options_of options.entry) fresh.now) }
    ensures of { IfErr result IsOfFiles }
    ensures cause { IfErr result (ServeCause (F.contents files.old) (options_of options.entry) (F.counts files.old) (F.counts files.new)) }
    ensures complete { IfErr result (SettlesFiles (F.contents files.old) (options_of options.entry)
        (Rose (F.counts files.old).faults (F.counts files.new).faults)) }
{
    let config = match config_or_standard(alloc, files, &dex, options.config) {
        Err(status) => return Err(status),
        Ok(config) => config,
    };
    match make_fresh_hub(alloc, config, dex, fresh) {
        Err(_) => Err(Status::NoMemory),
        Ok(hub) => Ok(hub),
    }
}

/// The hub of a server that stays up, in which nobody is connected: over the dex and the configuration that the options name, with
/// the fresh nonce in the place of `nonce`, and the fresh seed in the place of `seed`, where the configuration has no such key. The
/// statuses of files, of a dex and of a configuration are those of `serve`.
pub fn always_hub<F: Files>(
    alloc: Global,
    options: OptionWords<'_>,
    fresh: &Fresh,
    files: &mut F,
) -> Result<Hub, Status>
    ensures hub { IfOk result (IsFreshHub (F.contents files.old) (options_of options.entry) fresh.now) }

    // Or it ends with a status of the files, or for want of memory, which has its cause.
    ensures of { IfErr result IsOfFiles }
    ensures cause { IfErr result (ServeCause (F.contents files.old) (options_of options.entry) (F.counts files.old) (F.counts files.new)) }

    // Good files, known and without faults of the outside, are refused for want of memory alone.
    ensures complete { IfErr result (SettlesFiles (F.contents files.old) (options_of options.entry)
        (Rose (F.counts files.old).faults (F.counts files.new).faults)) }
{
    match dex_or_none(alloc, files, options.dex) {
        Err(status) => Err(status),
        Ok(dex) => hub_over(alloc, dex, options, fresh, files),
    }
}

// Reads the files that the words name, and serves under them.
fn always_files<R, F, D, C, P>(
    rt: R,
    alloc: Global,
    words: AlwaysWords<'_>,
    fresh: &Fresh,
    files: &mut F,
    door: &mut D,
    clock: &C,
    spawner: &mut P,
) -> Status
where
    R: Threads + Wait + rt::Clock + Copy + Send + Drop + 'static,
    F: Files,
    D: AlwaysDoor,
    D::Link: Send + Drop + 'static,
    C: Clock + Send + Drop + 'static,
    P: Spawner,
    ensures usage { usage_reported result ≡ None }
    ensures cause { ServeCause (F.contents files.old) (options_of words.entry.options) (F.counts files.old) (F.counts files.new) result }
    ensures door_fault { result ≡ Status.DoorFault → Rose (D.faults door.old) (D.faults door.new) }
    ensures shut { result ≡ Status.Done → D.is_shut door.new ≡ true }
    ensures untouched { KeepsDoor (D.faults door.old) (D.faults door.new) (D.given door.old) (D.given door.new) result }
    ensures complete { SettlesServe (F.contents files.old) (options_of words.entry.options)
        (Rose (F.counts files.old).faults (F.counts files.new).faults) (Rose (D.faults door.old) (D.faults door.new)) result }
{
    match always_hub(alloc, words.options, fresh, files) {
        Err(status) => status,
        Ok(hub) => always_door::<Brand, R, D, C, P>(rt, alloc, hub, words, door, clock, spawner),
    }
}

/// Serves connections for as long as its door lets it: reads the dex file and the configuration, if the words name them, makes the hub
/// of them and of the fresh nonce and seed (`always_hub`), lets the door listen at the address of the words, and gives each link that
/// it hands out a session of its own (`serve_session`) over one hub, in
/// a thread where the spawner gives leave. So many run at once as the words say; a further link is asked for when one of them has
/// ended. Where the host gives no thread, it tries again every 100 milliseconds; if no session runs, this one runs here. Where memory is
/// refused for a session, its client is cut off, and its number isn't had again.
/// Connections count from 1, in the order in which the door hands out their links, up to [`LAST_CONN`], and each has a clock of its
/// own, made by `another` of this one. Nothing is kept of a session that has ended.
///
/// `Done` comes where the door was stopped. `Usage` tells the first word that can't stand in `serve ADDRESS always [--at-once N]
/// [--ping S] [--rate N] [--stop-at-end] [--log] [--dex NAME] [--config NAME]`, of which the third to the sixth are for who makes the
/// door.
/// The statuses of files, of a dex and of a configuration are those of `serve`, and come before the door is asked. `DoorFault` comes
/// only where the door's count of faults rose: it couldn't listen, or hand out a link. `NoMemory` likewise. However it ends, it tells
/// all links to end, and answers after their sessions have. How a session ends is no status.
pub fn serve_always<R, F, D, C, P>(
    rt: R,
    alloc: Global,
    words: &[String],
    fresh: &Fresh,
    files: &mut F,
    door: &mut D,
    clock: &mut C,
    spawner: &mut P,
) -> Status
where
    R: Threads + Wait + rt::Clock + Copy + Send + Drop + 'static,
    F: Files,
    D: AlwaysDoor,
    D::Link: Send + Drop + 'static,
    C: Clock + Send + Drop + 'static,
    P: Spawner,
    // The words are at fault exactly where this is reported.
    ensures usage { usage_reported result ≡ usage_in (stay_words_in (map string_bytes words.now)) }

    // It ends with a status that has its cause: the dex file and the configuration are read and found good before the door is
    // asked. At Done nobody is let in any more.
    ensures cause { IfStays (stay_words_in (map string_bytes words.now))
        (λ asked. ServeCause (F.contents files.old) asked.options (F.counts files.old) (F.counts files.new) result) }
    ensures door_fault { result ≡ Status.DoorFault → Rose (D.faults door.old) (D.faults door.new) }
    ensures shut { result ≡ Status.Done → D.is_shut door.new ≡ true }
    ensures untouched { KeepsDoor (D.faults door.old) (D.faults door.new) (D.given door.old) (D.given door.new) result }

    // Faultless words and good files, known and without faults of the outside, end in Done or NoMemory.
    ensures complete { IfStays (stay_words_in (map string_bytes words.now))
        (λ asked. SettlesServe (F.contents files.old) asked.options (Rose (F.counts files.old).faults (F.counts files.new).faults)
        (Rose (D.faults door.old) (D.faults door.new)) result) }
{
    match read_always_words(words) {
        Err(word) => Status::Usage { word },
        Ok(asked) => always_files(rt, alloc, asked, fresh, files, door, clock, spawner),
    }
}
