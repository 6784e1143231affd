//! The server of a test.
use ps_base::number::Moment;
use ps_outside::clock::MemClock;
use ps_outside::door::MemDoor;
use ps_outside::files::MemFiles;
use ps_outside::link::Link;
use ps_outside::spawner::Spawner;
use ps_serve::closed::{Closed, End};
use server_accept::serve::{Finished, serve};
use std::alloc::Global;
use std::process::Abort;
use std::sync::Wait;
use std::thread::Threads;

/// The words of a server of so many links, whose door is in memory.
pub(crate) fn words(rt: &impl Abort, alloc: Global, count: &str) -> Vec<String> {
    let mut words = Vec::new(alloc);
    for word in ["serve", "127.0.0.1:0", count] {
        let word = String::from_str(alloc, word).expect(rt, "memory");
        words.push(word).expect(rt, "memory");
    }
    words
}

/// How a server ends that has no files.
pub(crate) fn finished_of<R, L, P>(
    rt: R,
    alloc: Global,
    words: &[String],
    door: &mut MemDoor<L>,
    spawner: &mut P,
) -> Finished
where
    R: Threads + Wait + Copy + Send + Drop + 'static,
    L: Link + Send + Drop + 'static,
    P: Spawner,
{
    let mut files = MemFiles::new(Vec::new(alloc), Vec::new(alloc));
    let mut clock = MemClock::new(alloc, Moment(0), Vec::new(alloc));
    serve(rt, alloc, words, &mut files, door, &mut clock, spawner)
}

/// Whether so many sessions ended, each since its client closed.
pub(crate) fn are_closed(sessions: &[Option<Closed>], count: usize) -> bool {
    for session in sessions {
        if !is_closed(session) {
            return false;
        }
    }
    sessions.len() == count
}

fn is_closed(session: &Option<Closed>) -> bool {
    match session {
        None => false,
        Some(closed) => matches!(&closed.end, End::Closed),
    }
}
