//! What the sessions of a server ended with.
ghost use Rattle.std.specs.Prelude.{◌≡◌, ◌+◌, ◌<◌, ◌≤◌, length, IfOk, IfSome, IsTrue};
ghost use Rattle.ps_serve.specs.Sessions.{IsSession};
ghost use Rattle.server_accept.specs.Journals.{AreFilled, AreSessions};

use ps_base::number::ConnNo;
use ps_serve::closed::Closed;
use std::alloc::{AllocError, Global};
use std::marker::{Brand, Model, PhantomData};
use std::mem;
use std::sync::{Condvar, Mutex, Wait};

/// Which hub the sessions of a journal are of. A call that has the hub in hand picks it.
pub(crate) trait Serving {
    ghost use Rattle.ps_hub.specs.Hubs.{Hub};

    ghost hub: { Hub };
}

impl Serving for Brand {
    ghost use Rattle.server_accept.specs.Journals.{no_hub};

    ghost hub = { no_hub };
}

/// A place for each connection from 1 on. What lies there is the end of the session of that number. Contracts see how many places
/// there are.
#[derive(Drop)]
pub(crate) struct Row<S: Serving> {
    ends: Vec<Option<Closed>>,
    // How many sessions have ended, with a place or without. It stands still at the last value of a `u32`.
    ended: u32,
    of: PhantomData<S>,
}

impl<S: Serving> Model for Row<S> {
    ghost use Rattle.std.specs.Prelude.{ℕ, length};
    ghost use Rattle.server_accept.specs.Journals.{AreEnds};

    ghost Value = { ℕ };

    ghost view = { λ r. length r.ends.items };

    ghost invariant = { λ r. AreEnds S.hub r.ends.items };
}

// Whether none of the first so many places is empty.
fn are_filled(ends: &[Option<Closed>], begun: u32) -> bool
    ensures { IsTrue result → AreFilled begun ends.now }
{
    for place in 0..begun {
        match ends.get(place as usize) {
            Some(Some(_)) => {}
            _ => return false,
        }
    }
    true
}

impl<S: Serving> Row<S> {
    /// So many empty places.
    #[tactic(auto, using(crate::proofs::JournalLemmas::none_yet, crate::proofs::JournalLemmas::one_more))]
    pub(crate) fn new(alloc: Global, count: u32) -> Result<Row<S>, AllocError>
        ensures { IfOk result (λ r. r ≡ count) }
    {
        let mut ends = Vec::with_capacity(alloc, count as usize)?;
        for _place in 0..count {
            ends.push(None)?;
        }
        Ok(Row {
            ends,
            ended: 0,
            of: PhantomData,
        })
    }

    // Puts the end of a session to its place.
    #[tactic(auto, using(crate::proofs::JournalLemmas::one_put))]
    fn put(&mut self, conn: ConnNo, closed: Closed)
        requires { IsSession S.hub conn closed }
        ensures { self.new ≡ self.old }
    {
        let Some(place) = conn.0.checked_sub(1) else {
            return;
        };
        if (place as usize) < self.ends.len() {
            self.ends[place as usize] = Some(closed);
        }
    }

    // One more session has ended.
    fn count_end(&mut self)
        ensures { self.new ≡ self.old }
    {
        self.ended = self.ended.saturating_add(1);
    }

    // How many sessions have ended.
    fn ended(&self) -> u32 {
        self.ended
    }

    // The ends at the first so many places, once none of them is empty.
    fn take(&mut self, alloc: Global, begun: u32) -> Option<Vec<Option<Closed>>>
        ensures sessions { IfSome result (λ ends. AreSessions S.hub ends.items) }
        ensures count { IfSome result (λ ends. length ends.items ≡ begun) }
    {
        if !are_filled(self.ends.as_slice(), begun) {
            return None;
        }
        let mut ends = mem::replace(&mut self.ends, Vec::new(alloc));
        ends.truncate(begun as usize);
        Some(ends)
    }
}

/// What the sessions of a server ended with, and how many have ended. One without a place keeps no end. Threads share it by reference.
#[derive(Drop)]
pub(crate) struct Journal<S: Serving> {
    row: Mutex<Row<S>>,
    rose: Condvar,
}

impl<S: Serving> Journal<S> {
    /// A journal with room for so many ends, of which none has come.
    pub(crate) fn new(alloc: Global, count: u32) -> Result<Journal<S>, AllocError> {
        let row = Row::new(alloc, count)?;
        Ok(Journal {
            row: Mutex::new(row),
            rose: Condvar::new(),
        })
    }

    /// The session of this connection has ended so.
    pub(crate) fn hand_in<R: Wait>(&self, rt: &R, conn: ConnNo, closed: Closed)
        requires { IsSession S.hub conn closed }
    {
        let mut row = self.row.lock(rt);
        row.put(conn, closed);
        row.count_end();
        drop(row);
        self.rose.notify_all();
    }

    /// Waits until so many sessions have ended.
    pub(crate) fn wait_until<R: Wait>(&self, rt: &R, ended: u32) {
        let mut row = self.row.lock(rt);
        for _ in rt.forever() {
            if row.ended() >= ended {
                return;
            }
            row = self.rose.wait(rt, row);
        }
        unreachable!()
    }

    /// A session that was to begin didn't: it counts as one that has ended.
    pub(crate) fn pass_over<R: Wait>(&self, rt: &R) {
        self.row.lock(rt).count_end();
    }

    /// How many sessions have ended.
    pub(crate) fn ended<R: Wait>(&self, rt: &R) -> u32 {
        self.row.lock(rt).ended()
    }

    /// Waits until the sessions of the connections from 1 to this number have ended, and takes their ends.
    pub(crate) fn wait_for<R: Wait>(&self, rt: &R, alloc: Global, begun: u32) -> Vec<Option<Closed>>
        ensures sessions { AreSessions S.hub result.items }
        ensures count { length result.items ≡ begun }
    {
        let mut row = self.row.lock(rt);
        for _ in rt.forever() {
            match row.take(alloc, begun) {
                Some(ends) => return ends,
                None => {}
            }
            row = self.rose.wait(rt, row);
        }
        unreachable!()
    }
}
