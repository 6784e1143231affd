//! Where links come from.
ghost use Rattle.std.specs.Prelude.{◌≡◌, ◌++◌, ◌||◌, ◌==◌, ℕ, Bool, true, false, length, IsErr};
ghost use Rattle.std.specs.Result.{is_err};
ghost use Rattle.ps_outside.specs.Counts.{CountsErr, is_listed, one_more};
ghost use Rattle.ps_outside.specs.Doors.{given_after, links_of, HasAcceptCause};

use crate::Failed;
use crate::link::Link;
use std::alloc::Global;
use std::collections::VecDeque;
use std::marker::Model;

/// Why no link was handed out.
#[derive(Clone, Copy, Debug, PartialEq, Eq)]
pub enum DoorEnd {
    /// The outside refused the call.
    Failed,
    /// Memory was refused.
    NoMemory,
}

/// Where links come from, one after another.
pub trait Door {
    /// The links that it hands out, one for each connection.
    type Link: Link;

    /// How often it has failed. The count stands still at the last value of a `u64`.
    ghost faults: { Self → ℕ };

    /// How many links it has handed out. The count stands still at the last value of a `u64`.
    ghost given: { Self → ℕ };

    /// Whether it lets nobody in: it was closed, or never opened where that is needed.
    ghost is_shut: { Self → Bool };

    /// Begins to listen at the address. `Failed` comes only where the count of faults rose.
    fn open(&mut self, address: &str) -> Result<(), Failed>
        ensures count { given self.new ≡ given self.old }
        ensures cause { CountsErr (faults self.old) (faults self.new) result };

    /// The next link. Failed comes only where the count of faults rose.
    fn accept(&mut self) -> Result<Self::Link, DoorEnd>
        ensures count { given self.new ≡ given_after result (given self.old) }
        ensures cause { HasAcceptCause (faults self.old) (faults self.new) result }
        ensures shut { is_shut self.old ≡ true → IsErr result };

    /// Lets nobody in from now on: who waits at the door is refused, and who comes later. Links that were handed out go on.
    fn close(&mut self)
        ensures count { given self.new ≡ given self.old }
        ensures faults { faults self.new ≡ faults self.old }
        ensures shut { is_shut self.new ≡ true };
}

/// A door in memory, whose calls fail at the numbers of two lists, counted from 1: one for `open`
/// and one for `accept`. Past its last link `accept` fails too, and where the door was closed, which it stays.
#[derive(Drop)]
pub struct MemDoor<L: Link> {
    links: VecDeque<L>,
    is_shut: bool,
    given: u64,
    faults: u64,
    open_calls: u64,
    accept_calls: u64,
    failing_open: Vec<u64>,
    failing_accept: Vec<u64>,
}

impl<L: Link> Model for MemDoor<L> {
    ghost use Rattle.ps_outside.specs.Doors.{MemEntry};

    ghost Value = { MemEntry L };

    ghost view = { λ d. record {
      links = d.links.items;
      is_shut = d.is_shut;
      given = d.given;
      faults = d.faults;
      open_calls = d.open_calls;
      accept_calls = d.accept_calls;
      failing_open = d.failing_open.items;
      failing_accept = d.failing_accept.items;
    } };
}

impl<L: Link> MemDoor<L> {
    /// A door that hands out these links. Takes no memory.
    pub fn new(links: Vec<L>, failing_open: Vec<u64>, failing_accept: Vec<u64>) -> MemDoor<L>
        ensures { result ≡ record {
          links = links.items;
          is_shut = false;
          given = 0;
          faults = 0;
          open_calls = 0;
          accept_calls = 0;
          failing_open = failing_open.items;
          failing_accept = failing_accept.items;
        } }
    {
        MemDoor {
            links: VecDeque::from_vec(links),
            is_shut: false,
            given: 0,
            faults: 0,
            open_calls: 0,
            accept_calls: 0,
            failing_open,
            failing_accept,
        }
    }
}

impl<L: Link> Door for MemDoor<L> {
    type Link = L;

    ghost faults = { λ d. d.faults };

    ghost given = { λ d. d.given };

    ghost is_shut = { λ d. d.is_shut };

    fn open(&mut self, _address: &str) -> Result<(), Failed>
        ensures count { self.new.given ≡ self.old.given }
        ensures cause { CountsErr self.old.faults self.new.faults result }
        ensures listed { is_err result ≡ is_listed self.old.open_calls self.old.failing_open }
        ensures calls { self.new.open_calls ≡ one_more self.old.open_calls }
    {
        self.open_calls = self.open_calls.saturating_add(1);
        if self.failing_open.contains(&self.open_calls) {
            self.faults = self.faults.saturating_add(1);
            return Err(Failed);
        }
        Ok(())
    }

    fn accept(&mut self) -> Result<L, DoorEnd>
        ensures count { self.new.given ≡ given_after result self.old.given }
        ensures cause { HasAcceptCause self.old.faults self.new.faults result }
        ensures links { self.old.links ≡ links_of result ++ self.new.links }
        ensures fails { is_err result ≡ (is_listed self.old.accept_calls self.old.failing_accept
            || (self.old.is_shut || length self.old.links == 0)) }
        ensures calls { self.new.accept_calls ≡ one_more self.old.accept_calls }
        ensures shut { self.old.is_shut ≡ true → IsErr result }
    {
        self.accept_calls = self.accept_calls.saturating_add(1);
        if self.failing_accept.contains(&self.accept_calls) || self.is_shut {
            self.faults = self.faults.saturating_add(1);
            return Err(DoorEnd::Failed);
        }
        match self.links.pop_front() {
            None => {
                self.faults = self.faults.saturating_add(1);
                Err(DoorEnd::Failed)
            }
            Some(link) => {
                self.given = self.given.saturating_add(1);
                Ok(link)
            }
        }
    }

    fn close(&mut self)
        ensures { self.new ≡ record self.old { is_shut = true } }
    {
        self.is_shut = true;
    }
}

/// A door in memory that never fails. Past its last link `accept` answers NoMemory, as where a
/// further link could not be made, and where the door was closed, which it stays.
#[derive(Drop)]
pub struct SureDoor<L: Link> {
    links: VecDeque<L>,
    is_shut: bool,
    given: u64,
}

impl<L: Link> Model for SureDoor<L> {
    ghost use Rattle.ps_outside.specs.Doors.{SureEntry};

    ghost Value = { SureEntry L };

    ghost view = { λ d. record { links = d.links.items; is_shut = d.is_shut; given = d.given } };
}

impl<L: Link> SureDoor<L> {
    /// A door that hands out these links. Takes no memory.
    pub fn new(links: Vec<L>) -> SureDoor<L>
        ensures { result ≡ record { links = links.items; is_shut = false; given = 0 } }
    {
        SureDoor {
            links: VecDeque::from_vec(links),
            is_shut: false,
            given: 0,
        }
    }
}

impl<L: Link> Door for SureDoor<L> {
    type Link = L;

    ghost faults = { λ _. 0 };

    ghost given = { λ d. d.given };

    ghost is_shut = { λ d. d.is_shut };

    fn open(&mut self, _address: &str) -> Result<(), Failed> {
        Ok(())
    }

    fn accept(&mut self) -> Result<L, DoorEnd>
        ensures count { self.new.given ≡ given_after result self.old.given }
        ensures cause { HasAcceptCause 0 0 result }
        ensures links { self.old.links ≡ links_of result ++ self.new.links }
        ensures shut { self.old.is_shut ≡ true → IsErr result }
    {
        if self.is_shut {
            return Err(DoorEnd::NoMemory);
        }
        match self.links.pop_front() {
            None => Err(DoorEnd::NoMemory),
            Some(link) => {
                self.given = self.given.saturating_add(1);
                Ok(link)
            }
        }
    }

    fn close(&mut self)
        ensures { self.new ≡ record self.old { is_shut = true } }
    {
        self.is_shut = true;
    }
}
