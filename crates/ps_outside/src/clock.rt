//! Clocks.
ghost use Rattle.std.specs.Prelude.{◌≡◌, ℕ, List, Option, Some, IfOk};
ghost use Rattle.ps_outside.specs.Clocks.{IsNow, after_now};

use ps_base::number::Moment;
use std::alloc::{AllocError, Global};
use std::collections::VecDeque;
use std::marker::Model;

/// A clock, which never fails.
pub trait Clock: Sized {
    /// The moments that it will tell, where it tells them ahead: the next, and those after it. The
    /// last of them is told again and again.
    ghost hours: { Self → Option (ℕ × List ℕ) };

    /// The moment, in seconds.
    fn now(&mut self) -> Moment
        ensures known { IsNow (hours self.old) result }
        ensures later { hours self.new ≡ after_now (hours self.old) };

    /// A clock that will tell the same moments.
    fn another(&self) -> Result<Self, AllocError>
        ensures { IfOk result (λ c. hours c ≡ hours self.now) };
}

/// A clock in memory.
#[derive(Drop)]
pub struct MemClock {
    alloc: Global,
    next: Moment,
    rest: VecDeque<Moment>,
}

impl Model for MemClock {
    ghost use Rattle.std.specs.Prelude.{ℕ, List};

    ghost Value = { ℕ × List ℕ };

    ghost view = { λ c. (c.next, c.rest.items) };
}

impl MemClock {
    /// A clock that tells this moment, and then these. Takes no memory.
    pub fn new(alloc: Global, first: Moment, rest: Vec<Moment>) -> MemClock
        ensures { result ≡ (first, rest.items) }
    {
        MemClock {
            alloc,
            next: first,
            rest: VecDeque::from_vec(rest),
        }
    }
}

impl Clock for MemClock {
    ghost hours = { λ c. Some c };

    fn now(&mut self) -> Moment {
        let moment = self.next;
        if let Some(next) = self.rest.pop_front() {
            self.next = next;
        }
        moment
    }

    fn another(&self) -> Result<MemClock, AllocError> {
        Ok(MemClock {
            alloc: self.alloc,
            next: self.next,
            rest: self.rest.clone()?,
        })
    }
}
