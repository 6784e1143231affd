//! The clock of the host.
ghost use Rattle.std.specs.Prelude.{◌≡◌, None, IfOk};
ghost use Rattle.ps_outside.specs.Clocks.{IsNow, after_now};

use crate::clock::Clock;
use ps_base::number::Moment;
use std::alloc::AllocError;
use std::marker::Model;
use std::rt;
use std::time::{SystemTime, UNIX_EPOCH};

// The seconds since 1970, if the host tells the time.
fn seconds<R: rt::Clock>(host: &R) -> Option<u64> {
    let Ok(time) = SystemTime::now(host) else {
        return None;
    };
    match time.duration_since(UNIX_EPOCH) {
        Ok(duration) => Some(duration.as_secs()),
        Err(_) => None,
    }
}

/// The clock of the host, in seconds since 1970. It tells nothing ahead. Where the host doesn't
/// tell the time it answers the last moment that it told, 0 at first.
#[derive(Drop)]
pub struct HostClock<R: rt::Clock + Copy> {
    host: R,
    last: Moment,
}

impl<R: rt::Clock + Copy> Model for HostClock<R> {
    ghost use Rattle.std.specs.Prelude.{ℕ};

    ghost Value = { ℕ };

    ghost view = { λ c. c.last };
}

impl<R: rt::Clock + Copy> HostClock<R> {
    /// The clock of this host. It has told nothing yet.
    pub fn new(host: R) -> HostClock<R>
        ensures { result ≡ 0 }
    {
        HostClock {
            host,
            last: Moment(0),
        }
    }
}

impl<R: rt::Clock + Copy> Clock for HostClock<R> {
    ghost hours = { λ _. None };

    fn now(&mut self) -> Moment
        ensures known { IsNow None result }
        ensures later { None ≡ after_now None }
        ensures last { self.new ≡ result }
    {
        if let Some(seconds) = seconds(&self.host) {
            self.last = Moment(seconds);
        }
        self.last
    }

    fn another(&self) -> Result<HostClock<R>, AllocError> {
        Ok(HostClock {
            host: self.host,
            last: self.last,
        })
    }
}
