//! How fast the messages of a client are read.

use std::num::NonZeroU32;
use std::time::Duration;

// How long a bucket takes to fill, in seconds.
const FILLS: u64 = 4;

/// A bucket of leaves to read one message: so many come a second, and it holds those of four seconds. Times are told since the
/// begin of the link.
#[derive(Clone, Copy, Debug)]
pub(crate) struct Bucket {
    // How long it takes until one more leave is there.
    each: Duration,
    // When it is full.
    full_at: Duration,
}

impl Bucket {
    /// A full one, to which so many leaves come a second; for `None` it never runs out.
    pub(crate) fn new(rate: Option<NonZeroU32>) -> Bucket {
        let each = match rate {
            None => Duration::ZERO,
            Some(rate) => Duration::from_nanos(1_000_000_000 / u64::from(rate.get())),
        };
        Bucket {
            each,
            full_at: Duration::ZERO,
        }
    }

    /// How long it takes until there is a leave.
    pub(crate) fn wait(&self, now: Duration) -> Duration {
        let with_one_leave = Duration::from_secs(FILLS).saturating_sub(self.each);
        self.full_at
            .saturating_sub(now.saturating_add(with_one_leave))
    }

    /// Takes a leave.
    pub(crate) fn take(&mut self, now: Duration) {
        self.full_at = self.full_at.max(now).saturating_add(self.each);
    }
}
