//! What a door sets for its links.

use std::num::NonZeroU32;

/// How long the clients of a door may be silent, and how fast they are read.
#[derive(Clone, Copy, Debug, PartialEq, Eq)]
pub struct Settings {
    /// After how many seconds of silence a client is pinged; after twice as many its link has failed. `None`: it may be silent for
    /// ever.
    pub ping: Option<u32>,
    /// How many messages of a client are read a second, after four times as many at once. `None`: as many as come.
    pub rate: Option<NonZeroU32>,
}

impl Settings {
    /// Nobody is pinged, and all is read as it comes.
    pub const NONE: Settings = Settings {
        ping: None,
        rate: None,
    };

    // Whether a link has to look at the clock.
    pub(crate) fn need_clock(&self) -> bool {
        self.ping.is_some() || self.rate.is_some()
    }
}
