//! Pauses between tries for which memory is wanting.
use std::sync::Wait;
use std::thread::Parker;
use std::time::Duration;

/// How long a pause is, in milliseconds.
const PAUSE: u64 = 100;

/// How many pauses there are: ten seconds in all.
const MOST_PAUSES: u32 = 100;

/// The pauses that are left to the tries of one call.
#[derive(Drop)]
pub(crate) struct Pauses {
    left: u32,
}

impl Pauses {
    /// All of them. Takes no memory.
    pub(crate) fn new() -> Pauses {
        Pauses { left: MOST_PAUSES }
    }

    /// Takes a pause, if one is left, and says whether it did.
    pub(crate) fn take<R: Wait>(&mut self, rt: &R) -> bool {
        if self.left == 0 {
            return false;
        }
        self.left -= 1;
        Parker::new().park_timeout(rt, Duration::from_millis(PAUSE));
        true
    }
}
