//! The log of a room, each text written once, and read by cursors.
#![tactic(auto)]

pub mod backlog;
pub mod cursor;
pub mod entry;
mod firsts;
mod index;
pub mod law;
pub mod log;
pub mod piece;
pub mod read;
pub mod short_log;
pub mod stored;
