//! What psd needs of the outside, as traits, with versions in memory and over std.
//!
//! Each trait has a count of faults, which never falls, and answers `Failed` only where that count
//! rose in the call. What an object holds is known to contracts or not: the versions in memory make it known, and the
//! adapters to the real outside make nothing known that std doesn't.
#![tactic(auto)]

pub mod clock;
pub mod door;
pub mod files;
pub mod host_clock;
pub mod host_files;
pub mod link;
pub mod sink;
pub mod source;
pub mod spawner;

/// A call that the outside refused.
#[derive(Clone, Copy, Debug, PartialEq, Eq)]
pub struct Failed;
