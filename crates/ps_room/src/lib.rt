//! A room: what each entry does to it, what each connection is sent at it, and what it keeps for those who
//! look later.
#![tactic(auto)]

pub mod entry;
pub mod law;
pub mod line;
pub mod opening;
pub mod outcome;
pub mod room;
mod start;
pub mod state;
