//! Packed teams (TEAMS.md of the simulator), read and written.
#![tactic(auto)]

pub mod fault;
mod field;
mod forms;
mod read;
mod scan;
pub mod set;
pub mod team;
mod word;
pub mod write;
