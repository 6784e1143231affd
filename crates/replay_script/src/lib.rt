//! Recorded scripts of connections: how one is read, line by line.
#![tactic(auto)]

pub mod input;
pub mod item;
pub mod law;
pub mod line;
pub mod script;
