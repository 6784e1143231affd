//! The line of each event of a battle, for each role: after SIM-PROTOCOL.md.
#![tactic(auto)]

pub mod line;
pub mod names;
pub mod part;
pub mod role;
pub mod row;
pub mod word;
