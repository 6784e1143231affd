//! What a connection has of one place, whatever stands there: a pass of its lock, how far it was told, and what waits to be
//! handed out. The hall of a server and its rooms are places.
#![tactic(auto)]

pub mod pass;
pub mod told;
mod turn;
pub mod turn_end;
