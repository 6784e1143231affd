//! Replays a recorded script of connections, runs drills, plays tournaments, and does all else that the words of the program ask for.
#![tactic(auto)]

mod archive;
mod drill;
mod matches;
pub mod replay;
pub mod run;
pub mod run_kept;
mod setup;
mod standings;
mod summary;
pub mod symbols;
mod tour;
