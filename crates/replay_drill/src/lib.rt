//! The script of a drill, which a number of steps determines: eight users in the lobby, and one battle. And what is told of
//! the text that comes of it: its length, its digest and its messages.
#![tactic(auto)]

pub mod counter;
pub mod fight;
mod lines;
pub mod mark;
pub mod script;
mod step;
pub mod tally;
