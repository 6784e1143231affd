//! The script of a tournament, line by line: who comes, whose line is next, and what comes of the matches. How a battle ended is
//! told by whoever plays the lines.
#![tactic(auto)]

pub mod battle_end;
pub mod entering;
mod lines;
pub mod results;
pub mod stage;
pub mod tour;
pub mod win;
