//! Ratings of rated battles, and the searches for them.
#![tactic(auto)]

pub mod gain;
pub mod ladder;
pub mod scores;
pub mod searches;
mod table;
