//! What a player may choose, and what it is asked.
#![tactic(auto)]

pub mod legality;
pub mod ordering;
pub mod request;
pub mod resolution;
mod shown;
pub mod wanted;
