//! What a battle starts with, and whether it can start with that.
#![tactic(auto)]

pub mod fit;
mod member;
pub mod start;
mod team;
