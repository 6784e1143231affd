//! The numbers of a battle: plain data without texts, none of which holds memory.
#![tactic(auto)]

pub mod choice;
pub mod duel;
pub mod effect;
pub mod facts;
pub mod moves;
pub mod opening;
pub mod ordering;
pub mod record;
pub mod slots;
pub mod spending;
pub mod status;
pub mod switching;
pub mod team;
