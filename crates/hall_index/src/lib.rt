//! Items in order, found by number and by id.
#![tactic(auto)]

pub mod id_index;
pub mod numbered;
mod numbers;
