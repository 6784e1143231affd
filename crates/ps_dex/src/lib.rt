//! The dex: types, factors, moves, species and aliases, as a dex file says them.
#![tactic(auto)]

mod aliases;
pub mod dex;
mod effect;
mod factors;
pub mod fault;
pub mod item;
mod kind;
mod moves;
mod name;
pub mod number;
mod species;
pub mod spelled;
mod tables;
mod types;

pub use ps_data::fault::DataKind;
