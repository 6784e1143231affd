//! The export text of a team, which players copy to and from Pokémon Showdown's teambuilder, read and written.
#![tactic(auto)]

pub mod detail;
pub mod draft;
pub mod fault;
mod first;
mod join;
mod part;
pub mod read;
pub mod sheet;
mod spread;
mod writable;
pub mod write;
