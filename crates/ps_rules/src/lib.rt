//! Formats, and the clauses that their rule lists leave on.
#![tactic(auto)]

pub mod clause;
pub mod fault;
pub mod formats;
mod list;
mod marks;
mod name;
mod read;
pub mod table;
pub mod version;
mod walk;

pub use ps_data::fault::DataKind;
