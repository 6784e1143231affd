//! The configuration, over a dex: read as its value or its first fault, and the seeds of its battles.
#![tactic(auto)]

pub mod config;
pub mod fault;
pub mod fresh;
mod read;
mod room;
pub mod seed;
pub mod settings;
mod user;

pub use ps_data::fault::DataKind;
