//! What a person is told of a dex file and a configuration.
#![tactic(auto)]

mod config_rows;
mod dex_rows;
mod drill_rows;
mod format_rows;
mod rows;
mod ruleset_rows;
pub mod show;
mod summary;
pub mod words;
