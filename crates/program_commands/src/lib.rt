//! The commands of the program: their words, the files that these name, the statuses that a run ends with, the check of a team
//! against the rules of a format, and teams' export texts.
#![tactic(auto)]

pub mod check;
pub mod config;
pub mod convert;
pub mod dex;
pub mod field;
pub mod file;
pub mod kept_words;
pub mod status;
pub mod words;
