//! What helps a person who writes a dex file or a configuration: notes on what they say, and where they are wrong. No clause
//! says what is answered here; no secret comes in, since each file is blanked where it is read.
#![tactic(auto)]

mod data_file;
mod expected;
pub mod fault;
mod marks;
pub mod notes;
mod rows;
mod rules;
mod values;
