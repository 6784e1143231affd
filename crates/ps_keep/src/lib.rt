//! What is kept from one run to the next: notes of rated battles that were won and of acts of staff, and the standings that
//! follow from them.
#![tactic(auto)]

pub mod keeper;
pub mod mem_keeper;
pub mod note;
pub mod sql_keeper;
pub mod standings;
pub mod table;
mod tally;
