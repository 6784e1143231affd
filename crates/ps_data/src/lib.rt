//! Reading JSON values by a form: what a value stands for, or its first fault with its path.
//!
//! A reader mirrors a definition, one function for each: `Gives result (form (view value.now))` says
//! that it returns what the form says, unless memory ran out. Keys are read in the order in which
//! the form names them, so the first fault in that order is the one that is reported.
#![tactic(auto)]

pub mod entries;
pub mod fault;
pub mod file_fault;
pub mod forms;
pub mod ids;
pub mod keys;
pub mod lists;
pub mod new_ids;
pub mod rows;
pub mod table;
pub mod words;
pub mod writing;
