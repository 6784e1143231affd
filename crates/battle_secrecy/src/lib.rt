//! Laws of battles that differ in hidden places alone.
#![tactic(auto)]

pub mod law;
