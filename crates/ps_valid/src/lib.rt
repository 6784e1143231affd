//! Teams against the rules of a format.
#![tactic(auto)]

pub mod check;
pub mod legal;
mod member;
mod move_rows;
mod set_rows;
mod team_rows;
pub mod verdict;

pub use ps_base::team_rule::TeamRule;
