//! What a room tells, and who sees it.
#![tactic(auto)]

pub mod audience;
pub mod event;
pub mod line;
pub mod numbers;
pub mod place;
pub mod side;
pub mod table;
