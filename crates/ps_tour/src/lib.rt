//! Single elimination tournaments: a seed draws the order of the entrants, and the winners decide who meets next. No call takes
//! memory.
#![tactic(auto)]

pub mod bracket;
pub mod law;
mod order;
