//! Effects on statuses, confusion, stages and health. Each kind is a call: the active member of a side uses a move on the other one.
//! No call
//! takes memory, and none refuses.
#![tactic(auto)]

pub mod afflicting;
pub mod boosting;
pub mod clearing;
pub mod confusing;
pub mod healing;
pub mod seconds;
