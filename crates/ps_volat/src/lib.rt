//! Effects that last while a member is active, and what answers them. Each kind is a call: the active member of a side uses a move on
//! the other one.
//! No call takes memory, and none refuses.
#![tactic(auto)]

pub mod answering;
pub mod covering;
