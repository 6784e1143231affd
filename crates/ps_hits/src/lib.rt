//! Effects that strike or deal damage. Each kind is a call: the active member of a side uses a move on the other one. No call takes
//! memory, and none refuses.
#![tactic(auto)]

pub mod amounts;
pub mod fighters;
pub mod hits;
pub mod scene;
pub mod shares;
pub mod strike;
