//! Effects that hit several times, or last for several acts. Each kind is a call: the active member of a side uses a move on the other one.
//! No call takes memory, and none refuses.
#![tactic(auto)]

pub mod charging;
pub mod locking;
pub mod several;
