//! Battles: the opening, commits of choices, and forfeits. No call takes memory, and none refuses.
#![tactic(auto)]

mod acting;
mod acts;
mod chosen;
mod closings;
mod effects;
mod openings;
mod residual;
mod switches;
mod turns;

pub use openings::{forfeit, open, phase};
pub use turns::commit;
