//! The numbers of a battle: closed formulas over plain numbers, and the random source. No call takes memory, and none
//! refuses.
#![tactic(auto)]

pub mod chances;
pub mod draws;
pub mod formula;
pub mod health;
pub mod stages;
pub mod stats;

pub use chances::{accuracy_byte, crit_byte};
pub use draws::Rng5;
pub use formula::{Hit, damage};
pub use health::{hundredths, pixels};
pub use stages::staged;
pub use stats::{dv, hp_dv, hp_stat, stat};
