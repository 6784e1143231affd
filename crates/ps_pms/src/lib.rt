//! Blocks and challenges: who takes no whispers and no challenges of whom, and which challenges are open.
#![tactic(auto)]

pub mod asked;
mod blocks;
mod challenges;
pub mod pms;
