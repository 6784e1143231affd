//! Serving: opens a door, gives each connection that it hands out a session in a thread of its own, and waits for all of them.
#![tactic(auto)]

pub mod always;
pub mod always_words;
mod journal;
pub mod serve;
