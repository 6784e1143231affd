//! Tests of whole servers: links in memory that wait for each other, and doors that fail. A server of the built program and its
//! clients are in `data/cases/server.talk`. It has tests alone, and no crate stands on it.
#![tactic(auto)]

#[cfg(test)]
mod always_tests;
#[cfg(test)]
mod door_tests;
#[cfg(test)]
mod flags;
#[cfg(test)]
mod gate;
#[cfg(test)]
mod gate_tests;
#[cfg(test)]
mod served;
