//! Tests of locks and their passes, and of sessions over links in memory, worked by hand: links that are quiet or fail, texts that are
//! too many, and threads that meet. It has tests alone, and no crate stands on it.
#![tactic(auto)]

#[cfg(test)]
mod connection;
#[cfg(test)]
mod files;
#[cfg(test)]
mod hub_files;
#[cfg(test)]
mod link_tests;
#[cfg(test)]
mod lock_tests;
#[cfg(test)]
mod meet_tests;
#[cfg(test)]
mod thread_tests;
#[cfg(test)]
mod watching;
