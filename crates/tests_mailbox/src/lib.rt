//! Tests of mailboxes, worked by hand: senders in two threads, and numbers that are used up. It has tests alone, and no crate
//! stands on it.
#![tactic(auto)]

#[cfg(test)]
mod mailbox_tests;
