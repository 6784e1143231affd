//! What a person is told of a data file: pages of sections and rows, and where in a file a fault is.
#![tactic(auto)]

pub mod page;
