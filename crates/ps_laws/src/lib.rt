//! Laws of two worlds: what a connection is sent tells it of one world of a room no more than of any other
//! that is the same to it.
#![tactic(auto)]

pub mod law;
pub mod secret;
