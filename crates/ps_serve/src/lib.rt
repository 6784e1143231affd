//! Serving connections: one session over a link, from its Open to its Quits.
#![tactic(auto)]

pub mod closed;
mod heard;
mod meet;
mod obey;
mod send;
pub mod session;
