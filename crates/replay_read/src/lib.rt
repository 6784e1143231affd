//! What a reader finds in a transcript.
#![tactic(auto)]

pub mod law;
