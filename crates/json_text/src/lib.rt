//! JSON that is written straight into a text, a token at a time, with no tree before it.
#![tactic(auto)]

pub mod json_line;
pub mod quoted;
