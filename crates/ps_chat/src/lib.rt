//! A chat room: who may do what in it, what each command changes and what it tells.
#![tactic(auto)]

mod change;
pub mod chat;
pub mod line;
pub mod lookup;
pub mod members;
pub mod present;
mod refusal;
pub mod room;
mod text;
mod told;
mod verdict;
