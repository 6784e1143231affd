//! The hub of a server of running threads: the hall, the chat rooms and the battles, each behind a lock of its own, and what
//! one connection has of them.
//!
//! Nothing here is shared but through those locks, so what a connection does at one place waits for nobody at another.
#![tactic(auto)]

mod admit;
mod catch_up;
mod enter;
pub mod hub;
mod let_go;
mod meet;
mod name;
mod order;
pub mod out;
pub mod pass;
pub mod passes;
mod pauses;
mod quit;
mod start;
