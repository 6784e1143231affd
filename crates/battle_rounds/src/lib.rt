//! The battle of a room: its rounds, and the choices that wait for the other side's.
#![tactic(auto)]

pub mod bout;
pub mod cast;
pub mod decision;
pub mod finish;
pub mod refusal;
pub mod request;
pub mod room_battle;
pub mod rounds;
