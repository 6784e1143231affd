//! Links and a door over WebSocket (RFC 6455), on TCP.
//!
//! They tell nothing of what comes and goes, and count what they answer: the trusted edge of a server.
#![tactic(auto)]

mod bells;
mod bucket;
pub mod door;
mod handshake;
pub mod link;
mod opening;
mod sending;
pub mod settings;
mod wire;
