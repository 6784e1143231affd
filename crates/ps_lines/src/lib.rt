//! Client texts, and the commands that they stand for.
#![tactic(auto)]

mod argument;
pub mod client;
pub mod command;
mod hall_rows;
pub mod order;
mod parts;
pub mod read;
mod room_rows;
pub mod sent_text;
mod word;
