//! The hall and the rooms together: what each line of a script brings about, and what it prints.
#![tactic(auto)]

mod heads;
mod hearers;
mod notes;
pub mod place;
mod places;
mod play;
mod print;
pub mod ranks;
mod replay_room;
mod short_room;
pub mod table;
pub mod transcript;
