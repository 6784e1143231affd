//! The hall: users, whispers, challenges, searches, ratings, and the battles that start.
#![tactic(auto)]

mod account;
mod answer;
mod change;
mod coming;
pub mod cursor;
mod enter;
pub mod entry;
pub mod game;
mod games;
pub mod hall;
pub mod hall_state;
mod keep;
pub mod kept;
pub mod law;
pub mod line;
mod log;
mod lookup;
pub mod notice;
pub mod outcome;
pub mod pack;
pub mod piece;
mod prepare;
mod refusal;
mod report;
mod search_teams;
mod start;
mod state;
mod step;
pub mod told;
