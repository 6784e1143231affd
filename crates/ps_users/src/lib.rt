//! Who is connected, and under which names: names, logins, and who is online.
#![tactic(auto)]

pub mod account;
pub mod assertion;
pub mod conn_map;
pub mod rank;
pub mod read;
pub mod seating;
pub mod users;
