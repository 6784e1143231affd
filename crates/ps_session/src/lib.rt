//! One connection: where its texts go, and how many it gave to each place.
#![tactic(auto)]

mod room_counts;
pub mod session;
mod text;
