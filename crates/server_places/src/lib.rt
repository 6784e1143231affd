//! What stands behind the locks of a server: the hall, and the place of each room.
//!
//! Each is a value with a history (`ps_histlock::Kept`). A place of a battle has no room until a Begin opens it; its room
//! lies in a box, so that the many empty places of a server are small.
#![tactic(auto)]

pub mod command;
pub mod cursor;
pub mod hall_place;
pub mod law;
pub mod room_place;
pub mod site;
