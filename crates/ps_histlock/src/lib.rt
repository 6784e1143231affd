//! A lock round a value whose history only grows, and passes that know how much of it they have seen.
//!
//! The lock has one word and one slot. The word is 2n where the value is at home and stands for n entries, and 2n + 1
//! where somebody has the turn. Nothing here names a room: what the value is and what its entries do is its own affair.
#![tactic(auto)]

mod home;
mod kept;
mod lock;
mod rule;
mod together;
mod turn;
mod view;

pub use home::Home;
pub use kept::Kept;
pub use lock::{HistLock, OWN_LIMIT, Opener, Pass};
pub use together::{authentic, look_after, no_others};
pub use turn::{Tried, Turn, TurnOf, Unread, Waited};
pub use view::{Entry, View};
