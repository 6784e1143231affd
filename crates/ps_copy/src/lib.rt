//! Effects that copy something of the foe, or that use another move. One call serves them all: the active member of a side uses a move
//! on the other one. It takes no memory, and it doesn't refuse.
#![tactic(auto)]

mod calling;
mod changing;
pub mod copies;
mod disabling;
mod learning;
