//! Orders.
use crate::command::{Command, HallCmd};
use ps_base::text::Text;

/// What a text of a client asks for, and of whom.
#[derive(Debug, Drop)]
pub enum Order {
    /// A command to the hall.
    Hall(HallCmd),
    /// A command to the room with this id, which is compared as a whole text.
    Room { id: Text, cmd: Command },
}
