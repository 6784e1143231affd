//! Commands of a room's place.
use ps_room::entry::Entry;
use rules_start::start::Start;

/// One command for the place of a room.
#[derive(Debug, Drop)]
pub enum RoomCmd {
    /// A battle that two players agreed on. The first that has the number of the place, and can start there, opens the room;
    /// a later one does nothing, and so does every one at the place of a chat room.
    Begin(Start),
    /// An entry of the room. Before the room is open it does nothing.
    Play(Entry),
}
