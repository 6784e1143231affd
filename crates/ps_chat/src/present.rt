//! Members.
use ps_base::badge::Badge;
use ps_base::number::ConnNo;

/// A member of a room.
#[derive(Debug)]
pub struct Present {
    /// The connection.
    pub conn: ConnNo,
    /// The badge of its Join. A rank past the list of groups counts as the last group's.
    pub badge: Badge,
    /// The higher of the badge's rank and the room rank of its id.
    pub rank: u8,
}

// By hand, so that who drops one has one call to prove.
impl Drop for Present {
    fn drop(self) {
        let Present {
            conn: _,
            badge: _,
            rank: _,
        } = self;
    }
}
