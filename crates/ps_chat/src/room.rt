//! A room as its rows read it.
use crate::members::Members;
use ps_base::id_map::IdMap;
use ps_base::number::Moment;
use ps_base::text::Text;
use ps_group::groups::Groups;

/// What a room was opened with, and its record.
pub struct Room {
    pub(crate) title: Text,
    pub(crate) battle: bool,
    pub(crate) groups: Groups,
    pub(crate) staff: u8,
    pub(crate) members: Members,
    /// Room ranks by id.
    pub(crate) ranks: IdMap<u8>,
    /// The moments in which mutes began, by id.
    pub(crate) mutes: IdMap<Moment>,
    /// The banned ids.
    pub(crate) bans: IdMap<()>,
    /// The lowest rank that may talk, if one is set.
    pub(crate) modchat: Option<u8>,
}

// By hand, so that who drops one has one call to prove.
impl Drop for Room {
    fn drop(self) {
        let Room {
            title: _,
            battle: _,
            groups: _,
            staff: _,
            members: _,
            ranks: _,
            mutes: _,
            bans: _,
            modchat: _,
        } = self;
    }
}
