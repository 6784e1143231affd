//! What a connection has of a hub.
ghost use Rattle.std.specs.Prelude.{◌≡◌, ◌≢◌, ◌≤◌, [], None, Some, All, IfOk, IfSome, IfNone, OnErr, length, slice_get};
ghost use Rattle.ps_hub.specs.Passes.{RoomPass, IsAdded, IsAsBefore, IsGap};

use crate::pass::{HallPass, RoomPass, is_held};
use ps_base::badge::Badge;
use ps_base::number::ConnNo;
use std::alloc::{AllocError, Global};

/// What a connection has of a hub: its number and badge, its pass of the hall, and its passes of rooms' places, by rising
/// numbers: those that it holds, asked, or began a battle at.
pub struct Passes {
    /// The number of the connection.
    pub conn: ConnNo,
    /// The badge that it got by its Name.
    pub badge: Option<Badge>,
    /// What it has of the hall.
    pub hall: Option<HallPass>,
    /// What it has of the places of rooms.
    pub rooms: Vec<RoomPass>,
}

// By hand, so that who drops one has one call to prove.
impl Drop for Passes {
    fn drop(self) {
        let Passes {
            conn: _,
            badge: _,
            hall: _,
            rooms: _,
        } = self;
    }
}

impl Passes {
    /// Passes that come from no hub, and hold no place. Takes no memory.
    pub fn none(alloc: Global, conn: ConnNo) -> Passes
        ensures conn { result.conn ≡ conn }
        ensures badge { result.badge ≡ None }
        ensures hall { result.hall ≡ None }
        ensures rooms { result.rooms.items ≡ [] }
    {
        Passes {
            conn,
            badge: None,
            hall: None,
            rooms: Vec::new(alloc),
        }
    }

    /// Where the pass of a place stands, if one is kept.
    pub(crate) fn position(&self, number: u32) -> Option<usize>
        ensures found { IfSome result (λ i. (k : RoomPass) × (slice_get self.now.rooms.items i ≡ Some k) × (k.number ≡ number)) }
        ensures none { IfNone result (All (λ k. k.number ≢ number) self.now.rooms.items) }
    {
        let rooms = self.rooms.as_slice();
        for pass_index in 0..rooms.len() {
            if rooms[pass_index].number == number {
                return Some(pass_index);
            }
        }
        None
    }

    /// Where the pass of the room that is held by this id stands, if there is one.
    pub(crate) fn position_of(&self, id: &str) -> Option<usize>
        ensures found { IfSome result (λ i. (k : RoomPass) × (slice_get self.now.rooms.items i ≡ Some k) × (k.id ≡ Some id.now)) }
        ensures none { IfNone result (All (λ k. k.id ≢ Some id.now) self.now.rooms.items) }
    {
        let rooms = self.rooms.as_slice();
        for pass_index in 0..rooms.len() {
            if is_held(&rooms[pass_index], id) {
                return Some(pass_index);
            }
        }
        None
    }

    // Before the first pass of a higher place.
    fn gap(&self, number: u32) -> usize
        ensures within { result ≤ length self.now.rooms.items }
        ensures gap { IsGap number result self.now.rooms.items }
    {
        let rooms = self.rooms.as_slice();
        for pass_index in 0..rooms.len() {
            if number < rooms[pass_index].number {
                return pass_index;
            }
        }
        rooms.len()
    }

    /// Adds a pass, and says where it stands. Where memory fails no pass is added.
    pub(crate) fn add(&mut self, pass: RoomPass) -> Result<usize, AllocError>
        ensures ok { IfOk result (λ pass_index. IsAdded self.old pass_index pass self.new) }
        ensures err { OnErr result (IsAsBefore self.old self.new) }
    {
        let pass_index = self.gap(pass.number);
        self.rooms.insert(pass_index, pass)?;
        Ok(pass_index)
    }
}
