//! What a connection has of one place of a hub.
ghost use Rattle.std.specs.Prelude.{◌≡◌, ◌≢◌, ◌++◌, ℕ, [], Some, IsTrue, IsFalse};
ghost use Rattle.ps_histlock.specs.Views.{newcomer};
ghost use Rattle.server_places.specs.Halls.{hall_cursor};
ghost use Rattle.ps_hub.specs.Hubs.{Hub, root_of, lock_of, site_of};
ghost use Rattle.ps_hub.specs.Passes.{IsHallPass, IsNewPass};

use ps_base::number::ConnNo;
use ps_base::text::Text;
use ps_histlock::{HistLock, Pass};
use server_pass::pass::PlacePass;
use server_places::cursor::{HallCursor, RoomCursor};
use server_places::hall_place::HallPlace;
use server_places::room_place::RoomPlace;
use std::alloc::Global;

/// What a connection has of the hall.
pub type HallPass = PlacePass<Pass<HallPlace>, HallCursor, (), ()>;

/// What a connection has of the place of a room: its number, and the id by which the place is held, which is `None` where it was
/// only asked, or a battle was begun there.
pub type RoomPass = PlacePass<Pass<RoomPlace>, RoomCursor, u32, Option<Text>>;

/// A pass of the hall that has seen nothing and was told nothing. Takes no memory.
pub(crate) fn hall_pass(alloc: Global, conn: ConnNo, lock: &HistLock<HallPlace>) -> HallPass
    ensures pass { (n : ℕ) × (result.pass ≡ (lock.now.0, newcomer lock.now.1 n)) }
    ensures cursor { result.cursor ≡ hall_cursor conn 0 }
    ensures kept { result.kept.items ++ result.fresh.items ≡ [] }
    ensures at { result.at ≡ 0 }
    ensures of { (hub : Hub) → lock.now.0 ≡ hub.hall → lock.now.1 ≡ root_of hub → IsHallPass hub conn result }
{
    PlacePass::new(alloc, lock, (), (), HallCursor::new(conn))
}

/// A pass of the place of a room that has seen nothing, was told nothing, and isn't held. Takes no memory.
pub(crate) fn room_pass(
    alloc: Global,
    conn: ConnNo,
    number: u32,
    lock: &HistLock<RoomPlace>,
) -> RoomPass
    ensures { (hub : Hub) → lock_of hub number ≡ Some lock.now.0 → lock.now.1 ≡ site_of hub number → IsNewPass hub conn number result }
{
    PlacePass::new(alloc, lock, number, None, RoomCursor::new(conn))
}

/// Whether a pass holds its place by this id.
pub(crate) fn is_held(pass: &RoomPass, id: &str) -> bool
    ensures held { IsTrue result → pass.now.id ≡ Some id.now }
    ensures other { IsFalse result → pass.now.id ≢ Some id.now }
{
    match &pass.id {
        None => false,
        Some(held) => held.as_str() == id,
    }
}
