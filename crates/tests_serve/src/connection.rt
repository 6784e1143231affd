//! How many entries a room has that a connection holds.
ghost use Rattle.std.specs.Prelude.{◌≡◌, IsTrue, Some};
ghost use Rattle.ps_hub.specs.Passes.{AreOf};
ghost use Rattle.ps_hub.specs.Calls.{IsHeldBy};

use ps_hub::hub::Hub;
use ps_hub::pass::RoomPass;
use ps_hub::passes::Passes;

fn is_held(pass: &RoomPass, id: &str) -> bool
    ensures { IsTrue result → pass.now.id ≡ Some id.now }
{
    match &pass.id {
        None => false,
        Some(held) => held.as_str() == id,
    }
}

/// Whether the first of the connection's passes of rooms holds this one.
fn holds(passes: &Passes, id: &str) -> bool
    ensures { IsTrue result → IsHeldBy (Some id.now) passes.now }
{
    match passes.rooms.first() {
        None => false,
        Some(pass) => is_held(pass, id),
    }
}

/// How many entries a room has; None if it isn't the first that the connection holds.
pub(crate) fn count(hub: &Hub, passes: &mut Passes, room: &str) -> Option<u64>
    requires { AreOf hub.now passes.old }
    ensures { AreOf hub.now passes.new }
{
    if !holds(passes, room) {
        return None;
    }
    Some(hub.count(passes, Some(room)))
}
