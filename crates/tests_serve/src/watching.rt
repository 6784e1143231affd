//! A connection of a test's own thread, which counts what sessions left.
ghost use Rattle.ps_hub.specs.Passes.{AreOf};

use crate::connection::count;
use ps_base::number::{ConnNo, Moment};
use ps_hub::hub::Hub;
use ps_hub::passes::Passes;
use std::process::Abort;
use std::sync::Wait;

/// The connection that counts. No session of a test has its number.
const COUNTER: u32 = 101;

fn admit<R: Abort + Wait>(rt: &R, hub: &Hub) -> Passes
    ensures { AreOf hub.now result }
{
    match hub.admit(rt, ConnNo(COUNTER), Moment(0)) {
        Ok(passes) => passes,
        Err(_) => rt.abort(),
    }
}

/// Ends what a connection had of a hub, which makes no entry.
fn leave(_passes: Passes) {}

fn enter(rt: &impl Abort, hub: &Hub, passes: &mut Passes, id: &str)
    requires { AreOf hub.now passes.old }
    ensures { AreOf hub.now passes.new }
{
    assert!(rt; hub.enter(passes, id).is_ok());
}

fn enter_and_count(rt: &impl Abort, hub: &Hub, passes: &mut Passes, id: &str) -> u64
    requires { AreOf hub.now passes.old }
{
    enter(rt, hub, passes, id);
    count(hub, passes, id).expect(rt, "a room that is held")
}

/// How many entries a room has, as a further connection counts them, which makes none there. Of a hub once.
pub(crate) fn count_at<R: Abort + Wait>(rt: &R, hub: &Hub, id: &str) -> u64 {
    let mut passes = admit(rt, hub);
    let count = enter_and_count(rt, hub, &mut passes, id);
    leave(passes);
    count
}

fn look_at_hall(hub: &Hub, passes: &mut Passes) -> u64
    requires { AreOf hub.now passes.old }
{
    hub.count(passes, None)
}

/// How many entries the hall has, with the Open of the further connection that counts them. Of a hub once.
pub(crate) fn count_in_hall<R: Abort + Wait>(rt: &R, hub: &Hub) -> u64 {
    let mut passes = admit(rt, hub);
    let count = look_at_hall(hub, &mut passes);
    leave(passes);
    count
}
