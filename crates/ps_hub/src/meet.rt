//! Connections that meet.
ghost use Rattle.ps_hub.specs.Passes.{AreOf};
ghost use Rattle.ps_hub.specs.Meetings.{HallsMeet, RoomsMeet};

use crate::hub::Hub;
use crate::passes::Passes;

impl Hub {
    /// Two connections tell one another all that they know of the hall. Then what each has seen begins one and the same history,
    /// with the same numbers and commands; the entries in what both know that are signed by the number of one are those that its
    /// own passes made; and a later look of either shows at least all that both knew. Takes no memory and waits for nobody.
    pub fn meet_in_hall(&self, passes: &mut Passes, other: &mut Passes)
        requires { AreOf self.now passes.old × AreOf self.now other.old }
        ensures of { AreOf self.now passes.new × AreOf self.now other.new }
        ensures met { HallsMeet passes.old passes.new other.old other.new }
    {
        let Some(one) = &mut passes.hall else {
            unreachable!()
        };
        let Some(another) = &mut other.hall else {
            unreachable!()
        };
        one.meet(self.hall_lock(), another);
    }

    /// The same of the place of a room. Nothing changes where not both have a pass of it.
    pub fn meet_in_room(&self, passes: &mut Passes, other: &mut Passes, number: u32)
        requires { AreOf self.now passes.old × AreOf self.now other.old }
        ensures of { AreOf self.now passes.new × AreOf self.now other.new }
        ensures met { RoomsMeet number passes.old passes.new other.old other.new }
    {
        let Some(one) = passes.position(number) else {
            return;
        };
        let Some(another) = other.position(number) else {
            return;
        };
        let lock = self.lock(number);
        passes.rooms[one].meet(lock, &mut other.rooms[another])
    }
}
