//! Sessions that meet once they have ended.
ghost use Rattle.std.specs.Prelude.{◌≡◌, ◌⊎◌, IsTrue, IsFalse, None};
ghost use Rattle.ps_hub.specs.Meetings.{HallsMeet, RoomsMeet, HasNone};
ghost use Rattle.ps_serve.specs.Ends.{ComeFrom};
ghost use Rattle.ps_serve.specs.Sessions.{AgreeInHall, AgreeInRoom};

use crate::closed::Closed;
use ps_hub::hub::Hub;

impl Closed {
    /// Two sessions of one hub tell one another all that they knew of the hall, where both held it; and whether they did. Then it
    /// is known that they agree on it. Takes no memory and waits for nobody.
    pub fn meet_in_hall(&mut self, hub: &Hub, other: &mut Closed) -> bool
        requires { ComeFrom hub.now self.old.passes × ComeFrom hub.now other.old.passes }
        ensures of { ComeFrom hub.now self.new.passes × ComeFrom hub.now other.new.passes }
        ensures met { IsTrue result → HallsMeet self.old.passes self.new.passes other.old.passes other.new.passes }
        ensures agree { IsTrue result → AgreeInHall self.old.passes other.old.passes }
        ensures apart { IsFalse result → ((self.old.passes.hall ≡ None) ⊎ (other.old.passes.hall ≡ None)) × (self.new ≡ self.old)
            × (other.new ≡ other.old) }
    {
        match &self.passes.hall {
            None => return false,
            Some(_) => {}
        }
        match &other.passes.hall {
            None => return false,
            Some(_) => {}
        }
        hub.meet_in_hall(&mut self.passes, &mut other.passes);
        true
    }

    /// The same of the place of a room, where both held the hall; one may have no pass of that place, and then nothing changes.
    pub fn meet_in_room(&mut self, hub: &Hub, other: &mut Closed, number: u32) -> bool
        requires { ComeFrom hub.now self.old.passes × ComeFrom hub.now other.old.passes }
        ensures of { ComeFrom hub.now self.new.passes × ComeFrom hub.now other.new.passes }
        ensures met { IsTrue result → RoomsMeet number self.old.passes self.new.passes other.old.passes other.new.passes }
        ensures agree { IsTrue result → AgreeInRoom number self.old.passes other.old.passes ⊎ HasNone number self.old.passes
            ⊎ HasNone number other.old.passes }
        ensures apart { IsFalse result → ((self.old.passes.hall ≡ None) ⊎ (other.old.passes.hall ≡ None)) × (self.new ≡ self.old)
            × (other.new ≡ other.old) }
    {
        match &self.passes.hall {
            None => return false,
            Some(_) => {}
        }
        match &other.passes.hall {
            None => return false,
            Some(_) => {}
        }
        hub.meet_in_room(&mut self.passes, &mut other.passes, number);
        true
    }
}
