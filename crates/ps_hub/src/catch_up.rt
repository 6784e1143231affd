//! What a connection wasn't told yet.
ghost use Rattle.std.specs.Prelude.{◌<◌, length};
ghost use Rattle.std.specs.Option.{option_copied};
ghost use Rattle.ps_hub.specs.Passes.{AreOf};
ghost use Rattle.ps_hub.specs.Calls.{CatchesUp, CatchesUpHall, HandsOn, HandsOnHall, IsHeldBy, Catches, HallOnly, RoomOnly};
ghost use Rattle.ps_hub.specs.Calls.{LooksHall, LooksRoom, Counts};

use crate::hub::Hub;
use crate::passes::Passes;
use ps_base::msg::Msg;
use std::alloc::AllocError;
use std::sync::Wait;

impl Hub {
    /// What the connection wasn't told yet of the hall (`None`), or of the room that it holds by this id: the messages that
    /// are kept, and what further turns pull, one piece each, until all was pulled that one look showed. They are handed out
    /// once. `AllocError` if out of memory: then nothing was handed out, and what was pulled stays.
    pub fn catch_up<R: Wait>(
        &self,
        rt: &R,
        passes: &mut Passes,
        room: Option<&str>,
    ) -> Result<Vec<Msg>, AllocError>
        requires of { AreOf self.now passes.old }
        requires held { IsHeldBy (option_copied room) passes.old }
        ensures of { AreOf self.now passes.new }
        ensures does { Catches self.now (option_copied room.entry) passes.old result passes.new }
    {
        match room {
            None => self.catch_up_hall(rt, passes),
            Some(id) => match passes.position_of(id) {
                None => unreachable!(),
                Some(pass_index) => self.catch_up_at(rt, passes, pass_index),
            },
        }
    }

    // The same of the hall.
    fn catch_up_hall<R: Wait>(&self, rt: &R, passes: &mut Passes) -> Result<Vec<Msg>, AllocError>
        requires { AreOf self.now passes.old }
        ensures of { AreOf self.now passes.new }
        ensures does { CatchesUpHall self.now passes.old result passes.new }
    {
        match &mut passes.hall {
            None => unreachable!(),
            Some(hall) => hall.catch_up(rt, self.alloc, self.hall_lock()),
        }
    }

    // The same of the room whose pass stands at this index in the list.
    fn catch_up_at<R: Wait>(
        &self,
        rt: &R,
        passes: &mut Passes,
        pass_index: usize,
    ) -> Result<Vec<Msg>, AllocError>
        requires of { AreOf self.now passes.old }
        requires there { pass_index < length passes.old.rooms.items }
        ensures of { AreOf self.now passes.new }
        ensures does { CatchesUp self.now pass_index passes.old result passes.new }
    {
        let pass = &mut passes.rooms[pass_index];
        let lock = self.lock(pass.number);
        pass.catch_up(rt, self.alloc, lock)
    }

    /// How many entries the hall has at this moment, by a look. Takes no memory.
    pub fn look_hall(&self, passes: &mut Passes) -> u64
        requires { AreOf self.now passes.old }
        ensures of { AreOf self.now passes.new }
        ensures does { HallOnly (LooksHall result) passes.old passes.new }
    {
        match &mut passes.hall {
            None => unreachable!(),
            Some(hall) => hall.look(self.hall_lock()),
        }
    }

    /// How many commands the place has at this moment whose pass stands at this index in the list, by a look. Takes no memory.
    pub fn look_at(&self, passes: &mut Passes, pass_index: usize) -> u64
        requires of { AreOf self.now passes.old }
        requires there { pass_index < length passes.old.rooms.items }
        ensures of { AreOf self.now passes.new }
        ensures does { RoomOnly pass_index (LooksRoom result) passes.old passes.new }
    {
        let pass = &mut passes.rooms[pass_index];
        let lock = self.lock(pass.number);
        pass.look(lock)
    }

    /// A piece of what the connection wasn't told yet of the hall: the messages that are kept. Where none are, and fewer than `until`
    /// entries were passed, those that one turn pulls: at most 64 messages, or the first that have 65,536 bytes together, and
    /// of no entry past `until`. They are handed out once. `AllocError` if out of memory: then nothing was handed out, and what
    /// was pulled stays.
    pub fn hand_on_hall<R: Wait>(
        &self,
        rt: &R,
        passes: &mut Passes,
        until: u64,
    ) -> Result<Vec<Msg>, AllocError>
        requires { AreOf self.now passes.old }
        ensures of { AreOf self.now passes.new }
        ensures does { HandsOnHall self.now passes.old result passes.new }
    {
        match &mut passes.hall {
            None => unreachable!(),
            Some(hall) => hall.hand_on(rt, self.alloc, self.hall_lock(), until),
        }
    }

    /// The same of the room whose pass stands at this index in the list, whether the room is held or not.
    pub fn hand_on_at<R: Wait>(
        &self,
        rt: &R,
        passes: &mut Passes,
        pass_index: usize,
        until: u64,
    ) -> Result<Vec<Msg>, AllocError>
        requires of { AreOf self.now passes.old }
        requires there { pass_index < length passes.old.rooms.items }
        ensures of { AreOf self.now passes.new }
        ensures does { HandsOn self.now pass_index passes.old result passes.new }
    {
        let pass = &mut passes.rooms[pass_index];
        let lock = self.lock(pass.number);
        pass.hand_on(rt, self.alloc, lock, until)
    }

    /// How many entries the hall (`None`), or the room that the connection holds by this id, has at this moment, by a look.
    /// For tests. Takes no memory.
    pub fn count(&self, passes: &mut Passes, room: Option<&str>) -> u64
        requires of { AreOf self.now passes.old }
        requires held { IsHeldBy (option_copied room) passes.old }
        ensures of { AreOf self.now passes.new }
        ensures does { Counts (option_copied room.entry) passes.old result passes.new }
    {
        match room {
            None => self.look_hall(passes),
            Some(id) => match passes.position_of(id) {
                None => unreachable!(),
                Some(pass_index) => self.look_at(passes, pass_index),
            },
        }
    }
}
