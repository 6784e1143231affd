//! Holding the place of a room.
ghost use Rattle.std.specs.Prelude.{◌≡◌, ◌≢◌, ◌≤◌, ℕ, None, Some, IsTrue, IsFalse, IfOk, OnErr, slice_get};
ghost use Rattle.ps_room.specs.Openings.{first_battle};
ghost use Rattle.ps_hub.specs.Hubs.{lock_of};
ghost use Rattle.ps_hub.specs.Names.{Names};
ghost use Rattle.ps_hub.specs.Passes.{RoomPass, AreOf, IsRoomPass, IsAsBefore, Keeps};
ghost use Rattle.ps_hub.specs.Calls.{Enters, Holds};

use crate::hub::Hub;
use crate::out::EnterFault;
use crate::pass::{RoomPass, is_held, room_pass};
use crate::passes::Passes;
use ps_base::text::Text;
use ps_histlock::Unread;
use ps_room::opening::FIRST_BATTLE;
use server_places::cursor::RoomCursor;
use std::alloc::AllocError;

// Whether the room that a cursor has read has this id.
fn is_found(cursor: &RoomCursor, id: &str) -> bool
    ensures found { IsTrue result → cursor.now.id ≡ Some id.now }
    ensures other { IsFalse result → cursor.now.id ≢ Some id.now }
{
    match &cursor.id {
        None => false,
        Some(found) => found.as_str() == id,
    }
}

impl Hub {
    /// Holds the place of a room by its id.
    ///
    /// A chat room is held at once. At the place of a battle the connection's pass, which is kept or made, takes one turn
    /// without a command: the place is held where the battle that began there has that id. Where the place is held by that
    /// id already nothing changes.
    ///
    /// `NoSuchRoom` never comes for a chat room. It comes where the id isn't `battle-FORMAT-n` with n from 1 to 65,536, where
    /// the place is held by another id, without a turn, and where the turn found no battle, or one with another id. `Busy`
    /// comes only where the turn met an odd word, or two words that differ. The pass is kept then. It waits for nobody.
    pub fn enter(&self, passes: &mut Passes, id: &str) -> Result<(), EnterFault>
        requires { AreOf self.now passes.old }
        ensures of { AreOf self.now passes.new }
        ensures does { Enters self.now id.now passes.old result passes.new }
    {
        match self.enter_at(passes, id) {
            Ok(_) => Ok(()),
            Err(fault) => Err(fault),
        }
    }

    /// The same, and says where the pass stands.
    pub(crate) fn enter_at(&self, passes: &mut Passes, id: &str) -> Result<usize, EnterFault>
        requires { AreOf self.now passes.old }
        ensures of { AreOf self.now passes.new }
        ensures does { Enters self.now id.now passes.old result passes.new }
        ensures here { IfOk result (λ pass_index. (k : RoomPass) × (slice_get passes.new.rooms.items pass_index ≡ Some k)
            × (k.id ≡ Some id.now) × Names self.now.config id.now k.number) }
    {
        let Some(number) = self.place_of(id) else {
            return Err(EnterFault::NoSuchRoom);
        };
        let pass_index = match self.keep(passes, number) {
            Ok(pass_index) => pass_index,
            Err(_) => return Err(EnterFault::NoMemory),
        };
        match self.hold(&mut passes.rooms[pass_index], id) {
            Ok(_) => Ok(pass_index),
            Err(fault) => Err(fault),
        }
    }

    /// The pass of a place that there is, which is made where none is kept; and where it stands. Where memory fails no pass
    /// is added.
    pub(crate) fn keep(&self, passes: &mut Passes, number: u32) -> Result<usize, AllocError>
        requires { lock_of self.now number ≢ None }
        ensures ok { IfOk result (λ pass_index. (k : RoomPass) × Keeps self.now number pass_index passes.old k passes.new) }
        ensures err { OnErr result (IsAsBefore passes.old passes.new) }
    {
        match passes.position(number) {
            Some(pass_index) => return Ok(pass_index),
            None => {}
        }
        let lock = self.lock(number);
        passes.add(room_pass(self.alloc, passes.conn, number, lock))
    }

    // Holds the place of a pass by an id that names it.
    fn hold(&self, pass: &mut RoomPass, id: &str) -> Result<(), EnterFault>
        requires of { (conn : ℕ) × IsRoomPass self.now conn pass.old }
        requires named { Names self.now.config id.now pass.old.number }
        ensures of { (conn : ℕ) → IsRoomPass self.now conn pass.old → IsRoomPass self.now conn pass.new }
        ensures does { Holds self.now id.now pass.old result pass.new }
        ensures number { pass.new.number ≡ pass.old.number }
    {
        if is_held(pass, id) {
            return Ok(());
        }
        let Ok(name) = Text::copy_of(self.alloc, id) else {
            return Err(EnterFault::NoMemory);
        };
        if pass.number < FIRST_BATTLE {
            pass.id = Some(name);
            return Ok(());
        }
        match &pass.id {
            Some(_) => Err(EnterFault::NoSuchRoom),
            None => self.ask(pass, name),
        }
    }

    // Asks the place of a battle for its room.
    fn ask(&self, pass: &mut RoomPass, name: Text) -> Result<(), EnterFault>
        requires of { (conn : ℕ) × IsRoomPass self.now conn pass.old }
        requires battle { first_battle ≤ pass.old.number }
        requires free { pass.old.id ≡ None }
        ensures of { (conn : ℕ) → IsRoomPass self.now conn pass.old → IsRoomPass self.now conn pass.new }
        ensures does { Holds self.now name pass.old result pass.new }
        ensures number { pass.new.number ≡ pass.old.number }
    {
        let lock = self.lock(pass.number);
        match pass.try_read(lock) {
            Ok(()) => {}
            Err(Unread::Busy { word }) => return Err(EnterFault::Busy { word }),
            Err(Unread::NoMemory) => return Err(EnterFault::NoMemory),
        }
        if !is_found(&pass.cursor, name.as_str()) {
            return Err(EnterFault::NoSuchRoom);
        }
        pass.id = Some(name);
        Ok(())
    }
}
