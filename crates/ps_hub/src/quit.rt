//! The end of a connection.
ghost use Rattle.std.specs.Prelude.{◌≡◌, ◌++◌, All, IsSome, IfErr, OnOk, OnErr};
ghost use Rattle.std.specs.List.{AllZip};
ghost use Rattle.ps_hub.specs.Hubs.{Hub};
ghost use Rattle.server_pass.specs.Passes.{Adds};
ghost use Rattle.ps_hub.specs.Passes.{AreOf, IsHallPass, IsRoomPass};
ghost use Rattle.ps_lines.specs.declared.command.Command.TheVariants.{Quit};
ghost use Rattle.server_places.specs.declared.command.RoomCmd.TheVariants.{Play};
ghost use Rattle.server_places.specs.Sites.{room_signer};
ghost use Rattle.ps_histlock.specs.Locks.{IsNameTaken};
ghost use Rattle.server_places.specs.Rooms.{Answers, PullsUpTo};
ghost use Rattle.server_pass.specs.Turns.{TakesAtLast, IfKeptOut, Rereads, TurnsInTheEnd};
ghost use Rattle.ps_hub.specs.Calls.{room_entry, Quits, MayQuit, QuitsRoom, StaysInRoom, QuitsRoomAtMost};
ghost use Rattle.ps_hub.specs.Calls.{QuitsHall, StaysInHall, QuitsHallAtMost, HallOnly, IsShutOut, IsShutOutAmong};

use crate::hub::Hub;
use crate::out::QuitFault;
use crate::pass::{HallPass, RoomPass};
use crate::passes::Passes;
use crate::pauses::Pauses;
use ps_base::badge::Badge;
use ps_base::number::{ConnNo, Moment};
use ps_hall::entry::HallEntry;
use ps_histlock::HistLock;
use ps_lines::command::{Command, HallCmd};
use ps_room::entry::Entry;
use server_pass::turn_end::{TurnEnd, Waited};
use server_places::command::RoomCmd;
use server_places::hall_place::HallPlace;
use server_places::room_place::RoomPlace;
use std::alloc::{AllocError, Global};
use std::sync::Wait;

// The Quit in the hall, which is tried again after a pause while there is none, for want of memory or since the pass is full, and a
// pause is left.
fn quit_by_hall_pass<R: Wait>(
    rt: &R,
    pass: &mut HallPass,
    lock: &HistLock<HallPlace>,
    conn: ConnNo,
    moment: Moment,
    pauses: &mut Pauses,
) -> Result<(), AllocError>
    requires lock { pass.old.pass.0 ≡ lock.now.0 }
    requires of { (hub : Hub) × IsHallPass hub conn pass.old }
    ensures of { (hub : Hub) → IsHallPass hub conn pass.old → IsHallPass hub conn pass.new }
    ensures adds { Adds pass.old.pass.1 pass.new.pass.1 }
    ensures ok { OnOk result (QuitsHall conn moment pass.old pass.new) }
    ensures err { OnErr result (StaysInHall pass.old pass.new) }
{
    for _ in rt.forever() {
        let entry = HallEntry {
            conn,
            moment,
            cmd: HallCmd::Quit,
        };
        match pass.turn_unread(rt, lock, entry) {
            TurnEnd::Done { out: () } => return Ok(()),
            // Not met: the connection's own Open is signed by its number, so nobody else's entry can be.
            TurnEnd::NameTaken => return Err(AllocError),
            TurnEnd::NoMemory => {}
        }
        if !pauses.take(rt) {
            return Err(AllocError);
        }
    }
    unreachable!()
}

// One try of the Quit in a room.
fn try_quit<R: Wait>(
    rt: &R,
    alloc: Global,
    pass: &mut RoomPass,
    lock: &HistLock<RoomPlace>,
    conn: ConnNo,
    badge: &Badge,
    moment: Moment,
) -> Waited
    requires lock { pass.old.pass.0 ≡ lock.now.0 }
    requires of { (hub : Hub) × IsRoomPass hub conn pass.old }
    ensures lock { pass.new.pass.0 ≡ pass.old.pass.0 }
    ensures of { (hub : Hub) → IsRoomPass hub conn pass.old → IsRoomPass hub conn pass.new }
    ensures same { (pass.new.at ≡ pass.old.at) × (pass.new.number ≡ pass.old.number) × (pass.new.id ≡ pass.old.id) }
    ensures does { TakesAtLast Answers PullsUpTo pass.old.pass.1 pass.old.cursor (pass.old.kept.items ++ pass.old.fresh.items)
        (Play (room_entry conn badge.now moment Quit)) result pass.new.pass.1 pass.new.cursor
        (pass.new.kept.items ++ pass.new.fresh.items) }
    ensures taken { IfKeptOut result (IsNameTaken room_signer pass.old.pass.1.said pass.new.pass.1.seen
        (Play (room_entry conn badge.now moment Quit))) }
{
    let badge = match badge.copy(alloc) {
        Ok(badge) => badge,
        Err(_) => return TurnEnd::NoMemory,
    };
    let entry = Entry {
        conn,
        badge,
        moment,
        cmd: Command::Quit,
    };
    pass.turn_unread(rt, lock, RoomCmd::Play(entry))
}

// The Quit in a room, tried again in the same way.
fn quit_by_room_pass<R: Wait>(
    rt: &R,
    alloc: Global,
    pass: &mut RoomPass,
    lock: &HistLock<RoomPlace>,
    conn: ConnNo,
    badge: &Badge,
    moment: Moment,
    pauses: &mut Pauses,
) -> Result<(), QuitFault>
    requires lock { pass.old.pass.0 ≡ lock.now.0 }
    requires of { (hub : Hub) × IsRoomPass hub conn pass.old }
    ensures of { (hub : Hub) → IsRoomPass hub conn pass.old → IsRoomPass hub conn pass.new }
    ensures same { (pass.new.at ≡ pass.old.at) × (pass.new.number ≡ pass.old.number) × (pass.new.id ≡ pass.old.id) }
    ensures taken { IfErr result (IsShutOut conn pass.new) }
    ensures ok { OnOk result (TurnsInTheEnd pass.old.pass.1 (Play (room_entry conn badge.now moment Quit)) pass.new.pass.1) }
    ensures err { OnErr result ((pass.new.cursor ≡ pass.old.cursor) × Rereads pass.old.pass.1 pass.new.pass.1) }
{
    for _ in rt.forever() {
        match try_quit(rt, alloc, pass, lock, conn, badge, moment) {
            TurnEnd::Done { out: () } => return Ok(()),
            TurnEnd::NameTaken => return Err(QuitFault::Taken),
            TurnEnd::NoMemory => {}
        }
        if !pauses.take(rt) {
            return Err(QuitFault::NoMemory);
        }
    }
    unreachable!()
}

impl Hub {
    /// Makes the entries of the end of a connection: a Quit in each room that it holds, by rising numbers, and then one in the
    /// hall. A Quit that fails for want of memory, or since its pass has made as many entries as it may, is tried again after a pause,
    /// for ten seconds in all; then each that is left is tried once. Where some were not made the answer tells of the first: `Taken`
    /// where an entry stands in that room under the number of the connection that its pass there hasn't made, `NoMemory` otherwise.
    /// Then each place that is held has its Quit, or no entry more.
    pub fn quit<R: Wait>(
        &self,
        rt: &R,
        passes: &mut Passes,
        moment: Moment,
    ) -> Result<(), QuitFault>
        requires of { AreOf self.now passes.old }
        requires may { MayQuit passes.old }
        ensures of { AreOf self.now passes.new }
        ensures taken { IfErr result (IsShutOutAmong passes.old.conn passes.new.rooms.items) }
        ensures does { Quits moment passes.old result passes.new }
    {
        let mut pauses = Pauses::new();
        let conn = passes.conn;
        let rooms = self.quit_rooms(
            rt,
            &mut passes.rooms,
            conn,
            &passes.badge,
            moment,
            &mut pauses,
        );
        let hall = self.quit_hall(rt, passes, moment, &mut pauses);
        match rooms {
            Err(fault) => Err(fault),
            Ok(()) => match hall {
                Ok(()) => Ok(()),
                Err(_) => Err(QuitFault::NoMemory),
            },
        }
    }

    // The Quits in the rooms that are held. What one fails for is told, if no earlier one has failed.
    fn quit_rooms<R: Wait>(
        &self,
        rt: &R,
        rooms: &mut [RoomPass],
        conn: ConnNo,
        badge: &Option<Badge>,
        moment: Moment,
        pauses: &mut Pauses,
    ) -> Result<(), QuitFault>
        requires of { All (IsRoomPass self.now conn) rooms.old }
        requires may { All (λ k. IsSome k.id → IsSome badge.now) rooms.old }
        ensures of { All (IsRoomPass self.now conn) rooms.new }
        ensures taken { IfErr result (IsShutOutAmong conn rooms.new) }
        ensures ok { OnOk result (AllZip (QuitsRoom badge.now conn moment) rooms.old rooms.new) }
        ensures most { AllZip (QuitsRoomAtMost badge.now conn moment) rooms.old rooms.new }
    {
        let mut done = Ok(());
        for pass_index in 0..rooms.len() {
            let made = self.quit_room(rt, &mut rooms[pass_index], conn, badge, moment, pauses);
            done = done.and(made);
        }
        done
    }

    // The Quit in the room of this pass, if it is held.
    fn quit_room<R: Wait>(
        &self,
        rt: &R,
        pass: &mut RoomPass,
        conn: ConnNo,
        badge: &Option<Badge>,
        moment: Moment,
        pauses: &mut Pauses,
    ) -> Result<(), QuitFault>
        requires of { IsRoomPass self.now conn pass.old }
        requires may { IsSome pass.old.id → IsSome badge.now }
        ensures of { IsRoomPass self.now conn pass.new }
        ensures taken { IfErr result (IsShutOut conn pass.new) }
        ensures ok { OnOk result (QuitsRoom badge.now conn moment pass.old pass.new) }
        ensures err { OnErr result (StaysInRoom pass.old pass.new) }
    {
        match &pass.id {
            None => return Ok(()),
            Some(_) => {}
        }
        let Some(badge) = badge else { unreachable!() };
        let lock = self.lock(pass.number);
        quit_by_room_pass(rt, self.alloc, pass, lock, conn, badge, moment, pauses)
    }

    // The Quit in the hall.
    fn quit_hall<R: Wait>(
        &self,
        rt: &R,
        passes: &mut Passes,
        moment: Moment,
        pauses: &mut Pauses,
    ) -> Result<(), AllocError>
        requires { AreOf self.now passes.old }
        ensures of { AreOf self.now passes.new }
        ensures ok { OnOk result (HallOnly (QuitsHall passes.old.conn moment) passes.old passes.new) }
        ensures most { HallOnly (QuitsHallAtMost passes.old.conn moment) passes.old passes.new }
    {
        let conn = passes.conn;
        let Some(hall) = &mut passes.hall else {
            unreachable!()
        };
        quit_by_hall_pass(rt, hall, self.hall_lock(), conn, moment, pauses)
    }
}
