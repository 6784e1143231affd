//! Entries of a connection.
ghost use Rattle.std.specs.Prelude.{◌≡◌, IfOk, IsSome, Some};
ghost use Rattle.ps_base.specs.declared.badge.Badge.{Badge};
ghost use Rattle.ps_lines.specs.declared.order.Order.TheVariants.{Hall, Room};
ghost use Rattle.ps_histlock.specs.Signs.{SignsAs, Speaks};
ghost use Rattle.server_places.specs.Halls.{hall_signer};
ghost use Rattle.ps_hub.specs.Hubs.{Hub, site_of};
ghost use Rattle.server_pass.specs.Passes.{Adds};
ghost use Rattle.ps_hub.specs.Passes.{AreOf, IsHallPass, IsRoomPass};
ghost use Rattle.ps_hub.specs.Calls.{Orders, HallTakes, RoomTakes, NeedsBadge, name_asked, badge_after, not_entered, room_gave};
ghost use Rattle.ps_room.specs.declared.entry.Entry.{Entry};
ghost use Rattle.server_places.specs.declared.command.RoomCmd.TheVariants.{Play};

use crate::hub::Hub;
use crate::let_go::let_go;
use crate::out::{EnterFault, HubFault, HubOut};
use crate::pass::{HallPass, RoomPass};
use crate::passes::Passes;
use ps_base::badge::Badge;
use ps_base::name::Name;
use ps_base::number::Moment;
use ps_base::text::Text;
use ps_hall::entry::HallEntry;
use ps_hall::outcome::HallOut;
use ps_histlock::HistLock;
use ps_lines::command::{Command, HallCmd};
use ps_lines::order::Order;
use ps_room::entry::Entry;
use ps_room::outcome::RoomOut;
use ps_users::read::read_of;
use server_pass::turn_end::{Back, TurnEnd};
use server_places::command::RoomCmd;
use server_places::hall_place::HallPlace;
use std::alloc::{AllocError, Global};

// The name that a command asks for, made before the entry: then keeping the badge takes no memory.
fn name_of(alloc: Global, cmd: &HallCmd) -> Result<Option<Name>, AllocError>
    ensures { IfOk result (λ name. name ≡ name_asked cmd.now) }
{
    match cmd {
        HallCmd::Name { name, assertion: _ } => read_of(alloc, name.as_str()),
        _ => Ok(None),
    }
}

// Keeps the badge that an entry gave, with the name that was made before.
fn keep_badge(kept: &mut Option<Badge>, gave: &HallOut, name: Option<Name>)
    requires { (badge : Badge) → gave.now.badge ≡ Some badge → name ≡ Some badge.name }
    ensures { kept.new ≡ badge_after kept.old gave.now.badge }
{
    match &gave.badge {
        None => {}
        Some(badge) => match name {
            None => unreachable!(),
            Some(name) => {
                *kept = Some(Badge {
                    name,
                    rank: badge.rank,
                });
            }
        },
    }
}

// Why an order made no entry, whose place isn't held.
fn not_entered(fault: EnterFault, id: Text, cmd: Command) -> HubFault
    ensures { result ≡ not_entered fault id cmd }
{
    match fault {
        EnterFault::NoSuchRoom => {
            let_go(id);
            let_go(cmd);
            HubFault::NoSuchRoom
        }
        EnterFault::Busy { word } => HubFault::Busy {
            word,
            order: Order::Room { id, cmd },
        },
        EnterFault::NoMemory => {
            let_go(id);
            let_go(cmd);
            HubFault::NoMemory
        }
    }
}

// The order of an entry that comes back.
fn order_again(id: Text, cmd: RoomCmd) -> Order
    requires { (entry : Entry) × (cmd ≡ Play entry) }
    ensures { (entry : Entry) → cmd ≡ Play entry → result ≡ Room id entry.cmd }
{
    match cmd {
        RoomCmd::Begin(_) => unreachable!(),
        RoomCmd::Play(entry) => Order::Room { id, cmd: entry.cmd },
    }
}

// What an entry of a room gave.
fn room_gave(gave: Option<RoomOut>) -> HubOut
    ensures { result ≡ room_gave gave }
{
    match gave {
        None => HubOut {
            badge: None,
            start: None,
            ended: None,
            verdict: None,
        },
        Some(out) => HubOut {
            badge: None,
            start: None,
            ended: out.ended,
            verdict: Some(out.verdict),
        },
    }
}

// One entry of the hall.
fn enter_hall(
    pass: &mut HallPass,
    lock: &HistLock<HallPlace>,
    entry: HallEntry,
) -> Result<HallOut, HubFault>
    requires lock { pass.old.pass.0 ≡ lock.now.0 }
    requires signs { SignsAs hall_signer entry.conn pass.old.pass.1.said × Speaks hall_signer entry.conn pass.old.pass.1.said }
    ensures of { (hub : Hub) → IsHallPass hub entry.conn pass.old → IsHallPass hub entry.conn pass.new }
    ensures adds { Adds pass.old.pass.1 pass.new.pass.1 }
    ensures does { HallTakes entry pass.old result pass.new }
    ensures at { pass.new.at ≡ pass.old.at }
{
    match pass.try_turn(lock, entry) {
        TurnEnd::Done { out } => Ok(out),
        TurnEnd::Busy {
            back: Back { word, cmd },
        } => Err(HubFault::Busy {
            word,
            order: Order::Hall(cmd.cmd),
        }),
        TurnEnd::OwnLimit { reason: () } => Err(HubFault::OwnLimit { room: None }),
        TurnEnd::NameTaken => unreachable!(),
        TurnEnd::NoMemory => Err(HubFault::NoMemory),
    }
}

impl Hub {
    /// Makes one entry of the connection at the place that the order names, with the badge that the passes keep. An order to
    /// a room that isn't held by the order's id enters it first, as `enter` does.
    ///
    /// What the entry gave is answered. Its messages, and all that the connection wasn't told before, stay in the passes until
    /// `catch_up` hands them out. A badge that a Name gave is kept from now on.
    ///
    /// `NoSuchRoom` and `Busy` come as of `enter`, and then there is no entry. `Busy` also comes where the turn of the entry
    /// met an odd word, or two words that differ; the order comes back. `OwnLimit` comes exactly where the connection's pass
    /// has made `OWN_LIMIT` entries at the place. `Taken` comes only where an entry stands in the room under the number of the
    /// connection, which its pass hasn't made, and then there is no entry. After `NoMemory` there is no entry; where memory ran out
    /// only for what an entry tells, that is still to come.
    /// It waits for nobody.
    pub fn order(
        &self,
        passes: &mut Passes,
        order: Order,
        moment: Moment,
    ) -> Result<HubOut, HubFault>
        requires of { AreOf self.now passes.old }
        requires badge { NeedsBadge order passes.old }
        ensures of { AreOf self.now passes.new }
        ensures does { Orders self.now order moment passes.old result passes.new }
    {
        match order {
            Order::Hall(cmd) => self.order_hall(passes, cmd, moment),
            Order::Room { id, cmd } => self.order_room(passes, id, cmd, moment),
        }
    }

    // An order to the hall.
    fn order_hall(
        &self,
        passes: &mut Passes,
        cmd: HallCmd,
        moment: Moment,
    ) -> Result<HubOut, HubFault>
        requires { AreOf self.now passes.old }
        ensures of { AreOf self.now passes.new }
        ensures does { Orders self.now (Hall cmd) moment passes.old result passes.new }
    {
        let Ok(name) = name_of(self.alloc, &cmd) else {
            let_go(cmd);
            return Err(HubFault::NoMemory);
        };
        let entry = HallEntry {
            conn: passes.conn,
            moment,
            cmd,
        };
        let Some(hall) = &mut passes.hall else {
            unreachable!()
        };
        let gave = match enter_hall(hall, self.hall_lock(), entry) {
            Ok(gave) => gave,
            Err(fault) => return Err(fault),
        };
        keep_badge(&mut passes.badge, &gave, name);
        Ok(HubOut {
            badge: gave.badge,
            start: gave.start,
            ended: None,
            verdict: None,
        })
    }

    // An order to a room.
    fn order_room(
        &self,
        passes: &mut Passes,
        id: Text,
        cmd: Command,
        moment: Moment,
    ) -> Result<HubOut, HubFault>
        requires of { AreOf self.now passes.old }
        requires badge { IsSome passes.old.badge }
        ensures of { AreOf self.now passes.new }
        ensures does { Orders self.now (Room id cmd) moment passes.old result passes.new }
    {
        let badge = match &passes.badge {
            None => unreachable!(),
            Some(badge) => match badge.copy(self.alloc) {
                Ok(badge) => badge,
                Err(_) => {
                    let_go(id);
                    let_go(cmd);
                    return Err(HubFault::NoMemory);
                }
            },
        };
        let pass_index = match self.enter_at(passes, id.as_str()) {
            Ok(pass_index) => pass_index,
            Err(fault) => {
                let_go(badge);
                return Err(not_entered(fault, id, cmd));
            }
        };
        let entry = Entry {
            conn: passes.conn,
            badge,
            moment,
            cmd,
        };
        self.play(&mut passes.rooms[pass_index], id, entry)
    }

    // One entry at a place that is held by this id.
    fn play(&self, pass: &mut RoomPass, id: Text, entry: Entry) -> Result<HubOut, HubFault>
        requires { IsRoomPass self.now entry.conn pass.old }
        ensures of { IsRoomPass self.now entry.conn pass.new }
        ensures does { RoomTakes (site_of self.now pass.old.number) id entry pass.old result pass.new }
        ensures same { (pass.new.at ≡ pass.old.at) × (pass.new.number ≡ pass.old.number) × (pass.new.id ≡ pass.old.id) }
    {
        let lock = self.lock(pass.number);
        match pass.try_turn(lock, RoomCmd::Play(entry)) {
            TurnEnd::Done { out } => Ok(room_gave(out)),
            TurnEnd::Busy {
                back: Back { word, cmd },
            } => Err(HubFault::Busy {
                word,
                order: order_again(id, cmd),
            }),
            TurnEnd::OwnLimit { reason: () } => Err(HubFault::OwnLimit { room: Some(id) }),
            TurnEnd::NameTaken => Err(HubFault::Taken),
            TurnEnd::NoMemory => Err(HubFault::NoMemory),
        }
    }
}
