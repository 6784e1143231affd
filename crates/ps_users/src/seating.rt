//! The open connections, and which of them has an id.
ghost use Rattle.std.specs.Prelude.{◌≡◌, OnOk, OnErr, true, Some, None};
ghost use Rattle.std.specs.Option.{option_copied};
ghost use Rattle.std.specs.FinMap.{get, empty, insert, remove};
ghost use Rattle.ps_base.specs.Ids.{id_of};
ghost use Rattle.ps_users.specs.Seats.{badge_in, is_seat, opened_by, without};

use crate::conn_map::ConnMap;
use ps_base::badge::Badge;
use ps_base::id_map::IdMap;
use ps_base::number::ConnNo;
use std::alloc::{AllocError, Global};
use std::marker::Model;

/// The open connections, each with its badge once it has a name, and the connection of each id that is
/// online: that whose badge has the id.
pub struct Seating {
    seats: ConnMap<Option<Badge>>,
    online: IdMap<ConnNo>,
}

// By hand, so that who drops one has one call to prove.
impl Drop for Seating {
    fn drop(self) {
        let Seating {
            seats: _,
            online: _,
        } = self;
    }
}

impl Model for Seating {
    ghost use Rattle.std.specs.Coded.{codes};
    ghost use Rattle.ps_base.specs.ById.{by_id_code};
    ghost use Rattle.ps_users.specs.ByConn.{by_conn_code};
    ghost use Rattle.ps_users.specs.Seats.{Seated, Agrees};

    ghost Value = { Seated };

    ghost coded = { Prim.hlevel (codes, by_id_code, by_conn_code) };

    ghost view = { λ s. record { seats = s.seats; online = s.online } };

    ghost invariant = { λ s. Agrees (record { seats = s.seats; online = s.online }) };
}

fn open_seat(seats: &mut ConnMap<Option<Badge>>, conn: ConnNo) -> Result<(), AllocError>
    ensures ok { OnOk result (seats.new ≡ opened_by (get seats.old conn) seats.old conn) }
    ensures err { OnErr result (seats.new ≡ seats.old) }
{
    match seats.find(conn) {
        Some(_) => Ok(()),
        None => {
            seats.insert(conn, None)?;
            Ok(())
        }
    }
}

fn take_badge(seats: &mut ConnMap<Option<Badge>>, conn: ConnNo) -> Option<Badge>
    ensures value { result ≡ badge_in seats.old conn }
    ensures after { seats.new ≡ remove seats.old conn }
{
    match seats.take(conn) {
        None => None,
        Some(badge) => badge,
    }
}

fn leave(online: &mut IdMap<ConnNo>, badge: &Option<Badge>)
    ensures { online.new ≡ without badge.now online.old }
{
    match badge {
        None => {}
        Some(badge) => online.remove(badge.name.id().as_str()),
    }
}

fn give_badge(
    alloc: Global,
    seats: &mut ConnMap<Option<Badge>>,
    online: &mut IdMap<ConnNo>,
    conn: ConnNo,
    badge: Badge,
) -> Result<(), AllocError>
    requires { is_seat seats.old conn ≡ true }
    ensures seats { OnOk result (seats.new ≡ insert seats.old conn (Some badge)) }
    ensures online { OnOk result (online.new ≡ insert online.old (id_of badge.name) conn) }
    ensures seats_stay { OnErr result (seats.new ≡ seats.old) }
    ensures online_stays { OnErr result (online.new ≡ online.old) }
{
    online.insert(alloc, badge.name.id().as_str(), conn)?;
    seats.set(conn, Some(badge));
    Ok(())
}

impl Seating {
    ghost use Rattle.ps_users.specs.Seats.{Agrees, opened, closed, named};

    /// Nobody is connected. Takes no memory.
    pub fn new(alloc: Global) -> Seating
        ensures { result ≡ record { seats = empty; online = empty } }
    {
        Seating {
            seats: ConnMap::new(alloc),
            online: IdMap::new(alloc),
        }
    }

    /// Whether a connection is open.
    pub fn is_open(&self, conn: ConnNo) -> bool
        ensures { result ≡ is_seat self.now.seats conn }
    {
        self.seats.find(conn).is_some()
    }

    /// What an open connection has: its badge, once it has a name.
    pub fn seat(&self, conn: ConnNo) -> Option<&Option<Badge>>
        ensures { option_copied result ≡ get self.now.seats conn }
    {
        self.seats.find(conn)
    }

    /// The badge of a connection: `None` where it isn't open or has no name.
    pub fn badge(&self, conn: ConnNo) -> Option<&Badge>
        ensures value { option_copied result ≡ badge_in self.now.seats conn }
        ensures agrees { Agrees self.now }
    {
        match self.seats.find(conn) {
            None => None,
            Some(badge) => badge.as_ref(),
        }
    }

    /// The connection on which an id is online.
    pub fn conn(&self, id: &str) -> Option<ConnNo>
        ensures value { result ≡ get self.now.online id.now }
        ensures agrees { Agrees self.now }
    {
        self.online.get(id)
    }

    /// A connection opens; one that is open stays as it is. Where memory fails nothing changes.
    pub fn open(&mut self, conn: ConnNo) -> Result<(), AllocError>
        ensures ok { OnOk result (self.new ≡ opened self.old conn) }
        ensures err { OnErr result (self.new ≡ self.old) }
    {
        open_seat(&mut self.seats, conn)?;
        Ok(())
    }

    /// A connection closes, and its id is online no more. Takes no memory.
    pub fn close(&mut self, conn: ConnNo)
        ensures { self.new ≡ closed self.old conn }
    {
        let badge = take_badge(&mut self.seats, conn);
        leave(&mut self.online, &badge);
    }

    /// An open connection without a name takes a badge, whose id isn't online. Where memory fails nothing
    /// changes.
    pub fn name(&mut self, alloc: Global, conn: ConnNo, badge: Badge) -> Result<(), AllocError>
        requires open { get self.old.seats conn ≡ Some None }
        requires free { get self.old.online (id_of badge.name) ≡ None }
        ensures ok { OnOk result (self.new ≡ named self.old conn badge) }
        ensures err { OnErr result (self.new ≡ self.old) }
    {
        give_badge(alloc, &mut self.seats, &mut self.online, conn, badge)?;
        Ok(())
    }
}
