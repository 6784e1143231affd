//! How far a connection has been told of a place.
ghost use Rattle.std.specs.Prelude.{◌≡◌, ◌≢◌, ◌<◌, ◌≤◌, ◌-◌, max, None, IsTrue, IsFalse, IfSome};
ghost use Rattle.server_places.specs.Sites.{IsAtBound};
ghost use Rattle.server_places.specs.Rooms.{cursor_of};
ghost use Rattle.server_places.specs.Halls.{hall_cursor};

use ps_base::number::ConnNo;
use ps_base::text::Text;
use ps_hall::cursor::Cursor as HallLog;
use ps_splitlog::cursor::Cursor as RoomLog;

/// How far a connection has been told of the hall.
#[derive(Debug, Drop)]
pub struct HallCursor {
    /// How far it has looked into the hall.
    pub hall: HallLog,
    /// How many entries it has passed.
    pub passed: u64,
    /// Where one is set, no entry past so many is pulled. Between two pulls there is none.
    pub until: Option<u64>,
}

impl HallCursor {
    /// Before the first entry. Takes no memory.
    pub fn new(conn: ConnNo) -> HallCursor
        ensures { result ≡ hall_cursor conn 0 }
    {
        HallCursor {
            hall: HallLog::new(conn),
            passed: 0,
            until: None,
        }
    }
}

/// How far a connection has been told of the place of a room.
#[derive(Debug, Drop)]
pub struct RoomCursor {
    /// How far it has read the room's log.
    pub room: RoomLog,
    /// The id of the room, which a battle's place has from the Begin on that opened it. `None` until the connection has looked
    /// where there was a room.
    pub id: Option<Text>,
    /// How many commands of the place it has passed.
    pub passed: u64,
    /// Where one is set, nothing is pulled once so many commands were passed. Between two pulls there is none.
    pub until: Option<u64>,
}

impl RoomCursor {
    /// Before the first command. Takes no memory.
    pub fn new(conn: ConnNo) -> RoomCursor
        ensures { result ≡ cursor_of conn None 0 }
    {
        RoomCursor {
            room: RoomLog::new(conn),
            id: None,
            passed: 0,
            until: None,
        }
    }
}

/// Whether a cursor that has passed so many is to pull nothing.
pub(crate) fn is_at_bound(until: Option<u64>, passed: u64) -> bool
    ensures at { IsTrue result → IsAtBound until passed }
    ensures before { IsFalse result → IfSome until (λ bound. passed < bound) }
{
    match until {
        None => false,
        Some(bound) => bound <= passed,
    }
}

/// How many of `count` entries a pull leaves at least, which goes no further than its bound, or than `plain`.
pub(crate) fn least_left(count: u64, until: Option<u64>, plain: u64) -> u64
    ensures within { result ≤ count }
    ensures least { IfSome until (λ bound. result ≤ count - bound) }
    ensures plain { result ≤ count - plain }
    ensures all { until ≡ None → result ≡ 0 }
{
    match until {
        None => 0,
        Some(bound) => count.saturating_sub(bound.max(plain)),
    }
}
