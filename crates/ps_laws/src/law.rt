//! Laws over the definitions.
ghost use Rattle.std.specs.Prelude.{◌≡◌};
ghost use Rattle.ps_room.specs.Stories.{Story, view_of};
ghost use Rattle.ps_laws.specs.Same.{AreSame, UnshownMayBeMissing, IdleMayBeMissing, UndoneLeavesNothing};
ghost use Rattle.ps_laws.specs.HallSame.{HallViewsAreEqual, HallUnshownMayBeMissing, HallAcceptsStart, HallMatchesStart};
ghost use Rattle.ps_laws.specs.HallRatings.{HallRatingsAreResults};

use ps_base::number::ConnNo;

/// *Two worlds* of a room, of a chat or of a battle: two openings with their histories that are the same to a
/// connection give it equal views, message by message. And such worlds there are: in a chat room an entry that
/// shows the connection nothing may as well be missing; in every room so may entries that show it nothing and
/// together leave the record as it was, as a choice does that is taken back. The promise is the statement; the
/// call does nothing.
pub fn law_room(conn: ConnNo)
    ensures equal { (one two : Story) → AreSame conn one two → view_of conn one ≡ view_of conn two }
    ensures met { UnshownMayBeMissing }
    ensures idle { IdleMayBeMissing }
    ensures undone { UndoneLeavesNothing }
{}

/// *Two worlds* of the hall: two stories that are the same to a connection give it equal views, message by
/// message. And such worlds there are: an entry that isn't shown to the connection, and changes nothing of
/// what is shown later, may as well be missing. An allowed Accept starts a battle, and an allowed Search exactly
/// where it is matched. The ladder of each format is the fold over all won reports of its rated battles, and its
/// ratings sum to 1000 times the number of those who were rated. The promise is the statement; the call does
/// nothing.
pub fn law_hall(conn: ConnNo)
    ensures equal { HallViewsAreEqual conn }
    ensures met { HallUnshownMayBeMissing conn }
    ensures starts { HallAcceptsStart }
    ensures matches { HallMatchesStart }
    ensures ratings { HallRatingsAreResults }
{}
