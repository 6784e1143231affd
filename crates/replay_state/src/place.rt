//! Entries, each with its place.
ghost use Rattle.std.specs.Prelude.{◌≡◌};
ghost use Rattle.replay_state.specs.Entries.{hall_entry, badge_past};

use ps_base::badge::Badge;
use ps_base::number::{ConnNo, Moment, RoomNo};
use ps_hall::entry::HallEntry;
use ps_lines::command::HallCmd;
use ps_room::entry::Entry;
use ps_room::outcome::Ending;

/// An entry of the hall, or of the room with this number.
#[derive(Drop)]
pub enum Placed {
    Hall(HallEntry),
    Room(RoomNo, Entry),
}

/// What a line of a script brings about.
#[derive(Drop)]
pub enum Happening {
    /// An entry takes its place.
    Entry(Placed),
    /// The connection has given too many texts to one place, and its session is over.
    Ended(ConnNo),
}

/// What comes of an entry.
#[derive(Drop)]
pub(crate) struct EntryOut {
    /// The end of the battle that it ended.
    pub(crate) ended: Option<Ending>,
    /// The badge that its sender has from it on, where it is one of the hall by which that took a name.
    pub(crate) badge: Option<Badge>,
}

/// An entry of the hall.
pub(crate) fn hall_entry(moment: Moment, conn: ConnNo, cmd: HallCmd) -> Placed
    ensures { result ≡ hall_entry moment conn cmd }
{
    Placed::Hall(HallEntry { conn, moment, cmd })
}

/// Lets a value go. It is generic on purpose: the proof of who ends an entry or a command by this call has one step for that, since how
/// a type is dropped is proved once, where a value that ends by itself is taken apart in the proof of each place.
pub(crate) fn let_go<T: Drop>(value: T) {}

/// The badge that a session gets from its entry, which gave this one: that which it lent to an entry of a room comes back.
pub(crate) fn badge_past(placed: Placed, badge: Option<Badge>) -> Option<Badge>
    ensures { result ≡ badge_past placed badge }
{
    match placed {
        Placed::Hall(entry) => {
            let_go(entry);
            badge
        }
        Placed::Room(_, entry) => {
            let_go(entry.cmd);
            Some(entry.badge)
        }
    }
}
