//! Lookups in a room.
ghost use Rattle.std.specs.Prelude.{◌≡◌, length};
ghost use Rattle.ps_base.specs.Ids.{id_of};
ghost use Rattle.ps_chat.specs.Lookups.{has_id, lowest, room_rank, rank_with, is_muted, is_banned, is_below_level, is_long_reason};

use crate::present::Present;
use ps_base::badge::Badge;
use ps_base::id_map::IdMap;
use ps_base::number::Moment;
use ps_base::text::Text;
use ps_group::groups::Groups;
use ps_group::rank::{higher, is_below};
use ps_lines::sent_text::is_long;

/// How long a mute lasts, in seconds.
pub const MUTE_SECONDS: u64 = 420;

/// Whether a member has an id.
pub fn has_id(member: &Present, id: &str) -> bool
    ensures { result ≡ has_id id.now member.now }
{
    member.badge.name.id().as_str() == id
}

/// The rank of the last group.
fn lowest(groups: &Groups) -> u8
    ensures { result ≡ lowest groups.now }
{
    groups.count() - 1
}

/// The room rank of an id, or else the lowest.
pub(crate) fn room_rank(groups: &Groups, ranks: &IdMap<u8>, id: &str) -> u8
    ensures { result ≡ room_rank groups.now ranks.now id.now }
{
    ranks.get(id).unwrap_or(lowest(groups))
}

/// The higher of a badge's rank and the room rank of its id.
pub(crate) fn rank_with(groups: &Groups, ranks: &IdMap<u8>, badge: &Badge) -> u8
    ensures { result ≡ rank_with groups.now ranks.now badge.now }
{
    let room = room_rank(groups, ranks, badge.name.id().as_str());
    higher(badge.rank, room)
}

/// Whether an id is muted at a moment.
pub(crate) fn is_muted(mutes: &IdMap<Moment>, moment: Moment, id: &str) -> bool
    ensures { result ≡ is_muted mutes.now moment id.now }
{
    match mutes.get(id) {
        None => false,
        Some(start) => moment.0 < start.0 || moment.0 - start.0 < MUTE_SECONDS,
    }
}

/// Whether an id is banned.
pub(crate) fn is_banned(bans: &IdMap<()>, id: &str) -> bool
    ensures { result ≡ is_banned bans.now id.now }
{
    bans.get(id).is_some()
}

/// Whether a rank is below the room's level.
pub(crate) fn is_below_level(rank: u8, level: Option<u8>) -> bool
    ensures { result ≡ is_below_level rank level }
{
    match level {
        None => false,
        Some(level) => is_below(rank, level),
    }
}

/// Whether there is a reason of more than 300 characters.
pub(crate) fn is_long_reason(reason: &Option<Text>) -> bool
    ensures { result ≡ is_long_reason reason.now }
{
    match reason {
        None => false,
        Some(text) => is_long(text.as_str()),
    }
}
