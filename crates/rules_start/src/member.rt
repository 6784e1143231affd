//! Members that a battle can open with.
ghost use Rattle.std.specs.Prelude.{◌≡◌, ◌<◌, ◌≤◌, ◌↔◌, ℕ, IsTrue, length, slice_index_or};
ghost use Rattle.ps_mon.specs.Known.{AreOwnKnown};
ghost use Rattle.ps_mon.specs.Reading.{no_slot, slot_of};
ghost use Rattle.ps_mon.specs.Teams.{IsFreshMember};
ghost use Rattle.ps_mon.specs.Valid.{AreStats, AreTypes, IsMember};

use ps_mon::status::Status;
use ps_mon::team::{Member, MoveSlot};

/// Whether types are below 32.
fn are_types(types: &[u8]) -> bool
    ensures { IsTrue result ↔ AreTypes types.now }
{
    types.iter().all(|kind| *kind < 32)
}

/// Whether stats are from 1 to 999.
fn are_stats(stats: &[u16]) -> bool
    ensures { IsTrue result ↔ AreStats stats.now }
{
    stats.iter().all(|stat| 1 <= *stat && *stat <= 999)
}

/// The slot at an index, from 0.
fn slot(member: &Member, index: u8) -> MoveSlot
    requires { index < 4 }
    ensures { result ≡ slot_of member.now index }
{
    member.slots[index as usize]
}

/// Whether none of so many slots has more PP than its greatest. They come by value, since `IsMember` speaks of their
/// number, which the type tells of no array behind a reference.
fn are_within(slots: [MoveSlot; 4], count: u8) -> bool
    requires { count ≤ 4 }
    ensures four { length slots ≡ 4 }
    ensures fits { IsTrue result → (j : ℕ) → j < count → (slice_index_or slots j no_slot).pp ≤ (slice_index_or slots j no_slot).max_pp }
    ensures only { ((j : ℕ) → j < count → (slice_index_or slots j no_slot).pp ≤ (slice_index_or slots j no_slot).max_pp) → IsTrue result }
{
    for index in 0..count {
        let slot = slots[index as usize];
        if slot.pp > slot.max_pp {
            return false;
        }
    }
    true
}

/// Whether each slot can be used.
fn have_pp(member: &Member) -> bool
    requires { member.now.slot_count ≤ 4 }
    ensures fits { IsTrue result → (j : ℕ) → j < member.now.slot_count → 1 ≤ (slot_of member.now j).pp }
    ensures only { ((j : ℕ) → j < member.now.slot_count → 1 ≤ (slot_of member.now j).pp) → IsTrue result }
{
    for index in 0..member.slot_count {
        if slot(member, index).pp == 0 {
            return false;
        }
    }
    true
}

/// Whether the moves of its slots are below this number.
pub(crate) fn are_own_known(member: &Member, moves: usize) -> bool
    requires { member.now.slot_count ≤ 4 }
    ensures fits { IsTrue result → AreOwnKnown moves member.now }
    ensures only { AreOwnKnown moves member.now → IsTrue result }
{
    for index in 0..member.slot_count {
        if usize::from(slot(member, index).mv) >= moves {
            return false;
        }
    }
    true
}

/// Whether a member's numbers are in their ranges.
fn is_member(member: &Member) -> bool
    ensures fits { IsTrue result → IsMember member.now }
    ensures only { IsMember member.now → IsTrue result }
{
    if member.level == 0 || member.level > 100 {
        return false;
    }
    if member.max == 0 || member.max > 713 {
        return false;
    }
    if member.hp > member.max || member.counter > 7 {
        return false;
    }
    if member.slot_count == 0 || member.slot_count > 4 {
        return false;
    }
    if !are_types(&member.types) {
        return false;
    }
    if !are_stats(&member.stats) {
        return false;
    }
    are_within(member.slots, member.slot_count)
}

/// Whether nothing has happened to a member, whose numbers are in their ranges.
pub(crate) fn is_fresh_member(member: &Member) -> bool
    ensures fits { IsTrue result → IsFreshMember member.now }
    ensures only { IsFreshMember member.now → IsTrue result }
{
    if !is_member(member) {
        return false;
    }
    if member.status != Status::Healthy {
        return false;
    }
    if member.counter != 0 {
        return false;
    }
    if member.rested {
        return false;
    }
    if member.hp != member.max {
        return false;
    }
    have_pp(member)
}
