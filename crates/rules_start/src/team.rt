//! Teams that a battle can open with.
ghost use Rattle.std.specs.Prelude.{◌≡◌, ◌<◌, ◌≤◌, ℕ, IsTrue, slice_index_or};
ghost use Rattle.ps_mon.specs.Reading.{no_member};
ghost use Rattle.ps_mon.specs.Teams.{IsFresh, IsFreshMember, IsTeamKnown};
ghost use Rattle.ps_valid.specs.Ready.{AreSpeciesKnown};

use crate::member::{are_own_known, is_fresh_member};
use ps_mon::team::{BattleTeam, Member};

/// The member at an index, from 0.
fn member(team: &BattleTeam, index: u8) -> &Member
    requires { index < 6 }
    ensures { result.now ≡ slice_index_or team.now.members index no_member }
{
    &team.members[index as usize]
}

/// Whether nothing has happened to any member.
fn are_fresh(team: &BattleTeam) -> bool
    requires { team.now.count ≤ 6 }
    ensures fits { IsTrue result → (k : ℕ) → k < team.now.count → IsFreshMember (slice_index_or team.now.members k no_member) }
    ensures only { ((k : ℕ) → k < team.now.count → IsFreshMember (slice_index_or team.now.members k no_member)) → IsTrue result }
{
    for index in 0..team.count {
        if !is_fresh_member(member(team, index)) {
            return false;
        }
    }
    true
}

/// Whether a team has 1 to 6 members, to none of which anything has happened.
pub(crate) fn is_fresh(team: &BattleTeam) -> bool
    ensures fits { IsTrue result → IsFresh team.now }
    ensures only { IsFresh team.now → IsTrue result }
{
    if team.count == 0 || team.count > 6 {
        return false;
    }
    are_fresh(team)
}

/// Whether the moves of a team are below this number.
pub(crate) fn are_moves_known(team: &BattleTeam, moves: usize) -> bool
    requires { IsFresh team.now }
    ensures fits { IsTrue result → IsTeamKnown moves team.now }
    ensures only { IsTeamKnown moves team.now → IsTrue result }
{
    for index in 0..team.count {
        if !are_own_known(member(team, index), moves) {
            return false;
        }
    }
    true
}

/// Whether the species of a team are below this number.
pub(crate) fn are_species_known(team: &BattleTeam, species: usize) -> bool
    requires { team.now.count ≤ 6 }
    ensures fits { IsTrue result → AreSpeciesKnown species team.now }
    ensures only { AreSpeciesKnown species team.now → IsTrue result }
{
    for index in 0..team.count {
        if usize::from(member(team, index).species) >= species {
            return false;
        }
    }
    true
}
