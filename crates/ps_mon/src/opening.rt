//! A side at the opening.
ghost use Rattle.std.specs.Prelude.{◌≡◌, ◌≤◌, ℕ, true};
ghost use Rattle.ps_mon.specs.Valid.{AllStand, IsSide, has_standing};
ghost use Rattle.ps_mon.specs.Known.{IsSideKnown};
ghost use Rattle.ps_mon.specs.Reading.{active_of};
ghost use Rattle.ps_mon.specs.Teams.{IsFresh, IsTeamKnown, opened};

use crate::record::{ChangedSlots, SideState, Stages, Volatiles};
use crate::team::BattleTeam;

/// What a member has when it comes in: nothing.
pub const CALM: Volatiles = Volatiles {
    stages: Stages {
        atk: 0,
        def: 0,
        spc: 0,
        spe: 0,
        acc: 0,
        eva: 0,
    },
    confusion: 0,
    flinch: false,
    substitute: 0,
    seeded: false,
    reflect: false,
    light: false,
    mist: false,
    focus: false,
    recharge: false,
    lock: None,
    disabled: None,
    types: None,
    stats: None,
    slots: ChangedSlots {
        mimic: [None; 4],
        copied: None,
    },
    toxic: 0,
    last: None,
    taken: None,
};

/// The side of a team, whose first member is active.
pub fn open_side(team: &BattleTeam) -> SideState
    requires { IsFresh team.now }
    ensures value { result ≡ opened team.now }
    ensures side { IsSide result }
    ensures known { (moves : ℕ) → IsTeamKnown moves team.now → IsSideKnown moves result }
    ensures some { has_standing result ≡ true }
    ensures active { 1 ≤ (active_of result).hp }
    ensures stand { AllStand result }
{
    let members = team.members;
    SideState {
        members,
        count: team.count,
        order: [0, 1, 2, 3, 4, 5],
        vol: CALM,
    }
}
