//! Teams against the rules of a format.
ghost use Rattle.std.specs.Prelude.{◌≡◌, ◌<◌, ◌≤◌, All, length, map, IfOk};
ghost use Rattle.ps_packed.specs.Ranges.{HasRanges};
ghost use Rattle.ps_valid.specs.Verdicts.{Finds};
ghost use Rattle.ps_valid.specs.Ready.{IsReady};
ghost use Rattle.ps_valid.specs.TeamRows.{nick_of, legal_in};

use crate::legal::Legal;
use crate::member::team_of;
use crate::team_rows::{each_later, each_member, too_few, too_many};
use crate::verdict::TeamFault;
use ps_base::list::List;
use ps_base::text::Text;
use ps_dex::dex::Dex;
use ps_packed::set::Set;
use ps_packed::team::Team;
use ps_rules::table::RuleTable;
use std::alloc::{AllocError, Global};

/// The nicknames of the sets.
fn nicks_of(alloc: Global, sets: &[Set]) -> Result<Vec<Text>, AllocError>
    ensures { IfOk result (λ v. v.items ≡ map nick_of sets.now) }
{
    let mut nicks = Vec::new(alloc);
    for set in sets {
        nicks.push(set.nick.copy(alloc)?)?;
    }
    Ok(nicks)
}

#[tactic(auto, unfolding(crate::specs::TeamRows::legal_in))]
fn legal(alloc: Global, dex: &Dex, rules: &RuleTable, sets: &[Set]) -> Result<Legal, TeamFault>
    requires some { 0 < length sets.now }
    requires few { length sets.now ≤ 6 }
    requires ranges { All HasRanges sets.now }
    ensures finds { Finds result (legal_in dex.now rules.now sets.now) }
    ensures ready { IfOk result (λ legal. IsReady dex.now legal) }
{
    let count = sets.len() as u8;
    too_few(alloc, rules, count)?;
    too_many(alloc, rules, count)?;
    let members = each_member(alloc, dex, rules, sets)?;
    each_later(alloc, dex, rules, sets)?;
    let nicks = nicks_of(alloc, sets)?;
    let team = team_of(&members);
    Ok(Legal {
        team,
        nicks: List::from_vec(nicks),
    })
}

/// The legal team that a team makes, its members with full health and all PP; it can open a battle
/// over the dex. `Verdict` comes exactly where the team breaks a rule, and is the first one: the
/// number of sets (set 0), then for each set from the first, counted from 1, the species, the level
/// and that there is a move, each of its moves, and its EVs, then for each set whether its species or
/// its nickname came before. `NoMemory` may come at any team.
pub fn check_team(
    alloc: Global,
    dex: &Dex,
    rules: &RuleTable,
    team: &Team,
) -> Result<Legal, TeamFault>
    ensures finds { Finds result (legal_in dex.now rules.now team.now) }
    ensures ready { IfOk result (λ legal. IsReady dex.now legal) }
{
    legal(alloc, dex, rules, team.sets())
}
