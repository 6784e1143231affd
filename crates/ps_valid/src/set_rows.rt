//! The rules of one set, in their order: one function for each.
ghost use Rattle.std.specs.Prelude.{◌≡◌, ◌<◌, length, IfOk};
ghost use Rattle.ps_base.specs.Ids.{id_of};
ghost use Rattle.ps_packed.specs.Ranges.{HasRanges};
ghost use Rattle.ps_dex.specs.Lookups.{species_of};
ghost use Rattle.ps_valid.specs.Verdicts.{Finds};
ghost use Rattle.ps_valid.specs.Ready.{IsReadyMember};
ghost use Rattle.ps_valid.specs.SetRows.{is_banned_species, unknown_species, banned_species, level_too_low, level_too_high, no_moves};
ghost use Rattle.ps_valid.specs.SetRows.{ev_too_high, member_in};

use crate::member::member_of;
use crate::move_rows::{is_number, moves_of};
use crate::verdict::{TeamFault, keeps, keeps_number, require_known};
use ps_base::id::{Id, to_id};
use ps_base::team_rule::TeamRule;
use ps_dex::dex::Dex;
use ps_mon::team::Member;
use ps_packed::set::Set;
use ps_rules::table::RuleTable;
use std::alloc::Global;

fn is_banned_species(dex: &Dex, bans: &[Id], species: u16) -> bool
    ensures { result ≡ is_banned_species dex.now bans.now species }
{
    for ban in bans {
        if is_number(dex.species(ban), species) {
            return true;
        }
    }
    false
}

#[tactic(auto, unfolding(crate::specs::SetRows::unknown_species))]
fn unknown_species(alloc: Global, dex: &Dex, number: u8, id: &Id) -> Result<u16, TeamFault>
    ensures finds { Finds result (unknown_species dex.now number id.now) }
    ensures within { IfOk result (λ s. s < length dex.now.species) }
{
    require_known(
        alloc,
        number,
        TeamRule::UnknownSpecies,
        id.as_str(),
        dex.species(id),
    )
}

#[tactic(auto, unfolding(crate::specs::SetRows::banned_species))]
fn banned_species(
    alloc: Global,
    dex: &Dex,
    rules: &RuleTable,
    number: u8,
    id: &Id,
    species: u16,
) -> Result<(), TeamFault>
    ensures { Finds result (banned_species dex.now rules.now number id.now species) }
{
    let banned = is_banned_species(dex, rules.bans.as_slice(), species);
    keeps(alloc, number, TeamRule::BannedSpecies, id.as_str(), !banned)
}

#[tactic(auto, unfolding(crate::specs::SetRows::level_too_low))]
fn level_too_low(alloc: Global, rules: &RuleTable, number: u8, level: u8) -> Result<(), TeamFault>
    ensures { Finds result (level_too_low rules.now number level) }
{
    let kept = rules.levels[0] <= level;
    keeps_number(alloc, number, TeamRule::LevelTooLow, level, kept)
}

#[tactic(auto, unfolding(crate::specs::SetRows::level_too_high))]
fn level_too_high(alloc: Global, rules: &RuleTable, number: u8, level: u8) -> Result<(), TeamFault>
    ensures { Finds result (level_too_high rules.now number level) }
{
    let kept = level <= rules.levels[1];
    keeps_number(alloc, number, TeamRule::LevelTooHigh, level, kept)
}

#[tactic(auto, unfolding(crate::specs::SetRows::no_moves))]
fn no_moves(alloc: Global, number: u8, id: &Id, moves: &[Id]) -> Result<(), TeamFault>
    ensures finds { Finds result (no_moves number id.now moves.now) }
    ensures some { IfOk result (λ _. 0 < length moves.now) }
{
    let kept = !moves.is_empty();
    keeps(alloc, number, TeamRule::NoMoves, id.as_str(), kept)
}

/// The first EV above 252 tells.
fn ev_too_high(alloc: Global, number: u8, evs: &[u8]) -> Result<(), TeamFault>
    ensures { Finds result (ev_too_high number evs.now) }
{
    for ev in evs {
        match keeps_number(alloc, number, TeamRule::EvTooHigh, *ev, *ev <= 252) {
            Ok(()) => {}
            Err(fault) => return Err(fault),
        }
    }
    Ok(())
}

/// The member that a set makes, or the first rule that the set breaks by itself.
#[tactic(auto, unfolding(crate::specs::SetRows::member_in))]
pub(crate) fn member_in(
    alloc: Global,
    dex: &Dex,
    rules: &RuleTable,
    number: u8,
    set: &Set,
) -> Result<Member, TeamFault>
    requires { HasRanges set.now }
    ensures finds { Finds result (member_in dex.now rules.now number set.now) }
    ensures ready { IfOk result (λ m. IsReadyMember dex.now m) }
{
    let id = to_id(alloc, set.species.as_str())?;
    let species = unknown_species(alloc, dex, number, &id)?;
    banned_species(alloc, dex, rules, number, &id, species)?;
    level_too_low(alloc, rules, number, set.level)?;
    level_too_high(alloc, rules, number, set.level)?;
    no_moves(alloc, number, &id, set.moves.as_slice())?;
    let moves = moves_of(alloc, dex, rules, number, species, set.moves.as_slice())?;
    ev_too_high(alloc, number, &set.evs)?;
    Ok(member_of(dex, species, set, &moves))
}
