//! The rules of a team as a whole: how many sets there are, and no species or nickname twice.
ghost use Rattle.std.specs.Prelude.{◌≡◌, ◌+◌, ◌<◌, ◌≤◌, All, [], length, IfOk, Option};
ghost use Rattle.std.specs.List.{list_any};
ghost use Rattle.ps_base.specs.Ids.{id_of};
ghost use Rattle.ps_packed.specs.Ranges.{HasRanges};
ghost use Rattle.ps_dex.specs.Lookups.{species_of};
ghost use Rattle.ps_valid.specs.Verdicts.{Finds, FindsBy};
ghost use Rattle.ps_valid.specs.Ready.{IsReadyMember};
ghost use Rattle.ps_valid.specs.TeamRows.{too_few, too_many, species_number, is_same, has_species, has_nick, species_clause};
ghost use Rattle.ps_valid.specs.TeamRows.{nickname_clause, pair_in, each_later, each_member};

use crate::set_rows::member_in;
use crate::verdict::{TeamFault, keeps, keeps_number};
use ps_base::id::to_id;
use ps_base::team_rule::TeamRule;
use ps_dex::dex::Dex;
use ps_mon::team::Member;
use ps_packed::set::Set;
use ps_rules::clause::Clause;
use ps_rules::table::RuleTable;
use std::alloc::{AllocError, Global};

#[tactic(auto, unfolding(crate::specs::TeamRows::too_few))]
pub(crate) fn too_few(alloc: Global, rules: &RuleTable, count: u8) -> Result<(), TeamFault>
    ensures { Finds result (too_few rules.now count) }
{
    keeps_number(alloc, 0, TeamRule::TooFew, count, rules.min <= count)
}

#[tactic(auto, unfolding(crate::specs::TeamRows::too_many))]
pub(crate) fn too_many(alloc: Global, rules: &RuleTable, count: u8) -> Result<(), TeamFault>
    ensures { Finds result (too_many rules.now count) }
{
    keeps_number(alloc, 0, TeamRule::TooMany, count, count <= rules.max)
}

/// The members that the sets make, or the first rule that a set breaks by itself.
pub(crate) fn each_member(
    alloc: Global,
    dex: &Dex,
    rules: &RuleTable,
    sets: &[Set],
) -> Result<Vec<Member>, TeamFault>
    requires few { length sets.now ≤ 6 }
    requires ranges { All HasRanges sets.now }
    ensures finds { FindsBy (λ v. v.items) result (each_member dex.now rules.now [] sets.now) }
    ensures count { IfOk result (λ v. length v.items ≡ length sets.now) }
    ensures ready { IfOk result (λ v. All (λ m. IsReadyMember dex.now m) v.items) }
{
    let mut members = Vec::new(alloc);
    for i in 0..sets.len() {
        match member_in(alloc, dex, rules, i as u8 + 1, &sets[i]) {
            Ok(member) => members.push(member)?,
            Err(fault) => return Err(fault),
        }
    }
    Ok(members)
}

/// The number of a set's species.
#[tactic(auto, unfolding(crate::specs::TeamRows::species_number))]
fn species_number(alloc: Global, dex: &Dex, set: &Set) -> Result<Option<u16>, AllocError>
    ensures { IfOk result (λ o. o ≡ species_number dex.now set.now) }
{
    let id = to_id(alloc, set.species.as_str())?;
    Ok(dex.species(&id))
}

fn is_same(a: Option<u16>, b: Option<u16>) -> bool
    ensures { result ≡ is_same a b }
{
    match (a, b) {
        (Some(a), Some(b)) => a == b,
        _ => false,
    }
}

/// Whether one of the sets has the species with a number.
fn has_species(
    alloc: Global,
    dex: &Dex,
    sets: &[Set],
    number: Option<u16>,
) -> Result<bool, AllocError>
    ensures { IfOk result (λ b. b ≡ has_species dex.now number sets.now) }
{
    for set in sets {
        let other = species_number(alloc, dex, set)?;
        if is_same(other, number) {
            return Ok(true);
        }
    }
    Ok(false)
}

fn has_nick(sets: &[Set], nick: &str) -> bool
    ensures { result ≡ has_nick nick.now sets.now }
{
    for set in sets {
        if set.nick.as_str() == nick {
            return true;
        }
    }
    false
}

#[tactic(auto, unfolding(crate::specs::TeamRows::species_clause))]
fn species_clause(
    alloc: Global,
    dex: &Dex,
    rules: &RuleTable,
    number: u8,
    before: &[Set],
    set: &Set,
) -> Result<(), TeamFault>
    ensures { Finds result (species_clause dex.now rules.now number before.now set.now) }
{
    let on = Clause::Species.is_in(rules.clauses);
    let mine = species_number(alloc, dex, set)?;
    let again = has_species(alloc, dex, before, mine)?;
    let id = to_id(alloc, set.species.as_str())?;
    keeps(
        alloc,
        number,
        TeamRule::SpeciesClause,
        id.as_str(),
        !(on && again),
    )
}

#[tactic(auto, unfolding(crate::specs::TeamRows::nickname_clause))]
fn nickname_clause(
    alloc: Global,
    rules: &RuleTable,
    number: u8,
    before: &[Set],
    set: &Set,
) -> Result<(), TeamFault>
    ensures { Finds result (nickname_clause rules.now number before.now set.now) }
{
    let on = Clause::Nickname.is_in(rules.clauses);
    let again = has_nick(before, set.nick.as_str());
    keeps(
        alloc,
        number,
        TeamRule::NicknameClause,
        set.nick.as_str(),
        !(on && again),
    )
}

/// The two rules of a set beside those before it.
#[tactic(auto, unfolding(crate::specs::TeamRows::pair_in))]
fn pair_in(
    alloc: Global,
    dex: &Dex,
    rules: &RuleTable,
    number: u8,
    before: &[Set],
    set: &Set,
) -> Result<(), TeamFault>
    ensures { Finds result (pair_in dex.now rules.now number before.now set.now) }
{
    species_clause(alloc, dex, rules, number, before, set)?;
    nickname_clause(alloc, rules, number, before, set)?;
    Ok(())
}

/// Whether no set has the species or the nickname of one before it, as far as the clauses are on.
pub(crate) fn each_later(
    alloc: Global,
    dex: &Dex,
    rules: &RuleTable,
    sets: &[Set],
) -> Result<(), TeamFault>
    requires { length sets.now ≤ 6 }
    ensures { Finds result (each_later dex.now rules.now [] sets.now) }
{
    for i in 0..sets.len() {
        match pair_in(alloc, dex, rules, i as u8 + 1, &sets[..i], &sets[i]) {
            Ok(()) => {}
            Err(fault) => return Err(fault),
        }
    }
    Ok(())
}
