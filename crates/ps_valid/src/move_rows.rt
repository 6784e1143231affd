//! The rules of one move of a set, in their order: one function for each.
ghost use Rattle.std.specs.Prelude.{◌≡◌, ◌<◌, [], All, length, slice_get, IfOk, map};
ghost use Rattle.ps_mon.specs.declared.facts.MoveData.{MoveData};
ghost use Rattle.ps_valid.specs.Verdicts.{Finds, FindsBy};
ghost use Rattle.ps_valid.specs.MoveRows.{is_number, is_banned_move, effect_of, is_ohko, raises_evasion, unknown_move, banned_move};
ghost use Rattle.ps_valid.specs.MoveRows.{not_learned, repeated_move, ohko_clause, evasion_clause, move_in, each_move};
ghost use Rattle.ps_dex.specs.Species.{has_number};

use crate::verdict::{TeamFault, keeps, require_known};
use ps_base::id::Id;
use ps_base::team_rule::TeamRule;
use ps_dex::dex::Dex;
use ps_dex::item::MoveItem;
use ps_mon::effect::{Aim, Effect, Stat};
use ps_rules::clause::Clause;
use ps_rules::table::RuleTable;
use std::alloc::Global;

/// Whether what was looked up is this one.
pub(crate) fn is_number(found: Option<u16>, number: u16) -> bool
    ensures { result ≡ is_number found number }
{
    match found {
        None => false,
        Some(other) => other == number,
    }
}

fn is_banned_move(dex: &Dex, bans: &[Id], mv: u16) -> bool
    ensures { result ≡ is_banned_move dex.now bans.now mv }
{
    for ban in bans {
        if is_number(dex.move_of(ban), mv) {
            return true;
        }
    }
    false
}

#[tactic(auto, unfolding(ps_dex::specs::Species::has_number))]
fn has_number(numbers: &[u16], number: u16) -> bool
    ensures { result ≡ has_number number numbers.now }
{
    numbers.iter().any(|other| *other == number)
}

/// What a move does; a number past the moves does nothing.
fn effect_of(moves: &[MoveItem], mv: u16) -> Effect
    ensures { result ≡ effect_of (slice_get moves.now mv) }
{
    match moves.get(usize::from(mv)) {
        None => Effect::Nothing,
        Some(item) => item.numbers.effect,
    }
}

fn is_ohko(effect: Effect) -> bool
    ensures { result ≡ is_ohko effect }
{
    match effect {
        Effect::Ohko => true,
        _ => false,
    }
}

/// Whether a move raises its user's evasion.
fn raises_evasion(effect: Effect) -> bool
    ensures { result ≡ raises_evasion effect }
{
    match effect {
        Effect::Boost {
            who: Aim::User,
            stat: Stat::Eva,
            by,
            chance: _,
        } => by > 0,
        _ => false,
    }
}

#[tactic(auto, unfolding(crate::specs::MoveRows::unknown_move))]
fn unknown_move(alloc: Global, dex: &Dex, set: u8, id: &Id) -> Result<u16, TeamFault>
    ensures finds { Finds result (unknown_move dex.now set id.now) }
    ensures within { IfOk result (λ mv. mv < length dex.now.moves) }
{
    require_known(
        alloc,
        set,
        TeamRule::UnknownMove,
        id.as_str(),
        dex.move_of(id),
    )
}

#[tactic(auto, unfolding(crate::specs::MoveRows::banned_move))]
fn banned_move(
    alloc: Global,
    dex: &Dex,
    rules: &RuleTable,
    set: u8,
    id: &Id,
    mv: u16,
) -> Result<(), TeamFault>
    ensures { Finds result (banned_move dex.now rules.now set id.now mv) }
{
    let banned = is_banned_move(dex, rules.bans.as_slice(), mv);
    keeps(alloc, set, TeamRule::BannedMove, id.as_str(), !banned)
}

#[tactic(auto, unfolding(crate::specs::MoveRows::not_learned))]
fn not_learned(
    alloc: Global,
    dex: &Dex,
    set: u8,
    species: u16,
    id: &Id,
    mv: u16,
) -> Result<(), TeamFault>
    ensures { Finds result (not_learned dex.now set species id.now mv) }
{
    let learned = dex.learns(species, mv);
    keeps(alloc, set, TeamRule::NotLearned, id.as_str(), learned)
}

#[tactic(auto, unfolding(crate::specs::MoveRows::repeated_move))]
fn repeated_move(alloc: Global, set: u8, before: &[u16], id: &Id, mv: u16) -> Result<(), TeamFault>
    ensures { Finds result (repeated_move set before.now id.now mv) }
{
    let repeated = has_number(before, mv);
    keeps(alloc, set, TeamRule::RepeatedMove, id.as_str(), !repeated)
}

#[tactic(auto, unfolding(crate::specs::MoveRows::ohko_clause))]
fn ohko_clause(
    alloc: Global,
    dex: &Dex,
    rules: &RuleTable,
    set: u8,
    id: &Id,
    mv: u16,
) -> Result<(), TeamFault>
    ensures { Finds result (ohko_clause dex.now rules.now set id.now mv) }
{
    let on = Clause::Ohko.is_in(rules.clauses);
    let ohko = is_ohko(effect_of(dex.moves(), mv));
    keeps(alloc, set, TeamRule::OhkoClause, id.as_str(), !(on && ohko))
}

#[tactic(auto, unfolding(crate::specs::MoveRows::evasion_clause))]
fn evasion_clause(
    alloc: Global,
    dex: &Dex,
    rules: &RuleTable,
    set: u8,
    id: &Id,
    mv: u16,
) -> Result<(), TeamFault>
    ensures { Finds result (evasion_clause dex.now rules.now set id.now mv) }
{
    let on = Clause::Evasion.is_in(rules.clauses);
    let raises = raises_evasion(effect_of(dex.moves(), mv));
    keeps(
        alloc,
        set,
        TeamRule::EvasionClause,
        id.as_str(),
        !(on && raises),
    )
}

/// The number of a move, or the first rule that it breaks after the moves `before`.
#[tactic(auto, unfolding(crate::specs::MoveRows::move_in))]
fn move_in(
    alloc: Global,
    dex: &Dex,
    rules: &RuleTable,
    set: u8,
    species: u16,
    before: &[u16],
    id: &Id,
) -> Result<u16, TeamFault>
    ensures finds { Finds result (move_in dex.now rules.now set species before.now id.now) }
    ensures within { IfOk result (λ mv. mv < length dex.now.moves) }
{
    let mv = unknown_move(alloc, dex, set, id)?;
    banned_move(alloc, dex, rules, set, id, mv)?;
    not_learned(alloc, dex, set, species, id, mv)?;
    repeated_move(alloc, set, before, id, mv)?;
    ohko_clause(alloc, dex, rules, set, id, mv)?;
    evasion_clause(alloc, dex, rules, set, id, mv)?;
    Ok(mv)
}

/// The numbers of the moves, or the first rule that one breaks.
pub(crate) fn moves_of(
    alloc: Global,
    dex: &Dex,
    rules: &RuleTable,
    set: u8,
    species: u16,
    ids: &[Id],
) -> Result<Vec<u16>, TeamFault>
    ensures finds { FindsBy (λ v. v.items) result (each_move dex.now rules.now set species [] ids.now) }
    ensures count { IfOk result (λ v. length v.items ≡ length ids.now) }
    ensures known { IfOk result (λ v. All (λ mv. mv < length dex.now.moves) v.items) }
{
    let mut moves = Vec::new(alloc);
    for id in ids {
        match move_in(alloc, dex, rules, set, species, &moves, id) {
            Ok(mv) => moves.push(mv)?,
            Err(fault) => return Err(fault),
        }
    }
    Ok(moves)
}
