//! Reads formats.
ghost use Rattle.std.specs.Prelude.{◌≡◌, ◌≤◌, [], ◌∷◌, codes, map, IfOk};
ghost use Rattle.serde_json.specs.View.{view};
ghost use Rattle.ps_data.specs.OwnIds.{IsNew};
ghost use Rattle.ps_data.specs.Reading.{Gives, GivesBy, optional};
ghost use Rattle.ps_data.specs.Forms.{number_in};
ghost use Rattle.ps_rules.specs.Versions.{always_on};
ghost use Rattle.ps_rules.specs.Reading.{clauses_in, has_ban, is_known, ban_in, bans_in, two_levels_in, level_in, levels_of};
ghost use Rattle.ps_rules.specs.Reading.{levels_in, table_in, format_in, formats_in, said_in};

use crate::list::{read_clauses, rulesets_at};
use crate::name::{Named, read_name};
use crate::table::{Format, RuleTable, Ruleset, Said};
use crate::version::{Version, always_on};
use ps_base::id::{Id, to_id};
use ps_base::list::List;
use ps_data::fault::{DataKind, Refusal, refused};
use ps_data::forms::{array, ensure, number, object, text};
use ps_data::keys::{at_index, at_key, boolean_or, items_at_key, number_or, required};
use ps_data::lists::{ItemForm, items_of};
use ps_data::rows::{RowForm, rows_of};
use ps_data::table::Table;
use ps_dex::dex::Dex;
use serde_json::Value;
use std::alloc::Global;

fn clauses_at(
    alloc: Global,
    version: Version,
    sets: &Table<Ruleset>,
    value: &Value,
) -> Result<u8, Refusal>
    ensures { Gives result (optional (codes "rules") (always_on version) (clauses_in version sets.now) (view value.now)) }
{
    match value.get("rules") {
        None => Ok(always_on(version)),
        Some(inside) => at_key(alloc, "rules", read_clauses(alloc, version, sets, inside)),
    }
}

#[tactic(auto, unfolding(crate::specs::Reading::has_ban))]
fn has_ban(bans: &[Id], id: &str) -> bool
    ensures { result ≡ has_ban id.now bans.now }
{
    for ban in bans {
        if ban.as_str() == id {
            return true;
        }
    }
    false
}

fn is_known(dex: &Dex, id: &Id) -> bool
    ensures { result ≡ is_known id.now dex.now }
{
    dex.species(id).is_some() || dex.move_of(id).is_some()
}

/// The id of a species or a move, or of an alias.
#[tactic(auto, unfolding(crate::specs::Reading::ban_in))]
fn ban(alloc: Global, dex: &Dex, before: &[Id], value: &Value) -> Result<Id, Refusal>
    ensures { Gives result (ban_in dex.now before.now (view value.now)) }
{
    let text = text(alloc, value)?;
    let id = to_id(alloc, text)?;
    ensure(alloc, is_known(dex, &id), DataKind::Unknown)?;
    ensure(alloc, !has_ban(before, id.as_str()), DataKind::Repeat)?;
    Ok(id)
}

/// The form of a ban, over the dex.
#[derive(Drop)]
struct BanForm<'a> {
    dex: &'a Dex,
}

impl ItemForm<Id> for BanForm<'_> {
    ghost reading = { λ form before after. ban_in form.dex.now before };

    fn read(
        &self,
        alloc: Global,
        before: &[Id],
        _after: &[Value],
        value: &Value,
    ) -> Result<Id, Refusal> {
        ban(alloc, self.dex, before, value)
    }
}

#[tactic(auto, unfolding(crate::specs::Reading::bans_in))]
fn bans(alloc: Global, dex: &Dex, value: &Value) -> Result<Vec<Id>, Refusal>
    ensures { GivesBy (λ v. v.items) result (bans_in dex.now (view value.now)) }
{
    let values = array(alloc, value)?;
    items_of(alloc, &BanForm { dex }, values)
}

fn bans_at(alloc: Global, dex: &Dex, value: &Value) -> Result<List<Id>, Refusal>
    ensures { Gives result (optional (codes "bans") [] (bans_in dex.now) (view value.now)) }
{
    match value.get("bans") {
        None => Ok(List::from_vec(Vec::new(alloc))),
        Some(inside) => {
            let bans = items_at_key(alloc, "bans", bans(alloc, dex, inside))?;
            Ok(List::from_vec(bans))
        }
    }
}

fn count_at(alloc: Global, value: &Value, key: &str, missing: u8) -> Result<u8, Refusal>
    requires low { 1 ≤ missing }
    requires high { missing ≤ 6 }
    ensures { Gives result (optional key.now missing (number_in 1 6) (view value.now)) }
{
    let n = number_or(alloc, value, key, 1, 6, u64::from(missing))?;
    Ok(n as u8)
}

fn level(alloc: Global, index: usize, value: &Value) -> Result<u8, Refusal>
    ensures { Gives result (level_in index (view value.now)) }
{
    let n = at_index(index, number(alloc, value, 1, 100))?;
    Ok(n as u8)
}

#[tactic(auto, unfolding(crate::specs::Reading::two_levels_in))]
fn two_levels(alloc: Global, low: &Value, high: &Value) -> Result<[u8; 2], Refusal>
    ensures { Gives result (two_levels_in (view low.now) (view high.now)) }
{
    let low = level(alloc, 0, low)?;
    let high = level(alloc, 1, high)?;
    Ok([low, high])
}

fn levels_of(alloc: Global, values: &[Value]) -> Result<[u8; 2], Refusal>
    ensures { Gives result (levels_of (map view values.now)) }
{
    match values {
        [low, high] => two_levels(alloc, low, high),
        _ => Err(refused(alloc, DataKind::Range)),
    }
}

#[tactic(auto, unfolding(crate::specs::Reading::levels_in))]
fn levels(alloc: Global, value: &Value) -> Result<[u8; 2], Refusal>
    ensures { Gives result (levels_in (view value.now)) }
{
    let values = array(alloc, value)?;
    levels_of(alloc, values)
}

fn levels_at(alloc: Global, value: &Value) -> Result<[u8; 2], Refusal>
    ensures { Gives result (optional (codes "levels") (1 ∷ 100 ∷ []) levels_in (view value.now)) }
{
    match value.get("levels") {
        None => Ok([1, 100]),
        Some(inside) => at_key(alloc, "levels", levels(alloc, inside)),
    }
}

#[tactic(auto, unfolding(crate::specs::Reading::table_in))]
fn table(
    alloc: Global,
    version: Version,
    sets: &Table<Ruleset>,
    dex: &Dex,
    value: &Value,
) -> Result<RuleTable, Refusal>
    ensures { Gives result (table_in version sets.now dex.now (view value.now)) }
{
    let clauses = clauses_at(alloc, version, sets, value)?;
    let bans = bans_at(alloc, dex, value)?;
    let min = count_at(alloc, value, "min", 1)?;
    let max = count_at(alloc, value, "max", 6)?;
    let levels = levels_at(alloc, value)?;
    let rated = boolean_or(alloc, value, "rated", true)?;
    Ok(RuleTable {
        clauses,
        bans,
        min,
        max,
        levels,
        rated,
    })
}

#[tactic(auto, unfolding(crate::specs::Reading::format_in))]
fn format(
    alloc: Global,
    version: Version,
    sets: &Table<Ruleset>,
    dex: &Dex,
    before: &Table<Format>,
    value: &Value,
) -> Result<Format, Refusal>
    ensures gives { Gives result (format_in version sets.now dex.now before.now (view value.now)) }
    ensures new { IfOk result (λ format. IsNew (λ f. f.id) format.id before.now) }
{
    object(alloc, value)?;
    let named = at_key(
        alloc,
        "name",
        read_name(alloc, before, required(alloc, value, "name")?),
    )?;
    let table = table(alloc, version, sets, dex, value)?;
    let Named { name, id } = named;
    Ok(Format { name, id, table })
}

/// The form of a format under a version, over the rulesets and the dex.
#[derive(Drop)]
struct FormatForm<'a> {
    version: Version,
    sets: &'a Table<Ruleset>,
    dex: &'a Dex,
}

impl RowForm<Format> for FormatForm<'_> {
    ghost reading = { λ form before after. format_in form.version form.sets.now form.dex.now before };

    fn read(
        &self,
        alloc: Global,
        before: &Table<Format>,
        _after: &[Value],
        value: &Value,
    ) -> Result<Format, Refusal> {
        format(alloc, self.version, self.sets, self.dex, before, value)
    }
}

#[tactic(auto, unfolding(crate::specs::Reading::formats_in))]
fn formats(
    alloc: Global,
    version: Version,
    sets: &Table<Ruleset>,
    dex: &Dex,
    value: &Value,
) -> Result<Table<Format>, Refusal>
    ensures { Gives result (formats_in version sets.now dex.now (view value.now)) }
{
    let values = array(alloc, value)?;
    let form = FormatForm { version, sets, dex };
    rows_of(alloc, &form, values)
}

fn formats_at(
    alloc: Global,
    version: Version,
    sets: &Table<Ruleset>,
    dex: &Dex,
    value: &Value,
) -> Result<Table<Format>, Refusal>
    ensures { Gives result (optional (codes "formats") [] (formats_in version sets.now dex.now) (view value.now)) }
{
    match value.get("formats") {
        None => Ok(Table::new(alloc)),
        Some(inside) => at_key(alloc, "formats", formats(alloc, version, sets, dex, inside)),
    }
}

/// The rulesets and the formats of a configuration of a version, or its first fault in these two keys.
#[tactic(auto, unfolding(crate::specs::Reading::said_in))]
pub(crate) fn read_said(
    alloc: Global,
    version: Version,
    dex: &Dex,
    value: &Value,
) -> Result<Said, Refusal>
    ensures { Gives result (said_in version dex.now (view value.now)) }
{
    object(alloc, value)?;
    let rulesets = rulesets_at(alloc, value)?;
    let formats = formats_at(alloc, version, &rulesets, dex, value)?;
    Ok(Said {
        version,
        rulesets,
        formats,
    })
}
