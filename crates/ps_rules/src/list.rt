//! Reads rule lists and rulesets.
ghost use Rattle.std.specs.Prelude.{◌≡◌, codes, IfOk};
ghost use Rattle.serde_json.specs.View.{view};
ghost use Rattle.ps_data.specs.OwnIds.{IsNew};
ghost use Rattle.ps_data.specs.Reading.{Gives, GivesBy};
ghost use Rattle.ps_data.specs.Lists.{entries_at};
ghost use Rattle.ps_rules.specs.Rules.{begins_so, rule_of};
ghost use Rattle.ps_rules.specs.Reading.{rule_in, rules_in, ruleset_in, or_kind, clauses_in};
ghost use Rattle.ps_rules.specs.Walk.{clauses_of};

use crate::fault::RuleFault;
use crate::table::{Rule, Ruleset};
use crate::version::Version;
use crate::walk::clauses_of;
use ps_base::id::to_id;
use ps_base::list::List;
use ps_data::fault::{DataKind, Refusal, refused};
use ps_data::forms::{array, text};
use ps_data::lists::{ItemForm, items_of};
use ps_data::new_ids::new_key_id;
use ps_data::rows::{EntryRowForm, entry_rows_at};
use ps_data::table::Table;
use serde_json::Value;
use std::alloc::Global;

fn begins_so(text: &str) -> bool
    ensures { result ≡ begins_so text.now }
{
    match text.as_bytes() {
        [] => false,
        [first, ..] => *first == b'!',
    }
}

/// A rule text.
fn rule(alloc: Global, value: &Value) -> Result<Rule, Refusal>
    ensures { Gives result (rule_in (view value.now)) }
{
    let text = text(alloc, value)?;
    let repeals = begins_so(text);
    let id = to_id(alloc, text)?;
    Ok(Rule { id, repeals })
}

/// The form of a rule text.
#[derive(Drop)]
struct RuleForm;

impl ItemForm<Rule> for RuleForm {
    ghost reading = { λ _ before after. rule_in };

    fn read(
        &self,
        alloc: Global,
        _before: &[Rule],
        _after: &[Value],
        value: &Value,
    ) -> Result<Rule, Refusal> {
        rule(alloc, value)
    }
}

#[tactic(auto, unfolding(crate::specs::Reading::rules_in))]
fn rules(alloc: Global, value: &Value) -> Result<Vec<Rule>, Refusal>
    ensures { GivesBy (λ v. v.items) result (rules_in (view value.now)) }
{
    let values = array(alloc, value)?;
    items_of(alloc, &RuleForm, values)
}

#[tactic(auto, unfolding(crate::specs::Reading::ruleset_in))]
fn ruleset(
    alloc: Global,
    before: &Table<Ruleset>,
    key: &str,
    value: &Value,
) -> Result<Ruleset, Refusal>
    ensures gives { Gives result (ruleset_in before.now key.now (view value.now)) }
    ensures new { IfOk result (λ set. IsNew (λ s. s.id) set.id before.now) }
{
    let id = new_key_id(alloc, before, key)?;
    let rules = rules(alloc, value)?;
    Ok(Ruleset {
        id,
        rules: List::from_vec(rules),
    })
}

/// The form of a ruleset.
#[derive(Drop)]
struct RulesetForm;

impl EntryRowForm<Ruleset> for RulesetForm {
    ghost reading = { λ _. ruleset_in };

    fn read(
        &self,
        alloc: Global,
        before: &Table<Ruleset>,
        key: &str,
        value: &Value,
    ) -> Result<Ruleset, Refusal> {
        ruleset(alloc, before, key, value)
    }
}

/// The rulesets of a configuration.
pub(crate) fn rulesets_at(alloc: Global, value: &Value) -> Result<Table<Ruleset>, Refusal>
    ensures { Gives result (entries_at (codes "rulesets") ruleset_in (view value.now)) }
{
    entry_rows_at(alloc, &RulesetForm, value, "rulesets")
}

fn or_kind(
    alloc: Global,
    version: Version,
    sets: &Table<Ruleset>,
    rules: &[Rule],
) -> Result<u8, Refusal>
    ensures { Gives result (or_kind (clauses_of version sets.now rules.now)) }
{
    match clauses_of(alloc, version, sets, rules) {
        Ok(clauses) => Ok(clauses),
        Err(RuleFault::NoMemory) => Err(Refusal::NoMemory),
        Err(RuleFault::UnknownRule { id: _ }) => Err(refused(alloc, DataKind::Unknown)),
        Err(RuleFault::Cycle { id: _ }) => Err(refused(alloc, DataKind::Repeat)),
        Err(RuleFault::Contradiction { id: _ }) => Err(refused(alloc, DataKind::Range)),
    }
}

/// The clauses that are on by a format's rule list, or the kind of the first fault of its walk.
#[tactic(auto, unfolding(crate::specs::Reading::clauses_in))]
pub(crate) fn read_clauses(
    alloc: Global,
    version: Version,
    sets: &Table<Ruleset>,
    value: &Value,
) -> Result<u8, Refusal>
    ensures { Gives result (clauses_in version sets.now (view value.now)) }
{
    let rules = rules(alloc, value)?;
    or_kind(alloc, version, sets, &rules)
}
