//! What is told of the rulesets.
ghost use Rattle.std.specs.Prelude.{◌≡◌, IfOk, map};
ghost use Rattle.ps_rules.specs.Clauses.{clause_of};
ghost use Rattle.ps_rules.specs.Resolve.{format_of, resolved};
ghost use Rattle.program_show.specs.RulesetRows.{rule_text, outcome_text, set_end, set_text, set_row};

use crate::format_rows::clause_names;
use file_help::page::{Row, listed, row_of};
use ps_base::id::Id;
use ps_base::text::Text;
use ps_rules::clause::Clause;
use ps_rules::fault::RuleFault;
use ps_rules::formats::{Formats, resolve};
use ps_rules::table::{Rule, RuleTable, Ruleset};
use std::alloc::{AllocError, Global};

fn rule_text(alloc: Global, rule: &Rule) -> Result<Text, AllocError>
    ensures { IfOk result (λ t. t ≡ rule_text rule.now) }
{
    if rule.repeals {
        let mut text = Text::copy_of(alloc, "!")?;
        text.push_str(rule.id.as_str())?;
        return Ok(text);
    }
    Text::copy_of(alloc, rule.id.as_str())
}

fn rule_texts(alloc: Global, rules: &[Rule]) -> Result<Vec<Text>, AllocError>
    ensures { IfOk result (λ v. v.items ≡ map rule_text rules.now) }
{
    let mut texts = Vec::new(alloc);
    for rule in rules {
        texts.push(rule_text(alloc, rule)?)?;
    }
    Ok(texts)
}

fn come_to(alloc: Global, table: &RuleTable) -> Result<Text, AllocError>
    ensures { IfOk result (λ t. outcome_text (Ok table.now) ≡ t) }
{
    let names = clause_names(alloc, table.clauses)?;
    let names = listed(alloc, &names)?;
    let mut text = Text::copy_of(alloc, "comes to ")?;
    text.push_str(names.as_str())?;
    Ok(text)
}

fn outcome_text(alloc: Global, formats: &Formats, id: &Id) -> Result<Text, AllocError>
    ensures { IfOk result (λ t. t ≡ outcome_text (resolved formats.now id.now)) }
{
    match resolve(alloc, formats, id) {
        Ok(table) => come_to(alloc, &table),
        Err(RuleFault::UnknownRule { id }) => Ok(Text::from_string(format!(in alloc;
            "wrong: `{id}` is neither a clause nor a ruleset"
        )?)),
        Err(RuleFault::Cycle { id }) => Ok(Text::from_string(format!(in alloc;
            "wrong: it comes to `{id}` inside itself"
        )?)),
        Err(RuleFault::Contradiction { id }) => Ok(Text::from_string(format!(in alloc;
            "wrong: a list names and repeals `{id}`"
        )?)),
        Err(RuleFault::NoMemory) => Err(AllocError),
    }
}

fn set_end(alloc: Global, formats: &Formats, id: &Id) -> Result<Text, AllocError>
    ensures { IfOk result (λ t. t ≡ set_end formats.now id.now (clause_of id.now) (format_of id.now formats.now.formats)) }
{
    match Clause::from_id(id.as_str()) {
        Some(_) => Text::copy_of(alloc, "never used: a clause has this id"),
        None => match formats.format(id) {
            Some(_) => Text::copy_of(alloc, "a format has this id, too: see `Warnings`"),
            None => outcome_text(alloc, formats, id),
        },
    }
}

#[tactic(auto, unfolding(crate::specs::RulesetRows::set_text))]
fn set_text(alloc: Global, formats: &Formats, set: &Ruleset) -> Result<Text, AllocError>
    ensures { IfOk result (λ t. t ≡ set_text formats.now set.now) }
{
    let rules = rule_texts(alloc, set.rules.as_slice())?;
    let end = set_end(alloc, formats, &set.id)?;
    let mut text = listed(alloc, &rules)?;
    text.push_str("; ")?;
    text.push_str(end.as_str())?;
    Ok(text)
}

fn set_row(alloc: Global, formats: &Formats, set: &Ruleset) -> Result<Row, AllocError>
    ensures { IfOk result (λ r. r ≡ set_row formats.now set.now) }
{
    let value = set_text(alloc, formats, set)?;
    row_of(alloc, set.id.as_str(), value)
}

fn rows_of_sets(alloc: Global, formats: &Formats, sets: &[Ruleset]) -> Result<Vec<Row>, AllocError>
    ensures { IfOk result (λ v. v.items ≡ map (set_row formats.now) sets.now) }
{
    let mut rows = Vec::new(alloc);
    for set in sets {
        rows.push(set_row(alloc, formats, set)?)?;
    }
    Ok(rows)
}

/// A row for each ruleset: its rules, and the clauses that it comes to, or what is wrong with it.
pub(crate) fn set_rows(alloc: Global, formats: &Formats) -> Result<Vec<Row>, AllocError>
    ensures { IfOk result (λ v. v.items ≡ map (set_row formats.now) formats.now.rulesets) }
{
    rows_of_sets(alloc, formats, formats.rulesets())
}
