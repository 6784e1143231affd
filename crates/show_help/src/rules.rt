//! Notes on rulesets, and on the rules of formats.
use crate::marks::no_marks;
use crate::rows::{Rows, Texts};
use crate::values::list_under;
use file_help::page::{Row, listed};
use ps_base::id::{Id, to_id};
use ps_base::text::Text;
use ps_dex::dex::Dex;
use ps_rules::clause::Clause;
use ps_rules::fault::{FormatFault, RuleFault};
use ps_rules::formats::{Formats, resolve};
use ps_rules::table::{Format, Rule, RuleTable, Ruleset};
use serde_json::{Map, Value};
use std::alloc::{AllocError, Global};
use std::collections::BTreeMap;

/// Whether a format is told of, where one alone may be asked for.
pub(crate) fn is_told(format: &Format, only: Option<&Format>) -> bool {
    match only {
        None => true,
        Some(other) => other.id.as_str() == format.id.as_str(),
    }
}

/// All clauses.
pub(crate) const CLAUSES: &[Clause] = &[
    Clause::Species,
    Clause::Sleep,
    Clause::Freeze,
    Clause::Ohko,
    Clause::Evasion,
    Clause::Nickname,
    Clause::Preview,
    Clause::Percentage,
];

// ---- rulesets

fn copy_member(
    alloc: Global,
    members: &mut Map<String, Value>,
    config: &Value,
    key: &str,
) -> Result<(), AllocError> {
    match config.get(key) {
        None => Ok(()),
        Some(value) => serde_json::put(members, alloc, key, value.clone()?),
    }
}

/// The rulesets of a configuration without its formats: an id that a format has, too, means the ruleset there, as it does in
/// every rule list. `None` where they aren't in their form.
pub(crate) fn without_formats(
    alloc: Global,
    dex: &Dex,
    config: &Value,
) -> Result<Option<Formats>, AllocError> {
    let mut members = Map::new(alloc);
    copy_member(alloc, &mut members, config, "version")?;
    copy_member(alloc, &mut members, config, "rulesets")?;
    match Formats::from_value(alloc, &Value::Object(members), dex) {
        Ok(sets) => Ok(Some(sets)),
        Err(FormatFault::NoMemory) => Err(AllocError),
        Err(FormatFault::Fault { path: _, kind: _ }) => Ok(None),
    }
}

/// Which rulesets rule lists have come to.
struct Reached {
    /// The index of each ruleset, by its id.
    indexes: BTreeMap<String, usize>,
    /// Whether a list names it, by its index.
    marks: Vec<bool>,
    /// The indexes of those whose own lists are still to be gone through.
    waiting: Vec<usize>,
}

// By hand, so that whoever drops it has one step of its proof for that.
impl Drop for Reached {
    fn drop(self) {
        let Reached {
            indexes: _,
            marks: _,
            waiting: _,
        } = self;
    }
}

impl Reached {
    // A list names an id. A clause comes before a ruleset.
    fn meet(&mut self, id: &str) -> Result<(), AllocError> {
        if Clause::from_id(id).is_some() {
            return Ok(());
        }
        if let Some(index) = self.indexes.get(id).copied() {
            if self.marks.get(index) == Some(&false) {
                if let Some(mark) = self.marks.get_mut(index) {
                    *mark = true;
                }
                self.waiting.push(index)?;
            }
        }
        Ok(())
    }

    // What is repealed is a clause.
    fn meet_rules(&mut self, rules: &[Rule]) -> Result<(), AllocError> {
        for rule in rules {
            if !rule.repeals {
                self.meet(rule.id.as_str())?;
            }
        }
        Ok(())
    }

    fn meet_texts(&mut self, alloc: Global, rules: &[Value]) -> Result<(), AllocError> {
        for rule in rules {
            if let Some(text) = rule.as_str() {
                self.meet_text(alloc, text)?;
            }
        }
        Ok(())
    }

    fn meet_text(&mut self, alloc: Global, text: &str) -> Result<(), AllocError> {
        if text.starts_with('!') {
            return Ok(());
        }
        let id = to_id(alloc, text)?;
        self.meet(id.as_str())
    }

    fn into_marks(self) -> Vec<bool> {
        let Reached {
            indexes: _,
            marks,
            waiting: _,
        } = self;
        marks
    }
}

fn add_index(
    alloc: Global,
    indexes: &mut BTreeMap<String, usize>,
    set: &Ruleset,
    index: usize,
) -> Result<(), AllocError> {
    let id = String::from_str(alloc, set.id.as_str())?;
    indexes.insert(id, index)?;
    Ok(())
}

fn indexes_of(alloc: Global, sets: &[Ruleset]) -> Result<BTreeMap<String, usize>, AllocError> {
    let mut indexes = BTreeMap::new(alloc);
    for index in 0..sets.len() {
        add_index(alloc, &mut indexes, &sets[index], index)?;
    }
    Ok(indexes)
}

fn none_reached(alloc: Global, sets: &[Ruleset]) -> Result<Reached, AllocError> {
    let marks = no_marks(alloc, sets.len())?;
    let indexes = indexes_of(alloc, sets)?;
    Ok(Reached {
        indexes,
        marks,
        waiting: Vec::new(alloc),
    })
}

fn meet_formats(
    alloc: Global,
    reached: &mut Reached,
    formats: &Formats,
    config: &Value,
) -> Result<(), AllocError> {
    for index in 0..formats.list().len() {
        reached.meet_texts(alloc, rules_at(config, index))?;
    }
    Ok(())
}

fn meet_sets(reached: &mut Reached, sets: &[Ruleset]) -> Result<(), AllocError> {
    for _ in 0..sets.len() {
        let Some(index) = reached.waiting.pop() else {
            break;
        };
        if let Some(set) = sets.get(index) {
            reached.meet_rules(set.rules.as_slice())?;
        }
    }
    Ok(())
}

fn meet_all(
    alloc: Global,
    reached: &mut Reached,
    formats: &Formats,
    config: &Value,
) -> Result<(), AllocError> {
    meet_formats(alloc, reached, formats, config)?;
    meet_sets(reached, formats.rulesets())
}

// By a ruleset's index, whether some format comes to it, be it by its own list or by another ruleset.
fn used_marks(alloc: Global, formats: &Formats, config: &Value) -> Result<Vec<bool>, AllocError> {
    let mut reached = none_reached(alloc, formats.rulesets())?;
    meet_all(alloc, &mut reached, formats, config)?;
    Ok(reached.into_marks())
}

// What a ruleset comes to by itself, over rulesets without formats.
fn outcome(alloc: Global, sets: &Formats, id: &Id) -> Result<String, AllocError> {
    match resolve(alloc, sets, id) {
        Ok(table) => clauses_text(alloc, &table),
        Err(RuleFault::UnknownRule { id }) => wrong_at(alloc, &id),
        Err(RuleFault::Cycle { id }) => wrong_at(alloc, &id),
        Err(RuleFault::Contradiction { id }) => wrong_at(alloc, &id),
        Err(RuleFault::NoMemory) => Err(AllocError),
    }
}

fn names_in(alloc: Global, table: &RuleTable) -> Result<Vec<Text>, AllocError> {
    let mut names = Texts::new(alloc);
    for clause in CLAUSES {
        if clause.is_in(table.clauses) {
            names.add(clause.name());
        }
    }
    names.into_vec()
}

fn listed_clauses(alloc: Global, table: &RuleTable) -> Result<Text, AllocError> {
    let names = names_in(alloc, table)?;
    listed(alloc, &names)
}

fn clauses_text(alloc: Global, table: &RuleTable) -> Result<String, AllocError> {
    let names = listed_clauses(alloc, table)?;
    let names = names.as_str();
    format!(in alloc; "comes to {names}")
}

fn wrong_at(alloc: Global, id: &Id) -> Result<String, AllocError> {
    format!(in alloc; "is wrong at `{id}`")
}

// Whether `Rulesets` tells a fault of it.
fn is_wrong(alloc: Global, formats: &Formats, id: &Id) -> Result<bool, AllocError> {
    match resolve(alloc, formats, id) {
        Ok(_) => Ok(false),
        Err(RuleFault::NoMemory) => Err(AllocError),
        Err(_) => Ok(true),
    }
}

fn push_told(alloc: Global, rows: &mut Rows, set: &Ruleset, told: &str) {
    let id = set.id.as_str();
    rows.keyed(format!(in alloc; "ruleset {id}"), told);
}

fn shared_text(alloc: Global, sets: &Formats, id: &Id) -> Result<String, AllocError> {
    let outcome = outcome(alloc, sets, id)?;
    format!(in alloc; "a format has this id, too; rule lists mean the ruleset, which {outcome}")
}

// Of a ruleset with the id of a format, what it comes to: `Rulesets` says nothing of that.
fn push_shared(
    alloc: Global,
    rows: &mut Rows,
    formats: &Formats,
    sets: &Formats,
    set: &Ruleset,
) -> Result<(), AllocError> {
    if formats.format(&set.id).is_some() {
        let told = shared_text(alloc, sets, &set.id)?;
        push_told(alloc, rows, set, told.as_str());
    }
    Ok(())
}

fn push_unused(
    alloc: Global,
    rows: &mut Rows,
    formats: &Formats,
    set: &Ruleset,
) -> Result<(), AllocError> {
    let told = if is_wrong(alloc, formats, &set.id)? {
        "nobody uses it, and it is wrong: see `Rulesets`"
    } else {
        "nobody uses it"
    };
    push_told(alloc, rows, set, told);
    Ok(())
}

/// Rows on the rulesets that have the id of a format, and on those that no format comes to, which say too whether they are
/// wrong. `sets` are the same rulesets without formats.
pub(crate) fn push_rulesets(
    alloc: Global,
    rows: &mut Rows,
    formats: &Formats,
    sets: &Formats,
    config: &Value,
) -> Result<(), AllocError> {
    let used = used_marks(alloc, formats, config)?;
    push_by_use(alloc, rows, formats, sets, &used)
}

fn push_by_use(
    alloc: Global,
    rows: &mut Rows,
    formats: &Formats,
    sets: &Formats,
    used: &[bool],
) -> Result<(), AllocError> {
    for (set, is_used) in formats.rulesets().iter().zip(used) {
        push_shared(alloc, rows, formats, sets, set)?;
        if !*is_used {
            push_unused(alloc, rows, formats, set)?;
        }
    }
    Ok(())
}

// ---- where clauses come from

// Whether a rule text puts a clause on, by itself or by a ruleset, over rulesets without formats.
fn gives(alloc: Global, sets: &Formats, rule: &str, clause: Clause) -> Result<bool, AllocError> {
    if rule.starts_with('!') {
        return Ok(false);
    }
    let id = to_id(alloc, rule)?;
    if let Some(other) = Clause::from_id(id.as_str()) {
        return Ok(other == clause);
    }
    match resolve(alloc, sets, &id) {
        Ok(table) => Ok(clause.is_in(table.clauses)),
        Err(_) => Ok(false),
    }
}

// Whether each list has the clause, whatever it says: HP Percentage Mod in the first form of a configuration.
fn is_always_on(alloc: Global, sets: &Formats, clause: Clause) -> Result<bool, AllocError> {
    if clause != Clause::Percentage {
        return Ok(false);
    }
    let other = to_id(alloc, "speciesclause")?;
    match resolve(alloc, sets, &other) {
        Ok(table) => Ok(clause.is_in(table.clauses)),
        Err(_) => Ok(false),
    }
}

fn source_of(
    alloc: Global,
    sets: &Formats,
    rules: &[Value],
    clause: Clause,
) -> Result<String, AllocError> {
    let name = clause.name();
    if is_always_on(alloc, sets, clause)? {
        return format!(in alloc; "{name} (always on)");
    }
    match giving_rule(alloc, sets, rules, clause)? {
        None => String::from_str(alloc, name),
        Some(rule) => format!(in alloc; "{name} (`{rule}`)"),
    }
}

// The first text of a list that puts a clause on.
fn giving_rule<'a>(
    alloc: Global,
    sets: &Formats,
    rules: &'a [Value],
    clause: Clause,
) -> Result<Option<&'a str>, AllocError> {
    for rule in rules {
        if let Some(rule) = rule.as_str() {
            if gives(alloc, sets, rule, clause)? {
                return Ok(Some(rule));
            }
        }
    }
    Ok(None)
}

fn sources_of(
    alloc: Global,
    sets: &Formats,
    format: &Format,
    rules: &[Value],
) -> Result<Vec<Text>, AllocError> {
    let mut sources = Texts::new(alloc);
    for clause in CLAUSES {
        if clause.is_in(format.table.clauses) {
            sources.formatted(source_of(alloc, sets, rules, *clause));
        }
    }
    sources.into_vec()
}

fn listed_sources(
    alloc: Global,
    sets: &Formats,
    format: &Format,
    rules: &[Value],
) -> Result<Text, AllocError> {
    let sources = sources_of(alloc, sets, format, rules)?;
    listed(alloc, &sources)
}

fn own_rules(config: &Value, index: usize) -> Option<&[Value]> {
    let format = list_under(Some(config), "formats")?.get(index)?;
    list_under(Some(format), "rules")
}

fn rules_at(config: &Value, index: usize) -> &[Value] {
    match own_rules(config, index) {
        None => &[],
        Some(rules) => rules,
    }
}

/// A row for each format, or for one of them alone: by which rule text of its list each of its clauses is on. `sets` are the
/// same rulesets without formats.
pub(crate) fn source_rows(
    alloc: Global,
    formats: &Formats,
    sets: &Formats,
    only: Option<&Format>,
    config: &Value,
) -> Result<Vec<Row>, AllocError> {
    let mut rows = Rows::new(alloc);
    let list = formats.list();
    for index in 0..list.len() {
        let format = &list[index];
        if is_told(format, only) {
            let sources = listed_sources(alloc, sets, format, rules_at(config, index));
            rows.made(format.id.as_str(), sources);
        }
    }
    rows.into_vec()
}
