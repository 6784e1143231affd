//! The walk of a rule list.
ghost use Rattle.std.specs.Prelude.{◌≡◌, ◌+◌, ◌^◌, ◌<◌, length, slice_get, option_copied, IfSome, OnOk, OnSome};
ghost use Rattle.ps_rules.specs.Walk.{nothing, left_on, naming, repealing, own, with_inner, set_named, rules_of, walk, clauses_of};
ghost use Rattle.ps_rules.specs.Steps.{rules_in, frame_at, further, by_mark, heard, turn_in, closed};
ghost use Rattle.ps_rules.specs.Faults.{Finds};

use crate::clause::{Clause, has};
use crate::fault::RuleFault;
use crate::marks::{Mark, Marks};
use crate::table::{Rule, Ruleset};
use crate::version::{Version, always_on};
use ps_base::id::Id;
use ps_data::table::Table;
use std::alloc::{AllocError, Global};
use std::collections::VecDeque;

/// What one list says so far: the clauses of its inner lists, those that it names and those that it
/// repeals.
#[derive(Clone, Copy, Debug, PartialEq, Eq)]
struct Tally {
    inner: u8,
    named: u8,
    repealed: u8,
}

/// A list that the walk is in.
#[derive(Clone, Copy)]
struct Frame {
    /// The index of its ruleset. None for the list that the walk begins with.
    index: Option<usize>,
    /// How many of its texts have been walked.
    next: usize,
    /// What these say.
    tally: Tally,
}

/// The next step in a list.
#[derive(Clone, Copy)]
enum Turn {
    /// One text more has been walked.
    Further(Frame),
    /// The text names a ruleset that the walk hasn't met, at an index.
    Inner(usize),
    /// No text is left, and the list leaves these clauses on.
    Over(u8),
}

fn nothing() -> Tally
    ensures { result ≡ nothing }
{
    Tally {
        inner: 0,
        named: 0,
        repealed: 0,
    }
}

/// The list's own repeals come last.
fn left_on(tally: Tally) -> u8
    ensures { result ≡ left_on tally }
{
    (tally.inner | tally.named) & (255 ^ tally.repealed)
}

fn naming(tally: Tally, bit: u8) -> Option<Tally>
    ensures { result ≡ naming tally bit }
{
    if has(tally.repealed, bit) {
        None
    } else {
        Some(Tally {
            inner: tally.inner,
            named: tally.named | bit,
            repealed: tally.repealed,
        })
    }
}

fn repealing(tally: Tally, bit: u8) -> Option<Tally>
    ensures { result ≡ repealing tally bit }
{
    if has(tally.named, bit) {
        None
    } else {
        Some(Tally {
            inner: tally.inner,
            named: tally.named,
            repealed: tally.repealed | bit,
        })
    }
}

#[tactic(auto, unfolding(crate::specs::Walk::own))]
fn own(tally: Tally, bit: u8, repeals: bool) -> Option<Tally>
    ensures { result ≡ own tally bit repeals }
{
    if repeals {
        repealing(tally, bit)
    } else {
        naming(tally, bit)
    }
}

fn with_inner(tally: Tally, clauses: u8) -> Tally
    ensures { result ≡ with_inner tally clauses }
{
    Tally {
        inner: tally.inner | clauses,
        named: tally.named,
        repealed: tally.repealed,
    }
}

/// The ruleset that a text names. A ruleset can't be repealed.
#[tactic(auto, unfolding(crate::specs::Walk::set_named, crate::specs::Rules::index_of))]
fn set_named(sets: &Table<Ruleset>, rule: &Rule) -> Option<usize>
    ensures { result ≡ set_named sets.now rule.now }
{
    if rule.repeals {
        None
    } else {
        sets.index_of(rule.id.as_str())
    }
}

fn rules_at(sets: &[Ruleset], index: usize) -> &[Rule]
    ensures { result.now ≡ rules_of (slice_get sets.now index) }
{
    match sets.get(index) {
        None => &[],
        Some(set) => set.rules.as_slice(),
    }
}

fn rules_in<'a>(sets: &'a Table<Ruleset>, first: &'a [Rule], index: Option<usize>) -> &'a [Rule]
    ensures { result.now ≡ rules_in sets.now first.now index }
{
    match index {
        None => first,
        Some(index) => rules_at(sets.as_slice(), index),
    }
}

/// The text that comes next in a list, if one is left.
fn next_text(rules: &[Rule], next: usize) -> Option<&Rule>
    ensures text { option_copied result ≡ slice_get rules.now next }
    ensures room { OnSome result (next + 1 < 2 ^ 64) }
{
    if next < rules.len() {
        Some(&rules[next])
    } else {
        None
    }
}

fn frame_at(index: Option<usize>) -> Frame
    ensures { result ≡ frame_at index }
{
    Frame {
        index,
        next: 0,
        tally: nothing(),
    }
}

fn further(frame: Frame, tally: Tally) -> Frame
    requires { frame.next + 1 < 2 ^ 64 }
    ensures { result ≡ further frame tally }
{
    Frame {
        index: frame.index,
        next: frame.next + 1,
        tally,
    }
}

/// A text that names the ruleset with a mark.
fn by_mark(
    alloc: Global,
    id: &Id,
    frame: Frame,
    index: usize,
    mark: Option<Mark>,
) -> Result<Turn, RuleFault>
    requires { frame.next + 1 < 2 ^ 64 }
    ensures { Finds result (by_mark id.now frame index mark) }
{
    match mark {
        Some(Mark::New) => Ok(Turn::Inner(index)),
        Some(Mark::Done(clauses)) => Ok(Turn::Further(further(
            frame,
            with_inner(frame.tally, clauses),
        ))),
        Some(Mark::Open) | None => Err(RuleFault::Cycle {
            id: id.copy(alloc)?,
        }),
    }
}

/// The step at a text.
#[tactic(auto, unfolding(crate::specs::Steps::heard))]
fn heard(
    alloc: Global,
    sets: &Table<Ruleset>,
    marks: &Marks,
    frame: Frame,
    rule: &Rule,
) -> Result<Turn, RuleFault>
    requires { frame.next + 1 < 2 ^ 64 }
    ensures { Finds result (heard sets.now marks.now frame rule.now) }
{
    if let Some(clause) = Clause::from_id(rule.id.as_str()) {
        return match own(frame.tally, clause.bit(), rule.repeals) {
            None => Err(RuleFault::Contradiction {
                id: rule.id.copy(alloc)?,
            }),
            Some(tally) => Ok(Turn::Further(further(frame, tally))),
        };
    }
    match set_named(sets, rule) {
        None => Err(RuleFault::UnknownRule {
            id: rule.id.copy(alloc)?,
        }),
        Some(index) => by_mark(alloc, &rule.id, frame, index, marks.get(index)),
    }
}

/// The next step in a list.
#[tactic(auto, unfolding(crate::specs::Steps::turn_in))]
fn turn_in(
    alloc: Global,
    sets: &Table<Ruleset>,
    marks: &Marks,
    first: &[Rule],
    frame: Frame,
) -> Result<Turn, RuleFault>
    ensures { Finds result (turn_in sets.now marks.now first.now frame) }
{
    match next_text(rules_in(sets, first, frame.index), frame.next) {
        None => Ok(Turn::Over(left_on(frame.tally))),
        Some(rule) => heard(alloc, sets, marks, frame, rule),
    }
}

/// The ruleset of a list leaves these clauses on from now on.
fn close(marks: &mut Marks, index: Option<usize>, clauses: u8) -> Result<(), AllocError>
    requires { IfSome index (λ p. p < length marks.old) }
    ensures { OnOk result (marks.new ≡ closed marks.old index clauses) }
{
    if let Some(index) = index {
        marks.set(index, Mark::Done(clauses))?;
    }
    Ok(())
}

/// Each ruleset is entered once: its mark says afterwards what it leaves on. The lists that wait for
/// an inner one lie in `waiting`, the innermost first, each at the text that names the next.
fn walk(alloc: Global, sets: &Table<Ruleset>, rules: &[Rule]) -> Result<u8, RuleFault>
    ensures { Finds result (walk sets.now rules.now) }
{
    let mut marks = Marks::all_new(alloc, sets.as_slice().len());
    let mut waiting = VecDeque::new(alloc);
    let mut frame = frame_at(None);
    'steps: loop {
        match turn_in(alloc, sets, &marks, rules, frame) {
            Err(fault) => return Err(fault),
            Ok(Turn::Further(next)) => frame = next,
            Ok(Turn::Inner(index)) => {
                waiting.push_front(frame)?;
                marks.set(index, Mark::Open)?;
                frame = frame_at(Some(index));
            }
            Ok(Turn::Over(clauses)) => {
                let Some(outer) = waiting.pop_front() else {
                    return Ok(clauses);
                };
                close(&mut marks, frame.index, clauses)?;
                frame = outer;
            }
        }
    }
}

/// The clauses that a rule list leaves on, with those that are always on.
#[tactic(auto, unfolding(crate::specs::Walk::clauses_of))]
pub(crate) fn clauses_of(
    alloc: Global,
    version: Version,
    sets: &Table<Ruleset>,
    rules: &[Rule],
) -> Result<u8, RuleFault>
    ensures { Finds result (clauses_of version sets.now rules.now) }
{
    let clauses = walk(alloc, sets, rules)?;
    Ok(clauses | always_on(version))
}
