//! How far a walk is with each ruleset.
ghost use Rattle.std.specs.Prelude.{◌≡◌, ◌<◌, length, replicate, slice_get, slice_set, OnOk};

use std::alloc::{AllocError, Global};
use std::collections::BTreeMap;
use std::marker::Model;

/// How far the walk is with a ruleset.
#[derive(Clone, Copy)]
pub(crate) enum Mark {
    /// The walk hasn't met it.
    New,
    /// The walk stands inside it.
    Open,
    /// Its list was walked, and leaves these clauses on wherever it is met.
    Done(u8),
}

/// The marks of all rulesets, by index. Only those that the walk has met take memory and time. Contracts see the list.
#[derive(Drop)]
pub(crate) struct Marks {
    met: BTreeMap<usize, Mark>,
    count: usize,
}

impl Model for Marks {
    ghost use Rattle.std.specs.Prelude as prelude;
    ghost use Rattle.ps_rules.specs.declared.marks.Mark.{Mark};
    ghost use Rattle.ps_rules.specs.Marks.{marks_from};

    ghost Value = { prelude.List Mark };

    ghost view = { λ m. marks_from m.met 0 m.count };
}

impl Marks {
    /// The marks of so many rulesets of which the walk has met none. Takes no memory.
    pub(crate) fn all_new(alloc: Global, count: usize) -> Marks
        ensures { result ≡ replicate count Mark.New }
    {
        Marks {
            met: BTreeMap::new(alloc),
            count,
        }
    }

    /// The mark at an index. `None` exactly where no ruleset has it.
    pub(crate) fn get(&self, index: usize) -> Option<Mark>
        ensures { result ≡ slice_get self.now index }
    {
        if index >= self.count {
            return None;
        }
        match self.met.get(&index) {
            None => Some(Mark::New),
            Some(mark) => Some(*mark),
        }
    }

    /// Marks the ruleset at an index.
    pub(crate) fn set(&mut self, index: usize, mark: Mark) -> Result<(), AllocError>
        requires { index < length self.old }
        ensures { OnOk result (self.new ≡ slice_set self.old index mark) }
    {
        self.met.insert(index, mark)?;
        Ok(())
    }
}
