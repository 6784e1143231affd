//! A list of numbers.
ghost use Rattle.std.specs.Prelude.{◌≡◌, ◌++◌, ◌∷◌, [], OnOk, OnErr};
ghost use Rattle.hall_index.specs.Numbered.{but, is_number};

use std::alloc::{AllocError, Global};
use std::marker::Model;

/// Numbers in the order in which they were added. Contracts see the list.
#[derive(Drop)]
pub(crate) struct Numbers {
    list: Vec<u64>,
}

impl Model for Numbers {
    ghost use Rattle.std.specs.Prelude.{ℕ, List};

    ghost Value = { List ℕ };

    ghost view = { λ n. n.list.items };
}

impl Numbers {
    /// No numbers. Takes no memory.
    pub(crate) fn new(alloc: Global) -> Numbers
        ensures { result ≡ [] }
    {
        Numbers {
            list: Vec::new(alloc),
        }
    }

    /// The numbers.
    pub(crate) fn as_slice(&self) -> &[u64]
        ensures { result.now ≡ self.now }
    {
        self.list.as_slice()
    }

    /// Puts a number behind the others. Where memory fails nothing changes.
    pub(crate) fn push(&mut self, number: u64) -> Result<(), AllocError>
        ensures ok { OnOk result (self.new ≡ self.old ++ number ∷ []) }
        ensures err { OnErr result (self.new ≡ self.old) }
    {
        self.list.push(number)?;
        Ok(())
    }

    /// Takes a number away. Takes no memory.
    pub(crate) fn remove(&mut self, number: u64)
        ensures { self.new ≡ but number self.old }
    {
        self.list.retain(|other| !is_number(number, *other));
    }
}

fn is_number(number: u64, other: u64) -> bool
    ensures { result ≡ is_number number other }
{
    number == other
}
