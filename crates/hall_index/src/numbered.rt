//! Items by number.
ghost use Rattle.std.specs.Prelude.{◌≡◌, ◌++◌, ◌∷◌, [], map, OnOk, OnErr, IfOk};
ghost use Rattle.std.specs.Option.{option_copied};
ghost use Rattle.hall_index.specs.Numbered.{AreBelow, item_at, items_at, without};

use std::alloc::{AllocError, Global};
use std::collections::BTreeMap;
use std::marker::Model;

/// Items in order, each with a number above those before it. Finding, adding and taking one away cost the logarithm of how
/// many there are. Contracts see the list of numbers with their items.
#[derive(Drop)]
pub struct Numbered<T> {
    tree: BTreeMap<u64, T>,
}

impl<T> Model for Numbered<T> {
    ghost use Rattle.std.specs.Prelude.{ℕ, List};
    ghost use Rattle.std.specs.Ordering.{nat_cmp};
    ghost use Rattle.std.specs.BTreeMap.{IsOrdered};

    ghost Value = { List (ℕ × T) };

    ghost view = { λ n. n.tree.entries };

    ghost invariant = { λ n. IsOrdered nat_cmp n.tree };
}

impl<T> Numbered<T> {
    /// No items. Takes no memory.
    pub fn new(alloc: Global) -> Numbered<T>
        ensures { result ≡ [] }
    {
        Numbered {
            tree: BTreeMap::new(alloc),
        }
    }

    /// The item with a number, if it is there. Takes no memory.
    pub fn get(&self, number: u64) -> Option<&T>
        ensures { option_copied result ≡ item_at number self.now }
    {
        self.tree.get(&number)
    }

    /// The items with these numbers, in their order, of those that are there.
    pub fn items_at<'a>(&'a self, alloc: Global, numbers: &[u64]) -> Result<Vec<&'a T>, AllocError>
        ensures { IfOk result (λ v. map (λ x. x.now) v.items ≡ items_at numbers.now self.now) }
    {
        let mut found = Vec::new(alloc);
        for number in numbers {
            self.push_at(&mut found, *number)?;
        }
        Ok(found)
    }

    // The item with a number, if it is there, behind those that were found.
    fn push_at<'a>(&'a self, found: &mut Vec<&'a T>, number: u64) -> Result<(), AllocError>
        ensures { OnOk result (map (λ x. x.now) found.new.items ≡ map (λ x. x.now) found.old.items
            ++ items_at (number ∷ []) self.now) }
    {
        match self.get(number) {
            None => Ok(()),
            Some(item) => {
                found.push(item)?;
                Ok(())
            }
        }
    }
}

impl<T: Drop> Numbered<T> {
    /// Puts an item behind the others. Where memory fails nothing changes.
    pub fn append(&mut self, number: u64, item: T) -> Result<(), AllocError>
        requires { AreBelow number self.old }
        ensures ok { OnOk result (self.new ≡ self.old ++ (number, item) ∷ []) }
        ensures err { OnErr result (self.new ≡ self.old) }
    {
        self.tree.insert(number, item)?;
        Ok(())
    }

    /// Takes out the item with a number, if it is there. Takes no memory.
    pub fn take(&mut self, number: u64) -> Option<T>
        ensures value { result ≡ item_at number self.old }
        ensures after { self.new ≡ without number self.old }
    {
        self.tree.remove(&number)
    }
}
