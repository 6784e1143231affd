//! The numbers of items, by id.
ghost use Rattle.std.specs.Prelude.{◌≡◌, ℕ, ◌∷◌, [], List, OnOk, OnErr, is_some, true};
ghost use Rattle.std.specs.FinMap.{empty, get, insert};
ghost use Rattle.hall_index.specs.IdIndices.{numbers_at, put_numbers, with_number, without_number};

use crate::numbers::Numbers;
use ps_base::id_map::IdMap;
use std::alloc::{AllocError, Global};
use std::marker::Model;

/// The numbers of the items that an id finds, in the order in which they were added. Contracts see a finite map.
pub struct IdIndex {
    map: IdMap<Numbers>,
}

// By hand, so that who drops one has one call to prove.
impl Drop for IdIndex {
    fn drop(self) {
        let IdIndex { map: _ } = self;
    }
}

impl Model for IdIndex {
    ghost use Rattle.std.specs.Prelude.{ℕ, List};
    ghost use Rattle.std.specs.Coded.{coded_ℕ, coded_list};
    ghost use Rattle.ps_base.specs.ById.{ById, by_id_code};

    ghost Value = { ById (List ℕ) };

    ghost coded = { by_id_code (coded_list coded_ℕ) };

    ghost view = { λ i. i.map };
}

// Gives an id that has numbers these ones. Takes no memory.
fn put_back(map: &mut IdMap<Numbers>, id: &str, numbers: Numbers)
    requires { is_some (get map.old id.now) ≡ true }
    ensures { map.new ≡ insert map.old id.now numbers }
{
    let _ = map.replace(id, numbers);
}

// The first number of an id.
fn add_first(
    map: &mut IdMap<Numbers>,
    alloc: Global,
    id: &str,
    number: u64,
) -> Result<(), AllocError>
    ensures ok { OnOk result (map.new ≡ insert map.old id.now (number ∷ [])) }
    ensures err { OnErr result (map.new ≡ map.old) }
{
    let mut numbers = Numbers::new(alloc);
    numbers.push(number)?;
    map.insert(alloc, id, numbers)
}

fn add(map: &mut IdMap<Numbers>, alloc: Global, id: &str, number: u64) -> Result<(), AllocError>
    ensures ok { OnOk result (map.new ≡ with_number map.old id.now number) }
    ensures err { OnErr result (map.new ≡ map.old) }
{
    let Some(mut numbers) = map.replace(id, Numbers::new(alloc)) else {
        return add_first(map, alloc, id, number);
    };
    match numbers.push(number) {
        Err(end) => {
            put_back(map, id, numbers);
            Err(end)
        }
        Ok(()) => {
            put_back(map, id, numbers);
            Ok(())
        }
    }
}

// An id that has numbers has these ones. Takes no memory.
fn put(map: &mut IdMap<Numbers>, id: &str, numbers: Numbers)
    requires { is_some (get map.old id.now) ≡ true }
    ensures { map.new ≡ put_numbers map.old id.now numbers }
{
    if numbers.as_slice().is_empty() {
        map.remove(id);
        return;
    }
    put_back(map, id, numbers);
}

fn remove(map: &mut IdMap<Numbers>, alloc: Global, id: &str, number: u64)
    ensures { map.new ≡ without_number map.old id.now number }
{
    let Some(mut numbers) = map.replace(id, Numbers::new(alloc)) else {
        map.remove(id);
        return;
    };
    numbers.remove(number);
    put(map, id, numbers);
}

impl IdIndex {
    /// No numbers. Takes no memory.
    pub fn new(alloc: Global) -> IdIndex
        ensures { result ≡ empty }
    {
        IdIndex {
            map: IdMap::new(alloc),
        }
    }

    /// The numbers at an id. Takes no memory.
    pub fn at(&self, id: &str) -> &[u64]
        ensures { result.now ≡ numbers_at self.now id.now }
    {
        match self.map.find(id) {
            None => &[],
            Some(numbers) => numbers.as_slice(),
        }
    }

    /// Adds a number at an id. Where memory fails nothing changes.
    pub fn add(&mut self, alloc: Global, id: &str, number: u64) -> Result<(), AllocError>
        ensures ok { OnOk result (self.new ≡ with_number self.old id.now number) }
        ensures err { OnErr result (self.new ≡ self.old) }
    {
        add(&mut self.map, alloc, id, number)
    }

    /// Takes a number away at an id. Takes no memory.
    pub fn remove(&mut self, alloc: Global, id: &str, number: u64)
        ensures { self.new ≡ without_number self.old id.now number }
    {
        remove(&mut self.map, alloc, id, number)
    }
}
