//! Values by id.
ghost use Rattle.std.specs.Prelude.{◌≡◌, OnOk, OnErr, IfSome, IfNone};
ghost use Rattle.std.specs.Option.{option_copied};
ghost use Rattle.std.specs.FinMap as map;

use std::alloc::{AllocError, Global};
use std::collections::BTreeMap;
use std::marker::Model;
use std::mem;

/// Values by id. Contracts see the finite map from the ids' bytes.
pub struct IdMap<V> {
    tree: BTreeMap<String, V>,
}

// By hand, so that who drops one has one call to prove.
impl<V: Drop> Drop for IdMap<V> {
    fn drop(self) {
        let IdMap { tree: _ } = self;
    }
}

impl<V> Model for IdMap<V> {
    ghost use Rattle.ps_base.specs.ById.{ById, by_id, by_id_code};

    ghost Value = { ById V };

    ghost coded = { by_id_code V.code };

    ghost view = { λ m. by_id m.tree.entries };
}

impl<V: Copy> IdMap<V> {
    /// The value at an id, if there is one.
    pub fn get(&self, id: &str) -> Option<V>
        ensures { result ≡ map.get self.now id.now }
    {
        self.tree.get(id).copied()
    }
}

impl<V> IdMap<V> {
    /// Nothing at any id. Takes no memory.
    pub fn new(alloc: Global) -> IdMap<V>
        ensures { result ≡ map.empty }
    {
        IdMap {
            tree: BTreeMap::new(alloc),
        }
    }

    /// The value at an id, if there is one.
    pub fn find(&self, id: &str) -> Option<&V>
        ensures { option_copied result ≡ map.get self.now id.now }
    {
        self.tree.get(id)
    }
}

impl<V: Drop> IdMap<V> {
    /// Puts a value at an id, in the place of what was there. Where memory fails nothing changes.
    pub fn insert(&mut self, alloc: Global, id: &str, value: V) -> Result<(), AllocError>
        ensures ok { OnOk result (self.new ≡ map.insert self.old id.now value) }
        ensures err { OnErr result (self.new ≡ self.old) }
    {
        let key = String::from_str(alloc, id)?;
        self.tree.insert(key, value)?;
        Ok(())
    }

    /// Takes away what is at an id.
    pub fn remove(&mut self, id: &str)
        ensures { self.new ≡ map.remove self.old id.now }
    {
        let _ = self.tree.remove(id);
    }

    /// Takes out what is at an id, if there is something.
    pub fn take(&mut self, id: &str) -> Option<V>
        ensures value { result ≡ map.get self.old id.now }
        ensures after { self.new ≡ map.remove self.old id.now }
    {
        self.tree.remove(id)
    }

    /// Puts a value in the place of what is at an id, and gives that back. Where there is nothing at the id it
    /// stays so. Takes no memory.
    pub fn replace(&mut self, id: &str, value: V) -> Option<V>
        ensures value { result ≡ map.get self.old id.now }
        ensures there { IfSome result (λ _. self.new ≡ map.insert self.old id.now value) }
        ensures missing { IfNone result (self.new ≡ self.old) }
    {
        let Some(slot) = self.tree.get_mut(id) else {
            return None;
        };
        Some(mem::replace(slot, value))
    }
}
