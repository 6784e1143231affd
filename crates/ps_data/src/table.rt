//! A table in the order of its file.
ghost use Rattle.std.specs.Prelude.{◌≡◌, ◌<◌, [], ◌∷◌, ◌++◌, length, position, bytes_eq, IfSome, OnOk, OnErr};
ghost use Rattle.ps_data.specs.OwnIds.{has_id, IsNew};

use crate::ids::HasId;
use indexmap::IndexMap;
use std::alloc::{AllocError, Global};
use std::marker::Model;

/// Rows in the order of their file, no two of them with one id. Contracts see the list of the rows; an id is looked
/// up without a walk of it.
#[derive(Debug)]
pub struct Table<T: HasId> {
    rows: IndexMap<String, T>,
}

impl<T: HasId> Model for Table<T> {
    ghost use Rattle.std.specs.Prelude as prelude;
    ghost use Rattle.ps_data.specs.Tables.{rows_of, AreKeyed};

    ghost Value = { prelude.List T };

    ghost view = { λ t. rows_of t.rows.entries };

    ghost invariant = { λ t. AreKeyed T.id_of t.rows.entries };
}

// By hand, so that whoever drops a table has one step of its proof for that, and not one for each part of a map.
impl<T: HasId + Drop> Drop for Table<T> {
    fn drop(self) {
        let Table { rows: _ } = self;
    }
}

impl<T: HasId> Table<T> {
    /// No row. Takes no memory.
    pub fn new(alloc: Global) -> Table<T>
        ensures { result ≡ [] }
    {
        Table {
            rows: IndexMap::new(alloc),
        }
    }

    /// The rows, in order.
    pub fn as_slice(&self) -> &[T]
        ensures { result.now ≡ self.now }
    {
        self.rows.values().as_slice()
    }

    /// The index of the row with an id, from 0. `None` exactly where no row has it.
    pub fn index_of(&self, id: &str) -> Option<usize>
        ensures index { result ≡ position (λ t. bytes_eq (T.id_of t) id.now) self.now }
        ensures within { IfSome result (λ i. i < length self.now) }
    {
        self.rows.get_index_of(id)
    }

    /// Whether a row has an id.
    #[tactic(auto, unfolding(crate::specs::OwnIds::has_id))]
    pub fn has_id(&self, id: &str) -> bool
        ensures { result ≡ has_id T.id_of id.now self.now }
    {
        self.index_of(id).is_some()
    }
}

impl<T: HasId + Drop> Table<T> {
    /// Adds a row behind the others. Where memory fails nothing changes.
    pub fn push(&mut self, alloc: Global, row: T) -> Result<(), AllocError>
        requires { IsNew T.id_of (T.id_of row) self.old }
        ensures ok { OnOk result (self.new ≡ self.old ++ row ∷ []) }
        ensures err { OnErr result (self.new ≡ self.old) }
    {
        let id = String::from_str(alloc, row.id())?;
        self.rows.insert(id, row)?;
        Ok(())
    }
}
