//! Values by connection.
ghost use Rattle.std.specs.Prelude.{◌≡◌, OnOk, OnErr, true, is_some};
ghost use Rattle.std.specs.Option.{option_copied};
ghost use Rattle.std.specs.FinMap as map;

use ps_base::number::ConnNo;
use std::alloc::{AllocError, Global};
use std::collections::BTreeMap;
use std::marker::Model;

/// Values by connection, whatever the order of their numbers. Contracts see the finite map from the
/// numbers.
#[derive(Drop)]
pub struct ConnMap<V> {
    tree: BTreeMap<u32, V>,
}

impl<V> Model for ConnMap<V> {
    ghost use Rattle.ps_users.specs.ByConn.{ByConn, by_conn, by_conn_code};

    ghost Value = { ByConn V };

    ghost coded = { by_conn_code V.code };

    ghost view = { λ m. by_conn m.tree.entries };
}

impl<V> ConnMap<V> {
    /// Nothing at any connection. Takes no memory.
    pub fn new(alloc: Global) -> ConnMap<V>
        ensures { result ≡ map.empty }
    {
        ConnMap {
            tree: BTreeMap::new(alloc),
        }
    }

    /// The value at a connection, if there is one.
    pub fn find(&self, conn: ConnNo) -> Option<&V>
        ensures { option_copied result ≡ map.get self.now conn }
    {
        self.tree.get(&conn.0)
    }
}

impl<V: Drop> ConnMap<V> {
    /// Puts a value at a connection, in the place of what was there. Where memory fails nothing changes.
    pub fn insert(&mut self, conn: ConnNo, value: V) -> Result<(), AllocError>
        ensures ok { OnOk result (self.new ≡ map.insert self.old conn value) }
        ensures err { OnErr result (self.new ≡ self.old) }
    {
        self.tree.insert(conn.0, value)?;
        Ok(())
    }

    /// Puts a value in the place of the one at a connection. Takes no memory.
    pub fn set(&mut self, conn: ConnNo, value: V)
        requires { is_some (map.get self.old conn) ≡ true }
        ensures { self.new ≡ map.insert self.old conn value }
    {
        let slot = self.tree.get_mut(&conn.0).unwrap();
        *slot = value;
    }

    /// Takes out what is at a connection, if there is something.
    pub fn take(&mut self, conn: ConnNo) -> Option<V>
        ensures value { result ≡ map.get self.old conn }
        ensures after { self.new ≡ map.remove self.old conn }
    {
        self.tree.remove(&conn.0)
    }
}
