//! A list that contracts see as the list of its items.
ghost use Rattle.std.specs.Prelude.{◌≡◌};

use std::marker::Model;

/// A list that owns its items. Contracts see it as the plain list, so a definition can compute one,
/// as it can't a `Vec`.
#[derive(Debug)]
pub struct List<T> {
    inner: Vec<T>,
}

// By hand, so that who drops one has one call to prove.
impl<T: Drop> Drop for List<T> {
    fn drop(self) {
        let List { inner: _ } = self;
    }
}

impl<T> Model for List<T> {
    ghost use Rattle.std.specs.Prelude as prelude;

    ghost Value = { prelude.List T };

    ghost view = { λ l. l.inner.items };
}

impl<T> List<T> {
    /// The same items. Takes no memory.
    pub fn from_vec(inner: Vec<T>) -> List<T>
        ensures { result ≡ inner.items }
    {
        List { inner }
    }

    /// The items as a slice.
    pub fn as_slice(&self) -> &[T]
        ensures { result.now ≡ self.now }
    {
        self.inner.as_slice()
    }
}
