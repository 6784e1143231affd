//! Ids.
ghost use Rattle.std.specs.Prelude.{◌≡◌, IfOk};
ghost use Rattle.ps_base.specs.Ids.{id_of, id_in, is_id};

use crate::text::Text;
use std::alloc::{AllocError, Global};
use std::fmt;
use std::marker::Model;

/// An id of PROTOCOL.md: a text of a to z and 0 to 9. Contracts see the list of its bytes.
#[derive(Debug)]
pub struct Id {
    text: Text,
}

// By hand, so that who drops one has one call to prove.
impl Drop for Id {
    fn drop(self) {
        let Id { text: _ } = self;
    }
}

impl Model for Id {
    ghost use Rattle.std.specs.Prelude.{◌≡◌, ℕ, List, true};
    ghost use Rattle.ps_base.specs.Ids.{is_id};

    ghost Value = { List ℕ };

    ghost view = { λ i. i.text };

    ghost invariant = { λ i. is_id i.text ≡ true };
}

/// The id of a text: ASCII letters in lower case, and everything but a to z and 0 to 9 dropped.
pub fn to_id(alloc: Global, text: &str) -> Result<Id, AllocError>
    ensures { IfOk result (λ id. id ≡ id_of text.now) }
{
    let mut id = String::new(alloc);
    for b in text.as_bytes() {
        let b = b.to_ascii_lowercase();
        if b.is_ascii_lowercase() || b.is_ascii_digit() {
            id.push(b as char)?;
        }
    }
    Ok(Id {
        text: Text::from_string(id),
    })
}

fn is_id(bytes: &[u8]) -> bool
    ensures { result ≡ is_id bytes.now }
{
    for b in bytes {
        if !(b.is_ascii_lowercase() || b.is_ascii_digit()) {
            return false;
        }
    }
    true
}

/// The id that a text is: `None` exactly where it is empty or has another byte than a to z and 0 to 9.
pub fn read_id(alloc: Global, text: &str) -> Result<Option<Id>, AllocError>
    ensures { IfOk result (λ o. o ≡ id_in text.now) }
{
    if text.is_empty() || !is_id(text.as_bytes()) {
        return Ok(None);
    }
    let text = Text::copy_of(alloc, text)?;
    Ok(Some(Id { text }))
}

impl Id {
    ghost use Rattle.std.specs.Prelude.{true};

    /// The bytes as a `&str`.
    pub fn as_str(&self) -> &str
        ensures value { result.now ≡ self.now }
        ensures id { is_id self.now ≡ true }
    {
        self.text.as_str()
    }

    /// The same id.
    pub fn copy(&self, alloc: Global) -> Result<Id, AllocError>
        ensures { IfOk result (λ id. id ≡ self.now) }
    {
        Ok(Id {
            text: self.text.copy(alloc)?,
        })
    }
}

impl fmt::Display for Id {
    ghost use Rattle.std.specs.Prelude.{Some};

    ghost output = { λ i. Some i };

    fn fmt<W: fmt::Write>(&self, f: &mut fmt::Formatter<W>) -> fmt::Result {
        f.write_str(self.text.as_str())
    }
}

impl PartialEq for Id {
    ghost use Rattle.std.specs.Prelude.{◌==◌};
    ghost use Rattle.std.specs.Str.{bytes_eq};
    ghost use Rattle.std.proofs.Common.{rules};
    ghost use Rattle.std.specs.Cmp.Rules.{comparing};

    ghost eq = { bytes_eq };

    ghost laws = { Prim.search (comparing, rules) };

    fn eq(&self, other: &Id) -> bool {
        self.text.as_str() == other.text.as_str()
    }
}

impl Eq for Id {
    ghost use Rattle.std.proofs.Common.{rules};
    ghost use Rattle.std.specs.Cmp.Rules.{comparing};

    ghost laws = { Prim.search (comparing, rules) };
}
