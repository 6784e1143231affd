//! Names.
ghost use Rattle.std.specs.Prelude.{◌≡◌, Ok, length, IfOk, IfErr};
ghost use Rattle.std.specs.List.{position};
ghost use Rattle.std.specs.Str.{chars};
ghost use Rattle.ps_base.specs.Ids.{id_of};
ghost use Rattle.ps_base.specs.Names.{after_spaces, trim_end_spaces, between_spaces, is_bad, name_in, IsNameFault};
ghost use Rattle.ps_base.specs.declared.name.NameFault.TheVariants.{NoMemory};

use crate::id::{Id, to_id};
use crate::number::counted;
use crate::text::Text;
use std::alloc::{AllocError, Global};
use std::fmt;
use std::marker::Model;
use thiserror::Error;

/// A user's name, with its id kept beside it. Contracts see the bytes of the name.
#[derive(Debug)]
pub struct Name {
    text: Text,
    id: Id,
}

// By hand, so that who drops one has one call to prove.
impl Drop for Name {
    fn drop(self) {
        let Name { text: _, id: _ } = self;
    }
}

impl Model for Name {
    ghost use Rattle.std.specs.Prelude.{◌≡◌, ℕ, List};
    ghost use Rattle.ps_base.specs.Ids.{id_of};

    ghost Value = { List ℕ };

    ghost view = { λ n. n.text };

    ghost invariant = { λ n. n.id ≡ id_of n.text };
}

impl Name {
    /// A name with this text.
    pub fn new(alloc: Global, text: &str) -> Result<Name, AllocError>
        ensures { IfOk result (λ n. n ≡ text.now) }
    {
        Ok(Name {
            id: to_id(alloc, text)?,
            text: Text::copy_of(alloc, text)?,
        })
    }

    /// The text of the name.
    pub fn text(&self) -> &Text
        ensures { result.now ≡ self.now }
    {
        &self.text
    }

    /// The id of the name.
    pub fn id(&self) -> &Id
        ensures { result.now ≡ id_of self.now }
    {
        &self.id
    }

    /// The same name.
    pub fn copy(&self, alloc: Global) -> Result<Name, AllocError>
        ensures { IfOk result (λ n. n ≡ self.now) }
    {
        Ok(Name {
            id: self.id.copy(alloc)?,
            text: self.text.copy(alloc)?,
        })
    }
}

impl fmt::Display for Name {
    ghost use Rattle.std.specs.Prelude.{Some};

    ghost output = { λ n. Some n };

    fn fmt<W: fmt::Write>(&self, f: &mut fmt::Formatter<W>) -> fmt::Result {
        f.write_str(self.text.as_str())
    }
}

/// Why a text isn't a name.
#[derive(Clone, Copy, Debug, PartialEq, Eq, Error)]
pub enum NameFault {
    /// A character that can't stand in a name, at this index in what is left between the spaces,
    /// counted in characters from 0. (Past `u32::MAX` the index is that number.)
    #[error("character {at} can't stand in a name")]
    BadChar { at: u32 },
    /// More than 18 characters are left: so many. (`u32::MAX` where it is more.)
    #[error("a name of {chars} characters")]
    Long { chars: u32 },
    /// The id would be empty.
    #[error("a name without letter and digit")]
    Empty,
    /// Out of memory.
    #[error("no memory")]
    NoMemory,
}

impl From<AllocError> for NameFault {
    ghost from_gives = { λ _ e. e ≡ NoMemory };

    fn from(_e: AllocError) -> NameFault {
        NameFault::NoMemory
    }
}

fn after_spaces(text: &str) -> &str
    ensures { result.now ≡ after_spaces text.now }
{
    text.trim_start_matches(' ')
}

fn trim_end_spaces(text: &str) -> &str
    ensures { result.now ≡ trim_end_spaces text.now }
{
    text.trim_end_matches(' ')
}

fn first_bad(text: &str) -> Option<usize>
    ensures { result ≡ position is_bad (chars text.now) }
{
    text.chars()
        .position(|c| c < ' ' || c > '~' || c == '|' || c == ',')
}

fn count_of(text: &str) -> usize
    ensures { result ≡ length (chars text.now) }
{
    text.chars().count()
}

fn between_spaces(text: &str) -> &str
    ensures { result.now ≡ between_spaces text.now }
{
    trim_end_spaces(after_spaces(text))
}

/// Reads a name as a client sends it (`/trn` of PROTOCOL.md): the spaces at both ends are dropped.
///
/// The faults, in the order in which they are reported: `BadChar` where a character is outside U+0020
/// to U+007E or is `|` or `,`, `Long` past 18 characters, `Empty` where the id is empty.
/// `NoMemory` may come at any text.
#[tactic(auto, unfolding(crate::specs::Names::name_in))]
pub fn read_name(alloc: Global, text: &str) -> Result<Name, NameFault>
    ensures name { IfOk result (λ n. name_in text.now ≡ Ok n) }
    ensures fault { IfErr result (λ f. IsNameFault f (name_in text.now)) }
{
    let left = between_spaces(text);
    if let Some(at) = first_bad(left) {
        return Err(NameFault::BadChar { at: counted(at) });
    }
    let chars = count_of(left);
    if chars > 18 {
        return Err(NameFault::Long {
            chars: counted(chars),
        });
    }
    let name = Name::new(alloc, left)?;
    if name.id().as_str().is_empty() {
        return Err(NameFault::Empty);
    }
    Ok(name)
}
