//! Where a value isn't in its form, and why.
ghost use Rattle.std.specs.Prelude.{◌≡◌, [], ◌∷◌, ◌++◌, OnOk, IfOk, string_bytes};
ghost use Rattle.ps_data.specs.Paths.{Key, Index, step_text, path_text, first_index};
ghost use Rattle.ps_data.specs.Parts.{step_of, steps_of};
ghost use Rattle.ps_data.specs.Reading.{IsDeeper};
ghost use Rattle.ps_data.specs.declared.fault.Refusal.TheVariants.{NoMemory};

use std::alloc::{AllocError, AllocFailed, Global};
use std::marker::Model;

/// Why a value isn't in its form.
#[derive(Clone, Copy, Debug, PartialEq, Eq)]
pub enum DataKind {
    /// The text is no JSON.
    Json,
    /// A value of another JSON type, a key that must be there and is missing, or a number that isn't
    /// a whole one of 64 bits.
    Shape,
    /// A number, a length or a text out of its range.
    Range,
    /// A name that stands for nothing.
    Unknown,
    /// What came before in the same list or object.
    Repeat,
}

/// A step from a value to one inside it.
#[derive(Debug, Drop)]
enum Part {
    Key(String),
    Index(usize),
}

/// The way from a value to one inside it. Contracts see the steps, outermost first.
#[derive(Debug, Drop)]
pub struct Path {
    inwards: Vec<Part>,
}

impl Model for Path {
    ghost use Rattle.std.specs.Prelude.{List};
    ghost use Rattle.ps_data.specs.Paths.{Step};
    ghost use Rattle.ps_data.specs.Parts.{steps_of};

    ghost Value = { List Step };

    ghost view = { λ p. steps_of p.inwards.items };
}

impl Path {
    /// The way to the value itself: no step. Takes no memory.
    pub fn new(alloc: Global) -> Path
        ensures { result ≡ [] }
    {
        Path {
            inwards: Vec::new(alloc),
        }
    }

    /// Puts the step to what an object has at a key in front.
    pub fn under_key(&mut self, alloc: Global, key: &str) -> Result<(), AllocError>
        ensures { OnOk result (self.new ≡ Key key.now ∷ self.old) }
    {
        self.inwards.push(Part::Key(String::from_str(alloc, key)?))?;
        Ok(())
    }

    /// Puts the step to an item of an array in front.
    pub fn under_index(&mut self, index: usize) -> Result<(), AllocError>
        ensures { OnOk result (self.new ≡ Index index ∷ self.old) }
    {
        self.inwards.push(Part::Index(index))?;
        Ok(())
    }

    /// The index in an array that the path begins with, and 0 where it begins with none.
    pub fn first_index(&self) -> usize
        ensures { result ≡ first_index self.now }
    {
        match self.inwards.as_slice() {
            [.., Part::Index(i)] => *i,
            _ => 0,
        }
    }

    /// The path as text, like `moves[3].effect.kind`: each key after a dot, but for the first step,
    /// and each index of an array in brackets, from 0. The path of the value itself is empty.
    pub fn text(&self, alloc: Global) -> Result<String, AllocError>
        ensures { IfOk result (λ t. string_bytes t ≡ path_text self.now) }
    {
        text_of(alloc, self.inwards.as_slice())
    }
}

fn push_step(alloc: Global, text: &mut String, first: bool, part: &Part) -> Result<(), AllocError>
    ensures { OnOk result (string_bytes text.new ≡ string_bytes text.old ++ step_text first (step_of part.now)) }
{
    match part {
        Part::Key(key) => {
            if !first {
                text.push_str(".")?;
            }
            text.push_str(key.as_str())
        }
        Part::Index(i) => {
            let brackets = format!(in alloc; "[{i}]")?;
            text.push_str(brackets.as_str())
        }
    }
}

/// The text of a path whose steps stand innermost first.
fn text_of(alloc: Global, inwards: &[Part]) -> Result<String, AllocError>
    ensures { IfOk result (λ t. string_bytes t ≡ path_text (steps_of inwards.now)) }
{
    let mut text = String::new(alloc);
    let mut left = inwards;
    let mut first = true;
    while let Some((part, others)) = left.split_last() {
        push_step(alloc, &mut text, first, part)?;
        first = false;
        left = others;
    }
    Ok(text)
}

/// The first index or key at which a value isn't in its form.
#[derive(Debug, Drop)]
pub struct Fault {
    /// The way to the value.
    pub path: Path,
    /// Why it isn't in its form.
    pub kind: DataKind,
}

/// Why nothing was read.
#[derive(Debug, Drop)]
pub enum Refusal {
    /// The value isn't in its form.
    Fault(Fault),
    /// Memory ran out.
    NoMemory,
}

impl From<AllocError> for Refusal {
    ghost from_gives = { λ _ e. e ≡ NoMemory };

    fn from(_error: AllocError) -> Refusal {
        Refusal::NoMemory
    }
}

impl<T: Drop> From<AllocFailed<T>> for Refusal {
    ghost from_gives = { λ _ e. e ≡ NoMemory };

    fn from(_error: AllocFailed<T>) -> Refusal {
        Refusal::NoMemory
    }
}

/// A fault of the value itself. Takes no memory.
pub fn refused(alloc: Global, kind: DataKind) -> Refusal
    ensures { result ≡ Refusal.Fault (record { path = []; kind = kind }) }
{
    Refusal::Fault(Fault {
        path: Path::new(alloc),
        kind,
    })
}

/// The refusal of a value, seen from the object that has it at a key.
pub fn deeper_by_key(alloc: Global, key: &str, refusal: Refusal) -> Refusal
    ensures { IsDeeper (Key key.now) refusal result }
{
    match refusal {
        Refusal::NoMemory => Refusal::NoMemory,
        Refusal::Fault(mut fault) => match fault.path.under_key(alloc, key) {
            Ok(()) => Refusal::Fault(fault),
            Err(_) => Refusal::NoMemory,
        },
    }
}

/// The refusal of a value, seen from the array that has it at an index.
pub fn deeper_by_index(index: usize, refusal: Refusal) -> Refusal
    ensures { IsDeeper (Index index) refusal result }
{
    match refusal {
        Refusal::NoMemory => Refusal::NoMemory,
        Refusal::Fault(mut fault) => match fault.path.under_index(index) {
            Ok(()) => Refusal::Fault(fault),
            Err(_) => Refusal::NoMemory,
        },
    }
}
