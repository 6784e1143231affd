//! Goes through a text character by character.
ghost use Rattle.std.specs.Prelude.{◌≡◌, ◌≤◌, ◌==◌, [], ◌∷◌, ◌++◌, true, IfOk};
ghost use Rattle.std.specs.Str.{all_scalars};
ghost use Rattle.ps_packed.specs.declared.fault.PackFault.TheVariants.{Fault};
ghost use Rattle.ps_packed.specs.Fields.{field_index};
ghost use Rattle.ps_packed.specs.Forms.{form_of, last};
ghost use Rattle.ps_packed.specs.Packed.{is_out, is_too_many, kind_of, bytes_of};
ghost use Rattle.ps_packed.specs.Scan.{start, step, accepts, need_of, nameless_at, bar_named, prefix_ok, Steps, Scans};

use crate::fault::PackFault;
use crate::field::Field;
use crate::forms::{field_need, id_count, is_field};
use crate::word::Word;
use ps_base::pack_kind::PackKind;
use std::alloc::{AllocError, Global};
use std::marker::Model;

/// The most bytes of a packed team.
const BYTE_LIMIT: usize = 4096;

/// How far a text has come: the text so far of the field that it is in, whether the set's first field
/// was empty, and how many sets are done.
#[derive(Drop)]
struct Scan {
    word: Word,
    bare: bool,
    field: Field,
    sets: usize,
}

impl Model for Scan {
    ghost use Rattle.ps_packed.specs.Fields.{field_index};
    ghost use Rattle.ps_packed.specs.Scan.{State};

    ghost Value = { State };

    ghost view = { λ s. record { word = s.word; bare = s.bare; field = field_index s.field; sets = s.sets } };
}

/// Whether the set has no name so far.
fn is_nameless(bare: bool, field: Field, word: &[char]) -> bool
    ensures { result ≡ nameless_at bare (field_index field) word.now }
{
    match field {
        Field::Nick => word.is_empty(),
        Field::Species => bare && word.is_empty(),
        _ => false,
    }
}

/// Whether the field may end with a bar, as far as the names go: the species may not be empty where
/// the nickname is.
fn may_end(bare: bool, field: Field, word: &[char]) -> bool
    ensures { result ≡ bar_named bare (field_index field) word.now }
{
    match field {
        Field::Species => !(bare && word.is_empty()),
        _ => true,
    }
}

/// Whether what comes next stands out of place.
fn is_out(field: Field, next: Option<char>) -> bool
    ensures { result ≡ is_out (field_index field) next }
{
    match next {
        None => true,
        Some(c) => (c == ']' && !field.is_last()) || (c == '|' && field.is_last()),
    }
}

fn with_char(alloc: Global, word: &[char], c: char) -> Result<Vec<char>, AllocError>
    ensures { IfOk result (λ v. v.items ≡ word.now ++ c ∷ []) }
{
    let mut more = Vec::from_slice(alloc, word)?;
    more.push(c)?;
    Ok(more)
}

fn is_moves_field(field: Field) -> bool
    ensures { result ≡ (field_index field == 4) }
{
    match field {
        Field::Moves => true,
        _ => false,
    }
}

/// Whether what comes next is a seventh set or gives a fifth move.
fn is_too_many(
    alloc: Global,
    sets: usize,
    field: Field,
    word: &[char],
    next: Option<char>,
) -> Result<bool, AllocError>
    ensures { IfOk result (λ b. b ≡ is_too_many sets (field_index field) word.now next) }
{
    match next {
        None => Ok(false),
        Some(c) => {
            let more = with_char(alloc, word, c)?;
            let count = id_count(alloc, &more)?;
            Ok((c == ']' && sets == 5) || (is_moves_field(field) && 4 < count))
        }
    }
}

impl Scan {
    fn new(alloc: Global) -> Scan
        ensures { result ≡ start }
    {
        Scan {
            word: Word::new(alloc),
            bare: true,
            field: Field::Nick,
            sets: 0,
        }
    }

    /// Takes the next character, or answers false and stays as it is.
    #[tactic(auto, unfolding(crate::specs::Scan::step))]
    fn step(&mut self, alloc: Global, c: char) -> Result<bool, AllocError>
        requires { prefix_ok (form_of self.old.field) self.old.word ≡ true }
        ensures { IfOk result (λ went. Steps went (step self.old c) self.old self.new) }
    {
        if c == '|' {
            if self.field.is_last()
                || !is_field(alloc, self.field, self.word.as_slice())?
                || !may_end(self.bare, self.field, self.word.as_slice())
            {
                return Ok(false);
            }
            self.bare = is_nameless(self.bare, self.field, self.word.as_slice());
            self.word.clear();
            self.field = self.field.next();
            return Ok(true);
        }
        if c == ']' {
            if !self.field.is_last()
                || !is_field(alloc, self.field, self.word.as_slice())?
                || self.sets >= 5
            {
                return Ok(false);
            }
            self.word.clear();
            self.bare = true;
            self.field = Field::Nick;
            self.sets += 1;
            return Ok(true);
        }
        if self.word.try_push(alloc, self.field, c)? {
            return Ok(true);
        }
        Ok(false)
    }

    /// What is wrong where no step is made.
    #[tactic(auto, unfolding(crate::specs::Packed::kind_of))]
    fn kind(&self, alloc: Global, next: Option<char>) -> Result<PackKind, AllocError>
        ensures { IfOk result (λ k. k ≡ kind_of (nameless_at self.now.bare self.now.field self.now.word) self.now.sets self.now.field
            self.now.word next) }
    {
        if is_nameless(self.bare, self.field, self.word.as_slice()) {
            return Ok(PackKind::EmptySet);
        }
        if is_out(self.field, next) {
            return Ok(PackKind::Bars);
        }
        if is_too_many(alloc, self.sets, self.field, self.word.as_slice(), next)? {
            return Ok(PackKind::Count);
        }
        if self.field.is_numeric() {
            return Ok(PackKind::Number);
        }
        Ok(PackKind::Text)
    }

    /// How many characters the shortest end has.
    fn need(&self) -> usize
        requires valid { prefix_ok (form_of self.now.field) self.now.word ≡ true }
        ensures value { result ≡ need_of self.now }
        ensures small { result ≤ 18 }
    {
        let name = if is_nameless(self.bare, self.field, self.word.as_slice()) {
            1
        } else {
            0
        };
        field_need(self.field, self.word.as_slice()) + self.field.left() + name
    }

    /// Whether the text may end here.
    #[tactic(auto, unfolding(crate::specs::Scan::accepts))]
    fn accepts(&self, alloc: Global) -> Result<bool, AllocError>
        ensures { IfOk result (λ b. b ≡ accepts self.now) }
    {
        if !self.field.is_last() {
            return Ok(false);
        }
        is_field(alloc, self.field, self.word.as_slice())
    }
}

/// A character's number of bytes.
fn byte_count(c: char) -> usize
    ensures value { result ≡ bytes_of (c ∷ []) }
    ensures few { result ≤ 4 }
{
    c.len_utf8()
}

fn fault(at: usize, kind: PackKind) -> PackFault
    requires { at ≤ 4096 }
    ensures { result ≡ Fault at kind }
{
    PackFault::Fault {
        at: at as u32,
        kind,
    }
}

/// Whether a text is a team's, and else why it isn't.
pub fn scan_text(alloc: Global, text: &[char]) -> Result<(), PackFault>
    requires { all_scalars text.now ≡ true }
    ensures { Scans text.now result }
{
    let mut scan = Scan::new(alloc);
    let mut at = 0;
    for next in text {
        if at >= BYTE_LIMIT {
            return Err(fault(at, PackKind::Long));
        }
        if !scan.step(alloc, *next)? {
            let kind = scan.kind(alloc, Some(*next))?;
            return Err(fault(at, kind));
        }
        let after = at + byte_count(*next);
        if after + scan.need() > BYTE_LIMIT {
            return Err(fault(at, PackKind::Long));
        }
        at = after;
    }
    if !scan.accepts(alloc)? {
        let kind = scan.kind(alloc, None)?;
        return Err(fault(at, kind));
    }
    Ok(())
}
