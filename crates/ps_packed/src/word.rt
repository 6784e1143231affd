//! The text of a field, as far as it was gone through.
ghost use Rattle.std.specs.Prelude.{◌≡◌, ◌==◌, ◌+◌, ◌<◌, ◌≤◌, ◌^◌, ◌&&◌, [], ◌∷◌, ◌++◌, not, true, List, ℕ, length, drop, nat_le};
ghost use Rattle.std.specs.Prelude.{IfOk, if◌then◌else◌};
ghost use Rattle.ps_packed.specs.Fields.{field_index};
ghost use Rattle.ps_packed.specs.Forms.{is_field_char, form_of, is_id_letter, has_id};
ghost use Rattle.ps_packed.specs.Scan.{prefix_ok, CountsOf, gives_id, Grows};

use crate::field::Field;
use crate::forms::{begins_field, has_id, is_field_char, is_id_letter};
use std::alloc::{AllocError, Global};
use std::marker::Model;

/// The text of a field so far. Beside it stands where its last part between commas begins, and how
/// many parts have an id, so that a long list of moves isn't gone through again at each character.
#[derive(Drop)]
pub struct Word {
    chars: Vec<char>,
    part: usize,
    ids: usize,
}

impl Model for Word {
    ghost use Rattle.std.specs.Prelude.{ℕ, List};
    ghost use Rattle.ps_packed.specs.Scan.{CountsOf};

    ghost Value = { List ℕ };

    ghost view = { λ w. w.chars.items };

    ghost invariant = { λ w. CountsOf w.chars.items w.part w.ids };
}

/// What stands from a place on.
fn tail(word: &[char], from: usize) -> &[char]
    requires { from ≤ length word.now }
    ensures { result.now ≡ drop from word.now }
{
    &word[from..]
}

fn gives_id(part: &[char], c: char) -> bool
    ensures { result ≡ gives_id part.now c }
{
    c != ',' && is_id_letter(c) && !has_id(part)
}

fn ids_after(part: &[char], ids: usize, c: char) -> usize
    requires { ids + 1 < 2 ^ 64 }
    ensures { result ≡ ids + (if gives_id part.now c then 1 else 0) }
{
    if gives_id(part, c) { ids + 1 } else { ids }
}

fn part_after(part: usize, len: usize, c: char) -> usize
    ensures { result ≡ (if c == 44 then len else part) }
{
    if c == ',' { len } else { part }
}

/// Whether moves go on with this character, of which their last part and their ids are given.
fn moves_go_on(part: &[char], ids: usize, c: char) -> bool
    ensures { result ≡ (is_field_char c && nat_le (length part.now) 32 && nat_le ids 4) }
{
    is_field_char(c) && part.len() <= 32 && ids <= 4
}

/// Whether a text of the field begins with this one, whose last character is given. Without that
/// character one does.
fn begins_so(
    alloc: Global,
    field: Field,
    word: &[char],
    part: usize,
    ids: usize,
    c: char,
) -> Result<bool, AllocError>
    requires counts { CountsOf word.now part ids }
    requires grown { (w : List ℕ) × (word.now ≡ w ++ c ∷ []) × (prefix_ok (form_of (field_index field)) w ≡ true) }
    ensures { IfOk result (λ b. b ≡ prefix_ok (form_of (field_index field)) word.now) }
{
    match field {
        Field::Moves => Ok(moves_go_on(tail(word, part), ids, c)),
        _ => begins_field(alloc, field, word),
    }
}

impl Word {
    pub fn new(alloc: Global) -> Word
        ensures { result ≡ [] }
    {
        Word {
            chars: Vec::new(alloc),
            part: 0,
            ids: 0,
        }
    }

    pub fn as_slice(&self) -> &[char]
        ensures { result.now ≡ self.now }
    {
        self.chars.as_slice()
    }

    pub fn clear(&mut self)
        ensures { self.new ≡ [] }
    {
        self.chars.clear();
        self.part = 0;
        self.ids = 0;
    }

    /// Takes a character where a text that the field may have begins so, and else stays as it is.
    pub fn try_push(&mut self, alloc: Global, field: Field, c: char) -> Result<bool, AllocError>
        requires { prefix_ok (form_of (field_index field)) self.old ≡ true }
        ensures { IfOk result (λ went. Grows went (prefix_ok (form_of (field_index field)) (self.old ++ c ∷ [])) self.old c self.new) }
    {
        let part = self.part;
        let ids = self.ids;
        let more = ids_after(tail(&self.chars, part), ids, c);
        self.chars.push(c)?;
        self.part = part_after(part, self.chars.len(), c);
        self.ids = more;
        if begins_so(alloc, field, &self.chars, self.part, more, c)? {
            return Ok(true);
        }
        self.chars.pop();
        self.part = part;
        self.ids = ids;
        Ok(false)
    }
}
