//! What the fields of a set may say.
ghost use Rattle.std.specs.Prelude.{◌≡◌, ◌==◌, ◌≤◌, ◌-◌, ◌&&◌, true, length, map, filter, nat_le, IfOk};
ghost use Rattle.std.specs.List.{list_all, slice_split};
ghost use Rattle.ps_packed.specs.Fields.{field_index};
ghost use Rattle.ps_packed.specs.Forms.{is_field_char, are_digits, number_of, is_number, parts, is_id_letter, has_id, id_count};
ghost use Rattle.ps_packed.specs.Forms.{is_spread_char, are_numbers, is_zero, spread, letter, words, moves, level, in_form, form_of};
ghost use Rattle.ps_packed.specs.Scan.{prefix_ok, need};

use crate::field::Field;
use std::alloc::{AllocError, Global};

/// Whether a field may have the character.
pub fn is_field_char(c: char) -> bool
    ensures { result ≡ is_field_char c }
{
    c >= ' ' && c != '|' && c != ']'
}

fn are_field_chars(word: &[char]) -> bool
    ensures { result ≡ list_all is_field_char word.now }
{
    word.iter().all(|c| is_field_char(*c))
}

fn are_digits(word: &[char]) -> bool
    ensures { result ≡ are_digits word.now }
{
    word.iter().all(|c| *c >= '0' && *c <= '9')
}

fn digit(c: char) -> u32
    ensures value { result ≡ c - 48 }
    ensures small { result ≤ 1114111 }
{
    (c as u32).saturating_sub(48)
}

/// The number that up to three digits spell, 0 where there is none.
pub fn number(word: &[char]) -> u32
    requires { length word.now ≤ 3 }
    ensures { result ≡ number_of word.now }
{
    match word {
        [a] => digit(*a),
        [a, b] => 10 * digit(*a) + digit(*b),
        [a, b, c] => 10 * (10 * digit(*a) + digit(*b)) + digit(*c),
        _ => 0,
    }
}

fn is_number(most: u32, word: &[char]) -> bool
    ensures { result ≡ is_number most word.now }
{
    are_digits(word) && word.len() <= 3 && number(word) <= most
}

/// Whether an id keeps the character.
pub fn is_id_letter(c: char) -> bool
    ensures { result ≡ is_id_letter c }
{
    c.is_ascii_alphanumeric()
}

/// Whether a part's id isn't empty.
#[tactic(auto, unfolding(crate::specs::Forms::has_id))]
pub fn has_id(part: &[char]) -> bool
    ensures { result ≡ has_id part.now }
{
    part.iter().any(|c| is_id_letter(*c))
}

/// The pieces of a text between a character.
pub fn pieces(alloc: Global, text: &[char], between: char) -> Result<Vec<&[char]>, AllocError>
    ensures { IfOk result (λ v. map (λ x. x.now) v.items ≡ slice_split (λ c. c == between) text.now) }
{
    text.split(|c| *c == between).collect(alloc)
}

fn are_short(pieces: &[&[char]]) -> bool
    ensures { result ≡ list_all (λ p. nat_le (length p) 32) (map (λ x. x.now) pieces.now) }
{
    for piece in pieces {
        if piece.len() > 32 {
            return false;
        }
    }
    true
}

fn with_id(pieces: &[&[char]]) -> usize
    ensures { result ≡ length (filter has_id (map (λ x. x.now) pieces.now)) }
{
    let mut count = 0;
    for piece in pieces {
        if has_id(piece) {
            count += 1;
        }
    }
    count
}

/// How many parts of a text between commas have an id.
#[tactic(auto, unfolding(crate::specs::Forms::id_count))]
pub fn id_count(alloc: Global, word: &[char]) -> Result<usize, AllocError>
    ensures { IfOk result (λ n. n ≡ id_count word.now) }
{
    let parts = pieces(alloc, word, ',')?;
    Ok(with_id(&parts))
}

fn are_numbers_among(most: u32, pieces: &[&[char]]) -> bool
    ensures { result ≡ list_all (is_number most) (map (λ x. x.now) pieces.now) }
{
    for piece in pieces {
        if !is_number(most, piece) {
            return false;
        }
    }
    true
}

fn are_spread_chars(word: &[char]) -> bool
    ensures { result ≡ list_all is_spread_char word.now }
{
    word.iter().all(|c| *c >= '0' && *c <= '9' || *c == ',')
}

#[tactic(auto, unfolding(crate::specs::Forms::are_numbers))]
fn are_numbers(alloc: Global, most: u32, word: &[char]) -> Result<bool, AllocError>
    ensures { IfOk result (λ b. b ≡ are_numbers most word.now) }
{
    let parts = pieces(alloc, word, ',')?;
    Ok(are_spread_chars(word) && are_numbers_among(most, &parts))
}

/// How many parts a text between commas has.
fn part_count(word: &[char]) -> usize
    ensures { result ≡ length (parts word.now) }
{
    let mut count = 1;
    for c in word {
        if *c == ',' {
            count += 1;
        }
    }
    count
}

pub fn is_zero(word: &[char]) -> bool
    ensures { result ≡ is_zero word.now }
{
    match word {
        [only] => *only == '0',
        _ => false,
    }
}

#[tactic(auto, unfolding(crate::specs::Forms::in_form))]
fn is_words(most: usize, word: &[char]) -> bool
    ensures { result ≡ in_form (words most) word.now }
{
    are_field_chars(word) && word.len() <= most
}

#[tactic(auto, unfolding(crate::specs::Forms::in_form, crate::specs::Forms::are_short, crate::specs::Forms::id_count))]
fn is_moves(alloc: Global, word: &[char]) -> Result<bool, AllocError>
    ensures { IfOk result (λ b. b ≡ in_form moves word.now) }
{
    let parts = pieces(alloc, word, ',')?;
    Ok(are_field_chars(word) && are_short(&parts) && with_id(&parts) <= 4)
}

#[tactic(auto, unfolding(crate::specs::Forms::in_form))]
fn is_spread(alloc: Global, zero_alone: bool, most: u32, word: &[char]) -> Result<bool, AllocError>
    ensures { IfOk result (λ b. b ≡ in_form (spread zero_alone most) word.now) }
{
    if word.is_empty() {
        return Ok(true);
    }
    let numbers = are_numbers(alloc, most, word)?;
    Ok(zero_alone && is_zero(word) || numbers && part_count(word) == 6)
}

#[tactic(auto, unfolding(crate::specs::Forms::in_form))]
fn is_gender(word: &[char]) -> bool
    ensures { result ≡ in_form (form_of 7) word.now }
{
    match word {
        [] => true,
        [only] => *only == 'M' || *only == 'F' || *only == 'N',
        _ => false,
    }
}

#[tactic(auto, unfolding(crate::specs::Forms::in_form))]
fn is_shiny(word: &[char]) -> bool
    ensures { result ≡ in_form (form_of 9) word.now }
{
    match word {
        [] => true,
        [only] => *only == 'S',
        _ => false,
    }
}

#[tactic(auto, unfolding(crate::specs::Forms::in_form))]
fn is_level(word: &[char]) -> bool
    ensures { result ≡ in_form level word.now }
{
    if word.is_empty() {
        return true;
    }
    is_number(100, word) && 1 <= number(word)
}

/// Whether a text is one that the field may have.
pub fn is_field(alloc: Global, field: Field, word: &[char]) -> Result<bool, AllocError>
    ensures { IfOk result (λ b. b ≡ in_form (form_of (field_index field)) word.now) }
{
    match field {
        Field::Nick => Ok(is_words(18, word)),
        Field::Species => Ok(is_words(32, word)),
        Field::Item => Ok(is_words(32, word)),
        Field::Ability => Ok(is_words(32, word)),
        Field::Moves => is_moves(alloc, word),
        Field::Nature => Ok(is_words(32, word)),
        Field::Evs => is_spread(alloc, true, 255, word),
        Field::Gender => Ok(is_gender(word)),
        Field::Ivs => is_spread(alloc, false, 31, word),
        Field::Shiny => Ok(is_shiny(word)),
        Field::Level => Ok(is_level(word)),
        Field::Misc => Ok(is_words(64, word)),
    }
}

#[tactic(auto, unfolding(crate::specs::Scan::prefix_ok))]
fn begins_spread(
    alloc: Global,
    zero_alone: bool,
    most: u32,
    word: &[char],
) -> Result<bool, AllocError>
    ensures { IfOk result (λ b. b ≡ prefix_ok (spread zero_alone most) word.now) }
{
    let numbers = are_numbers(alloc, most, word)?;
    Ok(numbers && part_count(word) <= 6)
}

#[tactic(auto, unfolding(crate::specs::Scan::prefix_ok))]
fn begins_level(word: &[char]) -> bool
    ensures { result ≡ prefix_ok level word.now }
{
    is_number(100, word) && (word.len() < 3 || 1 <= number(word))
}

/// Whether a text that the field may have begins with this one: where the field isn't six numbers or a level, such a text is one
/// itself.
#[tactic(auto, unfolding(crate::specs::Scan::prefix_ok))]
pub fn begins_field(alloc: Global, field: Field, word: &[char]) -> Result<bool, AllocError>
    ensures { IfOk result (λ b. b ≡ prefix_ok (form_of (field_index field)) word.now) }
{
    match field {
        Field::Evs => begins_spread(alloc, true, 255, word),
        Field::Ivs => begins_spread(alloc, false, 31, word),
        Field::Level => Ok(begins_level(word)),
        _ => is_field(alloc, field, word),
    }
}

#[tactic(auto, unfolding(crate::specs::Scan::need))]
fn spread_need(zero_alone: bool, word: &[char]) -> usize
    ensures value { result ≡ need (spread zero_alone 0) word.now }
    ensures small { result ≤ 6 }
{
    if word.is_empty() || zero_alone && is_zero(word) {
        return 0;
    }
    6_usize.saturating_sub(part_count(word))
}

#[tactic(auto, unfolding(crate::specs::Scan::need))]
fn level_need(word: &[char]) -> usize
    requires { length word.now ≤ 3 }
    ensures value { result ≡ need level word.now }
    ensures small { result ≤ 1 }
{
    match word {
        [] => 0,
        _ if number(word) == 0 => 1,
        _ => 0,
    }
}

/// How many characters the shortest text of the field has that begins with this one, beside those
/// of this one.
#[tactic(auto, unfolding(crate::specs::Scan::need))]
pub fn field_need(field: Field, word: &[char]) -> usize
    requires { prefix_ok (form_of (field_index field)) word.now ≡ true }
    ensures value { result ≡ need (form_of (field_index field)) word.now }
    ensures small { result ≤ 6 }
{
    match field {
        Field::Evs => spread_need(true, word),
        Field::Ivs => spread_need(false, word),
        Field::Level => level_need(word),
        _ => 0,
    }
}
