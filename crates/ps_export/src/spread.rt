//! EVs, IVs and levels.
ghost use Rattle.std.specs.Prelude.{◌≡◌, ◌≤◌, ◌-◌, ◌∷◌, [], IfOk, length, map, option_map};
ghost use Rattle.std.specs.List.{join_with_byte};
ghost use Rattle.ps_packed.specs.Canon.{are_all, ev_text, evs_text, iv_text, ivs_text, level_text};
ghost use Rattle.ps_packed.specs.Forms.{are_digits, number_of};
ghost use Rattle.ps_export.specs.Details.{evs_after, ivs_after};
ghost use Rattle.ps_export.specs.Lines.{parts as parts_of};
ghost use Rattle.ps_export.specs.Spreads.{number_in, stat_named, pair_with, pair_of, number_at, is_named, pairs_after, pairs_in};
ghost use Rattle.ps_export.specs.Spreads.{numbers_of};

use crate::join::joined;
use crate::part::{is_nil, parts};
use ps_base::text::Text;
use std::alloc::{AllocError, Global};

fn are_digits(digits: &[u8]) -> bool
    ensures { result ≡ are_digits digits.now }
{
    digits.iter().all(|b| *b >= b'0' && *b <= b'9')
}

fn digit(b: u8) -> u16
    ensures value { result ≡ b - 48 }
    ensures small { result ≤ 255 }
{
    (b as u16).saturating_sub(48)
}

fn number(digits: &[u8]) -> u16
    requires { length digits.now ≤ 3 }
    ensures { result ≡ number_of digits.now }
{
    match digits {
        [a] => digit(*a),
        [a, b] => 10 * digit(*a) + digit(*b),
        [a, b, c] => 10 * (10 * digit(*a) + digit(*b)) + digit(*c),
        _ => 0,
    }
}

/// The number that one to three digits spell.
#[tactic(auto, unfolding(crate::specs::Spreads::number_in))]
pub fn number_in(digits: &str) -> Option<u16>
    ensures { result ≡ number_in digits.now }
{
    let digits = digits.as_bytes();
    if are_digits(digits) && 1 <= digits.len() && digits.len() <= 3 {
        return Some(number(digits));
    }
    None
}

#[tactic(auto, unfolding(crate::specs::Spreads::stat_named))]
fn stat_named(name: &str) -> Option<u8>
    ensures { result ≡ stat_named name.now }
{
    if name == "HP" {
        return Some(0);
    }
    if name == "Atk" {
        return Some(1);
    }
    if name == "Def" {
        return Some(2);
    }
    if name == "SpA" {
        return Some(3);
    }
    if name == "SpD" {
        return Some(4);
    }
    if name == "Spe" {
        return Some(5);
    }
    None
}

fn pair_with(stat: Option<u8>, number: Option<u16>) -> Option<(u8, u16)>
    ensures { result ≡ pair_with stat number }
{
    match (stat, number) {
        (Some(stat), Some(number)) => Some((stat, number)),
        _ => None,
    }
}

fn pair_of(words: &[&str]) -> Option<(u8, u16)>
    ensures { result ≡ pair_of (map (λ x. x.now) words.now) }
{
    match words {
        [front, number, stat, back] => {
            if is_nil(front) && is_nil(back) {
                return pair_with(stat_named(stat), number_in(number));
            }
            None
        }
        _ => None,
    }
}

fn pair_in(alloc: Global, part: &str) -> Result<Option<(u8, u16)>, AllocError>
    ensures { IfOk result (λ p. p ≡ pair_of (parts_of 32 part.now)) }
{
    let words = parts(alloc, part, ' ')?;
    Ok(pair_of(&words))
}

fn number_at(stat: u8, silent: u16, pairs: &[(u8, u16)]) -> u16
    ensures { result ≡ number_at stat silent pairs.now }
{
    for pair in pairs {
        if pair.0 == stat {
            return pair.1;
        }
    }
    silent
}

fn is_named(stat: u8, pairs: &[(u8, u16)]) -> bool
    ensures { result ≡ is_named stat pairs.now }
{
    for pair in pairs {
        if pair.0 == stat {
            return true;
        }
    }
    false
}

fn pairs_among(alloc: Global, parts: &[&str]) -> Result<Option<Vec<(u8, u16)>>, AllocError>
    ensures { IfOk result (λ v. option_map (λ x. x.items) v ≡ pairs_after [] (map (λ x. x.now) parts.now)) }
{
    let mut pairs: Vec<(u8, u16)> = Vec::new(alloc);
    for part in parts {
        match pair_in(alloc, part)? {
            None => return Ok(None),
            Some(pair) => {
                if is_named(pair.0, &pairs) {
                    return Ok(None);
                }
                pairs.push(pair)?;
            }
        }
    }
    Ok(Some(pairs))
}

#[tactic(auto, unfolding(crate::specs::Spreads::pairs_in))]
fn pairs_in(alloc: Global, rest: &str) -> Result<Option<Vec<(u8, u16)>>, AllocError>
    ensures { IfOk result (λ v. option_map (λ x. x.items) v ≡ pairs_in rest.now) }
{
    let mut whole = Text::copy_of(alloc, rest)?;
    whole.push_str(" ")?;
    let parts = parts(alloc, whole.as_str(), '/')?;
    pairs_among(alloc, &parts)
}

#[tactic(auto, unfolding(crate::specs::Spreads::numbers_of))]
fn numbers_of(silent: u16, pairs: &[(u8, u16)]) -> [u16; 6]
    ensures { result ≡ numbers_of silent pairs.now }
{
    [
        number_at(0, silent, pairs),
        number_at(1, silent, pairs),
        number_at(2, silent, pairs),
        number_at(3, silent, pairs),
        number_at(4, silent, pairs),
        number_at(5, silent, pairs),
    ]
}

fn are_all(n: u16, numbers: &[u16]) -> bool
    ensures { result ≡ are_all n numbers.now }
{
    numbers.iter().all(|m| *m == n)
}

#[tactic(auto, unfolding(ps_packed::specs::Canon::ev_text))]
fn ev_text(alloc: Global, n: u16) -> Result<Text, AllocError>
    ensures { IfOk result (λ t. t ≡ ev_text n) }
{
    if n == 0 {
        return Ok(Text::new(alloc));
    }
    Ok(Text::from_string(format!(in alloc; "{n}")?))
}

#[tactic(auto, unfolding(ps_packed::specs::Canon::iv_text))]
fn iv_text(alloc: Global, n: u16) -> Result<Text, AllocError>
    ensures { IfOk result (λ t. t ≡ iv_text n) }
{
    if n == 31 {
        return Ok(Text::new(alloc));
    }
    Ok(Text::from_string(format!(in alloc; "{n}")?))
}

fn ev_texts(alloc: Global, numbers: &[u16]) -> Result<Vec<Text>, AllocError>
    ensures { IfOk result (λ v. v.items ≡ map ev_text numbers.now) }
{
    let mut texts = Vec::new(alloc);
    for n in numbers {
        texts.push(ev_text(alloc, *n)?)?;
    }
    Ok(texts)
}

fn iv_texts(alloc: Global, numbers: &[u16]) -> Result<Vec<Text>, AllocError>
    ensures { IfOk result (λ v. v.items ≡ map iv_text numbers.now) }
{
    let mut texts = Vec::new(alloc);
    for n in numbers {
        texts.push(iv_text(alloc, *n)?)?;
    }
    Ok(texts)
}

#[tactic(auto, unfolding(ps_packed::specs::Canon::evs_text))]
fn evs_text(alloc: Global, numbers: &[u16]) -> Result<Text, AllocError>
    ensures { IfOk result (λ t. t ≡ evs_text numbers.now) }
{
    if are_all(252, numbers) {
        return Ok(Text::new(alloc));
    }
    if are_all(0, numbers) {
        return Text::copy_of(alloc, "0");
    }
    let texts = ev_texts(alloc, numbers)?;
    joined(alloc, &texts, ',')
}

#[tactic(auto, unfolding(ps_packed::specs::Canon::ivs_text))]
fn ivs_text(alloc: Global, numbers: &[u16]) -> Result<Text, AllocError>
    ensures { IfOk result (λ t. t ≡ ivs_text numbers.now) }
{
    if are_all(31, numbers) {
        return Ok(Text::new(alloc));
    }
    let texts = iv_texts(alloc, numbers)?;
    joined(alloc, &texts, ',')
}

/// The canonical packed text of a level.
#[tactic(auto, unfolding(ps_packed::specs::Canon::level_text))]
pub fn level_text(alloc: Global, level: u16) -> Result<Text, AllocError>
    ensures { IfOk result (λ t. t ≡ level_text level) }
{
    if level == 100 {
        return Ok(Text::new(alloc));
    }
    Ok(Text::from_string(format!(in alloc; "{level}")?))
}

/// The canonical packed text of what follows `EVs:`.
pub fn evs_after(alloc: Global, rest: &str) -> Result<Option<Text>, AllocError>
    ensures { IfOk result (λ t. t ≡ evs_after rest.now) }
{
    match pairs_in(alloc, rest)? {
        None => Ok(None),
        Some(pairs) => Ok(Some(evs_text(alloc, &numbers_of(0, &pairs))?)),
    }
}

/// The canonical packed text of what follows `IVs:`.
pub fn ivs_after(alloc: Global, rest: &str) -> Result<Option<Text>, AllocError>
    ensures { IfOk result (λ t. t ≡ ivs_after rest.now) }
{
    match pairs_in(alloc, rest)? {
        None => Ok(None),
        Some(pairs) => Ok(Some(ivs_text(alloc, &numbers_of(31, &pairs))?)),
    }
}
