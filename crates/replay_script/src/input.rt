//! Reads an input whole, within its limits.
ghost use Rattle.std.specs.Prelude.{◌≡◌, ◌≤◌, ◌<◌, ◌+◌, ℕ, ◌++◌, length, IfOk, IfSome, IfErr, OnErr, Some, None, Ok, Err, vec_len};
ghost use Rattle.std.specs.Io.KnownBytes.{Consumes, IsAtEnd};
ghost use Rattle.ps_outside.specs.Causes.{Rose};
ghost use Rattle.replay_script.specs.Limits.{long_of, breaks_of, ReadsFew};

use ps_outside::source::Source;
use std::alloc::{AllocError, Global};

/// The most bytes of an input.
pub const MOST_BYTES: usize = 16_777_216;

/// The most lines of an input. A line begins with its first byte.
pub const MOST_LINES: u32 = 200_000;

/// Why an input was not read.
#[derive(Clone, Copy, Debug, PartialEq, Eq)]
pub enum InputEnd {
    /// The source failed.
    ReadFault,
    /// A limit was passed: the count that passed it first, of lines before that of bytes.
    Long(u32),
    /// Memory was refused.
    NoMemory,
}

// Takes a piece byte by byte.
fn take_each(bytes: &mut Vec<u8>, breaks: &mut u32, piece: &[u8]) -> Result<Option<u32>, AllocError>
    requires so_far { long_of bytes.old.items ≡ None }
    requires counted { breaks.old ≡ breaks_of bytes.old.items }
    requires few { breaks.old ≤ 200000 }
    requires small { length bytes.old.items ≤ 16777216 }
    ensures within { result ≡ Ok None → bytes.new.items ≡ bytes.old.items ++ piece.now }
    ensures short { result ≡ Ok None → long_of bytes.new.items ≡ None }
    ensures counted { result ≡ Ok None → breaks.new ≡ breaks_of bytes.new.items }
    ensures few { result ≡ Ok None → breaks.new ≤ 200000 }
    ensures small { result ≡ Ok None → length bytes.new.items ≤ 16777216 }
    ensures long { IfOk result (λ o. IfSome o (λ count. long_of (bytes.old.items ++ piece.now) ≡ Some count)) }
{
    for b in piece {
        if *breaks >= MOST_LINES {
            return Ok(Some(MOST_LINES + 1));
        }
        if bytes.len() >= MOST_BYTES {
            return Ok(Some(MOST_BYTES as u32 + 1));
        }
        bytes.push(*b)?;
        if *b == b'\n' {
            *breaks += 1;
        }
    }
    Ok(None)
}

// How many newlines there are.
fn breaks_in(piece: &[u8]) -> usize
    ensures count { result ≡ breaks_of piece.now }
    ensures few { result ≤ length piece.now }
{
    let mut breaks = 0;
    for b in piece {
        if *b == b'\n' {
            breaks += 1;
        }
    }
    breaks
}

// Takes a piece of the input, and tells the count that passed its limit, if one did. A piece that is far from the limits is
// taken at once.
#[tactic(auto, using(crate::proofs::LimitLemmas::short_piece, crate::proofs::LimitLemmas::breaks_of_piece))]
fn take(bytes: &mut Vec<u8>, breaks: &mut u32, piece: &[u8]) -> Result<Option<u32>, AllocError>
    requires so_far { long_of bytes.old.items ≡ None }
    requires counted { breaks.old ≡ breaks_of bytes.old.items }
    requires few { breaks.old ≤ 200000 }
    requires small { length bytes.old.items ≤ 16777216 }
    ensures within { result ≡ Ok None → bytes.new.items ≡ bytes.old.items ++ piece.now }
    ensures short { result ≡ Ok None → long_of bytes.new.items ≡ None }
    ensures counted { result ≡ Ok None → breaks.new ≡ breaks_of bytes.new.items }
    ensures few { result ≡ Ok None → breaks.new ≤ 200000 }
    ensures small { result ≡ Ok None → length bytes.new.items ≤ 16777216 }
    ensures long { IfOk result (λ o. IfSome o (λ count. long_of (bytes.old.items ++ piece.now) ≡ Some count)) }
{
    let more = breaks_in(piece);
    if more < (MOST_LINES - *breaks) as usize && piece.len() <= MOST_BYTES - bytes.len() {
        bytes.extend_from_slice(piece)?;
        *breaks += more as u32;
        return Ok(None);
    }
    take_each(bytes, breaks, piece)
}

/// Reads a source to its end. It reads at most one byte more than the limit.
pub fn read_input<S: Source>(alloc: Global, source: &mut S) -> Result<Vec<u8>, InputEnd>
    ensures whole { IfOk result (λ v. IfSome (S.left source.old) (λ input. v.items ≡ input)) }
    ensures end { IfOk result (λ _. IsAtEnd (S.left source.new)) }
    ensures within { IfOk result (λ v. (long_of v.items ≡ None) × (length v.items ≤ 16777216)) }
    ensures long { (count : ℕ) → result ≡ Err (InputEnd.Long count) → IfSome (S.left source.old) (λ input. long_of input ≡ Some count) }
    ensures bounded { ReadsFew (S.left source.old) (S.left source.new) }
    ensures later { S.faults source.old ≤ S.faults source.new }
    ensures fault { result ≡ Err InputEnd.ReadFault → Rose (S.faults source.old) (S.faults source.new) }
{
    let mut bytes = Vec::new(alloc);
    let mut breaks = 0u32;
    let mut buf = [0u8; 4096];
    loop {
        let room = (MOST_BYTES + 1 - bytes.len()).min(4096);
        match source.read(&mut buf[..room]) {
            Err(_) => return Err(InputEnd::ReadFault),
            Ok(n) => {
                if n == 0 {
                    return Ok(bytes);
                }
                match take(&mut bytes, &mut breaks, &buf[..n]) {
                    Err(_) => return Err(InputEnd::NoMemory),
                    Ok(Some(count)) => return Err(InputEnd::Long(count)),
                    Ok(None) => {}
                }
            }
        }
    }
}
