//! Texts in quotes, as JSON has them.
ghost use Rattle.std.specs.Prelude.{◌≡◌, ◌+◌, ◌≤◌, ◌++◌, length, IfOk, OnOk, string_bytes};
ghost use Rattle.std.specs.Bool.{OnTrue};
ghost use Rattle.json.specs.Print.{escape, quoted};
ghost use Rattle.json.specs.Written.{PlainBetween};

use crate::json_line::JsonLine;
use std::alloc::{AllocError, Global};
use std::simd::prelude::*;

// Whether N bytes from one on stand for themselves: none is a quote, a backslash or below the space.
fn is_plain_at<const N: usize>(text: &[u8], at: usize) -> bool
    requires room { at + N ≤ length text.now }
    requires few { N ≤ 64 }
    ensures { OnTrue result (PlainBetween text.now at (at + N)) }
{
    let bytes = Simd::<u8, N>::from_slice(&text[at..]);
    (bytes.simd_eq(Simd::<u8, N>::splat(b'"'))
        | bytes.simd_eq(Simd::<u8, N>::splat(b'\\'))
        | bytes.simd_lt(Simd::<u8, N>::splat(b' '))).to_bitmask()
        == 0
}

fn are_few_plain(text: &[u8]) -> bool
    ensures { OnTrue result (PlainBetween text.now 0 (length text.now)) }
{
    for &byte in text {
        if byte == b'"' || byte == b'\\' || byte < b' ' {
            return false;
        }
    }
    true
}

fn are_many_plain(text: &[u8]) -> bool
    requires { 16 ≤ length text.now }
    ensures { OnTrue result (PlainBetween text.now 0 (length text.now)) }
{
    let mut at = 0;
    while text.len() - at > 16 {
        if !is_plain_at::<16>(text, at) {
            return false;
        }
        at += 16;
    }
    is_plain_at::<16>(text, text.len() - 16)
}

// Two looks that overlap cover a text between one and two of them.
fn is_plain(text: &[u8]) -> bool
    ensures { OnTrue result (PlainBetween text.now 0 (length text.now)) }
{
    let count = text.len();
    if count >= 16 {
        are_many_plain(text)
    } else if count >= 8 {
        is_plain_at::<8>(text, 0) && is_plain_at::<8>(text, count - 8)
    } else if count >= 4 {
        is_plain_at::<4>(text, 0) && is_plain_at::<4>(text, count - 4)
    } else {
        are_few_plain(text)
    }
}

// Whether a text stands in quotes as it is.
fn needs_no_escape(text: &[u8]) -> bool
    ensures { OnTrue result (escape text.now ≡ text.now) }
{
    is_plain(text)
}

#[tactic(auto, unfolding(crate::specs::Lines::begun, crate::specs::Lines::with_tokens, json::specs::Print::print_from))]
fn in_quotes(alloc: Global, text: &str) -> Result<String, AllocError>
    ensures { IfOk result (λ written. string_bytes written ≡ quoted text.now) }
{
    let mut line = JsonLine::new(alloc, "", text.len())?;
    line.text(text)?;
    Ok(line.into_string())
}

#[cold]
#[inline(never)]
fn push_escaped(out: &mut String, text: &str) -> Result<(), AllocError>
    ensures { OnOk result (string_bytes out.new ≡ string_bytes out.old ++ quoted text.now) }
{
    let written = in_quotes(*out.allocator(), text)?;
    out.push_str(written.as_str())
}

fn push_plain(out: &mut String, text: &str) -> Result<(), AllocError>
    requires { escape text.now ≡ text.now }
    ensures { OnOk result (string_bytes out.new ≡ string_bytes out.old ++ quoted text.now) }
{
    out.push_str("\"")?;
    out.push_str(text)?;
    out.push_str("\"")
}

/// Puts a text behind another in quotes, with the shortest escapes, as it stands in JSON.
pub fn push_quoted(out: &mut String, text: &str) -> Result<(), AllocError>
    ensures { OnOk result (string_bytes out.new ≡ string_bytes out.old ++ quoted text.now) }
{
    if needs_no_escape(text.as_bytes()) {
        push_plain(out, text)
    } else {
        push_escaped(out, text)
    }
}
