//! A script: its lines, in order.
ghost use Rattle.std.specs.Prelude.{◌≡◌, ◌≢◌, ◌∷◌, ◌<◌, ◌≤◌, ◌^◌, ℕ, List, length, IfOk, IfErr, OnOk, OnErr, None, slice_index};
ghost use Rattle.std.specs.Str.Lines.{lines, strip_carriage_return};
ghost use Rattle.replay_script.specs.Controls.{has_control};
ghost use Rattle.replay_script.specs.Scripts.{has_symbol, is_open, closed_in, fault_of, IsLine, IsFault, IsScript};
ghost use Rattle.replay_script.specs.Ends.{EndsScript, IsNoScript};
ghost use Rattle.replay_script.specs.declared.item.Item.{Item};

use crate::item::read_item;
use crate::line::{Line, Said};
use memchr::memchr;
use ps_base::limit::MOST_TEXT;
use ps_base::number::ConnNo;
use std::alloc::{AllocError, AllocFailed, Global};
use std::marker::Model;

/// How many connections may open.
const MOST_CONNECTIONS: u32 = 1024;

/// What is wrong with a line, in the order in which it is reported.
#[derive(Clone, Copy, Debug, PartialEq, Eq)]
pub enum ScriptKind {
    /// Bytes that aren't UTF-8.
    Utf8,
    /// A byte below 0x20, or 0x7F.
    Control,
    /// None of the forms of a line.
    Form,
    /// A moment before the last one, a group after the first connection, a number of a connection
    /// that isn't the next to open, or that isn't open.
    Order,
    /// A symbol that no group has.
    Group,
    /// More than 1,024 connections.
    Many,
    /// A text of more than 8,192 bytes.
    Long,
}

/// The symbols that groups have, and what the lines so far say.
#[derive(Drop)]
pub struct Seen<'a> {
    symbols: &'a [char],
    moment: u32,
    opened: Vec<bool>,
}

impl<'a> Model for Seen<'a> {
    ghost use Rattle.replay_script.specs.Scripts.{Seen as Counts};

    ghost Value = { Counts };

    ghost view = { λ s. record { symbols = s.symbols.now; moment = s.moment; opened = s.opened.items } };
}

fn has_control(line: &[u8]) -> bool
    ensures { result ≡ has_control line.now }
{
    for b in line {
        if *b < 0x20 || *b == 0x7f {
            return true;
        }
    }
    false
}

// Whether this is one of the symbols.
fn has_symbol(symbols: &[char], symbol: char) -> bool
    ensures { result ≡ has_symbol symbols.now symbol }
{
    for s in symbols {
        if *s == symbol {
            return true;
        }
    }
    false
}

// Whether this connection is open, where the flags say which of those that opened are open still.
fn is_open(opened: &[bool], n: ConnNo) -> bool
    ensures { result ≡ is_open opened.now n }
{
    match n.0 {
        0 => false,
        number => opened.get(number as usize - 1).copied().unwrap_or(false),
    }
}

fn close(opened: &mut [bool], n: ConnNo)
    ensures { opened.new ≡ closed_in opened.old n }
{
    let index = n.0.saturating_sub(1) as usize;
    if index < opened.len() {
        opened[index] = false;
    }
}

impl<'a> Seen<'a> {
    ghost use Rattle.replay_script.specs.Scripts.{start, fault_of, next};

    /// Before the first line, where groups have these symbols. Takes no memory.
    pub fn new(alloc: Global, symbols: &'a [char]) -> Seen<'a>
        ensures { result ≡ start symbols.now }
    {
        Seen {
            symbols,
            moment: 0,
            opened: Vec::new(alloc),
        }
    }

    /// What is wrong with a line after these.
    pub fn fault_of(&self, item: &Line<'_>) -> Option<ScriptKind>
        ensures { result ≡ fault_of self.now item.now }
    {
        match item.said() {
            Said::Nothing => None,
            Said::Moment(n) => {
                if n < self.moment {
                    Some(ScriptKind::Order)
                } else {
                    None
                }
            }
            Said::Group(symbol, _) => {
                if !self.opened.is_empty() {
                    Some(ScriptKind::Order)
                } else if has_symbol(self.symbols, symbol) {
                    None
                } else {
                    Some(ScriptKind::Group)
                }
            }
            Said::Open(n) => {
                if n.0 as usize != self.opened.len() + 1 {
                    Some(ScriptKind::Order)
                } else if n.0 <= MOST_CONNECTIONS {
                    None
                } else {
                    Some(ScriptKind::Many)
                }
            }
            Said::Send(n, text) => {
                if !is_open(&self.opened, n) {
                    Some(ScriptKind::Order)
                } else if text.len() <= MOST_TEXT {
                    None
                } else {
                    Some(ScriptKind::Long)
                }
            }
            Said::Close(n) => {
                if is_open(&self.opened, n) {
                    None
                } else {
                    Some(ScriptKind::Order)
                }
            }
        }
    }

    /// Goes past a line. Where memory fails nothing changes.
    pub fn pass(&mut self, item: &Line<'_>) -> Result<(), AllocError>
        ensures ok { OnOk result (self.new ≡ next self.old item.now) }
        ensures err { OnErr result (self.new ≡ self.old) }
    {
        match item.said() {
            Said::Nothing => Ok(()),
            Said::Moment(n) => {
                self.moment = n;
                Ok(())
            }
            Said::Group(_, _) => Ok(()),
            Said::Open(_) => {
                self.opened.push(true)?;
                Ok(())
            }
            Said::Send(_, _) => Ok(()),
            Said::Close(n) => {
                close(&mut self.opened, n);
                Ok(())
            }
        }
    }
}

fn without_return(line: &[u8]) -> &[u8]
    ensures { result.now ≡ strip_carriage_return line.now }
{
    match line {
        [front @ .., b'\r'] => front,
        _ => line,
    }
}

// The index of the first newline, or the length where there is none.
fn newline(bytes: &[u8]) -> usize
    ensures within { result ≤ length bytes.now }
    ensures before { (k : ℕ) → k < result → slice_index bytes.now k ≢ 10 }
    ensures found { result < length bytes.now → slice_index bytes.now result ≡ 10 }
{
    match memchr(b'\n', bytes) {
        None => bytes.len(),
        Some(index) => index,
    }
}

// The first line, and what stands behind its newline.
fn first_line(bytes: &[u8]) -> (&[u8], &[u8])
    requires { 0 < length bytes.now }
    ensures lines { lines bytes.now ≡ result.0.now ∷ lines result.1.now }
    ensures shorter { length result.1.now < length bytes.now }
{
    let end = newline(bytes);
    if end < bytes.len() {
        (without_return(&bytes[..end]), &bytes[end + 1..])
    } else {
        (bytes, &[])
    }
}

/// Why a script was not read.
#[derive(Clone, Copy, Debug, PartialEq, Eq)]
pub enum ScriptEnd {
    Bad(u32, ScriptKind),
    NoMemory,
}

impl From<AllocError> for ScriptEnd {
    ghost use Rattle.std.specs.Prelude.{◌≡◌};
    ghost use Rattle.replay_script.specs.declared.script.ScriptEnd.TheVariants.{NoMemory};

    ghost from_gives = { λ _ e. e ≡ NoMemory };

    fn from(_: AllocError) -> Self {
        ScriptEnd::NoMemory
    }
}

impl<T: Drop> From<AllocFailed<T>> for ScriptEnd {
    ghost use Rattle.std.specs.Prelude.{◌≡◌};
    ghost use Rattle.replay_script.specs.declared.script.ScriptEnd.TheVariants.{NoMemory};

    ghost from_gives = { λ _ e. e ≡ NoMemory };

    fn from(_: AllocFailed<T>) -> Self {
        ScriptEnd::NoMemory
    }
}

// Reads a line after others. What it looked at is known of the line from here on.
fn read_line<'a>(seen: &Seen<'_>, line: &'a [u8]) -> Result<Line<'a>, ScriptKind>
    ensures found { IfOk result (λ i. IsLine line.now i × (fault_of seen.now i ≡ None)) }
    ensures bad { IfErr result (IsFault seen.now line.now) }
{
    let text = match std::str::from_utf8(line) {
        Ok(text) => text,
        Err(_) => return Err(ScriptKind::Utf8),
    };
    if has_control(line) {
        return Err(ScriptKind::Control);
    }
    match read_item(text) {
        None => Err(ScriptKind::Form),
        Some(item) => match seen.fault_of(&item) {
            Some(kind) => Err(kind),
            None => Ok(item.known_clean()),
        },
    }
}

// Reads the lines of a script.
fn read_lines<'a>(
    alloc: Global,
    bytes: &'a [u8],
    symbols: &[char],
) -> Result<Vec<Line<'a>>, ScriptEnd>
    requires { length bytes.now < 2 ^ 32 }
    ensures found { IfOk result (λ v. IsScript symbols.now bytes.now v.items) }
    ensures few { IfOk result (λ v. length v.items ≤ length bytes.now) }
    ensures bad { IfErr result (EndsScript symbols.now bytes.now) }
{
    let mut rest = bytes;
    let mut items = Vec::new(alloc);
    let mut seen = Seen::new(alloc, symbols);
    let mut count = 0u32;
    while !rest.is_empty() {
        let (line, after) = first_line(rest);
        count += 1;
        match read_line(&seen, line) {
            Err(kind) => return Err(ScriptEnd::Bad(count, kind)),
            Ok(item) => {
                seen.pass(&item)?;
                items.push(item)?;
            }
        }
        rest = after;
    }
    Ok(items)
}

/// Reads a script where groups have these symbols. Its lines lend their texts from these bytes. A text is one script at most;
/// `Bad` comes exactly where it is none, with the number of the first line that no script has there, counted from 1, and what is
/// wrong with it.
pub fn read_script<'a>(
    alloc: Global,
    bytes: &'a [u8],
    symbols: &[char],
) -> Result<Vec<Line<'a>>, ScriptEnd>
    requires { length bytes.now < 2 ^ 32 }
    ensures found { IfOk result (λ v. IsScript symbols.now bytes.now v.items) }
    ensures one { IfOk result (λ v. (items : List Item) → IsScript symbols.now bytes.now items → items ≡ v.items) }
    ensures few { IfOk result (λ v. length v.items ≤ length bytes.now) }
    ensures bad { IfErr result (EndsScript symbols.now bytes.now) }
    ensures none { IfErr result (IsNoScript symbols.now bytes.now) }
{
    match read_lines(alloc, bytes, symbols) {
        Err(ScriptEnd::Bad(line, kind)) => Err(ScriptEnd::Bad(line, kind)),
        Err(ScriptEnd::NoMemory) => Err(ScriptEnd::NoMemory),
        Ok(items) => Ok(items),
    }
}
