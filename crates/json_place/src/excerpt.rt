//! A place in a text, as a person looks it up.
use std::alloc::{AllocError, Global};

/// A place: its line and its column, both from 1, the column in characters.
#[derive(Clone, Copy, Debug, PartialEq, Eq)]
pub struct Place {
    pub line: usize,
    pub column: usize,
}

/// The most characters of a line that are shown.
const MOST_SHOWN: usize = 80;

/// Whether a byte goes on with a character of UTF-8.
fn goes_on(byte: u8) -> bool {
    byte & 0xC0 == 0x80
}

/// The place of a byte.
pub fn place_of(bytes: &[u8], at: usize) -> Place {
    let mut line = 1usize;
    let mut column = 1usize;
    for i in 0..bytes.len() {
        if i >= at {
            return Place { line, column };
        }
        if bytes[i] == b'\n' {
            line = line.saturating_add(1);
            column = 1;
        } else if !goes_on(bytes[i]) {
            column = column.saturating_add(1);
        }
    }
    Place { line, column }
}

/// Where a place is: the byte of its line and column, or the end of the text.
pub fn byte_of(bytes: &[u8], place: Place) -> usize {
    let mut line = 1usize;
    let mut column = 1usize;
    for i in 0..bytes.len() {
        if line == place.line && column >= place.column {
            return i;
        }
        if bytes[i] == b'\n' {
            if line == place.line {
                return i;
            }
            line = line.saturating_add(1);
            column = 1;
        } else {
            column = column.saturating_add(1);
        }
    }
    bytes.len()
}

fn line_start(bytes: &[u8], at: usize) -> usize {
    let mut start = 0;
    for i in 0..bytes.len() {
        if i >= at {
            return start;
        }
        if bytes[i] == b'\n' {
            start = i + 1;
        }
    }
    start
}

fn visible(byte: u8) -> char {
    if byte >= 0x20 && byte < 0x7F {
        return char::from(byte);
    }
    if byte == b'\t' { ' ' } else { '?' }
}

/// How many characters the line has that begins at a byte.
fn line_length(bytes: &[u8], start: usize) -> usize {
    let mut length = 0usize;
    for i in start..bytes.len() {
        if bytes[i] == b'\n' || bytes[i] == b'\r' {
            return length;
        }
        if !goes_on(bytes[i]) {
            length = length.saturating_add(1);
        }
    }
    length
}

/// At most 80 characters of a line, behind so many of them. What isn't ASCII is a question mark.
fn shown_from(
    alloc: Global,
    bytes: &[u8],
    start: usize,
    from: usize,
) -> Result<String, AllocError> {
    let mut shown = String::new(alloc);
    let mut passed = 0usize;
    for i in start..bytes.len() {
        let is_over = passed >= from.saturating_add(MOST_SHOWN) && !goes_on(bytes[i]);
        if bytes[i] == b'\n' || bytes[i] == b'\r' || is_over {
            return Ok(shown);
        }
        if !goes_on(bytes[i]) {
            if passed >= from {
                shown.push(visible(bytes[i]))?;
            }
            passed = passed.saturating_add(1);
        }
    }
    Ok(shown)
}

/// At most 80 characters of the line that has a byte, the whole line if it has no more, and a mark below the byte's.
pub fn excerpt(alloc: Global, bytes: &[u8], at: usize) -> Result<(String, String), AllocError> {
    let column = place_of(bytes, at).column;
    let start = line_start(bytes, at);
    let most_from = line_length(bytes, start).saturating_sub(MOST_SHOWN);
    let from = column.saturating_sub(41).min(most_from);
    let shown = shown_from(alloc, bytes, start, from)?;
    let mut mark = String::new(alloc);
    for _ in from..column.saturating_sub(1) {
        mark.push(' ')?;
    }
    mark.push('^')?;
    Ok((shown, mark))
}

/// Whether a star stands before a byte on its line, as one does in place of a hidden text.
pub fn has_star_before(bytes: &[u8], at: usize) -> bool {
    for i in line_start(bytes, at)..bytes.len() {
        if i >= at {
            return false;
        }
        if bytes[i] == b'*' {
            return true;
        }
    }
    false
}

fn ends_word(byte: u8) -> bool {
    matches!(
        byte,
        b'{' | b'[' | b'}' | b']' | b',' | b':' | b' ' | b'\n' | b'\r' | b'\t'
    )
}

/// The text that begins at a byte: a string without its quotes, a number or a word, at most 80 characters of it; or the bracket
/// or brace that stands there.
pub fn text_at(alloc: Global, bytes: &[u8], at: usize) -> Result<String, AllocError> {
    let mut text = String::new(alloc);
    let mut is_string = false;
    for i in at..bytes.len() {
        let byte = bytes[i];
        if i == at && byte == b'"' {
            is_string = true;
            continue;
        }
        let ends = if is_string {
            byte == b'"' || byte == b'\n'
        } else {
            i > at && ends_word(byte)
        };
        if ends || text.len() >= MOST_SHOWN {
            return Ok(text);
        }
        if !goes_on(byte) {
            text.push(visible(byte))?;
        }
        if i == at && ends_word(byte) {
            return Ok(text);
        }
    }
    Ok(text)
}
