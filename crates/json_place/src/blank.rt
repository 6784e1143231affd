//! A text of which no secret is left.
use crate::nearest::is_near;
use std::alloc::{AllocError, Global};

/// How far a text has been gone through.
#[derive(Drop)]
struct Blanker<'a> {
    /// Keys whose values are hidden besides those of secrets.
    keys: &'a [&'a str],
    /// What stands for a hidden number or word that has no quotes.
    bare: u8,
    /// What is left of it.
    out: Vec<u8>,
    /// The bytes since the last comma, colon, bracket or brace, but for spaces and what is hidden.
    word: Vec<u8>,
    /// Whether a string is open.
    inside: bool,
    /// Whether a backslash came just before.
    escaped: bool,
    /// How many brackets and braces are open.
    depth: usize,
    /// Whether texts are hidden, until the next comma at this depth or the end of what is open there.
    hiding: bool,
    hidden_at: usize,
    /// Whether what stands for a hidden text is there.
    starred: bool,
}

fn is_hidden_key(word: &[u8], keys: &[&str]) -> bool {
    for key in keys {
        if word.eq_ignore_ascii_case(key.as_bytes()) {
            return true;
        }
    }
    is_near(word, b"secret") || is_near(word, b"password")
}

impl<'a> Blanker<'a> {
    fn new(alloc: Global, keys: &'a [&'a str], bare: u8) -> Blanker<'a> {
        Blanker {
            keys,
            bare,
            out: Vec::new(alloc),
            word: Vec::new(alloc),
            inside: false,
            escaped: false,
            depth: 0,
            hiding: false,
            hidden_at: 0,
            starred: false,
        }
    }

    fn hide(&mut self) {
        if !self.hiding {
            self.hiding = true;
            self.hidden_at = self.depth;
            self.starred = false;
        }
    }

    fn take_hidden(&mut self) -> Result<(), AllocError> {
        if !self.starred {
            self.starred = true;
            self.out.push(if self.inside { b'*' } else { self.bare })?;
        }
        Ok(())
    }

    // A byte of a string, or of a word without quotes.
    fn take_text(&mut self, byte: u8) -> Result<(), AllocError> {
        if self.hiding {
            return self.take_hidden();
        }
        self.out.push(byte)?;
        self.word.push(byte)?;
        if self.word.ends_with(b"secret") || self.word.ends_with(b"\\u") {
            self.hide();
        }
        Ok(())
    }

    fn take_inside(&mut self, byte: u8) -> Result<(), AllocError> {
        if self.escaped {
            self.escaped = false;
            return self.take_text(byte);
        }
        if byte == b'"' || byte == b'\n' {
            self.inside = false;
            self.out.push(byte)?;
            return Ok(());
        }
        self.escaped = byte == b'\\';
        self.take_text(byte)
    }

    // What a byte that isn't text means for what is hidden.
    fn take_mark(&mut self, byte: u8) {
        match byte {
            b'"' => {
                self.inside = true;
                self.starred = false;
            }
            b'{' | b'[' => self.depth = self.depth.saturating_add(1),
            b'}' | b']' => {
                self.depth = self.depth.saturating_sub(1);
                if self.depth < self.hidden_at {
                    self.hiding = false;
                }
            }
            b',' => {
                if self.depth <= self.hidden_at {
                    self.hiding = false;
                }
            }
            b':' => {
                if is_hidden_key(&self.word, self.keys) {
                    self.hide();
                }
            }
            _ => self.starred = false,
        }
    }

    fn take_outside(&mut self, byte: u8) -> Result<(), AllocError> {
        match byte {
            b'"' | b' ' | b'\n' | b'\r' | b'\t' => {}
            b'{' | b'[' | b'}' | b']' | b',' | b':' => {}
            _ => return self.take_text(byte),
        }
        self.take_mark(byte);
        if matches!(byte, b'{' | b'[' | b'}' | b']' | b',' | b':') {
            self.word.clear();
        }
        self.out.push(byte)?;
        Ok(())
    }

    fn take(&mut self, byte: u8) -> Result<(), AllocError> {
        if self.inside {
            self.take_inside(byte)
        } else {
            self.take_outside(byte)
        }
    }
}

/// The text with one star in place of each text that is the value of a key `secret`, or of one that is spelt like it, or of
/// one of these keys, and with `bare` in place of a number or word there; what is empty is left so. It isn't asked whether the
/// text is JSON, and more is hidden rather than less: of a text with `secret` in it, and of one with an escape by number, also
/// what comes behind. No string goes on past a line's end.
pub fn blanked(
    alloc: Global,
    bytes: &[u8],
    keys: &[&str],
    bare: u8,
) -> Result<Vec<u8>, AllocError> {
    let mut blanker = Blanker::new(alloc, keys, bare);
    for byte in bytes {
        blanker.take(*byte)?;
    }
    let Blanker { out, .. } = blanker;
    Ok(out)
}
