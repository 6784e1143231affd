//! Where the value with a path begins in a JSON text.
use std::alloc::{AllocError, Global};

/// An object or an array that is open.
#[derive(Clone, Copy)]
struct Frame {
    /// How many bytes its path has.
    base: usize,
    is_array: bool,
    /// The index of the item, in an array.
    index: usize,
}

/// Where a path leads.
#[derive(Clone, Copy, Debug)]
pub struct Found {
    /// Where the value begins, or the innermost value around it that is there.
    pub at: usize,
    /// Whether the value itself is there.
    pub is_whole: bool,
}

#[derive(Drop)]
struct Finder {
    alloc: Global,
    wanted: Vec<u8>,
    path: Vec<u8>,
    frames: Vec<Frame>,
    key: Vec<u8>,
    inside: bool,
    escaped: bool,
    in_word: bool,
    expects_key: bool,
    is_key: bool,
    found: Found,
    best: usize,
}

fn leads_on(path: &[u8], wanted: &[u8]) -> bool {
    if path.is_empty() || path.len() >= wanted.len() {
        return path.is_empty() || path == wanted;
    }
    wanted.starts_with(path) && matches!(wanted[path.len()], b'.' | b'[')
}

impl Finder {
    fn of(alloc: Global, path: &str) -> Result<Finder, AllocError> {
        let mut wanted = Vec::new(alloc);
        wanted.extend_from_slice(path.as_bytes())?;
        Ok(Finder {
            alloc,
            wanted,
            path: Vec::new(alloc),
            frames: Vec::new(alloc),
            key: Vec::new(alloc),
            inside: false,
            escaped: false,
            in_word: false,
            expects_key: false,
            is_key: false,
            found: Found {
                at: 0,
                is_whole: false,
            },
            best: 0,
        })
    }

    // A value begins here.
    fn begin(&mut self, at: usize) {
        if self.path.len() >= self.best && leads_on(&self.path, &self.wanted) {
            self.best = self.path.len();
            self.found = Found {
                at,
                is_whole: self.path.len() == self.wanted.len(),
            };
        }
    }

    fn push_index(&mut self, index: usize) -> Result<(), AllocError> {
        let text = format!(in self.alloc; "[{index}]")?;
        self.path.extend_from_slice(text.as_bytes())
    }

    fn open(&mut self, at: usize, is_array: bool) -> Result<(), AllocError> {
        self.begin(at);
        self.frames.push(Frame {
            base: self.path.len(),
            is_array,
            index: 0,
        })?;
        self.expects_key = !is_array;
        if is_array {
            self.push_index(0)?;
        }
        Ok(())
    }

    fn close(&mut self) {
        if let Some(frame) = self.frames.pop() {
            self.path.truncate(frame.base);
        }
        self.expects_key = false;
    }

    // The next item or member.
    fn next(&mut self) -> Result<(), AllocError> {
        if let Some(frame) = self.frames.pop() {
            let index = frame.index.saturating_add(1);
            self.frames.push(Frame {
                base: frame.base,
                is_array: frame.is_array,
                index,
            })?;
            self.path.truncate(frame.base);
            self.expects_key = !frame.is_array;
            if frame.is_array {
                self.push_index(index)?;
            }
        }
        Ok(())
    }

    // The key of a member is over.
    fn push_key(&mut self) -> Result<(), AllocError> {
        self.expects_key = false;
        if !self.path.is_empty() {
            self.path.push(b'.')?;
        }
        self.path.extend_from_slice(&self.key)
    }

    fn take_inside(&mut self, byte: u8) -> Result<(), AllocError> {
        if !self.escaped && byte == b'"' {
            self.inside = false;
            return Ok(());
        }
        self.escaped = !self.escaped && byte == b'\\';
        if self.is_key {
            self.key.push(byte)?;
        }
        Ok(())
    }

    fn open_string(&mut self, at: usize) {
        self.inside = true;
        self.escaped = false;
        self.is_key = self.expects_key;
        if self.is_key {
            self.key.clear();
        } else {
            self.begin(at);
        }
    }

    fn take_mark(&mut self, at: usize, byte: u8) -> Result<(), AllocError> {
        match byte {
            b'"' => {
                self.open_string(at);
                Ok(())
            }
            b'{' => self.open(at, false),
            b'[' => self.open(at, true),
            b'}' | b']' => {
                self.close();
                Ok(())
            }
            b',' => self.next(),
            b':' => self.push_key(),
            _ => Ok(()),
        }
    }

    fn take_outside(&mut self, at: usize, byte: u8) -> Result<(), AllocError> {
        let is_mark = matches!(
            byte,
            b'"' | b'{' | b'[' | b'}' | b']' | b',' | b':' | b' ' | b'\n' | b'\r' | b'\t'
        );
        if !is_mark && !self.in_word {
            self.begin(at);
        }
        self.in_word = !is_mark;
        self.take_mark(at, byte)
    }

    fn take(&mut self, at: usize, byte: u8) -> Result<(), AllocError> {
        if self.inside {
            self.take_inside(byte)
        } else {
            self.take_outside(at, byte)
        }
    }
}

/// Where the value with a path begins, as `moves[3].effect.kind`, in a text that is JSON. Of a key that stands twice it is the
/// last one, which counts.
pub fn find(alloc: Global, bytes: &[u8], path: &str) -> Result<Found, AllocError> {
    let mut finder = Finder::of(alloc, path)?;
    for at in 0..bytes.len() {
        finder.take(at, bytes[at])?;
    }
    Ok(finder.found)
}
