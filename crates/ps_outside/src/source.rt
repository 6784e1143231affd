//! Where bytes come from.
ghost use Rattle.std.specs.Prelude.{◌≡◌, ℕ, ◌<◌, List, Option, Some, length};
ghost use Rattle.std.specs.Io.{ReadsAtMost};
ghost use Rattle.std.specs.Io.KnownBytes.{ReadConsumes};
ghost use Rattle.ps_outside.specs.Causes.{HasCause};

use crate::Failed;
use std::collections::VecDeque;
use std::io::Read;
use std::marker::Model;

/// A stream of bytes that is read once, from its front to its end.
pub trait Source {
    /// The bytes that are left, where the source makes them known.
    ghost left: { Self → Option (List ℕ) };

    /// How often it has failed. The count stands still at the last value of a `u64`.
    ghost faults: { Self → ℕ };

    /// How many bytes were read into the front of the buffer. 0 is the end, which is no fault.
    /// `Failed` comes only where the count of faults rose, and then nothing was read.
    fn read(&mut self, buf: &mut [u8]) -> Result<usize, Failed>
        requires { 0 < length buf.old }
        ensures bound { ReadsAtMost result buf.new }
        ensures bytes { ReadConsumes (left self.old) (left self.new) result buf.new }
        ensures cause { HasCause (faults self.old) (faults self.new) result };
}

/// A source in memory, whose calls fail at the numbers of a list, counted from 1.
#[derive(Drop)]
pub struct MemSource {
    bytes: VecDeque<u8>,
    calls: u64,
    faults: u64,
    failing: Vec<u64>,
}

impl Model for MemSource {
    ghost use Rattle.ps_outside.specs.Memory.{Input};

    ghost Value = { Input };

    ghost view = { λ s. record { left = s.bytes.items; calls = s.calls; faults = s.faults; failing = s.failing.items } };
}

impl MemSource {
    /// A source of these bytes. Takes no memory.
    pub fn new(bytes: Vec<u8>, failing: Vec<u64>) -> MemSource
        ensures { result ≡ record { left = bytes.items; calls = 0; faults = 0; failing = failing.items } }
    {
        MemSource {
            bytes: VecDeque::from_vec(bytes),
            calls: 0,
            faults: 0,
            failing,
        }
    }
}

impl Source for MemSource {
    ghost left = { λ s. Some s.left };

    ghost faults = { λ s. s.faults };

    fn read(&mut self, buf: &mut [u8]) -> Result<usize, Failed> {
        self.calls = self.calls.saturating_add(1);
        if self.failing.contains(&self.calls) {
            self.faults = self.faults.saturating_add(1);
            return Err(Failed);
        }
        match self.bytes.read(buf) {
            Ok(count) => Ok(count),
            Err(_) => {
                self.faults = self.faults.saturating_add(1);
                Err(Failed)
            }
        }
    }
}

/// A source in memory that never fails.
#[derive(Drop)]
pub struct SureSource {
    bytes: VecDeque<u8>,
}

impl Model for SureSource {
    ghost use Rattle.std.specs.Prelude.{ℕ, List};

    ghost Value = { List ℕ };

    ghost view = { λ s. s.bytes.items };
}

impl SureSource {
    /// A source of these bytes. Takes no memory.
    pub fn new(bytes: Vec<u8>) -> SureSource
        ensures { result ≡ bytes.items }
    {
        SureSource {
            bytes: VecDeque::from_vec(bytes),
        }
    }
}

impl Source for SureSource {
    ghost left = { λ s. Some s };

    ghost faults = { λ _. 0 };

    fn read(&mut self, buf: &mut [u8]) -> Result<usize, Failed> {
        match self.bytes.read(buf) {
            Ok(count) => Ok(count),
            Err(_) => unreachable!(),
        }
    }
}

/// A source over any reader of std. It tells what the reader tells, and counts each error as a fault.
#[derive(Drop)]
pub struct StdSource<R: Read> {
    inner: R,
    faults: u64,
}

impl<R: Read> StdSource<R> {
    /// A source over this reader, which hasn't failed yet. Takes no memory.
    pub fn new(inner: R) -> StdSource<R>
        ensures inner { result.inner ≡ inner }
        ensures faults { result.faults ≡ 0 }
    {
        StdSource { inner, faults: 0 }
    }
}

impl<R: Read> Source for StdSource<R> {
    ghost left = { λ s. R.remaining s.inner };

    ghost faults = { λ s. s.faults };

    fn read(&mut self, buf: &mut [u8]) -> Result<usize, Failed> {
        match self.inner.read(buf) {
            Ok(count) => Ok(count),
            Err(_) => {
                self.faults = self.faults.saturating_add(1);
                Err(Failed)
            }
        }
    }
}
