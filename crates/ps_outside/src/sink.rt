//! Where bytes go.
ghost use Rattle.std.specs.Prelude.{◌≡◌, ℕ, ◌<◌, ◌≤◌, List, Option, Some, None, Ok, [], ◌++◌, length, IfOk, IfSome, OnOk, OnErr};
ghost use Rattle.std.specs.Prelude.{MatchOption};
ghost use Rattle.std.specs.Option.{option_copied};
ghost use Rattle.std.specs.Io.KnownBytes.{WriteAppends, Appends};
ghost use Rattle.ps_outside.specs.Causes.{HasCause};
ghost use Rattle.ps_outside.specs.Sinks.{AppendsFront};

use crate::Failed;
use std::alloc::Global;
use std::io::Write;
use std::marker::Model;

/// A stream of bytes that is written once, from its front.
pub trait Sink {
    /// The bytes that were written, where the sink makes them known.
    ghost written: { Self → Option (List ℕ) };

    /// How often it has failed. The count stands still at the last value of a `u64`.
    ghost faults: { Self → ℕ };

    /// How many bytes of the buffer's front were taken, at least one. `Failed` comes only where the
    /// count of faults rose, and then nothing was taken.
    fn write(&mut self, buf: &[u8]) -> Result<usize, Failed>
        requires { 0 < length buf.now }
        ensures bound { IfOk result (λ n. n ≤ length buf.now) }
        ensures some { IfOk result (λ n. 0 < n) }
        ensures bytes { WriteAppends (written self.old) (written self.new) result buf.now }
        ensures cause { HasCause (faults self.old) (faults self.new) result };
}

/// Writes all the bytes. Where the sink fails a front of them was written.
pub fn write_all<K: Sink>(sink: &mut K, bytes: &[u8]) -> Result<(), Failed>
    ensures ok { OnOk result (Appends (K.written sink.old) (K.written sink.new) bytes.now) }
    ensures err { OnErr result (AppendsFront (K.written sink.old) (K.written sink.new) bytes.now) }
    ensures cause { HasCause (K.faults sink.old) (K.faults sink.new) result }
{
    let mut rest = bytes;
    while !rest.is_empty() {
        let n = sink.write(rest)?;
        rest = &rest[n..];
    }
    Ok(())
}

/// A sink in memory, whose calls fail at the numbers of a list, counted from 1, and if out of memory.
#[derive(Drop)]
pub struct MemSink {
    bytes: Vec<u8>,
    calls: u64,
    faults: u64,
    failing: Vec<u64>,
}

impl Model for MemSink {
    ghost use Rattle.ps_outside.specs.Memory.{Output};

    ghost Value = { Output };

    ghost view = { λ s. record { written = s.bytes.items; calls = s.calls; faults = s.faults; failing = s.failing.items } };
}

impl MemSink {
    /// A sink that nothing was written to. Takes no memory.
    pub fn new(alloc: Global, failing: Vec<u64>) -> MemSink
        ensures { result ≡ record { written = []; calls = 0; faults = 0; failing = failing.items } }
    {
        MemSink {
            bytes: Vec::new(alloc),
            calls: 0,
            faults: 0,
            failing,
        }
    }

    /// The bytes that were written.
    pub fn bytes(&self) -> &[u8]
        ensures { result.now ≡ self.now.written }
    {
        self.bytes.as_slice()
    }
}

impl Sink for MemSink {
    ghost written = { λ s. Some s.written };

    ghost faults = { λ s. s.faults };

    fn write(&mut self, buf: &[u8]) -> Result<usize, Failed> {
        self.calls = self.calls.saturating_add(1);
        if self.failing.contains(&self.calls) || self.bytes.extend_from_slice(buf).is_err() {
            self.faults = self.faults.saturating_add(1);
            return Err(Failed);
        }
        Ok(buf.len())
    }
}

/// A sink that never fails. It keeps what was written while memory lasts, and tells nothing.
#[derive(Drop)]
pub struct SureSink {
    bytes: Option<Vec<u8>>,
}

impl Model for SureSink {
    ghost use Rattle.std.specs.Prelude.{ℕ, List, Option};
    ghost use Rattle.std.specs.Option.{option_map};

    ghost Value = { Option (List ℕ) };

    ghost view = { λ s. option_map (λ v. v.items) s.bytes };
}

impl SureSink {
    /// A sink that nothing was written to. Takes no memory.
    pub fn new(alloc: Global) -> SureSink
        ensures { result ≡ Some [] }
    {
        SureSink {
            bytes: Some(Vec::new(alloc)),
        }
    }

    /// The bytes that were written, or `None` where memory was refused for some of them.
    pub fn bytes(&self) -> Option<&[u8]>
        ensures { option_copied result ≡ self.now }
    {
        match &self.bytes {
            None => None,
            Some(bytes) => Some(bytes.as_slice()),
        }
    }
}

impl Sink for SureSink {
    ghost written = { λ _. None };

    ghost faults = { λ _. 0 };

    fn write(&mut self, buf: &[u8]) -> Result<usize, Failed>
        requires { 0 < length buf.now }
        ensures all { result ≡ Ok (length buf.now) }
        ensures bound { IfOk result (λ n. n ≤ length buf.now) }
        ensures some { IfOk result (λ n. 0 < n) }
        ensures bytes { WriteAppends None None result buf.now }
        ensures cause { HasCause 0 0 result }
        ensures kept { MatchOption self.old (self.new ≡ None) (λ before. IfSome self.new (λ now. now ≡ before ++ buf.now)) }
    {
        let kept = match &mut self.bytes {
            None => false,
            Some(bytes) => bytes.extend_from_slice(buf).is_ok(),
        };
        if !kept {
            self.bytes = None;
        }
        Ok(buf.len())
    }
}

/// A sink over any writer of std. It tells what the writer tells, and counts each error, and each
/// write that takes no byte, as a fault.
#[derive(Drop)]
pub struct StdSink<W: Write> {
    inner: W,
    faults: u64,
}

impl<W: Write> StdSink<W> {
    /// A sink over this writer, which hasn't failed yet. Takes no memory.
    pub fn new(inner: W) -> StdSink<W>
        ensures inner { result.inner ≡ inner }
        ensures faults { result.faults ≡ 0 }
    {
        StdSink { inner, faults: 0 }
    }
}

impl<W: Write> Sink for StdSink<W> {
    ghost written = { λ s. W.contents s.inner };

    ghost faults = { λ s. s.faults };

    fn write(&mut self, buf: &[u8]) -> Result<usize, Failed> {
        match self.inner.write(buf) {
            Ok(0) => {
                self.faults = self.faults.saturating_add(1);
                Err(Failed)
            }
            Ok(count) => Ok(count),
            Err(_) => {
                self.faults = self.faults.saturating_add(1);
                Err(Failed)
            }
        }
    }
}
