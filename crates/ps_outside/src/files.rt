//! Files that are read whole.
ghost use Rattle.std.specs.Prelude.{◌≡◌, ℕ, ◌≤◌, false, List, Option, Some, length, IfOk, IfSome};
ghost use Rattle.std.specs.Option.{option_copied};
ghost use Rattle.ps_outside.specs.Counts.{is_listed, one_more};
ghost use Rattle.ps_outside.specs.Files.{FileCounts, no_counts, lookup, IsFile, IsFileEnd, HasFileCause, has_file_failed};

use ps_base::list::List;
use ps_base::text::Text;
use std::alloc::Global;
use std::marker::Model;

/// Why a file was not read.
#[derive(Clone, Copy, Debug, PartialEq, Eq)]
pub enum FileEnd {
    /// There is no file of that name.
    Missing,
    /// The file has more bytes than the limit.
    TooLong,
    /// The outside refused the call.
    Failed,
    /// Memory was refused.
    NoMemory,
}

/// A file in memory.
#[derive(Debug, Drop)]
pub struct NamedFile {
    pub name: Text,
    pub bytes: List<u8>,
}

/// Files by their names.
pub trait Files {
    /// What is under each name, where it is known.
    ghost contents: { Self → Option (List ℕ → Option (List ℕ)) };

    /// How often each of the answers Missing, TooLong and Failed came. None of the counts falls, and
    /// each stands still at the last value of a `u64`.
    ghost counts: { Self → FileCounts };

    /// The whole file of that name, of at most `limit` bytes.
    fn read(&mut self, alloc: Global, name: &str, limit: u32) -> Result<Vec<u8>, FileEnd>
        ensures same { contents self.new ≡ contents self.old }
        ensures found { IfOk result (λ v. IfSome (contents self.old) (IsFile name.now limit v.items)) }
        ensures few { IfOk result (λ v. length v.items ≤ limit) }
        ensures end { IsFileEnd (contents self.old) name.now limit result }
        ensures cause { HasFileCause (counts self.old) (counts self.new) result };
}

// The bytes of the first file of this name.
fn lookup<'a>(files: &'a [NamedFile], name: &str) -> Option<&'a List<u8>>
    ensures { option_copied result ≡ lookup files.now name.now }
{
    for file in files {
        if file.name.as_str() == name {
            return Some(&file.bytes);
        }
    }
    None
}

// The bytes of the first file of this name, if there are at most `limit`.
fn file_within(
    alloc: Global,
    files: &[NamedFile],
    name: &str,
    limit: u32,
) -> Result<Vec<u8>, FileEnd>
    ensures found { IfOk result (λ v. IsFile name.now limit v.items (lookup files.now)) }
    ensures end { IsFileEnd (Some (lookup files.now)) name.now limit result }
    ensures works { has_file_failed result ≡ false }
{
    match lookup(files, name) {
        None => Err(FileEnd::Missing),
        Some(bytes) => {
            if bytes.as_slice().len() > limit as usize {
                return Err(FileEnd::TooLong);
            }
            match bytes.as_slice().to_vec(alloc) {
                Ok(bytes) => Ok(bytes),
                Err(_) => Err(FileEnd::NoMemory),
            }
        }
    }
}

/// How often each of the answers Missing, TooLong and Failed came.
#[derive(Debug, Drop)]
pub(crate) struct Tally {
    missing: u64,
    long: u64,
    faults: u64,
}

impl Model for Tally {
    ghost use Rattle.ps_outside.specs.Files.{FileCounts};

    ghost Value = { FileCounts };

    ghost view = { λ t. record { missing = t.missing; long = t.long; faults = t.faults } };
}

impl Tally {
    /// No answer so far.
    pub(crate) fn new() -> Tally
        ensures { result ≡ no_counts }
    {
        Tally {
            missing: 0,
            long: 0,
            faults: 0,
        }
    }

    /// Counts an answer.
    pub(crate) fn count(&mut self, read: &Result<Vec<u8>, FileEnd>)
        ensures { HasFileCause self.old self.new read.now }
    {
        match read {
            Ok(_) => {}
            Err(FileEnd::Missing) => self.missing = self.missing.saturating_add(1),
            Err(FileEnd::TooLong) => self.long = self.long.saturating_add(1),
            Err(FileEnd::Failed) => self.faults = self.faults.saturating_add(1),
            Err(FileEnd::NoMemory) => {}
        }
    }
}

/// Files in memory, whose calls fail at the numbers of a list, counted from 1.
#[derive(Drop)]
pub struct MemFiles {
    files: Vec<NamedFile>,
    calls: u64,
    tally: Tally,
    failing: Vec<u64>,
}

impl Model for MemFiles {
    ghost use Rattle.ps_outside.specs.Files.{Shelf};

    ghost Value = { Shelf };

    ghost view = { λ f. record { files = f.files.items; calls = f.calls; counts = f.tally; failing = f.failing.items } };
}

impl MemFiles {
    /// These files; of two with one name the first counts. Takes no memory.
    pub fn new(files: Vec<NamedFile>, failing: Vec<u64>) -> MemFiles
        ensures { result ≡ record { files = files.items; calls = 0; counts = no_counts; failing = failing.items } }
    {
        MemFiles {
            files,
            calls: 0,
            tally: Tally::new(),
            failing,
        }
    }
}

impl Files for MemFiles {
    ghost contents = { λ f. Some (lookup f.files) };

    ghost counts = { λ f. f.counts };

    /// Fails exactly at the calls that are listed.
    fn read(&mut self, alloc: Global, name: &str, limit: u32) -> Result<Vec<u8>, FileEnd>
        ensures same { self.new.files ≡ self.old.files }
        ensures found { IfOk result (λ v. IfSome (Some (lookup self.old.files)) (IsFile name.now limit v.items)) }
        ensures few { IfOk result (λ v. length v.items ≤ limit) }
        ensures end { IsFileEnd (Some (lookup self.old.files)) name.now limit result }
        ensures cause { HasFileCause self.old.counts self.new.counts result }
        ensures listed { has_file_failed result ≡ is_listed self.old.calls self.old.failing }
        ensures calls { self.new.calls ≡ one_more self.old.calls }
    {
        self.calls = self.calls.saturating_add(1);
        if self.failing.contains(&self.calls) {
            let read = Err(FileEnd::Failed);
            self.tally.count(&read);
            return read;
        }
        let read = file_within(alloc, &self.files, name, limit);
        self.tally.count(&read);
        read
    }
}

/// Files in memory that never fail.
#[derive(Drop)]
pub struct SureFiles {
    files: Vec<NamedFile>,
    tally: Tally,
}

impl Model for SureFiles {
    ghost use Rattle.ps_outside.specs.Files.{SureShelf};

    ghost Value = { SureShelf };

    ghost view = { λ f. record { files = f.files.items; counts = record { missing = f.tally.missing; long = f.tally.long; faults = 0 } } };
}

impl SureFiles {
    /// These files; of two with one name the first counts. Takes no memory.
    pub fn new(files: Vec<NamedFile>) -> SureFiles
        ensures { result ≡ record { files = files.items; counts = no_counts } }
    {
        SureFiles {
            files,
            tally: Tally::new(),
        }
    }
}

impl Files for SureFiles {
    ghost contents = { λ f. Some (lookup f.files) };

    ghost counts = { λ f. f.counts };

    fn read(&mut self, alloc: Global, name: &str, limit: u32) -> Result<Vec<u8>, FileEnd> {
        let read = file_within(alloc, &self.files, name, limit);
        self.tally.count(&read);
        read
    }
}
