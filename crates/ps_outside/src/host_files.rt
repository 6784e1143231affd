//! The files of the host.
ghost use Rattle.std.specs.Prelude.{◌≡◌, ◌≤◌, None, length, IfOk, IfErr};
ghost use Rattle.ps_outside.specs.Files.{FileCounts, no_counts};
ghost use Rattle.ps_outside.specs.HostReads.{IsReadEnd};

use crate::files::{FileEnd, Files, Tally};
use std::alloc::Global;
use std::io::{ErrorKind, Read};
use std::marker::Model;
use std::{fs, rt};

// The bytes that are left of a reader, if there are at most `limit`.
fn read_within<R: Read>(alloc: Global, reader: &mut R, limit: u32) -> Result<Vec<u8>, FileEnd>
    ensures few { IfOk result (λ v. length v.items ≤ limit) }
    ensures end { IfErr result IsReadEnd }
{
    let most = limit as usize;
    let mut bytes = Vec::new(alloc);
    let mut buf = [0u8; 4096];
    loop {
        match reader.read(&mut buf) {
            Err(_) => return Err(FileEnd::Failed),
            Ok(n) => {
                if n == 0 {
                    return Ok(bytes);
                }
                if n > most - bytes.len() {
                    return Err(FileEnd::TooLong);
                }
                match bytes.extend_from_slice(&buf[..n]) {
                    Err(_) => return Err(FileEnd::NoMemory),
                    Ok(()) => {}
                }
            }
        }
    }
}

// Opens a file and reads it whole.
fn read_file<R: rt::Files>(
    host: &R,
    alloc: Global,
    name: &str,
    limit: u32,
) -> Result<Vec<u8>, FileEnd>
    ensures few { IfOk result (λ v. length v.items ≤ limit) }
{
    match fs::open(host, name) {
        Ok(file) => {
            let mut file = file;
            read_within(alloc, &mut file, limit)
        }
        Err(error) => match error.kind() {
            ErrorKind::NotFound => Err(FileEnd::Missing),
            _ => Err(FileEnd::Failed),
        },
    }
}

/// The files of the host by their paths. Nothing of their contents is known. Missing is the host's
/// answer that there is no such file; every other failure to open or to read is a fault, also of a
/// folder and of a name below what is no folder.
#[derive(Drop)]
pub struct HostFiles<'a, R: rt::Files> {
    host: &'a R,
    tally: Tally,
}

impl<'a, R: rt::Files> Model for HostFiles<'a, R> {
    ghost use Rattle.ps_outside.specs.Files.{FileCounts};

    ghost Value = { FileCounts };

    ghost view = { λ f. f.tally };
}

impl<'a, R: rt::Files> HostFiles<'a, R> {
    /// The files of this host.
    pub fn new(host: &'a R) -> HostFiles<'a, R>
        ensures { result ≡ no_counts }
    {
        HostFiles {
            host,
            tally: Tally::new(),
        }
    }
}

impl<R: rt::Files> Files for HostFiles<'_, R> {
    ghost contents = { λ _. None };

    ghost counts = { λ f. f };

    fn read(&mut self, alloc: Global, name: &str, limit: u32) -> Result<Vec<u8>, FileEnd> {
        let read = read_file(self.host, alloc, name, limit);
        self.tally.count(&read);
        read
    }
}
