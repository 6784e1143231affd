//! A keeper over a database.
ghost use Rattle.std.specs.Prelude.{◌≡◌, ◌≤◌, None, length, IfOk};
ghost use Rattle.ps_keep.specs.Keepers.{no_counts, IsLoadEnd};

use crate::keeper::{KeepEnd, Keeper};
use crate::note::Note;
use crate::table::{self, Job, Loaded, TableEnd};
use crate::tally::Tally;
use sqlite::{Connection, File, FileStore};
use std::alloc::Global;
use std::marker::Model;
use std::{fs, slice};

// Where a database is: in the file of the host with this name.
#[derive(Drop)]
struct Shelf<'a> {
    host: &'a HostRuntime,
    name: &'a str,
}

// An open database.
struct Opened {
    conn: Connection<FileStore<File>>,
}

// By hand, so that whoever drops one has one step of its proof for that.
impl Drop for Opened {
    fn drop(self) {
        let Opened { conn: _ } = self;
    }
}

impl Opened {
    fn run(&mut self, alloc: Global, job: Job<'_>) -> Result<Option<Loaded>, TableEnd> {
        table::run(alloc, &mut self.conn, job)
    }

    fn append(&mut self, alloc: Global, notes: &[Note]) -> Result<(), TableEnd> {
        self.run(alloc, Job::Append(notes))?;
        Ok(())
    }

    // The log of the file is copied into it.
    fn close(self) {
        let Opened { conn } = self;
        let _ = conn.close();
    }
}

// Opens the database of a file. Where there is no file it is made, or none is given.
fn open(shelf: &Shelf<'_>, make: bool) -> Result<Option<Opened>, TableEnd> {
    let Ok(is_there) = fs::exists(shelf.host, shelf.name) else {
        return Err(TableEnd::Failed);
    };
    if !is_there && !make {
        return Ok(None);
    }
    let conn = Connection::open(shelf.host, shelf.name)?;
    Ok(Some(Opened { conn }))
}

// A database, which is opened at the first call that needs it, and then held.
struct Book<'a> {
    shelf: Shelf<'a>,
    opened: Option<Opened>,
}

// By hand, so that whoever drops a book has one step of its proof for that.
impl Drop for Book<'_> {
    fn drop(self) {
        let Book {
            shelf: _,
            opened: _,
        } = self;
    }
}

impl Book<'_> {
    // Where it isn't open it is opened.
    fn hold(&mut self, make: bool) -> Result<(), TableEnd> {
        if self.opened.is_none() {
            self.opened = open(&self.shelf, make)?;
        }
        Ok(())
    }

    fn load(&mut self, alloc: Global, most: u32) -> Result<Option<Loaded>, TableEnd> {
        self.hold(false)?;
        match &mut self.opened {
            None => Ok(None),
            Some(opened) => opened.run(alloc, Job::Load { most }),
        }
    }

    // The log of a file is copied into it, so that the file alone has all notes, and others may open it. Where that fails they
    // are in the file and its log.
    fn finish(&mut self) {
        if let Some(opened) = self.opened.take() {
            opened.close();
        }
    }

    fn append(&mut self, alloc: Global, notes: &[Note]) -> Result<(), TableEnd> {
        self.hold(true)?;
        let end = match &mut self.opened {
            None => Err(TableEnd::Failed),
            Some(opened) => opened.append(alloc, notes),
        };
        self.finish();
        end
    }
}

// What a load answers, of which this was found, or nothing where there is no database.
fn load_end(
    alloc: Global,
    found: Result<Option<Loaded>, TableEnd>,
    most: u32,
) -> Result<Vec<Note>, KeepEnd>
    ensures few { IfOk result (λ v. length v.items ≤ most) }
    ensures end { IsLoadEnd None most result }
{
    match found {
        Ok(None) => Ok(Vec::new(alloc)),
        Ok(Some(Loaded::Notes(notes))) => {
            if notes.len() > most as usize {
                return Err(KeepEnd::Failed);
            }
            Ok(notes)
        }
        Ok(Some(Loaded::TooMany(count))) => {
            if count > most {
                return Err(KeepEnd::TooMany { count });
            }
            Err(KeepEnd::Failed)
        }
        Err(TableEnd::Failed) => Err(KeepEnd::Failed),
        Err(TableEnd::NoMemory) => Err(KeepEnd::NoMemory),
    }
}

/// A keeper over a database, which `sqlite3` opens too: its one table, `notes`, has a row for each note. The database is opened
/// at the first call that needs it, and no other process may open it until notes were committed or the keeper is gone. A
/// statement that is refused, other than for want of memory, is a fault. What a database contains is known to no clause.
#[derive(Drop)]
pub struct SqlKeeper<'a> {
    book: Book<'a>,
    tally: Tally,
}

impl<'a> Model for SqlKeeper<'a> {
    ghost use Rattle.ps_keep.specs.Keepers.{KeepCounts};

    ghost Value = { KeepCounts };

    ghost view = { λ k. k.tally };
}

impl<'a> SqlKeeper<'a> {
    /// A keeper over the database in the file of this name, which isn't opened yet. Takes no memory.
    pub fn in_file(host: &'a HostRuntime, name: &'a str) -> SqlKeeper<'a>
        ensures { result ≡ no_counts }
    {
        SqlKeeper {
            book: Book {
                shelf: Shelf { host, name },
                opened: None,
            },
            tally: Tally::new(),
        }
    }
}

impl Keeper for SqlKeeper<'_> {
    ghost notes = { λ _. None };

    ghost counts = { λ k. k };

    /// Where there is no database there are no notes, and none is made.
    fn load(&mut self, alloc: Global, most: u32) -> Result<Vec<Note>, KeepEnd> {
        let answer = load_end(alloc, self.book.load(alloc, most), most);
        self.tally.count_load(&answer);
        answer
    }

    fn note(&mut self, alloc: Global, note: &Note) -> Result<(), KeepEnd> {
        self.note_all(alloc, slice::from_ref(note))
    }

    /// All of the notes are noted or none, in one transaction, and they are committed at `Ok`. For no notes nothing is opened.
    fn note_all(&mut self, alloc: Global, more: &[Note]) -> Result<(), KeepEnd> {
        if more.is_empty() {
            return Ok(());
        }
        match self.book.append(alloc, more) {
            Ok(()) => Ok(()),
            Err(TableEnd::Failed) => {
                self.tally.count_fault();
                Err(KeepEnd::Failed)
            }
            Err(TableEnd::NoMemory) => Err(KeepEnd::NoMemory),
        }
    }
}
