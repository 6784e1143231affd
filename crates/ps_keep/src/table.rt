//! The table of a database that has the notes. What a database contains is known to no clause here: this is the edge.
//!
//! Each note is a row, in the order of the column `number`. A `won` has `format`, `winner` and `loser`, an act `room`, `actor`,
//! `target` and `moment`, and a `promote` has `rank`, the symbol of the new group; all else is NULL.

use crate::note::{ActKind, Note};
use ps_base::id::{Id, read_id};
use ps_base::number::Moment;
use ps_base::text::Text;
use sqlite::{Alter, Connection, Error, ErrorCode, Row, Statement, Transaction, params};
use std::alloc::{AllocError, AllocFailed, Global};

const CREATE: &str = "\
CREATE TABLE notes (
  number INTEGER PRIMARY KEY,
  kind TEXT NOT NULL,
  format TEXT,
  winner TEXT,
  loser TEXT,
  room TEXT,
  actor TEXT,
  target TEXT,
  rank TEXT,
  moment INTEGER
) STRICT";

const TABLES: &str = "SELECT count(*) FROM sqlite_schema WHERE type = 'table'";

const COUNT: &str = "SELECT count(*) FROM notes";

const SELECT: &str = "\
SELECT kind, format, winner, loser, room, actor, target, rank, moment
FROM notes ORDER BY number";

const INSERT_WON: &str =
    "INSERT INTO notes (kind, format, winner, loser) VALUES ('won', ?1, ?2, ?3)";

const INSERT_ACT: &str = "\
INSERT INTO notes (kind, room, actor, target, rank, moment)
VALUES (?1, ?2, ?3, ?4, ?5, ?6)";

/// Why a call on the table was refused.
#[derive(Clone, Copy)]
pub enum TableEnd {
    /// The database refused a statement, or has a row that is no note.
    Failed,
    /// Out of memory.
    NoMemory,
}

impl From<Error> for TableEnd {
    fn from(error: Error) -> TableEnd {
        match error {
            Error::SqliteFailure(ErrorCode::OutOfMemory) => TableEnd::NoMemory,
            _ => TableEnd::Failed,
        }
    }
}

impl From<AllocError> for TableEnd {
    fn from(_e: AllocError) -> TableEnd {
        TableEnd::NoMemory
    }
}

impl<T: Drop> From<AllocFailed<T>> for TableEnd {
    fn from(_e: AllocFailed<T>) -> TableEnd {
        TableEnd::NoMemory
    }
}

/// What a load found.
#[derive(Drop)]
pub enum Loaded {
    /// All notes, the oldest first.
    Notes(Vec<Note>),
    /// There are so many, or `u32::MAX` where there are more than that.
    TooMany(u32),
}

/// What is asked of the table.
#[derive(Clone, Copy)]
pub enum Job<'a> {
    /// All notes, if there are at most so many. A database with no table has none, and one with other tables alone is another
    /// program's.
    Load { most: u32 },
    /// To put these behind those that it has, all of them or none. The table is made where there is none.
    Append(&'a [Note]),
}

// ---- from rows

fn kind_in(word: &str) -> Option<ActKind> {
    match word {
        "warn" => Some(ActKind::Warn),
        "mute" => Some(ActKind::Mute),
        "unmute" => Some(ActKind::Unmute),
        "ban" => Some(ActKind::Ban),
        "unban" => Some(ActKind::Unban),
        "promote" => Some(ActKind::Promote),
        _ => None,
    }
}

fn id_at(alloc: Global, row: &Row, column: usize) -> Result<Id, TableEnd> {
    let text: String = row.get(column)?;
    match read_id(alloc, text.as_str())? {
        Some(id) => Ok(id),
        None => Err(TableEnd::Failed),
    }
}

// The one character of a text, or none where there is no text.
fn symbol_at(row: &Row, column: usize) -> Result<Option<char>, TableEnd> {
    let text: Option<String> = row.get(column)?;
    let Some(text) = text else {
        return Ok(None);
    };
    let mut symbols = text.chars();
    match (symbols.next(), symbols.next()) {
        (Some(symbol), None) => Ok(Some(symbol)),
        _ => Err(TableEnd::Failed),
    }
}

fn won_in(alloc: Global, row: &Row) -> Result<Note, TableEnd> {
    Ok(Note::Won {
        format: id_at(alloc, row, 1)?,
        winner: id_at(alloc, row, 2)?,
        loser: id_at(alloc, row, 3)?,
    })
}

fn act_in(alloc: Global, row: &Row, kind: ActKind) -> Result<Note, TableEnd> {
    let moment: u64 = row.get(8)?;
    let rank = symbol_at(row, 7)?;
    let actor = id_at(alloc, row, 5)?;
    let target = id_at(alloc, row, 6)?;
    let room: String = row.get(4)?;
    Ok(Note::Act {
        room: Text::from_string(room),
        actor,
        kind,
        target,
        rank,
        moment: Moment(moment),
    })
}

fn note_in(alloc: Global, row: &Row) -> Result<Note, TableEnd> {
    let word: String = row.get(0)?;
    if word.as_str() == "won" {
        return won_in(alloc, row);
    }
    match kind_in(word.as_str()) {
        Some(kind) => act_in(alloc, row, kind),
        None => Err(TableEnd::Failed),
    }
}

fn number_of<S: Alter>(conn: &mut Connection<S>, query: &str) -> Result<u64, TableEnd> {
    let number: u64 = conn.query_row(query, &[])?.get(0)?;
    Ok(number)
}

fn push_note(alloc: Global, notes: &mut Vec<Note>, row: &Row) -> Result<(), TableEnd> {
    notes.push(note_in(alloc, row)?)?;
    Ok(())
}

fn push_notes<S: Alter>(
    alloc: Global,
    conn: &mut Connection<S>,
    notes: &mut Vec<Note>,
) -> Result<(), TableEnd> {
    let mut rows = conn.query(SELECT, &[])?;
    for _ in 0..u64::MAX {
        let Some(row) = rows.next()? else {
            return Ok(());
        };
        push_note(alloc, notes, row)?;
    }
    Ok(())
}

fn all_notes<S: Alter>(alloc: Global, conn: &mut Connection<S>) -> Result<Vec<Note>, TableEnd> {
    let mut notes = Vec::new(alloc);
    push_notes(alloc, conn, &mut notes)?;
    Ok(notes)
}

// The notes of a database, if there are at most so many. One with no table has none, and one with other tables alone is another
// program's.
fn load<S: Alter>(alloc: Global, conn: &mut Connection<S>, most: u32) -> Result<Loaded, TableEnd> {
    if number_of(conn, TABLES)? == 0 {
        return Ok(Loaded::Notes(Vec::new(alloc)));
    }
    let count = number_of(conn, COUNT)?;
    if count > u64::from(most) {
        return Ok(Loaded::TooMany(u32::try_from(count).unwrap_or(u32::MAX)));
    }
    Ok(Loaded::Notes(all_notes(alloc, conn)?))
}

// ---- to rows

fn word_of(kind: ActKind) -> &'static str {
    match kind {
        ActKind::Warn => "warn",
        ActKind::Mute => "mute",
        ActKind::Unmute => "unmute",
        ActKind::Ban => "ban",
        ActKind::Unban => "unban",
        ActKind::Promote => "promote",
    }
}

fn rank_text(alloc: Global, rank: Option<char>) -> Result<Option<String>, TableEnd> {
    let Some(symbol) = rank else {
        return Ok(None);
    };
    let mut text = String::new(alloc);
    text.push(symbol)?;
    Ok(Some(text))
}

// A statement that is run for each of many notes.
struct Prepared {
    statement: Statement,
}

// By hand, so that whoever drops one has one step of its proof for that: a statement has many parts.
impl Drop for Prepared {
    fn drop(self) {
        let Prepared { statement: _ } = self;
    }
}

fn prepare<S: Alter>(work: &mut Transaction<'_, S>, text: &str) -> Result<Prepared, TableEnd> {
    let statement = work.prepare(text)?;
    Ok(Prepared { statement })
}

fn insert_won<S: Alter>(
    work: &mut Transaction<'_, S>,
    insert: &Prepared,
    format: &Id,
    winner: &Id,
    loser: &Id,
) -> Result<(), TableEnd> {
    work.execute_prepared(
        &insert.statement,
        params![format.as_str(), winner.as_str(), loser.as_str()],
    )?;
    Ok(())
}

// With the text of its rank and its moment as they stand in a row.
fn insert_act_row<S: Alter>(
    work: &mut Transaction<'_, S>,
    insert: &Prepared,
    note: &Note,
    rank: &Option<String>,
    moment: i64,
) -> Result<(), TableEnd> {
    let Note::Act {
        room,
        actor,
        kind,
        target,
        ..
    } = note
    else {
        return Err(TableEnd::Failed);
    };
    work.execute_prepared(
        &insert.statement,
        params![
            word_of(*kind),
            room.as_str(),
            actor.as_str(),
            target.as_str(),
            rank,
            moment,
        ],
    )?;
    Ok(())
}

fn insert_act<S: Alter>(
    alloc: Global,
    work: &mut Transaction<'_, S>,
    insert: &Prepared,
    note: &Note,
) -> Result<(), TableEnd> {
    let Note::Act { rank, moment, .. } = note else {
        return Err(TableEnd::Failed);
    };
    let Ok(moment) = i64::try_from(moment.0) else {
        return Err(TableEnd::Failed);
    };
    let rank = rank_text(alloc, *rank)?;
    insert_act_row(work, insert, note, &rank, moment)
}

fn insert<S: Alter>(
    alloc: Global,
    work: &mut Transaction<'_, S>,
    won: &Prepared,
    act: &Prepared,
    note: &Note,
) -> Result<(), TableEnd> {
    match note {
        Note::Won {
            format,
            winner,
            loser,
        } => insert_won(work, won, format, winner, loser),
        Note::Act { .. } => insert_act(alloc, work, act, note),
    }
}

fn insert_each<S: Alter>(
    alloc: Global,
    work: &mut Transaction<'_, S>,
    won: &Prepared,
    act: &Prepared,
    notes: &[Note],
) -> Result<(), TableEnd> {
    for note in notes {
        insert(alloc, work, won, act, note)?;
    }
    Ok(())
}

// Makes the table where there is none, and puts the notes behind those that it has.
fn insert_all<S: Alter>(
    alloc: Global,
    work: &mut Transaction<'_, S>,
    is_new: bool,
    notes: &[Note],
) -> Result<(), TableEnd> {
    if is_new {
        work.execute(CREATE, &[])?;
    }
    let won = prepare(work, INSERT_WON)?;
    let act = prepare(work, INSERT_ACT)?;
    insert_each(alloc, work, &won, &act, notes)
}

// Puts notes behind those of a database, all of them or none, and makes the table where there is none.
fn append<S: Alter>(
    alloc: Global,
    conn: &mut Connection<S>,
    notes: &[Note],
) -> Result<(), TableEnd> {
    let is_new = number_of(conn, TABLES)? == 0;
    if !conn.is_autocommit() {
        return Err(TableEnd::Failed);
    }
    let mut work = conn.transaction();
    insert_all(alloc, &mut work, is_new, notes)?;
    work.commit()?;
    Ok(())
}

/// Does what is asked, and answers what a load found. It is one call for both, since a proof of a call over a store that is known
/// takes long, whatever is asked.
pub fn run<S: Alter>(
    alloc: Global,
    conn: &mut Connection<S>,
    job: Job<'_>,
) -> Result<Option<Loaded>, TableEnd> {
    match job {
        Job::Load { most } => Ok(Some(load(alloc, conn, most)?)),
        Job::Append(notes) => {
            append(alloc, conn, notes)?;
            Ok(None)
        }
    }
}
