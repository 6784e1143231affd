//! The entries of a log.
ghost use Rattle.std.specs.Prelude.{◌≡◌, ◌++◌, ◌∷◌, [], map, IfOk, OnOk};
ghost use Rattle.std.specs.List.{filter_map};
ghost use Rattle.std.specs.Option.{option_copied};
ghost use Rattle.ps_splitlog.specs.Lines.{stored_of_event, stored_of_line, stored_of};
ghost use Rattle.ps_splitlog.specs.Entries.{log_entry_of, log_entry_of_lines};

use crate::stored::{Lines, Stored, stored_of_event, stored_of_line};
use ps_base::list::List;
use ps_base::number::ConnNo;
use ps_base::text::Text;
use ps_dex::dex::Dex;
use ps_event::event::Event;
use ps_event::line::ChatLine;
use ps_view::names::Names;
use ps_view::role::Role;
use std::alloc::{AllocError, Global};
use std::marker::Model;

/// What who joins is sent in the place of the entry's lines.
#[derive(Debug, Drop)]
pub struct Joined {
    /// What the joiner is to the room from then on, by which it is shown what was logged.
    pub role: Role,
    /// The lines that come first.
    pub head: List<Text>,
    /// How many of the lines that were logged before follow, the last ones; 4,294,967,295 means all. What it stands for is a
    /// `BacklogSize`.
    pub keep: u32,
    /// The line that comes last.
    pub tail: Option<Text>,
}

/// What who joins is sent, if an entry is a join. It is large and rare, so a log holds it apart. Contracts see it, or none.
#[derive(Debug, Drop)]
pub struct Joining {
    inner: Option<Box<Joined>>,
}

impl Model for Joining {
    ghost use Rattle.std.specs.Prelude.{Option};
    ghost use Rattle.ps_splitlog.specs.declared.entry.Joined.{Joined};
    ghost use Rattle.ps_splitlog.specs.Boxes.{in_box};

    ghost Value = { Option Joined };

    ghost view = { λ j. in_box j.inner };
}

impl Joining {
    fn new(alloc: Global, joined: Option<Joined>) -> Result<Joining, AllocError>
        ensures { IfOk result (λ j. j ≡ joined) }
    {
        match joined {
            None => Ok(Joining { inner: None }),
            Some(joined) => Ok(Joining {
                inner: Some(Box::new(alloc, joined)?),
            }),
        }
    }

    /// What it is. Takes no memory.
    pub fn get(&self) -> Option<&Joined>
        ensures { option_copied result ≡ self.now }
    {
        match &self.inner {
            None => None,
            Some(joined) => Some(&**joined),
        }
    }
}

/// An entry that a log is to take.
#[derive(Drop)]
pub struct Entry<'a> {
    /// The connection that made it.
    pub conn: ConnNo,
    /// The events of the battle, whose lines come first.
    pub events: &'a [Event],
    /// The lines that are text already.
    pub lines: Vec<ChatLine<Text>>,
    /// Where the connection joins by it, what it is sent.
    pub join: Option<Joined>,
    /// The roles that it gives, which hold from the next entry on. The first that names a connection counts, and who isn't
    /// here keeps its role.
    pub roles: &'a [(ConnNo, Role)],
}

/// What a log holds of an entry.
#[derive(Debug, Drop)]
pub struct LogEntry {
    /// The connection that made it.
    pub conn: ConnNo,
    /// Its lines, those of its events first.
    pub lines: Lines,
    /// Where the connection joins by it, what it is sent in place of these.
    pub join: Joining,
    /// The roles that it gives from the next entry on.
    pub roles: List<(ConnNo, Role)>,
}

// Puts what is stored of an event behind the others.
fn push_event(
    alloc: Global,
    stored: &mut Vec<Stored>,
    names: &Names,
    dex: &Dex,
    event: &Event,
) -> Result<(), AllocError>
    ensures { OnOk result (stored.new.items ≡ stored.old.items ++ filter_map (stored_of_event names.now dex.now) (event.now ∷ [])) }
{
    if let Some(line) = stored_of_event(alloc, names, dex, event)? {
        stored.push(line)?;
    }
    Ok(())
}

fn push_events(
    alloc: Global,
    stored: &mut Vec<Stored>,
    names: &Names,
    dex: &Dex,
    events: &[Event],
) -> Result<(), AllocError>
    ensures { OnOk result (stored.new.items ≡ stored.old.items ++ filter_map (stored_of_event names.now dex.now) events.now) }
{
    for event in events {
        push_event(alloc, stored, names, dex, event)?;
    }
    Ok(())
}

fn push_lines(stored: &mut Vec<Stored>, lines: Vec<ChatLine<Text>>) -> Result<(), AllocError>
    ensures { OnOk result (stored.new.items ≡ stored.old.items ++ map stored_of_line lines.items) }
{
    for line in lines {
        stored.push(stored_of_line(line))?;
    }
    Ok(())
}

// What is stored of an entry's events and lines.
fn stored_of(
    alloc: Global,
    names: &Names,
    dex: &Dex,
    events: &[Event],
    lines: Vec<ChatLine<Text>>,
) -> Result<Lines, AllocError>
    ensures { IfOk result (λ v. v ≡ stored_of names.now dex.now events.now lines.items) }
{
    let mut stored = Vec::with_capacity(alloc, lines.len())?;
    push_events(alloc, &mut stored, names, dex, events)?;
    push_lines(&mut stored, lines)?;
    Ok(Lines::from_vec(stored))
}

/// What a log holds of an entry: of its events the lines that `line_for` gives, then its lines. The events' numbers are in the
/// range of names and dex; another has the line that `line_for` says.
pub fn log_entry_of(
    alloc: Global,
    names: &Names,
    dex: &Dex,
    entry: Entry<'_>,
) -> Result<LogEntry, AllocError>
    ensures { IfOk result (λ h. h ≡ log_entry_of names.now dex.now entry.entry.conn entry.entry.events.now entry.entry.lines.items
        entry.entry.join entry.entry.roles.now) }
{
    let lines = stored_of(alloc, names, dex, entry.events, entry.lines)?;
    let roles = entry.roles.to_vec(alloc)?;
    Ok(LogEntry {
        conn: entry.conn,
        lines,
        join: Joining::new(alloc, entry.join)?,
        roles: List::from_vec(roles),
    })
}

/// What a log holds of an entry that tells no event and gives no role: such is a refused one, and at first each of a room without
/// a battle (`SplitLog::give_roles`).
pub fn log_entry_of_lines(
    alloc: Global,
    conn: ConnNo,
    lines: Vec<ChatLine<Text>>,
    join: Option<Joined>,
) -> Result<LogEntry, AllocError>
    ensures { IfOk result (λ h. h ≡ log_entry_of_lines conn lines.items join) }
{
    let mut stored = Vec::with_capacity(alloc, lines.len())?;
    push_lines(&mut stored, lines)?;
    Ok(LogEntry {
        conn,
        lines: Lines::from_vec(stored),
        join: Joining::new(alloc, join)?,
        roles: List::from_vec(Vec::new(alloc)),
    })
}
