//! A log that forgets what all have read.
ghost use Rattle.std.specs.Prelude.{◌≡◌, ◌≤◌, ◌<◌, ◌+◌, ◌-◌, ◌++◌, ◌∷◌, [], take, drop, length, IfOk, OnOk, OnErr};
ghost use Rattle.std.specs.List.{filter};
ghost use Rattle.std.specs.Option.{option_to_list};
ghost use Rattle.std.specs.VecDeque.{deque_len, deque_capacity};
ghost use Rattle.ps_splitlog.specs.Lines.{is_logged_line, shown_lines};
ghost use Rattle.ps_splitlog.specs.Entries.{last_of, logged_lines, message_of};
ghost use Rattle.ps_splitlog.specs.Shorts.{fewer, first_of, skipped_of};

use crate::backlog::BacklogSize;
use crate::entry::{Joined, LogEntry};
use crate::read::{join_for, push_shown, push_tail, shown_of};
use crate::stored::{Stored, is_logged_line};
use ps_base::list::List;
use ps_base::number::ConnNo;
use ps_base::text::{Text, push_copies};
use ps_view::role::Role;
use std::alloc::{AllocError, Global};
use std::collections::VecDeque;
use std::marker::Model;

/// A log that forgets its first entries, when it is told to. Of these it keeps the logged lines alone, the last so many or all: who
/// joins is sent them. So it takes the memory of what may still be shown, and not that of all that was told. `SplitLog` keeps every
/// entry, for a cursor that stands anywhere.
pub struct ShortLog {
    most: BacklogSize,
    backlog: VecDeque<Stored>,
    kept: VecDeque<LogEntry>,
    gone: usize,
}

// By hand, so that who drops one has one call to prove.
impl Drop for ShortLog {
    fn drop(self) {
        let ShortLog {
            most: _,
            backlog: _,
            kept: _,
            gone: _,
        } = self;
    }
}

impl Model for ShortLog {
    ghost use Rattle.ps_splitlog.specs.Shorts.{Short};

    ghost Value = { Short };

    ghost view = { λ l. record { most = l.most; backlog = l.backlog.items; kept = l.kept.items; gone = l.gone } };
}

// ---- what is forgotten

// Puts a line at the end, if it is logged. There is room for it.
fn push_logged(backlog: &mut VecDeque<Stored>, line: Stored)
    requires { deque_len backlog.old < deque_capacity backlog.old }
    ensures items { backlog.new.items ≡ backlog.old.items ++ filter is_logged_line (line ∷ []) }
    ensures len { deque_len backlog.new ≤ deque_len backlog.old + 1 }
    ensures capacity { deque_capacity backlog.new ≡ deque_capacity backlog.old }
{
    if is_logged_line(&line) {
        backlog.push_back(line).unwrap();
    }
}

// Puts those of these lines at the end that are logged. There is room for all.
fn push_all_logged(backlog: &mut VecDeque<Stored>, lines: Vec<Stored>)
    requires { deque_len backlog.old + length lines.items ≤ deque_capacity backlog.old }
    ensures { backlog.new.items ≡ backlog.old.items ++ filter is_logged_line lines.items }
{
    for line in lines {
        push_logged(backlog, line);
    }
}

// Leaves the last lines, as many as a size says.
fn leave_last(backlog: &mut VecDeque<Stored>, most: BacklogSize)
    ensures { backlog.new.items ≡ last_of most backlog.old.items }
{
    match most {
        BacklogSize::All => {}
        BacklogSize::Last(count) => {
            let extra = backlog.len().saturating_sub(count as usize);
            drop_first(backlog, extra);
        }
    }
}

fn drop_first(backlog: &mut VecDeque<Stored>, count: usize)
    ensures { backlog.new.items ≡ drop count backlog.old.items }
{
    for _i in 0..count {
        backlog.pop_front();
    }
}

// ---- what who joins is sent

fn fewer(size: BacklogSize, most: BacklogSize) -> BacklogSize
    ensures { result ≡ fewer size most }
{
    match size {
        BacklogSize::All => most,
        BacklogSize::Last(count) => match most {
            BacklogSize::All => BacklogSize::Last(count),
            BacklogSize::Last(limit) => BacklogSize::Last(if count < limit {
                count
            } else {
                limit
            }),
        },
    }
}

fn first_of(size: BacklogSize, many: usize, more: usize) -> usize
    ensures { result ≡ first_of size many more }
{
    match size {
        BacklogSize::All => 0,
        BacklogSize::Last(count) => many.saturating_sub((count as usize).saturating_sub(more)),
    }
}

fn skipped_of(size: BacklogSize, more: usize) -> usize
    ensures { result ≡ skipped_of size more }
{
    match size {
        BacklogSize::All => 0,
        BacklogSize::Last(count) => more.saturating_sub(count as usize),
    }
}

// How many of these lines are logged.
fn logged_count(lines: &[Stored]) -> usize
    ensures { result ≡ length (filter is_logged_line lines.now) }
{
    let mut count = 0;
    for i in 0..lines.len() {
        if is_logged_line(&lines[i]) {
            count += 1;
        }
    }
    count
}

// The same of the first so many entries. More than a count can be are out of memory.
fn logged_count_of(kept: &VecDeque<LogEntry>, upto: usize) -> Result<usize, AllocError>
    requires { upto ≤ deque_len kept.now }
    ensures { IfOk result (λ n. n ≡ length (logged_lines (take upto kept.now.items))) }
{
    let mut count: usize = 0;
    for i in 0..upto {
        match count.checked_add(logged_count(kept[i].lines.as_slice())) {
            None => return Err(AllocError),
            Some(next) => {
                count = next;
            }
        }
    }
    Ok(count)
}

// Puts what is shown of these lines from an index on behind the others.
fn push_shown_from(
    alloc: Global,
    texts: &mut Vec<Text>,
    conn: ConnNo,
    role: Role,
    lines: &VecDeque<Stored>,
    from: usize,
) -> Result<(), AllocError>
    ensures { OnOk result (texts.new.items ≡ texts.old.items ++ shown_lines conn role (drop from lines.now.items)) }
{
    for i in from..lines.len() {
        push_shown(alloc, texts, conn, role, &lines[i])?;
    }
    Ok(())
}

// Puts what is shown of a line behind the others, if it is logged and none is to be skipped. Gives how many are to be skipped
// after it.
fn push_or_skip(
    alloc: Global,
    texts: &mut Vec<Text>,
    conn: ConnNo,
    role: Role,
    line: &Stored,
    skip: usize,
) -> Result<usize, AllocError>
    ensures text { OnOk result (texts.new.items ≡ texts.old.items
        ++ shown_lines conn role (drop skip (filter is_logged_line (line.now ∷ [])))) }
    ensures left { IfOk result (λ left. left ≡ skip - length (filter is_logged_line (line.now ∷ []))) }
{
    if !is_logged_line(line) {
        return Ok(skip);
    }
    if skip > 0 {
        return Ok(skip - 1);
    }
    push_shown(alloc, texts, conn, role, line)?;
    Ok(0)
}

// The same of several.
fn push_past(
    alloc: Global,
    texts: &mut Vec<Text>,
    conn: ConnNo,
    role: Role,
    lines: &[Stored],
    skip: usize,
) -> Result<usize, AllocError>
    ensures text { OnOk result (texts.new.items ≡ texts.old.items ++ shown_lines conn role (drop skip (filter is_logged_line lines.now))) }
    ensures left { IfOk result (λ left. left ≡ skip - length (filter is_logged_line lines.now)) }
{
    let mut left = skip;
    for i in 0..lines.len() {
        left = push_or_skip(alloc, texts, conn, role, &lines[i], left)?;
    }
    Ok(left)
}

// The same of the first so many entries.
fn push_all_past(
    alloc: Global,
    texts: &mut Vec<Text>,
    conn: ConnNo,
    role: Role,
    kept: &VecDeque<LogEntry>,
    upto: usize,
    skip: usize,
) -> Result<(), AllocError>
    requires { upto ≤ deque_len kept.now }
    ensures { OnOk result (texts.new.items ≡ texts.old.items
        ++ shown_lines conn role (drop skip (logged_lines (take upto kept.now.items)))) }
{
    let mut left = skip;
    for i in 0..upto {
        left = push_past(alloc, texts, conn, role, kept[i].lines.as_slice(), left)?;
    }
    Ok(())
}

// Puts what is shown of the last lines, as many as a size says, behind the others: of the backlog, and of the first so many
// entries.
#[tactic(auto, using(crate::proofs::ShortLemmas::recent))]
fn push_recent(
    alloc: Global,
    texts: &mut Vec<Text>,
    conn: ConnNo,
    role: Role,
    size: BacklogSize,
    backlog: &VecDeque<Stored>,
    kept: &VecDeque<LogEntry>,
    upto: usize,
) -> Result<(), AllocError>
    requires { upto ≤ deque_len kept.now }
    ensures { OnOk result (texts.new.items ≡ texts.old.items
        ++ shown_lines conn role (last_of size (backlog.now.items ++ logged_lines (take upto kept.now.items)))) }
{
    let more = logged_count_of(kept, upto)?;
    let from = first_of(size, backlog.len(), more);
    push_shown_from(alloc, texts, conn, role, backlog, from)?;
    push_all_past(alloc, texts, conn, role, kept, upto, skipped_of(size, more))?;
    Ok(())
}

// What who joins is sent, where so many lines were logged.
fn init(
    alloc: Global,
    conn: ConnNo,
    joined: &Joined,
    size: BacklogSize,
    backlog: &VecDeque<Stored>,
    kept: &VecDeque<LogEntry>,
    upto: usize,
) -> Result<List<Text>, AllocError>
    requires { upto ≤ deque_len kept.now }
    ensures { IfOk result (λ v. v ≡ joined.now.head
        ++ shown_lines conn joined.now.role (last_of size (backlog.now.items ++ logged_lines (take upto kept.now.items)))
        ++ option_to_list joined.now.tail) }
{
    let mut texts = Vec::new(alloc);
    push_copies(alloc, &mut texts, joined.head.as_slice())?;
    push_recent(
        alloc,
        &mut texts,
        conn,
        joined.role,
        size,
        backlog,
        kept,
        upto,
    )?;
    push_tail(alloc, &mut texts, &joined.tail)?;
    Ok(List::from_vec(texts))
}

// What a connection in this role is sent at an entry that comes behind the first so many entries that are kept.
#[tactic(auto, using(crate::proofs::ShortLemmas::last_of_last))]
fn message_behind(
    alloc: Global,
    most: BacklogSize,
    backlog: &VecDeque<Stored>,
    kept: &VecDeque<LogEntry>,
    upto: usize,
    conn: ConnNo,
    role: Role,
    log_entry: &LogEntry,
) -> Result<List<Text>, AllocError>
    requires { upto ≤ deque_len kept.now }
    ensures { IfOk result (λ v. v ≡ message_of conn role (last_of most (backlog.now.items ++ logged_lines (take upto kept.now.items)))
        log_entry.now) }
{
    match join_for(conn, log_entry) {
        None => shown_of(alloc, conn, role, log_entry.lines.as_slice()),
        Some(joined) => init(
            alloc,
            conn,
            joined,
            fewer(BacklogSize::of_keep(joined.keep), most),
            backlog,
            kept,
            upto,
        ),
    }
}

impl ShortLog {
    ghost use Rattle.ps_splitlog.specs.Shorts.{started, with_entry, taken_back, forgotten, lines_of};

    /// A log with no entry. Of the logged lines of what it forgets it keeps as many of the last as `most` says. Takes no memory.
    pub fn new(alloc: Global, most: BacklogSize) -> ShortLog
        ensures { result ≡ started most }
    {
        ShortLog {
            most,
            backlog: VecDeque::new(alloc),
            kept: VecDeque::new(alloc),
            gone: 0,
        }
    }

    /// Puts an entry at the end. Where memory fails nothing changes.
    pub fn push(&mut self, log_entry: LogEntry) -> Result<(), AllocError>
        ensures ok { OnOk result (self.new ≡ with_entry log_entry self.old) }
        ensures err { OnErr result (self.new ≡ self.old) }
    {
        self.kept.push_back(log_entry)?;
        Ok(())
    }

    /// Takes the last entry back, if there is one that isn't forgotten: for who changes something of its own with the log, where
    /// that fails. Takes no memory.
    pub fn take_back(&mut self)
        ensures { self.new ≡ taken_back self.old }
    {
        self.kept.pop_back();
    }

    /// Forgets the first entry that isn't forgotten, if there is one, but for its logged lines. Fails where memory does, and nothing
    /// changes then.
    pub fn forget_first(&mut self) -> Result<(), AllocError>
        ensures ok { OnOk result (self.new ≡ forgotten self.old) }
        ensures err { OnErr result (self.new ≡ self.old) }
    {
        let gone = match self.gone.checked_add(1) {
            None => return Err(AllocError),
            Some(gone) => gone,
        };
        let count = match self.kept.front() {
            None => return Ok(()),
            Some(log_entry) => log_entry.lines.as_slice().len(),
        };
        self.backlog.reserve(count)?;
        match self.kept.pop_front() {
            None => Ok(()),
            Some(log_entry) => {
                push_all_logged(&mut self.backlog, log_entry.lines.into_vec());
                leave_last(&mut self.backlog, self.most);
                self.gone = gone;
                Ok(())
            }
        }
    }

    /// What a connection in this role is sent at an entry that comes next, of which this will be logged. Who joins is sent no more
    /// lines than are kept.
    pub fn message_next(
        &self,
        alloc: Global,
        conn: ConnNo,
        role: Role,
        log_entry: &LogEntry,
    ) -> Result<List<Text>, AllocError>
        ensures { IfOk result (λ v. v ≡ message_of conn role (lines_of self.now) log_entry.now) }
    {
        message_behind(
            alloc,
            self.most,
            &self.backlog,
            &self.kept,
            self.kept.len(),
            conn,
            role,
            log_entry,
        )
    }
}
