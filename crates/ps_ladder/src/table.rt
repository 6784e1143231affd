//! The searches by number, by user and by format.
ghost use Rattle.std.specs.Prelude.{◌≡◌, ℕ, ◌+◌, ◌++◌, ◌∷◌, [], List, IfOk, OnOk, OnErr, Some};
ghost use Rattle.std.specs.Option.{option_copied};
ghost use Rattle.hall_index.specs.Numbered.{item_at, items_of, without};
ghost use Rattle.hall_index.specs.IdIndices.{IsIndexed, numbers_at, with_number, without_number};
ghost use Rattle.hall_index.specs.Finds.{any_at, first_at, first_number, holds_if};
ghost use Rattle.ps_ladder.specs.Waiting.{has_user, is_for, suits, found, cancelled, without as without_found};
ghost use Rattle.ps_ladder.specs.Tables.{AreKept};

use crate::searches::{Search, has_user, is_for, suits};
use hall_index::id_index::IdIndex;
use hall_index::numbered::Numbered;
use ps_base::id::Id;
use std::alloc::{AllocError, Global};

/// The searches at their numbers, the next number, and the numbers by user and by format.
#[derive(Drop)]
pub(crate) struct Table {
    pub(crate) next: u64,
    pub(crate) waiting: Numbered<Search>,
    pub(crate) users: IdIndex,
    pub(crate) formats: IdIndex,
}

// ---- questions

fn has_user_at(waiting: &Numbered<Search>, number: u64, user: &Id) -> bool
    ensures { result ≡ holds_if (has_user user.now) (item_at number waiting.now) }
{
    match waiting.get(number) {
        None => false,
        Some(entry) => has_user(entry, user),
    }
}

fn is_for_at(waiting: &Numbered<Search>, number: u64, user: &Id, format: &Id) -> bool
    ensures { result ≡ holds_if (is_for user.now format.now) (item_at number waiting.now) }
{
    match waiting.get(number) {
        None => false,
        Some(entry) => is_for(entry, user, format),
    }
}

fn suits_at(waiting: &Numbered<Search>, number: u64, user: &Id, format: &Id, rating: i32) -> bool
    ensures { result ≡ holds_if (suits user.now format.now rating) (item_at number waiting.now) }
{
    match waiting.get(number) {
        None => false,
        Some(entry) => suits(entry, user, format, rating),
    }
}

/// Whether a search at one of these numbers is of a user.
pub(crate) fn any_of(waiting: &Numbered<Search>, numbers: &[u64], user: &Id) -> bool
    ensures { result ≡ any_at (has_user user.now) waiting.now numbers.now }
{
    for number in numbers {
        if has_user_at(waiting, *number, user) {
            return true;
        }
    }
    false
}

/// Whether a search at one of these numbers is of a user for a format.
pub(crate) fn any_for(waiting: &Numbered<Search>, numbers: &[u64], user: &Id, format: &Id) -> bool
    ensures { result ≡ any_at (is_for user.now format.now) waiting.now numbers.now }
{
    for number in numbers {
        if is_for_at(waiting, *number, user, format) {
            return true;
        }
    }
    false
}

// Of these numbers, the first at which a search suits a user who begins to search.
fn first_suiting(
    waiting: &Numbered<Search>,
    numbers: &[u64],
    user: &Id,
    format: &Id,
    rating: i32,
) -> Option<u64>
    ensures { result ≡ first_at (suits user.now format.now rating) waiting.now numbers.now }
{
    for number in numbers {
        if suits_at(waiting, *number, user, format, rating) {
            return Some(*number);
        }
    }
    None
}

// The first number of a user.
fn first_of(users: &IdIndex, user: &Id) -> Option<u64>
    ensures { result ≡ first_number (numbers_at users.now user.now) }
{
    match users.at(user.as_str()) {
        [] => None,
        [number, ..] => Some(*number),
    }
}

/// The search that a user at a rating would be matched with.
pub(crate) fn find<'a>(table: &'a Table, user: &Id, format: &Id, rating: i32) -> Option<&'a Search>
    requires { AreKept table.now }
    ensures { option_copied result ≡ found (items_of table.now.waiting) user.now format.now rating }
{
    let numbers = table.formats.at(format.as_str());
    match first_suiting(&table.waiting, numbers, user, format, rating) {
        None => None,
        Some(number) => table.waiting.get(number),
    }
}

// ---- who comes

// The number after this one. More searches than a `u64` counts are said to want memory.
fn number_after(number: u64) -> Result<u64, AllocError>
    ensures { IfOk result (λ n. n ≡ number + 1) }
{
    match number.checked_add(1) {
        None => Err(AllocError),
        Some(next) => Ok(next),
    }
}

// A format's number, where the user's is there already: where memory fails that is taken away.
fn add_format(
    alloc: Global,
    users: &mut IdIndex,
    formats: &mut IdIndex,
    search: &Search,
    number: u64,
) -> Result<(), AllocError>
    ensures users { OnOk result (users.new ≡ users.old) }
    ensures formats { OnOk result (formats.new ≡ with_number formats.old search.now.format number) }
    ensures undone { OnErr result (users.new ≡ without_number users.old search.now.user number) }
    ensures same { OnErr result (formats.new ≡ formats.old) }
{
    match formats.add(alloc, search.format.as_str(), number) {
        Err(end) => {
            users.remove(alloc, search.user.as_str(), number);
            Err(end)
        }
        Ok(()) => Ok(()),
    }
}

// A search's number at its user and at its format; where memory fails the indices find what they found.
fn add_ids(
    alloc: Global,
    users: &mut IdIndex,
    formats: &mut IdIndex,
    search: &Search,
    number: u64,
) -> Result<(), AllocError>
    ensures users { OnOk result (users.new ≡ with_number users.old search.now.user number) }
    ensures formats { OnOk result (formats.new ≡ with_number formats.old search.now.format number) }
    ensures undone { OnErr result ((es : List (ℕ × Search)) → IsIndexed has_user number es users.old
        → IsIndexed has_user number es users.new) }
    ensures same { OnErr result (formats.new ≡ formats.old) }
{
    users.add(alloc, search.user.as_str(), number)?;
    add_format(alloc, users, formats, search, number)
}

// The search that stands last, in the indices.
fn index_last(
    alloc: Global,
    users: &mut IdIndex,
    formats: &mut IdIndex,
    waiting: &Numbered<Search>,
    number: u64,
) -> Result<(), AllocError>
    ensures users { OnOk result ((s : Search) → item_at number waiting.now ≡ Some s → users.new ≡ with_number users.old s.user number) }
    ensures formats { OnOk result ((s : Search) → item_at number waiting.now ≡ Some s
        → formats.new ≡ with_number formats.old s.format number) }
    ensures undone { OnErr result ((es : List (ℕ × Search)) → IsIndexed has_user number es users.old
        → IsIndexed has_user number es users.new) }
    ensures same { OnErr result (formats.new ≡ formats.old) }
{
    match waiting.get(number) {
        None => Ok(()),
        Some(search) => add_ids(alloc, users, formats, search, number),
    }
}

/// Puts a search behind the others. Where memory fails none is added.
pub(crate) fn push(alloc: Global, table: &mut Table, search: Search) -> Result<(), AllocError>
    requires { AreKept table.old }
    ensures kept { AreKept table.new }
    ensures ok { OnOk result (items_of table.new.waiting ≡ items_of table.old.waiting ++ search ∷ []) }
    ensures err { OnErr result (items_of table.new.waiting ≡ items_of table.old.waiting) }
{
    let number = table.next;
    let next = number_after(number)?;
    table.waiting.append(number, search)?;
    match index_last(
        alloc,
        &mut table.users,
        &mut table.formats,
        &table.waiting,
        number,
    ) {
        Err(end) => {
            let _ = table.waiting.take(number);
            Err(end)
        }
        Ok(()) => {
            table.next = next;
            Ok(())
        }
    }
}

// ---- who goes

/// Takes out the search with a number, if it is there.
fn remove(alloc: Global, table: &mut Table, number: u64) -> Option<Search>
    requires { AreKept table.old }
    ensures kept { AreKept table.new }
    ensures value { result ≡ item_at number table.old.waiting }
    ensures after { table.new.waiting ≡ without number table.old.waiting }
{
    match table.waiting.take(number) {
        None => None,
        Some(search) => {
            table.users.remove(alloc, search.user.as_str(), number);
            table.formats.remove(alloc, search.format.as_str(), number);
            Some(search)
        }
    }
}

/// Takes out the search that a user at a rating is matched with.
pub(crate) fn take_found(
    alloc: Global,
    table: &mut Table,
    user: &Id,
    format: &Id,
    rating: i32,
) -> Option<Search>
    requires { AreKept table.old }
    ensures kept { AreKept table.new }
    ensures value { result ≡ found (items_of table.old.waiting) user.now format.now rating }
    ensures after { items_of table.new.waiting ≡ without_found (items_of table.old.waiting) user.now format.now rating }
{
    let numbers = table.formats.at(format.as_str());
    match first_suiting(&table.waiting, numbers, user, format, rating) {
        None => None,
        Some(number) => remove(alloc, table, number),
    }
}

// Takes out the search with one of a user's numbers.
fn end_at(alloc: Global, table: &mut Table, user: &Id, number: u64)
    requires { AreKept table.old }
    ensures kept { AreKept table.new }
    ensures waiting { table.new.waiting ≡ without number table.old.waiting }
    ensures users { table.new.users ≡ without_number table.old.users user.now number }
{
    table.users.remove(alloc, user.as_str(), number);
    match table.waiting.take(number) {
        None => {}
        Some(search) => table.formats.remove(alloc, search.format.as_str(), number),
    }
}

/// Takes out all searches of a user.
pub(crate) fn end_all(alloc: Global, table: &mut Table, user: &Id)
    requires { AreKept table.old }
    ensures kept { AreKept table.new }
    ensures after { items_of table.new.waiting ≡ cancelled (items_of table.old.waiting) user.now }
{
    while let Some(number) = first_of(&table.users, user) {
        end_at(alloc, table, user, number);
    }
}
