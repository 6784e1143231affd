//! Teams that are kept with searches, by number and by user.
ghost use Rattle.std.specs.Prelude.{◌≡◌, ℕ, ◌+◌, ◌++◌, ◌∷◌, [], List, IfOk, OnOk, OnErr, Some};
ghost use Rattle.std.specs.Option.{option_copied};
ghost use Rattle.hall_index.specs.Numbered.{item_at, items_of, without};
ghost use Rattle.hall_index.specs.IdIndices.{IsIndexed, numbers_at, with_number, without_number};
ghost use Rattle.hall_index.specs.Finds.{first_at, first_number, holds_if};
ghost use Rattle.ps_base.specs.Ids.{id_of};
ghost use Rattle.ps_hall.specs.Lookups.{is_kept, is_kept_of, kept_team, without_kept, without_user};
ghost use Rattle.ps_hall.specs.SearchTeams.{AreNumbered};

use crate::kept::{KeptTeam, is_kept};
use hall_index::id_index::IdIndex;
use hall_index::numbered::Numbered;
use ps_base::id::Id;
use ps_ladder::searches::{Search, Searches};
use std::alloc::{AllocError, Global};
use std::marker::Model;

// The teams at their numbers, the next number, and the numbers by user.
struct Table {
    next: u64,
    teams: Numbered<KeptTeam>,
    users: IdIndex,
}

// By hand, so that who drops one has one call to prove.
impl Drop for Table {
    fn drop(self) {
        let Table {
            next: _,
            teams: _,
            users: _,
        } = self;
    }
}

/// The teams that are kept with searches, in order of search: a call costs what the teams of one user do, and the logarithm of
/// how many there are. Contracts see the list.
#[derive(Drop)]
pub(crate) struct SearchTeams {
    table: Table,
}

impl Model for SearchTeams {
    ghost use Rattle.std.specs.Prelude.{List};
    ghost use Rattle.hall_index.specs.Numbered.{items_of};
    ghost use Rattle.ps_hall.specs.declared.kept.KeptTeam.{KeptTeam};
    ghost use Rattle.ps_hall.specs.SearchTeams.{AreNumbered};

    ghost Value = { List KeptTeam };

    ghost view = { λ s. items_of s.table.teams };

    ghost invariant = { λ s. AreNumbered s.table };
}

// ---- questions

fn is_kept_at(teams: &Numbered<KeptTeam>, number: u64, user: &Id, with_id: &Id) -> bool
    ensures { result ≡ holds_if (is_kept user.now with_id.now) (item_at number teams.now) }
{
    match teams.get(number) {
        None => false,
        Some(kept) => is_kept(kept, user, with_id),
    }
}

// Of these numbers, the first of a team of a user that was kept with an id.
fn first_kept(teams: &Numbered<KeptTeam>, numbers: &[u64], user: &Id, with_id: &Id) -> Option<u64>
    ensures { result ≡ first_at (is_kept user.now with_id.now) teams.now numbers.now }
{
    for number in numbers {
        if is_kept_at(teams, *number, user, with_id) {
            return Some(*number);
        }
    }
    None
}

// The first number of a user.
fn first_of(users: &IdIndex, user: &Id) -> Option<u64>
    ensures { result ≡ first_number (numbers_at users.now user.now) }
{
    match users.at(user.as_str()) {
        [] => None,
        [number, ..] => Some(*number),
    }
}

fn find<'a>(table: &'a Table, user: &Id, with_id: &Id) -> Option<&'a KeptTeam>
    requires { AreNumbered table.now }
    ensures { option_copied result ≡ kept_team user.now with_id.now (items_of table.now.teams) }
{
    let numbers = table.users.at(user.as_str());
    match first_kept(&table.teams, numbers, user, with_id) {
        None => None,
        Some(number) => table.teams.get(number),
    }
}

// ---- what comes

// The number after this one. More teams than a `u64` counts are said to want memory.
fn number_after(number: u64) -> Result<u64, AllocError>
    ensures { IfOk result (λ n. n ≡ number + 1) }
{
    match number.checked_add(1) {
        None => Err(AllocError),
        Some(next) => Ok(next),
    }
}

// The team that stands last, at its user.
fn index_last(
    alloc: Global,
    users: &mut IdIndex,
    teams: &Numbered<KeptTeam>,
    number: u64,
) -> Result<(), AllocError>
    ensures ok { OnOk result ((k : KeptTeam) → item_at number teams.now ≡ Some k
        → users.new ≡ with_number users.old (id_of k.name) number) }
    ensures err { OnErr result (users.new ≡ users.old) }
{
    match teams.get(number) {
        None => Ok(()),
        Some(kept) => users.add(alloc, kept.name.id().as_str(), number),
    }
}

// Puts a team behind the others.
fn push(alloc: Global, table: &mut Table, kept: KeptTeam) -> Result<(), AllocError>
    requires { AreNumbered table.old }
    ensures kept { AreNumbered table.new }
    ensures ok { OnOk result (table.new.teams ≡ table.old.teams ++ (table.old.next, kept) ∷ []) }
    ensures err { OnErr result (items_of table.new.teams ≡ items_of table.old.teams) }
{
    let number = table.next;
    let next = number_after(number)?;
    table.teams.append(number, kept)?;
    match index_last(alloc, &mut table.users, &table.teams, number) {
        Err(end) => {
            let _ = table.teams.take(number);
            Err(end)
        }
        Ok(()) => {
            table.next = next;
            Ok(())
        }
    }
}

// ---- what goes

// Takes out the team with one of a user's numbers.
fn remove(alloc: Global, table: &mut Table, user: &Id, number: u64)
    requires { AreNumbered table.old }
    ensures kept { AreNumbered table.new }
    ensures teams { table.new.teams ≡ without number table.old.teams }
    ensures users { table.new.users ≡ without_number table.old.users user.now number }
{
    table.users.remove(alloc, user.as_str(), number);
    let _ = table.teams.take(number);
}

// Takes out the team with a number.
fn undo(alloc: Global, table: &mut Table, number: u64)
    requires { AreNumbered table.old }
    ensures kept { AreNumbered table.new }
    ensures teams { table.new.teams ≡ without number table.old.teams }
{
    match table.teams.take(number) {
        None => {}
        Some(kept) => table.users.remove(alloc, kept.name.id().as_str(), number),
    }
}

// A user waits, with the team of this moment.
fn wait(
    alloc: Global,
    table: &mut Table,
    searches: &mut Searches,
    kept: KeptTeam,
    search: Search,
) -> Result<(), AllocError>
    requires { AreNumbered table.old }
    ensures kept { AreNumbered table.new }
    ensures teams { OnOk result (items_of table.new.teams ≡ items_of table.old.teams ++ kept ∷ []) }
    ensures searches { OnOk result (searches.new ≡ searches.old ++ search ∷ []) }
    ensures err { OnErr result ((items_of table.new.teams ≡ items_of table.old.teams) × (searches.new ≡ searches.old)) }
{
    let number = table.next;
    push(alloc, table, kept)?;
    match searches.wait(alloc, search) {
        Err(end) => {
            undo(alloc, table, number);
            Err(end)
        }
        Ok(()) => Ok(()),
    }
}

// Takes out the first team of a user that was kept with an id.
fn drop_kept(alloc: Global, table: &mut Table, user: &Id, with_id: &Id)
    requires { AreNumbered table.old }
    ensures kept { AreNumbered table.new }
    ensures after { items_of table.new.teams ≡ without_kept user.now with_id.now (items_of table.old.teams) }
{
    let numbers = table.users.at(user.as_str());
    match first_kept(&table.teams, numbers, user, with_id) {
        None => {}
        Some(number) => remove(alloc, table, user, number),
    }
}

// Takes out all teams of a user.
fn drop_user(alloc: Global, table: &mut Table, user: &Id)
    requires { AreNumbered table.old }
    ensures kept { AreNumbered table.new }
    ensures after { items_of table.new.teams ≡ without_user user.now (items_of table.old.teams) }
{
    while let Some(number) = first_of(&table.users, user) {
        remove(alloc, table, user, number);
    }
}

impl SearchTeams {
    /// No team is kept. Takes no memory.
    pub(crate) fn new(alloc: Global) -> SearchTeams
        ensures { result ≡ [] }
    {
        SearchTeams {
            table: Table {
                next: 0,
                teams: Numbered::new(alloc),
                users: IdIndex::new(alloc),
            },
        }
    }

    /// The first team of a user that was kept with an id. Takes no memory.
    pub(crate) fn find(&self, user: &Id, with_id: &Id) -> Option<&KeptTeam>
        ensures { option_copied result ≡ kept_team user.now with_id.now self.now }
    {
        find(&self.table, user, with_id)
    }

    /// A user waits, with the team of this moment. Where memory fails nothing changes.
    pub(crate) fn wait(
        &mut self,
        alloc: Global,
        searches: &mut Searches,
        kept: KeptTeam,
        search: Search,
    ) -> Result<(), AllocError>
        ensures teams { OnOk result (self.new ≡ self.old ++ kept ∷ []) }
        ensures searches { OnOk result (searches.new ≡ searches.old ++ search ∷ []) }
        ensures err { OnErr result ((self.new ≡ self.old) × (searches.new ≡ searches.old)) }
    {
        wait(alloc, &mut self.table, searches, kept, search)
    }

    /// Drops the first team of a user that was kept with an id. Takes no memory.
    pub(crate) fn drop_kept(&mut self, alloc: Global, user: &Id, with_id: &Id)
        ensures { self.new ≡ without_kept user.now with_id.now self.old }
    {
        drop_kept(alloc, &mut self.table, user, with_id);
    }

    /// Drops the teams of a user. Takes no memory.
    pub(crate) fn drop_user(&mut self, alloc: Global, user: &Id)
        ensures { self.new ≡ without_user user.now self.old }
    {
        drop_user(alloc, &mut self.table, user);
    }
}
