//! Who waits for a rated battle.
ghost use Rattle.std.specs.Prelude.{◌≡◌, ◌++◌, ◌∷◌, OnOk, OnErr, IfOk, IfErr, Some, false, [], map};
ghost use Rattle.std.specs.List.{list_any, filter};
ghost use Rattle.std.specs.Option.{option_copied};
ghost use Rattle.ps_ladder.specs.Waiting.{has_user, is_for, is_near, suits, waits, found, without, added, answer, cancelled, IsAddFault};
ghost use Rattle.ps_ladder.specs.Tables.{AreKept};
ghost use Rattle.hall_index.specs.Numbered.{items_of};
ghost use Rattle.ps_ladder.specs.declared.searches.AddFault.TheVariants.{NoMemory};

use crate::gain::distance;
use crate::table::{Table, any_for, any_of, end_all, find, push, take_found};
use hall_index::id_index::IdIndex;
use hall_index::numbered::Numbered;
use ps_base::id::Id;
use std::alloc::{AllocError, Global};
use std::marker::Model;
use thiserror::Error;

/// One user's search for a rated battle of a format, with the rating of its moment.
#[derive(Debug, Drop)]
pub struct Search {
    /// Who searches.
    pub user: Id,
    /// The format's id.
    pub format: Id,
    /// The user's rating when it searched.
    pub rating: i32,
}

/// What who searches learns.
#[derive(Debug, Drop)]
pub enum Found {
    /// This user waited for that format and is matched, at the rating of its search.
    Matched { user: Id, rating: i32 },
    /// Nobody suits: the user waits.
    Waiting,
}

/// Why a search isn't taken.
#[derive(Clone, Copy, Debug, PartialEq, Eq, Error)]
pub enum AddFault {
    /// The user waits for that format already.
    #[error("the user waits for that format already")]
    Already,
    /// Out of memory.
    #[error("no memory")]
    NoMemory,
}

impl From<AllocError> for AddFault {
    ghost from_gives = { λ _ e. e ≡ NoMemory };

    fn from(_e: AllocError) -> AddFault {
        AddFault::NoMemory
    }
}

/// The searches, in order of search, found by user and by format: a call costs what the searches of one user or of one format
/// do, and the logarithm of how many there are. Contracts see the list.
pub struct Searches {
    table: Table,
}

// By hand, so that who drops one has one call to prove.
impl Drop for Searches {
    fn drop(self) {
        let Searches { table: _ } = self;
    }
}

impl Model for Searches {
    ghost use Rattle.std.specs.Prelude.{List};
    ghost use Rattle.hall_index.specs.Numbered.{items_of};
    ghost use Rattle.ps_ladder.specs.declared.searches.Search.{Search};
    ghost use Rattle.ps_ladder.specs.Tables.{AreKept};

    ghost Value = { List Search };

    ghost view = { λ s. items_of s.table.waiting };

    ghost invariant = { λ s. AreKept s.table };
}

/// Whether a search is of this user.
pub fn has_user(entry: &Search, user: &Id) -> bool
    ensures { result ≡ has_user user.now entry.now }
{
    entry.user.as_str() == user.as_str()
}

/// Whether a search is of this user for this format.
pub(crate) fn is_for(entry: &Search, user: &Id, format: &Id) -> bool
    ensures { result ≡ is_for user.now format.now entry.now }
{
    has_user(entry, user) && entry.format.as_str() == format.as_str()
}

/// How many points apart two ratings may be that are near.
pub const REACH: u32 = 300;

/// Whether two ratings are near: at most `REACH` points apart.
fn is_near(one: i32, two: i32) -> bool
    ensures { result ≡ is_near one two }
{
    distance(one, two) <= REACH
}

/// Whether a search suits a user who begins to search: another user's, in the same format, near in rating.
pub fn suits(entry: &Search, user: &Id, format: &Id, rating: i32) -> bool
    ensures { result ≡ suits user.now format.now rating entry.now }
{
    !has_user(entry, user)
        && entry.format.as_str() == format.as_str()
        && is_near(entry.rating, rating)
}

fn new_search(alloc: Global, user: &Id, format: &Id, rating: i32) -> Result<Search, AllocError>
    ensures { IfOk result (λ s. s ≡ record { user = user.now; format = format.now; rating = rating }) }
{
    Ok(Search {
        user: user.copy(alloc)?,
        format: format.copy(alloc)?,
        rating,
    })
}

// A search that is matched.
fn matched(other: Search) -> Found
    ensures { result ≡ answer (Some other) }
{
    Found::Matched {
        user: other.user,
        rating: other.rating,
    }
}

// A user who doesn't wait for the format is matched or waits.
fn add_new(
    alloc: Global,
    table: &mut Table,
    user: &Id,
    format: &Id,
    rating: i32,
) -> Result<Found, AllocError>
    requires { AreKept table.old }
    ensures kept { AreKept table.new }
    ensures found { IfOk result (λ f. f ≡ answer (found (items_of table.old.waiting) user.now format.now rating)) }
    ensures added { OnOk result (items_of table.new.waiting ≡ added (items_of table.old.waiting) user.now format.now rating) }
    ensures err { OnErr result (items_of table.new.waiting ≡ items_of table.old.waiting) }
{
    match take_found(alloc, table, user, format, rating) {
        None => {
            let entry = new_search(alloc, user, format, rating)?;
            push(alloc, table, entry)?;
            Ok(Found::Waiting)
        }
        Some(other) => Ok(matched(other)),
    }
}

impl Searches {
    /// Nobody searches. Takes no memory.
    pub fn new(alloc: Global) -> Searches
        ensures { result ≡ [] }
    {
        Searches {
            table: Table {
                next: 0,
                waiting: Numbered::new(alloc),
                users: IdIndex::new(alloc),
                formats: IdIndex::new(alloc),
            },
        }
    }

    /// The searches of a user, in order of search.
    pub fn of(&self, alloc: Global, user: &Id) -> Result<Vec<&Search>, AllocError>
        ensures { IfOk result (λ v. map (λ x. x.now) v.items ≡ filter (has_user user.now) self.now) }
    {
        let numbers = self.table.users.at(user.as_str());
        let found = self.table.waiting.items_at(alloc, numbers)?;
        Ok(found)
    }

    /// Whether a user waits for a format.
    pub fn is_waiting(&self, user: &Id, format: &Id) -> bool
        ensures { result ≡ waits self.now user.now format.now }
    {
        let numbers = self.table.users.at(user.as_str());
        any_for(&self.table.waiting, numbers, user, format)
    }

    /// Whether a user waits for any format. Takes no memory.
    pub fn has(&self, user: &Id) -> bool
        ensures { result ≡ list_any (has_user user.now) self.now }
    {
        let numbers = self.table.users.at(user.as_str());
        any_of(&self.table.waiting, numbers, user)
    }

    /// The search that a user at a rating would be matched with: the one that has waited longest of those of others for the
    /// format at a near rating. `None` exactly where there is none. Takes no memory.
    pub fn find(&self, user: &Id, format: &Id, rating: i32) -> Option<&Search>
        ensures { option_copied result ≡ found self.now user.now format.now rating }
    {
        find(&self.table, user, format, rating)
    }

    /// A user at a rating searches for a battle of a format.
    ///
    /// `Matched` exactly where another waits for the format at a near rating: of these the one that has waited longest,
    /// which waits no more. `Waiting` otherwise. `AddFault::Already` exactly where the user waits for the format. At a
    /// fault nothing changes.
    pub fn add(
        &mut self,
        alloc: Global,
        user: &Id,
        format: &Id,
        rating: i32,
    ) -> Result<Found, AddFault>
        ensures found { IfOk result (λ f. f ≡ answer (found self.old user.now format.now rating)) }
        ensures added { OnOk result (self.new ≡ added self.old user.now format.now rating) }
        ensures fresh { OnOk result (waits self.old user.now format.now ≡ false) }
        ensures fault { IfErr result (IsAddFault (waits self.old user.now format.now)) }
        ensures err { OnErr result (self.new ≡ self.old) }
    {
        if self.is_waiting(user, format) {
            return Err(AddFault::Already);
        }
        let found = add_new(alloc, &mut self.table, user, format, rating)?;
        Ok(found)
    }

    /// Who is matched with nobody waits, behind the others. Where memory fails nothing changes.
    pub fn wait(&mut self, alloc: Global, search: Search) -> Result<(), AllocError>
        ensures ok { OnOk result (self.new ≡ self.old ++ search ∷ []) }
        ensures err { OnErr result (self.new ≡ self.old) }
    {
        push(alloc, &mut self.table, search)
    }

    /// Who a user at a rating is matched with waits no more: the search that `find` gives. Takes no memory.
    pub fn take(&mut self, alloc: Global, user: &Id, format: &Id, rating: i32)
        ensures { self.new ≡ without self.old user.now format.now rating }
    {
        let _ = take_found(alloc, &mut self.table, user, format, rating);
    }

    /// All searches of a user go; `false` exactly where there was none. Takes no memory.
    pub fn cancel(&mut self, alloc: Global, user: &Id) -> bool
        ensures value { result ≡ list_any (has_user user.now) self.old }
        ensures after { self.new ≡ cancelled self.old user.now }
    {
        let found = self.has(user);
        end_all(alloc, &mut self.table, user);
        found
    }
}
