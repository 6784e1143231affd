//! How many texts were given to each room.
ghost use Rattle.std.specs.Prelude.{◌≡◌, ◌<◌, ◌+◌, ◌^◌, None, Some, IsTrue, OnOk, OnErr};
ghost use Rattle.std.specs.FinMap.{get, insert};
ghost use Rattle.ps_session.specs.Counts.{no_counts, count_in, raised, joined_with, joined_left, without_last};
ghost use Rattle.ps_session.specs.Kept.{with_risen, joined_without, last_id, risen_to};

use ps_base::id_map::IdMap;
use ps_base::text::Text;
use std::alloc::{AllocError, Global};
use std::marker::Model;

/// A count that rose by one: the room's id, and the count since then.
#[derive(Drop)]
pub(crate) struct Risen {
    pub(crate) id: Text,
    pub(crate) count: u32,
}

/// How many texts were given to each room, of which the last can be taken back without memory: its count isn't
/// in the map yet.
pub(crate) struct RoomCounts {
    settled: IdMap<u32>,
    joined: u32,
    last: Option<Risen>,
}

// By hand, so that who drops one has one call to prove.
impl Drop for RoomCounts {
    fn drop(self) {
        let RoomCounts {
            settled: _,
            joined: _,
            last: _,
        } = self;
    }
}

impl Model for RoomCounts {
    ghost use Rattle.std.specs.Coded.{codes, coded_ℕ};
    ghost use Rattle.ps_base.specs.ById.{by_id_code};
    ghost use Rattle.ps_session.specs.Counts.{Counts};
    ghost use Rattle.ps_session.specs.Kept.{counts_of, IsLast, HasNoZero};

    ghost Value = { Counts };

    ghost coded = { Prim.hlevel (codes, by_id_code coded_ℕ) };

    ghost view = { λ c. counts_of c.settled c.joined c.last };

    ghost invariant = { λ c. HasNoZero c.settled × IsLast c.settled c.last };
}

// Puts a count into the map. A room that is there already needs no memory. Where memory fails nothing changes.
fn set(alloc: Global, settled: &mut IdMap<u32>, id: &str, count: u32) -> Result<(), AllocError>
    ensures ok { OnOk result (settled.new ≡ insert settled.old id.now count) }
    ensures err { OnErr result (settled.new ≡ settled.old) }
{
    match settled.replace(id, count) {
        Some(_) => Ok(()),
        None => settled.insert(alloc, id, count),
    }
}

/// Puts the count that rose last into the map. Where memory fails nothing changes.
fn settle(alloc: Global, settled: &mut IdMap<u32>, last: &Option<Risen>) -> Result<(), AllocError>
    ensures ok { OnOk result (settled.new ≡ with_risen last.now settled.old) }
    ensures err { OnErr result (settled.new ≡ settled.old) }
{
    match last {
        None => Ok(()),
        Some(risen) => set(alloc, settled, risen.id.as_str(), risen.count),
    }
}

// Whether the count that rose last is that of this room.
fn is_last(last: &Option<Risen>, id: &str) -> bool
    ensures { IsTrue result → last_id last.now ≡ Some id.now }
{
    match last {
        None => false,
        Some(risen) => risen.id.as_str() == id,
    }
}

// Gives the count that rose last another value.
fn raise(last: &mut Option<Risen>, count: u32)
    ensures { last.new ≡ risen_to count last.old }
{
    if let Some(risen) = last {
        risen.count = count;
    }
}

fn joined_with(so_far: Option<u32>, joined: u32) -> u32
    requires { so_far ≡ None → joined + 1 < 2 ^ 32 }
    ensures { result ≡ joined_with so_far joined }
{
    match so_far {
        None => joined + 1,
        Some(_) => joined,
    }
}

fn joined_left(count: u32, joined: u32) -> u32
    ensures { result ≡ joined_left count joined }
{
    if count == 0 {
        joined.saturating_sub(1)
    } else {
        joined
    }
}

// How many rooms have a text once the last is taken back.
fn joined_without(last: &Option<Risen>, joined: u32) -> u32
    ensures { result ≡ joined_without last.now joined }
{
    match last {
        None => joined,
        Some(risen) => joined_left(risen.count.saturating_sub(1), joined),
    }
}

impl RoomCounts {
    /// No texts. Takes no memory.
    pub(crate) fn new(alloc: Global) -> RoomCounts
        ensures { result ≡ no_counts }
    {
        RoomCounts {
            settled: IdMap::new(alloc),
            joined: 0,
            last: None,
        }
    }

    /// How many texts were given to a room; `None` where it is none of the rooms.
    pub(crate) fn get(&self, id: &str) -> Option<u32>
        ensures { result ≡ get self.now.rooms id.now }
    {
        match &self.last {
            None => self.settled.get(id),
            Some(risen) => {
                if risen.id.as_str() == id {
                    return Some(risen.count);
                }
                self.settled.get(id)
            }
        }
    }

    /// How many rooms have a text.
    pub(crate) fn joined(&self) -> u32
        ensures { result ≡ self.now.joined }
    {
        self.joined
    }

    /// Counts a text to a room, for which `get` gave the count so far. Where memory fails nothing changes.
    pub(crate) fn count(
        &mut self,
        alloc: Global,
        id: &str,
        so_far: Option<u32>,
    ) -> Result<(), AllocError>
        requires so_far { so_far ≡ get self.old.rooms id.now }
        requires few { count_in id.now self.old.rooms + 1 < 2 ^ 32 }
        requires fit { get self.old.rooms id.now ≡ None → self.old.joined + 1 < 2 ^ 32 }
        ensures ok { OnOk result (self.new ≡ record {
          rooms = raised id.now self.old.rooms;
          joined = joined_with (get self.old.rooms id.now) self.old.joined;
          last = Some id.now;
        }) }
        ensures err { OnErr result (self.new ≡ self.old) }
    {
        let count = so_far.unwrap_or(0) + 1;
        let joined = joined_with(so_far, self.joined);
        if is_last(&self.last, id) {
            settle(alloc, &mut self.settled, &self.last)?;
            raise(&mut self.last, count);
            self.joined = joined;
            return Ok(());
        }
        let id = Text::copy_of(alloc, id)?;
        settle(alloc, &mut self.settled, &self.last)?;
        self.last = Some(Risen { id, count });
        self.joined = joined;
        Ok(())
    }

    /// Takes back the text that was counted last.
    pub(crate) fn uncount(&mut self)
        ensures { self.new ≡ without_last self.old.last self.old }
    {
        self.joined = joined_without(&self.last, self.joined);
        self.last = None;
    }

    /// The text that was counted last can't be taken back any more. Where memory fails nothing changes.
    pub(crate) fn keep(&mut self, alloc: Global) -> Result<(), AllocError>
        ensures ok { OnOk result (self.new ≡ record { rooms = self.old.rooms; joined = self.old.joined; last = None }) }
        ensures err { OnErr result (self.new ≡ self.old) }
    {
        settle(alloc, &mut self.settled, &self.last)?;
        self.last = None;
        Ok(())
    }
}
