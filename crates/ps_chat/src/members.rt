//! The members of a room, with indices by connection and by id.
ghost use Rattle.std.specs.Prelude.{◌≡◌, ◌==◌, ◌<◌, ℕ, List, Some, ◌++◌, ◌∷◌, [], true, None, find, is_some, not, map, length, OnOk};
ghost use Rattle.std.specs.Prelude.{OnErr, if◌then◌else◌};
ghost use Rattle.std.specs.List.{filter, remove};
ghost use Rattle.std.specs.Option.{option_copied, option_map, option_or};
ghost use Rattle.ps_chat.specs.Lookups.{member, user, has_id};
ghost use Rattle.ps_chat.specs.Rooms.{ranked};
ghost use Rattle.ps_chat.specs.Finding.{index_of, shifted};
ghost use Rattle.std.specs.BTreeMap.{get, get_by_text};
ghost use Rattle.std.specs.Str.{bytes_eq};
ghost use Rattle.std.specs.Ordering.{nat_cmp};

use crate::lookup::has_id;
use crate::present::Present;
use ps_base::number::ConnNo;
use ps_group::rank::higher;
use std::alloc::{AllocError, Global};
use std::collections::BTreeMap;
use std::marker::Model;

/// The members in join order. Contracts see the list; a lookup takes no walk of it.
pub struct Members {
    list: Vec<Present>,
    indices: BTreeMap<u32, usize>,
    ids: BTreeMap<String, usize>,
}

// By hand, so that who drops one has one call to prove.
impl Drop for Members {
    fn drop(self) {
        let Members {
            list: _,
            indices: _,
            ids: _,
        } = self;
    }
}

impl Model for Members {
    ghost use Rattle.std.specs.Prelude as prelude;
    ghost use Rattle.ps_chat.specs.declared.present.Present.{Present};
    ghost use Rattle.ps_chat.specs.Finding.{IsIndex, IsIdIndex};

    ghost Value = { prelude.List Present };

    ghost view = { λ m. m.list.items };

    ghost invariant = { λ m. IsIndex m.list.items m.indices × IsIdIndex m.list.items m.ids };
}

fn index_of_conn(members: &[Present], conn: ConnNo) -> Option<usize>
    ensures { result ≡ index_of (λ p. p.conn == conn) members.now }
{
    for i in 0..members.len() {
        if members[i].conn == conn {
            return Some(i);
        }
    }
    None
}

fn index_of_id(members: &[Present], id: &str) -> Option<usize>
    ensures { result ≡ index_of (has_id id.now) members.now }
{
    for i in 0..members.len() {
        if has_id(&members[i], id) {
            return Some(i);
        }
    }
    None
}

fn shifted(index: usize, gone: usize) -> usize
    ensures { result ≡ shifted gone index }
{
    if gone < index { index - 1 } else { index }
}

fn shift(indices: &mut BTreeMap<u32, usize>, gone: usize)
    ensures { (conn : ℕ) → get nat_cmp indices.new conn ≡ option_map (shifted gone) (get nat_cmp indices.old conn) }
{
    indices.retain(|_, index| {
        *index = shifted(*index, gone);
        true
    });
}

fn replace(indices: &mut BTreeMap<u32, usize>, conn: u32, index: Option<usize>)
    requires { is_some (get nat_cmp indices.old conn) ≡ true }
    ensures { (other : ℕ) → get nat_cmp indices.new other ≡ (if other == conn then index else get nat_cmp indices.old other) }
{
    match index {
        None => {
            let _ = indices.remove(&conn);
        }
        Some(next) => {
            let index = indices.get_mut(&conn).unwrap();
            *index = next;
        }
    }
}

fn shift_ids(ids: &mut BTreeMap<String, usize>, gone: usize)
    ensures { (id : List ℕ) → get_by_text ids.new id ≡ option_map (shifted gone) (get_by_text ids.old id) }
{
    ids.retain(|_, index| {
        *index = shifted(*index, gone);
        true
    });
}

fn replace_id(ids: &mut BTreeMap<String, usize>, id: &str, index: Option<usize>)
    requires { is_some (get_by_text ids.old id.now) ≡ true }
    ensures { (other : List ℕ) → get_by_text ids.new other ≡ (if bytes_eq id.now other then index else get_by_text ids.old other) }
{
    match index {
        None => {
            let _ = ids.remove(id);
        }
        Some(next) => {
            let index = ids.get_mut(id).unwrap();
            *index = next;
        }
    }
}

/// Notes the index of an id that has none yet. Where memory fails nothing changes.
fn note_id(
    alloc: Global,
    ids: &mut BTreeMap<String, usize>,
    id: &str,
    index: usize,
) -> Result<(), AllocError>
    ensures ok { OnOk result ((other : List ℕ)
        → get_by_text ids.new other ≡ (if bytes_eq id.now other then option_or (get_by_text ids.old other) (Some index) else
        get_by_text ids.old other)) }
    ensures err { OnErr result ((other : List ℕ) → get_by_text ids.new other ≡ get_by_text ids.old other) }
{
    if ids.get(id).is_some() {
        return Ok(());
    }
    let key = String::from_str(alloc, id)?;
    ids.insert(key, index)?;
    Ok(())
}

fn set_rank_of(member: &mut Present, id: &str, rank: u8)
    ensures { member.new ≡ ranked id.now rank member.old }
{
    if has_id(member, id) {
        member.rank = higher(member.badge.rank, rank);
    }
}

fn set_ranks(members: &mut Vec<Present>, id: &str, rank: u8)
    ensures { members.new.items ≡ map (ranked id.now rank) members.old.items }
{
    for i in 0..members.len() {
        set_rank_of(&mut members[i], id, rank);
    }
}

impl Members {
    /// Nobody. Takes no memory.
    pub fn new(alloc: Global) -> Members
        ensures { result ≡ [] }
    {
        Members {
            list: Vec::new(alloc),
            indices: BTreeMap::new(alloc),
            ids: BTreeMap::new(alloc),
        }
    }

    /// The members in join order.
    pub fn as_slice(&self) -> &[Present]
        ensures { result.now ≡ self.now }
    {
        self.list.as_slice()
    }

    /// The member of a connection.
    pub fn get(&self, conn: ConnNo) -> Option<&Present>
        ensures { option_copied result ≡ member conn self.now }
    {
        match self.indices.get(&conn.0) {
            None => None,
            Some(index) => Some(&self.list[*index]),
        }
    }

    /// The first member with an id.
    pub fn user(&self, id: &str) -> Option<&Present>
        ensures { option_copied result ≡ user id.now self.now }
    {
        match self.ids.get(id) {
            None => None,
            Some(index) => Some(&self.list[*index]),
        }
    }

    fn index(&self, conn: ConnNo) -> Option<usize>
        ensures { result ≡ index_of (λ p. p.conn == conn) self.now }
    {
        match self.indices.get(&conn.0) {
            None => None,
            Some(index) => Some(*index),
        }
    }

    /// The index of the first member with an id.
    fn user_index(&self, id: &str) -> Option<usize>
        ensures { result ≡ index_of (has_id id.now) self.now }
    {
        match self.ids.get(id) {
            None => None,
            Some(index) => Some(*index),
        }
    }

    /// Puts a member at the end, whose connection isn't here yet. Where memory fails nothing changes.
    pub fn push(&mut self, alloc: Global, member: Present) -> Result<(), AllocError>
        requires { find (λ p. p.conn == member.conn) self.old ≡ None }
        ensures ok { OnOk result (self.new ≡ self.old ++ member ∷ []) }
        ensures err { OnErr result (self.new ≡ self.old) }
    {
        let conn = member.conn;
        let index = self.list.len();
        self.list.reserve(1)?;
        self.indices.insert(conn.0, index)?;
        match note_id(alloc, &mut self.ids, member.badge.name.id().as_str(), index) {
            Err(end) => {
                let _ = self.indices.remove(&conn.0);
                Err(end)
            }
            Ok(()) => {
                self.list.push(member).unwrap();
                Ok(())
            }
        }
    }

    fn remove_at(&mut self, index: usize)
        requires { index < length self.old }
        ensures { self.new ≡ remove self.old index }
    {
        let gone = self.list.remove(index);
        let conn = gone.conn;
        shift(&mut self.indices, index);
        let next = index_of_conn(self.list.as_slice(), conn);
        replace(&mut self.indices, conn.0, next);
        let id = gone.badge.name.id().as_str();
        shift_ids(&mut self.ids, index);
        let next_id = index_of_id(self.list.as_slice(), id);
        replace_id(&mut self.ids, id, next_id);
    }

    /// Takes out the member of a connection.
    pub fn leave(&mut self, conn: ConnNo)
        ensures { self.new ≡ filter (λ p. not (p.conn == conn)) self.old }
    {
        while let Some(index) = self.index(conn) {
            self.remove_at(index);
        }
    }

    /// Takes out all members with an id.
    pub fn take_out(&mut self, id: &str)
        ensures { self.new ≡ filter (λ p. not (has_id id.now p)) self.old }
    {
        while let Some(index) = self.user_index(id) {
            self.remove_at(index);
        }
    }

    /// Gives members with an id their rank with this room rank.
    pub fn set_rank(&mut self, id: &str, rank: u8)
        ensures { self.new ≡ map (ranked id.now rank) self.old }
    {
        set_ranks(&mut self.list, id, rank);
    }
}
