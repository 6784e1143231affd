//! The battles that have started, by number and by player.
ghost use Rattle.std.specs.Prelude.{◌≡◌, ℕ, ◌<◌, ◌+◌, ◌++◌, ◌∷◌, [], List, find, map, IfOk, OnOk, OnErr, Some, None};
ghost use Rattle.std.specs.Option.{option_copied};
ghost use Rattle.ps_base.specs.Limits.{most_battles};
ghost use Rattle.hall_index.specs.Numbered.{AreBelow, item_at, without};
ghost use Rattle.hall_index.specs.IdIndices.{IsIndexed, with_number, without_number};
ghost use Rattle.ps_hall.specs.Lookups.{games_of, has_number, plays};
ghost use Rattle.ps_hall.specs.Steps.{without_game};
ghost use Rattle.ps_hall.specs.Games.{AreKept, played_of, with_next};

use crate::game::Game;
use hall_index::id_index::IdIndex;
use hall_index::numbered::Numbered;
use ps_base::id::Id;
use std::alloc::{AllocError, Global};
use std::marker::Model;

// The battles at their numbers, and the numbers by player.
#[derive(Drop)]
struct Table {
    started: u32,
    games: Numbered<Game>,
    players: IdIndex,
}

/// How many battles have started, and those that weren't reported, in order of start. Finding, adding and removing one
/// cost the logarithm of how many there are. Contracts see the count and the list.
pub(crate) struct Games {
    table: Table,
}

// By hand, so that who drops one has one call to prove.
impl Drop for Games {
    fn drop(self) {
        let Games { table: _ } = self;
    }
}

impl Model for Games {
    ghost use Rattle.ps_hall.specs.Games.{AreKept, Played, played_of};

    ghost Value = { Played };

    ghost view = { λ g. played_of g.table };

    ghost invariant = { λ g. AreKept g.table };
}

// ---- the index

// A second id, unless it is the first: where memory fails the number is taken away at the first.
fn add_second(
    alloc: Global,
    index: &mut IdIndex,
    first: &str,
    second: &str,
    number: u64,
) -> Result<(), AllocError>
    ensures ok { OnOk result (index.new ≡ with_number index.old second.now number) }
    ensures err { OnErr result (index.new ≡ without_number index.old first.now number) }
{
    match index.add(alloc, second, number) {
        Err(end) => {
            index.remove(alloc, first, number);
            Err(end)
        }
        Ok(()) => Ok(()),
    }
}

// A battle's number at the ids of its players.
fn add_players(alloc: Global, index: &mut IdIndex, game: &Game) -> Result<(), AllocError>
    ensures ok { OnOk result ((es : List (ℕ × Game)) → AreBelow game.now.number es → IsIndexed plays game.now.number es index.old
        → IsIndexed plays (game.now.number + 1) (es ++ (game.now.number, game.now) ∷ []) index.new) }
    ensures err { OnErr result ((es : List (ℕ × Game)) → IsIndexed plays game.now.number es index.old
        → IsIndexed plays game.now.number es index.new) }
{
    let number = game.number as u64;
    let first = game.first_id().as_str();
    let second = game.second_id().as_str();
    index.add(alloc, first, number)?;
    if second == first {
        return Ok(());
    }
    add_second(alloc, index, first, second, number)
}

// A battle's number at no id any more.
fn remove_players(alloc: Global, index: &mut IdIndex, game: &Game)
    ensures { (next : ℕ) (es : List (ℕ × Game)) → IsIndexed plays next es index.old
        → IsIndexed plays next (without game.now.number es) index.new }
{
    let number = game.number as u64;
    index.remove(alloc, game.first_id().as_str(), number);
    index.remove(alloc, game.second_id().as_str(), number);
}

// ---- the table

// The battle that stands last, at the ids of its players.
fn index_last(
    alloc: Global,
    index: &mut IdIndex,
    games: &Numbered<Game>,
    number: u64,
) -> Result<(), AllocError>
    ensures ok { OnOk result ((g : Game) → item_at number games.now ≡ Some g → g.number ≡ number → (es : List (ℕ × Game))
        → AreBelow number es → IsIndexed plays number es index.old → IsIndexed plays (number + 1) (es ++ (number, g) ∷ []) index.new) }
    ensures err { OnErr result ((g : Game) → item_at number games.now ≡ Some g → g.number ≡ number → (es : List (ℕ × Game))
        → IsIndexed plays number es index.old → IsIndexed plays number es index.new) }
{
    match games.get(number) {
        None => Ok(()),
        Some(game) => add_players(alloc, index, game),
    }
}

// Puts the next battle behind the others.
fn push(alloc: Global, table: &mut Table, game: Game) -> Result<(), AllocError>
    requires number { game.number ≡ table.old.started + 1 }
    requires few { table.old.started < most_battles }
    requires kept { AreKept table.old }
    ensures kept { AreKept table.new }
    ensures ok { OnOk result (played_of table.new ≡ with_next (played_of table.old) game) }
    ensures err { OnErr result (played_of table.new ≡ played_of table.old) }
{
    let number = table.started + 1;
    let place = number as u64;
    table.games.append(place, game)?;
    match index_last(alloc, &mut table.players, &table.games, place) {
        Err(end) => {
            let _ = table.games.take(place);
            Err(end)
        }
        Ok(()) => {
            table.started = number;
            Ok(())
        }
    }
}

// Takes out the battle with a number.
fn remove(alloc: Global, table: &mut Table, number: u32)
    requires { AreKept table.old }
    ensures kept { AreKept table.new }
    ensures value { played_of table.new ≡ record { started = table.old.started; list = without_game (played_of table.old).list number } }
{
    match table.games.take(number as u64) {
        None => {}
        Some(game) => remove_players(alloc, &mut table.players, &game),
    }
}

impl Games {
    /// No battle has started. Takes no memory.
    pub(crate) fn new(alloc: Global) -> Games
        ensures { result ≡ record { started = 0; list = [] } }
    {
        Games {
            table: Table {
                started: 0,
                games: Numbered::new(alloc),
                players: IdIndex::new(alloc),
            },
        }
    }

    /// How many battles have started, at most 65,536.
    pub(crate) fn started(&self) -> u32
        ensures { result ≡ self.now.started }
    {
        self.table.started
    }

    /// The battle with a number, if it started and wasn't reported. Takes no memory.
    pub(crate) fn find(&self, number: u32) -> Option<&Game>
        ensures { option_copied result ≡ find (has_number number) self.now.list }
    {
        self.table.games.get(number as u64)
    }

    /// The battles of a user that weren't reported, in order of start.
    pub(crate) fn of(&self, alloc: Global, id: &Id) -> Result<Vec<&Game>, AllocError>
        ensures { IfOk result (λ v. map (λ x. x.now) v.items ≡ games_of self.now.list id.now) }
    {
        let numbers = self.table.players.at(id.as_str());
        let found = self.table.games.items_at(alloc, numbers)?;
        Ok(found)
    }

    /// The next battle has started. Where memory fails nothing changes.
    pub(crate) fn push(&mut self, alloc: Global, game: Game) -> Result<(), AllocError>
        requires number { game.number ≡ self.old.started + 1 }
        requires few { self.old.started < most_battles }
        ensures ok { OnOk result (self.new ≡ with_next self.old game) }
        ensures err { OnErr result (self.new ≡ self.old) }
    {
        push(alloc, &mut self.table, game)
    }

    /// The battle with a number is reported. Takes no memory.
    pub(crate) fn remove(&mut self, alloc: Global, number: u32)
        ensures { self.new ≡ record { started = self.old.started; list = without_game self.old.list number } }
    {
        remove(alloc, &mut self.table, number);
    }
}
