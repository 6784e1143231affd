//! Battles that have started.
ghost use Rattle.std.specs.Prelude.{◌≡◌, [], IfOk, slice_index_or};
ghost use Rattle.ps_hall.specs.Lookups.{player_id, plays};
ghost use Rattle.rules_start.specs.Starts.{battle_title};

use ps_base::id::Id;
use ps_base::name::Name;
use ps_base::text::Text;
use rules_start::start::battle_title;
use std::alloc::{AllocError, Global};

/// A battle that has started and wasn't reported yet.
#[derive(Debug)]
pub struct Game {
    /// The number of the battle, from 1.
    pub number: u32,
    /// The id of its format.
    pub format: Id,
    /// The names of player 1 and player 2.
    pub players: [Name; 2],
    /// Whether it counts for ratings.
    pub rated: bool,
}

// By hand, so that who drops one has one call to prove.
impl Drop for Game {
    fn drop(self) {
        let Game {
            number: _,
            format: _,
            players: _,
            rated: _,
        } = self;
    }
}

impl Game {
    /// The id of player 1.
    pub fn first_id(&self) -> &Id
        ensures { result.now ≡ player_id self.now 0 }
    {
        let [one, _] = &self.players;
        one.id()
    }

    /// The id of player 2.
    pub fn second_id(&self) -> &Id
        ensures { result.now ≡ player_id self.now 1 }
    {
        let [_, two] = &self.players;
        two.id()
    }

    /// The title of its room: the names of both players.
    pub fn title(&self, alloc: Global) -> Result<Text, AllocError>
        ensures { IfOk result (λ t. t ≡ battle_title (slice_index_or self.now.players 0 []) (slice_index_or self.now.players 1 [])) }
    {
        let [one, two] = &self.players;
        battle_title(alloc, one, two)
    }
}

/// Whether an id is that of one of the players. Takes no memory.
pub fn plays(id: &str, game: &Game) -> bool
    ensures { result ≡ plays id.now game.now }
{
    if game.first_id().as_str() == id {
        return true;
    }
    game.second_id().as_str() == id
}
