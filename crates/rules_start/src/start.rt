//! What a battle starts with, and the id and the title of its room.
ghost use Rattle.std.specs.Prelude.{◌≡◌, IfOk};
ghost use Rattle.rules_start.specs.Starts.{battle_id, battle_title};

use ps_base::id::Id;
use ps_base::name::Name;
use ps_base::text::Text;
use ps_valid::legal::Legal;
use std::alloc::{AllocError, Global};

/// A battle that two players agreed on.
#[derive(Debug, Drop)]
pub struct Start {
    /// The number of the battle, from 1.
    pub number: u32,
    /// The id of its format.
    pub format: Id,
    /// The names of player 1 and player 2.
    pub players: [Name; 2],
    /// Their teams.
    pub teams: [Legal; 2],
    /// What its draws come from.
    pub seed: u64,
}

/// The id of a battle's room: `battle-FORMAT-N` of PROTOCOL.md.
pub fn battle_id(alloc: Global, format: &Id, number: u32) -> Result<Text, AllocError>
    ensures { IfOk result (λ t. t ≡ battle_id format.now number) }
{
    Ok(Text::from_string(format!(in alloc; "battle-{format}-{number}")?))
}

/// The title of a battle: the names of both players.
pub fn battle_title(alloc: Global, one: &Name, two: &Name) -> Result<Text, AllocError>
    ensures { IfOk result (λ t. t ≡ battle_title one.now two.now) }
{
    Ok(Text::from_string(format!(in alloc; "{one} vs. {two}")?))
}
