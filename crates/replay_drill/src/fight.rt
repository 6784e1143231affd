//! The battle of a drill, and those of a tournament.
ghost use Rattle.std.specs.Prelude.{◌≡◌, ◌++◌, ◌∷◌, IfOk, OnOk, length, map, take, string_bytes};
ghost use Rattle.std.specs.Str.{chars};
ghost use Rattle.std.specs.List.{join_with_byte};
ghost use Rattle.replay_drill.specs.Fights.{id_at, first_moves, packed_alone, drill_team, fight_in, fight_of, fight_start, fight_choices};

use crate::lines;
use ps_base::id::Id;
use ps_base::text::Text;
use ps_dex::dex::Dex;
use ps_dex::item::{MoveItem, SpeciesItem};
use ps_rules::table::Format;
use rules_config::config::Config;
use std::alloc::{AllocError, Global};

/// The format of a drill's battle, or of those of a tournament, and the team that both sides play.
#[derive(Debug, Drop)]
pub struct Fight {
    /// The format's id.
    pub format: Id,
    /// The packed text of the team.
    pub team: Text,
}

// ---- the team

#[tactic(auto, unfolding(crate::specs::Fights::id_at))]
fn id_at(moves: &[MoveItem], number: u16) -> &str
    ensures { result.now ≡ id_at moves.now number }
{
    match moves.get(usize::from(number)) {
        None => "",
        Some(item) => item.id.as_str(),
    }
}

fn up_to_four(numbers: &[u16]) -> &[u16]
    ensures { result.now ≡ take 4 numbers.now }
{
    if numbers.len() <= 4 {
        return numbers;
    }
    &numbers[..4]
}

fn ids_from(
    alloc: Global,
    moves: &[MoveItem],
    first: u16,
    rest: &[u16],
) -> Result<String, AllocError>
    ensures { IfOk result (λ t. string_bytes t ≡ join_with_byte 44 (map (id_at moves.now) (first ∷ rest.now))) }
{
    let mut ids = String::from_str(alloc, id_at(moves, first))?;
    for number in rest {
        ids.push(',')?;
        ids.push_str(id_at(moves, *number))?;
    }
    Ok(ids)
}

/// The moves of the team's one set.
fn moves_text(alloc: Global, moves: &[MoveItem], learned: &[u16]) -> Result<String, AllocError>
    ensures { IfOk result (λ t. string_bytes t ≡ join_with_byte 44 (first_moves moves.now learned.now)) }
{
    match up_to_four(learned).split_first() {
        None => Ok(String::new(alloc)),
        Some((first, rest)) => ids_from(alloc, moves, *first, rest),
    }
}

fn char_count(text: &str) -> usize
    ensures { result ≡ length (chars text.now) }
{
    text.chars().count()
}

#[tactic(auto, unfolding(crate::specs::Fights::packed_alone))]
fn packed_alone(alloc: Global, name: &str, moves: &str) -> Result<Text, AllocError>
    ensures { IfOk result (λ t. t ≡ packed_alone name.now moves.now) }
{
    if char_count(name) <= 18 {
        return Ok(Text::from_string(format!(in alloc; "{name}||||{moves}|||||||")?));
    }
    Ok(Text::from_string(format!(in alloc; "|{name}|||{moves}|||||||")?))
}

#[tactic(auto, using(crate::proofs::TeamLemmas::team_is))]
fn drill_team(alloc: Global, moves: &[MoveItem], species: &SpeciesItem) -> Result<Text, AllocError>
    ensures { IfOk result (λ t. t ≡ drill_team moves.now species.now) }
{
    let ids = moves_text(alloc, moves, species.learns.as_slice())?;
    packed_alone(alloc, species.name.as_str(), ids.as_str())
}

// ---- the battle

fn fight_in(
    alloc: Global,
    formats: &[Format],
    moves: &[MoveItem],
    species: &[SpeciesItem],
) -> Result<Option<Fight>, AllocError>
    ensures { IfOk result (λ f. f ≡ fight_in formats.now moves.now species.now) }
{
    match (formats, species) {
        ([format, ..], [first, ..]) => Ok(Some(Fight {
            format: format.id.copy(alloc)?,
            team: drill_team(alloc, moves, first)?,
        })),
        _ => Ok(None),
    }
}

impl Fight {
    /// The first format with the first species. `None` exactly where there is no format or no species.
    pub fn of(alloc: Global, config: &Config, dex: &Dex) -> Result<Option<Fight>, AllocError>
        ensures { IfOk result (λ f. f ≡ fight_of config.now dex.now) }
    {
        fight_in(
            alloc,
            config.formats().list(),
            dex.moves(),
            dex.all_species(),
        )
    }
}

/// How the battle begins.
pub(crate) fn push_start(script: &mut String, fight: &Option<Fight>) -> Result<(), AllocError>
    ensures { OnOk result (string_bytes script.new ≡ string_bytes script.old ++ fight_start fight.now) }
{
    match fight {
        None => Ok(()),
        Some(fight) => lines::push_start(script, &fight.format, &fight.team),
    }
}

/// How a step goes on with the battle.
pub(crate) fn push_choices(script: &mut String, fight: &Option<Fight>) -> Result<(), AllocError>
    ensures { OnOk result (string_bytes script.new ≡ string_bytes script.old ++ fight_choices fight.now) }
{
    match fight {
        None => Ok(()),
        Some(fight) => lines::push_choices(script, &fight.format),
    }
}
