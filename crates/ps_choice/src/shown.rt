//! The texts of a request on the own members.
ghost use Rattle.std.specs.Prelude.{◌≡◌, ◌++◌, OnOk, string_bytes};
ghost use Rattle.ps_choice.specs.Shown.{id_of_move, name_of_species, level_part, details, status_part, health_part, condition};
ghost use Rattle.ps_choice.specs.Shown.{side_id, nick_of, ident};

use ps_base::text::Text;
use ps_dex::item::{MoveItem, SpeciesItem};
use ps_mon::status::Status;
use ps_mon::team::Member;
use std::alloc::AllocError;
use std::fmt::Write;

/// The id of a move, and `struggle` for each number past the moves.
pub(crate) fn id_of_move(moves: &[MoveItem], mv: u16) -> &str
    ensures { result.now ≡ id_of_move mv moves.now }
{
    match moves.get(usize::from(mv)) {
        None => "struggle",
        Some(item) => item.id.as_str(),
    }
}

fn name_of_species(species: &[SpeciesItem], number: u16) -> &str
    ensures { result.now ≡ name_of_species number species.now }
{
    match species.get(usize::from(number)) {
        None => "",
        Some(item) => item.name.as_str(),
    }
}

fn push_level(text: &mut String, level: u8) -> Result<(), AllocError>
    ensures { OnOk result (string_bytes text.new ≡ string_bytes text.old ++ level_part level) }
{
    if level == 100 {
        return Ok(());
    }
    write!(text, ", L{level}")?;
    Ok(())
}

/// Puts the species behind a text, and the level where it isn't 100.
#[tactic(auto, unfolding(crate::specs::Shown::details))]
pub(crate) fn push_details(
    text: &mut String,
    species: &[SpeciesItem],
    m: &Member,
) -> Result<(), AllocError>
    ensures { OnOk result (string_bytes text.new ≡ string_bytes text.old ++ details species.now m.now) }
{
    text.push_str(name_of_species(species, m.species))?;
    push_level(text, m.level)?;
    Ok(())
}

fn status_part(status: Status) -> &'static str
    ensures { result.now ≡ status_part status }
{
    match status {
        Status::Healthy => "",
        Status::Slp => " slp",
        Status::Par => " par",
        Status::Brn => " brn",
        Status::Psn => " psn",
        Status::Tox => " tox",
        Status::Frz => " frz",
    }
}

fn push_health(text: &mut String, hp: u16, max: u16) -> Result<(), AllocError>
    ensures { OnOk result (string_bytes text.new ≡ string_bytes text.old ++ health_part hp max) }
{
    write!(text, "{hp}/{max}")?;
    Ok(())
}

/// Puts the exact health behind a text, and the status if there is one; `0 fnt` where the member has fainted.
#[tactic(auto, unfolding(crate::specs::Shown::condition))]
pub(crate) fn push_condition(text: &mut String, m: &Member) -> Result<(), AllocError>
    ensures { OnOk result (string_bytes text.new ≡ string_bytes text.old ++ condition m.now) }
{
    if m.hp == 0 {
        text.push_str("0 fnt")?;
        return Ok(());
    }
    push_health(text, m.hp, m.max)?;
    text.push_str(status_part(m.status))?;
    Ok(())
}

/// `p1` or `p2`.
pub(crate) fn side_id(side: u8) -> &'static str
    ensures { result.now ≡ side_id side }
{
    if side == 0 { "p1" } else { "p2" }
}

fn nick_of(nicks: &[Text], index: u8) -> &str
    ensures { result.now ≡ nick_of nicks.now index }
{
    match nicks.get(usize::from(index)) {
        None => "",
        Some(nick) => nick.as_str(),
    }
}

/// Puts the side and the nickname of the member at an index of the team behind a text.
pub(crate) fn push_ident(
    text: &mut String,
    side: u8,
    nicks: &[Text],
    index: u8,
) -> Result<(), AllocError>
    ensures { OnOk result (string_bytes text.new ≡ string_bytes text.old ++ ident side (nick_of nicks.now index)) }
{
    text.push_str(side_id(side))?;
    text.push_str(": ")?;
    text.push_str(nick_of(nicks, index))?;
    Ok(())
}
