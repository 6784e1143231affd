//! Writes packed teams.
ghost use Rattle.std.specs.Prelude.{◌≡◌, ◌==◌, ◌<◌, [], ◌∷◌, length, map, IfOk, chars, nat_le};
ghost use Rattle.std.specs.List.{join_with_byte, list_all};
ghost use Rattle.ps_packed.specs.Packed.{IsTeam};
ghost use Rattle.ps_packed.specs.Canon.{nick_text, species_text, moves_text, are_all, ev_text, evs_text, iv_text, ivs_text};
ghost use Rattle.ps_packed.specs.Canon.{gender_text, shiny_text, level_text, set_fields, canon};

use crate::set::Set;
use crate::team::Team;
use ps_base::id::Id;
use ps_base::text::Text;
use std::alloc::{AllocError, Global};

fn joined_to(alloc: Global, first: &Text, rest: &[Text], between: char) -> Result<Text, AllocError>
    requires { between < 128 }
    ensures { IfOk result (λ t. t ≡ join_with_byte between (first.now ∷ rest.now)) }
{
    let mut whole = String::from_str(alloc, first.as_str())?;
    for text in rest {
        whole.push(between)?;
        whole.push_str(text.as_str())?;
    }
    Ok(Text::from_string(whole))
}

/// The texts with a character between each two.
fn joined(alloc: Global, texts: &[Text], between: char) -> Result<Text, AllocError>
    requires { between < 128 }
    ensures { IfOk result (λ t. t ≡ join_with_byte between texts.now) }
{
    match texts.split_first() {
        None => Ok(Text::new(alloc)),
        Some((first, rest)) => joined_to(alloc, first, rest, between),
    }
}

fn char_count(text: &str) -> usize
    ensures { result ≡ length (chars text.now) }
{
    text.chars().count()
}

fn has_up_to_18(text: &str) -> bool
    ensures { result ≡ nat_le (length (chars text.now)) 18 }
{
    char_count(text) <= 18
}

#[tactic(auto, unfolding(crate::specs::Canon::nick_text))]
fn nick_text(alloc: Global, nick: &Text) -> Result<Text, AllocError>
    ensures { IfOk result (λ t. t ≡ nick_text nick.now) }
{
    if has_up_to_18(nick.as_str()) {
        nick.copy(alloc)
    } else {
        Ok(Text::new(alloc))
    }
}

#[tactic(auto, unfolding(crate::specs::Canon::species_text))]
fn species_text(alloc: Global, nick: &Text, species: &Text) -> Result<Text, AllocError>
    ensures { IfOk result (λ t. t ≡ species_text nick.now species.now) }
{
    if species.as_str() == nick.as_str() && has_up_to_18(species.as_str()) {
        Ok(Text::new(alloc))
    } else {
        species.copy(alloc)
    }
}

fn texts_of(alloc: Global, ids: &[Id]) -> Result<Vec<Text>, AllocError>
    ensures { IfOk result (λ v. v.items ≡ ids.now) }
{
    let mut texts = Vec::new(alloc);
    for id in ids {
        texts.push(Text::copy_of(alloc, id.as_str())?)?;
    }
    Ok(texts)
}

fn moves_text(alloc: Global, moves: &[Id]) -> Result<Text, AllocError>
    ensures { IfOk result (λ t. t ≡ moves_text moves.now) }
{
    let texts = texts_of(alloc, moves)?;
    joined(alloc, &texts, ',')
}

fn are_all(n: u8, numbers: &[u8]) -> bool
    ensures { result ≡ are_all n numbers.now }
{
    numbers.iter().all(|m| *m == n)
}

#[tactic(auto, unfolding(crate::specs::Canon::ev_text))]
fn ev_text(alloc: Global, n: u8) -> Result<Text, AllocError>
    ensures { IfOk result (λ t. t ≡ ev_text n) }
{
    if n == 0 {
        return Ok(Text::new(alloc));
    }
    Ok(Text::from_string(format!(in alloc; "{n}")?))
}

#[tactic(auto, unfolding(crate::specs::Canon::iv_text))]
fn iv_text(alloc: Global, n: u8) -> Result<Text, AllocError>
    ensures { IfOk result (λ t. t ≡ iv_text n) }
{
    if n == 31 {
        return Ok(Text::new(alloc));
    }
    Ok(Text::from_string(format!(in alloc; "{n}")?))
}

fn ev_texts(alloc: Global, numbers: &[u8]) -> Result<Vec<Text>, AllocError>
    ensures { IfOk result (λ v. v.items ≡ map ev_text numbers.now) }
{
    let mut texts = Vec::new(alloc);
    for n in numbers {
        texts.push(ev_text(alloc, *n)?)?;
    }
    Ok(texts)
}

fn iv_texts(alloc: Global, numbers: &[u8]) -> Result<Vec<Text>, AllocError>
    ensures { IfOk result (λ v. v.items ≡ map iv_text numbers.now) }
{
    let mut texts = Vec::new(alloc);
    for n in numbers {
        texts.push(iv_text(alloc, *n)?)?;
    }
    Ok(texts)
}

#[tactic(auto, unfolding(crate::specs::Canon::evs_text))]
fn evs_text(alloc: Global, numbers: &[u8]) -> Result<Text, AllocError>
    ensures { IfOk result (λ t. t ≡ evs_text numbers.now) }
{
    if are_all(252, numbers) {
        return Ok(Text::new(alloc));
    }
    if are_all(0, numbers) {
        return Text::copy_of(alloc, "0");
    }
    let texts = ev_texts(alloc, numbers)?;
    joined(alloc, &texts, ',')
}

#[tactic(auto, unfolding(crate::specs::Canon::ivs_text))]
fn ivs_text(alloc: Global, numbers: &[u8]) -> Result<Text, AllocError>
    ensures { IfOk result (λ t. t ≡ ivs_text numbers.now) }
{
    if are_all(31, numbers) {
        return Ok(Text::new(alloc));
    }
    let texts = iv_texts(alloc, numbers)?;
    joined(alloc, &texts, ',')
}

fn gender_text(alloc: Global, gender: Option<char>) -> Result<Text, AllocError>
    ensures { IfOk result (λ t. t ≡ gender_text gender) }
{
    match gender {
        None => Ok(Text::new(alloc)),
        Some(letter) => {
            let mut text = String::new(alloc);
            text.push(letter)?;
            Ok(Text::from_string(text))
        }
    }
}

fn shiny_text(alloc: Global, shiny: bool) -> Result<Text, AllocError>
    ensures { IfOk result (λ t. t ≡ shiny_text shiny) }
{
    if shiny {
        Text::copy_of(alloc, "S")
    } else {
        Ok(Text::new(alloc))
    }
}

#[tactic(auto, unfolding(crate::specs::Canon::level_text))]
fn level_text(alloc: Global, level: u8) -> Result<Text, AllocError>
    ensures { IfOk result (λ t. t ≡ level_text level) }
{
    if level == 100 {
        return Ok(Text::new(alloc));
    }
    Ok(Text::from_string(format!(in alloc; "{level}")?))
}

fn field_texts(alloc: Global, set: &Set) -> Result<[Text; 12], AllocError>
    ensures { IfOk result (λ ts. ts ≡ set_fields set.now) }
{
    Ok([
        nick_text(alloc, &set.nick)?,
        species_text(alloc, &set.nick, &set.species)?,
        set.item.copy(alloc)?,
        set.ability.copy(alloc)?,
        moves_text(alloc, set.moves.as_slice())?,
        set.nature.copy(alloc)?,
        evs_text(alloc, &set.evs)?,
        gender_text(alloc, set.gender)?,
        ivs_text(alloc, &set.ivs)?,
        shiny_text(alloc, set.shiny)?,
        level_text(alloc, set.level)?,
        set.misc.copy(alloc)?,
    ])
}

fn set_text(alloc: Global, set: &Set) -> Result<Text, AllocError>
    ensures { IfOk result (λ t. t ≡ join_with_byte 124 (set_fields set.now)) }
{
    let fields = field_texts(alloc, set)?;
    joined(alloc, &fields, '|')
}

fn set_texts(alloc: Global, sets: &[Set]) -> Result<Vec<Text>, AllocError>
    ensures { IfOk result (λ v. v.items ≡ map (join_with_byte 124) (map set_fields sets.now)) }
{
    let mut texts = Vec::new(alloc);
    for set in sets {
        texts.push(set_text(alloc, set)?)?;
    }
    Ok(texts)
}

fn team_text(alloc: Global, sets: &[Set]) -> Result<Text, AllocError>
    ensures { IfOk result (λ t. t ≡ canon sets.now) }
{
    let texts = set_texts(alloc, sets)?;
    joined(alloc, &texts, ']')
}

/// The canonical text of a team, which `read_team` reads as this team again. It leaves out what an
/// empty field means: the species that is the nickname, six EVs of 252, six IVs of 31, level 100.
/// Fails only where an allocation does.
pub fn write_team(alloc: Global, team: &Team) -> Result<Text, AllocError>
    ensures text { IfOk result (λ t. t ≡ canon team.now) }
    // It is a text of the team.
    ensures again { IfOk result (λ t. IsTeam (chars t) team.now) }
{
    let sets = team.sets();
    team_text(alloc, sets)
}
