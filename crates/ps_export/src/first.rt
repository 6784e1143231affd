//! The first line of a set.
ghost use Rattle.std.specs.Prelude.{◌≡◌, IfOk, map, nat_le, length, chars, Some};
ghost use Rattle.std.specs.Option.{option_copied};
ghost use Rattle.ps_packed.specs.Canon.{nick_text, species_text};
ghost use Rattle.ps_export.specs.Sheets.{is_gender, species_alone, both_names, with_group, with_groups, names_of, draft_with};
ghost use Rattle.ps_export.specs.Sheets.{names_in, first_of, draft_of};

use crate::draft::{Draft, drafted};
use crate::part::{bare, char_count, parts};
use ps_base::cut;
use ps_base::text::Text;
use std::alloc::{AllocError, Global};

/// The fields of the names and the gender.
#[derive(Drop)]
struct Names {
    nick: Text,
    species: Text,
    gender: Text,
}

#[tactic(auto, unfolding(crate::specs::Sheets::is_gender))]
pub fn is_gender(group: &str) -> bool
    ensures { result ≡ is_gender group.now }
{
    group == "M" || group == "F" || group == "N"
}

fn has_up_to_18(text: &str) -> bool
    ensures { result ≡ nat_le (length (chars text.now)) 18 }
{
    char_count(text) <= 18
}

#[tactic(auto, unfolding(ps_packed::specs::Canon::nick_text))]
fn nick_text(alloc: Global, nick: &str) -> Result<Text, AllocError>
    ensures { IfOk result (λ t. t ≡ nick_text nick.now) }
{
    if has_up_to_18(nick) {
        Text::copy_of(alloc, nick)
    } else {
        Ok(Text::new(alloc))
    }
}

#[tactic(auto, unfolding(ps_packed::specs::Canon::species_text))]
fn species_text(alloc: Global, nick: &str, species: &str) -> Result<Text, AllocError>
    ensures { IfOk result (λ t. t ≡ species_text nick.now species.now) }
{
    if species == nick && has_up_to_18(species) {
        Ok(Text::new(alloc))
    } else {
        Text::copy_of(alloc, species)
    }
}

fn species_alone(
    alloc: Global,
    gender: &str,
    species: Option<&str>,
) -> Result<Option<Names>, AllocError>
    ensures { IfOk result (λ n. n ≡ species_alone gender.now (option_copied species.entry)) }
{
    match species {
        None => Ok(None),
        Some(species) => Ok(Some(Names {
            nick: nick_text(alloc, species)?,
            species: species_text(alloc, species, species)?,
            gender: Text::copy_of(alloc, gender)?,
        })),
    }
}

fn both_names(
    alloc: Global,
    gender: &str,
    nick: Option<&str>,
    species: Option<&str>,
) -> Result<Option<Names>, AllocError>
    ensures { IfOk result (λ n. n ≡ both_names gender.now (option_copied nick.entry) (option_copied species.entry)) }
{
    let nick = match nick {
        None => return Ok(None),
        Some(nick) => nick,
    };
    match species {
        None => Ok(None),
        Some(species) => Ok(Some(Names {
            nick: Text::copy_of(alloc, nick)?,
            species: species_text(alloc, nick, species)?,
            gender: Text::copy_of(alloc, gender)?,
        })),
    }
}

fn with_group(
    alloc: Global,
    front: Option<&str>,
    group: Option<&str>,
) -> Result<Option<Names>, AllocError>
    ensures { IfOk result (λ n. n ≡ with_group (option_copied front.entry) (option_copied group.entry)) }
{
    match group {
        None => Ok(None),
        Some(group) => {
            if is_gender(group) {
                return species_alone(alloc, group, bare(front));
            }
            both_names(alloc, "", bare(front), bare(Some(group)))
        }
    }
}

fn with_groups(
    alloc: Global,
    front: Option<&str>,
    group: Option<&str>,
    gender: Option<&str>,
) -> Result<Option<Names>, AllocError>
    ensures { IfOk result (λ n. n ≡ with_groups (option_copied front.entry) (option_copied group.entry) (option_copied gender.entry)) }
{
    match gender {
        None => Ok(None),
        Some(gender) => {
            if is_gender(gender) {
                return both_names(alloc, gender, bare(front), bare(group));
            }
            Ok(None)
        }
    }
}

fn names_of(alloc: Global, parts: &[&str]) -> Result<Option<Names>, AllocError>
    ensures { IfOk result (λ n. n ≡ names_of (map (λ x. x.now) parts.now)) }
{
    match parts {
        [species] => species_alone(alloc, "", bare(Some(species))),
        [front, group] => with_group(alloc, cut::before(front, " "), cut::before(group, ")")),
        [front, group, gender] => with_groups(
            alloc,
            cut::before(front, " "),
            cut::before(group, ") "),
            cut::before(gender, ")"),
        ),
        _ => Ok(None),
    }
}

fn names_in(alloc: Global, text: Option<&str>) -> Result<Option<Names>, AllocError>
    ensures { IfOk result (λ n. n ≡ names_in (option_copied text.entry)) }
{
    match text {
        None => Ok(None),
        Some(text) => {
            let parts = parts(alloc, text, '(')?;
            names_of(alloc, &parts)
        }
    }
}

fn draft_with(
    alloc: Global,
    item: Option<&str>,
    names: Option<Names>,
) -> Result<Option<Draft>, AllocError>
    ensures { IfOk result (λ d. d ≡ draft_with (option_copied item.entry) names) }
{
    let item = match item {
        None => return Ok(None),
        Some(item) => item,
    };
    match names {
        None => Ok(None),
        Some(names) => {
            let item = Text::copy_of(alloc, item)?;
            Ok(Some(drafted(alloc, names.nick, names.species, names.gender, item)))
        }
    }
}

fn first_of(alloc: Global, parts: &[&str]) -> Result<Option<Draft>, AllocError>
    ensures { IfOk result (λ d. d ≡ first_of (map (λ x. x.now) parts.now)) }
{
    match parts {
        [names] => {
            let names = names_in(alloc, Some(names))?;
            draft_with(alloc, Some(""), names)
        }
        [front, back] => {
            let names = names_in(alloc, cut::before(front, " "))?;
            draft_with(alloc, bare(cut::after(back, " ")), names)
        }
        _ => Ok(None),
    }
}

/// The set of a first line, if it is one.
#[tactic(auto, unfolding(crate::specs::Sheets::draft_of))]
pub fn draft_of(alloc: Global, line: &str) -> Result<Option<Draft>, AllocError>
    ensures { IfOk result (λ d. d ≡ draft_of line.now) }
{
    let parts = parts(alloc, line, '@')?;
    first_of(alloc, &parts)
}
