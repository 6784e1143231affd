//! Reads packed teams.
ghost use Rattle.std.specs.Prelude.{◌≡◌, ◌==◌, ◌<◌, ◌≤◌, ◌++◌, ◌∷◌, [], length, map, filter, IfOk, IfErr, OnOk, true, List, ℕ};
ghost use Rattle.std.specs.List.{slice_split, AllByRecursion};
ghost use Rattle.std.specs.Str.{chars, encode_utf8_all};
ghost use Rattle.ps_base.specs.Ids.{id_of};
ghost use Rattle.ps_packed.specs.Forms.{has_id, ids_of, is_number, number_of, in_form, evs, ivs, level};
ghost use Rattle.ps_packed.specs.Packed.{or_other, evs_of, iv_of, ivs_of, gender_of, level_of, is_nil, AreFieldTexts, set_of};
ghost use Rattle.ps_packed.specs.Packed.{team_texts_of};
ghost use Rattle.ps_packed.specs.Scan.{team_of};

use crate::forms::{has_id, is_zero, number, pieces};
use crate::set::Set;
use ps_base::id::{Id, to_id};
use ps_base::list::List;
use ps_base::text::Text;
use std::alloc::{AllocError, Global};

/// The text of these characters.
fn text_of(alloc: Global, word: &[char]) -> Result<Text, AllocError>
    ensures { IfOk result (λ t. t ≡ encode_utf8_all word.now) }
{
    let mut text = String::new(alloc);
    for c in word {
        text.push(*c)?;
    }
    Ok(Text::from_string(text))
}

fn id_of(alloc: Global, part: &[char]) -> Result<Id, AllocError>
    ensures { IfOk result (λ id. id ≡ id_of part.now) }
{
    let text = text_of(alloc, part)?;
    to_id(alloc, text.as_str())
}

fn ids_among(alloc: Global, pieces: &[&[char]]) -> Result<Vec<Id>, AllocError>
    ensures { IfOk result (λ v. v.items ≡ map id_of (filter has_id (map (λ x. x.now) pieces.now))) }
{
    let mut ids = Vec::new(alloc);
    for piece in pieces {
        if has_id(piece) {
            ids.push(id_of(alloc, piece)?)?;
        }
    }
    Ok(ids)
}

/// The ids of the parts that have one.
fn ids(alloc: Global, word: &[char]) -> Result<List<Id>, AllocError>
    ensures { IfOk result (λ v. v ≡ ids_of word.now) }
{
    let parts = pieces(alloc, word, ',')?;
    Ok(List::from_vec(ids_among(alloc, &parts)?))
}

fn or_other<'a>(word: &'a [char], other: &'a [char]) -> &'a [char]
    ensures { result.now ≡ or_other word.now other.now }
{
    match word {
        [] => other,
        _ => word,
    }
}

fn ev(part: &[char]) -> u8
    requires { is_number 255 part.now ≡ true }
    ensures { result ≡ number_of part.now }
{
    number(part) as u8
}

fn iv(part: &[char]) -> u8
    requires { is_number 31 part.now ≡ true }
    ensures { result ≡ iv_of part.now }
{
    match part {
        [] => 31,
        _ => number(part) as u8,
    }
}

fn six_evs(parts: &[&[char]]) -> [u8; 6]
    requires six { length parts.now ≡ 6 }
    requires numbers { AllByRecursion (λ p. is_number 255 p ≡ true) (map (λ x. x.now) parts.now) }
    ensures { result ≡ map number_of (map (λ x. x.now) parts.now) }
{
    match parts {
        [hp, atk, def, spa, spd, spe] => [ev(hp), ev(atk), ev(def), ev(spa), ev(spd), ev(spe)],
        _ => unreachable!(),
    }
}

fn six_ivs(parts: &[&[char]]) -> [u8; 6]
    requires six { length parts.now ≡ 6 }
    requires numbers { AllByRecursion (λ p. is_number 31 p ≡ true) (map (λ x. x.now) parts.now) }
    ensures { result ≡ map iv_of (map (λ x. x.now) parts.now) }
{
    match parts {
        [hp, atk, def, spa, spd, spe] => [iv(hp), iv(atk), iv(def), iv(spa), iv(spd), iv(spe)],
        _ => unreachable!(),
    }
}

fn evs(alloc: Global, word: &[char]) -> Result<[u8; 6], AllocError>
    requires { in_form evs word.now ≡ true }
    ensures { IfOk result (λ n. n ≡ evs_of word.now) }
{
    if word.is_empty() {
        return Ok([252; 6]);
    }
    if is_zero(word) {
        return Ok([0; 6]);
    }
    let parts = pieces(alloc, word, ',')?;
    Ok(six_evs(&parts))
}

fn ivs(alloc: Global, word: &[char]) -> Result<[u8; 6], AllocError>
    requires { in_form ivs word.now ≡ true }
    ensures { IfOk result (λ n. n ≡ ivs_of word.now) }
{
    if word.is_empty() {
        return Ok([31; 6]);
    }
    let parts = pieces(alloc, word, ',')?;
    Ok(six_ivs(&parts))
}

fn gender(word: &[char]) -> Option<char>
    ensures { result ≡ gender_of word.now }
{
    match word {
        [] => None,
        [first, ..] => Some(*first),
    }
}

fn level(word: &[char]) -> u8
    requires { in_form level word.now ≡ true }
    ensures { result ≡ level_of word.now }
{
    match word {
        [] => 100,
        _ => number(word) as u8,
    }
}

fn set_from(alloc: Global, fields: &[&[char]]) -> Result<Set, AllocError>
    requires { AreFieldTexts (map (λ x. x.now) fields.now) }
    ensures { IfOk result (λ s. s ≡ set_of (map (λ x. x.now) fields.now)) }
{
    match fields {
        [
            nick_text,
            species_text,
            item_text,
            ability_text,
            moves_text,
            nature_text,
            evs_text,
            gender_text,
            ivs_text,
            shiny_text,
            level_text,
            misc_text,
        ] => {
            let nick = text_of(alloc, or_other(nick_text, species_text))?;
            let species = text_of(alloc, or_other(species_text, nick_text))?;
            let item = text_of(alloc, item_text)?;
            let ability = text_of(alloc, ability_text)?;
            let moves = ids(alloc, moves_text)?;
            let nature = text_of(alloc, nature_text)?;
            let evs = evs(alloc, evs_text)?;
            let ivs = ivs(alloc, ivs_text)?;
            let misc = text_of(alloc, misc_text)?;
            Ok(Set {
                nick,
                species,
                item,
                ability,
                moves,
                nature,
                evs,
                gender: gender(gender_text),
                ivs,
                shiny: !shiny_text.is_empty(),
                level: level(level_text),
                misc,
            })
        }
        _ => unreachable!(),
    }
}

fn one_set(alloc: Global, field_texts: &[char]) -> Result<Set, AllocError>
    requires { AreFieldTexts (slice_split (λ c. c == 124) field_texts.now) }
    ensures { IfOk result (λ s. s ≡ set_of (slice_split (λ c. c == 124) field_texts.now)) }
{
    let fields = pieces(alloc, field_texts, '|')?;
    set_from(alloc, &fields)
}

fn push_set(alloc: Global, sets: &mut Vec<Set>, field_texts: &[char]) -> Result<(), AllocError>
    requires { AreFieldTexts (slice_split (λ c. c == 124) field_texts.now) }
    ensures { OnOk result (sets.new.items ≡ sets.old.items ++ set_of (slice_split (λ c. c == 124) field_texts.now) ∷ []) }
{
    let set = one_set(alloc, field_texts)?;
    sets.push(set)?;
    Ok(())
}

fn sets(alloc: Global, team_texts: &[&[char]]) -> Result<Vec<Set>, AllocError>
    requires { AllByRecursion AreFieldTexts (map (slice_split (λ c. c == 124)) (map (λ x. x.now) team_texts.now)) }
    ensures { IfOk result (λ v. v.items ≡ map set_of (map (slice_split (λ c. c == 124)) (map (λ x. x.now) team_texts.now))) }
{
    let mut sets = Vec::new(alloc);
    for field_texts in team_texts {
        push_set(alloc, &mut sets, field_texts)?;
    }
    Ok(sets)
}

/// The sets of a text that is a team's.
pub fn sets_of(alloc: Global, text: &[char]) -> Result<List<Set>, AllocError>
    requires { AllByRecursion AreFieldTexts (team_texts_of text.now) }
    ensures { IfOk result (λ t. t ≡ team_of text.now) }
{
    let team_texts = pieces(alloc, text, ']')?;
    Ok(List::from_vec(sets(alloc, &team_texts)?))
}
