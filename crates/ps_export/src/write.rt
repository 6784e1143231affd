//! Writes export texts.
ghost use Rattle.std.specs.Prelude.{◌≡◌, ◌++◌, ◌∷◌, [], ◌≤◌, IfOk, IfErr, OnOk, None, map, length};
ghost use Rattle.std.specs.List.{join_with_byte};
ghost use Rattle.ps_packed.specs.Canon.{are_all};
ghost use Rattle.ps_export.specs.Export.{IsExport};
ghost use Rattle.ps_export.specs.Written.{first_unwritable, names_text, gender_part, item_part, first_line, words_line, level_line};
ghost use Rattle.ps_export.specs.Written.{shiny_line, nature_line, slash, with_stat, stats_text, or_zero, evs_line, ivs_line};
ghost use Rattle.ps_export.specs.Written.{move_line, set_lines, block, export_text, WriteFails};

use crate::fault::WriteExportFault;
use crate::join::joined;
use crate::part::is_nil;
use crate::read::MOST_EXPORT;
use crate::writable::first_unwritable;
use ps_base::id::Id;
use ps_base::number::counted;
use ps_base::text::Text;
use ps_packed::set::Set;
use ps_packed::team::Team;
use std::alloc::{AllocError, Global};

#[tactic(auto, unfolding(crate::specs::Written::names_text))]
fn names_text(alloc: Global, nick: &Text, species: &Text) -> Result<Text, AllocError>
    ensures { IfOk result (λ t. t ≡ names_text nick.now species.now) }
{
    if nick.as_str() == species.as_str() {
        return species.copy(alloc);
    }
    let mut text = nick.copy(alloc)?;
    text.push_str(" (")?;
    text.push_str(species.as_str())?;
    text.push_str(")")?;
    Ok(text)
}

fn gender_part(alloc: Global, gender: Option<char>) -> Result<Text, AllocError>
    ensures { IfOk result (λ t. t ≡ gender_part gender) }
{
    match gender {
        None => Ok(Text::new(alloc)),
        Some(letter) => {
            let mut text = String::from_str(alloc, " (")?;
            text.push(letter)?;
            text.push_str(")")?;
            Ok(Text::from_string(text))
        }
    }
}

#[tactic(auto, unfolding(crate::specs::Written::item_part))]
fn item_part(alloc: Global, item: &Text) -> Result<Text, AllocError>
    ensures { IfOk result (λ t. t ≡ item_part item.now) }
{
    if is_nil(item.as_str()) {
        return Ok(Text::new(alloc));
    }
    let mut text = Text::copy_of(alloc, " @ ")?;
    text.push_str(item.as_str())?;
    Ok(text)
}

#[tactic(auto, unfolding(crate::specs::Written::first_line))]
fn first_line(alloc: Global, set: &Set) -> Result<Text, AllocError>
    ensures { IfOk result (λ t. t ≡ first_line set.now) }
{
    let gender = gender_part(alloc, set.gender)?;
    let item = item_part(alloc, &set.item)?;
    let mut text = names_text(alloc, &set.nick, &set.species)?;
    text.push_str(gender.as_str())?;
    text.push_str(item.as_str())?;
    Ok(text)
}

#[tactic(auto, unfolding(crate::specs::Written::words_line))]
fn words_line(
    alloc: Global,
    lines: &mut Vec<Text>,
    key: &str,
    text: &Text,
) -> Result<(), AllocError>
    ensures { OnOk result (lines.new.items ≡ lines.old.items ++ words_line key.now text.now) }
{
    if !is_nil(text.as_str()) {
        let mut line = Text::copy_of(alloc, key)?;
        line.push_str(text.as_str())?;
        lines.push(line)?;
    }
    Ok(())
}

#[tactic(auto, unfolding(crate::specs::Written::level_line))]
fn level_line(alloc: Global, lines: &mut Vec<Text>, level: u8) -> Result<(), AllocError>
    ensures { OnOk result (lines.new.items ≡ lines.old.items ++ level_line level) }
{
    if level != 100 {
        lines.push(Text::from_string(format!(in alloc; "Level: {level}")?))?;
    }
    Ok(())
}

#[tactic(auto, unfolding(crate::specs::Written::shiny_line))]
fn shiny_line(alloc: Global, lines: &mut Vec<Text>, shiny: bool) -> Result<(), AllocError>
    ensures { OnOk result (lines.new.items ≡ lines.old.items ++ shiny_line shiny) }
{
    if shiny {
        lines.push(Text::copy_of(alloc, "Shiny: Yes")?)?;
    }
    Ok(())
}

#[tactic(auto, unfolding(crate::specs::Written::nature_line))]
fn nature_line(alloc: Global, lines: &mut Vec<Text>, nature: &Text) -> Result<(), AllocError>
    ensures { OnOk result (lines.new.items ≡ lines.old.items ++ nature_line nature.now) }
{
    if !is_nil(nature.as_str()) {
        let mut line = nature.copy(alloc)?;
        line.push_str(" Nature")?;
        lines.push(line)?;
    }
    Ok(())
}

fn slash(before: &str) -> &'static str
    ensures { result.now ≡ slash before.now }
{
    if is_nil(before) { "" } else { " /" }
}

#[tactic(auto, unfolding(crate::specs::Written::with_stat))]
fn with_stat(
    alloc: Global,
    silent: u8,
    number: u8,
    name: &str,
    before: Text,
) -> Result<Text, AllocError>
    ensures { IfOk result (λ t. t ≡ with_stat silent number name.now before) }
{
    if number == silent {
        return Ok(before);
    }
    let number = Text::from_string(format!(in alloc; "{number}")?);
    let parted = slash(before.as_str());
    let mut text = before;
    text.push_str(parted)?;
    text.push_str(" ")?;
    text.push_str(number.as_str())?;
    text.push_str(" ")?;
    text.push_str(name)?;
    Ok(text)
}

fn six_stats(alloc: Global, silent: u8, six: (u8, u8, u8, u8, u8, u8)) -> Result<Text, AllocError>
    ensures { IfOk result (λ t. t ≡ stats_text silent (six.0 ∷ six.1 ∷ six.2 ∷ six.3 ∷ six.4 ∷ six.5 ∷ [])) }
{
    let text = with_stat(alloc, silent, six.0, "HP", Text::new(alloc))?;
    let text = with_stat(alloc, silent, six.1, "Atk", text)?;
    let text = with_stat(alloc, silent, six.2, "Def", text)?;
    let text = with_stat(alloc, silent, six.3, "SpA", text)?;
    let text = with_stat(alloc, silent, six.4, "SpD", text)?;
    with_stat(alloc, silent, six.5, "Spe", text)
}

fn stats_text(alloc: Global, silent: u8, numbers: &[u8]) -> Result<Text, AllocError>
    ensures { IfOk result (λ t. t ≡ stats_text silent numbers.now) }
{
    match numbers {
        [hp, atk, def, spa, spd, spe] => {
            six_stats(alloc, silent, (*hp, *atk, *def, *spa, *spd, *spe))
        }
        _ => Ok(Text::new(alloc)),
    }
}

fn or_zero(alloc: Global, stats: Text) -> Result<Text, AllocError>
    ensures { IfOk result (λ t. t ≡ or_zero stats) }
{
    if is_nil(stats.as_str()) {
        return Text::copy_of(alloc, " 0 HP");
    }
    Ok(stats)
}

fn are_all(n: u8, numbers: &[u8; 6]) -> bool
    ensures { result ≡ are_all n numbers.now }
{
    numbers.iter().all(|m| *m == n)
}

#[tactic(auto, unfolding(crate::specs::Written::evs_line))]
fn evs_line(alloc: Global, lines: &mut Vec<Text>, evs: &[u8; 6]) -> Result<(), AllocError>
    ensures { OnOk result (lines.new.items ≡ lines.old.items ++ evs_line evs.now) }
{
    if !are_all(252, evs) {
        let stats = stats_text(alloc, 0, evs)?;
        let stats = or_zero(alloc, stats)?;
        let mut line = Text::copy_of(alloc, "EVs:")?;
        line.push_str(stats.as_str())?;
        lines.push(line)?;
    }
    Ok(())
}

#[tactic(auto, unfolding(crate::specs::Written::ivs_line))]
fn ivs_line(alloc: Global, lines: &mut Vec<Text>, ivs: &[u8; 6]) -> Result<(), AllocError>
    ensures { OnOk result (lines.new.items ≡ lines.old.items ++ ivs_line ivs.now) }
{
    if !are_all(31, ivs) {
        let stats = stats_text(alloc, 31, ivs)?;
        let mut line = Text::copy_of(alloc, "IVs:")?;
        line.push_str(stats.as_str())?;
        lines.push(line)?;
    }
    Ok(())
}

fn move_lines(alloc: Global, lines: &mut Vec<Text>, moves: &[Id]) -> Result<(), AllocError>
    ensures { OnOk result (lines.new.items ≡ lines.old.items ++ map move_line moves.now) }
{
    for id in moves {
        let mut line = Text::copy_of(alloc, "- ")?;
        line.push_str(id.as_str())?;
        lines.push(line)?;
    }
    Ok(())
}

fn set_lines(alloc: Global, set: &Set) -> Result<Vec<Text>, AllocError>
    ensures { IfOk result (λ v. v.items ≡ set_lines set.now) }
{
    let mut lines = Vec::new(alloc);
    lines.push(first_line(alloc, set)?)?;
    words_line(alloc, &mut lines, "Ability: ", &set.ability)?;
    level_line(alloc, &mut lines, set.level)?;
    shiny_line(alloc, &mut lines, set.shiny)?;
    words_line(alloc, &mut lines, "Misc: ", &set.misc)?;
    nature_line(alloc, &mut lines, &set.nature)?;
    evs_line(alloc, &mut lines, &set.evs)?;
    ivs_line(alloc, &mut lines, &set.ivs)?;
    move_lines(alloc, &mut lines, set.moves.as_slice())?;
    Ok(lines)
}

#[tactic(auto, unfolding(crate::specs::Written::block))]
fn block(alloc: Global, set: &Set) -> Result<Text, AllocError>
    ensures { IfOk result (λ t. t ≡ block set.now) }
{
    let mut lines = set_lines(alloc, set)?;
    lines.push(Text::new(alloc))?;
    joined(alloc, &lines, '\n')
}

fn blocks(alloc: Global, sets: &[Set]) -> Result<Vec<Text>, AllocError>
    ensures { IfOk result (λ v. v.items ≡ map block sets.now) }
{
    let mut blocks = Vec::new(alloc);
    for set in sets {
        blocks.push(block(alloc, set)?)?;
    }
    Ok(blocks)
}

#[tactic(auto, unfolding(crate::specs::Written::export_text))]
fn export_text(alloc: Global, sets: &[Set]) -> Result<Text, AllocError>
    ensures { IfOk result (λ t. t ≡ export_text sets.now) }
{
    let blocks = blocks(alloc, sets)?;
    joined(alloc, &blocks, '\n')
}

/// The export text of a team, which `read_export` reads as this team again.
#[tactic(auto, using(crate::proofs::RoundTrip::again_is))]
pub fn write_export(alloc: Global, team: &Team) -> Result<Text, WriteExportFault>
    // The text is the team's.
    ensures text { IfOk result (λ t. t ≡ export_text team.now) }
    // Every set could be written.
    ensures writable { IfOk result (λ _. first_unwritable 1 team.now ≡ None) }
    // It is an export text of the team.
    ensures again { IfOk result (λ t. IsExport t team.now) }
    // A fault comes exactly where it is the team's.
    ensures fault { IfErr result (WriteFails team.now) }
{
    let sets = team.sets();
    if let Some(set) = first_unwritable(sets) {
        return Err(WriteExportFault::Unwritable { set });
    }
    let text = export_text(alloc, sets)?;
    if text.len() > MOST_EXPORT {
        return Err(WriteExportFault::Long {
            bytes: counted(text.len()),
        });
    }
    Ok(text)
}
