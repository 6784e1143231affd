//! What is told of the battle of a drill.
ghost use Rattle.std.specs.Prelude.{◌≡◌, decimal, IfOk, Some};
ghost use Rattle.program_show.specs.DrillRows.{IsTrial, broken_text, unpacked_text, trial_text, fight_rows};
ghost use Rattle.program_show.specs.DrillRows.{no_fight_rows, IsDrillIn, IsDrill};

use crate::dex_rows::decimal_text;
use crate::rows::{push_row, push_text};
use file_help::page::Row;
use program_commands::check::team_of;
use program_commands::field::first_rules;
use ps_base::pack_kind::PackKind;
use ps_base::text::Text;
use ps_dex::dex::Dex;
use ps_packed::fault::PackFault;
use ps_rules::table::RuleTable;
use ps_valid::check::check_team;
use ps_valid::verdict::{TeamFault, Verdict};
use replay_drill::fight::Fight;
use rules_config::config::Config;
use std::alloc::{AllocError, Global};

/// What the check of a packed text finds.
#[derive(Drop)]
pub(crate) enum Trial {
    /// Its team keeps all rules.
    Legal,
    /// The first rule that its team breaks.
    Broken(Verdict),
    /// It isn't packed: the byte of its fault, and what is wrong there.
    Unpacked(u32, PackKind),
}

fn trial_of(alloc: Global, dex: &Dex, rules: &RuleTable, text: &Text) -> Result<Trial, AllocError>
    ensures { IfOk result (IsTrial dex.now rules.now text.now) }
{
    match team_of(alloc, text.as_str().as_bytes()) {
        Err(PackFault::NoMemory) => Err(AllocError),
        Err(PackFault::Fault { at, kind }) => Ok(Trial::Unpacked(at, kind)),
        Ok(team) => match check_team(alloc, dex, rules, &team) {
            Err(TeamFault::NoMemory) => Err(AllocError),
            Err(TeamFault::Verdict(verdict)) => Ok(Trial::Broken(verdict)),
            Ok(_) => Ok(Trial::Legal),
        },
    }
}

#[tactic(auto, unfolding(crate::specs::DrillRows::broken_text))]
fn broken_text(alloc: Global, verdict: &Verdict) -> Result<Text, AllocError>
    ensures { IfOk result (λ t. t ≡ broken_text verdict.now) }
{
    let set = decimal_text(alloc, verdict.set)?;
    let mut text = Text::copy_of(alloc, "BadTeam set=")?;
    text.push_str(set.as_str())?;
    text.push_str(" rule=")?;
    text.push_str(verdict.rule.name())?;
    text.push_str(" subject=")?;
    text.push_str(verdict.subject.as_str())?;
    Ok(text)
}

fn place_text(alloc: Global, at: u32) -> Result<Text, AllocError>
    ensures { IfOk result (λ t. t ≡ decimal at) }
{
    Ok(Text::from_string(format!(in alloc; "{at}")?))
}

#[tactic(auto, unfolding(crate::specs::DrillRows::unpacked_text))]
fn unpacked_text(alloc: Global, at: u32, kind: PackKind) -> Result<Text, AllocError>
    ensures { IfOk result (λ t. t ≡ unpacked_text at kind) }
{
    let place = place_text(alloc, at)?;
    let mut text = Text::copy_of(alloc, "BadPack at=")?;
    text.push_str(place.as_str())?;
    text.push_str(" kind=")?;
    text.push_str(kind.name())?;
    Ok(text)
}

fn trial_text(alloc: Global, trial: &Trial) -> Result<Text, AllocError>
    ensures { IfOk result (λ t. t ≡ trial_text trial.now) }
{
    match trial {
        Trial::Legal => Text::copy_of(alloc, "legal"),
        Trial::Broken(verdict) => broken_text(alloc, verdict),
        Trial::Unpacked(at, kind) => unpacked_text(alloc, *at, *kind),
    }
}

#[tactic(auto, unfolding(crate::specs::DrillRows::fight_rows))]
fn rows_of_fight(alloc: Global, fight: Fight, trial: &Trial) -> Result<Vec<Row>, AllocError>
    ensures { IfOk result (λ v. v.items ≡ fight_rows fight trial.now) }
{
    let told = trial_text(alloc, trial)?;
    let mut rows = Vec::new(alloc);
    push_text(alloc, &mut rows, "format", fight.format.as_str())?;
    push_row(alloc, &mut rows, "team", fight.team)?;
    push_row(alloc, &mut rows, "check", told)?;
    Ok(rows)
}

#[tactic(auto, unfolding(crate::specs::DrillRows::no_fight_rows))]
fn no_fight_rows(alloc: Global) -> Result<Vec<Row>, AllocError>
    ensures { IfOk result (λ v. v.items ≡ no_fight_rows) }
{
    let mut rows = Vec::new(alloc);
    push_text(
        alloc,
        &mut rows,
        "battle",
        "none, without a format and a species",
    )?;
    Ok(rows)
}

fn tried_rows(
    alloc: Global,
    dex: &Dex,
    rules: &RuleTable,
    fight: Fight,
) -> Result<Vec<Row>, AllocError>
    ensures { IfOk result (λ v. IsDrillIn dex.now (Some rules.now) (Some fight) v.items) }
{
    let trial = trial_of(alloc, dex, rules, &fight.team)?;
    rows_of_fight(alloc, fight, &trial)
}

/// The format and the team that a drill would play with, and what the check of the team finds.
pub(crate) fn drill_rows(alloc: Global, dex: &Dex, config: &Config) -> Result<Vec<Row>, AllocError>
    ensures { IfOk result (λ v. IsDrill dex.now config.now v.items) }
{
    match first_rules(config.formats().list()) {
        None => no_fight_rows(alloc),
        Some(rules) => match Fight::of(alloc, config, dex)? {
            None => no_fight_rows(alloc),
            Some(fight) => tried_rows(alloc, dex, rules, fight),
        },
    }
}
