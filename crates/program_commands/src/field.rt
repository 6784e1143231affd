//! Who plays a tournament.
ghost use Rattle.std.specs.Prelude.{◌≡◌, IfOk, IfErr, Some};
ghost use Rattle.std.specs.Option.{option_map};
ghost use Rattle.replay_drill.specs.Fights.{fight_of};
ghost use Rattle.program_commands.specs.Fields.{first_rules, HasField, LacksField, AreKept};

use crate::check::team_of;
use crate::status::Status;
use ps_base::text::Text;
use ps_dex::dex::Dex;
use ps_packed::fault::PackFault;
use ps_rules::table::{Format, RuleTable};
use ps_valid::check::check_team;
use ps_valid::verdict::TeamFault;
use replay_drill::fight::Fight;
use rules_config::config::Config;
use std::alloc::Global;

// Whether the packed team of a text keeps the rules.
#[tactic(auto, using(crate::proofs::FieldLemmas::keeps_rules))]
fn kept(alloc: Global, dex: &Dex, rules: &RuleTable, text: &Text) -> Result<bool, Status>
    ensures tells { IfOk result (AreKept dex.now rules.now text.now) }
    ensures memory { IfErr result (λ s. s ≡ Status.NoMemory) }
{
    let team = match team_of(alloc, text.as_str().as_bytes()) {
        Err(PackFault::NoMemory) => return Err(Status::NoMemory),
        Err(PackFault::Fault { .. }) => return Ok(false),
        Ok(team) => team,
    };
    match check_team(alloc, dex, rules, &team) {
        Err(TeamFault::NoMemory) => Err(Status::NoMemory),
        Err(TeamFault::Verdict(_)) => Ok(false),
        Ok(_) => Ok(true),
    }
}

/// What is played under the first format. `None` exactly where there is no format.
pub fn first_rules(formats: &[Format]) -> Option<&RuleTable>
    ensures { option_map (λ t. t.now) result ≡ first_rules formats.now }
{
    match formats {
        [] => None,
        [first, ..] => Some(&first.table),
    }
}

// The battles, where the team is legal in the first format.
#[tactic(auto, using(crate::proofs::FieldLemmas::has_field, crate::proofs::FieldLemmas::lacks_rules, crate::proofs::FieldLemmas::lacks_legal))]
fn legal_fight(alloc: Global, config: &Config, dex: &Dex, fight: Fight) -> Result<Fight, Status>
    requires { fight_of config.now dex.now ≡ Some fight }
    ensures found { IfOk result (HasField config.now dex.now) }
    ensures none { IfErr result (LacksField config.now dex.now) }
{
    match first_rules(config.formats().list()) {
        None => Err(Status::NoTour),
        Some(rules) => match kept(alloc, dex, rules, &fight.team) {
            Err(status) => Err(status),
            Ok(false) => Err(Status::NoTour),
            Ok(true) => Ok(fight),
        },
    }
}

/// The format and the team of a tournament's battles: those of a drill's battle, or `NoTour` exactly where the dex has no
/// species, or the configuration no format, or the team isn't legal in the first format. `NoMemory` may come at any.
#[tactic(auto, using(crate::proofs::FieldLemmas::lacks_fight))]
pub fn tour_fight(alloc: Global, config: &Config, dex: &Dex) -> Result<Fight, Status>
    ensures found { IfOk result (HasField config.now dex.now) }
    ensures none { IfErr result (LacksField config.now dex.now) }
{
    match Fight::of(alloc, config, dex) {
        Err(_) => Err(Status::NoMemory),
        Ok(None) => Err(Status::NoTour),
        Ok(Some(fight)) => legal_fight(alloc, config, dex, fight),
    }
}
