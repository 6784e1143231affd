//! What a command of a battle comes to, worked out once.
ghost use Rattle.std.specs.Prelude.{◌≡◌, ◌<◌, Some, None, IfOk, IfErr, IfSome};
ghost use Rattle.ps_mon.specs.Valid.{IsSound};
ghost use Rattle.battle_rounds.specs.Refusals.{chosen, refusal_of_choose};
ghost use Rattle.battle_rounds.specs.Fights.{is_of_battle, refusal_of_side, refusal_in, chose_by, outcome_of_side, outcome_in};
ghost use Rattle.battle_rounds.specs.Fights.{outcome_of, CanDecide};

use crate::bout::Bout;
use crate::refusal::{choice_of, refusal_of_forfeit, refusal_of_undo};
use ps_base::why::Why;
use ps_dex::dex::Dex;
use ps_lines::command::Command;
use ps_mon::choice::Choice;

/// What an allowed command does to the rounds of a battle. Sides are 0 or 1.
#[derive(Clone, Copy, Debug, PartialEq, Eq)]
pub enum Decision {
    /// Nothing: it isn't a command of the battle.
    Nothing,
    /// A side chooses.
    Choose { side: u8, choice: Choice },
    /// A side takes its choice back.
    Undo { side: u8 },
    /// A side gives up.
    Forfeit { side: u8 },
}

fn is_of_battle(cmd: &Command) -> bool
    ensures { result ≡ is_of_battle cmd.now }
{
    matches!(
        cmd,
        Command::Choose { .. } | Command::Undo | Command::Forfeit
    )
}

fn unless(refusal: Option<Why>, decision: Decision) -> Result<Decision, Why>
    ensures refused { IfErr result (λ why. refusal ≡ Some why) }
    ensures allowed { IfOk result (λ d. refusal ≡ None) }
    ensures decision { IfOk result (λ d. d ≡ decision) }
{
    match refusal {
        None => Ok(decision),
        Some(why) => Err(why),
    }
}

fn decide_choice(
    bout: &Bout,
    dex: &Dex,
    side: u8,
    choice: &str,
    rqid: Option<u32>,
) -> Result<Decision, Why>
    requires sound { IsSound bout.now.battle }
    requires side { side < 2 }
    ensures refused { IfErr result (λ why. refusal_of_choose bout.now side dex.now choice.now rqid ≡ Some why) }
    ensures allowed { IfOk result (λ d. refusal_of_choose bout.now side dex.now choice.now rqid ≡ None) }
    ensures outcome { IfOk result (λ d. outcome_of dex.now bout.now d
        ≡ chose_by dex.now bout.now side (chosen bout.now side dex.now choice.now rqid)) }
    ensures can { IfOk result (CanDecide bout.now) }
{
    match choice_of(bout, dex, side, choice, rqid) {
        Ok(choice) => Ok(Decision::Choose { side, choice }),
        Err(why) => Err(why),
    }
}

fn decide_for_side(bout: &Bout, dex: &Dex, side: u8, cmd: &Command) -> Result<Decision, Why>
    requires sound { IsSound bout.now.battle }
    requires side { side < 2 }
    ensures refused { IfErr result (λ why. refusal_of_side dex.now bout.now side cmd.now ≡ Some why) }
    ensures allowed { IfOk result (λ d. refusal_of_side dex.now bout.now side cmd.now ≡ None) }
    ensures outcome { IfOk result (λ d. outcome_of dex.now bout.now d ≡ outcome_of_side dex.now bout.now side cmd.now) }
    ensures can { IfOk result (CanDecide bout.now) }
{
    match cmd {
        Command::Choose { choice, rqid } => decide_choice(bout, dex, side, choice.as_str(), *rqid),
        Command::Undo => unless(refusal_of_undo(bout, side), Decision::Undo { side }),
        Command::Forfeit => unless(refusal_of_forfeit(bout), Decision::Forfeit { side }),
        _ => Ok(Decision::Nothing),
    }
}

/// What a command of a member that plays this side, 0 or 1, or none, comes to, or why the battle refuses it. Takes no memory.
pub(crate) fn decide(
    bout: &Bout,
    dex: &Dex,
    side: Option<u8>,
    cmd: &Command,
) -> Result<Decision, Why>
    requires sound { IsSound bout.now.battle }
    requires side { IfSome side (λ s. s < 2) }
    ensures refused { IfErr result (λ why. refusal_in dex.now bout.now side cmd.now ≡ Some why) }
    ensures allowed { IfOk result (λ d. refusal_in dex.now bout.now side cmd.now ≡ None) }
    ensures outcome { IfOk result (λ d. outcome_of dex.now bout.now d ≡ outcome_in dex.now bout.now side cmd.now) }
    ensures can { IfOk result (CanDecide bout.now) }
{
    match side {
        None => {
            if is_of_battle(cmd) {
                return Err(Why::NotPlayer);
            }
            Ok(Decision::Nothing)
        }
        Some(side) => decide_for_side(bout, dex, side, cmd),
    }
}
