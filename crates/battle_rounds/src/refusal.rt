//! Why a battle's commands are refused, and the choice that a text stands for.
ghost use Rattle.std.specs.Prelude.{◌≡◌, ◌<◌, IfOk, option_map};
ghost use Rattle.ps_mon.specs.Choices.{IsChoiceOf};
ghost use Rattle.ps_mon.specs.Valid.{IsSound, is_over};
ghost use Rattle.ps_choice.specs.Wants.{want_of};
ghost use Rattle.battle_rounds.specs.Bouts.{CanWait};
ghost use Rattle.battle_rounds.specs.Refusals.{why_of, is_stale, choice_in, chosen, refusal_of_undo, refusal_of_forfeit};

use crate::bout::{Bout, waiting};
use ps_base::why::Why;
use ps_choice::legality::is_asked;
use ps_choice::resolution::resolve;
use ps_choice::wanted::{Wanted, read_choice};
use ps_dex::dex::Dex;
use ps_mon::choice::{Choice, ChoiceFault};
use ps_mon::record::{Battle, Phase};

fn why_of(fault: ChoiceFault) -> Why
    ensures { result ≡ why_of fault }
{
    match fault {
        ChoiceFault::NotYourTurn => Why::NotYourTurn,
        ChoiceFault::WrongPhase => Why::WrongPhase,
        ChoiceFault::Locked => Why::Locked,
        ChoiceFault::NoSuchMove => Why::NoSuchMove,
        ChoiceFault::NoPp => Why::NoPp,
        ChoiceFault::Disabled => Why::Disabled,
        ChoiceFault::NoSuchMember => Why::NoSuchMember,
        ChoiceFault::AlreadyOut => Why::AlreadyOut,
        ChoiceFault::Fainted => Why::Fainted,
    }
}

fn is_stale(round: u32, number: Option<u32>) -> bool
    ensures { result ≡ is_stale round number }
{
    match number {
        None => false,
        Some(number) => number != round,
    }
}

fn choice_in(
    battle: &Battle,
    dex: &Dex,
    side: u8,
    wanted: Option<Wanted<'_>>,
) -> Result<Choice, Why>
    requires sound { IsSound battle.now }
    requires side { side < 2 }
    ensures value { result ≡ choice_in battle.now side dex.now (option_map want_of wanted.entry) }
    ensures choice { IfOk result (λ choice. IsChoiceOf battle.now side choice) }
{
    match wanted {
        None => Err(Why::BadChoice),
        Some(wanted) => match resolve(battle, dex, side, wanted) {
            Ok(choice) => Ok(choice),
            Err(fault) => Err(why_of(fault)),
        },
    }
}

/// The choice that a text of a side, 0 or 1, stands for, or why it is refused: `NotYourTurn` where the side isn't asked,
/// `AlreadyChosen` where a choice of it waits, `StaleRequest` where another round than the open one is named, `BadChoice`
/// where the text is no choice, and then the first fault of the choice. Takes no memory.
#[tactic(auto, unfolding(crate::specs::Refusals::chosen))]
pub fn choice_of(
    bout: &Bout,
    dex: &Dex,
    side: u8,
    text: &str,
    number: Option<u32>,
) -> Result<Choice, Why>
    requires sound { IsSound bout.now.battle }
    requires side { side < 2 }
    ensures value { result ≡ chosen bout.now side dex.now text.now number }
    ensures waits { IfOk result (CanWait bout.now.battle side) }
{
    if !is_asked(bout.battle.phase, side) {
        return Err(Why::NotYourTurn);
    }
    if waiting(bout, side).is_some() {
        return Err(Why::AlreadyChosen);
    }
    if is_stale(bout.round, number) {
        return Err(Why::StaleRequest);
    }
    choice_in(&bout.battle, dex, side, read_choice(text))
}

/// Why a side, 0 or 1, can't take its choice back: `NothingChosen` where none waits. Takes no memory.
pub fn refusal_of_undo(bout: &Bout, side: u8) -> Option<Why>
    ensures { result ≡ refusal_of_undo bout.now side }
{
    if waiting(bout, side).is_some() {
        None
    } else {
        Some(Why::NothingChosen)
    }
}

/// Whether a battle is over.
pub(crate) fn is_over(phase: Phase) -> bool
    ensures { result ≡ is_over phase }
{
    matches!(phase, Phase::Won(_) | Phase::Tied)
}

/// Why nobody can give up: `NotYourTurn` where the battle is over. Takes no memory.
pub fn refusal_of_forfeit(bout: &Bout) -> Option<Why>
    ensures { result ≡ refusal_of_forfeit bout.now }
{
    if is_over(bout.battle.phase) {
        Some(Why::NotYourTurn)
    } else {
        None
    }
}
