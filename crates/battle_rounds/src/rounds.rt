//! What choices, undos and forfeits do to a battle. No call takes memory.
ghost use Rattle.std.specs.Prelude.{◌≡◌, ◌<◌, true, false, [], IfSome};
ghost use Rattle.ps_battle.specs.Openings.{team_of};
ghost use Rattle.ps_mon.specs.Choices.{IsChoiceOf};
ghost use Rattle.ps_mon.specs.Facts.{AreFair, figures};
ghost use Rattle.ps_mon.specs.Moves.{move_count};
ghost use Rattle.ps_mon.specs.Teams.{IsFresh, IsTeamKnown};
ghost use Rattle.ps_mon.specs.Valid.{is_over};
ghost use Rattle.battle_rounds.specs.Bouts.{IsBout, CanWait, waiting};
ghost use Rattle.battle_rounds.specs.Rounds.{outcome, opened, is_ready, choice_or_pass, committed, completed, chose, undone, gave_up};
ghost use Rattle.battle_rounds.specs.Rounds.{finish_of, ended};

use crate::bout::{Bout, set_waiting, waiting};
use crate::finish::Finish;
use ps_battle::{commit, forfeit, open as open_battle};
use ps_choice::legality::is_asked;
use ps_event::event::{Event, Events};
use ps_hits::scene::side as side_name;
use ps_mon::choice::Choice;
use ps_mon::facts::Facts;
use ps_mon::record::Phase;
use ps_mon::team::BattleTeam;

/// Opens a battle of two fresh teams, whose moves are those of the facts: round 1 is open, and nothing waits. `clauses` has
/// a bit for each clause that is on, the lowest for the first.
#[tactic(auto, unfolding(crate::specs::Rounds::opened))]
pub fn open(
    teams: &[BattleTeam; 2],
    facts: Facts<'_>,
    clauses: u8,
    seed: u64,
    out: &mut Events,
) -> Bout
    requires first { IsFresh (team_of teams.now 0) }
    requires second { IsFresh (team_of teams.now 1) }
    requires fair { AreFair (figures facts) }
    requires first_known { IsTeamKnown (move_count (figures facts)) (team_of teams.now 0) }
    requires second_known { IsTeamKnown (move_count (figures facts)) (team_of teams.now 1) }
    requires empty { out.old.items ≡ [] }
    ensures opening { outcome result out.new ≡ opened teams.now clauses seed }
    ensures bout { IsBout (figures facts.entry) result }
{
    let battle = open_battle(teams, clauses, seed, out);
    Bout {
        battle,
        round: 1,
        first: None,
        second: None,
    }
}

fn is_ready(bout: &Bout, side: u8) -> bool
    requires { side < 2 }
    ensures { result ≡ is_ready bout.now side }
{
    !is_asked(bout.battle.phase, side) || waiting(bout, side).is_some()
}

/// What a side that is ready is committed with.
#[tactic(auto, using(crate::proofs::RoundLemmas::ready_choices))]
fn committed_choice(bout: &Bout, side: u8) -> Choice
    requires side { side < 2 }
    requires waits { IfSome (waiting bout.now side) (CanWait bout.now.battle side) }
    requires ready { is_ready bout.now side ≡ true }
    ensures value { result ≡ choice_or_pass (waiting bout.now side) }
    ensures choice { IsChoiceOf bout.now.battle side result }
{
    match waiting(bout, side) {
        Some(choice) => choice,
        None => Choice::Pass,
    }
}

#[tactic(auto, unfolding(crate::specs::Rounds::committed))]
fn commit_both(bout: &mut Bout, facts: Facts<'_>, out: &mut Events)
    requires bout { IsBout (figures facts) bout.old }
    requires going { is_over bout.old.battle.phase ≡ false }
    requires first { is_ready bout.old 0 ≡ true }
    requires second { is_ready bout.old 1 ≡ true }
    requires empty { out.old.items ≡ [] }
    ensures after { outcome bout.new out.new ≡ committed (figures facts.entry) bout.old }
    ensures bout { IsBout (figures facts.entry) bout.new }
{
    let first = committed_choice(bout, 0);
    let second = committed_choice(bout, 1);
    commit(&mut bout.battle, facts, first, second, out);
    bout.round = bout.round.saturating_add(1);
    bout.first = None;
    bout.second = None;
}

#[tactic(auto, unfolding(crate::specs::Rounds::completed))]
fn complete(bout: &mut Bout, facts: Facts<'_>, out: &mut Events)
    requires bout { IsBout (figures facts) bout.old }
    requires going { is_over bout.old.battle.phase ≡ false }
    requires empty { out.old.items ≡ [] }
    ensures after { outcome bout.new out.new ≡ completed (figures facts.entry) bout.old }
    ensures bout { IsBout (figures facts.entry) bout.new }
{
    if is_ready(bout, 0) && is_ready(bout, 1) {
        commit_both(bout, facts, out);
    }
}

/// A side, 0 or 1, chooses. The choice waits, and nothing is told; where the other side has chosen or isn't asked, both are
/// committed, and the next round opens.
#[tactic(auto, using(crate::proofs::RoundLemmas::waits))]
pub fn choose(bout: &mut Bout, facts: Facts<'_>, side: u8, choice: Choice, out: &mut Events)
    requires bout { IsBout (figures facts) bout.old }
    requires side { side < 2 }
    requires waits { CanWait bout.old.battle side choice }
    requires empty { out.old.items ≡ [] }
    ensures after { outcome bout.new out.new ≡ chose (figures facts.entry) side choice bout.old }
    ensures bout { IsBout (figures facts.entry) bout.new }
{
    set_waiting(bout, side, Some(choice));
    complete(bout, facts, out);
}

/// A side, 0 or 1, takes its choice back, and is asked again.
#[tactic(auto, using(crate::proofs::RoundLemmas::waits_not))]
pub fn undo(bout: &mut Bout, facts: Facts<'_>, side: u8, out: &mut Events)
    requires bout { IsBout (figures facts) bout.old }
    requires empty { out.old.items ≡ [] }
    ensures after { outcome bout.new out.new ≡ undone side bout.old }
    ensures bout { IsBout (figures facts.entry) bout.new }
{
    set_waiting(bout, side, None);
    out.push(Event::Request {
        side: side_name(side),
    });
}

/// A side, 0 or 1, gives up, and the other one wins.
#[tactic(auto, unfolding(crate::specs::Rounds::gave_up))]
pub fn give_up(bout: &mut Bout, facts: Facts<'_>, side: u8, out: &mut Events)
    requires bout { IsBout (figures facts) bout.old }
    requires going { is_over bout.old.battle.phase ≡ false }
    requires side { side < 2 }
    requires empty { out.old.items ≡ [] }
    ensures after { outcome bout.new out.new ≡ gave_up side bout.old }
    ensures bout { IsBout (figures facts.entry) bout.new }
{
    forfeit(&mut bout.battle, side, out);
    bout.first = None;
    bout.second = None;
}

fn finish_of(phase: Phase) -> Option<Finish>
    ensures { result ≡ finish_of phase }
{
    match phase {
        Phase::Won(side) => Some(Finish::Won(side)),
        Phase::Tied => Some(Finish::Tied),
        _ => None,
    }
}

/// How a battle ended between two phases. `None` where it was over before, and where it goes on.
pub fn ended(before: Phase, after: Phase) -> Option<Finish>
    ensures { result ≡ ended before after }
{
    match before {
        Phase::Won(_) | Phase::Tied => None,
        _ => finish_of(after),
    }
}
