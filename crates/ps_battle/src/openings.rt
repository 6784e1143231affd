//! The opening of a battle, and its end by a forfeit.
ghost use Rattle.std.specs.Prelude.{◌≡◌, ◌≤◌, ◌<◌, ◌+◌, ◌++◌, ◌-◌, ℕ, [], ◌∷◌, false};
ghost use Rattle.arrayvec.specs.ArrayVec.{array_vec_len};
ghost use Rattle.ps_mon.specs.Teams.{IsFresh, IsTeamKnown};
ghost use Rattle.ps_mon.specs.Reading.{side_of};
ghost use Rattle.ps_mon.specs.Valid.{IsSide, IsSound, IsValid, is_over};
ghost use Rattle.ps_mon.specs.Known.{AreKnown};
ghost use Rattle.ps_hits.specs.Courses.{course};
ghost use Rattle.ps_hits.specs.Told.{side_name};
ghost use Rattle.ps_battle.specs.Openings.{team_of, rule, rules, heads, pokes, previewed, started, shown_in, first_phase};
ghost use Rattle.ps_battle.specs.Openings.{fresh_battle, opening, open_course, give_up};

use crate::closings::ask;
use crate::switches::coming;
use ps_event::event::{Event, Events};
use ps_event::side::Side;
use ps_hits::scene::side as side_name;
use ps_mon::opening::open_side;
use ps_mon::record::{Battle, Phase, SideState};
use ps_mon::team::BattleTeam;

#[tactic(auto, unfolding(crate::specs::Openings::rule))]
fn show_rule(clauses: u8, bit: u8, clause: u8, out: &mut Events)
    requires { array_vec_len out.old + 1 ≤ 160 }
    ensures told { out.new.items ≡ rule clauses bit clause out.old.items }
    ensures room { array_vec_len out.new ≤ array_vec_len out.old + 1 }
{
    if clauses & bit != 0 {
        out.push(Event::Rule { clause });
    }
}

#[tactic(auto, unfolding(crate::specs::Openings::rules))]
fn show_rules(clauses: u8, out: &mut Events)
    requires { array_vec_len out.old + 8 ≤ 160 }
    ensures told { out.new.items ≡ rules clauses out.old.items }
    ensures room { array_vec_len out.new ≤ array_vec_len out.old + 8 }
{
    show_rule(clauses, 1, 0, out);
    show_rule(clauses, 2, 1, out);
    show_rule(clauses, 4, 2, out);
    show_rule(clauses, 8, 3, out);
    show_rule(clauses, 16, 4, out);
    show_rule(clauses, 32, 5, out);
    show_rule(clauses, 64, 6, out);
    show_rule(clauses, 128, 7, out);
}

#[tactic(auto, unfolding(crate::specs::Openings::heads))]
fn show_heads(one: u8, two: u8, out: &mut Events)
    requires { array_vec_len out.old + 7 ≤ 160 }
    ensures told { out.new.items ≡ heads one two out.old.items }
    ensures room { array_vec_len out.new ≤ array_vec_len out.old + 7 }
{
    let (p1, p2) = (Side::P1, Side::P2);
    out.push(Event::Player { side: p1 });
    out.push(Event::Player { side: p2 });
    out.push(Event::TeamSize {
        side: p1,
        count: one,
    });
    out.push(Event::TeamSize {
        side: p2,
        count: two,
    });
    out.push(Event::GameType);
    out.push(Event::Gen);
    out.push(Event::Tier);
}

/// What both sides see of the members of a side before they are sent out.
fn show_team(name: Side, side: &SideState, out: &mut Events)
    requires side { IsSide side.now }
    requires room { array_vec_len out.old + 6 ≤ 160 }
    ensures told { out.new.items ≡ out.old.items ++ pokes name side.now }
    ensures room { array_vec_len out.new ≤ array_vec_len out.old + 6 }
{
    for m in &side.members[..side.count as usize] {
        out.push(Event::Poke {
            side: name,
            species: m.species,
            level: m.level,
        });
    }
}

#[tactic(auto, unfolding(crate::specs::Openings::previewed))]
fn show_teams(battle: &Battle, out: &mut Events)
    requires sound { IsSound battle.now }
    requires room { array_vec_len out.old + 16 ≤ 160 }
    ensures told { out.new.items ≡ previewed battle.now out.old.items }
    ensures room { array_vec_len out.new ≤ array_vec_len out.old + 16 }
{
    out.push(Event::ClearPoke);
    show_team(Side::P1, &battle.sides[0], out);
    show_team(Side::P2, &battle.sides[1], out);
    out.push(Event::TeamPreview);
    ask(out);
}

/// The first members of both sides are sent out, and turn 1 begins.
#[tactic(auto, unfolding(crate::specs::Openings::started))]
pub(crate) fn start(battle: &Battle, out: &mut Events)
    requires sound { IsSound battle.now }
    requires room { array_vec_len out.old + 6 ≤ 160 }
    ensures told { out.new.items ≡ started battle.now out.old.items }
    ensures room { array_vec_len out.new ≤ array_vec_len out.old + 6 }
{
    out.push(Event::Start);
    out.push(coming(battle, 0));
    out.push(coming(battle, 1));
    out.push(Event::Turn { turn: 1 });
    ask(out);
}

fn show_first(battle: &Battle, out: &mut Events)
    requires sound { IsSound battle.now }
    requires room { array_vec_len out.old + 16 ≤ 160 }
    ensures told { out.new.items ≡ shown_in battle.now.phase battle.now out.old.items }
    ensures room { array_vec_len out.new ≤ array_vec_len out.old + 16 }
{
    match battle.phase {
        Phase::Preview => show_teams(battle, out),
        _ => start(battle, out),
    }
}

#[tactic(auto, unfolding(crate::specs::Openings::opening))]
fn show_opening(battle: &Battle, out: &mut Events)
    requires sound { IsSound battle.now }
    requires room { array_vec_len out.old + 31 ≤ 160 }
    ensures told { out.new.items ≡ opening battle.now out.old.items }
    ensures room { array_vec_len out.new ≤ array_vec_len out.old + 31 }
{
    show_heads(battle.sides[0].count, battle.sides[1].count, out);
    show_rules(battle.clauses, out);
    show_first(battle, out);
}

/// What a battle with these clauses waits for at first: under Team Preview, whose bit is 64, an order of each team.
#[tactic(auto, unfolding(crate::specs::Openings::first_phase))]
fn first_phase(clauses: u8) -> Phase
    ensures value { result ≡ first_phase clauses }
    ensures going { is_over result ≡ false }
{
    if clauses & 64 == 0 {
        return Phase::Turn;
    }
    Phase::Preview
}

#[tactic(auto, unfolding(crate::specs::Openings::fresh_battle))]
fn set_up(teams: &[BattleTeam; 2], clauses: u8, seed: u64) -> Battle
    requires first { IsFresh (team_of teams.now 0) }
    requires second { IsFresh (team_of teams.now 1) }
    ensures value { result ≡ fresh_battle teams.now clauses seed }
    ensures valid { IsValid result }
    ensures known { (moves : ℕ) → IsTeamKnown moves (team_of teams.now 0) → IsTeamKnown moves (team_of teams.now 1)
        → AreKnown moves result }
{
    let [one, two] = teams;
    Battle {
        sides: [open_side(one), open_side(two)],
        turn: 1,
        phase: first_phase(clauses),
        clauses,
        rng: seed,
    }
}

/// Opens a battle of two fresh teams: their first members are sent out, and turn 1 waits for choices; under Team Preview
/// nobody is sent out, and the battle waits for an order of each team. `clauses` has a bit for each clause that is on, the
/// lowest for the first. It tells at most 31 events.
pub fn open(teams: &[BattleTeam; 2], clauses: u8, seed: u64, out: &mut Events) -> Battle
    requires first { IsFresh (team_of teams.now 0) }
    requires second { IsFresh (team_of teams.now 1) }
    requires empty { out.old.items ≡ [] }
    ensures opening { course result out.new ≡ open_course teams.now clauses seed }
    ensures valid { IsValid result }
    ensures known { (moves : ℕ) → IsTeamKnown moves (team_of teams.now 0) → IsTeamKnown moves (team_of teams.now 1)
        → AreKnown moves result }
    ensures room { array_vec_len out.new ≤ 31 }
{
    let battle = set_up(teams, clauses, seed);
    show_opening(&battle, out);
    battle
}

/// A side, 0 or 1, gives up, and the other one wins. It tells 2 events.
#[tactic(auto, unfolding(crate::specs::Openings::give_up, crate::specs::Closings::enter))]
pub fn forfeit(battle: &mut Battle, side: u8, out: &mut Events)
    requires valid { IsValid battle.old }
    requires going { is_over battle.old.phase ≡ false }
    requires side { side < 2 }
    requires empty { out.old.items ≡ [] }
    ensures end { course battle.new out.new ≡ give_up side (course battle.old out.old) }
    ensures valid { IsValid battle.new }
    ensures known { (moves : ℕ) → AreKnown moves battle.old → AreKnown moves battle.new }
    ensures room { array_vec_len out.new ≡ 2 }
{
    battle.phase = Phase::Won(1 - side);
    out.push(Event::Forfeit {
        side: side_name(side),
    });
    out.push(Event::Win {
        side: side_name(1 - side),
    });
}

/// What a battle waits for.
pub fn phase(battle: &Battle) -> Phase
    ensures { result ≡ battle.now.phase }
{
    battle.phase
}
