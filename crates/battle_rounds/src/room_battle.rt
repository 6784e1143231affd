//! The battle of a room.
ghost use Rattle.std.specs.Prelude.{◌≡◌, ◌<◌, ◌++◌, ◌∷◌, [], Some, None, length, IfSome, IfOk, IfErr, OnOk};
ghost use Rattle.ps_battle.specs.Openings.{team_of};
ghost use Rattle.ps_dex.specs.Figures.{figures_of};
ghost use Rattle.ps_mon.specs.Teams.{IsFresh, IsTeamKnown};
ghost use Rattle.ps_mon.specs.Valid.{IsSound};
ghost use Rattle.battle_rounds.specs.Bouts.{IsBout};
ghost use Rattle.battle_rounds.specs.Rounds.{outcome, opened};
ghost use Rattle.battle_rounds.specs.Fights.{refusal_in, outcome_in, outcome_of, CanDecide, bout_or, request_of, requests, open_request};
ghost use Rattle.ps_event.specs.Sides.{side_number};

use crate::bout::{Bout, BoutBox};
use crate::cast::Cast;
use crate::decision::{Decision, decide};
use crate::refusal::is_over;
use crate::request::request_line;
use crate::rounds::{choose, give_up, open, undo};
use ps_base::text::Text;
use ps_base::why::Why;
use ps_dex::dex::Dex;
use ps_event::audience::Audience;
use ps_event::event::{Event, Events};
use ps_event::line::ChatLine;
use ps_event::side::Side;
use ps_lines::command::Command;
use ps_mon::team::BattleTeam;
use std::alloc::{AllocError, Global};
use std::marker::Model;

/// The battle of a room: its number, from 1, what its lines name, and its rounds. Contracts see the three.
pub struct RoomBattle {
    number: u32,
    cast: Cast,
    bout: Bout,
}

// By hand, so that who drops one has one call to prove.
impl Drop for RoomBattle {
    fn drop(self) {
        let RoomBattle {
            number: _,
            cast: _,
            bout: _,
        } = self;
    }
}

impl Model for RoomBattle {
    ghost use Rattle.ps_dex.specs.Figures.{figures_of};
    ghost use Rattle.battle_rounds.specs.Bouts.{IsBout};
    ghost use Rattle.battle_rounds.specs.Fights.{Fight};

    ghost Value = { Fight };

    ghost view = { λ b. record { number = b.number; cast = b.cast; bout = b.bout } };

    ghost invariant = { λ b. IsBout (figures_of b.cast.dex) b.bout };
}

// Puts the request that an event tells of behind the others.
fn push_request(
    alloc: Global,
    lines: &mut Vec<ChatLine<Text>>,
    cast: &Cast,
    bout: &Bout,
    event: Event,
) -> Result<(), AllocError>
    requires { IsSound bout.now.battle }
    ensures { OnOk result (lines.new.items ≡ lines.old.items ++ requests cast.now bout.now (event ∷ [])) }
{
    match event {
        Event::Request { side } => {
            lines.push(request_of(alloc, cast, bout, side)?)?;
            Ok(())
        }
        _ => Ok(()),
    }
}

fn number_of_side(side: Side) -> u8
    ensures value { result ≡ side_number side }
    ensures within { result < 2 }
{
    match side {
        Side::P1 => 0,
        Side::P2 => 1,
    }
}

fn request_of(
    alloc: Global,
    cast: &Cast,
    bout: &Bout,
    side: Side,
) -> Result<ChatLine<Text>, AllocError>
    requires { IsSound bout.now.battle }
    ensures { IfOk result (λ line. line ≡ request_of cast.now bout.now side) }
{
    Ok(ChatLine {
        audience: Audience::Side(side),
        logged: false,
        text: request_line(alloc, bout, cast.dex(), cast.names(), number_of_side(side))?,
    })
}

/// The requests that events tell of, for a battle as it stands after them.
pub fn requests(
    alloc: Global,
    cast: &Cast,
    bout: &Bout,
    events: &[Event],
) -> Result<Vec<ChatLine<Text>>, AllocError>
    requires { IsSound bout.now.battle }
    ensures { IfOk result (λ lines. lines.items ≡ requests cast.now bout.now events.now) }
{
    let mut lines = Vec::new(alloc);
    for event in events {
        push_request(alloc, &mut lines, cast, bout, *event)?;
    }
    Ok(lines)
}

// Does to the rounds what was decided. Takes no memory.
fn carry_out(bout: &mut Bout, dex: &Dex, decision: Decision, out: &mut Events)
    requires bout { IsBout (figures_of dex.now) bout.old }
    requires can { CanDecide bout.old decision }
    requires empty { out.old.items ≡ [] }
    ensures after { outcome bout.new out.new ≡ outcome_of dex.now bout.old decision }
    ensures bout { IsBout (figures_of dex.now) bout.new }
{
    match decision {
        Decision::Nothing => {}
        Decision::Choose { side, choice } => choose(bout, dex.facts(), side, choice, out),
        Decision::Undo { side } => undo(bout, dex.facts(), side, out),
        Decision::Forfeit { side } => give_up(bout, dex.facts(), side, out),
    }
}

impl RoomBattle {
    ghost use Rattle.battle_rounds.specs.Fights.{Fight};

    /// Opens the battle of this number: two fresh teams, whose moves are those of the dex. `clauses` has a bit for each
    /// clause that is on, the lowest for the first.
    pub fn open(
        number: u32,
        cast: Cast,
        teams: &[BattleTeam; 2],
        clauses: u8,
        seed: u64,
        out: &mut Events,
    ) -> RoomBattle
        requires first { IsFresh (team_of teams.now 0) }
        requires second { IsFresh (team_of teams.now 1) }
        requires first_known { IsTeamKnown (length cast.dex.moves) (team_of teams.now 0) }
        requires second_known { IsTeamKnown (length cast.dex.moves) (team_of teams.now 1) }
        requires empty { out.old.items ≡ [] }
        ensures battle { result ≡ record { number = number; cast = cast; bout = (opened teams.now clauses seed).bout } }
        ensures told { out.new.items ≡ (opened teams.now clauses seed).told }
    {
        let bout = open(teams, cast.dex().facts(), clauses, seed, out);
        RoomBattle { number, cast, bout }
    }

    /// The number of the battle, from 1.
    pub fn number(&self) -> u32
        ensures { result ≡ self.now.number }
    {
        self.number
    }

    /// What its lines name.
    pub fn cast(&self) -> &Cast
        ensures { result.now ≡ self.now.cast }
    {
        &self.cast
    }

    /// Its rounds.
    pub fn bout(&self) -> &Bout
        ensures value { result.now ≡ self.now.bout }
        ensures bout { IsBout (figures_of self.now.cast.dex) result.now }
    {
        &self.bout
    }

    /// What a command of a member that plays this side, 0 or 1, or none, comes to, or why the battle refuses it. Takes no memory.
    pub fn decide(&self, side: Option<u8>, cmd: &Command) -> Result<Decision, Why>
        requires { IfSome side (λ s. s < 2) }
        ensures refused { IfErr result (λ why. refusal_in self.now.cast.dex self.now.bout side cmd.now ≡ Some why) }
        ensures allowed { IfOk result (λ d. refusal_in self.now.cast.dex self.now.bout side cmd.now ≡ None) }
        ensures outcome { IfOk result (λ d. outcome_of self.now.cast.dex self.now.bout d
            ≡ outcome_in self.now.cast.dex self.now.bout side cmd.now) }
        ensures can { IfOk result (CanDecide self.now.bout) }
    {
        decide(&self.bout, self.cast.dex(), side, cmd)
    }

    /// Why the battle refuses a command of a member that plays this side, 0 or 1, or none. Takes no memory.
    pub fn refusal(&self, side: Option<u8>, cmd: &Command) -> Option<Why>
        requires { IfSome side (λ s. s < 2) }
        ensures { result ≡ refusal_in self.now.cast.dex self.now.bout side cmd.now }
    {
        match self.decide(side, cmd) {
            Ok(_) => None,
            Err(why) => Some(why),
        }
    }

    /// What a decision makes of the battle, and the events of it; `None` where it is nothing. The battle stays as it is. Fails
    /// only if out of memory.
    pub fn after(
        &self,
        alloc: Global,
        decision: Decision,
        out: &mut Events,
    ) -> Result<Option<BoutBox>, AllocError>
        requires can { CanDecide self.now.bout decision }
        requires empty { out.old.items ≡ [] }
        ensures after { IfOk result (λ next. outcome (bout_or self.now.bout next) out.new
            ≡ outcome_of self.now.cast.dex self.now.bout decision) }
        ensures bout { IfOk result (λ next. IfSome next (IsBout (figures_of self.now.cast.dex))) }
    {
        if decision == Decision::Nothing {
            return Ok(None);
        }
        let mut bout = Box::new(alloc, self.bout)?;
        carry_out(&mut *bout, self.cast.dex(), decision, out);
        Ok(Some(BoutBox::new(bout)))
    }

    /// The battle goes on from here.
    pub fn go_on(&mut self, bout: BoutBox)
        requires { IsBout (figures_of self.old.cast.dex) bout }
        ensures { self.new ≡ record self.old { bout = bout } }
    {
        self.bout = *bout.bout();
    }

    /// The request that the player of a side, 0 or 1, is given who joins: that of the open round. None for who plays no side,
    /// and after the battle's end.
    pub fn open_request(&self, alloc: Global, side: Option<u8>) -> Result<Option<Text>, AllocError>
        requires { IfSome side (λ s. s < 2) }
        ensures { IfOk result (λ text. text ≡ open_request self.now side) }
    {
        match side {
            None => Ok(None),
            Some(side) => {
                if is_over(self.bout.battle.phase) {
                    return Ok(None);
                }
                let line = request_line(
                    alloc,
                    &self.bout,
                    self.cast.dex(),
                    self.cast.names(),
                    side,
                )?;
                Ok(Some(line))
            }
        }
    }
}
