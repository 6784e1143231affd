//! A tournament line by line.
ghost use Rattle.std.specs.Prelude.{◌≡◌, ◌+◌, ◌≤◌, ◌<◌, IfOk, OnOk, Some};
ghost use Rattle.ps_tour.specs.Brackets.{champion, open_match, IsOneOf};
ghost use Rattle.replay_tour.specs.Tours.{begun, next_line, at_stage, won, again, tied, ended, chosen, past_line, past};

use crate::battle_end::BattleEnd;
use crate::lines::match_line;
use crate::stage::Stage;
use crate::win::Win;
use ps_base::id::Id;
use ps_tour::bracket::Bracket;
use replay_script::item::Item;
use std::alloc::{AllocError, Global};
use std::marker::Model;

/// How often a match is played again that was tied.
const MOST_TIES: u8 = 2;

/// The bracket, who beat whom, and how far the open match has come.
#[derive(Drop)]
pub struct Tour {
    bracket: Bracket,
    wins: Vec<Win>,
    // The number of the battle that is played or comes next, from 1.
    battle: u32,
    ties: u8,
    stage: Stage,
}

impl Model for Tour {
    ghost use Rattle.replay_tour.specs.Tours as tours;

    ghost Value = { tours.Tour };

    ghost view = { λ t. record { round = t.bracket; wins = t.wins.items; battle = t.battle; ties = t.ties; stage = t.stage } };
}

// More battles than a `u32` counts are said to want memory.
fn next_battle(battle: u32) -> Result<u32, AllocError>
    ensures { IfOk result (λ n. n ≡ battle + 1) }
{
    match battle.checked_add(1) {
        None => Err(AllocError),
        Some(next) => Ok(next),
    }
}

impl Tour {
    /// Before the first match of so many users, 2 to 16, whose order the seed draws.
    pub fn new(alloc: Global, users: u8, seed: u64) -> Tour
        requires some { 2 ≤ users }
        requires few { users ≤ 16 }
        ensures { result ≡ begun users seed }
    {
        Tour {
            bracket: Bracket::new(users, seed),
            wins: Vec::new(alloc),
            battle: 1,
            ties: 0,
            stage: Stage::Challenge,
        }
    }

    /// Who won all; `None` exactly where a match is open.
    pub fn champion(&self) -> Option<u8>
        ensures { result ≡ champion self.now.round }
    {
        self.bracket.champion()
    }

    /// Who beat whom, match by match.
    pub fn wins(&self) -> &[Win]
        ensures { result.now ≡ self.now.wins }
    {
        &self.wins
    }

    /// The next line, whose battles are of this format; `None` exactly where there is a champion.
    pub fn next_line(&self, alloc: Global, format: &Id) -> Result<Option<Item>, AllocError>
        ensures { IfOk result (λ o. o ≡ next_line format.now self.now) }
    {
        match self.bracket.next() {
            None => Ok(None),
            Some(pair) => Ok(Some(match_line(alloc, format, self.battle, pair, self.stage)?)),
        }
    }

    // The open match is won.
    fn win(&mut self, winner: u8, loser: u8) -> Result<(), AllocError>
        requires { IsOneOf winner (open_match self.old.round) }
        ensures { OnOk result (self.new ≡ won winner loser self.old) }
    {
        self.battle = next_battle(self.battle)?;
        self.wins.push(Win { winner, loser })?;
        self.bracket.report(winner);
        self.ties = 0;
        self.stage = Stage::Challenge;
        Ok(())
    }

    // The open match is played again.
    fn replay(&mut self) -> Result<(), AllocError>
        requires { self.old.ties < 2 }
        ensures { OnOk result (self.new ≡ again self.old) }
    {
        self.battle = next_battle(self.battle)?;
        self.ties += 1;
        self.stage = Stage::Challenge;
        Ok(())
    }

    fn tie(&mut self, pair: (u8, u8)) -> Result<(), AllocError>
        requires { open_match self.old.round ≡ Some pair }
        ensures { OnOk result (self.new ≡ tied pair self.old) }
    {
        if self.ties < MOST_TIES {
            return self.replay();
        }
        self.win(pair.0, pair.1)
    }

    // A battle of the open match ended.
    fn end(&mut self, pair: (u8, u8), end: BattleEnd) -> Result<(), AllocError>
        requires { open_match self.old.round ≡ Some pair }
        ensures { OnOk result (self.new ≡ ended pair end self.old) }
    {
        match end {
            BattleEnd::FirstWon => self.win(pair.0, pair.1),
            BattleEnd::SecondWon => self.win(pair.1, pair.0),
            BattleEnd::Tied => self.tie(pair),
        }
    }

    fn choose(
        &mut self,
        pair: (u8, u8),
        other: Stage,
        end: Option<BattleEnd>,
    ) -> Result<(), AllocError>
        requires { open_match self.old.round ≡ Some pair }
        ensures { OnOk result (self.new ≡ chosen pair other end self.old) }
    {
        match end {
            None => {
                self.stage = other;
                Ok(())
            }
            Some(end) => self.end(pair, end),
        }
    }

    fn go_to(&mut self, stage: Stage)
        ensures { self.new ≡ at_stage stage self.old }
    {
        self.stage = stage;
    }

    fn past_line(&mut self, pair: (u8, u8), end: Option<BattleEnd>) -> Result<(), AllocError>
        requires { open_match self.old.round ≡ Some pair }
        ensures { OnOk result (self.new ≡ past_line pair self.old.stage end self.old) }
    {
        match self.stage {
            Stage::Challenge => self.go_to(Stage::Accept),
            Stage::Accept => self.go_to(Stage::FirstJoin),
            Stage::FirstJoin => self.go_to(Stage::SecondJoin),
            Stage::SecondJoin => self.go_to(Stage::FirstChoice),
            Stage::FirstChoice => return self.choose(pair, Stage::SecondChoice, end),
            Stage::SecondChoice => return self.choose(pair, Stage::FirstChoice, end),
        }
        Ok(())
    }

    /// Goes on behind the next line, at which a battle ended so; `None` where none ended.
    pub fn go_on(&mut self, end: Option<BattleEnd>) -> Result<(), AllocError>
        ensures { OnOk result (self.new ≡ past end self.old) }
    {
        match self.bracket.next() {
            None => Ok(()),
            Some(pair) => self.past_line(pair, end),
        }
    }
}
