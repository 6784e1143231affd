//! The scene of an effect: draws, and what events tell of a fighter.
ghost use Rattle.std.specs.Prelude.{◌≡◌, ◌<◌, ℕ};
ghost use Rattle.ps_mon.specs.Duels.{IsDuelKnown};
ghost use Rattle.ps_calc.specs.Draws.{after, drawn};
ghost use Rattle.ps_hits.specs.Told.{side_name, who_of, status_number, health_of};

use ps_calc::Rng5;
use ps_event::event::{Health, Who};
use ps_event::side::Side;
use ps_mon::duel::{Duel, Fighter};
use ps_mon::status::Status;

/// The name of a side: that of P1 for 0.
pub fn side(number: u8) -> Side
    ensures { result ≡ side_name number }
{
    match number {
        0 => Side::P1,
        _ => Side::P2,
    }
}

/// A fighter as events name it.
pub fn who(f: &Fighter) -> Who
    ensures { result ≡ who_of f.now }
{
    Who {
        side: side(f.side),
        member: f.member,
    }
}

/// The number of a status in events.
pub fn number_of(status: Status) -> u8
    ensures { result ≡ status_number status }
{
    match status {
        Status::Healthy => 0,
        Status::Slp => 1,
        Status::Par => 2,
        Status::Brn => 3,
        Status::Psn => 4,
        Status::Tox => 5,
        Status::Frz => 6,
    }
}

/// A fighter's health as events tell it.
pub fn health(f: &Fighter) -> Health
    ensures { result ≡ health_of f.now }
{
    Health {
        hp: f.hp,
        max: f.max,
        status: number_of(f.status),
    }
}

/// A number below `n`, which is 1 or more, after one step of the battle's random source.
pub fn draw(duel: &mut Duel, n: u32) -> u32
    requires { 0 < n }
    ensures value { result ≡ drawn (after duel.old.rng) n }
    ensures after { duel.new ≡ record duel.old { rng = after duel.old.rng } }
    ensures known { (moves : ℕ) → IsDuelKnown moves duel.old → IsDuelKnown moves duel.new }
    ensures below { result < n }
{
    let mut source = Rng5 { x: duel.rng };
    let drawn = source.draw(n);
    duel.rng = source.x;
    drawn
}
