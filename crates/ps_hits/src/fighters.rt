//! A fighter's numbers as they count now.
ghost use Rattle.std.specs.Prelude.{◌≡◌, ◌≤◌, ◌<◌, slice_index};
ghost use Rattle.ps_mon.specs.Duels.{IsFighter};
ghost use Rattle.ps_hits.specs.Fighters.{types_now, stats_now, is_of_type, is_burnt, is_paralysed, is_away_by, is_away, is_rage};
ghost use Rattle.ps_hits.specs.Fighters.{rages, attack_of, defence_of, own_attack, own_defence, speed_of};

use ps_calc::staged;
use ps_mon::duel::Fighter;
use ps_mon::record::{Lock, LockKind};
use ps_mon::status::Status;

/// The types in force: those that Transform or Conversion gave, else the member's own.
pub fn types(f: &Fighter) -> [u8; 2]
    requires { IsFighter f.now }
    ensures value { result ≡ types_now f.now }
    ensures first { slice_index result 0 < 32 }
    ensures second { slice_index result 1 < 32 }
{
    f.vol.types.unwrap_or(f.types)
}

/// Attack, Defense, Special and Speed in force: those that Transform gave, else the member's own.
pub fn stats(f: &Fighter) -> [u16; 4]
    ensures { result ≡ stats_now f.now }
{
    f.vol.stats.unwrap_or(f.stats)
}

/// Whether one of the types in force is that.
pub fn has_type(f: &Fighter, kind: u8) -> bool
    ensures { result ≡ is_of_type f.now kind }
{
    let types = f.vol.types.unwrap_or(f.types);
    types[0] == kind || types[1] == kind
}

fn burns(f: &Fighter) -> bool
    ensures { result ≡ is_burnt f.now.status }
{
    f.status == Status::Brn
}

fn limps(f: &Fighter) -> bool
    ensures { result ≡ is_paralysed f.now.status }
{
    f.status == Status::Par
}

fn hides(kind: LockKind) -> bool
    ensures { result ≡ is_away_by kind }
{
    match kind {
        LockKind::Charge { away } => away,
        _ => false,
    }
}

/// Whether a member is out of reach until its charged move strikes.
pub fn away(lock: Option<Lock>) -> bool
    ensures { result ≡ is_away lock }
{
    match lock {
        None => false,
        Some(lock) => hides(lock.kind),
    }
}

/// Whether a member rages: while it has the lock of rage.
pub fn raging(lock: Option<Lock>) -> bool
    ensures { result ≡ rages lock }
{
    match lock {
        None => false,
        Some(lock) => lock.kind == LockKind::Rage,
    }
}

/// Attack, or Special where the move's type uses it, of who strikes, 1 to 999: staged, and Attack halved by Brn.
#[tactic(auto, unfolding(crate::specs::Fighters::attack_of))]
pub fn attack(f: &Fighter, special: bool) -> u16
    requires { IsFighter f.now }
    ensures value { result ≡ attack_of f.now special }
    ensures low { 1 ≤ result }
    ensures high { result ≤ 999 }
{
    if special {
        return staged(stats(f)[2], f.vol.stages.spc);
    }
    let own = staged(stats(f)[0], f.vol.stages.atk);
    if burns(f) { (own / 2).max(1) } else { own }
}

/// Defense, or Special, of who is struck, 1 to 1,998: staged, and doubled by the screen against it.
#[tactic(auto, unfolding(crate::specs::Fighters::defence_of))]
pub fn defence(f: &Fighter, special: bool) -> u16
    requires { IsFighter f.now }
    ensures value { result ≡ defence_of f.now special }
    ensures low { 1 ≤ result }
    ensures high { result ≤ 1998 }
{
    if special {
        let own = staged(stats(f)[2], f.vol.stages.spc);
        if f.vol.light { 2 * own } else { own }
    } else {
        let own = staged(stats(f)[1], f.vol.stages.def);
        if f.vol.reflect { 2 * own } else { own }
    }
}

/// Attack or Special of who strikes at a critical hit: the member's own, whatever changed it.
pub fn plain_attack(f: &Fighter, special: bool) -> u16
    requires { IsFighter f.now }
    ensures value { result ≡ own_attack f.now special }
    ensures low { 1 ≤ result }
    ensures high { result ≤ 999 }
{
    f.stats[if special { 2 } else { 0 }]
}

/// Defense or Special of who is struck at a critical hit: the member's own, whatever changed it.
pub fn plain_defence(f: &Fighter, special: bool) -> u16
    requires { IsFighter f.now }
    ensures value { result ≡ own_defence f.now special }
    ensures low { 1 ≤ result }
    ensures high { result ≤ 999 }
{
    f.stats[if special { 2 } else { 1 }]
}

/// Speed, 1 to 999: staged, and quartered by Par.
#[tactic(auto, unfolding(crate::specs::Fighters::speed_of))]
pub fn speed(f: &Fighter) -> u16
    requires { IsFighter f.now }
    ensures value { result ≡ speed_of f.now }
    ensures low { 1 ≤ result }
{
    let own = staged(stats(f)[3], f.vol.stages.spe);
    if limps(f) { (own / 4).max(1) } else { own }
}
