//! A switch.
ghost use Rattle.std.specs.Prelude.{◌≡◌, ◌<◌, ◌≤◌, ◌-◌, ℕ, true};
ghost use Rattle.ps_mon.specs.Valid.{IsSound, IsSide, has_standing};
ghost use Rattle.ps_mon.specs.Known.{AreKnown};
ghost use Rattle.ps_mon.specs.Reading.{side_of, active_of, member_at};
ghost use Rattle.ps_mon.specs.Keeping.{Keeps};
ghost use Rattle.ps_mon.specs.Switching.{milder, came_in, without_trap, released, with_switch};

use crate::opening::CALM;
use crate::record::{Battle, Lock, LockKind, SideState};
use crate::status::Status;

fn status_after_leaving(status: Status) -> Status
    ensures { result ≡ milder status }
{
    match status {
        Status::Tox => Status::Psn,
        other => other,
    }
}

#[tactic(auto, unfolding(crate::specs::Switching::came_in))]
fn come_in(side: &mut SideState, position: u8)
    requires side { IsSide side.old }
    requires low { 1 ≤ position }
    requires high { position ≤ side.old.count }
    ensures { side.new ≡ came_in side.old position }
{
    let index = side.order[0] as usize;
    side.members[index].status = status_after_leaving(side.members[index].status);
    side.order.swap(0, position as usize - 1);
    side.vol = CALM;
}

fn lock_without_trap(lock: Option<Lock>) -> Option<Lock>
    ensures { result ≡ without_trap lock }
{
    match lock {
        Some(lock) => match lock.kind {
            LockKind::Trap => None,
            _ => Some(lock),
        },
        None => None,
    }
}

#[tactic(auto, unfolding(crate::specs::Switching::released))]
fn release(side: &mut SideState)
    ensures { side.new ≡ released side.old }
{
    side.vol.lock = lock_without_trap(side.vol.lock);
}

impl Battle {
    /// Sends in the member of a side, 0 or 1, at a position, which counts from 1. The volatiles of who was active end, its
    /// bad poison becomes a plain one, and a trap of the foe ends.
    #[tactic(auto, unfolding(crate::specs::Switching::with_switch))]
    pub fn switch(&mut self, side: u8, position: u8)
        requires sound { IsSound self.old }
        requires side { side < 2 }
        requires low { 1 ≤ position }
        requires high { position ≤ (side_of self.old side).count }
        ensures value { self.new ≡ with_switch self.old side position }
        ensures sound { IsSound self.new }
        ensures known { (moves : ℕ) → AreKnown moves self.old → AreKnown moves self.new }
        ensures some { (s : ℕ) → s < 2 → has_standing (side_of self.old s) ≡ true → has_standing (side_of self.new s) ≡ true }
        ensures came { (active_of (side_of self.new side)).hp ≡ (member_at (side_of self.old side) position).hp }
        ensures foe { side_of self.new (1 - side) ≡ released (side_of self.old (1 - side)) }
        ensures kept { Keeps side self.old self.new }
        ensures count { (side_of self.new side).count ≡ (side_of self.old side).count }
    {
        let mut mine = self.sides[side as usize];
        come_in(&mut mine, position);
        let mut theirs = self.sides[1 - side as usize];
        release(&mut theirs);
        self.sides[side as usize] = mine;
        self.sides[1 - side as usize] = theirs;
    }
}
