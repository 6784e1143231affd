//! Battles for the tests of choices and requests: turn 1, after some steps.
ghost use Rattle.std.specs.Prelude.{◌≡◌, ◌≤◌, ◌<◌};
ghost use Rattle.ps_mon.specs.Duels.{IsFit};
ghost use Rattle.ps_mon.specs.Facts.{AreFair, figures};
ghost use Rattle.ps_mon.specs.Teams.{IsFresh, IsFreshMember};
ghost use Rattle.ps_mon.specs.Valid.{IsSound};

use crate::members;
use ps_battle::open;
use ps_copy::copies::copy;
use ps_event::event::Events;
use ps_mon::duel::Duel;
use ps_mon::effect::CopyKind;
use ps_mon::facts::Facts;
use ps_mon::record::{Battle, Disabled, Lock, LockKind, Phase};
use ps_mon::status::Status;
use ps_mon::team::{BattleTeam, Member, MoveSlot};

const BODY_SLAM: u16 = 0;

const BLIZZARD: u16 = 2;

const EARTHQUAKE: u16 = 3;

const REST: u16 = 6;

/// Three moves, each of which it can use once more.
const TAUROS: Member = Member {
    slots: [
        MoveSlot {
            mv: BODY_SLAM,
            pp: 1,
            max_pp: 24,
        },
        MoveSlot {
            mv: BLIZZARD,
            pp: 1,
            max_pp: 8,
        },
        MoveSlot {
            mv: EARTHQUAKE,
            pp: 1,
            max_pp: 16,
        },
        MoveSlot {
            mv: BODY_SLAM,
            pp: 1,
            max_pp: 24,
        },
    ],
    slot_count: 3,
    ..members::TAUROS
};

const SNORLAX: Member = Member {
    slots: [
        MoveSlot {
            mv: BODY_SLAM,
            pp: 24,
            max_pp: 24,
        },
        MoveSlot {
            mv: REST,
            pp: 16,
            max_pp: 16,
        },
        MoveSlot {
            mv: REST,
            pp: 16,
            max_pp: 16,
        },
        MoveSlot {
            mv: REST,
            pp: 16,
            max_pp: 16,
        },
    ],
    slot_count: 2,
    ..members::SNORLAX
};

/// A team of so many members alike.
fn team(member: Member, count: u8) -> BattleTeam
    requires fresh { IsFreshMember member }
    requires low { 1 ≤ count }
    requires high { count ≤ 6 }
    ensures { IsFresh result }
{
    BattleTeam {
        members: [member; 6],
        count,
    }
}

/// Turn 1 of so many Tauros, which are Ann's, against Bob's one Snorlax.
fn begin(count: u8) -> Battle
    requires low { 1 ≤ count }
    requires high { count ≤ 6 }
    ensures { IsSound result }
{
    let teams = [team(TAUROS, count), team(SNORLAX, 1)];
    open(&teams, 128, 0, &mut Events::new())
}

/// Something that happens to Ann's side.
#[derive(Clone, Copy)]
pub(crate) enum Step {
    /// Nothing.
    Stay,
    /// Earthquake holds the active member.
    Hold,
    /// The active member has to recharge.
    Tire,
    /// A slot, from 0, is disabled.
    Disable(u8),
    /// A slot, from 0, is used.
    Spend(u8),
    /// The active member is of level 50, badly poisoned, and has 331 of 353.
    Weaken,
    /// The active member faints.
    Faint,
    /// The members at positions 1 and 2 change places.
    GoOut,
    /// The active member copies something of the foe, by its second slot, with a move that never misses.
    Copy(CopyKind),
    /// The battle waits for something else.
    Enter(Phase),
}

fn hold_user(duel: &mut Duel)
    requires { IsFit duel.old }
    ensures { IsFit duel.new }
{
    duel.user.vol.lock = Some(Lock {
        kind: LockKind::Thrash,
        mv: EARTHQUAKE,
        turns: 2,
        damage: 0,
        stored: 0,
    });
}

fn tire_user(duel: &mut Duel)
    requires { IsFit duel.old }
    ensures { IsFit duel.new }
{
    duel.user.vol.recharge = true;
}

fn disable_slot(duel: &mut Duel, slot: u8)
    requires fit { IsFit duel.old }
    requires slot { slot < 4 }
    ensures { IsFit duel.new }
{
    duel.user.vol.disabled = Some(Disabled { slot, turns: 3 });
}

fn weaken_user(duel: &mut Duel)
    requires { IsFit duel.old }
    ensures { IsFit duel.new }
{
    duel.user.level = 50;
    duel.user.max = 353;
    duel.user.hp = 331;
    duel.user.status = Status::Tox;
}

fn fell_user(duel: &mut Duel)
    requires { IsFit duel.old }
    ensures { IsFit duel.new }
{
    duel.user.hp = 0;
}

fn hold(battle: &mut Battle)
    requires { IsSound battle.old }
    ensures { IsSound battle.new }
{
    let mut duel = battle.duel(0);
    hold_user(&mut duel);
    battle.put(0, &duel);
}

fn tire(battle: &mut Battle)
    requires { IsSound battle.old }
    ensures { IsSound battle.new }
{
    let mut duel = battle.duel(0);
    tire_user(&mut duel);
    battle.put(0, &duel);
}

fn disable(battle: &mut Battle, slot: u8)
    requires { IsSound battle.old }
    ensures { IsSound battle.new }
{
    if slot >= 4 {
        return;
    }
    let mut duel = battle.duel(0);
    disable_slot(&mut duel, slot);
    battle.put(0, &duel);
}

fn spend(battle: &mut Battle, slot: u8)
    requires { IsSound battle.old }
    ensures { IsSound battle.new }
{
    if slot >= 4 {
        return;
    }
    battle.spend(0, slot);
}

fn weaken(battle: &mut Battle)
    requires { IsSound battle.old }
    ensures { IsSound battle.new }
{
    let mut duel = battle.duel(0);
    weaken_user(&mut duel);
    battle.put(0, &duel);
}

fn faint(battle: &mut Battle)
    requires { IsSound battle.old }
    ensures { IsSound battle.new }
{
    let mut duel = battle.duel(0);
    fell_user(&mut duel);
    battle.put(0, &duel);
}

fn go_out(battle: &mut Battle)
    requires { IsSound battle.old }
    ensures { IsSound battle.new }
{
    let side = &battle.sides[0];
    if side.count < 2 {
        return;
    }
    battle.switch(0, 2);
}

fn copy_foe(battle: &mut Battle, facts: Facts<'_>, sub: CopyKind)
    requires sound { IsSound battle.old }
    requires fair { AreFair (figures facts) }
    ensures { IsSound battle.new }
{
    let _ = copy(battle, facts, 0, REST, sub, 1, &mut Events::new());
}

fn enter(battle: &mut Battle, phase: Phase)
    requires { IsSound battle.old }
    ensures { IsSound battle.new }
{
    battle.phase = phase;
}

fn take(battle: &mut Battle, facts: Facts<'_>, step: Step)
    requires sound { IsSound battle.old }
    requires fair { AreFair (figures facts) }
    ensures { IsSound battle.new }
{
    match step {
        Step::Stay => {}
        Step::Hold => hold(battle),
        Step::Tire => tire(battle),
        Step::Disable(slot) => disable(battle, slot),
        Step::Spend(slot) => spend(battle, slot),
        Step::Weaken => weaken(battle),
        Step::Faint => faint(battle),
        Step::GoOut => go_out(battle),
        Step::Copy(sub) => copy_foe(battle, facts, sub),
        Step::Enter(phase) => enter(battle, phase),
    }
}

/// What happens before a case, in this order.
pub(crate) type Steps = [Step; 4];

/// Turn 1 of so many of Ann's members, after some steps.
pub(crate) fn battle_after(facts: Facts<'_>, count: u8, steps: Steps) -> Battle
    requires fair { AreFair (figures facts) }
    requires low { 1 ≤ count }
    requires high { count ≤ 6 }
    ensures { IsSound result }
{
    let [one, two, three, four] = steps;
    let mut battle = begin(count);
    take(&mut battle, facts, one);
    take(&mut battle, facts, two);
    take(&mut battle, facts, three);
    take(&mut battle, facts, four);
    battle
}

pub(crate) const FRESH: Steps = [Step::Stay; 4];

pub(crate) const HELD: Steps = [Step::Hold, Step::Stay, Step::Stay, Step::Stay];

pub(crate) const TIRED: Steps = [Step::Tire, Step::Stay, Step::Stay, Step::Stay];

pub(crate) const SPENT: Steps = [Step::Spend(0), Step::Stay, Step::Stay, Step::Stay];

pub(crate) const DISABLED: Steps = [Step::Disable(0), Step::Stay, Step::Stay, Step::Stay];

pub(crate) const SPENT_AND_DISABLED: Steps = [
    Step::Spend(0),
    Step::Disable(0),
    Step::Stay,
    Step::Stay,
];

/// Two slots without PP, and the third is disabled.
pub(crate) const USELESS: Steps = [Step::Spend(0), Step::Spend(1), Step::Disable(2), Step::Stay];

pub(crate) const USELESS_AND_HELD: Steps = [
    Step::Spend(0),
    Step::Spend(1),
    Step::Disable(2),
    Step::Hold,
];

/// Ann has to replace her member.
const ASKED_1: Step = Step::Enter(Phase::Replace {
    p1: true,
    p2: false,
});

/// Bob has to replace his.
const ASKED_2: Step = Step::Enter(Phase::Replace {
    p1: false,
    p2: true,
});

pub(crate) const FALLEN: Steps = [Step::Faint, ASKED_1, Step::Stay, Step::Stay];

pub(crate) const HELD_AND_FALLEN: Steps = [Step::Hold, Step::Faint, ASKED_1, Step::Stay];

/// The members at positions 1 and 2 have fainted.
pub(crate) const TWICE_FALLEN: Steps = [Step::Faint, Step::GoOut, Step::Faint, ASKED_1];

pub(crate) const FALLEN_ON_THE_BENCH: Steps = [Step::Faint, Step::GoOut, Step::Stay, Step::Stay];

/// Nobody is sent out yet.
pub(crate) const PREVIEWED: Steps = [
    Step::Enter(Phase::Preview),
    Step::Stay,
    Step::Stay,
    Step::Stay,
];

pub(crate) const WAITING: Steps = [ASKED_2, Step::Stay, Step::Stay, Step::Stay];

pub(crate) const WON: Steps = [
    Step::Faint,
    Step::Enter(Phase::Won(1)),
    Step::Stay,
    Step::Stay,
];

pub(crate) const TIED: Steps = [Step::Hold, Step::Enter(Phase::Tied), Step::Stay, Step::Stay];

/// The second slot has the foe's first move, Body Slam.
pub(crate) const MIMICKED: Steps = [
    Step::Copy(CopyKind::Mimic),
    Step::Stay,
    Step::Stay,
    Step::Stay,
];

/// The same, where the first slot, Body Slam too, is without PP.
pub(crate) const MIMICKED_AND_SPENT: Steps = [
    Step::Copy(CopyKind::Mimic),
    Step::Spend(0),
    Step::Stay,
    Step::Stay,
];

/// The slots are the foe's, Body Slam and Rest.
pub(crate) const TRANSFORMED: Steps = [
    Step::Copy(CopyKind::Transform),
    Step::Stay,
    Step::Stay,
    Step::Stay,
];
