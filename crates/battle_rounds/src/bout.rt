//! A battle in its rounds.
ghost use Rattle.std.specs.Prelude.{◌≡◌};
ghost use Rattle.battle_rounds.specs.Bouts.{waiting, with_waiting};

use ps_mon::choice::Choice;
use ps_mon::record::Battle;
use std::marker::Model;

/// A battle, the round that is open, and the choices that wait for the other side's.
#[derive(Clone, Copy, Debug, PartialEq, Eq)]
pub struct Bout {
    pub battle: Battle,
    /// The number of the open round, from 1.
    pub round: u32,
    /// The choice of P1 that waits.
    pub first: Option<Choice>,
    /// The choice of P2 that waits.
    pub second: Option<Choice>,
}

/// The choice of a side, 0 or 1, that waits.
pub fn waiting(bout: &Bout, side: u8) -> Option<Choice>
    ensures { result ≡ waiting bout.now side }
{
    if side == 0 { bout.first } else { bout.second }
}

/// Lets a choice of a side, 0 or 1, wait, or none.
pub(crate) fn set_waiting(bout: &mut Bout, side: u8, choice: Option<Choice>)
    ensures { bout.new ≡ with_waiting side choice bout.old }
{
    if side == 0 {
        bout.first = choice;
    } else {
        bout.second = choice;
    }
}

/// A battle in its rounds that is handed on by a pointer, since it is large. Contracts see the battle.
pub struct BoutBox {
    bout: Box<Bout>,
}

// By hand, so that who drops one has one call to prove.
impl Drop for BoutBox {
    fn drop(self) {
        let BoutBox { bout: _ } = self;
    }
}

impl Model for BoutBox {
    ghost use Rattle.battle_rounds.specs.declared.bout.Bout.{Bout};

    ghost Value = { Bout };

    ghost view = { λ b. b.bout.value };
}

impl BoutBox {
    /// The battle in this box.
    pub(crate) fn new(bout: Box<Bout>) -> BoutBox
        ensures { result ≡ bout.value }
    {
        BoutBox { bout }
    }

    /// The battle in its rounds.
    pub fn bout(&self) -> &Bout
        ensures { result.now ≡ self.now }
    {
        &*self.bout
    }
}
