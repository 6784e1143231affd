//! What the lines of a battle name.
ghost use Rattle.std.specs.Prelude.{◌≡◌, ◌<◌, IfSome};
ghost use Rattle.std.specs.Arc.{arc_value};
ghost use Rattle.battle_rounds.specs.Casts.{plays, side_with_id, role_with};

use ps_dex::dex::Dex;
use ps_event::side::Side;
use ps_hits::scene::side as side_name;
use ps_view::names::Names;
use ps_view::role::Role;
use std::marker::Model;
use std::sync::Arc;

/// The names and the dex of a battle: all that its lines name.
pub struct Cast {
    names: Names,
    dex: Arc<Dex>,
}

// By hand, so that who drops one has one call to prove.
impl Drop for Cast {
    fn drop(self) {
        let Cast { names: _, dex: _ } = self;
    }
}

impl Model for Cast {
    ghost use Rattle.std.specs.Arc.{arc_value};
    ghost use Rattle.battle_rounds.specs.Casts.{Cast as Named};

    ghost Value = { Named };

    ghost view = { λ c. record { names = c.names; dex = arc_value c.dex } };
}

impl Cast {
    /// The cast of these names and this dex.
    pub fn new(names: Names, dex: Arc<Dex>) -> Cast
        ensures names { result.names ≡ names }
        ensures dex { result.dex ≡ arc_value dex }
    {
        Cast { names, dex }
    }

    /// The names.
    pub fn names(&self) -> &Names
        ensures { result.now ≡ self.now.names }
    {
        &self.names
    }

    /// The dex.
    pub fn dex(&self) -> &Dex
        ensures { result.now ≡ self.now.dex }
    {
        &*self.dex
    }
}

fn has_id(names: &Names, side: Side, id: &str) -> bool
    ensures { result ≡ plays names.now side id.now }
{
    names.player(side).id().as_str() == id
}

/// The side, 0 or 1, whose player has an id. None where no player has it.
pub fn side_with_id(names: &Names, id: &str) -> Option<u8>
    ensures side { result ≡ side_with_id names.now id.now }
    ensures within { IfSome result (λ s. s < 2) }
{
    if has_id(names, Side::P1, id) {
        return Some(0);
    }
    if has_id(names, Side::P2, id) {
        return Some(1);
    }
    None
}

/// What a member with this id and this rank, a place in the list of groups, is to the battle.
pub fn role_with(names: &Names, id: &str, rank: u8) -> Role
    ensures { result ≡ role_with names.now id.now rank }
{
    match side_with_id(names, id) {
        None => Role::Spectator { rank },
        Some(side) => Role::Player {
            side: side_name(side),
            rank,
        },
    }
}
