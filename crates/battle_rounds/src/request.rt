//! The line that asks a side.
ghost use Rattle.std.specs.Prelude.{◌≡◌, ◌<◌, IfOk};
ghost use Rattle.ps_hits.specs.Told.{side_name};
ghost use Rattle.ps_mon.specs.Valid.{IsSound};
ghost use Rattle.ps_view.specs.Named.{player_of, nicks_of};
ghost use Rattle.battle_rounds.specs.Asked.{request_line};

use crate::bout::Bout;
use ps_base::text::Text;
use ps_choice::request::{SideNames, request_behind};
use ps_dex::dex::Dex;
use ps_hits::scene::side as side_name;
use ps_view::names::Names;
use std::alloc::{AllocError, Global};

/// `|request|JSON`, which asks a side, 0 or 1, for the round that is open.
#[tactic(auto, unfolding(crate::specs::Asked::request_line))]
pub fn request_line(
    alloc: Global,
    bout: &Bout,
    dex: &Dex,
    names: &Names,
    side: u8,
) -> Result<Text, AllocError>
    requires sound { IsSound bout.now.battle }
    requires side { side < 2 }
    ensures { IfOk result (λ line. line ≡ request_line bout.now dex.now names.now side) }
{
    let named = SideNames {
        player: names.player(side_name(side)).text().as_str(),
        nicks: names.nicks(side_name(side)),
    };
    let line = request_behind(
        alloc,
        "|request|",
        &bout.battle,
        dex,
        named,
        side,
        bout.round,
    )?;
    Ok(Text::from_string(line))
}
