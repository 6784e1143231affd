//! What a room is opened with: the chat rooms of a configuration, and the rooms of battles that start.
ghost use Rattle.std.specs.Prelude.{◌≡◌, ◌≤◌, ◌↔◌, true, IfOk};
ghost use Rattle.std.specs.Arc.{arc_value};
ghost use Rattle.ps_base.specs.Limits.{most_battles};
ghost use Rattle.ps_room.specs.Openings.{room_of_battle, chat_opening, battle_opening};

use ps_base::number::RoomNo;
use ps_base::text::Text;
use ps_dex::dex::Dex;
use rules_config::config::Config;
use rules_config::settings::ChatRoom;
use rules_start::fit::is_fit;
use rules_start::start::{Start, battle_id, battle_title};
use std::alloc::{AllocError, Global};
use std::marker::Model;
use std::sync::Arc;

/// The number of the first battle's room. Chat rooms, of which a configuration has sixteen at the most, have the numbers
/// below it.
pub const FIRST_BATTLE: u32 = 16;

/// What a room is opened with: its number, its id, its title, the configuration and the dex, and what its battle starts with,
/// if it is a battle's room.
#[derive(Drop)]
pub struct Opening {
    no: RoomNo,
    id: Text,
    title: Text,
    config: Arc<Config>,
    dex: Arc<Dex>,
    battle: Option<Start>,
}

impl Model for Opening {
    ghost use Rattle.std.specs.Arc.{arc_value};
    ghost use Rattle.ps_room.specs.Openings.{Opening as Opened};

    ghost Value = { Opened };

    ghost view = { λ o. record {
      no = o.no;
      id = o.id;
      title = o.title;
      config = arc_value o.config;
      dex = arc_value o.dex;
      battle = o.battle;
    } };
}

/// The parts of an opening.
#[derive(Drop)]
pub(crate) struct Parts {
    pub(crate) no: RoomNo,
    pub(crate) id: Text,
    pub(crate) title: Text,
    pub(crate) config: Arc<Config>,
    pub(crate) dex: Arc<Dex>,
    pub(crate) battle: Option<Start>,
}

impl Opening {
    ghost use Rattle.ps_room.specs.Openings.{of_parts, IsFitOpening};

    /// Whether a room can have it.
    pub(crate) fn is_fit(&self) -> bool
        ensures { result ≡ true ↔ IsFitOpening self.now }
    {
        match &self.battle {
            None => true,
            Some(start) => is_fit(start, &self.config, &self.dex),
        }
    }

    /// Its parts.
    pub(crate) fn into_parts(self) -> Parts
        ensures { of_parts result ≡ self }
    {
        Parts {
            no: self.no,
            id: self.id,
            title: self.title,
            config: self.config,
            dex: self.dex,
            battle: self.battle,
        }
    }

    /// The opening of a room. Chat rooms are numbered from 0, in the order of the configuration, and the room of battle n
    /// has the number 15 + n. The id stands behind `>` in the room's messages.
    pub fn new(
        no: RoomNo,
        id: Text,
        title: Text,
        config: Arc<Config>,
        dex: Arc<Dex>,
        battle: Option<Start>,
    ) -> Opening
        ensures { result ≡ record { no = no; id = id; title = title; config = arc_value config; dex = arc_value dex; battle = battle } }
    {
        Opening {
            no,
            id,
            title,
            config,
            dex,
            battle,
        }
    }
}

/// The number of the room of the battle with this number, which is `MOST_BATTLES` at the most: battle n has 15 + n.
pub fn room_of_battle(number: u32) -> u32
    requires { number ≤ most_battles }
    ensures { result ≡ room_of_battle number }
{
    FIRST_BATTLE - 1 + number
}

/// What the chat room with the number `no` is opened with: the id and the title that its item of the configuration gives,
/// and no battle. Rooms are numbered from 0, in the order of the configuration. Fails if out of memory.
pub fn chat_opening(
    alloc: Global,
    config: &Arc<Config>,
    dex: &Arc<Dex>,
    no: u32,
    room: &ChatRoom,
) -> Result<Opening, AllocError>
    ensures { IfOk result (λ o. o ≡ chat_opening (arc_value config.now) (arc_value dex.now) no room.now) }
{
    let id = Text::copy_of(alloc, room.id.as_str())?;
    let title = room.title.copy(alloc)?;
    Ok(Opening::new(RoomNo(no), id, title, config.clone()?, dex.clone()?, None))
}

/// What the room of a battle is opened with: the number that `room_of_battle` gives, the id `battle-FORMAT-N` of PROTOCOL.md,
/// and the names of both players as its title. Fails if out of memory.
pub fn battle_opening(
    alloc: Global,
    config: Arc<Config>,
    dex: Arc<Dex>,
    start: Start,
) -> Result<Opening, AllocError>
    requires { start.number ≤ most_battles }
    ensures { IfOk result (λ o. o ≡ battle_opening (arc_value config) (arc_value dex) start) }
{
    let no = RoomNo(room_of_battle(start.number));
    let id = battle_id(alloc, &start.format, start.number)?;
    let title = battle_title(alloc, &start.players[0], &start.players[1])?;
    Ok(Opening::new(no, id, title, config, dex, Some(start)))
}
