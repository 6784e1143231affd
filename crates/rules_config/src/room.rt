//! Reads the chat rooms of a configuration.
ghost use Rattle.std.specs.Prelude.{◌≡◌, ◌<◌, ◌≤◌, ◌∷◌, [], codes, length, map, IfOk};
ghost use Rattle.std.specs.List.{list_all};
ghost use Rattle.std.specs.Str.{chars};
ghost use Rattle.serde_json.specs.View.{view};
ghost use Rattle.ps_data.specs.OwnIds.{IsNew};
ghost use Rattle.ps_data.specs.Reading.{Gives, optional};
ghost use Rattle.ps_data.specs.Lists.{list_in};
ghost use Rattle.rules_config.specs.Rooms.{lobby, is_title, title_in, room_in, rooms_at};

use crate::settings::ChatRoom;
use ps_base::id::to_id;
use ps_base::text::Text;
use ps_data::fault::{DataKind, Refusal};
use ps_data::forms::{ensure, object, text};
use ps_data::keys::{at_key, required};
use ps_data::new_ids::new_id_at;
use ps_data::rows::{RowForm, rows};
use ps_data::table::Table;
use serde_json::Value;
use std::alloc::{AllocError, Global};

/// The room where a configuration names none.
pub(crate) fn lobby(alloc: Global) -> Result<ChatRoom, AllocError>
    ensures { IfOk result (λ r. r ≡ lobby) }
{
    Ok(ChatRoom {
        id: to_id(alloc, "lobby")?,
        title: Text::copy_of(alloc, "Lobby")?,
    })
}

/// The list of the lobby alone.
pub(crate) fn lobby_alone(alloc: Global) -> Result<Table<ChatRoom>, AllocError>
    ensures { IfOk result (λ rooms. rooms ≡ lobby ∷ []) }
{
    let mut rooms = Table::new(alloc);
    rooms.push(alloc, lobby(alloc)?)?;
    Ok(rooms)
}

#[tactic(auto, unfolding(crate::specs::Rooms::is_title))]
fn is_title(text: &str) -> bool
    ensures { result ≡ is_title text.now }
{
    text.chars().all(|c| c >= ' ')
}

#[tactic(auto, unfolding(crate::specs::Rooms::title_in))]
fn title(alloc: Global, value: &Value) -> Result<Text, Refusal>
    ensures { Gives result (title_in (view value.now)) }
{
    let text = text(alloc, value)?;
    ensure(alloc, is_title(text), DataKind::Range)?;
    Ok(Text::copy_of(alloc, text)?)
}

#[tactic(auto, unfolding(crate::specs::Rooms::room_in))]
fn room(alloc: Global, before: &Table<ChatRoom>, value: &Value) -> Result<ChatRoom, Refusal>
    ensures gives { Gives result (room_in before.now (view value.now)) }
    ensures new { IfOk result (λ room. IsNew (λ r. r.id) room.id before.now) }
{
    object(alloc, value)?;
    let id = new_id_at(alloc, before, value, "id")?;
    let title = at_key(
        alloc,
        "title",
        title(alloc, required(alloc, value, "title")?),
    )?;
    Ok(ChatRoom { id, title })
}

/// The form of a chat room.
#[derive(Drop)]
struct RoomForm;

impl RowForm<ChatRoom> for RoomForm {
    ghost reading = { λ _ before after. room_in before };

    fn read(
        &self,
        alloc: Global,
        before: &Table<ChatRoom>,
        _after: &[Value],
        value: &Value,
    ) -> Result<ChatRoom, Refusal> {
        room(alloc, before, value)
    }
}

/// The chat rooms of a configuration: 1 to 16, and the lobby alone where the key is missing.
#[tactic(auto, unfolding(crate::specs::Rooms::rooms_at))]
pub(crate) fn rooms_at(alloc: Global, value: &Value) -> Result<Table<ChatRoom>, Refusal>
    ensures { Gives result (rooms_at (view value.now)) }
{
    match value.get("rooms") {
        None => Ok(lobby_alone(alloc)?),
        Some(inside) => at_key(alloc, "rooms", rows(alloc, &RoomForm, 1, 16, inside)),
    }
}
