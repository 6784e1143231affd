//! What entries do that is noted.
ghost use Rattle.std.specs.Prelude.{◌≡◌, IfOk, Some, slice_get, map};
ghost use Rattle.std.specs.Option.{option_copied};
ghost use Rattle.ps_keep.specs.declared.note.Note.TheVariants as notes;
ghost use Rattle.replay_state.specs.Houses.{standing};
ghost use Rattle.replay_state.specs.Notes.{act, act_by, act_in, won_by_side, won_rated, won_in, won_by};

use crate::replay_room::ReplayRoom;
use ps_base::id::Id;
use ps_base::text::Text;
use ps_hall::entry::HallEntry;
use ps_hall::game::Game;
use ps_hall::hall_state::HallState;
use ps_keep::note::{ActKind, Note};
use ps_lines::command::{Command, HallCmd};
use ps_room::entry::Entry;
use std::alloc::{AllocError, Global};

fn act(
    alloc: Global,
    room: &str,
    entry: &Entry,
    kind: ActKind,
    user: &Id,
    rank: Option<char>,
) -> Result<Option<Note>, AllocError>
    ensures { IfOk result (λ n. n ≡ act room.now entry.now kind user.now rank) }
{
    Ok(Some(Note::Act {
        room: Text::copy_of(alloc, room)?,
        actor: entry.badge.name.id().copy(alloc)?,
        kind,
        target: user.copy(alloc)?,
        rank,
        moment: entry.moment,
    }))
}

fn act_by(alloc: Global, room: &str, entry: &Entry) -> Result<Option<Note>, AllocError>
    ensures { IfOk result (λ n. n ≡ act_by room.now entry.now entry.now.cmd) }
{
    match &entry.cmd {
        Command::Warn { user, .. } => act(alloc, room, entry, ActKind::Warn, user, None),
        Command::Mute { user, .. } => act(alloc, room, entry, ActKind::Mute, user, None),
        Command::Unmute { user } => act(alloc, room, entry, ActKind::Unmute, user, None),
        Command::Ban { user, .. } => act(alloc, room, entry, ActKind::Ban, user, None),
        Command::Unban { user } => act(alloc, room, entry, ActKind::Unban, user, None),
        Command::Promote { user, symbol } => {
            act(alloc, room, entry, ActKind::Promote, user, Some(*symbol))
        }
        _ => Ok(None),
    }
}

/// The act of an entry of the room at a place, if it is one and the room is there.
pub(crate) fn act_in(
    alloc: Global,
    rooms: &[ReplayRoom],
    place: usize,
    entry: &Entry,
) -> Result<Option<Note>, AllocError>
    ensures { IfOk result (λ n. n ≡ act_in (slice_get (map standing rooms.now) place) entry.now) }
{
    if place >= rooms.len() {
        return Ok(None);
    }
    act_by(alloc, rooms[place].id(), entry)
}

fn won(alloc: Global, game: &Game, winner: &Id, loser: &Id) -> Result<Option<Note>, AllocError>
    ensures { IfOk result (λ n. n ≡ Some (notes.Won game.now.format winner.now loser.now)) }
{
    Ok(Some(Note::Won {
        format: game.format.copy(alloc)?,
        winner: winner.copy(alloc)?,
        loser: loser.copy(alloc)?,
    }))
}

fn won_by_side(alloc: Global, game: &Game, side: u8) -> Result<Option<Note>, AllocError>
    ensures { IfOk result (λ n. n ≡ won_by_side game.now side) }
{
    if side == 0 {
        return won(alloc, game, game.first_id(), game.second_id());
    }
    if side == 1 {
        return won(alloc, game, game.second_id(), game.first_id());
    }
    Ok(None)
}

fn won_rated(alloc: Global, game: &Game, winner: Option<u8>) -> Result<Option<Note>, AllocError>
    ensures { IfOk result (λ n. n ≡ won_rated game.now.rated game.now winner) }
{
    if !game.rated {
        return Ok(None);
    }
    match winner {
        None => Ok(None),
        Some(side) => won_by_side(alloc, game, side),
    }
}

fn won_in(
    alloc: Global,
    game: Option<&Game>,
    winner: Option<u8>,
) -> Result<Option<Note>, AllocError>
    ensures { IfOk result (λ n. n ≡ won_in (option_copied game.entry) winner) }
{
    match game {
        None => Ok(None),
        Some(game) => won_rated(alloc, game, winner),
    }
}

/// The rated battle that was won whose end an entry of the hall reports, if it is one.
pub(crate) fn won_by(
    alloc: Global,
    hall: &HallState,
    entry: &HallEntry,
) -> Result<Option<Note>, AllocError>
    ensures { IfOk result (λ n. n ≡ won_by hall.now entry.now.cmd) }
{
    match &entry.cmd {
        HallCmd::Report { number, winner } => won_in(alloc, hall.game(*number), *winner),
        _ => Ok(None),
    }
}
