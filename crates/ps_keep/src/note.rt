//! Notes.
ghost use Rattle.std.specs.Prelude.{◌≡◌, IfOk};

use ps_base::id::Id;
use ps_base::number::Moment;
use ps_base::text::Text;
use std::alloc::{AllocError, Global};

/// What a member of staff did to a user.
#[derive(Clone, Copy, Debug)]
pub enum ActKind {
    /// `/warn`
    Warn,
    /// `/mute`
    Mute,
    /// `/unmute`
    Unmute,
    /// `/ban`
    Ban,
    /// `/unban`
    Unban,
    /// `/roompromote`
    Promote,
}

/// What is kept of one entry of a room or of the hall.
pub enum Note {
    /// A rated battle of this format was won.
    Won {
        format: Id,
        winner: Id,
        loser: Id,
    },
    /// In the room of this id, `actor` did this to `target` at this moment. `rank` is the symbol of a promotion's new
    /// group, and no other act has one.
    Act {
        room: Text,
        actor: Id,
        kind: ActKind,
        target: Id,
        rank: Option<char>,
        moment: Moment,
    },
}

// By hand, so that whoever drops a note has one step of its proof for that.
impl Drop for Note {
    fn drop(self) {
        match self {
            Note::Won {
                format: _,
                winner: _,
                loser: _,
            } => {}
            Note::Act {
                room: _,
                actor: _,
                kind: _,
                target: _,
                rank: _,
                moment: _,
            } => {}
        }
    }
}

impl Note {
    /// The same note.
    pub fn copy(&self, alloc: Global) -> Result<Note, AllocError>
        ensures { IfOk result (λ note. note ≡ self.now) }
    {
        match self {
            Note::Won {
                format,
                winner,
                loser,
            } => Ok(Note::Won {
                format: format.copy(alloc)?,
                winner: winner.copy(alloc)?,
                loser: loser.copy(alloc)?,
            }),
            Note::Act {
                room,
                actor,
                kind,
                target,
                rank,
                moment,
            } => Ok(Note::Act {
                room: room.copy(alloc)?,
                actor: actor.copy(alloc)?,
                kind: *kind,
                target: target.copy(alloc)?,
                rank: *rank,
                moment: *moment,
            }),
        }
    }
}
