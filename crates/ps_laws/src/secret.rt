//! What may differ that a connection isn't told: each law says it of two worlds, as equality of what the
//! connection is sent over them. Its premises are of the world alone.
ghost use Rattle.ps_laws.specs.Secrets.{MembersMayDiffer, SlotsMayDiffer, ChoicesMayBeMissing, ChoicesMayDiffer};
ghost use Rattle.ps_laws.specs.Secrets.{OrderMayDiffer, OrderIsUnseen, NotesMayBeMissing, NotesMayDiffer};
ghost use Rattle.ps_laws.specs.HallSecrets.{WhispersMayBeMissing, WhispersMayDiffer};

use ps_base::number::ConnNo;

/// A member that was never sent out, of a player that is no user of the connection, may as well be any other
/// one of any nickname that the battle can start with; under Team Preview any of its species and level. The
/// promise is the statement; the call does nothing.
pub fn law_member(conn: ConnNo)
    ensures { MembersMayDiffer conn }
{}

/// A slot that was never shown may as well have any other move and PP that the battle can start with, but for a
/// move that its member used, or had named or copied. Its player never asks by name for one of both moves,
/// also in vain. The promise is the statement; the call does nothing.
pub fn law_slot(conn: ConnNo)
    ensures { SlotsMayDiffer conn }
{}

/// A choice of the other side that no round has, since it is taken back, or somebody gives up, or the history
/// ends, may as well be missing, or be any other choice that completes no round at once. The promise is the
/// statement; the call does nothing.
pub fn law_choice(conn: ConnNo)
    ensures missing { ChoicesMayBeMissing conn }
    ensures other { ChoicesMayDiffer conn }
{}

/// Who of the two players chose first: to a player of one side it may be either of two choices that stand next to
/// each other, and to who looks on either of any two that complete a round, with what others do between them.
/// The promise is the statement; the call does nothing.
pub fn law_order(conn: ConnNo)
    ensures player { OrderMayDiffer conn }
    ensures spectator { OrderIsUnseen conn }
{}

/// A staff note of others that the connection doesn't see, in a chat room or in a battle's, may as well be missing,
/// or be another one. The promise is the statement; the call does nothing.
pub fn law_note(conn: ConnNo)
    ensures missing { NotesMayBeMissing conn }
    ensures other { NotesMayDiffer conn }
{}

/// A whisper of which neither end is an id that the connection takes anywhere in the history may as well be
/// missing, or be another one. The promise is the statement; the call does nothing.
pub fn law_whisper(conn: ConnNo)
    ensures missing { WhispersMayBeMissing conn }
    ensures other { WhispersMayDiffer conn }
{}
