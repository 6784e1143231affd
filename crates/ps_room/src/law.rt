//! Laws over the definitions.
ghost use Rattle.ps_room.specs.declared.entry.Entry.{Entry};
ghost use Rattle.ps_room.specs.Records.{Record};
ghost use Rattle.ps_room.specs.Answers.{IsAnswered};
ghost use Rattle.ps_room.specs.Logs.{PullsAll, PullsView, AreRoomsOfHistories};
ghost use Rattle.ps_room.specs.Unseen.{NotesAreUnseen};

/// Every entry is applied, or refused by name: a refused one changes nothing and gives its sender one
/// line.
pub fn law_of_answers()
    ensures { (r : Record) (e : Entry) → IsAnswered r e }
{}

/// What a room keeps gives to whoever looks the part of its view past its cursor, and by a new cursor all of it.
pub fn law_of_pulls()
    ensures all { PullsAll }
    ensures view { PullsView }
{}

/// What a room's calls say is said of its history: a room after a history has the verdicts, answers, roles and messages of the
/// record that the history leaves.
pub fn law_of_histories()
    ensures { AreRoomsOfHistories }
{}

/// A staff note of another leaves nothing to who doesn't see staff notes: no line when it is written, and
/// nothing in the room's record that a later line could show.
pub fn law_of_notes()
    ensures { NotesAreUnseen }
{}
