//! Laws over the definitions.
ghost use Rattle.ps_splitlog.specs.Reads.{ReadsCompose, ReadsAgree, EventsAreShown, EventsAreLogged};
ghost use Rattle.ps_splitlog.specs.Shorts.{AreShort};

/// What is stored of an event is shown to each role as the event's line for it, to nobody where the event has none, and stands
/// in the backlog where the event is logged.
pub fn law_of_events()
    ensures shown { EventsAreShown }
    ensures logged { EventsAreLogged }
{}

/// Who reads a log and reads again when it has grown gets what who reads once gets, and stands at the same entry; so does who
/// reads after each entry.
pub fn law_of_reads()
    ensures twice { ReadsCompose }
    ensures each { ReadsAgree }
{}

/// A log that forgets has what is short of the whole log, as entries come and are forgotten; and where who joins is sent no more
/// lines than are kept, everybody is sent what the whole log says.
pub fn law_of_short_logs()
    ensures { AreShort }
{}
