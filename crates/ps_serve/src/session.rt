//! One session.
ghost use Rattle.std.specs.Prelude.{◌≡◌, ◌⊎◌, ℕ, List, [], ◌∷◌, ◌++◌, length, All, IfSome, IfNone, Option, Some, None};
ghost use Rattle.ps_hub.specs.Passes.{AreOf};
ghost use Rattle.ps_outside.specs.Causes.{Rose};
ghost use Rattle.ps_outside.specs.Links.{Talk, LinkCounts};
ghost use Rattle.ps_serve.specs.Acts.{Act};
ghost use Rattle.ps_serve.specs.Sendings.{Sending};
ghost use Rattle.ps_serve.specs.Sittings.{Sits};
ghost use Rattle.ps_serve.specs.Steps.{Hours, Stands};
ghost use Rattle.ps_serve.specs.Ends.{Account, SomeAccount, SentIsView, IsLabelled, EntriesAreMade, AnswersAreKept, IsOpen};
ghost use Rattle.ps_serve.specs.Ends.{TellsMoments, LooksAreAnswered, AreOfHub, OneHistory, OneBegin, HallLosesNothing, TwoWorlds};
ghost use Rattle.ps_serve.specs.Ends.{HasCause, EndsWell, EndsWellWithin, AreFew, Served, is_short};
ghost use Rattle.ps_serve.specs.Names.{IfTaken, IsNumberInUse, HasOwnNumber};
ghost use Rattle.ps_serve.specs.Sessions.{IsSession};
ghost use Rattle.ps_serve.specs.Rests.{end_after, IsSitting, GoesOn, ComesToRest};

use crate::closed::{Closed, End};
use crate::heard::Heard;
use ps_base::number::ConnNo;
use ps_hub::hub::Hub;
use ps_hub::out::{AdmitFault, QuitFault};
use ps_hub::passes::Passes;
use ps_outside::clock::Clock;
use ps_outside::link::{Link, Next};
use ps_session::session::{Session, TakeFault};
use std::alloc::Global;
use std::sync::Wait;

/// A session between two answers of its link: what is known of the connection, and what it has of the hub.
#[derive(Drop)]
pub(crate) struct Sitting {
    pub(crate) session: Session,
    pub(crate) passes: Passes,
    // What came of its last text, for the operator.
    pub(crate) heard: Heard,
}

// The end of a session that these bytes stopped.
fn end_by(stop: TakeFault, bytes: Vec<u8>) -> End
    ensures { result ≡ end_after stop bytes }
{
    match stop {
        TakeFault::BadText => End::BadText { bytes },
        TakeFault::Limit { room } => End::OwnLimit { room },
        TakeFault::NoMemory => End::NoMemory,
    }
}

impl Sitting {
    // Takes one answer of the link: obeys a text, and then looks at all that is held and sends what wasn't told yet. `None` where
    // the session goes on.
    fn take<R: Wait, L: Link, C: Clock>(
        &mut self,
        alloc: Global,
        rt: &R,
        hub: &Hub,
        link: &mut L,
        clock: &mut C,
    ) -> Option<End>
        requires { IsSitting hub.now self.old.session self.old.passes }
        ensures sits { IfNone result (IsSitting hub.now self.new.session self.new.passes) }
        ensures goes_on { IfNone result ((talk0 : Option Talk) (counts0 : LinkCounts) (hours0 : Hours) (conn open_at : ℕ)
            (acts : List Act) (ss : List Sending) → Stands hub.now conn open_at acts ss self.old.session self.old.passes talk0
            (L.talk link.old) counts0 (L.counts link.old) hours0 (C.hours clock.old)
            → GoesOn hub.now conn open_at self.new.session self.new.passes talk0 (L.talk link.new) counts0 (L.counts link.new) hours0
            (C.hours clock.new)) }
        ensures rests { IfSome result (λ end. (talk0 : Option Talk) (counts0 : LinkCounts) (hours0 : Hours) (conn open_at left : ℕ)
            (acts : List Act) (ss : List Sending) → Stands hub.now conn open_at acts ss self.old.session self.old.passes talk0
            (L.talk link.old) counts0 (L.counts link.old) hours0 (C.hours clock.old)
            → ComesToRest end hub.now conn open_at left self.new.passes talk0 (L.talk link.new) counts0 (L.counts link.new) hours0
            (C.hours clock.new)) }
    {
        match link.next() {
            Next::Text(bytes) => match self.hear(alloc, rt, hub, bytes.as_slice(), clock) {
                None => self.answer(rt, hub, link),
                Some(stop) => Some(end_by(stop, bytes)),
            },
            Next::Quiet => self.catch_up(rt, hub, link),
            Next::End => Some(End::Closed),
            Next::Failed => Some(End::LinkFault),
            Next::NoMemory => Some(End::NoMemory),
        }
    }

    // Takes answers of the link until one ends the session.
    fn sit<R: Wait, L: Link, C: Clock>(
        &mut self,
        alloc: Global,
        rt: &R,
        hub: &Hub,
        link: &mut L,
        clock: &mut C,
    ) -> End
        requires { IsSitting hub.now self.old.session self.old.passes }
        ensures rests { (talk0 : Option Talk) (counts0 : LinkCounts) (hours0 : Hours) (conn open_at left : ℕ) (acts : List Act)
            (ss : List Sending) → Stands hub.now conn open_at acts ss self.old.session self.old.passes talk0 (L.talk link.old) counts0
            (L.counts link.old) hours0 (C.hours clock.old)
            → ComesToRest result hub.now conn open_at left self.new.passes talk0 (L.talk link.new) counts0 (L.counts link.new) hours0
            (C.hours clock.new) }
    {
        for _ in rt.forever() {
            match self.take(alloc, rt, hub, link, clock) {
                Some(end) => return end,
                None => {}
            }
        }
        unreachable!()
    }
}

// How many bytes a session holds for its own end.
const END_BYTES: usize = 8192;

// Memory for the end of a session, if there is some: it is let go right before the Quits, which then find it, as a rule.
fn for_the_end(alloc: Global) -> Option<Vec<u8>> {
    match Vec::with_capacity(alloc, END_BYTES) {
        Ok(bytes) => Some(bytes),
        Err(_) => None,
    }
}

// The whole session: its Open, the answers of the link, and its Quits.
fn serve<R: Wait, L: Link, C: Clock>(
    alloc: Global,
    rt: &R,
    hub: &Hub,
    conn: ConnNo,
    link: &mut L,
    clock: &mut C,
) -> Closed
    ensures served { (account : Account) × Served result.end hub.now conn account result.passes (L.talk link.old) (L.talk link.new)
        (L.counts link.old) (L.counts link.new) (C.hours clock.old) (C.hours clock.new) }
    ensures taken { IfTaken result.end (IsNumberInUse hub.now conn result.passes result.refused) }
{
    let held = for_the_end(alloc);
    let passes = match hub.admit(rt, conn, clock.now()) {
        Ok(passes) => passes,
        Err(AdmitFault::Taken { opener }) => {
            return Closed {
                end: End::Taken,
                passes: Passes::none(alloc, conn),
                refused: Some(opener),
            };
        }
        Err(AdmitFault::NoMemory) => {
            return Closed {
                end: End::NoMemory,
                passes: Passes::none(alloc, conn),
                refused: None,
            };
        }
    };
    let mut sitting = Sitting {
        session: Session::new(alloc, conn),
        passes,
        heard: Heard::nothing(),
    };
    let end = sitting.sit(alloc, rt, hub, link, clock);
    let Sitting {
        session: _,
        mut passes,
        heard: _,
    } = sitting;
    drop(held);
    match hub.quit(rt, &mut passes, clock.now()) {
        Ok(()) => Closed {
            end,
            passes,
            refused: None,
        },
        Err(QuitFault::Taken) => Closed {
            end: End::Taken,
            passes,
            refused: None,
        },
        Err(QuitFault::NoMemory) => Closed {
            end: End::NoMemory,
            passes,
            refused: None,
        },
    }
}

/// Serves one connection over its link: makes its Open, takes each text of the link as one order, tells it after each answer of
/// the link what happened in the hall and in the rooms that it holds, and makes its Quits at the end.
///
/// `served` says all that follows of one and the same account of the session: what came of each answer of the link, what was
/// sent, and the moments. The passes come from the hub if they hold the hall, as they do unless memory ran out for the Open, or
/// its number was taken; so the hub's calls take them. `LinkFault` and `Closed` come only where the link's count of them rose,
/// `BadText` and `OwnLimit` only by the text that came last, `Taken` only where an entry stood under the number of the connection
/// that none of its passes had made, and `NoMemory` if out of memory, for the Quits too. A link that doesn't fail, and whose
/// texts are UTF-8 and within the limits of bytes and of texts for a place, gives `Closed`, `Taken` or `NoMemory`; with
/// `MOST_TEXTS` texts in all they are within the latter whatever becomes of them.
pub fn serve_session<R: Wait, L: Link, C: Clock>(
    alloc: Global,
    rt: &R,
    hub: &Hub,
    conn: ConnNo,
    link: &mut L,
    clock: &mut C,
) -> Closed
    // All that follows, of one and the same account of the session.
    ensures served { (account : Account) × Served result.end hub.now conn account result.passes (L.talk link.old) (L.talk link.new)
        (L.counts link.old) (L.counts link.new) (C.hours clock.old) (C.hours clock.new) }

    // What was sent from a place is the whole view over what was handed out of its history, message by message; of a session that was
    // broken off, a prefix of that. Each text from a room begins with the id by which it is held.
    ensures sent_is_the_view { SomeAccount conn (L.talk link.old) (L.talk link.new) (λ account.
        SentIsView result.end hub.now conn account result.passes) }
    ensures labels { SomeAccount conn (L.talk link.old) (L.talk link.new) (λ account.
        All (IsLabelled hub.now result.passes.rooms.items) account.sendings) }

    // Its entries are those of the texts that the link gave, in order and each once, with the Begins and Reports that follow from them,
    // and one Quit at each place; what an entry gave is what the hall or the room answered to it. Its Open stands in the hall.
    ensures entries_of_the_texts { SomeAccount conn (L.talk link.old) (L.talk link.new) (λ account.
        EntriesAreMade result.end conn account result.passes) }
    ensures answers { SomeAccount conn (L.talk link.old) (L.talk link.new) (λ account.
        AnswersAreKept result.end hub.now conn account result.passes) }
    ensures opened { SomeAccount conn (L.talk link.old) (L.talk link.new) (λ account.
        IsOpen (is_short result.end) conn account result.passes result.passes.hall) }

    // The clock gave one moment for the Open, one for each text that became an order, and one for the Quits. At each place there was one
    // look for each answer of the link, and all that it showed was handed out.
    ensures moments { SomeAccount conn (L.talk link.old) (L.talk link.new) (λ account.
        TellsMoments result.end conn account result.passes.hall (C.hours clock.old) (C.hours clock.new)) }
    ensures looks_are_answered { SomeAccount conn (L.talk link.old) (L.talk link.new) (λ account.
        LooksAreAnswered result.end hub.now conn account result.passes) }

    // Its passes are of the hub, each of the one history of its place.
    ensures of_the_hub { AreOfHub hub.now result.passes }
    ensures one_history { OneHistory hub.now conn result.passes }

    // Each battle that an entry of it started it began once, and no other. In the hall that its pass saw, each match started its battle,
    // and the ladder of each format is the fold over all won reports of its rated battles.
    ensures one_begin { SomeAccount conn (L.talk link.old) (L.talk link.new) (λ account.
        OneBegin result.end account result.passes.rooms.items) }
    ensures hall { IfSome result.passes.hall (HallLosesNothing hub.now) }

    // What was sent from a place is also the view over every world there that is the same to the connection.
    ensures two_worlds { SomeAccount conn (L.talk link.old) (L.talk link.new) (λ account.
        TwoWorlds result.end hub.now conn account result.passes) }

    // The end has its cause. A link that doesn't fail, and whose texts can be read and are within the limits, gives Closed, Taken or
    // NoMemory.
    ensures cause { SomeAccount conn (L.talk link.old) (L.talk link.new) (λ account.
        HasCause result.end hub.now conn account result.passes.rooms.items (L.talk link.new) (L.counts link.old) (L.counts link.new)) }
    ensures complete { SomeAccount conn (L.talk link.old) (L.talk link.new) (λ account.
        EndsWellWithin result.end hub.now conn account result.passes.rooms.items (L.talk link.old) (L.counts link.old) (L.counts link.new)) }
    ensures few_texts { (talk : Talk) → L.talk link.old ≡ Some talk → AreFew talk.inbox
        → (Rose (L.counts link.old).faults (L.counts link.new).faults → ⊥) → EndsWell result.end }

    // Taken comes only where an entry stood under its number before its own first one; else all that stands under it is its own.
    ensures taken { IfTaken result.end (IsNumberInUse hub.now conn result.passes result.refused) }
    ensures own_names { HasOwnNumber conn result.passes }

    // All of it once more, as what two sessions of a hub that meet are compared by (`Closed::meet_in_hall`, `meet_in_room`).
    ensures session { IsSession hub.now conn result }
{
    serve(alloc, rt, hub, conn, link, clock)
}
