//! Telling a connection what happened.
ghost use Rattle.std.specs.Option.{option_copied};
ghost use Rattle.std.specs.Prelude.{◌≡◌, ℕ, ◌<◌, List, [], ◌∷◌, ◌++◌, length, take, IfNone, IfSome};
ghost use Rattle.ps_base.specs.Messages.{texts_of};
ghost use Rattle.ps_hub.specs.Passes.{AreOf};
ghost use Rattle.ps_serve.specs.Acts.{Act};
ghost use Rattle.ps_serve.specs.Sendings.{Sending};
ghost use Rattle.ps_serve.specs.Sittings.{Sits};
ghost use Rattle.ps_serve.specs.Steps.{Tells, TellsPart, IsBreak};
ghost use Rattle.ps_serve.specs.Tellings.{after_texts, SendsHall, TellsHall, SendsOfHall, SendsRoom, SendsOfRoom, TellsRoom, TellsRoomPart};

use crate::closed::End;
use crate::session::Sitting;
use ps_base::msg::Msg;
use ps_hub::hub::Hub;
use ps_hub::pass::{HallPass, RoomPass};
use ps_hub::passes::Passes;
use ps_outside::link::{Link, SendEnd};
use std::sync::Wait;

// Sends messages in order, which are the hall's (`None`) or those of the room with an id, up to the first that fails.
fn send_msgs<L: Link>(link: &mut L, room: Option<&str>, msgs: &[Msg]) -> Option<End>
    ensures counts { IfNone result (L.counts link.new ≡ L.counts link.old) }
    ensures cause { IfSome result (λ end. IsBreak end (L.counts link.old) (L.counts link.new)) }
    ensures told { IfNone result (L.talk link.new ≡ after_texts (texts_of (option_copied room.entry) msgs.now) (L.talk link.old)) }
    ensures broke { IfSome result (λ end. (count : ℕ)
        × (L.talk link.new ≡ after_texts (take count (texts_of (option_copied room.entry) msgs.now)) (L.talk link.old))) }
{
    for msg in msgs {
        match link.send_message(room, msg) {
            Ok(()) => {}
            Err(SendEnd::Failed) => return Some(End::LinkFault),
            Err(SendEnd::NoMemory) => return Some(End::NoMemory),
        }
    }
    None
}

// How many entries of the hall were handed out.
fn handed_out(hall: &Option<HallPass>) -> u64
    ensures { IfSome hall.now (λ h. result ≡ h.at) }
{
    match hall {
        None => 0,
        Some(pass) => pass.at,
    }
}

// The id by which a place is held.
fn held_by(pass: &RoomPass) -> Option<&str>
    ensures { option_copied result ≡ pass.now.id }
{
    match &pass.id {
        None => None,
        Some(id) => Some(id.as_str()),
    }
}

// Rings at the place of a room that is held, if the connection has passed more there than it was told: it made entries there since
// then. At one that isn't held, it attends no more.
fn ring_room<L: Link>(pass: &RoomPass, link: &mut L)
    ensures talk { L.talk link.new ≡ L.talk link.old }
    ensures counts { L.counts link.new ≡ L.counts link.old }
{
    if pass.id.is_none() {
        link.attend(pass.number, false);
        return;
    }
    if pass.at < pass.cursor.passed {
        link.attend(pass.number, true);
        link.ring(Some(pass.number));
    }
}

// The same for the hall, which all attend.
fn ring_hall<L: Link>(hall: &Option<HallPass>, link: &mut L)
    ensures talk { L.talk link.new ≡ L.talk link.old }
    ensures counts { L.counts link.new ≡ L.counts link.old }
{
    match hall {
        None => {}
        Some(pass) => {
            if pass.at < pass.cursor.passed {
                link.ring(None);
            }
        }
    }
}

// Rings for those who attend where entries were made.
fn ring_places<L: Link>(passes: &Passes, link: &mut L)
    ensures talk { L.talk link.new ≡ L.talk link.old }
    ensures counts { L.counts link.new ≡ L.counts link.old }
{
    ring_hall(&passes.hall, link);
    for pass in passes.rooms.as_slice() {
        ring_room(pass, link);
    }
}

impl Sitting {
    // Tells the operator what came of a text, and rings for those who attend where it made entries.
    fn notify<L: Link>(&self, link: &mut L)
        ensures talk { L.talk link.new ≡ L.talk link.old }
        ensures counts { L.counts link.new ≡ L.counts link.old }
    {
        self.heard.report(self.session.badge(), link);
        ring_places(&self.passes, link);
    }

    /// Catches up after a text was obeyed, and lets the link tell the operator what came of that, and ring where it made entries. The link
    /// rings when what it sends has left, so that who sent the text is answered first.
    pub(crate) fn answer<R: Wait, L: Link>(
        &mut self,
        rt: &R,
        hub: &Hub,
        link: &mut L,
    ) -> Option<End>
        requires { AreOf hub.now self.old.passes }
        ensures of { AreOf hub.now self.new.passes }
        ensures same { (self.new.session ≡ self.old.session) × (self.new.passes.badge ≡ self.old.passes.badge) }
        ensures counts { IfNone result (L.counts link.new ≡ L.counts link.old) }
        ensures cause { IfSome result (λ end. IsBreak end (L.counts link.old) (L.counts link.new)) }
        ensures told { IfNone result ((conn open_at : ℕ) (acts : List Act) (a : Act) (ss : List Sending)
            → Sits hub.now conn open_at (acts ++ a ∷ []) (length acts) ss self.old.session self.old.passes
            → Tells hub.now conn open_at acts a ss self.old.session (L.talk link.old) (L.talk link.new) self.new.passes) }
        ensures broke { IfSome result (λ end. (conn open_at : ℕ) (acts : List Act) (a : Act) (ss : List Sending)
            → Sits hub.now conn open_at (acts ++ a ∷ []) (length acts) ss self.old.session self.old.passes
            → TellsPart end hub.now conn open_at acts a ss (L.talk link.old) (L.talk link.new) self.new.passes) }
    {
        self.notify(link);
        self.catch_up(rt, hub, link)
    }

    /// Looks once at the hall, and then, by rising numbers, at each room that is held, and sends what wasn't sent yet: of a room
    /// what its look showed, at once, and of the hall what its look showed, once all rooms have told. So what a room tells before
    /// the hall tells of it, as the last turn of a battle, is sent before that. It takes a piece of what is told when that before
    /// it was sent. `None` where the session goes on.
    pub(crate) fn catch_up<R: Wait, L: Link>(
        &mut self,
        rt: &R,
        hub: &Hub,
        link: &mut L,
    ) -> Option<End>
        requires { AreOf hub.now self.old.passes }
        ensures of { AreOf hub.now self.new.passes }
        ensures same { (self.new.session ≡ self.old.session) × (self.new.passes.badge ≡ self.old.passes.badge) }
        ensures counts { IfNone result (L.counts link.new ≡ L.counts link.old) }
        ensures cause { IfSome result (λ end. IsBreak end (L.counts link.old) (L.counts link.new)) }
        ensures told { IfNone result ((conn open_at : ℕ) (acts : List Act) (a : Act) (ss : List Sending)
            → Sits hub.now conn open_at (acts ++ a ∷ []) (length acts) ss self.old.session self.old.passes
            → Tells hub.now conn open_at acts a ss self.old.session (L.talk link.old) (L.talk link.new) self.new.passes) }
        ensures broke { IfSome result (λ end. (conn open_at : ℕ) (acts : List Act) (a : Act) (ss : List Sending)
            → Sits hub.now conn open_at (acts ++ a ∷ []) (length acts) ss self.old.session self.old.passes
            → TellsPart end hub.now conn open_at acts a ss (L.talk link.old) (L.talk link.new) self.new.passes) }
    {
        let shown = hub.look_hall(&mut self.passes);
        for place in 0..self.passes.rooms.len() {
            match self.tell_room(rt, hub, link, place) {
                Some(end) => return Some(end),
                None => {}
            }
        }
        self.tell_hall(rt, hub, link, shown)
    }

    // What the hall tells, piece by piece, until all was sent that a look showed.
    fn tell_hall<R: Wait, L: Link>(
        &mut self,
        rt: &R,
        hub: &Hub,
        link: &mut L,
        shown: u64,
    ) -> Option<End>
        requires { AreOf hub.now self.old.passes }
        ensures of { AreOf hub.now self.new.passes }
        ensures session { self.new.session ≡ self.old.session }
        ensures badge { self.new.passes.badge ≡ self.old.passes.badge }
        ensures counts { IfNone result (L.counts link.new ≡ L.counts link.old) }
        ensures cause { IfSome result (λ end. IsBreak end (L.counts link.old) (L.counts link.new)) }
        ensures told { IfNone result (TellsHall hub.now shown self.old.passes self.new.passes (L.talk link.old) (L.talk link.new)) }
        ensures broke { IfSome result (λ end. SendsOfHall hub.now self.old.passes self.new.passes (L.talk link.old) (L.talk link.new)) }
    {
        for _ in rt.forever() {
            if shown <= handed_out(&self.passes.hall) {
                return None;
            }
            match self.send_hall(rt, hub, link, shown) {
                Some(end) => return Some(end),
                None => {}
            }
        }
        unreachable!()
    }

    // Takes a piece of what the hall tells, and sends it.
    fn send_hall<R: Wait, L: Link>(
        &mut self,
        rt: &R,
        hub: &Hub,
        link: &mut L,
        shown: u64,
    ) -> Option<End>
        requires { AreOf hub.now self.old.passes }
        ensures of { AreOf hub.now self.new.passes }
        ensures session { self.new.session ≡ self.old.session }
        ensures badge { self.new.passes.badge ≡ self.old.passes.badge }
        ensures counts { IfNone result (L.counts link.new ≡ L.counts link.old) }
        ensures cause { IfSome result (λ end. IsBreak end (L.counts link.old) (L.counts link.new)) }
        ensures told { IfNone result (SendsHall hub.now self.old.passes self.new.passes (L.talk link.old) (L.talk link.new)) }
        ensures broke { IfSome result (λ end. SendsOfHall hub.now self.old.passes self.new.passes (L.talk link.old) (L.talk link.new)) }
    {
        match hub.hand_on_hall(rt, &mut self.passes, shown) {
            Err(_) => Some(End::NoMemory),
            Ok(msgs) => send_msgs(link, None, msgs.as_slice()),
        }
    }

    // What the room at an index of the list tells, if it is held, piece by piece, until all was sent that a look showed.
    fn tell_room<R: Wait, L: Link>(
        &mut self,
        rt: &R,
        hub: &Hub,
        link: &mut L,
        place: usize,
    ) -> Option<End>
        requires of { AreOf hub.now self.old.passes }
        requires there { place < length self.old.passes.rooms.items }
        ensures of { AreOf hub.now self.new.passes }
        ensures session { self.new.session ≡ self.old.session }
        ensures badge { self.new.passes.badge ≡ self.old.passes.badge }
        ensures pass_list { length self.new.passes.rooms.items ≡ length self.old.passes.rooms.items }
        ensures counts { IfNone result (L.counts link.new ≡ L.counts link.old) }
        ensures cause { IfSome result (λ end. IsBreak end (L.counts link.old) (L.counts link.new)) }
        ensures told { IfNone result (TellsRoom hub.now place self.old.passes self.new.passes (L.talk link.old) (L.talk link.new)) }
        ensures broke { IfSome result (λ end. TellsRoomPart hub.now place self.old.passes self.new.passes (L.talk link.old)
            (L.talk link.new)) }
    {
        if held_by(&self.passes.rooms[place]).is_none() {
            return None;
        }
        let shown = hub.look_at(&mut self.passes, place);
        for _ in rt.forever() {
            if shown <= self.passes.rooms[place].at {
                return None;
            }
            match self.send_room(rt, hub, link, place, shown) {
                Some(end) => return Some(end),
                None => {}
            }
        }
        unreachable!()
    }

    // Takes a piece of what the room at an index of the list tells, and sends it.
    fn send_room<R: Wait, L: Link>(
        &mut self,
        rt: &R,
        hub: &Hub,
        link: &mut L,
        place: usize,
        shown: u64,
    ) -> Option<End>
        requires of { AreOf hub.now self.old.passes }
        requires there { place < length self.old.passes.rooms.items }
        ensures of { AreOf hub.now self.new.passes }
        ensures session { self.new.session ≡ self.old.session }
        ensures badge { self.new.passes.badge ≡ self.old.passes.badge }
        ensures pass_list { length self.new.passes.rooms.items ≡ length self.old.passes.rooms.items }
        ensures counts { IfNone result (L.counts link.new ≡ L.counts link.old) }
        ensures cause { IfSome result (λ end. IsBreak end (L.counts link.old) (L.counts link.new)) }
        ensures told { IfNone result (SendsRoom hub.now place self.old.passes self.new.passes (L.talk link.old) (L.talk link.new)) }
        ensures broke { IfSome result (λ end. SendsOfRoom hub.now place self.old.passes self.new.passes (L.talk link.old)
            (L.talk link.new)) }
    {
        match hub.hand_on_at(rt, &mut self.passes, place, shown) {
            Err(_) => Some(End::NoMemory),
            Ok(msgs) => {
                let room = held_by(&self.passes.rooms[place]);
                send_msgs(link, room, msgs.as_slice())
            }
        }
    }
}
