//! Obeying the texts of a connection.
ghost use Rattle.std.specs.Prelude.{◌≡◌, ℕ, List, length, is_some, true, IfNone, IfSome, IfOk};
ghost use Rattle.ps_lines.specs.declared.order.Order.TheVariants.{Hall};
ghost use Rattle.ps_hub.specs.Passes.{AreOf};
ghost use Rattle.ps_hub.specs.Calls.{NeedsBadge};
ghost use Rattle.ps_session.specs.Routes.{after_no_room};
ghost use Rattle.ps_serve.specs.Acts.{Act, with_given};
ghost use Rattle.ps_serve.specs.Sendings.{Sending};
ghost use Rattle.ps_serve.specs.Sittings.{Sits};
ghost use Rattle.ps_serve.specs.Steps.{Hears, Stops};
ghost use Rattle.ps_serve.specs.Obeys.{Makes, MakesOnly, MayStart, Begins, report, Follows, TellsNowhere, Obeys, IsLast};

use crate::heard::Heard;
use crate::session::Sitting;
use crossbeam_utils::Backoff;
use ps_base::badge::Badge;
use ps_base::number::Moment;
use ps_base::text::Text;
use ps_hub::hub::Hub;
use ps_hub::out::{HubFault, HubOut};
use ps_lines::command::HallCmd;
use ps_lines::order::Order;
use ps_outside::clock::Clock;
use ps_room::outcome::Ending;
use ps_session::session::TakeFault;
use rules_start::start::Start;
use std::alloc::Global;
use std::sync::Wait;

// Why an order made no entry: there is no such room; or memory was wanting, or the room had an entry under the number of the
// connection already.
#[derive(Clone, Copy, Debug, PartialEq, Eq)]
enum Unmade {
    NoSuchRoom,
    NoMemory,
}

impl Sitting {
    /// Obeys one text: takes it as an order, asks the clock, makes its entry and what follows from that. `None` where the session
    /// goes on.
    pub(crate) fn hear<R: Wait, C: Clock>(
        &mut self,
        alloc: Global,
        rt: &R,
        hub: &Hub,
        bytes: &[u8],
        clock: &mut C,
    ) -> Option<TakeFault>
        requires of { AreOf hub.now self.old.passes }
        requires badge { self.old.passes.badge ≡ self.old.session.badge }
        ensures of { AreOf hub.now self.new.passes }
        ensures heard { IfNone result ((conn open_at : ℕ) (acts : List Act) (ss : List Sending)
            → Sits hub.now conn open_at acts (length acts) ss self.old.session self.old.passes
            → Hears hub.now conn open_at acts ss bytes.now (C.hours clock.old) (C.hours clock.new) self.new.session self.new.passes) }
        ensures stopped { IfSome result (λ stop. (conn open_at : ℕ) (acts : List Act) (ss : List Sending)
            → Sits hub.now conn open_at acts (length acts) ss self.old.session self.old.passes
            → Stops stop hub.now conn open_at acts ss bytes.now self.old.session self.old.passes (C.hours clock.old)
            (C.hours clock.new) self.new.passes) }
    {
        match self.session.take(alloc, bytes) {
            Err(fault) => Some(fault),
            Ok(order) => {
                self.heard = Heard::asked(alloc, &order);
                let moment = clock.now();
                self.obey(rt, hub, order, moment)
            }
        }
    }

    // The entry of an order, and what follows from it.
    fn obey<R: Wait>(
        &mut self,
        rt: &R,
        hub: &Hub,
        order: Order,
        moment: Moment,
    ) -> Option<TakeFault>
        requires of { AreOf hub.now self.old.passes }
        requires badge { NeedsBadge order self.old.passes }
        requires last { IsLast order self.old.session }
        ensures of { AreOf hub.now self.new.passes }
        ensures obeyed { Obeys hub.now order moment self.old.session self.old.passes result self.new.session self.new.passes }
    {
        match self.order(rt, hub, order, moment) {
            Ok(out) => self.follow(rt, hub, out, moment),
            Err(Unmade::NoSuchRoom) => self.tell_nowhere(rt, hub, moment),
            Err(Unmade::NoMemory) => Some(TakeFault::NoMemory),
        }
    }

    // One order, again and again until nobody else has the turn: at once at first, and then after others ran.
    fn order<R: Wait>(
        &mut self,
        rt: &R,
        hub: &Hub,
        order: Order,
        moment: Moment,
    ) -> Result<HubOut, Unmade>
        requires of { AreOf hub.now self.old.passes }
        requires badge { NeedsBadge order self.old.passes }
        ensures of { AreOf hub.now self.new.passes }
        ensures session { self.new.session ≡ self.old.session }
        ensures made { Makes hub.now order moment self.old.passes result self.new.passes }
        ensures starts { IfOk result (λ out. IfSome out.start (MayStart hub.now)) }
    {
        let backoff = Backoff::new();
        let mut left = order;
        for _ in rt.forever() {
            match hub.order(&mut self.passes, left, moment) {
                Ok(out) => return Ok(out),
                Err(HubFault::Busy { word: _, order }) => {
                    left = order;
                    backoff.snooze();
                }
                Err(HubFault::NoSuchRoom) => return Err(Unmade::NoSuchRoom),
                // A pass has room for all texts of a connection, the Reports of its battles and its Quit.
                Err(HubFault::OwnLimit { room: _ }) => return Err(Unmade::NoMemory),
                // Its Quit in that room meets the same entry, and tells of it.
                Err(HubFault::Taken) => return Err(Unmade::NoMemory),
                Err(HubFault::NoMemory) => return Err(Unmade::NoMemory),
            }
        }
        unreachable!()
    }

    // What follows from an entry: the badge is kept, a battle begins, the end of one is reported.
    fn follow<R: Wait>(
        &mut self,
        rt: &R,
        hub: &Hub,
        out: HubOut,
        moment: Moment,
    ) -> Option<TakeFault>
        requires of { AreOf hub.now self.old.passes }
        requires starts { IfSome out.start (MayStart hub.now) }
        ensures of { AreOf hub.now self.new.passes }
        ensures session { self.new.session ≡ with_given out.badge self.old.session }
        ensures follows { Follows hub.now moment out.start out.ended self.old.passes result self.new.passes }
    {
        self.heard.note(&out);
        let HubOut {
            badge,
            start,
            ended,
            verdict: _,
        } = out;
        self.keep_badge(badge);
        match start {
            None => {}
            Some(start) => return self.begin(rt, hub, start),
        }
        match ended {
            None => None,
            Some(ending) => self.report(rt, hub, ending, moment),
        }
    }

    // Keeps the badge that an entry gave.
    fn keep_badge(&mut self, badge: Option<Badge>)
        ensures session { self.new.session ≡ with_given badge self.old.session }
        ensures passes { self.new.passes ≡ self.old.passes }
    {
        match badge {
            None => {}
            Some(badge) => self.session.named(badge),
        }
    }

    // The Begin of a battle.
    fn begin<R: Wait>(&mut self, rt: &R, hub: &Hub, start: Start) -> Option<TakeFault>
        requires of { AreOf hub.now self.old.passes }
        requires may { MayStart hub.now start }
        ensures of { AreOf hub.now self.new.passes }
        ensures session { self.new.session ≡ self.old.session }
        ensures begins { Begins hub.now start self.old.passes result self.new.passes }
    {
        match hub.start(rt, &mut self.passes, start) {
            Ok(()) => None,
            Err(_) => Some(TakeFault::NoMemory),
        }
    }

    // The Report of a battle's end.
    fn report<R: Wait>(
        &mut self,
        rt: &R,
        hub: &Hub,
        ending: Ending,
        moment: Moment,
    ) -> Option<TakeFault>
        requires of { AreOf hub.now self.old.passes }
        ensures of { AreOf hub.now self.new.passes }
        ensures session { self.new.session ≡ self.old.session }
        ensures made { MakesOnly hub.now (Hall (report ending)) moment self.old.passes result self.new.passes }
    {
        let cmd = HallCmd::Report {
            number: ending.number,
            winner: ending.winner,
        };
        self.make(rt, hub, Order::Hall(cmd), moment)
    }

    // The hall's Bad in the place of an order to a room that isn't there.
    fn tell_nowhere<R: Wait>(&mut self, rt: &R, hub: &Hub, moment: Moment) -> Option<TakeFault>
        requires of { AreOf hub.now self.old.passes }
        requires last { is_some self.old.session.last ≡ true }
        ensures of { AreOf hub.now self.new.passes }
        ensures session { self.new.session ≡ after_no_room self.old.session }
        ensures told { TellsNowhere hub.now moment self.old.session self.old.passes result self.new.passes }
    {
        match self.session.no_room() {
            None => Some(TakeFault::Limit { room: None }),
            Some(order) => self.make(rt, hub, order, moment),
        }
    }

    // One order, of which only matters that it was made.
    fn make<R: Wait>(
        &mut self,
        rt: &R,
        hub: &Hub,
        order: Order,
        moment: Moment,
    ) -> Option<TakeFault>
        requires of { AreOf hub.now self.old.passes }
        requires badge { NeedsBadge order self.old.passes }
        ensures of { AreOf hub.now self.new.passes }
        ensures session { self.new.session ≡ self.old.session }
        ensures made { MakesOnly hub.now order moment self.old.passes result self.new.passes }
    {
        let made = self.order(rt, hub, order, moment);
        match made {
            Ok(_out) => None,
            Err(_why) => Some(TakeFault::NoMemory),
        }
    }
}
