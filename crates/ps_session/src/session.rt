//! One connection as a machine that takes its texts and gives its orders.
ghost use Rattle.std.specs.Prelude.{◌≡◌, true, false, if◌then◌else◌, is_some, None, Some, Ok, IfOk, IfErr, IfSome, OnOk, OnErr};
ghost use Rattle.std.specs.Option.{option_copied};
ghost use Rattle.ps_lines.specs.CleanTexts.{IsClean};
ghost use Rattle.ps_lines.specs.Commands.{has_control, command};
ghost use Rattle.ps_lines.specs.Faults.{IsFault};
ghost use Rattle.ps_session.specs.Sessions.{begun, is_full, is_past_rooms, counted, with_badge, without_badge};
ghost use Rattle.ps_session.specs.Routes.{bad_order, room_named, room_refusal, to_room, by_command, by_client, parts_of, place_of};
ghost use Rattle.ps_session.specs.Routes.{within_limit, taken, IsTakeFault, no_room, after_no_room, Fits, HasCleanText};
ghost use Rattle.ps_base.specs.Messages.{texts_of};
ghost use Rattle.ps_session.specs.declared.session.TakeFault.TheVariants.{Limit, NoMemory};

use crate::room_counts::RoomCounts;
use crate::text::texts_of;
use ps_base::badge::Badge;
use ps_base::msg::Msg;
use ps_base::number::ConnNo;
use ps_base::text::Text;
use ps_lines::client::{ClientFault, ClientMsg, read_clean_client, read_client, read_client_text};
use ps_lines::command::{BadWhy, Command, CommandFault, HallCmd, Parsed};
use ps_lines::order::Order;
use ps_lines::read::{read_clean_command, read_command};
use std::alloc::{AllocError, Global};
use std::marker::Model;
use thiserror::Error;

/// How many texts a connection gives to the hall, or to one room, at the most.
pub const MOST_TEXTS: u32 = 16_384;

/// How many rooms a connection gives texts to at the most.
pub const MOST_ROOMS: u32 = 256;

/// Why bytes become no order.
#[derive(Debug, Drop, Error)]
pub enum TakeFault {
    /// More than 8,192 bytes, or no UTF-8.
    #[error("no text")]
    BadText,
    /// A text more than `MOST_TEXTS` to one room, which is named, or to the hall.
    #[error("a text more than a place takes")]
    Limit { room: Option<Text> },
    /// Out of memory.
    #[error("no memory")]
    NoMemory,
}

impl From<AllocError> for TakeFault {
    ghost from_gives = { λ _ e. e ≡ NoMemory };

    fn from(_e: AllocError) -> TakeFault {
        TakeFault::NoMemory
    }
}

/// One connection, seen as its record: its badge, and how many texts it gave to each place.
pub struct Session {
    conn: ConnNo,
    badge: Option<Badge>,
    hall: u32,
    rooms: RoomCounts,
}

// By hand, so that who drops one has one call to prove.
impl Drop for Session {
    fn drop(self) {
        let Session {
            conn: _,
            badge: _,
            hall: _,
            rooms: _,
        } = self;
    }
}

impl Model for Session {
    ghost use Rattle.std.specs.Coded.{codes, coded_ℕ};
    ghost use Rattle.ps_base.specs.ById.{by_id_code};
    ghost use Rattle.ps_session.specs.Sessions.{Record};

    ghost Value = { Record };

    ghost coded = { Prim.hlevel (codes, by_id_code coded_ℕ) };

    ghost view = { λ s. record {
      conn = s.conn;
      badge = s.badge;
      hall = s.hall;
      rooms = s.rooms.rooms;
      joined = s.rooms.joined;
      last = s.rooms.last;
    } };
}

fn bad_order(why: BadWhy) -> Order
    ensures { result ≡ bad_order why }
{
    Order::Hall(HallCmd::Bad { why })
}

// The room that a command goes to.
fn room_named<'a>(room: &'a str, cmd: &'a Command) -> &'a str
    ensures { result.now ≡ room_named room.now cmd.now }
{
    match cmd {
        Command::Join { room: other } => other.as_str(),
        _ => room,
    }
}

// The command of a text, which has no control character if it is known to be clean.
fn command_of(alloc: Global, is_clean: bool, text: &str) -> Result<Parsed, CommandFault>
    requires { is_clean ≡ true → has_control text.now ≡ false }
    ensures command { IfOk result (λ p. command text.now ≡ Ok p) }
    ensures fault { IfErr result (λ f. IsFault f (command text.now)) }
{
    if is_clean {
        read_clean_command(alloc, text)
    } else {
        read_command(alloc, text)
    }
}

// The fault of an order to a place that has as many texts as it takes.
fn limit_of(order: Order) -> TakeFault
    ensures { result ≡ Limit (place_of order) }
{
    match order {
        Order::Hall(_) => TakeFault::Limit { room: None },
        Order::Room { id, .. } => TakeFault::Limit { room: Some(id) },
    }
}

impl Session {
    /// A connection that has given no text. Takes no memory.
    pub fn new(alloc: Global, conn: ConnNo) -> Session
        ensures { result ≡ begun conn }
    {
        Session {
            conn,
            badge: None,
            hall: 0,
            rooms: RoomCounts::new(alloc),
        }
    }

    /// The number of the connection.
    pub fn conn(&self) -> ConnNo
        ensures { result ≡ self.now.conn }
    {
        self.conn
    }

    /// The badge of the connection, once it has a name.
    pub fn badge(&self) -> Option<&Badge>
        ensures { option_copied result ≡ self.now.badge }
    {
        self.badge.as_ref()
    }

    /// Keeps the badge that the connection has from now on.
    pub fn named(&mut self, badge: Badge)
        ensures { self.new ≡ with_badge badge self.old }
    {
        self.badge = Some(badge);
    }

    /// Lends the badge out: `named` is to give it back. Takes no memory.
    pub fn take_badge(&mut self) -> Option<Badge>
        ensures badge { result ≡ self.old.badge }
        ensures after { self.new ≡ without_badge self.old }
    {
        self.badge.take()
    }

    // Whether a room would be one more than a connection may have.
    fn is_past_rooms(&self, id: &str) -> bool
        ensures { result ≡ is_past_rooms id.now self.now }
    {
        if self.rooms.joined() < MOST_ROOMS {
            return false;
        }
        match self.rooms.get(id) {
            None => true,
            Some(_) => false,
        }
    }

    // Why a text can't go to a room.
    fn room_refusal(&self, id: &str) -> Option<BadWhy>
        ensures { result ≡ room_refusal self.now.badge self.now id.now }
    {
        match &self.badge {
            None => Some(BadWhy::NotNamed),
            Some(_) => {
                if self.is_past_rooms(id) {
                    Some(BadWhy::RoomLimit)
                } else {
                    None
                }
            }
        }
    }

    fn to_room(&self, id: Text, cmd: Command) -> Order
        ensures value { result ≡ to_room self.now.badge self.now id cmd }
        ensures fits { Fits self.now result }
    {
        match self.room_refusal(id.as_str()) {
            Some(why) => bad_order(why),
            None => Order::Room { id, cmd },
        }
    }

    // The order of a text behind the bar, with the room before it.
    fn by_text(
        &self,
        alloc: Global,
        is_clean: bool,
        room: &str,
        text: &str,
    ) -> Result<Order, AllocError>
        requires { is_clean ≡ true → has_control text.now ≡ false }
        ensures value { IfOk result (λ o. o ≡ by_command self.now.badge self.now room.now (command text.now)) }
        ensures fits { IfOk result (λ o. Fits self.now o) }
    {
        match command_of(alloc, is_clean, text) {
            Err(CommandFault::NoMemory) => Err(AllocError),
            Err(CommandFault::UnknownCommand) => Ok(bad_order(BadWhy::UnknownCommand)),
            Err(CommandFault::BadArgs { .. }) => Ok(bad_order(BadWhy::BadArgs)),
            Ok(Parsed::Hall(cmd)) => Ok(Order::Hall(cmd)),
            Ok(Parsed::Room(cmd)) => {
                let id = Text::copy_of(alloc, room_named(room, &cmd))?;
                Ok(self.to_room(id, cmd))
            }
        }
    }

    // The order of a text, which may be known to be clean, by what was read of it, before any limit of texts.
    fn order_by(
        &self,
        alloc: Global,
        is_clean: bool,
        read: Result<ClientMsg<'_>, ClientFault>,
    ) -> Result<Option<Order>, AllocError>
        requires { is_clean ≡ true → HasCleanText (parts_of read) }
        ensures value { IfOk result (λ o. o ≡ by_client self.now.badge self.now (parts_of read.entry)) }
        ensures fits { IfOk result (λ o. IfSome o (λ order. Fits self.now order)) }
    {
        match read {
            Err(ClientFault::Long { .. }) => Ok(None),
            Err(ClientFault::NotUtf8) => Ok(None),
            Err(ClientFault::NoBar) => Ok(Some(bad_order(BadWhy::NoBar))),
            Ok(message) => {
                let order = self.by_text(alloc, is_clean, message.room, message.text)?;
                Ok(Some(order))
            }
        }
    }

    // Counts a text to the place of its order, unless that is full, and tells whether it is. A room's count is looked up
    // once for both. Where memory fails nothing changes.
    fn is_full_or_count(&mut self, alloc: Global, order: &Order) -> Result<bool, AllocError>
        requires { Fits self.old order.now }
        ensures full { IfOk result (λ full. full ≡ is_full (place_of order.now) self.old) }
        ensures after { IfOk result (λ full. self.new ≡ (if full then self.old else counted (place_of order.now) self.old)) }
        ensures err { OnErr result (self.new ≡ self.old) }
    {
        match order {
            Order::Hall(_) => {
                if self.hall >= MOST_TEXTS {
                    return Ok(true);
                }
                self.rooms.keep(alloc)?;
                self.hall = self.hall + 1;
                Ok(false)
            }
            Order::Room { id, .. } => {
                let so_far = self.rooms.get(id.as_str());
                if so_far.unwrap_or(0) >= MOST_TEXTS {
                    return Ok(true);
                }
                self.rooms.count(alloc, id.as_str(), so_far)?;
                Ok(false)
            }
        }
    }

    // Takes the order of a text, if it is one, within the limit of its place. At each fault nothing changes.
    fn take_order(&mut self, alloc: Global, order: Option<Order>) -> Result<Order, TakeFault>
        requires { IfSome order (λ o. Fits self.old o) }
        ensures order { IfOk result (λ o. within_limit self.old order ≡ Ok o) }
        ensures fault { IfErr result (λ f. IsTakeFault f (within_limit self.old order)) }
        ensures after { IfOk result (λ o. self.new ≡ counted (place_of o) self.old) }
        ensures kept { OnErr result (self.new ≡ self.old) }
    {
        match order {
            None => Err(TakeFault::BadText),
            Some(order) => {
                if self.is_full_or_count(alloc, &order)? {
                    return Err(limit_of(order));
                }
                Ok(order)
            }
        }
    }

    /// The one order that a text of the connection becomes, which counts to its place.
    ///
    /// A command of the hall goes to the hall, whatever room the text names; a Join goes to the room that it names,
    /// everything else to that of the text. What is no command of its connection becomes the hall's Bad, by the first
    /// of these that holds: NoBar, UnknownCommand, BadArgs, and for a room NotNamed without a badge, and RoomLimit
    /// where 256 rooms have texts and this is none of them.
    ///
    /// `BadText` comes exactly where `read_client` tells Long or NotUtf8, `Limit` where the order's place has
    /// `MOST_TEXTS` texts already. At each fault nothing changes.
    pub fn take(&mut self, alloc: Global, bytes: &[u8]) -> Result<Order, TakeFault>
        ensures order { IfOk result (λ o. taken self.old bytes.now ≡ Ok o) }
        ensures fault { IfErr result (λ f. IsTakeFault f (taken self.old bytes.now)) }
        ensures after { IfOk result (λ o. self.new ≡ counted (place_of o) self.old) }
        ensures kept { OnErr result (self.new ≡ self.old) }
    {
        let order = self.order_by(alloc, false, read_client(bytes))?;
        self.take_order(alloc, order)
    }

    /// Does as `take` does with the bytes of a text, which are known to be UTF-8, and doesn't look at that again: `BadText`
    /// comes exactly where they are more than 8,192.
    pub fn take_text(&mut self, alloc: Global, text: &str) -> Result<Order, TakeFault>
        ensures order { IfOk result (λ o. taken self.old text.now ≡ Ok o) }
        ensures fault { IfErr result (λ f. IsTakeFault f (taken self.old text.now)) }
        ensures after { IfOk result (λ o. self.new ≡ counted (place_of o) self.old) }
        ensures kept { OnErr result (self.new ≡ self.old) }
    {
        let order = self.order_by(alloc, false, read_client_text(text))?;
        self.take_order(alloc, order)
    }

    /// Does as `take` does with the bytes of a text that is known to be clean: UTF-8 of at most 8,192 bytes, with no character
    /// below U+0020. It looks at none of these again, and `BadText` doesn't come.
    pub fn take_clean(&mut self, alloc: Global, text: &str) -> Result<Order, TakeFault>
        requires { IsClean text.now }
        ensures order { IfOk result (λ o. taken self.old text.now ≡ Ok o) }
        ensures fault { IfErr result (λ f. IsTakeFault f (taken self.old text.now)) }
        ensures after { IfOk result (λ o. self.new ≡ counted (place_of o) self.old) }
        ensures kept { OnErr result (self.new ≡ self.old) }
    {
        let order = self.order_by(alloc, true, read_clean_client(text))?;
        self.take_order(alloc, order)
    }

    /// Says that the room of the order just taken isn't there. Its text then counts to the hall and no more to that
    /// room, and the hall's order in its place says NoSuchRoom. `None` exactly where the hall had `MOST_TEXTS` texts of
    /// this connection already; then nothing changes, and the session is to end. Takes no memory.
    pub fn no_room(&mut self) -> Option<Order>
        requires last { is_some self.old.last ≡ true }
        ensures order { result ≡ no_room self.old }
        ensures after { self.new ≡ after_no_room self.old }
    {
        if self.hall >= MOST_TEXTS {
            return None;
        }
        self.rooms.uncount();
        self.hall = self.hall + 1;
        Some(bad_order(BadWhy::NoSuchRoom))
    }

    /// The texts that the connection is sent: one for each message, its lines parted by newlines. Before the lines of
    /// a room stands `>ROOMID`, as in PROTOCOL.md.
    pub fn give(
        &self,
        alloc: Global,
        room: Option<&str>,
        msgs: &[Msg],
    ) -> Result<Vec<Text>, AllocError>
        ensures { IfOk result (λ v. v.items ≡ texts_of (option_copied room.entry) msgs.now) }
    {
        texts_of(alloc, room, msgs)
    }
}
