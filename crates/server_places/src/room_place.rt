//! The place of a room behind its lock.
ghost use Rattle.std.specs.Prelude.{◌≡◌, ◌↔◌, ◌<◌, ◌≤◌, ◌+◌, true, [], Some, None, IfSome, IfOk, OnOk, OnErr};
ghost use Rattle.std.specs.Arc.{arc_value};
ghost use Rattle.ps_room.specs.Logs.{record_in, seen_opened, seen_after, out_of};
ghost use Rattle.ps_room.specs.Openings.{chat_opening, first_battle};
ghost use Rattle.server_places.specs.Sites.{Opens, chat_at, battle_at};
ghost use Rattle.server_places.specs.Rooms.{Stands, Begins, room_after, room_out, ReadsRoom};

use crate::command::RoomCmd;
use crate::cursor::{RoomCursor, is_at_bound, least_left};
use crate::hall_place::MOST_COMMANDS;
use crate::site::Site;
use ps_base::limit::MOST_BATTLES;
use ps_base::msg::Msg;
use ps_base::text::Text;
use ps_dex::dex::Dex;
use ps_histlock::Kept;
use ps_room::entry::Entry;
use ps_room::opening::{battle_opening, chat_opening, room_of_battle};
use ps_room::outcome::RoomOut;
use ps_room::room::Room;
use ps_splitlog::piece::Piece;
use rules_config::config::Config;
use rules_config::settings::ChatRoom;
use rules_start::fit::is_fit;
use rules_start::start::Start;
use server_pass::told::Told;
use std::alloc::{AllocError, Global};
use std::marker::Model;
use std::sync::Arc;

/// The place of a chat room or of a battle. A battle's has no room until a Begin opens it.
pub struct RoomPlace {
    alloc: Global,
    number: u32,
    config: Arc<Config>,
    dex: Arc<Dex>,
    room: Option<Box<Room>>,
    count: u64,
    // Once there is a room, all commands from so many on are entries of it. So what is left of its log tells how many commands are.
    plain: u64,
}

// By hand, so that who drops one has one call to prove.
impl Drop for RoomPlace {
    fn drop(self) {
        let RoomPlace {
            alloc: _,
            number: _,
            config: _,
            dex: _,
            room: _,
            count: _,
            plain: _,
        } = self;
    }
}

impl Model for RoomPlace {
    ghost use Rattle.std.specs.Coded.{codes, coded_ℕ};
    ghost use base.Stored.{coded_unit};
    ghost use Rattle.std.specs.Arc.{arc_value};
    ghost use Rattle.ps_base.specs.ById.{by_id_code};
    ghost use Rattle.server_places.specs.Rooms.{Place, in_box};

    ghost Value = { Place };

    ghost coded = { Prim.hlevel (codes, by_id_code coded_ℕ, by_id_code coded_unit) };

    ghost view = { λ p. record {
      site = record { number = p.number; config = arc_value p.config; dex = arc_value p.dex };
      room = in_box p.room;
      count = p.count;
      plain = p.plain;
    } };
}

// Applies an entry to a room.
fn enter(alloc: Global, room: &mut Room, entry: Entry) -> Result<RoomOut, AllocError>
    ensures ok { OnOk result (room.new ≡ seen_after room.old entry) }
    ensures out { IfOk result (λ out. out ≡ out_of (record_in room.old) entry) }
    ensures err { OnErr result (room.new ≡ room.old) }
{
    let Entry {
        conn,
        badge,
        moment,
        cmd,
    } = entry;
    room.apply(alloc, conn, badge, moment, cmd)
}

impl RoomPlace {
    /// The place of a chat room, with its room, in which nobody is. `number` is the room's place in the configuration, from
    /// 0. `AllocError` if out of memory.
    pub fn chat(
        alloc: Global,
        config: Arc<Config>,
        dex: Arc<Dex>,
        number: u32,
        chat: &ChatRoom,
    ) -> Result<RoomPlace, AllocError>
        requires { chat_at (record { number = number; config = arc_value config; dex = arc_value dex })
            ≡ Some (chat_opening (arc_value config) (arc_value dex) number chat.now) }
        ensures site { IfOk result (λ p. p.site ≡ record { number = number; config = arc_value config; dex = arc_value dex }) }
        ensures stands { IfOk result (λ p. Stands [] p) }
    {
        let opening = chat_opening(alloc, &config, &dex, number, chat)?;
        let room = Box::new(alloc, Room::new(alloc, opening)?)?;
        Ok(RoomPlace {
            alloc,
            number,
            config,
            dex,
            room: Some(room),
            count: 0,
            plain: 0,
        })
    }

    /// The empty place of the battle whose room has this number. Takes no memory.
    pub fn battle(alloc: Global, config: Arc<Config>, dex: Arc<Dex>, number: u32) -> RoomPlace
        requires { first_battle ≤ number }
        ensures site { result.site ≡ record { number = number; config = arc_value config; dex = arc_value dex } }
        ensures stands { Stands [] result }
    {
        RoomPlace {
            alloc,
            number,
            config,
            dex,
            room: None,
            count: 0,
            plain: 0,
        }
    }

    // Whether a Begin opens the battle of this place.
    fn opens(&self, start: &Start) -> bool
        ensures { result ≡ true ↔ Opens self.now.site start.now }
    {
        if start.number < 1 || start.number > MOST_BATTLES {
            return false;
        }
        if room_of_battle(start.number) != self.number {
            return false;
        }
        is_fit(start, &self.config, &self.dex)
    }

    // Opens the room of a battle.
    fn open_battle(&mut self, start: Start) -> Result<(), AllocError>
        requires { Opens self.old.site start }
        ensures ok { OnOk result (self.new ≡ record self.old { room = Some (seen_opened (battle_at self.old.site start)) }) }
        ensures err { OnErr result (self.new ≡ self.old) }
    {
        let opening = battle_opening(self.alloc, self.config.clone()?, self.dex.clone()?, start)?;
        let room = Box::new(self.alloc, Room::new(self.alloc, opening)?)?;
        self.room = Some(room);
        Ok(())
    }

    // What a Begin does, but for the count.
    fn begin(&mut self, start: Start) -> Result<(), AllocError>
        ensures ok { OnOk result (Begins self.old start self.new) }
        ensures err { OnErr result (self.new ≡ self.old) }
    {
        match &self.room {
            Some(_) => Ok(()),
            None => {
                if self.opens(&start) {
                    self.open_battle(start)
                } else {
                    Ok(())
                }
            }
        }
    }

    // What an entry of the room does, but for the count.
    fn play(&mut self, entry: Entry) -> Result<Option<RoomOut>, AllocError>
        ensures ok { OnOk result (self.new ≡ record self.old { room = room_after self.old.room entry }) }
        ensures out { IfOk result (λ out. out ≡ room_out self.old.room entry) }
        ensures err { OnErr result (self.new ≡ self.old) }
    {
        match &mut self.room {
            Some(room) => {
                let out = enter(self.alloc, room, entry)?;
                Ok(Some(out))
            }
            None => Ok(None),
        }
    }
}

// Notes a room's id, which isn't copied again where it is noted already.
fn note_id(alloc: Global, id: &mut Option<Text>, room: &str) -> Result<(), AllocError>
    ensures ok { OnOk result (id.new ≡ Some room.now) }
    ensures err { OnErr result (id.new ≡ id.old) }
{
    match id {
        Some(noted) if noted.as_str() == room => return Ok(()),
        _ => {}
    }
    *id = Some(Text::copy_of(alloc, room)?);
    Ok(())
}

// A piece of what a connection is sent of a room past its cursor, which has no bound that it has reached.
fn read_on(
    alloc: Global,
    room: &Room,
    count: u64,
    plain: u64,
    cursor: &mut RoomCursor,
) -> Result<Vec<Msg>, AllocError>
    requires { IfSome cursor.old.until (λ bound. cursor.old.passed < bound) }
    ensures piece { IfOk result (λ v. ReadsRoom room.now count plain cursor.old v.items cursor.new) }
    ensures err { OnErr result (cursor.new ≡ cursor.old) }
{
    let before = cursor.room;
    let least = least_left(count, cursor.until, plain);
    let most = count.saturating_sub(cursor.passed.max(plain));
    let piece = room.pull_piece(alloc, &mut cursor.room, least as usize, most as usize)?;
    let Piece { messages, left } = piece;
    if note_id(alloc, &mut cursor.id, room.id()).is_err() {
        cursor.room = before;
        return Err(AllocError);
    }
    cursor.passed = count - left as u64;
    Ok(messages)
}

impl Kept for RoomPlace {
    ghost use Rattle.server_places.specs.Sites.{no_site, room_signer};
    ghost use Rattle.server_places.specs.Rooms.{site_in, Stands, Answers, Pulls};

    type Origin = Site;

    type Cmd = RoomCmd;

    type Out = Option<RoomOut>;

    type Cursor = RoomCursor;

    type Msg = Msg;

    ghost origin = { site_in };

    ghost nowhere = { no_site };

    ghost signer = { room_signer };

    ghost stands = { Stands };

    ghost answers = { Answers };

    ghost pulls = { Pulls };

    fn signed_by(cmd: &RoomCmd) -> Option<u64> {
        match cmd {
            RoomCmd::Begin(_) => None,
            RoomCmd::Play(entry) => Some(entry.conn.0 as u64),
        }
    }

    fn apply(&mut self, cmd: RoomCmd) -> Result<Option<RoomOut>, AllocError> {
        if self.count >= MOST_COMMANDS {
            return Err(AllocError);
        }
        let out = match cmd {
            RoomCmd::Begin(start) => {
                self.begin(start)?;
                self.plain = self.count + 1;
                None
            }
            RoomCmd::Play(entry) => self.play(entry)?,
        };
        self.count += 1;
        Ok(out)
    }

    fn pull(&self, cursor: &mut RoomCursor) -> Result<Vec<Msg>, AllocError> {
        if is_at_bound(cursor.until, cursor.passed) {
            return Ok(Vec::new(self.alloc));
        }
        match &self.room {
            None => {
                cursor.passed = self.count;
                Ok(Vec::new(self.alloc))
            }
            Some(room) => {
                let msgs = read_on(self.alloc, room, self.count, self.plain, cursor)?;
                Ok(msgs)
            }
        }
    }
}

impl Told for RoomPlace {
    ghost use Rattle.server_places.specs.Tellings.{room_telling};
    ghost use Rattle.server_places.specs.RoomLaws.{room_tells};

    ghost telling = { room_telling };

    ghost tells = { room_tells };

    fn passed(cursor: &RoomCursor) -> u64 {
        cursor.passed
    }

    fn bound(cursor: &mut RoomCursor, until: Option<u64>) {
        cursor.until = until;
    }
}
