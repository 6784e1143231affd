//! The hub.
ghost use Rattle.std.specs.Prelude.{◌≡◌, ◌≢◌, ◌+◌, ◌≤◌, None, Some, IfOk, IfSome, IfNone, length, map, slice_get};
ghost use Rattle.std.specs.List.{AllZip};
ghost use Rattle.std.specs.Arc.{arc_value};
ghost use Rattle.ps_base.specs.Limits.{most_battles};
ghost use Rattle.ps_room.specs.Openings.{first_battle, room_of_battle};
ghost use Rattle.ps_hub.specs.Hubs.{site_of, root_of, lock_of, name_of, AreAt, IsUnopened, IsEmpty};
ghost use Rattle.ps_hub.specs.Names.{Names};
ghost use Rattle.ps_hub.specs.Calls.{NamesNone};

use crate::name::place_named;
use ps_base::limit::MOST_BATTLES;
use ps_dex::dex::Dex;
use ps_histlock::{HistLock, Opener};
use ps_room::opening::{FIRST_BATTLE, room_of_battle};
use rules_config::config::Config;
use rules_config::settings::ChatRoom;
use server_places::hall_place::HallPlace;
use server_places::room_place::RoomPlace;
use std::alloc::{AllocError, Global};
use std::marker::Model;
use std::sync::Arc;

/// The places of a server, each behind a lock of its own: the hall, the chat rooms of the configuration, and 65,536 battles,
/// which are empty until somebody begins them. Threads share it by reference.
#[derive(Drop)]
pub struct Hub {
    pub(crate) alloc: Global,
    pub(crate) config: Arc<Config>,
    pub(crate) dex: Arc<Dex>,
    pub(crate) hall: HistLock<HallPlace>,
    chats: Vec<HistLock<RoomPlace>>,
    battles: Vec<HistLock<RoomPlace>>,
}

impl Model for Hub {
    ghost use Rattle.std.specs.Prelude.{◌≡◌, ◌≤◌, map, length};
    ghost use Rattle.std.specs.Arc.{arc_value};
    ghost use Rattle.ps_base.specs.Limits.{most_battles};
    ghost use Rattle.ps_room.specs.Openings.{first_battle};
    ghost use Rattle.ps_hub.specs.Hubs.{Hub as Seen, name_of, AreAt};

    ghost Value = { Seen };

    ghost view = { λ h. record {
      config = arc_value h.config;
      dex = arc_value h.dex;
      hall = h.hall.0;
      chats = map name_of h.chats.items;
      battles = map name_of h.battles.items;
    } };

    ghost invariant = { λ h. (h.hall.1 ≡ record { config = arc_value h.config; dex = arc_value h.dex })
        × AreAt (arc_value h.config) (arc_value h.dex) 0 h.chats.items
        × AreAt (arc_value h.config) (arc_value h.dex) first_battle h.battles.items
        × (length h.chats.items ≡ length (arc_value h.config).rooms) × (length h.battles.items ≡ most_battles) };
}

/// A hub that nobody can use yet: each of its locks has its opener here, so no place has an entry, and none can come before the
/// hub is opened.
#[derive(Drop)]
pub struct NewHub {
    hub: Hub,
    hall: Opener<HallPlace>,
    chats: Vec<Opener<RoomPlace>>,
    battles: Vec<Opener<RoomPlace>>,
}

impl Model for NewHub {
    ghost use Rattle.ps_hub.specs.Hubs.{NewHub as Seen, IsEmpty};

    ghost Value = { Seen };

    ghost view = { λ h. record { hub = h.hub; hall = h.hall; chats = h.chats.items; battles = h.battles.items } };

    ghost invariant = { λ h. IsEmpty (record { hub = h.hub; hall = h.hall; chats = h.chats.items; battles = h.battles.items }) };
}

// Locks that aren't open yet, and their openers in the same order.
#[derive(Drop)]
struct Closed {
    locks: Vec<HistLock<RoomPlace>>,
    openers: Vec<Opener<RoomPlace>>,
}

// The locks of the chat rooms.
fn chats(
    alloc: Global,
    config: &Arc<Config>,
    dex: &Arc<Dex>,
    rooms: &[ChatRoom],
) -> Result<Closed, AllocError>
    requires { (rooms.now ≡ (arc_value config.now).rooms) × (length rooms.now ≤ first_battle) }
    ensures at { IfOk result (λ v. AreAt (arc_value config.now) (arc_value dex.now) 0 v.locks.items) }
    ensures count { IfOk result (λ v. length v.locks.items ≡ length rooms.now) }
    ensures empty { IfOk result (λ v. AllZip IsUnopened (map name_of v.locks.items) v.openers.items) }
{
    let mut locks = Vec::with_capacity(alloc, rooms.len())?;
    let mut openers = Vec::with_capacity(alloc, rooms.len())?;
    for number in 0..rooms.len() {
        let room = RoomPlace::chat(
            alloc,
            config.clone()?,
            dex.clone()?,
            number as u32,
            &rooms[number],
        )?;
        let (lock, opener) = HistLock::closed(alloc, room)?;
        locks.push(lock)?;
        openers.push(opener)?;
    }
    Ok(Closed { locks, openers })
}

// The locks of all battles.
fn battles(alloc: Global, config: &Arc<Config>, dex: &Arc<Dex>) -> Result<Closed, AllocError>
    ensures at { IfOk result (λ v. AreAt (arc_value config.now) (arc_value dex.now) first_battle v.locks.items) }
    ensures count { IfOk result (λ v. length v.locks.items ≡ most_battles) }
    ensures empty { IfOk result (λ v. AllZip IsUnopened (map name_of v.locks.items) v.openers.items) }
{
    let mut locks = Vec::with_capacity(alloc, MOST_BATTLES as usize)?;
    let mut openers = Vec::with_capacity(alloc, MOST_BATTLES as usize)?;
    for n in 0..MOST_BATTLES {
        let place = RoomPlace::battle(alloc, config.clone()?, dex.clone()?, FIRST_BATTLE + n);
        let (lock, opener) = HistLock::closed(alloc, place)?;
        locks.push(lock)?;
        openers.push(opener)?;
    }
    Ok(Closed { locks, openers })
}

// Opens all of these locks, the last first.
fn open_rooms(locks: &[HistLock<RoomPlace>], mut openers: Vec<Opener<RoomPlace>>)
    requires { AllZip IsUnopened (map name_of locks.now) openers.items }
{
    while let Some(opener) = openers.pop() {
        match lock_at(locks, openers.len()) {
            None => unreachable!(),
            Some(lock) => {
                lock.open(opener);
            }
        }
    }
}

// The lock at this index of a list.
fn lock_at(locks: &[HistLock<RoomPlace>], lock_index: usize) -> Option<&HistLock<RoomPlace>>
    ensures found { IfSome result (λ l. slice_get locks.now lock_index ≡ Some l.now) }
    ensures none { IfNone result (slice_get locks.now lock_index ≡ None) }
{
    locks.get(lock_index)
}

impl NewHub {
    /// Opens the hub: from now on whoever shares it may make entries. Takes no memory.
    pub fn open(self) -> Hub
        ensures { result ≡ self.hub }
    {
        let NewHub {
            hub,
            hall,
            chats,
            battles,
        } = self;
        hub.open_all(hall, chats, battles);
        hub
    }
}

impl Hub {
    /// The hub of a server with this configuration and this dex, which isn't open yet. Nobody is connected, no place has an
    /// entry, and no battle has begun. `AllocError` if out of memory.
    pub fn new(alloc: Global, config: Arc<Config>, dex: Arc<Dex>) -> Result<NewHub, AllocError>
        ensures config { IfOk result (λ h. h.hub.config ≡ arc_value config) }
        ensures dex { IfOk result (λ h. h.hub.dex ≡ arc_value dex) }
        ensures chats { IfOk result (λ h. length h.hub.chats ≡ length (arc_value config).rooms) }
        ensures battles { IfOk result (λ h. length h.hub.battles ≡ most_battles) }
        ensures empty { IfOk result (λ h. IsEmpty h) }
    {
        let Closed {
            locks: chats,
            openers: chat_openers,
        } = chats(alloc, &config, &dex, config.rooms())?;
        let Closed {
            locks: battles,
            openers: battle_openers,
        } = battles(alloc, &config, &dex)?;
        // The hall comes last: no exit behind it has to let it go.
        let place = HallPlace::new(alloc, config.clone()?, dex.clone()?)?;
        let (hall, opener) = HistLock::closed(alloc, place)?;
        let hub = Hub {
            alloc,
            config,
            dex,
            hall,
            chats,
            battles,
        };
        Ok(NewHub {
            hub,
            hall: opener,
            chats: chat_openers,
            battles: battle_openers,
        })
    }

    // Opens all its locks.
    fn open_all(
        &self,
        hall: Opener<HallPlace>,
        chats: Vec<Opener<RoomPlace>>,
        battles: Vec<Opener<RoomPlace>>,
    )
        requires hall { IsUnopened self.now.hall hall }
        requires chats { AllZip IsUnopened self.now.chats chats.items }
        requires battles { AllZip IsUnopened self.now.battles battles.items }
    {
        self.hall.open(hall);
        open_rooms(&self.chats, chats);
        open_rooms(&self.battles, battles);
    }

    /// The lock of the hall.
    pub(crate) fn hall_lock(&self) -> &HistLock<HallPlace>
        ensures name { result.now.0 ≡ self.now.hall }
        ensures origin { result.now.1 ≡ root_of self.now }
    {
        &self.hall
    }

    /// The place that an id names.
    pub(crate) fn place_of(&self, id: &str) -> Option<u32>
        ensures found { IfSome result (λ number. Names self.now.config id.now number × (lock_of self.now number ≢ None)) }
        ensures none { IfNone result (NamesNone self.now id.now) }
    {
        place_named(&self.config, id)
    }

    /// The place of the battle with this number.
    pub(crate) fn place_of_battle(&self, number: u32) -> u32
        requires { (1 ≤ number) × (number ≤ most_battles) }
        ensures value { result ≡ room_of_battle number }
        ensures there { lock_of self.now result ≢ None }
    {
        let _battles = &self.battles;
        room_of_battle(number)
    }

    /// The lock of a room's place that there is.
    pub(crate) fn lock(&self, number: u32) -> &HistLock<RoomPlace>
        requires { lock_of self.now number ≢ None }
        ensures name { lock_of self.now number ≡ Some result.now.0 }
        ensures origin { result.now.1 ≡ site_of self.now number }
    {
        match self.find_lock(number) {
            None => unreachable!(),
            Some(lock) => lock,
        }
    }

    // The lock of a room's place.
    fn find_lock(&self, number: u32) -> Option<&HistLock<RoomPlace>>
        ensures found { IfSome result (λ l. (lock_of self.now number ≡ Some l.now.0) × (l.now.1 ≡ site_of self.now number)) }
        ensures none { IfNone result (lock_of self.now number ≡ None) }
    {
        if number < FIRST_BATTLE {
            lock_at(&self.chats, number as usize)
        } else {
            lock_at(&self.battles, (number - FIRST_BATTLE) as usize)
        }
    }
}
