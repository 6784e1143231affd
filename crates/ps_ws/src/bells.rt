//! Bells: how the links of one door end each other's waits.

use mio::Waker;
use std::alloc::{AllocError, Global};
use std::collections::BTreeMap;
use std::sync::atomic::{AtomicBool, AtomicU64, Ordering};
use std::sync::{Arc, Mutex, Wait};
use std::thread;

/// What ends the wait of one link: its waker, and whether it has rung since the link last answered.
pub(crate) struct Bell {
    waker: Waker,
    has_rung: AtomicBool,
}

// By hand, as the others here, so that whoever drops one has one step of its proof for that.
impl Drop for Bell {
    fn drop(self) {
        let Bell {
            waker: _,
            has_rung: _,
        } = self;
    }
}

impl Bell {
    /// The bell that rings by this waker.
    pub(crate) fn new(waker: Waker) -> Bell {
        Bell {
            waker,
            has_rung: AtomicBool::new(false),
        }
    }

    /// Ends the wait that its link is in, or begins next, unless it did so since the link last answered: a wake is a call of the host.
    /// Says whether it did so now.
    fn ring(&self) -> bool {
        if self.has_rung.swap(true, Ordering::SeqCst) {
            return false;
        }
        // Where the host refuses it, the link answers as its wait is over.
        let _ = self.waker.wake();
        true
    }

    /// Whether it has rung since it was last made ready.
    pub(crate) fn has_rung(&self) -> bool {
        self.has_rung.load(Ordering::SeqCst)
    }

    /// Makes it ready to ring again.
    pub(crate) fn make_ready(&self) {
        self.has_rung.store(false, Ordering::SeqCst);
    }
}

// The bells of a place, by the numbers of their links.
type Attending = BTreeMap<u64, Arc<Bell>>;

struct Places {
    // The number that the next link gets.
    next: u64,
    hall: Attending,
    rooms: BTreeMap<u32, Attending>,
    // That of the door, if somebody may stop it.
    door: Option<Arc<Bell>>,
}

impl Drop for Places {
    fn drop(self) {
        let Places {
            next: _,
            hall: _,
            rooms: _,
            door: _,
        } = self;
    }
}

impl Places {
    fn at(&self, place: Option<u32>) -> Option<&Attending> {
        match place {
            None => Some(&self.hall),
            Some(room) => self.rooms.get(&room),
        }
    }
}

// The bells of a place that are ready to ring, but for that of a link.
fn ready_bells(
    alloc: Global,
    attending: &Attending,
    but: Option<u64>,
) -> Result<Vec<Arc<Bell>>, AllocError> {
    let mut ready = Vec::new(alloc);
    for (number, bell) in attending.iter() {
        if Some(*number) != but && !bell.has_rung() {
            ready.push(bell.clone()?)?;
        }
    }
    Ok(ready)
}

// How many links the one that rings wakes before it lets them run: more than processors that they run on.
const AT_ONCE: u64 = 8;

// Bells to ring, for several links: each takes some, until none are left.
struct Round {
    bells: Vec<Arc<Bell>>,
    // How many were taken.
    taken: AtomicU64,
}

impl Drop for Round {
    fn drop(self) {
        let Round { bells: _, taken: _ } = self;
    }
}

impl Round {
    // Wakes one more link. `false`: none is left.
    fn ring_one(&self) -> bool {
        for _ in 0..self.bells.len() {
            let at = self.taken.fetch_add(1, Ordering::SeqCst);
            match self.bells.get(at as usize) {
                None => return false,
                Some(bell) => {
                    if bell.ring() {
                        return true;
                    }
                }
            }
        }
        false
    }

    // Wakes some more links. `false`: none are left.
    fn ring_some(&self) -> bool {
        for _ in 0..AT_ONCE {
            if !self.ring_one() {
                return false;
            }
        }
        true
    }

    // Wakes those that are left, and lets them run meanwhile.
    fn ring(&self) {
        for _ in 0..self.bells.len() {
            thread::yield_now();
            if !self.ring_some() {
                return;
            }
        }
    }
}

// A round of the bells of a place that are ready to ring, but for that of a link.
fn round_of(
    alloc: Global,
    attending: &Attending,
    but: Option<u64>,
) -> Result<Arc<Round>, AllocError> {
    let round = Round {
        bells: ready_bells(alloc, attending, but)?,
        taken: AtomicU64::new(0),
    };
    Ok(Arc::new(alloc, round)?)
}

// Rings the bells of a place, but for that of a link.
fn ring_all(attending: &Attending, but: Option<u64>) {
    for (number, bell) in attending.iter() {
        if Some(*number) != but {
            let _ = bell.ring();
        }
    }
}

/// The bells of the links of a door, by the places that their connections attend. All attend the hall.
pub(crate) struct Bells {
    alloc: Global,
    // Whether the door and all its links are to end.
    are_over: AtomicBool,
    places: Mutex<Places>,
    // Whether there is a round that woken links may help with, and which.
    has_round: AtomicBool,
    round: Mutex<Option<Arc<Round>>>,
}

impl Drop for Bells {
    fn drop(self) {
        let Bells {
            alloc: _,
            are_over: _,
            places: _,
            has_round: _,
            round: _,
        } = self;
    }
}

impl Bells {
    /// No bells. Takes no memory.
    pub(crate) fn new(alloc: Global) -> Bells {
        Bells {
            alloc,
            are_over: AtomicBool::new(false),
            places: Mutex::new(Places {
                next: 0,
                hall: BTreeMap::new(alloc),
                rooms: BTreeMap::new(alloc),
                door: None,
            }),
            has_round: AtomicBool::new(false),
            round: Mutex::new(None),
        }
    }

    /// Adds the bell of a link, and gives the link its number.
    pub(crate) fn add<R: Wait>(&self, rt: &R, bell: &Arc<Bell>) -> Result<u64, AllocError> {
        let bell = bell.clone()?;
        let mut places = self.places.lock(rt);
        let number = places.next;
        places.hall.insert(number, bell)?;
        places.next = number.saturating_add(1);
        Ok(number)
    }

    /// Adds the bell of a link to those of a room.
    pub(crate) fn attend<R: Wait>(
        &self,
        rt: &R,
        number: u64,
        bell: &Arc<Bell>,
        room: u32,
    ) -> Result<(), AllocError> {
        let bell = bell.clone()?;
        let mut places = self.places.lock(rt);
        match places.rooms.get_mut(&room) {
            Some(attending) => {
                attending.insert(number, bell)?;
            }
            None => {
                let mut attending = BTreeMap::new(self.alloc);
                attending.insert(number, bell)?;
                places.rooms.insert(room, attending)?;
            }
        }
        Ok(())
    }

    /// Takes the bell of a link from those of a room.
    pub(crate) fn leave<R: Wait>(&self, rt: &R, number: u64, room: u32) {
        let mut places = self.places.lock(rt);
        let is_empty = match places.rooms.get_mut(&room) {
            Some(attending) => {
                let _ = attending.remove(&number);
                attending.is_empty()
            }
            None => false,
        };
        if is_empty {
            let _ = places.rooms.remove(&room);
        }
    }

    /// Takes the bell of a link from those of the hall, behind which it attends no place.
    pub(crate) fn remove<R: Wait>(&self, rt: &R, number: u64) {
        let _ = self.places.lock(rt).hall.remove(&number);
    }

    /// Rings for all that attend a place, but for the link of this number, if it has one. They are rung when nobody waits for the lock
    /// any more, unless memory is refused.
    pub(crate) fn ring<R: Wait>(&self, rt: &R, place: Option<u32>, but: Option<u64>) {
        let places = self.places.lock(rt);
        let Some(attending) = places.at(place) else {
            return;
        };
        let round = match round_of(self.alloc, attending, but) {
            Ok(round) => round,
            Err(_) => {
                ring_all(attending, but);
                return;
            }
        };
        drop(places);
        self.ring_round(rt, &round);
    }

    // Rings the bells of a round, with those that it woke.
    fn ring_round<R: Wait>(&self, rt: &R, round: &Arc<Round>) {
        if !round.ring_some() {
            return;
        }
        let is_shared = self.share(rt, round);
        round.ring();
        if is_shared {
            self.has_round.store(false, Ordering::SeqCst);
            *self.round.lock(rt) = None;
        }
    }

    // Lets woken links help with a round. Of two rounds at once it is the later: the links that the earlier woke are awake.
    fn share<R: Wait>(&self, rt: &R, round: &Arc<Round>) -> bool {
        let Ok(round) = round.clone() else {
            return false;
        };
        *self.round.lock(rt) = Some(round);
        self.has_round.store(true, Ordering::SeqCst);
        true
    }

    // The round that woken links may help with.
    fn shared_round<R: Wait>(&self, rt: &R) -> Option<Arc<Round>> {
        match &*self.round.lock(rt) {
            None => None,
            Some(round) => {
                let round: Result<_, _> = round.clone();
                round.ok()
            }
        }
    }

    /// Wakes one more link, where somebody wakes many.
    pub(crate) fn help<R: Wait>(&self, rt: &R) {
        if !self.has_round.load(Ordering::SeqCst) {
            return;
        }
        let Some(round) = self.shared_round(rt) else {
            return;
        };
        if !round.ring_one() {
            self.has_round.store(false, Ordering::SeqCst);
        }
    }

    /// Hangs up the bell of the door.
    pub(crate) fn hang_at_door<R: Wait>(&self, rt: &R, bell: Arc<Bell>) {
        self.places.lock(rt).door = Some(bell);
    }

    /// Whether the door and all its links are to end.
    pub(crate) fn are_over(&self) -> bool {
        self.are_over.load(Ordering::SeqCst)
    }

    /// Says that the door and all its links are to end, and rings for all of them.
    pub(crate) fn end<R: Wait>(&self, rt: &R) {
        self.are_over.store(true, Ordering::SeqCst);
        self.ring(rt, None, None);
        if let Some(bell) = &self.places.lock(rt).door {
            let _ = bell.ring();
        }
    }
}
