//! What a connection has of one place.
ghost use Rattle.std.specs.Prelude.{◌≡◌, ◌≤◌, None, ◌++◌, ℕ, [], IfOk, OnOk, OnErr, length};
ghost use Rattle.ps_histlock.specs.Seated.{TableId};
ghost use Rattle.ps_histlock.specs.Views.{newcomer, heir_of, with_number, after_look, IsAtRest};
ghost use Rattle.ps_histlock.specs.Locks.{SignsOn, IsNameTaken};
ghost use Rattle.ps_histlock.specs.Signs.{IsOf};
ghost use Rattle.ps_histlock.specs.declared.lock.TheConstants.{OWN_LIMIT};
ghost use Rattle.server_pass.specs.Tellings.{UpTo};
ghost use Rattle.server_pass.specs.Turns.{Takes, TakesAtLast, Reads, ReadsAtLast, Rereads, IsLimited, IfKeptOut};
ghost use Rattle.server_pass.specs.Passes.{Grows, IsPass};
ghost use Rattle.server_pass.specs.Catches.{IsFresh, LooksAtMost, Caught, Handed};
ghost use Rattle.server_pass.specs.Meetings.{Met, IsHeardRightly};

use crate::told::Told;
use crate::turn::{join, read, take, try_read, try_take};
use crate::turn_end::{Tried, Waited};
use ps_base::msg::Msg;
use ps_histlock::{HistLock, Pass, Unread};
use std::alloc::{AllocError, Global};
use std::mem;
use std::sync::Wait;

/// What a connection has of one place: a pass of its lock, a cursor, and messages. `N` is the number of the place, and `I` the id
/// by which it is held, where there are several such places.
pub struct PlacePass<P, X, N, I> {
    /// The number of the place.
    pub number: N,
    /// The id by which the place is held.
    pub id: I,
    /// The pass.
    pub pass: P,
    /// How far messages were pulled.
    pub cursor: X,
    /// Messages that were pulled and not handed out, in order.
    pub kept: Vec<Msg>,
    /// Those that the last turn pulled, which stand behind `kept`: to put them there takes memory, and a turn that was taken
    /// has its messages without.
    pub fresh: Vec<Msg>,
    /// How many commands' messages were handed out.
    pub at: u64,
}

// By hand, so that who drops one has one call to prove.
impl<P: Drop, X: Drop, N: Drop, I: Drop> Drop for PlacePass<P, X, N, I> {
    fn drop(self) {
        let PlacePass {
            number: _,
            id: _,
            pass: _,
            cursor: _,
            kept: _,
            fresh: _,
            at: _,
        } = self;
    }
}

// All messages that are kept. Where memory fails they stay.
fn hand_out(
    alloc: Global,
    kept: &mut Vec<Msg>,
    fresh: &mut Vec<Msg>,
) -> Result<Vec<Msg>, AllocError>
    ensures ok { IfOk result (λ v. (v.items ≡ kept.old.items ++ fresh.old.items) × (kept.new.items ≡ []) × (fresh.new.items ≡ [])) }
    ensures err { OnErr result ((kept.new.items ≡ kept.old.items) × (fresh.new.items ≡ fresh.old.items)) }
{
    join(kept, fresh)?;
    Ok(mem::replace(kept, Vec::new(alloc)))
}

impl<U: Drop, K: Told<Out = U>, N, I> PlacePass<Pass<K>, K::Cursor, N, I> {
    /// A pass that has seen nothing and was told nothing, with a cursor before the first command. Takes no memory.
    pub fn new(
        alloc: Global,
        lock: &HistLock<K>,
        number: N,
        id: I,
        cursor: K::Cursor,
    ) -> PlacePass<Pass<K>, K::Cursor, N, I>
        ensures pass { (n : ℕ) × (result.pass ≡ (lock.now.0, newcomer lock.now.1 n)) }
        ensures cursor { result.cursor ≡ cursor }
        ensures kept { result.kept.items ++ result.fresh.items ≡ [] }
        ensures at { result.at ≡ 0 }
        ensures same { (result.number ≡ number) × (result.id ≡ id) }
        ensures of { (conn : ℕ) → K.telling.stands_at conn lock.now.1 [] cursor → K.telling.shows conn lock.now.1 [] []
            → K.telling.passed cursor ≡ 0
            → IsPass K.origin K.stands K.signer K.telling conn lock.now result }
    {
        PlacePass {
            number,
            id,
            pass: lock.fresh(),
            cursor,
            kept: Vec::new(alloc),
            fresh: Vec::new(alloc),
            at: 0,
        }
    }

    /// The heir of this pass: it has seen as much, has made no entry, and speaks for what this one has signed. It has all messages.
    pub fn heir(self, lock: &HistLock<K>) -> PlacePass<Pass<K>, K::Cursor, N, I>
        requires { self.pass.0 ≡ lock.now.0 }
        ensures pass { (n : ℕ) × (result.pass ≡ (lock.now.0, with_number (heir_of self.pass.1) n)) }
        ensures rest { IsAtRest K.origin K.stands result.pass.1 }
        ensures cursor { result.cursor ≡ self.cursor }
        ensures kept { result.kept.items ++ result.fresh.items ≡ self.kept.items ++ self.fresh.items }
        ensures same { (result.at ≡ self.at) × (result.number ≡ self.number) × (result.id ≡ self.id) }
        ensures of { (conn : ℕ) (place : TableId × K.Origin)
            → IsPass K.origin K.stands K.signer K.telling conn place self → IsPass K.origin K.stands K.signer K.telling conn place result }
    {
        let PlacePass {
            number,
            id,
            pass,
            cursor,
            kept,
            fresh,
            at,
        } = self;
        PlacePass {
            number,
            id,
            pass: lock.heir(pass),
            cursor,
            kept,
            fresh,
            at,
        }
    }

    /// One turn with a command, whose messages are kept. Waits for nobody.
    pub fn try_turn(&mut self, lock: &HistLock<K>, cmd: K::Cmd) -> Tried<U, K::Cmd>
        requires lock { self.old.pass.0 ≡ lock.now.0 }
        requires sign { SignsOn K.signer self.old.pass.1.said cmd }
        ensures lock { self.new.pass.0 ≡ self.old.pass.0 }
        ensures does { Takes K.answers K.pulls self.old.pass.1 self.old.cursor (self.old.kept.items ++ self.old.fresh.items) cmd result
            self.new.pass.1 self.new.cursor (self.new.kept.items ++ self.new.fresh.items) }
        ensures limit { length self.old.pass.1.mine ≡ OWN_LIMIT → IsLimited result }
        ensures taken { IfKeptOut result (IsNameTaken K.signer self.old.pass.1.said self.new.pass.1.seen cmd) }
        ensures of { (conn : ℕ) (place : TableId × K.Origin) → IsOf K.signer conn cmd
            → IsPass K.origin K.stands K.signer K.telling conn place self.old
            → IsPass K.origin K.stands K.signer K.telling conn place self.new }
        ensures grows { Grows self.old.pass.1 self.new.pass.1 }
        ensures same { (self.new.at ≡ self.old.at) × (self.new.number ≡ self.old.number) × (self.new.id ≡ self.old.id) }
    {
        try_take(
            lock,
            &mut self.pass,
            &mut self.cursor,
            &mut self.kept,
            &mut self.fresh,
            cmd,
        )
    }

    /// The same after waiting for the turn.
    pub fn turn<R: Wait>(&mut self, rt: &R, lock: &HistLock<K>, cmd: K::Cmd) -> Waited
        requires lock { self.old.pass.0 ≡ lock.now.0 }
        requires sign { SignsOn K.signer self.old.pass.1.said cmd }
        ensures lock { self.new.pass.0 ≡ self.old.pass.0 }
        ensures does { TakesAtLast K.answers K.pulls self.old.pass.1 self.old.cursor (self.old.kept.items ++ self.old.fresh.items) cmd
            result
            self.new.pass.1 self.new.cursor (self.new.kept.items ++ self.new.fresh.items) }
        ensures taken { IfKeptOut result (IsNameTaken K.signer self.old.pass.1.said self.new.pass.1.seen cmd) }
        ensures of { (conn : ℕ) (place : TableId × K.Origin) → IsOf K.signer conn cmd
            → IsPass K.origin K.stands K.signer K.telling conn place self.old
            → IsPass K.origin K.stands K.signer K.telling conn place self.new }
        ensures grows { Grows self.old.pass.1 self.new.pass.1 }
        ensures same { (self.new.at ≡ self.old.at) × (self.new.number ≡ self.old.number) × (self.new.id ≡ self.old.id) }
    {
        take(
            rt,
            lock,
            &mut self.pass,
            &mut self.cursor,
            &mut self.kept,
            &mut self.fresh,
            cmd,
        )
    }

    /// The same, and the cursor is at a bound meanwhile, so that none of what is told is pulled: who makes its last entry has no
    /// use for it, and it would take memory.
    pub fn turn_unread<R: Wait>(&mut self, rt: &R, lock: &HistLock<K>, cmd: K::Cmd) -> Waited
        requires lock { self.old.pass.0 ≡ lock.now.0 }
        requires sign { SignsOn K.signer self.old.pass.1.said cmd }
        requires free { K.telling.bounded None self.old.cursor ≡ self.old.cursor }
        ensures lock { self.new.pass.0 ≡ self.old.pass.0 }
        ensures does { TakesAtLast K.answers (UpTo K.pulls K.telling.bounded) self.old.pass.1 self.old.cursor
            (self.old.kept.items ++ self.old.fresh.items) cmd result self.new.pass.1 self.new.cursor
            (self.new.kept.items ++ self.new.fresh.items) }
        ensures taken { IfKeptOut result (IsNameTaken K.signer self.old.pass.1.said self.new.pass.1.seen cmd) }
        ensures of { (conn : ℕ) (place : TableId × K.Origin) → IsOf K.signer conn cmd
            → IsPass K.origin K.stands K.signer K.telling conn place self.old
            → IsPass K.origin K.stands K.signer K.telling conn place self.new }
        ensures grows { Grows self.old.pass.1 self.new.pass.1 }
        ensures same { (self.new.at ≡ self.old.at) × (self.new.number ≡ self.old.number) × (self.new.id ≡ self.old.id) }
    {
        let passed = K::passed(&self.cursor);
        K::bound(&mut self.cursor, Some(passed));
        let ended = take(
            rt,
            lock,
            &mut self.pass,
            &mut self.cursor,
            &mut self.kept,
            &mut self.fresh,
            cmd,
        );
        K::bound(&mut self.cursor, None);
        ended
    }

    /// One turn without a command, whose messages are kept. Waits for nobody.
    pub fn try_read(&mut self, lock: &HistLock<K>) -> Result<(), Unread>
        requires { self.old.pass.0 ≡ lock.now.0 }
        ensures lock { self.new.pass.0 ≡ self.old.pass.0 }
        ensures does { Reads K.pulls self.old.pass.1 self.old.cursor (self.old.kept.items ++ self.old.fresh.items) result
            self.new.pass.1 self.new.cursor (self.new.kept.items ++ self.new.fresh.items) }
        ensures of { (conn : ℕ) (place : TableId × K.Origin)
            → IsPass K.origin K.stands K.signer K.telling conn place self.old
            → IsPass K.origin K.stands K.signer K.telling conn place self.new }
        ensures grows { Grows self.old.pass.1 self.new.pass.1 }
        ensures same { (self.new.at ≡ self.old.at) × (self.new.number ≡ self.old.number) × (self.new.id ≡ self.old.id) }
    {
        try_read(
            lock,
            &mut self.pass,
            &mut self.cursor,
            &mut self.kept,
            &mut self.fresh,
        )
    }

    // One turn without a command, after waiting for the turn: a piece of what is past the cursor, up to a bound if there is one,
    // is kept. `AllocError` if out of memory for the messages.
    fn read_up_to<R: Wait>(
        &mut self,
        rt: &R,
        lock: &HistLock<K>,
        until: Option<u64>,
    ) -> Result<(), AllocError>
        requires lock { self.old.pass.0 ≡ lock.now.0 }
        requires free { K.telling.bounded None self.old.cursor ≡ self.old.cursor }
        ensures lock { self.new.pass.0 ≡ self.old.pass.0 }
        ensures does { ReadsAtLast (UpTo K.pulls K.telling.bounded) self.old.pass.1 self.old.cursor
            (self.old.kept.items ++ self.old.fresh.items)
            result self.new.pass.1 self.new.cursor (self.new.kept.items ++ self.new.fresh.items) }
        ensures of { (conn : ℕ) (place : TableId × K.Origin)
            → IsPass K.origin K.stands K.signer K.telling conn place self.old
            → IsPass K.origin K.stands K.signer K.telling conn place self.new }
        ensures grows { Grows self.old.pass.1 self.new.pass.1 }
        ensures same { (self.new.at ≡ self.old.at) × (self.new.number ≡ self.old.number) × (self.new.id ≡ self.old.id) }
    {
        K::bound(&mut self.cursor, until);
        let done = read(
            rt,
            lock,
            &mut self.pass,
            &mut self.cursor,
            &mut self.kept,
            &mut self.fresh,
        );
        K::bound(&mut self.cursor, None);
        done
    }

    /// How many commands the place has taken. Takes no memory.
    pub fn look(&mut self, lock: &HistLock<K>) -> u64
        requires { self.old.pass.0 ≡ lock.now.0 }
        ensures does { self.new ≡ record self.old { pass = (self.old.pass.0, after_look self.old.pass.1 result) } }
        ensures seen { length self.old.pass.1.seen ≤ result }
        ensures fresh { IsFresh self.old.pass.1 result }
        ensures grows { Grows self.old.pass.1 self.new.pass.1 }
        ensures of { (conn : ℕ) (place : TableId × K.Origin)
            → IsPass K.origin K.stands K.signer K.telling conn place self.old
            → IsPass K.origin K.stands K.signer K.telling conn place self.new }
    {
        lock.look(&mut self.pass)
    }

    // All messages that are kept: now they are handed out. Where memory fails they stay.
    fn hand_out(&mut self, alloc: Global) -> Result<Vec<Msg>, AllocError>
        ensures ok { IfOk result (λ v. v.items ≡ self.old.kept.items ++ self.old.fresh.items) }
        ensures none { IfOk result (λ v. self.new.kept.items ++ self.new.fresh.items ≡ []) }
        ensures at { IfOk result (λ v. self.new.at ≡ K.telling.passed self.new.cursor) }
        ensures err { OnErr result ((self.new.kept.items ++ self.new.fresh.items ≡ self.old.kept.items ++ self.old.fresh.items)
            × (self.new.at ≡ self.old.at)) }
        ensures same { (self.new.pass ≡ self.old.pass) × (self.new.cursor ≡ self.old.cursor) × (self.new.number ≡ self.old.number)
            × (self.new.id ≡ self.old.id) }
        ensures of { (conn : ℕ) (place : TableId × K.Origin)
            → IsPass K.origin K.stands K.signer K.telling conn place self.old
            → IsPass K.origin K.stands K.signer K.telling conn place self.new }
    {
        let msgs = hand_out(alloc, &mut self.kept, &mut self.fresh)?;
        self.at = K::passed(&self.cursor);
        Ok(msgs)
    }

    // Takes turns without a command until so many commands were passed: each pulls a piece, which is kept.
    fn pull_up_to<R: Wait>(
        &mut self,
        rt: &R,
        lock: &HistLock<K>,
        shown: u64,
    ) -> Result<(), AllocError>
        requires of { (conn : ℕ) × (place : TableId × K.Origin) × IsPass K.origin K.stands K.signer K.telling conn place self.old }
        requires lock { self.old.pass.0 ≡ lock.now.0 }
        ensures of { (conn : ℕ) (place : TableId × K.Origin)
            → IsPass K.origin K.stands K.signer K.telling conn place self.old
            → IsPass K.origin K.stands K.signer K.telling conn place self.new }
        ensures grows { Grows self.old.pass.1 self.new.pass.1 }
        ensures read { Rereads self.old.pass.1 self.new.pass.1 }
        ensures idle { shown ≤ K.telling.passed self.old.cursor → self.new ≡ self.old }
        ensures ok { OnOk result (shown ≤ K.telling.passed self.new.cursor) }
        ensures same { (self.new.at ≡ self.old.at) × (self.new.number ≡ self.old.number) × (self.new.id ≡ self.old.id) }
    {
        for _ in rt.forever() {
            if shown <= K::passed(&self.cursor) {
                return Ok(());
            }
            self.read_up_to(rt, lock, None)?;
        }
        unreachable!()
    }

    /// Looks, pulls until all that showed was pulled, and hands all out. `AllocError` if out of memory: then nothing was handed
    /// out, and what was pulled stays.
    pub fn catch_up<R: Wait>(
        &mut self,
        rt: &R,
        alloc: Global,
        lock: &HistLock<K>,
    ) -> Result<Vec<Msg>, AllocError>
        requires of { (conn : ℕ) × (place : TableId × K.Origin) × IsPass K.origin K.stands K.signer K.telling conn place self.old }
        requires lock { self.old.pass.0 ≡ lock.now.0 }
        ensures of { (conn : ℕ) (place : TableId × K.Origin)
            → IsPass K.origin K.stands K.signer K.telling conn place self.old
            → IsPass K.origin K.stands K.signer K.telling conn place self.new }
        ensures grows { Grows self.old.pass.1 self.new.pass.1 }
        ensures ok { IfOk result (λ msgs. (conn : ℕ) (place : TableId × K.Origin)
            → IsPass K.origin K.stands K.signer K.telling conn place self.old
            → Caught K.telling conn place.1 msgs.items self.old self.new) }
        ensures err { OnErr result (LooksAtMost self.old.pass.1 self.new.pass.1 × (self.new.at ≡ self.old.at)) }
        ensures same { (self.new.number ≡ self.old.number) × (self.new.id ≡ self.old.id) }
    {
        let shown = self.look(lock);
        self.pull_up_to(rt, lock, shown)?;
        self.hand_out(alloc)
    }

    /// Hands out what is kept; where nothing is, what one turn pulls, up to a bound. `AllocError` as of `catch_up`.
    pub fn hand_on<R: Wait>(
        &mut self,
        rt: &R,
        alloc: Global,
        lock: &HistLock<K>,
        until: u64,
    ) -> Result<Vec<Msg>, AllocError>
        requires of { (conn : ℕ) × (place : TableId × K.Origin) × IsPass K.origin K.stands K.signer K.telling conn place self.old }
        requires lock { self.old.pass.0 ≡ lock.now.0 }
        ensures of { (conn : ℕ) (place : TableId × K.Origin)
            → IsPass K.origin K.stands K.signer K.telling conn place self.old
            → IsPass K.origin K.stands K.signer K.telling conn place self.new }
        ensures grows { Grows self.old.pass.1 self.new.pass.1 }
        ensures ok { IfOk result (λ msgs. (conn : ℕ) (place : TableId × K.Origin)
            → IsPass K.origin K.stands K.signer K.telling conn place self.old
            → Handed K.telling conn place.1 msgs.items self.old self.new) }
        ensures err { OnErr result (Rereads self.old.pass.1 self.new.pass.1 × (self.new.at ≡ self.old.at)) }
        ensures same { (self.new.number ≡ self.old.number) × (self.new.id ≡ self.old.id) }
    {
        let passed = K::passed(&self.cursor);
        if self.at < passed || until <= passed {
            return self.hand_out(alloc);
        }
        self.read_up_to(rt, lock, Some(until))?;
        self.hand_out(alloc)
    }

    /// Two passes of one place tell one another all that they know. Takes no memory and waits for nobody.
    pub fn meet(&mut self, lock: &HistLock<K>, other: &mut PlacePass<Pass<K>, K::Cursor, N, I>)
        requires { (self.old.pass.0 ≡ lock.now.0) × (other.old.pass.0 ≡ lock.now.0) }
        ensures met { Met K.signer self.old.pass.1 self.new.pass.1 other.old.pass.1 other.new.pass.1 }
        ensures heard { IsHeardRightly K.signer self.old.pass.1 other.old.pass.1
            × IsHeardRightly K.signer other.old.pass.1 self.old.pass.1 }
        ensures of { (conn : ℕ) (place : TableId × K.Origin)
            → IsPass K.origin K.stands K.signer K.telling conn place self.old
            → IsPass K.origin K.stands K.signer K.telling conn place self.new }
        ensures of_other { (conn : ℕ) (place : TableId × K.Origin)
            → IsPass K.origin K.stands K.signer K.telling conn place other.old
            → IsPass K.origin K.stands K.signer K.telling conn place other.new }
        ensures same { self.new ≡ record self.old { pass = self.new.pass } }
        ensures same_other { other.new ≡ record other.old { pass = other.new.pass } }
    {
        lock.differ(&mut self.pass, &mut other.pass);
        lock.meet(&mut self.pass, &mut other.pass);
    }
}
