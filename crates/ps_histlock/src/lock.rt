//! The lock, its passes, and the calls.
ghost use Rattle.std.specs.Prelude.{All, ◌≡◌, ◌≢◌, ◌+◌, ◌≤◌, ◌<◌, ◌^◌, ◌*◌, ◌/◌, ◌++◌, ℕ, List, true, false, [], ◌∷◌, length, Option};
ghost use Rattle.std.specs.Prelude.{IfOk, IfErr, OnErr, IsTrue, IsFalse, None, Some, IsSome, IfSome};
ghost use mathlib.Core.List.{IsPrefix};
ghost use Rattle.ps_histlock.specs.Histories.{commands, entry, entries_of, longer, AreOneList};
ghost use Rattle.ps_histlock.specs.Views.{newcomer, offspring, heir_of, with_number, after_look, after_meeting, after_entry};
ghost use Rattle.ps_histlock.specs.Views.{after_turn, holder, hearing, informed, comparing, compared, counted, knowing, HasGrown};
ghost use Rattle.ps_histlock.specs.Views.{HasLooked, IsAtRest, Extends};
ghost use Rattle.ps_histlock.specs.Openers.{unopened};
ghost use mathlib.Core.Option.{none};
ghost use Rattle.atomic_table.specs.Table.{step, Allows};
ghost use Rattle.ps_histlock.specs.Homes.{home_origin, HomeStands};
ghost use Rattle.ps_histlock.specs.Locks.{Stands, IsKept, MaySign, OwnSigns, SignsOn, HasSigned, IsNameTaken, MayGoOn, IsAnothers};
ghost use Rattle.ps_histlock.specs.declared.view.View.{View};
ghost use Rattle.ps_histlock.specs.Turns.{Turned, AtLast, Enters, Reads, ReadsInTurn, IsBusy, IsNotBusy, Written};
ghost use Rattle.ps_histlock.specs.declared.lock.TheConstants.{OWN_LIMIT};
ghost use Rattle.ps_histlock.specs.declared.turn.TurnOf.TheVariants.{OwnLimit, Taken};
ghost use Rattle.ps_histlock.specs.declared.view.Entry.{Entry};

use crate::home::Home;
use crate::kept::Kept;
use crate::rule::{
    Append, Arrive, Count, Cut, Differ, Far, Hear, HearAnother, Inherit, Learn, Look, Meet, Name,
    Release, Rule, Seize, Tell, Writes,
};
use crate::turn::{Tried, Turn, TurnOf, Unread, Waited};
use crate::view::View;
use atomic_table::{Play, Refused, Seat, Table};
use crossbeam_utils::Backoff;
use std::alloc::{AllocError, Global};
use std::marker::{Brand, Model};
use std::snapshot::Snapshot;
use std::sync::Wait;

/// How many entries one pass may make: all texts that a connection may give to one place, 256 reports of battles that they
/// end, and its end.
pub const OWN_LIMIT: u64 = 16_641;

/// A lock round a value with a history. Contracts see a name, which its passes share, and the value's origin.
#[derive(Drop)]
pub struct HistLock<K: Kept> {
    table: Table<Option<Home<K>>, View<K::Origin, K::Cmd>, Snapshot<K>, Rule<K>, Global>,
}

impl<K: Kept> Model for HistLock<K> {
    ghost use Rattle.std.specs.Prelude.{◌≡◌};
    ghost use Rattle.atomic_table.specs.Seated.{TableId};

    ghost Value = { TableId × K.Origin };

    ghost view = { λ l. (l.table.shared.table_id, K.origin l.table.shared.key.value) };

    ghost invariant = { λ l. (l.table.shared.table_id.words ≡ 1) × (l.table.shared.table_id.slots ≡ 1) };
}

type OwnSeat<K> = Seat<Option<Home<K>>, View<<K as Kept>::Origin, <K as Kept>::Cmd>>;

/// The right to look at one lock and to take turns, with all that its holder knows of the history. Contracts see the
/// lock's name and a view. Between two calls it never has the turn.
#[derive(Drop)]
pub struct Pass<K: Kept> {
    seat: Seat<Option<Home<K>>, View<K::Origin, K::Cmd>>,
    own: u64,
    has_signed: bool,
}

impl<K: Kept> Model for Pass<K> {
    ghost use Rattle.std.specs.Prelude.{◌≡◌, ◌≢◌, ◌+◌, ◌≤◌, [], length};
    ghost use Rattle.atomic_table.specs.Seated.{TableId};
    ghost use Rattle.ps_histlock.specs.Views.{IsAtRest};
    ghost use Rattle.ps_histlock.specs.Locks.{OwnSigns, HasSigned};
    ghost use Rattle.ps_histlock.specs.declared.lock.TheConstants.{OWN_LIMIT};
    ghost use Rattle.ps_histlock.specs.declared.view.View.{View};

    ghost Value = { TableId × View K.Origin K.Cmd };

    ghost view = { λ p. (p.seat.table_id, p.seat.me.0) };

    ghost invariant = { λ p. (p.seat.me.1 ≡ []) × IsAtRest K.origin K.stands p.seat.me.0 × (p.own ≡ length p.seat.me.0.mine)
        × (p.own ≤ OWN_LIMIT) × OwnSigns K.signer p.seat.me.0 p.seat.me.0.known × HasSigned K.signer p.has_signed p.seat.me.0.said };
}

/// The turn of a lock that isn't open yet. Who has it has the value too, so nobody else makes an entry or reads. Contracts see
/// the lock's name, and the view of a pass that has the turn and sees the whole history, in which there is no entry.
#[derive(Drop)]
pub struct Opener<K: Kept> {
    seat: Seat<Option<Home<K>>, View<K::Origin, K::Cmd>>,
    home: Home<K>,
}

impl<K: Kept> Model for Opener<K> {
    ghost use Rattle.std.specs.Prelude.{◌≡◌, None, [], ◌∷◌};
    ghost use Rattle.atomic_table.specs.Seated.{TableId};
    ghost use Rattle.ps_histlock.specs.Openers.{unopened};
    ghost use Rattle.ps_histlock.specs.Homes.{HomeStands};
    ghost use Rattle.ps_histlock.specs.declared.view.View.{View};

    ghost Value = { TableId × View K.Origin K.Cmd };

    ghost view = { λ o. (o.seat.table_id, o.seat.me.0) };

    ghost invariant = { λ o. (o.seat.me ≡ (unopened (K.origin o.home.kept), (0, None) ∷ [])) × HomeStands K.stands K.signer [] o.home };
}

// Whether the command is signed by a name of which an entry stands that the pass may not speak for.
fn is_anothers<K: Kept>(has_signed: bool, home: &Home<K>, cmd: &K::Cmd) -> bool
    ensures taken { IsTrue result → IsAnothers K.signer (HomeStands K.stands K.signer) has_signed home.now cmd.now }
    ensures free { IsFalse result → MayGoOn K.signer (HomeStands K.stands K.signer) has_signed home.now cmd.now }
{
    if has_signed {
        return false;
    }
    home.is_taken(cmd)
}

// Whether a pass that has signed something, or not, has once it has made this entry.
fn signs_with<K: Kept>(has_signed: bool, cmd: &K::Cmd) -> bool
    ensures { (by : ℕ) (said : List (Entry K.Cmd)) → HasSigned K.signer has_signed said
        → HasSigned K.signer result (said ++ entry by cmd.now ∷ []) }
{
    if has_signed {
        return true;
    }
    K::signed_by(cmd).is_some()
}

impl<K: Kept> HistLock<K> {
    /// A lock round a value that stands for no entry, and its first pass. `AllocError` if out of memory.
    pub fn new(alloc: Global, kept: K) -> Result<(HistLock<K>, Pass<K>), AllocError>
        requires { K.stands [] kept }
        ensures lock { IfOk result (λ r. r.0.1 ≡ K.origin kept) }
        ensures pass { IfOk result (λ r. r.1 ≡ (r.0.0, newcomer (K.origin kept) 0)) }
    {
        let key = Snapshot::of(&kept);
        let mut slots = Vec::with_capacity(alloc, 1)?;
        slots.push_reserved(Some(Home::new(alloc, kept)));
        match Table::new(alloc, &[0], slots, &key) {
            Ok((table, seat)) => Ok((
                HistLock { table },
                Pass {
                    seat,
                    own: 0,
                    has_signed: false,
                },
            )),
            Err(Refused { slots: _ }) => Err(AllocError),
        }
    }

    /// A lock round a value that stands for no entry, which isn't open yet: its turn is taken, and who has the opener has it. As
    /// long as there is the opener, the history is empty. `AllocError` if out of memory.
    pub fn closed(alloc: Global, kept: K) -> Result<(HistLock<K>, Opener<K>), AllocError>
        requires { K.stands [] kept }
        ensures lock { IfOk result (λ r. r.0.1 ≡ K.origin kept) }
        ensures opener { IfOk result (λ r. r.1 ≡ (r.0.0, unopened (K.origin kept))) }
    {
        let (lock, pass) = HistLock::new(alloc, kept)?;
        let opener = lock.shut(pass)?;
        Ok((lock, opener))
    }

    // Takes the turn for good, by the first pass, where the word shows that there is no entry.
    fn shut(&self, pass: Pass<K>) -> Result<Opener<K>, AllocError>
        requires lock { pass.0 ≡ self.now.0 }
        requires first { pass.1 ≡ newcomer self.now.1 0 }
        ensures { IfOk result (λ o. o ≡ (self.now.0, unopened self.now.1)) }
    {
        let Pass {
            mut seat,
            own: _,
            has_signed: _,
        } = pass;
        let shared = &self.table.shared;
        // No other pass was made, so no other word is found; but no clause of the step can say so.
        if shared.compare_exchange::<Seize>(&mut seat, 0, 0, 1) != 0 {
            return Err(AllocError);
        }
        let home = shared.exchange(&mut seat, 0, None).unwrap();
        Ok(Opener { seat, home })
    }

    /// Opens the lock. Who had the opener has a pass, which has seen nothing and made nothing. Takes no memory.
    pub fn open(&self, opener: Opener<K>) -> Pass<K>
        requires { opener.0 ≡ self.now.0 }
        ensures pass { result ≡ (self.now.0, after_turn opener.1) }
        ensures none { (result.1.seen ≡ []) × (result.1.mine ≡ []) × (result.1.said ≡ []) }
        ensures rest { IsAtRest K.origin K.stands result.1 }
    {
        let Opener { mut seat, home } = opener;
        self.release(&mut seat, home);
        Pass {
            seat,
            own: 0,
            has_signed: false,
        }
    }

    /// A new pass, for a caller that holds none. It has seen nothing. Takes no memory.
    pub fn fresh(&self) -> Pass<K>
        ensures { (n : ℕ) × (result ≡ (self.now.0, newcomer self.now.1 n)) }
    {
        let (_, seat) = self.table.shared.load_new_seat::<Arrive>(0);
        Pass {
            seat,
            own: 0,
            has_signed: false,
        }
    }

    /// A new pass, which has seen as much as this one and has made no entry. Takes no memory.
    pub fn split(&self, pass: &mut Pass<K>) -> Pass<K>
        requires { pass.old.0 ≡ self.now.0 }
        ensures same { pass.new ≡ pass.old }
        ensures new { (n : ℕ) × (result ≡ (self.now.0, with_number (offspring pass.old.1) n)) }
        ensures rest { IsAtRest K.origin K.stands result.1 }
    {
        let mut seat = self.table.shared.split_seat::<Cut>(&mut pass.seat);
        self.table.shared.load::<Name>(&mut seat, 0);
        Pass {
            seat,
            own: 0,
            has_signed: false,
        }
    }

    /// A new pass in the place of this one, which is gone: it has seen as much, has made no entry, and may sign as this one did.
    /// Takes no memory.
    pub fn heir(&self, pass: Pass<K>) -> Pass<K>
        requires { pass.0 ≡ self.now.0 }
        ensures new { (n : ℕ) × (result ≡ (self.now.0, with_number (heir_of pass.1) n)) }
        ensures signed { OwnSigns K.signer result.1 result.1.known }
        ensures rest { IsAtRest K.origin K.stands result.1 }
    {
        let Pass {
            mut seat,
            own: _,
            has_signed,
        } = pass;
        let mut new = self.table.shared.split_seat::<Inherit>(&mut seat);
        self.table.shared.load::<Name>(&mut new, 0);
        Pass {
            seat: new,
            own: 0,
            has_signed,
        }
    }

    /// How many entries the history has at this moment: at least as many as the pass has seen. Takes no memory and waits
    /// for nobody.
    pub fn look(&self, pass: &mut Pass<K>) -> u64
        requires { pass.old.0 ≡ self.now.0 }
        ensures does { pass.new ≡ (pass.old.0, after_look pass.old.1 result) }
        ensures seen { length pass.old.1.known ≤ result }
        ensures rises { All (λ n. n ≤ result) pass.old.1.looks }
        ensures signed { OwnSigns K.signer pass.new.1 pass.new.1.known }
        ensures rest { IsAtRest K.origin K.stands pass.new.1 }
    {
        let _ = &pass.seat;
        self.glance::<Look>(pass) / 2
    }

    /// A look by one load of the word, of which the caller's own `Play` says what it tells beside: whatever the lock is at that
    /// moment, M gives what holds of the word and of the view after the look, if that keeps the rule. Since M is the caller's, no
    /// other number than the word's at one moment of this call can be answered. Takes no memory and waits for nobody.
    pub fn glance<M: Play<Option<Home<K>>, View<K::Origin, K::Cmd>>>(
        &self,
        pass: &mut Pass<K>,
    ) -> u64
        requires lock { pass.old.0 ≡ self.now.0 }
        requires allowed { (id : ℕ) → Allows (IsKept (home_origin K.origin) (HomeStands K.stands K.signer) K.signer self.now.1) 1 id
            (pass.old.1, []) 0 (λ n. n) (M.then (step 1 0 0 0 none) (pass.old.1, [])) }
        requires rest { (n : ℕ) (v : View K.Origin K.Cmd) (out : List (ℕ × Option (Home K)))
            → M.then (step 1 0 0 0 none) (pass.old.1, []) n (v, out) → (v ≡ after_look pass.old.1 (n / 2)) × (out ≡ [])
            × (length pass.old.1.known ≤ n / 2) }
        ensures lock { pass.new.0 ≡ pass.old.0 }
        ensures does { M.then (step 1 0 0 0 none) (pass.old.1, []) result (pass.new.1, []) }
        ensures signed { OwnSigns K.signer pass.new.1 pass.new.1.known }
        ensures rest { IsAtRest K.origin K.stands pass.new.1 }
    {
        self.table.shared.load::<M>(&mut pass.seat, 0)
    }

    // Tells one pass all that another knows.
    fn tell(&self, from: &mut OwnSeat<K>, to: &mut OwnSeat<K>)
        requires seat_state { (from.old.table_id ≡ self.now.0) × (to.old.table_id ≡ self.now.0) × (to.old.me.1 ≡ [])
            × (from.old.me.0.named ≡ true) }
        requires to { (to.old.me.0.named ≡ true) × (to.old.me.0.letter ≡ false) × (to.old.me.0.heard ≡ []) × (to.old.me.0.speaks ≡ true) }
        ensures from { (from.new.table_id ≡ from.old.table_id) × (from.new.id ≡ from.old.id) × (from.new.me ≡ from.old.me) }
        ensures to { (to.new.table_id ≡ to.old.table_id) × (to.new.id ≡ to.old.id)
            × (to.new.me ≡ (knowing to.old.me.0 (longer to.old.me.0.known from.old.me.0.known), [])) }
        ensures one { IsPrefix to.old.me.0.known (longer to.old.me.0.known from.old.me.0.known)
            × IsPrefix from.old.me.0.known (longer to.old.me.0.known from.old.me.0.known) }
        ensures own { to.old.me.0.mine ≡ entries_of to.old.me.0.number (longer to.old.me.0.known from.old.me.0.known) }
        ensures signed { OwnSigns K.signer to.old.me.0 (longer to.old.me.0.known from.old.me.0.known) }
    {
        let letter = self.table.shared.split_seat::<Tell>(from);
        self.table.shared.join_seat::<Hear<K>>(to, letter);
        self.table.shared.load::<Learn>(to, 0);
    }

    // That two seats are two, by a count of the second that is beyond that of the first.
    fn compare<N: Far>(&self, seat: &mut OwnSeat<K>, other: &mut OwnSeat<K>)
        requires seat_state { (seat.old.table_id ≡ self.now.0) × (other.old.table_id ≡ self.now.0) × (seat.old.me.1 ≡ []) }
        requires seat { (seat.old.me.0.named ≡ true) × (seat.old.me.0.letter ≡ false) }
        requires other { other.old.me.0.named ≡ true }
        requires far { N.far ≡ seat.old.me.0.mark + 1 }
        ensures seat { (seat.new.table_id ≡ seat.old.table_id) × (seat.new.id ≡ seat.old.id)
            × (seat.new.me ≡ (compared seat.old.me.0, [])) }
        ensures other { (other.new.table_id ≡ other.old.table_id) × (other.new.id ≡ other.old.id)
            × (other.new.me ≡ (counted other.old.me.0 N.far, other.old.me.1)) }
        ensures two { other.old.me.0.number ≢ seat.old.me.0.number }
    {
        let shared = &self.table.shared;
        shared.load::<Count<N>>(other, 0);
        let letter = shared.split_seat::<Tell>(other);
        shared.join_seat::<HearAnother<K>>(seat, letter);
        shared.load::<Differ>(seat, 0);
    }

    /// Two passes never have one number. Takes no memory and waits for nobody.
    pub fn differ(&self, pass: &mut Pass<K>, other: &mut Pass<K>)
        requires { (pass.old.0 ≡ self.now.0) × (other.old.0 ≡ self.now.0) }
        ensures pass { pass.new ≡ (pass.old.0, compared pass.old.1) }
        ensures other { (n : ℕ) × (other.new ≡ (other.old.0, counted other.old.1 n)) }
        ensures two { pass.old.1.number ≢ other.old.1.number }
    {
        self.compare::<Brand>(&mut pass.seat, &mut other.seat);
    }

    /// Two passes tell one another all that they know. Then both know of one and the same beginning of the one history, which
    /// is what one of them knew: all that either has seen begins it, and the entries in it with the number of either are just
    /// its own. Takes no memory and waits for nobody.
    pub fn meet(&self, pass: &mut Pass<K>, other: &mut Pass<K>)
        requires { (pass.old.0 ≡ self.now.0) × (other.old.0 ≡ self.now.0) }
        ensures pass { pass.new ≡ (pass.old.0, knowing pass.old.1 (longer pass.old.1.known other.old.1.known)) }
        ensures other { other.new ≡ (other.old.0, knowing other.old.1 (longer pass.old.1.known other.old.1.known)) }
        ensures one { IsPrefix pass.old.1.known pass.new.1.known × IsPrefix other.old.1.known pass.new.1.known }
        ensures one_list { AreOneList pass.old.1.seen other.old.1.seen }
        ensures own { (pass.new.1.mine ≡ entries_of pass.new.1.number pass.new.1.known)
            × (other.new.1.mine ≡ entries_of other.new.1.number pass.new.1.known) }
        ensures signed { OwnSigns K.signer pass.new.1 pass.new.1.known × OwnSigns K.signer other.new.1 pass.new.1.known }
        ensures rest { IsAtRest K.origin K.stands pass.new.1 × IsAtRest K.origin K.stands other.new.1 }
    {
        self.tell(&mut other.seat, &mut pass.seat);
        self.tell(&mut pass.seat, &mut other.seat);
    }

    // Takes the turn and the value, or answers the last word met.
    fn seize(&self, seat: &mut OwnSeat<K>) -> Result<Home<K>, u64>
        requires { (seat.old.table_id ≡ self.now.0) × (seat.old.me.1 ≡ []) × (seat.old.me.0.named ≡ true)
            × (seat.old.me.0.letter ≡ false) × (seat.old.me.0.speaks ≡ true) }
        ensures same { (seat.new.table_id ≡ seat.old.table_id) × (seat.new.id ≡ seat.old.id) }
        ensures ok { IfOk result (λ k. (log : List (Entry K.Cmd)) × Extends seat.old.me.0 log × OwnSigns K.signer seat.old.me.0 log
            × Stands (home_origin K.origin) (HomeStands K.stands K.signer) K.signer seat.old.me.0.origin log k
            × (seat.new.me ≡ (holder (after_meeting seat.old.me.0 (2 * length log)) log, (0, None) ∷ []))) }
        ensures err { IfErr result (λ word. IsBusy seat.old.me.0 word seat.new.me.0 × (seat.new.me.1 ≡ [])) }
    {
        let shared = &self.table.shared;
        let word = shared.load::<Meet>(seat, 0);
        if word % 2 == 1 {
            return Err(word);
        }
        let found = shared.compare_exchange::<Seize>(seat, 0, word, word + 1);
        if found != word {
            return Err(found);
        }
        Ok(shared.exchange(seat, 0, None).unwrap())
    }

    // Puts the value back and ends the turn with an entry, that of the command which W names.
    fn append<W: Writes<K::Cmd>>(&self, seat: &mut OwnSeat<K>, home: Home<K>)
        requires seat_state { (seat.old.table_id ≡ self.now.0) × (seat.old.me.1 ≡ (0, None) ∷ []) }
        requires turn { (seat.old.me.0.holds ≡ true) × (seat.old.me.0.named ≡ true) × (seat.old.me.0.letter ≡ false)
            × (seat.old.me.0.heard ≡ []) × (seat.old.me.0.speaks ≡ true) }
        requires own { seat.old.me.0.mine ≡ entries_of seat.old.me.0.number seat.old.me.0.seen }
        requires grown { HasGrown (seat.old.me.0.turns + 1) seat.old.me.0 }
        requires looked { HasLooked seat.old.me.0 }
        requires value { K.origin home.kept ≡ seat.old.me.0.origin }
        requires entry { (c : K.Cmd) × (W.written ≡ Some c)
            × HomeStands K.stands K.signer (commands seat.old.me.0.seen ++ c ∷ []) home
            × (length (commands seat.old.me.0.seen ++ c ∷ []) < 2 ^ 62) × MaySign K.signer seat.old.me.0 seat.old.me.0.seen c }
        ensures same { (seat.new.table_id ≡ seat.old.table_id) × (seat.new.id ≡ seat.old.id) }
        ensures entry { (c : K.Cmd) × (W.written ≡ Some c) × (seat.new.me ≡ (after_entry seat.old.me.0 c, [])) }
        ensures signed { OwnSigns K.signer seat.new.me.0 seat.new.me.0.known }
        ensures rest { IsAtRest K.origin K.stands seat.new.me.0 }
    {
        let shared = &self.table.shared;
        drop(shared.exchange(seat, 0, Some(home)));
        shared.fetch_add::<Append<W>>(seat, 0, 1);
    }

    // Puts the value back and ends the turn without an entry.
    fn release(&self, seat: &mut OwnSeat<K>, home: Home<K>)
        requires seat_state { (seat.old.table_id ≡ self.now.0) × (seat.old.me.1 ≡ (0, None) ∷ []) }
        requires turn { (seat.old.me.0.holds ≡ true) × (seat.old.me.0.letter ≡ false) }
        requires value { (K.origin home.kept ≡ seat.old.me.0.origin) × HomeStands K.stands K.signer (commands seat.old.me.0.seen) home }
        ensures same { (seat.new.table_id ≡ seat.old.table_id) × (seat.new.id ≡ seat.old.id) }
        ensures released { seat.new.me ≡ (after_turn seat.old.me.0, []) }
    {
        let shared = &self.table.shared;
        drop(shared.exchange(seat, 0, Some(home)));
        shared.fetch_sub::<Release>(seat, 0, 1);
    }

    // The rest of a turn that asks for no entry.
    fn pull(
        &self,
        seat: &mut OwnSeat<K>,
        cursor: &mut K::Cursor,
        home: Home<K>,
    ) -> Result<Vec<K::Msg>, AllocError>
        requires seat_state { (seat.old.table_id ≡ self.now.0) × (seat.old.me.1 ≡ (0, None) ∷ []) }
        requires turn { (seat.old.me.0.holds ≡ true) × (seat.old.me.0.letter ≡ false) }
        requires value { (K.origin home.kept ≡ seat.old.me.0.origin) × HomeStands K.stands K.signer (commands seat.old.me.0.seen) home }
        ensures same { (seat.new.table_id ≡ seat.old.table_id) × (seat.new.id ≡ seat.old.id) }
        ensures released { seat.new.me ≡ (after_turn seat.old.me.0, []) }
        ensures ok { IfOk result (λ msgs. K.pulls seat.old.me.0.origin (commands seat.old.me.0.seen) cursor.old msgs.items cursor.new) }
        ensures err { OnErr result (cursor.new ≡ cursor.old) }
    {
        let msgs = home.pull(cursor);
        self.release(seat, home);
        msgs
    }

    // The rest of a turn that asks for an entry, that of the command which W names.
    fn write<W: Writes<K::Cmd>>(
        &self,
        seat: &mut OwnSeat<K>,
        cursor: &mut K::Cursor,
        mut home: Home<K>,
        cmd: K::Cmd,
    ) -> Tried<K>
        requires seat_state { (seat.old.table_id ≡ self.now.0) × (seat.old.me.1 ≡ (0, None) ∷ []) }
        requires turn { (seat.old.me.0.holds ≡ true) × (seat.old.me.0.named ≡ true) × (seat.old.me.0.letter ≡ false)
            × (seat.old.me.0.heard ≡ []) × (seat.old.me.0.speaks ≡ true) }
        requires own { (seat.old.me.0.mine ≡ entries_of seat.old.me.0.number seat.old.me.0.seen)
            × (seat.old.me.0.known ≡ seat.old.me.0.seen) }
        requires grown { HasGrown (seat.old.me.0.turns + 1) seat.old.me.0 }
        requires looked { HasLooked seat.old.me.0 }
        requires signed { OwnSigns K.signer seat.old.me.0 seat.old.me.0.known }
        requires value { (K.origin home.kept ≡ seat.old.me.0.origin) × HomeStands K.stands K.signer (commands seat.old.me.0.seen) home }
        requires entry { W.written ≡ Some cmd }
        requires sign { MaySign K.signer seat.old.me.0 seat.old.me.0.seen cmd }
        ensures same { (seat.new.table_id ≡ seat.old.table_id) × (seat.new.id ≡ seat.old.id) × (seat.new.me.1 ≡ []) }
        ensures does { Written K.answers K.pulls seat.old.me.0 cursor.old cmd result seat.new.me.0 cursor.new }
        ensures signed { OwnSigns K.signer seat.new.me.0 seat.new.me.0.known }
        ensures rest { IsAtRest K.origin K.stands seat.new.me.0 }
    {
        match home.apply(cmd) {
            Ok(out) => {
                let msgs = home.pull(cursor);
                self.append::<W>(seat, home);
                match msgs {
                    Ok(msgs) => TurnOf::Done { out, msgs },
                    Err(_) => TurnOf::Late { out },
                }
            }
            Err(_) => {
                self.release(seat, home);
                TurnOf::NoMemory
            }
        }
    }

    /// One turn that makes an entry, unless somebody else has it: applies the command as the next entry of the history, and
    /// pulls the messages past the cursor. It waits for nobody. A pass signs by one name only.
    ///
    /// `Busy` only where it met an odd word, or two words that differ; `OwnLimit` exactly where the pass has made `OWN_LIMIT`
    /// entries; `Taken` only where an entry is signed by the name of the command, and none that the pass may speak for, and
    /// then there is no entry. `Late` and `NoMemory` are out of memory, with the entry and without it.
    pub fn try_enter(&self, pass: &mut Pass<K>, cursor: &mut K::Cursor, cmd: K::Cmd) -> Tried<K>
        requires lock { pass.old.0 ≡ self.now.0 }
        requires sign { SignsOn K.signer pass.old.1.said cmd }
        ensures lock { pass.new.0 ≡ pass.old.0 }
        ensures does { Enters K.answers K.pulls (λ back. back ≡ cmd) pass.old.1 cursor.old cmd result pass.new.1 cursor.new }
        ensures limit { length pass.old.1.mine ≡ OWN_LIMIT → (result ≡ OwnLimit cmd) × (pass.new ≡ pass.old) × (cursor.new ≡ cursor.old) }
        ensures taken { (back : K.Cmd) → result ≡ Taken back → IsNameTaken K.signer pass.old.1.said pass.new.1.seen cmd }
        ensures signed { OwnSigns K.signer pass.new.1 pass.new.1.known }
        ensures rest { IsAtRest K.origin K.stands pass.new.1 }
    {
        if pass.own >= OWN_LIMIT {
            return TurnOf::OwnLimit { cmd };
        }
        let home = match self.seize(&mut pass.seat) {
            Ok(home) => home,
            Err(word) => return TurnOf::Busy { word, cmd },
        };
        if is_anothers(pass.has_signed, &home, &cmd) {
            self.release(&mut pass.seat, home);
            return TurnOf::Taken { cmd };
        }
        let has_signed = signs_with::<K>(pass.has_signed, &cmd);
        let turn = self.write::<Brand>(&mut pass.seat, cursor, home, cmd);
        if let TurnOf::Done { .. } | TurnOf::Late { .. } = &turn {
            pass.own += 1;
            pass.has_signed = has_signed;
        }
        turn
    }

    /// One turn that makes an entry, as `try_enter`, again and again until it isn't `Busy`: at once at first, and then after
    /// others ran.
    pub fn enter<R: Wait>(
        &self,
        rt: &R,
        pass: &mut Pass<K>,
        cursor: &mut K::Cursor,
        cmd: K::Cmd,
    ) -> Waited<K>
        requires lock { pass.old.0 ≡ self.now.0 }
        requires sign { SignsOn K.signer pass.old.1.said cmd }
        ensures lock { pass.new.0 ≡ pass.old.0 }
        ensures does { AtLast (λ v. Enters K.answers K.pulls (λ back. ⊥) v cursor.old cmd result pass.new.1 cursor.new) pass.old.1 }
        ensures limit { length pass.old.1.mine ≡ OWN_LIMIT → (result ≡ OwnLimit cmd) × (pass.new ≡ pass.old) × (cursor.new ≡ cursor.old) }
        ensures taken { (back : K.Cmd) → result ≡ Taken back → IsNameTaken K.signer pass.old.1.said pass.new.1.seen cmd }
        ensures signed { OwnSigns K.signer pass.new.1 pass.new.1.known }
        ensures rest { IsAtRest K.origin K.stands pass.new.1 }
    {
        let backoff = Backoff::new();
        let mut left = cmd;
        for _ in rt.forever() {
            match self.try_enter(pass, cursor, left) {
                TurnOf::Busy { word: _, cmd } => {
                    left = cmd;
                    backoff.snooze();
                }
                TurnOf::Done { out, msgs } => return TurnOf::Done { out, msgs },
                TurnOf::Late { out } => return TurnOf::Late { out },
                TurnOf::OwnLimit { cmd } => return TurnOf::OwnLimit { cmd },
                TurnOf::Taken { cmd } => return TurnOf::Taken { cmd },
                TurnOf::NoMemory => return TurnOf::NoMemory,
            }
        }
        unreachable!()
    }

    /// One turn that makes no entry, unless somebody else has it: pulls the messages past the cursor. It waits for nobody.
    ///
    /// `Busy` only where it met an odd word, or two words that differ; `NoMemory` where there is none for the messages.
    pub fn try_read(
        &self,
        pass: &mut Pass<K>,
        cursor: &mut K::Cursor,
    ) -> Result<Vec<K::Msg>, Unread>
        requires { pass.old.0 ≡ self.now.0 }
        ensures lock { pass.new.0 ≡ pass.old.0 }
        ensures does { Reads K.pulls pass.old.1 cursor.old result pass.new.1 cursor.new }
        ensures signed { OwnSigns K.signer pass.new.1 pass.new.1.known }
        ensures rest { IsAtRest K.origin K.stands pass.new.1 }
    {
        let home = match self.seize(&mut pass.seat) {
            Ok(home) => home,
            Err(word) => return Err(Unread::Busy { word }),
        };
        match self.pull(&mut pass.seat, cursor, home) {
            Ok(msgs) => Ok(msgs),
            Err(_) => Err(Unread::NoMemory),
        }
    }

    /// One turn that makes no entry, as `try_read`, again and again until it has the turn: at once at first, and then after
    /// others ran. `AllocError` where there is no memory for the messages: then the cursor is where it was.
    pub fn read<R: Wait>(
        &self,
        rt: &R,
        pass: &mut Pass<K>,
        cursor: &mut K::Cursor,
    ) -> Result<Vec<K::Msg>, AllocError>
        requires { pass.old.0 ≡ self.now.0 }
        ensures lock { pass.new.0 ≡ pass.old.0 }
        ensures does { AtLast (λ v. ReadsInTurn K.pulls v cursor.old result pass.new.1 cursor.new) pass.old.1 }
        ensures signed { OwnSigns K.signer pass.new.1 pass.new.1.known }
        ensures rest { IsAtRest K.origin K.stands pass.new.1 }
    {
        let backoff = Backoff::new();
        for _ in rt.forever() {
            match self.try_read(pass, cursor) {
                Err(Unread::Busy { word: _ }) => backoff.snooze(),
                Ok(msgs) => return Ok(msgs),
                Err(Unread::NoMemory) => return Err(AllocError),
            }
        }
        unreachable!()
    }

    /// One turn, unless somebody else has it: applies the command, if there is one, as `try_enter`, and else pulls the
    /// messages past the cursor, as `try_read`. It waits for nobody. A pass signs by one name only.
    ///
    /// `Busy` only where it met an odd word, or two words that differ; `OwnLimit` exactly where there is a command and
    /// the pass has made `OWN_LIMIT` entries; `Taken` only where an entry is signed by the name of the command, and none that the
    /// pass may speak for, and then there is no entry. `Late` and `NoMemory` are out of memory, with the entry and without it;
    /// a turn that asks for no entry never answers NoMemory.
    pub fn try_turn(
        &self,
        pass: &mut Pass<K>,
        cursor: &mut K::Cursor,
        cmd: Option<K::Cmd>,
    ) -> Turn<K>
        requires lock { pass.old.0 ≡ self.now.0 }
        requires sign { IfSome cmd (SignsOn K.signer pass.old.1.said) }
        ensures lock { pass.new.0 ≡ pass.old.0 }
        ensures does { Turned K.answers K.pulls pass.old.1 cursor.old cmd result pass.new.1 cursor.new }
        ensures limit { IsSome cmd → length pass.old.1.mine ≡ OWN_LIMIT → (result ≡ OwnLimit cmd) × (pass.new ≡ pass.old)
            × (cursor.new ≡ cursor.old) }
        ensures taken { (back : Option K.Cmd) → result ≡ Taken back → IfSome cmd (IsNameTaken K.signer pass.old.1.said pass.new.1.seen) }
        ensures signed { OwnSigns K.signer pass.new.1 pass.new.1.known }
        ensures rest { IsAtRest K.origin K.stands pass.new.1 }
    {
        match cmd {
            None => match self.try_read(pass, cursor) {
                Ok(msgs) => TurnOf::Done { out: None, msgs },
                Err(Unread::Busy { word }) => TurnOf::Busy { word, cmd: None },
                Err(Unread::NoMemory) => TurnOf::Late { out: None },
            },
            Some(cmd) => match self.try_enter(pass, cursor, cmd) {
                TurnOf::Done { out, msgs } => TurnOf::Done {
                    out: Some(out),
                    msgs,
                },
                TurnOf::Late { out } => TurnOf::Late { out: Some(out) },
                TurnOf::Busy { word, cmd } => TurnOf::Busy {
                    word,
                    cmd: Some(cmd),
                },
                TurnOf::OwnLimit { cmd } => TurnOf::OwnLimit { cmd: Some(cmd) },
                TurnOf::Taken { cmd } => TurnOf::Taken { cmd: Some(cmd) },
                TurnOf::NoMemory => TurnOf::NoMemory,
            },
        }
    }

    /// One turn, as `try_turn`, again and again until it isn't `Busy`.
    pub fn turn<R: Wait>(
        &self,
        rt: &R,
        pass: &mut Pass<K>,
        cursor: &mut K::Cursor,
        cmd: Option<K::Cmd>,
    ) -> Turn<K>
        requires lock { pass.old.0 ≡ self.now.0 }
        requires sign { IfSome cmd (SignsOn K.signer pass.old.1.said) }
        ensures lock { pass.new.0 ≡ pass.old.0 }
        ensures does { AtLast (λ v. Turned K.answers K.pulls v cursor.old cmd result pass.new.1 cursor.new) pass.old.1 }
        ensures taken { IsNotBusy result }
        ensures named { (back : Option K.Cmd) → result ≡ Taken back → IfSome cmd (IsNameTaken K.signer pass.old.1.said pass.new.1.seen) }
        ensures limit { IsSome cmd → length pass.old.1.mine ≡ OWN_LIMIT → (result ≡ OwnLimit cmd) × (pass.new ≡ pass.old)
            × (cursor.new ≡ cursor.old) }
        ensures signed { OwnSigns K.signer pass.new.1 pass.new.1.known }
        ensures rest { IsAtRest K.origin K.stands pass.new.1 }
    {
        match cmd {
            None => match self.read(rt, pass, cursor) {
                Ok(msgs) => TurnOf::Done { out: None, msgs },
                Err(_) => TurnOf::Late { out: None },
            },
            Some(cmd) => match self.enter(rt, pass, cursor, cmd) {
                TurnOf::Done { out, msgs } => TurnOf::Done {
                    out: Some(out),
                    msgs,
                },
                TurnOf::Late { out } => TurnOf::Late { out: Some(out) },
                TurnOf::OwnLimit { cmd } => TurnOf::OwnLimit { cmd: Some(cmd) },
                TurnOf::Taken { cmd } => TurnOf::Taken { cmd: Some(cmd) },
                TurnOf::NoMemory => TurnOf::NoMemory,
            },
        }
    }
}
