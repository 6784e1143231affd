//! The rule of a lock, and what each kind of atomic step tells its pass. There are no other steps, but the look of which a
//! caller of `glance` says itself what it tells.
use crate::home::Home;
use crate::kept::Kept;
use crate::view::View;
use atomic_table::{Join, Play, Split, TableRule};
use std::marker::{Brand, PhantomData};
use std::snapshot::Snapshot;

/// The rule between any two steps. Its key is the value as it was at the start, of which it reads the origin.
pub struct Rule<K> {
    of: PhantomData<K>,
}

impl<K: Kept> TableRule<Option<Home<K>>, View<K::Origin, K::Cmd>, Snapshot<K>> for Rule<K> {
    ghost use Rattle.ps_histlock.specs.Homes.{home_origin, HomeStands};
    ghost use Rattle.ps_histlock.specs.Locks.{IsKept};
    ghost use Rattle.ps_histlock.specs.Views.{newcomer};

    ghost holds = { λ key. IsKept (home_origin K.origin) (HomeStands K.stands K.signer) K.signer (K.origin key.value) };

    ghost first = { λ key. newcomer (K.origin key.value) 0 };
}

/// A load that makes a new pass.
pub struct Arrive;

impl<K: Kept> Play<Option<Home<K>>, View<K::Origin, K::Cmd>> for Arrive {
    ghost use Rattle.ps_histlock.specs.Homes.{home_origin, HomeStands};
    ghost use Rattle.ps_histlock.specs.Locks.{Arrives};

    ghost then = { Arrives (home_origin K.origin) (HomeStands K.stands K.signer) K.signer };
}

/// A pass is split from another. It can't know its number yet, which no view of the other tells.
pub struct Cut;

impl<O, C> Split<View<O, C>> for Cut {
    ghost use Rattle.ps_histlock.specs.Views.{offspring};

    ghost left = { λ v. v };

    ghost right = { offspring };
}

/// The load after a split, by which the new pass learns its number.
pub struct Name;

impl<K: Kept> Play<Option<Home<K>>, View<K::Origin, K::Cmd>> for Name {
    ghost use Rattle.ps_histlock.specs.Homes.{home_origin, HomeStands};
    ghost use Rattle.ps_histlock.specs.Locks.{Names};

    ghost then = { Names (home_origin K.origin) (HomeStands K.stands K.signer) K.signer };
}

/// A load that tells how many entries there are.
pub struct Look;

impl<K: Kept> Play<Option<Home<K>>, View<K::Origin, K::Cmd>> for Look {
    ghost use Rattle.ps_histlock.specs.Homes.{home_origin, HomeStands};
    ghost use Rattle.ps_histlock.specs.Locks.{Looks};

    ghost then = { Looks (home_origin K.origin) (HomeStands K.stands K.signer) K.signer };
}

/// A pass gives its names to an heir.
pub struct Inherit;

impl<O, C> Split<View<O, C>> for Inherit {
    ghost use Rattle.ps_histlock.specs.Views.{heir_of, silent};

    ghost left = { silent };

    ghost right = { heir_of };
}

/// A pass writes a letter.
pub struct Tell;

impl<O, C> Split<View<O, C>> for Tell {
    ghost use Rattle.ps_histlock.specs.Views.{letter_of};

    ghost left = { λ v. v };

    ghost right = { letter_of };
}

/// A pass takes a letter in hand.
pub struct Hear<K> {
    of: PhantomData<K>,
}

impl<K: Kept> Join<View<K::Origin, K::Cmd>> for Hear<K> {
    ghost use Rattle.ps_histlock.specs.Views.{hearing, spent};

    ghost both = { hearing };

    ghost spent = { spent K.nowhere };
}

/// A pass takes another's letter in hand.
pub struct HearAnother<K> {
    of: PhantomData<K>,
}

impl<K: Kept> Join<View<K::Origin, K::Cmd>> for HearAnother<K> {
    ghost use Rattle.ps_histlock.specs.Views.{comparing, spent};

    ghost both = { comparing };

    ghost spent = { spent K.nowhere };
}

/// How far a pass counts. No code reads it: the call at `Brand` picks it.
pub(crate) trait Far {
    ghost use Rattle.std.specs.Prelude.{ℕ};

    ghost far: { ℕ };
}

impl Far for Brand {
    ghost far = { 0 };
}

/// A load that counts on.
pub struct Count<N> {
    of: PhantomData<N>,
}

impl<K: Kept, N: Far> Play<Option<Home<K>>, View<K::Origin, K::Cmd>> for Count<N> {
    ghost use Rattle.ps_histlock.specs.Homes.{home_origin, HomeStands};
    ghost use Rattle.ps_histlock.specs.Locks.{Counts};

    ghost then = { Counts (home_origin K.origin) (HomeStands K.stands K.signer) K.signer N.far };
}

/// The load that tells that the letter in hand is another's.
pub struct Differ;

impl<K: Kept> Play<Option<Home<K>>, View<K::Origin, K::Cmd>> for Differ {
    ghost use Rattle.ps_histlock.specs.Homes.{home_origin, HomeStands};
    ghost use Rattle.ps_histlock.specs.Locks.{Differs};

    ghost then = { Differs (home_origin K.origin) (HomeStands K.stands K.signer) K.signer };
}

/// The load by which a pass reads the letter in its hand.
pub struct Learn;

impl<K: Kept> Play<Option<Home<K>>, View<K::Origin, K::Cmd>> for Learn {
    ghost use Rattle.ps_histlock.specs.Homes.{home_origin, HomeStands};
    ghost use Rattle.ps_histlock.specs.Locks.{Learns};

    ghost then = { Learns (home_origin K.origin) (HomeStands K.stands K.signer) K.signer };
}

/// The load at the beginning of a turn.
pub struct Meet;

impl<K: Kept> Play<Option<Home<K>>, View<K::Origin, K::Cmd>> for Meet {
    ghost use Rattle.ps_histlock.specs.Homes.{home_origin, HomeStands};
    ghost use Rattle.ps_histlock.specs.Locks.{Meets};

    ghost then = { Meets (home_origin K.origin) (HomeStands K.stands K.signer) K.signer };
}

/// The compare and exchange that takes the turn, or finds another word.
pub struct Seize;

impl<K: Kept> Play<Option<Home<K>>, View<K::Origin, K::Cmd>> for Seize {
    ghost use Rattle.ps_histlock.specs.Homes.{home_origin, HomeStands};
    ghost use Rattle.ps_histlock.specs.Locks.{Seizes};

    ghost then = { Seizes (home_origin K.origin) (HomeStands K.stands K.signer) K.signer };
}

/// Which command a release writes into the history. No code reads it: the call at `Brand` picks it.
pub(crate) trait Writes<C> {
    ghost use Rattle.std.specs.Prelude.{Option};

    ghost written: { Option C };
}

impl<C> Writes<C> for Brand {
    ghost use Rattle.std.specs.Prelude.{None};

    ghost written = { None };
}

/// The release that puts an entry into the history, that of the command which W names.
pub struct Append<W> {
    of: PhantomData<W>,
}

impl<K: Kept, W: Writes<K::Cmd>> Play<Option<Home<K>>, View<K::Origin, K::Cmd>> for Append<W> {
    ghost use Rattle.ps_histlock.specs.Homes.{home_origin, HomeStands};
    ghost use Rattle.ps_histlock.specs.Locks.{Appends};

    ghost then = { Appends (home_origin K.origin) (HomeStands K.stands K.signer) K.signer W.written };
}

/// The release that puts none.
pub struct Release;

impl<K: Kept> Play<Option<Home<K>>, View<K::Origin, K::Cmd>> for Release {
    ghost use Rattle.ps_histlock.specs.Homes.{home_origin, HomeStands};
    ghost use Rattle.ps_histlock.specs.Locks.{Releases};

    ghost then = { Releases (home_origin K.origin) (HomeStands K.stands K.signer) K.signer };
}
