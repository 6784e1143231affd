//! What lies behind a lock: its value, and the names by which the entries of its history are signed.
ghost use Rattle.std.specs.Prelude.{◌≡◌, ◌<◌, ◌^◌, ℕ, List, [], ◌∷◌, ◌++◌, length, true, false, Some, cond, ◌==◌, MatchBool, IfOk};
ghost use Rattle.std.specs.Prelude.{OnOk, OnErr};
ghost use Rattle.std.specs.Ordering.{nat_cmp};
ghost use Rattle.std.specs.BTreeSet.{contains};
ghost use Rattle.ps_histlock.specs.Histories.{signed};
ghost use Rattle.ps_histlock.specs.Homes.{HomeStands};

use crate::kept::Kept;
use std::alloc::{AllocError, Global};
use std::collections::BTreeSet;

/// A value, and the names by which the entries of its history are signed.
#[derive(Drop)]
pub struct Home<K> {
    pub(crate) kept: K,
    pub(crate) names: BTreeSet<u64>,
}

// One name more.
fn add(names: &mut BTreeSet<u64>, name: u64) -> Result<(), AllocError>
    ensures ok { OnOk result ((c : ℕ) → contains nat_cmp names.new c ≡ cond (name == c) true (contains nat_cmp names.old c)) }
    ensures err { OnErr result ((c : ℕ) → contains nat_cmp names.new c ≡ contains nat_cmp names.old c) }
{
    names.insert(name)?;
    Ok(())
}

// One name fewer.
fn remove(names: &mut BTreeSet<u64>, name: u64)
    ensures { (c : ℕ) → contains nat_cmp names.new c ≡ cond (name == c) false (contains nat_cmp names.old c) }
{
    names.remove(&name);
}

impl<K: Kept> Home<K> {
    /// A value that stands for no entry. Takes no memory.
    pub(crate) fn new(alloc: Global, kept: K) -> Home<K>
        requires { K.stands [] kept }
        ensures kept { result.kept ≡ kept }
        ensures stands { HomeStands K.stands K.signer [] result }
    {
        Home {
            kept,
            names: BTreeSet::new(alloc),
        }
    }

    /// Whether an entry is signed as this command is.
    pub(crate) fn is_taken(&self, cmd: &K::Cmd) -> bool
        ensures { MatchBool result
            ((log : List K.Cmd) → HomeStands K.stands K.signer log self.now → (c : ℕ) × (K.signer cmd.now ≡ Some c)
            × (0 < length (signed K.signer c log)))
            ((log : List K.Cmd) → HomeStands K.stands K.signer log self.now → (c : ℕ) → K.signer cmd.now ≡ Some c
            → signed K.signer c log ≡ []) }
    {
        match K::signed_by(cmd) {
            None => false,
            Some(name) => self.names.contains(&name),
        }
    }

    /// Appends one entry. `AllocError` if out of memory: then there is no entry.
    pub(crate) fn apply(&mut self, cmd: K::Cmd) -> Result<K::Out, AllocError>
        ensures origin { K.origin self.new.kept ≡ K.origin self.old.kept }
        ensures entry { IfOk result (λ out. (log : List K.Cmd) → HomeStands K.stands K.signer log self.old
            → HomeStands K.stands K.signer (log ++ cmd ∷ []) self.new) }
        ensures answer { IfOk result (λ out. (log : List K.Cmd) → HomeStands K.stands K.signer log self.old
            → K.answers (K.origin self.old.kept) log cmd out) }
        ensures short { IfOk result (λ out. (log : List K.Cmd) → HomeStands K.stands K.signer log self.old
            → length (log ++ cmd ∷ []) < 2 ^ 62) }
        ensures err { OnErr result ((log : List K.Cmd) → HomeStands K.stands K.signer log self.old
            → HomeStands K.stands K.signer log self.new) }
    {
        match K::signed_by(&cmd) {
            None => {
                let out = self.kept.apply(cmd)?;
                Ok(out)
            }
            Some(name) => self.apply_signed(cmd, name),
        }
    }

    // The same of a command that is signed by this name.
    fn apply_signed(&mut self, cmd: K::Cmd, name: u64) -> Result<K::Out, AllocError>
        requires { K.signer cmd ≡ Some name }
        ensures origin { K.origin self.new.kept ≡ K.origin self.old.kept }
        ensures entry { IfOk result (λ out. (log : List K.Cmd) → HomeStands K.stands K.signer log self.old
            → HomeStands K.stands K.signer (log ++ cmd ∷ []) self.new) }
        ensures answer { IfOk result (λ out. (log : List K.Cmd) → HomeStands K.stands K.signer log self.old
            → K.answers (K.origin self.old.kept) log cmd out) }
        ensures short { IfOk result (λ out. (log : List K.Cmd) → HomeStands K.stands K.signer log self.old
            → length (log ++ cmd ∷ []) < 2 ^ 62) }
        ensures err { OnErr result ((log : List K.Cmd) → HomeStands K.stands K.signer log self.old
            → HomeStands K.stands K.signer log self.new) }
    {
        if self.names.contains(&name) {
            let out = self.kept.apply(cmd)?;
            return Ok(out);
        }
        add(&mut self.names, name)?;
        match self.kept.apply(cmd) {
            Ok(out) => Ok(out),
            Err(fault) => {
                remove(&mut self.names, name);
                Err(fault)
            }
        }
    }

    /// The messages past the cursor, which it moves. `AllocError` if out of memory: then the cursor stays.
    pub(crate) fn pull(&self, cursor: &mut K::Cursor) -> Result<Vec<K::Msg>, AllocError>
        ensures ok { IfOk result (λ msgs. (log : List K.Cmd) → HomeStands K.stands K.signer log self.now
            → K.pulls (K.origin self.now.kept) log cursor.old msgs.items cursor.new) }
        ensures err { OnErr result (cursor.new ≡ cursor.old) }
    {
        self.kept.pull(cursor)
    }
}
