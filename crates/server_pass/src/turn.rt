//! The turns of a pass at a lock, whatever stands behind it: a connection has the same of the hall and of a room.
//!
//! A turn's messages stand in `fresh` then, behind those that are kept, for which `kept` makes room before.
ghost use Rattle.std.specs.Prelude.{◌≡◌, ◌++◌, [], length, OnOk, OnErr};
ghost use Rattle.ps_histlock.specs.Locks.{SignsOn, IsNameTaken, OwnSigns};
ghost use Rattle.ps_histlock.specs.Views.{IsAtRest};
ghost use Rattle.ps_histlock.specs.declared.lock.TheConstants.{OWN_LIMIT};
ghost use Rattle.server_pass.specs.Turns.{Takes, TakesAtLast, Reads, ReadsAtLast, IsLimited, IfKeptOut};

use crate::turn_end::{Back, Tried, TurnEnd, Waited};
use ps_base::msg::Msg;
use ps_histlock::{HistLock, Kept, Pass, TurnOf, Unread};
use std::alloc::AllocError;
use std::mem;
use std::sync::Wait;

/// Puts the messages of the last turn behind those that are kept. Takes no memory if none are.
pub(crate) fn join(kept: &mut Vec<Msg>, fresh: &mut Vec<Msg>) -> Result<(), AllocError>
    ensures ok { OnOk result ((kept.new.items ≡ kept.old.items ++ fresh.old.items) × (fresh.new.items ≡ [])) }
    ensures err { OnErr result ((kept.new.items ≡ kept.old.items) × (fresh.new.items ≡ fresh.old.items)) }
{
    if kept.is_empty() {
        mem::swap(kept, fresh);
        return Ok(());
    }
    kept.append(fresh)
}

/// One turn with a command. Waits for nobody.
pub(crate) fn try_take<U: Drop, K: Kept<Msg = Msg, Out = U>>(
    lock: &HistLock<K>,
    pass: &mut Pass<K>,
    cursor: &mut K::Cursor,
    kept: &mut Vec<Msg>,
    fresh: &mut Vec<Msg>,
    cmd: K::Cmd,
) -> Tried<U, K::Cmd>
    requires lock { pass.old.0 ≡ lock.now.0 }
    requires sign { SignsOn K.signer pass.old.1.said cmd }
    ensures lock { pass.new.0 ≡ pass.old.0 }
    ensures does { Takes K.answers K.pulls pass.old.1 cursor.old (kept.old.items ++ fresh.old.items) cmd result
        pass.new.1 cursor.new (kept.new.items ++ fresh.new.items) }
    ensures limit { length pass.old.1.mine ≡ OWN_LIMIT → IsLimited result }
    ensures taken { IfKeptOut result (IsNameTaken K.signer pass.old.1.said pass.new.1.seen cmd) }
    ensures rest { IsAtRest K.origin K.stands pass.old.1 → IsAtRest K.origin K.stands pass.new.1 }
    ensures own { OwnSigns K.signer pass.old.1 pass.old.1.known → OwnSigns K.signer pass.new.1 pass.new.1.known }
{
    if join(kept, fresh).is_err() {
        return TurnEnd::NoMemory;
    }
    match lock.try_enter(pass, cursor, cmd) {
        TurnOf::Done { out, msgs } => {
            *fresh = msgs;
            TurnEnd::Done { out }
        }
        TurnOf::Late { out } => TurnEnd::Done { out },
        TurnOf::Busy { word, cmd } => TurnEnd::Busy {
            back: Back { word, cmd },
        },
        TurnOf::OwnLimit { cmd: _ } => TurnEnd::OwnLimit { reason: () },
        TurnOf::Taken { cmd: _ } => TurnEnd::NameTaken,
        TurnOf::NoMemory => TurnEnd::NoMemory,
    }
}

/// The same after waiting for the turn.
pub(crate) fn take<R: Wait, U: Drop, K: Kept<Msg = Msg, Out = U>>(
    rt: &R,
    lock: &HistLock<K>,
    pass: &mut Pass<K>,
    cursor: &mut K::Cursor,
    kept: &mut Vec<Msg>,
    fresh: &mut Vec<Msg>,
    cmd: K::Cmd,
) -> Waited
    requires lock { pass.old.0 ≡ lock.now.0 }
    requires sign { SignsOn K.signer pass.old.1.said cmd }
    ensures lock { pass.new.0 ≡ pass.old.0 }
    ensures does { TakesAtLast K.answers K.pulls pass.old.1 cursor.old (kept.old.items ++ fresh.old.items) cmd result
        pass.new.1 cursor.new (kept.new.items ++ fresh.new.items) }
    ensures taken { IfKeptOut result (IsNameTaken K.signer pass.old.1.said pass.new.1.seen cmd) }
    ensures rest { IsAtRest K.origin K.stands pass.old.1 → IsAtRest K.origin K.stands pass.new.1 }
    ensures own { OwnSigns K.signer pass.old.1 pass.old.1.known → OwnSigns K.signer pass.new.1 pass.new.1.known }
{
    if join(kept, fresh).is_err() {
        return TurnEnd::NoMemory;
    }
    match lock.enter(rt, pass, cursor, cmd) {
        TurnOf::Done { out: _, msgs } => {
            *fresh = msgs;
            TurnEnd::Done { out: () }
        }
        TurnOf::Late { out: _ } => TurnEnd::Done { out: () },
        TurnOf::OwnLimit { cmd: _ } => TurnEnd::NoMemory,
        TurnOf::Taken { cmd: _ } => TurnEnd::NameTaken,
        TurnOf::NoMemory => TurnEnd::NoMemory,
    }
}

/// One turn without a command. Waits for nobody.
pub(crate) fn try_read<U: Drop, K: Kept<Msg = Msg, Out = U>>(
    lock: &HistLock<K>,
    pass: &mut Pass<K>,
    cursor: &mut K::Cursor,
    kept: &mut Vec<Msg>,
    fresh: &mut Vec<Msg>,
) -> Result<(), Unread>
    requires { pass.old.0 ≡ lock.now.0 }
    ensures lock { pass.new.0 ≡ pass.old.0 }
    ensures does { Reads K.pulls pass.old.1 cursor.old (kept.old.items ++ fresh.old.items) result
        pass.new.1 cursor.new (kept.new.items ++ fresh.new.items) }
    ensures rest { IsAtRest K.origin K.stands pass.old.1 → IsAtRest K.origin K.stands pass.new.1 }
    ensures own { OwnSigns K.signer pass.old.1 pass.old.1.known → OwnSigns K.signer pass.new.1 pass.new.1.known }
{
    if join(kept, fresh).is_err() {
        return Err(Unread::NoMemory);
    }
    *fresh = lock.try_read(pass, cursor)?;
    Ok(())
}

/// The same after waiting for the turn. `AllocError` if out of memory for the messages.
pub(crate) fn read<R: Wait, U: Drop, K: Kept<Msg = Msg, Out = U>>(
    rt: &R,
    lock: &HistLock<K>,
    pass: &mut Pass<K>,
    cursor: &mut K::Cursor,
    kept: &mut Vec<Msg>,
    fresh: &mut Vec<Msg>,
) -> Result<(), AllocError>
    requires { pass.old.0 ≡ lock.now.0 }
    ensures lock { pass.new.0 ≡ pass.old.0 }
    ensures does { ReadsAtLast K.pulls pass.old.1 cursor.old (kept.old.items ++ fresh.old.items) result
        pass.new.1 cursor.new (kept.new.items ++ fresh.new.items) }
    ensures rest { IsAtRest K.origin K.stands pass.old.1 → IsAtRest K.origin K.stands pass.new.1 }
    ensures own { OwnSigns K.signer pass.old.1 pass.old.1.known → OwnSigns K.signer pass.new.1 pass.new.1.known }
{
    join(kept, fresh)?;
    *fresh = lock.read(rt, pass, cursor)?;
    Ok(())
}
