//! Entries that are applied or refused.
ghost use Rattle.std.specs.Prelude.{◌≡◌, ◌∷◌, [], IfOk, IfSome, OnOk, OnErr, Ok, None, Some};
ghost use Rattle.rules_start.specs.Fits.{IsFit};
ghost use Rattle.ps_hall.specs.Changes.{IsPrepared};
ghost use Rattle.ps_hall.specs.States.{record_of};
ghost use Rattle.ps_hall.specs.KeptIndices.{AreReady};
ghost use Rattle.ps_hall.specs.Refusals.{refusal};
ghost use Rattle.ps_hall.specs.Lines.{refused_line};
ghost use Rattle.ps_hall.specs.Halls.{after_by, out_by, notices_by};

use crate::change::Allowed;
use crate::keep::keep;
use crate::line::refused_line;
use crate::notice::Notice;
use crate::outcome::{HallOut, HallVerdict, Told};
use crate::prepare::prepare;
use crate::state::State;
use ps_base::hall_why::HallWhy;
use ps_base::list::List;
use ps_base::number::ConnNo;
use ps_lines::command::HallCmd;
use std::alloc::{AllocError, Global};

// What who is refused is told.
fn refused_notices(
    alloc: Global,
    conn: ConnNo,
    cmd: &HallCmd,
    why: &HallWhy,
) -> Result<List<Notice>, AllocError>
    ensures { IfOk result (λ l. l ≡ record { conn = conn; lines = refused_line why.now cmd.now ∷ [] } ∷ []) }
{
    let mut lines = Vec::new(alloc);
    lines.push(refused_line(alloc, why, cmd)?)?;
    let mut notices = Vec::new(alloc);
    notices.push(Notice {
        conn,
        lines: List::from_vec(lines),
    })?;
    Ok(List::from_vec(notices))
}

// Refuses an entry.
fn refuse(
    alloc: Global,
    state: &State,
    conn: ConnNo,
    cmd: &HallCmd,
    why: HallWhy,
) -> Result<Told, AllocError>
    ensures out { IfOk result (λ t. t.out ≡ out_by (Some why) (record_of state.now) conn cmd.now) }
    ensures notices { IfOk result (λ t. t.notices ≡ notices_by (Some why) (record_of state.now) conn cmd.now) }
    ensures fit { IfOk result (λ t. IfSome t.out.start (λ s. IsFit s (record_of state.now).config (record_of state.now).dex)) }
{
    let notices = refused_notices(alloc, conn, cmd, &why)?;
    Ok(Told {
        out: HallOut {
            verdict: HallVerdict::Refused(why),
            badge: None,
            start: None,
        },
        notices,
    })
}

// Applies an entry that is allowed.
fn allow(
    alloc: Global,
    state: &mut State,
    conn: ConnNo,
    cmd: &HallCmd,
    allowed: Allowed,
) -> Result<Told, AllocError>
    requires prepared { IsPrepared (record_of state.old) conn cmd.now (Ok allowed) }
    requires ready { AreReady (record_of state.old) }
    ensures out { IfOk result (λ t. t.out ≡ out_by (refusal (record_of state.old) conn cmd.now) (record_of state.old) conn cmd.now) }
    ensures notices { IfOk result (λ t. t.notices
        ≡ notices_by (refusal (record_of state.old) conn cmd.now) (record_of state.old) conn cmd.now) }
    ensures fit { IfOk result (λ t. IfSome t.out.start (λ s. IsFit s (record_of state.old).config (record_of state.old).dex)) }
    ensures state { OnOk result (record_of state.new
        ≡ after_by (refusal (record_of state.old) conn cmd.now) (record_of state.old) conn cmd.now) }
    ensures ready { OnOk result (AreReady (record_of state.new)) }
    ensures same { OnErr result (record_of state.new ≡ record_of state.old) }
{
    let Allowed {
        notices,
        badge,
        start,
        change,
    } = allowed;
    keep(alloc, state, conn, cmd, change)?;
    Ok(Told {
        out: HallOut {
            verdict: HallVerdict::Applied,
            badge,
            start,
        },
        notices,
    })
}

/// Applies an entry, or refuses it by name. Where memory fails nothing changes.
pub(crate) fn enter(
    alloc: Global,
    state: &mut State,
    conn: ConnNo,
    cmd: &HallCmd,
) -> Result<Told, AllocError>
    requires { AreReady (record_of state.old) }
    ensures out { IfOk result (λ t. t.out ≡ out_by (refusal (record_of state.old) conn cmd.now) (record_of state.old) conn cmd.now) }
    ensures notices { IfOk result (λ t. t.notices
        ≡ notices_by (refusal (record_of state.old) conn cmd.now) (record_of state.old) conn cmd.now) }
    ensures fit { IfOk result (λ t. IfSome t.out.start (λ s. IsFit s (record_of state.old).config (record_of state.old).dex)) }
    ensures state { OnOk result (record_of state.new
        ≡ after_by (refusal (record_of state.old) conn cmd.now) (record_of state.old) conn cmd.now) }
    ensures ready { OnOk result (AreReady (record_of state.new)) }
    ensures same { OnErr result (record_of state.new ≡ record_of state.old) }
{
    match prepare(alloc, state, conn, cmd)? {
        Err(why) => refuse(alloc, state, conn, cmd, why),
        Ok(allowed) => allow(alloc, state, conn, cmd, allowed),
    }
}

/// Why a command is refused; `None` where it is allowed.
pub(crate) fn verdict(
    alloc: Global,
    state: &State,
    conn: ConnNo,
    cmd: &HallCmd,
) -> Result<Option<HallWhy>, AllocError>
    requires { AreReady (record_of state.now) }
    ensures { IfOk result (λ o. o ≡ refusal (record_of state.now) conn cmd.now) }
{
    match prepare(alloc, state, conn, cmd)? {
        Err(why) => Ok(Some(why)),
        Ok(_) => Ok(None),
    }
}
