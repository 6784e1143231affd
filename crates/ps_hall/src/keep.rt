//! Changes that are made, by what was worked out for them.
ghost use Rattle.std.specs.Prelude.{◌≡◌, OnOk, OnErr};
ghost use Rattle.ps_hall.specs.Changes.{CanChange, changed};
ghost use Rattle.ps_hall.specs.States.{record_of};

use crate::change::Change;
use crate::report::after_report;
use crate::state::State;
use crate::step::{
    after_accept, after_cancel_challenge, after_cancel_search, after_challenge, after_match,
    after_quit, after_reject, after_team, after_wait, with_pms, with_users,
};
use ps_base::number::ConnNo;
use ps_lines::command::HallCmd;
use std::alloc::{AllocError, Global};

/// Makes a change, of this command of this connection. Where memory fails nothing changes.
pub(crate) fn keep(
    alloc: Global,
    state: &mut State,
    conn: ConnNo,
    cmd: &HallCmd,
    change: Change,
) -> Result<(), AllocError>
    requires { CanChange (record_of state.old) conn cmd.now change }
    ensures ok { OnOk result (record_of state.new ≡ changed (record_of state.old) conn cmd.now change) }
    ensures err { OnErr result (record_of state.new ≡ record_of state.old) }
{
    match change {
        Change::Nothing => Ok(()),
        Change::Users => with_users(alloc, state, conn, cmd),
        Change::Quit { me } => after_quit(alloc, state, conn, me.as_ref(), cmd),
        Change::Team { me, team } => after_team(alloc, state, &me, team),
        Change::Wait { kept, search } => after_wait(alloc, state, kept, search),
        Change::Match {
            me,
            format,
            rating,
            user,
            game,
        } => after_match(alloc, state, &me, &format, rating, &user, game),
        Change::CancelSearch { me } => {
            after_cancel_search(alloc, state, &me);
            Ok(())
        }
        Change::Challenge { kept } => after_challenge(alloc, state, kept, cmd),
        Change::CancelChallenge { me } => after_cancel_challenge(alloc, state, &me, cmd),
        Change::Reject { me, user } => after_reject(alloc, state, &me, &user, cmd),
        Change::Accept { me, user, game } => after_accept(alloc, state, &me, &user, game),
        Change::Blocks { me } => with_pms(alloc, state, &me, cmd),
        Change::Report { number, winner } => after_report(alloc, state, number, winner),
    }
}
