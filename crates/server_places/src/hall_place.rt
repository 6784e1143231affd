//! The hall behind its lock.
ghost use Rattle.std.specs.Prelude.{◌≡◌, ◌<◌, [], IfOk, IfSome, OnErr};
ghost use Rattle.std.specs.Arc.{arc_value};
ghost use Rattle.server_places.specs.Halls.{HallStands, ReadsHall};

use crate::cursor::{HallCursor, is_at_bound, least_left};
use crate::site::Root;
use ps_base::id_map::IdMap;
use ps_base::msg::Msg;
use ps_dex::dex::Dex;
use ps_hall::entry::HallEntry;
use ps_hall::hall::Hall;
use ps_hall::outcome::HallOut;
use ps_hall::piece::HallPiece;
use ps_histlock::Kept;
use rules_config::config::Config;
use server_pass::told::Told;
use std::alloc::{AllocError, Global};
use std::marker::Model;
use std::sync::Arc;

/// How many commands a place takes. Past them the answer is out of memory.
pub(crate) const MOST_COMMANDS: u64 = (1 << 62) - 2;

/// The hall of a server, with what it was opened with.
pub struct HallPlace {
    alloc: Global,
    config: Arc<Config>,
    dex: Arc<Dex>,
    hall: Hall,
    count: u64,
}

// By hand, so that who drops one has one call to prove.
impl Drop for HallPlace {
    fn drop(self) {
        let HallPlace {
            alloc: _,
            config: _,
            dex: _,
            hall: _,
            count: _,
        } = self;
    }
}

impl Model for HallPlace {
    ghost use Rattle.std.specs.Coded.{codes, coded_ℕ, coded_ℤ};
    ghost use base.Stored.{coded_unit};
    ghost use Rattle.std.specs.Arc.{arc_value};
    ghost use Rattle.ps_base.specs.ById.{by_id_code};
    ghost use Rattle.ps_users.specs.ByConn.{by_conn_code};
    ghost use Rattle.server_places.specs.Halls.{HallHome};

    ghost Value = { HallHome };

    ghost coded = { Prim.hlevel (codes, by_id_code, by_conn_code, coded_ℕ, coded_ℤ, coded_unit) };

    ghost view = { λ p. record { root = record { config = arc_value p.config; dex = arc_value p.dex }; hall = p.hall; count = p.count } };
}

impl HallPlace {
    /// The hall, in which nobody is connected. `AllocError` if out of memory.
    pub fn new(alloc: Global, config: Arc<Config>, dex: Arc<Dex>) -> Result<HallPlace, AllocError>
        ensures root { IfOk result (λ p. p.root ≡ record { config = arc_value config; dex = arc_value dex }) }
        ensures stands { IfOk result (λ p. HallStands [] p) }
    {
        let hall = Hall::new(alloc, config.clone()?, dex.clone()?, IdMap::new(alloc))?;
        Ok(HallPlace {
            alloc,
            config,
            dex,
            hall,
            count: 0,
        })
    }
}

// A piece of what a connection is sent of the hall past its cursor, which has no bound that it has reached.
fn read_on(
    alloc: Global,
    hall: &Hall,
    count: u64,
    cursor: &mut HallCursor,
) -> Result<Vec<Msg>, AllocError>
    requires { IfSome cursor.old.until (λ bound. cursor.old.passed < bound) }
    ensures piece { IfOk result (λ v. ReadsHall hall.now count cursor.old v.items cursor.new) }
    ensures err { OnErr result (cursor.new ≡ cursor.old) }
{
    let least = least_left(count, cursor.until, 0);
    let most = count.saturating_sub(cursor.passed);
    let piece = hall.pull_piece(alloc, &mut cursor.hall, least as usize, most as usize)?;
    let HallPiece { messages, left } = piece;
    cursor.passed = count - left as u64;
    Ok(messages)
}

impl Kept for HallPlace {
    ghost use Rattle.server_places.specs.Halls.{root_in, HallStands, HallAnswers, HallPulls, no_root, hall_signer};

    type Origin = Root;

    type Cmd = HallEntry;

    type Out = HallOut;

    type Cursor = HallCursor;

    type Msg = Msg;

    ghost origin = { root_in };

    ghost nowhere = { no_root };

    ghost signer = { hall_signer };

    ghost stands = { HallStands };

    ghost answers = { HallAnswers };

    ghost pulls = { HallPulls };

    fn signed_by(entry: &HallEntry) -> Option<u64> {
        Some(entry.conn.0 as u64)
    }

    fn apply(&mut self, entry: HallEntry) -> Result<HallOut, AllocError> {
        if self.count >= MOST_COMMANDS {
            return Err(AllocError);
        }
        let out = self.hall.apply(self.alloc, &entry)?;
        self.count += 1;
        Ok(out)
    }

    fn pull(&self, cursor: &mut HallCursor) -> Result<Vec<Msg>, AllocError> {
        if is_at_bound(cursor.until, cursor.passed) {
            return Ok(Vec::new(self.alloc));
        }
        let msgs = read_on(self.alloc, &self.hall, self.count, cursor)?;
        Ok(msgs)
    }
}

impl Told for HallPlace {
    ghost use Rattle.server_places.specs.Tellings.{hall_telling};
    ghost use Rattle.server_places.specs.HallLaws.{hall_tells};

    ghost telling = { hall_telling };

    ghost tells = { hall_tells };

    fn passed(cursor: &HallCursor) -> u64 {
        cursor.passed
    }

    fn bound(cursor: &mut HallCursor, until: Option<u64>) {
        cursor.until = until;
    }
}
