//! The begin of a connection.
ghost use Rattle.std.specs.Prelude.{IfOk, IfErr};
ghost use Rattle.ps_hub.specs.Passes.{AreOf};
ghost use Rattle.ps_hub.specs.Calls.{Admits, IsRefused};

use crate::hub::Hub;
use crate::let_go::let_go;
use crate::out::AdmitFault;
use crate::pass::hall_pass;
use crate::passes::Passes;
use ps_base::number::{ConnNo, Moment};
use ps_hall::entry::HallEntry;
use ps_lines::command::HallCmd;
use server_pass::turn_end::TurnEnd;
use std::sync::Wait;

impl Hub {
    /// Opens a connection: makes its Open in the hall by a new pass, which makes nothing else, and whose heir the connection's
    /// pass is. What the Open tells stays in the passes until `catch_up` hands it out. `NoMemory` if out of memory. `Taken` only
    /// where an entry stands under that number: then there is no Open.
    pub fn admit<R: Wait>(&self, rt: &R, conn: ConnNo, moment: Moment) -> Result<Passes, AdmitFault>
        ensures of { IfOk result (λ p. AreOf self.now p) }
        ensures taken { IfErr result (IsRefused self.now conn) }
        ensures does { IfOk result (λ p. Admits self.now conn moment p) }
    {
        let lock = self.hall_lock();
        let mut opener = hall_pass(self.alloc, conn, lock);
        let entry = HallEntry {
            conn,
            moment,
            cmd: HallCmd::Open,
        };
        match opener.turn(rt, lock, entry) {
            TurnEnd::Done { out: () } => Ok(Passes {
                conn,
                badge: None,
                hall: Some(opener.heir(lock)),
                rooms: Vec::new(self.alloc),
            }),
            TurnEnd::NameTaken => Err(AdmitFault::Taken { opener }),
            TurnEnd::NoMemory => {
                let_go(opener);
                Err(AdmitFault::NoMemory)
            }
        }
    }
}
