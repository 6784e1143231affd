//! The begin of a battle.
ghost use Rattle.std.specs.Prelude.{◌≡◌, ◌≤◌, ℕ, Some, OnOk, OnErr};
ghost use Rattle.rules_start.specs.Fits.{IsFit};
ghost use Rattle.ps_base.specs.Limits.{most_battles};
ghost use Rattle.server_places.specs.declared.command.RoomCmd.TheVariants.{Begin};
ghost use Rattle.server_pass.specs.Turns.{TurnsAtLast};
ghost use Rattle.ps_hub.specs.Passes.{AreOf, IsRoomPass};
ghost use Rattle.ps_hub.specs.Calls.{Starts, BeginsNothing};

use crate::hub::Hub;
use crate::let_go::let_go;
use crate::pass::RoomPass;
use crate::passes::Passes;
use rules_start::start::Start;
use server_pass::turn_end::TurnEnd;
use server_places::command::RoomCmd;
use std::alloc::AllocError;
use std::sync::Wait;

impl Hub {
    /// Begins a battle at the place of its number, by the connection's pass of it, which is kept or made. `AllocError` if
    /// out of memory, or the pass has made as many entries as it may; then there is no Begin.
    pub fn start<R: Wait>(
        &self,
        rt: &R,
        passes: &mut Passes,
        start: Start,
    ) -> Result<(), AllocError>
        requires of { AreOf self.now passes.old }
        requires number { (1 ≤ start.number) × (start.number ≤ most_battles) }
        requires fit { IsFit start self.now.config self.now.dex }
        ensures of { AreOf self.now passes.new }
        ensures does { Starts self.now start passes.old result passes.new }
    {
        match self.keep(passes, self.place_of_battle(start.number)) {
            Ok(pass_index) => self.begin(rt, &mut passes.rooms[pass_index], start),
            Err(error) => {
                let_go(start);
                Err(error)
            }
        }
    }

    // The Begin, by the pass of a place.
    fn begin<R: Wait>(&self, rt: &R, pass: &mut RoomPass, start: Start) -> Result<(), AllocError>
        requires { (conn : ℕ) × IsRoomPass self.now conn pass.old }
        ensures of { (conn : ℕ) → IsRoomPass self.now conn pass.old → IsRoomPass self.now conn pass.new }
        ensures ok { OnOk result (TurnsAtLast pass.old.pass.1 (Some (Begin start)) pass.new.pass.1) }
        ensures err { OnErr result (BeginsNothing pass.old pass.new) }
        ensures same { (pass.new.at ≡ pass.old.at) × (pass.new.number ≡ pass.old.number) × (pass.new.id ≡ pass.old.id) }
    {
        let lock = self.lock(pass.number);
        match pass.turn(rt, lock, RoomCmd::Begin(start)) {
            TurnEnd::Done { out: () } => Ok(()),
            TurnEnd::NameTaken => unreachable!(),
            TurnEnd::NoMemory => Err(AllocError),
        }
    }
}
