//! The hall without what it keeps for those who look later.
ghost use Rattle.std.specs.Prelude.{◌≡◌, ◌-◌, IfOk, IfSome, OnOk, OnErr, length};
ghost use Rattle.std.specs.Option.{option_copied};
ghost use Rattle.std.specs.Arc.{arc_value};
ghost use Rattle.rules_start.specs.Fits.{IsFit};
ghost use Rattle.ps_users.specs.Seats.{is_seat};
ghost use Rattle.ps_hall.specs.Records.{opened};
ghost use Rattle.ps_hall.specs.Lookups.{badge_of, game_in};
ghost use Rattle.ps_hall.specs.States.{record_of};
ghost use Rattle.ps_hall.specs.KeptIndices.{AreReady};
ghost use Rattle.ps_hall.specs.Refusals.{refusal};
ghost use Rattle.ps_hall.specs.Halls.{after, notices, out_of};

use crate::account::accounts_of;
use crate::enter::{enter, verdict};
use crate::entry::HallEntry;
use crate::game::Game;
use crate::games::Games;
use crate::outcome::Told;
use crate::search_teams::SearchTeams;
use crate::state::State;
use ps_base::badge::Badge;
use ps_base::hall_why::HallWhy;
use ps_base::id_map::IdMap;
use ps_base::number::ConnNo;
use ps_base::text::Text;
use ps_dex::dex::Dex;
use ps_ladder::searches::Searches;
use ps_lines::command::HallCmd;
use ps_pms::pms::Pms;
use ps_users::users::Users;
use rules_config::config::Config;
use std::alloc::{AllocError, Global};
use std::marker::Model;
use std::sync::Arc;

/// The hall without its log, for who takes what an entry tells at once, as a replay does. Contracts see its record.
pub struct HallState {
    state: State,
}

// By hand, so that who drops one has one call to prove.
impl Drop for HallState {
    fn drop(self) {
        let HallState { state: _ } = self;
    }
}

impl Model for HallState {
    ghost use Rattle.std.specs.Coded.{codes, coded_ℕ, coded_ℤ};
    ghost use base.Stored.{coded_unit};
    ghost use Rattle.ps_base.specs.ById.{by_id_code};
    ghost use Rattle.ps_users.specs.ByConn.{by_conn_code};
    ghost use Rattle.ps_hall.specs.Records.{Record};
    ghost use Rattle.ps_hall.specs.States.{record_of};
    ghost use Rattle.ps_hall.specs.KeptIndices.{AreReady};

    ghost Value = { Record };

    ghost coded = { Prim.hlevel (codes, by_id_code, by_conn_code, coded_ℕ, coded_ℤ, coded_unit) };

    ghost view = { λ h. record_of h.state };

    ghost invariant = { λ h. AreReady (record_of h.state) };
}

// The rank of who has no other.
fn lowest(config: &Config) -> u8
    ensures { result ≡ length config.now.groups - 1 }
{
    config.groups().count() - 1
}

fn opened(
    alloc: Global,
    config: Arc<Config>,
    dex: Arc<Dex>,
    ranks: IdMap<u8>,
) -> Result<State, AllocError>
    ensures value { IfOk result (λ s. record_of s ≡ opened (arc_value config) (arc_value dex) ranks) }
    ensures ready { IfOk result (λ s. AreReady (record_of s)) }
{
    let accounts = accounts_of(alloc, config.users())?;
    let nonce = Text::copy_of(alloc, config.nonce())?;
    let users = Users::new(alloc, nonce, accounts, ranks, lowest(&config));
    Ok(State {
        config,
        dex,
        users,
        pms: Pms::new(alloc),
        teams: IdMap::new(alloc),
        challenge_teams: Vec::new(alloc),
        search_teams: SearchTeams::new(alloc),
        searches: Searches::new(alloc),
        ladders: IdMap::new(alloc),
        games: Games::new(alloc),
    })
}

impl HallState {
    /// Nobody is connected. The ranks go before those of the registered names.
    pub fn new(
        alloc: Global,
        config: Arc<Config>,
        dex: Arc<Dex>,
        ranks: IdMap<u8>,
    ) -> Result<HallState, AllocError>
        ensures { IfOk result (λ h. h ≡ opened (arc_value config) (arc_value dex) ranks) }
    {
        let state = opened(alloc, config, dex, ranks)?;
        Ok(HallState { state })
    }

    /// The configuration.
    pub fn config(&self) -> &Arc<Config>
        ensures { arc_value result.now ≡ self.now.config }
    {
        &self.state.config
    }

    /// The dex.
    pub fn dex(&self) -> &Arc<Dex>
        ensures { arc_value result.now ≡ self.now.dex }
    {
        &self.state.dex
    }

    /// Whether a connection is open. Takes no memory.
    pub fn is_open(&self, conn: ConnNo) -> bool
        ensures { result ≡ is_seat self.now.users.seats conn }
    {
        self.state.users.is_open(conn)
    }

    /// The badge of a connection, once it has a name. Takes no memory.
    pub fn badge(&self, conn: ConnNo) -> Option<&Badge>
        ensures { option_copied result ≡ badge_of self.now conn }
    {
        self.state.users.badge(conn)
    }

    /// The battle with a number, if it started and wasn't reported. Takes no memory.
    pub fn game(&self, number: u32) -> Option<&Game>
        ensures { option_copied result ≡ game_in self.now number }
    {
        self.state.games.find(number)
    }

    /// Why a command is refused; `None` where it is allowed.
    pub fn verdict(
        &self,
        alloc: Global,
        conn: ConnNo,
        cmd: &HallCmd,
    ) -> Result<Option<HallWhy>, AllocError>
        ensures { IfOk result (λ o. o ≡ refusal self.now conn cmd.now) }
    {
        verdict(alloc, &self.state, conn, cmd)
    }

    /// Applies an entry, or refuses it by name, and gives what it told. A refused one changes nothing and gives its sender one
    /// line. Where memory fails nothing changes.
    pub fn apply(&mut self, alloc: Global, entry: &HallEntry) -> Result<Told, AllocError>
        ensures out { IfOk result (λ t. t.out ≡ out_of self.old entry.now) }
        ensures notices { IfOk result (λ t. t.notices ≡ notices self.old entry.now) }
        ensures ok { OnOk result (self.new ≡ after self.old entry.now) }
        ensures err { OnErr result (self.new ≡ self.old) }
        ensures fit { IfOk result (λ t. IfSome t.out.start (λ s. IsFit s self.old.config self.old.dex)) }
    {
        enter(alloc, &mut self.state, entry.conn, &entry.cmd)
    }
}
