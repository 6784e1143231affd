//! The state of the hall.
use crate::games::Games;
use crate::kept::KeptTeam;
use crate::search_teams::SearchTeams;
use ps_base::id_map::IdMap;
use ps_dex::dex::Dex;
use ps_ladder::ladder::Ladder;
use ps_ladder::searches::Searches;
use ps_packed::team::Team;
use ps_pms::pms::Pms;
use ps_users::users::Users;
use rules_config::config::Config;
use std::sync::Arc;

/// The parts of the hall, without what it keeps for those who look later.
#[derive(Drop)]
pub(crate) struct State {
    pub(crate) config: Arc<Config>,
    pub(crate) dex: Arc<Dex>,
    pub(crate) users: Users,
    pub(crate) pms: Pms,
    pub(crate) teams: IdMap<Team>,
    pub(crate) challenge_teams: Vec<KeptTeam>,
    pub(crate) search_teams: SearchTeams,
    pub(crate) searches: Searches,
    pub(crate) ladders: IdMap<Ladder>,
    pub(crate) games: Games,
}
