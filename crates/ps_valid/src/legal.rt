//! A legal team.
use ps_base::list::List;
use ps_base::text::Text;
use ps_mon::team::BattleTeam;

/// A team that keeps the rules of a format.
#[derive(Debug, Drop)]
pub struct Legal {
    /// The members.
    pub team: BattleTeam,
    /// Their nicknames, in the order of the members.
    pub nicks: List<Text>,
}
