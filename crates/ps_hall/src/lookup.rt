//! Lookups in the hall.
ghost use Rattle.std.specs.Prelude.{◌≡◌, is_some, nat_le};
ghost use Rattle.std.specs.FinMap.{get};
ghost use Rattle.std.specs.Option.{option_copied};
ghost use Rattle.ps_base.specs.Limits.{most_battles};
ghost use Rattle.ps_rules.specs.Resolve.{format_of};
ghost use Rattle.ps_ladder.specs.Ratings.{rating};
ghost use Rattle.ps_ladder.specs.Waiting.{found};
ghost use Rattle.ps_hall.specs.Lookups.{challenge_from, ladder_in};
ghost use Rattle.ps_hall.specs.States.{record_of};

use crate::state::State;
use ps_base::id::Id;
use ps_base::id_map::IdMap;
use ps_base::limit::MOST_BATTLES;
use ps_ladder::ladder::Ladder;
use ps_ladder::searches::{Search, Searches};
use ps_pms::asked::Asked;
use ps_rules::table::Format;
use ps_users::users::Users;
use rules_config::config::Config;

/// The rating of who was never rated.
const UNRATED: i32 = 1000;

/// The format with an id.
pub(crate) fn format_in<'a>(config: &'a Config, id: &Id) -> Option<&'a Format>
    ensures { option_copied result ≡ format_of id.now config.now.formats.formats }
{
    config.formats().format(id)
}

/// Whether somebody online has an id.
pub(crate) fn is_online(users: &Users, id: &Id) -> bool
    ensures { result ≡ is_some (get users.now.online id.now) }
{
    users.conn(id.as_str()).is_some()
}

/// The rating of a user in a format.
pub(crate) fn rating_in(ladders: &IdMap<Ladder>, format: &Id, user: &Id) -> i32
    ensures { result ≡ rating (ladder_in ladders.now format.now).ratings user.now }
{
    match ladders.find(format.as_str()) {
        None => UNRATED,
        Some(ladder) => ladder.rating(user),
    }
}

/// The search that a user at its rating is matched with.
pub(crate) fn opponent<'a>(
    searches: &'a Searches,
    ladders: &IdMap<Ladder>,
    me: &Id,
    format: &Id,
) -> Option<&'a Search>
    ensures { option_copied result ≡ found searches.now me.now format.now (rating (ladder_in ladders.now format.now).ratings me.now) }
{
    searches.find(me, format, rating_in(ladders, format, me))
}

/// The challenge of a user to somebody else.
pub(crate) fn challenge_from<'a>(state: &'a State, me: &Id, user: &Id) -> Option<&'a Asked>
    ensures { option_copied result ≡ challenge_from (record_of state.now) me.now user.now }
{
    if user.as_str() == me.as_str() {
        return None;
    }
    state.pms.asked(user, me)
}

/// Whether as many battles have started as there may be.
pub(crate) fn is_full(started: u32) -> bool
    ensures { result ≡ nat_le most_battles started }
{
    started >= MOST_BATTLES
}
