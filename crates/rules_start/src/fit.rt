//! Whether a battle can start.
ghost use Rattle.std.specs.Prelude.{◌≡◌, ◌↔◌, true, IsSome, IsTrue, length};
ghost use Rattle.ps_base.specs.Ids.{id_of};
ghost use Rattle.ps_rules.specs.Resolve.{format_of};
ghost use Rattle.ps_valid.specs.Ready.{IsReady};
ghost use Rattle.rules_start.specs.Fits.{IsFit};

use crate::start::Start;
use crate::team::{are_moves_known, are_species_known, is_fresh};
use ps_base::id::Id;
use ps_base::name::Name;
use ps_dex::dex::Dex;
use ps_valid::legal::Legal;
use rules_config::config::Config;

/// Whether a team can open a battle over the dex.
fn is_ready(legal: &Legal, dex: &Dex) -> bool
    ensures fits { IsTrue result → IsReady dex.now legal.now }
    ensures only { IsReady dex.now legal.now → IsTrue result }
{
    let team = &legal.team;
    if !is_fresh(team) {
        return false;
    }
    if !are_moves_known(team, dex.moves().len()) {
        return false;
    }
    if !are_species_known(team, dex.all_species().len()) {
        return false;
    }
    legal.nicks.as_slice().len() == usize::from(team.count)
}

/// Whether the configuration has a format with the id.
fn has_format(config: &Config, id: &Id) -> bool
    ensures { IsTrue result ↔ IsSome (format_of id.now config.now.formats.formats) }
{
    config.formats().format(id).is_some()
}

/// Whether two names have one id.
fn is_same_id(one: &Name, two: &Name) -> bool
    ensures { IsTrue result ↔ (id_of one.now ≡ id_of two.now) }
{
    one.id().as_str() == two.id().as_str()
}

/// Whether a battle can start with this: each team has 1 to 6 members in their ranges, to which
/// nothing has happened and which can use each of their moves, its moves and species are those of
/// the dex, and it has one nickname for each member; the format is one of the configuration's; and
/// the two players have different ids. Takes no memory.
pub fn is_fit(start: &Start, config: &Config, dex: &Dex) -> bool
    ensures { result ≡ true ↔ IsFit start.now config.now dex.now }
{
    let [first, second] = &start.teams;
    if !is_ready(first, dex) {
        return false;
    }
    if !is_ready(second, dex) {
        return false;
    }
    if !has_format(config, &start.format) {
        return false;
    }
    let [own, other] = &start.players;
    !is_same_id(own, other)
}
