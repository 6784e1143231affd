//! Which form a configuration has.
ghost use Rattle.std.specs.Prelude.{◌≡◌};
ghost use Rattle.serde_json.specs.View.{view};
ghost use Rattle.ps_data.specs.Reading.{Gives};
ghost use Rattle.ps_rules.specs.Versions.{version_of, always_on, version_in};

use crate::clause::Clause;
use ps_data::fault::Refusal;
use ps_data::keys::number_or;
use serde_json::Value;
use std::alloc::Global;

/// Which form a configuration has.
#[derive(Clone, Copy, Debug, PartialEq, Eq)]
pub enum Version {
    /// 1: HP Percentage Mod is on in every format, whatever its rule list says.
    First,
    /// 2: every clause is on only where a rule list leaves it on.
    Second,
}

fn version_of(n: u64) -> Version
    ensures { result ≡ version_of n }
{
    if n == 2 {
        Version::Second
    } else {
        Version::First
    }
}

/// The bits of the clauses that are on whatever a rule list says.
pub(crate) fn always_on(version: Version) -> u8
    ensures { result ≡ always_on version }
{
    match version {
        Version::First => Clause::Percentage.bit(),
        Version::Second => 0,
    }
}

/// The version that a configuration's value says: 1 or 2 at its key `version`, and 1 where the key is missing. `Range` at
/// that key for another whole number of 64 bits, `Shape` for anything else.
#[tactic(auto, unfolding(crate::specs::Versions::version_in))]
pub fn read_version(alloc: Global, value: &Value) -> Result<Version, Refusal>
    ensures { Gives result (version_in (view value.now)) }
{
    let n = number_or(alloc, value, "version", 1, 2, 1)?;
    Ok(version_of(n))
}
