//! Reads a configuration.
ghost use Rattle.std.specs.Prelude.{◌≡◌, ◌≤◌, [], codes, length, map, IfOk};
ghost use Rattle.std.specs.List.{list_all};
ghost use Rattle.serde_json.specs.View.{view};
ghost use Rattle.ps_data.specs.Reading.{Gives, GivesBy, optional};
ghost use Rattle.ps_data.specs.Forms.{number_in};
ghost use Rattle.ps_group.specs.Reading.{groups_in};
ghost use Rattle.rules_config.specs.Reading.{is_plain, are_plain, is_nonce, nonce_in, greatest_seed, seeds_in, default_groups_of};
ghost use Rattle.rules_config.specs.Reading.{config_in, config_of};

use crate::room::rooms_at;
use crate::settings::Settings;
use crate::user::{staff_at, users_at};
use ps_base::list::List;
use ps_base::text::Text;
use ps_data::fault::{DataKind, Refusal};
use ps_data::forms::{array, ensure, json, object, text};
use ps_data::keys::{at_key, items_at_key, number_or};
use ps_data::lists::{NumberForm, items_of};
use ps_dex::dex::Dex;
use ps_group::groups::Groups;
use ps_rules::formats::Formats;
use ps_rules::version::{Version, read_version};
use serde_json::Value;
use std::alloc::{AllocError, Global};

/// The groups where a configuration of a version names none.
fn default_groups(alloc: Global, version: Version) -> Result<Groups, AllocError>
    ensures { IfOk result (λ g. g ≡ default_groups_of version) }
{
    match version {
        Version::First => Groups::standard(alloc),
        Version::Second => Groups::with_bot(alloc),
    }
}

fn groups_at(alloc: Global, version: Version, value: &Value) -> Result<Groups, Refusal>
    ensures { Gives result (optional (codes "groups") (default_groups_of version) groups_in (view value.now)) }
{
    match value.get("groups") {
        None => Ok(default_groups(alloc, version)?),
        Some(inside) => at_key(alloc, "groups", Groups::read(alloc, inside)),
    }
}

#[tactic(auto, unfolding(crate::specs::Reading::are_plain))]
fn are_plain(text: &str) -> bool
    ensures { result ≡ are_plain text.now }
{
    text.bytes().all(|b| {
        (b >= b'0' && b <= b'9') || (b >= b'A' && b <= b'Z') || (b >= b'a' && b <= b'z')
    })
}

#[tactic(auto, unfolding(crate::specs::Reading::is_nonce))]
fn is_nonce(text: &str) -> bool
    ensures { result ≡ is_nonce text.now }
{
    let plain = are_plain(text);
    plain && 1 <= text.len() && text.len() <= 32
}

#[tactic(auto, unfolding(crate::specs::Reading::nonce_in))]
fn nonce(alloc: Global, value: &Value) -> Result<Text, Refusal>
    ensures { Gives result (nonce_in (view value.now)) }
{
    let text = text(alloc, value)?;
    ensure(alloc, is_nonce(text), DataKind::Range)?;
    Ok(Text::copy_of(alloc, text)?)
}

fn nonce_at(alloc: Global, value: &Value) -> Result<Text, Refusal>
    ensures { Gives result (optional (codes "nonce") (codes "0") nonce_in (view value.now)) }
{
    match value.get("nonce") {
        None => Ok(Text::copy_of(alloc, "0")?),
        Some(inside) => at_key(alloc, "nonce", nonce(alloc, inside)),
    }
}

fn seed_at(alloc: Global, value: &Value) -> Result<u64, Refusal>
    ensures { Gives result (optional (codes "seed") 0 (number_in 0 greatest_seed) (view value.now)) }
{
    number_or(alloc, value, "seed", 0, u64::MAX, 0)
}

#[tactic(auto, unfolding(crate::specs::Reading::seeds_in))]
fn seeds(alloc: Global, value: &Value) -> Result<Vec<u64>, Refusal>
    ensures { GivesBy (λ v. v.items) result (seeds_in (view value.now)) }
{
    let values = array(alloc, value)?;
    let form = NumberForm {
        low: 0,
        high: u64::MAX,
    };
    items_of(alloc, &form, values)
}

fn seeds_at(alloc: Global, value: &Value) -> Result<List<u64>, Refusal>
    ensures { Gives result (optional (codes "seeds") [] seeds_in (view value.now)) }
{
    match value.get("seeds") {
        None => Ok(List::from_vec(Vec::new(alloc))),
        Some(inside) => {
            let seeds = items_at_key(alloc, "seeds", seeds(alloc, inside))?;
            Ok(List::from_vec(seeds))
        }
    }
}

/// The keys of a configuration in their order, `version` before all others.
#[tactic(auto, unfolding(crate::specs::Reading::config_in))]
fn settings(alloc: Global, dex: &Dex, value: &Value) -> Result<Settings, Refusal>
    ensures { Gives result (config_in dex.now (view value.now)) }
{
    object(alloc, value)?;
    let version = read_version(alloc, value)?;
    let groups = groups_at(alloc, version, value)?;
    let staff = staff_at(alloc, &groups, value)?;
    let rooms = rooms_at(alloc, value)?;
    let users = users_at(alloc, &groups, value)?;
    let formats = Formats::read(alloc, version, value, dex)?;
    let nonce = nonce_at(alloc, value)?;
    let seed = seed_at(alloc, value)?;
    let seeds = seeds_at(alloc, value)?;
    let gives_nonce = value.get("nonce").is_some();
    let gives_seed = value.get("seed").is_some();
    Ok(Settings {
        groups,
        staff,
        rooms,
        users,
        formats,
        nonce,
        seed,
        seeds,
        gives_nonce,
        gives_seed,
    })
}

/// What the bytes of a configuration say over a dex, or their first fault.
#[tactic(auto, unfolding(crate::specs::Reading::config_of))]
pub(crate) fn read_settings(alloc: Global, bytes: &[u8], dex: &Dex) -> Result<Settings, Refusal>
    ensures { Gives result (config_of dex.now bytes.now) }
{
    let value = json(alloc, bytes)?;
    settings(alloc, dex, &value)
}
