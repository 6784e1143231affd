//! Which sets can be written.
ghost use Rattle.std.specs.Prelude.{◌≡◌, ◌≤◌, codes, is_some, length};
ghost use Rattle.ps_base.specs.Cuts.{after_front, before_end};
ghost use Rattle.ps_export.specs.Written.{is_plain, is_nature, are_names, are_plain, is_writable, first_unwritable};

use crate::detail::{begins_with_dash, has_colon};
use crate::first::is_gender;
use crate::part::has_no_sign;
use ps_base::cut;
use ps_packed::set::Set;

fn begins_with_space(text: &str) -> bool
    ensures { result ≡ is_some (after_front (codes " ") text.now) }
{
    match cut::after(text, " ") {
        None => false,
        Some(_) => true,
    }
}

fn ends_with_space(text: &str) -> bool
    ensures { result ≡ is_some (before_end (codes " ") text.now) }
{
    match cut::before(text, " ") {
        None => false,
        Some(_) => true,
    }
}

#[tactic(auto, unfolding(crate::specs::Written::is_plain))]
fn is_plain(text: &str) -> bool
    ensures { result ≡ is_plain text.now }
{
    has_no_sign(text) && !begins_with_space(text) && !ends_with_space(text)
}

#[tactic(auto, unfolding(crate::specs::Written::is_nature))]
fn is_nature(nature: &str) -> bool
    ensures { result ≡ is_nature nature.now }
{
    !has_colon(nature) && !begins_with_dash(nature)
}

#[tactic(auto, unfolding(crate::specs::Written::are_names))]
fn are_names(nick: &str, species: &str) -> bool
    ensures { result ≡ are_names nick.now species.now }
{
    nick == species || !is_gender(species)
}

#[tactic(auto, unfolding(crate::specs::Written::are_plain))]
fn are_plain(set: &Set) -> bool
    ensures { result ≡ are_plain set.now }
{
    is_plain(set.nick.as_str())
        && is_plain(set.species.as_str())
        && is_plain(set.item.as_str())
        && is_plain(set.ability.as_str())
        && is_plain(set.nature.as_str())
        && is_plain(set.misc.as_str())
}

#[tactic(auto, unfolding(crate::specs::Written::is_writable))]
fn is_writable(set: &Set) -> bool
    ensures { result ≡ is_writable set.now }
{
    are_plain(set)
        && is_nature(set.nature.as_str())
        && are_names(set.nick.as_str(), set.species.as_str())
}

/// The number of the first set that can't be written, from 1.
pub fn first_unwritable(sets: &[Set]) -> Option<u8>
    requires { length sets.now ≤ 6 }
    ensures { result ≡ first_unwritable 1 sets.now }
{
    let mut number: u8 = 1;
    for set in sets {
        if !is_writable(set) {
            return Some(number);
        }
        number += 1;
    }
    None
}
