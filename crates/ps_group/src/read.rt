//! Reads the list of groups.
ghost use Rattle.std.specs.Prelude.{◌≡◌, ◌==◌, ◌<◌, ◌≤◌, codes, length, map, None, IfOk};
ghost use Rattle.std.specs.List.{list_any, list_all};
ghost use Rattle.std.specs.Str.{chars};
ghost use Rattle.serde_json.specs.View.{view};
ghost use Rattle.ps_data.specs.Reading.{Gives, GivesBy, optional};
ghost use Rattle.ps_group.specs.Reading.{one_character, symbol_in, may_stand, has_symbol, own_symbol_in, shows, lower_in, inherit_in};
ghost use Rattle.ps_group.specs.Reading.{is_letter, jurisdiction_in, permissions_in, no_permissions, group_in, group_in_sixteen};
ghost use Rattle.ps_group.specs.Reading.{groups_in};

use crate::group::{Group, Jurisdiction, Permissions};
use crate::groups::Groups;
use ps_base::characters::characters;
use ps_data::fault::{DataKind, Refusal, refused};
use ps_data::forms::{array, ensure, found, object, text};
use ps_data::ids::own_id_at;
use ps_data::keys::{at_key, required, text_at};
use ps_data::lists::{ItemForm, items_of};
use serde_json::Value;
use std::alloc::{AllocError, Global};

/// Why a value is no list of groups.
#[derive(Clone, Copy, Debug, PartialEq, Eq)]
pub enum GroupFault {
    /// The index of the first group that isn't in its form, from 0, and why it isn't. For what is no
    /// list the index is 0 and the kind `Shape`, for the empty list 0 and `Range`, and for a
    /// seventeenth group 16 and `Range`.
    Fault { index: u32, kind: DataKind },
    /// Memory ran out.
    NoMemory,
}

/// The character that a text is: one, and none below the space.
fn one_character(alloc: Global, text: &str) -> Result<Option<char>, AllocError>
    ensures { IfOk result (λ o. o ≡ one_character (chars text.now)) }
{
    let chars = characters(alloc, text)?;
    match chars.as_slice() {
        [c] if *c >= ' ' => Ok(Some(*c)),
        _ => Ok(None),
    }
}

fn symbol(alloc: Global, value: &Value) -> Result<char, Refusal>
    ensures { Gives result (symbol_in (view value.now)) }
{
    let text = text(alloc, value)?;
    found(alloc, one_character(alloc, text)?, DataKind::Range)
}

/// The last group's symbol is the space.
fn may_stand(symbol: char, after: &[Value]) -> bool
    ensures { result ≡ may_stand symbol (map view after.now) }
{
    !after.is_empty() || symbol == ' '
}

#[tactic(auto, unfolding(crate::specs::Reading::has_symbol))]
fn has_symbol(groups: &[Group], symbol: char) -> bool
    ensures { result ≡ has_symbol symbol groups.now }
{
    groups.iter().any(|group| group.symbol == symbol)
}

#[tactic(auto, unfolding(crate::specs::Reading::own_symbol_in))]
fn own_symbol(
    alloc: Global,
    before: &[Group],
    after: &[Value],
    value: &Value,
) -> Result<char, Refusal>
    ensures { Gives result (own_symbol_in before.now (map view after.now) (view value.now)) }
{
    let symbol = symbol(alloc, value)?;
    ensure(alloc, may_stand(symbol, after), DataKind::Range)?;
    ensure(alloc, !has_symbol(before, symbol), DataKind::Repeat)?;
    Ok(symbol)
}

/// Whether a value is an object with this text at its `symbol`.
#[tactic(auto, unfolding(crate::specs::Reading::shows))]
fn shows(text: &str, value: &Value) -> bool
    ensures { result ≡ shows text.now (view value.now) }
{
    match value.get("symbol") {
        None => false,
        Some(symbol) => match symbol.as_str() {
            None => false,
            Some(other) => other == text,
        },
    }
}

fn any_shows(text: &str, values: &[Value]) -> bool
    ensures { result ≡ list_any (shows text.now) (map view values.now) }
{
    for value in values {
        if shows(text, value) {
            return true;
        }
    }
    false
}

#[tactic(auto, unfolding(crate::specs::Reading::lower_in))]
fn lower(alloc: Global, after: &[Value], value: &Value) -> Result<Option<char>, Refusal>
    ensures { Gives result (lower_in (map view after.now) (view value.now)) }
{
    let text = text(alloc, value)?;
    ensure(alloc, any_shows(text, after), DataKind::Unknown)?;
    Ok(one_character(alloc, text)?)
}

/// Only the last group may inherit none.
#[tactic(auto, unfolding(crate::specs::Reading::inherit_in))]
fn inherit(alloc: Global, after: &[Value], value: &Value) -> Result<Option<char>, Refusal>
    ensures { Gives result (inherit_in (map view after.now) (view value.now)) }
{
    match (value.get("inherit"), after) {
        (None, []) => Ok(None),
        _ => at_key(
            alloc,
            "inherit",
            lower(alloc, after, required(alloc, value, "inherit")?),
        ),
    }
}

fn are_letters(text: &str) -> bool
    ensures { result ≡ list_all is_letter text.now }
{
    text.bytes().all(|b| b == b'u' || b == b's' || b == b'a')
}

fn has_letter(text: &str, letter: u8) -> bool
    ensures { result ≡ list_any (λ b. b == letter) text.now }
{
    text.bytes().any(|b| b == letter)
}

#[tactic(auto, unfolding(crate::specs::Reading::jurisdiction_in))]
fn jurisdiction(alloc: Global, value: &Value) -> Result<Option<Jurisdiction>, Refusal>
    ensures { Gives result (jurisdiction_in (view value.now)) }
{
    let letters = text(alloc, value)?;
    ensure(alloc, are_letters(letters), DataKind::Range)?;
    Ok(Some(Jurisdiction {
        under: has_letter(letters, b'u'),
        oneself: has_letter(letters, b's'),
        all: has_letter(letters, b'a'),
    }))
}

fn jurisdiction_at(alloc: Global, value: &Value, key: &str) -> Result<Option<Jurisdiction>, Refusal>
    ensures { Gives result (optional key.now None jurisdiction_in (view value.now)) }
{
    match value.get(key) {
        None => Ok(None),
        Some(inside) => at_key(alloc, key, jurisdiction(alloc, inside)),
    }
}

#[tactic(auto, unfolding(crate::specs::Reading::permissions_in))]
fn permissions(alloc: Global, value: &Value) -> Result<Permissions, Refusal>
    ensures { Gives result (permissions_in (view value.now)) }
{
    object(alloc, value)?;
    let announce = jurisdiction_at(alloc, value, "announce")?;
    let modnote = jurisdiction_at(alloc, value, "modnote")?;
    let warn = jurisdiction_at(alloc, value, "warn")?;
    let mute = jurisdiction_at(alloc, value, "mute")?;
    let ban = jurisdiction_at(alloc, value, "ban")?;
    let modchat = jurisdiction_at(alloc, value, "modchat")?;
    let promote = jurisdiction_at(alloc, value, "promote")?;
    Ok(Permissions {
        announce,
        modnote,
        warn,
        mute,
        ban,
        modchat,
        promote,
    })
}

fn permissions_at(alloc: Global, value: &Value) -> Result<Permissions, Refusal>
    ensures { Gives result (optional (codes "permissions") no_permissions permissions_in (view value.now)) }
{
    match value.get("permissions") {
        None => Ok(Permissions {
            announce: None,
            modnote: None,
            warn: None,
            mute: None,
            ban: None,
            modchat: None,
            promote: None,
        }),
        Some(inside) => at_key(alloc, "permissions", permissions(alloc, inside)),
    }
}

#[tactic(auto, unfolding(crate::specs::Reading::group_in))]
fn group(alloc: Global, before: &[Group], after: &[Value], value: &Value) -> Result<Group, Refusal>
    ensures { Gives result (group_in before.now (map view after.now) (view value.now)) }
{
    object(alloc, value)?;
    let symbol = at_key(
        alloc,
        "symbol",
        own_symbol(alloc, before, after, required(alloc, value, "symbol")?),
    )?;
    let id = own_id_at(alloc, before, value, "id")?;
    let name = text_at(alloc, value, "name")?;
    let inherit = inherit(alloc, after, value)?;
    let permissions = permissions_at(alloc, value)?;
    Ok(Group {
        symbol,
        id,
        name,
        inherit,
        permissions,
    })
}

/// The form of a group.
#[derive(Drop)]
struct GroupForm;

impl ItemForm<Group> for GroupForm {
    ghost reading = { λ _. group_in_sixteen };

    fn read(
        &self,
        alloc: Global,
        before: &[Group],
        after: &[Value],
        value: &Value,
    ) -> Result<Group, Refusal> {
        if before.len() < 16 {
            group(alloc, before, after, value)
        } else {
            Err(refused(alloc, DataKind::Range))
        }
    }
}

#[tactic(auto, unfolding(crate::specs::Reading::groups_in))]
fn group_list(alloc: Global, value: &Value) -> Result<Vec<Group>, Refusal>
    ensures { GivesBy (λ v. v.items) result (groups_in (view value.now)) }
{
    let values = array(alloc, value)?;
    ensure(alloc, !values.is_empty(), DataKind::Range)?;
    items_of(alloc, &GroupForm, values)
}

impl Groups {
    ghost use Rattle.ps_group.specs.Faults.{GivesGroups};

    /// The groups that a value stands for: an array of 1 to 16 objects, highest first, each with
    /// `symbol`, `id`, `name`, `inherit` and `permissions`, like the group settings of Showdown's
    /// `config-example`. A fault has the whole path from the array on, as `[2].permissions.warn`.
    pub fn read(alloc: Global, value: &Value) -> Result<Groups, Refusal>
        ensures { Gives result (groups_in (view value.now)) }
    {
        Ok(Groups::from_list(group_list(alloc, value)?))
    }

    /// The groups that a value stands for, or the index of the first that isn't in its form.
    pub fn from_value(alloc: Global, value: &Value) -> Result<Groups, GroupFault>
        ensures { GivesGroups result (groups_in (view value.now)) }
    {
        match Groups::read(alloc, value) {
            Ok(groups) => Ok(groups),
            Err(Refusal::NoMemory) => Err(GroupFault::NoMemory),
            Err(Refusal::Fault(fault)) => Err(GroupFault::Fault {
                index: fault.path.first_index() as u32,
                kind: fault.kind,
            }),
        }
    }
}
