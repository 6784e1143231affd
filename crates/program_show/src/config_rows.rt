//! What is told of a configuration. A secret is looked at only for whether it is empty.
ghost use Rattle.std.specs.Prelude.{◌≡◌, ◌++◌, IfOk, OnOk, length, map, option_map};
ghost use Rattle.file_help.specs.Pages.{listed};
ghost use Rattle.program_show.specs.ConfigRows.{reach, reach_text, permissions, symbol_text, inherit_text, group_text, group_row};
ghost use Rattle.program_show.specs.ConfigRows.{group_rows, room_row, secret_word, user_text, user_row, nonce_word, seed_word};
ghost use Rattle.program_show.specs.ConfigRows.{setup_rows};

use crate::rows::{push_count, push_row, push_text};
use file_help::page::{Row, listed, row_of};
use ps_base::text::Text;
use ps_group::group::{Group, Perm};
use ps_group::groups::Groups;
use rules_config::config::Config;
use rules_config::settings::{ChatRoom, Registered};
use std::alloc::{AllocError, Global};

// ---- groups

#[tactic(auto, unfolding(crate::specs::ConfigRows::reach))]
fn reach(groups: &Groups, rank: u8, perm: Perm) -> Option<&'static str>
    ensures { option_map (λ t. t.now) result ≡ reach groups.now rank perm }
{
    if groups.reaches_all(rank, perm) {
        return Some("everybody");
    }
    let lower = groups.can(rank, Some(255), false, perm);
    let oneself = groups.can(rank, Some(rank), true, perm);
    if lower && oneself {
        return Some("lower ranks and oneself");
    }
    if lower {
        return Some("lower ranks");
    }
    if oneself {
        return Some("oneself");
    }
    if groups.can(rank, None, false, perm) {
        return Some("nobody of a lower rank");
    }
    None
}

fn push_reach(
    alloc: Global,
    texts: &mut Vec<Text>,
    groups: &Groups,
    rank: u8,
    perm: Perm,
    word: &str,
) -> Result<(), AllocError>
    ensures { OnOk result (texts.new.items ≡ texts.old.items ++ reach_text word.now (reach groups.now rank perm)) }
{
    match reach(groups, rank, perm) {
        None => Ok(()),
        Some(whom) => {
            texts.push(Text::from_string(format!(in alloc; "{word} {whom}")?))?;
            Ok(())
        }
    }
}

#[tactic(auto, unfolding(crate::specs::ConfigRows::permissions))]
fn permissions(alloc: Global, groups: &Groups, rank: u8) -> Result<Vec<Text>, AllocError>
    ensures { IfOk result (λ v. v.items ≡ permissions groups.now rank) }
{
    let mut texts = Vec::new(alloc);
    push_reach(alloc, &mut texts, groups, rank, Perm::Announce, "announce")?;
    push_reach(alloc, &mut texts, groups, rank, Perm::Modnote, "modnote")?;
    push_reach(alloc, &mut texts, groups, rank, Perm::Warn, "warn")?;
    push_reach(alloc, &mut texts, groups, rank, Perm::Mute, "mute")?;
    push_reach(alloc, &mut texts, groups, rank, Perm::Ban, "ban")?;
    push_reach(alloc, &mut texts, groups, rank, Perm::Modchat, "modchat")?;
    push_reach(alloc, &mut texts, groups, rank, Perm::Promote, "promote")?;
    Ok(texts)
}

fn listed_permissions(alloc: Global, groups: &Groups, rank: u8) -> Result<Text, AllocError>
    ensures { IfOk result (λ t. t ≡ listed (permissions groups.now rank)) }
{
    let texts = permissions(alloc, groups, rank)?;
    listed(alloc, &texts)
}

#[tactic(auto, unfolding(crate::specs::ConfigRows::symbol_text))]
fn symbol_text(alloc: Global, symbol: char) -> Result<Text, AllocError>
    ensures { IfOk result (λ t. t ≡ symbol_text symbol) }
{
    let mut text = String::from_str(alloc, "`")?;
    text.push(symbol)?;
    text.push_str("`")?;
    Ok(Text::from_string(text))
}

fn inherit_text(alloc: Global, symbol: Option<char>) -> Result<Text, AllocError>
    ensures { IfOk result (λ t. t ≡ inherit_text symbol) }
{
    match symbol {
        None => Ok(Text::new(alloc)),
        Some(symbol) => {
            let mut text = Text::copy_of(alloc, ", inherits ")?;
            text.push_str(symbol_text(alloc, symbol)?.as_str())?;
            Ok(text)
        }
    }
}

#[tactic(auto, unfolding(crate::specs::ConfigRows::group_text))]
fn group_text(alloc: Global, groups: &Groups, rank: u8, group: &Group) -> Result<Text, AllocError>
    ensures { IfOk result (λ t. t ≡ group_text groups.now rank group.now) }
{
    let id = group.id.as_str();
    let name = group.name.as_str();
    let inherits = inherit_text(alloc, group.inherit)?;
    let inherits = inherits.as_str();
    let texts = listed_permissions(alloc, groups, rank)?;
    let texts = texts.as_str();
    Ok(Text::from_string(format!(in alloc; "{id} ({name}){inherits}; {texts}")?))
}

fn group_row(alloc: Global, groups: &Groups, rank: u8, group: &Group) -> Result<Row, AllocError>
    ensures { IfOk result (λ r. r ≡ group_row groups.now rank group.now) }
{
    let symbol = symbol_text(alloc, group.symbol)?;
    let value = group_text(alloc, groups, rank, group)?;
    row_of(alloc, symbol.as_str(), value)
}

fn rows_of_groups(
    alloc: Global,
    groups: &Groups,
    list: &[Group],
    count: u8,
) -> Result<Vec<Row>, AllocError>
    requires { count ≡ length list.now }
    ensures { IfOk result (λ v. v.items ≡ group_rows groups.now 0 list.now) }
{
    let mut rows = Vec::new(alloc);
    for rank in 0..count {
        let group = &list[usize::from(rank)];
        rows.push(group_row(alloc, groups, rank, group)?)?;
    }
    Ok(rows)
}

/// A row for each group, the highest first, with its id, its name, what it inherits, and its permissions and whom they reach.
pub(crate) fn group_rows(alloc: Global, groups: &Groups) -> Result<Vec<Row>, AllocError>
    ensures { IfOk result (λ v. v.items ≡ group_rows groups.now 0 groups.now) }
{
    rows_of_groups(alloc, groups, groups.list(), groups.count())
}

// ---- rooms and names

fn room_row(alloc: Global, room: &ChatRoom) -> Result<Row, AllocError>
    ensures { IfOk result (λ r. r ≡ room_row room.now) }
{
    let title = room.title.copy(alloc)?;
    row_of(alloc, room.id.as_str(), title)
}

/// A row for each room, with its title.
pub(crate) fn room_rows(alloc: Global, rooms: &[ChatRoom]) -> Result<Vec<Row>, AllocError>
    ensures { IfOk result (λ v. v.items ≡ map room_row rooms.now) }
{
    let mut rows = Vec::new(alloc);
    for room in rooms {
        rows.push(room_row(alloc, room)?)?;
    }
    Ok(rows)
}

fn secret_word(secret: &Text) -> &'static str
    ensures { result.now ≡ secret_word secret.now }
{
    match secret.as_str().as_bytes() {
        [] => ", empty secret: anybody can take the name",
        _ => ", has a secret",
    }
}

#[tactic(auto, unfolding(crate::specs::ConfigRows::user_text))]
fn user_text(alloc: Global, groups: &Groups, user: &Registered) -> Result<Text, AllocError>
    ensures { IfOk result (λ t. t ≡ user_text groups.now user.now) }
{
    let symbol = symbol_text(alloc, groups.symbol(user.rank))?;
    let mut text = Text::copy_of(alloc, "group ")?;
    text.push_str(symbol.as_str())?;
    text.push_str(secret_word(&user.secret))?;
    Ok(text)
}

fn user_row(alloc: Global, groups: &Groups, user: &Registered) -> Result<Row, AllocError>
    ensures { IfOk result (λ r. r ≡ user_row groups.now user.now) }
{
    let value = user_text(alloc, groups, user)?;
    row_of(alloc, user.id.as_str(), value)
}

/// A row for each registered name, with its group, and whether its secret is empty.
pub(crate) fn user_rows(
    alloc: Global,
    groups: &Groups,
    users: &[Registered],
) -> Result<Vec<Row>, AllocError>
    ensures { IfOk result (λ v. v.items ≡ map (user_row groups.now) users.now) }
{
    let mut rows = Vec::new(alloc);
    for user in users {
        rows.push(user_row(alloc, groups, user)?)?;
    }
    Ok(rows)
}

// ---- the rest

fn nonce_word(nonce: &str) -> &'static str
    ensures { result.now ≡ nonce_word nonce.now }
{
    if nonce == "0" {
        "the default: without the key, `always` draws one; otherwise give each server its own"
    } else {
        "its own"
    }
}

fn seed_word(seed: u64) -> &'static str
    ensures { result.now ≡ seed_word seed }
{
    if seed == 0 {
        "the default: without the key, `always` draws one; otherwise its draws can be foretold"
    } else {
        "its own"
    }
}

/// Who is staff, and whether nonce and seed are the defaults.
#[tactic(auto, unfolding(crate::specs::ConfigRows::setup_rows))]
pub(crate) fn setup_rows(alloc: Global, config: &Config) -> Result<Vec<Row>, AllocError>
    ensures { IfOk result (λ v. v.items ≡ setup_rows config.now) }
{
    let staff = symbol_text(alloc, config.groups().symbol(config.staff()))?;
    let mut rows = Vec::new(alloc);
    push_row(alloc, &mut rows, "staff", staff)?;
    push_text(alloc, &mut rows, "nonce", nonce_word(config.nonce()))?;
    push_text(alloc, &mut rows, "seed", seed_word(config.seed()))?;
    push_count(alloc, &mut rows, "seeds", config.seeds().len())?;
    Ok(rows)
}
