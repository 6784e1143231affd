//! How the users of a tournament come.
ghost use Rattle.std.specs.Prelude.{◌≡◌, ◌++◌, IfOk, OnOk, string_bytes};
ghost use Rattle.std.specs.Option.{option_map, option_copied};
ghost use Rattle.ps_users.specs.Assertions.{challstr_of, assertion_of};
ghost use Rattle.replay_script.specs.declared.item.Item.TheVariants as lines;
ghost use Rattle.replay_tour.specs.Entrants.{each_line, user_name, registered, assertion_by, assertion, name_line, team_line, entering};

use crate::lines::{sent, user_name};
use ps_base::number::ConnNo;
use ps_base::text::Text;
use ps_users::assertion::{assertion_of, challstr_of};
use replay_script::item::Item;
use rules_config::config::Config;
use rules_config::settings::Registered;
use std::alloc::{AllocError, Global};

// ---- the assertion of a name

fn registered<'a>(id: &str, users: &'a [Registered]) -> Option<&'a Registered>
    ensures { option_map (λ u. u.now) result ≡ registered id.now users.now }
{
    for user in users {
        if user.id.as_str() == id {
            return Some(user);
        }
    }
    None
}

fn assertion_by(
    alloc: Global,
    nonce: &str,
    conn: u8,
    user: Option<&Registered>,
) -> Result<Text, AllocError>
    ensures { IfOk result (λ t. t ≡ assertion_by nonce.now conn (option_copied user.entry)) }
{
    match user {
        None => Ok(Text::new(alloc)),
        Some(user) => {
            let nonce = Text::copy_of(alloc, nonce)?;
            let challenge = challstr_of(alloc, &nonce, ConnNo(u32::from(conn)))?;
            assertion_of(alloc, challenge.as_str(), user.secret.as_str())
        }
    }
}

fn assertion(alloc: Global, config: &Config, conn: u8) -> Result<Text, AllocError>
    ensures { IfOk result (λ t. t ≡ assertion config.now conn) }
{
    let name = user_name(alloc, conn)?;
    assertion_by(
        alloc,
        config.nonce(),
        conn,
        registered(name.as_str(), config.users()),
    )
}

// ---- their lines

fn name_line(alloc: Global, config: &Config, conn: u8) -> Result<Item, AllocError>
    ensures { IfOk result (λ i. i ≡ name_line config.now conn) }
{
    let assertion = assertion(alloc, config, conn)?;
    Ok(sent(conn, format!(in alloc; "|/trn u{conn},0,{assertion}")?))
}

fn team_line(alloc: Global, team: &Text, conn: u8) -> Result<Item, AllocError>
    ensures { IfOk result (λ i. i ≡ team_line team.now conn) }
{
    Ok(sent(conn, format!(in alloc; "|/utm {team}")?))
}

fn push_opens(items: &mut Vec<Item>, users: u8) -> Result<(), AllocError>
    ensures { OnOk result (items.new.items ≡ items.old.items ++ each_line lines.Open users) }
{
    for i in 0..users {
        items.push(Item::Open(ConnNo(u32::from(i) + 1)))?;
    }
    Ok(())
}

fn push_names(
    alloc: Global,
    items: &mut Vec<Item>,
    config: &Config,
    users: u8,
) -> Result<(), AllocError>
    ensures { OnOk result (items.new.items ≡ items.old.items ++ each_line (name_line config.now) users) }
{
    for i in 0..users {
        items.push(name_line(alloc, config, i + 1)?)?;
    }
    Ok(())
}

fn push_teams(
    alloc: Global,
    items: &mut Vec<Item>,
    team: &Text,
    users: u8,
) -> Result<(), AllocError>
    ensures { OnOk result (items.new.items ≡ items.old.items ++ each_line (team_line team.now) users) }
{
    for i in 0..users {
        items.push(team_line(alloc, team, i + 1)?)?;
    }
    Ok(())
}

/// The first lines of a tournament of so many users: they open, take their names, each with the assertion that it takes under
/// the configuration, and set the same team.
pub fn entering(
    alloc: Global,
    config: &Config,
    team: &Text,
    users: u8,
) -> Result<Vec<Item>, AllocError>
    ensures { IfOk result (λ v. v.items ≡ entering config.now team.now users) }
{
    let mut items = Vec::new(alloc);
    push_opens(&mut items, users)?;
    push_names(alloc, &mut items, config, users)?;
    push_teams(alloc, &mut items, team, users)?;
    Ok(items)
}
