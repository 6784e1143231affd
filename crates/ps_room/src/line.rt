//! The lines that a room itself is told by, after PROTOCOL.md.
ghost use Rattle.std.specs.Prelude.{◌≡◌, ◌++◌, ◌∷◌, [], IfOk, OnOk, string_bytes};
ghost use Rattle.std.specs.List.{flat_map};
ghost use Rattle.ps_room.specs.Lines.{kind_line, title_line, users_line, users_part};

use ps_base::text::Text;
use ps_chat::present::Present;
use ps_group::groups::Groups;
use ps_group::shown_name::shown_name;
use std::alloc::{AllocError, Global};

/// `|init|chat`, or `|init|battle` in a battle's room.
pub fn kind_line(alloc: Global, battle: bool) -> Result<Text, AllocError>
    ensures { IfOk result (λ t. t ≡ kind_line battle) }
{
    if battle {
        Text::copy_of(alloc, "|init|battle")
    } else {
        Text::copy_of(alloc, "|init|chat")
    }
}

/// `|title|TITLE`
pub fn title_line(alloc: Global, title: &str) -> Result<Text, AllocError>
    ensures { IfOk result (λ t. t ≡ title_line title.now) }
{
    Ok(Text::from_string(format!(in alloc; "|title|{title}")?))
}

fn push_user(
    alloc: Global,
    line: &mut String,
    groups: &Groups,
    member: &Present,
) -> Result<(), AllocError>
    ensures { OnOk result (string_bytes line.new ≡ string_bytes line.old ++ users_part groups.now member.now) }
{
    let shown_name = shown_name(alloc, groups, member.rank, &member.badge.name)?;
    line.push_str(",")?;
    line.push_str(shown_name.as_str())
}

fn push_users(
    alloc: Global,
    line: &mut String,
    groups: &Groups,
    members: &[Present],
) -> Result<(), AllocError>
    ensures { OnOk result (string_bytes line.new ≡ string_bytes line.old ++ flat_map (users_part groups.now) members.now) }
{
    for member in members {
        push_user(alloc, line, groups, member)?;
    }
    Ok(())
}

/// `|users|N,SNAME,..`: the members in join order, and then who joins.
pub fn users_line(
    alloc: Global,
    groups: &Groups,
    members: &[Present],
    joiner: &Present,
) -> Result<Text, AllocError>
    ensures { IfOk result (λ t. t ≡ users_line groups.now (members.now ++ joiner.now ∷ [])) }
{
    let count = members.len() + 1;
    let mut line = format!(in alloc; "|users|{count}")?;
    push_users(alloc, &mut line, groups, members)?;
    push_user(alloc, &mut line, groups, joiner)?;
    Ok(Text::from_string(line))
}
