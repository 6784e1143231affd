//! The lines of a drill's script.
ghost use Rattle.std.specs.Prelude.{◌≡◌, ◌++◌, OnOk, string_bytes};
ghost use Rattle.replay_drill.specs.Lines.{group_line, open_line, name_line, join_line, head_lines, team_line, team_lines};
ghost use Rattle.replay_drill.specs.Lines.{challenge_line, accept_line, battle_line, join_battle_line, join_battle_lines};
ghost use Rattle.replay_drill.specs.Lines.{start_lines, default_line, choose_lines, time_line, lobby_line, talk_line, whisper_line};
ghost use Rattle.replay_drill.specs.Lines.{note_line};
ghost use Rattle.ps_base.specs.Lists.{each_to};

use ps_base::id::Id;
use ps_base::text::Text;
use ps_group::groups::Groups;
use std::alloc::AllocError;
use std::fmt::Write;

/// How many users come.
const USERS: u32 = 8;

// ---- the head

/// The first line stands only where there is such a group, since a script may not name another.
fn push_group(script: &mut String, groups: &Groups) -> Result<(), AllocError>
    ensures { OnOk result (string_bytes script.new ≡ string_bytes script.old ++ group_line groups.now) }
{
    match groups.rank_of('%') {
        None => Ok(()),
        Some(_) => writeln!(script, "G % u1"),
    }
}

fn push_open(script: &mut String, conn: u32) -> Result<(), AllocError>
    ensures { OnOk result (string_bytes script.new ≡ string_bytes script.old ++ open_line conn) }
{
    writeln!(script, "+{conn}")
}

fn push_name(script: &mut String, conn: u32) -> Result<(), AllocError>
    ensures { OnOk result (string_bytes script.new ≡ string_bytes script.old ++ name_line conn) }
{
    writeln!(script, ">{conn} |/trn u{conn},0,")
}

fn push_join(script: &mut String, conn: u32) -> Result<(), AllocError>
    ensures { OnOk result (string_bytes script.new ≡ string_bytes script.old ++ join_line conn) }
{
    writeln!(script, ">{conn} |/join lobby")
}

fn push_opens(script: &mut String) -> Result<(), AllocError>
    ensures { OnOk result (string_bytes script.new ≡ string_bytes script.old ++ each_to open_line 8) }
{
    for i in 0..USERS {
        push_open(script, i + 1)?;
    }
    Ok(())
}

fn push_names(script: &mut String) -> Result<(), AllocError>
    ensures { OnOk result (string_bytes script.new ≡ string_bytes script.old ++ each_to name_line 8) }
{
    for i in 0..USERS {
        push_name(script, i + 1)?;
    }
    Ok(())
}

fn push_joins(script: &mut String) -> Result<(), AllocError>
    ensures { OnOk result (string_bytes script.new ≡ string_bytes script.old ++ each_to join_line 8) }
{
    for i in 0..USERS {
        push_join(script, i + 1)?;
    }
    Ok(())
}

/// Eight users come, name themselves and join the lobby.
pub(crate) fn push_head(script: &mut String, groups: &Groups) -> Result<(), AllocError>
    ensures { OnOk result (string_bytes script.new ≡ string_bytes script.old ++ head_lines groups.now) }
{
    push_group(script, groups)?;
    push_opens(script)?;
    push_names(script)?;
    push_joins(script)
}

// ---- the battle's lines

fn push_team(script: &mut String, team: &Text, conn: u32) -> Result<(), AllocError>
    ensures { OnOk result (string_bytes script.new ≡ string_bytes script.old ++ team_line team.now conn) }
{
    writeln!(script, ">{conn} |/utm {team}")
}

#[tactic(auto, unfolding(crate::specs::Lines::team_lines))]
fn push_teams(script: &mut String, team: &Text) -> Result<(), AllocError>
    ensures { OnOk result (string_bytes script.new ≡ string_bytes script.old ++ team_lines team.now) }
{
    push_team(script, team, 7)?;
    push_team(script, team, 8)
}

#[tactic(auto, unfolding(crate::specs::Lines::challenge_line))]
fn push_challenge(script: &mut String, format: &Id) -> Result<(), AllocError>
    ensures { OnOk result (string_bytes script.new ≡ string_bytes script.old ++ challenge_line format.now) }
{
    writeln!(script, ">7 |/challenge u8, {format}")
}

fn push_accept(script: &mut String) -> Result<(), AllocError>
    ensures { OnOk result (string_bytes script.new ≡ string_bytes script.old ++ accept_line) }
{
    writeln!(script, ">8 |/accept u7")
}

/// A text with the id of the battle, which is the first of its format.
fn push_battle(
    script: &mut String,
    format: &Id,
    conn: u32,
    before: &str,
    behind: &str,
) -> Result<(), AllocError>
    ensures { OnOk result (string_bytes script.new ≡ string_bytes script.old ++ battle_line format.now conn before.now behind.now) }
{
    writeln!(script, ">{conn} {before}battle-{format}-1{behind}")
}

fn push_join_battle(script: &mut String, format: &Id, conn: u32) -> Result<(), AllocError>
    ensures { OnOk result (string_bytes script.new ≡ string_bytes script.old ++ join_battle_line format.now conn) }
{
    push_battle(script, format, conn, "|/join ", "")
}

#[tactic(auto, unfolding(crate::specs::Lines::join_battle_lines))]
fn push_join_battles(script: &mut String, format: &Id) -> Result<(), AllocError>
    ensures { OnOk result (string_bytes script.new ≡ string_bytes script.old ++ join_battle_lines format.now) }
{
    push_join_battle(script, format, 7)?;
    push_join_battle(script, format, 8)
}

/// Users 7 and 8 come together in a battle with the same team.
pub(crate) fn push_start(script: &mut String, format: &Id, team: &Text) -> Result<(), AllocError>
    ensures { OnOk result (string_bytes script.new ≡ string_bytes script.old ++ start_lines format.now team.now) }
{
    push_teams(script, team)?;
    push_challenge(script, format)?;
    push_accept(script)?;
    push_join_battles(script, format)
}

fn push_default(script: &mut String, format: &Id, conn: u32) -> Result<(), AllocError>
    ensures { OnOk result (string_bytes script.new ≡ string_bytes script.old ++ default_line format.now conn) }
{
    push_battle(script, format, conn, "", "|/choose default")
}

/// Each side lets the battle choose for it.
pub(crate) fn push_choices(script: &mut String, format: &Id) -> Result<(), AllocError>
    ensures { OnOk result (string_bytes script.new ≡ string_bytes script.old ++ choose_lines format.now) }
{
    push_default(script, format, 7)?;
    push_default(script, format, 8)
}

// ---- a step's lines

pub(crate) fn push_time(script: &mut String, k: u32) -> Result<(), AllocError>
    ensures { OnOk result (string_bytes script.new ≡ string_bytes script.old ++ time_line k) }
{
    writeln!(script, "T {k}")
}

/// Words that end with the step's number, so that no two steps send the same.
fn push_lobby(script: &mut String, conn: u32, words: &str, k: u32) -> Result<(), AllocError>
    ensures { OnOk result (string_bytes script.new ≡ string_bytes script.old ++ lobby_line conn words.now k) }
{
    writeln!(script, ">{conn} lobby|{words}{k}")
}

pub(crate) fn push_talk(script: &mut String, conn: u32, k: u32) -> Result<(), AllocError>
    ensures { OnOk result (string_bytes script.new ≡ string_bytes script.old ++ talk_line conn k) }
{
    push_lobby(script, conn, "m", k)
}

pub(crate) fn push_whisper(
    script: &mut String,
    conn: u32,
    to: u32,
    k: u32,
) -> Result<(), AllocError>
    ensures { OnOk result (string_bytes script.new ≡ string_bytes script.old ++ whisper_line conn to k) }
{
    writeln!(script, ">{conn} |/pm u{to}, w{k}")
}

pub(crate) fn push_note(script: &mut String, conn: u32, k: u32) -> Result<(), AllocError>
    ensures { OnOk result (string_bytes script.new ≡ string_bytes script.old ++ note_line conn k) }
{
    push_lobby(script, conn, "/modnote n", k)
}
