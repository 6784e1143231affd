//! What is told of a tournament behind its transcript.
ghost use Rattle.std.specs.Prelude.{◌≡◌, ◌++◌, IfOk, OnOk, string_bytes};
ghost use Rattle.std.specs.List.{flat_map};
ghost use Rattle.ps_tour.specs.Brackets.{champion};
ghost use Rattle.replay_tour.specs.Results.{win_line, champion_line, result_text};

use crate::tour::Tour;
use crate::win::Win;
use std::alloc::{AllocError, Global};
use std::fmt::Write;

fn push_win(out: &mut String, win: Win) -> Result<(), AllocError>
    ensures { OnOk result (string_bytes out.new ≡ string_bytes out.old ++ win_line win) }
{
    writeln!(out, "u{} beat u{}", win.winner, win.loser)
}

fn push_wins(out: &mut String, wins: &[Win]) -> Result<(), AllocError>
    ensures { OnOk result (string_bytes out.new ≡ string_bytes out.old ++ flat_map win_line wins.now) }
{
    match wins {
        [] => Ok(()),
        [win, rest @ ..] => {
            push_win(out, *win)?;
            push_wins(out, rest)
        }
    }
}

fn push_champion(out: &mut String, champion: Option<u8>) -> Result<(), AllocError>
    ensures { OnOk result (string_bytes out.new ≡ string_bytes out.old ++ champion_line champion) }
{
    match champion {
        None => Ok(()),
        Some(champion) => writeln!(out, "champion u{champion}"),
    }
}

/// A line `u3 beat u1` for each match, in order, and then `champion u3`, if there is one.
pub fn result_text(alloc: Global, tour: &Tour) -> Result<String, AllocError>
    ensures { IfOk result (λ t. string_bytes t ≡ result_text tour.now) }
{
    let mut out = String::new(alloc);
    push_wins(&mut out, tour.wins())?;
    push_champion(&mut out, tour.champion())?;
    Ok(out)
}
