//! The steps of a drill.
ghost use Rattle.std.specs.Prelude.{◌≡◌, ◌++◌, ◌+◌, OnOk, string_bytes};
ghost use Rattle.replay_drill.specs.Lines.{time_line};
ghost use Rattle.ps_base.specs.Lists.{each_to};
ghost use Rattle.replay_drill.specs.Draws.{conn_drawn, drawn_line, after_step};
ghost use Rattle.replay_drill.specs.Drills.{step_lines};
ghost use Rattle.replay_drill.specs.Fights.{fight_choices};
ghost use Rattle.ps_calc.specs.Draws.{after};

use crate::fight::{Fight, push_choices};
use crate::lines::{push_note, push_talk, push_time, push_whisper};
use ps_calc::draws::Rng5;
use std::alloc::AllocError;

/// One of the eight connections.
fn draw_conn(rng: &mut Rng5) -> u32
    ensures state { rng.new.x ≡ after rng.old.x }
    ensures value { result ≡ conn_drawn rng.old.x }
{
    1 + rng.draw(8)
}

/// Draws who speaks, and whether it is talk, a whisper, for which it draws to whom, or a note.
#[tactic(auto, unfolding(crate::specs::Draws::drawn_line, crate::specs::Draws::after_step))]
fn push_drawn(script: &mut String, rng: &mut Rng5, k: u32) -> Result<(), AllocError>
    ensures text { OnOk result (string_bytes script.new ≡ string_bytes script.old ++ drawn_line k rng.old.x) }
    ensures state { OnOk result (rng.new.x ≡ after_step rng.old.x) }
{
    let conn = draw_conn(rng);
    match rng.draw(3) {
        0 => push_talk(script, conn, k),
        1 => {
            let to = draw_conn(rng);
            push_whisper(script, conn, to, k)
        }
        _ => push_note(script, conn, k),
    }
}

fn push_step(
    script: &mut String,
    rng: &mut Rng5,
    fight: &Option<Fight>,
    k: u32,
) -> Result<(), AllocError>
    ensures text { OnOk result (string_bytes script.new ≡ string_bytes script.old ++ time_line k ++ drawn_line k rng.old.x
        ++ fight_choices fight.now) }
    ensures state { OnOk result (rng.new.x ≡ after_step rng.old.x) }
{
    push_time(script, k)?;
    push_drawn(script, rng, k)?;
    push_choices(script, fight)
}

/// Steps from 1 to `steps`, whose draws begin with that number.
pub(crate) fn push_steps(
    script: &mut String,
    fight: &Option<Fight>,
    steps: u32,
) -> Result<(), AllocError>
    ensures { OnOk result (string_bytes script.new ≡ string_bytes script.old ++ each_to (step_lines fight.now steps) steps) }
{
    let mut rng = Rng5 {
        x: u64::from(steps),
    };
    for i in 0..steps {
        push_step(script, &mut rng, fight, i + 1)?;
    }
    Ok(())
}
