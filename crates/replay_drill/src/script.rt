//! The script of a drill.
ghost use Rattle.std.specs.Prelude.{◌≡◌, IfOk, string_bytes};
ghost use Rattle.replay_drill.specs.Drills.{drill_text};

use crate::fight::{Fight, push_start};
use crate::lines::push_head;
use crate::step::push_steps;
use ps_dex::dex::Dex;
use rules_config::config::Config;
use std::alloc::{AllocError, Global};

/// The script of a drill of so many steps, for a replay under the same configuration and dex.
///
/// Eight users come, name themselves `u1` to `u8` and join the lobby; `u1` has the group `%`, where there is one. Where there
/// is a format and a species, `u7` and `u8` begin a battle under the first format, each with one Pokemon of the first species.
/// Each step then draws one line: talk in the lobby, a whisper or a note for the staff; and both sides of the battle let it
/// choose for them. The same number of steps always draws the same, and draws begin with that number, so a longer drill isn't
/// a shorter one with more behind it. Fails only where an allocation does.
#[tactic(auto, unfolding(crate::specs::Drills::drill_text))]
pub fn drill_script(
    alloc: Global,
    steps: u32,
    config: &Config,
    dex: &Dex,
) -> Result<String, AllocError>
    ensures { IfOk result (λ s. string_bytes s ≡ drill_text config.now dex.now steps) }
{
    let fight = Fight::of(alloc, config, dex)?;
    let mut script = String::new(alloc);
    push_head(&mut script, config.groups())?;
    push_start(&mut script, &fight)?;
    push_steps(&mut script, &fight, steps)?;
    Ok(script)
}
