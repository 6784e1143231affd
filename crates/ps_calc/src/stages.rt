//! What a stage makes of a number.

ghost use Rattle.std.specs.Prelude.{◌≡◌, ◌≤◌, ◌*◌, pos, negsuc, ◌≤ℤ◌};
ghost use Rattle.ps_calc.specs.Stages.{at_stage, hundredths_at, staged_of};

#[tactic(auto, unfolding(crate::specs::Stages::hundredths_at))]
fn stage_hundredths(stage: i8) -> u16
    requires low { negsuc 5 ≤ℤ stage }
    requires high { stage ≤ℤ pos 6 }
    ensures value { result ≡ hundredths_at stage }
    ensures high { result ≤ 400 }
{
    match stage {
        -6 => 25,
        -5 => 28,
        -4 => 33,
        -3 => 40,
        -2 => 50,
        -1 => 66,
        _ => 100 + 50 * stage as u16,
    }
}

/// A number at a stage, -6 to 6, rounded down.
#[tactic(auto, unfolding(crate::specs::Stages::at_stage))]
pub(crate) fn by_stage(number: u16, stage: i8) -> u32
    requires low { negsuc 5 ≤ℤ stage }
    requires high { stage ≤ℤ pos 6 }
    ensures value { result ≡ at_stage number stage }
    ensures high { result ≤ 4 * number }
{
    u32::from(number) * u32::from(stage_hundredths(stage)) / 100
}

/// A stat at a stage, -6 to 6: so many hundredths of it, rounded down, and 1 to 999.
#[tactic(auto, unfolding(crate::specs::Stages::staged_of))]
pub fn staged(stat: u16, stage: i8) -> u16
    requires low { negsuc 5 ≤ℤ stage }
    requires high { stage ≤ℤ pos 6 }
    ensures value { result ≡ staged_of stat stage }
    ensures low { 1 ≤ result }
    ensures high { result ≤ 999 }
{
    by_stage(stat, stage).clamp(1, 999) as u16
}
