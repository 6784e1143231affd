//! How likely a move lands and a hit is critical. A byte is a chance of so many 256ths.

ghost use Rattle.std.specs.Prelude.{◌≡◌, ◌≤◌, pos, negsuc, ◌≤ℤ◌};
ghost use Rattle.ps_calc.specs.Chances.{accuracy_byte_of, crit_byte_of};

use crate::stages::by_stage;

/// Of 256, 1 to 255, how likely a move lands, of its accuracy, 1 to 100 percent, the user's accuracy stage and the target's
/// evasion stage, each -6 to 6.
#[tactic(auto, unfolding(crate::specs::Chances::accuracy_byte_of, crate::specs::Chances::byte_of_percent))]
pub fn accuracy_byte(percent: u8, acc: i8, eva: i8) -> u8
    requires acc_low { negsuc 5 ≤ℤ acc }
    requires acc_high { acc ≤ℤ pos 6 }
    requires eva_low { negsuc 5 ≤ℤ eva }
    requires eva_high { eva ≤ℤ pos 6 }
    ensures value { result ≡ accuracy_byte_of percent acc eva }
    ensures low { 1 ≤ result }
{
    let byte = u16::from(percent) * 255 / 100;
    let own = by_stage(byte, acc) as u16;
    by_stage(own, -eva).clamp(1, 255) as u8
}

/// Of 256, how likely a hit is critical, of the user's base Speed, of whether the move is one that often is, and of whether
/// Focus Energy is on the user, which makes it rarer.
#[tactic(auto, unfolding(crate::specs::Chances::crit_byte_of))]
pub fn crit_byte(base_speed: u8, high: bool, focus: bool) -> u8
    ensures value { result ≡ crit_byte_of base_speed high focus }
{
    let half = u16::from(base_speed / 2);
    let first = if high { 8 * half } else { half };
    let second = if focus { first / 4 } else { first };
    second.min(255) as u8
}
