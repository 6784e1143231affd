//! A member's numbers, as the first generation of the games makes them of species, IVs, EVs and level.

ghost use Rattle.std.specs.Prelude.{◌≡◌, ◌≤◌, ◌+◌};
ghost use Rattle.ps_calc.specs.Stats.{dv_of, grown, hp_dv_of, hp_stat_of, stat_of};

/// The DV, 0 to 15, that an IV, 0 to 31, stands for: half of it, rounded down.
#[tactic(auto, unfolding(crate::specs::Stats::dv_of))]
pub fn dv(iv: u8) -> u8
    requires iv { iv ≤ 31 }
    ensures value { result ≡ dv_of iv }
    ensures high { result ≤ 15 }
{
    iv / 2
}

/// The DV of HP, 0 to 15, from the DVs, 0 to 15, of Attack, Defense, Speed and Special, in this order: the last bit of
/// each, the first the highest.
#[tactic(auto, unfolding(crate::specs::Stats::hp_dv_of, crate::specs::Stats::odd))]
pub fn hp_dv(dvs: [u8; 4]) -> u8
    ensures value { result ≡ hp_dv_of dvs }
    ensures high { result ≤ 15 }
{
    8 * (dvs[0] % 2) + 4 * (dvs[1] % 2) + 2 * (dvs[2] % 2) + dvs[3] % 2
}

/// The part that HP and the other stats share.
#[tactic(auto, unfolding(crate::specs::Stats::grown))]
fn grow(base: u8, dv: u8, ev: u8, level: u8) -> u16
    requires dv { dv ≤ 15 }
    requires level { level ≤ 100 }
    ensures value { result ≡ grown base dv ev level }
    ensures high { result ≤ 603 }
{
    let sum = 2 * (u32::from(base) + u32::from(dv)) + u32::from(ev / 4);
    (sum * u32::from(level) / 100) as u16
}

/// Attack, Defense, Special or Speed, 5 to 608, of a species' base number, a DV, 0 to 15, an EV and a level, 1 to 100.
#[tactic(auto, unfolding(crate::specs::Stats::stat_of))]
pub fn stat(base: u8, dv: u8, ev: u8, level: u8) -> u16
    requires dv { dv ≤ 15 }
    requires level { level ≤ 100 }
    ensures value { result ≡ stat_of base dv ev level }
    ensures low { 5 ≤ result }
    ensures high { result ≤ 608 }
{
    grow(base, dv, ev, level) + 5
}

/// The greatest health, at most 713, of a species' base HP, the DV of HP, 0 to 15, an EV and a level, 1 to 100.
#[tactic(auto, unfolding(crate::specs::Stats::hp_stat_of))]
pub fn hp_stat(base: u8, dv: u8, ev: u8, level: u8) -> u16
    requires dv { dv ≤ 15 }
    requires level { level ≤ 100 }
    ensures value { result ≡ hp_stat_of base dv ev level }
    ensures low { level + 10 ≤ result }
    ensures high { result ≤ 713 }
{
    grow(base, dv, ev, level) + u16::from(level) + 10
}
