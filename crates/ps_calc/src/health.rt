//! Health as those see it who don't own the member.

ghost use Rattle.std.specs.Prelude.{◌≡◌, ◌<◌, ◌≤◌, ◌↔◌};
ghost use Rattle.ps_calc.specs.Health.{hundredths_of, pixels_of};

/// How many hundredths of its greatest health, `max`, a member has, rounded up, 0 to 100: 0 only where it has none, and 100
/// only at full health.
#[tactic(auto, unfolding(crate::specs::Health::hundredths_of))]
pub fn hundredths(hp: u16, max: u16) -> u8
    requires hp { hp ≤ max }
    requires low { 0 < max }
    ensures value { result ≡ hundredths_of hp max }
    ensures high { result ≤ 100 }
    ensures none { result ≡ 0 ↔ hp ≡ 0 }
    ensures full { result ≡ 100 ↔ hp ≡ max }
{
    if hp == 0 {
        return 0;
    }
    if hp == max {
        return 100;
    }
    let (part, whole) = (u32::from(hp), u32::from(max));
    ((100 * part + (whole - 1)) / whole).min(99) as u8
}

/// How many 48ths of its greatest health, `max`, a member has, 0 to 48: 0 only where it has none, else rounded down and at
/// least 1, so 48 only at full health.
#[tactic(auto, unfolding(crate::specs::Health::pixels_of), using(crate::proofs::Shares::share_within, crate::proofs::Shares::whole_share))]
pub fn pixels(hp: u16, max: u16) -> u8
    requires hp { hp ≤ max }
    requires low { 0 < max }
    ensures value { result ≡ pixels_of hp max }
    ensures high { result ≤ 48 }
    ensures none { result ≡ 0 ↔ hp ≡ 0 }
    ensures full { result ≡ 48 ↔ hp ≡ max }
{
    if hp == 0 {
        return 0;
    }
    let (part, whole) = (u32::from(hp), u32::from(max));
    (48 * part / whole).max(1) as u8
}
