//! The damage of a hit.

ghost use Rattle.std.specs.Prelude.{◌≡◌, ◌≤◌, slice_index};
ghost use Rattle.ps_calc.specs.Damage.{are_wide, base, damage_of, level_of, rolled, scaled, typed};

/// A hit's numbers.
#[derive(Clone, Copy, Debug, PartialEq, Eq)]
pub struct Hit {
    /// The user's level, 1 to 100.
    pub level: u8,
    /// The move's power.
    pub power: u8,
    /// The user's stat, 1 to 1998.
    pub attack: u16,
    /// The target's stat, 1 to 1998.
    pub defence: u16,
    /// Whether the hit is critical, which doubles the level.
    pub crit: bool,
    /// Whether the move's type is one of the user's.
    pub stab: bool,
    /// What the move's type does to each of the target's two types, in tenths: 5, 10 or 20, and 10 in the second place for
    /// a target of one type.
    pub factors: [u8; 2],
    /// The roll, 217 to 255 parts of 255.
    pub roll: u8,
}

#[tactic(auto, unfolding(crate::specs::Damage::are_wide))]
fn is_wide(hit: &Hit) -> bool
    ensures value { result ≡ are_wide hit.now }
{
    hit.attack > 255 || hit.defence > 255
}

#[tactic(auto, unfolding(crate::specs::Damage::level_of))]
fn level(hit: &Hit) -> u16
    requires level { hit.now.level ≤ 100 }
    ensures value { result ≡ level_of hit.now }
    ensures high { result ≤ 200 }
{
    if hit.crit {
        2 * u16::from(hit.level)
    } else {
        u16::from(hit.level)
    }
}

#[tactic(auto, unfolding(crate::specs::Damage::scaled))]
fn scale(wide: bool, stat: u16) -> u16
    requires { 1 ≤ stat }
    ensures value { result ≡ scaled wide stat }
    ensures low { 1 ≤ result }
    ensures high { result ≤ stat }
{
    if wide { (stat / 4).max(1) } else { stat }
}

#[tactic(auto, unfolding(crate::specs::Damage::base))]
fn base_damage(level: u16, power: u8, attack: u16, defence: u16) -> u16
    requires level { level ≤ 200 }
    requires attack { attack ≤ 1998 }
    requires defence { 1 ≤ defence }
    ensures value { result ≡ base level power attack defence }
    ensures high { result ≤ 999 }
{
    let factor = u32::from(2 * level / 5 + 2) * u32::from(power) * u32::from(attack);
    (factor / u32::from(defence) / 50).min(997) as u16 + 2
}

#[tactic(auto, unfolding(crate::specs::Damage::typed, crate::specs::Damage::with_stab, crate::specs::Damage::with_factor))]
fn type_damage(hit: &Hit, d: u16) -> u16
    requires first { slice_index hit.now.factors 0 ≤ 20 }
    requires second { slice_index hit.now.factors 1 ≤ 20 }
    requires high { d ≤ 999 }
    ensures value { result ≡ typed hit.now d }
    ensures low { 1 ≤ result }
    ensures high { result ≤ 5992 }
{
    let bonus = if hit.stab { d + d / 2 } else { d };
    let first = bonus * u16::from(hit.factors[0]) / 10;
    (first * u16::from(hit.factors[1]) / 10).max(1)
}

#[tactic(auto, unfolding(crate::specs::Damage::rolled))]
fn roll_damage(roll: u8, d: u16) -> u16
    ensures value { result ≡ rolled roll d }
    ensures high { result ≤ d }
    ensures low { 1 ≤ d → 217 ≤ roll → 1 ≤ result }
{
    if d > 1 {
        (u32::from(d) * u32::from(roll) / 255) as u16
    } else {
        d
    }
}

/// The damage of a hit, 1 to 5992.
#[tactic(auto, unfolding(crate::specs::Damage::damage_of, crate::specs::Damage::base_of))]
pub fn damage(hit: &Hit) -> u16
    requires level { hit.now.level ≤ 100 }
    requires attack_low { 1 ≤ hit.now.attack }
    requires attack_high { hit.now.attack ≤ 1998 }
    requires defence { 1 ≤ hit.now.defence }
    requires first { slice_index hit.now.factors 0 ≤ 20 }
    requires second { slice_index hit.now.factors 1 ≤ 20 }
    requires roll { 217 ≤ hit.now.roll }
    ensures value { result ≡ damage_of hit.now }
    ensures low { 1 ≤ result }
    ensures high { result ≤ 5992 }
{
    let wide = is_wide(hit);
    let (attack, defence) = (scale(wide, hit.attack), scale(wide, hit.defence));
    let base = base_damage(level(hit), hit.power, attack, defence);
    roll_damage(hit.roll, type_damage(hit, base))
}
