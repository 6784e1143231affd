//! The numbers that events write out: places, from 0, in the lists of what they name.

// What a loss of health is from.
/// Nothing named.
pub const FROM_NOTHING: u8 = 0;
/// Poison.
pub const FROM_PSN: u8 = 1;
/// A burn.
pub const FROM_BRN: u8 = 2;
/// Leech Seed.
pub const FROM_LEECH_SEED: u8 = 3;
/// Recoil.
pub const FROM_RECOIL: u8 = 4;
/// Confusion.
pub const FROM_CONFUSION: u8 = 5;
/// A crash.
pub const FROM_CRASH: u8 = 6;

// What starts, ends or does something; the last stands for the name of the event's move.
/// Confusion.
pub const EFFECT_CONFUSION: u8 = 0;
/// A substitute.
pub const EFFECT_SUBSTITUTE: u8 = 1;
/// Leech Seed.
pub const EFFECT_LEECH_SEED: u8 = 2;
/// Reflect.
pub const EFFECT_REFLECT: u8 = 3;
/// Light Screen.
pub const EFFECT_LIGHT_SCREEN: u8 = 4;
/// Mist.
pub const EFFECT_MIST: u8 = 5;
/// Focus Energy.
pub const EFFECT_FOCUS_ENERGY: u8 = 6;
/// Mimic.
pub const EFFECT_MIMIC: u8 = 7;
/// Disable.
pub const EFFECT_DISABLE: u8 = 8;
/// A change of types.
pub const EFFECT_TYPECHANGE: u8 = 9;
/// Bide.
pub const EFFECT_BIDE: u8 = 10;
/// The name of the event's move.
pub const EFFECT_MOVE: u8 = 11;

// Why a member can't act.
/// Sleep.
pub const REASON_SLP: u8 = 0;
/// Ice.
pub const REASON_FRZ: u8 = 1;
/// A trap of the foe.
pub const REASON_PARTIALLY_TRAPPED: u8 = 2;
/// Flinching.
pub const REASON_FLINCH: u8 = 3;
/// Recharging.
pub const REASON_RECHARGE: u8 = 4;
/// Disable.
pub const REASON_DISABLE: u8 = 5;
/// Paralysis.
pub const REASON_PAR: u8 = 6;

// What has stages.
/// Attack.
pub const STAT_ATK: u8 = 0;
/// Defense.
pub const STAT_DEF: u8 = 1;
/// Special.
pub const STAT_SPC: u8 = 2;
/// Speed.
pub const STAT_SPE: u8 = 3;
/// Accuracy.
pub const STAT_ACC: u8 = 4;
/// Evasion.
pub const STAT_EVA: u8 = 5;
