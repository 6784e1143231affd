//! Reads what a move does.
ghost use Rattle.std.specs.Prelude.{◌≡◌, ◌≤◌, ◌≤ℤ◌, codes, IfOk};
ghost use Rattle.serde_json.specs.View.{view};
ghost use Rattle.ps_data.specs.Reading.{Gives, required, optional};
ghost use Rattle.ps_data.specs.Words.{word_in};
ghost use Rattle.ps_mon.specs.declared.effect.Effect.TheVariants as effects;
ghost use Rattle.ps_dex.specs.Kinds.{kind_words};
ghost use Rattle.ps_dex.specs.Effects.{status_words, aim_words, stat_words, screen_words, copy_words, chance_in, fixed_in};
ghost use Rattle.ps_dex.specs.Effects.{status_effect_in, confuse_in, flinch_in, stages_in, boost_in, recoil_in, double_in, charge_in};
ghost use Rattle.ps_dex.specs.Effects.{screen_in, copy_in, effect_of, effect_in};

use crate::kind::{KINDS, Kind};
use ps_data::fault::{DataKind, Refusal};
use ps_data::forms::{ensure, integer, object};
use ps_data::keys::{at_key, boolean_or, number_at, number_or, required};
use ps_data::words::word_at;
use ps_mon::effect::{Aim, CopyKind, Effect, ScreenKind, Stat};
use ps_mon::status::Status;
use serde_json::Value;
use std::alloc::Global;

const STATUSES: &[(&str, Status)] = &[
    ("slp", Status::Slp),
    ("par", Status::Par),
    ("brn", Status::Brn),
    ("psn", Status::Psn),
    ("tox", Status::Tox),
    ("frz", Status::Frz),
];

const AIMS: &[(&str, Aim)] = &[("self", Aim::User), ("foe", Aim::Foe)];

const STATS: &[(&str, Stat)] = &[
    ("atk", Stat::Atk),
    ("def", Stat::Def),
    ("spc", Stat::Spc),
    ("spe", Stat::Spe),
    ("acc", Stat::Acc),
    ("eva", Stat::Eva),
];

const SCREENS: &[(&str, ScreenKind)] = &[
    ("reflect", ScreenKind::Reflect),
    ("light", ScreenKind::Light),
];

const COPIES: &[(&str, CopyKind)] = &[
    ("mimic", CopyKind::Mimic),
    ("transform", CopyKind::Transform),
    ("metronome", CopyKind::Metronome),
    ("mirrormove", CopyKind::MirrorMove),
    ("conversion", CopyKind::Conversion),
    ("disable", CopyKind::Disable),
];

#[tactic(auto, unfolding(crate::specs::Effects::status_words))]
fn status_at(alloc: Global, value: &Value) -> Result<Status, Refusal>
    ensures { Gives result (required (codes "status") (word_in status_words) (view value.now)) }
{
    word_at(alloc, value, "status", STATUSES)
}

#[tactic(auto, unfolding(crate::specs::Effects::aim_words))]
fn who_at(alloc: Global, value: &Value) -> Result<Aim, Refusal>
    ensures { Gives result (required (codes "who") (word_in aim_words) (view value.now)) }
{
    word_at(alloc, value, "who", AIMS)
}

#[tactic(auto, unfolding(crate::specs::Effects::stat_words))]
fn stat_at(alloc: Global, value: &Value) -> Result<Stat, Refusal>
    ensures { Gives result (required (codes "stat") (word_in stat_words) (view value.now)) }
{
    word_at(alloc, value, "stat", STATS)
}

#[tactic(auto, unfolding(crate::specs::Effects::screen_words))]
fn which_at(alloc: Global, value: &Value) -> Result<ScreenKind, Refusal>
    ensures { Gives result (required (codes "which") (word_in screen_words) (view value.now)) }
{
    word_at(alloc, value, "which", SCREENS)
}

#[tactic(auto, unfolding(crate::specs::Effects::copy_words))]
fn sub_at(alloc: Global, value: &Value) -> Result<CopyKind, Refusal>
    ensures { Gives result (required (codes "sub") (word_in copy_words) (view value.now)) }
{
    word_at(alloc, value, "sub", COPIES)
}

#[tactic(auto, unfolding(crate::specs::Kinds::kind_words))]
fn kind_at(alloc: Global, value: &Value) -> Result<Kind, Refusal>
    ensures { Gives result (required (codes "kind") (word_in kind_words) (view value.now)) }
{
    word_at(alloc, value, "kind", KINDS)
}

/// A chance out of 256, and 256 where the key is missing.
fn chance_or_always(alloc: Global, value: &Value) -> Result<u16, Refusal>
    ensures { Gives result (chance_in (view value.now)) }
{
    let chance = number_or(alloc, value, "chance", 0, 256, 256)?;
    Ok(chance as u16)
}

#[tactic(auto, unfolding(crate::specs::Effects::fixed_in))]
fn fixed(alloc: Global, value: &Value) -> Result<Effect, Refusal>
    ensures { Gives result (fixed_in (view value.now)) }
{
    let amount = number_at(alloc, value, "amount", 1, 713)?;
    Ok(Effect::Fixed {
        amount: amount as u16,
    })
}

#[tactic(auto, unfolding(crate::specs::Effects::status_effect_in))]
fn status_effect(alloc: Global, value: &Value) -> Result<Effect, Refusal>
    ensures { Gives result (status_effect_in (view value.now)) }
{
    let status = status_at(alloc, value)?;
    let chance = chance_or_always(alloc, value)?;
    Ok(Effect::Status { status, chance })
}

#[tactic(auto, unfolding(crate::specs::Effects::confuse_in))]
fn confuse(alloc: Global, value: &Value) -> Result<Effect, Refusal>
    ensures { Gives result (confuse_in (view value.now)) }
{
    let chance = chance_or_always(alloc, value)?;
    Ok(Effect::Confuse { chance })
}

#[tactic(auto, unfolding(crate::specs::Effects::flinch_in))]
fn flinch(alloc: Global, value: &Value) -> Result<Effect, Refusal>
    ensures { Gives result (flinch_in (view value.now)) }
{
    let chance = chance_or_always(alloc, value)?;
    Ok(Effect::Flinch { chance })
}

/// Stages to change by: -6 to 6, and not 0.
#[tactic(auto, unfolding(crate::specs::Effects::stages_in))]
fn stages(alloc: Global, value: &Value) -> Result<i8, Refusal>
    ensures { Gives result (stages_in (view value.now)) }
{
    let by = integer(alloc, value, -6, 6)?;
    ensure(alloc, !(0 <= by && by <= 0), DataKind::Range)?;
    Ok(by as i8)
}

#[tactic(auto, unfolding(crate::specs::Effects::boost_in))]
fn boost(alloc: Global, value: &Value) -> Result<Effect, Refusal>
    ensures { Gives result (boost_in (view value.now)) }
{
    let who = who_at(alloc, value)?;
    let stat = stat_at(alloc, value)?;
    let by = at_key(alloc, "by", stages(alloc, required(alloc, value, "by")?))?;
    let chance = chance_or_always(alloc, value)?;
    Ok(Effect::Boost {
        who,
        stat,
        by,
        chance,
    })
}

#[tactic(auto, unfolding(crate::specs::Effects::recoil_in))]
fn recoil(alloc: Global, value: &Value) -> Result<Effect, Refusal>
    ensures { Gives result (recoil_in (view value.now)) }
{
    let by = number_at(alloc, value, "by", 1, 255)?;
    Ok(Effect::Recoil { by: by as u8 })
}

#[tactic(auto, unfolding(crate::specs::Effects::double_in))]
fn double(alloc: Global, value: &Value) -> Result<Effect, Refusal>
    ensures { Gives result (double_in (view value.now)) }
{
    let status = status_at(alloc, value)?;
    let chance = chance_or_always(alloc, value)?;
    Ok(Effect::Double { status, chance })
}

#[tactic(auto, unfolding(crate::specs::Effects::charge_in))]
fn charge(alloc: Global, value: &Value) -> Result<Effect, Refusal>
    ensures { Gives result (charge_in (view value.now)) }
{
    let away = boolean_or(alloc, value, "away", false)?;
    Ok(Effect::Charge { away })
}

#[tactic(auto, unfolding(crate::specs::Effects::screen_in))]
fn screen(alloc: Global, value: &Value) -> Result<Effect, Refusal>
    ensures { Gives result (screen_in (view value.now)) }
{
    let which = which_at(alloc, value)?;
    Ok(Effect::Screen { which })
}

#[tactic(auto, unfolding(crate::specs::Effects::copy_in))]
fn copy(alloc: Global, value: &Value) -> Result<Effect, Refusal>
    ensures { Gives result (copy_in (view value.now)) }
{
    let sub = sub_at(alloc, value)?;
    Ok(Effect::Copy { sub })
}

/// The fields of a kind.
fn effect_of(alloc: Global, kind: Kind, value: &Value) -> Result<Effect, Refusal>
    ensures { Gives result (effect_of kind (view value.now)) }
{
    match kind {
        Kind::Plain => Ok(Effect::Plain),
        Kind::Fixed => fixed(alloc, value),
        Kind::Level => Ok(Effect::Level),
        Kind::Half => Ok(Effect::Half),
        Kind::Psywave => Ok(Effect::Psywave),
        Kind::Ohko => Ok(Effect::Ohko),
        Kind::Status => status_effect(alloc, value),
        Kind::Confuse => confuse(alloc, value),
        Kind::Flinch => flinch(alloc, value),
        Kind::Boost => boost(alloc, value),
        Kind::Drain => Ok(Effect::Drain),
        Kind::DreamEater => Ok(Effect::DreamEater),
        Kind::Recoil => recoil(alloc, value),
        Kind::Crash => Ok(Effect::Crash),
        Kind::Multi => Ok(Effect::Multi),
        Kind::Double => double(alloc, value),
        Kind::Explode => Ok(Effect::Explode),
        Kind::Charge => charge(alloc, value),
        Kind::Recharge => Ok(Effect::Recharge),
        Kind::Trap => Ok(Effect::Trap),
        Kind::Thrash => Ok(Effect::Thrash),
        Kind::Bide => Ok(Effect::Bide),
        Kind::Rage => Ok(Effect::Rage),
        Kind::Counter => Ok(Effect::Counter),
        Kind::Substitute => Ok(Effect::Substitute),
        Kind::LeechSeed => Ok(Effect::LeechSeed),
        Kind::Screen => screen(alloc, value),
        Kind::Mist => Ok(Effect::Mist),
        Kind::Focus => Ok(Effect::Focus),
        Kind::Haze => Ok(Effect::Haze),
        Kind::Heal => Ok(Effect::Heal),
        Kind::Rest => Ok(Effect::Rest),
        Kind::Copy => copy(alloc, value),
        Kind::Nothing => Ok(Effect::Nothing),
    }
}

#[tactic(auto, unfolding(crate::specs::Effects::effect_in))]
fn effect(alloc: Global, value: &Value) -> Result<Effect, Refusal>
    ensures { Gives result (effect_in (view value.now)) }
{
    object(alloc, value)?;
    let kind = kind_at(alloc, value)?;
    effect_of(alloc, kind, value)
}

/// What a move does, at `effect` of its object: a strike where the key is missing.
pub(crate) fn effect_or_plain(alloc: Global, value: &Value) -> Result<Effect, Refusal>
    ensures { Gives result (optional (codes "effect") effects.Plain effect_in (view value.now)) }
{
    match value.get("effect") {
        None => Ok(Effect::Plain),
        Some(inside) => at_key(alloc, "effect", effect(alloc, inside)),
    }
}
