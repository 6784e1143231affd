//! What no clause says, and no page shows: that the definitions mean the numbers of the effects that a dex file writes.
use crate::made;
use ps_dex::dex::Dex;
use ps_mon::effect::{Aim, CopyKind, Effect, ScreenKind, Stat};
use ps_mon::status::Status;
use std::alloc::Global;
use std::process::Abort;

const TWO_TYPES: &str =
    r#"{"types":[{"name":"Normal","special":false},{"name":"Ghost","special":true}]"#;

const ONE_MOVE: &str =
    r#","moves":[{"name":"Tackle","type":"normal","power":35,"accuracy":95,"pp":56,"priority":0"#;

/// Effects as a file writes them.
type Effects = &'static [(&'static str, Effect)];

const STRIKES: Effects = &[
    (r#"plain""#, Effect::Plain),
    (
        r#"fixed","amount":713,"chance":"any""#,
        Effect::Fixed { amount: 713 },
    ),
    (r#"level""#, Effect::Level),
    (r#"half""#, Effect::Half),
    (r#"psywave""#, Effect::Psywave),
    (r#"ohko""#, Effect::Ohko),
    (
        r#"status","status":"tox""#,
        Effect::Status {
            status: Status::Tox,
            chance: 256,
        },
    ),
    (r#"confuse""#, Effect::Confuse { chance: 256 }),
    (r#"flinch","chance":0"#, Effect::Flinch { chance: 0 }),
    (
        r#"boost","by":-6,"stat":"eva","who":"self""#,
        Effect::Boost {
            who: Aim::User,
            stat: Stat::Eva,
            by: -6,
            chance: 256,
        },
    ),
    (r#"drain""#, Effect::Drain),
    (r#"dreameater""#, Effect::DreamEater),
    (r#"recoil","by":255"#, Effect::Recoil { by: 255 }),
    (r#"crash""#, Effect::Crash),
    (r#"multi""#, Effect::Multi),
    (
        r#"double","chance":51,"status":"psn""#,
        Effect::Double {
            status: Status::Psn,
            chance: 51,
        },
    ),
];

const OTHERS: Effects = &[
    (r#"explode""#, Effect::Explode),
    (r#"charge","away":true"#, Effect::Charge { away: true }),
    (r#"recharge""#, Effect::Recharge),
    (r#"trap""#, Effect::Trap),
    (r#"thrash""#, Effect::Thrash),
    (r#"bide""#, Effect::Bide),
    (r#"rage""#, Effect::Rage),
    (r#"counter""#, Effect::Counter),
    (r#"substitute""#, Effect::Substitute),
    (r#"leechseed""#, Effect::LeechSeed),
    (
        r#"screen","which":"light""#,
        Effect::Screen {
            which: ScreenKind::Light,
        },
    ),
    (r#"mist""#, Effect::Mist),
    (r#"focus""#, Effect::Focus),
    (r#"haze""#, Effect::Haze),
    (r#"heal""#, Effect::Heal),
    (r#"rest""#, Effect::Rest),
];

const COPIES: Effects = &[
    (r#"nothing""#, Effect::Nothing),
    (r#"charge""#, Effect::Charge { away: false }),
    (
        r#"copy","sub":"mimic""#,
        Effect::Copy {
            sub: CopyKind::Mimic,
        },
    ),
    (
        r#"copy","sub":"mirrormove""#,
        Effect::Copy {
            sub: CopyKind::MirrorMove,
        },
    ),
];

/// The effect of the only move of a dex.
fn effect_in(dex: &Dex) -> Option<Effect> {
    match dex.moves() {
        [only] => Some(only.numbers.effect),
        _ => None,
    }
}

fn only_effect(alloc: Global, file: &str) -> Option<Effect> {
    match Dex::read(alloc, file.as_bytes()) {
        Err(_) => None,
        Ok(dex) => effect_in(&dex),
    }
}

/// The effect of the only move of the file that is this text between a front and an end.
fn effect_read(rt: &impl Abort, alloc: Global, front: &str, text: &str) -> Option<Effect> {
    let file = made::joined(rt, alloc, front, text, "}}]}");
    only_effect(alloc, file.as_str())
}

fn tell_effects(rt: &impl Abort, alloc: Global, front: &str, effects: Effects) {
    for (text, effect) in effects {
        assert_eq!(rt; effect_read(rt, alloc, front, text), Some(*effect));
    }
}

fn read_effects(rt: &impl Abort, alloc: Global, effects: Effects) {
    let front = made::joined(rt, alloc, TWO_TYPES, ONE_MOVE, r#","effect":{"kind":""#);
    tell_effects(rt, alloc, front.as_str(), effects);
}

#[test]
fn effects(rt: HostRuntime) {
    read_effects(&rt, rt.alloc(), STRIKES);
    read_effects(&rt, rt.alloc(), OTHERS);
    read_effects(&rt, rt.alloc(), COPIES);
}
