//! A nonce and a seed that nobody foresees.
ghost use Rattle.std.specs.Prelude.{◌≡◌, IfOk, if◌then◌else◌};
ghost use Rattle.hex.specs.Hex.{encode_lower};
ghost use Rattle.rules_config.specs.Fresh.{with_fresh};

use crate::settings::Settings;
use ps_base::text::Text;
use std::alloc::{AllocError, Global};

/// What a start draws for a configuration whose file says no nonce or no seed.
#[derive(Clone, Copy)]
pub struct Fresh {
    /// The bytes whose lower hex is the nonce.
    pub nonce: [u8; 16],
    /// The seed.
    pub seed: u64,
}

// The nonce that a file gives, or else the fresh one.
fn nonce_or_fresh(
    alloc: Global,
    gives: bool,
    nonce: Text,
    fresh: &Fresh,
) -> Result<Text, AllocError>
    ensures { IfOk result (λ t. t ≡ (if gives then nonce else encode_lower fresh.now.nonce)) }
{
    if gives {
        return Ok(nonce);
    }
    let bytes = fresh.nonce;
    Ok(Text::from_string(hex::encode(alloc, bytes)?))
}

// The seed that a file gives, or else the fresh one.
fn seed_or_fresh(gives: bool, seed: u64, fresh: &Fresh) -> u64
    ensures { result ≡ (if gives then seed else fresh.now.seed) }
{
    if gives { seed } else { fresh.seed }
}

/// The same settings, with the fresh nonce and seed in the place of those that the file doesn't say.
pub(crate) fn with_fresh(
    alloc: Global,
    settings: Settings,
    fresh: &Fresh,
) -> Result<Settings, AllocError>
    ensures { IfOk result (λ s. s ≡ with_fresh fresh.now settings) }
{
    let Settings {
        groups,
        staff,
        rooms,
        users,
        formats,
        nonce,
        seed,
        seeds,
        gives_nonce,
        gives_seed,
    } = settings;
    let nonce = nonce_or_fresh(alloc, gives_nonce, nonce, fresh)?;
    let seed = seed_or_fresh(gives_seed, seed, fresh);
    Ok(Settings {
        groups,
        staff,
        rooms,
        users,
        formats,
        nonce,
        seed,
        seeds,
        gives_nonce,
        gives_seed,
    })
}
