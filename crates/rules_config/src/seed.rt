//! The seeds of battles.
ghost use Rattle.std.specs.Prelude.{◌≡◌, ◌++◌, ◌∷◌, decimal, slice_get};
ghost use Rattle.sha2.specs.Sha256.{sha256};
ghost use Rattle.rules_config.specs.Seeds.{number_at_front, signed_text, drawn, listed, seed_of};

use crate::config::Config;
use itoa::Buffer;
use sha2::{Digest, Sha256};

/// The number that the first eight bytes of a digest spell, the big end first.
#[tactic(auto, unfolding(crate::specs::Seeds::number_at_front))]
fn number_at_front(digest: [u8; 32]) -> u64
    ensures { result ≡ number_at_front digest }
{
    u64::from_be_bytes([
        digest[0], digest[1], digest[2], digest[3], digest[4], digest[5], digest[6], digest[7],
    ])
}

/// The digest of the seed, `:` and the number of the battle, both in decimal.
fn digest_of(seed: u64, number: u32) -> [u8; 32]
    ensures { result ≡ sha256 (signed_text seed number) }
{
    let mut seed_digits = Buffer::new();
    let mut number_digits = Buffer::new();
    let mut hasher = Sha256::new();
    hasher.update(seed_digits.format(seed).as_bytes());
    hasher.update(b":");
    hasher.update(number_digits.format(number).as_bytes());
    hasher.finalize()
}

#[tactic(auto, unfolding(crate::specs::Seeds::drawn))]
fn drawn(seed: u64, number: u32) -> u64
    ensures { result ≡ drawn seed number }
{
    number_at_front(digest_of(seed, number))
}

/// The seed that the list has for a battle, which counts from 1.
fn listed(seeds: &[u64], number: u32) -> Option<u64>
    ensures { result ≡ listed seeds.now number }
{
    if number == 0 {
        return None;
    }
    seeds.get(number as usize - 1).copied()
}

/// The seed of a battle by its number, which counts from 1: that of the configuration's list of
/// seeds where the list is long enough. Otherwise it is the first eight bytes, big end first, of
/// SHA-256 (FIPS 180-4) over the decimal of the configuration's seed, `:` and the decimal of the
/// number; so also for the number 0, which no battle has. Takes no memory.
#[tactic(auto, unfolding(crate::specs::Seeds::seed_of))]
pub fn seed_of(config: &Config, number: u32) -> u64
    ensures { result ≡ seed_of config.now number }
{
    match listed(config.seeds(), number) {
        Some(seed) => seed,
        None => drawn(config.seed(), number),
    }
}
