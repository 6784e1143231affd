//! What a log-in signs, and how.
ghost use Rattle.std.specs.Prelude.{◌≡◌, ◌↔◌, ◌++◌, ◌∷◌, IfOk, length};
ghost use Rattle.std.specs.Str.{bytes_eq};
ghost use Rattle.std.specs.Option.{option_copied};
ghost use Rattle.sha2.specs.Sha256.{sha256};
ghost use Rattle.ps_users.specs.Assertions.{challstr_of, signed, assertion_of, wanted_by};

use crate::account::Account;
use ps_base::number::ConnNo;
use ps_base::text::Text;
use sha2::{Digest, Sha256};
use std::alloc::{AllocError, Global};

/// The challenge of a connection, `NONCE-N` with its number: the text of `|challstr|` of PROTOCOL.md.
pub fn challstr_of(alloc: Global, nonce: &Text, conn: ConnNo) -> Result<Text, AllocError>
    ensures { IfOk result (λ t. t ≡ challstr_of nonce.now conn) }
{
    Ok(Text::from_string(format!(in alloc; "{nonce}-{conn}")?))
}

fn digest_of(challenge: &str, secret: &str) -> [u8; 32]
    ensures { result ≡ sha256 (signed challenge.now secret.now) }
{
    let mut hasher = Sha256::new();
    hasher.update(challenge.as_bytes());
    hasher.update(b":");
    hasher.update(secret.as_bytes());
    hasher.finalize()
}

/// The assertion of a registered name: SHA-256 (FIPS 180-4) over the challenge, `:` and the secret, in
/// lower hex.
#[tactic(auto, unfolding(crate::specs::Assertions::assertion_of))]
pub fn assertion_of(alloc: Global, challenge: &str, secret: &str) -> Result<Text, AllocError>
    ensures { IfOk result (λ t. t ≡ assertion_of challenge.now secret.now) }
{
    let digest = digest_of(challenge, secret);
    let text = hex::encode(alloc, digest)?;
    Ok(Text::from_string(text))
}

// The bits in which two texts of one length differ anywhere.
fn differing(one: &[u8], other: &[u8]) -> u8
    requires { length one.now ≡ length other.now }
    ensures { (result ≡ 0) ↔ (one.now ≡ other.now) }
{
    let mut bits = 0;
    for (a, b) in one.iter().zip(other) {
        bits |= a ^ b;
    }
    bits
}

/// Whether an assertion is the one that is wanted. All bytes of one of the right length are read, wherever they differ, so
/// that the time of an answer doesn't tell how far a guess is right.
pub(crate) fn is_same(assertion: &str, wanted: &str) -> bool
    ensures { result ≡ bytes_eq assertion.now wanted.now }
{
    assertion.len() == wanted.len() && differing(assertion.as_bytes(), wanted.as_bytes()) == 0
}

/// The assertion that a name takes on a connection: the empty one, where it isn't registered.
pub fn wanted_by(
    alloc: Global,
    nonce: &Text,
    conn: ConnNo,
    account: Option<&Account>,
) -> Result<Text, AllocError>
    ensures { IfOk result (λ t. t ≡ wanted_by nonce.now conn (option_copied account.entry)) }
{
    match account {
        None => Ok(Text::new(alloc)),
        Some(account) => {
            let challenge = challstr_of(alloc, nonce, conn)?;
            assertion_of(alloc, challenge.as_str(), account.secret.as_str())
        }
    }
}
