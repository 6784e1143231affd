//! The length and the digest of a text that comes in pieces.
ghost use Rattle.std.specs.Prelude.{◌≡◌, ◌++◌, ℕ, [], length, List};
ghost use Rattle.sha2.specs.Sha256.{sha256};
ghost use Rattle.replay_drill.specs.Messages.{counted};

use sha2::{Digest, Sha256};

/// What a drill tells of a text that comes in pieces: its bytes and its digest.
#[derive(Drop)]
pub struct Tally {
    hasher: Sha256,
    bytes: u64,
}

impl Tally {
    ghost use Rattle.replay_drill.specs.Tallies.{Tallies};

    /// The tally of the empty text.
    pub fn new() -> Tally
        ensures { Tallies result [] }
    {
        Tally {
            hasher: Sha256::new(),
            bytes: 0,
        }
    }

    /// Takes one piece more. Takes no memory.
    pub fn take(&mut self, piece: &[u8])
        ensures { (text : List ℕ) → Tallies self.old text → Tallies self.new (text ++ piece.now) }
    {
        self.hasher.update(piece);
        self.bytes = self.bytes.saturating_add(piece.len() as u64);
    }

    /// How many bytes came. The count stands still at the last value of a `u64`.
    pub fn bytes(&self) -> u64
        ensures { (text : List ℕ) → Tallies self.now text → result ≡ counted (length text) }
    {
        self.bytes
    }

    /// The SHA-256 (FIPS 180-4) of all that came.
    pub fn digest(self) -> [u8; 32]
        ensures { (text : List ℕ) → Tallies self text → result ≡ sha256 text }
    {
        self.hasher.finalize()
    }
}
