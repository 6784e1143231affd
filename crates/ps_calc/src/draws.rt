//! The random source of a battle.

ghost use Rattle.std.specs.Prelude.{◌≡◌, ◌<◌, ◌/◌, ◌^◌, ◌↔◌, IsTrue};
ghost use Rattle.ps_calc.specs.Draws.{after, drawn, next_of};
ghost use Rattle.rand_core.specs.Steps.{stream_of, steps_u32};

use rand_core::utils::NextWord;
use rand_core::{Rng, utils};

/// A linear congruential source of 64 bits, as the fifth generation of the games has one. It tells the upper half of its
/// state.
#[derive(Clone, Copy, Debug, PartialEq, Eq)]
pub struct Rng5 {
    /// The state. It steps at each draw, and any number of 64 bits may begin it.
    pub x: u64,
}

impl Rng5 {
    /// One step, and the upper half of the state after it.
    #[tactic(auto, unfolding(crate::specs::Draws::after))]
    fn step(&mut self) -> u32
        ensures state { self.new.x ≡ after self.old.x }
        ensures value { result ≡ after self.old.x / 2 ^ 32 }
    {
        self.x = self
            .x
            .wrapping_mul(0x5D58_8B65_6C07_8965)
            .wrapping_add(0x26_9EC3);
        (self.x >> 32) as u32
    }

    /// A number below `n`, which is 1 or more, after one step.
    #[tactic(auto, unfolding(crate::specs::Draws::drawn))]
    pub fn draw(&mut self, n: u32) -> u32
        requires { 0 < n }
        ensures state { self.new.x ≡ after self.old.x }
        ensures value { result ≡ drawn (after self.old.x) n }
        ensures below { result < n }
    {
        let upper = u64::from(self.step());
        (upper * u64::from(n) >> 32) as u32
    }

    /// Whether a draw below 256 is below `a`: in `a` of 256 cases, and always where `a` is 256 or more. It steps once in
    /// any case.
    pub fn chance(&mut self, a: u16) -> bool
        ensures state { self.new.x ≡ after self.old.x }
        ensures value { IsTrue result ↔ (drawn (after self.old.x) 256 < a) }
    {
        self.draw(256) < u32::from(a)
    }
}

impl NextWord<u32> for Rng5 {
    ghost step = { next_of };

    #[tactic(auto, unfolding(crate::specs::Draws::next_of))]
    fn next_word(&mut self) -> u32 {
        self.step()
    }
}

impl Rng for Rng5 {
    ghost stream = { stream_of (steps_u32 next_of) };

    fn next_u32(&mut self) -> u32 {
        self.next_word()
    }

    fn next_u64(&mut self) -> u64 {
        utils::next_u64_via_u32(self)
    }

    fn fill_bytes(&mut self, dst: &mut [u8]) {
        utils::fill_bytes_via_u32(self, dst)
    }
}
