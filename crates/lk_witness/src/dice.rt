//! The free choices of a search, by a seed.

use rand_core::{Rng, SeedableRng};
use rand_pcg::Pcg32;

/// What the choices of a search are thrown with.
#[derive(Drop)]
pub(crate) struct Dice {
    generator: Pcg32,
}

impl Dice {
    /// Those of a seed.
    pub(crate) fn of(seed: u64) -> Dice {
        Dice {
            generator: Pcg32::seed_from_u64(seed),
        }
    }

    /// A number below this one, and 0 where there is none.
    pub(crate) fn below(&mut self, sides: u32) -> u32 {
        let thrown = self.generator.next_u32();
        thrown.checked_rem(sides).unwrap_or(0)
    }

    /// Whether a throw of so many sides is the first of them.
    pub(crate) fn is_one_in(&mut self, sides: u32) -> bool {
        self.below(sides) == 0
    }

    /// Any word.
    pub(crate) fn word(&mut self) -> u64 {
        self.generator.next_u64()
    }
}
