//! What is drawn, the same each time from one seed.
use rand_core::{Rng, SeedableRng};
use rand_xoshiro::Xoshiro256PlusPlus;

#[derive(Drop)]
pub struct Dice {
    generator: Xoshiro256PlusPlus,
}

impl Dice {
    pub fn new(seed: u64) -> Self {
        Dice {
            generator: Xoshiro256PlusPlus::seed_from_u64(seed),
        }
    }

    /// A number below the bound, or 0 where nothing is.
    pub fn below(&mut self, bound: u64) -> u64 {
        self.generator.next_u64().checked_rem(bound).unwrap_or(0)
    }

    /// At least the first, and below the second.
    pub fn between(&mut self, least: u64, end: u64) -> u64 {
        least.wrapping_add(self.below(end.saturating_sub(least)))
    }

    /// Others, for a thread of its own.
    pub fn split(&mut self) -> Dice {
        Dice::new(self.generator.next_u64())
    }
}
