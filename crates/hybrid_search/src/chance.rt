//! Random draws. Each iteration has a stream of ChaCha20 of its own, under the seed.
use crate::cells::{item, put};
use rand_chacha::ChaCha20Rng;
use rand_core::SeedableRng;
use rand_core::utils::NextWord;

/// The random draws of an iteration.
#[derive(Drop)]
pub(crate) struct Chance {
    rng: ChaCha20Rng,
}

impl Chance {
    /// Returns the draws of an iteration under a seed.
    pub(crate) fn new(seed: u64, iteration: u64) -> Chance {
        let mut key = [0; 32];
        key[..8].copy_from_slice(&seed.to_le_bytes());
        let mut rng = ChaCha20Rng::from_seed(key);
        rng.set_stream(iteration);
        Chance { rng }
    }

    /// Returns a number below `count`, or 0 if that is 0.
    pub(crate) fn below(&mut self, count: u32) -> u32 {
        ((u64::from(self.rng.next_word()) * u64::from(count)) >> 32) as u32
    }

    /// Puts the numbers into a random order (Fisher and Yates).
    pub(crate) fn shuffle(&mut self, numbers: &mut [u32]) {
        let len = u32::try_from(numbers.len()).unwrap_or(0);
        for place in 0..len {
            let other = self.below(place.saturating_add(1));
            let (one, two) = (item(numbers, place), item(numbers, other));
            put(numbers, place, two);
            put(numbers, other, one);
        }
    }
}
