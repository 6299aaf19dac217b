//! The words of a search's steps: the key stream of ChaCha20 (RFC 8439) under the seed.
//!
//! The definition follows the RFC line by line and is independent of `rand_chacha`. It is proved that both have
//! the same word at each place. The RFC's counter has 32 bits and a block's number has 64: the high half is in
//! the nonce's first word. The words come from `next_word`, whose contract says where the generator is
//! afterwards.
ghost use Rattle.std.specs.Prelude.{◌≡◌, ◌+◌, ◌*◌, ◌<◌, ◌^◌};
ghost use Rattle.plan_types.specs.declared.limits.TheConstants.{MAX_STEPS};
ghost use Rattle.rand_chacha.specs.ChaCha.{ChaCha};
ghost use Rattle.seeded_search.specs.Words.{key_bytes, step_words};
ghost use Rattle.seeded_search.specs.Generator.{NextStep, next_step_of, before_step, IsBeforeStep, next_words};

use rand_chacha::ChaCha20Rng;
use rand_core::SeedableRng;
use rand_core::utils::NextWord;
use std::marker::Model;

/// The words of search steps, one step after another. A run of steps keeps one `StepWords`, since the generator
/// makes four blocks at a time, and a jump to another step would waste three of them.
#[derive(Drop)]
pub struct StepWords {
    rng: ChaCha20Rng,
}

impl Model for StepWords {
    ghost Value = { NextStep };

    ghost view = { λ words. next_step_of words.rng };

    ghost invariant = { λ words. IsBeforeStep words.rng };
}

impl StepWords {
    /// Returns the words of the steps from `step` on.
    pub fn from_step(seed: u64, step: u64) -> Self
        requires { step < MAX_STEPS }
        ensures { result ≡ record { seed = seed; step = step } }
    {
        StepWords {
            rng: generator(seed, step),
        }
    }

    /// Returns the words of the next step.
    pub fn next_step(&mut self) -> [u32; 16]
        requires { self.old.step < MAX_STEPS }
        ensures words { result ≡ step_words self.old.seed self.old.step }
        ensures after { self.new ≡ record self.old { step = self.old.step + 1 } }
    {
        sixteen_words(&mut self.rng)
    }
}

/// Returns the sixteen words of a search step: words `16 * step` to `16 * step + 15` of ChaCha20's key stream
/// (RFC 8439). The key is the seed in 8 bytes, the low byte first, and 24 zero bytes. The last four words of the
/// block function's state are the low and the high half of the block's number, 0 and 0. Use this for a single
/// step; a search takes its words from a `StepWords`.
pub fn words(seed: u64, step: u64) -> [u32; 16]
    requires { step < MAX_STEPS }
    ensures { result ≡ step_words seed step }
{
    StepWords::from_step(seed, step).next_step()
}

// Returns the generator of a seed before the words of a step.
fn generator(seed: u64, step: u64) -> ChaCha20Rng
    requires { step < MAX_STEPS }
    ensures { result ≡ before_step (record { seed = seed; step = step }) }
{
    let mut rng = ChaCha20Rng::from_seed(key(seed));
    rng.set_word_pos(u128::from(step) * 16);
    rng
}

// Returns the key of a seed.
fn key(seed: u64) -> [u8; 32]
    ensures { result ≡ key_bytes seed }
{
    let mut key = [0; 32];
    key[..8].copy_from_slice(&seed.to_le_bytes());
    key
}

// Returns the next sixteen words of a generator.
fn sixteen_words(rng: &mut ChaCha20Rng) -> [u32; 16]
    requires { rng.old.word_pos + 16 < 2 ^ 68 }
    ensures words { result ≡ next_words rng.old 16 }
    ensures after { rng.new ≡ record rng.old { word_pos = rng.old.word_pos + 16 } }
{
    let mut words = [0; 16];
    for word in &mut words {
        *word = rng.next_word();
    }
    words
}
