//! The random words of a search: each candidate of each step has eight words of its own under a
//! seed, whoever draws them and in whatever order.
#![tactic(auto)]

ghost use Rattle.std.specs.Prelude.{◌≡◌, ℕ, ◌+◌, ◌-◌, ◌*◌, ◌/◌, ◌%◌, ◌^◌, ◌<◌, ◌≤◌, slice_index};
ghost use Rattle.plan_draws.specs.Draws.{key, word, words, pick};
ghost use Rattle.rand_chacha.specs.ChaCha.{word_at};

use rand_chacha::ChaCha20Rng;
use rand_core::SeedableRng;
use rand_core::utils::NextWord;
use std::marker::Model;

mod picks;

pub use picks::{picked, picked_place};

// The words of a block, which two candidates share.
const BLOCK: usize = 16;

/// The words under one seed, which is all that contracts see of it.
///
/// It keeps the block that it made last, so that the second candidate of a block costs nothing.
#[derive(Drop)]
pub struct Draws {
    seed: u64,
    generator: ChaCha20Rng,
    // The step and the number of the kept block; step 0 has none.
    step: u32,
    block: u32,
    kept: [u32; BLOCK],
}

impl Model for Draws {
    ghost Value = { ℕ };

    ghost view = { λ d. d.seed };

    ghost invariant = { λ d. (d.generator.key ≡ key d.seed)
        × (1 ≤ d.step → (k : ℕ) → k < 16 → slice_index d.kept k ≡ word d.seed d.step (16 * d.block + k)) };
}

impl Draws {
    /// The key of the generator is the seed's 8 bytes, lowest first, then 24 zero bytes.
    pub fn new(seed: u64) -> Draws
        ensures { result ≡ seed }
    {
        let mut bytes = [0; 32];
        bytes[..8].copy_from_slice(&seed.to_le_bytes());
        Draws {
            seed,
            generator: ChaCha20Rng::from_seed(bytes),
            step: 0,
            block: 0,
            kept: [0; BLOCK],
        }
    }

    /// The eight words of candidate `number`, from 0, in step `step`, from 1: those of the stream
    /// `step - 1` at the places `8 * number` to `8 * number + 7`.
    #[tactic(auto, unfolding(crate::specs::Draws::word))]
    pub fn words(&mut self, step: u32, number: u32) -> [u32; 8]
        requires { 1 ≤ step }
        ensures words { result ≡ words self.old step number }
        ensures seed { self.new ≡ self.old }
    {
        let block = number / 2;
        if self.step != step || self.block != block {
            self.kept = block_words(&mut self.generator, u64::from(step - 1), block);
            self.step = step;
            self.block = block;
        }
        half(&self.kept, number % 2)
    }
}

// The words of a block of a stream.
fn block_words(generator: &mut ChaCha20Rng, stream: u64, block: u32) -> [u32; BLOCK]
    ensures words { (k : ℕ) → k < 16
        → slice_index result k ≡ word_at 10 generator.old.key stream (16 * block + k) }
    ensures key { generator.new.key ≡ generator.old.key }
{
    seek(generator, stream, 16 * u128::from(block));
    let mut words = [0; BLOCK];
    for word in words.iter_mut() {
        *word = generator.next_word();
    }
    words
}

// Goes to a place of a stream. For the block after the last one, the generator stands there already.
fn seek(generator: &mut ChaCha20Rng, stream: u64, place: u128)
    requires { place < 2 ^ 68 }
    ensures { generator.new ≡ record { key = generator.old.key; stream = stream; word_pos = place } }
{
    if generator.get_stream() != stream {
        generator.set_stream(stream);
    }
    if generator.get_word_pos() != place {
        generator.set_word_pos(place);
    }
}

// The first or the second eight words of a block.
fn half(block: &[u32; BLOCK], which: u32) -> [u32; 8]
    requires { which < 2 }
    ensures { (k : ℕ) → k < 8 → slice_index result k ≡ slice_index block.now (8 * which + k) }
{
    let first = 8 * which as usize;
    [
        block[first],
        block[first + 1],
        block[first + 2],
        block[first + 3],
        block[first + 4],
        block[first + 5],
        block[first + 6],
        block[first + 7],
    ]
}

/// A number below `n` from a word: the whole part of `w * n / 2^32`.
pub fn pick(w: u32, n: u32) -> u32
    requires { 1 ≤ n }
    ensures value { result ≡ pick w n }
    ensures below { result < n }
{
    (u64::from(w) * u64::from(n) / (1 << 32)) as u32
}
