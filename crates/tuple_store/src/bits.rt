//! Sets of numbers, a bit for each number in words of 64 bits.
ghost use Rattle.std.specs.Prelude.{◌≡◌, ◌≢◌, ℕ, ◌+◌, ◌*◌, ◌<◌, ◌≤◌, ◌^◌, ◌↔◌, length, IsTrue, IfSome, IfNone, OnOk};
ghost use Rattle.tuple_store.specs.Bits.{bit_of};

use crate::word::{first_from, has, with, without};
use std::alloc::AllocError;

/// Whether the number is in the set.
pub fn has_bit(words: &[u64], n: usize) -> bool
    ensures { IsTrue result ↔ (bit_of words.now n ≡ 1) }
{
    match words.get(n / 64) {
        Some(word) => has(*word, n % 64),
        None => false,
    }
}

/// Puts a number into the set.
pub fn set_bit(words: &mut Vec<u64>, n: usize)
    requires { n < 64 * length words.old.items }
    ensures here { bit_of words.new.items n ≡ 1 }
    ensures others { (q : ℕ) → q ≢ n → bit_of words.new.items q ≡ bit_of words.old.items q }
    ensures length { length words.new.items ≡ length words.old.items }
{
    words[n / 64] = with(words[n / 64], n % 64);
}

/// Takes a number out of the set.
pub fn clear_bit(words: &mut Vec<u64>, n: usize)
    requires { n < 64 * length words.old.items }
    ensures here { bit_of words.new.items n ≡ 0 }
    ensures others { (q : ℕ) → q ≢ n → bit_of words.new.items q ≡ bit_of words.old.items q }
    ensures length { length words.new.items ≡ length words.old.items }
{
    words[n / 64] = without(words[n / 64], n % 64);
}

/// Makes room for a number.
pub fn widen(words: &mut Vec<u64>, n: usize) -> Result<(), AllocError>
    ensures same { (q : ℕ) → bit_of words.new.items q ≡ bit_of words.old.items q }
    ensures wider { length words.old.items ≤ length words.new.items }
    ensures short { 64 * length words.old.items ≤ 2 ^ 64 → 64 * length words.new.items ≤ 2 ^ 64 }
    ensures room { OnOk result (n < 64 * length words.new.items) }
{
    if words.len() <= n / 64 {
        words.resize(n / 64 + 1, 0)?;
    }
    Ok(())
}

/// The least number of the set that is at least `from`.
pub fn first_bit(words: &[u64], from: usize) -> Option<usize>
    requires { 64 * length words.now ≤ 2 ^ 64 }
    ensures some { IfSome result (λ n. (from ≤ n) × (bit_of words.now n ≡ 1)) }
    ensures least { IfSome result (λ n. (q : ℕ) → from ≤ q → q < n → bit_of words.now q ≡ 0) }
    ensures none { IfNone result ((q : ℕ) → from ≤ q → bit_of words.now q ≡ 0) }
{
    let word = words.get(from / 64)?;
    if let Some(bit) = first_from(*word, from % 64) {
        return Some(from / 64 * 64 + bit);
    }
    for place in from / 64 + 1..words.len() {
        if let Some(bit) = first_from(words[place], 0) {
            return Some(place * 64 + bit);
        }
    }
    None
}
