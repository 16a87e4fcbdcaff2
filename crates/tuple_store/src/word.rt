//! The bits of a word.
ghost use Rattle.std.specs.Prelude.{◌≡◌, ◌≢◌, ℕ, ◌<◌, ◌≤◌, ◌^◌, ◌↔◌, IsTrue, IfSome, IfNone};
ghost use Rattle.std.specs.Int.{bit_at};

/// Whether the bit is set.
pub fn has(word: u64, bit: usize) -> bool
    requires { bit < 64 }
    ensures { IsTrue result ↔ (bit_at word bit ≡ 1) }
{
    word & (1 << bit) != 0
}

/// The word with the bit set.
pub fn with(word: u64, bit: usize) -> u64
    requires { bit < 64 }
    ensures here { bit_at result bit ≡ 1 }
    ensures others { (i : ℕ) → i < 64 → i ≢ bit → bit_at result i ≡ bit_at word i }
{
    word | (1 << bit)
}

/// The word with the bit cleared.
pub fn without(word: u64, bit: usize) -> u64
    requires { bit < 64 }
    ensures here { bit_at result bit ≡ 0 }
    ensures others { (i : ℕ) → i < 64 → i ≢ bit → bit_at result i ≡ bit_at word i }
{
    word & !(1 << bit)
}

/// The lowest set bit that is at least `from`.
pub fn first_from(word: u64, from: usize) -> Option<usize>
    requires { from < 64 }
    ensures some { IfSome result (λ bit. (from ≤ bit) × (bit < 64) × (bit_at word bit ≡ 1)) }
    ensures least { IfSome result (λ bit. (i : ℕ) → from ≤ i → i < bit → bit_at word i ≡ 0) }
    ensures none { IfNone result ((i : ℕ) → from ≤ i → i < 64 → bit_at word i ≡ 0) }
{
    let high = word & (u64::MAX << from);
    if high == 0 {
        return None;
    }
    Some(high.trailing_zeros() as usize)
}
