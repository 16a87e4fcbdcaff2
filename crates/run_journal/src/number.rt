ghost use Rattle.std.specs.Prelude.{◌≡◌, ◌^◌, ◌≤◌, true, position, IfSome, IfNone};
ghost use Rattle.std.specs.Str.Parse.{digits_value};
ghost use Rattle.run_journal.specs.Numbers.{is_space, is_number, number_in, number_before_space};

use std::str;

/// The number that a word of plain digits is, where it fits.
fn number(word: &str) -> Option<u32>
    ensures some { IfSome result (λ n. (is_number word.now ≡ true) × (n ≡ digits_value 10 word.now)) }
    ensures none { IfNone result (is_number word.now ≡ true → 2 ^ 32 ≤ digits_value 10 word.now) }
{
    let (first, rest) = word.as_bytes().split_first()?;
    if *first == b'+' || (*first == b'0' && !rest.is_empty()) {
        return None;
    }
    word.parse().ok()
}

/// The number that the text is, where it is from `low` to `high`.
fn number_in_text(low: u32, high: u32, text: &str) -> Option<u32>
    ensures { result ≡ number_in low high text.now }
{
    let number = number(text)?;
    if low <= number && number <= high {
        Some(number)
    } else {
        None
    }
}

/// The number that the word is, where it is from `low` to `high`.
fn number_in(low: u32, high: u32, word: &[u8]) -> Option<u32>
    ensures { result ≡ number_in low high word.now }
{
    match str::from_utf8(word) {
        Ok(text) => number_in_text(low, high, text),
        Err(_) => None,
    }
}

/// The place of the first space.
pub fn first_space(bytes: &[u8]) -> Option<usize>
    ensures { result ≡ position is_space bytes.now }
{
    bytes.iter().position(|b| *b == b' ')
}

/// The number before the first space, where it is from `low` to `high`.
pub fn number_before_space(low: u32, high: u32, bytes: &[u8]) -> Option<u32>
    ensures { result ≡ number_before_space low high bytes.now }
{
    match first_space(bytes) {
        Some(n) => number_in(low, high, &bytes[..n]),
        None => None,
    }
}
