//! Problems as text, and the words of command lines: tests, and the digits that they write problems with.
#![tactic(auto)]

ghost use Rattle.std.specs.Prelude.{◌≡◌};
ghost use Rattle.text_rows.specs.Digits.{last_digit};

/// The last digit of a number, as a byte of text.
pub fn last_digit(number: u32) -> u8
    ensures { result ≡ last_digit number }
{
    b'0' + (number % 10) as u8
}

#[cfg(test)]
mod tests;
