ghost use Rattle.std.specs.Prelude.{◌≡◌, ◌^◌, ◌≤◌, true, false, map, not, length, ◌==◌, count_by, IfSome, IfNone, option_map};
ghost use Rattle.std.specs.List.{list_all};
ghost use Rattle.std.specs.Str.Parse.{digits_value};
ghost use Rattle.plan_words.specs.Line.{word_at};
ghost use Rattle.plan_words.specs.Values.{are_names, is_standard_input, is_number, number_in, number_or};

/// Whether none of the names is empty, and standard input is at most one of them.
pub fn are_names(names: &[&str]) -> bool
    ensures { result ≡ are_names (map (λ name. name.now) names.now) }
{
    are_filled(names) && standard_inputs(names) <= 1
}

fn are_filled(names: &[&str]) -> bool
    ensures { result ≡ list_all (λ name. not (length name.now == 0)) names.now }
{
    names.iter().all(|name| !name.is_empty())
}

// How many of the names are that of standard input.
fn standard_inputs(names: &[&str]) -> usize
    ensures { result ≡ count_by (λ name. is_standard_input name.now) names.now }
{
    names.iter().filter(|name| **name == "@").count()
}

/// The number that a word is, where it is from `low` to `high`.
pub fn number_in(low: u32, high: u32, word: &str) -> Option<u32>
    ensures { result ≡ number_in low high word.now }
{
    let number = number(word)?;
    if low <= number && number <= high {
        Some(number)
    } else {
        None
    }
}

/// The same of a word that may be absent, with what is usual then.
pub fn number_or(usual: u32, low: u32, high: u32, word: Option<&str>) -> Option<u32>
    ensures { result ≡ number_or usual low high (word_at word.entry) }
{
    match word {
        Some(word) => number_in(low, high, word),
        None => Some(usual),
    }
}

// The number that a word of plain digits is, where it fits.
fn number(word: &str) -> Option<u32>
    ensures some { IfSome result (λ n. (is_number word.now ≡ true) × (n ≡ digits_value 10 word.now)) }
    ensures none { IfNone result (is_number word.now ≡ true → 2 ^ 32 ≤ digits_value 10 word.now) }
{
    let (first, rest) = word.as_bytes().split_first()?;
    if *first == b'+' || (*first == b'0' && !rest.is_empty()) {
        return None;
    }
    word.parse().ok()
}
