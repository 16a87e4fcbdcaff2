ghost use Rattle.std.specs.Prelude.{◌≡◌, ◌≤◌};
ghost use Rattle.plan_rules.specs.Meaning.{IsKeyNumber};
ghost use Rattle.domain_words.specs.Numbers.{both, clipped_excess, excess_weight, weight_cap, key_or_zero};
ghost use Rattle.domain_words.specs.Numbers.{is_above, is_soon_after, are_different};

use plan_facts::FIELD_LIMIT;

/// The greatest key: the greatest number that a field holds.
const KEY_LIMIT: i64 = FIELD_LIMIT;

/// The greatest weight that a weigher of a domain gives.
pub const WEIGHT_CAP: u32 = 10_000;

/// Whether both numbers are there and the first is above the second.
pub fn is_above(one: Option<i64>, other: Option<i64>) -> bool
    ensures { result ≡ both is_above one other }
{
    match (one, other) {
        (Some(one), Some(other)) => one > other,
        _ => false,
    }
}

/// Whether both numbers are there and differ.
pub fn are_different(one: Option<i64>, other: Option<i64>) -> bool
    ensures { result ≡ both are_different one other }
{
    match (one, other) {
        (Some(one), Some(other)) => one != other,
        _ => false,
    }
}

/// Whether both numbers are there and the second is the first or above it by at most `most`.
pub fn is_soon_after(most: u16, one: Option<i64>, other: Option<i64>) -> bool
    ensures { result ≡ both (is_soon_after most) one other }
{
    match (one, other) {
        (Some(one), Some(other)) => {
            let gap = other.saturating_sub(one);
            0 <= gap && gap <= i64::from(most)
        }
        _ => false,
    }
}

/// How far the first number is above the second: 0 where it isn't, or where either isn't there, and at most `cap`.
pub fn clipped_excess(cap: u32, one: Option<i64>, other: Option<i64>) -> u32
    ensures value { result ≡ clipped_excess cap one other }
    ensures range { result ≤ cap }
{
    match (one, other) {
        (Some(one), Some(other)) => one.saturating_sub(other).clamp(0, i64::from(cap)) as u32,
        _ => 0,
    }
}

/// How far the first number is above the second as a weight: at most [`WEIGHT_CAP`], 0 where either isn't there.
pub fn excess_weight(one: Option<i64>, other: Option<i64>) -> u32
    ensures value { result ≡ excess_weight one other }
    ensures range { result ≤ weight_cap }
{
    clipped_excess(WEIGHT_CAP, one, other)
}

/// The number as a key: the nearest one from -10^9 to 10^9, or 0 where there is none.
pub fn key_or_zero(number: Option<i64>) -> i64
    ensures value { result ≡ key_or_zero number }
    ensures range { IsKeyNumber result }
{
    match number {
        Some(number) => number.clamp(-KEY_LIMIT, KEY_LIMIT),
        None => 0,
    }
}
