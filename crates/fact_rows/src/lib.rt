//! Facts, rules, moves and selectors on plans and rows that were worked by hand: tests, and what they read off rows.
#![tactic(auto)]

ghost use Rattle.std.specs.Prelude.{◌≡◌};
ghost use Rattle.fact_rows.specs.Numbers.{number_at};

use plan_rules::{Part, Row};

/// The number at a place of a row; none where a record or nothing is there.
pub fn number_at(row: &Row, place: usize) -> Option<i64>
    ensures { result ≡ number_at row.now place }
{
    match row.part(place) {
        Some(Part::Num(number)) => Some(*number),
        _ => None,
    }
}

#[cfg(test)]
mod tests;
