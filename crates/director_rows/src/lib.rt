//! The director on plans of the domains that come with the solver: tests, and what they read off rows.
#![tactic(auto)]

ghost use Rattle.std.specs.Prelude.{◌≡◌};
ghost use Rattle.director_rows.specs.Parts.{part_number};

use plan_rules::Part;

/// The number of a part; of a fact its id.
pub fn part_number(part: &Part) -> i64
    ensures { result ≡ part_number part.now }
{
    match part {
        Part::Fact(rec) => i64::from(rec.id),
        Part::Num(number) => *number,
    }
}

#[cfg(test)]
mod tests;
