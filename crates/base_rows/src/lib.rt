//! Tests of crates that stand on few others, and the scores that they make of numbers.
#![tactic(auto)]

ghost use Rattle.std.specs.Prelude.{◌≡◌};

use plan_scores::{PlanScore, Score};

/// What a plan is worth with so many variables that are null.
pub fn plan_score(unplaced: u32, score: Score) -> PlanScore
    ensures { result ≡ record { unplaced = unplaced; score = score } }
{
    PlanScore { unplaced, score }
}

#[cfg(test)]
mod tests;
