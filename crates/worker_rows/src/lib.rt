//! Workers and their teams on a plan that was worked by hand: tests, and what they expect plans to be worth.
#![tactic(auto)]

ghost use Rattle.std.specs.Prelude.{◌≡◌};
ghost use Rattle.worker_rows.specs.Worth.{worth};

use plan_scores::{PlanScore, Score};

/// What a plan with nothing unplaced is worth, where it is worth so much at the hard level and nothing at the others.
pub fn worth(hard: i64) -> PlanScore
    ensures { result ≡ worth hard }
{
    PlanScore {
        unplaced: 0,
        score: Score {
            hard,
            medium: 0,
            soft: 0,
        },
    }
}

#[cfg(test)]
mod tests;
