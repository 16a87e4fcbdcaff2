ghost use Rattle.std.specs.Prelude.{◌≡◌, ◌*◌, ◌≤◌, All, IfOk, length, map};
ghost use Rattle.plan_rules.specs.Closures.{capped};
ghost use Rattle.plan_rules.specs.Limits.{score_limit};
ghost use Rattle.plan_facts.specs.Limits.{weight_limit};
ghost use Rattle.plan_rules.specs.Named.{weigh_closures};
ghost use Rattle.plan_rules.specs.Sound.{IsHandedIn};
ghost use Rattle.plan_rules.specs.Totals.{impact_sum};
ghost use Rattle.plan_recalc.specs.Size.{AreWithin, row_size};
ghost use Rattle.plan_recalc.specs.Totals.{match_of};

use crate::impact::impact_of;
use plan_facts::{List, Memory};
use plan_rules::{Book, Kept, Match, Row, RuleDef, Rules, Steps};
use plan_scores::Score;
use std::alloc::Global;
use std::sync::ledger::Ledger;

/// Each row of a rule with its impact, under a weight of at most a million.
pub fn matches_of<B: Book, L: Ledger>(
    alloc: Global,
    rules: &Rules<B>,
    rule: &RuleDef,
    weight: u32,
    rows: Vec<Row>,
    steps: &mut Steps<L>,
) -> Result<List<Match>, Memory>
    requires keeps { ⟦<Rules<B> as Kept>⟧.keeps rules.now }
    requires weigher { All (IsHandedIn rules.now.numbers) (weigh_closures rule.now.weigh) }
    requires weight { weight ≤ weight_limit }
    ensures matches { IfOk result (λ ms. ms ≡ map (match_of B.meaning rule.now weight) rows.items) }
    ensures size { IfOk result (AreWithin (length rows.items * row_size (capped rules.now.weighs) rule.now weight)) }
{
    let mut matches = List::new(alloc);
    for row in rows {
        let impact = impact_of(rules, rule, weight, &row, steps);
        matches.push(Match { row, impact })?;
    }
    Ok(matches)
}

/// The sum of the matches' impacts, which are small enough.
pub fn impact_sum(matches: &[Match]) -> Score
    requires { AreWithin score_limit matches.now }
    ensures { result ≡ impact_sum matches.now }
{
    let mut sum = Score::zero();
    for one in matches {
        sum = sum.add(&one.impact);
    }
    sum
}
