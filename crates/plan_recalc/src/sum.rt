ghost use Rattle.std.specs.Prelude.{◌≡◌, ◌*◌, ◌≤◌, All, IfOk, length, map};
ghost use Rattle.plan_facts.specs.Limits.{weight_limit};
ghost use Rattle.plan_scores.specs.Sum.{add_scores};
ghost use Rattle.plan_rules.specs.Closures.{capped};
ghost use Rattle.plan_rules.specs.Named.{weigh_closures};
ghost use Rattle.plan_rules.specs.Sound.{IsHandedIn};
ghost use Rattle.plan_rules.specs.Totals.{impact_sum};
ghost use Rattle.plan_recalc.specs.RulesFrom.{LeavesRoom};
ghost use Rattle.plan_recalc.specs.Size.{AreWithin, row_size};
ghost use Rattle.plan_recalc.specs.Totals.{match_of};

use crate::matches::{impact_sum, matches_of};
use plan_facts::{List, Memory};
use plan_rules::{Book, Kept, Match, Row, RuleDef, Rules, Steps};
use plan_scores::Score;
use std::alloc::Global;
use std::sync::ledger::Ledger;

/// The matches of a rule, and the sum of their impacts.
#[derive(Drop)]
pub struct RuleTotals {
    pub matches: List<Match>,
    pub impact: Score,
    ghost summed: { impact ≡ impact_sum matches },
}

/// What a rule makes of its rows under a weight of at most a million. It is added to the score of the rules before it.
pub fn add_rule<B: Book, L: Ledger>(
    alloc: Global,
    rules: &Rules<B>,
    rule: &RuleDef,
    weight: u32,
    rows: Vec<Row>,
    score: &mut Score,
    steps: &mut Steps<L>,
) -> Result<RuleTotals, Memory>
    requires keeps { ⟦<Rules<B> as Kept>⟧.keeps rules.now }
    requires weigher { All (IsHandedIn rules.now.numbers) (weigh_closures rule.now.weigh) }
    requires weight { weight ≤ weight_limit }
    requires room { LeavesRoom (length rows.items * row_size (capped rules.now.weighs) rule.now weight) score.old }
    ensures matches { IfOk result (λ one. one.matches ≡ map (match_of B.meaning rule.now weight) rows.items) }
    ensures score { IfOk result (λ one. score.new ≡ add_scores score.old one.impact) }
    ensures size { let most = length rows.items * row_size (capped rules.now.weighs) rule.now weight in
        IfOk result (λ one. AreWithin most one.matches) }
{
    let matches = matches_of(alloc, rules, rule, weight, rows, steps)?;
    let impact = impact_sum(matches.as_slice());
    *score = score.add(&impact);
    Ok(RuleTotals { matches, impact })
}
