ghost use Rattle.std.specs.Prelude.{◌≡◌, ◌≤◌, All};
ghost use Rattle.plan_rules.specs.Closures.{capped};
ghost use Rattle.plan_facts.specs.Limits.{weight_limit};
ghost use Rattle.plan_rules.specs.Named.{weigh_closures};
ghost use Rattle.plan_rules.specs.Range.{cap_of};
ghost use Rattle.plan_rules.specs.Sound.{IsHandedIn};
ghost use Rattle.plan_rules.specs.Totals.{impact_of, match_weight};

use plan_rules::{Book, Kept, Row, RuleDef, Rules, Steps};
use plan_scores::Score;
use std::sync::ledger::Ledger;

/// What the row adds to the score, under a weight of at most a million.
pub fn impact_of<B: Book, L: Ledger>(
    rules: &Rules<B>,
    rule: &RuleDef,
    weight: u32,
    row: &Row,
    steps: &mut Steps<L>,
) -> Score
    requires keeps { ⟦<Rules<B> as Kept>⟧.keeps rules.now }
    requires weigher { All (IsHandedIn rules.now.numbers) (weigh_closures rule.now.weigh) }
    requires few { weight ≤ weight_limit }
    ensures value { result ≡ impact_of B.meaning rule.now weight row.now }
    ensures cap { match_weight B.meaning rule.now row.now ≤ cap_of (capped rules.now.weighs) rule.now }
{
    let number = i64::from(weight) * i64::from(match_weight(rules, rule, row, steps));
    let signed = if rule.reward { number } else { -number };
    Score::at(rule.level, signed)
}

/// The weight of the row, 1 where the rule has no weigher.
fn match_weight<B: Book, L: Ledger>(
    rules: &Rules<B>,
    rule: &RuleDef,
    row: &Row,
    steps: &mut Steps<L>,
) -> u32
    requires keeps { ⟦<Rules<B> as Kept>⟧.keeps rules.now }
    requires weigher { All (IsHandedIn rules.now.numbers) (weigh_closures rule.now.weigh) }
    ensures value { result ≡ match_weight B.meaning rule.now row.now }
    ensures cap { result ≤ cap_of (capped rules.now.weighs) rule.now }
{
    match rule.weigh {
        Some(number) => rules.match_weight_of(number, row, steps),
        None => 1,
    }
}
