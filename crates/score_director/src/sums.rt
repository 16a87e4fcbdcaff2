//! The score of rules from the sums of their match weights: for a director that keeps the rows of nodes.
ghost use Rattle.std.specs.Prelude.{◌≡◌, ◌<◌, ◌^◌, IfNone, IfSome, length};
ghost use Rattle.plan_scores.specs.Sum.{FitsScore, add_scores, score_at};
ghost use Rattle.plan_rules.specs.Limits.{score_limit};
ghost use Rattle.plan_rules.specs.Totals.{signed};
ghost use Rattle.score_director.specs.Sums.{IsScoreOfTotals, sizes_of_totals, totaled};

use plan_rules::RuleDef;
use plan_scores::{Level, Score};

/// As much as the rules of a plan add up to at most, whatever their signs.
const MOST: u64 = 1 << 62;

/// The number that a rule of this size adds to its level, where that fits.
fn impact_of(rule: &RuleDef, size: u64) -> i64
    ensures { size < 2 ^ 63 → result ≡ signed rule.now size }
{
    let number = i64::try_from(size).unwrap_or(i64::MAX);
    if rule.reward { number } else { -number }
}

/// Adds a number to the score at one level, where the sum fits.
fn add_at(score: &mut Score, level: Level, number: i64)
    ensures { let sum = add_scores score.old (score_at level number) in FitsScore sum → score.new ≡ sum }
{
    match level {
        Level::Hard => score.hard = score.hard.saturating_add(number),
        Level::Medium => score.medium = score.medium.saturating_add(number),
        Level::Soft => score.soft = score.soft.saturating_add(number),
    }
}

/// The score of rules under these weights whose match weights add up to these totals; none where, whatever their signs,
/// they add up to more than 2^62.
pub fn score_of_totals(rules: &[RuleDef], weights: &[u32], totals: &[u64]) -> Option<Score>
    requires weights { length weights.now ≡ length rules.now }
    requires totals { length totals.now ≡ length rules.now }
    ensures score { IfSome result (IsScoreOfTotals rules.now weights.now totals.now) }
    ensures none { IfNone result (score_limit < sizes_of_totals (totaled rules.now weights.now totals.now)) }
{
    let mut room = MOST;
    let mut score = Score::zero();
    for place in 0..rules.len() {
        let size = u64::from(weights[place]).saturating_mul(totals[place]);
        if size > room {
            return None;
        }
        room -= size;
        let rule = &rules[place];
        add_at(&mut score, rule.level, impact_of(rule, size));
    }
    Some(score)
}
