ghost use Rattle.std.specs.Prelude.{◌≡◌, IfOk, map};
ghost use Rattle.plan_rules.specs.Limits.{score_limit};
ghost use Rattle.plan_rules.specs.Range.{sizes_of};
ghost use Rattle.plan_rules.specs.Totals.{impact_sum, whole_score};
ghost use Rattle.plan_recalc.specs.Size.{AreAllWithin};
ghost use Rattle.plan_recalc.specs.Totals.{whole_matches, whole_rows};

use crate::rows::all_rows;
use crate::sum::add_rule;
use plan_facts::{List, Memory, Plan};
use plan_rules::{Book, Judges, Match, Row, Rules, Steps};
use plan_scores::{PlanScore, Score};
use std::alloc::Global;
use std::sync::ledger::Ledger;

/// What a plan is worth: its score, the matches of each rule, and the sum of each rule's impacts. Even without their signs all
/// impacts add up to 2^62 at most, so that the sum of any of them fits.
#[derive(Drop)]
pub struct Totals {
    pub score: PlanScore,
    pub matches: List<List<Match>>,
    pub impacts: List<Score>,
    pub ghost summed: { impacts ≡ map impact_sum matches },
    pub ghost small: { AreAllWithin score_limit matches },
}

/// The score and all matches of the plan under these weights, from the rows at the end of each rule.
pub fn totals_of_rows<B: Book, L: Ledger>(
    alloc: Global,
    rules: &Rules<B>,
    plan: &Plan,
    weights: &[u32],
    all: Vec<Vec<Row>>,
    steps: &mut Steps<L>,
) -> Result<Totals, Memory>
    requires judges { ⟦<Rules<B> as Judges>⟧.judges rules.now weights.now (sizes_of plan.now) }
    requires rows { map (λ rows. rows.items) all.items ≡ whole_rows B.meaning rules.now.defs plan.now }
    ensures matches { IfOk result (λ t. t.matches ≡ whole_matches B.meaning rules.now.defs weights.now plan.now) }
    ensures score { IfOk result (λ t. t.score ≡ whole_score B.meaning rules.now.defs weights.now plan.now) }
{
    let mut score = Score::zero();
    let mut matches = List::new(alloc);
    let mut impacts = List::new(alloc);
    for rows in all {
        let place = matches.len();
        let rule = &rules.defs.as_slice()[place];
        let one = add_rule(alloc, rules, rule, weights[place], rows, &mut score, steps)?;
        matches.push(one.matches)?;
        impacts.push(one.impact)?;
    }
    let unplaced = plan.unplaced();
    Ok(Totals {
        score: PlanScore { unplaced, score },
        matches,
        impacts,
    })
}

/// The score and all matches of the plan under these weights.
pub fn recalc<B: Book, L: Ledger>(
    alloc: Global,
    rules: &Rules<B>,
    plan: &Plan,
    weights: &[u32],
    steps: &mut Steps<L>,
) -> Result<Totals, Memory>
    requires { ⟦<Rules<B> as Judges>⟧.judges rules.now weights.now (sizes_of plan.now) }
    ensures matches { IfOk result (λ t. t.matches ≡ whole_matches B.meaning rules.now.defs weights.now plan.now) }
    ensures score { IfOk result (λ t. t.score ≡ whole_score B.meaning rules.now.defs weights.now plan.now) }
{
    let all = all_rows(alloc, rules, plan, steps)?;
    totals_of_rows(alloc, rules, plan, weights, all, steps)
}

/// The score alone.
pub fn score<B: Book, L: Ledger>(
    alloc: Global,
    rules: &Rules<B>,
    plan: &Plan,
    weights: &[u32],
    steps: &mut Steps<L>,
) -> Result<PlanScore, Memory>
    requires { ⟦<Rules<B> as Judges>⟧.judges rules.now weights.now (sizes_of plan.now) }
    ensures { IfOk result (λ score. score ≡ whole_score B.meaning rules.now.defs weights.now plan.now) }
{
    let totals = recalc(alloc, rules, plan, weights, steps)?;
    Ok(totals.score)
}
