ghost use Rattle.std.specs.Prelude.{◌≡◌, ◌<◌, IfOk};
ghost use Rattle.plan_rules.specs.Range.{sizes_of};
ghost use Rattle.plan_rules.specs.Totals.{whole_score};
ghost use Rattle.plan_recalc.specs.Totals.{whole_matches};

use crate::calculator::{Totals, recalc, score};
use plan_facts::{Memory, Plan};
use plan_rules::{Book, Judges, Rules, Steps};
use plan_scores::PlanScore;
use std::alloc::Global;
use std::marker::Brand;
use std::sync::ledger::{Blank, Ledger};

/// What `recalc` gives, for a caller that counts no steps.
pub fn totals_alone<B: Book>(
    alloc: Global,
    rules: &Rules<B>,
    plan: &Plan,
    weights: &[u32],
) -> Result<Totals, Memory>
    requires { ⟦<Rules<B> as Judges>⟧.judges rules.now weights.now (sizes_of plan.now) }
    ensures matches { IfOk result (λ t. t.matches ≡ whole_matches B.meaning rules.now.defs weights.now plan.now) }
    ensures score { IfOk result (λ t. t.score ≡ whole_score B.meaning rules.now.defs weights.now plan.now) }
{
    totals_from::<B, Brand>(alloc, rules, plan, weights, Blank::new(1))
}

/// What `score` gives, for a caller that counts no steps.
pub fn score_alone<B: Book>(
    alloc: Global,
    rules: &Rules<B>,
    plan: &Plan,
    weights: &[u32],
) -> Result<PlanScore, Memory>
    requires { ⟦<Rules<B> as Judges>⟧.judges rules.now weights.now (sizes_of plan.now) }
    ensures { IfOk result (λ score. score ≡ whole_score B.meaning rules.now.defs weights.now plan.now) }
{
    score_from::<B, Brand>(alloc, rules, plan, weights, Blank::new(1))
}

/// With a counter of its own.
fn totals_from<B: Book, L: Ledger>(
    alloc: Global,
    rules: &Rules<B>,
    plan: &Plan,
    weights: &[u32],
    blank: Blank,
) -> Result<Totals, Memory>
    requires name { blank.name ≡ L.name }
    requires parts { blank.parts ≡ L.parts }
    requires some { 0 < L.parts }
    requires judges { ⟦<Rules<B> as Judges>⟧.judges rules.now weights.now (sizes_of plan.now) }
    ensures matches { IfOk result (λ t. t.matches ≡ whole_matches B.meaning rules.now.defs weights.now plan.now) }
    ensures score { IfOk result (λ t. t.score ≡ whole_score B.meaning rules.now.defs weights.now plan.now) }
{
    let mut steps: Steps<L> = Steps::new(blank);
    recalc(alloc, rules, plan, weights, &mut steps)
}

/// With a counter of its own.
fn score_from<B: Book, L: Ledger>(
    alloc: Global,
    rules: &Rules<B>,
    plan: &Plan,
    weights: &[u32],
    blank: Blank,
) -> Result<PlanScore, Memory>
    requires name { blank.name ≡ L.name }
    requires parts { blank.parts ≡ L.parts }
    requires some { 0 < L.parts }
    requires judges { ⟦<Rules<B> as Judges>⟧.judges rules.now weights.now (sizes_of plan.now) }
    ensures { IfOk result (λ score. score ≡ whole_score B.meaning rules.now.defs weights.now plan.now) }
{
    let mut steps: Steps<L> = Steps::new(blank);
    score(alloc, rules, plan, weights, &mut steps)
}
