//! What a plan is worth with all of its matches, by the network that stands for it.
ghost use Rattle.std.specs.Prelude.{◌≡◌, ◌<◌, IfOk, map};
ghost use Rattle.plan_rules.specs.Range.{sizes_of};
ghost use Rattle.plan_rules.specs.Totals.{whole_score};
ghost use Rattle.plan_recalc.specs.Totals.{whole_matches, whole_rows};

use crate::network::network_of;
use crate::order::put_in_order;
use plan_facts::{List, Memory, Plan};
use plan_recalc::{Totals, totals_of_rows};
use plan_rules::{Book, Judges, Row, Rules, Steps};
use std::alloc::Global;
use std::marker::Brand;
use std::sync::ledger::{Blank, Ledger};

/// The rows of a list, for a call that takes them one by one.
fn items_of(alloc: Global, mut rows: List<Row>) -> Result<Vec<Row>, Memory>
    ensures { IfOk result (λ items. items.items ≡ rows) }
{
    let mut items = Vec::new(alloc);
    while let Some(row) = rows.pop() {
        items.push(row)?;
    }
    items.as_mut_slice().reverse();
    Ok(items)
}

/// The rows at the end of each rule, in order.
fn all_rows<B: Book, L: Ledger>(
    alloc: Global,
    rules: &Rules<B>,
    plan: &Plan,
    weights: &[u32],
    steps: &mut Steps<L>,
) -> Result<Vec<Vec<Row>>, Memory>
    requires { ⟦<Rules<B> as Judges>⟧.judges rules.now weights.now (sizes_of plan.now) }
    ensures { IfOk result (λ all. map (λ rows. rows.items) all.items ≡ whole_rows B.meaning rules.now.defs plan.now) }
{
    let net = network_of(alloc, rules, plan, weights, steps)?;
    let mut all = Vec::new(alloc);
    for rule in 0..rules.count() {
        let mut rows = net.rows(rule)?;
        put_in_order(&mut rows);
        all.push(items_of(alloc, rows)?)?;
    }
    Ok(all)
}

/// With a counter of its own.
fn totals_from<B: Book, L: Ledger>(
    alloc: Global,
    rules: &Rules<B>,
    plan: &Plan,
    weights: &[u32],
    blank: Blank,
) -> Result<Totals, Memory>
    requires name { blank.name ≡ L.name }
    requires parts { blank.parts ≡ L.parts }
    requires some { 0 < L.parts }
    requires judges { ⟦<Rules<B> as Judges>⟧.judges rules.now weights.now (sizes_of plan.now) }
    ensures matches { IfOk result (λ t. t.matches ≡ whole_matches B.meaning rules.now.defs weights.now plan.now) }
    ensures score { IfOk result (λ t. t.score ≡ whole_score B.meaning rules.now.defs weights.now plan.now) }
{
    let mut steps: Steps<L> = Steps::new(blank);
    let all = all_rows(alloc, rules, plan, weights, &mut steps)?;
    totals_of_rows(alloc, rules, plan, weights, all, &mut steps)
}

/// What `plan_recalc::totals_alone` gives, found by look-ups where that goes through all pairs of records.
pub fn totals_by_network<B: Book>(
    alloc: Global,
    rules: &Rules<B>,
    plan: &Plan,
    weights: &[u32],
) -> Result<Totals, Memory>
    requires { ⟦<Rules<B> as Judges>⟧.judges rules.now weights.now (sizes_of plan.now) }
    ensures matches { IfOk result (λ t. t.matches ≡ whole_matches B.meaning rules.now.defs weights.now plan.now) }
    ensures score { IfOk result (λ t. t.score ≡ whole_score B.meaning rules.now.defs weights.now plan.now) }
{
    totals_from::<B, Brand>(alloc, rules, plan, weights, Blank::new(1))
}
