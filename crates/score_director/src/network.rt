//! What a plan is worth by the network that stands for it.
ghost use Rattle.std.specs.Prelude.{◌≡◌, ◌++◌, false, true, IfOk, IfSome, OnErr, OnOk, length};
ghost use Rattle.plan_facts.specs.Plan.{PlanView, records_of};
ghost use Rattle.plan_rules.specs.Range.{sizes_of};
ghost use Rattle.plan_rules.specs.Totals.{whole_score};
ghost use Rattle.score_director.specs.Net.{AreNetsOf, weights_of};
ghost use Rattle.score_director.specs.NetState.{IsSameNet, KeepsNet, is_open};
ghost use Rattle.score_director.specs.Keys.{all_keys, keys_in};
ghost use Rattle.score_director.specs.Worth.{HasTurned, IsNetFor};

use crate::net::Net;
use crate::sums::score_of_totals;
use plan_facts::{Memory, Plan};
use plan_moves::Touch;
use plan_recalc::score;
use plan_rules::{Book, Judges, Rules, Steps};
use plan_scores::PlanScore;
use std::alloc::Global;
use std::sync::ledger::Ledger;

/// A network that stands for a plan, and what the plan is worth.
#[derive(Drop)]
pub struct Worth {
    pub net: Net,
    pub score: PlanScore,
}

/// Appends the keys of the records of a class.
fn push_keys(plan: &Plan, class: u8, keys: &mut Vec<Touch>) -> Result<(), Memory>
    ensures { OnOk result (keys.new.items ≡ keys.old.items ++ keys_in plan.now class) }
{
    for id in plan.ids(class) {
        keys.push(Touch { class, id: *id })?;
    }
    Ok(())
}

/// The keys of all records, class by class.
fn keys_of(alloc: Global, plan: &Plan) -> Result<Vec<Touch>, Memory>
    ensures { IfOk result (λ keys. keys.items ≡ all_keys plan.now) }
{
    let mut keys = Vec::new(alloc);
    for class in 0..plan.classes() {
        push_keys(plan, class, &mut keys)?;
    }
    Ok(keys)
}

/// What the plan is worth whose rules weigh so much together; none where sums are as great as those of rules in range never
/// are.
fn score_by_totals<B: Book>(
    rules: &Rules<B>,
    plan: &Plan,
    weights: &[u32],
    totals: &[u64],
) -> Option<PlanScore>
    requires each { length weights.now ≡ length rules.now.defs }
    requires totals { totals.now ≡ weights_of B.meaning (records_of plan.now) rules.now.defs }
    ensures { IfSome result (λ score. score ≡ whole_score B.meaning rules.now.defs weights.now plan.now) }
{
    let score = score_of_totals(rules.defs.as_slice(), weights, totals)?;
    Some(PlanScore {
        unplaced: plan.unplaced(),
        score,
    })
}

/// What the plan is worth whose rules weigh so much together. Where sums are as great as those of rules in range never
/// are, the slow calculator finds it.
fn score_from<B: Book, L: Ledger>(
    alloc: Global,
    rules: &Rules<B>,
    plan: &Plan,
    weights: &[u32],
    totals: &[u64],
    steps: &mut Steps<L>,
) -> Result<PlanScore, Memory>
    requires judges { ⟦<Rules<B> as Judges>⟧.judges rules.now weights.now (sizes_of plan.now) }
    requires totals { totals.now ≡ weights_of B.meaning (records_of plan.now) rules.now.defs }
    ensures { IfOk result (λ score. score ≡ whole_score B.meaning rules.now.defs weights.now plan.now) }
{
    match score_by_totals(rules, plan, weights, totals) {
        Some(score) => Ok(score),
        None => score(alloc, rules, plan, weights, steps),
    }
}

/// What the plan is worth that the network stands for.
fn score_now<B: Book, L: Ledger>(
    alloc: Global,
    net: &Net,
    rules: &Rules<B>,
    plan: &Plan,
    weights: &[u32],
    steps: &mut Steps<L>,
) -> Result<PlanScore, Memory>
    requires judges { ⟦<Rules<B> as Judges>⟧.judges rules.now weights.now (sizes_of plan.now) }
    requires network { IsNetFor B.meaning rules.now.defs plan.now net.now }
    ensures { IfOk result (λ score. score ≡ whole_score B.meaning rules.now.defs weights.now plan.now) }
{
    let mut totals = Vec::new(alloc);
    net.weights(&mut totals)?;
    score_from(alloc, rules, plan, weights, &totals, steps)
}

/// What the plan is worth under these weights that the network stands for, as the network knows it: no closure is asked.
/// Where sums are as great as those of rules in range never are, there is no room for the score.
pub fn score_known<B: Book>(
    alloc: Global,
    net: &Net,
    rules: &Rules<B>,
    plan: &Plan,
    weights: &[u32],
) -> Result<PlanScore, Memory>
    requires each { length weights.now ≡ length rules.now.defs }
    requires network { IsNetFor B.meaning rules.now.defs plan.now net.now }
    ensures { IfOk result (λ score. score ≡ whole_score B.meaning rules.now.defs weights.now plan.now) }
{
    let mut totals = Vec::new(alloc);
    net.weights(&mut totals)?;
    score_by_totals(rules, plan, weights, &totals).ok_or(Memory)
}

/// The network that stands for a plan.
pub fn network_of<B: Book, L: Ledger>(
    alloc: Global,
    rules: &Rules<B>,
    plan: &Plan,
    weights: &[u32],
    steps: &mut Steps<L>,
) -> Result<Net, Memory>
    requires judges { ⟦<Rules<B> as Judges>⟧.judges rules.now weights.now (sizes_of plan.now) }
    ensures network { IfOk result (IsNetFor B.meaning rules.now.defs plan.now) }
    ensures rest { IfOk result (λ net. is_open net ≡ false) }
{
    let keys = keys_of(alloc, plan)?;
    let mut net = Net::new(alloc, rules, rules.schema.classes().max(plan.classes()))?;
    net.begin();
    net.turn(rules, plan, &keys, steps)?;
    net.commit();
    Ok(net)
}

/// The network that stands for a plan, and what the plan is worth.
pub fn worth_of<B: Book, L: Ledger>(
    alloc: Global,
    rules: &Rules<B>,
    plan: &Plan,
    weights: &[u32],
    steps: &mut Steps<L>,
) -> Result<Worth, Memory>
    requires judges { ⟦<Rules<B> as Judges>⟧.judges rules.now weights.now (sizes_of plan.now) }
    ensures network { IfOk result (λ worth. IsNetFor B.meaning rules.now.defs plan.now worth.net) }
    ensures rest { IfOk result (λ worth. is_open worth.net ≡ false) }
    ensures score { let whole = whole_score B.meaning rules.now.defs weights.now plan.now in
        IfOk result (λ worth. worth.score ≡ whole) }
{
    let net = network_of(alloc, rules, plan, weights, steps)?;
    let score = score_now(alloc, &net, rules, plan, weights, steps)?;
    Ok(Worth { net, score })
}

/// Leads the network on to a plan that has turned at these keys, and says what that is worth.
pub fn turned<B: Book, L: Ledger>(
    alloc: Global,
    net: &mut Net,
    rules: &Rules<B>,
    plan: &Plan,
    keys: &[Touch],
    weights: &[u32],
    steps: &mut Steps<L>,
) -> Result<PlanScore, Memory>
    requires judges { ⟦<Rules<B> as Judges>⟧.judges rules.now weights.now (sizes_of plan.now) }
    requires from { HasTurned B.meaning rules.now.defs net.old keys.now plan.now }
    requires open { is_open net.old ≡ true }
    requires whole { net.old.is_torn ≡ false }
    ensures network { OnOk result (IsNetFor B.meaning rules.now.defs plan.now net.new) }
    ensures keeps { KeepsNet net.old net.new }
    ensures own { AreNetsOf rules.now.defs net.new.rules }
    ensures score { IfOk result (λ score. score ≡ whole_score B.meaning rules.now.defs weights.now plan.now) }
{
    net.turn(rules, plan, keys, steps)?;
    Ok(score_now(alloc, net, rules, plan, weights, steps)?)
}

/// Leads the network on to a plan that has turned at these keys since the network stood for it, and says what that is
/// worth. At want of memory the network still stands for the plan before.
pub fn led_on<B: Book, L: Ledger>(
    alloc: Global,
    net: &mut Net,
    rules: &Rules<B>,
    plan: &Plan,
    keys: &[Touch],
    weights: &[u32],
    steps: &mut Steps<L>,
) -> Result<PlanScore, Memory>
    requires judges { ⟦<Rules<B> as Judges>⟧.judges rules.now weights.now (sizes_of plan.now) }
    requires from { HasTurned B.meaning rules.now.defs net.old keys.now plan.now }
    requires rest { is_open net.old ≡ false }
    ensures network { OnOk result (IsNetFor B.meaning rules.now.defs plan.now net.new) }
    ensures stays { OnErr result ((old : PlanView) → IsNetFor B.meaning rules.now.defs old net.old
        → IsNetFor B.meaning rules.now.defs old net.new) }
    ensures rest { is_open net.new ≡ false }
    ensures score { IfOk result (λ score. score ≡ whole_score B.meaning rules.now.defs weights.now plan.now) }
{
    net.begin();
    match turned(alloc, net, rules, plan, keys, weights, steps) {
        Ok(score) => {
            net.commit();
            Ok(score)
        }
        Err(fault) => {
            net.rollback();
            Err(fault)
        }
    }
}

/// What a plan is worth that has turned at these keys since the network stood for it. The network stays; `totals` is lent
/// for its memory alone.
pub fn foreseen<B: Book, L: Ledger>(
    alloc: Global,
    net: &mut Net,
    rules: &Rules<B>,
    plan: &Plan,
    keys: &[Touch],
    weights: &[u32],
    totals: &mut Vec<u64>,
    steps: &mut Steps<L>,
) -> Result<PlanScore, Memory>
    requires judges { ⟦<Rules<B> as Judges>⟧.judges rules.now weights.now (sizes_of plan.now) }
    requires from { HasTurned B.meaning rules.now.defs net.old keys.now plan.now }
    ensures same { IsSameNet net.old net.new }
    ensures score { IfOk result (λ score. score ≡ whole_score B.meaning rules.now.defs weights.now plan.now) }
{
    net.judge(rules, plan, keys, totals, steps)?;
    score_from(alloc, rules, plan, weights, totals, steps)
}
