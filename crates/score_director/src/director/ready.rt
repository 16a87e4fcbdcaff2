//! Changes that may be made of a director's plan.

ghost use Rattle.std.specs.Prelude.{◌≡◌, ◌<◌, ◌≤◌, ◌+◌, ℕ, List, None, true, IfErr, IfOk, OnOk, length, option_map, slice_set};
ghost use Rattle.std.specs.Result.{result_err};
ghost use Rattle.plan_changes.specs.Deeds.{is_add, is_weight};
ghost use Rattle.plan_changes.specs.Fits.{IsOfSchema};
ghost use Rattle.plan_changes.specs.Performed.{HasRoom, MayPerform, plan_after, weights_after};
ghost use Rattle.plan_changes.specs.declared.fault.ChangeFault.TheVariants as ChangeFault;
ghost use Rattle.plan_facts.specs.Limits.{field_limit};
ghost use Rattle.plan_facts.specs.Plan.{IsPlan};
ghost use Rattle.plan_facts.specs.Refusal.{IsRefusal};
ghost use Rattle.plan_rules.specs.Range.{sizes_of};
ghost use Rattle.score_director.specs.Refused.{range_refusal, ready_fault, ready_for, sizes_with_one, widening_fault};

use super::Director;
use plan_changes::{Change, ChangeFault, Deed, Ready, prepare};
use plan_facts::{List, Memory, Names, Plan, Schema};
use plan_rules::{Book, Judges, RangeFault, Rules};
use std::alloc::Global;

/// How many live facts each class has.
fn sizes_of(alloc: Global, plan: &Plan) -> Result<List<u32>, Memory>
    ensures sizes { IfOk result (λ sizes. sizes ≡ sizes_of plan.now) }
    ensures sound { IsPlan plan.now }
{
    let mut sizes = List::new(alloc);
    for class in 0..plan.classes() {
        sizes.push(plan.ids(class).len() as u32)?;
    }
    Ok(sizes)
}

/// How many live facts each class has once one is added to this class.
fn sizes_grown(alloc: Global, plan: &Plan, class: u8) -> Result<List<u32>, Memory>
    requires { class < length plan.now.classes }
    ensures { IfOk result (λ sizes. sizes ≡ sizes_with_one (sizes_of plan.now) class) }
{
    let mut sizes = sizes_of(alloc, plan)?;
    sizes.as_mut_slice()[class as usize] += 1;
    Ok(sizes)
}

/// The weights of the rules once a rule has this one.
fn weights_with(
    alloc: Global,
    weights: &List<u32>,
    rule: u8,
    weight: u32,
) -> Result<List<u32>, Memory>
    requires { rule < length weights.now }
    ensures { IfOk result (λ after. after ≡ slice_set weights.now rule weight) }
{
    let mut after = weights.copy(alloc)?;
    after.as_mut_slice()[rule as usize] = weight;
    Ok(after)
}

/// Too many rows or too great a score of plans of these sizes under these weights.
fn check_range<B: Book>(
    rules: &Rules<B>,
    sizes: &List<u32>,
    weights: &List<u32>,
) -> Result<(), ChangeFault>
    requires { length weights.now ≡ length rules.now.defs }
    ensures { result_err result ≡ range_refusal sizes.now rules.now.defs weights.now rules.now.caps }
{
    match rules.range_fault(sizes.as_slice(), weights.as_slice()) {
        None => Ok(()),
        Some(RangeFault::RowsBound { rule }) => Err(ChangeFault::RowsBound { rule }),
        Some(RangeFault::ScoreRange) => Err(ChangeFault::ScoreRange),
    }
}

/// Too many rows or too great a score once a fact is added to this class of a plan.
fn check_grown<B: Book>(
    alloc: Global,
    rules: &Rules<B>,
    plan: &Plan,
    weights: &List<u32>,
    class: u8,
) -> Result<(), ChangeFault>
    requires class { class < length plan.now.classes }
    requires weights { length weights.now ≡ length rules.now.defs }
    ensures ok { let grown = sizes_with_one (sizes_of plan.now) class in
        OnOk result (range_refusal grown rules.now.defs weights.now rules.now.caps ≡ None) }
    ensures err { let grown = sizes_with_one (sizes_of plan.now) class in
        let found = range_refusal grown rules.now.defs weights.now rules.now.caps in
        IfErr result (IsRefusal ChangeFault.Memory found) }
{
    let sizes = sizes_grown(alloc, plan, class)?;
    check_range(rules, &sizes, weights)
}

/// Too many rows or too great a score of a plan once a rule has this weight.
fn check_weight<B: Book>(
    alloc: Global,
    rules: &Rules<B>,
    plan: &Plan,
    weights: &List<u32>,
    rule: u8,
    weight: u32,
) -> Result<(), ChangeFault>
    requires rule { rule < length weights.now }
    requires weights { length weights.now ≡ length rules.now.defs }
    ensures ok { let after = slice_set weights.now rule weight in
        OnOk result (range_refusal (sizes_of plan.now) rules.now.defs after rules.now.caps ≡ None) }
    ensures err { let after = slice_set weights.now rule weight in
        let found = range_refusal (sizes_of plan.now) rules.now.defs after rules.now.caps in
        IfErr result (IsRefusal ChangeFault.Memory found) }
{
    let sizes = sizes_of(alloc, plan)?;
    let after = weights_with(alloc, weights, rule, weight)?;
    check_range(rules, &sizes, &after)
}

impl<B: Book> Director<B> {
    /// What a change that is ready else is refused for: too many rows or too great a score after it.
    fn check_change(
        &self,
        rules: &Rules<B>,
        change: &Change,
        ready: &Ready,
    ) -> Result<(), ChangeFault>
        requires own { rules.now.defs ≡ self.now.rules }
        requires may { MayPerform ready.now self.now.plan (length self.now.weights) }
        requires deed { ready.now.deed ≡ change.now.deed }
        requires weight { is_weight change.now.deed ≡ true → ready.now.weight ≡ change.now.weight }
        ensures ok { (names : List (List ℕ)) →
            OnOk result (widening_fault rules.now.caps self.now names ready.now ≡ None) }
        ensures err { (names : List (List ℕ)) →
            let found = widening_fault rules.now.caps self.now names ready.now in
            IfErr result (IsRefusal ChangeFault.Memory found) }
    {
        match change.deed {
            Deed::Add => check_grown(self.alloc, rules, &self.plan, &self.weights, ready.class()),
            Deed::Weight => match ready.rule() {
                Some(rule) => check_weight(
                    self.alloc,
                    rules,
                    &self.plan,
                    &self.weights,
                    rule,
                    change.weight,
                ),
                None => unreachable!(),
            },
            Deed::Remove => Ok(()),
            Deed::Alter => Ok(()),
            Deed::Assign => Ok(()),
        }
    }

    /// A change that may be made of the plan, the names or the weights, or the first fault, which [`ChangeFault`] orders.
    /// Rows and score stay in range after a change that is ready. The schema is that of the plan.
    pub fn ready(
        &self,
        rules: &Rules<B>,
        schema: &Schema,
        names: &Names,
        change: &Change,
    ) -> Result<Ready, ChangeFault>
        requires own { rules.now.defs ≡ self.now.rules }
        requires schema { IsOfSchema schema.now self.now.plan }
        ensures ok { let caps = rules.now.caps in
            OnOk result (ready_fault schema.now caps self.now names.now change.now ≡ None) }
        ensures err { let found = ready_fault schema.now rules.now.caps self.now names.now change.now in
            IfErr result (IsRefusal ChangeFault.Memory found) }
        ensures ready { IfOk result (λ ready. ready ≡ ready_for schema.now self.now change.now) }

        // A change that is ready may be made.
        ensures may { IfOk result (λ ready. MayPerform ready self.now.plan (length self.now.weights)) }
        ensures room { length names.now + 16 ≤ field_limit → IfOk result (λ ready. HasRoom ready names.now) }
        ensures judges { ⟦<Rules<B> as Judges>⟧.judges rules.now self.now.weights (sizes_of self.now.plan)
            → IfOk result (λ ready.
            let weights = weights_after ready self.now.weights in
            let plan = plan_after ready names.now self.now.plan in
            ⟦<Rules<B> as Judges>⟧.judges rules.now weights (sizes_of plan)) }
    {
        let _few = rules.count();
        let ready = prepare(self.alloc, schema, &self.plan, names, rules.names(), change)?;
        match self.check_change(rules, change, &ready) {
            Ok(()) => Ok(ready),
            Err(fault) => Err(fault),
        }
    }
}
