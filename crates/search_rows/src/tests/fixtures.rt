//! What the tests of rules begin with: rules with their closures, and directors of plans.
ghost use Rattle.std.specs.Prelude.{◌≡◌, All, IfOk, IsTrue, None, OnOk};
ghost use Rattle.plan_changes.specs.Fits.{IsOfSchema};
ghost use Rattle.plan_rules.specs.Range.{sizes_of};

use plan_facts::{List, Memory, Plan, Schema};
use plan_rules::{Book, Harder, Judges, Kept, Key, RuleDef, Rules, Steps, Test, Weigh};
use score_director::Director;
use std::alloc::Global;
use std::sync::ledger::Ledger;
use std::test::Fail;
use test_plans::{FactSketch, plan_of};

/// One closure more, which keeps its word as the others do.
pub(super) fn push_kept<T: Kept + Drop>(all: &mut List<T>, closure: T) -> Result<(), Memory>
    requires all { All (λ closure. ⟦<T as Kept>⟧.keeps closure) all.old }
    requires one { ⟦<T as Kept>⟧.keeps closure }
    ensures { OnOk result (All (λ closure. ⟦<T as Kept>⟧.keeps closure) all.new) }
{
    all.push(closure)
}

/// These rules over the schema, with the closures that they ask, which keep their word.
pub(super) fn rules_of<B: Book>(
    alloc: Global,
    schema: &Schema,
    defs: List<RuleDef>,
    tests: List<Test<B>>,
    keys: List<Key<B>>,
    weighers: List<Weigh<B>>,
    harder: List<Harder>,
) -> Result<Rules<B>, Fail>
    requires tests { All (λ test. ⟦<Test<B> as Kept>⟧.keeps test) tests }
    requires keys { All (λ key. ⟦<Key<B> as Kept>⟧.keeps key) keys }
    requires weighers { All (λ weigher. ⟦<Weigh<B> as Kept>⟧.keeps weigher) weighers }
    ensures { IfOk result (λ rules. ⟦<Rules<B> as Kept>⟧.keeps rules) }
{
    Ok(Rules::build(alloc, schema, defs, tests, keys, weighers, harder)?)
}

/// How many facts each class has.
pub(super) fn sizes(alloc: Global, plan: &Plan) -> Result<List<u32>, Memory>
    ensures { IfOk result (λ sizes. sizes ≡ sizes_of plan.now) }
{
    let mut sizes = List::new(alloc);
    for class in 0..plan.classes() {
        sizes.push(plan.ids(class).len() as u32)?;
    }
    Ok(sizes)
}

/// Whether the rules may judge the plan under these weights.
pub(super) fn may_judge<B: Book>(
    alloc: Global,
    rules: &Rules<B>,
    plan: &Plan,
    weights: &[u32],
) -> Result<bool, Memory>
    requires { ⟦<Rules<B> as Kept>⟧.keeps rules.now }
    ensures { let judges = ⟦<Rules<B> as Judges>⟧.judges rules.now weights.now (sizes_of plan.now) in
        IfOk result (λ may. IsTrue may → judges) }
{
    let sizes = sizes(alloc, plan)?;
    Ok(
        weights.len() == rules.defs.len()
            && weights.iter().all(|weight| *weight <= 1_000_000)
            && rules.range_fault(sizes.as_slice(), weights).is_none(),
    )
}

/// The plan of these facts.
fn plan(alloc: Global, schema: &Schema, facts: &[&[FactSketch]]) -> Result<Plan, Fail>
    ensures { IfOk result (λ plan. IsOfSchema schema.now plan) }
{
    Ok(plan_of(alloc, schema, facts)?)
}

/// A director of the plan of these facts under these weights.
pub(super) fn director_of<B: Book, L: Ledger>(
    alloc: Global,
    rules: &Rules<B>,
    facts: &[&[FactSketch]],
    weights: &[u32],
    steps: &mut Steps<L>,
) -> Result<Director<B>, Fail>
    requires { ⟦<Rules<B> as Kept>⟧.keeps rules.now }
    ensures judges { IfOk result (λ d. ⟦<Rules<B> as Judges>⟧.judges rules.now d.weights (sizes_of d.plan)) }
    ensures own { IfOk result (λ d. rules.now.defs ≡ d.rules) }
    ensures rest { IfOk result (λ d. d.base ≡ None) }
    ensures schema { IfOk result (λ d. IsOfSchema rules.now.schema d.plan) }
{
    let plan = plan(alloc, &rules.schema, facts)?;
    if !may_judge(alloc, rules, &plan, weights)? {
        return Err("out of range".into());
    }
    let weights = List::from_slice(alloc, weights)?;
    Ok(Director::new(alloc, rules, plan, weights, steps)?)
}
