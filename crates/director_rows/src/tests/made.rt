//! What tests of changes are made of: tasks and days, and a rule over them.
ghost use Rattle.std.specs.Prelude.{◌≡◌, ◌<◌, All, IfOk, IsTrue, None, false, pos};
ghost use Rattle.plan_changes.specs.Fits.{IsOfSchema};
ghost use Rattle.plan_rules.specs.Range.{sizes_of};

use plan_facts::{ClassDef, List, Memory, Plan, Raw, Schema, Text, VarDef};
use plan_rules::{Book, Head, Judges, Kept, Key, Node, RuleDef, Rules, Steps, Test, Weigh};
use plan_scores::Level;
use score_director::Director;
use std::alloc::Global;
use std::sync::ledger::Ledger;
use std::test::Fail;

/// No test holds, and keys and weighers give 0.
#[derive(Drop)]
pub(super) struct Zeros;

impl Book for Zeros {
    ghost meaning = { record { test_of = λ _ _. false; key_of = λ _ _. pos 0; weight_of = λ _ _. 0 } };
}

/// The class of the tasks.
pub(super) const TASK: u8 = 0;

/// The class of the days.
pub(super) const DAY: u8 = 1;

/// The number of the weigher.
pub(super) const WEIGHER: u16 = 9;

/// A class without fields.
fn class(alloc: Global, name: &[u8], vars: List<VarDef>) -> Result<ClassDef, Memory> {
    Ok(ClassDef {
        name: Text::from_slice(alloc, name)?,
        fields: List::new(alloc),
        vars,
    })
}

/// Tasks, each with a day, and days.
pub(super) fn schema(alloc: Global) -> Result<Schema, Fail> {
    let mut vars = List::new(alloc);
    vars.push(VarDef {
        name: Text::from_slice(alloc, b"day")?,
        values: DAY,
        nullable: false,
    })?;
    let mut classes = List::new(alloc);
    classes.push(class(alloc, b"task", vars)?)?;
    classes.push(class(alloc, b"day", List::new(alloc))?)?;
    Ok(Schema::build(classes)?)
}

/// A task without a day.
fn task(alloc: Global, id: u32) -> Result<Raw, Memory> {
    Ok(Raw {
        id,
        fields: List::new(alloc),
        values: List::from_slice(alloc, &[None])?,
        pinned: false,
    })
}

/// So many tasks without a day.
fn tasks(alloc: Global, size: u32) -> Result<List<Raw>, Memory>
    requires { size < 100000 }
{
    let mut tasks = List::new(alloc);
    for place in 0..size {
        tasks.push(task(alloc, place + 1)?)?;
    }
    Ok(tasks)
}

/// So many tasks without a day, and no day.
pub(super) fn plan(alloc: Global, schema: &Schema, size: u32) -> Result<Plan, Fail>
    requires { size < 100000 }
    ensures { IfOk result (λ plan. IsOfSchema schema.now plan) }
{
    let mut lists = List::new(alloc);
    lists.push(tasks(alloc, size)?)?;
    lists.push(List::new(alloc))?;
    Ok(Plan::of(alloc, schema, lists)?)
}

/// So many joins with all tasks.
fn joins_of(alloc: Global, joins: u8) -> Result<List<Node>, Memory> {
    let mut nodes = List::new(alloc);
    for _ in 0..joins {
        nodes.push(Node::Join(TASK, true, List::new(alloc)))?;
    }
    Ok(nodes)
}

/// The rule, with so many joins with all tasks and this weigher, if any.
fn rule(alloc: Global, joins: u8, weigh: Option<u16>) -> Result<RuleDef, Memory> {
    Ok(RuleDef {
        name: Text::from_slice(alloc, b"rule")?,
        level: Level::Hard,
        reward: false,
        weight: 1,
        weigh,
        head: Head::ForEach(TASK),
        nodes: joins_of(alloc, joins)?,
    })
}

/// No tests, which keep their word.
fn no_tests(alloc: Global) -> List<Test<Zeros>>
    ensures { All (λ test. ⟦<Test<Zeros> as Kept>⟧.keeps test) result }
{
    List::new(alloc)
}

/// No keys, which keep their word.
fn no_keys(alloc: Global) -> List<Key<Zeros>>
    ensures { All (λ key. ⟦<Key<Zeros> as Kept>⟧.keeps key) result }
{
    List::new(alloc)
}

/// A weigher, which keeps its word.
pub(super) fn one_weigher(
    alloc: Global,
    weigher: Weigh<Zeros>,
) -> Result<List<Weigh<Zeros>>, Memory>
    requires { ⟦<Weigh<Zeros> as Kept>⟧.keeps weigher }
    ensures { IfOk result (λ weighers. All (λ weigher. ⟦<Weigh<Zeros> as Kept>⟧.keeps weigher) weighers) }
{
    let mut weighers = List::new(alloc);
    weighers.push(weigher)?;
    Ok(weighers)
}

/// The one rule with these weighers, which keep their word, of which it may name one.
pub(super) fn rules_of(
    alloc: Global,
    schema: &Schema,
    joins: u8,
    weigh: Option<u16>,
    weighers: List<Weigh<Zeros>>,
) -> Result<Rules<Zeros>, Fail>
    requires { All (λ weigher. ⟦<Weigh<Zeros> as Kept>⟧.keeps weigher) weighers }
    ensures { IfOk result (λ rules. ⟦<Rules<Zeros> as Kept>⟧.keeps rules) }
{
    let mut defs = List::new(alloc);
    defs.push(rule(alloc, joins, weigh)?)?;
    let tests = no_tests(alloc);
    let keys = no_keys(alloc);
    let harder = List::new(alloc);
    Ok(Rules::build(alloc, schema, defs, tests, keys, weighers, harder)?)
}

/// How many facts each class has.
fn sizes(alloc: Global, plan: &Plan) -> Result<List<u32>, Memory>
    ensures { IfOk result (λ sizes. sizes ≡ sizes_of plan.now) }
{
    let mut sizes = List::new(alloc);
    for class in 0..plan.classes() {
        sizes.push(plan.ids(class).len() as u32)?;
    }
    Ok(sizes)
}

/// Whether the rules may judge the plan under these weights.
fn may_judge(
    alloc: Global,
    rules: &Rules<Zeros>,
    plan: &Plan,
    weights: &[u32],
) -> Result<bool, Memory>
    requires { ⟦<Rules<Zeros> as Kept>⟧.keeps rules.now }
    ensures { let judges = ⟦<Rules<Zeros> as Judges>⟧.judges rules.now weights.now (sizes_of plan.now) in
        IfOk result (λ may. IsTrue may → judges) }
{
    let sizes = sizes(alloc, plan)?;
    Ok(
        weights.len() == rules.defs.len()
            && weights.iter().all(|weight| *weight <= 1_000_000)
            && rules.range_fault(sizes.as_slice(), weights).is_none(),
    )
}

/// A director of so many tasks without a day, the rule having this weight.
pub(super) fn director_of<L: Ledger>(
    alloc: Global,
    rules: &Rules<Zeros>,
    schema: &Schema,
    size: u32,
    weight: u32,
    steps: &mut Steps<L>,
) -> Result<Director<Zeros>, Fail>
    requires few { size < 100000 }
    requires keeps { ⟦<Rules<Zeros> as Kept>⟧.keeps rules.now }
    ensures judges { IfOk result (λ d. ⟦<Rules<Zeros> as Judges>⟧.judges rules.now d.weights (sizes_of d.plan)) }
    ensures own { IfOk result (λ d. rules.now.defs ≡ d.rules) }
    ensures rest { IfOk result (λ d. d.base ≡ None) }
    ensures schema { IfOk result (λ d. IsOfSchema schema.now d.plan) }
{
    let plan = plan(alloc, schema, size)?;
    let weights = List::from_slice(alloc, &[weight])?;
    if !may_judge(alloc, rules, &plan, weights.as_slice())? {
        return Err("out of range".into());
    }
    Ok(Director::new(alloc, rules, plan, weights, steps)?)
}
