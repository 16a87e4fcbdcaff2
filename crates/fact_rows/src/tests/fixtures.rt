//! What the tests of plans, of moves and of selectors begin with.
use plan_facts::{Plan, Schema};
use std::alloc::Global;
use std::test::Fail;
use test_plans::{ClassSketch, FactSketch, plan_of, schema_of};

/// A plan and its schema.
#[derive(Drop)]
pub(super) struct Planned {
    pub schema: Schema,
    pub plan: Plan,
}

/// The plan of these facts of these classes.
pub(super) fn make_plan(
    alloc: Global,
    classes: &[ClassSketch],
    facts: &[&[FactSketch]],
) -> Result<Planned, Fail> {
    let schema = schema_of(alloc, classes)?;
    let plan = plan_of(alloc, &schema, facts)?;
    Ok(Planned { schema, plan })
}

/// The plan of these facts of these classes, without its schema.
pub(super) fn plan_alone(
    alloc: Global,
    classes: &[ClassSketch],
    facts: &[&[FactSketch]],
) -> Result<Plan, Fail> {
    let schema = schema_of(alloc, classes)?;
    let plan = plan_of(alloc, &schema, facts)?;
    Ok(plan)
}
