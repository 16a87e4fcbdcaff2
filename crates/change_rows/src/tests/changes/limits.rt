//! Changes at the limits of facts and of combinations of values.

ghost use Rattle.std.specs.Prelude.{IfOk, IfSome};
ghost use Rattle.plan_changes.specs.Fits.{IsOfSchema};

use super::cases::{Case, first_wrong};
use super::made::{World, world_of};
use super::refused::Answer;
use crate::tests::expect_none;
use plan_changes::ChangeFault;
use plan_facts::{List, Memory, Plan, PlanFault, Raw, Schema};
use std::alloc::Global;
use std::test::Fail;
use test_plans::{ClassSketch, VarSketch, schema_of};

/// Slots, rooms, lessons that have both, and blocks, none with fields.
const CLASSES: &[ClassSketch] = &[
    ClassSketch("slot", &[], &[]),
    ClassSketch("room", &[], &[]),
    ClassSketch(
        "lesson",
        &[],
        &[VarSketch::Var("slot", 0), VarSketch::Nullable("room", 1)],
    ),
    ClassSketch("block", &[], &[]),
];

/// A line that makes a slot.
const SLOT: &str = r#"{"do":"add","class":"slot","fields":{}}"#;

/// A line that makes a room.
const ROOM: &str = r#"{"do":"add","class":"room","fields":{}}"#;

/// A line that makes a block.
const BLOCK: &str = r#"{"do":"add","class":"block","fields":{}}"#;

/// There are more than 65,536 combinations of the values of lessons.
const WIDE: ChangeFault = ChangeFault::RangeProduct { class: 2 };

/// Values at the limit of combinations, of which there are at most 65,536; then facts at the limit of those
/// that are ever made, at most 100,000.
const LIMITS: &[Case] = &[
    Case::Crowded([256, 254, 0, 0], ROOM, Answer::Taken),
    Case::Crowded([256, 255, 0, 0], ROOM, Answer::Refused(WIDE)),
    Case::Crowded([256, 255, 0, 0], SLOT, Answer::Refused(WIDE)),
    Case::Crowded([256, 255, 0, 0], BLOCK, Answer::Taken),
    Case::Crowded([0, 0, 0, 99_999], BLOCK, Answer::Taken),
    Case::Crowded(
        [0, 0, 0, 100_000],
        BLOCK,
        Answer::Refused(ChangeFault::TooManyFacts),
    ),
    Case::Crowded(
        [256, 255, 0, 99_489],
        ROOM,
        Answer::Refused(ChangeFault::TooManyFacts),
    ),
];

/// So many records without fields.
fn records(alloc: Global, count: u32) -> Result<List<Raw>, Memory> {
    let mut records = List::new(alloc);
    for place in 0..count {
        records.push(Raw {
            id: place + 1,
            fields: List::new(alloc),
            values: List::new(alloc),
            pinned: false,
        })?;
    }
    Ok(records)
}

/// Adds a list for each class, of so many records.
fn push_records(alloc: Global, lists: &mut List<List<Raw>>, counts: &[u32]) -> Result<(), Memory> {
    for count in counts {
        lists.push(records(alloc, *count)?)?;
    }
    Ok(())
}

/// A list for each class, of so many records.
fn lists(alloc: Global, counts: [u32; 4]) -> Result<List<List<Raw>>, Memory> {
    let mut lists = List::new(alloc);
    push_records(alloc, &mut lists, &counts)?;
    Ok(lists)
}

/// The plan of so many facts of each class.
#[tactic(auto, using(plan_changes::proofs::Schemas::made_schema))]
fn plan(alloc: Global, schema: &Schema, counts: [u32; 4]) -> Result<Plan, PlanFault>
    ensures { IfOk result (λ plan. IsOfSchema schema.now plan) }
{
    Plan::of(alloc, schema, lists(alloc, counts)?)
}

/// So many facts of each class of the schema; none at want of memory.
fn crowd_of(alloc: Global, schema: Schema, counts: [u32; 4]) -> Option<World>
    ensures { IfSome result (λ world. IsOfSchema world.schema world.plan) }
{
    match plan(alloc, &schema, counts) {
        Ok(plan) => Some(world_of(alloc, schema, plan)),
        Err(_) => None,
    }
}

/// So many facts of each class; none at want of memory.
pub(super) fn crowd(alloc: Global, counts: [u32; 4]) -> Option<World>
    ensures { IfSome result (λ world. IsOfSchema world.schema world.plan) }
{
    match schema_of(alloc, CLASSES) {
        Ok(schema) => crowd_of(alloc, schema, counts),
        Err(_) => None,
    }
}

#[test]
fn combinations_are_at_most_65536_and_facts_100000(rt: HostRuntime) -> Result<(), Fail> {
    expect_none(&rt, first_wrong(rt.alloc(), LIMITS));
    Ok(())
}
