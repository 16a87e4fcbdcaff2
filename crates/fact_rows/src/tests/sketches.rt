//! Sketches: the classes and facts that they stand for.

use plan_facts::Kind::{Name, Number};
use plan_facts::{Plan, PlanFault, Schema, SchemaFault};
use std::alloc::Global;
use std::test::Fail;
use test_plans::FactSketch::{Entity, Fact, Pinned};
use test_plans::VarSketch::{Nullable, Var};
use test_plans::{ClassSketch, FactSketch, plan_of, schema_of};

/// Days with a length; shifts with a crew, a day, and a spare day or none.
const CLASSES: &[ClassSketch] = &[
    ClassSketch("day", &[("length", Number)], &[]),
    ClassSketch(
        "shift",
        &[("crew", Name)],
        &[Var("first", 0), Nullable("spare", 0)],
    ),
];

/// Days and shifts, not in the order of their ids.
const DAYS: &[FactSketch] = &[Fact(4, &[480]), Fact(2, &[360])];

const SHIFTS: &[FactSketch] = &[
    Entity(1, &[7], &[Some(2), None]),
    Pinned(3, &[8], &[None, Some(4)]),
];

/// A fact of a class: its place there, its id, field and values, and whether it is pinned.
type Wanted = (u8, usize, u32, i64, &'static [Option<u32>], bool);

const WANTED: [Wanted; 4] = [
    (0, 0, 2, 360, &[], false),
    (0, 1, 4, 480, &[], false),
    (1, 0, 1, 7, &[Some(2), None], false),
    (1, 1, 3, 8, &[None, Some(4)], true),
];

/// Whether the fact is there.
fn is_there(plan: &Plan, wanted: &Wanted) -> bool {
    match plan.facts(wanted.0).get(wanted.1) {
        Some(raw) => {
            (raw.id, raw.pinned) == (wanted.2, wanted.5)
                && raw.fields.as_slice() == [wanted.3].as_slice()
                && raw.values.as_slice() == wanted.4
        }
        None => false,
    }
}

/// The first fact that isn't there, or a class that has more facts than wanted.
fn wrong_fact(plan: &Plan) -> Option<u32> {
    for wanted in WANTED {
        if !is_there(plan, &wanted) || plan.facts(wanted.0).len() != 2 {
            return Some(wanted.2);
        }
    }
    None
}

/// What is seen of the plan: the first wrong fact, and how many facts were made and variables are null.
fn seen(alloc: Global, schema: &Schema) -> Result<(Option<u32>, u32, u32), PlanFault> {
    let plan = plan_of(alloc, schema, &[DAYS, SHIFTS])?;
    Ok((wrong_fact(&plan), plan.made(), plan.unplaced()))
}

#[test]
fn sketches_stand_for_classes_and_facts(rt: HostRuntime) -> Result<(), Fail> {
    let schema = schema_of(rt.alloc(), CLASSES)?;
    let seen = seen(rt.alloc(), &schema);
    let refused = plan_of(rt.alloc(), &schema, &[DAYS]).err();
    assert!(rt; (seen, refused) == (Ok((None, 4, 1)), Some(PlanFault::ClassCount)));
    Ok(())
}

#[test]
fn a_sketch_of_an_unknown_class_is_refused(rt: HostRuntime) -> Result<(), Fail> {
    let refused = schema_of(rt.alloc(), &[CLASSES[1]]).err();
    assert!(rt; refused == Some(SchemaFault::BadRange { class: 0, var: 0 }));
    Ok(())
}
