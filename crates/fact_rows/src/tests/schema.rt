//! The schema of a domain: classes at the limits, and what is refused.
use plan_facts::Kind::{self, Number};
use plan_facts::{Schema, SchemaFault};
use std::alloc::Global;
use std::test::Fail;
use test_plans::VarSketch::Var;
use test_plans::{ClassSketch, VarSketch, schema_of};

const SLOT: ClassSketch = ClassSketch("slot", &[("day", Number), ("start", Number)], &[]);

const LESSON: ClassSketch = ClassSketch("lesson", &[("size", Number)], &[Var("at", 0)]);

/// Sixteen fields.
const SIXTEEN: &[(&str, Kind)] = &[
    ("a", Number),
    ("b", Number),
    ("c", Number),
    ("d", Number),
    ("e", Number),
    ("f", Number),
    ("g", Number),
    ("h", Number),
    ("i", Number),
    ("j", Number),
    ("k", Number),
    ("l", Number),
    ("m", Number),
    ("n", Number),
    ("o", Number),
    ("p", Number),
];

/// A name of 32 bytes.
const LONG: &str = "wide_class_with_32_bytes_as_name";

/// Classes at the limits: the second has sixteen fields, two variables and a name of 32 bytes.
const WIDEST: &[ClassSketch] = &[
    SLOT,
    ClassSketch(LONG, SIXTEEN, &[Var("slot", 0), Var(LONG, 0)]),
    LESSON,
];

/// The schema of these classes, of which callers need to know nothing.
fn schema_with(alloc: Global, classes: &[ClassSketch]) -> Result<Schema, SchemaFault> {
    schema_of(alloc, classes)
}

/// Whether the schema's class with this number has this name.
fn is_named(schema: &Schema, class: u8, name: &str) -> bool {
    match schema.class(class) {
        Some(class) => class.name.as_slice() == name.as_bytes(),
        None => false,
    }
}

/// Whether the schema has three classes, of which the last is the lessons.
fn is_widest(schema: &Schema) -> bool {
    schema.classes() == 3 && is_named(schema, 2, "lesson") && schema.class(3).is_none()
}

/// Seventeen fields.
const SEVENTEEN: &[(&str, Kind)] = &[
    ("a", Number),
    ("b", Number),
    ("c", Number),
    ("d", Number),
    ("e", Number),
    ("f", Number),
    ("g", Number),
    ("h", Number),
    ("i", Number),
    ("j", Number),
    ("k", Number),
    ("l", Number),
    ("m", Number),
    ("n", Number),
    ("o", Number),
    ("p", Number),
    ("q", Number),
];

/// Three variables.
const THREE: &[VarSketch] = &[Var("x", 0), Var("y", 0), Var("x", 9)];

/// Classes, and the first of their faults.
const FAULTS: &[(&[ClassSketch], SchemaFault)] = &[
    (&[SLOT; 17], SchemaFault::TooManyClasses),
    (
        &[
            SLOT,
            ClassSketch("id", &[], THREE),
            ClassSketch("wide", SEVENTEEN, &[]),
        ],
        SchemaFault::TooManyFields { class: 2 },
    ),
    (
        &[
            ClassSketch("id", &[], &[Var("x", 9)]),
            SLOT,
            ClassSketch("many", &[], THREE),
        ],
        SchemaFault::TooManyVars { class: 2 },
    ),
    (
        &[SLOT, ClassSketch("lesson", &[], &[Var("x", 9)]), SLOT],
        SchemaFault::BadName { class: 2 },
    ),
    (
        &[ClassSketch("", &[], &[])],
        SchemaFault::BadName { class: 0 },
    ),
    (
        &[ClassSketch("Slot", &[], &[])],
        SchemaFault::BadName { class: 0 },
    ),
    (
        &[ClassSketch("_slot", &[], &[])],
        SchemaFault::BadName { class: 0 },
    ),
    (
        &[ClassSketch("a_name_of_33_bytes_is_one_too_big", &[], &[])],
        SchemaFault::BadName { class: 0 },
    ),
    (
        &[SLOT, ClassSketch("room", &[("id", Number)], &[])],
        SchemaFault::BadName { class: 1 },
    ),
    (
        &[SLOT, ClassSketch("room", &[("pinned", Number)], &[])],
        SchemaFault::BadName { class: 1 },
    ),
    (
        &[
            SLOT,
            ClassSketch("lesson", &[("at", Number)], &[Var("at", 0)]),
        ],
        SchemaFault::BadName { class: 1 },
    ),
    (
        &[
            SLOT,
            LESSON,
            ClassSketch("talk", &[], &[Var("at", 0), Var("after", 1)]),
        ],
        SchemaFault::BadRange { class: 2, var: 1 },
    ),
    (
        &[SLOT, ClassSketch("lesson", &[], &[Var("at", 2)])],
        SchemaFault::BadRange { class: 1, var: 0 },
    ),
];

/// The place of the first of those that isn't refused for its fault.
fn wrong_fault(alloc: Global) -> Option<usize> {
    let faults = FAULTS;
    for place in 0..faults.len() {
        let (classes, fault) = faults[place];
        if schema_with(alloc, classes).err() != Some(fault) {
            return Some(place);
        }
    }
    None
}

#[test]
fn accepts_classes_at_the_limits_and_names_the_first_fault(rt: HostRuntime) -> Result<(), Fail> {
    let schema = schema_with(rt.alloc(), WIDEST)?;
    let widest = is_widest(&schema);
    assert!(rt; (widest, wrong_fault(rt.alloc())) == (true, None));
    Ok(())
}
