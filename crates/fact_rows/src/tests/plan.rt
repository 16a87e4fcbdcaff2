//! The plan: what lists give, what is refused, and what each change of it does.
ghost use Rattle.std.specs.Prelude.{◌≡◌, OnOk};

use super::fixtures::plan_alone;
use plan_facts::Kind::Number;
use plan_facts::{FACT_LIMIT, List, Memory, Plan, PlanFault, Raw, Rec, Schema};
use std::alloc::Global;
use std::test::Fail;
use test_plans::FactSketch::{Entity, Fact, Pinned};
use test_plans::VarSketch::{Nullable, Var};
use test_plans::{ClassSketch, FactSketch, plan_of, schema_of};

const LESSON: u8 = 0;

const SLOT: u8 = 1;

const ROOM: u8 = 2;

/// Lessons with one field, which have a slot and a room; slots with two fields; rooms with one.
const CLASSES: &[ClassSketch] = &[
    ClassSketch(
        "lesson",
        &[("a", Number)],
        &[Var("slot", SLOT), Var("room", ROOM)],
    ),
    ClassSketch("slot", &[("a", Number), ("b", Number)], &[]),
    ClassSketch("room", &[("a", Number)], &[]),
];

/// Two lessons, of which the second has a slot and no room; three slots and two rooms, not in the order of their ids.
const TIMETABLE: &[&[FactSketch]] = &[
    &[
        Entity(2, &[30], &[Some(9), None]),
        Entity(1, &[25], &[None, None]),
    ],
    &[
        Fact(9, &[1, 480]),
        Fact(4, &[1, 540]),
        Fact(1_000_000_000, &[1_000_000_000, -1_000_000_000]),
    ],
    &[Fact(3, &[40]), Fact(1, &[20])],
];

/// A fact: its id, fields and values.
type Sketch = (u32, &'static [i64], &'static [Option<u32>]);

/// Whether the fact of this class is live and as sketched.
fn holds(plan: &Plan, class: u8, sketch: &Sketch) -> bool {
    match plan.raw(class, sketch.0) {
        Some(raw) => {
            raw.id == sketch.0
                && raw.fields.as_slice() == sketch.1
                && raw.values.as_slice() == sketch.2
        }
        None => false,
    }
}

/// Classes, with the ids of their live facts and the next one.
const IDS: &[(u8, &[u32], u32)] = &[
    (LESSON, &[1, 2], 3),
    (SLOT, &[4, 9, 1_000_000_000], 1_000_000_001),
    (ROOM, &[1, 3], 4),
    (3, &[], 1),
];

/// Whether the records have these ids.
fn are_records(records: &[Rec], ids: &[u32]) -> bool {
    if records.len() != ids.len() {
        return false;
    }
    for place in 0..ids.len() {
        if records[place].id != ids[place] {
            return false;
        }
    }
    true
}

/// Whether the live facts of the class have these ids, and its records too.
fn has_ids(plan: &Plan, class: u8, ids: &[u32]) -> Result<bool, Memory> {
    let records = plan.records(class)?;
    Ok(plan.ids(class) == ids && are_records(records.as_slice(), ids))
}

/// Whether these are the ids of the class's live facts and records, and its next one.
fn are_ids(plan: &Plan, class: u8, ids: &[u32], next: u32) -> bool {
    has_ids(plan, class, ids) == Ok(true) && plan.next_id(class) == next
}

/// The first class whose ids aren't those.
fn wrong_ids(plan: &Plan) -> Option<u8> {
    let classes = IDS;
    for place in 0..classes.len() {
        let (class, live, next) = classes[place];
        if !are_ids(plan, class, live, next) {
            return Some(class);
        }
    }
    None
}

/// The value of a variable: null, or the id and the fields of a fact.
type Held = Option<(u32, &'static [i64])>;

/// Whether a variable of the record holds this.
fn holds_value(rec: &Rec, var: usize, wanted: &Held) -> bool {
    match (rec.planned.get(var), wanted) {
        (Some(Some(value)), Some((id, fields))) => {
            value.id == *id && value.fields.as_slice() == *fields
        }
        (Some(None), None) => true,
        _ => false,
    }
}

/// Whether the variables of the record hold these.
fn holds_values(rec: &Rec, wanted: &[Held]) -> bool {
    for var in 0..wanted.len() {
        if !holds_value(rec, var, &wanted[var]) {
            return false;
        }
    }
    rec.planned.len() == wanted.len()
}

/// A resolved record: its class, id and fields, and the values of its variables.
type Whole = (u8, u32, &'static [i64], &'static [Held]);

/// Whether the record is this fact.
fn is_whole(rec: &Rec, wanted: &Whole) -> bool {
    rec.class == wanted.0
        && rec.id == wanted.1
        && rec.fields.as_slice() == wanted.2
        && holds_values(rec, wanted.3)
}

/// Whether this fact resolves to that, or is neither live nor resolved.
fn resolves(plan: &Plan, class: u8, id: u32, wanted: &Option<Whole>) -> Result<bool, Memory> {
    let found = plan.resolve(class, id)?;
    Ok(match (&found, wanted) {
        (Some(rec), Some(wanted)) => is_whole(rec, wanted),
        (None, None) => plan.raw(class, id).is_none(),
        _ => false,
    })
}

/// Whether a lent record is made that fact.
fn resolves_into(plan: &Plan, rec: &mut Rec, class: u8, id: u32, wanted: &Option<Whole>) -> bool {
    match (plan.resolve_into(class, id, rec), wanted) {
        (Ok(true), Some(wanted)) => is_whole(rec, wanted),
        (Ok(false), None) => true,
        _ => false,
    }
}

/// Facts, and the whole of each that is live.
const RECORDS: &[(u8, u32, Option<Whole>)] = &[
    (
        LESSON,
        2,
        Some((LESSON, 2, &[30], &[Some((9, &[1, 480])), None])),
    ),
    (ROOM, 3, Some((ROOM, 3, &[40], &[]))),
    (LESSON, 1, Some((LESSON, 1, &[25], &[None, None]))),
    (LESSON, 3, None),
    (ROOM, 1, Some((ROOM, 1, &[20], &[]))),
    (SLOT, 3, None),
    (3, 1, None),
    (255, 1, None),
];

/// The place of the first of those that isn't resolved so, or that a lent record isn't made.
fn wrong_record(plan: &Plan, rec: &mut Rec) -> Option<usize> {
    let records = RECORDS;
    for place in 0..records.len() {
        let (class, id, wanted) = &records[place];
        let found = resolves(plan, *class, *id, wanted) == Ok(true);
        if !found || !resolves_into(plan, rec, *class, *id, wanted) {
            return Some(place);
        }
    }
    None
}

/// Whether the plan gives the facts of the timetable.
fn is_timetable(plan: &Plan) -> bool {
    let lesson = holds(plan, LESSON, &(2, &[30], &[Some(9), None]));
    lesson && wrong_ids(plan).is_none() && plan.made() == 7 && plan.unplaced() == 3
}

/// The first of the records that is wrong, where one record is lent for all.
fn wrong_lent(plan: &Plan, alloc: Global) -> Option<usize> {
    let mut rec = Rec {
        class: SLOT,
        id: 7,
        fields: List::new(alloc),
        planned: List::new(alloc),
    };
    wrong_record(plan, &mut rec)
}

const ONE_SLOT: &[FactSketch] = &[Fact(1, &[0, 0])];

/// Lists, and the first of their faults.
const FAULTS: &[(&[&[FactSketch]], PlanFault)] = &[
    (&[&[Fact(0, &[])], ONE_SLOT], PlanFault::ClassCount),
    (
        &[&[], &[Fact(0, &[1])], &[]],
        PlanFault::BadId { class: SLOT, id: 0 },
    ),
    (
        &[&[], &[Fact(1_000_000_001, &[1, 1])], &[]],
        PlanFault::BadId {
            class: SLOT,
            id: 1_000_000_001,
        },
    ),
    (
        &[&[], &[Fact(5, &[1, 1]), Fact(5, &[1, 1])], &[]],
        PlanFault::BadId { class: SLOT, id: 5 },
    ),
    (
        &[
            &[],
            &[Fact(5, &[1, 1]), Fact(7, &[1]), Fact(5, &[1, 1])],
            &[],
        ],
        PlanFault::FieldCount { class: SLOT, id: 7 },
    ),
    (
        &[&[], &[Fact(7, &[1, 1, 1_000_000_001])], &[]],
        PlanFault::FieldCount { class: SLOT, id: 7 },
    ),
    (
        &[&[], &[Fact(7, &[1, 1_000_000_001])], &[]],
        PlanFault::FieldRange {
            class: SLOT,
            id: 7,
            field: 1,
        },
    ),
    (
        &[&[], &[Fact(7, &[-1_000_000_001, 1_000_000_001])], &[]],
        PlanFault::FieldRange {
            class: SLOT,
            id: 7,
            field: 0,
        },
    ),
    (
        &[
            &[Entity(1, &[1], &[Some(2), None])],
            ONE_SLOT,
            &[Fact(0, &[1])],
        ],
        PlanFault::BadId { class: ROOM, id: 0 },
    ),
    (
        &[&[Entity(1, &[1], &[Some(2), None])], ONE_SLOT, &[]],
        PlanFault::BadValue {
            class: LESSON,
            id: 1,
            var: 0,
        },
    ),
    (
        &[&[Entity(8, &[1], &[Some(1), Some(1)])], ONE_SLOT, &[]],
        PlanFault::BadValue {
            class: LESSON,
            id: 8,
            var: 1,
        },
    ),
    (
        &[&[Entity(8, &[1], &[Some(2)])], ONE_SLOT, &[]],
        PlanFault::BadValue {
            class: LESSON,
            id: 8,
            var: 0,
        },
    ),
    (
        &[&[Entity(8, &[1], &[Some(1)])], ONE_SLOT, &[]],
        PlanFault::BadValue {
            class: LESSON,
            id: 8,
            var: 2,
        },
    ),
    (
        &[
            &[Entity(8, &[1], &[None, None, None]), Entity(7, &[1], &[])],
            ONE_SLOT,
            &[],
        ],
        PlanFault::BadValue {
            class: LESSON,
            id: 8,
            var: 2,
        },
    ),
    (
        &[&[], &[Entity(3, &[1, 1], &[None])], &[]],
        PlanFault::BadValue {
            class: SLOT,
            id: 3,
            var: 0,
        },
    ),
];

/// The place of the first of those that isn't refused for its fault.
fn wrong_fault(alloc: Global, schema: &Schema) -> Option<usize> {
    let faults = FAULTS;
    for place in 0..faults.len() {
        let (lists, fault) = faults[place];
        if plan_of(alloc, schema, lists).err() != Some(fault) {
            return Some(place);
        }
    }
    None
}

/// A slot.
fn slot(alloc: Global, id: u32) -> Result<Raw, Memory> {
    let fields = List::from_slice(alloc, &[0, 0])?;
    let values = List::new(alloc);
    let pinned = false;
    Ok(Raw {
        id,
        fields,
        values,
        pinned,
    })
}

/// So many slots, the greatest id first.
fn slots(alloc: Global, count: u32) -> Result<List<Raw>, Memory> {
    let mut slots = List::new(alloc);
    for place in 0..count {
        let slot = slot(alloc, count - place)?;
        slots.push(slot)?;
    }
    Ok(slots)
}

/// No lesson, so many slots and no room.
fn lists_of_slots(alloc: Global, count: u32) -> Result<List<List<Raw>>, Memory> {
    let mut lists = List::new(alloc);
    for of_class in [0, count, 0] {
        lists.push(slots(alloc, of_class)?)?;
    }
    Ok(lists)
}

/// Sets a variable where that may be done.
fn try_set(plan: &mut Plan, class: u8, id: u32, var: u8, value: Option<u32>) -> bool {
    let Some(raw) = plan.raw(class, id) else {
        return false;
    };
    let place = var as usize;
    let ranges = plan.ranges(class);
    if place >= raw.values.len() || place >= ranges.len() {
        return false;
    }
    if let Some(held) = value {
        if plan.raw(ranges[place], held).is_none() {
            return false;
        }
    }
    plan.set(class, id, var, value);
    true
}

/// Sets a field where that may be done.
fn try_set_field(plan: &mut Plan, class: u8, id: u32, field: u8, number: i64) -> bool {
    let Some(raw) = plan.raw(class, id) else {
        return false;
    };
    if field as usize >= raw.fields.len() || number < -1_000_000_000 || number > 1_000_000_000 {
        return false;
    }
    plan.set_field(class, id, field, number);
    true
}

/// Adds a fact where its class is there.
fn try_add(plan: &mut Plan, alloc: Global, class: u8, sketch: &Sketch) -> Result<u32, PlanFault> {
    if class >= plan.classes() {
        return Err(PlanFault::ClassCount);
    }
    let fields = List::from_slice(alloc, sketch.1)?;
    let values = List::from_slice(alloc, sketch.2)?;
    plan.add(class, fields, values)
}

/// Adds a fact where its class is there, and takes it back; whether it was added.
fn add_and_take_back(
    plan: &mut Plan,
    alloc: Global,
    class: u8,
    sketch: &Sketch,
) -> Result<bool, PlanFault> {
    if class >= plan.classes() {
        return Ok(false);
    }
    let fields = List::from_slice(alloc, sketch.1)?;
    let values = List::from_slice(alloc, sketch.2)?;
    plan.add(class, fields, values)?;
    plan.take_back_newest(class);
    Ok(true)
}

/// Removes a fact where it is live, and puts it back; whether it was removed.
fn remove_and_put_back(plan: &mut Plan, class: u8, id: u32) -> Result<bool, Memory>
    ensures { OnOk result (plan.new ≡ plan.old) }
{
    if plan.raw(class, id).is_none() {
        return Ok(false);
    }
    let removal = plan.removal(class, id)?;
    if plan.remove(class, id) {
        plan.put_back(removal);
        return Ok(true);
    }
    Ok(false)
}

/// What is done with a plan, or looked at.
enum Step {
    /// Sets a variable of a fact; whether that may be done.
    Set(u8, u32, u8, Option<u32>, bool),
    /// Sets a field of a fact.
    SetField(u8, u32, u8, i64),
    /// Adds a fact; its id, or why it is refused.
    Add(u8, Sketch, Result<u32, PlanFault>),
    /// Adds a fact to the plan of the timetable, which is refused, and the plan stays.
    Refuse(u8, Sketch, PlanFault),
    /// Removes a fact; whether it was live.
    Remove(u8, u32, bool),
    /// Adds a fact and takes it back, so that the plan is that of the timetable again.
    AddAndTakeBack(u8, Sketch),
    /// Removes a fact and puts it back, so that the plan is that of the timetable again.
    RemoveAndPutBack(u8, u32),
    /// The ids of a class's live facts, and the next one.
    Ids(u8, &'static [u32], u32),
    /// A fact is live and so.
    Holds(u8, Sketch),
    /// A fact resolves to this.
    Resolves(u8, u32, Option<Whole>),
    /// A fact is pinned, or isn't.
    Pinned(u8, u32, bool),
}

/// Whether the step does what it says.
fn is_done(plan: &mut Plan, alloc: Global, step: &Step) -> bool {
    match step {
        Step::Set(class, id, var, value, done) => {
            try_set(plan, *class, *id, *var, *value) == *done
        }
        Step::SetField(class, id, field, number) => {
            try_set_field(plan, *class, *id, *field, *number)
        }
        Step::Add(class, sketch, answer) => try_add(plan, alloc, *class, sketch) == *answer,
        Step::Refuse(class, sketch, fault) => {
            try_add(plan, alloc, *class, sketch) == Err(*fault) && is_timetable(plan)
        }
        Step::Remove(class, id, live) => plan.remove(*class, *id) == *live,
        Step::AddAndTakeBack(class, sketch) => {
            add_and_take_back(plan, alloc, *class, sketch) == Ok(true) && is_timetable(plan)
        }
        Step::RemoveAndPutBack(class, id) => {
            remove_and_put_back(plan, *class, *id) == Ok(true) && is_timetable(plan)
        }
        Step::Ids(class, live, next) => are_ids(plan, *class, live, *next),
        Step::Holds(class, sketch) => holds(plan, *class, sketch),
        Step::Resolves(class, id, whole) => resolves(plan, *class, *id, whole) == Ok(true),
        Step::Pinned(class, id, pinned) => plan.pinned(*class, *id) == *pinned,
    }
}

/// A step, how many facts were made after it, and how many variables are null that may not stay so.
type Row = (Step, u32, u32);

/// The place of the first step that isn't so.
fn wrong_step(plan: &mut Plan, alloc: Global, rows: &[Row]) -> Option<usize> {
    for place in 0..rows.len() {
        let (step, made, unplaced) = &rows[place];
        let done = is_done(plan, alloc, step);
        if !done || plan.made() != *made || plan.unplaced() != *unplaced {
            return Some(place);
        }
    }
    None
}

/// Lesson 1 with slot 4, whose second field was set.
const LESSON_ONE: Option<Whole> = Some((LESSON, 1, &[25], &[Some((4, &[1, -600])), None]));

/// Variables and fields are set.
const SETS: &[Row] = &[
    (Step::Set(LESSON, 1, 0, Some(4), true), 7, 2),
    (Step::Set(LESSON, 2, 1, Some(3), true), 7, 1),
    (Step::Set(LESSON, 2, 0, None, true), 7, 2),
    (Step::Set(LESSON, 2, 0, None, true), 7, 2),
    (Step::Set(LESSON, 2, 1, Some(1), true), 7, 2),
    (Step::Set(LESSON, 1, 0, Some(5), false), 7, 2),
    (Step::SetField(SLOT, 4, 1, -600), 7, 2),
    (Step::Resolves(LESSON, 1, LESSON_ONE), 7, 2),
    (Step::Holds(LESSON, (1, &[25], &[Some(4), None])), 7, 2),
    (Step::Holds(LESSON, (2, &[30], &[None, Some(1)])), 7, 2),
];

const TOO_FEW_FIELDS: PlanFault = PlanFault::FieldCount {
    class: LESSON,
    id: 3,
};

const OUT_OF_RANGE: PlanFault = PlanFault::FieldRange {
    class: LESSON,
    id: 3,
    field: 0,
};

const BAD_SLOT: PlanFault = PlanFault::BadValue {
    class: LESSON,
    id: 3,
    var: 0,
};

const TOO_FEW_VALUES: PlanFault = PlanFault::BadValue {
    class: LESSON,
    id: 3,
    var: 2,
};

/// Lessons are refused; facts are added under new ids.
const ADDS: &[Row] = &[
    (
        Step::Refuse(LESSON, (0, &[], &[Some(5)]), TOO_FEW_FIELDS),
        7,
        3,
    ),
    (
        Step::Refuse(LESSON, (0, &[1_000_000_001], &[Some(5)]), OUT_OF_RANGE),
        7,
        3,
    ),
    (Step::Refuse(LESSON, (0, &[1], &[Some(5)]), BAD_SLOT), 7, 3),
    (
        Step::Refuse(LESSON, (0, &[1], &[Some(4)]), TOO_FEW_VALUES),
        7,
        3,
    ),
    (Step::Add(LESSON, (0, &[1], &[Some(4), None]), Ok(3)), 8, 4),
    (
        Step::Add(SLOT, (0, &[2, 480], &[]), Ok(1_000_000_001)),
        9,
        4,
    ),
    (
        Step::Add(LESSON, (0, &[1], &[Some(1_000_000_001), Some(1)]), Ok(4)),
        10,
        4,
    ),
    (
        Step::Holds(LESSON, (4, &[1], &[Some(1_000_000_001), Some(1)])),
        10,
        4,
    ),
    (Step::Remove(SLOT, 1_000_000_001, true), 10, 5),
    (
        Step::Ids(SLOT, &[4, 9, 1_000_000_000], 1_000_000_002),
        10,
        5,
    ),
];

/// Facts are removed, also from the variables.
const REMOVALS: &[Row] = &[
    (Step::Remove(SLOT, 5, false), 7, 3),
    (Step::Remove(SLOT, 9, true), 7, 4),
    (Step::Remove(SLOT, 9, false), 7, 4),
    (Step::Ids(SLOT, &[4, 1_000_000_000], 1_000_000_001), 7, 4),
    (Step::Holds(LESSON, (2, &[30], &[None, None])), 7, 4),
    (Step::Remove(LESSON, 1, true), 7, 2),
    (Step::Remove(3, 1, false), 7, 2),
];

/// A lesson without a room and a slot are added and taken back; a slot that a lesson has, the last slot, a lesson and a
/// room are removed and put back.
const RETURNS: &[Row] = &[
    (
        Step::AddAndTakeBack(LESSON, (0, &[1], &[Some(4), None])),
        7,
        3,
    ),
    (Step::AddAndTakeBack(SLOT, (0, &[2, 480], &[])), 7, 3),
    (Step::RemoveAndPutBack(SLOT, 9), 7, 3),
    (Step::RemoveAndPutBack(SLOT, 1_000_000_000), 7, 3),
    (Step::RemoveAndPutBack(LESSON, 1), 7, 3),
    (Step::RemoveAndPutBack(ROOM, 1), 7, 3),
];

/// What is done each with a copy of the timetable.
const SCRIPTS: &[&[Row]] = &[SETS, ADDS, REMOVALS, RETURNS];

/// Whether each step is so with a copy of the plan.
fn goes(plan: &Plan, alloc: Global, rows: &[Row]) -> Result<bool, Memory> {
    let mut copy = plan.copy()?;
    Ok(wrong_step(&mut copy, alloc, rows).is_none())
}

/// The place of the first script that isn't so.
fn wrong_script(plan: &Plan, alloc: Global) -> Option<usize> {
    let scripts = SCRIPTS;
    for place in 0..scripts.len() {
        if goes(plan, alloc, scripts[place]) != Ok(true) {
            return Some(place);
        }
    }
    None
}

/// What is wrong with the plan of the timetable, before, while and after copies of it are changed.
fn wrong_timetable(plan: &Plan, alloc: Global) -> (bool, Option<usize>, Option<usize>, bool) {
    let before = is_timetable(plan);
    let record = wrong_lent(plan, alloc);
    let script = wrong_script(plan, alloc);
    (before, record, script, is_timetable(plan))
}

#[test]
fn gives_what_lists_give_and_changes_by_itself(rt: HostRuntime) -> Result<(), Fail> {
    let plan = plan_alone(rt.alloc(), CLASSES, TIMETABLE)?;
    let found = wrong_timetable(&plan, rt.alloc());
    assert!(rt; found == (true, None, None, true));
    Ok(())
}

/// Nurses, and shifts which need a lead and may have a spare.
const WARD: &[ClassSketch] = &[
    ClassSketch("nurse", &[], &[]),
    ClassSketch("shift", &[], &[Var("lead", 0), Nullable("spare", 0)]),
];

const SHIFT: u8 = 1;

/// A nurse, and three shifts, of which two miss their lead and the first is pinned.
const SHIFTS: &[&[FactSketch]] = &[
    &[Fact(1, &[])],
    &[
        Pinned(1, &[], &[None, None]),
        Entity(2, &[], &[Some(1), None]),
        Entity(3, &[], &[None, Some(1)]),
    ],
];

/// Pins are told, and variables set, while what may not stay null is counted.
const WARD_STEPS: &[Row] = &[
    (Step::Pinned(SHIFT, 1, true), 4, 2),
    (Step::Pinned(SHIFT, 2, false), 4, 2),
    (Step::Pinned(SHIFT, 4, false), 4, 2),
    (Step::Pinned(0, 1, false), 4, 2),
    (Step::Pinned(2, 1, false), 4, 2),
    (Step::Set(SHIFT, 3, 1, None, true), 4, 2),
    (Step::Set(SHIFT, 1, 0, Some(1), true), 4, 1),
    (Step::Add(SHIFT, (0, &[], &[None, None]), Ok(4)), 5, 2),
    (Step::Pinned(SHIFT, 1, true), 5, 2),
    (Step::Pinned(SHIFT, 2, false), 5, 2),
    (Step::Pinned(SHIFT, 4, false), 5, 2),
    (Step::Pinned(0, 1, false), 5, 2),
    (Step::Pinned(2, 1, false), 5, 2),
    (Step::Remove(0, 1, true), 5, 4),
];

#[test]
fn counts_what_may_not_stay_null(rt: HostRuntime) -> Result<(), Fail> {
    let mut plan = plan_alone(rt.alloc(), WARD, SHIFTS)?;
    let nullable = plan.nullables(SHIFT) == [false, true].as_slice();
    assert!(rt; (nullable, wrong_step(&mut plan, rt.alloc(), WARD_STEPS)) == (true, None));
    Ok(())
}

/// The first of these steps that isn't so with so many slots, no lesson and no room; or why such a plan is refused.
fn wrong_with_slots(
    alloc: Global,
    schema: &Schema,
    count: u32,
    rows: &[Row],
) -> Result<Option<usize>, PlanFault> {
    let lists = lists_of_slots(alloc, count)?;
    let mut plan = Plan::of(alloc, schema, lists)?;
    Ok(wrong_step(&mut plan, alloc, rows))
}

/// The greatest of a hundred thousand slots.
const GREATEST: &[Row] = &[(Step::Holds(SLOT, (FACT_LIMIT, &[0, 0], &[])), FACT_LIMIT, 0)];

/// With a hundred thousand slots but one a room is added, and no second one, though a slot was removed.
const ROOMS: &[Row] = &[
    (Step::Add(ROOM, (0, &[7], &[]), Ok(1)), FACT_LIMIT, 0),
    (Step::Remove(SLOT, 5, true), FACT_LIMIT, 0),
    (
        Step::Add(ROOM, (0, &[7], &[]), Err(PlanFault::TooManyFacts)),
        FACT_LIMIT,
        0,
    ),
];

/// So many slots, what is done with them, and whether all of it is so, or why the plan is refused.
const LIMITS: &[(u32, &[Row], Result<Option<usize>, PlanFault>)] = &[
    (FACT_LIMIT + 1, &[], Err(PlanFault::TooManyFacts)),
    (FACT_LIMIT, GREATEST, Ok(None)),
    (FACT_LIMIT - 1, ROOMS, Ok(None)),
];

/// The place of the first of those that isn't so.
fn wrong_limit(alloc: Global, schema: &Schema) -> Option<usize> {
    let limits = LIMITS;
    for place in 0..limits.len() {
        let (count, rows, answer) = &limits[place];
        if wrong_with_slots(alloc, schema, *count, rows) != *answer {
            return Some(place);
        }
    }
    None
}

#[test]
fn takes_a_hundred_thousand_facts_and_names_the_first_fault(rt: HostRuntime) -> Result<(), Fail> {
    let schema = schema_of(rt.alloc(), CLASSES)?;
    let fault = wrong_fault(rt.alloc(), &schema);
    assert!(rt; (fault, wrong_limit(rt.alloc(), &schema)) == (None, None));
    Ok(())
}
