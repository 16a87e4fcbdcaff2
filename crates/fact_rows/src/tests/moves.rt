//! Edits of a plan: their sets in order, which are doable, how they are taken back, and what variables may hold.
use super::fixtures::{Planned, make_plan};
use plan_facts::Kind::Number;
use plan_facts::{Memory, Plan};
use plan_moves::{Edit, Set, Touch, choice_at, choice_count};
use std::alloc::Global;
use std::test::Fail;
use test_plans::FactSketch::{Entity, Fact, Pinned};
use test_plans::VarSketch::{Nullable, Var};
use test_plans::{ClassSketch, FactSketch};

const LESSON: u8 = 0;

const SLOT: u8 = 1;

const ROOM: u8 = 2;

/// Lessons, each with a slot and a room, which may stay null.
const CLASSES: &[ClassSketch] = &[
    ClassSketch(
        "lesson",
        &[("size", Number)],
        &[Var("slot", SLOT), Nullable("room", ROOM)],
    ),
    ClassSketch("slot", &[("size", Number)], &[]),
    ClassSketch("room", &[("size", Number)], &[]),
];

/// The id of the pinned lesson.
const PINNED: u32 = 4;

/// Lesson 1 with slot 1 and room 1, lesson 2 with slot 2 and no room, the pinned lesson with slot 2 and room 2; slots 1,
/// 2 and 5; rooms 1 and 2.
const TIMETABLE: &[&[FactSketch]] = &[
    &[
        Entity(1, &[0], &[Some(1), Some(1)]),
        Entity(2, &[0], &[Some(2), None]),
        Pinned(PINNED, &[0], &[Some(2), Some(2)]),
    ],
    &[Fact(1, &[0]), Fact(2, &[0]), Fact(5, &[0])],
    &[Fact(1, &[0]), Fact(2, &[0])],
];

/// A variable of a fact and the value that it is to get: the class and the id of the fact, and the variable.
type Change = (u8, u32, u8, Option<u32>);

/// The set that makes a change.
fn set_of(change: &Change) -> Set {
    Set {
        class: change.0,
        id: change.1,
        var: change.2,
        value: change.3,
    }
}

/// Whether the edit has these sets, in this order.
fn has_sets(edit: &Edit, changes: &[Change]) -> bool {
    let sets = edit.sets();
    for place in 0..changes.len() {
        if sets.get(place) != Some(&set_of(&changes[place])) {
            return false;
        }
    }
    sets.len() == changes.len()
}

/// Whether the edit touches these facts, in this order.
fn touches(edit: &Edit, facts: &[Touch]) -> Result<bool, Memory> {
    let touched = edit.touched()?;
    Ok(touched.as_slice() == facts)
}

/// Puts, and whether each is new.
const PUTS: &[(Change, bool)] = &[
    ((LESSON, 2, 1, Some(7)), true),
    ((LESSON, 2, 0, None), true),
    ((ROOM, 1, 0, None), true),
    ((LESSON, 1, 1, Some(3)), true),
    ((LESSON, 2, 1, Some(8)), false),
    ((LESSON, 1, 1, Some(3)), false),
    ((LESSON, 3, 0, Some(1)), true),
    ((ROOM, 1, 0, None), false),
];

/// What is then put, in its order.
const PUT: &[Change] = &[
    (LESSON, 1, 1, Some(3)),
    (LESSON, 2, 0, None),
    (LESSON, 2, 1, Some(7)),
    (LESSON, 3, 0, Some(1)),
    (ROOM, 1, 0, None),
];

/// The facts that it touches.
const TOUCHED: &[Touch] = &[
    Touch {
        class: LESSON,
        id: 1,
    },
    Touch {
        class: LESSON,
        id: 2,
    },
    Touch {
        class: LESSON,
        id: 3,
    },
    Touch { class: ROOM, id: 1 },
];

/// The facts that an edit of two lessons touches.
const BOTH: &[Touch] = &[
    Touch {
        class: LESSON,
        id: 1,
    },
    Touch {
        class: LESSON,
        id: 2,
    },
];

/// Two lessons with slot 1 and room 1; slots 1 and 2; room 1.
const TWINS: &[&[FactSketch]] = &[
    &[
        Entity(1, &[0], &[Some(1), Some(1)]),
        Entity(2, &[0], &[Some(1), Some(1)]),
    ],
    &[Fact(1, &[0]), Fact(2, &[0])],
    &[Fact(1, &[0])],
];

/// Each lesson gets the other's slot and room.
const SWAP: &[Change] = &[
    (LESSON, 1, 0, Some(1)),
    (LESSON, 1, 1, Some(1)),
    (LESSON, 2, 0, Some(1)),
    (LESSON, 2, 1, Some(1)),
];

/// Puts of those, and of another slot for a lesson that has one.
const SWAP_PUTS: &[(Change, bool)] = &[
    ((LESSON, 1, 0, Some(1)), true),
    ((LESSON, 1, 1, Some(1)), true),
    ((LESSON, 2, 0, Some(1)), true),
    ((LESSON, 2, 1, Some(1)), true),
    ((LESSON, 1, 0, Some(2)), false),
];

/// The place of the first of these puts that isn't answered so.
fn wrong_put(edit: &mut Edit, puts: &[(Change, bool)]) -> Option<usize> {
    for place in 0..puts.len() {
        let (change, new) = &puts[place];
        if edit.put(set_of(change)) != Ok(*new) {
            return Some(place);
        }
    }
    None
}

/// Whether these puts are answered so, and put these changes, which touch these facts.
fn puts_all(
    alloc: Global,
    puts: &[(Change, bool)],
    changes: &[Change],
    touched: &[Touch],
) -> Result<bool, Memory> {
    let mut edit = Edit::new(alloc);
    let wrong = wrong_put(&mut edit, puts);
    let touching = touches(&edit, touched)?;
    Ok(wrong.is_none() && touching && has_sets(&edit, changes))
}

/// Sets that are out of order, two of them with one variable.
const FILLED: &[Change] = &[
    (LESSON, 2, 1, Some(7)),
    (LESSON, 1, 0, None),
    (LESSON, 2, 1, Some(8)),
    (LESSON, 1, 1, Some(3)),
];

/// Those that count, in their order.
const ORDERED: &[Change] = &[
    (LESSON, 1, 0, None),
    (LESSON, 1, 1, Some(3)),
    (LESSON, 2, 1, Some(7)),
];

/// Whether an edit of something else is filled with those.
fn is_filled(edit: &mut Edit) -> Result<bool, Memory> {
    edit.put_new(set_of(&(ROOM, 1, 0, None)))?;
    let sets = [
        set_of(&FILLED[0]),
        set_of(&FILLED[1]),
        set_of(&FILLED[2]),
        set_of(&FILLED[3]),
    ];
    edit.fill(&sets)?;
    Ok(has_sets(edit, ORDERED))
}

/// Whether an edit is filled anew, and cleared.
fn fills_and_clears(alloc: Global) -> Result<bool, Memory> {
    let mut edit = Edit::new(alloc);
    let filled = is_filled(&mut edit)?;
    edit.clear();
    Ok(filled && edit.sets().is_empty())
}

#[test]
fn edits_keep_their_sets_in_order(rt: HostRuntime) -> Result<(), Fail> {
    let alloc = rt.alloc();
    let put = puts_all(alloc, PUTS, PUT, TOUCHED)?;
    let swap = puts_all(alloc, SWAP_PUTS, SWAP, BOTH)?;
    let filled = fills_and_clears(alloc)?;
    assert!(rt; (put, swap, filled) == (true, true, true));
    Ok(())
}

/// The name of an edit, what it changes, and whether it is doable.
type NamedEdit = (&'static str, &'static [Change], bool);

/// Edits by name, and whether each is doable.
const EDITS: &[NamedEdit] = &[
    ("nothing", &[], false),
    ("another slot", &[(LESSON, 1, 0, Some(5))], true),
    ("the same slot", &[(LESSON, 1, 0, Some(1))], false),
    ("a slot that isn't live", &[(LESSON, 1, 0, Some(3))], false),
    ("a slot's id for a room", &[(LESSON, 1, 1, Some(5))], false),
    (
        "a lesson that isn't live",
        &[(LESSON, 3, 0, Some(1))],
        false,
    ),
    ("a third variable", &[(LESSON, 1, 2, Some(1))], false),
    ("a room taken away", &[(LESSON, 1, 1, None)], true),
    ("a null room kept", &[(LESSON, 2, 1, None)], false),
    (
        "one of two differs",
        &[(LESSON, 1, 0, Some(1)), (LESSON, 2, 1, Some(1))],
        true,
    ),
    (
        "one of two isn't legal",
        &[(LESSON, 1, 0, Some(5)), (LESSON, 2, 1, Some(3))],
        false,
    ),
    ("a variable of a slot", &[(SLOT, 1, 0, None)], false),
    (
        "another slot for a pinned lesson",
        &[(LESSON, PINNED, 0, Some(5))],
        false,
    ),
    (
        "a pinned lesson among others",
        &[(LESSON, 1, 0, Some(5)), (LESSON, PINNED, 1, None)],
        false,
    ),
];

/// Another slot for a lesson.
const MOVE: &[Change] = &[(LESSON, 1, 0, Some(2))];

/// Edits of the twins.
const TWIN_EDITS: &[NamedEdit] = &[
    ("a swap of equal values", SWAP, false),
    ("a move to another slot", MOVE, true),
];

/// Puts all of these into the edit; false where it sets one of their variables already.
fn put_all(edit: &mut Edit, changes: &[Change]) -> bool {
    for place in 0..changes.len() {
        if edit.put(set_of(&changes[place])) != Ok(true) {
            return false;
        }
    }
    true
}

/// Whether the plan takes an edit of these changes; none where they set a variable twice.
fn is_doable(alloc: Global, lessons: &Planned, changes: &[Change]) -> Option<bool> {
    let mut edit = Edit::new(alloc);
    if !put_all(&mut edit, changes) {
        return None;
    }
    Some(edit.doable(&lessons.schema, &lessons.plan))
}

/// The name of the first of these edits that isn't so.
fn wrong_edit(alloc: Global, lessons: &Planned, edits: &[NamedEdit]) -> Option<&'static str> {
    for place in 0..edits.len() {
        let (name, changes, doable) = edits[place];
        if is_doable(alloc, lessons, changes) != Some(doable) {
            return Some(name);
        }
    }
    None
}

/// What the slot and the room of lessons 1 and 2 are, and how many variables are null that may not stay so.
type State = ([Option<u32>; 2], [Option<u32>; 2], u32);

/// An edit, what takes it back, the facts that it touches, and the lessons after it and before.
struct Trip {
    there: &'static [Change],
    back: &'static [Change],
    touched: &'static [Touch],
    after: State,
    before: State,
}

const CHANGES: &[Change] = &[
    (LESSON, 2, 1, Some(2)),
    (LESSON, 1, 0, None),
    (LESSON, 1, 1, Some(2)),
];

/// What the variables of those held, in the order of sets.
const BACK: &[Change] = &[
    (LESSON, 1, 0, Some(1)),
    (LESSON, 1, 1, Some(1)),
    (LESSON, 2, 1, None),
];

/// Lessons 1 and 2 get another room, and lesson 1 loses its slot.
const LESSON_TRIP: Trip = Trip {
    there: CHANGES,
    back: BACK,
    touched: BOTH,
    after: ([None, Some(2)], [Some(2), Some(2)], 1),
    before: ([Some(1), Some(1)], [Some(2), None], 0),
};

/// Lesson 1 gets another slot.
const TWIN_TRIP: Trip = Trip {
    there: MOVE,
    back: &[(LESSON, 1, 0, Some(1))],
    touched: &[Touch {
        class: LESSON,
        id: 1,
    }],
    after: ([Some(2), Some(1)], [Some(1), Some(1)], 0),
    before: ([Some(1), Some(1)], [Some(1), Some(1)], 0),
};

/// Whether the lesson has these values.
fn holds(plan: &Plan, id: u32, values: &[Option<u32>]) -> bool {
    match plan.raw(LESSON, id) {
        Some(lesson) => lesson.values.as_slice() == values,
        None => false,
    }
}

/// Whether the lessons are in this state.
fn are_so(plan: &Plan, state: &State) -> bool {
    holds(plan, 1, &state.0) && holds(plan, 2, &state.1) && plan.unplaced() == state.2
}

/// Does an edit where it is doable; whether the lessons are in this state then.
fn leads_to(edit: &Edit, lessons: &mut Planned, state: &State) -> bool {
    if !edit.doable(&lessons.schema, &lessons.plan) {
        return false;
    }
    edit.apply(&mut lessons.plan);
    are_so(&lessons.plan, state)
}

/// Whether an edit, which is doable, has the inverse of the trip, and both lead where the trip says.
fn goes_and_returns(edit: &Edit, lessons: &mut Planned, trip: &Trip) -> Result<bool, Memory> {
    if !edit.doable(&lessons.schema, &lessons.plan) {
        return Ok(false);
    }
    let back = edit.inverse(&lessons.plan)?;
    Ok(
        has_sets(&back, trip.back)
            && leads_to(edit, lessons, &trip.after)
            && leads_to(&back, lessons, &trip.before),
    )
}

/// Whether the edit of the trip touches its facts, and is done and taken back.
fn is_taken_back(alloc: Global, lessons: &mut Planned, trip: &Trip) -> Result<bool, Memory> {
    let mut edit = Edit::new(alloc);
    let put = put_all(&mut edit, trip.there);
    let touching = touches(&edit, trip.touched)?;
    Ok(put && touching && goes_and_returns(&edit, lessons, trip)?)
}

/// Variables, places among their choices, and the choice there: null is the last one of a room.
const CHOICES: &[(u8, usize, Option<u32>)] = &[(0, 2, Some(5)), (1, 1, Some(2)), (1, 2, None)];

/// Whether a variable of lessons has three choices, and this one at this place.
fn is_choice(plan: &Plan, var: u8, place: usize, choice: Option<u32>) -> bool {
    if var as usize >= plan.ranges(LESSON).len() || place >= choice_count(plan, LESSON, var) {
        return false;
    }
    choice_count(plan, LESSON, var) == 3 && choice_at(plan, LESSON, var, place) == choice
}

/// The place of the first of those choices that isn't so.
fn wrong_choice(plan: &Plan) -> Option<usize> {
    let choices = CHOICES;
    for at in 0..choices.len() {
        let (var, place, choice) = choices[at];
        if !is_choice(plan, var, place, choice) {
            return Some(at);
        }
    }
    None
}

#[test]
fn edits_of_lessons_are_told_done_and_taken_back(rt: HostRuntime) -> Result<(), Fail> {
    let mut lessons = make_plan(rt.alloc(), CLASSES, TIMETABLE)?;
    let wrong = wrong_edit(rt.alloc(), &lessons, EDITS);
    let choice = (
        lessons.plan.ranges(LESSON).len(),
        wrong_choice(&lessons.plan),
    );
    let back = is_taken_back(rt.alloc(), &mut lessons, &LESSON_TRIP);
    assert!(rt; (wrong, choice, back) == (None, (2, None), Ok(true)));
    Ok(())
}

#[test]
fn edits_of_equal_lessons_are_told_done_and_taken_back(rt: HostRuntime) -> Result<(), Fail> {
    let mut twins = make_plan(rt.alloc(), CLASSES, TWINS)?;
    let wrong = wrong_edit(rt.alloc(), &twins, TWIN_EDITS);
    let back = is_taken_back(rt.alloc(), &mut twins, &TWIN_TRIP);
    assert!(rt; (wrong, back) == (None, Ok(true)));
    Ok(())
}
