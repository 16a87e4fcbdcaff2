//! The timetable: its rules, its closures on rows, its maker.

ghost use Rattle.std.specs.Prelude.{◌≡◌, IfOk, length};

use crate::lone_row;
use domain_timetable::{Maker, defs, harder, key_value, numbers, schema, test_value, weight_value};
use domain_words::ClosureNumbers;
use plan_facts::{List, Memory, Plan, Rec, Value};
use plan_moves::{Edit, MoveMaker, Set};
use plan_rules::{Part, Row};
use std::alloc::Global;
use std::test::Fail;
use test_plans::FactSketch::{Entity, Fact};
use test_plans::{FactSketch, plan_of};

/// The value that a fact is.
fn value(alloc: Global, id: u32, fields: &[i64]) -> Result<Option<Value>, Memory> {
    let fields = List::from_slice(alloc, fields)?;
    Ok(Some(Value { id, fields }))
}

/// A lesson of subject 5, teacher 6 and group 7.
fn lesson(
    alloc: Global,
    size: i64,
    slot: Option<Value>,
    room: Option<Value>,
) -> Result<Part, Memory> {
    let mut planned = List::new(alloc);
    planned.push(slot)?;
    planned.push(room)?;
    let fields = List::from_slice(alloc, &[5, 6, 7, size])?;
    Ok(Part::Fact(Rec {
        class: 2,
        id: 1,
        fields,
        planned,
    }))
}

/// A lesson for 31 in a slot of day 1, from this minute to that, and a room that holds so many.
fn placed_lesson(alloc: Global, slot: (u32, i64, i64), room: (u32, i64)) -> Result<Part, Memory> {
    let (id, start, end) = slot;
    let slot = value(alloc, id, &[1, start, end])?;
    let room = value(alloc, room.0, &[room.1])?;
    lesson(alloc, 31, slot, room)
}

/// A lesson for 31 in slot 2 and room 3, which holds 30.
fn full_lesson(alloc: Global) -> Result<Row, Memory>
    ensures { IfOk result (λ row. length row ≡ 1) }
{
    lone_row(alloc, placed_lesson(alloc, (2, 480, 540), (3, 30))?)
}

/// That lesson and one in slot 4, which starts at this minute, and room 5.
fn two_lessons(alloc: Global, start: i64) -> Result<Row, Memory> {
    let mut row = full_lesson(alloc)?;
    row.push(placed_lesson(alloc, (4, start, 640), (5, 40))?)?;
    Ok(row)
}

/// Three numbers, of which this is the third.
fn three_numbers(alloc: Global, third: i64) -> Result<Row, Memory> {
    let mut row = lone_row(alloc, Part::Num(7))?;
    row.push(Part::Num(1))?;
    row.push(Part::Num(third))?;
    Ok(row)
}

/// Day 1 of teacher 6, who is away.
fn block(alloc: Global) -> Result<Row, Memory> {
    let fields = List::from_slice(alloc, &[6, 1])?;
    let planned = List::new(alloc);
    let fact = Part::Fact(Rec {
        class: 3,
        id: 1,
        fields,
        planned,
    });
    lone_row(alloc, fact)
}

/// A lesson that has a slot and no room.
fn homeless_lesson(alloc: Global) -> Result<Row, Memory> {
    let slot = value(alloc, 2, &[1, 480, 540])?;
    lone_row(alloc, lesson(alloc, 31, slot, None)?)
}

/// A row, in short.
enum Sketch {
    /// The lesson in slot 2 and room 3.
    Lesson,
    /// A lesson without a room.
    Homeless,
    /// That lesson, and one that starts at this minute.
    Lessons(i64),
    /// Three numbers, of which this is the third.
    Numbers(i64),
    /// A teacher's day away.
    Block,
}

use Sketch::{Block, Homeless, Lesson, Lessons, Numbers};

/// The row that is sketched.
fn row_of(alloc: Global, sketch: &Sketch) -> Result<Row, Memory> {
    match sketch {
        Lesson => full_lesson(alloc),
        Homeless => homeless_lesson(alloc),
        Lessons(start) => two_lessons(alloc, *start),
        Numbers(third) => three_numbers(alloc, *third),
        Block => block(alloc),
    }
}

/// Rows, and what the keys from 0 on read of each.
const KEYS_READ: [(Sketch, [i64; 10]); 3] = [
    (Lesson, [2, 3, 6, 7, 1, 5, 0, 0, 31, 0]),
    (Block, [0, 0, 0, 0, 0, 0, 6, 1, 0, 0]),
    (Homeless, [0, 0, 0, 0, 0, 0, 0, 0, 31, 0]),
];

/// Whether the keys read that of the row.
fn reads(row: &Row, wanted: &[i64; 10]) -> bool {
    for (number, wanted) in (0..10).zip(wanted.iter()) {
        if key_value(number, row) != *wanted {
            return false;
        }
    }
    true
}

/// Whether they read that of a sketched row.
fn sketch_reads(alloc: Global, sketch: &Sketch, wanted: &[i64; 10]) -> Result<bool, Memory> {
    let row = row_of(alloc, sketch)?;
    Ok(reads(&row, wanted))
}

/// The place of the first row of which something else is read.
fn wrong_reading(alloc: Global) -> Option<usize> {
    for (place, (sketch, wanted)) in KEYS_READ.iter().enumerate() {
        if sketch_reads(alloc, sketch, wanted) != Ok(true) {
            return Some(place);
        }
    }
    None
}

#[test]
fn keys_read_their_numbers(rt: HostRuntime) -> Result<(), Fail> {
    assert!(rt; wrong_reading(rt.alloc()) == None);
    Ok(())
}

/// What the key of the slot's id reads of a lesson in a slot whose id is greater than any key.
fn clipped_key(alloc: Global) -> Result<i64, Memory> {
    let row = lone_row(
        alloc,
        placed_lesson(alloc, (1_000_000_001, 480, 540), (3, 30))?,
    )?;
    Ok(key_value(0, &row))
}

#[test]
fn a_key_is_clipped(rt: HostRuntime) -> Result<(), Fail> {
    assert!(rt; clipped_key(rt.alloc()) == Ok(1_000_000_000));
    Ok(())
}

/// Rows, and which of the tests from 0 on they pass.
const PASSED: [(Sketch, &[u16]); 6] = [
    (Lessons(540), &[0, 1, 2]),
    (Lessons(570), &[0, 1, 2]),
    (Lessons(539), &[0, 1]),
    (Lessons(571), &[0, 1]),
    (Numbers(7), &[3]),
    (Numbers(6), &[]),
];

/// Whether the row passes those tests alone.
fn passes(row: &Row, wanted: &[u16]) -> bool {
    for number in 0..5 {
        if test_value(number, row) != wanted.contains(&number) {
            return false;
        }
    }
    true
}

/// Whether a sketched row passes those tests alone.
fn sketch_passes(alloc: Global, sketch: &Sketch, wanted: &[u16]) -> Result<bool, Memory> {
    let row = row_of(alloc, sketch)?;
    Ok(passes(&row, wanted))
}

/// The place of the first row that passes other tests.
fn wrong_passing(alloc: Global) -> Option<usize> {
    for (place, (sketch, wanted)) in PASSED.iter().enumerate() {
        if sketch_passes(alloc, sketch, wanted) != Ok(true) {
            return Some(place);
        }
    }
    None
}

#[test]
fn tests_answer(rt: HostRuntime) -> Result<(), Fail> {
    assert!(rt; wrong_passing(rt.alloc()) == None);
    Ok(())
}

/// Rows, and the weights that the weighers from 0 on give each.
const WEIGHED: [(Sketch, [u32; 3]); 3] = [
    (Lesson, [1, 0, 0]),
    (Numbers(9), [0, 3, 0]),
    (Numbers(20_000), [0, 10_000, 0]),
];

/// The place of the first row that is weighed otherwise.
fn wrong_weight(alloc: Global) -> Result<Option<usize>, Memory> {
    for (place, (sketch, wanted)) in WEIGHED.iter().enumerate() {
        let row = row_of(alloc, sketch)?;
        let weights = [
            weight_value(0, &row),
            weight_value(1, &row),
            weight_value(2, &row),
        ];
        if weights != *wanted {
            return Ok(Some(place));
        }
    }
    Ok(None)
}

#[test]
fn weighers_answer(rt: HostRuntime) -> Result<(), Fail> {
    assert!(rt; wrong_weight(rt.alloc()) == Ok(None));
    Ok(())
}

/// Lesson 1 in slot 1 and lesson 2 in slot 2.
const PLAN: &[&[FactSketch]] = &[
    &[Fact(1, &[1, 480, 540]), Fact(2, &[1, 540, 600])],
    &[],
    &[
        Entity(1, &[5, 6, 7, 30], &[Some(1), None]),
        Entity(2, &[5, 6, 7, 30], &[Some(2), None]),
    ],
    &[],
];

/// That plan.
fn plan(alloc: Global) -> Result<Plan, Fail> {
    let schema = schema(alloc)?;
    Ok(plan_of(alloc, &schema, PLAN)?)
}

/// The sets that exchange their slots.
const EXCHANGED: [Set; 2] = [
    Set {
        class: 2,
        id: 1,
        var: 0,
        value: Some(2),
    },
    Set {
        class: 2,
        id: 2,
        var: 0,
        value: Some(1),
    },
];

/// Whether the maker makes these sets of the words; none where it makes nothing.
fn makes(
    alloc: Global,
    plan: &Plan,
    words: &[u32; 8],
    wanted: Option<&[Set]>,
) -> Result<bool, Memory> {
    let mut edit = Edit::new(alloc);
    let made = Maker.make(plan, words, &mut edit)?;
    Ok(match wanted {
        Some(sets) => made && edit.sets() == sets,
        None => !made,
    })
}

#[test]
fn the_maker_exchanges_slots(rt: HostRuntime) -> Result<(), Fail> {
    let plan = plan(rt.alloc())?;
    let exchanged = makes(
        rt.alloc(),
        &plan,
        &[0, 0, 1 << 31, 0, 0, 0, 0, 0],
        Some(&EXCHANGED),
    );
    let none = makes(rt.alloc(), &plan, &[0; 8], None);
    assert!(rt; (exchanged, none) == (Ok(true), Ok(true)));
    Ok(())
}

#[test]
fn harder_lessons_are_the_greater_ones(rt: HostRuntime) -> Result<(), Fail> {
    let harder = harder(rt.alloc())?;
    let pairs = harder.as_slice();
    assert!(rt; pairs.len() == 1 && pairs[0].class == 2 && pairs[0].key == 8);
    Ok(())
}

/// Whether these are the numbers of the closures.
fn has_all(all: &ClosureNumbers) -> bool {
    all.tests == [0, 1, 2, 3].as_slice()
        && all.keys == [0, 1, 2, 3, 4, 5, 6, 7, 8].as_slice()
        && all.weighers == [0, 1].as_slice()
}

#[test]
fn there_are_nine_rules_that_ask_fifteen_closures(rt: HostRuntime) -> Result<(), Fail> {
    let rules = defs(rt.alloc())?;
    assert!(rt; rules.len() == 9 && has_all(&numbers()));
    Ok(())
}
