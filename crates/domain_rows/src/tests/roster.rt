//! The roster: its rules, its closures on rows, its maker.

ghost use Rattle.std.specs.Prelude.{◌≡◌, IfOk, length};

mod rules;

use crate::lone_row;
use domain_roster::{
    Maker, harder, key_value, numbers, open_schema, schema, test_value, weight_value,
};
use domain_words::ClosureNumbers;
use plan_facts::{List, Memory, Plan, Rec, Schema, Value};
use plan_moves::{Edit, MoveMaker, Set};
use plan_rules::{Part, Row};
use std::alloc::Global;
use std::test::Fail;
use test_plans::FactSketch::Entity;
use test_plans::{FactSketch, plan_of};

/// A part of a row, in short: a shift at these times, with a worker or with none; another fact; or a number.
enum Sketch {
    Filled([i64; 3]),
    Unfilled([i64; 3]),
    Fact(u8, u32, [i64; 2]),
    Num(i64),
}

/// A row, in short.
enum RowSketch {
    One(Sketch),
    Two(Sketch, Sketch),
    Three(i64, i64, Sketch),
}

use RowSketch::{One, Three, Two};
use Sketch::{Fact, Filled, Num, Unfilled};

/// A fact without variables.
fn fact(alloc: Global, class: u8, id: u32, fields: &[i64]) -> Result<Part, Memory> {
    let fields = List::from_slice(alloc, fields)?;
    let planned = List::new(alloc);
    Ok(Part::Fact(Rec {
        class,
        id,
        fields,
        planned,
    }))
}

/// Employee 9, with skill 8.
fn employee(alloc: Global) -> Result<Option<Value>, Memory> {
    let fields = List::from_slice(alloc, &[8, 2])?;
    Ok(Some(Value { id: 9, fields }))
}

/// A shift that asks for skill 7.
fn shift(alloc: Global, times: &[i64; 3], worker: Option<Value>) -> Result<Part, Memory> {
    let mut planned = List::new(alloc);
    planned.push(worker)?;
    let fields = List::from_slice(alloc, &[times[0], times[1], times[2], 7])?;
    Ok(Part::Fact(Rec {
        class: 1,
        id: 1,
        fields,
        planned,
    }))
}

/// The part that is sketched.
fn part(alloc: Global, sketch: &Sketch) -> Result<Part, Memory> {
    match sketch {
        Filled(times) => shift(alloc, times, employee(alloc)?),
        Unfilled(times) => shift(alloc, times, None),
        Fact(class, id, fields) => fact(alloc, *class, *id, fields),
        Num(number) => Ok(Part::Num(*number)),
    }
}

/// The row of two parts.
fn row_of_two(alloc: Global, one: Part, other: Part) -> Result<Row, Memory>
    ensures { IfOk result (λ row. length row ≡ 2) }
{
    let mut row = lone_row(alloc, one)?;
    row.push(other)?;
    Ok(row)
}

/// The row of two numbers and a part.
fn row_of_three(alloc: Global, one: i64, other: i64, third: Part) -> Result<Row, Memory> {
    let mut row = row_of_two(alloc, Part::Num(one), Part::Num(other))?;
    row.push(third)?;
    Ok(row)
}

/// The row that is sketched.
fn row_of(alloc: Global, sketch: &RowSketch) -> Result<Row, Memory> {
    match sketch {
        One(one) => lone_row(alloc, part(alloc, one)?),
        Two(one, other) => row_of_two(alloc, part(alloc, one)?, part(alloc, other)?),
        Three(one, other, third) => row_of_three(alloc, *one, *other, part(alloc, third)?),
    }
}

/// The greatest key.
const MAX: i64 = 1_000_000_000;

/// Rows, and what the keys from 16 on read of each.
const KEYS_READ: [(RowSketch, [i64; 12]); 8] = [
    (
        One(Filled([3, 420, 900])),
        [9, 3, 4, 420, 900, 0, 0, 0, 480, 0, 480, 0],
    ),
    (
        One(Filled([MAX, 900, 420])),
        [9, MAX, MAX, 900, 420, 0, 0, 0, 0, 0, 0, 0],
    ),
    (
        One(Filled([3, 0, 1441])),
        [9, 3, 4, 0, 1441, 0, 0, 0, 1440, 0, 1440, 0],
    ),
    (
        One(Unfilled([3, 420, 900])),
        [0, 0, 0, 0, 0, 0, 0, 0, 0, 0, 480, 0],
    ),
    (
        One(Fact(0, 5, [8, 2])),
        [0, 0, 0, 0, 0, 5, 0, 0, 0, 0, 0, 0],
    ),
    (
        One(Fact(2, 1, [9, 3])),
        [0, 0, 0, 0, 0, 0, 9, 3, 0, 0, 0, 0],
    ),
    (
        One(Fact(3, 1, [9, 3])),
        [0, 0, 0, 0, 0, 0, 9, 3, 0, 0, 0, 0],
    ),
    (One(Num(-MAX - 1)), [0, 0, 0, 0, 0, 0, 0, 0, 0, -MAX, 0, 0]),
];

/// Whether the keys read that of the row.
fn reads(row: &Row, wanted: &[i64; 12]) -> bool {
    for (number, wanted) in (16..28).zip(wanted.iter()) {
        if key_value(number, row) != *wanted {
            return false;
        }
    }
    true
}

/// Whether they read that of a sketched row.
fn sketch_reads(alloc: Global, sketch: &RowSketch, wanted: &[i64; 12]) -> Result<bool, Memory> {
    let row = row_of(alloc, sketch)?;
    Ok(reads(&row, wanted))
}

/// The place of the first row of which something else is read.
fn wrong_reading(alloc: Global) -> Option<usize> {
    for (place, (sketch, wanted)) in KEYS_READ.iter().enumerate() {
        if sketch_reads(alloc, sketch, wanted) != Ok(true) {
            return Some(place);
        }
    }
    None
}

#[test]
fn keys_read_their_numbers(rt: HostRuntime) -> Result<(), Fail> {
    assert!(rt; wrong_reading(rt.alloc()) == None);
    Ok(())
}

/// A shift that ends late.
const LATE: Sketch = Filled([3, 420, 900]);

/// Rows, and which of the tests from 16 on they pass.
const PASSED: [(RowSketch, &[u16]); 11] = [
    (One(LATE), &[16]),
    (One(Unfilled([3, 420, 900])), &[23]),
    (One(Fact(0, 9, [8, 2])), &[]),
    (Two(LATE, Filled([4, 59, 480])), &[16, 17]),
    (Two(LATE, Filled([4, 60, 480])), &[16]),
    (Three(9, 3, Fact(0, 9, [8, 2])), &[18]),
    (Three(9, 6, Num(359)), &[19, 21]),
    (Three(9, 2401, Num(1321)), &[19, 20, 22]),
    (Three(9, 2, Fact(0, 9, [8, 2])), &[]),
    (Three(9, 5, Num(360)), &[]),
    (Three(9, 2400, Num(1320)), &[19]),
];

/// Whether the row passes those tests alone.
fn passes(row: &Row, wanted: &[u16]) -> bool {
    for number in 16..25 {
        if test_value(number, row) != wanted.contains(&number) {
            return false;
        }
    }
    true
}

/// Whether a sketched row passes those tests alone.
fn sketch_passes(alloc: Global, sketch: &RowSketch, wanted: &[u16]) -> Result<bool, Memory> {
    let row = row_of(alloc, sketch)?;
    Ok(passes(&row, wanted))
}

/// The place of the first row that passes other tests.
fn wrong_passing(alloc: Global) -> Option<usize> {
    for (place, (sketch, wanted)) in PASSED.iter().enumerate() {
        if sketch_passes(alloc, sketch, wanted) != Ok(true) {
            return Some(place);
        }
    }
    None
}

#[test]
fn tests_answer(rt: HostRuntime) -> Result<(), Fail> {
    assert!(rt; wrong_passing(rt.alloc()) == None);
    Ok(())
}

/// Rows, and the weights that the weighers from 16 on give each.
const WEIGHED: [(RowSketch, [u32; 4]); 3] = [
    (Three(9, 5, Fact(0, 9, [8, 2])), [3, 0, 0, 0]),
    (Three(9, 2401, Num(0)), [0, 2396, 1, 0]),
    (Three(9, 20_000, Num(0)), [0, 10_000, 10_000, 0]),
];

/// The weights that the weighers from 16 on give the row.
fn weights(row: &Row) -> [u32; 4] {
    [
        weight_value(16, row),
        weight_value(17, row),
        weight_value(18, row),
        weight_value(19, row),
    ]
}

/// The place of the first row that is weighed otherwise.
fn wrong_weight(alloc: Global) -> Result<Option<usize>, Memory> {
    for (place, (sketch, wanted)) in WEIGHED.iter().enumerate() {
        let row = row_of(alloc, sketch)?;
        if weights(&row) != *wanted {
            return Ok(Some(place));
        }
    }
    Ok(None)
}

#[test]
fn weighers_answer(rt: HostRuntime) -> Result<(), Fail> {
    assert!(rt; wrong_weight(rt.alloc()) == Ok(None));
    Ok(())
}

/// Shifts 1 to 3, whose workers are the employees 1 and 2 and nobody.
const PLAN: &[&[FactSketch]] = &[
    &[FactSketch::Fact(1, &[7, 5]), FactSketch::Fact(2, &[7, 5])],
    &[
        Entity(1, &[1, 420, 900, 7], &[Some(1)]),
        Entity(2, &[2, 420, 900, 7], &[Some(2)]),
        Entity(3, &[3, 420, 900, 7], &[None]),
    ],
    &[],
    &[],
];

/// That plan.
fn plan(alloc: Global) -> Result<Plan, Fail> {
    let schema = schema(alloc)?;
    Ok(plan_of(alloc, &schema, PLAN)?)
}

/// The set that gives a shift a worker.
fn worker(id: u32, value: Option<u32>) -> Set {
    Set {
        class: 1,
        id,
        var: 0,
        value,
    }
}

/// Whether the maker makes these sets of the words; none where it makes nothing.
fn makes(
    alloc: Global,
    plan: &Plan,
    words: &[u32; 8],
    wanted: Option<&[Set]>,
) -> Result<bool, Memory> {
    let mut edit = Edit::new(alloc);
    let made = Maker.make(plan, words, &mut edit)?;
    Ok(match wanted {
        Some(sets) => made && edit.sets() == sets,
        None => !made,
    })
}

#[test]
fn the_maker_moves_workers_on(rt: HostRuntime) -> Result<(), Fail> {
    let plan = plan(rt.alloc())?;
    let wanted = [worker(1, Some(2)), worker(2, None), worker(3, Some(1))];
    let words = [0, 0, u32::MAX, 0, 1 << 31, 0, 0, 0];
    let moved = makes(rt.alloc(), &plan, &words, Some(&wanted));
    let none = makes(rt.alloc(), &plan, &[0, 0, u32::MAX, 0, 0, 0, 0, 0], None);
    assert!(rt; (moved, none) == (Ok(true), Ok(true)));
    Ok(())
}

#[test]
fn harder_shifts_are_the_longer_ones(rt: HostRuntime) -> Result<(), Fail> {
    let harder = harder(rt.alloc())?;
    let pairs = harder.as_slice();
    assert!(rt; pairs.len() == 1 && pairs[0].class == 1 && pairs[0].key == 26);
    Ok(())
}

/// Whether these are the numbers of the closures.
fn has_all(all: &ClosureNumbers) -> bool {
    all.tests == [16, 17, 18, 19, 20, 21, 22, 23].as_slice()
        && all.keys == [16, 17, 18, 19, 20, 21, 22, 23, 24, 25, 26].as_slice()
        && all.weighers == [16, 17, 18].as_slice()
}

#[test]
fn the_closures_have_their_numbers(rt: HostRuntime) -> Result<(), Fail> {
    assert!(rt; has_all(&numbers()));
    Ok(())
}

/// Whether the worker of a shift may stay null; none where it isn't the one variable of a shift.
fn may_stay_open(schema: &Schema) -> Option<bool> {
    match schema.class(1)?.vars.as_slice() {
        [worker] => Some(worker.nullable),
        _ => None,
    }
}

#[test]
fn in_the_roster_a_worker_may_not_stay_null(rt: HostRuntime) -> Result<(), Fail> {
    let closed = schema(rt.alloc())?;
    assert!(rt; may_stay_open(&closed) == Some(false));
    Ok(())
}

#[test]
fn in_the_open_roster_a_worker_may_stay_null(rt: HostRuntime) -> Result<(), Fail> {
    let open_one = open_schema(rt.alloc())?;
    assert!(rt; may_stay_open(&open_one) == Some(true));
    Ok(())
}
