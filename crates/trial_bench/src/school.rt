//! A school of some size: its lessons, some twelve of which have one teacher and some three of these one day, the days on
//! which teachers are away, and what closures read off rows of these.
ghost use Rattle.std.specs.Prelude.{◌≡◌, ◌≤◌, option_copied};
ghost use Rattle.plan_rules.specs.Meaning.{IsKeyNumber};
ghost use Rattle.trial_bench.specs.School.{field_at, key_at, rooms_differ};

use domain_words::{are_different, key_or_zero};
use plan_facts::{Kind, List, Memory, Rec, Schema, SchemaFault};
use plan_rules::{Part, Row};
use std::alloc::Global;
use stream_heads::{Cell, Cells, CellsDelta, Heads};
use test_plans::{ClassSketch, schema_of};

/// The class of lessons.
pub const LESSON: u8 = 0;

/// The class of days on which a teacher is away.
pub const AWAY: u8 = 1;

/// The field of the room.
const ROOM: usize = 3;

/// Lessons and the days of absence. Both have the teacher and the day first.
const CLASSES: &[ClassSketch] = &[
    ClassSketch(
        "lesson",
        &[
            ("teacher", Kind::Number),
            ("day", Kind::Number),
            ("slot", Kind::Number),
            ("room", Kind::Number),
        ],
        &[],
    ),
    ClassSketch(
        "away",
        &[("teacher", Kind::Number), ("day", Kind::Number)],
        &[],
    ),
];

/// The schema of a school.
pub fn classes(alloc: Global) -> Result<Schema, SchemaFault> {
    schema_of(alloc, CLASSES)
}

/// A field of the record at a place of a row.
fn field_at(row: &Row, place: usize, field: usize) -> Option<i64>
    ensures { result ≡ field_at row.now place field }
{
    match row.part(place) {
        Some(Part::Fact(rec)) => rec.fields.get(field).copied(),
        _ => None,
    }
}

/// A field of the record that a row begins with, as a key.
pub fn key_at(row: &Row, field: usize) -> i64
    ensures value { result ≡ key_at field row.now }
    ensures range { IsKeyNumber result }
{
    key_or_zero(field_at(row, 0, field))
}

/// Whether a row is of two lessons in different rooms.
pub fn rooms_differ(row: &Row) -> bool
    ensures { result ≡ rooms_differ row.now }
{
    are_different(field_at(row, 0, ROOM), field_at(row, 1, ROOM))
}

/// How many teachers a school of so many lessons has.
fn teachers_of(size: u32) -> u32
    ensures { 1 ≤ result }
{
    (size / 12).max(1)
}

/// The record of a class with an id and these fields.
fn record(alloc: Global, class: u8, id: u32, fields: &[u32]) -> Result<Rec, Memory> {
    let mut numbers = List::new(alloc);
    for field in fields {
        numbers.push(i64::from(*field))?;
    }
    Ok(Rec {
        class,
        id,
        fields: numbers,
        planned: List::new(alloc),
    })
}

/// The lesson with an id, which stands where so many lessons later of its teacher one would stand. A teacher's lessons go
/// through four days and three rooms in turns.
pub fn lesson(alloc: Global, size: u32, id: u32, later: u32) -> Result<Rec, Memory> {
    let teachers = teachers_of(size);
    let nth = (id / teachers).saturating_add(later);
    let fields = [id % teachers, nth % 4, nth / 4, nth % 3];
    record(alloc, LESSON, id, &fields)
}

/// The day on which a teacher is away.
fn absence(alloc: Global, teacher: u32) -> Result<Rec, Memory> {
    record(alloc, AWAY, teacher, &[teacher, teacher % 4])
}

/// No row goes or comes.
pub fn nothing(alloc: Global) -> CellsDelta {
    CellsDelta {
        gone: Vec::new(alloc),
        come: Vec::new(alloc),
    }
}

/// The row of a record, which is taken in.
fn row_of(heads: &mut Heads, rec: Rec) -> Result<Cells, Memory> {
    let place = heads.add(rec)?;
    Ok(Cells::of(&[Cell::Place(place)]))
}

/// All lessons come, in the order of their ids.
fn lessons(alloc: Global, heads: &mut Heads, size: u32) -> Result<CellsDelta, Memory> {
    let mut rows = nothing(alloc);
    for id in 0..size {
        rows.come.push(row_of(heads, lesson(alloc, size, id, 0)?)?)?;
    }
    Ok(rows)
}

/// All days of absence come.
fn absences(alloc: Global, heads: &mut Heads, size: u32) -> Result<CellsDelta, Memory> {
    let mut rows = nothing(alloc);
    for teacher in 0..teachers_of(size) {
        rows.come.push(row_of(heads, absence(alloc, teacher)?)?)?;
    }
    Ok(rows)
}

/// A school: how many lessons it has, its records, and their rows.
pub struct School {
    pub size: u32,
    pub heads: Heads,
    pub lessons: CellsDelta,
    pub absences: CellsDelta,
}

// Written out, so that its owners let go of it by one call.
impl Drop for School {
    fn drop(self) {
        let School {
            size: _,
            heads,
            lessons,
            absences,
        } = self;
        drop(heads);
        drop(lessons);
        drop(absences);
    }
}

/// The school of so many lessons.
pub fn school_of(alloc: Global, size: u32) -> Result<School, Memory> {
    let mut heads = Heads::new(alloc);
    let lessons = lessons(alloc, &mut heads, size)?;
    let absences = absences(alloc, &mut heads, size)?;
    Ok(School {
        size,
        heads,
        lessons,
        absences,
    })
}
