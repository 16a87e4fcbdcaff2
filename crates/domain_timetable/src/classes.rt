ghost use Rattle.std.specs.Prelude.{◌≡◌, IfOk};
ghost use Rattle.domain_timetable.specs.Tables.{timetable_classes, timeslot_class, room_class};
ghost use Rattle.domain_timetable.specs.Tables.{lesson_class, block_class};

use crate::names::{ROOM, TIMESLOT};
use domain_words::{Variable, class};
use plan_facts::{ClassDef, Kind, List, Memory, Schema};
use std::alloc::Global;

/// The timetable's classes: timeslots, rooms, lessons and blocks.
pub fn schema(alloc: Global) -> Result<Schema, Memory>
    ensures { IfOk result (λ schema. schema ≡ timetable_classes) }
{
    match Schema::build(classes(alloc)?) {
        Ok(schema) => Ok(schema),
        Err(_) => unreachable!(),
    }
}

/// The classes, in order.
fn classes(alloc: Global) -> Result<List<ClassDef>, Memory>
    ensures { IfOk result (λ classes. classes ≡ timetable_classes) }
{
    let mut classes = List::new(alloc);
    classes.push(timeslot(alloc)?)?;
    classes.push(room(alloc)?)?;
    classes.push(lesson(alloc)?)?;
    classes.push(block(alloc)?)?;
    Ok(classes)
}

/// An hour at which a lesson may be: its day, and the minutes at which it starts and ends.
fn timeslot(alloc: Global) -> Result<ClassDef, Memory>
    ensures { IfOk result (λ class. class ≡ timeslot_class) }
{
    let fields = [
        ("day", Kind::Number),
        ("start", Kind::Number),
        ("end", Kind::Number),
    ];
    class(alloc, "timeslot", &fields, &[])
}

/// A room that a lesson may be in.
fn room(alloc: Global) -> Result<ClassDef, Memory>
    ensures { IfOk result (λ class. class ≡ room_class) }
{
    class(alloc, "room", &[("capacity", Kind::Number)], &[])
}

/// A lesson, whose slot and room are planned.
fn lesson(alloc: Global) -> Result<ClassDef, Memory>
    ensures { IfOk result (λ class. class ≡ lesson_class) }
{
    let fields = [
        ("subject", Kind::Name),
        ("teacher", Kind::Name),
        ("group", Kind::Name),
        ("size", Kind::Number),
    ];
    let vars = [
        Variable {
            name: "slot",
            values: TIMESLOT,
            nullable: false,
        },
        Variable {
            name: "room",
            values: ROOM,
            nullable: false,
        },
    ];
    class(alloc, "lesson", &fields, &vars)
}

/// A day on which a teacher is away.
fn block(alloc: Global) -> Result<ClassDef, Memory>
    ensures { IfOk result (λ class. class ≡ block_class) }
{
    let fields = [("teacher", Kind::Name), ("day", Kind::Number)];
    class(alloc, "block", &fields, &[])
}
