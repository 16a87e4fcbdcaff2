//! The records of problems, and what the first bad one is refused for.

use crate::last_digit;
use json_values::read_value;
use plan_facts::Kind::{Name, Number};
use plan_facts::{Kind, Memory, Plan, Schema};
use problem_faults::{ProblemFault, write_refusal};
use problem_records::{Records, read_records};
use serde_json::Value;
use std::alloc::Global;
use std::test::Fail;
use test_plans::VarSketch::Var;
use test_plans::{ClassSketch, schema_of};

const TIMESLOT: u8 = 0;

const ROOM: u8 = 1;

const LESSON: u8 = 2;

const BLOCK: u8 = 3;

/// Timeslots, rooms, lessons that have a slot and a room, and blocks of teachers.
const TIMETABLE: &[ClassSketch] = &[
    ClassSketch(
        "timeslot",
        &[("day", Number), ("start", Number), ("end", Number)],
        &[],
    ),
    ClassSketch("room", &[("capacity", Number)], &[]),
    ClassSketch(
        "lesson",
        LESSON_FIELDS,
        &[Var("slot", TIMESLOT), Var("room", ROOM)],
    ),
    ClassSketch("block", &[("teacher", Name), ("day", Number)], &[]),
];

const LESSON_FIELDS: &[(&str, Kind)] = &[
    ("subject", Name),
    ("teacher", Name),
    ("group", Name),
    ("size", Number),
];

/// Whether the line of a refusal has these words.
fn has_words(alloc: Global, fault: &ProblemFault, words: &str) -> bool {
    let mut line = Vec::new(alloc);
    write_refusal(fault, &mut line).is_ok()
        && line.as_slice().strip_prefix(b"refused problem ") == Some(words.as_bytes())
}

/// Facts, and what they are refused for; `read` where they are read.
const FACTS: &[(&[u8], &str)] = &[
    (b"{}", "read"),
    (br#"{"lesson":[],"room":[]}"#, "read"),
    (br#"{"room":{}}"#, "shape /facts/room\n"),
    (br#"{"room":[[]]}"#, "shape /facts/room/0\n"),
    (br#"{"room":[{"capacity":1}]}"#, "shape /facts/room/0/id\n"),
    (
        br#"{"room":[{"id":0,"capacity":1}]}"#,
        "shape /facts/room/0/id\n",
    ),
    (
        br#"{"room":[{"id":1000000001,"capacity":1}]}"#,
        "shape /facts/room/0/id\n",
    ),
    (
        br#"{"room":[{"id":1.0,"capacity":1}]}"#,
        "shape /facts/room/0/id\n",
    ),
    (
        br#"{"room":[{"id":1000000000,"capacity":1},{"id":2}]}"#,
        "shape /facts/room/1/capacity\n",
    ),
    (
        br#"{"room":[{"id":1,"capacity":"x"}]}"#,
        "shape /facts/room/0/capacity\n",
    ),
    (
        br#"{"room":[{"id":1,"capacity":1,"x":1}]}"#,
        "shape /facts/room/0\n",
    ),
    (
        br#"{"room":[{"id":1,"capacity":1,"pinned":true}]}"#,
        "shape /facts/room/0\n",
    ),
    (br#"{"rum":[]}"#, "shape /facts\n"),
    (
        br#"{"rum":[],"room":[{"x":1}]}"#,
        "shape /facts/room/0/id\n",
    ),
    (br#"{"room":[{"id":1,"capacity":1000000000}]}"#, "read"),
    (br#"{"room":[{"id":1,"capacity":-1000000000}]}"#, "read"),
    (
        br#"{"room":[{"id":1,"capacity":1000000001}]}"#,
        "bad_field room#1 capacity\n",
    ),
    (
        br#"{"room":[{"id":1,"capacity":-1000000001}]}"#,
        "bad_field room#1 capacity\n",
    ),
    (
        br#"{"room":[{"id":1,"capacity":1},{"id":1,"capacity":1}]}"#,
        "double_id room#1\n",
    ),
];

/// The front of facts with one slot, one room and lessons.
const FRONT: &[u8] =
    br#"{"timeslot":[{"id":1,"day":1,"start":480,"end":540}],"room":[{"id":1,"capacity":30}],"lesson":["#;

/// A lesson's members after its subject and before further ones.
const LESSON_MEMBERS: &[u8] = br#","teacher":"t","group":"g","size":20"#;

/// A name of 64 bytes.
const LONG: &[u8] = b"aaaaaaaaaaaaaaaaaaaaaaaaaaaaaaaaaaaaaaaaaaaaaaaaaaaaaaaaaaaaaaaa";

/// A name of 65 bytes.
const LONGER: &[u8] = b"aaaaaaaaaaaaaaaaaaaaaaaaaaaaaaaaaaaaaaaaaaaaaaaaaaaaaaaaaaaaaaaaa";

/// What lessons say of their ids and further members, each with its subject, and what they are refused for.
const LESSONS: &[(&[(&[u8], &[u8])], &str)] = &[
    (&[(b"s", br#","id":1"#)], "read"),
    (&[(b"s", br#","id":1,"slot":1,"room":null"#)], "read"),
    (
        &[
            (b"s", br#","id":1,"pinned":true"#),
            (b"", br#","id":2,"pinned":false,"slot":9"#),
        ],
        "bad_field lesson#2 subject\n",
    ),
    (
        &[(b"s", br#","id":1,"pinned":null"#)],
        "shape /facts/lesson/0/pinned\n",
    ),
    (
        &[(b"s", br#","id":1,"pinned":"true","x":1"#)],
        "shape /facts/lesson/0/pinned\n",
    ),
    (
        &[(b"s", br#","id":1,"pinned":1,"slot":0"#)],
        "shape /facts/lesson/0/slot\n",
    ),
    (
        &[(b"s", br#","id":1,"pinned":true,"x":1"#)],
        "shape /facts/lesson/0\n",
    ),
    (
        &[(b"s", br#","id":1,"slot":"r""#)],
        "shape /facts/lesson/0/slot\n",
    ),
    (
        &[(b"s", br#","id":1,"slot":9"#), (b"s", br#","id":1"#)],
        "double_id lesson#1\n",
    ),
    (
        &[(b"s", br#","id":1,"slot":9"#)],
        "bad_value lesson#1 slot\n",
    ),
    (
        &[(b"s", br#","id":1,"slot":1,"room":2"#)],
        "bad_value lesson#1 room\n",
    ),
    (
        &[(b"s", br#","id":2,"slot":9"#), (b"", br#","id":1"#)],
        "bad_field lesson#1 subject\n",
    ),
    (
        &[(b"", br#","id":1"#), (b"s", br#","id":2,"x":1"#)],
        "shape /facts/lesson/1\n",
    ),
    (&[(LONGER, br#","id":1"#)], "bad_field lesson#1 subject\n"),
    (&[(LONG, br#","id":1"#)], "read"),
];

/// Whether the facts are answered so.
fn is_answered(alloc: Global, schema: &Schema, facts: &Value, wanted: &str) -> bool {
    match read_records(alloc, schema, facts) {
        Ok(_) => wanted == "read",
        Err(fault) => has_words(alloc, &fault, wanted),
    }
}

/// Whether the facts of these bytes are answered so.
fn answers(alloc: Global, schema: &Schema, facts: &[u8], wanted: &str) -> bool {
    match read_value(alloc, facts) {
        Ok(facts) => is_answered(alloc, schema, &facts, wanted),
        Err(_) => false,
    }
}

/// The place of the first facts that are answered otherwise.
fn wrong_facts(alloc: Global, schema: &Schema) -> Option<usize> {
    for (place, (facts, wanted)) in FACTS.iter().enumerate() {
        if !answers(alloc, schema, facts, wanted) {
            return Some(place);
        }
    }
    None
}

#[test]
fn refuses_the_first_bad_thing(rt: HostRuntime) -> Result<(), Fail> {
    let schema = schema_of(rt.alloc(), TIMETABLE)?;
    assert!(rt; wrong_facts(rt.alloc(), &schema) == None);
    Ok(())
}

/// Writes a lesson behind a comma, if there is one.
fn push_lesson(out: &mut Vec<u8>, comma: &[u8], subject: &[u8], more: &[u8]) -> Result<(), Memory> {
    out.extend_from_slice(comma)?;
    out.extend_from_slice(br#"{"subject":""#)?;
    out.extend_from_slice(subject)?;
    out.push(b'"')?;
    out.extend_from_slice(LESSON_MEMBERS)?;
    out.extend_from_slice(more)?;
    out.push(b'}')?;
    Ok(())
}

/// Writes facts with a slot, a room, and these lessons.
fn push_lessons(out: &mut Vec<u8>, lessons: &[(&[u8], &[u8])]) -> Result<(), Memory> {
    out.extend_from_slice(FRONT)?;
    let mut comma: &[u8] = b"";
    for (subject, more) in lessons {
        push_lesson(out, comma, subject, more)?;
        comma = b",";
    }
    out.extend_from_slice(b"]}")?;
    Ok(())
}

/// Whether facts with these lessons are answered so.
fn answers_lessons(
    alloc: Global,
    schema: &Schema,
    lessons: &[(&[u8], &[u8])],
    wanted: &str,
) -> bool {
    let mut facts = Vec::new(alloc);
    push_lessons(&mut facts, lessons).is_ok() && answers(alloc, schema, &facts, wanted)
}

/// The place of the first lessons that are answered otherwise.
fn wrong_lessons(alloc: Global, schema: &Schema) -> Option<usize> {
    for (place, (lessons, wanted)) in LESSONS.iter().enumerate() {
        if !answers_lessons(alloc, schema, lessons, wanted) {
            return Some(place);
        }
    }
    None
}

#[test]
fn refuses_the_first_bad_lesson(rt: HostRuntime) -> Result<(), Fail> {
    let schema = schema_of(rt.alloc(), TIMETABLE)?;
    assert!(rt; wrong_lessons(rt.alloc(), &schema) == None);
    Ok(())
}

/// Writes a room behind a comma, its id with seven digits.
fn push_room(out: &mut Vec<u8>, id: u32) -> Result<(), Memory> {
    out.extend_from_slice(br#",{"id":1"#)?;
    for place in [100_000, 10_000, 1_000, 100, 10, 1] {
        out.push(last_digit(id / place))?;
    }
    out.extend_from_slice(br#","capacity":1}"#)?;
    Ok(())
}

/// Writes facts with so many rooms and nothing else, of ids of seven digits but for the first one.
fn push_rooms(out: &mut Vec<u8>, count: u32) -> Result<(), Memory> {
    out.extend_from_slice(br#"{"room":[{"id":1,"capacity":1}"#)?;
    for id in 1..count {
        push_room(out, id)?;
    }
    out.extend_from_slice(b"]}")?;
    Ok(())
}

/// Whether facts with so many rooms are answered so.
fn answers_rooms(alloc: Global, schema: &Schema, count: u32, wanted: &str) -> bool {
    let mut facts = Vec::new(alloc);
    push_rooms(&mut facts, count).is_ok() && answers(alloc, schema, &facts, wanted)
}

#[test]
fn reads_as_many_records_as_a_plan_may_have(rt: HostRuntime) -> Result<(), Fail> {
    let schema = schema_of(rt.alloc(), TIMETABLE)?;
    let most = answers_rooms(rt.alloc(), &schema, 100_000, "read");
    let more = answers_rooms(rt.alloc(), &schema, 100_001, "too_many_facts\n");
    assert!(rt; most && more);
    Ok(())
}

/// Facts whose names stand in no order of their own.
const NAMED: &[u8] =
    br#"{"block":[{"id":3,"teacher":"bob","day":2}],"room":[{"id":9,"capacity":5}],"lesson":[
{"id":8,"subject":"maths","teacher":"ann","group":"one","size":20,"room":9,"pinned":true},
{"id":4,"subject":"maths","teacher":"bob","group":"ann","size":-1}]}"#;

/// A record: class, id, fields, values, and whether it is pinned.
#[derive(Clone, Copy)]
struct Wanted(u8, u32, &'static [i64], &'static [Option<u32>], bool);

/// The records of these facts.
const RECORDS: [Wanted; 4] = [
    Wanted(ROOM, 9, &[5], &[], false),
    Wanted(LESSON, 8, &[0, 1, 2, 20], &[None, Some(9)], true),
    Wanted(LESSON, 4, &[0, 3, 1, -1], &[None, None], false),
    Wanted(BLOCK, 3, &[3, 2], &[], false),
];

/// Whether the plan has the record.
fn has(plan: &Plan, wanted: &Wanted) -> bool {
    match plan.raw(wanted.0, wanted.1) {
        Some(raw) => {
            raw.fields.as_slice() == wanted.2
                && raw.values.as_slice() == wanted.3
                && raw.pinned == wanted.4
        }
        None => false,
    }
}

/// The id of the first record that the plan doesn't have.
fn wrong_record(plan: &Plan) -> Option<u32> {
    for wanted in &RECORDS {
        if !has(plan, wanted) {
            return Some(wanted.1);
        }
    }
    None
}

/// Whether the facts are read as these records, and four names, of which `bob` is the third.
fn reads_named(alloc: Global, schema: &Schema, facts: &Value) -> bool {
    match read_records(alloc, schema, facts) {
        Ok(read) => {
            wrong_record(&read.plan) == None
                && (read.plan.made(), read.names.count()) == (4, 4)
                && read.names.find(b"bob") == Some(3)
        }
        Err(_) => false,
    }
}

/// Whether the facts of the text are read so.
fn reads_text(alloc: Global, schema: &Schema) -> bool {
    match read_value(alloc, NAMED) {
        Ok(facts) => reads_named(alloc, schema, &facts),
        Err(_) => false,
    }
}

#[test]
fn numbers_names_in_the_order_of_the_facts(rt: HostRuntime) -> Result<(), Fail> {
    let schema = schema_of(rt.alloc(), TIMETABLE)?;
    assert!(rt; reads_text(rt.alloc(), &schema));
    Ok(())
}
