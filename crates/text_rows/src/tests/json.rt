//! Problems from their bytes.

ghost use Rattle.std.specs.Prelude.{◌≡◌, IfOk, IsTrue};
ghost use Rattle.plan_facts.specs.Schema.{is_name};

use super::fixtures::{has_line, rule_of};
use crate::last_digit;
use plan_facts::Kind::{Name, Number};
use plan_facts::{Kind, List, Memory, Plan, Schema, Text, is_name};
use plan_json::{Domain, Problem, read_problem};
use plan_rules::{Book, RuleDef, Rules};
use plan_settings::Construction;
use std::alloc::Global;
use std::test::Fail;
use test_plans::VarSketch::{Nullable, Var};
use test_plans::{ClassSketch, schema_of};

const LESSON: u8 = 2;

/// The book of rules that ask no closure.
#[derive(Drop)]
struct Silent;

impl Book for Silent {
    ghost use Rattle.std.specs.Prelude.{pos, false};

    ghost meaning = { record { test_of = λ _ _. false; key_of = λ _ _. pos 0; weight_of = λ _ _. 0 } };
}

const TIMESLOT: ClassSketch = ClassSketch("timeslot", &[("day", Number)], &[]);

const ROOM: ClassSketch = ClassSketch("room", &[("capacity", Number)], &[]);

const LESSON_FIELDS: &[(&str, Kind)] = &[("subject", Name), ("size", Number)];

/// Timeslots, rooms, and lessons that have a slot and a room.
const TIMETABLE: &[ClassSketch] = &[
    TIMESLOT,
    ROOM,
    ClassSketch("lesson", LESSON_FIELDS, &[Var("slot", 0), Var("room", 1)]),
];

/// The same, but a lesson's slot may stay null.
const OPEN: &[ClassSketch] = &[
    TIMESLOT,
    ROOM,
    ClassSketch(
        "lesson",
        LESSON_FIELDS,
        &[Nullable("slot", 0), Var("room", 1)],
    ),
];

/// One rule, which every placed lesson matches, of weight 1.
fn rules(alloc: Global) -> Result<List<RuleDef>, Memory> {
    let mut rules = List::new(alloc);
    rules.push(rule_of(alloc, b"any_lesson", 1, LESSON)?)?;
    Ok(rules)
}

/// The text of a name.
fn name_of(alloc: Global, name: &[u8]) -> Result<Text, Fail>
    ensures { IfOk result (λ name. IsTrue (is_name name)) }
{
    let name = Text::from_slice(alloc, name)?;
    if is_name(name.as_slice()) {
        Ok(name)
    } else {
        Err("no name".into())
    }
}

/// The rules over a schema.
fn rules_over(alloc: Global, schema: &Schema) -> Result<Rules<Silent>, Fail>
    ensures { IfOk result (λ rules. rules.schema ≡ schema.now) }
{
    let rules = rules(alloc)?;
    Ok(Rules::build(
        alloc,
        schema,
        rules,
        List::new(alloc),
        List::new(alloc),
        List::new(alloc),
        List::new(alloc),
    )?)
}

/// A domain of this name with these classes.
fn domain(alloc: Global, name: &[u8], classes: &[ClassSketch]) -> Result<Domain<Silent>, Fail> {
    let name = name_of(alloc, name)?;
    let schema = schema_of(alloc, classes)?;
    let rules = rules_over(alloc, &schema)?;
    Ok(Domain::new(name, schema, rules, Vec::new(alloc)))
}

/// Adds two domains, of which most problems name the second.
fn push_domains(alloc: Global, domains: &mut Vec<Domain<Silent>>) -> Result<(), Fail> {
    domains.push(domain(alloc, b"open", OPEN)?)?;
    domains.push(domain(alloc, b"timetable", TIMETABLE)?)?;
    Ok(())
}

/// Two domains, of which most problems name the second.
fn domains(alloc: Global) -> Result<Vec<Domain<Silent>>, Fail> {
    let mut domains = Vec::new(alloc);
    push_domains(alloc, &mut domains)?;
    Ok(domains)
}

/// Problems, beside what is written of them.
const PROBLEMS: [(&[u8], &[u8]); 22] = [
    (b"", b"refused problem json\n"),
    (b"{", b"refused problem json\n"),
    (b"\xff", b"refused problem json\n"),
    (
        br#"{"format":1,"domain":"timetable","facts":{}} {}"#,
        b"refused problem json\n",
    ),
    (b"[]", b"refused problem shape /\n"),
    (b"null", b"refused problem shape /\n"),
    (
        br#"{"format":3,"domain":"chess","facts":{}}"#,
        b"refused problem shape /format\n",
    ),
    (br#"{"format":1}"#, b"refused problem shape /domain\n"),
    (
        br#"{"format":1,"domain":"chess","settings":{"steps":1000001},"facts":{}}"#,
        b"refused problem domain\n",
    ),
    (
        br#"{"format":1,"domain":"timetable","settings":{"steps":1000001},"weights":{"any_lesson":1000001},"facts":{}}"#,
        b"refused problem setting steps\n",
    ),
    (
        br#"{"format":1,"domain":"timetable","settings":{"steps":0,"construction":"first_fit"},"facts":{}}"#,
        b"refused problem shape /settings\n",
    ),
    (
        br#"{"format":1,"domain":"timetable","weights":{"any_lesson":1000001},"facts":{"lesson":[{"id":1}]}}"#,
        b"refused problem shape /weights/any_lesson\n",
    ),
    (
        br#"{"format":1,"domain":"timetable","weights":{"no_lesson":1},"facts":{}}"#,
        b"refused problem shape /weights\n",
    ),
    (
        br#"{"format":1,"domain":"timetable","facts":{"lesson":[{"id":1,"subject":"Maths"}]}}"#,
        b"refused problem shape /facts/lesson/0/size\n",
    ),
    (
        br#"{"format":1,"domain":"timetable","facts":{"lesson":[{"id":1,"subject":"Maths","size":20,"pinned":0}]}}"#,
        b"refused problem shape /facts/lesson/0/pinned\n",
    ),
    (
        br#"{"format":1,"domain":"timetable","facts":{"rum":[]}}"#,
        b"refused problem shape /facts\n",
    ),
    (
        br#"{"format":1,"domain":"timetable","facts":{"room":[{"id":1,"capacity":1000000001}]}}"#,
        b"refused problem bad_field room#1 capacity\n",
    ),
    (
        br#"{"format":1,"domain":"timetable","facts":{"room":[{"id":1,"capacity":30},{"id":1,"capacity":30}]}}"#,
        b"refused problem double_id room#1\n",
    ),
    (
        br#"{"format":1,"domain":"timetable","facts":{"lesson":[{"id":1,"subject":"Maths","size":20,"slot":9}]}}"#,
        b"refused problem bad_value lesson#1 slot\n",
    ),
    (br#"{"format":1,"domain":"timetable","facts":{}}"#, b""),
    (
        br#"{"format":2,"domain":"timetable","settings":{"construction":"first_fit_decreasing"},"facts":{}}"#,
        b"",
    ),
    (
        br#"{"format":1,"domain":"open","settings":{"steps":1000000},"weights":{"any_lesson":1000000},"facts":{}}"#,
        b"",
    ),
];

/// The place of the first problem of which something else is written.
fn wrong_problem(alloc: Global, domains: &[Domain<Silent>]) -> Option<usize> {
    for (place, (text, wanted)) in PROBLEMS.iter().enumerate() {
        if !has_line(alloc, read_problem(alloc, text, domains).err(), wanted) {
            return Some(place);
        }
    }
    None
}

#[test]
fn refuses_problems_by_the_first_fault(rt: HostRuntime) -> Result<(), Fail> {
    let domains = domains(rt.alloc())?;
    assert!(rt; wrong_problem(rt.alloc(), &domains) == None);
    Ok(())
}

/// Writes so many records, of ids from 101 on with three digits, which have one further member.
fn push_records(out: &mut Vec<u8>, count: u32, member: &[u8]) -> Result<(), Memory> {
    let mut comma: &[u8] = b"";
    for place in 0..count {
        out.extend_from_slice(comma)?;
        out.extend_from_slice(b"{\"id\":")?;
        out.push(last_digit(place / 100 + 1))?;
        out.push(last_digit(place / 10))?;
        out.push(last_digit(place))?;
        out.extend_from_slice(member)?;
        comma = b",";
    }
    Ok(())
}

/// Writes a problem of this domain with so many timeslots, so many rooms, and no lesson.
fn push_problem(out: &mut Vec<u8>, domain: &[u8], slots: u32, rooms: u32) -> Result<(), Memory> {
    out.extend_from_slice(br#"{"format":1,"domain":""#)?;
    out.extend_from_slice(domain)?;
    out.extend_from_slice(br#"","facts":{"timeslot":["#)?;
    push_records(out, slots, br#","day":1}"#)?;
    out.extend_from_slice(br#"],"room":["#)?;
    push_records(out, rooms, br#","capacity":30}"#)?;
    out.extend_from_slice(b"]}}")?;
    Ok(())
}

/// Domains, numbers of timeslots and of rooms, and what is written of such a problem.
const WIDE: [(&[u8], u32, u32, &[u8]); 6] = [
    (b"timetable", 256, 256, b""),
    (
        b"timetable",
        257,
        256,
        b"refused problem range_product lesson\n",
    ),
    (
        b"timetable",
        300,
        300,
        b"refused problem range_product lesson\n",
    ),
    (b"open", 255, 256, b""),
    (b"open", 256, 256, b"refused problem range_product lesson\n"),
    (b"open", 700, 0, b""),
];

/// Whether this is written of a problem with so many timeslots and so many rooms.
fn answers_wide(
    alloc: Global,
    domains: &[Domain<Silent>],
    (domain, slots, rooms, wanted): (&[u8], u32, u32, &[u8]),
) -> bool {
    let mut text = Vec::new(alloc);
    push_problem(&mut text, domain, slots, rooms).is_ok()
        && has_line(alloc, read_problem(alloc, &text, domains).err(), wanted)
}

/// The place of the first problem with many combinations of which something else is written.
fn wrong_wide(alloc: Global, domains: &[Domain<Silent>]) -> Option<usize> {
    for (place, row) in WIDE.iter().enumerate() {
        if !answers_wide(alloc, domains, *row) {
            return Some(place);
        }
    }
    None
}

#[test]
fn accepts_as_many_combinations_as_the_limit(rt: HostRuntime) -> Result<(), Fail> {
    let domains = domains(rt.alloc())?;
    assert!(rt; wrong_wide(rt.alloc(), &domains) == None);
    Ok(())
}

/// A problem that says all.
const TOLD: &[u8] = br#"{"facts":{"lesson":[{"id":4,"subject":"Physics","size":20},
{"room":7,"id":1,"subject":"Maths","size":-3,"slot":null,"pinned":true}],"room":[{"id":7,"capacity":30}]},
"weights":{"any_lesson":5},"settings":{"construction":"first_fit_decreasing","seed":9,"steps":3},
"domain":"timetable","format":2}"#;

/// Whether the settings are those that it says.
fn has_settings(read: &Problem) -> bool {
    (read.settings.seed, read.settings.steps) == (9, 3)
        && read.settings.construction == Construction::Decreasing
}

/// Whether the first lesson is the one that it says.
fn has_lesson(plan: &Plan) -> bool {
    match plan.raw(LESSON, 1) {
        Some(lesson) => {
            lesson.fields.as_slice() == [1, -3].as_slice()
                && lesson.values.as_slice() == [None, Some(7)].as_slice()
                && lesson.pinned
        }
        None => false,
    }
}

/// Whether the problem is read as it says.
fn is_as_told(read: &Problem) -> bool {
    has_settings(read)
        && has_lesson(&read.plan)
        && (read.plan.made(), read.plan.unplaced(), read.domain) == (3, 3, 1)
        && read.weights.as_slice() == [5].as_slice()
        && read.names.find(b"Maths") == Some(1)
}

/// Whether the problem that says all is read so.
fn reads_told(alloc: Global, domains: &[Domain<Silent>]) -> bool {
    match read_problem(alloc, TOLD, domains) {
        Ok(read) => is_as_told(&read),
        Err(_) => false,
    }
}

#[test]
fn reads_a_problem(rt: HostRuntime) -> Result<(), Fail> {
    let domains = domains(rt.alloc())?;
    assert!(rt; reads_told(rt.alloc(), &domains));
    Ok(())
}
