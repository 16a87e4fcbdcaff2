//! What changes of a timetable are refused for, and what those that may be made are about.

use super::cases::{Case, first_wrong};
use super::made::World;
use crate::tests::expect_none;
use plan_changes::{ChangeFault, Ready};
use std::test::Fail;

/// What becomes of a change: it is refused for this; or it may be made, or it may be made and is about the fact of
/// this class and id, or about this rule.
pub(super) enum Answer {
    Refused(ChangeFault),
    Taken,
    Fact(u8, u32),
    Rule(u8),
}

/// Lines by their answers. Where several faults apply the first one of their order counts. The long name that is
/// refused has 65 bytes, and the one that is taken 64.
const ANSWERS: &[Case] = &[
    Case::Answered(
        r#"{"do":"add","class":"rum","fields":{}}
{"do":"remove","class":"rum","id":9}"#,
        Answer::Refused(ChangeFault::UnknownClass),
    ),
    Case::Answered(
        r#"{"do":"remove","class":"room","id":9}"#,
        Answer::Refused(ChangeFault::NoSuchFact { id: 9 }),
    ),
    Case::Answered(
        r#"{"do":"alter","class":"room","id":2,"fields":{"size":1}}"#,
        Answer::Refused(ChangeFault::NoSuchFact { id: 2 }),
    ),
    Case::Answered(
        r#"{"do":"assign","class":"lesson","id":3,"values":{"slot":1}}"#,
        Answer::Refused(ChangeFault::NoSuchFact { id: 3 }),
    ),
    Case::Answered(
        r#"{"do":"alter","class":"room","id":1,"fields":{"size":1}}
{"do":"add","class":"room","fields":{}}
{"do":"alter","class":"room","id":1,"fields":{"capacity":1000000001}}
{"do":"alter","class":"room","id":1,"fields":{"capacity":-1000000001}}
{"do":"alter","class":"room","id":1,"fields":{"capacity":"30"}}
{"do":"alter","class":"lesson","id":1,"fields":{"subject":1}}
{"do":"alter","class":"lesson","id":1,"fields":{"subject":""}}
{"do":"alter","class":"lesson","id":1,"fields":{"subject":"nnnnnnnnnnnnnnnnnnnnnnnnnnnnnnnnnnnnnnnnnnnnnnnnnnnnnnnnnnnnnnnnn"}}
{"do":"add","class":"block","fields":{},"values":{"slot":null}}"#,
        Answer::Refused(ChangeFault::BadField),
    ),
    Case::Answered(
        r#"{"do":"assign","class":"lesson","id":1,"values":{"slot":99}}
{"do":"assign","class":"lesson","id":1,"values":{"day":null}}
{"do":"add","class":"block","fields":{"day":1,"teacher":"Ada"},"values":{"slot":null}}"#,
        Answer::Refused(ChangeFault::BadValue),
    ),
    Case::Answered(
        r#"{"do":"weight","rule":"rum","weight":3}"#,
        Answer::Refused(ChangeFault::UnknownRule),
    ),
    Case::Answered(
        r#"{"do":"weight","rule":"room_size","weight":3}"#,
        Answer::Rule(1),
    ),
    Case::Answered(
        r#"{"do":"alter","class":"room","id":1,"fields":{}}
{"do":"alter","class":"room","id":1,"fields":{"capacity":1000000000}}
{"do":"alter","class":"room","id":1,"fields":{"capacity":-1000000000}}"#,
        Answer::Fact(1, 1),
    ),
    Case::Answered(
        r#"{"do":"add","class":"room","fields":{"capacity":5}}"#,
        Answer::Fact(1, 2),
    ),
    Case::Answered(
        r#"{"do":"remove","class":"timeslot","id":2}"#,
        Answer::Fact(0, 2),
    ),
    Case::Answered(
        r#"{"do":"alter","class":"lesson","id":1,"fields":{"subject":"nnnnnnnnnnnnnnnnnnnnnnnnnnnnnnnnnnnnnnnnnnnnnnnnnnnnnnnnnnnnnnnn"}}"#,
        Answer::Fact(2, 1),
    ),
    Case::Answered(
        r#"{"do":"assign","class":"lesson","id":5,"values":{"room":1,"slot":null}}"#,
        Answer::Fact(2, 5),
    ),
];

/// Whether this is what becomes of a change that may be made.
fn is_taken(ready: &Ready, want: &Answer) -> bool {
    match (want, ready.rule()) {
        (Answer::Taken, _) => true,
        (Answer::Fact(class, id), None) => ready.class() == *class && ready.id() == *id,
        (Answer::Rule(number), Some(rule)) => rule == *number,
        _ => false,
    }
}

/// Whether this is what becomes of a change that is refused.
fn is_refused(fault: ChangeFault, want: &Answer) -> bool {
    match want {
        Answer::Refused(wanted) => fault == *wanted,
        _ => false,
    }
}

/// Whether this is what becomes of the change of the line.
fn is_answered(world: &World, line: &str, want: &Answer) -> bool {
    match world.ready(line) {
        Ok(ready) => is_taken(&ready, want),
        Err(fault) => is_refused(fault, want),
    }
}

/// Whether this is what becomes of the change of each of the lines.
pub(super) fn are_answered(world: &World, lines: &str, want: &Answer) -> bool {
    for line in lines.lines() {
        if !is_answered(world, line, want) {
            return false;
        }
    }
    true
}

#[test]
fn changes_are_refused_for_their_first_fault_or_name_their_fact(
    rt: HostRuntime,
) -> Result<(), Fail> {
    expect_none(&rt, first_wrong(rt.alloc(), ANSWERS));
    Ok(())
}
