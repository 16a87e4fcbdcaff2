//! What changes make of a timetable.

ghost use Rattle.plan_changes.specs.Fits.{IsOfSchema};
ghost use Rattle.plan_changes.specs.Performed.{MayPerform};

use super::cases::{Case, first_wrong};
use super::made::{LESSON, ROOM, SLOT, World};
use super::seen::Seen;
use crate::tests::expect_none;
use plan_changes::{ChangeFault, Ready};
use std::test::Fail;

/// Changes of the timetable.
const CASES: &[Case] = &[
    // Two rooms are made.
    Case::Made(
        &[
            r#"{"do":"add","class":"room","fields":{"capacity":5}}"#,
            r#"{"do":"add","class":"room","fields":{"capacity":5}}"#,
        ],
        &[Seen::Ids(ROOM, &[1, 2, 3])],
    ),
    // Two rooms are made, then one of them is taken out and another one made: an id is never used again.
    Case::Made(
        &[
            r#"{"do":"add","class":"room","fields":{"capacity":5}}"#,
            r#"{"do":"add","class":"room","fields":{"capacity":5}}"#,
            r#"{"do":"remove","class":"room","id":3}"#,
            r#"{"do":"add","class":"room","fields":{"capacity":5}}"#,
        ],
        &[Seen::Ids(ROOM, &[1, 2, 4]), Seen::Fields(ROOM, 4, &[5])],
    ),
    // A timeslot that lessons have is taken out: they let it go.
    Case::Made(
        &[r#"{"do":"remove","class":"timeslot","id":2}"#],
        &[
            Seen::Ids(SLOT, &[1]),
            Seen::Values(LESSON, 1, [Some(1), Some(1)]),
            Seen::Values(LESSON, 2, [None, Some(1)]),
            Seen::Values(LESSON, 5, [None, None]),
            Seen::Unplaced(3),
        ],
    ),
    // A timeslot's hours change, and no other field.
    Case::Made(
        &[r#"{"do":"alter","class":"timeslot","id":2,"fields":{"end":640,"start":580}}"#],
        &[Seen::Fields(SLOT, 2, &[1, 580, 640]), Seen::Names(5)],
    ),
    // A lesson with new names is made, which are numbered in the order of its fields.
    Case::Made(
        &[
            r#"{"do":"add","class":"lesson","fields":{"group":"9C","size":12,"subject":"Art","teacher":"Ada"},"values":{"room":1}}"#,
        ],
        &[
            Seen::Fields(LESSON, 6, &[5, 1, 6, 12]),
            Seen::Values(LESSON, 6, [None, Some(1)]),
            Seen::Name("Art", 5),
            Seen::Name("9C", 6),
        ],
    ),
    // The pinned lesson's variables change.
    Case::Made(
        &[r#"{"do":"assign","class":"lesson","id":5,"values":{"room":1,"slot":1}}"#],
        &[
            Seen::Values(LESSON, 5, [Some(1), Some(1)]),
            Seen::Pinned(LESSON, 5),
        ],
    ),
    // One weight moves.
    Case::Made(
        &[r#"{"do":"weight","rule":"room_size","weight":3}"#],
        &[Seen::Weights([1, 3])],
    ),
];

/// Makes a change that may be made.
fn perform(world: &mut World, ready: &Ready) -> Result<(), ChangeFault>
    requires schema { IsOfSchema world.old.schema world.old.plan }
    requires may { MayPerform ready.now world.old.plan 2 }
    ensures { IsOfSchema world.new.schema world.new.plan }
{
    if world.names.count() > 1000 {
        return Err(ChangeFault::Memory);
    }
    ready.perform(&mut world.plan, &mut world.names, &mut world.weights)?;
    Ok(())
}

/// Makes the change of the line, or gives its fault.
fn make(world: &mut World, line: &str) -> Result<(), ChangeFault>
    requires { IsOfSchema world.old.schema world.old.plan }
    ensures { IsOfSchema world.new.schema world.new.plan }
{
    let ready = world.ready(line)?;
    perform(world, &ready)
}

/// Makes the changes of the lines, or gives the first fault.
pub(super) fn make_all(world: &mut World, lines: &[&str]) -> Result<(), ChangeFault>
    requires { IsOfSchema world.old.schema world.old.plan }
    ensures { IsOfSchema world.new.schema world.new.plan }
{
    for line in lines {
        make(world, line)?;
    }
    Ok(())
}

#[test]
fn changes_make_of_a_timetable_what_they_say(rt: HostRuntime) -> Result<(), Fail> {
    expect_none(&rt, first_wrong(rt.alloc(), CASES));
    Ok(())
}
