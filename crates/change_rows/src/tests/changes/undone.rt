//! Changes that are made and taken back.

ghost use Rattle.std.specs.Prelude.{◌≡◌, ◌≤◌, OnOk, List, ℕ, false, length};
ghost use Rattle.plan_changes.specs.Deeds.{is_weight};
ghost use Rattle.plan_changes.specs.Fits.{IsOfSchema};
ghost use Rattle.plan_changes.specs.Performed.{MayPerform, plan_after};
ghost use Rattle.plan_changes.specs.Undo.{TakesBack};

use super::cases::{Case, first_wrong};
use super::made::{LESSON, ROOM, SLOT, World};
use super::seen::{Seen, are_seen};
use crate::tests::expect_none;
use plan_changes::{Ready, Undo};
use plan_facts::Memory;
use std::test::Fail;

/// Changes of facts: a new room, a room and a timeslot that lessons have go, a timeslot's hours, a lesson's variables.
const CHANGES: &[Case] = &[
    Case::Undone(r#"{"do":"add","class":"room","fields":{"capacity":5}}"#),
    Case::Undone(r#"{"do":"remove","class":"room","id":1}"#),
    Case::Undone(r#"{"do":"remove","class":"timeslot","id":2}"#),
    Case::Undone(r#"{"do":"alter","class":"timeslot","id":2,"fields":{"end":640,"start":580}}"#),
    Case::Undone(r#"{"do":"assign","class":"lesson","id":5,"values":{"room":1}}"#),
];

/// The timetable before and after them.
const AS_BEFORE: &[Seen] = &[
    Seen::Made(6),
    Seen::Unplaced(1),
    Seen::NextId(ROOM, 2),
    Seen::Ids(ROOM, &[1]),
    Seen::Ids(SLOT, &[1, 2]),
    Seen::Ids(LESSON, &[1, 2, 5]),
];

/// Makes a change and takes it back by what takes it back.
fn make_and_undo(world: &mut World, ready: &Ready, undo: Undo) -> Result<(), Memory>
    requires may { MayPerform ready.now world.old.plan 2 }
    requires few { length world.old.names ≤ 1000 }
    requires undo { (names : List (List ℕ)) →
        TakesBack undo world.old.plan (plan_after ready.now names world.old.plan) }
    ensures { OnOk result (world.new.plan ≡ world.old.plan) }
{
    ready.perform(&mut world.plan, &mut world.names, &mut world.weights)?;
    undo.take_back(&mut world.plan);
    Ok(())
}

/// Makes a change of a fact and takes it back.
fn make_and_take_back(world: &mut World, ready: &Ready) -> Result<(), Memory>
    requires fact { is_weight ready.now.deed ≡ false }
    requires may { MayPerform ready.now world.old.plan 2 }
    ensures { OnOk result (world.new.plan ≡ world.old.plan) }
{
    if world.names.count() > 1000 {
        return Err(Memory);
    }
    let undo = ready.undo(&world.plan)?;
    make_and_undo(world, ready, undo)
}

/// Makes a change that is one of a fact and takes it back; whether that was done.
fn is_turned_back(world: &mut World, ready: &Ready) -> bool
    requires { MayPerform ready.now world.old.plan 2 }
{
    match ready.rule() {
        Some(_) => false,
        None => make_and_take_back(world, ready).is_ok(),
    }
}

/// Makes the change of the line and takes it back; whether that was done.
fn turns_back(world: &mut World, line: &str) -> bool
    requires { IsOfSchema world.old.schema world.old.plan }
{
    match world.ready(line) {
        Ok(ready) => is_turned_back(world, &ready),
        Err(_) => false,
    }
}

/// Whether the timetable is as before when the change of the line was made and taken back.
pub(super) fn is_undone(world: &mut World, line: &str) -> bool
    requires { IsOfSchema world.old.schema world.old.plan }
{
    are_seen(world, AS_BEFORE) && turns_back(world, line) && are_seen(world, AS_BEFORE)
}

#[test]
fn changes_of_facts_are_taken_back(rt: HostRuntime) -> Result<(), Fail> {
    expect_none(&rt, first_wrong(rt.alloc(), CHANGES));
    Ok(())
}
