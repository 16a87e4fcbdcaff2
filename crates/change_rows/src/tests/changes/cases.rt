//! Cases: a world, what is done with it, and what becomes of that.

ghost use Rattle.std.specs.Prelude.{IfSome};
ghost use Rattle.plan_changes.specs.Fits.{IsOfSchema};

use super::limits::crowd;
use super::made::{World, number_names, timetable};
use super::performed::make_all;
use super::refused::{Answer, are_answered};
use super::seen::{Seen, are_seen};
use super::undone::is_undone;
use std::alloc::Global;

/// What is done, and what becomes of it: the change of each of some lines is answered so, by the timetable or by a
/// plan of so many facts of each class; the changes of lines are made of the timetable, and this is seen after
/// them; or the change of a line is made and taken back.
pub(super) enum Case {
    Answered(&'static str, Answer),
    Crowded([u32; 4], &'static str, Answer),
    Made(&'static [&'static str], &'static [Seen]),
    Undone(&'static str),
}

/// Whether the case is met by the world.
fn is_met(world: &mut World, case: &Case) -> bool
    requires { IsOfSchema world.old.schema world.old.plan }
{
    if number_names(&mut world.names).is_err() {
        return false;
    }
    match case {
        Case::Answered(lines, answer) => are_answered(world, lines, answer),
        Case::Crowded(_, lines, answer) => are_answered(world, lines, answer),
        Case::Made(lines, seen) => make_all(world, lines).is_ok() && are_seen(world, seen),
        Case::Undone(line) => is_undone(world, line),
    }
}

/// The world of the case; none at want of memory.
fn world_of(alloc: Global, case: &Case) -> Option<World>
    ensures { IfSome result (λ world. IsOfSchema world.schema world.plan) }
{
    match case {
        Case::Crowded(counts, _, _) => crowd(alloc, *counts),
        _ => timetable(alloc),
    }
}

/// Whether the case is met.
fn is_met_by_its_world(alloc: Global, case: &Case) -> bool {
    match world_of(alloc, case) {
        Some(mut world) => is_met(&mut world, case),
        None => false,
    }
}

/// The first of the cases that isn't met.
pub(super) fn first_wrong(alloc: Global, cases: &[Case]) -> Option<usize> {
    for place in 0..cases.len() {
        if !is_met_by_its_world(alloc, &cases[place]) {
            return Some(place);
        }
    }
    None
}
