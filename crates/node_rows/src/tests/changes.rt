//! What goes and comes at the heads as a plan changes, and how it is let go.
ghost use Rattle.std.specs.Prelude.{◌≡◌, ◌<◌, length};

use head_changes::{ClassChange, clear, gather, let_come_go, let_gone_go};
use plan_facts::{Kind, Memory, Plan, Rec};
use plan_moves::Touch;
use std::alloc::Global;
use std::test::Fail;
use stream_heads::{Cell, Cells, Heads};
use test_plans::{ClassSketch, FactSketch, VarSketch, plan_of, schema_of};

const SLOT: u8 = 0;

const TASK: u8 = 1;

/// Slots, and tasks that have a slot each, which may be missing.
const CLASSES: &[ClassSketch] = &[
    ClassSketch("slot", &[("start", Kind::Number)], &[]),
    ClassSketch("task", &[], &[VarSketch::Var("slot", 0)]),
];

const BEFORE: &[&[FactSketch]] = &[
    &[FactSketch::Fact(1, &[10]), FactSketch::Fact(2, &[20])],
    &[
        FactSketch::Entity(1, &[], &[None]),
        FactSketch::Entity(2, &[], &[Some(2)]),
        FactSketch::Entity(3, &[], &[Some(1)]),
    ],
];

/// The first task gets a slot, the second stays, the third goes, and a fourth one comes.
const AFTER: &[&[FactSketch]] = &[
    &[FactSketch::Fact(1, &[10]), FactSketch::Fact(2, &[20])],
    &[
        FactSketch::Entity(1, &[], &[Some(1)]),
        FactSketch::Entity(2, &[], &[Some(2)]),
        FactSketch::Entity(4, &[], &[None]),
    ],
];

/// Where the record of each task stands last.
#[derive(Clone, Copy)]
struct Places {
    one: Option<u64>,
    two: Option<u64>,
    three: Option<u64>,
    four: Option<u64>,
}

/// The last place of a task.
fn last_of(heads: &Heads, id: u32) -> Option<u64> {
    heads.at(TASK, id).last().copied()
}

/// The last places of all tasks.
fn last_places(heads: &Heads) -> Places {
    Places {
        one: last_of(heads, 1),
        two: last_of(heads, 2),
        three: last_of(heads, 3),
        four: last_of(heads, 4),
    }
}

/// How many records of a task stand.
fn count_of(heads: &Heads, id: u32) -> usize {
    heads.at(TASK, id).len()
}

/// Whether the place is one of these rows.
fn is_in(rows: &[Cells], place: Option<u64>) -> bool {
    match place {
        Some(place) => Cells::of(&[Cell::Place(place)]).is_among(rows),
        None => false,
    }
}

/// Whether the rows are just these two places.
fn are_both(rows: &[Cells], one: Option<u64>, other: Option<u64>) -> bool {
    rows.len() == 2 && is_in(rows, one) && is_in(rows, other)
}

/// Whether there is one row, and it is this place.
fn is_only(rows: &[Cells], place: Option<u64>) -> bool {
    rows.len() == 1 && is_in(rows, place)
}

/// The plan of these facts.
fn plan_with(alloc: Global, facts: &[&[FactSketch]]) -> Result<Plan, Fail> {
    let schema = schema_of(alloc, CLASSES)?;
    let plan = plan_of(alloc, &schema, facts)?;
    Ok(plan)
}

/// What the tasks of facts are for the heads.
fn gather_tasks(
    alloc: Global,
    heads: &mut Heads,
    facts: &[&[FactSketch]],
    changes: &mut [ClassChange],
) -> Result<(), Fail>
    requires { 1 < length changes.old }
    ensures { length changes.new ≡ length changes.old }
{
    let plan = plan_with(alloc, facts)?;
    gather_all_tasks(heads, &plan, changes)?;
    Ok(())
}

/// What the tasks of a plan are for the heads.
fn gather_all_tasks(
    heads: &mut Heads,
    plan: &Plan,
    changes: &mut [ClassChange],
) -> Result<(), Memory>
    requires { 1 < length changes.old }
    ensures { length changes.new ≡ length changes.old }
{
    let one = Touch { class: TASK, id: 1 };
    let two = Touch { class: TASK, id: 2 };
    let three = Touch { class: TASK, id: 3 };
    let four = Touch { class: TASK, id: 4 };
    gather(heads, plan, &[two, one, four, three], changes)?;
    Ok(())
}

/// Whether the tasks that have a slot came, and no other.
fn placed_came(changes: &[ClassChange], places: Places) -> bool
    requires { 1 < length changes.now }
{
    are_both(&changes[1].taking(false).come, places.two, places.three)
}

/// Whether just the tasks that changed went, and of them just the last one had a slot.
fn changed_went(changes: &[ClassChange], old: Places) -> bool
    requires { 1 < length changes.now }
{
    are_both(&changes[1].taking(true).gone, old.one, old.three)
        && is_only(&changes[1].taking(false).gone, old.three)
}

/// Whether just the tasks that changed came, and of them just the first one has a slot.
fn changed_came(changes: &[ClassChange], new: Places) -> bool
    requires { 1 < length changes.now }
{
    are_both(&changes[1].taking(true).come, new.one, new.four)
        && is_only(&changes[1].taking(false).come, new.one)
}

/// The first tasks come, then they change: whether just those go and come that should, and the
/// second task stays.
fn see_change(alloc: Global, heads: &mut Heads, changes: &mut [ClassChange]) -> Result<bool, Fail>
    requires { 1 < length changes.old }
{
    gather_tasks(alloc, heads, BEFORE, changes)?;
    let old = last_places(heads);
    let placed = placed_came(changes, old);
    gather_tasks(alloc, heads, AFTER, changes)?;
    let new = last_places(heads);
    let stays = new.two == old.two && count_of(heads, 1) == 2;
    Ok(placed && stays && changed_went(changes, old) && changed_came(changes, new))
}

/// The first tasks come, then they change, and what came is let go: whether the first tasks stand as they did.
fn see_come_go(alloc: Global, heads: &mut Heads, changes: &mut [ClassChange]) -> Result<bool, Fail>
    requires { 1 < length changes.old }
    ensures { length changes.new ≡ length changes.old }
{
    gather_tasks(alloc, heads, BEFORE, changes)?;
    let old = last_places(heads);
    gather_tasks(alloc, heads, AFTER, changes)?;
    let_come_go(heads, changes);
    let back = last_places(heads);
    Ok(back.one == old.one && back.three == old.three && back.four.is_none())
}

/// Whether nothing is said to come once all is forgotten.
fn none_comes(changes: &mut [ClassChange]) -> bool
    requires { 1 < length changes.old }
{
    clear(changes);
    changes[1].taking(true).come.is_empty()
}

/// The first tasks come, then they change, and what came is let go; they change again, and what
/// went is let go: whether just those stand at each time that should.
fn see_both_sides(
    alloc: Global,
    heads: &mut Heads,
    changes: &mut [ClassChange],
) -> Result<bool, Fail>
    requires { 1 < length changes.old }
{
    let come = see_come_go(alloc, heads, changes)?;
    let old = last_places(heads);
    gather_tasks(alloc, heads, AFTER, changes)?;
    let new = last_places(heads);
    let_gone_go(heads, changes);
    let last = last_places(heads);
    let gone = last.one == new.one && last.three.is_none() && count_of(heads, 1) == 1;
    let stays = last.two == old.two && last.four == new.four;
    Ok(come && gone && stays && new.one != old.one && none_comes(changes))
}

/// Whether new heads hold what they should where the first tasks come and change.
fn changed(alloc: Global) -> Result<bool, Fail> {
    let mut heads = Heads::new(alloc);
    let mut changes = [ClassChange::new(alloc), ClassChange::new(alloc)];
    see_change(alloc, &mut heads, &mut changes)
}

/// Whether new heads hold what they should where both sides of a change are let go.
fn let_go(alloc: Global) -> Result<bool, Fail> {
    let mut heads = Heads::new(alloc);
    let mut changes = [ClassChange::new(alloc), ClassChange::new(alloc)];
    see_both_sides(alloc, &mut heads, &mut changes)
}

#[test]
fn records_that_changed_go_and_come(rt: HostRuntime) -> Result<(), Fail> {
    assert!(rt; changed(rt.alloc())?);
    Ok(())
}

#[test]
fn records_that_came_or_went_are_let_go(rt: HostRuntime) -> Result<(), Fail> {
    assert!(rt; let_go(rt.alloc())?);
    Ok(())
}

/// A record comes to the heads and goes again.
fn passes_through(heads: &mut Heads, rec: Rec) -> Result<(), Memory> {
    let place = heads.add(rec)?;
    if heads.head(place).is_some() {
        heads.kill(place);
    }
    Ok(())
}

/// The first field of the value that a record's first variable holds.
fn held_field(rec: &Rec) -> Option<i64> {
    let held = rec.planned.get(0)?.as_ref()?;
    held.fields.get(0).copied()
}

/// A class and an id, and of the record of these, if there is one, the first field, how many variables it has, and the
/// first field of the value that the first one holds.
type Resolved = (u8, u32, Option<(Option<i64>, usize, Option<i64>)>);

const RESOLVED: &[Resolved] = &[
    (TASK, 2, Some((None, 1, Some(20)))),
    (SLOT, 1, Some((Some(10), 0, None))),
    (TASK, 1, Some((None, 1, None))),
    (TASK, 3, Some((None, 1, Some(10)))),
    (TASK, 4, None),
];

/// Whether a record is as it should be.
fn is_wanted(rec: &Rec, wanted: &Resolved) -> bool {
    let held = (
        rec.fields.get(0).copied(),
        rec.planned.len(),
        held_field(rec),
    );
    (rec.class, rec.id, Some(held)) == *wanted
}

/// Whether the heads resolve the record of a fact as they should. It passes through the heads then.
fn resolves(heads: &mut Heads, plan: &Plan, wanted: &Resolved) -> Result<bool, Memory> {
    let Some(rec) = heads.resolved(plan, wanted.0, wanted.1)? else {
        return Ok(wanted.2.is_none());
    };
    let is_right = is_wanted(&rec, wanted);
    passes_through(heads, rec)?;
    Ok(is_right)
}

/// The class and the id of the first fact that the heads don't resolve as they should.
fn wrong_of(heads: &mut Heads, plan: &Plan) -> Result<Option<(u8, u32)>, Memory> {
    for wanted in RESOLVED {
        if !resolves(heads, plan, wanted)? {
            return Ok(Some((wanted.0, wanted.1)));
        }
    }
    Ok(None)
}

/// The class and the id of the first fact that new heads don't resolve as they should.
fn wrong_in(alloc: Global, plan: &Plan) -> Result<Option<(u8, u32)>, Memory> {
    let mut heads = Heads::new(alloc);
    wrong_of(&mut heads, plan)
}

/// The class and the id of the first fact of the first tasks' plan that isn't resolved as it should be.
fn wrong_resolved(alloc: Global) -> Result<Option<(u8, u32)>, Fail> {
    let plan = plan_with(alloc, BEFORE)?;
    Ok(wrong_in(alloc, &plan)?)
}

#[test]
fn records_are_resolved_in_the_memory_of_those_that_went(rt: HostRuntime) -> Result<(), Fail> {
    let wrong = wrong_resolved(rt.alloc())?;
    assert!(rt; wrong.is_none());
    Ok(())
}
