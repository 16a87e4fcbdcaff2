//! Plans that are placed entity by entity.
ghost use Rattle.std.specs.Prelude.{◌≡◌, ◌<◌, IfOk};
ghost use Rattle.construction.specs.Standing.{IsAtRest};
ghost use Rattle.plan_rules.specs.Range.{sizes_of};
ghost use Rattle.plan_search.specs.TodoLaws.{AwaitPlacing};

mod cases;

use super::closures::{BY_HUNDRED, Closures, Ids, Trial, asking_rules, with_closures};
use super::fixtures::director_of;
use super::sketches::{Worth, rule_of};
use cases::{CASES, Case, LESSON, ROOM, RULES, SLOT, Wanted};
use construction::{Course, Placing, next_placing, order_alone, place, place_alone, placing_order};
use plan_facts::{List, Memory, Schema};
use plan_moves::Touch;
use plan_rules::{Harder, Judges, Kept, RuleDef, Rules, Steps};
use plan_scores::Level;
use plan_search::Placed;
use score_director::Director;
use std::alloc::Global;
use std::marker::Brand;
use std::sync::ledger::{Blank, Ledger};
use std::test::Fail;
use test_plans::VarSketch::{Nullable, Var};
use test_plans::{ClassSketch, schema_of};

/// Slots, rooms, and lessons, each with a slot, and a room or none.
const CLASSES: &[ClassSketch] = &[
    ClassSketch("timeslot", &[], &[]),
    ClassSketch("place", &[], &[]),
    ClassSketch("lesson", &[], &[Var("slot", SLOT), Nullable("room", ROOM)]),
];

/// A penalty of one for each match.
fn penalty(level: Level) -> Worth {
    Worth {
        level,
        reward: false,
        weight: 1,
        weigh: None,
    }
}

/// The rules, which penalize.
fn defs(alloc: Global) -> Result<List<RuleDef>, Memory> {
    let mut defs = List::new(alloc);
    for (name, level, head, node) in &RULES {
        defs.push(rule_of(alloc, name, &penalty(*level), head, node)?)?;
    }
    Ok(defs)
}

/// Lessons whose ids leave a greater remainder by 100 are harder to place.
fn harder(alloc: Global) -> Result<List<Harder>, Memory> {
    let mut harder = List::new(alloc);
    harder.push(Harder {
        class: LESSON,
        key: BY_HUNDRED,
    })?;
    Ok(harder)
}

/// The rules ask these closures, which keep their word.
fn rules_over(alloc: Global, schema: &Schema, closures: Closures) -> Result<Rules<Ids>, Fail>
    ensures { IfOk result (λ rules. ⟦<Rules<Ids> as Kept>⟧.keeps rules) }
{
    let defs = defs(alloc)?;
    let harder = harder(alloc)?;
    asking_rules(alloc, schema, defs, closures, harder)
}

/// The rules over slots, rooms and lessons.
fn rules(alloc: Global, closures: Closures) -> Result<Rules<Ids>, Fail>
    ensures { IfOk result (λ rules. ⟦<Rules<Ids> as Kept>⟧.keeps rules) }
{
    let schema = schema_of(alloc, CLASSES)?;
    rules_over(alloc, &schema, closures)
}

/// Whether this is the lesson of this id, or none is there where none is wanted.
fn is_lesson(entity: Option<&Touch>, wanted: Option<u32>) -> bool {
    match (entity, wanted) {
        (Some(entity), Some(id)) => entity.class == LESSON && entity.id == id,
        (None, None) => true,
        _ => false,
    }
}

/// Whether these lessons, in this order, are those that the case places and the one at which it is stuck.
fn begins_as(todo: &[Touch], case: &Case) -> bool {
    for (entity, wanted) in todo.iter().zip(case.placed) {
        if !is_lesson(Some(entity), Some(wanted.lesson)) {
            return false;
        }
    }
    let placed = case.placed.len();
    placed <= todo.len() && is_lesson(todo.get(placed), case.stuck)
}

/// Whether a lesson was placed like this.
fn is_like(placed: &Placed, wanted: &Wanted) -> bool {
    let has_values = match placed.values.as_slice() {
        [Some(slot), room] => *slot == wanted.slot && *room == wanted.room,
        _ => false,
    };
    has_values
        && placed.class == LESSON
        && placed.id == wanted.lesson
        && placed.score == wanted.score
}

/// Whether lessons were placed like these, in this order.
fn are_like(placed: &[Placed], wanted: &[Wanted]) -> bool {
    for (placed, wanted) in placed.iter().zip(wanted) {
        if !is_like(placed, wanted) {
            return false;
        }
    }
    placed.len() == wanted.len()
}

/// Whether the course is that of the case.
fn is_course(course: &Course, case: &Case) -> bool {
    are_like(course.placed.as_slice(), case.placed) && is_lesson(course.stuck.as_ref(), case.stuck)
}

/// Whether the first placing is that of the case.
fn is_first(placing: &Placing, case: &Case) -> bool {
    match (placing, case.placed.first()) {
        (Placing::Put { score, .. }, Some(wanted)) => *score == wanted.score,
        (Placing::Stuck { class, id }, None) => *class == LESSON && case.stuck == Some(*id),
        _ => false,
    }
}

/// Whether the first placing of what is to be placed is that of the case.
fn starts<L: Ledger>(
    alloc: Global,
    director: &mut Director<Ids>,
    rules: &Rules<Ids>,
    todo: &[Touch],
    case: &Case,
    steps: &mut Steps<L>,
) -> Result<bool, Memory>
    requires judges { ⟦<Rules<Ids> as Judges>⟧.judges rules.now director.old.weights (sizes_of director.old.plan) }
    requires rest { IsAtRest rules.now.defs director.old }
    requires awaits { AwaitPlacing director.old.plan todo.now }
    ensures { director.new ≡ director.old }
{
    let first = next_placing(alloc, director, rules, &rules.schema, todo, 0, steps)?;
    Ok(is_first(&first, case))
}

/// Whether after the last of what is to be placed there is nothing more to place.
fn ends<L: Ledger>(
    alloc: Global,
    director: &mut Director<Ids>,
    rules: &Rules<Ids>,
    todo: &[Touch],
    steps: &mut Steps<L>,
) -> Result<bool, Memory>
    requires judges { ⟦<Rules<Ids> as Judges>⟧.judges rules.now director.old.weights (sizes_of director.old.plan) }
    requires rest { IsAtRest rules.now.defs director.old }
    requires awaits { AwaitPlacing director.old.plan todo.now }
    ensures { director.new ≡ director.old }
{
    let end = todo.len();
    let last = next_placing(alloc, director, rules, &rules.schema, todo, end, steps)?;
    Ok(matches!(last, Placing::Done))
}

/// Whether placing what a case places takes the course of the case.
fn places_todo<L: Ledger>(
    alloc: Global,
    director: &mut Director<Ids>,
    rules: &Rules<Ids>,
    todo: &[Touch],
    case: &Case,
    steps: &mut Steps<L>,
) -> Result<bool, Memory>
    requires judges { ⟦<Rules<Ids> as Judges>⟧.judges rules.now director.old.weights (sizes_of director.old.plan) }
    requires rest { IsAtRest rules.now.defs director.old }
    requires awaits { AwaitPlacing director.old.plan todo.now }
{
    let started = starts(alloc, director, rules, todo, case, steps)?;
    let ended = ends(alloc, director, rules, todo, steps)?;
    let course = place(alloc, director, rules, &rules.schema, todo, steps)?;
    Ok(started && ended && begins_as(todo, case) && is_course(&course, case))
}

/// Whether the course of a director is that of its case.
fn places<L: Ledger>(
    alloc: Global,
    director: &mut Director<Ids>,
    rules: &Rules<Ids>,
    case: &Case,
    steps: &mut Steps<L>,
) -> Result<bool, Memory>
    requires judges { ⟦<Rules<Ids> as Judges>⟧.judges rules.now director.old.weights (sizes_of director.old.plan) }
    requires rest { IsAtRest rules.now.defs director.old }
{
    let todo = placing_order(alloc, director, rules, case.decreasing, steps)?;
    places_todo(alloc, director, rules, todo.as_slice(), case, steps)
}

/// Whether the course of a director is that of its case, by the calls that count nothing.
fn places_alone(
    alloc: Global,
    director: &mut Director<Ids>,
    rules: &Rules<Ids>,
    case: &Case,
) -> Result<bool, Memory>
    requires judges { ⟦<Rules<Ids> as Judges>⟧.judges rules.now director.old.weights (sizes_of director.old.plan) }
    requires rest { IsAtRest rules.now.defs director.old }
{
    let todo = order_alone(alloc, director, rules, case.decreasing)?;
    let course = place_alone(alloc, director, rules, &rules.schema, todo.as_slice())?;
    Ok(begins_as(todo.as_slice(), case) && is_course(&course, case))
}

/// Whether a director does with a case what was worked by hand, by the calls that count or by those that don't.
fn try_case<L: Ledger>(
    alloc: Global,
    rules: &Rules<Ids>,
    case: &Case,
    counts: bool,
    blank: Blank,
) -> Result<bool, Fail>
    requires name { blank.name ≡ L.name }
    requires parts { blank.parts ≡ L.parts }
    requires some { 0 < L.parts }
    requires keeps { ⟦<Rules<Ids> as Kept>⟧.keeps rules.now }
{
    let mut steps: Steps<L> = Steps::new(blank);
    let mut director = director_of(alloc, rules, case.facts, &[1, 1, 1], &mut steps)?;
    let placed = if counts {
        places(alloc, &mut director, rules, case, &mut steps)
    } else {
        places_alone(alloc, &mut director, rules, case)
    };
    Ok(placed?)
}

/// With these rules, the name of the first plan that isn't placed as was worked by hand.
fn first_wrong(alloc: Global, rules: &Rules<Ids>) -> Result<Option<&'static str>, Fail>
    requires { ⟦<Rules<Ids> as Kept>⟧.keeps rules.now }
{
    for case in CASES {
        let counted = try_case::<Brand>(alloc, rules, case, true, Blank::new(1))?;
        let alone = try_case::<Brand>(alloc, rules, case, false, Blank::new(1))?;
        if !counted || !alone {
            return Ok(Some(case.name));
        }
    }
    Ok(None)
}

/// With these closures, the name of the first plan that isn't placed as was worked by hand.
pub(super) fn wrong_placing(
    alloc: Global,
    closures: Closures,
) -> Result<Option<&'static str>, Fail> {
    let rules = rules(alloc, closures)?;
    first_wrong(alloc, &rules)
}

#[test]
fn plans_are_placed_as_was_worked_by_hand(rt: HostRuntime) -> Result<(), Fail> {
    let wrong = with_closures(rt.alloc(), Trial::Placing)?;
    assert!(rt; wrong.is_none(), "{wrong:?}");
    Ok(())
}
