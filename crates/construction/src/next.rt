ghost use Rattle.std.specs.Prelude.{◌≡◌, ◌≤◌, IfOk, IsTrue, OnErr, length, slice_get};
ghost use Rattle.std.specs.Option.{ForSome};
ghost use Rattle.plan_moves.specs.Entities.{values_of};
ghost use Rattle.plan_rules.specs.Range.{sizes_of};
ghost use Rattle.plan_search.specs.Placing.{placing_of};
ghost use Rattle.plan_search.specs.Todo.{is_to_place};
ghost use Rattle.plan_search.specs.TodoLaws.{AwaitPlacing};
ghost use Rattle.score_director.specs.View.{at_rest};
ghost use Rattle.construction.specs.Placed.{IsLegalIn, PlacesFront, course_of, next_of, placed_as, placing_at};
ghost use Rattle.construction.specs.Standing.{IsAtRest, score_under};

use crate::best::best_of;
use crate::judge::play;
use plan_facts::{List, Memory, Plan, Schema};
use plan_moves::{Edit, Touch};
use plan_rules::{Book, Judges, Rules, Steps};
use plan_scores::PlanScore;
use plan_search::Placed;
use score_director::Director;
use std::alloc::Global;
use std::sync::ledger::Ledger;

/// What comes next of what is to be placed.
#[derive(Drop)]
pub enum Placing {
    /// All entities were placed.
    Done,
    /// The entity can't be placed, since one of its null variables has no choice.
    Stuck { class: u8, id: u32 },
    /// The edit that places the entity, and the plan's score after it. It isn't doable where it leaves all null.
    Put { edit: Edit, score: PlanScore },
}

/// The course of a placing: what was placed, in order, and the entity at which it was stuck, if any.
pub struct Course {
    pub placed: List<Placed>,
    pub stuck: Option<Touch>,
}

// Written out, so that its owners let go of it by one call.
impl Drop for Course {
    fn drop(self) {
        let Course { placed, stuck } = self;
        drop(placed);
        drop(stuck);
    }
}

/// The placing of an entity. All stays as before.
fn placing_of<B: Book, L: Ledger>(
    alloc: Global,
    director: &mut Director<B>,
    rules: &Rules<B>,
    schema: &Schema,
    entity: Touch,
    steps: &mut Steps<L>,
) -> Result<Placing, Memory>
    requires judges { ⟦<Rules<B> as Judges>⟧.judges rules.now director.old.weights (sizes_of director.old.plan) }
    requires rest { IsAtRest rules.now.defs director.old }
    requires waits { IsTrue (is_to_place director.old.plan entity) }
    ensures placing { let score = score_under B.meaning director.old in
        IfOk result (λ placing. placing ≡ placing_at score director.old.plan entity) }
    ensures legal { IfOk result (IsLegalIn director.old.plan) }
    ensures same { director.new ≡ director.old }
{
    match best_of(alloc, director, rules, schema, entity, steps)? {
        Some(best) => Ok(Placing::Put {
            edit: best.edit,
            score: best.score,
        }),
        None => Ok(Placing::Stuck {
            class: entity.class,
            id: entity.id,
        }),
    }
}

/// The next placing of what is to be placed, after the first `n` were placed: `Done` where there are no more, `Stuck`
/// where a null variable of the next entity has no choice, else the first best of all combinations of choices for its
/// null variables, by the plan's score after it. The director stays as before, with no attempt in course.
pub fn next_placing<B: Book, L: Ledger>(
    alloc: Global,
    director: &mut Director<B>,
    rules: &Rules<B>,
    schema: &Schema,
    todo: &[Touch],
    n: usize,
    steps: &mut Steps<L>,
) -> Result<Placing, Memory>
    requires judges { ⟦<Rules<B> as Judges>⟧.judges rules.now director.old.weights (sizes_of director.old.plan) }
    requires rest { IsAtRest rules.now.defs director.old }
    requires within { n ≤ length todo.now }
    requires waits { ForSome (slice_get todo.now n) (λ entity. IsTrue (is_to_place director.old.plan entity)) }
    ensures next { let score = score_under B.meaning director.old in
        IfOk result (λ placing. placing ≡ next_of score director.old.plan todo.now n) }
    ensures legal { IfOk result (IsLegalIn director.old.plan) }
    ensures same { director.new ≡ director.old }
{
    match todo.get(n) {
        Some(entity) => placing_of(alloc, director, rules, schema, *entity, steps),
        None => Ok(Placing::Done),
    }
}

/// An entity as it was placed in the plan, whose score this is.
fn placed_at(alloc: Global, plan: &Plan, entity: Touch, score: PlanScore) -> Result<Placed, Memory>
    ensures { IfOk result (λ placed. placed ≡ placed_as (values_of plan.now entity) entity score) }
{
    let values = match plan.raw(entity.class, entity.id) {
        Some(raw) => raw.values.copy(alloc)?,
        None => List::new(alloc),
    };
    Ok(Placed {
        class: entity.class,
        id: entity.id,
        values,
        score,
    })
}

/// Places the director's plan: these entities in their order, each once, each by the first best of all combinations of
/// choices for its null variables, up to one of which a null variable has no choice. Where memory is wanting the first
/// few of them were placed. No attempt is left in course.
pub fn place<B: Book, L: Ledger>(
    alloc: Global,
    director: &mut Director<B>,
    rules: &Rules<B>,
    schema: &Schema,
    todo: &[Touch],
    steps: &mut Steps<L>,
) -> Result<Course, Memory>
    requires judges { ⟦<Rules<B> as Judges>⟧.judges rules.now director.old.weights (sizes_of director.old.plan) }
    requires rest { IsAtRest rules.now.defs director.old }
    requires awaits { AwaitPlacing director.old.plan todo.now }
    ensures course { let score = score_under B.meaning director.old in
        IfOk result (λ course. course_of course director.new.plan ≡ placing_of score director.old.plan todo.now) }
    ensures memory { let score = score_under B.meaning director.old in
        OnErr result (PlacesFront score director.old.plan todo.now director.new.plan) }
    ensures rest { director.new ≡ at_rest director.old.rules director.old.weights director.new.plan }
    ensures sizes { sizes_of director.new.plan ≡ sizes_of director.old.plan }
{
    let mut placed = List::new(alloc);
    for entity in todo {
        let Some(best) = best_of(alloc, director, rules, schema, *entity, steps)? else {
            return Ok(Course {
                placed,
                stuck: Some(*entity),
            });
        };
        let score = play(director, rules, &best.edit, steps)?;
        placed.push(placed_at(alloc, director.plan(), *entity, score)?)?;
    }
    Ok(Course {
        placed,
        stuck: None,
    })
}
