// For callers that count no steps.
ghost use Rattle.std.specs.Prelude.{◌≡◌, ◌<◌, IfOk, OnErr};
ghost use Rattle.plan_rules.specs.Range.{sizes_of};
ghost use Rattle.plan_search.specs.Placing.{placing_of};
ghost use Rattle.plan_search.specs.Todo.{todo_by};
ghost use Rattle.plan_search.specs.TodoLaws.{AwaitPlacing};
ghost use Rattle.score_director.specs.View.{at_rest};
ghost use Rattle.construction.specs.Placed.{PlacesFront, course_of};
ghost use Rattle.construction.specs.Standing.{IsAtRest, score_under};

use crate::next::{Course, place};
use crate::order::placing_order;
use plan_facts::{List, Memory, Schema};
use plan_moves::Touch;
use plan_rules::{Book, Judges, Kept, Rules, Steps};
use score_director::Director;
use std::alloc::Global;
use std::marker::Brand;
use std::sync::ledger::{Blank, Ledger};

/// What `placing_order` gives, for a caller that counts no steps.
pub fn order_alone<B: Book>(
    alloc: Global,
    director: &Director<B>,
    rules: &Rules<B>,
    decreasing: bool,
) -> Result<List<Touch>, Memory>
    requires { ⟦<Rules<B> as Kept>⟧.keeps rules.now }
    ensures todo { IfOk result (λ todo. todo ≡ todo_by B.meaning rules.now.harder decreasing director.now.plan) }
    ensures awaits { IfOk result (AwaitPlacing director.now.plan) }
{
    order_from::<B, Brand>(alloc, director, rules, decreasing, Blank::new(1))
}

/// With a counter of its own.
fn order_from<B: Book, L: Ledger>(
    alloc: Global,
    director: &Director<B>,
    rules: &Rules<B>,
    decreasing: bool,
    blank: Blank,
) -> Result<List<Touch>, Memory>
    requires name { blank.name ≡ L.name }
    requires parts { blank.parts ≡ L.parts }
    requires some { 0 < L.parts }
    requires keeps { ⟦<Rules<B> as Kept>⟧.keeps rules.now }
    ensures todo { IfOk result (λ todo. todo ≡ todo_by B.meaning rules.now.harder decreasing director.now.plan) }
    ensures awaits { IfOk result (AwaitPlacing director.now.plan) }
{
    let mut steps: Steps<L> = Steps::new(blank);
    placing_order(alloc, director, rules, decreasing, &mut steps)
}

/// What `place` does, for a caller that counts no steps.
pub fn place_alone<B: Book>(
    alloc: Global,
    director: &mut Director<B>,
    rules: &Rules<B>,
    schema: &Schema,
    todo: &[Touch],
) -> Result<Course, Memory>
    requires judges { ⟦<Rules<B> as Judges>⟧.judges rules.now director.old.weights (sizes_of director.old.plan) }
    requires rest { IsAtRest rules.now.defs director.old }
    requires awaits { AwaitPlacing director.old.plan todo.now }
    ensures course { let score = score_under B.meaning director.old in
        IfOk result (λ course. course_of course director.new.plan ≡ placing_of score director.old.plan todo.now) }
    ensures memory { let score = score_under B.meaning director.old in
        OnErr result (PlacesFront score director.old.plan todo.now director.new.plan) }
    ensures rest { director.new ≡ at_rest director.old.rules director.old.weights director.new.plan }
    ensures sizes { sizes_of director.new.plan ≡ sizes_of director.old.plan }
{
    place_from::<B, Brand>(alloc, director, rules, schema, todo, Blank::new(1))
}

/// With a counter of its own.
fn place_from<B: Book, L: Ledger>(
    alloc: Global,
    director: &mut Director<B>,
    rules: &Rules<B>,
    schema: &Schema,
    todo: &[Touch],
    blank: Blank,
) -> Result<Course, Memory>
    requires name { blank.name ≡ L.name }
    requires parts { blank.parts ≡ L.parts }
    requires some { 0 < L.parts }
    requires judges { ⟦<Rules<B> as Judges>⟧.judges rules.now director.old.weights (sizes_of director.old.plan) }
    requires rest { IsAtRest rules.now.defs director.old }
    requires awaits { AwaitPlacing director.old.plan todo.now }
    ensures course { let score = score_under B.meaning director.old in
        IfOk result (λ course. course_of course director.new.plan ≡ placing_of score director.old.plan todo.now) }
    ensures memory { let score = score_under B.meaning director.old in
        OnErr result (PlacesFront score director.old.plan todo.now director.new.plan) }
    ensures rest { director.new ≡ at_rest director.old.rules director.old.weights director.new.plan }
    ensures sizes { sizes_of director.new.plan ≡ sizes_of director.old.plan }
{
    let mut steps: Steps<L> = Steps::new(blank);
    place(alloc, director, rules, schema, todo, &mut steps)
}
