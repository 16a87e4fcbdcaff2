ghost use Rattle.std.specs.Prelude.{◌≡◌, ◌<◌, IfOk, IsTrue, List, None, OnErr, OnOk, length};
ghost use Rattle.plan_facts.specs.declared.record.ClassDef.{ClassDef};
ghost use Rattle.plan_changes.specs.Fits.{IsOfSchema};
ghost use Rattle.plan_changes.specs.Performed.{HasRoom, MayPerform, names_after, plan_after, weights_after};
ghost use Rattle.plan_moves.specs.Edits.{is_legal};
ghost use Rattle.plan_rules.specs.Range.{sizes_of};
ghost use Rattle.score_director.specs.Changed.{changed};
ghost use Rattle.score_director.specs.View.{at_rest, attempted, judged, kept};

use plan_changes::Ready;
use plan_facts::{List, Memory, Names, Plan, Schema};
use plan_moves::Edit;
use plan_rules::{Book, Judges, Rules, Steps};
use plan_scores::PlanScore;
use score_director::Director;
use std::alloc::Global;
use std::marker::Brand;
use std::sync::ledger::{Blank, Ledger};

/// A director of the plan under these weights, for a caller that counts no steps.
pub fn director_alone<B: Book>(
    alloc: Global,
    rules: &Rules<B>,
    plan: Plan,
    weights: List<u32>,
) -> Result<Director<B>, Memory>
    requires { ⟦<Rules<B> as Judges>⟧.judges rules.now weights (sizes_of plan) }
    ensures { IfOk result (λ director. director ≡ at_rest rules.now.defs weights plan) }
{
    director_from::<B, Brand>(alloc, rules, plan, weights, Blank::new(1))
}

/// What `Director::judge` gives, for a caller that counts no steps.
pub fn judge_alone<B: Book>(
    director: &mut Director<B>,
    rules: &Rules<B>,
    schema: &Schema,
    edit: &Edit,
) -> Result<Option<PlanScore>, Memory>
    requires judges { ⟦<Rules<B> as Judges>⟧.judges rules.now director.old.weights (sizes_of director.old.plan) }
    requires own { rules.now.defs ≡ director.old.rules }
    requires rest { director.old.base ≡ None }
    ensures score { IfOk result (λ score. score ≡ judged B.meaning director.old edit.now) }
    ensures same { director.new ≡ director.old }
{
    judge_from::<B, Brand>(director, rules, schema, edit, Blank::new(1))
}

/// Attempts an edit that is legal and keeps it, for a caller that counts no steps.
pub fn keep_alone<B: Book>(
    director: &mut Director<B>,
    rules: &Rules<B>,
    edit: &Edit,
) -> Result<(), Memory>
    requires judges { ⟦<Rules<B> as Judges>⟧.judges rules.now director.old.weights (sizes_of director.old.plan) }
    requires own { rules.now.defs ≡ director.old.rules }
    requires rest { director.old.base ≡ None }
    requires legal { IsTrue (is_legal director.old.plan edit.now) }
    ensures ok { OnOk result (director.new ≡ kept (attempted director.old edit.now)) }
    ensures err { OnErr result (director.new ≡ director.old) }
{
    keep_from::<B, Brand>(director, rules, edit, Blank::new(1))
}

/// Makes a change that may be made, for a caller that counts no steps.
pub fn change_alone<B: Book>(
    director: &mut Director<B>,
    rules: &Rules<B>,
    names: &mut Names,
    ready: &Ready,
) -> Result<(), Memory>
    requires judges { let weights = weights_after ready.now director.old.weights in
        let plan = plan_after ready.now names.old director.old.plan in
        ⟦<Rules<B> as Judges>⟧.judges rules.now weights (sizes_of plan) }
    requires own { rules.now.defs ≡ director.old.rules }
    requires rest { director.old.base ≡ None }
    requires may { MayPerform ready.now director.old.plan (length director.old.weights) }
    requires room { HasRoom ready.now names.old }
    ensures ok { OnOk result (director.new ≡ changed director.old ready.now names.old) }
    ensures names { OnOk result (names.new ≡ names_after ready.now names.old) }
    ensures err { OnErr result (director.new ≡ director.old) }
    ensures names_stay { OnErr result (names.new ≡ names.old) }
    ensures schema { (classes : List ClassDef) → IsOfSchema classes director.old.plan
        → IsOfSchema classes director.new.plan }
{
    change_from::<B, Brand>(director, rules, names, ready, Blank::new(1))
}

/// With a counter of its own.
fn director_from<B: Book, L: Ledger>(
    alloc: Global,
    rules: &Rules<B>,
    plan: Plan,
    weights: List<u32>,
    blank: Blank,
) -> Result<Director<B>, Memory>
    requires name { blank.name ≡ L.name }
    requires parts { blank.parts ≡ L.parts }
    requires some { 0 < L.parts }
    requires judges { ⟦<Rules<B> as Judges>⟧.judges rules.now weights (sizes_of plan) }
    ensures { IfOk result (λ director. director ≡ at_rest rules.now.defs weights plan) }
{
    let mut steps: Steps<L> = Steps::new(blank);
    Director::new(alloc, rules, plan, weights, &mut steps)
}

/// With a counter of its own.
fn judge_from<B: Book, L: Ledger>(
    director: &mut Director<B>,
    rules: &Rules<B>,
    schema: &Schema,
    edit: &Edit,
    blank: Blank,
) -> Result<Option<PlanScore>, Memory>
    requires name { blank.name ≡ L.name }
    requires parts { blank.parts ≡ L.parts }
    requires some { 0 < L.parts }
    requires judges { ⟦<Rules<B> as Judges>⟧.judges rules.now director.old.weights (sizes_of director.old.plan) }
    requires own { rules.now.defs ≡ director.old.rules }
    requires rest { director.old.base ≡ None }
    ensures score { IfOk result (λ score. score ≡ judged B.meaning director.old edit.now) }
    ensures same { director.new ≡ director.old }
{
    let mut steps: Steps<L> = Steps::new(blank);
    director.judge(rules, schema, edit, &mut steps)
}

/// With a counter of its own.
fn keep_from<B: Book, L: Ledger>(
    director: &mut Director<B>,
    rules: &Rules<B>,
    edit: &Edit,
    blank: Blank,
) -> Result<(), Memory>
    requires name { blank.name ≡ L.name }
    requires parts { blank.parts ≡ L.parts }
    requires some { 0 < L.parts }
    requires judges { ⟦<Rules<B> as Judges>⟧.judges rules.now director.old.weights (sizes_of director.old.plan) }
    requires own { rules.now.defs ≡ director.old.rules }
    requires rest { director.old.base ≡ None }
    requires legal { IsTrue (is_legal director.old.plan edit.now) }
    ensures ok { OnOk result (director.new ≡ kept (attempted director.old edit.now)) }
    ensures err { OnErr result (director.new ≡ director.old) }
{
    let mut steps: Steps<L> = Steps::new(blank);
    director.attempt(rules, edit, &mut steps)?;
    director.keep();
    Ok(())
}

/// With a counter of its own.
fn change_from<B: Book, L: Ledger>(
    director: &mut Director<B>,
    rules: &Rules<B>,
    names: &mut Names,
    ready: &Ready,
    blank: Blank,
) -> Result<(), Memory>
    requires name { blank.name ≡ L.name }
    requires parts { blank.parts ≡ L.parts }
    requires some { 0 < L.parts }
    requires judges { let weights = weights_after ready.now director.old.weights in
        let plan = plan_after ready.now names.old director.old.plan in
        ⟦<Rules<B> as Judges>⟧.judges rules.now weights (sizes_of plan) }
    requires own { rules.now.defs ≡ director.old.rules }
    requires rest { director.old.base ≡ None }
    requires may { MayPerform ready.now director.old.plan (length director.old.weights) }
    requires room { HasRoom ready.now names.old }
    ensures ok { OnOk result (director.new ≡ changed director.old ready.now names.old) }
    ensures names { OnOk result (names.new ≡ names_after ready.now names.old) }
    ensures err { OnErr result (director.new ≡ director.old) }
    ensures names_stay { OnErr result (names.new ≡ names.old) }
    ensures schema { (classes : List ClassDef) → IsOfSchema classes director.old.plan
        → IsOfSchema classes director.new.plan }
{
    let mut steps: Steps<L> = Steps::new(blank);
    director.change(rules, names, ready, &mut steps)
}
