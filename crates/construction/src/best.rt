ghost use Rattle.std.specs.Prelude.{◌≡◌, ◌++◌, ◌∷◌, [], IsTrue, IfOk, OnOk, IfSome, List, None, Some, option_map, true, length, ◌<◌};
ghost use Rattle.std.specs.Option.{option_map_or};
ghost use Rattle.plan_facts.specs.Plan.{IsPlan, class_of};
ghost use Rattle.plan_moves.specs.declared.edit.Set.{Set};
ghost use Rattle.plan_moves.specs.Edits.{AreInOrder, applied, is_legal};
ghost use Rattle.plan_rules.specs.Range.{sizes_of};
ghost use Rattle.plan_scores.specs.Order.{is_better_plan};
ghost use Rattle.plan_search.specs.Placing.{best_edit, null_places};
ghost use Rattle.plan_moves.specs.Entities.{values_of};
ghost use Rattle.plan_search.specs.Todo.{is_to_place};
ghost use Rattle.construction.specs.Best.{Considers, MayGoOn, best_in, best_with, completions};
ghost use Rattle.construction.specs.Standing.{IsAtRest, score_under};

use crate::judge::score_after;
use plan_facts::{List, Memory, Plan, Schema};
use plan_moves::{Edit, Set, Touch, choice_at, choice_count};
use plan_rules::{Book, Judges, Rules, Steps};
use plan_scores::PlanScore;
use score_director::Director;
use std::alloc::Global;
use std::mem;
use std::sync::ledger::Ledger;

/// The best edit that was found, and the plan's score after it.
#[derive(Drop)]
pub struct Best {
    pub edit: Edit,
    pub score: PlanScore,
}

/// The sets that are being combined, the edit that was judged last, and the best one so far with the score after it.
/// Each edit is made in the memory of an earlier one.
#[derive(Drop)]
pub struct Trials {
    sets: List<Set>,
    edit: Edit,
    best: Edit,
    score: Option<PlanScore>,
}

/// Trials of which none was made.
fn no_trials(alloc: Global) -> Trials
    ensures sets { result.sets ≡ [] }
    ensures best { best_in result ≡ None }
{
    Trials {
        sets: List::new(alloc),
        edit: Edit::new(alloc),
        best: Edit::new(alloc),
        score: None,
    }
}

/// Whether the score is better than the best so far.
fn is_better(trials: &Trials, score: &PlanScore) -> bool
    ensures { result ≡ option_map_or (λ b. is_better_plan score.now b.score) (best_in trials.now) true }
{
    match trials.score {
        Some(best) => *score > best,
        None => true,
    }
}

/// Makes the edit that was judged last the best one.
fn keep_last(trials: &mut Trials, score: PlanScore)
    ensures best { best_in trials.new ≡ Some (best_with trials.old.edit score) }
    ensures kept { trials.new.sets ≡ trials.old.sets }
{
    mem::swap(&mut trials.edit, &mut trials.best);
    trials.score = Some(score);
}

/// Judges one more edit, and keeps it where it is better than the best so far.
fn consider<B: Book, L: Ledger>(
    director: &mut Director<B>,
    rules: &Rules<B>,
    schema: &Schema,
    trials: &mut Trials,
    steps: &mut Steps<L>,
) -> Result<(), Memory>
    requires judges { ⟦<Rules<B> as Judges>⟧.judges rules.now director.old.weights (sizes_of director.old.plan) }
    requires rest { IsAtRest rules.now.defs director.old }
    requires plan { IsPlan director.old.plan }
    requires order { AreInOrder trials.old.sets }
    requires legal { IsTrue (is_legal director.old.plan trials.old.sets) }
    ensures best { OnOk result (Considers B.meaning director.old trials.old trials.new (trials.old.sets ∷ [])) }
    ensures same { director.new ≡ director.old }
    ensures kept { trials.new.sets ≡ trials.old.sets }
{
    trials.edit.fill(trials.sets.as_slice())?;
    let score = score_after(director, rules, schema, &trials.edit, steps)?;
    if is_better(trials, &score) {
        keep_last(trials, score);
    }
    Ok(())
}

/// Judges the edits that add to the sets one choice for each of the entity's variables, which are null.
fn consider_all<B: Book, L: Ledger>(
    director: &mut Director<B>,
    rules: &Rules<B>,
    schema: &Schema,
    entity: Touch,
    vars: &[u8],
    trials: &mut Trials,
    steps: &mut Steps<L>,
) -> Result<(), Memory>
    requires judges { ⟦<Rules<B> as Judges>⟧.judges rules.now director.old.weights (sizes_of director.old.plan) }
    requires rest { IsAtRest rules.now.defs director.old }
    requires plan { IsPlan director.old.plan }
    requires go_on { MayGoOn director.old.plan entity vars.now trials.old.sets }
    ensures best { let more = completions director.old.plan entity vars.now trials.old.sets in
        OnOk result (Considers B.meaning director.old trials.old trials.new more) }
    ensures same { director.new ≡ director.old }
    ensures kept { OnOk result (trials.new.sets ≡ trials.old.sets) }
{
    let [var, others @ ..] = vars else {
        consider(director, rules, schema, trials, steps)?;
        return Ok(());
    };
    'choices: for place in 0..choice_count(director.plan(), entity.class, *var) {
        trials.sets.push(Set {
            class: entity.class,
            id: entity.id,
            var: *var,
            value: choice_at(director.plan(), entity.class, *var, place),
        })?;
        consider_all(director, rules, schema, entity, others, trials, steps)?;
        trials.sets.pop();
    }
    Ok(())
}

/// The null variables of an entity, by their places.
fn nulls_of(alloc: Global, plan: &Plan, entity: Touch) -> Result<List<u8>, Memory>
    ensures vars { IfOk result (λ vars. vars ≡ null_places (values_of plan.now entity)) }
    ensures sound { IsPlan plan.now }
{
    let mut vars = List::new(alloc);
    let Some(raw) = plan.raw(entity.class, entity.id) else {
        return Ok(vars);
    };
    for place in 0..raw.values.len() {
        if raw.values.as_slice()[place].is_none() {
            vars.push(place as u8)?;
        }
    }
    Ok(vars)
}

/// The best edit of all that were judged.
fn best_found(trials: Trials) -> Option<Best>
    ensures { result ≡ best_in trials }
{
    let Trials {
        best: edit,
        score,
        ..
    } = trials;
    match score {
        Some(score) => Some(Best { edit, score }),
        None => None,
    }
}

/// The best of the edits that place an entity, with the score after it; none where a null variable has no choice. All
/// stays as before.
pub fn best_of<B: Book, L: Ledger>(
    alloc: Global,
    director: &mut Director<B>,
    rules: &Rules<B>,
    schema: &Schema,
    entity: Touch,
    steps: &mut Steps<L>,
) -> Result<Option<Best>, Memory>
    requires judges { ⟦<Rules<B> as Judges>⟧.judges rules.now director.old.weights (sizes_of director.old.plan) }
    requires rest { IsAtRest rules.now.defs director.old }
    requires waits { IsTrue (is_to_place director.old.plan entity) }
    ensures edit { let score = score_under B.meaning director.old in
        IfOk result (λ best. option_map (λ b. b.edit) best ≡ best_edit score director.old.plan entity) }
    ensures score { let score = score_under B.meaning director.old in
        IfOk result (λ best. IfSome best (λ b. b.score ≡ score (applied director.old.plan b.edit))) }
    ensures legal { IfOk result (λ best. IfSome best (λ b. IsTrue (is_legal director.old.plan b.edit))) }
    ensures same { director.new ≡ director.old }
{
    let vars = nulls_of(alloc, director.plan(), entity)?;
    let mut trials = no_trials(alloc);
    consider_all(
        director,
        rules,
        schema,
        entity,
        vars.as_slice(),
        &mut trials,
        steps,
    )?;
    Ok(best_found(trials))
}
