//! What a follower stands with: a worker, or what one is made of once it works.
ghost use Rattle.std.specs.Prelude.{◌≡◌, IfOk, IsTrue, OnErr, OnOk, Some};
ghost use Rattle.plan_moves.specs.Edits.{is_legal};
ghost use Rattle.plan_rules.specs.Range.{sizes_of};
ghost use Rattle.score_director.specs.View.{at_rest};
ghost use Rattle.move_workers.specs.Due.{stands, worker_due, works};
ghost use Rattle.move_workers.specs.Judging.{played, with_director, worker_of};

use crate::alone::director_alone;
use crate::kit::Kit;
use crate::worker::Worker;
use plan_facts::{List, Memory, Plan};
use plan_moves::{Edit, MoveMaker};
use plan_rules::{Book, Judges, RuleDef, Rules, copy_rules};
use score_director::Director;
use std::alloc::Global;

/// What a worker is made of: a plan under rules and weights, and the seed of its draws.
#[derive(Drop)]
pub struct Due {
    pub alloc: Global,
    pub rules: List<RuleDef>,
    pub weights: List<u32>,
    pub plan: Plan,
    pub seed: u64,
}

/// A worker, or what one is made of once it works.
#[derive(Drop)]
pub enum Stand<W> {
    Works(W),
    Due(Due),
}

/// What a worker is made of that stands on this plan, under these weights.
pub fn due_on<B: Book>(
    alloc: Global,
    kit: &Kit<'_, B>,
    plan: &Plan,
    weights: &[u32],
) -> Result<Due, Memory>
    ensures { let worker = worker_of (at_rest kit.now.rules.now.defs weights.now plan.now) kit.now.seed in
        IfOk result (λ due. worker_due due ≡ worker) }
{
    Ok(Due {
        alloc,
        rules: copy_rules(alloc, kit.rules.defs.as_slice())?,
        weights: List::from_slice(alloc, weights)?,
        plan: plan.copy()?,
        seed: kit.seed,
    })
}

/// The worker that is due. What it is made of stays.
fn worker_due<B: Book>(kit: &Kit<'_, B>, due: &Due) -> Result<Worker<B>, Memory>
    requires judges { ⟦<Rules<B> as Judges>⟧.judges kit.now.rules.now due.now.weights (sizes_of due.now.plan) }
    requires own { kit.now.rules.now.defs ≡ due.now.rules }
    requires seed { kit.now.seed ≡ due.now.seed }
    ensures { IfOk result (λ worker. worker ≡ worker_due due.now) }
{
    let weights = due.weights.copy(due.alloc)?;
    let plan = due.plan.copy()?;
    let director = director_alone(due.alloc, kit.rules, plan, weights)?;
    Ok(Worker::new(due.alloc, kit, director)?)
}

/// Makes the worker where it is due, so that one stands here. What contracts see of it stays.
pub fn make_due<B: Book>(kit: &Kit<'_, B>, stand: &mut Stand<Worker<B>>) -> Result<(), Memory>
    requires judges { let seen = (stands stand.old).director in
        ⟦<Rules<B> as Judges>⟧.judges kit.now.rules.now seen.weights (sizes_of seen.plan) }
    requires own { kit.now.rules.now.defs ≡ (stands stand.old).director.rules }
    requires seed { kit.now.seed ≡ (stands stand.old).seed }
    ensures works { OnOk result (IsTrue (works stand.new)) }
    ensures same { stands stand.new ≡ stands stand.old }
{
    let worker = match stand {
        Stand::Works(_) => return Ok(()),
        Stand::Due(due) => worker_due(kit, due)?,
    };
    *stand = Stand::Works(worker);
    Ok(())
}

/// The worker makes an edit that is legal; where it is due, the plan that it will stand on does. At want of memory all is as
/// before.
pub fn make<B: Book>(
    kit: &Kit<'_, B>,
    stand: &mut Stand<Worker<B>>,
    edit: &Edit,
) -> Result<(), Memory>
    requires judges { let seen = (stands stand.old).director in
        ⟦<Rules<B> as Judges>⟧.judges kit.now.rules.now seen.weights (sizes_of seen.plan) }
    requires own { kit.now.rules.now.defs ≡ (stands stand.old).director.rules }
    requires legal { IsTrue (is_legal (stands stand.old).director.plan edit.now) }
    ensures ok { OnOk result (stands stand.new ≡ played (stands stand.old) (Some edit.now)) }
    ensures err { OnErr result (stands stand.new ≡ stands stand.old) }
{
    match stand {
        Stand::Works(worker) => worker.make(kit, edit),
        Stand::Due(due) => {
            edit.apply(&mut due.plan);
            Ok(())
        }
    }
}

/// A director of a copy of another one's plan, under the same weights.
fn twin_of<B: Book>(
    alloc: Global,
    kit: &Kit<'_, B>,
    director: &Director<B>,
    weights: &[u32],
) -> Result<Director<B>, Memory>
    requires rest { director.now ≡ at_rest kit.now.rules.now.defs weights.now director.now.plan }
    requires judges { ⟦<Rules<B> as Judges>⟧.judges kit.now.rules.now weights.now (sizes_of director.now.plan) }
    ensures { IfOk result (λ twin. twin ≡ director.now) }
{
    let plan = director.plan().copy()?;
    let weights = List::from_slice(alloc, weights)?;
    director_alone(alloc, kit.rules, plan, weights)
}

/// What a worker is made of changes to a copy of a director's plan. Its seed stays.
fn renew<B: Book>(
    alloc: Global,
    kit: &Kit<'_, B>,
    due: &mut Due,
    director: &Director<B>,
    weights: &[u32],
) -> Result<(), Memory>
    requires { director.now ≡ at_rest kit.now.rules.now.defs weights.now director.now.plan }
    ensures ok { OnOk result (worker_due due.new ≡ with_director (worker_due due.old) director.now) }
    ensures err { OnErr result (due.new ≡ due.old) }
{
    let next = due_on(alloc, kit, director.plan(), weights)?;
    due.rules = next.rules;
    due.weights = next.weights;
    due.plan = next.plan;
    Ok(())
}

/// The worker goes on with a copy of a director. At want of memory all is as before.
pub fn restart<B: Book>(
    alloc: Global,
    kit: &Kit<'_, B>,
    stand: &mut Stand<Worker<B>>,
    director: &Director<B>,
    weights: &[u32],
) -> Result<(), Memory>
    requires rest { director.now ≡ at_rest kit.now.rules.now.defs weights.now director.now.plan }
    requires judges { ⟦<Rules<B> as Judges>⟧.judges kit.now.rules.now weights.now (sizes_of director.now.plan) }
    ensures ok { OnOk result (stands stand.new ≡ with_director (stands stand.old) director.now) }
    ensures err { OnErr result (stands stand.new ≡ stands stand.old) }
{
    match stand {
        Stand::Works(worker) => {
            let twin = twin_of(alloc, kit, director, weights)?;
            worker.restart(twin);
            Ok(())
        }
        Stand::Due(due) => renew(alloc, kit, due, director, weights),
    }
}
