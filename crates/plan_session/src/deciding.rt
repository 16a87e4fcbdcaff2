ghost use Rattle.std.specs.Prelude.{◌≡◌, ◌+◌, ◌≤◌, ◌<◌, ◌^◌, ◌∷◌, IfOk, OnOk, false, length, map};
ghost use Rattle.plan_rules.specs.Range.{sizes_of};
ghost use Rattle.move_workers.specs.Judging.{found_in};
ghost use Rattle.search_core.specs.declared.event.Event.TheVariants as event;
ghost use Rattle.search_core.specs.Desk.{choose_reply, desk};
ghost use Rattle.search_core.specs.Keeps.{StandsFor};
ghost use Rattle.search_core.specs.OneThread.{BeginsAt, judge_events, step_events, winner_number};
ghost use Rattle.plan_session.specs.Asking.{AsksAt, HasAsked};

use move_workers::{Kit, Team};
use plan_facts::Memory;
use plan_moves::MoveMaker as Maker;
use plan_ports::Gate;
use plan_rules::{Book, Judges, Rules};
use plan_search::Found;
use search_core::{Core, Reply, decide, record_found};
use std::thread::Threads;

/// Tells the core what was found of the numbers of a step that are asked from the first one on, in order.
fn record_all(core: &mut Core, step: u32, first: u32, all: Vec<Option<Found>>) -> Result<(), Memory>
    requires asked { HasAsked core.old step first all.items }
    requires fits { first + length all.items < 2 ^ 32 }
    ensures stands { OnOk result ((asked : HasAsked core.old step first all.items) → let at = asked.at in
        StandsFor at.terms core.new (judge_events step asked.found first (length all.items) at.events)) }
{
    let mut number = first;
    'founds: for found in all {
        record_found(core, step, number, found)?;
        number += 1;
    }
    Ok(())
}

/// Judges the numbers of a step that are asked from the first one on, and tells the core what was found of each, in order.
fn judge_batch<T: Threads + Sync, B: Book, G: Gate + Sync>(
    rt: &T,
    kit: &Kit<'_, B>,
    gate: &G,
    core: &mut Core,
    team: &mut Team<B>,
    step: u32,
    first: u32,
    count: u32,
) -> Result<(), Memory>
    requires whole { team.old.is_torn ≡ false }
    requires judges { let seen = team.old.worker.director in
        ⟦<Rules<B> as Judges>⟧.judges kit.now.rules.now seen.weights (sizes_of seen.plan) }
    requires own { kit.now.rules.now.defs ≡ team.old.worker.director.rules }
    requires seed { kit.now.seed ≡ team.old.worker.seed }
    requires step { 1 ≤ step }
    requires at { let makes = map (λ m. (⟦<dyn Maker as Maker>⟧ m.vtable).made m.value) kit.now.makers.now in
        let found = found_in B.meaning kit.now.seed kit.now.selectors.now makes step team.old.worker in
        AsksAt core.old step found first count }
    requires fits { first + count < 2 ^ 32 }
    ensures same { team.new ≡ team.old }
    ensures stands { let makes = map (λ m. (⟦<dyn Maker as Maker>⟧ m.vtable).made m.value) kit.now.makers.now in
        let found = found_in B.meaning kit.now.seed kit.now.selectors.now makes step team.old.worker in
        OnOk result ((at : AsksAt core.old step found first count) →
        StandsFor at.terms core.new (judge_events step found first count at.events)) }
{
    let all = team.judged(rt, kit, gate, step, first, count)?;
    record_all(core, step, first, all)?;
    Ok(())
}

/// Judges the numbers that are asked, and lets the core decide.
fn judge_and_decide<T: Threads + Sync, B: Book, G: Gate + Sync>(
    rt: &T,
    kit: &Kit<'_, B>,
    gate: &G,
    core: &mut Core,
    team: &mut Team<B>,
    step: u32,
    first: u32,
    count: u32,
) -> Result<Reply, Memory>
    requires whole { team.old.is_torn ≡ false }
    requires judges { let seen = team.old.worker.director in
        ⟦<Rules<B> as Judges>⟧.judges kit.now.rules.now seen.weights (sizes_of seen.plan) }
    requires own { kit.now.rules.now.defs ≡ team.old.worker.director.rules }
    requires seed { kit.now.seed ≡ team.old.worker.seed }
    requires step { 1 ≤ step }
    requires at { let makes = map (λ m. (⟦<dyn Maker as Maker>⟧ m.vtable).made m.value) kit.now.makers.now in
        let found = found_in B.meaning kit.now.seed kit.now.selectors.now makes step team.old.worker in
        AsksAt core.old step found first count }
    requires fits { first + count < 2 ^ 32 }
    ensures same { team.new ≡ team.old }
    ensures reply { let makes = map (λ m. (⟦<dyn Maker as Maker>⟧ m.vtable).made m.value) kit.now.makers.now in
        let found = found_in B.meaning kit.now.seed kit.now.selectors.now makes step team.old.worker in
        IfOk result (λ reply. (at : AsksAt core.old step found first count) →
        reply ≡ choose_reply at.terms (desk at.terms (judge_events step found first count at.events))) }
    ensures stands { let makes = map (λ m. (⟦<dyn Maker as Maker>⟧ m.vtable).made m.value) kit.now.makers.now in
        let found = found_in B.meaning kit.now.seed kit.now.selectors.now makes step team.old.worker in
        OnOk result ((at : AsksAt core.old step found first count) →
        StandsFor at.terms core.new (event.Choose step ∷ judge_events step found first count at.events)) }
{
    judge_batch(rt, kit, gate, core, team, step, first, count)?;
    decide(core, step)
}

/// Judges the candidates of a step that begins, batch by batch, until the core chooses: the winner's number, if any. The
/// team stays as before.
pub fn choose<T: Threads + Sync, B: Book, G: Gate + Sync>(
    rt: &T,
    kit: &Kit<'_, B>,
    gate: &G,
    core: &mut Core,
    team: &mut Team<B>,
    step: u32,
) -> Result<Option<u32>, Memory>
    requires whole { team.old.is_torn ≡ false }
    requires judges { let seen = team.old.worker.director in
        ⟦<Rules<B> as Judges>⟧.judges kit.now.rules.now seen.weights (sizes_of seen.plan) }
    requires own { kit.now.rules.now.defs ≡ team.old.worker.director.rules }
    requires seed { kit.now.seed ≡ team.old.worker.seed }
    requires step { 1 ≤ step }
    requires begins { BeginsAt core.old step }
    ensures same { team.new ≡ team.old }
    ensures winner { let makes = map (λ m. (⟦<dyn Maker as Maker>⟧ m.vtable).made m.value) kit.now.makers.now in
        let found = found_in B.meaning kit.now.seed kit.now.selectors.now makes step team.old.worker in
        IfOk result (λ winner. (at : BeginsAt core.old step) → winner ≡ winner_number at.terms at.history found) }
    ensures stands { let makes = map (λ m. (⟦<dyn Maker as Maker>⟧ m.vtable).made m.value) kit.now.makers.now in
        let found = found_in B.meaning kit.now.seed kit.now.selectors.now makes step team.old.worker in
        OnOk result ((at : BeginsAt core.old step) →
        StandsFor at.terms core.new (step_events at.terms step found at.events)) }
{
    let mut first: u32 = 0;
    let mut count = core.first_asked();
    'batches: loop {
        match judge_and_decide(rt, kit, gate, core, team, step, first, count)? {
            Reply::Chosen(winner) => return Ok(winner),
            Reply::More {
                first: next,
                count: more,
            } => {
                first = next;
                count = more;
            }
            Reply::Noted | Reply::Leg(_) => unreachable!(),
        }
    }
}
