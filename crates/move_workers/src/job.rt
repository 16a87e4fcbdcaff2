ghost use Rattle.std.specs.Prelude.{◌≡◌, ◌+◌, ◌^◌, ◌<◌, ◌≤◌, IfOk, map};
ghost use Rattle.plan_rules.specs.Range.{sizes_of};
ghost use Rattle.move_workers.specs.Judging.{found_in};
ghost use Rattle.move_workers.specs.Jobs.{IsIdle, IsWorked, found_from};

use crate::kit::Kit;
use crate::worker::Worker;
use claim_board::{Board, Pass};
use plan_facts::Memory;
use plan_moves::MoveMaker;
use plan_ports::{Gate, Place};
use plan_rules::{Book, Judges, Rules};
use plan_search::Found;

/// What was found at a place of a batch.
#[derive(Drop)]
pub struct Verdict {
    pub place: u32,
    pub found: Option<Found>,
}

/// What a worker has of a batch: its pass, its verdicts so far, and whether memory was wanting.
#[derive(Drop)]
pub struct Share {
    pub pass: Pass,
    pub verdicts: Vec<Verdict>,
    pub is_short: bool,
}

/// A worker with its share of a batch.
#[derive(Drop)]
pub struct Job<W> {
    pub worker: W,
    pub share: Share,
}

/// Enters the gate, and judges a step's candidate then.
pub fn judge_at<B: Book, G: Gate>(
    worker: &mut Worker<B>,
    kit: &Kit<'_, B>,
    gate: &G,
    step: u32,
    number: u32,
) -> Result<Option<Found>, Memory>
    requires judges { let seen = worker.old.director in
        ⟦<Rules<B> as Judges>⟧.judges kit.now.rules.now seen.weights (sizes_of seen.plan) }
    requires own { kit.now.rules.now.defs ≡ worker.old.director.rules }
    requires seed { kit.now.seed ≡ worker.old.seed }
    requires step { 1 ≤ step }
    ensures found { let makes = map (λ maker. made maker) kit.now.makers.now in
        let found = found_in B.meaning kit.now.seed kit.now.selectors.now makes step worker.old in
        IfOk result (λ one. one ≡ found number) }
    ensures same { worker.new ≡ worker.old }
{
    gate.enter(Place::Judge { step, number });
    worker.judge(kit, step, number)
}

/// Draws places of a batch, and judges the candidate of each, until there is none left or memory is wanting.
pub fn work<B: Book, G: Gate>(
    worker: &mut Worker<B>,
    share: &mut Share,
    kit: &Kit<'_, B>,
    gate: &G,
    board: &Board,
    step: u32,
    first: u32,
)
    requires judges { let seen = worker.old.director in
        ⟦<Rules<B> as Judges>⟧.judges kit.now.rules.now seen.weights (sizes_of seen.plan) }
    requires own { kit.now.rules.now.defs ≡ worker.old.director.rules }
    requires seed { kit.now.seed ≡ worker.old.seed }
    requires step { 1 ≤ step }
    requires fits { first + board.now.limit < 2 ^ 32 }
    requires idle { IsIdle board.now share.old }
    ensures worked { let makes = map (λ maker. made maker) kit.now.makers.now in
        let found = found_in B.meaning kit.now.seed kit.now.selectors.now makes step worker.old in
        IsWorked board.now (found_from found first) share.new }
    ensures same { worker.new ≡ worker.old }
{
    'draws: while let Some(place) = board.draw(&mut share.pass) {
        if share.verdicts.reserve(1).is_err() {
            share.is_short = true;
            return;
        }
        let Ok(found) = judge_at(worker, kit, gate, step, first + place) else {
            share.is_short = true;
            return;
        };
        share.verdicts.push_reserved(Verdict { place, found });
    }
}
