ghost use Rattle.std.specs.Prelude.{◌≡◌, ◌+◌, ◌^◌, ◌<◌, ◌≤◌, IfOk, IfSome, IsTrue, None, OnErr, OnOk, map};
ghost use Rattle.plan_moves.specs.Edits.{is_legal};
ghost use Rattle.plan_rules.specs.Range.{sizes_of};
ghost use Rattle.move_workers.specs.Due.{stands, works};
ghost use Rattle.move_workers.specs.Jobs.{IsIdle, IsWorked, found_from};
ghost use Rattle.move_workers.specs.Judging.{found_in, played};

use crate::due::{Due, Stand, make, make_due, restart};
use crate::job::{Share, work};
use crate::kit::Kit;
use crate::worker::Worker;
use claim_board::Board;
use plan_facts::Memory;
use plan_moves::{Edit, MoveMaker};
use plan_ports::Gate;
use plan_rules::{Book, Judges, Rules};
use score_director::Director;
use std::alloc::Global;
use std::marker::Model;

/// A worker that follows the lead of its team. It is made when it works first, and an edit that the lead has made it makes
/// itself when it works next, so that all followers do both at once. What contracts see of it is the worker after that edit.
pub struct Follower<B: Book> {
    stand: Stand<Worker<B>>,
    late: Option<Edit>,
}

// Written out, so that its owners let go of it by one call.
impl<B: Book> Drop for Follower<B> {
    fn drop(self) {
        let Follower { stand, late } = self;
        drop(stand);
        drop(late);
    }
}

impl<B: Book> Model for Follower<B> {
    ghost use Rattle.std.specs.Prelude.{IfSome, IsTrue};
    ghost use Rattle.plan_moves.specs.Edits.{is_legal};
    ghost use Rattle.move_workers.specs.Due.{stands};
    ghost use Rattle.move_workers.specs.Judging.{WorkerView, played};

    ghost Value = { WorkerView };

    ghost view = { λ f. played (stands f.stand) f.late };

    ghost invariant = { λ f. IfSome f.late (λ sets. IsTrue (is_legal (stands f.stand).director.plan sets)) };
}

/// A copy of an edit.
fn copy_of(alloc: Global, edit: &Edit) -> Result<Edit, Memory>
    ensures { IfOk result (λ copy. copy ≡ edit.now) }
{
    let mut copy = Edit::new(alloc);
    copy.fill(edit.sets())?;
    Ok(copy)
}

/// The edit that is yet to be made is made, if there is one. At want of memory all is as before.
fn catch_up<B: Book>(
    kit: &Kit<'_, B>,
    stand: &mut Stand<Worker<B>>,
    late: &mut Option<Edit>,
) -> Result<(), Memory>
    requires judges { let seen = (stands stand.old).director in
        ⟦<Rules<B> as Judges>⟧.judges kit.now.rules.now seen.weights (sizes_of seen.plan) }
    requires own { kit.now.rules.now.defs ≡ (stands stand.old).director.rules }
    requires legal { IfSome late.old (λ sets. IsTrue (is_legal (stands stand.old).director.plan sets)) }
    ensures made { OnOk result (stands stand.new ≡ played (stands stand.old) late.old) }
    ensures none { OnOk result (late.new ≡ None) }
    ensures err { OnErr result (stands stand.new ≡ stands stand.old) }
    ensures stays { OnErr result (late.new ≡ late.old) }
{
    if let Some(edit) = late {
        make(kit, stand, edit)?;
    }
    *late = None;
    Ok(())
}

/// The worker that stands here judges the candidates of its share of a batch. It stays as it was.
fn work_on<B: Book, G: Gate>(
    stand: &mut Stand<Worker<B>>,
    share: &mut Share,
    kit: &Kit<'_, B>,
    gate: &G,
    board: &Board,
    step: u32,
    first: u32,
)
    requires works { IsTrue (works stand.old) }
    requires judges { let seen = (stands stand.old).director in
        ⟦<Rules<B> as Judges>⟧.judges kit.now.rules.now seen.weights (sizes_of seen.plan) }
    requires own { kit.now.rules.now.defs ≡ (stands stand.old).director.rules }
    requires seed { kit.now.seed ≡ (stands stand.old).seed }
    requires step { 1 ≤ step }
    requires fits { first + board.now.limit < 2 ^ 32 }
    requires idle { IsIdle board.now share.old }
    ensures worked { let makes = map (λ maker. made maker) kit.now.makers.now in
        let found = found_in B.meaning kit.now.seed kit.now.selectors.now makes step (stands stand.old) in
        IsWorked board.now (found_from found first) share.new }
    ensures same { stands stand.new ≡ stands stand.old }
{
    match stand {
        Stand::Works(worker) => work(worker, share, kit, gate, board, step, first),
        Stand::Due(_) => unreachable!(),
    }
}

impl<B: Book> Follower<B> {
    ghost use Rattle.std.specs.Prelude.{◌≡◌, ◌+◌, ◌^◌, ◌<◌, ◌≤◌, IfOk, IsTrue, None, OnErr, OnOk, Some, map};
    ghost use Rattle.plan_moves.specs.Edits.{is_legal};
    ghost use Rattle.plan_rules.specs.Range.{sizes_of};
    ghost use Rattle.move_workers.specs.Jobs.{IsIdle, IsWorked, found_from};
    ghost use Rattle.move_workers.specs.Due.{worker_due};
    ghost use Rattle.move_workers.specs.Judging.{found_in, played, with_director};
    ghost use Rattle.score_director.specs.View.{at_rest};

    /// A follower that is made of this when it works first.
    pub fn new(due: Due) -> Follower<B>
        ensures { result ≡ worker_due due }
    {
        Follower {
            stand: Stand::Due(due),
            late: None,
        }
    }

    /// Judges the candidates of its share of a batch. It stays as it was.
    pub fn work<G: Gate>(
        &mut self,
        share: &mut Share,
        kit: &Kit<'_, B>,
        gate: &G,
        board: &Board,
        step: u32,
        first: u32,
    )
        requires judges { let seen = self.old.director in
            ⟦<Rules<B> as Judges>⟧.judges kit.now.rules.now seen.weights (sizes_of seen.plan) }
        requires own { kit.now.rules.now.defs ≡ self.old.director.rules }
        requires seed { kit.now.seed ≡ self.old.seed }
        requires step { 1 ≤ step }
        requires fits { first + board.now.limit < 2 ^ 32 }
        requires idle { IsIdle board.now share.old }
        ensures worked { let makes = map (λ maker. made maker) kit.now.makers.now in
            let found = found_in B.meaning kit.now.seed kit.now.selectors.now makes step self.old in
            IsWorked board.now (found_from found first) share.new }
        ensures same { self.new ≡ self.old }
    {
        let caught_up = catch_up(kit, &mut self.stand, &mut self.late);
        if caught_up.is_err() || make_due(kit, &mut self.stand).is_err() {
            share.is_short = true;
            return;
        }
        work_on(&mut self.stand, share, kit, gate, board, step, first);
    }

    /// Follows its lead, which has made an edit that was legal. At want of memory all is as before.
    pub fn follow(&mut self, alloc: Global, kit: &Kit<'_, B>, edit: &Edit) -> Result<(), Memory>
        requires judges { let seen = self.old.director in
            ⟦<Rules<B> as Judges>⟧.judges kit.now.rules.now seen.weights (sizes_of seen.plan) }
        requires own { kit.now.rules.now.defs ≡ self.old.director.rules }
        requires legal { IsTrue (is_legal self.old.director.plan edit.now) }
        ensures ok { OnOk result (self.new ≡ played self.old (Some edit.now)) }
        ensures err { OnErr result (self.new ≡ self.old) }
    {
        let next = copy_of(alloc, edit)?;
        catch_up(kit, &mut self.stand, &mut self.late)?;
        self.late = Some(next);
        Ok(())
    }

    /// Goes on with a copy of a director, on whose plan it has nothing to make. At want of memory all is as before.
    pub fn restart(
        &mut self,
        alloc: Global,
        kit: &Kit<'_, B>,
        director: &Director<B>,
        weights: &[u32],
    ) -> Result<(), Memory>
        requires rest { director.now ≡ at_rest kit.now.rules.now.defs weights.now director.now.plan }
        requires judges { ⟦<Rules<B> as Judges>⟧.judges kit.now.rules.now weights.now (sizes_of director.now.plan) }
        ensures ok { OnOk result (self.new ≡ with_director self.old director.now) }
        ensures err { OnErr result (self.new ≡ self.old) }
    {
        restart(alloc, kit, &mut self.stand, director, weights)?;
        self.late = None;
        Ok(())
    }
}
