use crate::alone::{change_alone, judge_alone, keep_alone};
use crate::draw::{Hand, draw};
use crate::kit::Kit;
use move_selectors::Pool;
use plan_changes::Ready;
use plan_draws::Draws;
use plan_facts::{Memory, Names, Plan};
use plan_moves::{Edit, MoveMaker};
use plan_rules::{Book, Judges, Rules};
use plan_scores::PlanScore;
use plan_search::Found;
use score_director::Director;
use std::alloc::Global;
use std::marker::Model;
use std::mem;

/// A worker: judges candidates of a search's steps on the plan of its own director, and plays the winners. Candidates are
/// drawn into one edit, which is refilled.
#[derive(Drop)]
pub struct Worker<B: Book> {
    director: Director<B>,
    hand: Hand,
}

impl<B: Book> Model for Worker<B> {
    ghost use Rattle.std.specs.Prelude.{◌≡◌, None, false};
    ghost use Rattle.move_selectors.specs.Pool.{IsPoolOf};
    ghost use Rattle.move_workers.specs.Judging.{WorkerView};

    ghost Value = { WorkerView };

    ghost view = { λ w. record { director = w.director; seed = w.hand.draws } };

    ghost invariant = { λ w. let hand = w.hand in
        (w.director.base ≡ None) × (hand.is_stale ≡ false → IsPoolOf w.director.plan hand.pool) };
}

impl<B: Book> Worker<B> {
    ghost use Rattle.std.specs.Prelude.{◌≡◌, ◌≤◌, IsTrue, List, None, IfOk, IfSome, OnErr, OnOk, Some, length, map};
    ghost use Rattle.plan_facts.specs.declared.record.ClassDef.{ClassDef};
    ghost use Rattle.plan_changes.specs.Fits.{IsOfSchema};
    ghost use Rattle.plan_changes.specs.Performed.{HasRoom, MayPerform, names_after, plan_after, weights_after};
    ghost use Rattle.plan_moves.specs.Edits.{is_legal};
    ghost use Rattle.plan_rules.specs.Range.{sizes_of};
    ghost use Rattle.score_director.specs.View.{score_seen};
    ghost use Rattle.move_workers.specs.Judging.{HasPlayed, LeadsTo, candidate_in, found_by, played, with_director, worker_after};

    /// A worker on a director's plan, whose draws have the kit's seed.
    pub fn new(alloc: Global, kit: &Kit<'_, B>, director: Director<B>) -> Result<Worker<B>, Memory>
        requires { director.base ≡ None }
        ensures { IfOk result (λ worker. worker ≡ record { director = director; seed = kit.now.seed }) }
    {
        let pool = Pool::of(alloc, director.plan())?;
        let draws = Draws::new(kit.seed);
        let edit = Edit::new(alloc);
        Ok(Worker {
            director,
            hand: Hand {
                alloc,
                pool,
                is_stale: false,
                draws,
                edit,
            },
        })
    }

    /// The director of the worker's plan.
    pub fn director(&self) -> &Director<B>
        ensures director { result.now ≡ self.now.director }
        ensures rest { self.now.director.base ≡ None }
    {
        &self.director
    }

    /// The worker's plan.
    pub fn plan(&self) -> &Plan
        ensures { result.now ≡ self.now.director.plan }
    {
        self.director.plan()
    }

    /// What the worker's plan is worth.
    pub fn score(&self) -> PlanScore
        ensures { result ≡ score_seen B.meaning self.now.director }
    {
        self.director.score()
    }

    /// What is found of a step's candidate under a number: the score of the plan after it, and the entities that it
    /// touches. None exactly where the candidate is none or isn't doable. All stays as before.
    pub fn judge(
        &mut self,
        kit: &Kit<'_, B>,
        step: u32,
        number: u32,
    ) -> Result<Option<Found>, Memory>
        requires judges { let seen = self.old.director in
            ⟦<Rules<B> as Judges>⟧.judges kit.now.rules.now seen.weights (sizes_of seen.plan) }
        requires own { kit.now.rules.now.defs ≡ self.old.director.rules }
        requires seed { kit.now.seed ≡ self.old.seed }
        requires step { 1 ≤ step }
        ensures found { let makes = map (λ maker. made maker) kit.now.makers.now in
            let candidate = candidate_in kit.now.seed kit.now.selectors.now makes step number self.old in
            IfOk result (λ found. found ≡ found_by B.meaning self.old.director candidate) }
        ensures same { self.new ≡ self.old }
    {
        if !draw(&mut self.hand, kit, self.director.plan(), step, number)? {
            return Ok(None);
        }
        let judged = judge_alone(&mut self.director, kit.rules, kit.schema, &self.hand.edit)?;
        let Some(score) = judged else {
            return Ok(None);
        };
        let touched = self.hand.edit.touched()?;
        Ok(Some(Found { score, touched }))
    }

    /// A step's candidate under a number, where it is doable.
    pub fn drawn(
        &mut self,
        kit: &Kit<'_, B>,
        step: u32,
        number: u32,
    ) -> Result<Option<Edit>, Memory>
        requires seed { kit.now.seed ≡ self.old.seed }
        requires step { 1 ≤ step }
        ensures candidate { let makes = map (λ maker. made maker) kit.now.makers.now in
            let candidate = candidate_in kit.now.seed kit.now.selectors.now makes step number self.old in
            IfOk result (λ edit. edit ≡ candidate) }
        ensures legal { IfOk result (λ edit. IfSome edit (λ sets. IsTrue (is_legal self.old.director.plan sets))) }
        ensures same { self.new ≡ self.old }
    {
        let plan = self.director.plan();
        let drawn = draw(&mut self.hand, kit, plan, step, number)?;
        if !drawn || !self.hand.edit.doable(kit.schema, plan) {
            return Ok(None);
        }
        let next = Edit::new(self.hand.alloc);
        Ok(Some(mem::replace(&mut self.hand.edit, next)))
    }

    /// Plays a step's candidate under a number, where it is doable: the plan is that after it, and the answer is the edit
    /// that takes it back. Else the answer is none, and nothing changes. At want of memory all is as before.
    pub fn play(&mut self, kit: &Kit<'_, B>, step: u32, number: u32) -> Result<Option<Edit>, Memory>
        requires judges { let seen = self.old.director in
            ⟦<Rules<B> as Judges>⟧.judges kit.now.rules.now seen.weights (sizes_of seen.plan) }
        requires own { kit.now.rules.now.defs ≡ self.old.director.rules }
        requires seed { kit.now.seed ≡ self.old.seed }
        requires step { 1 ≤ step }
        ensures ok { let makes = map (λ maker. made maker) kit.now.makers.now in
            let candidate = candidate_in kit.now.seed kit.now.selectors.now makes step number self.old in
            IfOk result (λ back. HasPlayed self.old self.new candidate back) }
        ensures takes_back { IfOk result (λ back.
            IfSome back (LeadsTo self.old.director.plan self.new.director.plan)) }
        ensures err { OnErr result (self.new ≡ self.old) }
        ensures sizes { sizes_of self.new.director.plan ≡ sizes_of self.old.director.plan }
    {
        let Some(edit) = self.drawn(kit, step, number)? else {
            return Ok(None);
        };
        let back = edit.inverse(self.director.plan())?;
        self.make(kit, &edit)?;
        Ok(Some(back))
    }

    /// Makes an edit that is legal. At want of memory all is as before.
    pub fn make(&mut self, kit: &Kit<'_, B>, edit: &Edit) -> Result<(), Memory>
        requires judges { let seen = self.old.director in
            ⟦<Rules<B> as Judges>⟧.judges kit.now.rules.now seen.weights (sizes_of seen.plan) }
        requires own { kit.now.rules.now.defs ≡ self.old.director.rules }
        requires legal { IsTrue (is_legal self.old.director.plan edit.now) }
        ensures ok { OnOk result (self.new ≡ played self.old (Some edit.now)) }
        ensures sizes { sizes_of self.new.director.plan ≡ sizes_of self.old.director.plan }
        ensures err { OnErr result (self.new ≡ self.old) }
    {
        keep_alone(&mut self.director, kit.rules, edit)?;
        self.hand.pool.forget_pillars();
        Ok(())
    }

    /// Makes a change of the plan, the names or the weights, which may be made; rows and score must stay in range. At want
    /// of memory all is as before.
    pub fn change(
        &mut self,
        kit: &Kit<'_, B>,
        names: &mut Names,
        ready: &Ready,
    ) -> Result<(), Memory>
        requires judges { let weights = weights_after ready.now self.old.director.weights in
            let plan = plan_after ready.now names.old self.old.director.plan in
            ⟦<Rules<B> as Judges>⟧.judges kit.now.rules.now weights (sizes_of plan) }
        requires own { kit.now.rules.now.defs ≡ self.old.director.rules }
        requires may { MayPerform ready.now self.old.director.plan (length self.old.director.weights) }
        requires room { HasRoom ready.now names.old }
        ensures ok { OnOk result (self.new ≡ worker_after self.old ready.now names.old) }
        ensures names { OnOk result (names.new ≡ names_after ready.now names.old) }
        ensures err { OnErr result (self.new ≡ self.old) }
        ensures names_stay { OnErr result (names.new ≡ names.old) }
        ensures schema { (classes : List ClassDef) → IsOfSchema classes self.old.director.plan
            → IsOfSchema classes self.new.director.plan }
    {
        change_alone(&mut self.director, kit.rules, names, ready)?;
        self.hand.is_stale = true;
        Ok(())
    }

    /// Goes on with another director.
    pub fn restart(&mut self, director: Director<B>)
        requires { director.base ≡ None }
        ensures { self.new ≡ with_director self.old director }
    {
        self.hand.is_stale = true;
        self.director = director;
    }

    /// The worker's director, in its place.
    pub fn into_director(self) -> Director<B>
        ensures director { result ≡ self.director }
        ensures rest { result.base ≡ None }
    {
        let Worker { director, hand: _ } = self;
        director
    }
}
