ghost use Rattle.std.specs.Prelude.{◌≡◌, ◌≤◌, ◌∷◌, ◌++◌, [], All, IfOk, IfSome, List, None, OnErr, OnOk, Some, length, map, vec_len};
ghost use Rattle.plan_facts.specs.declared.record.ClassDef.{ClassDef};
ghost use Rattle.plan_changes.specs.Fits.{IsOfSchema};
ghost use Rattle.plan_changes.specs.Performed.{HasRoom, MayPerform, names_after, plan_after, weights_after};
ghost use Rattle.plan_rules.specs.Range.{sizes_of};
ghost use Rattle.score_director.specs.View.{at_rest};
ghost use Rattle.move_workers.specs.Judging.{HasPlayed, LeadsTo, WorkerView, candidate_in, played, with_director, worker_after, worker_of};
ghost use Rattle.move_workers.specs.Teams.{AreAll, MayMake};

use crate::batch::judged_by;
use crate::due::due_on;
use crate::follower::Follower;
use crate::kit::Kit;
use crate::worker::Worker;
use plan_changes::Ready;
use plan_facts::{Memory, Names, Plan};
use plan_moves::{Edit, MoveMaker};
use plan_ports::Gate;
use plan_rules::{Book, Judges, Kept, Rules};
use plan_scores::PlanScore;
use plan_search::Found;
use score_director::Director;
use std::alloc::Global;
use std::marker::Model;
use std::thread::Threads;

/// A team of 1 to 16 workers on equal plans, which judge the candidates of a step at once: a lead, and others that follow it.
/// It is torn once memory was wanting while its workers played or changed: they may be on different plans then, and it is of
/// no use any more.
pub struct Team<B: Book> {
    alloc: Global,
    lead: Box<Worker<B>>,
    others: Vec<Follower<B>>,
    is_torn: bool,
}

// Written out, so that its owners let go of it by one call.
impl<B: Book> Drop for Team<B> {
    fn drop(self) {
        let Team {
            alloc: _,
            lead,
            others,
            is_torn: _,
        } = self;
        drop(lead);
        drop(others);
    }
}

impl<B: Book> Model for Team<B> {
    ghost use Rattle.std.specs.Prelude.{◌+◌, vec_len};
    ghost use Rattle.move_workers.specs.Teams.{IsTeam, TeamView};

    ghost Value = { TeamView };

    ghost view = { λ t. record { worker = t.lead.value; workers = vec_len t.others + 1; is_torn = t.is_torn } };

    ghost invariant = { λ t. IsTeam t.lead.value t.others.items t.is_torn };
}

/// A worker on a director's plan, in memory of its own, so that a team isn't larger than what is lent of it.
fn lead_on<B: Book>(
    alloc: Global,
    kit: &Kit<'_, B>,
    director: Director<B>,
) -> Result<Box<Worker<B>>, Memory>
    requires { director.base ≡ None }
    ensures { IfOk result (λ lead. lead.value ≡ worker_of director kit.now.seed) }
{
    let lead = Worker::new(alloc, kit, director)?;
    Ok(Box::new(alloc, lead)?)
}

/// Adds a follower on a copy of a director's plan.
fn add_follower<B: Book>(
    alloc: Global,
    kit: &Kit<'_, B>,
    director: &Director<B>,
    weights: &[u32],
    others: &mut Vec<Follower<B>>,
) -> Result<(), Memory>
    requires { director.now ≡ at_rest kit.now.rules.now.defs weights.now director.now.plan }
    ensures { let worker = worker_of director.now kit.now.seed in
        OnOk result (others.new.items ≡ others.old.items ++ worker ∷ []) }
{
    let due = due_on(alloc, kit, director.plan(), weights)?;
    others.push(Follower::new(due))?;
    Ok(())
}

/// So many followers on copies of a director's plan.
fn followers_of<B: Book>(
    alloc: Global,
    kit: &Kit<'_, B>,
    director: &Director<B>,
    weights: &[u32],
    count: u32,
) -> Result<Vec<Follower<B>>, Memory>
    requires { director.now ≡ at_rest kit.now.rules.now.defs weights.now director.now.plan }
    ensures alike { IfOk result (λ all. AreAll (worker_of director.now kit.now.seed) all.items) }
    ensures len { IfOk result (λ all. vec_len all ≡ count) }
{
    let mut all = Vec::with_capacity(alloc, count as usize)?;
    'copies: for _ in 0..count {
        add_follower(alloc, kit, director, weights, &mut all)?;
    }
    Ok(all)
}

/// A follower follows its lead, which has made an edit.
fn follow_one<B: Book>(
    alloc: Global,
    kit: &Kit<'_, B>,
    one: &mut Follower<B>,
    edit: &Edit,
) -> Result<(), Memory>
    requires keeps { ⟦<Rules<B> as Kept>⟧.keeps kit.now.rules.now }
    requires may { let rules = kit.now.rules.now in MayMake rules.defs rules.caps edit.now one.old }
    ensures { OnOk result (one.new ≡ played one.old (Some edit.now)) }
{
    one.follow(alloc, kit, edit)
}

/// Each follower follows its lead, which has made an edit.
fn follow_each<B: Book>(
    alloc: Global,
    kit: &Kit<'_, B>,
    others: &mut [Follower<B>],
    edit: &Edit,
) -> Result<(), Memory>
    requires keeps { ⟦<Rules<B> as Kept>⟧.keeps kit.now.rules.now }
    requires may { let rules = kit.now.rules.now in All (MayMake rules.defs rules.caps edit.now) others.old }
    ensures { (worker : WorkerView) → AreAll worker others.old
        → OnOk result (AreAll (played worker (Some edit.now)) others.new) }
{
    'others: for place in 0..others.len() {
        follow_one(alloc, kit, &mut others[place], edit)?;
    }
    Ok(())
}

/// The same of a whole list.
fn follow_all<B: Book>(
    alloc: Global,
    kit: &Kit<'_, B>,
    others: &mut Vec<Follower<B>>,
    edit: &Edit,
) -> Result<(), Memory>
    requires keeps { ⟦<Rules<B> as Kept>⟧.keeps kit.now.rules.now }
    requires may { let rules = kit.now.rules.now in All (MayMake rules.defs rules.caps edit.now) others.old.items }
    ensures len { vec_len others.new ≡ vec_len others.old }
    ensures follow { (worker : WorkerView) → AreAll worker others.old.items
        → OnOk result (AreAll (played worker (Some edit.now)) others.new.items) }
{
    follow_each(alloc, kit, others.as_mut_slice(), edit)
}

/// A follower goes on with a copy of a director.
fn restart_one<B: Book>(
    alloc: Global,
    kit: &Kit<'_, B>,
    one: &mut Follower<B>,
    director: &Director<B>,
    weights: &[u32],
) -> Result<(), Memory>
    requires rest { director.now ≡ at_rest kit.now.rules.now.defs weights.now director.now.plan }
    requires judges { ⟦<Rules<B> as Judges>⟧.judges kit.now.rules.now weights.now (sizes_of director.now.plan) }
    ensures { OnOk result (one.new ≡ with_director one.old director.now) }
{
    one.restart(alloc, kit, director, weights)
}

/// Each follower goes on with a copy of a director.
fn restart_each<B: Book>(
    alloc: Global,
    kit: &Kit<'_, B>,
    others: &mut [Follower<B>],
    director: &Director<B>,
    weights: &[u32],
) -> Result<(), Memory>
    requires rest { director.now ≡ at_rest kit.now.rules.now.defs weights.now director.now.plan }
    requires judges { ⟦<Rules<B> as Judges>⟧.judges kit.now.rules.now weights.now (sizes_of director.now.plan) }
    ensures { (worker : WorkerView) → AreAll worker others.old
        → OnOk result (AreAll (with_director worker director.now) others.new) }
{
    'others: for place in 0..others.len() {
        restart_one(alloc, kit, &mut others[place], director, weights)?;
    }
    Ok(())
}

/// The same of a whole list.
fn restart_all<B: Book>(
    alloc: Global,
    kit: &Kit<'_, B>,
    others: &mut Vec<Follower<B>>,
    director: &Director<B>,
    weights: &[u32],
) -> Result<(), Memory>
    requires rest { director.now ≡ at_rest kit.now.rules.now.defs weights.now director.now.plan }
    requires judges { ⟦<Rules<B> as Judges>⟧.judges kit.now.rules.now weights.now (sizes_of director.now.plan) }
    ensures len { vec_len others.new ≡ vec_len others.old }
    ensures restarted { (worker : WorkerView) → AreAll worker others.old.items
        → OnOk result (AreAll (with_director worker director.now) others.new.items) }
{
    restart_each(alloc, kit, others.as_mut_slice(), director, weights)
}

/// The lead plays a step's candidate, where it is doable, and the others follow it. Gives the edit that takes it back.
fn play_all<B: Book>(
    alloc: Global,
    kit: &Kit<'_, B>,
    lead: &mut Worker<B>,
    others: &mut Vec<Follower<B>>,
    step: u32,
    number: u32,
) -> Result<Option<Edit>, Memory>
    requires alike { AreAll lead.old others.old.items }
    requires judges { let seen = lead.old.director in
        ⟦<Rules<B> as Judges>⟧.judges kit.now.rules.now seen.weights (sizes_of seen.plan) }
    requires own { kit.now.rules.now.defs ≡ lead.old.director.rules }
    requires seed { kit.now.seed ≡ lead.old.seed }
    requires step { 1 ≤ step }
    ensures played { let makes = map (λ maker. made maker) kit.now.makers.now in
        let candidate = candidate_in kit.now.seed kit.now.selectors.now makes step number lead.old in
        IfOk result (λ back. HasPlayed lead.old lead.new candidate back) }
    ensures takes_back { IfOk result (λ back. IfSome back (LeadsTo lead.old.director.plan lead.new.director.plan)) }
    ensures sizes { sizes_of lead.new.director.plan ≡ sizes_of lead.old.director.plan }
    ensures len { vec_len others.new ≡ vec_len others.old }
    ensures alike { OnOk result (AreAll lead.new others.new.items) }
{
    let Some(edit) = lead.drawn(kit, step, number)? else {
        return Ok(None);
    };
    let back = edit.inverse(lead.plan())?;
    lead.make(kit, &edit)?;
    follow_all(alloc, kit, others, &edit)?;
    Ok(Some(back))
}

/// The lead makes a change, and the others go on with copies of its director: whether what they have yet to make could still
/// be judged isn't known any more. At want of memory the names stay.
fn change_all<B: Book>(
    alloc: Global,
    kit: &Kit<'_, B>,
    lead: &mut Worker<B>,
    others: &mut Vec<Follower<B>>,
    names: &mut Names,
    ready: &Ready,
) -> Result<(), Memory>
    requires alike { AreAll lead.old others.old.items }
    requires judges { let plan = plan_after ready.now names.old lead.old.director.plan in
        let weights = weights_after ready.now lead.old.director.weights in
        ⟦<Rules<B> as Judges>⟧.judges kit.now.rules.now weights (sizes_of plan) }
    requires own { kit.now.rules.now.defs ≡ lead.old.director.rules }
    requires may { MayPerform ready.now lead.old.director.plan (length lead.old.director.weights) }
    requires room { HasRoom ready.now names.old }
    ensures changed { OnOk result (lead.new ≡ worker_after lead.old ready.now names.old) }
    ensures names { OnOk result (names.new ≡ names_after ready.now names.old) }
    ensures names_stay { OnErr result (names.new ≡ names.old) }
    ensures schema { (classes : List ClassDef) → IsOfSchema classes lead.old.director.plan
        → OnOk result (IsOfSchema classes lead.new.director.plan) }
    ensures len { vec_len others.new ≡ vec_len others.old }
    ensures alike { OnOk result (AreAll lead.new others.new.items) }
{
    let count = names.count();
    lead.change(kit, names, ready)?;
    let director = lead.director();
    let restarted = restart_all(alloc, kit, others, director, director.weights());
    if restarted.is_err() {
        names.cut(count);
    }
    restarted
}

impl<B: Book> Team<B> {
    ghost use Rattle.std.specs.Prelude.{◌≡◌, ◌+◌, ◌^◌, ◌<◌, ◌≤◌, IfOk, IfSome, List, None, OnErr, OnOk, false, length, map, true};
    ghost use Rattle.plan_facts.specs.declared.record.ClassDef.{ClassDef};
    ghost use Rattle.plan_changes.specs.Fits.{IsOfSchema};
    ghost use Rattle.std.specs.List.{range_with_len};
    ghost use Rattle.plan_changes.specs.Performed.{HasRoom, MayPerform, names_after, plan_after, weights_after};
    ghost use Rattle.plan_rules.specs.Range.{sizes_of};
    ghost use Rattle.score_director.specs.View.{at_rest, score_seen};
    ghost use Rattle.move_workers.specs.Judging.{HasPlayed, LeadsTo, candidate_in, found_in, worker_after, worker_of};
    ghost use Rattle.move_workers.specs.Teams.{team_of};

    /// A team of so many workers, whose lead has this director, which is under these weights.
    pub fn new(
        alloc: Global,
        kit: &Kit<'_, B>,
        director: Director<B>,
        weights: &[u32],
        workers: u32,
    ) -> Result<Team<B>, Memory>
        requires workers { (1 ≤ workers) × (workers ≤ 16) }
        requires rest { director ≡ at_rest kit.now.rules.now.defs weights.now director.plan }
        requires judges { ⟦<Rules<B> as Judges>⟧.judges kit.now.rules.now weights.now (sizes_of director.plan) }
        ensures { IfOk result (λ team. team ≡ team_of (worker_of director kit.now.seed) workers) }
    {
        let lead = lead_on(alloc, kit, director)?;
        let others = followers_of(alloc, kit, lead.director(), weights, workers - 1)?;
        Ok(Team {
            alloc,
            lead,
            others,
            is_torn: false,
        })
    }

    /// The director of the lead.
    pub fn lead(&self) -> &Director<B>
        ensures lead { result.now ≡ self.now.worker.director }
        ensures rest { self.now.worker.director.base ≡ None }
    {
        self.lead.director()
    }

    /// The plan of each worker.
    pub fn plan(&self) -> &Plan
        ensures { result.now ≡ self.now.worker.director.plan }
    {
        self.lead.plan()
    }

    /// What the plan of each worker is worth.
    pub fn score(&self) -> PlanScore
        ensures { result ≡ score_seen B.meaning self.now.worker.director }
    {
        self.lead.score()
    }

    /// What is found of each of `count` candidates of a step from the number `first` on, in the order of their numbers,
    /// however many workers there are: the score of the plan after it, and the entities that it touches. None exactly where
    /// the candidate is none or isn't doable. Before a candidate is judged the gate is entered at it, once for each. All
    /// stays as before.
    pub fn judged<T: Threads + Sync, G: Gate + Sync>(
        &mut self,
        rt: &T,
        kit: &Kit<'_, B>,
        gate: &G,
        step: u32,
        first: u32,
        count: u32,
    ) -> Result<Vec<Option<Found>>, Memory>
        requires whole { self.old.is_torn ≡ false }
        requires judges { let seen = self.old.worker.director in
            ⟦<Rules<B> as Judges>⟧.judges kit.now.rules.now seen.weights (sizes_of seen.plan) }
        requires own { kit.now.rules.now.defs ≡ self.old.worker.director.rules }
        requires seed { kit.now.seed ≡ self.old.worker.seed }
        requires step { 1 ≤ step }
        requires fits { first + count < 2 ^ 32 }
        ensures found { let makes = map (λ maker. made maker) kit.now.makers.now in
            let found = found_in B.meaning kit.now.seed kit.now.selectors.now makes step self.old.worker in
            IfOk result (λ all. all.items ≡ map found (range_with_len first count)) }
        ensures same { self.new ≡ self.old }
    {
        judged_by(
            rt,
            self.alloc,
            kit,
            gate,
            self.lead.as_mut(),
            &mut self.others,
            step,
            first,
            count,
        )
    }

    /// Each worker plays a step's candidate under a number, where it is doable: the plan of each is that after it, and the
    /// answer is the edit that takes it back. Else the answer is none, and nothing changes. Want of memory tears the team.
    pub fn play(&mut self, kit: &Kit<'_, B>, step: u32, number: u32) -> Result<Option<Edit>, Memory>
        requires whole { self.old.is_torn ≡ false }
        requires judges { let seen = self.old.worker.director in
            ⟦<Rules<B> as Judges>⟧.judges kit.now.rules.now seen.weights (sizes_of seen.plan) }
        requires own { kit.now.rules.now.defs ≡ self.old.worker.director.rules }
        requires seed { kit.now.seed ≡ self.old.worker.seed }
        requires step { 1 ≤ step }
        ensures ok { let makes = map (λ maker. made maker) kit.now.makers.now in
            let candidate = candidate_in kit.now.seed kit.now.selectors.now makes step number self.old.worker in
            IfOk result (λ back. HasPlayed self.old.worker self.new.worker candidate back) }
        ensures takes_back { IfOk result (λ back.
            IfSome back (LeadsTo self.old.worker.director.plan self.new.worker.director.plan)) }
        ensures sizes { OnOk result (sizes_of self.new.worker.director.plan ≡ sizes_of self.old.worker.director.plan) }
        ensures whole { OnOk result (self.new.is_torn ≡ false) }
        ensures torn { OnErr result (self.new.is_torn ≡ true) }
        ensures workers { self.new.workers ≡ self.old.workers }
    {
        self.is_torn = true;
        let back = play_all(
            self.alloc,
            kit,
            self.lead.as_mut(),
            &mut self.others,
            step,
            number,
        )?;
        self.is_torn = false;
        Ok(back)
    }

    /// Each worker makes a change of the plan or the weights, which may be made; the names are changed once. Rows and score
    /// must stay in range. Want of memory tears the team and leaves the names.
    pub fn change(
        &mut self,
        kit: &Kit<'_, B>,
        names: &mut Names,
        ready: &Ready,
    ) -> Result<(), Memory>
        requires whole { self.old.is_torn ≡ false }
        requires judges { let weights = weights_after ready.now self.old.worker.director.weights in
            let plan = plan_after ready.now names.old self.old.worker.director.plan in
            ⟦<Rules<B> as Judges>⟧.judges kit.now.rules.now weights (sizes_of plan) }
        requires own { kit.now.rules.now.defs ≡ self.old.worker.director.rules }
        requires may { let seen = self.old.worker.director in MayPerform ready.now seen.plan (length seen.weights) }
        requires room { HasRoom ready.now names.old }
        ensures ok { OnOk result (self.new.worker ≡ worker_after self.old.worker ready.now names.old) }
        ensures names { OnOk result (names.new ≡ names_after ready.now names.old) }
        ensures names_stay { OnErr result (names.new ≡ names.old) }
        ensures schema { (classes : List ClassDef) → IsOfSchema classes self.old.worker.director.plan
            → OnOk result (IsOfSchema classes self.new.worker.director.plan) }
        ensures whole { OnOk result (self.new.is_torn ≡ false) }
        ensures torn { OnErr result (self.new.is_torn ≡ true) }
        ensures workers { self.new.workers ≡ self.old.workers }
    {
        self.is_torn = true;
        change_all(
            self.alloc,
            kit,
            self.lead.as_mut(),
            &mut self.others,
            names,
            ready,
        )?;
        self.is_torn = false;
        Ok(())
    }

    /// The director of the lead; the others are no more.
    pub fn into_director(self) -> Director<B>
        requires whole { self.is_torn ≡ false }
        ensures director { result ≡ self.worker.director }
        ensures rest { result.base ≡ None }
    {
        let Team {
            alloc: _,
            lead,
            others: _,
            is_torn: _,
        } = self;
        Box::into_inner(lead).into_director()
    }
}
