use crate::net::Net;
use crate::network::{Worth, foreseen, turned, worth_of};
use crate::order::put_in_order;
use plan_facts::{List, Memory, Plan, Schema};
use plan_moves::Edit;
use plan_rules::{Book, Judges, Row, RuleDef, Rules, Steps, copy_rules};
use plan_scores::PlanScore;
use std::alloc::Global;
use std::marker::{Model, PhantomData};
use std::mem;
use std::sync::ledger::Ledger;

/// What takes an attempt back: the edit that does, and what the plan was worth before.
#[derive(Drop)]
struct Attempt {
    back: Edit,
    before: PlanScore,
}

/// A plan under rules and weights, with its score and its matches, and at most one attempt at an edit in course. The
/// score is always that of the whole plan as it is now, an attempt in course included. The totals are what rules weighed in
/// the plan that was judged last, kept for their memory alone.
pub struct Director<B: Book> {
    alloc: Global,
    rules: List<RuleDef>,
    weights: List<u32>,
    plan: Plan,
    net: Net,
    score: PlanScore,
    attempt: Option<Attempt>,
    totals: Vec<u64>,
    of: PhantomData<B>,
}

// Written out, so that its owners let go of it by one call.
impl<B: Book> Drop for Director<B> {
    fn drop(self) {
        let Director {
            alloc: _,
            rules,
            weights,
            plan,
            net,
            score: _,
            attempt,
            totals,
            of: _,
        } = self;
        drop(rules);
        drop(weights);
        drop(plan);
        drop(net);
        drop(attempt);
        drop(totals);
    }
}

impl<B: Book> Model for Director<B> {
    ghost use Rattle.score_director.specs.View.{DirectorView};
    ghost use Rattle.score_director.specs.Worth.{IsDirector, seen_with};

    ghost Value = { DirectorView };

    ghost view = { λ d. seen_with d.rules d.weights d.plan d.attempt };

    ghost invariant = { λ d. IsDirector B.meaning d.rules d.weights d.plan d.net d.score d.attempt };
}

impl<B: Book> Director<B> {
    ghost use Rattle.std.specs.Prelude.{◌≡◌, ◌<◌, None, Some, false, IfOk, IsSome, IsTrue, OnErr, OnOk, length};
    ghost use Rattle.plan_moves.specs.Edits.{is_doable, is_legal};
    ghost use Rattle.plan_rules.specs.Range.{sizes_of};
    ghost use Rattle.score_director.specs.View.{at_rest, attempted, judged, kept, rows_seen, score_seen, undone};

    /// A director of the plan under these weights.
    pub fn new<L: Ledger>(
        alloc: Global,
        rules: &Rules<B>,
        plan: Plan,
        weights: List<u32>,
        steps: &mut Steps<L>,
    ) -> Result<Director<B>, Memory>
        requires { ⟦<Rules<B> as Judges>⟧.judges rules.now weights (sizes_of plan) }
        ensures { IfOk result (λ director. director ≡ at_rest rules.now.defs weights plan) }
    {
        let Worth { net, score } = worth_of(alloc, rules, &plan, weights.as_slice(), steps)?;
        Ok(Director {
            alloc,
            rules: copy_rules(alloc, rules.defs.as_slice())?,
            weights,
            plan,
            net,
            score,
            attempt: None,
            totals: Vec::new(alloc),
            of: PhantomData,
        })
    }

    /// What the plan is worth.
    pub fn score(&self) -> PlanScore
        ensures { result ≡ score_seen B.meaning self.now }
    {
        self.score
    }

    /// The plan as it is now, an attempt in course included.
    pub fn plan(&self) -> &Plan
        ensures { result.now ≡ self.now.plan }
    {
        &self.plan
    }

    /// The weight of each rule.
    pub fn weights(&self) -> &[u32]
        ensures { result.now ≡ self.now.weights }
    {
        self.weights.as_slice()
    }

    /// The plan as it is now.
    pub fn into_plan(self) -> Plan
        ensures { result ≡ self.plan }
    {
        let Director {
            alloc: _,
            rules: _,
            weights: _,
            plan,
            net: _,
            score: _,
            attempt: _,
            totals: _,
            of: _,
        } = self;
        plan
    }

    /// The rows at the end of a rule, in order.
    pub fn matches(&self, rule: u8) -> Result<List<Row>, Memory>
        requires { rule < length self.now.rules }
        ensures { IfOk result (λ rows. Some rows ≡ rows_seen B.meaning self.now rule) }
    {
        let mut rows = self.net.rows(rule)?;
        put_in_order(&mut rows);
        Ok(rows)
    }

    /// Applies an edit that is legal, and says what the plan is worth then. The attempt is in course until it is taken
    /// back or kept. At want of memory all is as before.
    pub fn attempt<L: Ledger>(
        &mut self,
        rules: &Rules<B>,
        edit: &Edit,
        steps: &mut Steps<L>,
    ) -> Result<PlanScore, Memory>
        requires judges { ⟦<Rules<B> as Judges>⟧.judges rules.now self.old.weights (sizes_of self.old.plan) }
        requires own { rules.now.defs ≡ self.old.rules }
        requires rest { self.old.base ≡ None }
        requires legal { IsTrue (is_legal self.old.plan edit.now) }
        ensures ok { OnOk result (self.new ≡ attempted self.old edit.now) }
        ensures score { IfOk result (λ score. score ≡ score_seen B.meaning self.new) }
        ensures err { OnErr result (self.new ≡ self.old) }
    {
        let back = edit.inverse(&self.plan)?;
        let keys = edit.touched()?;
        edit.apply(&mut self.plan);
        self.net.begin();
        match turned(
            self.alloc,
            &mut self.net,
            rules,
            &self.plan,
            keys.as_slice(),
            self.weights.as_slice(),
            steps,
        ) {
            Ok(score) => {
                let before = mem::replace(&mut self.score, score);
                self.attempt = Some(Attempt { back, before });
                Ok(score)
            }
            Err(fault) => {
                self.net.rollback();
                back.apply(&mut self.plan);
                Err(fault)
            }
        }
    }

    /// Takes the attempt in course back.
    pub fn undo(&mut self)
        requires { IsSome self.old.base }
        ensures { self.new ≡ undone self.old }
    {
        if let Some(Attempt { back, before }) = mem::replace(&mut self.attempt, None) {
            back.apply(&mut self.plan);
            self.net.rollback();
            self.score = before;
        }
    }

    /// Keeps what the attempt in course did.
    pub fn keep(&mut self)
        requires { IsSome self.old.base }
        ensures { self.new ≡ kept self.old }
    {
        self.net.commit();
        self.attempt = None;
    }

    /// What the plan would be worth after the edit; none exactly where the edit isn't doable. All stays as before.
    pub fn judge<L: Ledger>(
        &mut self,
        rules: &Rules<B>,
        schema: &Schema,
        edit: &Edit,
        steps: &mut Steps<L>,
    ) -> Result<Option<PlanScore>, Memory>
        requires judges { ⟦<Rules<B> as Judges>⟧.judges rules.now self.old.weights (sizes_of self.old.plan) }
        requires own { rules.now.defs ≡ self.old.rules }
        requires rest { self.old.base ≡ None }
        ensures score { IfOk result (λ score. score ≡ judged B.meaning self.old edit.now) }
        ensures same { self.new ≡ self.old }

        // Nothing is asked for an edit that isn't doable.
        ensures unasked { is_doable self.old.plan edit.now ≡ false → steps.new ≡ steps.old }
    {
        if !edit.doable(schema, &self.plan) {
            return Ok(None);
        }
        let back = edit.inverse(&self.plan)?;
        let keys = edit.touched()?;
        edit.apply(&mut self.plan);
        let score = foreseen(
            self.alloc,
            &mut self.net,
            rules,
            &self.plan,
            keys.as_slice(),
            self.weights.as_slice(),
            &mut self.totals,
            steps,
        );
        back.apply(&mut self.plan);
        Ok(Some(score?))
    }
}

mod change;
mod ready;
