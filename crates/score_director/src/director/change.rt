//! Changes that are made of a director's plan.

ghost use Rattle.std.specs.Prelude.{◌≡◌, IfOk, List, None, OnErr, OnOk, false, length, true};
ghost use Rattle.plan_facts.specs.Plan.{IsPlan};
ghost use Rattle.plan_facts.specs.declared.record.ClassDef.{ClassDef};
ghost use Rattle.plan_changes.specs.Deeds.{is_weight};
ghost use Rattle.plan_changes.specs.Fits.{IsOfSchema};
ghost use Rattle.plan_changes.specs.Performed.{HasRoom, MayPerform, names_after, plan_after, weights_after};
ghost use Rattle.plan_rules.specs.Range.{sizes_of};
ghost use Rattle.plan_rules.specs.Totals.{whole_score};
ghost use Rattle.score_director.specs.Changed.{changed};
ghost use Rattle.score_director.specs.Holders.{key_at, keys_about};
ghost use Rattle.score_director.specs.NetState.{is_open};
ghost use Rattle.score_director.specs.View.{at_rest};
ghost use Rattle.score_director.specs.Worth.{IsNetFor};

use super::Director;
use crate::holders::keys_about;
use crate::net::Net;
use crate::network::{led_on, score_known};
use plan_changes::Ready;
use plan_facts::{List, Memory, Names, Plan};
use plan_moves::Touch;
use plan_rules::{Book, Judges, Rules, Steps};
use plan_scores::PlanScore;
use std::alloc::Global;
use std::sync::ledger::Ledger;

/// Makes the change, which may be made. At want of memory all is as before.
fn perform(
    ready: &Ready,
    plan: &mut Plan,
    names: &mut Names,
    weights: &mut List<u32>,
) -> Result<(), Memory>
    requires may { MayPerform ready.now plan.old (length weights.old) }
    requires room { HasRoom ready.now names.old }
    ensures plan { OnOk result (plan.new ≡ plan_after ready.now names.old plan.old) }
    ensures names { OnOk result (names.new ≡ names_after ready.now names.old) }
    ensures weights { OnOk result (weights.new ≡ weights_after ready.now weights.old) }
    ensures plan_stays { OnErr result (plan.new ≡ plan.old) }
    ensures names_stay { OnErr result (names.new ≡ names.old) }
    ensures schema { (classes : List ClassDef) → IsOfSchema classes plan.old
        → IsOfSchema classes plan.new }
    ensures sound { IsPlan plan.new }
{
    let performed = ready.perform(plan, names, weights.as_mut_slice());
    let _classes = plan.classes();
    performed
}

/// The weights after a change of a rule's weight, which leaves the plan and the names.
fn weights_changed(
    alloc: Global,
    ready: &Ready,
    plan: &mut Plan,
    names: &mut Names,
    weights: &List<u32>,
) -> Result<List<u32>, Memory>
    requires deed { is_weight ready.now.deed ≡ true }
    requires may { MayPerform ready.now plan.old (length weights.now) }
    requires room { HasRoom ready.now names.old }
    ensures weights { IfOk result (λ after. after ≡ weights_after ready.now weights.now) }
    ensures plan { plan.new ≡ plan.old }
    ensures names { names.new ≡ names.old }
{
    let mut after = weights.copy(alloc)?;
    perform(ready, plan, names, &mut after)?;
    Ok(after)
}

/// The keys of the records that a change of a fact turns: its own, and those of the records that hold it.
fn keys_of_change(alloc: Global, plan: &Plan, ready: &Ready) -> Result<Vec<Touch>, Memory>
    requires { is_weight ready.now.deed ≡ false }
    ensures { let fact = key_at ready.now.class ready.now.id in
        IfOk result (λ keys. keys.items ≡ keys_about plan.now fact) }
{
    let fact = Touch {
        class: ready.class(),
        id: ready.id(),
    };
    keys_about(alloc, plan, fact)
}

/// Makes a change of a fact in a plan, leads the network that stands for it on at the keys about the fact, and says
/// what the plan is worth then. At want of memory plan and names are as before, and the network stands for the plan.
fn fact_changed<B: Book, L: Ledger>(
    alloc: Global,
    rules: &Rules<B>,
    ready: &Ready,
    plan: &mut Plan,
    names: &mut Names,
    net: &mut Net,
    weights: &List<u32>,
    steps: &mut Steps<L>,
) -> Result<PlanScore, Memory>
    requires judges { let after = plan_after ready.now names.old plan.old in
        ⟦<Rules<B> as Judges>⟧.judges rules.now weights.now (sizes_of after) }
    requires network { IsNetFor B.meaning rules.now.defs plan.old net.old }
    requires rest { is_open net.old ≡ false }
    requires deed { is_weight ready.now.deed ≡ false }
    requires may { MayPerform ready.now plan.old (length weights.now) }
    requires room { HasRoom ready.now names.old }
    ensures plan { OnOk result (plan.new ≡ plan_after ready.now names.old plan.old) }
    ensures names { OnOk result (names.new ≡ names_after ready.now names.old) }
    ensures network { OnOk result (IsNetFor B.meaning rules.now.defs plan.new net.new) }
    ensures score { IfOk result (λ score. score ≡ whole_score B.meaning rules.now.defs weights.now plan.new) }
    ensures rest { is_open net.new ≡ false }
    ensures plan_stays { OnErr result (plan.new ≡ plan.old) }
    ensures names_stay { OnErr result (names.new ≡ names.old) }
    ensures stays { OnErr result (IsNetFor B.meaning rules.now.defs plan.old net.new) }
    ensures schema { (classes : List ClassDef) → IsOfSchema classes plan.old
        → IsOfSchema classes plan.new }
{
    let keys = keys_of_change(alloc, plan, ready)?;
    let undo = ready.undo(plan)?;
    let mut same = weights.copy(alloc)?;
    let count = names.count();
    perform(ready, plan, names, &mut same)?;
    match led_on(alloc, net, rules, plan, &keys, weights.as_slice(), steps) {
        Ok(score) => Ok(score),
        Err(Memory) => {
            names.cut(count);
            undo.take_back(plan);
            Err(Memory)
        }
    }
}

impl<B: Book> Director<B> {
    /// Has the rules weigh so much from now on. The network keeps the rows of each rule without its weight, so that no
    /// closure is asked. At want of memory all is as before.
    fn reweigh(&mut self, rules: &Rules<B>, weights: List<u32>) -> Result<(), Memory>
        requires each { length weights ≡ length rules.now.defs }
        requires own { rules.now.defs ≡ self.old.rules }
        requires rest { self.old.base ≡ None }
        ensures ok { OnOk result (self.new ≡ at_rest self.old.rules weights self.old.plan) }
        ensures err { OnErr result (self.new ≡ self.old) }
    {
        self.score = score_known(self.alloc, &self.net, rules, &self.plan, weights.as_slice())?;
        self.weights = weights;
        Ok(())
    }

    /// Makes a change of a rule's weight, which leaves the plan. At want of memory all is as before.
    fn change_weight(
        &mut self,
        rules: &Rules<B>,
        names: &mut Names,
        ready: &Ready,
    ) -> Result<(), Memory>
        requires deed { is_weight ready.now.deed ≡ true }
        requires each { length (weights_after ready.now self.old.weights) ≡ length rules.now.defs }
        requires own { rules.now.defs ≡ self.old.rules }
        requires rest { self.old.base ≡ None }
        requires may { MayPerform ready.now self.old.plan (length self.old.weights) }
        requires room { HasRoom ready.now names.old }
        ensures ok { OnOk result (self.new ≡ changed self.old ready.now names.old) }
        ensures names { OnOk result (names.new ≡ names_after ready.now names.old) }
        ensures err { OnErr result (self.new ≡ self.old) }
        ensures names_stay { OnErr result (names.new ≡ names.old) }
        ensures schema { (classes : List ClassDef) → IsOfSchema classes self.old.plan
            → IsOfSchema classes self.new.plan }
    {
        let weights = weights_changed(self.alloc, ready, &mut self.plan, names, &self.weights)?;
        self.reweigh(rules, weights)
    }

    /// Makes a change of a fact: the network is led on at the keys about that. At want of memory all is as before.
    fn change_fact<L: Ledger>(
        &mut self,
        rules: &Rules<B>,
        names: &mut Names,
        ready: &Ready,
        steps: &mut Steps<L>,
    ) -> Result<(), Memory>
        requires judges { let plan = plan_after ready.now names.old self.old.plan in
            ⟦<Rules<B> as Judges>⟧.judges rules.now self.old.weights (sizes_of plan) }
        requires deed { is_weight ready.now.deed ≡ false }
        requires own { rules.now.defs ≡ self.old.rules }
        requires rest { self.old.base ≡ None }
        requires may { MayPerform ready.now self.old.plan (length self.old.weights) }
        requires room { HasRoom ready.now names.old }
        ensures ok { OnOk result (self.new ≡ changed self.old ready.now names.old) }
        ensures names { OnOk result (names.new ≡ names_after ready.now names.old) }
        ensures err { OnErr result (self.new ≡ self.old) }
        ensures names_stay { OnErr result (names.new ≡ names.old) }
        ensures schema { (classes : List ClassDef) → IsOfSchema classes self.old.plan
            → IsOfSchema classes self.new.plan }
    {
        self.score = fact_changed(
            self.alloc,
            rules,
            ready,
            &mut self.plan,
            names,
            &mut self.net,
            &self.weights,
            steps,
        )?;
        Ok(())
    }

    /// Makes a change of the plan, the names or the weights, which may be made; rows and score must stay in range. At want
    /// of memory all is as before.
    pub fn change<L: Ledger>(
        &mut self,
        rules: &Rules<B>,
        names: &mut Names,
        ready: &Ready,
        steps: &mut Steps<L>,
    ) -> Result<(), Memory>
        requires judges { let weights = weights_after ready.now self.old.weights in
            let plan = plan_after ready.now names.old self.old.plan in
            ⟦<Rules<B> as Judges>⟧.judges rules.now weights (sizes_of plan) }
        requires own { rules.now.defs ≡ self.old.rules }
        requires rest { self.old.base ≡ None }
        requires may { MayPerform ready.now self.old.plan (length self.old.weights) }
        requires room { HasRoom ready.now names.old }
        ensures ok { OnOk result (self.new ≡ changed self.old ready.now names.old) }
        ensures names { OnOk result (names.new ≡ names_after ready.now names.old) }
        ensures err { OnErr result (self.new ≡ self.old) }
        ensures names_stay { OnErr result (names.new ≡ names.old) }
        ensures schema { (classes : List ClassDef) → IsOfSchema classes self.old.plan
            → IsOfSchema classes self.new.plan }

        // Nothing is asked for another weight of a rule.
        ensures unasked { is_weight ready.now.deed ≡ true → steps.new ≡ steps.old }
    {
        match ready.rule() {
            Some(_) => self.change_weight(rules, names, ready),
            None => self.change_fact(rules, names, ready, steps),
        }
    }
}
