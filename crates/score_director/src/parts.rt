//! What a network keeps, and how it looks ahead.
ghost use Rattle.std.specs.Prelude.{◌≡◌, ◌<◌, [], All, OnOk, length};
ghost use Rattle.std.specs.List.{AllZip};
ghost use Rattle.stream_heads.specs.Standing.{KeepsBase};
ghost use Rattle.head_changes.specs.Changes.{all_come};
ghost use Rattle.head_changes.specs.Gathered.{Gathers};
ghost use Rattle.head_changes.specs.Takers.{heads_without};
ghost use Rattle.score_director.specs.Net.{AreNetsOf};
ghost use Rattle.score_director.specs.NetState.{Foresees};
ghost use Rattle.score_director.specs.Rule.{AsksKnown, FindsFrom, HasPlaces, IsReady, KnowsClasses};

use crate::all::{foresee_all, look_at_all};
use crate::rule::{RuleAhead, RuleNet};
use head_changes::{ClassChange, gather};
use plan_facts::{Memory, Plan};
use plan_moves::Touch;
use plan_rules::{Book, Kept, Rules, Steps};
use std::sync::ledger::Ledger;
use stream_heads::Heads;

/// The records of a plan, the nodes of each rule, the changes of each class that were gathered last, and what was found
/// of each rule.
#[derive(Drop)]
pub struct Parts {
    pub heads: Heads,
    pub rules: Vec<RuleNet>,
    pub changes: Vec<ClassChange>,
    pub found: Vec<RuleAhead>,
}

/// Gathers what a plan's change is for the records, which come into the heads, and looks ahead at each rule. No rule
/// changes.
pub fn look<B: Book, L: Ledger>(
    parts: &mut Parts,
    rules: &Rules<B>,
    plan: &Plan,
    keys: &[Touch],
    steps: &mut Steps<L>,
) -> Result<(), Memory>
    requires keeps { ⟦<Rules<B> as Kept>⟧.keeps rules.now }
    requires there { All (AsksKnown rules.now.numbers) parts.old.rules.items }
    requires classes { All (KnowsClasses parts.old.changes.items parts.old.changes.items) parts.old.rules.items }
    requires keys { All (λ (key : Touch). key.class < length parts.old.changes.items) keys.now }
    requires each { AllZip HasPlaces parts.old.rules.items parts.old.found.items }
    ensures gathered { let old = parts.old.heads.now in
        OnOk result (Gathers old parts.new.heads.now parts.new.changes.items keys.now plan.now) }
    ensures finds { let changes = parts.new.changes.items in
        OnOk result (AllZip (FindsFrom B.meaning parts.new.heads.now changes changes)
        parts.old.rules.items parts.new.found.items) }
    ensures ready { OnOk result (AllZip IsReady parts.old.rules.items parts.new.found.items) }
    ensures back { let came = all_come parts.new.changes.items in
        heads_without came parts.new.heads.now ≡ parts.old.heads.now }
    ensures base { KeepsBase parts.old.heads parts.new.heads }
    ensures rules { parts.new.rules ≡ parts.old.rules }
    ensures classes { length parts.new.changes.items ≡ length parts.old.changes.items }
    ensures each { AllZip HasPlaces parts.old.rules.items parts.new.found.items }
{
    gather(&mut parts.heads, plan, keys, &mut parts.changes)?;
    look_at_all(
        rules,
        &parts.heads,
        &parts.rules,
        &parts.changes,
        &parts.changes,
        &mut parts.found,
        steps,
    )?;
    Ok(())
}

/// Gathers what a plan's change is for the records, which come into the heads, and puts down what the rows of each rule add
/// up to then. No rule changes.
pub fn foresee_totals<B: Book, L: Ledger>(
    parts: &mut Parts,
    rules: &Rules<B>,
    plan: &Plan,
    keys: &[Touch],
    totals: &mut Vec<u64>,
    steps: &mut Steps<L>,
) -> Result<(), Memory>
    requires keeps { ⟦<Rules<B> as Kept>⟧.keeps rules.now }
    requires own { AreNetsOf rules.now.defs parts.old.rules.items }
    requires classes { All (KnowsClasses parts.old.changes.items parts.old.changes.items) parts.old.rules.items }
    requires keys { All (λ (key : Touch). key.class < length parts.old.changes.items) keys.now }
    requires each { AllZip HasPlaces parts.old.rules.items parts.old.found.items }
    ensures foresees { let old = parts.old.heads.now in
        let foresees = Foresees B.meaning rules.now.defs old parts.old.rules.items in
        OnOk result (foresees keys.now plan.now totals.new.items) }
    ensures back { let came = all_come parts.new.changes.items in
        heads_without came parts.new.heads.now ≡ parts.old.heads.now }
    ensures base { KeepsBase parts.old.heads parts.new.heads }
    ensures rules { parts.new.rules ≡ parts.old.rules }
    ensures classes { length parts.new.changes.items ≡ length parts.old.changes.items }
    ensures each { AllZip HasPlaces parts.old.rules.items parts.new.found.items }
{
    gather(&mut parts.heads, plan, keys, &mut parts.changes)?;
    totals.clear();
    foresee_all(
        rules,
        &parts.heads,
        &parts.rules,
        &parts.changes,
        &parts.changes,
        &mut parts.found,
        totals,
        steps,
    )?;
    Ok(())
}
