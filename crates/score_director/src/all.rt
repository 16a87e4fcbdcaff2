//! The nodes of all rules.
ghost use Rattle.std.specs.Prelude.{◌≡◌, ◌<◌, All, OnOk, length};
ghost use Rattle.std.specs.List.{AllZip};
ghost use Rattle.score_director.specs.Rule.{AsksKnown, FindsFrom, ForeseesFrom, HasBegun, HasCommitted, HasPlaces, HasRolledBack, IsReady, IsRuleIdle, IsRuleOpen, IsRuleWhole, KeepsRuleBase, KnowsClasses, PutsDown, StoresAll};

use crate::rule::{RuleAhead, RuleNet};
use head_changes::ClassChange;
use plan_facts::Memory;
use plan_rules::{Book, Kept, Rules, Steps};
use std::sync::ledger::Ledger;
use stream_heads::Heads;

/// Looks ahead at each rule, where the records that it begins with change, and those that take part beside its nodes.
pub fn look_at_all<B: Book, L: Ledger>(
    rules: &Rules<B>,
    heads: &Heads,
    nets: &[RuleNet],
    lefts: &[ClassChange],
    rights: &[ClassChange],
    found: &mut [RuleAhead],
    steps: &mut Steps<L>,
) -> Result<(), Memory>
    requires keeps { ⟦<Rules<B> as Kept>⟧.keeps rules.now }
    requires there { All (AsksKnown rules.now.numbers) nets.now }
    requires classes { All (KnowsClasses lefts.now rights.now) nets.now }
    requires each { AllZip HasPlaces nets.now found.old }
    ensures finds { OnOk result (AllZip (FindsFrom B.meaning heads.now.now lefts.now rights.now) nets.now found.new) }
    ensures ready { OnOk result (AllZip IsReady nets.now found.new) }
    ensures each { AllZip HasPlaces nets.now found.new }
{
    let Some((net, rest)) = nets.split_first() else {
        return Ok(());
    };
    let Some((first, others)) = found.split_first_mut() else {
        unreachable!();
    };
    let left = lefts[net.class as usize].taking(net.nulls);
    net.ahead(rules, heads, rights, left, first, steps)?;
    look_at_all(rules, heads, rest, lefts, rights, others, steps)
}

/// Puts down what the rows at the end of each rule add up to where the records that it begins with change, and those that
/// take part beside its nodes.
pub fn foresee_all<B: Book, L: Ledger>(
    rules: &Rules<B>,
    heads: &Heads,
    nets: &[RuleNet],
    lefts: &[ClassChange],
    rights: &[ClassChange],
    found: &mut [RuleAhead],
    totals: &mut Vec<u64>,
    steps: &mut Steps<L>,
) -> Result<(), Memory>
    requires keeps { ⟦<Rules<B> as Kept>⟧.keeps rules.now }
    requires there { All (AsksKnown rules.now.numbers) nets.now }
    requires classes { All (KnowsClasses lefts.now rights.now) nets.now }
    requires each { AllZip HasPlaces nets.now found.old }
    ensures foresees { let foresees = ForeseesFrom B.meaning heads.now.now lefts.now rights.now in
        OnOk result (PutsDown foresees nets.now totals.old.items totals.new.items) }
    ensures each { AllZip HasPlaces nets.now found.new }
{
    let Some((net, rest)) = nets.split_first() else {
        return Ok(());
    };
    let Some((first, others)) = found.split_first_mut() else {
        unreachable!();
    };
    let left = lefts[net.class as usize].taking(net.nulls);
    let total = net.foresee(rules, heads, rights, left, first, steps)?;
    totals.push(total)?;
    foresee_all(rules, heads, rest, lefts, rights, others, totals, steps)
}

/// Stores in each rule what a look ahead found. No closure is called.
pub fn store_all(
    nets: &mut [RuleNet],
    lefts: &[ClassChange],
    rights: &[ClassChange],
    found: &[RuleAhead],
) -> Result<(), Memory>
    requires open { All IsRuleOpen nets.old }
    requires whole { All IsRuleWhole nets.old }
    requires classes { All (KnowsClasses lefts.now rights.now) nets.old }
    requires ready { AllZip IsReady nets.old found.now }
    ensures stores { OnOk result (StoresAll lefts.now rights.now nets.old nets.new found.now) }
    ensures whole { OnOk result (All IsRuleWhole nets.new) }
    ensures base { AllZip KeepsRuleBase nets.old nets.new }
    ensures open { All IsRuleOpen nets.new }
{
    let Some((net, rest)) = nets.split_first_mut() else {
        return Ok(());
    };
    let Some((first, others)) = found.split_first() else {
        unreachable!();
    };
    let left = lefts[net.class as usize].taking(net.nulls);
    net.absorb(rights, left, first)?;
    store_all(rest, lefts, rights, others)
}

/// Opens a trial of each rule.
pub fn begin_each(nets: &mut [RuleNet])
    requires { All IsRuleIdle nets.old }
    ensures { AllZip HasBegun nets.old nets.new }
{
    let Some((first, rest)) = nets.split_first_mut() else {
        return;
    };
    first.begin();
    begin_each(rest);
}

/// Ends the trial of each rule, and takes back all that it did.
pub fn roll_each_back(nets: &mut [RuleNet])
    requires { All IsRuleOpen nets.old }
    ensures { AllZip HasRolledBack nets.old nets.new }
{
    let Some((first, rest)) = nets.split_first_mut() else {
        return;
    };
    first.rollback();
    roll_each_back(rest);
}

/// Ends the trial of each rule, and keeps all that it did.
pub fn commit_each(nets: &mut [RuleNet])
    requires open { All IsRuleOpen nets.old }
    requires whole { All IsRuleWhole nets.old }
    ensures { AllZip HasCommitted nets.old nets.new }
{
    let Some((first, rest)) = nets.split_first_mut() else {
        return;
    };
    first.commit();
    commit_each(rest);
}
