//! What plans are worth, found by plain loops.
ghost use Rattle.std.specs.Prelude.{◌≡◌, ◌<◌, IfOk};
ghost use Rattle.plan_rules.specs.Range.{sizes_of};

mod cases;

use super::closures::{Closures, Ids, Trial, asking_rules, with_closures};
use super::fixtures::may_judge;
use super::sketches::rule_of;
use cases::{CASES, Case, ROOM};
use plan_facts::{List, Memory, Plan, Schema};
use plan_recalc::{Totals, recalc, score, score_alone, totals_alone};
use plan_rules::{Judges, Kept, Match, Part, Row, RuleDef, Rules, Steps};
use plan_scores::{PlanScore, Score};
use std::alloc::Global;
use std::marker::Brand;
use std::sync::ledger::{Blank, Ledger};
use std::test::Fail;
use test_plans::FactSketch::{Entity, Fact};
use test_plans::VarSketch::Var;
use test_plans::{ClassSketch, FactSketch, plan_of, schema_of};

/// Tasks, each with a room, and rooms.
const CLASSES: &[ClassSketch] = &[
    ClassSketch("task", &[], &[Var("room", ROOM)]),
    ClassSketch("room", &[], &[]),
];

/// Tasks 1 and 2 in room 1, task 3 in none, tasks 4 and 6 in room 3, and the rooms 1, 3 and 5.
const FACTS: &[&[FactSketch]] = &[
    &[
        Entity(6, &[], &[Some(3)]),
        Entity(2, &[], &[Some(1)]),
        Entity(3, &[], &[None]),
        Entity(4, &[], &[Some(3)]),
        Entity(1, &[], &[Some(1)]),
    ],
    &[Fact(3, &[]), Fact(5, &[]), Fact(1, &[])],
];

/// The weight of each case's rule.
fn weights(alloc: Global) -> Result<List<u32>, Memory> {
    let mut weights = List::new(alloc);
    for case in CASES {
        weights.push(case.worth.weight)?;
    }
    Ok(weights)
}

/// The rule of a case.
fn def(alloc: Global, case: &Case) -> Result<RuleDef, Memory> {
    rule_of(alloc, case.name, &case.worth, &case.head, &case.node)
}

/// The rules of all cases.
fn defs(alloc: Global) -> Result<List<RuleDef>, Memory> {
    let mut defs = List::new(alloc);
    for case in CASES {
        defs.push(def(alloc, case)?)?;
    }
    Ok(defs)
}

/// They ask these closures, which keep their word.
fn rules_over(alloc: Global, schema: &Schema, closures: Closures) -> Result<Rules<Ids>, Fail>
    ensures { IfOk result (λ rules. ⟦<Rules<Ids> as Kept>⟧.keeps rules) }
{
    let defs = defs(alloc)?;
    asking_rules(alloc, schema, defs, closures, List::new(alloc))
}

/// The rules over tasks and rooms.
fn rules(alloc: Global, closures: Closures) -> Result<Rules<Ids>, Fail>
    ensures { IfOk result (λ rules. ⟦<Rules<Ids> as Kept>⟧.keeps rules) }
{
    let schema = schema_of(alloc, CLASSES)?;
    rules_over(alloc, &schema, closures)
}

/// A task by its id, a room by its id and 100, and a number by itself.
fn number_of(part: Option<&Part>) -> Option<i64> {
    match part {
        Some(Part::Fact(rec)) if rec.class == ROOM => Some(100 + i64::from(rec.id)),
        Some(Part::Fact(rec)) => Some(i64::from(rec.id)),
        Some(Part::Num(number)) => Some(*number),
        None => None,
    }
}

/// Whether the row has these numbers, in this order.
fn has_numbers(row: &Row, wanted: &[i64]) -> bool {
    for (place, wanted) in wanted.iter().enumerate() {
        if number_of(row.part(place)) != Some(*wanted) {
            return false;
        }
    }
    row.len() == wanted.len()
}

/// Whether the matches have rows of so many parts with these numbers, row by row.
fn has_rows(matches: &[Match], parts: usize, wanted: &[i64]) -> bool {
    let mut left = wanted;
    for one in matches {
        if left.len() < parts {
            return false;
        }
        let (numbers, rest) = left.split_at(parts);
        if !has_numbers(&one.row, numbers) {
            return false;
        }
        left = rest;
    }
    left.is_empty()
}

/// Whether this is what all cases together are worth: task 3 has no room; 59 of the matches that count one and -2 of a
/// pair; 4 once and 5 once, three times each; -1, -2, -4 and -5.
fn is_wanted(score: PlanScore) -> bool {
    score
        == PlanScore {
            unplaced: 1,
            score: Score {
                hard: 57,
                medium: -12,
                soft: 27,
            },
        }
}

/// Whether the rule at a place has the rows of its case.
fn has_rows_of(totals: &Totals, place: usize, case: &Case) -> bool {
    match totals.matches.get(place) {
        Some(matches) => has_rows(matches.as_slice(), case.parts, case.rows),
        None => false,
    }
}

/// Whether the rule at a place has the impact of its case.
fn has_impact_of(totals: &Totals, place: usize, case: &Case) -> bool {
    match totals.impacts.get(place) {
        Some(impact) => *impact == Score::at(case.worth.level, case.impact),
        None => false,
    }
}

/// The name of the first case whose rows or impact aren't what was worked by hand.
fn first_wrong(totals: &Totals) -> Option<&'static str> {
    for (place, case) in CASES.iter().enumerate() {
        if !has_rows_of(totals, place, case) || !has_impact_of(totals, place, case) {
            return Some(case.name);
        }
    }
    None
}

/// What isn't as it was worked by hand: the name of the first such case, or else the score of all or how many they are.
fn wrong_totals(totals: &Totals) -> Option<&'static str> {
    if !is_wanted(totals.score) {
        return Some("score");
    }
    if totals.matches.len() != CASES.len() || totals.impacts.len() != CASES.len() {
        return Some("count");
    }
    first_wrong(totals)
}

/// What the calls that count nothing give otherwise than it was worked by hand.
fn wrong_alone(
    alloc: Global,
    rules: &Rules<Ids>,
    plan: &Plan,
    weights: &[u32],
) -> Result<Option<&'static str>, Memory>
    requires { ⟦<Rules<Ids> as Judges>⟧.judges rules.now weights.now (sizes_of plan.now) }
{
    if !is_wanted(score_alone(alloc, rules, plan, weights)?) {
        return Ok(Some("score alone"));
    }
    let totals = totals_alone(alloc, rules, plan, weights)?;
    Ok(wrong_totals(&totals))
}

/// What the calls that count give otherwise than it was worked by hand, under one counter.
fn wrong_counted<L: Ledger>(
    alloc: Global,
    rules: &Rules<Ids>,
    plan: &Plan,
    weights: &[u32],
    blank: Blank,
) -> Result<Option<&'static str>, Memory>
    requires name { blank.name ≡ L.name }
    requires parts { blank.parts ≡ L.parts }
    requires some { 0 < L.parts }
    requires judges { ⟦<Rules<Ids> as Judges>⟧.judges rules.now weights.now (sizes_of plan.now) }
{
    let mut steps: Steps<L> = Steps::new(blank);
    if !is_wanted(score(alloc, rules, plan, weights, &mut steps)?) {
        return Ok(Some("score counted"));
    }
    let totals = recalc(alloc, rules, plan, weights, &mut steps)?;
    Ok(wrong_totals(&totals))
}

/// What a call gives otherwise than it was worked by hand, where the rules may judge the plan under these weights.
fn wrong_of_both(
    alloc: Global,
    rules: &Rules<Ids>,
    plan: &Plan,
    weights: &[u32],
) -> Result<Option<&'static str>, Fail>
    requires { ⟦<Rules<Ids> as Kept>⟧.keeps rules.now }
{
    if !may_judge(alloc, rules, plan, weights)? {
        return Ok(Some("out of range"));
    }
    match wrong_alone(alloc, rules, plan, weights)? {
        Some(wrong) => Ok(Some(wrong)),
        None => Ok(wrong_counted::<Brand>(alloc, rules, plan, weights, Blank::new(1))?),
    }
}

/// What a call gives otherwise of the plan than it was worked by hand.
fn wrong_of_plan(alloc: Global, rules: &Rules<Ids>) -> Result<Option<&'static str>, Fail>
    requires { ⟦<Rules<Ids> as Kept>⟧.keeps rules.now }
{
    let weights = weights(alloc)?;
    let plan = plan_of(alloc, &rules.schema, FACTS)?;
    wrong_of_both(alloc, rules, &plan, weights.as_slice())
}

/// What a call gives otherwise with these closures than it was worked by hand.
pub(super) fn wrong_worth(alloc: Global, closures: Closures) -> Result<Option<&'static str>, Fail> {
    let rules = rules(alloc, closures)?;
    wrong_of_plan(alloc, &rules)
}

#[test]
fn a_plan_is_worth_what_was_worked_by_hand(rt: HostRuntime) -> Result<(), Fail> {
    let wrong = with_closures(rt.alloc(), Trial::Worth)?;
    assert!(rt; wrong.is_none(), "{wrong:?}");
    Ok(())
}
