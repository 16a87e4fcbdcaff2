//! Changes after which rows or score could be out of range.
ghost use Rattle.std.specs.Prelude.{◌≡◌, ◌<◌, All};
ghost use Rattle.plan_changes.specs.Fits.{IsOfSchema};

use super::made::{WEIGHER, Zeros, director_of, one_weigher, rules_of, schema};
use super::snapshot::Snapshot;
use plan_changes::{Change, ChangeFault, Deed};
use plan_facts::{List, Memory, Names, Schema, Text};
use plan_rules::{Kept, Row, Rules, Steps, Weigh, WeighBody};
use plan_scores::{PlanScore, Score};
use score_director::Director;
use std::alloc::Global;
use std::marker::Brand;
use std::sync::ledger::{Blank, Ledger};
use std::test::Fail;

/// How many joins with all tasks the one rule has, its weight, and how many tasks there are, none of which has a day; the
/// weight that a change gives the rule, or none where the change makes a task; and what it is refused for.
#[derive(Clone, Copy, Drop)]
struct Limit(u8, u32, u32, Option<u32>, Option<ChangeFault>);

// A match weighs at most 10^9. The products of tasks, weight and that are at most 2^62, those of tasks thrice at most 2^32.
const LIMITS: &[Limit] = &[
    Limit(0, 1_000_000, 4_610, None, None),
    Limit(0, 1_000_000, 4_611, None, Some(ChangeFault::ScoreRange)),
    Limit(2, 0, 1_624, None, None),
    Limit(2, 0, 1_625, None, Some(ChangeFault::RowsBound { rule: 0 })),
    Limit(0, 1, 5_000, Some(922_337), None),
    Limit(0, 1, 5_000, Some(922_338), Some(ChangeFault::ScoreRange)),
];

/// A change that makes a task.
fn new_task(alloc: Global) -> Result<Change, Memory> {
    let name = Text::from_slice(alloc, b"task")?;
    let mut change = Change::new(alloc, Deed::Add);
    change.class = name;
    Ok(change)
}

/// A change that gives the rule a weight of at most 1,000,000.
fn new_weight(alloc: Global, weight: u32) -> Result<Change, Memory> {
    if weight > 1_000_000 {
        return Err(Memory);
    }
    let name = Text::from_slice(alloc, b"rule")?;
    let mut change = Change::new(alloc, Deed::Weight);
    change.rule = name;
    change.weight = weight;
    Ok(change)
}

/// The change: the rule gets a weight, or a task is made.
fn change_of(alloc: Global, given: Option<u32>) -> Result<Change, Memory> {
    match given {
        Some(weight) => new_weight(alloc, weight),
        None => new_task(alloc),
    }
}

/// Whether the change is refused as is wanted, or not at all.
fn is_refused(
    director: &Director<Zeros>,
    rules: &Rules<Zeros>,
    schema: &Schema,
    names: &Names,
    change: &Change,
    wanted: Option<ChangeFault>,
) -> bool
    requires own { rules.now.defs ≡ director.now.rules }
    requires schema { IsOfSchema schema.now director.now.plan }
{
    match (director.ready(rules, schema, names, change), wanted) {
        (Ok(_), None) => true,
        (Err(fault), Some(wanted)) => fault == wanted,
        _ => false,
    }
}

/// Whether the change is refused as is wanted, where nothing is placed, and all stays as it was.
fn stays_in_range(
    alloc: Global,
    director: &Director<Zeros>,
    rules: &Rules<Zeros>,
    schema: &Schema,
    change: &Change,
    limit: Limit,
) -> Result<bool, Memory>
    requires own { rules.now.defs ≡ director.now.rules }
    requires schema { IsOfSchema schema.now director.now.plan }
{
    let Limit(_, _, unplaced, _, wanted) = limit;
    let names = Names::new(alloc);
    let before = Snapshot::of(alloc, director, rules, &names)?;
    let refused = is_refused(director, rules, schema, &names, change, wanted);
    let stays = before.stays(director, rules, &names)?;
    let score = Score::zero();
    Ok(refused && stays && director.score() == PlanScore { unplaced, score })
}

/// Whether a director of so many tasks refuses the change as is wanted.
fn is_limit<L: Ledger>(
    alloc: Global,
    rules: &Rules<Zeros>,
    schema: &Schema,
    limit: Limit,
    blank: Blank,
) -> Result<bool, Fail>
    requires name { blank.name ≡ L.name }
    requires parts { blank.parts ≡ L.parts }
    requires some { 0 < L.parts }
    requires keeps { ⟦<Rules<Zeros> as Kept>⟧.keeps rules.now }
{
    let Limit(_, weight, size, given, _) = limit;
    if size >= 100_000 {
        return Ok(false);
    }
    let change = change_of(alloc, given)?;
    let mut steps: Steps<L> = Steps::new(blank);
    let director = director_of(alloc, rules, schema, size, weight, &mut steps)?;
    Ok(stays_in_range(alloc, &director, rules, schema, &change, limit)?)
}

/// Makes the rule with these weighers, and tries the change at a limit.
fn try_limit(alloc: Global, limit: Limit, weighers: List<Weigh<Zeros>>) -> Result<bool, Fail>
    requires { All (λ weigher. ⟦<Weigh<Zeros> as Kept>⟧.keeps weigher) weighers }
{
    let Limit(joins, _, _, _, _) = limit;
    let schema = schema(alloc)?;
    let rules = rules_of(alloc, &schema, joins, Some(WEIGHER), weighers)?;
    is_limit::<Brand>(alloc, &rules, &schema, limit, Blank::new(1))
}

/// Makes the weigher, and tries the change at a limit.
fn try_weighing(alloc: Global, limit: Limit) -> Result<bool, Fail> {
    let zero: WeighBody = Box::new(
        alloc,
        |_: &Row| -> u32
            ensures { result ≡ 0 }
        { 0 },
    )?;
    let weighers = one_weigher(alloc, Weigh::new(WEIGHER, 1_000_000_000, zero))?;
    try_limit(alloc, limit, weighers)
}

#[test]
fn changes_stay_in_range(rt: HostRuntime) -> Result<(), Fail> {
    for limit in LIMITS {
        assert!(rt; try_weighing(rt.alloc(), *limit)?);
    }
    Ok(())
}
