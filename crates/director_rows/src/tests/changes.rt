//! Changes that a director makes, one after another.
ghost use Rattle.std.specs.Prelude.{◌≡◌, ◌<◌, All, None, OnOk, length};
ghost use Rattle.plan_changes.specs.Fits.{IsOfSchema};
ghost use Rattle.plan_rules.specs.Range.{sizes_of};

use super::made::{DAY, TASK, WEIGHER, Zeros, director_of, one_weigher, rules_of, schema};
use super::outcome::{Outcome, make};
use plan_changes::{Change, ChangeFault, Deed, FieldItem, Item, ValueItem};
use plan_facts::{List, Memory, Names, Schema, Text};
use plan_rules::{Judges, Kept, Part, Row, Rules, Steps, Weigh, WeighBody};
use plan_scores::{PlanScore, Score};
use score_director::Director;
use std::alloc::Global;
use std::marker::Brand;
use std::sync::ledger::{Blank, Ledger};
use std::test::Fail;

/// What a change gives: nothing, a day, a field that no class has, or a weight.
#[derive(Clone, Copy, Drop)]
enum Given {
    Nothing,
    Day(u32),
    Size,
    Weight(u32),
}

/// A change: its deed, the name of its class or rule, its id and what it gives; what it comes to; and, after it, how many tasks
/// have no day, what the others are worth at the hard level, and their ids, at most two, with 0 for none.
#[derive(Clone, Copy, Drop)]
struct Turn(Deed, &'static str, u32, Given, Outcome, u32, i64, [u32; 2]);

use Given::{Day, Nothing, Size, Weight};
use Outcome::{Fact, Refused, Rule};

// A task with a day counts the rule's weight, at first 1. A day that goes is let go by its tasks, and its id isn't used again.
const TURNS: [Turn; 16] = [
    Turn(Deed::Add, "day", 0, Nothing, Fact(DAY, 1), 0, 0, [0, 0]),
    Turn(Deed::Add, "day", 0, Nothing, Fact(DAY, 2), 0, 0, [0, 0]),
    Turn(Deed::Add, "task", 0, Day(1), Fact(TASK, 1), 0, -1, [1, 0]),
    Turn(Deed::Add, "task", 0, Day(2), Fact(TASK, 2), 0, -2, [1, 2]),
    Turn(Deed::Weight, "rule", 0, Weight(3), Rule(0), 0, -6, [1, 2]),
    Turn(Deed::Remove, "day", 1, Nothing, Fact(DAY, 1), 1, -3, [2, 0]),
    Turn(
        Deed::Assign,
        "task",
        1,
        Day(2),
        Fact(TASK, 1),
        0,
        -6,
        [1, 2],
    ),
    Turn(
        Deed::Remove,
        "day",
        9,
        Nothing,
        Refused(ChangeFault::NoSuchFact { id: 9 }),
        0,
        -6,
        [1, 2],
    ),
    Turn(
        Deed::Add,
        "rum",
        0,
        Nothing,
        Refused(ChangeFault::UnknownClass),
        0,
        -6,
        [1, 2],
    ),
    Turn(
        Deed::Weight,
        "rum",
        0,
        Weight(3),
        Refused(ChangeFault::UnknownRule),
        0,
        -6,
        [1, 2],
    ),
    Turn(
        Deed::Assign,
        "task",
        1,
        Day(1),
        Refused(ChangeFault::BadValue),
        0,
        -6,
        [1, 2],
    ),
    Turn(
        Deed::Alter,
        "task",
        1,
        Size,
        Refused(ChangeFault::BadField),
        0,
        -6,
        [1, 2],
    ),
    Turn(
        Deed::Alter,
        "task",
        1,
        Nothing,
        Fact(TASK, 1),
        0,
        -6,
        [1, 2],
    ),
    Turn(Deed::Add, "day", 0, Nothing, Fact(DAY, 3), 0, -6, [1, 2]),
    Turn(
        Deed::Remove,
        "task",
        2,
        Nothing,
        Fact(TASK, 2),
        0,
        -3,
        [1, 0],
    ),
    Turn(Deed::Add, "task", 0, Nothing, Fact(TASK, 3), 1, -3, [1, 0]),
];

/// Gives the change what is given; whether it takes it.
fn give(alloc: Global, change: &mut Change, given: Given) -> Result<bool, Memory> {
    match given {
        Nothing => Ok(true),
        Day(day) => {
            let name = Text::from_slice(alloc, b"day")?;
            let value = Some(day);
            change.give_value(ValueItem { name, value })
        }
        Size => {
            let name = Text::from_slice(alloc, b"size")?;
            let item = Item::Num(1);
            change.give_field(FieldItem { name, item })
        }
        Weight(weight) => {
            if weight > 1_000_000 {
                return Ok(false);
            }
            change.weight = weight;
            Ok(true)
        }
    }
}

/// The change of a turn, to which nothing is given so far.
fn bare_change(alloc: Global, turn: Turn) -> Result<Change, Memory> {
    let Turn(deed, name, id, _, _, _, _, _) = turn;
    let name = Text::from_slice(alloc, name.as_bytes())?;
    let mut change = Change::new(alloc, deed);
    if deed == Deed::Weight {
        change.rule = name;
    } else {
        change.class = name;
    }
    change.id = id;
    Ok(change)
}

/// The change of a turn.
fn change_of(alloc: Global, turn: Turn) -> Result<Change, Memory> {
    let Turn(_, _, _, given, _, _, _, _) = turn;
    let mut change = bare_change(alloc, turn)?;
    match give(alloc, &mut change, given) {
        Ok(true) => Ok(change),
        _ => Err(Memory),
    }
}

/// Whether a change came to what is wanted.
fn is_outcome(outcome: Outcome, wanted: Outcome) -> bool {
    match (outcome, wanted) {
        (Fact(class, id), Fact(other_class, other_id)) => class == other_class && id == other_id,
        (Rule(rule), Rule(other)) => rule == other,
        (Refused(fault), Refused(other)) => fault == other,
        _ => false,
    }
}

/// The id of the fact at a row's first place; 0 where it has none.
fn first_id(row: Option<&Row>) -> u32 {
    match row {
        Some(row) => match row.part(0) {
            Some(Part::Fact(rec)) => rec.id,
            _ => 0,
        },
        None => 0,
    }
}

/// Whether the rows have one fact each, with these ids, of which 0 stands for none.
fn are_tasks(rows: &[Row], ids: [u32; 2]) -> bool {
    let [first, second] = ids;
    let count = match ids {
        [0, _] => 0,
        [_, 0] => 1,
        _ => 2,
    };
    rows.len() == count && first_id(rows.get(0)) == first && first_id(rows.get(1)) == second
}

/// Whether the plan is worth what it is after a turn, and the rule has the rows that it has then.
fn is_worth(director: &Director<Zeros>, rules: &Rules<Zeros>, turn: Turn) -> Result<bool, Memory>
    requires { rules.now.defs ≡ director.now.rules }
{
    let Turn(_, _, _, _, _, unplaced, hard, ids) = turn;
    let score = Score {
        hard,
        medium: 0,
        soft: 0,
    };
    if rules.count() == 0 {
        return Ok(false);
    }
    let rows = director.matches(0)?;
    let worth = director.score() == PlanScore { unplaced, score };
    Ok(worth && are_tasks(rows.as_slice(), ids))
}

/// Makes the change of a turn, after which the next one may be taken; whether it comes to what is wanted.
fn take_turn<L: Ledger>(
    alloc: Global,
    rules: &Rules<Zeros>,
    schema: &Schema,
    names: &mut Names,
    director: &mut Director<Zeros>,
    turn: Turn,
    steps: &mut Steps<L>,
) -> Result<bool, Memory>
    requires judges { let seen = director.old in
        ⟦<Rules<Zeros> as Judges>⟧.judges rules.now seen.weights (sizes_of seen.plan) }
    requires own { rules.now.defs ≡ director.old.rules }
    requires rest { director.old.base ≡ None }
    requires schema { IsOfSchema schema.now director.old.plan }
    ensures judges { let seen = director.new in
        OnOk result (⟦<Rules<Zeros> as Judges>⟧.judges rules.now seen.weights (sizes_of seen.plan)) }
    ensures own { OnOk result (rules.now.defs ≡ director.new.rules) }
    ensures rest { OnOk result (director.new.base ≡ None) }
    ensures schema { OnOk result (IsOfSchema schema.now director.new.plan) }
{
    let Turn(_, _, _, _, wanted, _, _, _) = turn;
    let change = change_of(alloc, turn)?;
    let outcome = make(rules, schema, names, director, &change, steps)?;
    Ok(is_outcome(outcome, wanted))
}

/// Takes some turns; whether each comes to what is wanted, and leaves what is wanted.
fn take<L: Ledger>(
    alloc: Global,
    rules: &Rules<Zeros>,
    schema: &Schema,
    names: &mut Names,
    director: &mut Director<Zeros>,
    turns: &[Turn],
    steps: &mut Steps<L>,
) -> Result<bool, Fail>
    requires judges { let seen = director.old in
        ⟦<Rules<Zeros> as Judges>⟧.judges rules.now seen.weights (sizes_of seen.plan) }
    requires own { rules.now.defs ≡ director.old.rules }
    requires rest { director.old.base ≡ None }
    requires schema { IsOfSchema schema.now director.old.plan }
{
    let Some((first, rest)) = turns.split_first() else {
        return Ok(matches!(director.weights(), [3]));
    };
    let made = take_turn(alloc, rules, schema, names, director, *first, steps)?;
    let worth = is_worth(director, rules, *first)?;
    if !made || !worth {
        return Ok(false);
    }
    take(alloc, rules, schema, names, director, rest, steps)
}

/// Takes all turns with a director of no tasks.
fn take_all<L: Ledger>(
    alloc: Global,
    rules: &Rules<Zeros>,
    schema: &Schema,
    blank: Blank,
) -> Result<bool, Fail>
    requires name { blank.name ≡ L.name }
    requires parts { blank.parts ≡ L.parts }
    requires some { 0 < L.parts }
    requires keeps { ⟦<Rules<Zeros> as Kept>⟧.keeps rules.now }
{
    let mut steps: Steps<L> = Steps::new(blank);
    let mut director = director_of(alloc, rules, schema, 0, 1, &mut steps)?;
    let mut names = Names::new(alloc);
    take(
        alloc,
        rules,
        schema,
        &mut names,
        &mut director,
        &TURNS,
        &mut steps,
    )
}

/// Takes all turns under the rule with these weighers, which aren't asked.
fn take_all_by(alloc: Global, weighers: List<Weigh<Zeros>>) -> Result<bool, Fail>
    requires { All (λ weigher. ⟦<Weigh<Zeros> as Kept>⟧.keeps weigher) weighers }
{
    let schema = schema(alloc)?;
    let rules = rules_of(alloc, &schema, 0, None, weighers)?;
    take_all::<Brand>(alloc, &rules, &schema, Blank::new(1))
}

#[test]
fn changes_are_made_one_after_another(rt: HostRuntime) -> Result<(), Fail> {
    let alloc = rt.alloc();
    let zero: WeighBody = Box::new(
        alloc,
        |_: &Row| -> u32
            ensures { result ≡ 0 }
        { 0 },
    )?;
    let weighers = one_weigher(alloc, Weigh::new(WEIGHER, 1, zero))?;
    assert!(rt; take_all_by(alloc, weighers)?);
    Ok(())
}
