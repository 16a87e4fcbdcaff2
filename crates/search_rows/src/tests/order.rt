//! The order of rows, and the score of totals.
use plan_facts::{List, Memory, Rec, Text};
use plan_rules::{Head, Part, Row, RuleDef};
use plan_scores::{Level, Score};
use score_director::{put_in_order, score_of_totals};
use std::alloc::Global;
use std::test::Fail;

/// A rule that rewards or penalizes at a level.
fn rule_at(alloc: Global, level: Level, reward: bool) -> RuleDef {
    RuleDef {
        name: Text::new(alloc),
        level,
        reward,
        weight: 1,
        weigh: None,
        head: Head::ForEach(0),
        nodes: List::new(alloc),
    }
}

/// Rules at these levels.
fn rules_at(alloc: Global, sketches: &[(Level, bool)]) -> Result<List<RuleDef>, Memory> {
    let mut rules = List::new(alloc);
    for (level, reward) in sketches {
        rules.push(rule_at(alloc, *level, *reward))?;
    }
    Ok(rules)
}

/// What these rules are worth in all, if they are three: 10 times 3, twice 7 and once 4.
fn worth(rules: &[RuleDef]) -> Option<Score> {
    if rules.len() != 3 {
        return None;
    }
    score_of_totals(rules, &[10, 2, 1], &[3, 7, 4])
}

/// Two penalties at the hard level and a reward at the soft one: 10 times 3 and once 4, and twice 7.
#[test]
fn totals_are_weighed_and_added_up_level_by_level(rt: HostRuntime) -> Result<(), Fail> {
    let sketches = [
        (Level::Hard, false),
        (Level::Soft, true),
        (Level::Hard, false),
    ];
    let rules = rules_at(rt.alloc(), &sketches)?;
    let wanted = Score {
        hard: -34,
        medium: 0,
        soft: 14,
    };
    assert!(rt; worth(rules.as_slice()) == Some(wanted));
    Ok(())
}

/// A row of at most 3 parts: how many they are, and their numbers, with 0 for those that it doesn't have.
#[derive(Clone, Copy, Drop)]
struct RowSketch(usize, [i64; 3]);

/// Rows as they were kept.
const KEPT: [RowSketch; 5] = [
    RowSketch(2, [2, 5, 0]),
    RowSketch(1, [3, 0, 0]),
    RowSketch(3, [2, -7, 9]),
    RowSketch(1, [2, 0, 0]),
    RowSketch(2, [-1, 4, 0]),
];

/// The same rows in their order.
const ORDERED: [RowSketch; 5] = [
    RowSketch(2, [-1, 4, 0]),
    RowSketch(1, [2, 0, 0]),
    RowSketch(3, [2, -7, 9]),
    RowSketch(2, [2, 5, 0]),
    RowSketch(1, [3, 0, 0]),
];

/// A part with this number: a fact where it can be an id.
fn part_with(alloc: Global, number: i64) -> Part {
    match u32::try_from(number) {
        Ok(id) => Part::Fact(Rec {
            class: 0,
            id,
            fields: List::new(alloc),
            planned: List::new(alloc),
        }),
        Err(_) => Part::Num(number),
    }
}

/// The row of a sketch.
fn row_of(alloc: Global, sketch: RowSketch) -> Result<Row, Memory> {
    let RowSketch(parts, numbers) = sketch;
    let mut row = Row::new(alloc);
    for number in numbers {
        if row.len() < parts && row.len() < 4 {
            row.push(part_with(alloc, number))?;
        }
    }
    Ok(row)
}

/// The rows of some sketches.
fn rows_of(alloc: Global, sketches: &[RowSketch]) -> Result<List<Row>, Memory> {
    let mut rows = List::new(alloc);
    for sketch in sketches {
        rows.push(row_of(alloc, *sketch)?)?;
    }
    Ok(rows)
}

/// Whether these are the same rows, in the same order.
fn are_same(rows: &[Row], others: &[Row]) -> bool {
    for (one, other) in rows.iter().zip(others) {
        if !one.same(other) {
            return false;
        }
    }
    rows.len() == others.len()
}

#[test]
fn rows_are_put_in_the_order_of_their_numbers(rt: HostRuntime) -> Result<(), Fail> {
    let mut rows = rows_of(rt.alloc(), &KEPT)?;
    let wanted = rows_of(rt.alloc(), &ORDERED)?;
    put_in_order(&mut rows);
    assert!(rt; are_same(rows.as_slice(), wanted.as_slice()));
    Ok(())
}
