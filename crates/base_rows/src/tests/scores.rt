//! The order, the sum and the text of scores.

use crate::plan_score;
use plan_scores::{Level, PlanScore, Score};
use std::alloc::{AllocError, Global};

fn score(hard: i64, medium: i64, soft: i64) -> Score {
    Score { hard, medium, soft }
}

/// How many variables are null where the score of a plan is written, and not a score alone, the
/// numbers of the score, and what stands then in a list with `> ` in front.
type Text = (Option<u32>, i64, i64, i64, &'static str);

const TEXTS: [Text; 7] = [
    (Some(0), 0, 0, 0, "> 0hard/0medium/0soft"),
    (Some(0), -1, 0, 0, "> -1hard/0medium/0soft"),
    (Some(0), 0, -1, -1, "> 0hard/-1medium/-1soft"),
    (Some(0), 0, 0, 12, "> 0hard/0medium/12soft"),
    (Some(2), -30, 0, 0, "> -2init/-30hard/0medium/0soft"),
    (
        Some(u32::MAX),
        i64::MIN,
        i64::MAX,
        0,
        "> -4294967295init/-9223372036854775808hard/9223372036854775807medium/0soft",
    ),
    (None, -1, 0, 0, "> -1hard/0medium/0soft"),
];

/// Whether the text of a plan's score, or of a score alone, is written behind what was there.
fn is_text(alloc: Global, case: &Text) -> Result<bool, AllocError> {
    let (unplaced, hard, medium, soft, text) = *case;
    let mut out = Vec::from_slice(alloc, b"> ")?;
    let score = score(hard, medium, soft);
    let written = match unplaced {
        Some(unplaced) => plan_score(unplaced, score).write_text(&mut out),
        None => score.write_text(&mut out),
    };
    Ok(written.is_ok() && out.as_slice() == text.as_bytes())
}

#[test]
fn text_has_three_numbers_behind_the_null_variables(rt: HostRuntime) {
    for i in 0..TEXTS.len() {
        assert!(rt; matches!(is_text(rt.alloc(), &TEXTS[i]), Ok(true)));
    }
}

/// Null variables and the numbers of a score, each row better than those before it.
const RISING: [(u32, i64, i64, i64); 7] = [
    (2, 9, 9, 9),
    (1, -2, 0, 0),
    (1, -1, -9, 9),
    (1, -1, 0, -1),
    (1, -1, 0, 0),
    (0, -5, 0, 0),
    (0, 0, 0, 0),
];

/// The score of a row.
fn rising(row: (u32, i64, i64, i64)) -> PlanScore {
    let (unplaced, hard, medium, soft) = row;
    plan_score(unplaced, score(hard, medium, soft))
}

/// Whether two of the rising scores, by their places, are compared as the places are.
fn are_compared(a: &PlanScore, b: &PlanScore, i: usize, j: usize) -> bool {
    [a < b, a >= b, a == b] == [i < j, i >= j, i == j]
        && (a.unplaced != b.unplaced || (a.score > b.score) == (i > j))
}

#[test]
fn null_variables_count_first_then_hard_medium_and_soft_numbers(rt: HostRuntime) {
    for i in 0..RISING.len() * RISING.len() {
        let (a, b) = (i / RISING.len(), i % RISING.len());
        assert!(rt; are_compared(&rising(RISING[a]), &rising(RISING[b]), a, b));
    }
}

#[test]
fn what_was_added_can_be_taken_away(rt: HostRuntime) {
    let hard = Score::at(Level::Hard, -7);
    let soft = Score::at(Level::Soft, 4);
    let sum = hard.add(&soft);
    let zero = Score::zero();
    let less = zero.minus(&Score::at(Level::Medium, 3));
    assert!(rt;
        [sum, sum.minus(&soft), zero, less]
            == [score(-7, 0, 4), hard, score(0, 0, 0), score(0, -3, 0)]
    );
}
