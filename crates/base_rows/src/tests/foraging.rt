//! Foraging: how far a step's judged candidates are looked at, and which of them wins.

use foragers::{Forager, Pick, Seen, forage};
use plan_scores::{PlanScore, Score};
use plan_settings::Early;
use std::test::Fail;

/// A score of so many soft points.
fn soft(soft: i64) -> PlanScore {
    PlanScore {
        unplaced: 0,
        score: Score {
            hard: 0,
            medium: 0,
            soft,
        },
    }
}

/// A judged candidate.
fn judged(number: u32, points: i64, accepted: bool) -> Seen {
    Seen {
        number,
        score: soft(points),
        accepted,
    }
}

/// Four candidates, of which the second isn't accepted.
fn entries() -> [Seen; 4] {
    [
        judged(0, -1, true),
        judged(1, -4, false),
        judged(3, -1, true),
        judged(4, 1, true),
    ]
}

/// Limits and early picks, beside how many are seen, whether that ends the step, and which wins.
const CASES: [(u32, Early, u32, bool, u32); 4] = [
    (2, Early::Never, 3, true, 0),
    (9, Early::Never, 4, false, 4),
    (9, Early::Best, 4, true, 4),
    (1, Early::Never, 1, true, 0),
];

/// Whether a forager that is shown each candidate says so, where the best score is 0 and the last -1.
fn forages(limit: u32, early: Early, done: bool, winner: u32) -> bool {
    let mut forager = Forager::new();
    for entry in entries() {
        forager.see(entry, limit, early, &soft(0), &soft(-1));
    }
    forager.is_done() == done && forager.winner() == Some(winner)
}

/// The place of the first case in which something else is picked.
fn wrong_case() -> Option<usize> {
    for (place, (limit, early, seen, done, number)) in CASES.iter().enumerate() {
        let winner = Some(*number);
        let wanted = Pick {
            seen: *seen,
            done: *done,
            winner,
        };
        let pick = forage(&entries(), *limit, *early, &soft(0), &soft(-1));
        if pick != wanted || !forages(*limit, *early, *done, *number) {
            return Some(place);
        }
    }
    None
}

#[test]
fn limits_and_early_picks_end_what_is_seen(rt: HostRuntime) -> Result<(), Fail> {
    let wrong = wrong_case();
    let none = forage(&[], 1, Early::Never, &soft(0), &soft(-1));
    assert!(rt; (wrong, none.seen, none.done, none.winner) == (None, 0, false, None));
    Ok(())
}
