//! Plans of the shipped domains, with what a director sees of them, worked by hand.
use super::rows::{OnlyRow, RowSketch};
use plan_moves::Set;
use plan_scores::Score;

/// The places of the rules that are looked at.
const GROUP_LOAD: u8 = 5;

const EARLY: u8 = 7;

const IDLE: u8 = 9;

/// The classes of what is moved.
const LESSON: u8 = 2;

const SHIFT: u8 = 1;

/// What is seen of a plan where no variable is null: its score, and the rows of some rules.
pub(super) struct Seen {
    pub(super) score: Score,
    pub(super) rows: &'static [OnlyRow],
}

/// A problem, a move that is doable and some that aren't, and what is seen before the move and after it.
pub(super) struct Case {
    pub(super) name: &'static str,
    pub(super) problem: &'static str,
    pub(super) doable: Set,
    pub(super) idle: &'static [Set],
    pub(super) before: Seen,
    pub(super) after: Seen,
}

/// Seven lessons of one group at once, of which one moves to another day.
const CROWDED: &str = r#"{"format":1,"domain":"timetable","facts":{
"timeslot":[{"id":1,"day":1,"start":480,"end":540},{"id":2,"day":2,"start":480,"end":540}],
"room":[{"id":1,"capacity":30}],
"lesson":[
{"id":1,"subject":"S","teacher":"Ada","group":"9A","size":1,"slot":1,"room":1},
{"id":2,"subject":"S","teacher":"Ada","group":"9A","size":1,"slot":1,"room":1},
{"id":3,"subject":"S","teacher":"Ada","group":"9A","size":1,"slot":1,"room":1},
{"id":4,"subject":"S","teacher":"Ada","group":"9A","size":1,"slot":1,"room":1},
{"id":5,"subject":"S","teacher":"Ada","group":"9A","size":1,"slot":1,"room":1},
{"id":6,"subject":"S","teacher":"Ada","group":"9A","size":1,"slot":1,"room":1},
{"id":7,"subject":"S","teacher":"Ada","group":"9A","size":1,"slot":1,"room":1}]}}"#;

/// Two shifts of one nurse, of which one moves to the other nurse.
const EARLY_SHIFTS: &str = r#"{"format":1,"domain":"roster","facts":{
"employee":[{"id":1,"skill":"nurse","max":10},{"id":2,"skill":"nurse","max":10}],
"shift":[
{"id":1,"day":1,"start":300,"end":360,"skill":"nurse","worker":1},
{"id":2,"day":1,"start":400,"end":460,"skill":"nurse","worker":1}]}}"#;

// Of seven lessons at once each two clash by room, by teacher and by group, and the group has one lesson too many on
// day 1: 21 pairs in three rules, and a row of the group, the day and how many. Without one of them 15 pairs are left.
// The texts S, Ada and 9A have the numbers 0, 1 and 2.
//
// The nurse with both shifts begins at 300, which is too early, and the other nurse is idle. After the move that one
// isn't, and begins at 300.
pub(super) const CASES: &[Case] = &[
    Case {
        name: "crowded",
        problem: CROWDED,
        doable: Set {
            class: LESSON,
            id: 7,
            var: 0,
            value: Some(2),
        },
        idle: &[
            Set {
                class: LESSON,
                id: 7,
                var: 0,
                value: Some(1),
            },
            Set {
                class: LESSON,
                id: 7,
                var: 0,
                value: Some(3),
            },
            Set {
                class: LESSON,
                id: 8,
                var: 0,
                value: Some(2),
            },
        ],
        before: Seen {
            score: Score {
                hard: -63,
                medium: -1,
                soft: 0,
            },
            rows: &[OnlyRow(GROUP_LOAD, Some(RowSketch(3, [2, 1, 7])))],
        },
        after: Seen {
            score: Score {
                hard: -45,
                medium: 0,
                soft: 0,
            },
            rows: &[OnlyRow(GROUP_LOAD, None)],
        },
    },
    Case {
        name: "early shifts",
        problem: EARLY_SHIFTS,
        doable: Set {
            class: SHIFT,
            id: 1,
            var: 0,
            value: Some(2),
        },
        idle: &[
            Set {
                class: SHIFT,
                id: 1,
                var: 0,
                value: Some(1),
            },
            Set {
                class: SHIFT,
                id: 1,
                var: 0,
                value: Some(3),
            },
        ],
        before: Seen {
            score: Score {
                hard: 0,
                medium: 0,
                soft: -2,
            },
            rows: &[
                OnlyRow(EARLY, Some(RowSketch(3, [1, 1, 300]))),
                OnlyRow(IDLE, Some(RowSketch(1, [2, 0, 0]))),
            ],
        },
        after: Seen {
            score: Score {
                hard: 0,
                medium: 0,
                soft: -1,
            },
            rows: &[
                OnlyRow(EARLY, Some(RowSketch(3, [2, 1, 300]))),
                OnlyRow(IDLE, None),
            ],
        },
    },
];
