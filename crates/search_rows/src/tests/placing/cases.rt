//! Plans with what placing makes of them, worked by hand.
use crate::tests::closures::{PAST, ROOMLESS, SHARED};
use crate::tests::sketches::{HeadSketch, Joiners, NodeSketch};
use plan_rules::Joiner;
use plan_scores::{Level, PlanScore, Score};
use test_plans::FactSketch;
use test_plans::FactSketch::{Entity, Fact, Pinned};

pub(super) const SLOT: u8 = 0;

pub(super) const ROOM: u8 = 1;

pub(super) const LESSON: u8 = 2;

/// The rules: their names and levels, their heads and their nodes. Two lessons shouldn't share a room, a lesson should have
/// one, and its id and that of its room be at most 3 together.
pub(super) const RULES: [(&str, Level, HeadSketch, Option<NodeSketch>); 3] = [
    (
        "shared",
        Level::Hard,
        HeadSketch::Pairs(LESSON, Joiners::One(Joiner::Filtering(SHARED))),
        None,
    ),
    (
        "roomless",
        Level::Medium,
        HeadSketch::ForEachNulls(LESSON),
        Some(NodeSketch::Filter(ROOMLESS)),
    ),
    (
        "past",
        Level::Soft,
        HeadSketch::ForEach(LESSON),
        Some(NodeSketch::Filter(PAST)),
    ),
];

/// A lesson as it is placed, and the plan's score then.
pub(super) struct Wanted {
    pub(super) lesson: u32,
    pub(super) slot: u32,
    pub(super) room: Option<u32>,
    pub(super) score: PlanScore,
}

/// The slots, rooms and lessons of a plan; whether harder ones are placed first, how lessons are placed, in order, and at
/// which one that is stuck.
pub(super) struct Case {
    pub(super) name: &'static str,
    pub(super) facts: &'static [&'static [FactSketch]],
    pub(super) decreasing: bool,
    pub(super) placed: &'static [Wanted],
    pub(super) stuck: Option<u32>,
}

/// Slot 1, or room 1.
const ONE: &[FactSketch] = &[Fact(1, &[])];

/// Slots 1 and 2, or rooms 1 and 2.
const TWO: &[FactSketch] = &[Fact(1, &[]), Fact(2, &[])];

/// Lessons 1 and 2, which are to be placed.
const LESSON_ONE: FactSketch = Entity(1, &[], &[None, None]);

const LESSON_TWO: FactSketch = Entity(2, &[], &[None, None]);

pub(super) const CASES: &[Case] = &[
    Case {
        name: "of equal scores the first one, the first variable first",
        facts: &[TWO, TWO, &[LESSON_TWO, LESSON_ONE]],
        decreasing: false,
        placed: &[
            Wanted {
                lesson: 1,
                slot: 1,
                room: Some(1),
                score: PlanScore {
                    unplaced: 1,
                    score: Score {
                        hard: 0,
                        medium: -1,
                        soft: 0,
                    },
                },
            },
            Wanted {
                lesson: 2,
                slot: 1,
                room: Some(2),
                score: PlanScore {
                    unplaced: 0,
                    score: Score {
                        hard: 0,
                        medium: 0,
                        soft: -1,
                    },
                },
            },
        ],
        stuck: None,
    },
    Case {
        name: "what may stay null is best left null",
        facts: &[
            ONE,
            ONE,
            &[
                Entity(1, &[], &[Some(1), Some(1)]),
                Entity(2, &[], &[Some(1), None]),
            ],
        ],
        decreasing: false,
        placed: &[Wanted {
            lesson: 2,
            slot: 1,
            room: None,
            score: PlanScore {
                unplaced: 0,
                score: Score {
                    hard: 0,
                    medium: -1,
                    soft: 0,
                },
            },
        }],
        stuck: None,
    },
    Case {
        name: "there is no slot",
        facts: &[&[], ONE, &[LESSON_ONE, LESSON_TWO]],
        decreasing: false,
        placed: &[],
        stuck: Some(1),
    },
    Case {
        name: "a pinned one stays",
        facts: &[ONE, ONE, &[Pinned(1, &[], &[None, None]), LESSON_TWO]],
        decreasing: false,
        placed: &[Wanted {
            lesson: 2,
            slot: 1,
            room: Some(1),
            score: PlanScore {
                unplaced: 1,
                score: Score {
                    hard: 0,
                    medium: -1,
                    soft: 0,
                },
            },
        }],
        stuck: None,
    },
    Case {
        name: "harder ones first, by the remainder of their ids by 100",
        facts: &[
            ONE,
            TWO,
            &[LESSON_ONE, LESSON_TWO, Entity(101, &[], &[None, None])],
        ],
        decreasing: true,
        placed: &[
            Wanted {
                lesson: 2,
                slot: 1,
                room: Some(1),
                score: PlanScore {
                    unplaced: 2,
                    score: Score {
                        hard: 0,
                        medium: -2,
                        soft: 0,
                    },
                },
            },
            Wanted {
                lesson: 1,
                slot: 1,
                room: Some(2),
                score: PlanScore {
                    unplaced: 1,
                    score: Score {
                        hard: 0,
                        medium: -1,
                        soft: 0,
                    },
                },
            },
            Wanted {
                lesson: 101,
                slot: 1,
                room: None,
                score: PlanScore {
                    unplaced: 0,
                    score: Score {
                        hard: 0,
                        medium: -1,
                        soft: 0,
                    },
                },
            },
        ],
        stuck: None,
    },
];
