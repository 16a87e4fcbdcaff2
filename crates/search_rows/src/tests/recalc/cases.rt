//! Rules with what they make of the plan, worked by hand.
use crate::tests::closures::{BY_HUNDRED, BY_THREE, MOST, PAST_IDS};
use crate::tests::sketches::{HeadSketch, Joiners, NodeSketch, Worth};
use plan_rules::{Collect, Joiner};
use plan_scores::Level;

const TASK: u8 = 0;

pub(super) const ROOM: u8 = 1;

/// A rule, in short; how many parts each row has that it has over the plan, and the numbers of these, row by row, a
/// task by its id, a room by its id and 100, and a number by itself; and the sum of the rows' impacts at its level.
pub(super) struct Case {
    pub(super) name: &'static str,
    pub(super) worth: Worth,
    pub(super) head: HeadSketch,
    pub(super) node: Option<NodeSketch>,
    pub(super) parts: usize,
    pub(super) rows: &'static [i64],
    pub(super) impact: i64,
}

/// One at the hard level for each match.
const ONE: Worth = Worth {
    level: Level::Hard,
    reward: true,
    weight: 1,
    weigh: None,
};

const PLACED_TASKS: HeadSketch = HeadSketch::ForEach(TASK);

const ALL_TASKS: HeadSketch = HeadSketch::ForEachNulls(TASK);

const ROOMS: HeadSketch = HeadSketch::ForEach(ROOM);

const SAME_REMAINDERS: Joiners = Joiners::One(Joiner::Equal(BY_THREE, BY_THREE));

const SAME_IDS: Joiners = Joiners::One(Joiner::Equal(BY_HUNDRED, BY_HUNDRED));

const LESS_AND_PAST: Joiners = Joiners::Two(
    Joiner::Less(BY_HUNDRED, BY_HUNDRED),
    Joiner::Filtering(PAST_IDS),
);

const GREATER_REMAINDERS: Joiners = Joiners::One(Joiner::Greater(BY_THREE, BY_THREE));

const REMAINDERS_PAST_IDS: Joiners = Joiners::One(Joiner::GreaterOrEqual(BY_THREE, BY_HUNDRED));

const IDS_UP_TO_REMAINDERS: Joiners = Joiners::One(Joiner::LessOrEqual(BY_HUNDRED, BY_THREE));

/// The plan has tasks 1 and 2 in room 1, task 3 in none, tasks 4 and 6 in room 3, and the rooms 1, 3 and 5.
pub(super) const CASES: &[Case] = &[
    // Heads alone.
    Case {
        name: "placed",
        worth: ONE,
        head: PLACED_TASKS,
        node: None,
        parts: 1,
        rows: &[1, 2, 4, 6],
        impact: 4,
    },
    Case {
        name: "all",
        worth: ONE,
        head: ALL_TASKS,
        node: None,
        parts: 1,
        rows: &[1, 2, 3, 4, 6],
        impact: 5,
    },
    Case {
        name: "pairs",
        worth: ONE,
        head: HeadSketch::Pairs(TASK, GREATER_REMAINDERS),
        node: None,
        parts: 2,
        rows: &[1, 6, 2, 4, 2, 6, 4, 6],
        impact: 4,
    },
    // Filters, and joins of rooms with tasks.
    Case {
        name: "filter",
        worth: ONE,
        head: ALL_TASKS,
        node: Some(NodeSketch::Filter(PAST_IDS)),
        parts: 1,
        rows: &[4, 6],
        impact: 2,
    },
    Case {
        name: "join",
        worth: ONE,
        head: ROOMS,
        node: Some(NodeSketch::Join(TASK, false, SAME_REMAINDERS)),
        parts: 2,
        rows: &[101, 1, 101, 4, 103, 6, 105, 2],
        impact: 4,
    },
    Case {
        name: "join_nulls",
        worth: ONE,
        head: ROOMS,
        node: Some(NodeSketch::Join(TASK, true, SAME_REMAINDERS)),
        parts: 2,
        rows: &[101, 1, 101, 4, 103, 3, 103, 6, 105, 2],
        impact: 5,
    },
    Case {
        name: "join_past",
        worth: ONE,
        head: ROOMS,
        node: Some(NodeSketch::Join(TASK, true, LESS_AND_PAST)),
        parts: 2,
        rows: &[101, 3, 101, 4, 101, 6, 103, 4, 103, 6, 105, 6],
        impact: 6,
    },
    // Rooms for which there are tasks, and for which there are none.
    Case {
        name: "exists",
        worth: ONE,
        head: ROOMS,
        node: Some(NodeSketch::IfExists(TASK, false, SAME_IDS)),
        parts: 1,
        rows: &[101],
        impact: 1,
    },
    Case {
        name: "exists_nulls",
        worth: ONE,
        head: ROOMS,
        node: Some(NodeSketch::IfExists(TASK, true, SAME_IDS)),
        parts: 1,
        rows: &[101, 103],
        impact: 2,
    },
    Case {
        name: "exists_not",
        worth: ONE,
        head: ROOMS,
        node: Some(NodeSketch::IfNotExists(TASK, false, SAME_IDS)),
        parts: 1,
        rows: &[103, 105],
        impact: 2,
    },
    Case {
        name: "exists_not_nulls",
        worth: ONE,
        head: ROOMS,
        node: Some(NodeSketch::IfNotExists(TASK, true, SAME_IDS)),
        parts: 1,
        rows: &[105],
        impact: 1,
    },
    // Room 1 has the remainder 1, and task 1 suits it; room 3 has 0; room 5 has 2, and the tasks 1 and 2 suit it.
    Case {
        name: "exists_once",
        worth: ONE,
        head: ROOMS,
        node: Some(NodeSketch::IfExists(TASK, false, REMAINDERS_PAST_IDS)),
        parts: 1,
        rows: &[101, 105],
        impact: 2,
    },
    // Only room 1 has an id that is at most a task's remainder by 3.
    Case {
        name: "lonely",
        worth: ONE,
        head: ROOMS,
        node: Some(NodeSketch::IfNotExists(TASK, true, IDS_UP_TO_REMAINDERS)),
        parts: 1,
        rows: &[103, 105],
        impact: 2,
    },
    // Groups of all tasks by their remainders by 3: 3 and 6, then 1 and 4, then 2.
    Case {
        name: "count",
        worth: ONE,
        head: ALL_TASKS,
        node: Some(NodeSketch::GroupBy(BY_THREE, None, Collect::Count)),
        parts: 2,
        rows: &[0, 2, 1, 2, 2, 1],
        impact: 3,
    },
    Case {
        name: "sum",
        worth: ONE,
        head: ALL_TASKS,
        node: Some(NodeSketch::GroupBy(BY_THREE, None, Collect::Sum(BY_HUNDRED))),
        parts: 2,
        rows: &[0, 9, 1, 5, 2, 2],
        impact: 3,
    },
    Case {
        name: "min",
        worth: ONE,
        head: ALL_TASKS,
        node: Some(NodeSketch::GroupBy(BY_THREE, None, Collect::Min(BY_HUNDRED))),
        parts: 2,
        rows: &[0, 3, 1, 1, 2, 2],
        impact: 3,
    },
    Case {
        name: "max",
        worth: ONE,
        head: ALL_TASKS,
        node: Some(NodeSketch::GroupBy(BY_THREE, None, Collect::Max(BY_HUNDRED))),
        parts: 2,
        rows: &[0, 6, 1, 4, 2, 2],
        impact: 3,
    },
    Case {
        name: "two_keys",
        worth: ONE,
        head: ALL_TASKS,
        node: Some(NodeSketch::GroupBy(BY_THREE, Some(BY_HUNDRED), Collect::Max(BY_HUNDRED))),
        parts: 3,
        rows: &[0, 3, 3, 0, 6, 6, 1, 1, 1, 1, 4, 4, 2, 2, 2],
        impact: 5,
    },
    // Groups of all pairs of placed tasks by the first one's remainder by 3: 1 with 2, 4 and 6, and 4 with 6; then 2
    // with 4 and 6.
    Case {
        name: "different",
        worth: ONE,
        head: HeadSketch::Pairs(TASK, Joiners::Nothing),
        node: Some(NodeSketch::GroupBy(BY_THREE, None, Collect::CountDistinct(BY_HUNDRED))),
        parts: 2,
        rows: &[1, 2, 2, 1],
        impact: 2,
    },
    // Penalties, weights, weighers and the other levels.
    Case {
        name: "same",
        worth: Worth {
            level: Level::Hard,
            reward: false,
            weight: 2,
            weigh: None,
        },
        head: HeadSketch::Pairs(TASK, SAME_REMAINDERS),
        node: None,
        parts: 2,
        rows: &[1, 4],
        impact: -2,
    },
    Case {
        name: "by_id",
        worth: Worth {
            level: Level::Soft,
            reward: true,
            weight: 3,
            weigh: Some(MOST),
        },
        head: ALL_TASKS,
        node: Some(NodeSketch::Filter(PAST_IDS)),
        parts: 1,
        rows: &[4, 6],
        impact: 27,
    },
    Case {
        name: "groups",
        worth: Worth {
            level: Level::Medium,
            reward: false,
            weight: 1,
            weigh: Some(MOST),
        },
        head: PLACED_TASKS,
        node: None,
        parts: 1,
        rows: &[1, 2, 4, 6],
        impact: -12,
    },
    Case {
        name: "free",
        worth: Worth {
            level: Level::Soft,
            reward: true,
            weight: 0,
            weigh: None,
        },
        head: ROOMS,
        node: None,
        parts: 1,
        rows: &[101, 103, 105],
        impact: 0,
    },
];
