//! Feeds over small timetables, and what is printed of them: from runs that another program worked out.
use crate::tests::sketches::{HeadSketch, Worth};
use plan_facts::Kind::{Name, Number};
use plan_scores::Level;
use test_plans::FactSketch::{Entity, Fact};
use test_plans::VarSketch::Var;
use test_plans::{ClassSketch, FactSketch};

const SLOT: u8 = 0;

const ROOM: u8 = 1;

const LESSON: u8 = 2;

/// Slots, rooms, lessons, and blocks.
pub(super) const CLASSES: &[ClassSketch] = &[
    ClassSketch(
        "timeslot",
        &[("day", Number), ("start", Number), ("end", Number)],
        &[],
    ),
    ClassSketch("room", &[("capacity", Number)], &[]),
    ClassSketch(
        "lesson",
        &[
            ("subject", Name),
            ("teacher", Name),
            ("group", Name),
            ("size", Number),
        ],
        &[Var("slot", SLOT), Var("room", ROOM)],
    ),
    ClassSketch("block", &[("teacher", Name), ("day", Number)], &[]),
];

/// The names of the rules.
pub(super) const RULES: [&str; 2] = ["room_conflict", "room_size"];

/// What a match of each is worth.
pub(super) const PENALTY: Worth = Worth {
    level: Level::Hard,
    reward: false,
    weight: 1,
    weigh: None,
};

/// The head of each.
pub(super) const LESSONS: HeadSketch = HeadSketch::ForEach(LESSON);

/// The boundary at which a line is taken, the line, and what is printed of it. No line stands for one that is too long.
#[derive(Clone, Copy, Drop)]
pub(super) struct Turn(
    pub(super) u32,
    pub(super) Option<&'static str>,
    pub(super) &'static str,
);

/// The facts and the names of a plan, and the turns of its feed; how many facts of each class and how many names there are
/// after them.
pub(super) struct Course {
    pub(super) facts: &'static [&'static [FactSketch]],
    pub(super) names: &'static [&'static str],
    pub(super) turns: &'static [Turn],
    pub(super) sizes: [u32; 4],
    pub(super) names_after: u32,
}

/// A slot and a room.
const NO_LESSON: &[&[FactSketch]] = &[&[Fact(1, &[1, 480, 540])], &[Fact(1, &[30])], &[], &[]];

pub(super) const COURSES: &[Course] = &[
    // Rooms come with the next ids; a line that is refused takes none.
    Course {
        facts: NO_LESSON,
        names: &[],
        turns: &[
            Turn(
                0,
                Some(r#"{"do":"add","class":"room","fields":{"capacity":5}}"#),
                "change 1 0 applied room#2",
            ),
            Turn(
                0,
                Some(r#"{"do":"add","class":"room","fields":{"capacity":5}}"#),
                "change 2 0 applied room#3",
            ),
            Turn(
                0,
                Some(r#"{"do":"remove","class":"room","id":9}"#),
                "change 3 0 refused no_such_fact",
            ),
            Turn(
                0,
                Some(r#"{"do":"add","class":"rum","fields":{}}"#),
                "change 4 0 refused unknown_class",
            ),
            Turn(
                0,
                Some(r#"{"do":"alter","class":"room","id":2,"fields":{"size":1}}"#),
                "change 5 0 refused bad_field",
            ),
            Turn(0, Some("{"), "change 6 0 refused syntax json"),
        ],
        sizes: [1, 3, 0, 0],
        names_after: 0,
    },
    // Behind a line that is too long the next one is read.
    Course {
        facts: NO_LESSON,
        names: &[],
        turns: &[
            Turn(0, None, "change 1 0 refused long_line"),
            Turn(
                0,
                Some(r#"{"do":"add","class":"room","fields":{"capacity":5}}"#),
                "change 2 0 applied room#2",
            ),
        ],
        sizes: [1, 2, 0, 0],
        names_after: 0,
    },
    // A room comes at one boundary, a lesson with new names at another.
    Course {
        facts: NO_LESSON,
        names: &[],
        turns: &[
            Turn(
                1,
                Some(r#"{"do":"add","class":"room","fields":{"capacity":10}}"#),
                "change 1 1 applied room#2",
            ),
            Turn(
                3,
                Some(
                    r#"{"do":"add","class":"lesson","fields":{"subject":"M","teacher":"A","group":"G","size":5}}"#,
                ),
                "change 2 3 applied lesson#1",
            ),
        ],
        sizes: [1, 2, 1, 0],
        names_after: 3,
    },
    // Ids go on behind the greatest; the names of a lesson that is refused aren't kept.
    Course {
        facts: &[
            &[
                Fact(1000000000, &[1, 540, 600]),
                Fact(999999999, &[3, 571, 600]),
                Fact(999999998, &[1, 480, 570]),
            ],
            &[Fact(38, &[20])],
            &[
                Entity(1, &[0, 1, 2, 5], &[None, None]),
                Entity(2, &[3, 4, 2, 20], &[Some(999999998), Some(38)]),
            ],
            &[Fact(1, &[1, 2])],
        ],
        names: &["S0", "Ben", "9B", "S1", "Ada"],
        turns: &[
            Turn(
                0,
                Some(r#"{"do":"assign","class":"timeslot","id":999999999,"values":{}}"#),
                "change 1 0 applied timeslot#999999999",
            ),
            Turn(
                0,
                Some(
                    r#"{"do":"add","class":"lesson","fields":{"subject":"S","teacher":"Ada","group":"9A","size":20},"values":{"slot":9,"room":null}}"#,
                ),
                "change 2 0 refused bad_value",
            ),
            Turn(
                0,
                Some(
                    r#"{ "do":"add" ,"class":"time\u0073lot","field\u0073": {"d\u0061y": 2 , "start":540  ,"end":570}}"#,
                ),
                "change 3 0 applied timeslot#1000000001",
            ),
            Turn(
                0,
                Some("{\"do\":\"remove\",\"class\":\"lesson\",\"id\":1,\"rum\":null} \u{a0} "),
                "change 4 0 refused syntax json",
            ),
            Turn(
                20,
                Some(
                    r#" {"do": "\u0061ssign","c\u006cass":"ro\u006f\u006d","id":9,"values" :  {}}"#,
                ),
                "change 5 20 refused no_such_fact",
            ),
            Turn(
                20,
                Some(
                    r#"{ "do" :"\u0077eight" ,"r\u0075\u006ce": "room_s\u0069\u007a\u0065","we\u0069ght":1}"#,
                ),
                "change 6 20 applied rule room_size",
            ),
        ],
        sizes: [4, 1, 2, 1],
        names_after: 5,
    },
    // A rule that isn't there gets no weight; a slot goes.
    Course {
        facts: &[
            &[Fact(15, &[2, 480, 600])],
            &[Fact(1, &[10])],
            &[
                Entity(1, &[3, 4, 5, 31], &[Some(15), Some(1)]),
                Entity(2, &[0, 1, 2, 30], &[None, None]),
                Entity(3, &[0, 6, 2, 30], &[None, Some(1)]),
            ],
            &[Fact(1, &[4, 1]), Fact(2, &[6, 2])],
        ],
        names: &["S0", "Eve", "9A", "S1", "Ben", "9B", "Ada"],
        turns: &[
            Turn(
                0,
                Some(
                    r#"{"do":"a\u0073sign",  "class":"t\u0069me\u0073lo\u0074","id":9, "va\u006cues": {}}"#,
                ),
                "change 1 0 refused no_such_fact",
            ),
            Turn(
                0,
                Some(r#"{"do":"weight","rule":"rum","weight":0}"#),
                "change 2 0 refused unknown_rule",
            ),
            Turn(
                0,
                Some(r#"{"do":"weight","rule":"room_conflict","weight":1}"#),
                "change 3 0 applied rule room_conflict",
            ),
            Turn(
                0,
                Some(r#"{  "\u0063lass":"ti\u006de\u0073lot","\u0064o" :"\u0072emove" , "id":15}"#),
                "change 4 0 applied timeslot#15",
            ),
        ],
        sizes: [0, 1, 3, 2],
        names_after: 7,
    },
    // A slot is altered, a lesson with new names comes, and lessons are assigned at later boundaries.
    Course {
        facts: &[
            &[Fact(1, &[1, 540, 570]), Fact(2, &[1, 600, 540])],
            &[Fact(1, &[10])],
            &[
                Entity(3, &[0, 1, 2, 30], &[Some(2), Some(1)]),
                Entity(2, &[3, 1, 4, 31], &[None, Some(1)]),
                Entity(1, &[5, 6, 2, 20], &[Some(1), Some(1)]),
            ],
            &[Fact(21, &[7, 1])],
        ],
        names: &["Music", "Eve", "9B", "Maths", "9A", "S0", "Ben", "Ada"],
        turns: &[
            Turn(
                0,
                Some(
                    r#" {"do": "alter","c\u006ca\u0073s" :"timeslot","id":2,"fields" :{"\u0065nd":540} }  "#,
                ),
                "change 1 0 applied timeslot#2",
            ),
            Turn(
                0,
                Some(
                    r#"{"do":"add","class":"lesson"  ,  "fields" :{"subject"  :"S" ,"teacher":"Zoe" ,"group":"9Z","size":  20  },  "values":{"slot" :null  ,"room":1}  }"#,
                ),
                "change 2 0 applied lesson#4",
            ),
            Turn(
                0,
                Some(
                    r#"{ "do":  "add","class":"\u0062lock","fields" :{  "teacher":"Zoe","day": 2  }}"#,
                ),
                "change 3 0 applied block#22",
            ),
            Turn(
                6,
                Some(
                    r#" {"do": "assign"  ,  "class":"lesson","id":3  , "values"  :{ "room": 1 } }"#,
                ),
                "change 4 6 applied lesson#3",
            ),
            Turn(
                9,
                Some(
                    r#"{"do":  "assign","class": "lesson","id":2, "values":   {"slot":1,"room":1}}"#,
                ),
                "change 5 9 applied lesson#2",
            ),
        ],
        sizes: [2, 1, 4, 2],
        names_after: 11,
    },
];
