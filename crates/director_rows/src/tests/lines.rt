//! Feeds, the lines that are printed of them, and what plans of the shipped domains are worth before and after them.
use super::rows::{OnlyRow, RowSketch};

/// The places of the rules that are looked at.
const ROOM_SIZE: u8 = 3;

const TEACHER_CHAIN: u8 = 7;

const ROSTER_IDLE: u8 = 9;

/// What a plan is worth, nothing at the medium level: how many variables are to be placed, its hard and its soft score; and
/// the row of the rule that is looked at.
#[derive(Clone, Copy, Drop)]
pub(super) struct Worth {
    pub(super) unplaced: u32,
    pub(super) hard: i64,
    pub(super) soft: i64,
    pub(super) row: OnlyRow,
}

/// A problem; the feed that comes, in front of which stand so many bytes `x`; the lines that are printed of it; the names that
/// there are after it, in the order of their numbers; and what the plan is worth before it and after it where that was worked
/// by hand.
#[derive(Clone, Copy, Drop)]
pub(super) struct Course {
    pub(super) problem: &'static str,
    pub(super) xs: usize,
    pub(super) feed: &'static str,
    pub(super) printed: &'static str,
    pub(super) names: &'static [&'static str],
    pub(super) before: Option<Worth>,
    pub(super) after: Option<Worth>,
}

/// One slot and one room, and no lesson.
const BARE: &str = r#"{"format":1,"domain":"timetable","facts":{
"timeslot":[{"id":1,"day":1,"start":480,"end":540}],"room":[{"id":1,"capacity":30}],"lesson":[]}}"#;

/// One slot and one room, and a lesson that isn't placed.
const UNPLACED: &str = r#"{"format":1,"domain":"timetable","facts":{
"timeslot":[{"id":1,"day":1,"start":480,"end":540}],"room":[{"id":1,"capacity":30}],
"lesson":[{"id":1,"subject":"Maths","teacher":"Ada","group":"9A","size":20}]}}"#;

/// The rooms that are made get the ids 2 and 3, and with 3 taken out the next gets 4.
const NO_LESSON: Course = Course {
    problem: BARE,
    xs: 0,
    feed: r#"{"do":"add","class":"room","fields":{"capacity":5}}
{"do":"add","class":"room","fields":{"capacity":5}}
{"do":"remove","class":"room","id":9}
{"do":"add","class":"rum","fields":{}}
{"do":"alter","class":"room","id":2,"fields":{"size":1}}
{
{"do":"remove","class":"room","id":3}
{"do":"add","class":"room","fields":{"capacity":5}}"#,
    printed: "change 1 0 applied room#2
change 2 0 applied room#3
change 3 0 refused no_such_fact
change 4 0 refused unknown_class
change 5 0 refused bad_field
change 6 0 refused syntax json
change 7 0 applied room#3
change 8 0 applied room#4
",
    names: &[],
    before: None,
    after: None,
};

/// A line of one byte too many, and one that makes a room.
const LONG_LINE: Course = Course {
    problem: BARE,
    xs: 65_537,
    feed: r#"
{"do":"add","class":"room","fields":{"capacity":5}}"#,
    printed: "change 1 0 refused long_line
change 2 0 applied room#2
",
    names: &[],
    before: None,
    after: None,
};

/// Each line but the last has something wrong with it; the last alters a room in nothing.
const ONE_LESSON: Course = Course {
    problem: UNPLACED,
    xs: 0,
    feed: r#"[]
{"class":"room"}
{"do":"add"}
{"do":"remove","class":"room","id":0}
{"do":"alter","class":"room","id":1}
{"do":"assign","class":"lesson","id":1}
{"do":"weight","weight":3}
{"do":"add","class":"room","id":1,"fields":{"capacity":1}}
{"do":"add","class":"room","fields":{}}
{"do":"assign","class":"lesson","id":1,"values":{"slot":99}}
{"do":"alter","class":"room","id":1,"fields":{}}"#,
    printed: "change 1 0 refused syntax object
change 2 0 refused syntax do
change 3 0 refused syntax class
change 4 0 refused syntax id
change 5 0 refused syntax fields
change 6 0 refused syntax values
change 7 0 refused syntax rule
change 8 0 refused syntax member
change 9 0 refused bad_field
change 10 0 refused bad_value
change 11 0 applied room#1
",
    names: &["Maths", "Ada", "9A"],
    before: None,
    after: None,
};

/// The names of changes that are refused get no numbers; those of the others get the next ones, in the order of the fields.
const NEW_NAMES: Course = Course {
    problem: UNPLACED,
    xs: 0,
    feed: r#"{"do":"add","class":"lesson","fields":{"subject":"Art","teacher":"Eve","group":"9C","size":5},"values":{"slot":99}}
{"do":"add","class":"lesson","fields":{"subject":"Art","teacher":"Eve","group":"9C"}}
{"do":"alter","class":"lesson","id":1,"fields":{"subject":"Art","size":"many"}}
{"do":"alter","class":"lesson","id":9,"fields":{"subject":"Art"}}
{"do":"add","class":"lesson","fields":{"group":"9B","size":5,"subject":"Physics","teacher":"Ada"}}
{"do":"alter","class":"lesson","id":1,"fields":{"teacher":"Bob"}}"#,
    printed: "change 1 0 refused bad_value
change 2 0 refused bad_field
change 3 0 refused bad_field
change 4 0 refused no_such_fact
change 5 0 applied lesson#2
change 6 0 applied lesson#1
",
    names: &["Maths", "Ada", "9A", "Physics", "9B", "Bob"],
    before: None,
    after: None,
};

/// A lesson of 20 in a room for 10: each of the 10 too many weighs 1, then 3.
const NARROW: Course = Course {
    problem: r#"{"format":1,"domain":"timetable","facts":{
"timeslot":[{"id":1,"day":1,"start":480,"end":540}],"room":[{"id":1,"capacity":10}],
"lesson":[{"id":1,"subject":"Maths","teacher":"Ada","group":"9A","size":20,"slot":1,"room":1}]}}"#,
    xs: 0,
    feed: r#"{"do":"weight","rule":"room_size","weight":3}
{"do":"weight","rule":"rum","weight":3}
{"do":"weight","rule":"room_size","weight":1000001}"#,
    printed: "change 1 0 applied rule room_size
change 2 0 refused unknown_rule
change 3 0 refused syntax weight
",
    names: &["Maths", "Ada", "9A"],
    before: Some(Worth {
        unplaced: 0,
        hard: -10,
        soft: 0,
        row: OnlyRow(ROOM_SIZE, Some(RowSketch(1, [1, 0, 0]))),
    }),
    after: Some(Worth {
        unplaced: 0,
        hard: -30,
        soft: 0,
        row: OnlyRow(ROOM_SIZE, Some(RowSketch(1, [1, 0, 0]))),
    }),
};

/// A lesson begins when another of its teacher ends, which is rewarded until its slot moves.
const CHAINED: Course = Course {
    problem: r#"{"format":1,"domain":"timetable","facts":{
"timeslot":[{"id":1,"day":1,"start":480,"end":540},{"id":2,"day":1,"start":540,"end":600}],
"room":[{"id":1,"capacity":30}],"lesson":[
{"id":1,"subject":"Maths","teacher":"Ada","group":"9A","size":20,"slot":1,"room":1},
{"id":2,"subject":"Physics","teacher":"Ada","group":"9B","size":20,"slot":2,"room":1}]}}"#,
    xs: 0,
    feed: r#"{"do":"alter","class":"timeslot","id":2,"fields":{"start":580,"end":640}}"#,
    printed: "change 1 0 applied timeslot#2\n",
    names: &["Maths", "Ada", "9A", "Physics", "9B"],
    before: Some(Worth {
        unplaced: 0,
        hard: 0,
        soft: 1,
        row: OnlyRow(TEACHER_CHAIN, Some(RowSketch(2, [1, 2, 0]))),
    }),
    after: Some(Worth {
        unplaced: 0,
        hard: 0,
        soft: 0,
        row: OnlyRow(TEACHER_CHAIN, None),
    }),
};

/// The nurse with all shifts goes, so that they have to be placed again; the other nurse is idle before and after.
const SHIFTS: Course = Course {
    problem: r#"{"format":1,"domain":"roster","facts":{
"employee":[{"id":1,"skill":"nurse","max":10},{"id":2,"skill":"nurse","max":10}],"shift":[
{"id":1,"day":1,"start":480,"end":960,"skill":"nurse","worker":1},
{"id":2,"day":2,"start":480,"end":960,"skill":"nurse","worker":1},
{"id":3,"day":3,"start":480,"end":960,"skill":"nurse","worker":1}]}}"#,
    xs: 0,
    feed: r#"{"do":"remove","class":"employee","id":1}"#,
    printed: "change 1 0 applied employee#1\n",
    names: &["nurse"],
    before: Some(Worth {
        unplaced: 0,
        hard: 0,
        soft: -1,
        row: OnlyRow(ROSTER_IDLE, Some(RowSketch(1, [2, 0, 0]))),
    }),
    after: Some(Worth {
        unplaced: 3,
        hard: 0,
        soft: -1,
        row: OnlyRow(ROSTER_IDLE, Some(RowSketch(1, [2, 0, 0]))),
    }),
};

/// A room is altered in nothing, and nothing is assigned to a slot.
const ALTERED_ROOM: Course = Course {
    problem: r#"{"format":1,"domain":"timetable","facts":{"timeslot":[{"id":1,"day":1,"start":480,"end":540},{"id":2,"day":1,
"start":540,"end":600},{"id":3,"day":3,"start":570,"end":600},{"id":4,"day":1,"start":540,"end":600}],
"room":[{"id":1,"capacity":30},{"id":2,"capacity":10}],"lesson":[{"size":5,"teacher":"Ada","id":1000000000,
"room":2,"subject":"S0","group":"9B","slot":2},{"group":"9A","size":20,"slot":1,"id":999999999,
"teacher":"Ada","room":2,"pinned":true,"subject":"S0"},{"id":999999998,"subject":"S0","teacher":"Ada",
"group":"9B","size":20,"slot":1,"room":1,"pinned":true},{"id":999999997,"subject":"S0","teacher":"Ben",
"group":"9A","size":5,"slot":4,"room":2},{"id":999999996,"subject":"S0","teacher":"Ada","group":"9A",
"size":20},{"id":999999995,"subject":"S0","teacher":"Ada","group":"9B","size":20,"slot":1,"room":2,
"pinned":false}],"block":[{"id":1000000000,"teacher":"Ada","day":2}]},"weights":{"room_conflict":3,
"teacher_conflict":1,"group_conflict":0,"teacher_room":3}}"#,
    xs: 0,
    feed: r#"
{"class":"lesson","fields":{"subject":"S9","teacher":"Ada","group":"9Z"},"values":{"room":2},"rum":1.0}
{"do":"alter","class":"room","id":1,"fields":{}}
{"id":4  ,  "values":{} ,  "do" :"assign","class"  :"timeslot" }
"#,
    printed: "change 1 0 refused syntax json
change 2 0 refused syntax do
change 3 0 applied room#1
change 4 0 applied timeslot#4
",
    names: &["S0", "Ada", "9B", "9A", "Ben"],
    before: None,
    after: None,
};

/// Facts of one cook come and go.
const SHORT_STAFF: Course = Course {
    problem: r#"{"format":1,"domain":"roster","facts":{"employee":[{"id":1,"skill":"cook","max":2}],"shift":[{"id":1,"day":1,
"start":359,"end":840,"skill":"cook","worker":1},{"id":2,"day":1,"start":300,"end":1320,"skill":"cook",
"worker":1,"pinned":true},{"id":3,"day":1,"start":1200,"end":1260,"skill":"cook","worker":1},{"id":4,"day":1,
"start":1200,"end":1260,"skill":"cook"}],"leave":[{"id":1,"employee":1,"day":1}],"wish":[]}}"#,
    xs: 0,
    feed: r#"{"do":"remove","class":"wish","id":9}
{"do":"remove","class":"shift","id":5}
{"do":"add","class":"leave","fields":{"employee":1,"day":2}}
{"do":"remove","class":"shift","id":1}
{"do":"add","class":"shift","fields":{"day":1,"start":300,"end":960,"skill":"new"}}
{"id":1,"values":{},"class":"employee","do":"assign"}
 
"#,
    printed: "change 1 0 refused no_such_fact
change 2 0 refused no_such_fact
change 3 0 applied leave#2
change 4 0 applied shift#1
change 5 0 applied shift#5
change 6 0 applied employee#1
change 7 0 refused syntax json
",
    names: &["cook", "new"],
    before: None,
    after: None,
};

/// No shift to begin with; the first one comes with a worker.
const NO_SHIFT: Course = Course {
    problem: r#"{"format":1,"domain":"roster","facts":{"employee":[{"id":1,"skill":"nurse","max":2},{"id":2,"skill":"cook",
"max":2},{"id":3,"skill":"cook","max":1},{"id":4,"skill":"nurse","max":2},{"id":5,"skill":"nurse","max":1}],
"leave":[{"id":1000000000,"employee":1,"day":1}],"wish":[{"id":1,"employee":5,"day":1}]},"weights":{"skill":0,
"leave":3,"rest":3,"days":1,"late":2}}"#,
    xs: 0,
    feed: r#"{
{"do":"weight","rule":"skill","weight":1000000001}
 
{"do": "alter"  ,  "class":  "shift","id" :  2,"fields"  :{"day":3,"end":960} }
null
{"rule":[1],"do":"weight","rule":"unassigned","weight":1000000}
{"fields":{"day":1,"start":300,"end":1400,"skill":"cook"},"values":{"worker":3},"class":"shift","do":"add"}
"#,
    printed: "change 1 0 refused syntax json
change 2 0 refused syntax weight
change 3 0 refused syntax json
change 4 0 refused no_such_fact
change 5 0 refused syntax object
change 6 0 refused unknown_rule
change 7 0 applied shift#1
",
    names: &["nurse", "cook"],
    before: None,
    after: None,
};

/// A shift is altered and taken out.
const NIGHTS: Course = Course {
    problem: r#"{"format":2,"domain":"roster","facts":{"employee":[{"id":24,"skill":"cook","max":0},{"id":14,"skill":"cook",
"max":1},{"id":6,"skill":"nurse","max":2}],"shift":[{"end":840,"skill":"nurse","id":1,"day":1,"start":359,
"worker":null},{"id":2,"day":2,"start":0,"end":-5,"skill":"cook","worker":6},{"id":3,"day":2,"start":480,
"end":1321,"skill":"cook"}],"leave":[{"id":1,"employee":24,"day":1},{"id":2,"employee":24,"day":2}],
"wish":[]},"weights":{"overlap":0,"rest":0,"days":1000000,"early":1,"late":3}}"#,
    xs: 0,
    feed: r#"{"class":"shift","do":"alter","id":1,"fields":{"day":2,"end":960}}
{"do":"remove","class":"shift","id":1}
{"do":"weight","rule":"skill","weight":2}
 { "do":"remove"  ,"class":  "leave","id"  :4}
{"do":1e3,"class":"shift","id":2,"fields":{"start":300,"end":480,"skill":"cook","rum":"mmmmmmmmmmmmmmmmmmmmmmmmmmmmmmmmmmmmmmmmmmmmmmmmmmmmmmmmmmmmmmmm"}}
{
"#,
    printed: "change 1 0 applied shift#1
change 2 0 applied shift#1
change 3 0 applied rule skill
change 4 0 refused no_such_fact
change 5 0 refused syntax do
change 6 0 refused syntax json
",
    names: &["cook", "nurse"],
    before: None,
    after: None,
};

/// An employee with the greatest id of all, after whom the next gets one more.
const PAST_LAST_ID: Course = Course {
    problem: r#"{"format":1,"domain":"open_roster","facts":{"employee":[{"id":1000000000,"skill":"nurse","max":1}],
"shift":[{"id":2,"day":1,"start":900,"end":960,"skill":"été","worker":1000000000},{"id":3,"day":1,"start":900,
"end":1381,"skill":"nurse","worker":1000000000},{"id":1,"day":1,"start":300,"end":295,"skill":"nurse",
"worker":1000000000}],"leave":[{"id":1,"employee":1000000000,"day":1},{"id":2,"employee":1000000000,"day":1}],
"wish":[]}}"#,
    xs: 0,
    feed: r#"{  "do": "remove"  ,"class" :"wish","id" :9}
{"do":"assign","class":"shift","id":3,"values":{}}
{"do":  "add","class"  :"shift", "fields": {"day":1,"start":300 ,"end":480 , "skill": "new"  }, "values"  :1.0}
{"do":"add","class":"shift","fields":{"day":2,"start":300,"end":1000000000,"skill":"nurse","colour":1}}
{"do":"add","class":"wish","fields":{"employee":2,"day":2}}
{"do":"add","class":"employee","fields":{"skill":"cook","max":1}}
"#,
    printed: "change 1 0 refused no_such_fact
change 2 0 applied shift#3
change 3 0 refused syntax values
change 4 0 refused bad_field
change 5 0 applied wish#1
change 6 0 applied employee#1000000001
",
    names: &["nurse", "été", "cook"],
    before: None,
    after: None,
};

/// The courses: of the timetable, then of the rosters.
pub(super) const COURSES: &[Course] = &[
    NO_LESSON,
    LONG_LINE,
    ONE_LESSON,
    NEW_NAMES,
    NARROW,
    CHAINED,
    ALTERED_ROOM,
    SHIFTS,
    SHORT_STAFF,
    NO_SHIFT,
    NIGHTS,
    PAST_LAST_ID,
];
