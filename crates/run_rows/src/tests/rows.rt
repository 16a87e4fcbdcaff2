//! Runs that were worked by hand. A word in angle brackets stands for a part of a text.
use plan_session::Status;

/// Two lessons that are placed side by side.
pub(super) const APART: &str = "<T><s1>,<s2><R><r1><L><a>,<b><E>";

pub(super) const APART_TEXT: &str = r#"run timetable
leg 0
place lesson#1 slot=1 room=1 -2init/<Z>
place lesson#2 slot=2 room=1 <Z>
start <Z>
best <Z>
lesson#1 slot=1 room=1
lesson#2 slot=2 room=1
<TZ>
end
"#;

/// Two lessons that must share a slot and a room.
pub(super) const TOGETHER: &str = "<T><s1><R><r1><L><a>,<b><E>";

pub(super) const TOGETHER_TEXT: &str = r#"run timetable
leg 0
place lesson#1 slot=1 room=1 -2init/<Z>
place lesson#2 slot=1 room=1 -1hard/0medium/0soft
start -1hard/0medium/0soft
best -1hard/0medium/0soft
lesson#1 slot=1 room=1
lesson#2 slot=1 room=1
rule room_conflict 1 -1hard/0medium/0soft
match -1hard/0medium/0soft lesson#1 lesson#2
<TZ1>
end
"#;

/// Three steps over a slot, a room and no lesson.
pub(super) const IDLE: &str =
    r#"{"format":1,"domain":"timetable","settings":{"steps":3},"facts":{"timeslot":[<s1><R><r1><L><E>"#;

/// A room and a lesson that come while it is searched.
pub(super) const ADDED: &str = r#"{"do":"add","class":"room","fields":{"capacity":10}}
{"do":"add","class":"lesson","fields":{"subject":"M","teacher":"A","group":"G","size":5}}
"#;

/// The boundaries at which they come.
pub(super) const NAMED: &str = "change 1 1 x\nchange 2 3 x\n";

/// The run that takes them there.
pub(super) const ADDED_TEXT: &str = r#"run timetable
leg 0
start <Z>
step 1 none <Z>
leg 1
change 1 1 applied room#2
start <Z>
step 2 none <Z>
step 3 none <Z>
leg 3
change 2 3 applied lesson#1
place lesson#1 slot=1 room=1 <Z>
start <Z>
best <Z>
lesson#1 slot=1 room=1
<TZ>
end
"#;

/// A step that ends with the first candidate that is accepted.
pub(super) const FIRST_TAKEN: &str =
    r#"{"format":1,"domain":"roster","settings":{"steps":1,"selectors":["change"]},"facts":{<N>}}"#;

/// A step that sees two candidates, which are the same edit.
pub(super) const FIRST_OF_TWO: &str =
    r#"{"format":1,"domain":"roster","settings":{"steps":1,"selectors":["change"],"accepted_limit":2,"select_limit":2},"facts":{<N>}}"#;

/// Words that solve by so many workers, which judge so many candidates at once.
pub(super) const HANDS: &[&str] = &[
    "solve p --workers 1 --buffer 1",
    "solve p --workers 1 --buffer 4",
    "solve p --workers 2 --buffer 1",
    "solve p --workers 2 --buffer 4",
    "solve p --workers 3 --buffer 2",
    "solve p --workers 4 --buffer 8",
    "solve p --workers 5 --buffer 16",
    "solve p --workers 6 --buffer 32",
    "solve p --workers 7 --buffer 1",
    "solve p --workers 7 --buffer 4",
    "solve p --workers 8 --buffer 64",
    "solve p --workers 9 --buffer 128",
    "solve p --workers 10 --buffer 256",
    "solve p --workers 11 --buffer 512",
    "solve p --workers 12",
    "solve p --workers 13 --buffer 3",
    "solve p --workers 14 --buffer 1023",
    "solve p --workers 15 --buffer 1024",
    "solve p --workers 16 --buffer 1",
    "solve p --workers 16 --buffer 1024",
];

/// The step's first candidate moves the second shift to the nurse, who has the first.
pub(super) const MOVED: &str = r#"run roster
leg 0
start -1hard/0medium/0soft
step 1 candidate 0 0hard/0medium/-1soft best
best 0hard/0medium/-1soft
shift#1 worker=1
shift#2 worker=1
rule skill 0 <Z>
rule overlap 0 <Z>
rule leave 0 <Z>
rule rest 0 <Z>
rule load 0 <Z>
rule days 0 <Z>
rule hours 0 <Z>
rule early 0 <Z>
rule late 0 <Z>
rule idle 1 0hard/0medium/-1soft
match 0hard/0medium/-1soft employee#2
rule wish 0 <Z>
end
"#;

/// A run: its words, the file `p`, what is written, and the status.
pub(super) struct Case {
    pub(super) words: &'static str,
    pub(super) problem: &'static str,
    pub(super) text: &'static str,
    pub(super) status: Status,
}

pub(super) const ROWS: &[Case] = &[
    Case {
        words: "solve --workers=2 p",
        problem: APART,
        text: APART_TEXT,
        status: Status::Ok,
    },
    Case {
        words: "solve p",
        problem: IDLE,
        text: r#"run timetable
leg 0
start <Z>
step 1 none <Z>
step 2 none <Z>
step 3 none <Z>
best <Z>
<TZ>
end
"#,
        status: Status::Ok,
    },
    Case {
        words: "solve p",
        problem: FIRST_TAKEN,
        text: MOVED,
        status: Status::Ok,
    },
    Case {
        words: "solve p",
        problem: FIRST_OF_TWO,
        text: MOVED,
        status: Status::Ok,
    },
    Case {
        words: "solve p",
        problem: APART,
        text: APART_TEXT,
        status: Status::Ok,
    },
    Case {
        words: "solve p",
        problem: TOGETHER,
        text: TOGETHER_TEXT,
        status: Status::Ok,
    },
    Case {
        words: "solve p",
        problem: "<T><s1><R><L><a><E>",
        text: r#"run timetable
leg 0
stuck lesson#1
start -2init/<Z>
best -2init/<Z>
lesson#1 slot=- room=-
<TZ>
end
"#,
        status: Status::Ok,
    },
    Case {
        words: "solve p",
        problem: r#"<T><s1>,<s2><R><r1><L>{"id":1,"subject":"Maths","teacher":"Ada","group":"9A","size":20,"slot":2,"room":1},<b><E>"#,
        text: r#"run timetable
leg 0
place lesson#2 slot=1 room=1 <Z>
start <Z>
best <Z>
lesson#1 slot=2 room=1
lesson#2 slot=1 room=1
<TZ>
end
"#,
        status: Status::Ok,
    },
    Case {
        words: "solve p",
        problem: r#"<T><s1><R><r1><L><a>],"block":[{"id":1,"teacher":"Ada","day":1},{"id":2,"teacher":"Ada","day":1}<E>"#,
        text: r#"run timetable
leg 0
place lesson#1 slot=1 room=1 -1hard/0medium/0soft
start -1hard/0medium/0soft
best -1hard/0medium/0soft
lesson#1 slot=1 room=1
rule room_conflict 0 <Z>
rule teacher_conflict 0 <Z>
rule group_conflict 0 <Z>
rule room_size 0 <Z>
rule teacher_away 1 -1hard/0medium/0soft
match -1hard/0medium/0soft lesson#1
<TZ5>
end
"#,
        status: Status::Ok,
    },
    Case {
        words: "score p",
        problem: TOGETHER,
        text: "score -4init/<Z>\n<TZ>\nend\n",
        status: Status::Ok,
    },
    // Two lessons in one room at one time: each stands in the match.
    Case {
        words: "explain p",
        problem: r#"<T><s1><R><r1><L>{"id":1,"subject":"Maths","teacher":"Ada","group":"9A","size":20,"slot":1,"room":1},{"id":2,"subject":"Physics","teacher":"Ben","group":"9B","size":20,"slot":1,"room":1}<E>"#,
        text: r#"score -1hard/0medium/0soft
rule room_conflict 1 -1hard/0medium/0soft
match -1hard/0medium/0soft lesson#1 lesson#2
<TZ1>
indict lesson#1 1 -1hard/0medium/0soft
indict lesson#2 1 -1hard/0medium/0soft
end
"#,
        status: Status::Ok,
    },
    // A pinned lesson stays where it is, and is counted.
    Case {
        words: "solve p",
        problem: r#"<T><s1>,<s2><R><r1><L>{"id":1,"subject":"Maths","teacher":"Ada","group":"9A","size":20,"pinned":true},<b><E>"#,
        text: r#"run timetable
leg 0
place lesson#2 slot=1 room=1 -2init/<Z>
start -2init/<Z>
best -2init/<Z>
lesson#1 slot=- room=-
lesson#2 slot=1 room=1
<TZ>
end
"#,
        status: Status::Ok,
    },
    // A shift may stay open.
    Case {
        words: "solve p",
        problem: r#"{"format":1,"domain":"open_roster","settings":{"steps":0},"facts":{"employee":[{"id":1,"skill":"cook","max":10}],"shift":[{"id":1,"day":1,"start":480,"end":960,"skill":"nurse"}]}}"#,
        text: r#"run open_roster
leg 0
place shift#1 worker=- 0hard/-1medium/-1soft
start 0hard/-1medium/-1soft
best 0hard/-1medium/-1soft
shift#1 worker=-
rule skill 0 <Z>
rule overlap 0 <Z>
rule leave 0 <Z>
rule rest 0 <Z>
rule load 0 <Z>
rule days 0 <Z>
rule hours 0 <Z>
rule early 0 <Z>
rule late 0 <Z>
rule idle 1 0hard/0medium/-1soft
match 0hard/0medium/-1soft employee#1
rule wish 0 <Z>
rule unassigned 1 0hard/-1medium/0soft
match 0hard/-1medium/0soft shift#1
end
"#,
        status: Status::Ok,
    },
    // Format 2, and harder lessons first.
    Case {
        words: "solve p",
        problem: r#"{"format":2,"domain":"timetable","settings":{"steps":0},"facts":{"timeslot":[<s1>,<s2><R><r1><L><a>,<b><E>"#,
        text: APART_TEXT,
        status: Status::Ok,
    },
    Case {
        words: "solve p",
        problem: r#"{"format":2,"domain":"timetable","settings":{"steps":0,"construction":"first_fit_decreasing"},"facts":{"timeslot":[<s1><R><r1>,{"id":2,"capacity":10}<L>{"id":1,"subject":"Maths","teacher":"Ada","group":"9A","size":5},<b><E>"#,
        text: r#"run timetable
leg 0
place lesson#2 slot=1 room=1 -2init/<Z>
place lesson#1 slot=1 room=2 <Z>
start <Z>
best <Z>
lesson#1 slot=1 room=2
lesson#2 slot=1 room=1
<TZ>
end
"#,
        status: Status::Ok,
    },
    Case {
        words: "solve p",
        problem: r#"{"format":2,"domain":"timetable","settings":{"steps":0,"construction":"first_fit"},"facts":{"timeslot":[<s1><R><r1>,{"id":2,"capacity":10}<L>{"id":1,"subject":"Maths","teacher":"Ada","group":"9A","size":5},<b><E>"#,
        text: TOGETHER_TEXT,
        status: Status::Ok,
    },
    // Words that are no command.
    Case {
        words: "solve",
        problem: APART,
        text: "refused usage\n",
        status: Status::Usage,
    },
    Case {
        words: "solve p --workers 17",
        problem: APART,
        text: "refused usage\n",
        status: Status::Usage,
    },
    Case {
        words: "solve p p",
        problem: APART,
        text: "refused usage\n",
        status: Status::Usage,
    },
    Case {
        words: "swim p",
        problem: APART,
        text: "refused usage\n",
        status: Status::Usage,
    },
    Case {
        words: "solve --help",
        problem: APART,
        text: "refused usage\n",
        status: Status::Usage,
    },
];

/// Problems, beside the cause for which each is refused.
pub(super) const REFUSED: &[(&str, &str)] = &[
    ("{", "json"),
    ("[]", "shape /"),
    (
        r#"{"format":3,"domain":"timetable","settings":{"steps":0},"facts":{"timeslot":[<s1>,<s2><R><r1><L><a>,<b><E>"#,
        "shape /format",
    ),
    (
        r#"{"format":1,"domain":"chess","settings":{"steps":0},"facts":{"timeslot":[<s1>,<s2><R><r1><L><a>,<b><E>"#,
        "domain",
    ),
    (
        r#"{"format":1,"domain":"timetable","settings":{"steps":1000001},"facts":{"timeslot":[<s1>,<s2><R><r1><L><a>,<b><E>"#,
        "setting steps",
    ),
    (
        r#"<T><s1>,<s2><R><r1><L>{"id":1,"subject":"Maths","teacher":"Ada","group":"9A"},<b><E>"#,
        "shape /facts/lesson/0/size",
    ),
    (
        r#"<T><s1>,<s2><R>{"id":1,"capacity":1000000001}<L><a>,<b><E>"#,
        "bad_field room#1 capacity",
    ),
    ("<T><s1>,<s2><R><r1>,<r1><L><a>,<b><E>", "double_id room#1"),
    (
        r#"<T><s1>,<s2><R><r1><L>{"id":1,"subject":"Maths","teacher":"Ada","group":"9A","size":20,"slot":9},<b><E>"#,
        "bad_value lesson#1 slot",
    ),
    ("", "json"),
    ("null", "shape /"),
    (r#"{"format":1}"#, "shape /domain"),
    (
        r#"{"format":1,"domain":"timetable","settings":{"seed":-1},"facts":{"timeslot":[<s1>,<s2><R><r1><L><a>,<b><E>"#,
        "setting seed",
    ),
    (
        r#"{"format":1,"domain":"timetable","settings":{"seed":1.0},"facts":{"timeslot":[<s1>,<s2><R><r1><L><a>,<b><E>"#,
        "setting seed",
    ),
    (
        r#"{"format":1,"domain":"timetable","settings":{"selectors":[]},"facts":{"timeslot":[<s1>,<s2><R><r1><L><a>,<b><E>"#,
        "setting selectors",
    ),
    (
        r#"{"format":1,"domain":"timetable","settings":{"colour":1},"facts":{"timeslot":[<s1>,<s2><R><r1><L><a>,<b><E>"#,
        "shape /settings",
    ),
    (
        r#"<T><s1>,<s2><R><r1><L><a>,<b>]},"weights":{"room_size":1000001}}"#,
        "shape /weights/room_size",
    ),
    (
        r#"<T><s1>,<s2><R><r1><L><a>,<b>]},"weights":{"rum":1}}"#,
        "shape /weights",
    ),
    (
        r#"<T><s1>,<s2><R><r1><L><a>,<b>],"rum":[<E>"#,
        "shape /facts",
    ),
    (
        r#"<T><s1>,<s2><R>{"id":0,"capacity":30}<L><a>,<b><E>"#,
        "shape /facts/room/0/id",
    ),
    (
        r#"<T><s1>,<s2><R>{"id":1,"capacity":30,"x":1}<L><a>,<b><E>"#,
        "shape /facts/room/0",
    ),
    (
        r#"<T><s1>,<s2><R><r1><L>{"id":1,"subject":"<M65>","teacher":"Ada","group":"9A","size":20},<b><E>"#,
        "bad_field lesson#1 subject",
    ),
    (
        r#"<T><s1>,<s2><R><r1><L>{"id":1,"subject":"Maths","teacher":"Ada","group":"9A","size":20,"slot":9},<a><E>"#,
        "double_id lesson#1",
    ),
    // Harder lessons first is a wish of format 2, and pinned is said by true or false, of an entity.
    (
        r#"{"format":1,"domain":"timetable","settings":{"steps":0,"construction":"first_fit_decreasing"},"facts":{"timeslot":[<s1><R><r1>,{"id":2,"capacity":10}<L>{"id":1,"subject":"Maths","teacher":"Ada","group":"9A","size":5},<b><E>"#,
        "shape /settings",
    ),
    (
        r#"<T><s1>,<s2><R><r1><L>{"id":1,"subject":"Maths","teacher":"Ada","group":"9A","size":20,"pinned":1},<b><E>"#,
        "shape /facts/lesson/0/pinned",
    ),
    (
        r#"<T><s1>,<s2><R>{"id":1,"capacity":30,"pinned":true}<L><a>,<b><E>"#,
        "shape /facts/room/0",
    ),
];
