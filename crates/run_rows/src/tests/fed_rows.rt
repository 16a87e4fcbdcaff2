//! Live runs that were worked by hand. A word in angle brackets stands for a part of a text.

/// A run of no steps with a feed: the file `p`, the file `f`, and what is written.
pub(super) struct Fed {
    pub(super) problem: &'static str,
    pub(super) feed: &'static str,
    pub(super) text: &'static str,
}

/// A feed's line that adds a room.
pub(super) const ROOM: &str = r#"{"do":"add","class":"room","fields":{"capacity":5}}"#;

/// A timeslot and a room, and no lesson.
pub(super) const EMPTY: &str = "<T><s1><R><r1><L><E>";

pub(super) const FED: &[Fed] = &[
    // A timeslot that moves: the lessons of one teacher are no longer one behind the other.
    Fed {
        problem: r#"<T><s1>,<s2><R><r1><L>{"id":1,"subject":"Maths","teacher":"Ada","group":"9A","size":20,"slot":1,"room":1},{"id":2,"subject":"Physics","teacher":"Ada","group":"9B","size":20,"slot":2,"room":1}<E>"#,
        feed: r#"{"do":"alter","class":"timeslot","id":2,"fields":{"start":580,"end":640}}"#,
        text: r#"run timetable
leg 0
change 1 0 applied timeslot#2
start <Z>
best <Z>
lesson#1 slot=1 room=1
lesson#2 slot=2 room=1
<TZ>
end
"#,
    },
    // A nurse leaves: the shifts go to the other one.
    Fed {
        problem: r#"{"format":1,"domain":"roster","settings":{"steps":0},"facts":{"employee":[{"id":1,"skill":"nurse","max":10},{"id":2,"skill":"nurse","max":10}],"shift":[{"id":1,"day":1,"start":480,"end":960,"skill":"nurse","worker":1},{"id":2,"day":2,"start":480,"end":960,"skill":"nurse","worker":1},{"id":3,"day":3,"start":480,"end":960,"skill":"nurse","worker":1}]}}"#,
        feed: r#"{"do":"remove","class":"employee","id":1}"#,
        text: r#"run roster
leg 0
change 1 0 applied employee#1
place shift#1 worker=2 -2init/<Z>
place shift#2 worker=2 -1init/<Z>
place shift#3 worker=2 <Z>
start <Z>
best <Z>
shift#1 worker=2
shift#2 worker=2
shift#3 worker=2
<RZ>
end
"#,
    },
    // Six lines: two rooms, and four that name nothing or are no change.
    Fed {
        problem: EMPTY,
        feed: r#"{"do":"add","class":"room","fields":{"capacity":5}}
{"do":"add","class":"room","fields":{"capacity":5}}
{"do":"remove","class":"room","id":9}
{"do":"add","class":"rum","fields":{}}
{"do":"alter","class":"room","id":2,"fields":{"size":1}}
{"#,
        text: r#"run timetable
leg 0
change 1 0 applied room#2
change 2 0 applied room#3
change 3 0 refused no_such_fact
change 4 0 refused unknown_class
change 5 0 refused bad_field
change 6 0 refused syntax json
start <Z>
best <Z>
<TZ>
end
"#,
    },
    // A rule that weighs more.
    Fed {
        problem: r#"<T><s1><R>{"id":1,"capacity":10}<L>{"id":1,"subject":"Maths","teacher":"Ada","group":"9A","size":20,"slot":1,"room":1}<E>"#,
        feed: r#"{"do":"weight","rule":"room_size","weight":3}"#,
        text: r#"run timetable
leg 0
change 1 0 applied rule room_size
start -30hard/0medium/0soft
best -30hard/0medium/0soft
lesson#1 slot=1 room=1
rule room_conflict 0 <Z>
rule teacher_conflict 0 <Z>
rule group_conflict 0 <Z>
rule room_size 1 -30hard/0medium/0soft
match -30hard/0medium/0soft lesson#1
rule teacher_away 0 <Z>
<TZ5>
end
"#,
    },
    // A rule that there isn't, and a weight beyond the greatest.
    Fed {
        problem: EMPTY,
        feed: r#"{"do":"weight","rule":"rum","weight":3}
{"do":"weight","rule":"room_size","weight":1000001}
"#,
        text: r#"run timetable
leg 0
change 1 0 refused unknown_rule
change 2 0 refused syntax weight
start <Z>
best <Z>
<TZ>
end
"#,
    },
];
