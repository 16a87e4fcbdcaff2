//! What texts of tests are put together of: a word in angle brackets stands for a part.

/// The parts of texts: a problem of the timetable up to its timeslots, two of these, what leads to the rooms, a room, what
/// leads to the lessons, two of these, and the end; then the zero score, the lines of all rules without a match, of all but the
/// first, and of all after the fifth; the lines of all rules of the roster without a match; then two employees with two shifts of a roster, and a subject of 65 bytes.
pub(super) const PARTS: &[(&str, &str)] = &[
    (
        "T",
        r#"{"format":1,"domain":"timetable","settings":{"steps":0},"facts":{"timeslot":["#,
    ),
    ("s1", r#"{"id":1,"day":1,"start":480,"end":540}"#),
    ("s2", r#"{"id":2,"day":1,"start":540,"end":600}"#),
    ("R", r#"],"room":["#),
    ("r1", r#"{"id":1,"capacity":30}"#),
    ("L", r#"],"lesson":["#),
    (
        "a",
        r#"{"id":1,"subject":"Maths","teacher":"Ada","group":"9A","size":20}"#,
    ),
    (
        "b",
        r#"{"id":2,"subject":"Physics","teacher":"Ben","group":"9B","size":20}"#,
    ),
    ("E", "]}}"),
    ("Z", "0hard/0medium/0soft"),
    (
        "TZ",
        r#"rule room_conflict 0 0hard/0medium/0soft
rule teacher_conflict 0 0hard/0medium/0soft
rule group_conflict 0 0hard/0medium/0soft
rule room_size 0 0hard/0medium/0soft
rule teacher_away 0 0hard/0medium/0soft
rule group_load 0 0hard/0medium/0soft
rule teacher_room 0 0hard/0medium/0soft
rule teacher_chain 0 0hard/0medium/0soft
rule subject_repeat 0 0hard/0medium/0soft"#,
    ),
    (
        "TZ1",
        r#"rule teacher_conflict 0 0hard/0medium/0soft
rule group_conflict 0 0hard/0medium/0soft
rule room_size 0 0hard/0medium/0soft
rule teacher_away 0 0hard/0medium/0soft
rule group_load 0 0hard/0medium/0soft
rule teacher_room 0 0hard/0medium/0soft
rule teacher_chain 0 0hard/0medium/0soft
rule subject_repeat 0 0hard/0medium/0soft"#,
    ),
    (
        "TZ5",
        r#"rule group_load 0 0hard/0medium/0soft
rule teacher_room 0 0hard/0medium/0soft
rule teacher_chain 0 0hard/0medium/0soft
rule subject_repeat 0 0hard/0medium/0soft"#,
    ),
    (
        "RZ",
        r#"rule skill 0 0hard/0medium/0soft
rule overlap 0 0hard/0medium/0soft
rule leave 0 0hard/0medium/0soft
rule rest 0 0hard/0medium/0soft
rule load 0 0hard/0medium/0soft
rule days 0 0hard/0medium/0soft
rule hours 0 0hard/0medium/0soft
rule early 0 0hard/0medium/0soft
rule late 0 0hard/0medium/0soft
rule idle 0 0hard/0medium/0soft
rule wish 0 0hard/0medium/0soft"#,
    ),
    (
        "N",
        r#""employee":[{"id":1,"skill":"nurse","max":10},{"id":2,"skill":"cook","max":10}],"shift":[{"id":1,"day":1,"start":480,"end":960,"skill":"nurse","worker":1},{"id":2,"day":3,"start":480,"end":960,"skill":"nurse","worker":2}]"#,
    ),
    (
        "M65",
        "MMMMMMMMMMMMMMMMMMMMMMMMMMMMMMMMMMMMMMMMMMMMMMMMMMMMMMMMMMMMMMMMM",
    ),
];
