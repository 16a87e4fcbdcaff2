//! Replays of a problem without lessons: what they read, and what is written.
use super::harness::Lost;
use plan_session::Status;

/// What a replay reads: the files `p`, `f` and `j`, and the call that fails; then what is written, and the status.
#[derive(Clone, Copy)]
pub(super) struct Replay {
    pub(super) problem: &'static str,
    pub(super) feed: &'static str,
    pub(super) journal: &'static str,
    pub(super) lost: Lost,
    pub(super) text: &'static str,
    pub(super) status: Status,
}

/// A slot, a room, no lesson, and three steps.
const IDLE: &str = r#"{"format":1,"domain":"school","settings":{"steps":3},"facts":{
"timeslot":[{"id":1,"day":1}],"room":[{"id":1,"capacity":30}],"lesson":[]}}"#;

/// A feed of two lines: a room and a lesson.
const ADDED: &str = r#"{"do":"add","class":"room","fields":{"capacity":10}}
{"do":"add","class":"lesson","fields":{"subject":"M"}}
"#;

/// The journal for which both are taken.
const NAMED: &str = "change 1 1 x\nchange 2 3 x\n";

/// A replay of the two lines in which nothing fails and whose journal is refused.
pub(super) fn refused(journal: &'static str, text: &'static str) -> Replay {
    Replay {
        problem: IDLE,
        feed: ADDED,
        journal,
        lost: Lost::Nothing,
        text,
        status: Status::Journal,
    }
}

/// A replay of the two lines whose journal would be accepted, in which one of the opens fails.
pub(super) fn unopened(open: u32, text: &'static str, status: Status) -> Replay {
    Replay {
        problem: IDLE,
        feed: ADDED,
        journal: NAMED,
        lost: Lost::Open(open),
        text,
        status,
    }
}

/// Journals of the two lines, and the line that refuses each.
pub(super) const JOURNALS: [(&str, &str); 8] = [
    ("change 01 0 x\n", "refused journal 1\n"),
    ("change 1 0\n", "refused journal 1\n"),
    ("change 2 0 x\n", "refused journal 1\n"),
    ("change 1 2 x\nchange 2 1 x\n", "refused journal 2\n"),
    ("", "refused journal 1\n"),
    (
        "hello\nchange 1 0 x\nchange 2 3 x\nchange 3 3 x\n",
        "refused journal 5\n",
    ),
    ("change 1 9 x\n", "refused journal 1\n"),
    ("change 1 1 x\n", "refused journal 2\n"),
];

/// The open that fails, what is written then, and the status.
pub(super) const OPENS: [(u32, &str, Status); 3] = [
    (0, "refused source\n", Status::Source),
    (1, "refused feed\n", Status::Feed),
    (2, "refused source\n", Status::Source),
];

/// Replays of which more than one file would be refused, and of an empty feed.
pub(super) const REPLAYS: [Replay; 3] = [
    // A feed that fails while it is read, before a journal that would be refused.
    Replay {
        problem: IDLE,
        feed: ADDED,
        journal: "change 1 9 x\n",
        lost: Lost::Take(b'f', 1),
        text: "refused feed\n",
        status: Status::Feed,
    },
    // A problem that is refused, before a feed that can't be opened.
    Replay {
        problem: "{",
        feed: ADDED,
        journal: NAMED,
        lost: Lost::Open(1),
        text: "refused problem json\n",
        status: Status::Problem,
    },
    // An empty feed takes an empty journal, and no other.
    Replay {
        problem: IDLE,
        feed: "",
        journal: NAMED,
        lost: Lost::Nothing,
        text: "refused journal 3\n",
        status: Status::Journal,
    },
];

/// Words that are no command.
pub(super) const UNKNOWN: [&str; 14] = [
    "solve -p",
    "solve p --",
    "solve @ --feed @",
    "solve p --workers 02",
    "solve p --workers 1 --workers 1",
    "solve p --buffer 1025",
    "gen 0 0",
    "gen 4294967296 1",
    "replay p",
    "replay p --feed f",
    "replay p --journal j",
    "replay p --feed f --journal j --workers 1",
    "replay @ --feed f --journal @",
    "replay p q --feed f --journal j",
];
