//! The commands whose calls fail in turn, and the texts that are due, which were worked by hand. A word in angle brackets stands for
//! a part of a text.
use super::fed_rows::EMPTY;
use super::rows::{
    ADDED, ADDED_TEXT, APART as APART_PROBLEM, APART_TEXT, FIRST_TAKEN, IDLE, MOVED, NAMED,
    TOGETHER, TOGETHER_TEXT,
};
use plan_session::Status;

/// A file that a command reads. The feed of `solve` is read while the run goes on.
#[derive(Clone, Copy)]
pub(super) enum File {
    Problem,
    Feed,
    LiveFeed,
    Journal,
}

impl File {
    /// Its name on the shelf.
    pub(super) fn name(self) -> u8 {
        match self {
            File::Problem => b'p',
            File::Feed | File::LiveFeed => b'f',
            File::Journal => b'j',
        }
    }

    /// How a run ends that can't open it or read it.
    pub(super) fn status(self) -> Status {
        match self {
            File::Problem | File::Journal => Status::Source,
            File::Feed | File::LiveFeed => Status::Feed,
        }
    }

    /// What is written where it can't be opened.
    pub(super) fn unopened(self) -> &'static str {
        match self {
            File::Problem | File::Journal => "refused source\n",
            File::Feed | File::LiveFeed => "refused feed\n",
        }
    }

    /// What is written where it can't be read: a run of no steps, whose feed is lost, has begun by then.
    pub(super) fn unread(self) -> &'static str {
        match self {
            File::LiveFeed => "run timetable\n",
            _ => self.unopened(),
        }
    }
}

/// A command: its words, the files `p`, `f` and `j`, those of them that it reads, in this order, what is written where nothing
/// fails, and how it ends.
#[derive(Drop)]
pub(super) struct Command {
    pub(super) words: &'static str,
    pub(super) problem: &'static str,
    pub(super) feed: &'static str,
    pub(super) journal: &'static str,
    pub(super) reads: &'static [File],
    pub(super) text: &'static str,
    pub(super) status: Status,
}

/// Two lessons that are placed side by side.
pub(super) const APART: Command = Command {
    words: "solve p",
    problem: APART_PROBLEM,
    feed: "",
    journal: "",
    reads: &[File::Problem],
    text: APART_TEXT,
    status: Status::Ok,
};

/// Two rooms that come, and four lines that name nothing or are no change: each line of the feed, beside the words that tell what became
/// of it.
pub(super) const SIX_LINES: [(&str, &str); 6] = [
    (
        r#"{"do":"add","class":"room","fields":{"capacity":5}}"#,
        "applied room#2",
    ),
    (
        r#"{"do":"add","class":"room","fields":{"capacity":5}}"#,
        "applied room#3",
    ),
    (
        r#"{"do":"remove","class":"room","id":9}"#,
        "refused no_such_fact",
    ),
    (
        r#"{"do":"add","class":"rum","fields":{}}"#,
        "refused unknown_class",
    ),
    (
        r#"{"do":"alter","class":"room","id":2,"fields":{"size":1}}"#,
        "refused bad_field",
    ),
    ("{", "refused syntax json"),
];

pub(super) const COMMANDS: &[Command] = &[
    // Two lessons that must share a slot and a room.
    Command {
        words: "solve p",
        problem: TOGETHER,
        feed: "",
        journal: "",
        reads: &[File::Problem],
        text: TOGETHER_TEXT,
        status: Status::Ok,
    },
    // A step by two workers: its first candidate moves the second shift to the nurse, who has the first.
    Command {
        words: "solve p --workers 2 --buffer 4",
        problem: FIRST_TAKEN,
        feed: "",
        journal: "",
        reads: &[File::Problem],
        text: MOVED,
        status: Status::Ok,
    },
    // A feed of two rooms, and of four lines that name nothing or are no change.
    Command {
        words: "solve p --feed f",
        problem: EMPTY,
        feed: r#"{"do":"add","class":"room","fields":{"capacity":5}}
{"do":"add","class":"room","fields":{"capacity":5}}
{"do":"remove","class":"room","id":9}
{"do":"add","class":"rum","fields":{}}
{"do":"alter","class":"room","id":2,"fields":{"size":1}}
{"#,
        journal: "",
        reads: &[File::Problem, File::LiveFeed],
        text: r#"run timetable
leg 0
change 1 0 applied room#2
change 2 0 applied room#3
change 3 0 refused no_such_fact
change 4 0 refused unknown_class
change 5 0 refused bad_field
change 6 0 refused syntax json
start <Z>
best <Z>
<TZ>
end
"#,
        status: Status::Ok,
    },
    // Each line of the feed but the last has something wrong with it; the last alters a room in nothing.
    Command {
        words: "solve p --feed f --workers 2",
        problem: "<T><s1><R><r1><L><a><E>",
        feed: r#"[]
{"class":"room"}
{"do":"add"}
{"do":"remove","class":"room","id":0}
{"do":"alter","class":"room","id":1}
{"do":"assign","class":"lesson","id":1}
{"do":"add","class":"room","id":1,"fields":{"capacity":1}}
{"do":"add","class":"room","fields":{}}
{"do":"assign","class":"lesson","id":1,"values":{"slot":99}}
{"do":"alter","class":"room","id":1,"fields":{}}
"#,
        journal: "",
        reads: &[File::Problem, File::LiveFeed],
        text: r#"run timetable
leg 0
change 1 0 refused syntax object
change 2 0 refused syntax do
change 3 0 refused syntax class
change 4 0 refused syntax id
change 5 0 refused syntax fields
change 6 0 refused syntax values
change 7 0 refused syntax member
change 8 0 refused bad_field
change 9 0 refused bad_value
change 10 0 applied room#1
place lesson#1 slot=1 room=1 <Z>
start <Z>
best <Z>
lesson#1 slot=1 room=1
<TZ>
end
"#,
        status: Status::Ok,
    },
    // A room that comes behind the first step, and a lesson behind the last.
    Command {
        words: "replay p --feed f --journal j",
        problem: IDLE,
        feed: ADDED,
        journal: NAMED,
        reads: &[File::Problem, File::Feed, File::Journal],
        text: ADDED_TEXT,
        status: Status::Ok,
    },
    Command {
        words: "score p",
        problem: TOGETHER,
        feed: "",
        journal: "",
        reads: &[File::Problem],
        text: "score -4init/<Z>\n<TZ>\nend\n",
        status: Status::Ok,
    },
    // Two lessons in one room at one time: each stands in the match.
    Command {
        words: "explain p",
        problem: r#"<T><s1><R><r1><L>{"id":1,"subject":"Maths","teacher":"Ada","group":"9A","size":20,"slot":1,"room":1},{"id":2,"subject":"Physics","teacher":"Ben","group":"9B","size":20,"slot":1,"room":1}<E>"#,
        feed: "",
        journal: "",
        reads: &[File::Problem],
        text: r#"score -1hard/0medium/0soft
rule room_conflict 1 -1hard/0medium/0soft
match -1hard/0medium/0soft lesson#1 lesson#2
<TZ1>
indict lesson#1 1 -1hard/0medium/0soft
indict lesson#2 1 -1hard/0medium/0soft
end
"#,
        status: Status::Ok,
    },
    Command {
        words: "tour 0 1",
        problem: "",
        feed: "",
        journal: "",
        reads: &[],
        text: "tour 0 1\nfacts 3\nlegs 1\nsteps 5\nwon 0\nbest <Z>\nend\n",
        status: Status::Ok,
    },
    Command {
        words: "gen 0 1",
        problem: "",
        feed: "",
        journal: "",
        reads: &[],
        text: r#"{"domain":"timetable","facts":{"lesson":[{"group":"G0","id":1,"size":20,"subject":"S0","teacher":"T0"}],"room":[{"capacity":30,"id":1}],"timeslot":[{"day":1,"end":540,"id":1,"start":480}]},"format":1,"settings":{"seed":0,"steps":5}}
"#,
        status: Status::Ok,
    },
    // Words that are no command, a file that isn't there, a problem and a journal that are refused.
    Command {
        words: "swim p",
        problem: "",
        feed: "",
        journal: "",
        reads: &[],
        text: "refused usage\n",
        status: Status::Usage,
    },
    Command {
        words: "solve q",
        problem: "",
        feed: "",
        journal: "",
        reads: &[],
        text: "refused source\n",
        status: Status::Source,
    },
    Command {
        words: "explain p",
        problem: "{",
        feed: "",
        journal: "",
        reads: &[File::Problem],
        text: "refused problem json\n",
        status: Status::Problem,
    },
    Command {
        words: "solve p --feed q",
        problem: EMPTY,
        feed: "",
        journal: "",
        reads: &[File::Problem],
        text: "refused feed\n",
        status: Status::Feed,
    },
    Command {
        words: "replay p --feed f --journal j",
        problem: EMPTY,
        feed: "{\n",
        journal: "change 1 1 x\n",
        reads: &[File::Problem, File::Feed, File::Journal],
        text: "refused journal 1\n",
        status: Status::Journal,
    },
];

/// A run of two steps with a feed of one line. At which boundary the line is taken is up to the clock; `text` has it at the first one.
pub(super) const SEARCHED: Command = Command {
    words: "solve p --feed f --workers 2",
    problem: r#"{"format":1,"domain":"timetable","settings":{"steps":2},"facts":{"timeslot":[<s1><R><r1><L><E>"#,
    feed: r#"{"do":"add","class":"room","fields":{"capacity":5}}
"#,
    journal: "",
    reads: &[File::Problem, File::LiveFeed],
    text: TAKEN_FIRST,
    status: Status::Ok,
};

/// Its text where the line is taken at the first boundary.
const TAKEN_FIRST: &str = r#"run timetable
leg 0
change 1 0 applied room#2
start <Z>
step 1 none <Z>
step 2 none <Z>
best <Z>
<TZ>
end
"#;

/// The texts that it may have.
pub(super) const SEARCHED_TEXTS: [&str; 3] = [
    TAKEN_FIRST,
    r#"run timetable
leg 0
start <Z>
step 1 none <Z>
leg 1
change 1 1 applied room#2
start <Z>
step 2 none <Z>
best <Z>
<TZ>
end
"#,
    r#"run timetable
leg 0
start <Z>
step 1 none <Z>
step 2 none <Z>
leg 2
change 1 2 applied room#2
start <Z>
best <Z>
<TZ>
end
"#,
];
