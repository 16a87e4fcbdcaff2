//! Commands over memory in a domain of one rule that asks no closure.
ghost use Rattle.std.specs.Prelude.{IfOk};

use super::harness::{Asked, Lost, solved};
use super::replays::{JOURNALS, OPENS, REPLAYS, Replay, UNKNOWN, refused, unopened};
use super::silent::{Silent, first_wrong_among};
use plan_facts::Kind::{Name, Number};
use plan_facts::{List, Memory, Text, is_name};
use plan_json::Domain;
use plan_rules::{Head, Kept, RuleDef, Rules};
use plan_scores::Level;
use plan_session::Status;
use std::alloc::Global;
use std::sync::Wait;
use std::test::Fail;
use std::thread::Threads;
use test_plans::VarSketch::Var;
use test_plans::{ClassSketch, schema_of};

const LESSON: u8 = 2;

/// Slots, rooms, and lessons that have a slot and a room.
const CLASSES: &[ClassSketch] = &[
    ClassSketch("timeslot", &[("day", Number)], &[]),
    ClassSketch("room", &[("capacity", Number)], &[]),
    ClassSketch(
        "lesson",
        &[("subject", Name)],
        &[Var("slot", 0), Var("room", 1)],
    ),
];

/// One rule, which every placed lesson matches, a penalty of weight 1.
fn defs(alloc: Global) -> Result<List<RuleDef>, Memory> {
    let mut defs = List::new(alloc);
    defs.push(RuleDef {
        name: Text::from_slice(alloc, b"any_lesson")?,
        level: Level::Hard,
        reward: false,
        weight: 1,
        weigh: None,
        head: Head::ForEach(LESSON),
        nodes: List::new(alloc),
    })?;
    Ok(defs)
}

/// The domain `school`.
fn school(alloc: Global) -> Result<Domain<Silent>, Fail>
    ensures keeps { IfOk result (λ domain. ⟦<Rules<Silent> as Kept>⟧.keeps domain.rules) }
{
    let name = Text::from_slice(alloc, b"school")?;
    if !is_name(name.as_slice()) {
        return Err("no name".into());
    }
    let schema = schema_of(alloc, CLASSES)?;
    let rules = Rules::build(
        alloc,
        &schema,
        defs(alloc)?,
        List::new(alloc),
        List::new(alloc),
        List::new(alloc),
        List::new(alloc),
    )?;
    Ok(Domain::new(name, schema, rules, Vec::new(alloc)))
}

/// The first of these runs in the domain `school` that doesn't write and end as is due.
fn first_wrong<T: Threads + Wait + Sync>(
    threads: &T,
    alloc: Global,
    asked: &[Asked],
) -> Result<Option<usize>, Fail> {
    let domains = [school(alloc)?];
    Ok(first_wrong_among(threads, alloc, asked, &domains)?)
}

/// The program's words, the text of `p` and the call that fails; then what is written, and the status.
#[derive(Clone, Copy)]
struct Case {
    words: &'static str,
    problem: &'static str,
    lost: Lost,
    text: &'static str,
    status: Status,
}

/// A command over a shelf whose takes give at most 50 bytes.
fn asked_case(alloc: Global, case: &Case) -> Result<Asked, Memory> {
    let mut asked = solved(alloc, Vec::from_slice(alloc, case.problem.as_bytes())?);
    asked.words = case.words;
    asked.lost = case.lost;
    asked.take = 50;
    asked.text = Vec::from_slice(alloc, case.text.as_bytes())?;
    asked.status = case.status;
    Ok(asked)
}

/// A replay over such a shelf.
fn asked_replay(alloc: Global, replay: &Replay) -> Result<Asked, Memory> {
    let case = Case {
        words: "replay p --feed f --journal j",
        problem: replay.problem,
        lost: replay.lost,
        text: replay.text,
        status: replay.status,
    };
    let mut asked = asked_case(alloc, &case)?;
    asked.feed = Vec::from_slice(alloc, replay.feed.as_bytes())?;
    asked.journal = Vec::from_slice(alloc, replay.journal.as_bytes())?;
    Ok(asked)
}

/// A lesson that is placed, and one that isn't.
const LESSONS: &str = r#"{"format":1,"domain":"school","settings":{"steps":0},"facts":{
"timeslot":[{"id":1,"day":1},{"id":2,"day":2}],"room":[{"id":7,"capacity":30}],
"lesson":[{"id":4,"subject":"Physics","slot":2,"room":7},{"id":1,"subject":"Maths"}]}}"#;

/// No facts, and one step.
const STEPS: &str = r#"{"format":1,"domain":"school","settings":{"steps":1},"facts":{}}"#;

/// A run of one step of nothing.
const STEPPED: &str = r#"run school
leg 0
start 0hard/0medium/0soft
step 1 none 0hard/0medium/0soft
best 0hard/0medium/0soft
rule any_lesson 0 0hard/0medium/0soft
end
"#;

/// How the lessons are placed.
const SOLVED: &str = r#"run school
leg 0
place lesson#1 slot=1 room=7 -2hard/0medium/0soft
start -2hard/0medium/0soft
best -2hard/0medium/0soft
lesson#1 slot=1 room=7
lesson#4 slot=2 room=7
rule any_lesson 2 -2hard/0medium/0soft
match -1hard/0medium/0soft lesson#1
match -1hard/0medium/0soft lesson#4
end
"#;

/// What they score as they are read.
const SCORED: &str = r#"score -2init/-1hard/0medium/0soft
rule any_lesson 1 -1hard/0medium/0soft
end
"#;

/// What explains that.
const EXPLAINED: &str = r#"score -2init/-1hard/0medium/0soft
rule any_lesson 1 -1hard/0medium/0soft
match -1hard/0medium/0soft lesson#4
indict lesson#4 1 -1hard/0medium/0soft
end
"#;

/// The smallest generated problem.
const GENERATED: &str =
    r#"{"domain":"timetable","facts":{"lesson":[{"group":"G0","id":1,"size":20,"subject":"S0","teacher":"T0"}],"room":[{"capacity":30,"id":1}],"timeslot":[{"day":1,"end":540,"id":1,"start":480}]},"format":1,"settings":{"seed":0,"steps":5}}
"#;

const CASES: [Case; 13] = [
    Case {
        words: "gen 0 1",
        problem: LESSONS,
        lost: Lost::Open(0),
        text: GENERATED,
        status: Status::Ok,
    },
    Case {
        words: "solve p",
        problem: LESSONS,
        lost: Lost::Nothing,
        text: SOLVED,
        status: Status::Ok,
    },
    Case {
        words: "score p",
        problem: LESSONS,
        lost: Lost::Nothing,
        text: SCORED,
        status: Status::Ok,
    },
    Case {
        words: "solve p",
        problem: STEPS,
        lost: Lost::Nothing,
        text: STEPPED,
        status: Status::Ok,
    },
    Case {
        words: "solve p --workers 2 --buffer 1",
        problem: STEPS,
        lost: Lost::Nothing,
        text: STEPPED,
        status: Status::Ok,
    },
    Case {
        words: "solve p --workers 16 --buffer 1024",
        problem: STEPS,
        lost: Lost::Nothing,
        text: STEPPED,
        status: Status::Ok,
    },
    Case {
        words: "solve p",
        problem: "{",
        lost: Lost::Nothing,
        text: "refused problem json\n",
        status: Status::Problem,
    },
    Case {
        words: "score q",
        problem: LESSONS,
        lost: Lost::Nothing,
        text: "refused source\n",
        status: Status::Source,
    },
    Case {
        words: "score p",
        problem: LESSONS,
        lost: Lost::Open(0),
        text: "refused source\n",
        status: Status::Source,
    },
    Case {
        words: "score p",
        problem: LESSONS,
        lost: Lost::Put(0),
        text: "",
        status: Status::Write,
    },
    Case {
        words: "explain p",
        problem: LESSONS,
        lost: Lost::Nothing,
        text: EXPLAINED,
        status: Status::Ok,
    },
    Case {
        words: "tour 0 1",
        problem: LESSONS,
        lost: Lost::Open(0),
        text: "refused problem domain\n",
        status: Status::Problem,
    },
    Case {
        words: "",
        problem: LESSONS,
        lost: Lost::Nothing,
        text: "refused usage\n",
        status: Status::Usage,
    },
];

fn all_cases(alloc: Global) -> Result<Vec<Asked>, Memory> {
    let mut all = Vec::new(alloc);
    for case in &CASES {
        all.push(asked_case(alloc, case)?)?;
    }
    Ok(all)
}

#[test]
fn runs_commands_over_memory(rt: HostRuntime) -> Result<(), Fail> {
    let asked = all_cases(rt.alloc())?;
    let wrong = first_wrong(&rt, rt.alloc(), &asked)?;
    assert!(rt; wrong == None, "{wrong:?}");
    Ok(())
}

/// Words that are no command.
fn all_unknown(alloc: Global) -> Result<Vec<Asked>, Memory> {
    let mut all = Vec::new(alloc);
    for words in UNKNOWN {
        let case = Case {
            words,
            problem: LESSONS,
            lost: Lost::Nothing,
            text: "refused usage\n",
            status: Status::Usage,
        };
        all.push(asked_case(alloc, &case)?)?;
    }
    Ok(all)
}

#[test]
fn refuses_words_that_are_no_command(rt: HostRuntime) -> Result<(), Fail> {
    let asked = all_unknown(rt.alloc())?;
    let wrong = first_wrong(&rt, rt.alloc(), &asked)?;
    assert!(rt; wrong == None, "{wrong:?}");
    Ok(())
}

fn all_journals(alloc: Global) -> Result<Vec<Asked>, Memory> {
    let mut all = Vec::new(alloc);
    for (journal, text) in JOURNALS {
        all.push(asked_replay(alloc, &refused(journal, text))?)?;
    }
    Ok(all)
}

#[test]
fn refused_journals_name_their_first_wrong_line(rt: HostRuntime) -> Result<(), Fail> {
    let asked = all_journals(rt.alloc())?;
    let wrong = first_wrong(&rt, rt.alloc(), &asked)?;
    assert!(rt; wrong == None, "{wrong:?}");
    Ok(())
}

fn all_opens(alloc: Global) -> Result<Vec<Asked>, Memory> {
    let mut all = Vec::new(alloc);
    for (open, text, status) in OPENS {
        all.push(asked_replay(alloc, &unopened(open, text, status))?)?;
    }
    Ok(all)
}

#[test]
fn each_file_of_a_replay_may_fail_to_open(rt: HostRuntime) -> Result<(), Fail> {
    let asked = all_opens(rt.alloc())?;
    let wrong = first_wrong(&rt, rt.alloc(), &asked)?;
    assert!(rt; wrong == None, "{wrong:?}");
    Ok(())
}

fn all_replays(alloc: Global) -> Result<Vec<Asked>, Memory> {
    let mut all = Vec::new(alloc);
    for replay in &REPLAYS {
        all.push(asked_replay(alloc, replay)?)?;
    }
    Ok(all)
}

#[test]
fn replays_are_refused_for_the_first_of_their_files(rt: HostRuntime) -> Result<(), Fail> {
    let asked = all_replays(rt.alloc())?;
    let wrong = first_wrong(&rt, rt.alloc(), &asked)?;
    assert!(rt; wrong == None, "{wrong:?}");
    Ok(())
}

/// A replay whose feed has 4,096 empty lines and these bytes, and whose journal can't be opened.
fn asked_long(alloc: Global, more: &[u8], text: &str, status: Status) -> Result<Asked, Memory> {
    let mut lines = vec![in alloc; b'\n'; 4096]?;
    lines.extend_from_slice(more)?;
    let mut asked = solved(alloc, Vec::from_slice(alloc, STEPS.as_bytes())?);
    asked.words = "replay p --feed f --journal j";
    asked.feed = lines;
    asked.take = 50;
    asked.lost = Lost::Open(2);
    asked.text = Vec::from_slice(alloc, text.as_bytes())?;
    asked.status = status;
    Ok(asked)
}

#[test]
fn a_feed_that_is_too_long_is_refused_before_the_journal(rt: HostRuntime) -> Result<(), Fail> {
    let alloc = rt.alloc();
    let asked = [
        asked_long(alloc, b"", "refused source\n", Status::Source)?,
        asked_long(alloc, b"x", "refused feed\n", Status::FeedTooLong)?,
    ];
    let wrong = first_wrong(&rt, alloc, &asked)?;
    assert!(rt; wrong == None, "{wrong:?}");
    Ok(())
}

/// The statuses in the order of their numbers.
const STATUSES: [Status; 9] = [
    Status::Ok,
    Status::Memory,
    Status::Usage,
    Status::Source,
    Status::Problem,
    Status::Feed,
    Status::Write,
    Status::Journal,
    Status::FeedTooLong,
];

/// Whether each has its place for its number.
fn are_numbered() -> bool {
    for (place, status) in STATUSES.iter().enumerate() {
        if usize::from(status.number()) != place {
            return false;
        }
    }
    true
}

#[test]
fn ends_with_the_number_of_the_status(rt: HostRuntime) {
    assert!(rt; are_numbered());
}
