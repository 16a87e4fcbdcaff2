//! Runs of the domains that come with the solver, whose texts were worked by hand.
use super::fed_rows::{EMPTY, FED, ROOM};
use super::harness::{Asked, Lost, filled, first_wrong, outcomes, solved};
use super::rows::{
    ADDED, ADDED_TEXT, APART, FIRST_OF_TWO, FIRST_TAKEN, HANDS, IDLE, MOVED, NAMED, REFUSED, ROWS,
};
use itoa::Buffer;
use plan_facts::Memory;
use plan_session::Status;
use std::alloc::Global;
use std::test::Fail;

/// `solve` of a problem, and what is due of it.
fn asked_of(
    alloc: Global,
    words: &'static str,
    problem: &str,
    text: &str,
    status: Status,
) -> Result<Asked, Memory> {
    let mut one = solved(alloc, filled(alloc, problem)?);
    one.words = words;
    one.text = filled(alloc, text)?;
    one.status = status;
    Ok(one)
}

fn asked_rows(alloc: Global) -> Result<Vec<Asked>, Memory> {
    let mut asked = Vec::new(alloc);
    for case in ROWS {
        asked.push(asked_of(alloc, case.words, case.problem, case.text, case.status)?)?;
    }
    Ok(asked)
}

#[test]
fn runs_print_what_was_worked_by_hand(rt: HostRuntime) -> Result<(), Fail> {
    let asked = asked_rows(rt.alloc())?;
    let wrong = first_wrong(&rt, rt.alloc(), &asked)?;
    assert!(rt; wrong == None, "{wrong:?}");
    Ok(())
}

/// A replay of a room and a lesson that come, by a journal.
fn replayed(alloc: Global, journal: &str) -> Result<Asked, Memory> {
    let mut one = asked_of(
        alloc,
        "replay p --feed f --journal j",
        IDLE,
        ADDED_TEXT,
        Status::Ok,
    )?;
    one.feed = Vec::from_slice(alloc, ADDED.as_bytes())?;
    one.journal = filled(alloc, journal)?;
    Ok(one)
}

/// The journal that names the boundaries, and the text of the run itself as its journal.
fn asked_replays(alloc: Global) -> Result<Vec<Asked>, Memory> {
    let mut asked = Vec::new(alloc);
    for journal in [NAMED, ADDED_TEXT] {
        asked.push(replayed(alloc, journal)?)?;
    }
    Ok(asked)
}

#[test]
fn a_replay_takes_each_line_at_its_boundary(rt: HostRuntime) -> Result<(), Fail> {
    let asked = asked_replays(rt.alloc())?;
    let wrong = first_wrong(&rt, rt.alloc(), &asked)?;
    assert!(rt; wrong == None, "{wrong:?}");
    Ok(())
}

/// `solve` of a problem with a feed, and the text that is due.
fn fed(alloc: Global, problem: &str, feed: &[u8], text: &str) -> Result<Asked, Memory> {
    let mut one = asked_of(alloc, "solve p --feed f", problem, text, Status::Ok)?;
    one.feed = Vec::from_slice(alloc, feed)?;
    Ok(one)
}

/// Each run with a feed that gives so many bytes a take.
fn asked_fed(alloc: Global, take: usize) -> Result<Vec<Asked>, Memory> {
    let mut asked = Vec::new(alloc);
    for case in FED {
        let mut one = fed(alloc, case.problem, case.feed.as_bytes(), case.text)?;
        one.take = take;
        asked.push(one)?;
    }
    Ok(asked)
}

#[test]
fn a_run_of_no_steps_takes_its_feed_at_its_one_boundary(rt: HostRuntime) -> Result<(), Fail> {
    for take in [1, 3, 4096] {
        let asked = asked_fed(rt.alloc(), take)?;
        let wrong = first_wrong(&rt, rt.alloc(), &asked)?;
        assert!(rt; wrong == None, "{take} {wrong:?}");
    }
    Ok(())
}

/// A feed whose first line has 65,537 bytes, before a room that comes.
const LONG: &str =
    "run timetable\nleg 0\nchange 1 0 refused long_line\nchange 2 0 applied room#2\nstart <Z>\nbest <Z>\n<TZ>\nend\n";

/// A line of 65,537 bytes and then a room.
fn asked_long(alloc: Global) -> Result<Asked, Memory> {
    let mut long = vec![in alloc; b'x'; 65_537]?;
    long.push(b'\n')?;
    long.extend_from_slice(ROOM.as_bytes())?;
    fed(alloc, EMPTY, &long, LONG)
}

/// What is written of a feed of 4,096 empty lines.
fn many_refused(alloc: Global) -> Result<Vec<u8>, Memory> {
    let mut text = Vec::from_slice(alloc, b"run timetable\nleg 0\n")?;
    for line in 1..=4096u32 {
        text.extend_from_slice(b"change ")?;
        text.extend_from_slice(Buffer::new().format(line).as_bytes())?;
        text.extend_from_slice(b" 0 refused syntax json\n")?;
    }
    text.extend_from_slice(&filled(alloc, "start <Z>\nbest <Z>\n<TZ>\nend\n")?)?;
    Ok(text)
}

/// 4,096 empty lines.
fn asked_many(alloc: Global) -> Result<Asked, Memory> {
    let many = vec![in alloc; b'\n'; 4096]?;
    let mut one = fed(alloc, EMPTY, &many, "")?;
    one.text = many_refused(alloc)?;
    Ok(one)
}

/// A line more.
fn asked_more(alloc: Global) -> Result<Asked, Memory> {
    let more = vec![in alloc; b'\n'; 4097]?;
    let mut one = fed(alloc, EMPTY, &more, "run timetable\n")?;
    one.status = Status::FeedTooLong;
    Ok(one)
}

#[test]
fn long_feeds_keep_the_limits(rt: HostRuntime) -> Result<(), Fail> {
    let alloc = rt.alloc();
    let asked = [asked_long(alloc)?, asked_many(alloc)?, asked_more(alloc)?];
    let wrong = first_wrong(&rt, alloc, &asked)?;
    assert!(rt; wrong == None, "{wrong:?}");
    Ok(())
}

/// A feed that can't be opened.
fn asked_closed(alloc: Global) -> Result<Asked, Memory> {
    let mut closed = fed(alloc, APART, b"", "refused feed\n")?;
    closed.lost = Lost::Open(1);
    closed.status = Status::Feed;
    Ok(closed)
}

/// A feed that fails at its second take.
fn asked_broken(alloc: Global) -> Result<Asked, Memory> {
    let mut broken = fed(alloc, IDLE, ROOM.as_bytes(), "")?;
    broken.lost = Lost::Take(b'f', 1);
    Ok(broken)
}

/// Whether the run whose feed fails at its second take ends for it, and wrote its first line.
fn is_broken(text: &[u8], status: Status) -> bool {
    text.starts_with(b"run timetable\n") && status == Status::Feed
}

#[test]
fn a_feed_that_is_lost_ends_the_run(rt: HostRuntime) -> Result<(), Fail> {
    let alloc = rt.alloc();
    let asked = [asked_closed(alloc)?, asked_broken(alloc)?];
    let outcomes = outcomes(&rt, alloc, &asked)?;
    let [closed, broken] = outcomes.as_slice() else {
        return Err("there are other runs".into());
    };
    assert!(rt; closed.is_due && is_broken(&broken.text, broken.status));
    Ok(())
}

/// All workers and buffers solve a problem, and the same text is due of each.
fn asked_hands(alloc: Global, problem: &str) -> Result<Vec<Asked>, Memory> {
    let mut asked = Vec::new(alloc);
    for words in HANDS {
        asked.push(asked_of(alloc, words, problem, MOVED, Status::Ok)?)?;
    }
    Ok(asked)
}

#[test]
fn any_workers_and_buffers_print_the_same(rt: HostRuntime) -> Result<(), Fail> {
    for problem in [FIRST_TAKEN, FIRST_OF_TWO] {
        let asked = asked_hands(rt.alloc(), problem)?;
        let wrong = first_wrong(&rt, rt.alloc(), &asked)?;
        assert!(rt; wrong == None, "{wrong:?}");
    }
    Ok(())
}

/// The line that refuses a problem for a cause.
fn refusal(alloc: Global, cause: &str) -> Result<Vec<u8>, Memory> {
    let mut line = Vec::from_slice(alloc, b"refused problem ")?;
    line.extend_from_slice(cause.as_bytes())?;
    line.push(b'\n')?;
    Ok(line)
}

fn asked_refused(alloc: Global) -> Result<Vec<Asked>, Memory> {
    let mut asked = Vec::new(alloc);
    for (problem, cause) in REFUSED {
        let mut one = asked_of(alloc, "solve p", problem, "", Status::Problem)?;
        one.text = refusal(alloc, cause)?;
        asked.push(one)?;
    }
    Ok(asked)
}

#[test]
fn refused_problems_name_their_first_fault(rt: HostRuntime) -> Result<(), Fail> {
    let asked = asked_refused(rt.alloc())?;
    let wrong = first_wrong(&rt, rt.alloc(), &asked)?;
    assert!(rt; wrong == None, "{wrong:?}");
    Ok(())
}

/// A problem of these bytes that is no JSON.
fn asked_bytes(alloc: Global, problem: Vec<u8>) -> Result<Asked, Memory> {
    let mut one = solved(alloc, problem);
    one.text = Vec::from_slice(alloc, b"refused problem json\n")?;
    one.status = Status::Problem;
    Ok(one)
}

/// 200 arrays in one another.
fn nested(alloc: Global) -> Result<Vec<u8>, Memory> {
    let mut nested = Vec::new(alloc);
    for byte in [b'[', b']'] {
        for _ in 0..200 {
            nested.push(byte)?;
        }
    }
    Ok(nested)
}

/// A problem in which a call fails, so that this is due.
fn asked_without(alloc: Global, lost: Lost, text: &str, status: Status) -> Result<Asked, Memory> {
    let mut one = asked_of(alloc, "solve p", APART, text, status)?;
    one.lost = lost;
    Ok(one)
}

#[test]
fn hostile_bytes_and_calls_end_the_run(rt: HostRuntime) -> Result<(), Fail> {
    let alloc = rt.alloc();
    let asked = [
        asked_bytes(alloc, Vec::from_slice(alloc, b"\xff")?)?,
        asked_bytes(alloc, nested(alloc)?)?,
        asked_without(alloc, Lost::Open(0), "refused source\n", Status::Source)?,
        asked_without(alloc, Lost::Put(0), "", Status::Write)?,
    ];
    let wrong = first_wrong(&rt, alloc, &asked)?;
    assert!(rt; wrong == None, "{wrong:?}");
    Ok(())
}

/// Writes the digits of an id, from 1,000,001 on.
fn push_id(out: &mut Vec<u8>, place: u32) -> Result<(), Memory> {
    out.push(b'1')?;
    for unit in [100_000, 10_000, 1000, 100, 10, 1] {
        out.push(b"0123456789"[(place / unit % 10) as usize])?;
    }
    Ok(())
}

/// Writes so many records, with further members each.
fn push_records(out: &mut Vec<u8>, count: u32, members: &[u8]) -> Result<(), Memory> {
    let mut comma: &[u8] = b"";
    for place in 0..count {
        out.extend_from_slice(comma)?;
        out.extend_from_slice(b"{\"id\":")?;
        push_id(out, place)?;
        out.extend_from_slice(members)?;
        comma = b",";
    }
    Ok(())
}

/// A problem of so many timeslots and rooms, and no lesson.
fn wide_problem(alloc: Global, slots: u32, rooms: u32) -> Result<Vec<u8>, Memory> {
    let mut out = filled(alloc, "<T>")?;
    push_records(&mut out, slots, b",\"day\":1,\"start\":480,\"end\":540}")?;
    out.extend_from_slice(b"],\"room\":[")?;
    push_records(&mut out, rooms, b",\"capacity\":30}")?;
    out.extend_from_slice(b"],\"lesson\":[]}}")?;
    Ok(out)
}

/// So many timeslots and rooms, what is written of them, and the status.
const WIDE: &[(u32, u32, &str, Status)] = &[
    (
        0,
        100_000,
        "run timetable\nleg 0\nstart <Z>\nbest <Z>\n<TZ>\nend\n",
        Status::Ok,
    ),
    (
        0,
        100_001,
        "refused problem too_many_facts\n",
        Status::Problem,
    ),
    (
        300,
        300,
        "refused problem range_product lesson\n",
        Status::Problem,
    ),
];

fn asked_wide(alloc: Global) -> Result<Vec<Asked>, Memory> {
    let mut asked = Vec::new(alloc);
    for (slots, rooms, text, status) in WIDE {
        let mut one = asked_of(alloc, "solve p", "", text, *status)?;
        one.problem = wide_problem(alloc, *slots, *rooms)?;
        asked.push(one)?;
    }
    Ok(asked)
}

#[test]
fn wide_problems_keep_the_limits(rt: HostRuntime) -> Result<(), Fail> {
    let asked = asked_wide(rt.alloc())?;
    let wrong = first_wrong(&rt, rt.alloc(), &asked)?;
    assert!(rt; wrong == None, "{wrong:?}");
    Ok(())
}
