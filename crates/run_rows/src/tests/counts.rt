//! Eight workers ask closures hardly more often than one.
use super::alone::{Counted, run_counted};
use super::harness::{Asked, solved};
use plan_facts::Memory;
use plan_rules::RuleFault;
use plan_session::Status;
use std::alloc::Global;
use std::sync::Wait;
use std::test::Fail;
use std::thread::Threads;

/// The most calls of a run: 20,000 for the combinations of the placing, one for each of at most 1,280 candidates, and what
/// each of 8 workers asks for its own plan and the moves that it plays. A solver that recalculates asks more.
const MOST_CALLS: u64 = 30_000;

/// Writes the digits of a number below 1,000.
fn push_number(out: &mut Vec<u8>, number: u32) -> Result<(), Memory> {
    for unit in [100, 10, 1] {
        if number >= unit {
            out.push(b"0123456789"[(number / unit % 10) as usize])?;
        }
    }
    Ok(())
}

/// Writes records from 1 to a number, with further members each.
fn push_numbered(out: &mut Vec<u8>, last: u32, members: &str) -> Result<(), Memory> {
    let mut comma = "";
    for number in 0..last {
        out.extend_from_slice(comma.as_bytes())?;
        out.extend_from_slice(b"{\"id\":")?;
        push_number(out, number + 1)?;
        out.extend_from_slice(members.as_bytes())?;
        comma = ",";
    }
    Ok(())
}

/// What a problem begins with: 20 steps of at most 64 candidates.
const BEGINNING: &[u8] = br#"{"format":1,"domain":"timetable",
"settings":{"steps":20,"select_limit":64,"selectors":["change"]},"facts":{"timeslot":["#;

/// 100 lessons to be placed in 40 timeslots and 5 rooms, and 20 steps.
fn hundred_lessons(alloc: Global) -> Result<Vec<u8>, Memory> {
    let mut out = Vec::from_slice(alloc, BEGINNING)?;
    push_numbered(&mut out, 40, r#","day":1,"start":480,"end":540}"#)?;
    out.extend_from_slice(br#"],"room":["#)?;
    push_numbered(&mut out, 5, r#","capacity":30}"#)?;
    out.extend_from_slice(br#"],"lesson":["#)?;
    let lesson = r#","subject":"Maths","teacher":"Ada","group":"9A","size":20}"#;
    push_numbered(&mut out, 100, lesson)?;
    out.extend_from_slice(b"]}}")?;
    Ok(out)
}

/// The hundred lessons by so many workers as the words say.
fn asked_of(alloc: Global, words: &'static str) -> Result<Asked, Memory> {
    let mut asked = solved(alloc, hundred_lessons(alloc)?);
    asked.words = words;
    Ok(asked)
}

/// Whether a run ended well and asked closures seldom enough.
fn is_sparing(run: &Counted) -> bool {
    run.outcome.status == Status::Ok && run.calls <= MOST_CALLS
}

/// Whether one worker and eight write the same of the hundred lessons, and ask closures seldom enough.
fn are_sparing<T: Threads + Wait + Sync>(rt: &T, alloc: Global) -> Result<bool, RuleFault> {
    let alone = run_counted(rt, alloc, &asked_of(alloc, "solve p")?)?;
    let together = run_counted(rt, alloc, &asked_of(alloc, "solve p --workers 8")?)?;
    let is_same = together.outcome.text.as_slice() == alone.outcome.text.as_slice();
    Ok(is_sparing(&alone) && is_sparing(&together) && is_same)
}

#[test]
fn workers_ask_no_closure_anew(rt: HostRuntime) -> Result<(), Fail> {
    assert!(rt; are_sparing(&rt, rt.alloc())?);
    Ok(())
}
