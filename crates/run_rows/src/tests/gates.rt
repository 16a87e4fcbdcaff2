//! Changes are taken while steps go on: a gate and a feed wait for each other.
ghost use Rattle.std.specs.Prelude.{All, IfOk};
ghost use Rattle.std.specs.Thread.{IsSync};

use crate::{Meeting, WaitingFeed};
use change_inbox::{Entry, Journal};
use plan_changes::Post;
use plan_facts::Memory;
use plan_json::{Domain, read_problem};
use plan_ports::MemSink;
use plan_session::{Driven, Hands, Status, drive};
use shipped_domains::{Act, Shipped, with_shipped_domains};
use std::alloc::Global;
use std::sync::Wait;
use std::test::Fail;
use std::thread::Threads;

/// A problem of five steps in which nothing is to be placed.
const PROBLEM: &[u8] =
    br#"{"format":1,"domain":"timetable","settings":{"steps":5},"facts":{"timeslot":[{"id":1,"day":1,"start":480,"end":540}],"room":[{"id":1,"capacity":30}],"lesson":[]}}"#;

const FIRST: &[u8] = b"{\"do\":\"add\",\"class\":\"room\",\"fields\":{\"capacity\":5}}\n";

const SECOND: &[u8] = b"{\"do\":\"add\",\"class\":\"room\",\"fields\":{\"capacity\":6}}\n";

/// A live run of the problem at a meeting.
#[derive(Drop)]
struct Meets<'a, T> {
    threads: &'a T,
    alloc: Global,
    meeting: &'a Meeting,
}

impl<'a, T: Threads + Wait + Sync> Act for Meets<'a, T> {
    type Answer = Result<Driven, Fail>;

    // The threads may be shared.
    ghost is_ready = { λ _. IsSync T.row };

    ghost answers = { λ _ _ _. Unit };

    fn act(self, domains: &[Domain<Shipped>]) -> Result<Driven, Fail> {
        let Ok(problem) = read_problem(self.alloc, PROBLEM, domains) else {
            return Err("the problem was refused".into());
        };
        let Some(domain) = domains.get(problem.domain) else {
            return Err("there is no such domain".into());
        };
        let hands = Hands {
            workers: 2,
            buffer: 4,
        };
        let mut feed = WaitingFeed::new(self.meeting, FIRST, SECOND);
        let mut out = MemSink::new(self.alloc, 4096, Vec::new(self.alloc));
        Ok(drive(
            self.threads,
            self.alloc,
            domain,
            problem,
            hands,
            &mut feed,
            &mut out,
            self.meeting,
        ))
    }
}

/// The boundary whose cut took the post of a line; none where no cut did.
fn boundary_of(journal: &Journal<Post>, line: u32) -> Option<u32> {
    let mut is_posted = false;
    for place in 0..journal.len() {
        match journal.entry(place) {
            Some(Entry::Post { body, .. }) => is_posted = is_posted || body.line == line,
            Some(Entry::Cut { boundary, .. }) if is_posted => return Some(*boundary),
            _ => {}
        }
    }
    None
}

/// Whether both lines were taken, the first while the run waited for it, the second after it went on.
fn are_taken_in_time(journal: &Journal<Post>) -> bool {
    match (boundary_of(journal, 1), boundary_of(journal, 2)) {
        (Some(first), Some(second)) => first <= 2 && second >= 3,
        _ => false,
    }
}

#[test]
fn changes_are_taken_while_steps_go_on(rt: HostRuntime) -> Result<(), Fail> {
    let meeting = Meeting::new();
    let meets = Meets {
        threads: &rt,
        alloc: rt.alloc(),
        meeting: &meeting,
    };
    let driven = with_shipped_domains(rt.alloc(), meets)??;
    assert!(rt; driven.status == Status::Ok && !meeting.is_late());
    let journal = driven.journal.ok_or("there is no journal")?;
    assert!(rt; are_taken_in_time(&journal));
    Ok(())
}
