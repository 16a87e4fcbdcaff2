//! A core that is told events and answers them.
ghost use Rattle.std.specs.Prelude.{◌+◌, ◌<◌, IfOk};
ghost use Rattle.search_rows.specs.Posted.{HasFewPosts};

use plan_facts::{List, Memory};
use plan_moves::Touch;
use plan_scores::{PlanScore, Score};
use plan_search::Found;
use plan_settings::{AcceptorKind, Settings};
use search_core::{Core, CoreFault, Event, Reply};
use std::alloc::Global;
use std::test::Fail;

/// A plan with nothing unplaced that is worth so much at the soft level.
fn soft(soft: i64) -> PlanScore {
    PlanScore {
        unplaced: 0,
        score: Score {
            hard: 0,
            medium: 0,
            soft,
        },
    }
}

/// An event in few words; what a candidate was judged to be is its soft points, none where it can't be made.
#[derive(Clone, Copy)]
enum Told {
    Post,
    Cut(u32),
    Start(i64),
    Claim(u32, u32, u32),
    Judge(u32, u32, u32, Option<i64>),
    Choose(u32),
}

type Answer = Result<Reply, CoreFault>;

const NOTED: Answer = Ok(Reply::Noted);

/// A candidate moves entity 1 of class 0.
fn found(alloc: Global, points: i64) -> Result<Found, Memory> {
    let touched = List::from_slice(alloc, &[Touch { class: 0, id: 1 }])?;
    Ok(Found {
        score: soft(points),
        touched,
    })
}

/// The event that a line of the table tells.
fn event_of(alloc: Global, told: Told) -> Result<Event, Memory> {
    Ok(match told {
        Told::Post => Event::Post { seat: 1, number: 0 },
        Told::Cut(boundary) => Event::Cut { boundary },
        Told::Start(points) => Event::Start {
            score: soft(points),
        },
        Told::Claim(worker, step, number) => Event::Claim {
            worker,
            step,
            number,
        },
        Told::Judge(worker, step, number, None) => Event::Judge {
            worker,
            step,
            number,
            found: None,
        },
        Told::Judge(worker, step, number, Some(points)) => Event::Judge {
            worker,
            step,
            number,
            found: Some(found(alloc, points)?),
        },
        Told::Choose(step) => Event::Choose { step },
    })
}

/// A core of a hill climbing search.
fn climber(
    alloc: Global,
    steps: u32,
    select_limit: u32,
    accepted_limit: u32,
    buffer: u32,
) -> Result<Core, Fail>
    ensures { IfOk result (λ core. HasFewPosts core 0) }
{
    let settings = Settings {
        steps,
        select_limit,
        accepted_limit,
        acceptor: AcceptorKind::Hill,
        ..Settings::usual(alloc)?
    };
    match settings.fault() {
        None => Ok(Core::new(alloc, &settings, buffer.clamp(1, 1_024))?),
        Some(_) => Err("out of range")?,
    }
}

/// What a core answers to an event that comes after so many others.
fn answer(core: &mut Core, event: Event, others: usize) -> Answer
    requires few { HasFewPosts core.old others }
    requires room { others < 1000 }
    ensures { HasFewPosts core.new (others + 1) }
{
    core.on(event)
}

/// Whether an answer is the expected one.
fn is_answer(given: Answer, expected: Answer) -> bool {
    match (given, expected) {
        (Ok(reply), Ok(other)) => reply == other,
        (Err(fault), Err(other)) => fault == other,
        _ => false,
    }
}

/// Whether a core that wasn't told anything answers each event in turn as is expected.
fn answers(alloc: Global, core: &mut Core, cases: &[(Told, Answer)]) -> Result<bool, Memory>
    requires { HasFewPosts core.old 0 }
{
    if 1_000 <= cases.len() {
        return Ok(false);
    }
    for place in 0..cases.len() {
        let (told, expected) = cases[place];
        let event = event_of(alloc, told)?;
        if !is_answer(answer(core, event, place), expected) {
            return Ok(false);
        }
    }
    Ok(true)
}

const ONE_CANDIDATE: [(Told, Answer); 8] = [
    (Told::Cut(0), Ok(Reply::Leg(0))),
    (Told::Start(0), NOTED),
    (Told::Claim(0, 1, 0), NOTED),
    (Told::Claim(0, 1, 0), Err(CoreFault::Taken(0))),
    (Told::Choose(1), Err(CoreFault::Unjudged(0))),
    (Told::Judge(0, 1, 0, Some(1)), NOTED),
    (Told::Choose(1), Ok(Reply::Chosen(Some(0)))),
    (Told::Cut(2), Err(CoreFault::BadBoundary(1))),
];

#[test]
fn one_candidate_decides_a_step(rt: HostRuntime) -> Result<(), Fail> {
    let mut core = climber(rt.alloc(), 1, 1, 1, 1)?;
    assert!(rt; answers(rt.alloc(), &mut core, &ONE_CANDIDATE)?);
    Ok(())
}

/// Two workers judge out of order, in two steps.
const TWO_STEPS: [(Told, Answer); 27] = [
    // Number 0 is worse than the start, number 1 can't be made; numbers 2 and 3 are the two accepted ones, number 3 is the
    // better one.
    (Told::Cut(0), Ok(Reply::Leg(0))),
    (Told::Start(0), NOTED),
    (Told::Claim(1, 1, 1), NOTED),
    (Told::Claim(2, 1, 0), NOTED),
    (Told::Claim(2, 1, 3), NOTED),
    (Told::Judge(2, 1, 0, Some(-1)), NOTED),
    (Told::Judge(1, 1, 1, None), NOTED),
    (Told::Choose(1), Ok(Reply::More { first: 2, count: 2 })),
    (Told::Judge(2, 1, 3, Some(3)), NOTED),
    (Told::Choose(1), Err(CoreFault::Unjudged(2))),
    (Told::Claim(1, 1, 2), NOTED),
    (Told::Judge(1, 1, 2, Some(1)), NOTED),
    (Told::Choose(1), Ok(Reply::Chosen(Some(3)))),
    // The last score is 3 now: number 0 is worse; number 4, the last one, is as good.
    (Told::Cut(1), NOTED),
    (Told::Claim(0, 2, 0), NOTED),
    (Told::Claim(0, 2, 1), NOTED),
    (Told::Claim(0, 2, 2), NOTED),
    (Told::Claim(0, 2, 3), NOTED),
    (Told::Judge(0, 2, 0, Some(2)), NOTED),
    (Told::Judge(0, 2, 1, None), NOTED),
    (Told::Judge(0, 2, 2, None), NOTED),
    (Told::Judge(0, 2, 3, None), NOTED),
    (Told::Choose(2), Ok(Reply::More { first: 2, count: 2 })),
    (Told::Choose(2), Ok(Reply::More { first: 4, count: 1 })),
    (Told::Claim(0, 2, 4), NOTED),
    (Told::Judge(0, 2, 4, Some(3)), NOTED),
    (Told::Choose(2), Ok(Reply::Chosen(Some(4)))),
];

#[test]
fn steps_are_decided_batch_by_batch(rt: HostRuntime) -> Result<(), Fail> {
    let mut core = climber(rt.alloc(), 2, 5, 2, 2)?;
    assert!(rt; answers(rt.alloc(), &mut core, &TWO_STEPS)?);
    Ok(())
}

/// A step in which nothing can be made has no winner; a post begins a leg at the last boundary, and no step comes after it.
const LEGS: [(Told, Answer); 10] = [
    (Told::Cut(0), Ok(Reply::Leg(0))),
    (Told::Start(0), NOTED),
    (Told::Claim(0, 1, 0), NOTED),
    (Told::Judge(0, 1, 0, None), NOTED),
    (Told::Choose(1), Ok(Reply::Chosen(None))),
    (Told::Post, NOTED),
    (Told::Cut(1), Ok(Reply::Leg(1))),
    (Told::Start(0), NOTED),
    (Told::Choose(2), Err(CoreFault::BadStep(2))),
    (Told::Cut(2), Err(CoreFault::BadBoundary(2))),
];

#[test]
fn legs_begin_where_there_are_posts(rt: HostRuntime) -> Result<(), Fail> {
    let mut core = climber(rt.alloc(), 1, 1, 1, 1)?;
    assert!(rt; answers(rt.alloc(), &mut core, &LEGS)?);
    Ok(())
}

const FAULTS: [(Told, Answer); 19] = [
    (Told::Claim(0, 1, 0), Err(CoreFault::NoLeg)),
    (Told::Start(0), Err(CoreFault::NoLeg)),
    (Told::Cut(1), Err(CoreFault::BadBoundary(0))),
    (Told::Cut(0), Ok(Reply::Leg(0))),
    (Told::Cut(1), Err(CoreFault::NoLeg)),
    (Told::Choose(2), Err(CoreFault::NoLeg)),
    (Told::Start(0), NOTED),
    (Told::Start(0), Err(CoreFault::NoLeg)),
    (Told::Cut(1), Err(CoreFault::BadStep(1))),
    (Told::Claim(0, 2, 0), Err(CoreFault::BadStep(1))),
    (Told::Judge(0, 1, 0, None), Err(CoreFault::NotClaimed(0))),
    (Told::Claim(0, 1, 0), NOTED),
    (Told::Judge(1, 1, 0, None), Err(CoreFault::NotClaimed(0))),
    (Told::Judge(0, 1, 0, None), NOTED),
    (Told::Judge(0, 1, 0, None), Err(CoreFault::NotClaimed(0))),
    (Told::Claim(1, 1, 0), Err(CoreFault::Taken(0))),
    (Told::Claim(0, 1, 20_000), NOTED),
    (Told::Claim(0, 1, 20_000), Err(CoreFault::Taken(20_000))),
    (Told::Choose(1), Err(CoreFault::Unjudged(1))),
];

#[test]
fn each_fault_comes_in_its_order(rt: HostRuntime) -> Result<(), Fail> {
    let mut core = climber(rt.alloc(), 2, 2, 1, 2)?;
    assert!(rt; answers(rt.alloc(), &mut core, &FAULTS)?);
    Ok(())
}
