//! The timetable with one rule alone, that rooms are large enough, and a test and a weigher of ours that count their calls.
ghost use Rattle.std.specs.Prelude.{All, IfOk, IsTrue};
ghost use Rattle.plan_facts.specs.Schema.{is_name};

use super::harness::{Asked, Lost, Outcome, filled, run_one, solved};
use crate::{ROOM_SIZE, counted_test, counted_weight};
use domain_words::{one_node, weighed_penalty};
use plan_facts::{List, Memory, Text};
use plan_json::Domain;
use plan_rules::{Head, Kept, Node, RuleDef, RuleFault, Rules, Test, TestBody, Weigh, WeighBody};
use plan_scores::Level;
use plan_session::Status;
use shipped_domains::{Row, Shipped};
use std::alloc::Global;
use std::sync::atomic::{AtomicU64, Ordering};
use std::sync::{Arc, Wait};
use std::test::Fail;
use std::thread::Threads;

/// The number of the timetable's class of lessons.
const LESSON: u8 = 2;

/// A list of one test.
fn one_test(alloc: Global, test: Test<Shipped>) -> Result<List<Test<Shipped>>, Memory>
    requires { ⟦<Test<Shipped> as Kept>⟧.keeps test }
    ensures { IfOk result (λ tests. All (λ test. ⟦<Test<Shipped> as Kept>⟧.keeps test) tests) }
{
    let mut tests = List::new(alloc);
    tests.push(test)?;
    Ok(tests)
}

/// A list of one weigher.
fn one_weigher(alloc: Global, weigher: Weigh<Shipped>) -> Result<List<Weigh<Shipped>>, Memory>
    requires { ⟦<Weigh<Shipped> as Kept>⟧.keeps weigher }
    ensures { IfOk result (λ weighers. All (λ weigher. ⟦<Weigh<Shipped> as Kept>⟧.keeps weigher) weighers) }
{
    let mut weighers = List::new(alloc);
    weighers.push(weigher)?;
    Ok(weighers)
}

/// The rule on the size of rooms, alone.
fn room_rule(alloc: Global) -> Result<List<RuleDef>, Memory> {
    let too_small = one_node(alloc, Node::Filter(ROOM_SIZE))?;
    let each = Head::ForEach(LESSON);
    let mut defs = List::new(alloc);
    defs.push(weighed_penalty(alloc, "room_size", Level::Hard, ROOM_SIZE, each, too_small)?)?;
    Ok(defs)
}

/// The text of a name.
fn named(alloc: Global, name: &[u8]) -> Result<Text, Memory>
    requires { IsTrue (is_name name.now) }
    ensures { IfOk result (λ text. IsTrue (is_name text)) }
{
    let text = Text::from_slice(alloc, name)?;
    Ok(text)
}

/// The timetable with that rule alone.
fn timetable(
    alloc: Global,
    tests: List<Test<Shipped>>,
    weighers: List<Weigh<Shipped>>,
) -> Result<Domain<Shipped>, RuleFault>
    requires tests_keep { All (λ test. ⟦<Test<Shipped> as Kept>⟧.keeps test) tests }
    requires weighers_keep { All (λ weigher. ⟦<Weigh<Shipped> as Kept>⟧.keeps weigher) weighers }
    ensures keeps { IfOk result (λ domain. ⟦<Rules<Shipped> as Kept>⟧.keeps domain.rules) }
{
    let name = named(alloc, b"timetable")?;
    let schema = domain_timetable::schema(alloc)?;
    let defs = room_rule(alloc)?;
    let keys = List::new(alloc);
    let harder = List::new(alloc);
    let rules = Rules::build(alloc, &schema, defs, tests, keys, weighers, harder)?;
    Ok(Domain::new(name, schema, rules, Vec::new(alloc)))
}

/// What a run came to, and how often closures were asked.
#[derive(Drop)]
pub(super) struct Counted {
    pub outcome: Outcome,
    pub calls: u64,
}

/// A run in domains of the closures that come with the solver, or of such as answer the same.
fn run_among<T: Threads + Wait + Sync>(
    rt: &T,
    alloc: Global,
    asked: &Asked,
    domains: &[Domain<Shipped>],
) -> Result<Outcome, Memory>
    requires keeps { All (λ domain. ⟦<Rules<Shipped> as Kept>⟧.keeps domain.rules) domains.now }
{
    run_one(rt, alloc, asked, domains)
}

/// A run in the timetable with the rule alone, whose test and weigher count their calls.
pub(super) fn run_counted<T: Threads + Wait + Sync>(
    rt: &T,
    alloc: Global,
    asked: &Asked,
) -> Result<Counted, RuleFault> {
    let Ok(calls) = Arc::new(alloc, AtomicU64::new(0)) else {
        return Err(RuleFault::Memory);
    };
    let tested = Arc::try_clone(&calls)?;
    let weighed = Arc::try_clone(&calls)?;
    let Ok(test) = Box::new(alloc, move |row: &Row| -> bool {
        counted_test(&tested, row)
    }) else {
        return Err(RuleFault::Memory);
    };
    let Ok(weigher) = Box::new(alloc, move |row: &Row| -> u32 {
        counted_weight(&weighed, row)
    }) else {
        return Err(RuleFault::Memory);
    };
    let tests = one_test(alloc, Test::new(ROOM_SIZE, test))?;
    let weighers = one_weigher(alloc, Weigh::new(ROOM_SIZE, 10_000, weigher))?;
    let domains = [timetable(alloc, tests, weighers)?];
    let outcome = run_among(rt, alloc, asked, &domains)?;
    let calls = calls.load(Ordering::SeqCst);
    Ok(Counted { outcome, calls })
}

/// Two timeslots, a room that is too small for a lesson, a room that isn't, and two lessons.
const ROOM_TOO_SMALL: &str =
    r#"<T><s1>,<s2><R>{"id":1,"capacity":10},{"id":2,"capacity":30}<L><a>,<b><E>"#;

/// How they are placed where nothing but the size of rooms counts.
const PLACED_BY_SIZE: &str = r#"run timetable
leg 0
place lesson#1 slot=1 room=2 -2init/<Z>
place lesson#2 slot=1 room=2 <Z>
start <Z>
best <Z>
lesson#1 slot=1 room=2
lesson#2 slot=1 room=2
rule room_size 0 <Z>
end
"#;

/// The problem of a room that is too small, and how it is placed.
fn asked_small(alloc: Global) -> Result<Asked, Memory> {
    let mut asked = solved(alloc, filled(alloc, ROOM_TOO_SMALL)?);
    asked.text = filled(alloc, PLACED_BY_SIZE)?;
    Ok(asked)
}

/// The same over a sink whose first put fails.
fn asked_unwritten(alloc: Global) -> Result<Asked, Memory> {
    let mut asked = solved(alloc, filled(alloc, ROOM_TOO_SMALL)?);
    asked.lost = Lost::Put(0);
    asked.status = Status::Write;
    Ok(asked)
}

/// Whether a run of the rule alone writes and ends as is due.
fn stands_alone<T: Threads + Wait + Sync>(
    rt: &T,
    alloc: Global,
    asked: &Asked,
) -> Result<bool, RuleFault> {
    let counted = run_counted(rt, alloc, asked)?;
    Ok(counted.outcome.is_due)
}

#[test]
fn a_rule_may_stand_alone(rt: HostRuntime) -> Result<(), Fail> {
    let alloc = rt.alloc();
    assert!(rt; stands_alone(&rt, alloc, &asked_small(alloc)?)?);
    assert!(rt; stands_alone(&rt, alloc, &asked_unwritten(alloc)?)?);
    Ok(())
}
