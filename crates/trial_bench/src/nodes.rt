//! Single nodes of a network over schools of several sizes: what looks ahead at them find, and how long one takes.
ghost use Rattle.std.specs.Prelude.{◌≡◌, ◌<◌};
ghost use Rattle.plan_rules.specs.Meaning.{IsKeyNumber};
ghost use Rattle.trial_bench.specs.Kept.{AreHandedIn};
ghost use Rattle.trial_bench.specs.School.{key_at, rooms_differ};

use crate::clocked::no_memory;
use crate::kept::{KeptNode, kept_in};
use crate::look::try_lessons;
use crate::school::{School, classes, key_at, rooms_differ, school_of};
use crate::school_rules::{BY_DAY, BY_TEACHER, Lessons, NAMES, ROOMS_DIFFER, rules_of};
use plan_facts::List;
use plan_rules::{Book, Kept, Key, KeyBody, Row, Rules, Steps, Test, TestBody};
use std::alloc::Global;
use std::io;
use std::marker::Brand;
use std::rt::Clock;
use std::sync::ledger::{Blank, Ledger};

/// What is refused that never should be.
fn unfit() -> io::Error {
    io::Error::from(io::ErrorKind::InvalidInput)
}

/// Drives a node, and says what rows its looks found and, where times are asked for, how long one took.
fn drive_node<R: Print + Eprint + Clock, B: Book, L: Ledger>(
    rt: &R,
    alloc: Global,
    times: bool,
    name: &str,
    node: &KeptNode,
    rules: &Rules<B>,
    school: &mut School,
    steps: &mut Steps<L>,
) -> io::Result<()>
    requires keeps { ⟦<Rules<B> as Kept>⟧.keeps rules.now }
    requires there { AreHandedIn rules.now.numbers node.now }
{
    let looks = if times { 16 } else { 1 };
    let mut tally = try_lessons(rt, alloc, node, rules, school, looks, steps)?;
    let (size, gone, come) = (school.size, tally.gone, tally.come);
    rt.println(format_args!("{name}, {size} lessons: {gone} rows go and {come} come"))?;
    if !times {
        return Ok(());
    }
    let nanos = tally.middle() / 10;
    eprintln!(rt; "{name}, {size} lessons: a look ahead takes {nanos} ns")
}

/// Drives what a rule begins with, or its node.
fn drive_rule<R: Print + Eprint + Clock, B: Book, L: Ledger>(
    rt: &R,
    alloc: Global,
    times: bool,
    name: &str,
    rule: u8,
    rules: &Rules<B>,
    school: &mut School,
    steps: &mut Steps<L>,
) -> io::Result<()>
    requires { ⟦<Rules<B> as Kept>⟧.keeps rules.now }
{
    match kept_in(alloc, rules, rule, school, steps) {
        Ok(Some(node)) => drive_node(rt, alloc, times, name, &node, rules, school, steps),
        Ok(None) => Err(unfit()),
        Err(_) => Err(no_memory()),
    }
}

/// Drives the nodes of all rules over a school.
fn drive_school<R: Print + Eprint + Clock, B: Book, L: Ledger>(
    rt: &R,
    alloc: Global,
    times: bool,
    rules: &Rules<B>,
    school: &mut School,
    steps: &mut Steps<L>,
) -> io::Result<()>
    requires { ⟦<Rules<B> as Kept>⟧.keeps rules.now }
{
    let mut rule = 0u8;
    for name in NAMES {
        drive_rule(rt, alloc, times, name, rule, rules, school, steps)?;
        rule = rule.saturating_add(1);
    }
    Ok(())
}

/// Drives them over the school of a size.
fn drive_size<R: Print + Eprint + Clock, B: Book, L: Ledger>(
    rt: &R,
    alloc: Global,
    times: bool,
    rules: &Rules<B>,
    size: u32,
    steps: &mut Steps<L>,
) -> io::Result<()>
    requires { ⟦<Rules<B> as Kept>⟧.keeps rules.now }
{
    let mut school = school_of(alloc, size).map_err(|_| no_memory())?;
    drive_school(rt, alloc, times, rules, &mut school, steps)
}

/// Drives them over schools of all sizes; of the greatest where times are asked for.
fn drive_sizes<R: Print + Eprint + Clock, B: Book, L: Ledger>(
    rt: &R,
    alloc: Global,
    times: bool,
    rules: &Rules<B>,
    blank: Blank,
) -> io::Result<()>
    requires name { blank.name ≡ L.name }
    requires parts { blank.parts ≡ L.parts }
    requires some { 0 < L.parts }
    requires keeps { ⟦<Rules<B> as Kept>⟧.keeps rules.now }
{
    let mut steps: Steps<L> = Steps::new(blank);
    drive_size(rt, alloc, times, rules, 100, &mut steps)?;
    drive_size(rt, alloc, times, rules, 1000, &mut steps)?;
    if times {
        drive_size(rt, alloc, times, rules, 20000, &mut steps)?;
    }
    Ok(())
}

/// Drives the nodes by these rules, which keep their word.
fn drive_rules<R: Print + Eprint + Clock>(
    rt: &R,
    alloc: Global,
    times: bool,
    rules: &Rules<Lessons>,
) -> io::Result<()>
    requires { ⟦<Rules<Lessons> as Kept>⟧.keeps rules.now }
{
    drive_sizes::<R, Lessons, Brand>(rt, alloc, times, rules, Blank::new(1))
}

/// Drives the nodes with these closures, which keep their word.
fn drive_with<R: Print + Eprint + Clock>(
    rt: &R,
    alloc: Global,
    times: bool,
    test: Test<Lessons>,
    teacher: Key<Lessons>,
    day: Key<Lessons>,
) -> io::Result<()>
    requires test { ⟦<Test<Lessons> as Kept>⟧.keeps test }
    requires teacher { ⟦<Key<Lessons> as Kept>⟧.keeps teacher }
    requires day { ⟦<Key<Lessons> as Kept>⟧.keeps day }
{
    let schema = classes(alloc).map_err(|_| unfit())?;
    match rules_of(alloc, &schema, test, teacher, day, List::new(alloc)) {
        Ok(rules) => drive_rules(rt, alloc, times, &rules),
        Err(_) => Err(unfit()),
    }
}

/// Drives single nodes.
pub fn drive<R: Print + Eprint + Clock>(rt: &R, alloc: Global, times: bool) -> io::Result<()> {
    let apart: TestBody = Box::new(
        alloc,
        |row: &Row| -> bool
            ensures { result ≡ rooms_differ row.entry.now }
        { rooms_differ(row) },
    )?;
    let teacher: KeyBody = Box::new(
        alloc,
        |row: &Row| -> i64
            ensures value { result ≡ key_at 0 row.entry.now }
            ensures range { IsKeyNumber result }
        { key_at(row, 0) },
    )?;
    let day: KeyBody = Box::new(
        alloc,
        |row: &Row| -> i64
            ensures value { result ≡ key_at 1 row.entry.now }
            ensures range { IsKeyNumber result }
        { key_at(row, 1) },
    )?;
    drive_with(
        rt,
        alloc,
        times,
        Test::new(ROOMS_DIFFER, apart),
        Key::new(BY_TEACHER, teacher),
        Key::new(BY_DAY, day),
    )
}
