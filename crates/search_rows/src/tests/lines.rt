//! The lines of feeds, as a director takes them.
ghost use Rattle.std.specs.Prelude.{◌≡◌, ◌<◌, false, pos, IfOk, None};
ghost use Rattle.live_lines.specs.Reading.{AreLines};
ghost use Rattle.plan_changes.specs.Fits.{IsOfSchema};
ghost use Rattle.plan_rules.specs.Range.{sizes_of};

mod cases;

use super::fixtures::{director_of, rules_of, sizes};
use super::sketches::rule_of;
use cases::{CLASSES, COURSES, Course, LESSONS, PENALTY, RULES, Turn};
use change_feed::FeedFault;
use live_lines::{read_feed, take_alone, take_line};
use plan_changes::{Body, Post};
use plan_facts::{List, Memory, Names, Schema};
use plan_ports::MemSource;
use plan_reports::{Line, write_line};
use plan_rules::{Book, Judges, Kept, RuleDef, Rules, Steps};
use score_director::Director;
use std::alloc::Global;
use std::marker::Brand;
use std::sync::ledger::{Blank, Ledger};
use std::test::Fail;
use test_plans::schema_of;

/// The most names that there may be before a line is taken.
const MOST_NAMES: u32 = 999_999_984;

/// The most bytes of a line.
const LONGEST_LINE: usize = 65_536;

/// The most lines of a feed.
const MOST_LINES: usize = 4_096;

/// No test holds, and keys and weighers give 0. The rules here have none of them.
#[derive(Drop)]
struct Zeros;

impl Book for Zeros {
    ghost meaning = { record { test_of = λ _ _. false; key_of = λ _ _. pos 0; weight_of = λ _ _. 0 } };
}

/// The rules' definitions: each placed lesson is a match of each.
fn defs(alloc: Global) -> Result<List<RuleDef>, Memory> {
    let mut defs = List::new(alloc);
    for name in &RULES {
        defs.push(rule_of(alloc, name, &PENALTY, &LESSONS, &None)?)?;
    }
    Ok(defs)
}

/// The rules over a schema.
fn rules_over(alloc: Global, schema: &Schema) -> Result<Rules<Zeros>, Fail>
    ensures { IfOk result (λ rules. ⟦<Rules<Zeros> as Kept>⟧.keeps rules) }
{
    let defs = defs(alloc)?;
    rules_of(
        alloc,
        schema,
        defs,
        List::new(alloc),
        List::new(alloc),
        List::new(alloc),
        List::new(alloc),
    )
}

/// The rules.
fn rules(alloc: Global) -> Result<Rules<Zeros>, Fail>
    ensures { IfOk result (λ rules. ⟦<Rules<Zeros> as Kept>⟧.keeps rules) }
{
    let schema = schema_of(alloc, CLASSES)?;
    rules_over(alloc, &schema)
}

/// The names of a course.
fn names(alloc: Global, course: &Course) -> Result<Names, Fail> {
    let mut names = Names::new(alloc);
    for text in course.names {
        if MOST_NAMES <= names.count() {
            return Err("too many names".into());
        }
        let _number = names.number(text.as_bytes())?;
    }
    Ok(names)
}

/// Appends the line of a turn, without its end.
fn put_line(alloc: Global, bytes: &mut Vec<u8>, turn: Turn) -> Result<(), Memory> {
    let Turn(_, line, _) = turn;
    match line {
        Some(text) => bytes.extend_from_slice(text.as_bytes())?,
        None => bytes.extend_from_slice(&vec![in alloc; b'x'; LONGEST_LINE + 1]?)?,
    }
    Ok(())
}

/// The bytes of the lines of a course.
fn feed(alloc: Global, turns: &[Turn]) -> Result<Vec<u8>, Memory> {
    let mut bytes = Vec::new(alloc);
    for turn in turns {
        put_line(alloc, &mut bytes, *turn)?;
        bytes.push(b'\n')?;
    }
    Ok(bytes)
}

/// The posts of a feed's bytes, which come 50 at a time.
fn posts(alloc: Global, bytes: Vec<u8>) -> Result<Vec<Post>, FeedFault>
    ensures { IfOk result (λ posts. AreLines posts.items) }
{
    let mut source = MemSource::new(bytes, 50, Vec::new(alloc));
    read_feed(alloc, &mut source)
}

/// Whether the text of a line is that which is wanted.
fn is_text(alloc: Global, rules: &Rules<Zeros>, line: &Line, wanted: &str) -> Result<bool, Memory> {
    let mut text = Vec::new(alloc);
    write_line(&rules.schema, rules.defs.as_slice(), line, &mut text)?;
    text.pop();
    Ok(text.as_slice() == wanted.as_bytes())
}

/// Whether after the lines of a course there are as many facts of each class, and as many names, as are wanted.
fn ends(
    alloc: Global,
    director: &Director<Zeros>,
    names: &Names,
    course: &Course,
) -> Result<bool, Memory> {
    let sizes = sizes(alloc, director.plan())?;
    Ok(sizes.as_slice() == course.sizes.as_slice() && names.count() == course.names_after)
}

/// A director takes a line at its boundary; whether of it is printed what is wanted.
fn take_turn<L: Ledger>(
    alloc: Global,
    director: &mut Director<Zeros>,
    rules: &Rules<Zeros>,
    names: &mut Names,
    post: &Post,
    turn: Turn,
    steps: &mut Steps<L>,
) -> Result<bool, Memory>
    requires judges { ⟦<Rules<Zeros> as Judges>⟧.judges rules.now director.old.weights (sizes_of director.old.plan) }
    requires own { rules.now.defs ≡ director.old.rules }
    requires rest { director.old.base ≡ None }
    requires schema { IsOfSchema rules.now.schema director.old.plan }
    ensures judges { ⟦<Rules<Zeros> as Judges>⟧.judges rules.now director.new.weights (sizes_of director.new.plan) }
    ensures own { rules.now.defs ≡ director.new.rules }
    ensures rest { director.new.base ≡ None }
    ensures schema { IsOfSchema rules.now.schema director.new.plan }
{
    if MOST_NAMES < names.count() {
        return Ok(false);
    }
    if matches!(post.body, Body::Stop(_)) {
        return Ok(false);
    }
    let line = take_line(director, rules, &rules.schema, names, post, turn.0, steps)?;
    is_text(alloc, rules, &line, turn.2)
}

/// A director takes the lines of a course one by one, each at its boundary; whether each is printed as is wanted.
fn take_turns<L: Ledger>(
    alloc: Global,
    director: &mut Director<Zeros>,
    rules: &Rules<Zeros>,
    names: &mut Names,
    posts: &[Post],
    turns: &[Turn],
    steps: &mut Steps<L>,
) -> Result<bool, Memory>
    requires judges { ⟦<Rules<Zeros> as Judges>⟧.judges rules.now director.old.weights (sizes_of director.old.plan) }
    requires own { rules.now.defs ≡ director.old.rules }
    requires rest { director.old.base ≡ None }
    requires schema { IsOfSchema rules.now.schema director.old.plan }
{
    for (post, turn) in posts.iter().zip(turns) {
        if !take_turn(alloc, director, rules, names, post, *turn, steps)? {
            return Ok(false);
        }
    }
    Ok(posts.len() == turns.len())
}

/// Whether the lines are those that are wanted, one for each turn.
fn are_texts(
    alloc: Global,
    rules: &Rules<Zeros>,
    lines: &[Line],
    turns: &[Turn],
) -> Result<bool, Memory> {
    for (line, turn) in lines.iter().zip(turns) {
        if !is_text(alloc, rules, line, turn.2)? {
            return Ok(false);
        }
    }
    Ok(lines.len() == turns.len())
}

/// A director takes the lines of a course at once, all at boundary 0; whether each is printed as is wanted.
fn take_at_once(
    alloc: Global,
    director: &mut Director<Zeros>,
    rules: &Rules<Zeros>,
    names: &mut Names,
    posts: &[Post],
    turns: &[Turn],
) -> Result<bool, Memory>
    requires judges { ⟦<Rules<Zeros> as Judges>⟧.judges rules.now director.old.weights (sizes_of director.old.plan) }
    requires own { rules.now.defs ≡ director.old.rules }
    requires rest { director.old.base ≡ None }
    requires schema { IsOfSchema rules.now.schema director.old.plan }
    requires lines { AreLines posts.now }
{
    if 1_000 < names.count() {
        return Ok(false);
    }
    let mut lines = Vec::new(alloc);
    take_alone(director, rules, &rules.schema, names, posts, 0, &mut lines)?;
    are_texts(alloc, rules, &lines, turns)
}

/// Whether all lines of a course are taken at boundary 0.
fn is_at_once(course: &Course) -> bool {
    for turn in course.turns {
        if turn.0 != 0 {
            return false;
        }
    }
    true
}

/// A director takes the lines of a course one by one, or at once; whether it then stands as is wanted.
fn take_course<L: Ledger>(
    alloc: Global,
    director: &mut Director<Zeros>,
    rules: &Rules<Zeros>,
    posts: &[Post],
    course: &Course,
    at_once: bool,
    steps: &mut Steps<L>,
) -> Result<bool, Fail>
    requires judges { ⟦<Rules<Zeros> as Judges>⟧.judges rules.now director.old.weights (sizes_of director.old.plan) }
    requires own { rules.now.defs ≡ director.old.rules }
    requires rest { director.old.base ≡ None }
    requires schema { IsOfSchema rules.now.schema director.old.plan }
    requires lines { AreLines posts.now }
{
    let mut names = names(alloc, course)?;
    let turns = course.turns;
    let taken = if at_once {
        take_at_once(alloc, director, rules, &mut names, posts, turns)?
    } else {
        take_turns(alloc, director, rules, &mut names, posts, turns, steps)?
    };
    let ended = ends(alloc, director, &names, course)?;
    Ok(taken && ended)
}

/// A director of the plan of a course takes these lines one by one, or at once; whether it then stands as is wanted.
fn take_lines<L: Ledger>(
    alloc: Global,
    rules: &Rules<Zeros>,
    posts: &[Post],
    course: &Course,
    at_once: bool,
    blank: Blank,
) -> Result<bool, Fail>
    requires name { blank.name ≡ L.name }
    requires parts { blank.parts ≡ L.parts }
    requires some { 0 < L.parts }
    requires keeps { ⟦<Rules<Zeros> as Kept>⟧.keeps rules.now }
    requires lines { AreLines posts.now }
{
    let mut steps: Steps<L> = Steps::new(blank);
    let mut director = director_of(alloc, rules, course.facts, &[1, 1], &mut steps)?;
    take_course(
        alloc,
        &mut director,
        rules,
        posts,
        course,
        at_once,
        &mut steps,
    )
}

/// Whether the lines of a course are taken as is wanted, one by one, or at once.
fn try_course(
    alloc: Global,
    rules: &Rules<Zeros>,
    course: &Course,
    at_once: bool,
) -> Result<bool, Fail>
    requires keeps { ⟦<Rules<Zeros> as Kept>⟧.keeps rules.now }
{
    let posts = posts(alloc, feed(alloc, course.turns)?)?;
    take_lines::<Brand>(alloc, rules, &posts, course, at_once, Blank::new(1))
}

/// Whether the lines of each course are taken as is wanted, one by one, or at once those that may be.
fn try_courses(alloc: Global, at_once: bool) -> Result<bool, Fail> {
    let rules = rules(alloc)?;
    for course in COURSES {
        if at_once && !is_at_once(course) {
            continue;
        }
        if !try_course(alloc, &rules, course, at_once)? {
            return Ok(false);
        }
    }
    Ok(true)
}

#[test]
fn lines_are_taken_one_by_one(rt: HostRuntime) -> Result<(), Fail> {
    assert!(rt; try_courses(rt.alloc(), false)?);
    Ok(())
}

#[test]
fn lines_are_taken_at_once(rt: HostRuntime) -> Result<(), Fail> {
    assert!(rt; try_courses(rt.alloc(), true)?);
    Ok(())
}

/// Whether a feed of so many empty lines is read, or has too many.
fn is_read(alloc: Global, lines: usize) -> Result<bool, Memory> {
    match posts(alloc, vec![in alloc; b'\n'; lines]?) {
        Ok(posts) => Ok(lines <= MOST_LINES && posts.len() == lines),
        Err(fault) => Ok(MOST_LINES < lines && matches!(fault, FeedFault::Overrun)),
    }
}

#[test]
fn feeds_are_read_up_to_their_most_lines(rt: HostRuntime) -> Result<(), Fail> {
    for lines in [0, 1, MOST_LINES, MOST_LINES + 1] {
        assert!(rt; is_read(rt.alloc(), lines)?, "{lines}");
    }
    Ok(())
}

/// The second take of the source fails.
#[test]
fn feeds_hand_a_fault_of_their_source_on(rt: HostRuntime) -> Result<(), Fail> {
    let alloc = rt.alloc();
    let bytes = vec![in alloc; b'\n'; 20]?;
    let mut source = MemSource::new(bytes, 10, vec![in alloc; 1]?);
    let read = read_feed(alloc, &mut source);
    assert!(rt; matches!(read, Err(FeedFault::ReadFault)) && source.faults() == 1);
    Ok(())
}
