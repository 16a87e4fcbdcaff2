//! What directors of the shipped domains make of the lines of a feed, and what is printed of them.
ghost use Rattle.std.specs.Prelude.{◌≡◌, ◌<◌, All, None, OnOk};
ghost use Rattle.plan_changes.specs.Fits.{IsOfSchema};
ghost use Rattle.plan_rules.specs.Range.{sizes_of};

use super::lines::{COURSES, Course, Worth};
use super::outcome::{Outcome, make};
use super::snapshot::Snapshot;
use super::{domain_of, has_only_row};
use change_feed::Feed;
use plan_changes::{Body, ChangeFault, LineFault, Post};
use plan_facts::{List, Memory, Names, Plan};
use plan_json::{Domain, Problem, read_problem};
use plan_ports::MemSource;
use plan_reports::{Line, write_line};
use plan_rules::{Judges, Kept, Rules, Steps};
use plan_scores::{PlanScore, Score};
use score_director::Director;
use shipped_domains::{Act, Shipped, with_shipped_domains};
use std::alloc::{AllocError, Global};
use std::marker::Brand;
use std::sync::ledger::{Blank, Ledger};
use std::test::Fail;

/// The most lines that the feeds of the courses have.
const MOST_LINES: usize = 20;

/// The bytes of the feed of a course.
fn bytes_of(alloc: Global, course: &Course) -> Result<Vec<u8>, AllocError> {
    let mut bytes = vec![in alloc; b'x'; course.xs]?;
    bytes.extend_from_slice(course.feed.as_bytes())?;
    Ok(bytes)
}

/// Reads the lines of a feed; whether it ends before too many.
fn read_lines(
    feed: &mut Feed,
    source: &mut MemSource,
    posts: &mut Vec<Post>,
) -> Result<bool, Fail> {
    for _ in 0..MOST_LINES {
        if feed.ended() {
            return Ok(true);
        }
        if let Some(post) = feed.next_line(source)? {
            posts.push(post)?;
        }
    }
    Ok(false)
}

/// The lines of the feed of a course.
fn posts_of(alloc: Global, course: &Course) -> Result<Vec<Post>, Fail> {
    let mut source = MemSource::new(bytes_of(alloc, course)?, 50, Vec::new(alloc));
    let mut feed = Feed::new(alloc);
    let mut posts = Vec::new(alloc);
    if !read_lines(&mut feed, &mut source, &mut posts)? {
        return Err("too many lines".into());
    }
    Ok(posts)
}

/// The line of a change, by what it came to.
fn line_of(line: u32, outcome: Outcome) -> Line {
    let boundary = 0;
    match outcome {
        Outcome::Rule(rule) => Line::AppliedRule {
            line,
            boundary,
            rule,
        },
        Outcome::Fact(class, id) => Line::Applied {
            line,
            boundary,
            class,
            id,
        },
        Outcome::Refused(fault) => Line::Refused {
            line,
            boundary,
            fault,
        },
    }
}

/// Prints the line of a change, by what it came to.
fn print(
    domain: &Domain<Shipped>,
    line: u32,
    outcome: Outcome,
    out: &mut Vec<u8>,
) -> Result<(), Memory> {
    let line = line_of(line, outcome);
    write_line(&domain.schema, domain.rules.defs.as_slice(), &line, out)
}

/// Takes a line of a feed, after which the next one may be taken, and gives what it comes to.
fn take_line<L: Ledger>(
    domain: &Domain<Shipped>,
    names: &mut Names,
    director: &mut Director<Shipped>,
    body: &Body,
    steps: &mut Steps<L>,
) -> Result<Outcome, Memory>
    requires judges { let seen = director.old in
        ⟦<Rules<Shipped> as Judges>⟧.judges domain.now.rules seen.weights (sizes_of seen.plan) }
    requires own { domain.now.rules.defs ≡ director.old.rules }
    requires rest { director.old.base ≡ None }
    requires schema { IsOfSchema domain.now.schema director.old.plan }
    ensures judges { let seen = director.new in
        OnOk result (⟦<Rules<Shipped> as Judges>⟧.judges domain.now.rules seen.weights (sizes_of seen.plan)) }
    ensures own { OnOk result (domain.now.rules.defs ≡ director.new.rules) }
    ensures rest { OnOk result (director.new.base ≡ None) }
    ensures schema { OnOk result (IsOfSchema domain.now.schema director.new.plan) }
{
    match body {
        Body::Do(change) => make(
            &domain.rules,
            &domain.schema,
            names,
            director,
            change,
            steps,
        ),
        Body::Bad(LineFault::Syntax(spot)) => Ok(Outcome::Refused(ChangeFault::Syntax(*spot))),
        Body::Bad(LineFault::LongLine) => Ok(Outcome::Refused(ChangeFault::LongLine)),
        Body::Stop(_) => Err(Memory),
    }
}

/// Takes a line of a feed, after which the next one may be taken, and prints what is said of it; whether all stays as it was
/// if it is refused.
fn take_and_print<L: Ledger>(
    alloc: Global,
    domain: &Domain<Shipped>,
    names: &mut Names,
    director: &mut Director<Shipped>,
    post: &Post,
    out: &mut Vec<u8>,
    steps: &mut Steps<L>,
) -> Result<bool, Memory>
    requires judges { let seen = director.old in
        ⟦<Rules<Shipped> as Judges>⟧.judges domain.now.rules seen.weights (sizes_of seen.plan) }
    requires own { domain.now.rules.defs ≡ director.old.rules }
    requires rest { director.old.base ≡ None }
    requires schema { IsOfSchema domain.now.schema director.old.plan }
    ensures judges { let seen = director.new in
        OnOk result (⟦<Rules<Shipped> as Judges>⟧.judges domain.now.rules seen.weights (sizes_of seen.plan)) }
    ensures own { OnOk result (domain.now.rules.defs ≡ director.new.rules) }
    ensures rest { OnOk result (director.new.base ≡ None) }
    ensures schema { OnOk result (IsOfSchema domain.now.schema director.new.plan) }
{
    let before = Snapshot::of(alloc, director, &domain.rules, names)?;
    let outcome = take_line(domain, names, director, &post.body, steps)?;
    let stays = before.stays(director, &domain.rules, names)?;
    print(domain, post.line, outcome, out)?;
    Ok(stays || !matches!(outcome, Outcome::Refused(_)))
}

/// Takes lines of a feed, one after another, and prints a line of each; whether each that is refused leaves all as it was.
fn take_lines<L: Ledger>(
    alloc: Global,
    domain: &Domain<Shipped>,
    names: &mut Names,
    director: &mut Director<Shipped>,
    posts: &[Post],
    out: &mut Vec<u8>,
    steps: &mut Steps<L>,
) -> Result<bool, Memory>
    requires judges { let seen = director.old in
        ⟦<Rules<Shipped> as Judges>⟧.judges domain.now.rules seen.weights (sizes_of seen.plan) }
    requires own { domain.now.rules.defs ≡ director.old.rules }
    requires rest { director.old.base ≡ None }
    requires schema { IsOfSchema domain.now.schema director.old.plan }
    ensures { OnOk result (domain.now.rules.defs ≡ director.new.rules) }
{
    let Some((first, rest)) = posts.split_first() else {
        return Ok(true);
    };
    if !take_and_print(alloc, domain, names, director, first, out, steps)? {
        return Ok(false);
    }
    take_lines(alloc, domain, names, director, rest, out, steps)
}

/// Whether there are these names, numbered in this order, and no others.
fn are_names(names: &Names, wanted: &[&str]) -> bool {
    for (place, text) in wanted.iter().enumerate() {
        match names.find(text.as_bytes()) {
            Some(number) if number as usize == place => {}
            _ => return false,
        }
    }
    names.count() as usize == wanted.len()
}

/// Whether the plan is worth what is wanted, and the rule that is looked at has its row alone.
fn is_worth(
    director: &Director<Shipped>,
    rules: &Rules<Shipped>,
    wanted: Option<Worth>,
) -> Result<bool, Memory>
    requires own { rules.now.defs ≡ director.now.rules }
{
    let Some(wanted) = wanted else {
        return Ok(true);
    };
    let score = Score {
        hard: wanted.hard,
        medium: 0,
        soft: wanted.soft,
    };
    let unplaced = wanted.unplaced;
    let has_row = has_only_row(director, rules, wanted.row)?;
    Ok(has_row && director.score() == PlanScore { unplaced, score })
}

/// Whether a director takes the lines of a course, and prints what is wanted of them.
fn prints<L: Ledger>(
    alloc: Global,
    domain: &Domain<Shipped>,
    names: &mut Names,
    director: &mut Director<Shipped>,
    posts: &[Post],
    course: &Course,
    steps: &mut Steps<L>,
) -> Result<bool, Memory>
    requires judges { let seen = director.old in
        ⟦<Rules<Shipped> as Judges>⟧.judges domain.now.rules seen.weights (sizes_of seen.plan) }
    requires own { domain.now.rules.defs ≡ director.old.rules }
    requires rest { director.old.base ≡ None }
    requires schema { IsOfSchema domain.now.schema director.old.plan }
    ensures { OnOk result (domain.now.rules.defs ≡ director.new.rules) }
{
    let mut out = Vec::new(alloc);
    let taken = take_lines(alloc, domain, names, director, posts, &mut out, steps)?;
    Ok(taken && out.as_slice() == course.printed.as_bytes())
}

/// Whether a director takes the lines of a course, and the plan is worth what is wanted before them and after them.
fn takes_feed<L: Ledger>(
    alloc: Global,
    domain: &Domain<Shipped>,
    names: &mut Names,
    director: &mut Director<Shipped>,
    posts: &[Post],
    course: &Course,
    steps: &mut Steps<L>,
) -> Result<bool, Memory>
    requires judges { let seen = director.old in
        ⟦<Rules<Shipped> as Judges>⟧.judges domain.now.rules seen.weights (sizes_of seen.plan) }
    requires own { domain.now.rules.defs ≡ director.old.rules }
    requires rest { director.old.base ≡ None }
    requires schema { IsOfSchema domain.now.schema director.old.plan }
{
    let before = is_worth(director, &domain.rules, course.before)?;
    let printed = prints(alloc, domain, names, director, posts, course, steps)?;
    let after = is_worth(director, &domain.rules, course.after)?;
    Ok(before && printed && after && are_names(names, course.names))
}

/// Whether a director of the plan of a course takes its lines as is wanted.
fn directs<L: Ledger>(
    alloc: Global,
    domain: &Domain<Shipped>,
    plan: Plan,
    weights: List<u32>,
    names: &mut Names,
    posts: &[Post],
    course: &Course,
    blank: Blank,
) -> Result<bool, Memory>
    requires name { blank.name ≡ L.name }
    requires parts { blank.parts ≡ L.parts }
    requires some { 0 < L.parts }
    requires judges { ⟦<Rules<Shipped> as Judges>⟧.judges domain.now.rules weights (sizes_of plan) }
    requires schema { IsOfSchema domain.now.schema plan }
{
    let mut steps: Steps<L> = Steps::new(blank);
    let mut director = Director::new(alloc, &domain.rules, plan, weights, &mut steps)?;
    takes_feed(
        alloc,
        domain,
        names,
        &mut director,
        posts,
        course,
        &mut steps,
    )
}

/// Reads the problem of a course; whether a director takes these lines of its feed as is wanted.
fn try_lines(
    alloc: Global,
    domains: &[Domain<Shipped>],
    posts: &[Post],
    course: &Course,
) -> Result<bool, Fail>
    requires keeps { All (λ domain. ⟦<Rules<Shipped> as Kept>⟧.keeps domain.rules) domains.now }
{
    let problem = read_problem(alloc, course.problem.as_bytes(), domains)?;
    let domain = domain_of(domains, &problem);
    let Problem {
        plan,
        weights,
        mut names,
        ..
    } = problem;
    let blank = Blank::new(1);
    Ok(directs::<Brand>(
        alloc, domain, plan, weights, &mut names, posts, course, blank,
    )?)
}

/// Reads the feed of a course and its problem; whether a director takes the feed as is wanted.
fn try_course(alloc: Global, domains: &[Domain<Shipped>], course: &Course) -> Result<bool, Fail>
    requires keeps { All (λ domain. ⟦<Rules<Shipped> as Kept>⟧.keeps domain.rules) domains.now }
{
    let posts = posts_of(alloc, course)?;
    try_lines(alloc, domains, &posts, course)
}

/// Takes the feeds of the courses in the domains that come with the solver, and gives what is to be printed of the first
/// that goes wrong.
#[derive(Drop)]
struct Takes {
    alloc: Global,
}

impl Act for Takes {
    type Answer = Result<Option<&'static str>, Fail>;

    ghost is_ready = { λ _. Unit };

    ghost answers = { λ _ _ _. Unit };

    fn act(self, domains: &[Domain<Shipped>]) -> Result<Option<&'static str>, Fail> {
        for course in COURSES {
            if !try_course(self.alloc, domains, course)? {
                return Ok(Some(course.printed));
            }
        }
        Ok(None)
    }
}

#[test]
fn directors_take_feeds_and_their_lines_are_printed(rt: HostRuntime) -> Result<(), Fail> {
    let alloc = rt.alloc();
    let wrong = with_shipped_domains(alloc, Takes { alloc })??;
    assert!(rt; wrong.is_none(), "{wrong:?}");
    Ok(())
}
