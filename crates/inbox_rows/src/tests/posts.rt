ghost use Rattle.std.specs.Prelude.{◌≡◌, ◌≢◌, ◌≤◌, ◌<◌, ◌+◌, ◌^◌, ◌∷◌, ◌++◌, [], length, IfOk};
ghost use mathlib.Core.List.{IsPrefix};
ghost use Rattle.change_inbox.specs.Entries.{posts_in, shuts_in};
ghost use Rattle.change_inbox.specs.Seats.{fresh_seat, own_of};
ghost use Rattle.live_posts.specs.Cuts.{posts_taken, taken_by, takes};

use change_inbox::{Entry, Inbox, Journal, Memory};
use live_posts::{Cutter, Fed, close_run, feed_all, no_post_is_refused, open_run};
use plan_changes::{Body, Deed, LineFault, Post, Spot, StopCause};
use plan_ports::{Gate, MemSource, NoGate, Source};
use std::alloc::{AllocError, Global};
use std::process::Abort;
use std::sync::Wait;
use std::test::Fail;
use std::thread::{Threads, join_mut};

/// The most posts of a run.
const MOST_POSTS: u32 = 4_097;

/// What an entry says, in short: a post by its line.
#[derive(Clone, Copy, Debug, PartialEq, Eq)]
enum Word {
    Change(u32, Deed),
    Bad(u32, Spot),
    Long(u32),
    Stop(u32, StopCause),
    Cut(u32),
    Shut,
    Nothing,
}

fn word_of(post: &Post) -> Word {
    match &post.body {
        Body::Do(change) => Word::Change(post.line, change.deed),
        Body::Bad(LineFault::Syntax(spot)) => Word::Bad(post.line, *spot),
        Body::Bad(LineFault::LongLine) => Word::Long(post.line),
        Body::Stop(cause) => Word::Stop(post.line, *cause),
    }
}

fn word_at(journal: &Journal<Post>, place: usize) -> Word {
    match journal.entry(place) {
        Some(Entry::Post { body, .. }) => word_of(body),
        Some(Entry::Cut { boundary, .. }) => Word::Cut(*boundary),
        Some(Entry::Shut { .. }) => Word::Shut,
        None => Word::Nothing,
    }
}

/// The first place at which the journal has another entry than that; none where it has these entries and no others.
fn wrong_entry(journal: &Journal<Post>, wanted: &[Word]) -> Option<usize> {
    for (place, word) in wanted.iter().enumerate() {
        if word_at(journal, place) != *word {
            return Some(place);
        }
    }
    if journal.len() == wanted.len() {
        None
    } else {
        Some(wanted.len())
    }
}

/// A source of these bytes that gives so many of them a take, and fails at the takes of these numbers.
fn source(alloc: Global, bytes: &[u8], most: usize, fail: &[u32]) -> Result<MemSource, AllocError>
    requires { 1 ≤ most }
{
    Ok(MemSource::new(
        Vec::from_slice(alloc, bytes)?,
        most,
        Vec::from_slice(alloc, fail)?,
    ))
}

/// How a feeder ends, and the journal, where all is fed before the one cut.
fn fed_at_once<W: Wait, S: Source>(
    rt: &W,
    alloc: Global,
    src: &mut S,
    posts: u32,
) -> Result<(Fed, Journal<Post>), Memory>
    ensures { IfOk result (λ run. posts_taken (takes run.1) ≡ posts_in run.1) }
{
    let (inbox, mut feeder, mut cutter) = open_run(alloc, posts, 1)?;
    let fed = feed_all(rt, alloc, &inbox, &mut feeder, src, &NoGate);
    cutter.meet(&inbox, &mut feeder);
    cutter.cut(rt, &inbox, 0)?;
    Ok((fed, close_run(inbox, feeder, cutter)))
}

/// Where all is fed before the one cut, the feeder ends so, and the journal has these entries and no others.
fn expect_feed<T: Wait + Abort>(
    rt: &T,
    alloc: Global,
    src: &mut MemSource,
    posts: u32,
    ends: Fed,
    wanted: &[Word],
) -> Result<(), Memory> {
    let (fed, journal) = fed_at_once(rt, alloc, src, posts)?;
    assert_eq!(rt; fed, ends);
    assert_eq!(rt; wrong_entry(&journal, wanted), None);
    Ok(())
}

/// Six lines: two rooms, and four that name nothing or are no change.
const SIX_LINES: &[u8] = br#"{"do":"add","class":"room","fields":{"capacity":5}}
{"do":"add","class":"room","fields":{"capacity":5}}
{"do":"remove","class":"room","id":9}
{"do":"add","class":"rum","fields":{}}
{"do":"alter","class":"room","id":2,"fields":{"size":1}}
{"#;

const SIX_POSTS: &[Word] = &[
    Word::Change(1, Deed::Add),
    Word::Change(2, Deed::Add),
    Word::Change(3, Deed::Remove),
    Word::Change(4, Deed::Add),
    Word::Change(5, Deed::Alter),
    Word::Bad(6, Spot::Json),
    Word::Cut(0),
];

#[test]
fn six_lines_are_posted_in_order_however_the_bytes_come(rt: HostRuntime) -> Result<(), Fail> {
    for most in [1, 3, 1_000] {
        let mut src = source(rt.alloc(), SIX_LINES, most, &[])?;
        expect_feed(&rt, rt.alloc(), &mut src, MOST_POSTS, Fed::Ended, SIX_POSTS)?;
    }
    Ok(())
}

const LONG_POSTS: &[Word] = &[Word::Long(1), Word::Change(2, Deed::Add), Word::Cut(0)];

#[test]
fn a_line_of_65537_bytes_is_posted_as_too_long(rt: HostRuntime) -> Result<(), Fail> {
    let mut bytes = vec![in rt.alloc(); b'x'; 65_537]?;
    bytes.extend_from_slice(
        b"\n{\"do\":\"add\",\"class\":\"room\",\"fields\":{\"capacity\":5}}\n",
    )?;
    for most in [1, 8_192] {
        assert!(rt; most >= 1);
        let mut src = source(rt.alloc(), &bytes, most, &[])?;
        expect_feed(
            &rt,
            rt.alloc(),
            &mut src,
            MOST_POSTS,
            Fed::Ended,
            LONG_POSTS,
        )?;
    }
    Ok(())
}

/// How a feeder of these bytes ends, how many entries the journal has, and the one at a place.
fn fed_up_to<W: Wait>(
    rt: &W,
    alloc: Global,
    bytes: &[u8],
    place: usize,
) -> Result<(Fed, usize, Word), Memory> {
    let mut src = source(alloc, bytes, 1_000, &[])?;
    let (fed, journal) = fed_at_once(rt, alloc, &mut src, MOST_POSTS)?;
    Ok((fed, journal.len(), word_at(&journal, place)))
}

#[test]
fn a_byte_behind_4096_lines_stops_the_feed(rt: HostRuntime) -> Result<(), Fail> {
    let mut bytes = vec![in rt.alloc(); b'\n'; 4_096]?;
    let (fed, len, word) = fed_up_to(&rt, rt.alloc(), &bytes, 4_095)?;
    assert_eq!(rt; (fed, len), (Fed::Ended, 4_097));
    assert_eq!(rt; word, Word::Bad(4_096, Spot::Json));
    bytes.push(b'\n')?;
    let (fed, len, word) = fed_up_to(&rt, rt.alloc(), &bytes, 4_096)?;
    assert_eq!(rt; (fed, len), (Fed::Stopped(StopCause::Overrun), 4_098));
    assert_eq!(rt; word, Word::Stop(4_097, StopCause::Overrun));
    Ok(())
}

const FAULT_POSTS: &[Word] = &[
    Word::Bad(1, Spot::Json),
    Word::Stop(2, StopCause::ReadFault),
    Word::Cut(0),
];

#[test]
fn a_fault_of_the_source_stops_the_feed_behind_the_lines_before(
    rt: HostRuntime,
) -> Result<(), Fail> {
    let mut src = source(rt.alloc(), b"one\ntwo\n", 3, &[2])?;
    let ends = Fed::Stopped(StopCause::ReadFault);
    expect_feed(&rt, rt.alloc(), &mut src, MOST_POSTS, ends, FAULT_POSTS)?;
    assert_eq!(rt; src.faults(), 1);
    Ok(())
}

#[test]
fn a_post_too_many_ends_the_feeder(rt: HostRuntime) -> Result<(), Fail> {
    let mut src = source(rt.alloc(), b"one\ntwo\n", 100, &[])?;
    let wanted = [Word::Bad(1, Spot::Json), Word::Cut(0)];
    expect_feed(&rt, rt.alloc(), &mut src, 1, Fed::Full, &wanted)?;
    Ok(())
}

#[test]
fn no_line_is_posted_behind_a_shut(rt: HostRuntime) -> Result<(), Fail> {
    let (inbox, mut feeder, mut cutter) = open_run(rt.alloc(), MOST_POSTS, 1)?;
    cutter.shut(&rt, &inbox);
    let mut src = source(rt.alloc(), b"one\ntwo\n", 100, &[])?;
    let fed = feed_all(&rt, rt.alloc(), &inbox, &mut feeder, &mut src, &NoGate);
    assert_eq!(rt; fed, Fed::Shut);
    let journal = close_run(inbox, feeder, cutter);
    assert_eq!(rt; wrong_entry(&journal, &[Word::Shut]), None);
    Ok(())
}

/// Cuts at the boundaries from 0 on, so many times, and gives how many posts were taken.
fn cut_often<W: Wait>(
    rt: &W,
    inbox: &Inbox<Post>,
    cutter: &mut Cutter<Post>,
    steps: u32,
) -> Result<usize, Memory>
    requires own { cutter.old.inbox ≡ inbox.now }
    requires last { cutter.old.number + 1 ≡ inbox.now.limits.seats }
    requires room { length (taken_by cutter.old) + steps < inbox.now.limits.cuts }
    ensures room { length (taken_by cutter.new) < inbox.now.limits.cuts }
    ensures same { shuts_in (own_of cutter.new) ≡ shuts_in (own_of cutter.old) }
    ensures seat { (cutter.new.inbox ≡ inbox.now) × (cutter.new.number ≡ cutter.old.number) }
{
    let mut count = 0usize;
    for boundary in 0..steps {
        let posts = cutter.cut(rt, inbox, boundary)?;
        count = count.saturating_add(posts.len());
    }
    Ok(count)
}

/// A run of two halves: one feeds, the other cuts so many times; then a last cut takes the rest. How the feeder ended, and
/// the journal.
fn fed_in_a_thread<R: Threads + Wait + Sync, S: Source + Send, G: Gate + Sync>(
    rt: &R,
    alloc: Global,
    src: &mut S,
    gate: &G,
    steps: u32,
) -> Result<(Fed, Journal<Post>), Memory>
    requires { steps + 1 < 2 ^ 32 }
    ensures all { IfOk result (λ run. posts_taken (takes run.1) ≡ posts_in run.1) }
    ensures room { IfOk result (λ run. run.0 ≢ Fed.Full) }
{
    let (inbox, mut feeder, mut cutter) = open_run(alloc, MOST_POSTS, steps + 1)?;
    let (fed, cuts) = join_mut(
        rt,
        &mut || feed_all(rt, alloc, &inbox, &mut feeder, src, gate),
        &mut || cut_often(rt, &inbox, &mut cutter, steps),
    );
    cuts?;
    cutter.meet(&inbox, &mut feeder);
    cutter.cut(rt, &inbox, steps)?;
    no_post_is_refused();
    Ok((fed, close_run(inbox, feeder, cutter)))
}

/// How many cuts the journal has, and how many posts.
fn counts(journal: &Journal<Post>) -> (usize, usize) {
    let mut cuts = 0usize;
    let mut posts = 0usize;
    for place in 0..journal.len() {
        match word_at(journal, place) {
            Word::Cut(_) => cuts = cuts.saturating_add(1),
            Word::Shut | Word::Nothing => {}
            _ => posts = posts.saturating_add(1),
        }
    }
    (cuts, posts)
}

#[test]
fn two_halves_run_at_once(rt: HostRuntime) -> Result<(), Fail> {
    let bytes = vec![in rt.alloc(); b'\n'; 1_000]?;
    let mut src = source(rt.alloc(), &bytes, 1, &[])?;
    let (fed, journal) = fed_in_a_thread(&rt, rt.alloc(), &mut src, &NoGate, 50)?;
    assert_eq!(rt; fed, Fed::Ended);
    assert_eq!(rt; counts(&journal), (51, 1_000));
    Ok(())
}
