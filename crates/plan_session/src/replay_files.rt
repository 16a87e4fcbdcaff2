//! The way from a problem that was read to what is due for a replay: its feed is read, then the journal is read and judged, then
//! the run is done again. The first of them that is refused ends it.

ghost use Rattle.std.specs.Prelude.{◌≡◌, ◌≤◌, ◌^◌, ℕ, List, length, map};
ghost use Rattle.live_lines.specs.Reading.{AreLines};
ghost use Rattle.plan_changes.specs.Fits.{IsOfSchema};
ghost use Rattle.plan_json.specs.Accepted.{problem_view};
ghost use Rattle.plan_json.specs.Seen.{domain_view};
ghost use Rattle.plan_ports.specs.Outside.{Holds, LaterShelf, LaterSink};
ghost use Rattle.plan_rules.specs.Range.{sizes_of};
ghost use Rattle.plan_settings.specs.Settings.{IsInRange};
ghost use Rattle.plan_session.specs.Due.{IsDue};
ghost use Rattle.plan_session.specs.Ending.{Ended};
ghost use Rattle.plan_session.specs.Replaying.{HasProblem, Spans};
ghost use Rattle.plan_session.specs.Run.{Run};
ghost use Rattle.plan_session.specs.Sources.{HoldsFeed};
ghost use Rattle.plan_session.specs.declared.task.Timing.TheVariants as timing;

use crate::answer::status_of;
use crate::fetching::fetch_feed;
use crate::journal::refuse_journal;
use crate::outside::{fetch, say};
use crate::replaying::replay;
use crate::status::Status;
use crate::task::Files;
use change_feed::FeedFault;
use plan_changes::Post;
use plan_facts::Text;
use plan_json::{Domain, Problem};
use plan_moves::MoveMaker as Maker;
use plan_ports::{Gate, ReadFault, Shelf, Sink};
use plan_rules::{Book, Judges, Rules};
use run_journal::{JournalFault, bounds_of};
use std::alloc::Global;
use std::thread::Threads;

/// The most bytes of a journal.
const JOURNAL_LIMIT: usize = 1_073_741_824;

/// Does a run again, by the bytes of its journal, or writes the line that refuses them.
fn replay_journal<T: Threads + Sync, B: Book, K: Sink, G: Gate + Sync>(
    rt: &T,
    alloc: Global,
    gate: &G,
    domain: &Domain<B>,
    problem: Problem,
    posts: &[Post],
    bytes: &[u8],
    out: &mut K,
) -> Status
    requires judges { ⟦<Rules<B> as Judges>⟧.judges domain.now.rules problem.weights (sizes_of problem.plan) }
    requires in_range { IsInRange problem.settings }
    requires schema { IsOfSchema domain.now.schema problem.plan }
    requires lines { AreLines posts.now }
    requires short { length bytes.now ≤ 2 ^ 30 }
    ensures ended { let makes = map (λ m. (⟦<dyn Maker as Maker>⟧ m.vtable).made m.value) domain.now.makers.items in
        let is_ready = HasProblem B.meaning makes (domain_view domain.now) (problem_view problem) in
        (run : Run) (files : Files) (journal : List ℕ) → is_ready files run → files.timing ≡ timing.Journal journal
        → HoldsFeed run.shelf files.feed posts.now → Holds run.shelf journal bytes.now
        → Ended (IsDue run) (K.state out.old) (K.state out.new) result }
    ensures later { LaterSink (K.state out.old) (K.state out.new) }
{
    let count = posts.len() as u32;
    match bounds_of(alloc, bytes, count, problem.settings.steps) {
        Ok(bounds) => {
            let bounds = bounds.as_slice();
            status_of(replay(rt, alloc, gate, domain, problem, posts, bounds, out))
        }
        Err(JournalFault::Memory) => Status::Memory,
        Err(JournalFault::Line(line)) => refuse_journal(alloc, line, out),
    }
}

/// Reads the journal, and does the run again.
fn replay_lines<T: Threads + Sync, B: Book, S: Shelf, K: Sink, G: Gate + Sync>(
    rt: &T,
    alloc: Global,
    gate: &G,
    files: &Files,
    journal: &Text,
    domain: &Domain<B>,
    problem: Problem,
    posts: &[Post],
    shelf: &mut S,
    out: &mut K,
) -> Status
    requires judges { ⟦<Rules<B> as Judges>⟧.judges domain.now.rules problem.weights (sizes_of problem.plan) }
    requires in_range { IsInRange problem.settings }
    requires schema { IsOfSchema domain.now.schema problem.plan }
    requires lines { AreLines posts.now }
    requires again { files.now.timing ≡ timing.Journal journal.now }
    ensures ended { let makes = map (λ m. (⟦<dyn Maker as Maker>⟧ m.vtable).made m.value) domain.now.makers.items in
        let is_ready = HasProblem B.meaning makes (domain_view domain.now) (problem_view problem) files.now in
        (run : Run) → is_ready run → HoldsFeed run.shelf files.now.feed posts.now
        → Spans run (S.state shelf.old) (S.state shelf.new)
        → Ended (IsDue run) (K.state out.old) (K.state out.new) result }
    ensures given_back { (S.state shelf.new).lent ≡ (S.state shelf.old).lent }
    ensures shelf { LaterShelf (S.state shelf.old) (S.state shelf.new) }
    ensures sink { LaterSink (K.state out.old) (K.state out.new) }
{
    match fetch(alloc, shelf, journal.as_slice(), JOURNAL_LIMIT) {
        Ok(bytes) => replay_journal(rt, alloc, gate, domain, problem, posts, &bytes, out),
        Err(ReadFault::Memory) => Status::Memory,
        Err(ReadFault::Failed) => say(out, Status::Source, b"refused source\n"),
        Err(ReadFault::TooLong) => refuse_journal(alloc, 0, out),
    }
}

/// Reads the feed, then the journal, and does the run again.
pub fn replay_problem<T: Threads + Sync, B: Book, S: Shelf, K: Sink, G: Gate + Sync>(
    rt: &T,
    alloc: Global,
    gate: &G,
    files: &Files,
    journal: &Text,
    domain: &Domain<B>,
    problem: Problem,
    shelf: &mut S,
    out: &mut K,
) -> Status
    requires judges { ⟦<Rules<B> as Judges>⟧.judges domain.now.rules problem.weights (sizes_of problem.plan) }
    requires in_range { IsInRange problem.settings }
    requires schema { IsOfSchema domain.now.schema problem.plan }
    requires again { files.now.timing ≡ timing.Journal journal.now }
    ensures ended { let makes = map (λ m. (⟦<dyn Maker as Maker>⟧ m.vtable).made m.value) domain.now.makers.items in
        let is_ready = HasProblem B.meaning makes (domain_view domain.now) (problem_view problem) files.now in
        (run : Run) → is_ready run → Spans run (S.state shelf.old) (S.state shelf.new)
        → Ended (IsDue run) (K.state out.old) (K.state out.new) result }
    ensures given_back { (S.state shelf.new).lent ≡ (S.state shelf.old).lent }
    ensures shelf { LaterShelf (S.state shelf.old) (S.state shelf.new) }
    ensures sink { LaterSink (K.state out.old) (K.state out.new) }
{
    match fetch_feed(alloc, shelf, files.feed.as_slice()) {
        Ok(posts) => replay_lines(
            rt, alloc, gate, files, journal, domain, problem, &posts, shelf, out,
        ),
        Err(FeedFault::Memory) => Status::Memory,
        Err(FeedFault::ReadFault) => say(out, Status::Feed, b"refused feed\n"),
        Err(FeedFault::Overrun) => say(out, Status::FeedTooLong, b"refused feed\n"),
    }
}
