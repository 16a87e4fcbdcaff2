//! The way from the names of the files of a run with a feed to what is due: the problem is read and judged, then the run takes the
//! lines of its feed, as they come or as a journal names their boundaries.

ghost use Rattle.std.specs.Prelude.{◌≡◌, All, None, Some, map};
ghost use Rattle.plan_changes.specs.Fits.{IsOfSchema};
ghost use Rattle.plan_json.specs.Accepted.{problem_view};
ghost use Rattle.plan_json.specs.Seen.{domain_view, domain_views};
ghost use Rattle.plan_ports.specs.Outside.{Holds, LaterShelf, LaterSink};
ghost use Rattle.plan_rules.specs.Range.{sizes_of};
ghost use Rattle.plan_settings.specs.Settings.{IsInRange};
ghost use Rattle.plan_words.specs.Command.{AreHands};
ghost use Rattle.plan_session.specs.Due.{IsDue};
ghost use Rattle.plan_session.specs.Ending.{Ended};
ghost use Rattle.plan_session.specs.Replaying.{AsksFeed, HasProblem, Spans};
ghost use Rattle.plan_session.specs.Run.{Run};
ghost use Rattle.plan_session.specs.Task.{IsTimely};
ghost use Rattle.plan_session.specs.declared.task.Timing.TheVariants as timing;
ghost use Rattle.text_journal.specs.Laws.{HaveNames};

use crate::answer::refuse;
use crate::driving::drive;
use crate::outside::{fetch, say};
use crate::replay_files::replay_problem;
use crate::searching::Hands;
use crate::status::Status;
use crate::task::{Files, Timing};
use plan_json::{BYTE_LIMIT, Domain, Problem, read_problem};
use plan_moves::MoveMaker as Maker;
use plan_ports::{Gate, PortFault, ReadFault, Shelf, Sink};
use plan_rules::{Book, Judges, Kept, Rules};
use problem_faults::ProblemFault;
use std::alloc::Global;
use std::sync::Wait;
use std::thread::Threads;

/// The classes and the rules of a domain have names.
fn has_names<B: Book>(domain: &Domain<B>)
    ensures { HaveNames domain.now.schema domain.now.rules.defs }
{
    let _count = domain.schema.classes();
}

/// Opens the feed, and searches while its lines come. Then the feed is given back.
fn live_problem<T: Threads + Wait + Sync, B: Book, S: Shelf, K: Sink + Send, G: Gate + Sync>(
    rt: &T,
    alloc: Global,
    gate: &G,
    files: &Files,
    hands: Hands,
    domain: &Domain<B>,
    problem: Problem,
    shelf: &mut S,
    out: &mut K,
) -> Status
where
    S::File: Send,
    requires judges { ⟦<Rules<B> as Judges>⟧.judges domain.now.rules problem.weights (sizes_of problem.plan) }
    requires in_range { IsInRange problem.settings }
    requires schema { IsOfSchema domain.now.schema problem.plan }
    requires live { files.now.timing ≡ timing.Live hands }
    requires hands { AreHands hands.workers hands.buffer }
    ensures ended { let makes = map (λ m. (⟦<dyn Maker as Maker>⟧ m.vtable).made m.value) domain.now.makers.items in
        let is_ready = HasProblem B.meaning makes (domain_view domain.now) (problem_view problem) files.now in
        (run : Run) → is_ready run → Spans run (S.state shelf.old) (S.state shelf.new)
        → Ended (IsDue run) (K.state out.old) (K.state out.new) result }
    ensures given_back { (S.state shelf.new).lent ≡ (S.state shelf.old).lent }
    ensures shelf { LaterShelf (S.state shelf.old) (S.state shelf.new) }
    ensures sink { LaterSink (K.state out.old) (K.state out.new) }
{
    let mut file = match shelf.open(files.feed.as_slice()) {
        Ok(file) => file,
        Err(PortFault::Memory) => return Status::Memory,
        Err(PortFault::Failed) => return say(out, Status::Feed, b"refused feed\n"),
    };
    has_names(domain);
    let driven = drive(rt, alloc, domain, problem, hands, &mut file, out, gate);
    shelf.close(file);
    driven.status
}

/// Does the run of a problem that was read.
fn fed_problem<T: Threads + Wait + Sync, B: Book, S: Shelf, K: Sink + Send, G: Gate + Sync>(
    rt: &T,
    alloc: Global,
    gate: &G,
    files: &Files,
    domain: &Domain<B>,
    problem: Problem,
    shelf: &mut S,
    out: &mut K,
) -> Status
where
    S::File: Send,
    requires judges { ⟦<Rules<B> as Judges>⟧.judges domain.now.rules problem.weights (sizes_of problem.plan) }
    requires in_range { IsInRange problem.settings }
    requires schema { IsOfSchema domain.now.schema problem.plan }
    requires timely { IsTimely files.now.timing }
    ensures ended { let makes = map (λ m. (⟦<dyn Maker as Maker>⟧ m.vtable).made m.value) domain.now.makers.items in
        let is_ready = HasProblem B.meaning makes (domain_view domain.now) (problem_view problem) files.now in
        (run : Run) → is_ready run → Spans run (S.state shelf.old) (S.state shelf.new)
        → Ended (IsDue run) (K.state out.old) (K.state out.new) result }
    ensures given_back { (S.state shelf.new).lent ≡ (S.state shelf.old).lent }
    ensures shelf { LaterShelf (S.state shelf.old) (S.state shelf.new) }
    ensures sink { LaterSink (K.state out.old) (K.state out.new) }
{
    match &files.timing {
        Timing::Live(hands) => live_problem(
            rt, alloc, gate, files, *hands, domain, problem, shelf, out,
        ),
        Timing::Journal(journal) => replay_problem(
            rt, alloc, gate, files, journal, domain, problem, shelf, out,
        ),
    }
}

/// Judges the bytes of the problem, and does its run.
fn fed_bytes<T: Threads + Wait + Sync, B: Book, S: Shelf, K: Sink + Send, G: Gate + Sync>(
    rt: &T,
    alloc: Global,
    gate: &G,
    files: &Files,
    bytes: &[u8],
    shelf: &mut S,
    out: &mut K,
    domains: &[Domain<B>],
) -> Status
where
    S::File: Send,
    requires keeps { All (λ domain. ⟦<Rules<B> as Kept>⟧.keeps domain.rules) domains.now }
    requires timely { IsTimely files.now.timing }
    ensures ended { let makers = map (λ d. map (λ m. (⟦<dyn Maker as Maker>⟧ m.vtable).made m.value)
        d.makers.items) domains.now in
        (run : Run) → AsksFeed (domain_views domains.now) makers B.meaning files.now run
        → Holds run.shelf files.now.name bytes.now → Spans run (S.state shelf.old) (S.state shelf.new)
        → Ended (IsDue run) (K.state out.old) (K.state out.new) result }
    ensures given_back { (S.state shelf.new).lent ≡ (S.state shelf.old).lent }
    ensures shelf { LaterShelf (S.state shelf.old) (S.state shelf.new) }
    ensures sink { LaterSink (K.state out.old) (K.state out.new) }
{
    match read_problem(alloc, bytes, domains) {
        Ok(problem) => {
            let Some(domain) = domains.get(problem.domain) else {
                unreachable!();
            };
            fed_problem(rt, alloc, gate, files, domain, problem, shelf, out)
        }
        Err(ProblemFault::Memory) => Status::Memory,
        Err(fault) => refuse(alloc, &fault, out),
    }
}

/// Reads the problem of a run with a feed, and writes the run that takes its lines; or the line that refuses what is refused.
pub fn fed_files<T: Threads + Wait + Sync, B: Book, S: Shelf, K: Sink + Send, G: Gate + Sync>(
    rt: &T,
    alloc: Global,
    gate: &G,
    files: &Files,
    shelf: &mut S,
    out: &mut K,
    domains: &[Domain<B>],
) -> Status
where
    S::File: Send,
    requires keeps { All (λ domain. ⟦<Rules<B> as Kept>⟧.keeps domain.rules) domains.now }
    requires timely { IsTimely files.now.timing }
    ensures ended { let run : Run = record {
      asked = None;
      generates = None;
      tours = None;
      feeds = Some files.now;
      domains = domain_views domains.now;
      makers = map (λ d. map (λ m. (⟦<dyn Maker as Maker>⟧ m.vtable).made m.value) d.makers.items) domains.now;
      meaning = B.meaning;
      shelf = S.state shelf.old;
      shelf_after = S.state shelf.new;
    } in
        Ended (IsDue run) (K.state out.old) (K.state out.new) result }
    ensures given_back { (S.state shelf.new).lent ≡ (S.state shelf.old).lent }
    ensures shelf { LaterShelf (S.state shelf.old) (S.state shelf.new) }
    ensures sink { LaterSink (K.state out.old) (K.state out.new) }
{
    match fetch(alloc, shelf, files.name.as_slice(), BYTE_LIMIT) {
        Ok(bytes) => fed_bytes(rt, alloc, gate, files, &bytes, shelf, out, domains),
        Err(ReadFault::Memory) => Status::Memory,
        Err(ReadFault::Failed) => say(out, Status::Source, b"refused source\n"),
        Err(ReadFault::TooLong) => say(out, Status::Problem, b"refused problem too_long\n"),
    }
}
