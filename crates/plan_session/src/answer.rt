ghost use Rattle.std.specs.Prelude.{◌≡◌, ◌≢◌, ℕ, List, All, map};
ghost use Rattle.plan_ports.specs.Outside.{LaterSink, SinkState};
ghost use Rattle.plan_json.specs.Accepted.{problem_view};
ghost use Rattle.plan_json.specs.Seen.{domain_view, domain_views};
ghost use Rattle.plan_rules.specs.Range.{sizes_of};
ghost use Rattle.plan_search.specs.RunLines.{score_text};
ghost use Rattle.plan_settings.specs.Settings.{IsInRange};
ghost use Rattle.plan_session.specs.Explained.{explain_text};
ghost use Rattle.plan_session.specs.Posed.{posed_in};
ghost use Rattle.plan_session.specs.Printing.{Prints};
ghost use Rattle.plan_session.specs.Toured.{tour_text};
ghost use Rattle.problem_faults.specs.Words.{refusal_line};
ghost use Rattle.plan_session.specs.Due.{DueForBytes, DueForProblem};
ghost use Rattle.plan_session.specs.Ending.{Ended, Says};
ghost use Rattle.plan_session.specs.Task.{IsFit, text_wanted};
ghost use Rattle.plan_words.specs.Command.{AreHands};

use crate::explaining::explain_text;
use crate::fault::PrintFault;
use crate::outside::say;
use crate::searching::{Hands, solve};
use crate::status::Status;
use crate::task::Wanted;
use crate::text::score_text;
use crate::touring::tour_text;
use plan_json::{Domain, Problem, read_problem};
use plan_moves::MoveMaker as Maker;
use plan_ports::{Gate, Sink};
use plan_rules::{Book, Judges, Kept, Rules};
use problem_faults::{ProblemFault, write_refusal};
use std::alloc::Global;
use std::thread::Threads;

/// The status of a text that was printed, or wasn't.
pub fn status_of(printed: Result<(), PrintFault>) -> Status
    ensures { (text : List ℕ) (old new : SinkState) → Prints printed text old new
        → Ended (Says Status.Ok text) old new result }
{
    match printed {
        Ok(()) => Status::Ok,
        Err(PrintFault::Memory) => Status::Memory,
        Err(PrintFault::Write) => Status::Write,
    }
}

/// Writes the line that refuses a problem.
pub fn refuse<K: Sink>(alloc: Global, fault: &ProblemFault, out: &mut K) -> Status
    requires { fault.now ≢ ProblemFault.Memory }
    ensures ended { let is_due = Says Status.Problem (refusal_line fault.now) in
        Ended is_due (K.state out.old) (K.state out.new) result }
    ensures later { LaterSink (K.state out.old) (K.state out.new) }
{
    let mut line = Vec::new(alloc);
    match write_refusal(fault, &mut line) {
        Ok(()) => say(out, Status::Problem, &line),
        Err(_) => Status::Memory,
    }
}

/// Writes the score of a problem's plan as read.
fn respond_score<B: Book, K: Sink>(
    alloc: Global,
    domain: &Domain<B>,
    problem: Problem,
    out: &mut K,
) -> Status
    requires judges { ⟦<Rules<B> as Judges>⟧.judges domain.now.rules problem.weights (sizes_of problem.plan) }
    ensures ended { let makes = map (λ m. (⟦<dyn Maker as Maker>⟧ m.vtable).made m.value) domain.now.makers.items in
        let posed = posed_in B.meaning makes (domain_view domain.now) (problem_view problem) in
        Ended (Says Status.Ok (score_text posed)) (K.state out.old) (K.state out.new) result }
    ensures later { LaterSink (K.state out.old) (K.state out.new) }
{
    match score_text(alloc, domain, &problem) {
        Ok(text) => say(out, Status::Ok, &text),
        Err(_) => Status::Memory,
    }
}

/// Writes what explains the score of a problem's plan as read.
fn respond_explanation<B: Book, K: Sink>(
    alloc: Global,
    domain: &Domain<B>,
    problem: Problem,
    out: &mut K,
) -> Status
    requires judges { ⟦<Rules<B> as Judges>⟧.judges domain.now.rules problem.weights (sizes_of problem.plan) }
    ensures ended { let makes = map (λ m. (⟦<dyn Maker as Maker>⟧ m.vtable).made m.value) domain.now.makers.items in
        let posed = posed_in B.meaning makes (domain_view domain.now) (problem_view problem) in
        Ended (Says Status.Ok (explain_text posed)) (K.state out.old) (K.state out.new) result }
    ensures later { LaterSink (K.state out.old) (K.state out.new) }
{
    match explain_text(alloc, domain, &problem) {
        Ok(text) => say(out, Status::Ok, &text),
        Err(_) => Status::Memory,
    }
}

/// Searches a generated problem, and writes the sum of the run.
fn respond_tour<T: Threads + Sync, B: Book, K: Sink, G: Gate + Sync>(
    rt: &T,
    alloc: Global,
    gate: &G,
    number: u32,
    size: u32,
    hands: Hands,
    domain: &Domain<B>,
    problem: Problem,
    out: &mut K,
) -> Status
    requires judges { ⟦<Rules<B> as Judges>⟧.judges domain.now.rules problem.weights (sizes_of problem.plan) }
    requires in_range { IsInRange problem.settings }
    requires hands { AreHands hands.workers hands.buffer }
    ensures ended { let makes = map (λ m. (⟦<dyn Maker as Maker>⟧ m.vtable).made m.value) domain.now.makers.items in
        let posed = posed_in B.meaning makes (domain_view domain.now) (problem_view problem) in
        Ended (Says Status.Ok (tour_text number size posed)) (K.state out.old) (K.state out.new) result }
    ensures later { LaterSink (K.state out.old) (K.state out.new) }
{
    match tour_text(rt, alloc, gate, number, size, hands, domain, problem) {
        Ok(text) => say(out, Status::Ok, &text),
        Err(_) => Status::Memory,
    }
}

/// Writes what is wanted of a problem of this domain that was accepted.
fn respond<T: Threads + Sync, B: Book, K: Sink, G: Gate + Sync>(
    rt: &T,
    alloc: Global,
    gate: &G,
    wanted: Wanted,
    domain: &Domain<B>,
    problem: Problem,
    out: &mut K,
) -> Status
    requires judges { ⟦<Rules<B> as Judges>⟧.judges domain.now.rules problem.weights (sizes_of problem.plan) }
    requires in_range { IsInRange problem.settings }
    requires fit { IsFit wanted }
    ensures ended { let makes = map (λ m. (⟦<dyn Maker as Maker>⟧ m.vtable).made m.value) domain.now.makers.items in
        let wants = text_wanted wanted in
        let is_due = DueForProblem B.meaning makes wants (domain_view domain.now) (problem_view problem) in
        Ended is_due (K.state out.old) (K.state out.new) result }
    ensures later { LaterSink (K.state out.old) (K.state out.new) }
{
    match wanted {
        Wanted::Solution(hands) => {
            status_of(solve(rt, alloc, gate, domain, problem, hands, out))
        }
        Wanted::Score => respond_score(alloc, domain, problem, out),
        Wanted::Explanation => respond_explanation(alloc, domain, problem, out),
        Wanted::Tour {
            number,
            size,
            hands,
        } => respond_tour(rt, alloc, gate, number, size, hands, domain, problem, out),
    }
}

/// Reads the bytes of a problem, and writes what is due: what is wanted of it, or the line that refuses it.
pub fn answer<T: Threads + Sync, B: Book, K: Sink, G: Gate + Sync>(
    rt: &T,
    alloc: Global,
    gate: &G,
    wanted: Wanted,
    bytes: &[u8],
    domains: &[Domain<B>],
    out: &mut K,
) -> Status
    requires keeps { All (λ domain. ⟦<Rules<B> as Kept>⟧.keeps domain.rules) domains.now }
    requires fit { IsFit wanted }
    ensures ended { let makers = map (λ d. map (λ m. (⟦<dyn Maker as Maker>⟧ m.vtable).made m.value)
        d.makers.items) domains.now in
        let is_due = DueForBytes (domain_views domains.now) makers B.meaning (text_wanted wanted) bytes.now in
        Ended is_due (K.state out.old) (K.state out.new) result }
    ensures later { LaterSink (K.state out.old) (K.state out.new) }
{
    match read_problem(alloc, bytes, domains) {
        Ok(problem) => {
            let Some(domain) = domains.get(problem.domain) else {
                unreachable!();
            };
            respond(rt, alloc, gate, wanted, domain, problem, out)
        }
        Err(ProblemFault::Memory) => Status::Memory,
        Err(fault) => refuse(alloc, &fault, out),
    }
}
