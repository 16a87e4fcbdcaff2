ghost use Rattle.std.specs.Prelude.{◌≡◌, ◌≤◌, ◌++◌, All, None, OnOk, map};
ghost use Rattle.plan_json.specs.Seen.{domain_views};
ghost use Rattle.plan_ports.specs.Outside.{LaterSink};
ghost use Rattle.plan_words.specs.Command.{AreHands, IsSized};
ghost use Rattle.plan_session.specs.Due.{DueForTour, DueUnread, generated_text};
ghost use Rattle.plan_session.specs.Ending.{Ended, Says};
ghost use Rattle.plan_session.specs.Task.{fed_by, task_of};

use crate::answer::answer;
use crate::outside::say;
use crate::searching::Hands;
use crate::status::Status;
use crate::task::Wanted;
use plan_facts::Memory;
use plan_gen::problem_text;
use plan_json::Domain;
use plan_moves::MoveMaker as Maker;
use plan_ports::{Gate, Sink};
use plan_rules::{Book, Kept, Rules};
use plan_words::Command;
use std::alloc::Global;
use std::thread::Threads;

/// Appends the generated problem of a number and a size, as one line.
fn push_generated(number: u32, size: u32, text: &mut Vec<u8>) -> Result<(), Memory>
    requires { (1 ≤ size) × (size ≤ 10000) }
    ensures { OnOk result (text.new.items ≡ text.old.items ++ generated_text number size) }
{
    if problem_text(number, size, text).is_err() {
        return Err(Memory);
    }
    text.push(b'\n')?;
    Ok(())
}

/// Writes the generated problem of a number and a size.
fn generate<K: Sink>(alloc: Global, number: u32, size: u32, out: &mut K) -> Status
    requires { (1 ≤ size) × (size ≤ 10000) }
    ensures ended { let is_due = Says Status.Ok (generated_text number size) in
        Ended is_due (K.state out.old) (K.state out.new) result }
    ensures later { LaterSink (K.state out.old) (K.state out.new) }
{
    let mut text = Vec::new(alloc);
    match push_generated(number, size, &mut text) {
        Ok(()) => say(out, Status::Ok, &text),
        Err(_) => Status::Memory,
    }
}

/// Generates the problem of a number and a size, searches it, and writes the sum of the run; or the line that refuses the
/// problem, where no domain is that of a timetable.
fn tour<T: Threads + Sync, B: Book, K: Sink, G: Gate + Sync>(
    rt: &T,
    alloc: Global,
    gate: &G,
    number: u32,
    size: u32,
    hands: Hands,
    domains: &[Domain<B>],
    out: &mut K,
) -> Status
    requires sized { (1 ≤ size) × (size ≤ 10000) }
    requires hands { AreHands hands.workers hands.buffer }
    requires keeps { All (λ domain. ⟦<Rules<B> as Kept>⟧.keeps domain.rules) domains.now }
    ensures ended { let makers = map (λ d. map (λ m. (⟦<dyn Maker as Maker>⟧ m.vtable).made m.value)
        d.makers.items) domains.now in
        let is_due = DueForTour (domain_views domains.now) makers B.meaning number size in
        Ended is_due (K.state out.old) (K.state out.new) result }
    ensures later { LaterSink (K.state out.old) (K.state out.new) }
{
    let mut bytes = Vec::new(alloc);
    match problem_text(number, size, &mut bytes) {
        Ok(()) => {
            let wanted = Wanted::Tour {
                number,
                size,
                hands,
            };
            answer(rt, alloc, gate, wanted, &bytes, domains, out)
        }
        Err(_) => Status::Memory,
    }
}

/// Writes what is due for a command that reads no problem: what it generates, or the sum of a tour.
pub fn answer_unread<T: Threads + Sync, B: Book, K: Sink, G: Gate + Sync>(
    rt: &T,
    alloc: Global,
    gate: &G,
    command: &Command,
    domains: &[Domain<B>],
    out: &mut K,
) -> Status
    requires sized { IsSized command.now }
    requires unread { (task_of command.now ≡ None) × (fed_by command.now ≡ None) }
    requires keeps { All (λ domain. ⟦<Rules<B> as Kept>⟧.keeps domain.rules) domains.now }
    ensures ended { let makers = map (λ d. map (λ m. (⟦<dyn Maker as Maker>⟧ m.vtable).made m.value)
        d.makers.items) domains.now in
        let is_due = DueUnread (domain_views domains.now) makers B.meaning command.now in
        Ended is_due (K.state out.old) (K.state out.new) result }
    ensures later { LaterSink (K.state out.old) (K.state out.new) }
{
    match command {
        Command::Gen { number, size } => generate(alloc, *number, *size, out),
        Command::Tour {
            number,
            size,
            workers,
            buffer,
        } => {
            let hands = Hands {
                workers: *workers,
                buffer: *buffer,
            };
            tour(rt, alloc, gate, *number, *size, hands, domains, out)
        }
        _ => unreachable!(),
    }
}
