ghost use Rattle.std.specs.Prelude.{◌≡◌, All, Some, None, map};
ghost use Rattle.plan_ports.specs.Outside.{LaterShelf, LaterSink};
ghost use Rattle.plan_json.specs.Seen.{domain_views};
ghost use Rattle.plan_session.specs.Due.{IsDue};
ghost use Rattle.plan_session.specs.Ending.{Ended};
ghost use Rattle.plan_session.specs.Run.{Run};
ghost use Rattle.plan_session.specs.Task.{IsFit, generation_asked, files_asked, task, task_asked, tour_asked};

use crate::answer::answer;
use crate::fed_files::fed_files;
use crate::generate::answer_unread;
use crate::outside::{fetch, say};
use crate::status::Status;
use crate::task::{Wanted, files_of, task_of};
use plan_facts::Text;
use plan_json::{BYTE_LIMIT, Domain};
use plan_moves::MoveMaker as Maker;
use plan_ports::{Gate, ReadFault, Shelf, Sink};
use plan_rules::{Book, Kept, Rules};
use plan_words::{WordFault, read_words};
use std::alloc::Global;
use std::sync::Wait;
use std::thread::Threads;

/// Reads the file of a name and writes what is due for it.
fn perform<T: Threads + Sync, B: Book, S: Shelf, K: Sink, G: Gate + Sync>(
    rt: &T,
    alloc: Global,
    gate: &G,
    name: &[u8],
    wanted: Wanted,
    shelf: &mut S,
    out: &mut K,
    domains: &[Domain<B>],
) -> Status
    requires keeps { All (λ domain. ⟦<Rules<B> as Kept>⟧.keeps domain.rules) domains.now }
    requires fit { IsFit wanted }
    ensures ended { let run : Run = record {
      asked = Some (task name.now wanted);
      generates = None;
      tours = None;
      feeds = None;
      domains = domain_views domains.now;
      makers = map (λ d. map (λ m. (⟦<dyn Maker as Maker>⟧ m.vtable).made m.value) d.makers.items) domains.now;
      meaning = B.meaning;
      shelf = S.state shelf.old;
      shelf_after = S.state shelf.new;
    } in
        Ended (IsDue run) (K.state out.old) (K.state out.new) result }
    ensures given_back { (S.state shelf.new).lent ≡ (S.state shelf.old).lent }
    ensures shelf { LaterShelf (S.state shelf.old) (S.state shelf.new) }
    ensures sink { LaterSink (K.state out.old) (K.state out.new) }
{
    match fetch(alloc, shelf, name, BYTE_LIMIT) {
        Ok(bytes) => answer(rt, alloc, gate, wanted, &bytes, domains, out),
        Err(ReadFault::Memory) => Status::Memory,
        Err(ReadFault::Failed) => say(out, Status::Source, b"refused source\n"),
        Err(ReadFault::TooLong) => say(out, Status::Problem, b"refused problem too_long\n"),
    }
}

/// Carries out what the words ask for: a problem is read from the shelf, and what is due for it is written to the
/// sink. `solve NAME` prints the search of its plan, step by step, with the best plan and its score; `score NAME` the
/// score of its plan as read; `explain NAME` that with each match, and what each fact adds. `gen NUMBER SIZE` prints a
/// generated problem, and `tour NUMBER SIZE` the sum of the run that `solve` prints of it; they read nothing. `replay NAME
/// --feed NAME --journal NAME` prints the run that takes each line of the feed at the boundary that the journal names; the
/// problem is read and judged before the feed is opened, and the feed is read whole before the journal is opened. `solve NAME
/// --feed NAME` searches while the lines of the feed come, and takes each at the boundary that its text names.
pub fn run<T: Threads + Wait + Sync, B: Book, S: Shelf, K: Sink + Send, G: Gate + Sync>(
    rt: &T,
    alloc: Global,
    words: &[Text],
    shelf: &mut S,
    out: &mut K,
    gate: &G,
    domains: &[Domain<B>],
) -> Status
where
    S::File: Send,
    requires keeps { All (λ domain. ⟦<Rules<B> as Kept>⟧.keeps domain.rules) domains.now }

    // How it ended: with the text that is due under its status, or cut short by want of memory or by the sink.
    ensures ended { let run : Run = record {
      asked = task_asked words.now;
      generates = generation_asked words.now;
      tours = tour_asked words.now;
      feeds = files_asked words.now;
      domains = domain_views domains.now;
      makers = map (λ d. map (λ m. (⟦<dyn Maker as Maker>⟧ m.vtable).made m.value) d.makers.items) domains.now;
      meaning = B.meaning;
      shelf = S.state shelf.old;
      shelf_after = S.state shelf.new;
    } in
        Ended (IsDue run) (K.state out.old) (K.state out.new) result }

    // Words that are no command, or one that reads no problem, leave the shelf alone, however it ended.
    ensures untouched { task_asked words.now ≡ None → files_asked words.now ≡ None → shelf.new ≡ shelf.old }

    // Every file that was opened is given back, and shelf and sink promise what they promised.
    ensures given_back { (S.state shelf.new).lent ≡ (S.state shelf.old).lent }
    ensures shelf { LaterShelf (S.state shelf.old) (S.state shelf.new) }
    ensures sink { LaterSink (K.state out.old) (K.state out.new) }
{
    match read_words(alloc, words) {
        Ok(command) => match files_of(alloc, &command) {
            Ok(Some(files)) => fed_files(rt, alloc, gate, &files, shelf, out, domains),
            Ok(None) => match task_of(&command) {
                Some((name, wanted)) => perform(rt, alloc, gate, name, wanted, shelf, out, domains),
                None => answer_unread(rt, alloc, gate, &command, domains, out),
            },
            Err(_) => Status::Memory,
        },
        Err(WordFault::Memory) => Status::Memory,
        Err(WordFault::Usage) => say(out, Status::Usage, b"refused usage\n"),
    }
}
