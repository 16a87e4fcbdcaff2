//! Runs over memory: what is asked, what was written, and whether that was due.
ghost use Rattle.std.specs.Prelude.{◌≤◌, All, IfOk};
ghost use Rattle.std.specs.Thread.{IsSync};

use super::parts::PARTS;
use plan_facts::{Memory, Text};
use plan_json::Domain;
use plan_ports::{MemFile, MemShelf, MemSink, NoGate};
use plan_rules::{Book, Kept, Rules};
use plan_session::{Status, run};
use shipped_domains::{Act, Shipped, with_shipped_domains};
use std::alloc::Global;
use std::sync::Wait;
use std::thread::Threads;

/// The part of a text that has this name.
fn part(name: &str) -> &'static str {
    for (known, text) in PARTS {
        if *known == name {
            return text;
        }
    }
    ""
}

/// A text with its parts filled in.
pub(super) fn filled(alloc: Global, text: &str) -> Result<Vec<u8>, Memory> {
    let mut out = Vec::new(alloc);
    for piece in text.split('<') {
        match piece.split_once('>') {
            Some((name, rest)) => {
                out.extend_from_slice(part(name).as_bytes())?;
                out.extend_from_slice(rest.as_bytes())?;
            }
            None => out.extend_from_slice(piece.as_bytes())?,
        }
    }
    Ok(out)
}

/// The call of a run that fails: an open, a take of the file of this name, or a put, each by its number; or none.
#[derive(Clone, Copy)]
pub(super) enum Lost {
    Nothing,
    Open(u32),
    Take(u8, u32),
    Put(u32),
}

/// A run over memory: the words, the bytes of the files `p`, `f` and `j`, the call that fails, and how many bytes a take of a
/// file gives and a put takes; then the text and the status that are due.
pub(super) struct Asked {
    pub words: &'static str,
    pub problem: Vec<u8>,
    pub feed: Vec<u8>,
    pub journal: Vec<u8>,
    pub lost: Lost,
    pub take: usize,
    pub put: usize,
    pub text: Vec<u8>,
    pub status: Status,
}

// Written out, so that its owners let go of it by one call.
impl Drop for Asked {
    fn drop(self) {
        let Asked {
            words: _,
            problem,
            feed,
            journal,
            lost: _,
            take: _,
            put: _,
            text,
            status: _,
        } = self;
        drop(problem);
        drop(feed);
        drop(journal);
        drop(text);
    }
}

/// `solve` of a problem, in which no call fails and all is taken at once. Its text is still to be said.
pub(super) fn solved(alloc: Global, problem: Vec<u8>) -> Asked {
    Asked {
        words: "solve p",
        problem,
        feed: Vec::new(alloc),
        journal: Vec::new(alloc),
        lost: Lost::Nothing,
        take: 4096,
        put: 4096,
        text: Vec::new(alloc),
        status: Status::Ok,
    }
}

/// What a run wrote, how it ended, whether it wrote and ended as was due, and how many files it hasn't given back.
#[derive(Drop)]
pub(super) struct Outcome {
    pub text: Vec<u8>,
    pub status: Status,
    pub is_due: bool,
    pub lent: u64,
}

pub(super) fn words_in(alloc: Global, line: &str) -> Result<Vec<Text>, Memory> {
    let mut words = Vec::new(alloc);
    for word in line.split_whitespace() {
        words.push(Text::from_slice(alloc, word.as_bytes())?)?;
    }
    Ok(words)
}

/// A list of one number, or of none.
fn some_of(alloc: Global, number: Option<u32>) -> Result<Vec<u32>, Memory> {
    let mut some = Vec::new(alloc);
    if let Some(number) = number {
        some.push(number)?;
    }
    Ok(some)
}

/// The take of the file of this name that fails.
fn failing_take(lost: Lost, name: u8) -> Option<u32> {
    match lost {
        Lost::Take(of, number) if of == name => Some(number),
        _ => None,
    }
}

/// The open that fails.
fn failing_open(lost: Lost) -> Option<u32> {
    match lost {
        Lost::Open(number) => Some(number),
        _ => None,
    }
}

/// The put that fails.
fn failing_put(lost: Lost) -> Option<u32> {
    match lost {
        Lost::Put(number) => Some(number),
        _ => None,
    }
}

/// A file of a run: its name and its bytes.
fn file(alloc: Global, asked: &Asked, name: u8, bytes: &[u8]) -> Result<MemFile, Memory>
    ensures { IfOk result (λ file. 1 ≤ file.most) }
{
    Ok(MemFile {
        name: Vec::from_slice(alloc, &[name])?,
        bytes: Vec::from_slice(alloc, bytes)?,
        most: asked.take.max(1),
        fail: some_of(alloc, failing_take(asked.lost, name))?,
    })
}

/// The shelf of a run: its problem, its feed and its journal.
pub(super) fn shelf_of(alloc: Global, asked: &Asked) -> Result<MemShelf, Memory> {
    let mut files = Vec::new(alloc);
    files.push(file(alloc, asked, b'p', &asked.problem)?)?;
    files.push(file(alloc, asked, b'f', &asked.feed)?)?;
    files.push(file(alloc, asked, b'j', &asked.journal)?)?;
    Ok(MemShelf::new(alloc, files, some_of(alloc, failing_open(asked.lost))?))
}

/// Whether a run wrote this text, ended so, and gave all files back.
pub(super) fn ended(outcome: &Outcome, text: &[u8], status: Status) -> bool {
    outcome.text.as_slice() == text && outcome.status == status && outcome.lent == 0
}

pub(super) fn run_one<T: Threads + Wait + Sync, B: Book>(
    threads: &T,
    alloc: Global,
    asked: &Asked,
    domains: &[Domain<B>],
) -> Result<Outcome, Memory>
    requires keeps { All (λ domain. ⟦<Rules<B> as Kept>⟧.keeps domain.rules) domains.now }
{
    let words = words_in(alloc, asked.words)?;
    let mut shelf = shelf_of(alloc, asked)?;
    let puts = some_of(alloc, failing_put(asked.lost))?;
    let mut out = MemSink::new(alloc, asked.put.max(1), puts);
    let status = run(
        threads, alloc, &words, &mut shelf, &mut out, &NoGate, domains,
    );
    outcome_of(alloc, asked, out.text(), status, shelf.lent())
}

/// What a run came to that wrote this text.
fn outcome_of(
    alloc: Global,
    asked: &Asked,
    text: &[u8],
    status: Status,
    lent: u64,
) -> Result<Outcome, Memory> {
    let mut outcome = Outcome {
        text: Vec::from_slice(alloc, text)?,
        status,
        is_due: false,
        lent,
    };
    outcome.is_due = ended(&outcome, &asked.text, asked.status);
    Ok(outcome)
}

pub(super) fn run_each<T: Threads + Wait + Sync, B: Book>(
    threads: &T,
    alloc: Global,
    asked: &[Asked],
    domains: &[Domain<B>],
) -> Result<Vec<Outcome>, Memory>
    requires keeps { All (λ domain. ⟦<Rules<B> as Kept>⟧.keeps domain.rules) domains.now }
{
    let mut outcomes = Vec::new(alloc);
    for one in asked {
        outcomes.push(run_one(threads, alloc, one, domains)?)?;
    }
    Ok(outcomes)
}

/// Runs in the domains that come with the solver.
#[derive(Drop)]
struct Runs<'a, T> {
    threads: &'a T,
    alloc: Global,
    asked: &'a [Asked],
}

impl<'a, T: Threads + Wait + Sync> Act for Runs<'a, T> {
    type Answer = Result<Vec<Outcome>, Memory>;

    // The threads may be shared.
    ghost is_ready = { λ _. IsSync T.row };

    ghost answers = { λ _ _ _. Unit };

    fn act(self, domains: &[Domain<Shipped>]) -> Result<Vec<Outcome>, Memory> {
        run_each(self.threads, self.alloc, self.asked, domains)
    }
}

/// What runs came to in the domains that come with the solver.
pub(super) fn outcomes<T: Threads + Wait + Sync>(
    threads: &T,
    alloc: Global,
    asked: &[Asked],
) -> Result<Vec<Outcome>, Memory> {
    let runs = Runs {
        threads,
        alloc,
        asked,
    };
    with_shipped_domains(alloc, runs)?
}

/// The number of the first run that didn't write and end as was due.
pub(super) fn first_undue(outcomes: &[Outcome]) -> Option<usize> {
    for (number, outcome) in outcomes.iter().enumerate() {
        if !outcome.is_due {
            return Some(number);
        }
    }
    None
}

/// The number of the first of these runs that doesn't write and end as is due.
pub(super) fn first_wrong<T: Threads + Wait + Sync>(
    threads: &T,
    alloc: Global,
    asked: &[Asked],
) -> Result<Option<usize>, Memory> {
    let outcomes = outcomes(threads, alloc, asked)?;
    Ok(first_undue(&outcomes))
}
