//! The planning program: its words name a command and a problem, and it prints what is due.
#![tactic(auto)]

ghost use Rattle.std.specs.Thread.{IsSync};

use plan_facts::{Memory, Text};
use plan_json::Domain;
use plan_ports::{FileShelf, NoGate, OutSink};
use plan_session::{Status, run};
use shipped_domains::{Act, Shipped, with_shipped_domains};
use std::alloc::Global;
use std::process::ExitCode;
use std::sync::Wait;
use std::thread::Threads;
use std::{env, io};

/// The words after the program's name. Where one of them isn't UTF-8 there are none, so that they are no command.
fn words_of(rt: &HostRuntime, alloc: Global) -> Result<Vec<Text>, Memory> {
    let mut words = Vec::new(alloc);
    let args = match env::args(rt) {
        Ok(args) => args,
        Err(error) if error.kind() == io::ErrorKind::OutOfMemory => return Err(Memory),
        Err(_) => return Ok(words),
    };
    for word in args.skip(1) {
        words.push(Text::from_slice(alloc, word.as_bytes())?)?;
    }
    Ok(words)
}

/// What the words ask for, over real files.
#[derive(Drop)]
struct Request<'a, T> {
    rt: &'a HostRuntime,
    threads: &'a T,
    alloc: Global,
    words: Vec<Text>,
}

impl<'a, T: Threads + Wait + Sync> Act for Request<'a, T> {
    type Answer = Status;

    // The threads may be shared.
    ghost is_ready = { λ _. IsSync T.row };

    ghost answers = { λ _ _ _. Unit };

    fn act(self, domains: &[Domain<Shipped>]) -> Status {
        let mut shelf = FileShelf::new(self.rt);
        let mut out = OutSink::new(self.rt);
        run(
            self.threads,
            self.alloc,
            &self.words,
            &mut shelf,
            &mut out,
            &NoGate,
            domains,
        )
    }
}

/// Runs what the program's words ask for, in the domains that come with the solver.
fn run_words<T: Threads + Wait + Sync>(
    rt: &HostRuntime,
    threads: &T,
    alloc: Global,
) -> Result<Status, Memory> {
    let request = Request {
        rt,
        threads,
        alloc,
        words: words_of(rt, alloc)?,
    };
    with_shipped_domains(alloc, request)
}

/// Ends with the number of the status; without memory for the domains or the words nothing is written.
fn main(rt: HostRuntime) -> ExitCode {
    let status = run_words(&rt, &rt, rt.alloc()).unwrap_or(Status::Memory);
    ExitCode::from(status.number())
}
