//! Runs many commands over the files of data/: each two of its words are a command and the name of a problem. It
//! prints the text that each is due, and the number of its status. What it must print was computed by another program.
#![tactic(auto)]

ghost use Rattle.std.specs.Prelude.{All};
ghost use Rattle.std.specs.Thread.{IsSync};

use plan_facts::Text;
use plan_json::Domain;
use plan_ports::{FileShelf, NoGate, OutSink};
use plan_rules::{Kept, Rules};
use plan_session::run;
use shipped_domains::{Act, Shipped, with_shipped_domains};
use std::alloc::Global;
use std::sync::Wait;
use std::thread::Threads;
use std::{env, io};

/// Runs one command, and prints its status.
fn run_case<T: Threads + Wait + Sync>(
    rt: &HostRuntime,
    threads: &T,
    alloc: Global,
    words: &[Text],
    domains: &[Domain<Shipped>],
) -> io::Result<()>
    requires keeps { All (λ domain. ⟦<Rules<Shipped> as Kept>⟧.keeps domain.rules) domains.now }
{
    let mut shelf = FileShelf::new(rt);
    let mut out = OutSink::new(rt);
    let status = run(
        threads, alloc, words, &mut shelf, &mut out, &NoGate, domains,
    );
    rt.println(format_args!("status {}", status.number()))
}

/// Runs each two of the program's words as a command.
fn run_cases<T: Threads + Wait + Sync>(
    rt: &HostRuntime,
    threads: &T,
    alloc: Global,
    domains: &[Domain<Shipped>],
) -> io::Result<()>
    requires keeps { All (λ domain. ⟦<Rules<Shipped> as Kept>⟧.keeps domain.rules) domains.now }
{
    let mut words = Vec::new(alloc);
    for word in env::args(rt)?.skip(1) {
        let Ok(word) = Text::from_slice(alloc, word.as_bytes()) else {
            return Err(io::ErrorKind::OutOfMemory.into());
        };
        words.push(word)?;
        if words.len() == 2 {
            run_case(rt, threads, alloc, &words, domains)?;
            words.clear();
        }
    }
    Ok(())
}

/// All commands of the program's words.
#[derive(Drop)]
struct Commands<'a, T> {
    rt: &'a HostRuntime,
    threads: &'a T,
    alloc: Global,
}

impl<'a, T: Threads + Wait + Sync> Act for Commands<'a, T> {
    type Answer = io::Result<()>;

    // The threads may be shared.
    ghost is_ready = { λ _. IsSync T.row };

    ghost answers = { λ _ _ _. Unit };

    fn act(self, domains: &[Domain<Shipped>]) -> io::Result<()> {
        run_cases(self.rt, self.threads, self.alloc, domains)
    }
}

/// Runs all commands in the domains that come with the solver.
fn run_all<T: Threads + Wait + Sync>(
    rt: &HostRuntime,
    threads: &T,
    alloc: Global,
) -> io::Result<()> {
    match with_shipped_domains(alloc, Commands { rt, threads, alloc }) {
        Ok(answer) => answer,
        Err(_) => Err(io::ErrorKind::OutOfMemory.into()),
    }
}

fn main(rt: HostRuntime) -> io::Result<()> {
    run_all(&rt, &rt, rt.alloc())
}
