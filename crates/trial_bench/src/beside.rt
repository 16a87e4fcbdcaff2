//! An index beside a plain map of lists: the same moves with both.
ghost use Rattle.std.specs.Prelude.{◌≡◌, false, OnOk};
ghost use Rattle.trial_bench.specs.Free.{IsFreeFrom};

use crate::clocked::{no_memory, tenths_since};
use crate::index::{self, read_buckets};
use crate::plain::{self, Plain};
use std::alloc::Global;
use std::io;
use std::rt::Clock;
use std::time::Instant;
use stream_index::Index;

/// How long one of each of the moves took, in tenths of a nanosecond.
#[derive(Clone, Copy)]
struct Spent {
    put: u64,
    renew: u64,
    look: u64,
    trial: u64,
}

/// The shorter time of each of the moves.
fn shorter(a: Spent, b: Spent) -> Spent {
    Spent {
        put: a.put.min(b.put),
        renew: a.renew.min(b.renew),
        look: a.look.min(b.look),
        trial: a.trial.min(b.trial),
    }
}

/// How long an entry took to be put into an index.
fn time_of_puts(rt: &impl Clock, index: &mut Index, size: u64) -> io::Result<u64>
    requires free { IsFreeFrom 0 index.old.now }
    ensures free { OnOk result (IsFreeFrom size index.new.now) }
    ensures open { index.new.is_open ≡ index.old.is_open }
{
    let start = Instant::now(rt)?;
    index::fill(index, size).map_err(|_| no_memory())?;
    tenths_since(rt, start, size)
}

/// How long an entry took to be renewed.
fn time_of_renewals(rt: &impl Clock, index: &mut Index, size: u64) -> io::Result<u64>
    requires { IsFreeFrom size index.old.now }
    ensures free { OnOk result (IsFreeFrom size index.new.now) }
    ensures open { index.new.is_open ≡ index.old.is_open }
{
    let start = Instant::now(rt)?;
    index::renew(index, size, size).map_err(|_| no_memory())?;
    tenths_since(rt, start, size)
}

/// How long a trial took.
fn time_of_trials(rt: &impl Clock, index: &mut Index, size: u64) -> io::Result<u64>
    requires free { IsFreeFrom size index.old.now }
    requires open { index.old.is_open ≡ false }
{
    let start = Instant::now(rt)?;
    index::try_out(index, size, size).map_err(|_| no_memory())?;
    tenths_since(rt, start, size)
}

/// The times of an index, and what its buckets come to.
fn with_index(rt: &impl Clock, alloc: Global, size: u64) -> io::Result<(Spent, u64)> {
    let mut index = Index::new(alloc);
    let put = time_of_puts(rt, &mut index, size)?;
    let renew = time_of_renewals(rt, &mut index, size)?;
    let start = Instant::now(rt)?;
    let sum = read_buckets(&index, size, size);
    let look = tenths_since(rt, start, size)?;
    let trial = time_of_trials(rt, &mut index, size)?;
    let spent = Spent {
        put,
        renew,
        look,
        trial,
    };
    Ok((spent, sum))
}

/// How long an entry took to be put into a plain map.
fn time_of_plain_puts(rt: &impl Clock, plain: &mut Plain, size: u64) -> io::Result<u64> {
    let start = Instant::now(rt)?;
    plain::fill(plain, size).map_err(|_| no_memory())?;
    tenths_since(rt, start, size)
}

/// How long an entry of a plain map took to be renewed.
fn time_of_plain_renewals(rt: &impl Clock, plain: &mut Plain, size: u64) -> io::Result<u64> {
    let start = Instant::now(rt)?;
    plain::renew(plain, size).map_err(|_| no_memory())?;
    tenths_since(rt, start, size)
}

/// How long the moves of a trial took with a plain map.
fn time_of_plain_trials(rt: &impl Clock, plain: &mut Plain, size: u64) -> io::Result<u64> {
    let start = Instant::now(rt)?;
    plain::try_out(plain, size).map_err(|_| no_memory())?;
    tenths_since(rt, start, size)
}

/// The times of a plain map, and what its lists come to.
fn with_plain(rt: &impl Clock, alloc: Global, size: u64) -> io::Result<(Spent, u64)> {
    let mut plain = Plain::new(alloc);
    let put = time_of_plain_puts(rt, &mut plain, size)?;
    let renew = time_of_plain_renewals(rt, &mut plain, size)?;
    let start = Instant::now(rt)?;
    let sum = plain::read(&plain, size, size);
    let look = tenths_since(rt, start, size)?;
    let trial = time_of_plain_trials(rt, &mut plain, size)?;
    let spent = Spent {
        put,
        renew,
        look,
        trial,
    };
    Ok((spent, sum))
}

/// Says one time beside the other, and their ratio.
fn report(rt: &impl Eprint, size: u64, what: &str, index: u64, plain: u64) -> io::Result<()> {
    let ratio = index.saturating_mul(100) / plain.max(1);
    let whole = ratio / 100;
    let part = ratio % 100;
    let index = index / 10;
    let plain = plain / 10;
    eprintln!(rt; "{what} at {size}: {index} ns, {plain} of a plain map, ratio {whole}.{part:02}")
}

/// Drives both at a size, so many times, and says the least times where they are asked for.
pub fn drive<R: Print + Eprint + Clock>(
    rt: &R,
    alloc: Global,
    times: bool,
    size: u64,
) -> io::Result<()> {
    let (mut index, buckets) = with_index(rt, alloc, size)?;
    let (mut plain, lists) = with_plain(rt, alloc, size)?;
    rt.println(format_args!(
        "buckets of {size}: places come to {buckets}, and to {lists} in lists"
    ))?;
    if !times {
        return Ok(());
    }
    for _ in 0..20 {
        index = shorter(index, with_index(rt, alloc, size)?.0);
        plain = shorter(plain, with_plain(rt, alloc, size)?.0);
    }
    report(rt, size, "put", index.put, plain.put)?;
    report(rt, size, "put and kill", index.renew, plain.renew)?;
    report(rt, size, "look-up of ten", index.look, plain.look)?;
    report(rt, size, "trial of three", index.trial, plain.trial)
}
