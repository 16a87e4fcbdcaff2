ghost use Rattle.std.specs.Prelude.{◌≡◌, ◌≤◌, ℕ, false, None, OnOk};
ghost use Rattle.std.specs.FinMap as map;
ghost use Rattle.trial_bench.specs.Free.{IsFreeFrom};

use crate::clocked::{no_memory, report};
use plan_facts::{List, Memory};
use std::alloc::Global;
use std::io;
use std::rt::Clock;
use std::time::Instant;
use stream_index::Index;

/// The key of a place, of which ten places in a filled index have each.
pub fn key_of(place: u64, size: u64) -> i64 {
    let keys = (size / 10).max(1);
    (place % keys % 1000000000) as i64
}

pub fn fill(index: &mut Index, size: u64) -> Result<(), Memory>
    requires free { IsFreeFrom 0 index.old.now }
    ensures free { OnOk result (IsFreeFrom size index.new.now) }
    ensures open { index.new.is_open ≡ index.old.is_open }
{
    for place in 0..size {
        index.put(&[key_of(place, size)], 0, place)?;
    }
    Ok(())
}

/// Puts an entry more and kills it again, so many times.
pub fn renew(index: &mut Index, size: u64, count: u64) -> Result<(), Memory>
    requires { IsFreeFrom size index.old.now }
    ensures free { OnOk result (IsFreeFrom size index.new.now) }
    ensures open { index.new.is_open ≡ index.old.is_open }
{
    for round in 0..count {
        let key = key_of(round, size);
        index.put(&[key], 0, size)?;
        index.kill(&[key], 0, size);
    }
    Ok(())
}

/// Puts an entry more, kills it, puts it again, and takes all back, so many times.
pub fn try_out(index: &mut Index, size: u64, count: u64) -> Result<(), Memory>
    requires free { IsFreeFrom size index.old.now }
    requires open { index.old.is_open ≡ false }
    ensures free { OnOk result (IsFreeFrom size index.new.now) }
    ensures open { OnOk result (index.new.is_open ≡ false) }
{
    for round in 0..count {
        let key = key_of(round, size);
        index.begin();
        index.put(&[key], 0, size)?;
        index.kill(&[key], 0, size);
        index.put(&[key], 1, size)?;
        index.rollback();
    }
    Ok(())
}

/// How many places so many look-ups give, in increasing order.
fn look_up(index: &Index, into: &mut List<u64>, size: u64, count: u64) -> Result<u64, Memory> {
    let mut hits = 0u64;
    for round in 0..count {
        index.under(&[key_of(round, size)], None, None, into)?;
        hits = hits.saturating_add(into.len() as u64);
        while into.pop().is_some() {}
    }
    Ok(hits)
}

/// What the places in so many buckets come to.
pub fn read_buckets(index: &Index, size: u64, count: u64) -> u64 {
    let mut sum = 0u64;
    for round in 0..count {
        for place in index.bucket(&[key_of(round, size)]) {
            sum = sum.wrapping_add(*place);
        }
    }
    sum
}

/// Fills an index, and says how long it took.
fn drive_puts<R: Eprint + Clock>(
    rt: &R,
    times: bool,
    index: &mut Index,
    size: u64,
) -> io::Result<()>
    requires free { IsFreeFrom 0 index.old.now }
    ensures free { OnOk result (IsFreeFrom size index.new.now) }
    ensures open { index.new.is_open ≡ index.old.is_open }
{
    let start = Instant::now(rt)?;
    fill(index, size).map_err(|_| no_memory())?;
    report(rt, times, "index put", size, start)
}

/// Renews an entry as often as the index has some, and says how long it took.
fn drive_renewals<R: Eprint + Clock>(
    rt: &R,
    times: bool,
    what: &str,
    index: &mut Index,
    size: u64,
) -> io::Result<()>
    requires { IsFreeFrom size index.old.now }
    ensures free { OnOk result (IsFreeFrom size index.new.now) }
    ensures open { index.new.is_open ≡ index.old.is_open }
{
    let start = Instant::now(rt)?;
    renew(index, size, size).map_err(|_| no_memory())?;
    report(rt, times, what, size, start)
}

/// Looks as many keys up, says how long it took, and answers how many places that gave.
fn drive_look_ups<R: Eprint + Clock>(
    rt: &R,
    alloc: Global,
    times: bool,
    what: &str,
    index: &Index,
    size: u64,
) -> io::Result<u64> {
    let mut into = List::new(alloc);
    let start = Instant::now(rt)?;
    let hits = look_up(index, &mut into, size, size).map_err(|_| no_memory())?;
    report(rt, times, what, size, start)?;
    Ok(hits)
}

/// Makes so many trials, and says how long they took.
fn drive_trials<R: Eprint + Clock>(
    rt: &R,
    times: bool,
    index: &mut Index,
    size: u64,
    rounds: u64,
) -> io::Result<()>
    requires free { IsFreeFrom size index.old.now }
    requires open { index.old.is_open ≡ false }
    ensures free { OnOk result (IsFreeFrom size index.new.now) }
    ensures open { OnOk result (index.new.is_open ≡ false) }
{
    let start = Instant::now(rt)?;
    try_out(index, size, rounds).map_err(|_| no_memory())?;
    report(rt, times, "index trial of three, of many", rounds, start)
}

/// Drives an index at a size.
pub fn drive<R: Print + Eprint + Clock>(
    rt: &R,
    alloc: Global,
    times: bool,
    size: u64,
    rounds: u64,
) -> io::Result<()> {
    let mut index = Index::new(alloc);
    drive_puts(rt, times, &mut index, size)?;
    drive_renewals(rt, times, "index put and kill", &mut index, size)?;
    let hits = drive_look_ups(rt, alloc, times, "index look-up of ten", &index, size)?;
    drive_trials(rt, times, &mut index, size, rounds)?;
    drive_renewals(
        rt,
        times,
        "index put and kill, after trials",
        &mut index,
        size,
    )?;
    let again = drive_look_ups(
        rt,
        alloc,
        times,
        "index look-up, after trials",
        &index,
        size,
    )?;
    rt.println(format_args!("index of {size}: look-ups give {hits}, and {again} after the trials"))
}
