ghost use Rattle.std.specs.Prelude.{◌≡◌, false, OnOk};

use crate::clocked::{no_memory, report};
use std::alloc::Global;
use std::io;
use std::rt::Clock;
use std::time::Instant;
use tuple_store::{Memory, Store};

fn fill(store: &mut Store<u64>, size: u64) -> Result<(), Memory>
    ensures { store.new.is_open ≡ store.old.is_open }
{
    for row in 0..size {
        store.add(row)?;
    }
    Ok(())
}

/// Kills every second number and adds as many rows.
fn renew(store: &mut Store<u64>, size: u64) -> Result<(), Memory>
    ensures { store.new.is_open ≡ store.old.is_open }
{
    for n in 0..size {
        if n % 2 == 0 && store.live(n).is_some() {
            store.kill(n);
        }
    }
    for row in 0..size / 2 {
        store.add(row)?;
    }
    Ok(())
}

/// Adds two rows, kills one of them and an old one, and takes all back, so many times.
fn try_out(store: &mut Store<u64>, size: u64, count: u64) -> Result<(), Memory>
    requires { store.old.is_open ≡ false }
    ensures { OnOk result (store.new.is_open ≡ false) }
{
    for round in 0..count {
        store.begin();
        let kept = store.add(round)?;
        store.add(round)?;
        if store.live(kept).is_some() {
            store.kill(kept);
        }
        let old = round % size.max(1);
        if store.live(old).is_some() {
            store.kill(old);
        }
        store.rollback();
    }
    Ok(())
}

/// How many live numbers a walk meets.
fn walk(store: &Store<u64>, size: u64) -> u64 {
    let mut count = 0u64;
    let mut at = store.next(None);
    for _ in 0..size.saturating_mul(2) {
        let Some(n) = at else {
            break;
        };
        count = count.saturating_add(1);
        at = store.next(Some(n));
    }
    count
}

/// Kills all rows but the last, and counts the steps to it.
fn thin_out(store: &mut Store<u64>, size: u64) -> u64
    ensures { store.new.is_open ≡ store.old.is_open }
{
    for n in 0..size.saturating_sub(1) {
        if store.live(n).is_some() {
            store.kill(n);
        }
    }
    walk(store, size)
}

/// Fills a store, and says how long it took.
fn drive_adds<R: Eprint + Clock>(
    rt: &R,
    times: bool,
    store: &mut Store<u64>,
    size: u64,
) -> io::Result<()>
    ensures { store.new.is_open ≡ store.old.is_open }
{
    let start = Instant::now(rt)?;
    fill(store, size).map_err(|_| no_memory())?;
    report(rt, times, "store add", size, start)
}

/// Renews as many rows as a store has some, and says how long it took.
fn drive_renewals<R: Eprint + Clock>(
    rt: &R,
    times: bool,
    what: &str,
    store: &mut Store<u64>,
    size: u64,
) -> io::Result<()>
    ensures { store.new.is_open ≡ store.old.is_open }
{
    let start = Instant::now(rt)?;
    renew(store, size).map_err(|_| no_memory())?;
    report(rt, times, what, size, start)
}

/// Makes so many trials, and says how long they took.
fn drive_trials<R: Eprint + Clock>(
    rt: &R,
    times: bool,
    what: &str,
    store: &mut Store<u64>,
    size: u64,
    rounds: u64,
) -> io::Result<()>
    requires { store.old.is_open ≡ false }
    ensures { OnOk result (store.new.is_open ≡ false) }
{
    let start = Instant::now(rt)?;
    try_out(store, size, rounds).map_err(|_| no_memory())?;
    report(rt, times, what, rounds, start)
}

/// Walks through a store, says how long it took, and answers how many rows it met.
fn drive_walk<R: Eprint + Clock>(
    rt: &R,
    times: bool,
    store: &Store<u64>,
    size: u64,
) -> io::Result<u64> {
    let start = Instant::now(rt)?;
    let met = walk(store, size);
    report(rt, times, "store next", size, start)?;
    Ok(met)
}

/// Kills all rows but the last, says how long it took, and answers how many rows are met then.
fn drive_kills<R: Eprint + Clock>(
    rt: &R,
    times: bool,
    store: &mut Store<u64>,
    size: u64,
) -> io::Result<u64> {
    let start = Instant::now(rt)?;
    let left = thin_out(store, size);
    report(rt, times, "store kills and a walk", size, start)?;
    Ok(left)
}

/// Drives a store at a size.
pub fn drive<R: Print + Eprint + Clock>(
    rt: &R,
    alloc: Global,
    times: bool,
    size: u64,
    rounds: u64,
) -> io::Result<()> {
    let mut store = Store::new(alloc);
    drive_adds(rt, times, &mut store, size)?;
    drive_renewals(rt, times, "store kill or add", &mut store, size)?;
    drive_trials(
        rt,
        times,
        "store trial of four calls",
        &mut store,
        size,
        1000,
    )?;
    drive_trials(
        rt,
        times,
        "store trial of four, of many",
        &mut store,
        size,
        rounds,
    )?;
    drive_renewals(
        rt,
        times,
        "store kill or add after the trials",
        &mut store,
        size,
    )?;
    let met = drive_walk(rt, times, &store, size)?;
    let left = drive_kills(rt, times, &mut store, size)?;
    rt.println(format_args!("store of {size}: a walk meets {met}, and {left} where one is left"))
}
