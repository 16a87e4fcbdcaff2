//! A store: rows under numbers, as they come and go in trials, beside plain lists too.
ghost use Rattle.std.specs.Prelude.{◌≡◌, ◌<◌, false, length, IfSome, OnOk};

use super::fixtures::drawn;
use std::alloc::Global;
use std::test::Fail;
use tuple_store::{Memory, Store};

/// Whether just these numbers are live, in this order, with these rows.
fn has_rows(store: &Store<u32>, rows: &[(u64, u32)]) -> bool {
    let mut last = None;
    for (number, row) in rows {
        if store.next(last) != Some(*number) || !is_live(store, *number, *row) {
            return false;
        }
        last = Some(*number);
    }
    store.next(last).is_none()
}

/// Whether a number is live with this row.
fn is_live(store: &Store<u32>, number: u64, row: u32) -> bool {
    match store.live(number) {
        Some(live) => *live == row,
        None => false,
    }
}

/// Kills the row of a number, if it is live. Whether it was.
fn kill_live(store: &mut Store<u32>, number: u64) -> bool
    ensures { store.new.is_open ≡ store.old.is_open }
{
    if store.live(number).is_none() {
        return false;
    }
    store.kill(number);
    true
}

/// Whether a row that a trial kills is gone within the trial alone, and one that it adds is there within it alone.
fn kills_for_a_trial(store: &mut Store<u32>) -> Result<bool, Memory>
    requires { store.old.is_open ≡ false }
{
    let n = store.add(7)?;
    store.begin();
    let was_live = kill_live(store, n);
    let v = store.add(8)?;
    let within = is_live(store, v, 8) && store.live(n).is_none();
    store.rollback();
    Ok(was_live && within && has_rows(store, &[(n, 7)]))
}

/// Whether rows that a trial adds and kills are gone after it, and one that it kills of before is back.
fn takes_all_back(store: &mut Store<u32>) -> Result<bool, Memory>
    requires { store.old.is_open ≡ false }
{
    let v = store.add(1)?;
    store.begin();
    let u = store.add(2)?;
    let were_live = kill_live(store, u) && kill_live(store, v);
    store.add(3)?;
    store.rollback();
    Ok(were_live && has_rows(store, &[(v, 1)]))
}

/// Whether what a trial adds and kills stays so after it, and a number that it frees is used again then, but not within it.
fn frees_a_number(store: &mut Store<u32>) -> Result<bool, Memory>
    requires { store.old.is_open ≡ false }
{
    let a = store.add(10)?;
    let b = store.add(20)?;
    store.begin();
    let was_live = kill_live(store, a);
    let c = store.add(30)?;
    store.commit();
    let stays = has_rows(store, &[(b, 20), (c, 30)]);
    let d = store.add(40)?;
    Ok(was_live && c != a && stays && d == a)
}

/// Whether the last of 200 rows is found where the others were killed.
fn finds_the_last(store: &mut Store<u32>) -> Result<bool, Memory> {
    for row in 0..200u32 {
        store.add(row)?;
    }
    for n in 0..199u64 {
        if !kill_live(store, n) {
            return Ok(false);
        }
    }
    Ok(
        has_rows(store, &[(199, 199)])
            && store.next(Some(u64::MAX)).is_none()
            && store.live(u64::MAX).is_none(),
    )
}

/// What a store should do, by the number of its case.
const CASES: &[(u8, &str)] = &[
    (0, "a rolled back trial leaves the contents"),
    (1, "rows added and killed in one trial are gone after it"),
    (2, "a committed trial stays and frees its killed numbers"),
    (3, "numbers past the words are found"),
];

/// Whether a store does in a case what it should.
fn does(store: &mut Store<u32>, case: u8) -> Result<bool, Memory>
    requires { store.old.is_open ≡ false }
{
    match case {
        0 => kills_for_a_trial(store),
        1 => takes_all_back(store),
        2 => frees_a_number(store),
        _ => finds_the_last(store),
    }
}

/// Whether a new store does in a case what it should.
fn holds(alloc: Global, case: u8) -> Result<bool, Memory> {
    let mut store = Store::new(alloc);
    does(&mut store, case)
}

/// The first that a store should do and doesn't.
fn wrong(alloc: Global) -> Result<Option<&'static str>, Memory> {
    for (case, tried) in CASES {
        if !holds(alloc, *case)? {
            return Ok(Some(*tried));
        }
    }
    Ok(None)
}

#[test]
fn a_store_turns_as_was_worked_by_hand(rt: HostRuntime) -> Result<(), Fail> {
    let wrong = wrong(rt.alloc())?;
    assert!(rt; wrong.is_none(), "{wrong:?}");
    Ok(())
}

/// What a store should hold, kept in plain lists.
struct Plain {
    rows: Vec<(u64, u32)>,
    base: Vec<(u64, u32)>,
    in_trial: bool,
}

// Written out, so that its owners let go of it by one call.
impl Drop for Plain {
    fn drop(self) {
        let Plain {
            rows,
            base,
            in_trial: _,
        } = self;
        drop(rows);
        drop(base);
    }
}

/// Where the row of a number stands.
fn place_of(rows: &[(u64, u32)], number: u64) -> Option<usize>
    ensures { IfSome result (λ place. place < length rows.now) }
{
    for place in 0..rows.len() {
        if rows[place].0 == number {
            return Some(place);
        }
    }
    None
}

/// Adds a row to both. Whether its number was free.
fn add_row(store: &mut Store<u32>, plain: &mut Plain, row: u32) -> Result<bool, Memory>
    ensures open { store.new.is_open ≡ store.old.is_open }
    ensures in_trial { plain.new.in_trial ≡ plain.old.in_trial }
{
    let n = store.add(row)?;
    if place_of(&plain.rows, n).is_some() {
        return Ok(false);
    }
    plain.rows.push((n, row))?;
    Ok(true)
}

/// Takes the row of a number out of a plain list.
fn take_row(rows: &mut Vec<(u64, u32)>, number: u64) -> Option<u32> {
    let place = place_of(rows, number)?;
    Some(rows.remove(place).1)
}

/// Kills the next row after a number in both. Whether both had it.
fn kill_row(store: &mut Store<u32>, plain: &mut Plain, after: u64) -> bool
    ensures open { store.new.is_open ≡ store.old.is_open }
    ensures in_trial { plain.new.in_trial ≡ plain.old.in_trial }
{
    let Some(n) = store.next(Some(after)) else {
        return true;
    };
    match take_row(&mut plain.rows, n) {
        Some(row) => is_live(store, n, row) && kill_live(store, n),
        None => false,
    }
}

/// Whether a store holds just the plain rows.
fn is_like(alloc: Global, store: &Store<u32>, plain: &Plain) -> Result<bool, Memory> {
    let mut wanted = Vec::from_slice(alloc, plain.rows.as_slice())?;
    wanted.sort()?;
    Ok(has_rows(store, &wanted))
}

/// Opens a trial, or ends the open one. Whether both hold the same after it.
fn turn_trial(
    alloc: Global,
    store: &mut Store<u32>,
    plain: &mut Plain,
    keeps: bool,
) -> Result<bool, Memory>
    requires { store.old.is_open ≡ plain.old.in_trial }
    ensures { OnOk result (store.new.is_open ≡ plain.new.in_trial) }
{
    if !plain.in_trial {
        plain.base = Vec::from_slice(alloc, plain.rows.as_slice())?;
        store.begin();
        plain.in_trial = true;
        return Ok(true);
    }
    if keeps {
        store.commit();
    } else {
        plain.rows = Vec::from_slice(alloc, plain.base.as_slice())?;
        store.rollback();
    }
    plain.in_trial = false;
    is_like(alloc, store, plain)
}

/// One step of a generated run. Whether both do the same.
fn step(alloc: Global, store: &mut Store<u32>, plain: &mut Plain, word: u64) -> Result<bool, Memory>
    requires { store.old.is_open ≡ plain.old.in_trial }
    ensures { OnOk result (store.new.is_open ≡ plain.new.in_trial) }
{
    let choice = word % 16;
    if choice == 0 {
        return turn_trial(alloc, store, plain, word / 16 % 2 == 0);
    }
    if choice < 9 && plain.rows.len() < 200 {
        return add_row(store, plain, (word >> 32) as u32);
    }
    Ok(kill_row(store, plain, word / 16 % 256))
}

/// Whether a store and plain lists do the same in a generated run.
fn all_steps(alloc: Global, store: &mut Store<u32>, plain: &mut Plain) -> Result<bool, Memory>
    requires { store.old.is_open ≡ plain.old.in_trial }
{
    let mut word = 88172645463325252;
    for _ in 0..100000u32 {
        word = drawn(word);
        if !step(alloc, store, plain, word)? {
            return Ok(false);
        }
    }
    is_like(alloc, store, plain)
}

#[test]
fn a_generated_run_of_a_store_agrees_with_plain_lists(rt: HostRuntime) -> Result<(), Fail> {
    let alloc = rt.alloc();
    let mut store = Store::new(alloc);
    let mut plain = Plain {
        rows: Vec::new(alloc),
        base: Vec::new(alloc),
        in_trial: false,
    };
    assert!(rt; all_steps(alloc, &mut store, &mut plain)?);
    Ok(())
}
