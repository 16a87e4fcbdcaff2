//! Keys by which rows are found by one of their cells, and where a row's place is put by its keys.
ghost use Rattle.std.specs.Prelude.{◌≡◌, ◌≤◌, OnErr, OnOk, None, length, map};
ghost use Rattle.std.specs.FinMap as finmap;
ghost use Rattle.stream_heads.specs.Numbers.{row_numbers};
ghost use Rattle.stream_end.specs.Keys.{Becomes, cell_key, first_key, put_at, second_key};

use plan_facts::Memory;
use stream_heads::{Cell, Cells, Placed};
use stream_index::{Index, Key};

/// The key of a cell, which no other cell has. That of a place is one number, so that small places are found at once.
#[inline(always)]
pub fn cell_key(cell: Cell) -> Key
    ensures value { result ≡ cell_key cell }
    ensures short { length result ≤ 4 }
{
    match cell {
        Cell::Place(n) => {
            if n < 1 << 63 {
                Key::of(&[n as i64])
            } else {
                Key::of(&[(n / 2) as i64, (n % 2) as i64, 0])
            }
        }
        Cell::Num(n) => Key::of(&[n, 0]),
    }
}

/// The key of a row's first cell; an empty one where it has none.
pub fn first_key(cells: &Cells) -> Key
    ensures value { result ≡ first_key cells.now }
    ensures short { length result ≤ 4 }
{
    match cells.cells() {
        [] => Key::of(&[]),
        [first, ..] => cell_key(*first),
    }
}

/// The key of a row's second cell; an empty one where it has none.
pub fn second_key(cells: &Cells) -> Key
    ensures value { result ≡ second_key cells.now }
    ensures short { length result ≤ 4 }
{
    match cells.cells() {
        [] => Key::of(&[]),
        [_] => Key::of(&[]),
        [_, second, ..] => cell_key(*second),
    }
}

/// Puts a row's place under the keys of its first and of its second cell, or for want of memory under neither.
pub fn put_by_cells(
    firsts: &mut Index,
    seconds: &mut Index,
    cells: &Cells,
    place: u64,
) -> Result<(), Memory>
    requires first { finmap.get firsts.old.now place ≡ None }
    requires second { finmap.get seconds.old.now place ≡ None }
    ensures first { let places = put_at place (first_key cells.now) firsts.old.now in
        OnOk result (Becomes firsts.old firsts.new places) }
    ensures second { let places = put_at place (second_key cells.now) seconds.old.now in
        OnOk result (Becomes seconds.old seconds.new places) }
    ensures first_err { OnErr result (Becomes firsts.old firsts.new firsts.old.now) }
    ensures second_err { OnErr result (Becomes seconds.old seconds.new seconds.old.now) }
{
    let first = first_key(cells);
    firsts.put(first.numbers(), 0, place)?;
    match seconds.put(second_key(cells).numbers(), 0, place) {
        Ok(()) => Ok(()),
        Err(fault) => {
            firsts.kill(first.numbers(), 0, place);
            Err(fault)
        }
    }
}
