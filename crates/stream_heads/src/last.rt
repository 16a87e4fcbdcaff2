ghost use Rattle.std.specs.Prelude.{◌≡◌, ◌≤◌, ◌∷◌, [], IfOk, IsTrue, None, OnOk, length, map};
ghost use Rattle.plan_rules.specs.declared.row.Part.TheVariants.{Num};
ghost use Rattle.stream_heads.specs.declared.cells.Cell.TheVariants.{Place};
ghost use Rattle.stream_heads.specs.Meant.{Rows, row_at};

use crate::cells::{Cell, Cells};
use crate::heads::Heads;
use plan_facts::Memory;
use plan_rules::Row;
use std::alloc::Global;

/// The places of two records.
#[derive(Clone, Copy)]
pub struct Pair {
    first: u64,
    second: u64,
}

/// The row that was read last, its places where they are those of two records, and whether it shares records with the
/// heads: the next row of two is made of it by the part that differs, and numbers are read into the memory of its parts.
#[derive(Drop)]
pub struct LastRow {
    alloc: Global,
    pair: Option<Pair>,
    is_shared: bool,
    pub row: Row,
}

impl LastRow {
    ghost use Rattle.stream_heads.specs.Last.{IsOfPair, IsReadBy};

    /// Nothing was read.
    pub fn new(alloc: Global) -> LastRow
        ensures { (heads : Rows) → IsReadBy heads result }
    {
        LastRow {
            alloc,
            pair: None,
            is_shared: false,
            row: Row::new(alloc),
        }
    }

    /// Forgets what was read, and lets go of the records that it shares with the heads, so that their memory can be used
    /// again; the memory of numbers stays. To be called where other heads are read than before, or after a change of them.
    pub fn forget(&mut self)
        ensures { (heads : Rows) → IsReadBy heads self.new }
    {
        self.pair = None;
        if self.is_shared {
            self.is_shared = false;
            self.row = Row::new(self.alloc);
        }
    }

    /// Puts the second of two records in, where the row is of the first one already. Whether it was done.
    fn put_second(&mut self, heads: &Heads, pair: Pair) -> Result<bool, Memory>
        requires { IsReadBy heads.now.now self.old }
        ensures done { IfOk result (λ done. IsTrue done → IsOfPair heads.now.now pair self.new.row) }
        ensures read { IsReadBy heads.now.now self.new }
    {
        let Some(last) = self.pair else {
            return Ok(false);
        };
        if last.first != pair.first {
            return Ok(false);
        }
        let Some(head) = heads.head(pair.second) else {
            return Ok(false);
        };
        self.row.put_second(head)?;
        self.pair = Some(pair);
        Ok(true)
    }

    /// Puts the first of two records in, where the row is of the second one already. Whether it was done.
    fn put_first(&mut self, heads: &Heads, pair: Pair) -> Result<bool, Memory>
        requires { IsReadBy heads.now.now self.old }
        ensures done { IfOk result (λ done. IsTrue done → IsOfPair heads.now.now pair self.new.row) }
        ensures read { IsReadBy heads.now.now self.new }
    {
        let Some(last) = self.pair else {
            return Ok(false);
        };
        if last.second != pair.second {
            return Ok(false);
        }
        let Some(head) = heads.head(pair.first) else {
            return Ok(false);
        };
        self.row.put_first(head)?;
        self.pair = Some(pair);
        Ok(true)
    }

    /// Puts two records in. Whether they are live, and it was done.
    fn put_both(&mut self, heads: &Heads, pair: Pair) -> Result<bool, Memory>
        requires { IsReadBy heads.now.now self.old }
        ensures done { IfOk result (λ done. IsTrue done → IsOfPair heads.now.now pair self.new.row) }
        ensures read { IsReadBy heads.now.now self.new }
    {
        match (heads.head(pair.first), heads.head(pair.second)) {
            (Some(one), Some(other)) => {
                self.row = Row::joined(one, other)?;
                self.pair = Some(pair);
                self.is_shared = true;
                Ok(true)
            }
            _ => Ok(false),
        }
    }

    /// Reads numbers, up to three of them into the memory of as many parts.
    #[inline(always)]
    fn read_numbers(&mut self, numbers: &[i64]) -> Result<(), Memory>
        requires { length numbers.now ≤ 4 }
        ensures done { OnOk result (self.new.row ≡ map Num numbers.now) }
        ensures read { self.new.pair ≡ None }
    {
        self.pair = None;
        self.is_shared = false;
        self.row.put_numbers(numbers)
    }

    /// Reads the row of any cells, in new memory.
    fn read_any(&mut self, heads: &Heads, cells: &Cells) -> Result<(), Memory>
        ensures done { OnOk result (self.new.row ≡ row_at heads.now.now cells.now) }
        ensures read { self.new.pair ≡ None }
    {
        self.pair = None;
        self.is_shared = true;
        self.row = heads.row(cells)?;
        Ok(())
    }

    /// Reads the row of two places.
    fn read_pair(&mut self, heads: &Heads, pair: Pair) -> Result<(), Memory>
        requires { IsReadBy heads.now.now self.old }
        ensures done { let cells = Place pair.first ∷ Place pair.second ∷ [] in
            OnOk result (self.new.row ≡ row_at heads.now.now cells) }
        ensures read { IsReadBy heads.now.now self.new }
    {
        if self.put_second(heads, pair)? {
            return Ok(());
        }
        if self.put_first(heads, pair)? {
            return Ok(());
        }
        if self.put_both(heads, pair)? {
            return Ok(());
        }
        let Pair { first, second } = pair;
        self.read_any(
            heads,
            &Cells::of(&[Cell::Place(first), Cell::Place(second)]),
        )
    }

    /// Reads the row that cells mean.
    pub fn read(&mut self, heads: &Heads, cells: &Cells) -> Result<(), Memory>
        requires { IsReadBy heads.now.now self.old }
        ensures done { OnOk result (self.new.row ≡ row_at heads.now.now cells.now) }
        ensures read { IsReadBy heads.now.now self.new }
    {
        match cells.cells() {
            [Cell::Place(first), Cell::Place(second)] => self.read_pair(
                heads,
                Pair {
                    first: *first,
                    second: *second,
                },
            ),
            [Cell::Num(one)] => self.read_numbers(&[*one]),
            [Cell::Num(one), Cell::Num(two)] => self.read_numbers(&[*one, *two]),
            [Cell::Num(one), Cell::Num(two), Cell::Num(three)] => {
                self.read_numbers(&[*one, *two, *three])
            }
            _ => self.read_any(heads, cells),
        }
    }
}
