ghost use Rattle.std.specs.Prelude.{◌≡◌, ◌≤◌, ◌<◌, ◌+◌, ◌++◌, ◌∷◌, [], ◌↔◌, IsTrue, length, map};
ghost use Rattle.stream_heads.specs.Beside.{beside};
ghost use Rattle.stream_heads.specs.Equality.{same_cell, same_cells};
ghost use Rattle.stream_heads.specs.Exact.{is_among};
ghost use Rattle.stream_heads.specs.Numbers.{cell_number};

use crate::placed::Placed;
use std::marker::Model;
use stream_index::Key;

/// How many cells a row has at most.
pub const WIDEST: usize = 4;

/// A part of a row inside a network: the place of a record, or a number.
#[derive(Clone, Copy, Debug, PartialEq, Eq)]
pub enum Cell {
    Place(u64),
    Num(i64),
}

/// A row inside a network: at most four cells, held in place. How many there are stands first, beside the first cell, which
/// is what a look at a row mostly reads.
#[derive(Clone, Copy, Debug)]
pub struct Cells {
    len: usize,
    cells: [Cell; WIDEST],
}

impl Model for Cells {
    ghost use Rattle.std.specs.Prelude.{List, take, length};
    ghost use Rattle.stream_heads.specs.declared.cells.Cell.{Cell};
    ghost use Rattle.stream_heads.specs.Filled.{IsFilled, filled};
    ghost use Rattle.stream_heads.specs.FilledBack.{row_back};

    ghost Value = { List Cell };

    ghost view = { λ r. take r.len r.cells };

    ghost invariant = { λ r. IsFilled r.len r.cells };

    ghost inverse = { λ cells. record { cells = filled cells; len = length cells } };

    ghost inverse_ok = { λ r h i. record {
      cells = (row_back r.len r.cells h).0 i;
      len = (row_back r.len r.cells h).1 i;
    } };
}

impl Cell {
    /// The number by which the cell is looked up: the number itself, or the place, as far as it fits.
    #[inline(always)]
    fn number(self) -> i64
        ensures { result ≡ cell_number self }
    {
        match self {
            Cell::Place(n) => { if n < 1 << 63 { n as i64 } else { i64::MAX } }
            Cell::Num(n) => n,
        }
    }
}

/// Whether two cells are the same place or the same number.
#[inline(always)]
fn same_cell(one: Cell, other: Cell) -> bool
    ensures { result ≡ same_cell one other }
{
    match (one, other) {
        (Cell::Place(one), Cell::Place(other)) => one == other,
        (Cell::Num(one), Cell::Num(other)) => one == other,
        _ => false,
    }
}

/// Whether four cells are the same as four others.
#[inline(always)]
fn same_four(one: &[Cell; WIDEST], other: &[Cell; WIDEST]) -> bool
    ensures { result ≡ same_cells one.now other.now }
{
    let [a, b, c, d] = *one;
    let [e, f, g, h] = *other;
    same_cell(a, e) & same_cell(b, f) & same_cell(c, g) & same_cell(d, h)
}

impl Cells {
    /// The row of these cells.
    #[inline(always)]
    pub fn of(cells: &[Cell]) -> Cells
        requires { length cells.now ≤ WIDEST }
        ensures { result ≡ cells.now }
    {
        let none = Cell::Num(0);
        let mut filled = [none; WIDEST];
        match cells {
            [a] => filled = [*a, none, none, none],
            [a, b] => filled = [*a, *b, none, none],
            [a, b, c] => filled = [*a, *b, *c, none],
            [a, b, c, d] => filled = [*a, *b, *c, *d],
            _ => {}
        }
        Cells {
            cells: filled,
            len: cells.len(),
        }
    }

    /// Its cells.
    #[inline(always)]
    pub fn cells(&self) -> &[Cell]
        ensures cells { result.now ≡ self.now }
        ensures few { length result.now ≤ WIDEST }
    {
        &self.cells[..self.len]
    }

    /// The row with one cell more.
    #[inline(always)]
    pub fn with(&self, cell: Cell) -> Cells
        requires { length self.now < WIDEST }
        ensures { result ≡ self.now ++ cell ∷ [] }
    {
        let mut cells = self.cells;
        cells[self.len] = cell;
        Cells {
            cells,
            len: self.len + 1,
        }
    }

    /// Whether the row is one of these.
    #[inline(always)]
    pub fn is_among(&self, rows: &[Cells]) -> bool
        ensures { result ≡ is_among rows.now self.now }
    {
        for row in rows {
            if self.same(row) {
                return true;
            }
        }
        false
    }

    /// The row of two cells.
    #[inline(always)]
    fn pair(one: Cell, other: Cell) -> Cells
        ensures { result ≡ one ∷ other ∷ [] }
    {
        let none = Cell::Num(0);
        Cells {
            cells: [one, other, none, none],
            len: 2,
        }
    }

    /// The row with the first cell of another one behind it, where there is room.
    #[inline(always)]
    pub fn beside(&self, other: &Cells) -> Cells
        ensures { result ≡ beside self.now other.now }
    {
        if other.len == 0 || self.len == WIDEST {
            return *self;
        }
        if self.len == 1 {
            return Cells::pair(self.cells[0], other.cells[0]);
        }
        self.with(other.cells[0])
    }
}

impl Placed for Cells {
    ghost use Rattle.stream_heads.specs.Numbers.{row_numbers};
    ghost use Rattle.stream_heads.specs.Equality.{cells_decide, same_cells};

    ghost key = { row_numbers };

    ghost eq = { same_cells };

    ghost tells = { cells_decide };

    #[inline(always)]
    fn key(&self) -> Key {
        match self.cells() {
            [a] => Key::of(&[a.number()]),
            [a, b] => Key::of(&[a.number(), b.number(), 0]),
            [a, b, c] => Key::of(&[a.number(), b.number(), c.number()]),
            [a, b, c, d] => Key::of(&[a.number(), b.number(), c.number(), d.number()]),
            _ => Key::of(&[]),
        }
    }

    #[inline(always)]
    fn same(&self, other: &Cells) -> bool {
        if self.len == 1 && other.len == 1 {
            return same_cell(self.cells[0], other.cells[0]);
        }
        self.len == other.len && same_four(&self.cells, &other.cells)
    }
}
