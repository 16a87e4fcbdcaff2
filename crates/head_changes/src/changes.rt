//! Changes of the records of each class.
ghost use Rattle.std.specs.Prelude.{◌≡◌, [], All, length};
ghost use Rattle.head_changes.specs.Changes.{IsNoChange};

use std::alloc::Global;
use stream_heads::CellsDelta;

/// What leads from the old records of a class to its new ones, as rows of one cell: of all records, and of
/// those without a null variable.
pub struct ClassChange {
    pub all: CellsDelta,
    pub placed: CellsDelta,
}

// Written out, so that its owners let go of it by one call.
impl Drop for ClassChange {
    fn drop(self) {
        let ClassChange { all, placed } = self;
        drop(all);
        drop(placed);
    }
}

/// Nothing went, nothing came.
fn no_rows(alloc: Global) -> CellsDelta
    ensures gone { result.gone.items ≡ [] }
    ensures come { result.come.items ≡ [] }
{
    CellsDelta {
        gone: Vec::new(alloc),
        come: Vec::new(alloc),
    }
}

/// Forgets what went and came, and keeps the memory.
fn clear_rows(rows: &mut CellsDelta)
    ensures gone { rows.new.gone.items ≡ [] }
    ensures come { rows.new.come.items ≡ [] }
{
    rows.gone.clear();
    rows.come.clear();
}

/// Forgets what went and came of each class, and keeps the memory.
pub fn clear(changes: &mut [ClassChange])
    ensures none { All IsNoChange changes.new }
    ensures classes { length changes.new ≡ length changes.old }
{
    for change in changes.iter_mut() {
        change.clear();
    }
}

impl ClassChange {
    ghost use Rattle.head_changes.specs.Changes.{IsNoChange, taking};

    /// Nothing went, nothing came.
    pub fn new(alloc: Global) -> ClassChange
        ensures { IsNoChange result }
    {
        ClassChange {
            all: no_rows(alloc),
            placed: no_rows(alloc),
        }
    }

    /// The change of the records that take part: of all of them where null variables are let in, and else of
    /// those that have none.
    pub fn taking(&self, nulls: bool) -> &CellsDelta
        ensures { result.now ≡ taking self.now nulls }
    {
        if nulls { &self.all } else { &self.placed }
    }

    /// Forgets what went and came.
    fn clear(&mut self)
        ensures { IsNoChange self.new }
    {
        clear_rows(&mut self.all);
        clear_rows(&mut self.placed);
    }
}
