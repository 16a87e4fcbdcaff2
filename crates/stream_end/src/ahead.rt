//! What a look ahead at the rows of a rule's end finds.
ghost use Rattle.std.specs.Prelude.{◌≡◌, ◌+◌, ◌++◌, ◌∷◌, [], OnOk};
ghost use Rattle.stream_end.specs.Weights.{clipped, weighed};

use plan_facts::Memory;
use std::alloc::Global;
use stream_heads::{Cells, LastRow, Member};
use stream_index::Key;

/// What a look ahead finds: the rows that come with their match weights, which are none where nothing weighs them, and
/// what all rows add up to once the change is done. It is lent to one look after the other, and with it the row that the
/// weigher was asked of last.
pub struct EndAhead {
    pub come: Vec<Member>,
    pub total: u64,
    pub(crate) asked: LastRow,
}

// Written out, so that its owners let go of it by one call.
impl Drop for EndAhead {
    fn drop(self) {
        let EndAhead {
            come,
            total: _,
            asked,
        } = self;
        drop(come);
        drop(asked);
    }
}

impl EndAhead {
    /// Nothing found yet.
    pub fn new(alloc: Global) -> EndAhead
        ensures come { result.come.items ≡ [] }
        ensures total { result.total ≡ 0 }
    {
        EndAhead {
            come: Vec::new(alloc),
            total: 0,
            asked: LastRow::new(alloc),
        }
    }

    /// Forgets what was found, and begins with this total.
    pub(crate) fn restart(&mut self, total: u64)
        ensures come { self.new.come.items ≡ [] }
        ensures total { self.new.total ≡ total }
    {
        self.come.clear();
        self.total = total;
    }

    /// Takes note of a row that comes, with its weight.
    pub(crate) fn note(&mut self, cells: &Cells, weight: u32) -> Result<(), Memory>
        ensures come { let known = self.old.come.items in
            OnOk result (self.new.come.items ≡ known ++ weighed cells.now weight ∷ []) }
        ensures total { OnOk result (self.new.total ≡ clipped (self.old.total + weight)) }
        ensures asked { self.new.asked ≡ self.old.asked }
    {
        self.come.push(Member {
            cells: *cells,
            numbers: Key::of(&[i64::from(weight)]),
        })?;
        self.total = self.total.saturating_add(u64::from(weight));
        Ok(())
    }

    /// Counts so many rows that come, each of which weighs 1.
    pub(crate) fn count(&mut self, rows: u64)
        ensures come { self.new.come.items ≡ self.old.come.items }
        ensures total { self.new.total ≡ clipped (self.old.total + rows) }
    {
        self.total = self.total.saturating_add(rows);
    }
}
