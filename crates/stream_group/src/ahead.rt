//! What a look ahead at a group node finds.
ghost use Rattle.std.specs.Prelude.{◌≡◌, ◌++◌, ◌∷◌, [], OnOk};
ghost use Rattle.stream_group.specs.Keyed.{coming, leaving};

use crate::change::Change;
use crate::tally::Tally;
use plan_facts::Memory;
use std::alloc::Global;
use stream_heads::Member;

/// What a look ahead finds of the rows that go and come. It is lent to one look after the other.
pub struct GroupAhead {
    /// The rows that come, with their numbers.
    pub come: Vec<Member>,
    pub(crate) changes: Vec<Change>,
    pub(crate) before: Tally,
    pub(crate) after: Tally,
}

// Written out, so that its owners let go of it by one call.
impl Drop for GroupAhead {
    fn drop(self) {
        let GroupAhead {
            come,
            changes,
            before,
            after,
        } = self;
        drop(come);
        drop(changes);
        drop(before);
        drop(after);
    }
}

impl GroupAhead {
    /// Nothing found yet.
    pub fn new(alloc: Global) -> GroupAhead
        ensures { result.come.items ≡ [] }
    {
        GroupAhead {
            come: Vec::new(alloc),
            changes: Vec::new(alloc),
            before: Tally::new(alloc),
            after: Tally::new(alloc),
        }
    }

    /// Forgets what was found.
    pub fn clear(&mut self)
        ensures come { self.new.come.items ≡ [] }
        ensures changes { self.new.changes.items ≡ [] }
    {
        self.come.clear();
        self.changes.clear();
    }

    /// Takes note of a row that goes.
    pub fn note_gone(&mut self, member: &Member) -> Result<(), Memory>
        ensures changes { let known = self.old.changes.items in
            OnOk result (self.new.changes.items ≡ known ++ leaving member.now ∷ []) }
        ensures come { self.new.come.items ≡ self.old.come.items }
    {
        self.changes.push(Change {
            member: *member,
            comes: false,
        })?;
        Ok(())
    }

    /// Takes note of a row that comes.
    pub fn note_come(&mut self, member: &Member) -> Result<(), Memory>
        ensures changes { let known = self.old.changes.items in
            OnOk result (self.new.changes.items ≡ known ++ coming member.now ∷ []) }
        ensures come { OnOk result (self.new.come.items ≡ self.old.come.items ++ member.now ∷ []) }
    {
        self.come.push(*member)?;
        self.changes.push(Change {
            member: *member,
            comes: true,
        })?;
        Ok(())
    }
}
