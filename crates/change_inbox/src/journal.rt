// The journal of an inbox that was closed.
use crate::entry::Entry;
use std::marker::Model;

/// All entries, in their order.
#[derive(Drop)]
pub struct Journal<T> {
    entries: Vec<Entry<T>>,
}

impl<T> Model for Journal<T> {
    ghost use Rattle.std.specs.Prelude.{List};
    ghost use Rattle.change_inbox.specs.declared.entry.Entry.{Entry};

    ghost Value = { List (Entry T) };

    ghost view = { λ j. j.entries.items };
}

impl<T> Journal<T> {
    ghost use Rattle.std.specs.Prelude.{◌≡◌, ◌↔◌, [], length, slice_get, option_copied, IsTrue};

    pub(crate) fn of(entries: Vec<Entry<T>>) -> Journal<T>
        ensures { result ≡ entries.items }
    {
        Journal { entries }
    }

    /// The number of entries.
    pub fn len(&self) -> usize
        ensures { result ≡ length self.now }
    {
        self.entries.len()
    }

    /// Whether there is no entry.
    pub fn is_empty(&self) -> bool
        ensures { IsTrue result ↔ (self.now ≡ []) }
    {
        self.entries.is_empty()
    }

    /// The entry at place `n`, from 0; none where the journal ends before it.
    pub fn entry(&self, n: usize) -> Option<&Entry<T>>
        ensures { option_copied result ≡ slice_get self.now n }
    {
        self.entries.get(n)
    }
}
