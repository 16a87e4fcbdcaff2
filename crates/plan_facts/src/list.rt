use crate::memory::Memory;
use std::alloc::Global;
use std::marker::Model;

/// A list that grows at its end. It keeps its allocator.
#[derive(Drop)]
pub struct List<T> {
    items: Vec<T>,
}

impl<T> Model for List<T> {
    ghost use Rattle.std.specs.Prelude.{List};

    ghost Value = { List T };

    ghost view = { λ list. list.items.items };
}

impl<T> List<T> {
    ghost use Rattle.std.specs.Prelude.{◌≡◌, ◌==◌, ◌++◌, ◌∷◌, [], List, length, slice_get, IfNone, OnOk, OnErr, option_copied, option_to_list};
    ghost use Rattle.std.specs.Borrow.{Lends, Array, sem};
    ghost use Rattle.plan_facts.specs.Lent.{written_back};
    ghost use Rattle.plan_facts.specs.contracts.list.List.{the_row};

    /// The empty list.
    pub fn new(alloc: Global) -> List<T>
        ensures { result ≡ [] }
    {
        List {
            items: Vec::new(alloc),
        }
    }

    /// The number of items.
    pub fn len(&self) -> usize
        ensures { result ≡ length self.now }
    {
        self.items.len()
    }

    /// Whether there is no item.
    pub fn is_empty(&self) -> bool
        ensures { result ≡ (length self.now == 0) }
    {
        self.items.is_empty()
    }

    /// The item at place `n`, from 0; none where the list ends before it.
    pub fn get(&self, n: usize) -> Option<&T>
        ensures { option_copied result ≡ slice_get self.now n }
    {
        self.items.get(n)
    }

    /// All items.
    pub fn as_slice(&self) -> &[T]
        ensures { result.now ≡ self.now }
    {
        &self.items
    }

    /// All items, to be changed in their places.
    pub fn as_mut_slice(&mut self) -> &mut [T]
        ensures* back { sem 𝓛 (Lends (the_row T.row) (Array T.row 0) self.entry result (written_back self.entry.now)) }
        ensures value { result.now ≡ self.old }
    {
        self.items.as_mut_slice()
    }

    /// The items, for a table that keeps them.
    pub(crate) fn into_items(self) -> Vec<T>
        ensures { result.items ≡ self }
    {
        let List { items } = self;
        items
    }

    /// Takes the last item out; none where there is none.
    pub fn pop(&mut self) -> Option<T>
        ensures last { self.old ≡ self.new ++ option_to_list result }
        ensures none { IfNone result (self.old ≡ []) }
    {
        self.items.pop()
    }

    /// Appends an item. At want of memory the list stays as it was.
    pub fn push(&mut self, item: T) -> Result<(), Memory>
    where
        T: Drop,
        ensures ok { OnOk result (self.new ≡ self.old ++ item ∷ []) }
        ensures err { OnErr result (self.new ≡ self.old) }
    {
        self.items.push(item)?;
        Ok(())
    }
}

impl<T: Copy> List<T> {
    ghost use Rattle.std.specs.Prelude.{◌≡◌, IfOk, OnOk};

    /// A list of these items.
    pub fn from_slice(alloc: Global, items: &[T]) -> Result<List<T>, Memory>
        ensures { IfOk result (λ list. list ≡ items.now) }
    {
        Ok(List {
            items: Vec::from_slice(alloc, items)?,
        })
    }

    /// Puts these items in place of those that the list has, in the memory that it has where they fit. At want of memory
    /// what it holds isn't told.
    pub fn refill(&mut self, items: &[T]) -> Result<(), Memory>
        ensures { OnOk result (self.new ≡ items.now) }
    {
        self.items.clear();
        self.items.extend_from_slice(items)?;
        Ok(())
    }

    /// A list with the items of this one.
    pub fn copy(&self, alloc: Global) -> Result<List<T>, Memory>
        ensures { IfOk result (λ list. list ≡ self.now) }
    {
        List::from_slice(alloc, &self.items)
    }
}
