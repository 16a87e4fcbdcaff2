use crate::memory::Memory;
use std::alloc::Global;
use std::marker::Model;

/// Bytes that grow at their end, as those of a name. It keeps its allocator.
#[derive(Drop, Debug)]
pub struct Text {
    bytes: Vec<u8>,
}

impl Model for Text {
    ghost use Rattle.std.specs.Prelude.{List, ℕ};

    ghost Value = { List ℕ };

    ghost view = { λ text. text.bytes.items };
}

impl Text {
    ghost use Rattle.std.specs.Prelude.{◌≡◌, ◌==◌, ◌↔◌, ◌++◌, ◌∷◌, [], List, ℕ, IsTrue, IfNone, length, slice_get, IfOk, OnOk, OnErr, option_copied, option_to_list};
    ghost use Rattle.std.specs.Borrow.{Lends, Array, sem, u8 as byte};
    ghost use Rattle.plan_facts.specs.Lent.{written_back};
    ghost use Rattle.plan_facts.specs.contracts.text.Text.{the_row};

    /// The empty text.
    pub fn new(alloc: Global) -> Text
        ensures { result ≡ [] }
    {
        Text {
            bytes: Vec::new(alloc),
        }
    }

    /// A text of these bytes.
    pub fn from_slice(alloc: Global, bytes: &[u8]) -> Result<Text, Memory>
        ensures { IfOk result (λ text. text ≡ bytes.now) }
    {
        Ok(Text {
            bytes: Vec::from_slice(alloc, bytes)?,
        })
    }

    /// A text with the bytes of this one.
    pub fn copy(&self, alloc: Global) -> Result<Text, Memory>
        ensures { IfOk result (λ text. text ≡ self.now) }
    {
        Text::from_slice(alloc, &self.bytes)
    }

    /// The number of bytes.
    pub fn len(&self) -> usize
        ensures { result ≡ length self.now }
    {
        self.bytes.len()
    }

    /// Whether there is no byte.
    pub fn is_empty(&self) -> bool
        ensures { result ≡ (length self.now == 0) }
    {
        self.bytes.is_empty()
    }

    /// The byte at place `n`, from 0; none where the text ends before it.
    pub fn get(&self, n: usize) -> Option<&u8>
        ensures { option_copied result ≡ slice_get self.now n }
    {
        self.bytes.get(n)
    }

    /// All bytes.
    pub fn as_slice(&self) -> &[u8]
        ensures { result.now ≡ self.now }
    {
        &self.bytes
    }

    /// All bytes, to be changed in their places.
    pub fn as_mut_slice(&mut self) -> &mut [u8]
        ensures* back { sem 𝓛 (Lends the_row (Array byte 0) self.entry result (written_back self.entry.now)) }
        ensures value { result.now ≡ self.old }
    {
        self.bytes.as_mut_slice()
    }

    /// Takes the last byte out; none where there is none.
    pub fn pop(&mut self) -> Option<u8>
        ensures last { self.old ≡ self.new ++ option_to_list result }
        ensures none { IfNone result (self.old ≡ []) }
    {
        self.bytes.pop()
    }

    /// Appends a byte. At want of memory the text stays as it was.
    pub fn push(&mut self, item: u8) -> Result<(), Memory>
        ensures ok { OnOk result (self.new ≡ self.old ++ item ∷ []) }
        ensures err { OnErr result (self.new ≡ self.old) }
    {
        self.bytes.push(item)?;
        Ok(())
    }

    /// Whether the two texts have the same bytes.
    pub fn same(&self, other: &Text) -> bool
        ensures { IsTrue result ↔ (self.now ≡ other.now) }
    {
        self.bytes.as_slice() == other.bytes.as_slice()
    }
}
