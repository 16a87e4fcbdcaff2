use crate::memory::Memory;
use indexmap::IndexSet;
use std::alloc::Global;
use std::marker::Model;

/// Texts, numbered from 0 in the order of first sight: at most 10^9, each once.
#[derive(Drop)]
pub struct Names {
    texts: IndexSet<Vec<u8>>,
    alloc: Global,
}

impl Model for Names {
    ghost use Rattle.std.specs.Prelude.{List, ℕ, map};

    ghost Value = { List (List ℕ) };

    ghost use Rattle.plan_facts.specs.Names.{IsNumbered};

    ghost view = { λ names. map (λ text. text.items) names.texts.keys };

    ghost invariant = { λ names. IsNumbered (map (λ text. text.items) names.texts.keys) };
}

impl Names {
    ghost use Rattle.std.specs.Prelude.{◌≡◌, ◌≤◌, ◌<◌, [], Some, length, slice_get, take, IfOk, IfSome, OnOk, OnErr};
    ghost use Rattle.plan_facts.specs.Names.{place_of, number_of, with_name, IsNumbered};

    /// No texts.
    pub fn new(alloc: Global) -> Names
        ensures { result ≡ [] }
    {
        Names {
            texts: IndexSet::new(alloc),
            alloc,
        }
    }

    /// The number of the text; none exactly where it has none.
    pub fn find(&self, text: &[u8]) -> Option<u32>
        ensures place { result ≡ place_of self.now text.now }
        ensures text { IfSome result (λ n. slice_get self.now n ≡ Some text.now) }
    {
        let place = self.texts.get_index_of(text)?;
        Some(place as u32)
    }

    /// The number of the text, which is the next one where it has none yet. At want of memory the texts stay as they
    /// were. The caller keeps the texts below 10^9.
    pub fn number(&mut self, text: &[u8]) -> Result<u32, Memory>
        requires { length self.old < 1000000000 }
        ensures number { IfOk result (λ n. n ≡ number_of self.old text.now) }
        ensures text { IfOk result (λ n. slice_get self.new n ≡ Some text.now) }
        ensures ok { OnOk result (self.new ≡ with_name self.old text.now) }
        ensures err { OnErr result (self.new ≡ self.old) }
    {
        if let Some(number) = self.find(text) {
            return Ok(number);
        }
        let number = self.count();
        self.texts.insert(Vec::from_slice(self.alloc, text)?)?;
        Ok(number)
    }

    /// The number of texts.
    pub fn count(&self) -> u32
        ensures count { result ≡ length self.now }
        ensures numbered { IsNumbered self.now }
    {
        self.texts.len() as u32
    }

    /// Keeps the first `count` texts, of which there are at least so many.
    pub fn cut(&mut self, count: u32)
        requires { count ≤ length self.old }
        ensures { self.new ≡ take count self.old }
    {
        self.texts.truncate(count as usize);
    }
}
