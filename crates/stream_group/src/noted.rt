//! Different numbers that were noted.
ghost use Rattle.std.specs.Prelude.{◌≡◌, ◌++◌, ◌∷◌, [], List, ℤ, IfOk, true, false};
ghost use Rattle.std.specs.HashSet.{IsEmpty};
ghost use Rattle.stream_group.specs.Noted.{Adds, Knows, KnowsMore, is_small};

use plan_facts::Memory;
use std::alloc::Global;
use std::collections::HashSet;

/// As many different numbers stand in the list, and are found by going through it.
const FEW: usize = 16;

/// Different numbers. Those from 0 to 63 are the bits of a word; of the others the first few stand in a list, and the
/// rest in a set.
#[derive(Drop)]
pub struct Noted {
    pub small: u64,
    pub few: Vec<i64>,
    pub more: HashSet<i64>,
}

/// Whether the number is from 0 to 63.
pub fn is_small(number: i64) -> bool
    ensures { result ≡ is_small number }
{
    0 <= number && number < 64
}

/// Forgets a set's numbers. Clearing goes through all the room that a set ever had, so an empty one is left alone.
fn forget(numbers: &mut HashSet<i64>)
    ensures { IsEmpty numbers.new }
{
    if !numbers.is_empty() {
        numbers.clear();
    }
}

impl Noted {
    /// No numbers.
    pub fn new(alloc: Global) -> Noted
        ensures { Knows result [] }
    {
        Noted {
            small: 0,
            few: Vec::new(alloc),
            more: HashSet::new(alloc),
        }
    }

    /// Forgets all numbers.
    pub fn clear(&mut self)
        ensures { Knows self.new [] }
    {
        self.small = 0;
        self.few.clear();
        forget(&mut self.more);
    }

    /// Takes note of a number from 0 to 63, and answers whether it is new.
    fn note_small(&mut self, number: i64) -> bool
        requires { is_small number ≡ true }
        ensures knows { (numbers : List ℤ) → Knows self.old numbers → KnowsMore self.new numbers number result }
    {
        let bit = 1 << (number as u32);
        let is_new = self.small & bit == 0;
        self.small |= bit;
        is_new
    }

    /// Takes note of another number, and answers whether it is new.
    fn note_large(&mut self, number: i64) -> Result<bool, Memory>
        ensures adds { IfOk result (λ is_new. Adds self.old self.new number is_new) }
        ensures small { self.new.small ≡ self.old.small }
    {
        if self.few.contains(&number) {
            return Ok(false);
        }
        if self.few.len() < FEW {
            self.few.push(number)?;
            return Ok(true);
        }
        Ok(self.more.insert(number)?)
    }

    /// Takes note of a number, and answers whether it is new.
    pub fn note(&mut self, number: i64) -> Result<bool, Memory>
        ensures knows { IfOk result (λ is_new. (numbers : List ℤ) → Knows self.old numbers
            → KnowsMore self.new numbers number is_new) }
    {
        if is_small(number) {
            return Ok(self.note_small(number));
        }
        self.note_large(number)
    }
}
