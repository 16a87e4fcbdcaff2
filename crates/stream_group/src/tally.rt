//! What a collector makes of numbers that come one after the other.
ghost use Rattle.std.specs.Prelude.{◌≡◌, ◌++◌, ◌∷◌, [], List, ℤ, IfOk, OnOk};
ghost use Rattle.stream_group.specs.Collected.{counts_different, with_more};
ghost use Rattle.stream_group.specs.Tally.{Sees, SeesMore, Tallies, TalliesMore};
ghost use Rattle.stream_group.specs.Words.{with_word};

use crate::noted::Noted;
use crate::words::Word;
use plan_facts::Memory;
use plan_rules::Collect;
use std::alloc::Global;

/// What a collector has made of some numbers, which is used again for others. Where these are keys' numbers of at most
/// 2^32 rows, their sum fits.
#[derive(Drop)]
pub struct Tally {
    pub collect: Collect,
    pub made: Option<i64>,
    pub noted: Noted,
}

/// What a collector makes of one number more, from what it made of those before.
pub fn with_more(collect: Collect, made: Option<i64>, number: i64, is_new: bool) -> i64
    ensures { result ≡ with_more collect made number is_new }
{
    match (collect, made) {
        (Collect::Count | Collect::CountDistinct(_), None) => 1,
        (Collect::Count, Some(made)) => made.saturating_add(1),
        (Collect::CountDistinct(_), Some(made)) => {
            if is_new { made.saturating_add(1) } else { made }
        }
        (Collect::Sum(_), Some(made)) => made.saturating_add(number),
        (Collect::Min(_), Some(made)) => made.min(number),
        (Collect::Max(_), Some(made)) => made.max(number),
        (_, None) => number,
    }
}

impl Tally {
    /// A tally of no numbers.
    pub fn new(alloc: Global) -> Tally
        ensures { Tallies result [] }
    {
        Tally {
            collect: Collect::Count,
            made: None,
            noted: Noted::new(alloc),
        }
    }

    /// Forgets all numbers, for a collector.
    pub fn restart(&mut self, collect: Collect)
        ensures tallies { Tallies self.new [] }
        ensures collect { self.new.collect ≡ collect }
    {
        self.collect = collect;
        self.made = None;
        self.noted.clear();
    }

    /// Its numbers from 0 to 63 and what was made, as a word.
    pub fn word(&self) -> Word
        ensures { with_word self.now result ≡ self.now }
    {
        Word {
            bits: self.noted.small,
            made: self.made,
        }
    }

    /// Takes what a word says in place of its own.
    pub fn set_word(&mut self, word: Word)
        ensures { self.new ≡ with_word self.old word }
    {
        self.made = word.made;
        self.noted.small = word.bits;
    }

    /// Whether only different numbers count.
    pub fn counts_different(&self) -> bool
        ensures { result ≡ counts_different self.now.collect }
    {
        match self.collect {
            Collect::CountDistinct(_) => true,
            Collect::Count | Collect::Sum(_) | Collect::Min(_) | Collect::Max(_) => false,
        }
    }

    /// Takes note of a number where only different ones count, and answers whether it is new then.
    fn is_new(&mut self, number: i64) -> Result<bool, Memory>
        ensures seen { IfOk result (λ is_new. (numbers : List ℤ) → Sees self.old numbers
            → SeesMore self.new numbers number is_new) }
        ensures made { self.new.made ≡ self.old.made }
        ensures collect { self.new.collect ≡ self.old.collect }
    {
        match self.collect {
            Collect::CountDistinct(_) => self.noted.note(number),
            _ => Ok(true),
        }
    }

    /// Takes one number more.
    pub fn add(&mut self, number: i64) -> Result<(), Memory>
        ensures tallies { OnOk result (TalliesMore self.old self.new (number ∷ [])) }
        ensures collect { self.new.collect ≡ self.old.collect }
    {
        let is_new = self.is_new(number)?;
        self.made = Some(with_more(self.collect, self.made, number, is_new));
        Ok(())
    }
}
