ghost use Rattle.std.specs.Prelude.{◌≡◌, ◌+◌, ◌≤◌, ℕ, List, All, None, IfOk, IfErr, IfSome, IsSome, OnOk, length, map, option_copied, option_map, slice_get};
ghost use Rattle.plan_rules.specs.Closures.{capped, key_with, numbers_of, test_with, weigher_with};
ghost use Rattle.plan_facts.specs.Refusal.{IsRefusal};
ghost use Rattle.plan_rules.specs.Faults.{rules_fault};
ghost use Rattle.plan_rules.specs.Harder.{harder_key};
ghost use Rattle.plan_rules.specs.Meaning.{IsKeyNumber, KeyAnswers, TestAnswers, WeighAnswers};
ghost use Rattle.plan_rules.specs.Named.{key_named, test_named, weigher_named};
ghost use Rattle.plan_rules.specs.Range.{MayJudge, cap_of, cap_with, range_fault_of};
ghost use Rattle.plan_rules.specs.Sound.{IsHandedIn, IsSound};

use crate::closures::{Book, Judges, Kept, Key, KeyBody, Test, TestBody, Weigh, WeighBody};
use crate::fault::{RangeFault, RuleFault};
use crate::handed::{accepted_numbers, caps_of, names_of, weigher_at};
use crate::harder::harder_key;
use crate::places::Numbers;
use crate::range::first_range_fault;
use crate::row::Row;
use crate::rule::{Harder, RuleDef};
use crate::steps::Steps;
use plan_facts::{List, Schema, Text};
use std::alloc::Global;
use std::sync::ledger::Ledger;

/// Rules over a schema, with the closures that they ask.
pub struct Rules<B> {
    /// The schema that the rules are over.
    pub schema: Schema,
    /// The rules, at most 32.
    pub defs: List<RuleDef>,
    /// The tests that were handed in, and the keys and the weighers.
    pub tests: List<Test<B>>,
    pub keys: List<Key<B>>,
    pub weighs: List<Weigh<B>>,
    /// The keys by which entities are placed, each class once.
    pub harder: List<Harder>,
    /// The closures' numbers.
    pub numbers: Numbers,
    /// The rules' names.
    pub names: List<Text>,
    /// The cap of each rule's match weight: its weigher's, or 1 where it has none.
    pub caps: List<u32>,
    pub ghost numbered: { numbers ≡ numbers_of tests keys weighs },
    pub ghost named: { names ≡ map (λ def. def.name) defs },
    pub ghost caps_are: { caps ≡ map (cap_of (capped weighs)) defs },
    pub ghost accepted: { rules_fault schema numbers defs harder ≡ None },
}

// Written out, so that its owners let go of it by one call.
impl<B> Drop for Rules<B> {
    fn drop(self) {
        let Rules {
            schema,
            defs,
            tests,
            keys,
            weighs,
            harder,
            numbers,
            names,
            caps,
        } = self;
        drop(schema);
        drop(defs);
        drop(tests);
        drop(keys);
        drop(weighs);
        drop(harder);
        drop(numbers);
        drop(names);
        drop(caps);
    }
}

impl<B: Book> Kept for Rules<B> {
    ghost keeps = { λ rules.
        All (λ test. TestAnswers (TestBody.post test.body) (B.meaning.test_of test.number)) rules.tests
        × All (λ key. KeyAnswers (KeyBody.post key.body) (B.meaning.key_of key.number)) rules.keys
        × All (λ w. WeighAnswers (WeighBody.post w.body) w.cap (B.meaning.weight_of w.number)) rules.weighs };
}

impl<B: Book> Judges for Rules<B> {
    ghost judges = { λ rules weights sizes.
        (All (λ test. TestAnswers (TestBody.post test.body) (B.meaning.test_of test.number)) rules.tests
        × All (λ key. KeyAnswers (KeyBody.post key.body) (B.meaning.key_of key.number)) rules.keys
        × All (λ w. WeighAnswers (WeighBody.post w.body) w.cap (B.meaning.weight_of w.number)) rules.weighs)
        × MayJudge rules.defs rules.caps weights sizes };
}

impl<B: Book> Rules<B> {
    /// Rules over the schema, of which a copy is kept, or the first fault.
    pub fn build(
        alloc: Global,
        schema: &Schema,
        defs: List<RuleDef>,
        tests: List<Test<B>>,
        keys: List<Key<B>>,
        weighs: List<Weigh<B>>,
        harder: List<Harder>,
    ) -> Result<Rules<B>, RuleFault>
        ensures schema { IfOk result (λ rules. rules.schema ≡ schema.now) }
        ensures defs { IfOk result (λ rules. rules.defs ≡ defs) }
        ensures tests { IfOk result (λ rules. rules.tests ≡ tests) }
        ensures keys { IfOk result (λ rules. rules.keys ≡ keys) }
        ensures weighs { IfOk result (λ rules. rules.weighs ≡ weighs) }
        ensures harder { IfOk result (λ rules. rules.harder ≡ harder) }
        ensures ok { OnOk result (rules_fault schema.now (numbers_of tests keys weighs) defs harder ≡ None) }
        ensures err { let numbers = numbers_of tests keys weighs in
            IfErr result (IsRefusal RuleFault.Memory (rules_fault schema.now numbers defs harder)) }

        // The rules keep their word where each closure does.
        ensures keeps { All (λ test. ⟦<Test<B> as Kept>⟧.keeps test) tests
            → All (λ key. ⟦<Key<B> as Kept>⟧.keeps key) keys
            → All (λ weigher. ⟦<Weigh<B> as Kept>⟧.keeps weigher) weighs
            → IfOk result (λ rules. ⟦<Rules<B> as Kept>⟧.keeps rules) }
    {
        let numbers = accepted_numbers(alloc, schema, &defs, &tests, &keys, &weighs, &harder)?;
        let names = names_of(alloc, defs.as_slice())?;
        let caps = caps_of(alloc, defs.as_slice(), &weighs, &numbers.weighs)?;
        Ok(Rules {
            schema: schema.copy(alloc)?,
            defs,
            tests,
            keys,
            weighs,
            harder,
            numbers,
            names,
            caps,
        })
    }

    /// The rule with this number, from 0; none where there are no more than `rule` rules.
    pub fn def(&self, rule: u8) -> Option<&RuleDef>
        ensures found { option_copied result ≡ slice_get self.now.defs rule }
        ensures sound { IfSome result (λ def. IsSound (length self.now.schema) self.now.numbers def.now) }
    {
        self.defs.get(rule as usize)
    }

    /// The number of rules.
    pub fn count(&self) -> u8
        ensures count { result ≡ length self.now.defs }
        ensures few { result ≤ 32 }
    {
        self.defs.len() as u8
    }

    /// The rules' names, in their order.
    pub fn names(&self) -> &[Text]
        ensures { result.now ≡ map (λ def. def.name) self.now.defs }
    {
        self.names.as_slice()
    }

    /// The test with this number; none where none was handed in.
    pub fn test(&self, number: u16) -> Option<&Test<B>>
        ensures found { option_copied result ≡ test_with self.now.tests number }
        ensures there { IsHandedIn self.now.numbers (test_named number) → IsSome result }
        ensures keeps { ⟦<Rules<B> as Kept>⟧.keeps self.now
            → IfSome result (λ test. ⟦<Test<B> as Kept>⟧.keeps test.now) }
    {
        match self.numbers.tests.place(number) {
            Some(place) => self.tests.get(place),
            None => None,
        }
    }

    /// The key with this number; none where none was handed in.
    pub fn key(&self, number: u16) -> Option<&Key<B>>
        ensures found { option_copied result ≡ key_with self.now.keys number }
        ensures there { IsHandedIn self.now.numbers (key_named number) → IsSome result }
        ensures keeps { ⟦<Rules<B> as Kept>⟧.keeps self.now
            → IfSome result (λ key. ⟦<Key<B> as Kept>⟧.keeps key.now) }
    {
        match self.numbers.keys.place(number) {
            Some(place) => self.keys.get(place),
            None => None,
        }
    }

    /// The weigher with this number; none where none was handed in.
    pub fn weigher(&self, number: u16) -> Option<&Weigh<B>>
        ensures found { option_copied result ≡ weigher_with self.now.weighs number }
        ensures there { IsHandedIn self.now.numbers (weigher_named number) → IsSome result }
        ensures keeps { ⟦<Rules<B> as Kept>⟧.keeps self.now
            → IfSome result (λ weigher. ⟦<Weigh<B> as Kept>⟧.keeps weigher.now) }
    {
        weigher_at(&self.weighs, &self.numbers.weighs, number)
    }

    /// The key by which the entities of a class are placed; none where it has none.
    pub fn harder(&self, class: u8) -> Option<&Key<B>>
        ensures number { option_map (λ key. key.number) (option_copied result) ≡ harder_key self.now.harder class }
        ensures keeps { ⟦<Rules<B> as Kept>⟧.keeps self.now
            → IfSome result (λ key. ⟦<Key<B> as Kept>⟧.keeps key.now) }
    {
        match harder_key(self.harder.as_slice(), class) {
            Some(number) => self.key(number),
            None => None,
        }
    }

    /// Whether the test with this number, which was handed in, holds at the row. It counts as one step.
    pub fn test_of<L: Ledger>(&self, number: u16, row: &Row, steps: &mut Steps<L>) -> bool
        requires keeps { ⟦<Rules<B> as Kept>⟧.keeps self.now }
        requires there { IsHandedIn self.now.numbers (test_named number) }
        ensures value { result ≡ B.meaning.test_of number row.now }
        ensures cost { steps.new ≡ steps.old + 1 }
    {
        let Some(test) = self.test(number) else {
            unreachable!();
        };
        test.call(row, steps)
    }

    /// The key with this number, which was handed in, of the row: from -10^9 to 10^9. It counts as one step.
    pub fn key_of<L: Ledger>(&self, number: u16, row: &Row, steps: &mut Steps<L>) -> i64
        requires keeps { ⟦<Rules<B> as Kept>⟧.keeps self.now }
        requires there { IsHandedIn self.now.numbers (key_named number) }
        ensures value { result ≡ B.meaning.key_of number row.now }
        ensures range { IsKeyNumber result }
        ensures cost { steps.new ≡ steps.old + 1 }
    {
        let Some(key) = self.key(number) else {
            unreachable!();
        };
        key.call(row, steps)
    }

    /// The weight that the weigher with this number, which was handed in, gives the row: at most its cap. It counts as
    /// one step.
    pub fn match_weight_of<L: Ledger>(&self, number: u16, row: &Row, steps: &mut Steps<L>) -> u32
        requires keeps { ⟦<Rules<B> as Kept>⟧.keeps self.now }
        requires there { IsHandedIn self.now.numbers (weigher_named number) }
        ensures value { result ≡ B.meaning.weight_of number row.now }
        ensures range { result ≤ cap_with (capped self.now.weighs) number }
        ensures cost { steps.new ≡ steps.old + 1 }
    {
        let Some(weigher) = self.weigher(number) else {
            unreachable!();
        };
        weigher.call(row, steps)
    }

    /// Why a plan with so many live facts of each class, at most 100,000 each, may have too many rows or too great a
    /// score under these weights, one for each rule: the first rule with a stream of more than 2^32 rows, or else a sum
    /// of rows, weight and cap past 2^62.
    pub fn range_fault(&self, sizes: &[u32], weights: &[u32]) -> Option<RangeFault>
        requires { length weights.now ≡ length self.now.defs }
        ensures { result ≡ range_fault_of sizes.now self.now.defs weights.now self.now.caps }
    {
        first_range_fault(sizes, self.defs.as_slice(), weights, self.caps.as_slice())
    }
}
