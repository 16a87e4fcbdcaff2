ghost use Rattle.std.specs.Prelude.{◌≡◌, ◌+◌, ◌≤◌, ℕ, List};
ghost use Rattle.plan_rules.specs.Limits.{cap_limit};
ghost use Rattle.plan_rules.specs.Meaning.{IsKeyNumber, KeyAnswers, Meaning, TestAnswers, WeighAnswers};

use crate::row::Row;
use crate::steps::Steps;
use std::marker::PhantomData;
use std::sync::ledger::Ledger;

/// What the closures of a domain mean. It has no code: it names a meaning, which the closures that are handed in keep.
pub trait Book: Drop + Send + Sync {
    ghost meaning: { Meaning };
}

/// What answers as the book says.
pub trait Kept {
    /// Every answer that a closure here may give is the book's, and within its bounds.
    ghost keeps: { Self → Type 0 };
}

/// What may judge plans.
pub trait Judges {
    /// It answers as the book says, and may judge plans of these sizes under these weights, one for each rule.
    ghost judges: { Self → List ℕ → List ℕ → Type 0 };
}

pub type TestBody = Box<dyn Fn(&Row) -> bool + Send + Sync>;

pub type KeyBody = Box<dyn Fn(&Row) -> i64 + Send + Sync>;

pub type WeighBody = Box<dyn Fn(&Row) -> u32 + Send + Sync>;

/// A test of rows, with its number. It may be called at every row.
#[derive(Drop)]
pub struct Test<B> {
    pub number: u16,
    pub body: TestBody,
    pub of: PhantomData<B>,
    pub ghost callable: { TestBody.IsAlwaysCallable body },
}

/// A key of rows, with its number. It may be called at every row.
#[derive(Drop)]
pub struct Key<B> {
    pub number: u16,
    pub body: KeyBody,
    pub of: PhantomData<B>,
    pub ghost callable: { KeyBody.IsAlwaysCallable body },
}

/// A weigher of rows, with its number and the greatest weight that it gives, from 1 to 10^9. It may be called at every
/// row.
#[derive(Drop)]
pub struct Weigh<B> {
    pub number: u16,
    pub cap: u32,
    pub body: WeighBody,
    pub of: PhantomData<B>,
    pub ghost callable: { WeighBody.IsAlwaysCallable body },
    pub ghost cap_in_range: { (1 ≤ cap) × (cap ≤ cap_limit) },
}

impl<B: Book> Kept for Test<B> {
    ghost keeps = { λ test. TestAnswers (TestBody.post test.body) (B.meaning.test_of test.number) };
}

impl<B: Book> Kept for Key<B> {
    ghost keeps = { λ key. KeyAnswers (KeyBody.post key.body) (B.meaning.key_of key.number) };
}

impl<B: Book> Kept for Weigh<B> {
    ghost keeps = { λ weigher.
        WeighAnswers (WeighBody.post weigher.body) weigher.cap (B.meaning.weight_of weigher.number) };
}

impl<B> Test<B> {
    /// A test with this number.
    pub fn new(number: u16, body: TestBody) -> Test<B>
        requires { TestBody.IsAlwaysCallable body }
        ensures number { result.number ≡ number }
        ensures body { result.body ≡ body }
    {
        Test {
            number,
            body,
            of: PhantomData,
        }
    }
}

impl<B: Book> Test<B> {
    /// Whether the test holds at the row. It counts as one step.
    pub fn call<L: Ledger>(&self, row: &Row, steps: &mut Steps<L>) -> bool
        requires { ⟦<Test<B> as Kept>⟧.keeps self.now }
        ensures value { result ≡ B.meaning.test_of self.now.number row.now }
        ensures cost { steps.new ≡ steps.old + 1 }
    {
        steps.tick();
        (self.body)(row)
    }
}

impl<B> Key<B> {
    /// A key with this number.
    pub fn new(number: u16, body: KeyBody) -> Key<B>
        requires { KeyBody.IsAlwaysCallable body }
        ensures number { result.number ≡ number }
        ensures body { result.body ≡ body }
    {
        Key {
            number,
            body,
            of: PhantomData,
        }
    }
}

impl<B: Book> Key<B> {
    /// The key of the row, from -10^9 to 10^9. It counts as one step.
    pub fn call<L: Ledger>(&self, row: &Row, steps: &mut Steps<L>) -> i64
        requires { ⟦<Key<B> as Kept>⟧.keeps self.now }
        ensures value { result ≡ B.meaning.key_of self.now.number row.now }
        ensures range { IsKeyNumber result }
        ensures cost { steps.new ≡ steps.old + 1 }
    {
        steps.tick();
        (self.body)(row)
    }
}

impl<B> Weigh<B> {
    /// A weigher with this number, which gives at most `cap`.
    pub fn new(number: u16, cap: u32, body: WeighBody) -> Weigh<B>
        requires callable { WeighBody.IsAlwaysCallable body }
        requires cap { (1 ≤ cap) × (cap ≤ cap_limit) }
        ensures number { result.number ≡ number }
        ensures cap { result.cap ≡ cap }
        ensures body { result.body ≡ body }
    {
        Weigh {
            number,
            cap,
            body,
            of: PhantomData,
        }
    }
}

impl<B: Book> Weigh<B> {
    /// The weight of the row, at most the cap. It counts as one step.
    pub fn call<L: Ledger>(&self, row: &Row, steps: &mut Steps<L>) -> u32
        requires { ⟦<Weigh<B> as Kept>⟧.keeps self.now }
        ensures value { result ≡ B.meaning.weight_of self.now.number row.now }
        ensures range { result ≤ self.now.cap }
        ensures cost { steps.new ≡ steps.old + 1 }
    {
        steps.tick();
        (self.body)(row)
    }
}
