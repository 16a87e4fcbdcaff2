//! How rows are grouped, and the numbers that are asked of each.
ghost use Rattle.std.specs.Prelude.{◌≡◌, ◌≤◌, ◌+◌, ◌++◌, ◌∷◌, [], All, length, map};
ghost use Rattle.plan_rules.specs.Meaning.{IsKeyNumber};
ghost use Rattle.plan_rules.specs.Named.{collect_closures, key_named};
ghost use Rattle.plan_rules.specs.Sound.{IsHandedIn};
ghost use Rattle.stream_group.specs.Collected.{number_asked};

use plan_facts::List;
use plan_rules::{Book, Collect, Kept, Row, Rules, Steps};
use std::sync::ledger::Ledger;
use stream_index::Key;

/// The keys that rows are grouped by, and what is made of the rows with one key.
#[derive(Drop)]
pub struct Grouping {
    pub keys: List<u16>,
    pub collect: Collect,
}

/// The number that the collector asks of a row, or 0 where it asks none.
#[inline(always)]
fn number_asked<B: Book, L: Ledger>(
    rules: &Rules<B>,
    collect: Collect,
    row: &Row,
    steps: &mut Steps<L>,
) -> i64
    requires keeps { ⟦<Rules<B> as Kept>⟧.keeps rules.now }
    requires there { All (IsHandedIn rules.now.numbers) (collect_closures collect) }
    ensures value { result ≡ number_asked B.meaning collect row.now }
    ensures range { IsKeyNumber result }
    ensures cost { steps.new ≤ steps.old + length (collect_closures collect) }
{
    match collect {
        Collect::Count => 0,
        Collect::CountDistinct(key) => rules.key_of(key, row, steps),
        Collect::Sum(key) => rules.key_of(key, row, steps),
        Collect::Min(key) => rules.key_of(key, row, steps),
        Collect::Max(key) => rules.key_of(key, row, steps),
    }
}

impl Grouping {
    ghost use Rattle.plan_rules.specs.Groups.{group_key};
    ghost use Rattle.stream_group.specs.Grouped.{AreHandedIn, closures_of, numbers_of};

    /// The numbers of the keys, then the collected one, each asked once of the row.
    #[inline(always)]
    pub fn numbers<B: Book, L: Ledger>(
        &self,
        rules: &Rules<B>,
        row: &Row,
        steps: &mut Steps<L>,
    ) -> Key
        requires keeps { ⟦<Rules<B> as Kept>⟧.keeps rules.now }
        requires there { AreHandedIn rules.now.numbers self.now }
        requires few { length self.now.keys ≤ 2 }
        ensures value { result ≡ numbers_of B.meaning self.now row.now }
        ensures range { IsKeyNumber (number_asked B.meaning self.now.collect row.now) }
        ensures cost { steps.new ≤ steps.old + length (closures_of self.now) }
    {
        match self.keys.as_slice() {
            [key] => {
                let first = rules.key_of(*key, row, steps);
                let number = number_asked(rules, self.collect, row, steps);
                Key::of(&[first, number])
            }
            [key, other] => {
                let first = rules.key_of(*key, row, steps);
                let second = rules.key_of(*other, row, steps);
                let number = number_asked(rules, self.collect, row, steps);
                Key::of(&[first, second, number])
            }
            _ => Key::of(&[number_asked(rules, self.collect, row, steps)]),
        }
    }
}
