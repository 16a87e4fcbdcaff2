ghost use Rattle.std.specs.Prelude.{◌≡◌, ◌≤◌, filter, length};
ghost use Rattle.std.specs.Ordering.{int_cmp, is_eq};
ghost use Rattle.std.specs.Cmp.Lexicographic.{slice_cmp};

use crate::collect::{count_different, greatest_of, least_of, sum_of};
use plan_facts::{List, Memory};
use plan_rules::{Book, Collect, Kept, Row, Rules, Steps};
use std::alloc::Global;
use std::sync::ledger::Ledger;

/// Rows, the keys that they are grouped by, and the group key of each row.
#[derive(Drop)]
pub struct Keyed<'a> {
    pub rows: &'a [Row],
    pub keys: &'a [u16],
    pub row_keys: &'a [List<i64>],
}

/// How many of the keys are this one.
fn count_with(row_keys: &[List<i64>], key: &[i64]) -> usize
    ensures value { result ≡ length (filter (λ other. is_eq (slice_cmp int_cmp other key.now)) row_keys.now) }
    ensures few { result ≤ length row_keys.now }
{
    let mut count = 0;
    for other in row_keys {
        if other.as_slice().cmp(key).is_eq() {
            count += 1;
        }
    }
    count
}

impl<'a> Keyed<'a> {
    ghost use Rattle.std.specs.Prelude.{◌≡◌, ◌≤◌, All, IfOk, length};
    ghost use Rattle.plan_rules.specs.Groups.{collected};
    ghost use Rattle.plan_rules.specs.Limits.{row_limit};
    ghost use Rattle.plan_rules.specs.Meaning.{IsKeyNumber};
    ghost use Rattle.plan_rules.specs.Named.{collect_closures, key_named};
    ghost use Rattle.plan_rules.specs.Sound.{IsHandedIn};
    ghost use Rattle.plan_recalc.specs.Keyed.{IsKeyed, numbers_keyed, rows_keyed};

    /// What the collector makes of the rows with a key.
    pub fn collected<B: Book, L: Ledger>(
        &self,
        alloc: Global,
        rules: &Rules<B>,
        collect: &Collect,
        key: &[i64],
        steps: &mut Steps<L>,
    ) -> Result<i64, Memory>
        requires keeps { ⟦<Rules<B> as Kept>⟧.keeps rules.now }
        requires collect { All (IsHandedIn rules.now.numbers) (collect_closures collect.now) }
        requires keyed { IsKeyed B.meaning self.now }
        requires few { length self.now.rows.now ≤ row_limit }
        ensures { IfOk result (λ n. n ≡ collected B.meaning collect.now (rows_keyed B.meaning self.now key.now)) }
    {
        let number = match collect {
            Collect::Count => count_with(self.row_keys, key) as i64,
            Collect::CountDistinct(number) => {
                let numbers = self.numbers(alloc, rules, *number, key, steps)?;
                count_different(alloc, numbers.as_slice())? as i64
            }
            Collect::Sum(number) => {
                sum_of(self.numbers(alloc, rules, *number, key, steps)?.as_slice())
            }
            Collect::Min(number) => {
                least_of(self.numbers(alloc, rules, *number, key, steps)?.as_slice())
            }
            Collect::Max(number) => {
                greatest_of(self.numbers(alloc, rules, *number, key, steps)?.as_slice())
            }
        };
        Ok(number)
    }

    /// The number that a key gives each row with this group key.
    fn numbers<B: Book, L: Ledger>(
        &self,
        alloc: Global,
        rules: &Rules<B>,
        number: u16,
        key: &[i64],
        steps: &mut Steps<L>,
    ) -> Result<List<i64>, Memory>
        requires keeps { ⟦<Rules<B> as Kept>⟧.keeps rules.now }
        requires there { IsHandedIn rules.now.numbers (key_named number) }
        requires keyed { IsKeyed B.meaning self.now }
        ensures numbers { IfOk result (λ ns. ns ≡ numbers_keyed B.meaning self.now key.now number) }
        ensures range { IfOk result (λ ns. All IsKeyNumber ns) }
        ensures few { IfOk result (λ ns. length ns ≤ length self.now.rows.now) }
    {
        let mut numbers = List::new(alloc);
        for place in 0..self.rows.len() {
            if self.row_keys[place].as_slice().cmp(key).is_eq() {
                numbers.push(rules.key_of(number, &self.rows[place], steps))?;
            }
        }
        Ok(numbers)
    }
}
