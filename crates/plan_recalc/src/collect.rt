ghost use Rattle.std.specs.Prelude.{◌≡◌, ◌≤◌, ◌+ℤ◌, ℤ, pos, All, IfOk, fold, length};
ghost use Rattle.std.specs.BTreeSet.{IsFromIterResult};
ghost use Rattle.std.specs.Ordering.{int_cmp, int_eq};
ghost use Rattle.std.specs.Set.{distinct_count};
ghost use Rattle.plan_rules.specs.Groups.{greatest_of, least_of};
ghost use Rattle.plan_rules.specs.Limits.{row_limit};
ghost use Rattle.plan_rules.specs.Meaning.{IsKeyNumber};

use plan_facts::Memory;
use std::alloc::Global;
use std::collections::BTreeSet;

/// How many different numbers there are.
pub fn count_different(alloc: Global, numbers: &[i64]) -> Result<usize, Memory>
    ensures count { IfOk result (λ count. count ≡ distinct_count int_eq numbers.now) }
    ensures few { IfOk result (λ count. count ≤ length numbers.now) }
{
    let different = different_of(alloc, numbers)?;
    Ok(different.len())
}

/// The different numbers.
fn different_of(alloc: Global, numbers: &[i64]) -> Result<BTreeSet<i64>, Memory>
    ensures { IfOk result (IsFromIterResult int_cmp numbers.now) }
{
    Ok(numbers.iter().copied().collect(alloc)?)
}

/// The sum of keys, of which there are at most 2^32.
pub fn sum_of(numbers: &[i64]) -> i64
    requires keys { All IsKeyNumber numbers.now }
    requires few { length numbers.now ≤ row_limit }
    ensures { result ≡ fold (λ a b. a +ℤ b) (pos 0) numbers.now }
{
    let mut sum = 0;
    for number in numbers {
        sum += *number;
    }
    sum
}

/// The least number, or 0 where there is none.
pub fn least_of(numbers: &[i64]) -> i64
    ensures { result ≡ least_of numbers.now }
{
    let Some((first, rest)) = numbers.split_first() else {
        return 0;
    };
    let mut least = *first;
    for number in rest {
        least = least.min(*number);
    }
    least
}

/// The greatest number, or 0 where there is none.
pub fn greatest_of(numbers: &[i64]) -> i64
    ensures { result ≡ greatest_of numbers.now }
{
    let Some((first, rest)) = numbers.split_first() else {
        return 0;
    };
    let mut greatest = *first;
    for number in rest {
        greatest = greatest.max(*number);
    }
    greatest
}
