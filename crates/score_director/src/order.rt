//! Rows that were kept in any order, put in their order again: for a director that keeps the rows of nodes.
ghost use Rattle.std.specs.Prelude.{◌≡◌, ◌<◌, ◌≤◌, IsPermutation, IsSorted, length, pos, slice_index, slice_index_or, take};
ghost use Rattle.plan_rules.specs.Order.{part_number, row_cmp, row_numbers};
ghost use Rattle.score_director.specs.Ordered.{BecomeRuleRows};

use plan_facts::List;
use plan_rules::{Part, Row};
use std::cmp::Ordering;

/// Puts rows in the order of the numbers of their parts. Those that are a rule's but for their order are just its rows
/// then.
pub fn put_in_order(rows: &mut List<Row>)
    ensures same { IsPermutation rows.old rows.new }
    ensures sorted { IsSorted row_cmp rows.new }
    ensures rule { BecomeRuleRows rows.old rows.new }
{
    sort_rows(rows.as_mut_slice());
}

/// Sorts rows by the numbers of their parts.
fn sort_rows(rows: &mut [Row])
    ensures same { IsPermutation rows.old rows.new }
    ensures sorted { IsSorted row_cmp rows.new }
{
    rows.sort_unstable_by(|one, other| row_order(one, other));
}

/// How one row stands to another by the numbers of their parts.
fn row_order(one: &Row, other: &Row) -> Ordering
    ensures { result ≡ row_cmp one.now other.now }
{
    let one_numbers = numbers_of(one);
    let other_numbers = numbers_of(other);
    one_numbers[..one.len()].cmp(&other_numbers[..other.len()])
}

/// The numbers of a row's parts, with zeros behind them.
fn numbers_of(row: &Row) -> [i64; 4]
    ensures { length row.now ≤ 4 → take (length row.now) result ≡ row_numbers row.now }
{
    [
        number_at(row, 0),
        number_at(row, 1),
        number_at(row, 2),
        number_at(row, 3),
    ]
}

/// The number of the part at a place; 0 where the row ends before it.
#[tactic(auto, using(crate::proofs::Ordered::number_there, crate::proofs::Ordered::number_past))]
fn number_at(row: &Row, place: usize) -> i64
    ensures { result ≡ slice_index_or (row_numbers row.now) place (pos 0) }
{
    match row.part(place) {
        Some(part) => part_number(part),
        None => 0,
    }
}

/// The number of a part: a fact's id, or the number itself.
fn part_number(part: &Part) -> i64
    ensures { result ≡ part_number part.now }
{
    match part {
        Part::Fact(rec) => i64::from(rec.id),
        Part::Num(number) => *number,
    }
}
