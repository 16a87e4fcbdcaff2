//! Rows that go and rows that come, in the order of their keys.
ghost use Rattle.std.specs.Prelude.{◌≡◌, ◌≤◌, ◌<◌, IsPermutation, IsSortedBy, length, take, take_while, slice_index_or, ℤ, pos};
ghost use Rattle.std.specs.Ordering.{int_cmp};
ghost use Rattle.std.specs.Cmp.Lexicographic.{slice_cmp};
ghost use Rattle.stream_group.specs.Keyed.{change_key, gone_in, has_key, is_before, is_one_of};

use std::cmp::Ordering;
use stream_heads::{Member, Placed};
use stream_index::Key;

/// A row with its numbers that comes, or that goes.
#[derive(Clone, Copy, Debug)]
pub struct Change {
    pub member: Member,
    pub comes: bool,
}

/// The first numbers of a row.
pub fn first(numbers: &Key, width: usize) -> &[i64]
    ensures { result.now ≡ take width numbers.now }
{
    let numbers = numbers.numbers();
    &numbers[..width.min(numbers.len())]
}

/// The number that stands after the first ones, or 0.
pub fn number_after(numbers: &Key, width: usize) -> i64
    ensures { result ≡ slice_index_or numbers.now width (pos 0) }
{
    match numbers.numbers().get(width) {
        Some(number) => *number,
        None => 0,
    }
}

impl Change {
    ghost use Rattle.stream_group.specs.Keyed.{change_key, has_key};

    /// The first numbers of the row.
    fn key(&self, width: usize) -> &[i64]
        ensures { result.now ≡ change_key width self.now }
    {
        first(&self.member.numbers, width)
    }

    /// Whether these are the first numbers of the row.
    fn has_key(&self, key: &[i64], width: usize) -> bool
        ensures { result ≡ has_key width key.now self.now }
    {
        self.key(width) == key
    }
}

/// Which of two changes comes first, by their keys.
fn order_of(one: &Change, other: &Change, width: usize) -> Ordering
    ensures { result ≡ slice_cmp int_cmp (change_key width one.now) (change_key width other.now) }
{
    one.key(width).cmp(other.key(width))
}

/// Puts changes in the order of their keys.
pub fn sort(changes: &mut Vec<Change>, width: usize)
    ensures moved { IsPermutation changes.old.items changes.new.items }
    ensures sorted { IsSortedBy (is_before width) changes.new.items }
{
    changes.sort_unstable_by(|one, other| order_of(one, other, width));
}

/// How many changes from the first on have this key.
pub fn run_len(changes: &[Change], key: &[i64], width: usize) -> usize
    ensures run { result ≡ length (take_while (has_key width key.now) changes.now) }
    ensures within { result ≤ length changes.now }
{
    let mut len = 0;
    for change in changes {
        if !change.has_key(key, width) {
            return len;
        }
        len += 1;
    }
    len
}

/// Whether the row is one of those that go.
#[inline(always)]
pub fn goes(changes: &[Change], member: &Member) -> bool
    ensures { result ≡ is_one_of (gone_in changes.now) member.now }
{
    for change in changes {
        if !change.comes && change.member.same(member) {
            return true;
        }
    }
    false
}
