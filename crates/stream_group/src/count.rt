//! How many rows a group has, of which none is looked at.
ghost use Rattle.std.specs.Prelude.{◌≡◌, ◌≤◌, length};
ghost use Rattle.stream_group.specs.Keyed.{gone_in};
ghost use Rattle.stream_group.specs.Turns.{CountsOn, MakesCount, MakesCountAfter, rows_under};

use crate::change::Change;
use crate::tally::Tally;
use stream_heads::Side;
use stream_index::Key;

/// As many rows as a stream may have.
const MOST_ROWS: usize = 1 << 32;

/// What is made of so many rows where they are counted: nothing of none.
fn counted(rows: usize) -> Option<i64>
    ensures { MakesCount rows result }
{
    if rows == 0 {
        return None;
    }
    Some(rows.min(MOST_ROWS) as i64)
}

/// How many of the changes take a row away.
fn gone_count(changes: &[Change]) -> usize
    ensures count { result ≡ length (gone_in changes.now) }
    ensures within { result ≤ length changes.now }
{
    let mut count = 0;
    for change in changes {
        if !change.comes {
            count += 1;
        }
    }
    count
}

/// How many rows are left of some once changes are done, of which each takes one of them or puts one besides.
fn count_after(rows: usize, changes: &[Change]) -> usize
    ensures { CountsOn rows changes.now result }
{
    let gone = gone_count(changes);
    rows.saturating_sub(gone)
        .saturating_add(changes.len() - gone)
}

/// Counts the rows under a key before the changes of a run are done, and those after. No row is looked at.
pub fn count_run(members: &Side, key: &Key, run: &[Change], before: &mut Tally, after: &mut Tally)
    ensures before { let rows = rows_under members.now key.now in MakesCount rows before.new.made }
    ensures after { let rows = rows_under members.now key.now in MakesCountAfter rows run.now after.new.made }
{
    let rows = members.under(key).len();
    before.made = counted(rows);
    after.made = counted(count_after(rows, run));
}
