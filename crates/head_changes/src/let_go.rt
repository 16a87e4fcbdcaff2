//! Records that went or came are let go.
ghost use Rattle.std.specs.Prelude.{◌≡◌, ◌∷◌, []};
ghost use Rattle.stream_heads.specs.Standing.{KeepsBase};
ghost use Rattle.head_changes.specs.Changes.{all_come, all_gone};
ghost use Rattle.head_changes.specs.Takers.{heads_without};
ghost use Rattle.head_changes.specs.Turns.{place_in};

use crate::changes::ClassChange;
use stream_heads::{Cell, Cells, Heads};

/// The place that a row is, if it is one.
fn place_in(row: &Cells) -> Option<u64>
    ensures { result ≡ place_in row.now }
{
    match row.cells() {
        [Cell::Place(place)] => Some(*place),
        _ => None,
    }
}

/// Lets the record go whose place the row is, if it is one and lives.
fn let_row_go(heads: &mut Heads, row: &Cells)
    ensures now { heads.new.now ≡ heads_without (row.now ∷ []) heads.old.now }
    ensures base { KeepsBase heads.old heads.new }
{
    let Some(place) = place_in(row) else {
        return;
    };
    match heads.head(place) {
        Some(_) => heads.kill(place),
        None => {}
    }
}

/// Lets the records go whose places these rows are.
#[inline(always)]
fn let_rows_go(heads: &mut Heads, rows: &[Cells])
    ensures now { heads.new.now ≡ heads_without rows.now heads.old.now }
    ensures base { KeepsBase heads.old heads.new }
{
    for row in rows {
        let_row_go(heads, row);
    }
}

/// Lets the records go that went, of each class: what a change that was gathered is followed by once it is kept.
pub fn let_gone_go(heads: &mut Heads, changes: &[ClassChange])
    ensures now { heads.new.now ≡ heads_without (all_gone changes.now) heads.old.now }
    ensures base { KeepsBase heads.old heads.new }
{
    for change in changes {
        let_rows_go(heads, &change.all.gone);
    }
}

/// Lets the records go that came, of each class: what takes back that a change was gathered.
pub fn let_come_go(heads: &mut Heads, changes: &[ClassChange])
    ensures now { heads.new.now ≡ heads_without (all_come changes.now) heads.old.now }
    ensures base { KeepsBase heads.old heads.new }
{
    for change in changes {
        let_rows_go(heads, &change.all.come);
    }
}
