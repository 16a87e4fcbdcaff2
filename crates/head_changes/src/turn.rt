//! The change of one record.
ghost use Rattle.std.specs.Prelude.{◌≡◌, ◌↔◌, ◌||◌, IsTrue, IfOk, OnErr, OnOk, Some, option_copied};
ghost use Rattle.plan_rules.specs.Rows.{is_placed};
ghost use Rattle.stream_heads.specs.Standing.{KeepsBase};
ghost use Rattle.head_changes.specs.Turns.{Comes, FindsKey, Goes, fact_at, fact_in, has_key, is_placed_at};

use crate::changes::ClassChange;
use plan_facts::{Memory, Rec};
use plan_moves::Touch;
use plan_rules::{Part, Row};
use stream_heads::{Cell, Cells, CellsDelta, Heads};

/// The record that a row begins with, if it begins with one.
fn fact_in(row: &Row) -> Option<&Rec>
    ensures { option_copied result ≡ fact_in row.now }
{
    match row.part(0) {
        Some(Part::Fact(rec)) => Some(rec),
        _ => None,
    }
}

/// The record at a place, if it is live.
fn fact_at(heads: &Heads, place: u64) -> Option<&Rec>
    ensures { option_copied result ≡ fact_at heads.now.now place }
{
    match heads.head(place) {
        Some(row) => fact_in(row),
        None => None,
    }
}

/// Whether a record with this class and id stands at the place.
fn is_at(heads: &Heads, place: u64, key: Touch) -> bool
    ensures { result ≡ has_key key (fact_at heads.now.now place) }
{
    match fact_at(heads, place) {
        Some(rec) => rec.class == key.class && rec.id == key.id,
        None => false,
    }
}

/// The place of the record with this class and id, if there is one.
pub fn place_of(heads: &Heads, key: Touch) -> Option<u64>
    ensures { FindsKey heads.now.now key result }
{
    for place in heads.at(key.class, key.id) {
        if is_at(heads, *place, key) {
            return Some(*place);
        }
    }
    None
}

/// Whether this record stands at the place.
pub fn is_record(heads: &Heads, place: u64, rec: &Rec) -> bool
    ensures { IsTrue result ↔ (fact_at heads.now.now place ≡ Some rec.now) }
{
    match fact_at(heads, place) {
        Some(other) => other.same(rec),
        None => false,
    }
}

/// Whether the record has no null variable.
fn is_placed(rec: &Rec) -> bool
    ensures { result ≡ is_placed rec.now }
{
    rec.planned.as_slice().iter().all(|value| value.is_some())
}

/// Whether a record without a null variable stands at the place.
fn is_placed_at(heads: &Heads, place: u64) -> bool
    ensures { result ≡ is_placed_at heads.now.now place }
{
    match fact_at(heads, place) {
        Some(rec) => is_placed(rec),
        None => false,
    }
}

/// The record at a place goes.
pub fn leave(heads: &Heads, change: &mut ClassChange, place: u64) -> Result<(), Memory>
    ensures ok { OnOk result (Goes change.old change.new place (is_placed_at heads.now.now place)) }
    ensures come { change.new.all.come.items ≡ change.old.all.come.items }
{
    let row = Cells::of(&[Cell::Place(place)]);
    change.all.gone.push(row)?;
    if is_placed_at(heads, place) {
        change.placed.gone.push(row)?;
    }
    Ok(())
}

/// A record comes, under a place that wasn't live.
pub fn enter(heads: &mut Heads, change: &mut ClassChange, rec: Rec) -> Result<(), Memory>
    ensures ok { OnOk result (Comes heads.old.now heads.new.now change.old change.new rec) }
    ensures err { OnErr result (heads.new.now ≡ heads.old.now) }
    ensures come { OnErr result (change.new.all.come.items ≡ change.old.all.come.items) }
    ensures base { KeepsBase heads.old heads.new }
{
    let is_placed = is_placed(&rec);
    change.all.come.reserve(1)?;
    change.placed.come.reserve(1)?;
    let place = heads.add(rec)?;
    let row = Cells::of(&[Cell::Place(place)]);
    change.all.come.push_reserved(row);
    if is_placed {
        change.placed.come.push_reserved(row);
    }
    Ok(())
}
