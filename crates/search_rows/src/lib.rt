//! Calls that judge, place, change and search plans, on what was worked by hand: tests, and what they read off rows.
#![tactic(auto)]

ghost use Rattle.std.specs.Prelude.{◌≡◌, slice_get};
ghost use Rattle.search_rows.specs.Ids.{held_id, id_at, room_at};

use plan_facts::Value;
use plan_rules::{Part, Row};

/// The id of the record at a place of a row; 0 where no record is there.
pub fn id_at(row: &Row, place: usize) -> u32
    ensures { result ≡ id_at row.now place }
{
    match row.part(place) {
        Some(Part::Fact(rec)) => rec.id,
        _ => 0,
    }
}

/// The id of what a variable holds; 0 where it is null or isn't there.
fn held_id(held: &[Option<Value>], var: usize) -> u32
    ensures { result ≡ held_id (slice_get held.now var) }
{
    match held.get(var) {
        Some(Some(value)) => value.id,
        _ => 0,
    }
}

/// The id of the room of the record at a place of a row, which its second variable holds; 0 where it has none.
pub fn room_at(row: &Row, place: usize) -> u32
    ensures { result ≡ room_at row.now place }
{
    match row.part(place) {
        Some(Part::Fact(rec)) => held_id(rec.planned.as_slice(), 1),
        _ => 0,
    }
}

#[cfg(test)]
mod tests;
