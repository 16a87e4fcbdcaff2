//! The nodes of a network on rows that were worked by hand: tests, and what they read off rows.
#![tactic(auto)]

ghost use Rattle.std.specs.Prelude.{◌≡◌};
ghost use Rattle.node_rows.specs.Ids.{id_at};

use plan_rules::{Part, Row};

/// The id of the record at a place of a row; 0 where no record is there.
pub fn id_at(row: &Row, place: usize) -> u32
    ensures { result ≡ id_at row.now place }
{
    match row.part(place) {
        Some(Part::Fact(rec)) => rec.id,
        _ => 0,
    }
}

#[cfg(test)]
mod tests;
