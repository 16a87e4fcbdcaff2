ghost use Rattle.std.specs.Prelude.{◌≡◌, ◌≤◌, length};
ghost use Rattle.stream_heads.specs.Meant.{record_in};
ghost use Rattle.stream_heads.specs.Numbers.{head_numbers};

use crate::placed::Placed;
use plan_rules::{Part, Row};
use std::marker::Model;
use stream_index::Key;

/// The row of a record alone, with the record's id beside it, so that who asks for the id reads neither the row nor the
/// record.
#[derive(Drop)]
pub struct Head {
    id: u32,
    row: Row,
}

impl Model for Head {
    ghost use Rattle.std.specs.Prelude.{◌≡◌, List};
    ghost use Rattle.plan_rules.specs.declared.row.Part.{Part};
    ghost use Rattle.stream_heads.specs.Meant.{record_in};

    ghost Value = { List Part };

    ghost view = { λ head. head.row };

    ghost invariant = { λ head. head.id ≡ (record_in head.row).id };
}

/// The id of the record that a row begins with, or 0 where it begins with none.
fn id_in(row: &Row) -> u32
    ensures { result ≡ (record_in row.now).id }
{
    match row.part(0) {
        Some(Part::Fact(rec)) => rec.id,
        _ => 0,
    }
}

/// The class and id of the record that a row begins with, or no numbers where it begins with none.
pub fn key_of(row: &Row) -> Key
    ensures value { result ≡ head_numbers row.now }
    ensures short { length result ≤ 4 }
{
    match row.part(0) {
        Some(Part::Fact(rec)) => Key::of(&[i64::from(rec.class), i64::from(rec.id)]),
        _ => Key::of(&[]),
    }
}

impl Head {
    /// A row with the id of the record that it begins with.
    pub fn of(row: Row) -> Head
        ensures { result ≡ row }
    {
        Head {
            id: id_in(&row),
            row,
        }
    }

    /// The id of the record that the row begins with, or 0 where it begins with none.
    #[inline(always)]
    pub fn id(&self) -> u32
        ensures { result ≡ (record_in self.now).id }
    {
        self.id
    }

    /// The row.
    #[inline(always)]
    pub fn row(&self) -> &Row
        ensures { result.now ≡ self.now }
    {
        &self.row
    }
}

impl Placed for Head {
    ghost use Rattle.stream_heads.specs.Numbers.{head_numbers};
    ghost use Rattle.plan_rules.proofs.RowEquality.{row_decides, same_row};

    ghost key = { head_numbers };

    ghost eq = { same_row };

    ghost tells = { row_decides };

    fn key(&self) -> Key {
        key_of(&self.row)
    }

    fn same(&self, other: &Head) -> bool {
        self.row.same(&other.row)
    }
}
