ghost use Rattle.std.specs.Prelude.{◌≡◌, option_copied};
ghost use Rattle.plan_rules.specs.Rows.{is_placed};
ghost use Rattle.domain_words.specs.Read.{field_at, given_field_at, held_field_at, held_id_at, id_at};
ghost use Rattle.domain_words.specs.Read.{is_null_at, number_at, placed_at, record_at, value_at};

use plan_facts::{Rec, Value};
use plan_rules::{Part, Row};

/// Whether the record has no null variable.
fn is_placed(rec: &Rec) -> bool
    ensures { result ≡ is_placed rec.now }
{
    rec.planned.as_slice().iter().all(|value| value.is_some())
}

/// The record at a place of a row, from 0, be its variables null or not; none where the row ends before it, or where
/// that part is a number or a record of another class.
fn record_at(row: &Row, place: usize, class: u8) -> Option<&Rec>
    ensures { option_copied result ≡ record_at row.now place class }
{
    match row.part(place) {
        Some(Part::Fact(rec)) if rec.class == class => Some(rec),
        _ => None,
    }
}

/// The record at a place; none where there is no such record or it has a null variable.
fn placed_at(row: &Row, place: usize, class: u8) -> Option<&Rec>
    ensures { option_copied result ≡ placed_at row.now place class }
{
    let rec = record_at(row, place, class)?;
    if is_placed(rec) { Some(rec) } else { None }
}

/// The value that a variable of the record at a place holds; none where there is no such record or variable, or where
/// the record has a null variable.
fn value_at(row: &Row, place: usize, class: u8, var: usize) -> Option<&Value>
    ensures { option_copied result ≡ value_at row.now place class var }
{
    match placed_at(row, place, class)?.planned.get(var) {
        Some(Some(value)) => Some(value),
        _ => None,
    }
}

/// The id of the record at a place; none where it has a null variable.
pub fn id_at(row: &Row, place: usize, class: u8) -> Option<i64>
    ensures { result ≡ id_at row.now place class }
{
    Some(i64::from(placed_at(row, place, class)?.id))
}

/// A field of the record at a place; none where there is no such record or field, or where it has a null variable.
pub fn field_at(row: &Row, place: usize, class: u8, field: usize) -> Option<i64>
    ensures { result ≡ field_at row.now place class field }
{
    placed_at(row, place, class)?.fields.get(field).copied()
}

/// A field of the record at a place, be its variables null or not; none where there is no such record or field.
pub fn given_field_at(row: &Row, place: usize, class: u8, field: usize) -> Option<i64>
    ensures { result ≡ given_field_at row.now place class field }
{
    record_at(row, place, class)?.fields.get(field).copied()
}

/// Whether the record at a place has this variable and it is null; false where there is no such record.
pub fn is_null_at(row: &Row, place: usize, class: u8, var: usize) -> bool
    ensures { result ≡ is_null_at row.now place class var }
{
    match record_at(row, place, class) {
        Some(rec) => match rec.planned.get(var) {
            Some(value) => value.is_none(),
            None => false,
        },
        None => false,
    }
}

/// The id of the value that a variable of the record at a place holds.
pub fn held_id_at(row: &Row, place: usize, class: u8, var: usize) -> Option<i64>
    ensures { result ≡ held_id_at row.now place class var }
{
    Some(i64::from(value_at(row, place, class, var)?.id))
}

/// A field of the value that a variable of the record at a place holds; none where there is no such value or field.
pub fn held_field_at(row: &Row, place: usize, class: u8, var: usize, field: usize) -> Option<i64>
    ensures { result ≡ held_field_at row.now place class var field }
{
    value_at(row, place, class, var)?.fields.get(field).copied()
}

/// The number at a place; none where the row ends before it or that part is a record.
pub fn number_at(row: &Row, place: usize) -> Option<i64>
    ensures { result ≡ number_at row.now place }
{
    match row.part(place) {
        Some(Part::Num(number)) => Some(*number),
        _ => None,
    }
}
