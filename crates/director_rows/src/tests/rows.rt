//! Rows, as tests write them down.
use crate::part_number;
use plan_rules::{Match, Row};

/// A row of at most 3 parts: how many they are, and their numbers, with 0 for those that it doesn't have. The number of a
/// fact is its id.
#[derive(Clone, Copy, Drop)]
pub(super) struct RowSketch(pub(super) usize, pub(super) [i64; 3]);

/// The place of a rule, and the one row that it has, if any.
#[derive(Clone, Copy, Drop)]
pub(super) struct OnlyRow(pub(super) u8, pub(super) Option<RowSketch>);

/// The number of the part at a place of a row; 0 where it has none there.
fn number_at(row: &Row, place: usize) -> i64 {
    match row.part(place) {
        Some(part) => part_number(part),
        None => 0,
    }
}

/// Whether a row is as it was sketched.
fn is_row(row: &Row, sketch: RowSketch) -> bool {
    let RowSketch(parts, [first, second, third]) = sketch;
    row.len() == parts
        && number_at(row, 0) == first
        && number_at(row, 1) == second
        && number_at(row, 2) == third
}

/// Whether there is the wanted row alone, or none where none is wanted.
pub(super) fn is_only_row(rows: &[Row], wanted: Option<RowSketch>) -> bool {
    match (rows, wanted) {
        ([], None) => true,
        ([row], Some(sketch)) => is_row(row, sketch),
        _ => false,
    }
}

/// Whether there is a match with the wanted row alone, or none where none is wanted.
pub(super) fn is_only_match(matches: &[Match], wanted: Option<RowSketch>) -> bool {
    match (matches, wanted) {
        ([], None) => true,
        ([one], Some(sketch)) => is_row(&one.row, sketch),
        _ => false,
    }
}
